// How much of an input is read, for somebody who waits at a terminal.
use std::io::{Read, Result, Write};

// The line is written anew behind so many bytes. What is written after it begins where it begins.
const STEP: u64 = 0x100_0000;

const MEBIBYTE: u64 = 0x10_0000;

/// An input, and a line on a terminal that tells how much of it is read, and is gone at its end. A write that fails there
/// is ignored.
#[derive(Drop)]
pub(crate) struct Watched<R, P> {
    stream: R,
    // None where nothing is told.
    terminal: Option<P>,
    read: u64,
}

impl<R, P: Write> Watched<R, P> {
    /// This input, of which nothing was read.
    pub(crate) fn new(stream: R, terminal: Option<P>) -> Watched<R, P> {
        Watched {
            stream,
            terminal,
            read: 0,
        }
    }

    // So many bytes more are read. The line is written anew where they go beyond a step.
    fn add(&mut self, count: usize) {
        let steps = self.read / STEP;
        self.read = self.read.saturating_add(count as u64);
        if self.read / STEP != steps
            && let Some(terminal) = &mut self.terminal
        {
            let _ = write!(terminal, "{} MiB read\r", self.read / MEBIBYTE);
        }
    }

    // Takes the line away.
    fn clear(&mut self) {
        if self.read >= STEP
            && let Some(terminal) = &mut self.terminal
        {
            let _ = terminal.write_all(b"\x1b[K");
        }
    }
}

impl<R: Read, P: Write> Read for Watched<R, P> {
    fn read(&mut self, buf: &mut [u8]) -> Result<usize> {
        let result = self.stream.read(buf);
        match &result {
            Ok(0) => self.clear(),
            Ok(count) => self.add(*count),
            Err(_) => {}
        }
        result
    }
}
