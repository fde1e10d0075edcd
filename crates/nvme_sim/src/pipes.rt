// The streams of a program whose output nobody may read any more.
//
// Decided: a closed pipe is a refused write, since Rattle's programs ignore the signal. The exit status is 141 all the
// same, as a shell's.
use std::cell::Cell;
use std::io::{ErrorKind, Result, Write};

/// An output that notes in a cell that its reader is gone: a write was refused since nobody reads the pipe.
#[derive(Drop)]
pub struct Output<'a, W> {
    writer: W,
    is_unread: &'a Cell<bool>,
}

impl<'a, W: Write> Output<'a, W> {
    /// An output that writes to `writer`.
    pub fn new(writer: W, is_unread: &'a Cell<bool>) -> Output<'a, W> {
        Output { writer, is_unread }
    }
}

impl<W: Write> Write for Output<'_, W> {
    ghost contents = { λ o. W.contents o.writer };

    fn write(&mut self, buf: &[u8]) -> Result<usize> {
        let result = self.writer.write(buf);
        if let Err(error) = &result
            && error.kind() == ErrorKind::BrokenPipe
        {
            self.is_unread.set(true);
        }
        result
    }

    fn flush(&mut self) -> Result<()> {
        self.writer.flush()
    }
}

/// Standard error, to which nothing is written once the reader of the output is gone.
#[derive(Drop)]
pub struct Errors<'a, E> {
    writer: E,
    is_unread: &'a Cell<bool>,
}

impl<'a, E: Write> Errors<'a, E> {
    /// Errors that are written to `writer`.
    pub fn new(writer: E, is_unread: &'a Cell<bool>) -> Errors<'a, E> {
        Errors { writer, is_unread }
    }
}

impl<E: Write> Write for Errors<'_, E> {
    fn write(&mut self, buf: &[u8]) -> Result<usize> {
        if self.is_unread.get() {
            Ok(buf.len())
        } else {
            self.writer.write(buf)
        }
    }

    fn flush(&mut self) -> Result<()> {
        self.writer.flush()
    }
}
