// How far a simulation is, for somebody who waits at a terminal.
use nvme_model::End;
use std::io::{Result, Write};

// The line is written anew behind so many commands.
const STEP: u64 = 20_000;

const PICOSECONDS_PER_MILLISECOND: u64 = 1_000_000_000;

/// A line on a terminal, which tells how many commands are finished of how many, and is gone at the end. A write that
/// fails is ignored.
#[derive(Drop)]
pub struct Progress<W> {
    terminal: Option<W>,
    end: End,
    finished: u64,
}

impl<W: Write> Progress<W> {
    /// Of a simulation that ends so, and finished no command. Without a terminal nothing is written.
    pub fn new(terminal: Option<W>, end: End) -> Progress<W> {
        Progress {
            terminal,
            end,
            finished: 0,
        }
    }

    // Writes the line anew.
    fn write(&mut self, time: u64) -> Result<()> {
        let Some(terminal) = &mut self.terminal else {
            return Ok(());
        };
        let finished = self.finished;
        match self.end.time {
            None => write!(terminal, "\r{finished} of {} commands", self.end.commands),
            Some(end) => {
                let now = time / PICOSECONDS_PER_MILLISECOND;
                let end = end / PICOSECONDS_PER_MILLISECOND;
                write!(terminal, "\r{finished} commands, {now} of {end} ms")
            }
        }
    }

    /// A command more is finished, at this time.
    pub fn add(&mut self, time: u64) {
        self.finished = self.finished.saturating_add(1);
        if self.finished % STEP == 0 {
            let _ = self.write(time);
        }
    }

    /// Takes the line away.
    pub fn clear(&mut self) {
        if self.finished >= STEP
            && let Some(terminal) = &mut self.terminal
        {
            let _ = terminal.write_all(b"\r\x1b[K");
        }
    }
}
