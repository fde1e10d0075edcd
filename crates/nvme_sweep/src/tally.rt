// How many runs of a sweep are done, for somebody who waits at a terminal.
use std::io::{Result, Write};
use std::sync::Mutex;
use std::sync::atomic::{AtomicUsize, Ordering};

/// A line on a terminal, which tells how many runs are done of how many, and is gone at the end. Threads share it. A write
/// that fails is ignored.
#[derive(Drop)]
pub struct Tally<P> {
    terminal: Mutex<Option<P>>,
    done: AtomicUsize,
    runs: usize,
}

impl<P: Write + Drop> Tally<P> {
    /// Of so many runs, of which none is done. Without a terminal nothing is written.
    pub fn new(terminal: Option<P>, runs: usize) -> Tally<P> {
        Tally {
            terminal: Mutex::new(terminal),
            done: AtomicUsize::new(0),
            runs,
        }
    }

    // Writes the line anew.
    fn write(&self, terminal: &mut P) -> Result<()> {
        let (done, runs) = (self.done.load(Ordering::SeqCst), self.runs);
        write!(terminal, "\r{done} of {runs} runs")
    }

    /// A run more is done. Where another thread writes just then, a later line tells of it.
    pub fn add(&self) {
        self.done.fetch_add(1, Ordering::SeqCst);
        let Some(mut guard) = self.terminal.try_lock() else {
            return;
        };
        if let Some(terminal) = guard.as_mut() {
            let _ = self.write(terminal);
        }
    }

    /// Takes the line away.
    pub fn end(self) {
        let Tally {
            terminal,
            done: _,
            runs: _,
        } = self;
        if let Some(mut terminal) = terminal.into_inner() {
            let _ = terminal.write_all(b"\r\x1b[K");
        }
    }
}
