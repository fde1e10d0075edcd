// What is written while a simulation runs.
use crate::fault::{SimulateFault, Stream};
use crate::progress::Progress;
use crate::trace::{put_pick, put_trace_head};
use nvme_arbiter::Seen;
use nvme_model::{Finished, Model};
use nvme_numbers::{log_header, log_line};
use nvme_simulation::Picked;
use std::io::Write;

/// Where what happens is written, as far as it is wanted.
#[derive(Drop)]
pub struct Streams<L, T, P> {
    /// A line of comma-separated values for each finished command, below one with the names.
    pub log: Option<L>,
    /// A line for each pick, below the head of a trace.
    pub trace: Option<T>,
    pub progress: Progress<P>,
}

impl<L: Write, T: Write, P: Write> Streams<L, T, P> {
    // Writes what stands above the first line.
    pub(crate) fn begin(&mut self, model: &Model) -> Result<(), SimulateFault> {
        if let Some(log) = &mut self.log
            && log_header(log).is_err()
        {
            return Err(SimulateFault::Write(Stream::Log));
        }
        if let Some(trace) = &mut self.trace
            && put_trace_head(model, trace).is_err()
        {
            return Err(SimulateFault::Write(Stream::Trace));
        }
        Ok(())
    }

    // Writes a pick, which was shown these queues.
    pub(crate) fn pick(&mut self, picked: &Picked, seen: &[Seen]) -> Result<(), SimulateFault> {
        if let Some(trace) = &mut self.trace
            && put_pick(picked, seen, trace).is_err()
        {
            return Err(SimulateFault::Write(Stream::Trace));
        }
        Ok(())
    }

    // Writes a finished command.
    pub(crate) fn finish(&mut self, finished: &Finished) -> Result<(), SimulateFault> {
        self.progress.add(finished.times.done);
        if let Some(log) = &mut self.log
            && log_line(finished, log).is_err()
        {
            return Err(SimulateFault::Write(Stream::Log));
        }
        Ok(())
    }

    // Writes what is left.
    pub(crate) fn end(&mut self) -> Result<(), SimulateFault> {
        if let Some(log) = &mut self.log
            && log.flush().is_err()
        {
            return Err(SimulateFault::Write(Stream::Log));
        }
        if let Some(trace) = &mut self.trace
            && trace.flush().is_err()
        {
            return Err(SimulateFault::Write(Stream::Trace));
        }
        Ok(())
    }
}
