// Latencies as they come.
ghost use Rattle.std.specs.Prelude.{◌≡◌, [], ◌∷◌, ◌++◌, IsPermutation, OnErr, OnOk, length};

use crate::ranked::Ranked;
use std::alloc::{AllocError, Global};

/// Latencies in picoseconds, in the order in which they came.
#[derive(Drop)]
pub struct Latencies {
    times: Vec<u64>,
}

impl Latencies {
    ghost use Rattle.nvme_latency.specs.Times.{ranked_times, times_of};

    /// No latency.
    pub fn new(alloc: Global) -> Latencies
        ensures { times_of result ≡ [] }
    {
        Latencies {
            times: Vec::new(alloc),
        }
    }

    /// Adds a latency. Where there is no memory for it, the others stay.
    pub fn add(&mut self, time: u64) -> Result<(), AllocError>
        ensures ok { OnOk result (times_of self.new ≡ times_of self.old ++ time ∷ []) }
        ensures err { OnErr result (times_of self.new ≡ times_of self.old) }
    {
        self.times.push(time)?;
        Ok(())
    }

    /// Adds latencies that are ranked. Where there is no memory for them, those that were there stay.
    pub fn append(&mut self, others: &Ranked) -> Result<(), AllocError>
        ensures ok { OnOk result (times_of self.new ≡ times_of self.old ++ ranked_times others.now) }
        ensures err { OnErr result (times_of self.new ≡ times_of self.old) }
    {
        self.times.extend_from_slice(others.times())
    }

    /// Adds latencies of others in their order. Where there is no memory for them, those that were there stay.
    pub fn join(&mut self, others: &Latencies) -> Result<(), AllocError>
        ensures ok { OnOk result (times_of self.new ≡ times_of self.old ++ times_of others.now) }
        ensures err { OnErr result (times_of self.new ≡ times_of self.old) }
    {
        self.times.extend_from_slice(others.times.as_slice())
    }

    /// How many there are.
    pub fn count(&self) -> usize
        ensures { result ≡ length (times_of self.now) }
    {
        self.times.len()
    }

    /// The same latencies, from the shortest to the longest.
    pub fn ranked(self) -> Ranked
        ensures { IsPermutation (times_of self) (ranked_times result) }
    {
        let mut times = self.times;
        // (those that are ranked already are merged, where there is memory for that)
        if times.sort().is_err() {
            times.sort_unstable();
        }
        Ranked::of_sorted(times)
    }
}
