// What is counted of commands.
ghost use Rattle.std.specs.Prelude.{◌≡◌, ◌≤◌, ◌+◌, ◌-◌, ◌*◌, [], ◌∷◌, ◌++◌, IsPermutation, OnErr, OnOk, length};
ghost use Rattle.nvme_latency.specs.Times.{ranked_times, times_of};
ghost use Rattle.nvme_numbers.specs.Sums.{no_sums, sums_plus, sums_with};

use crate::sums::{NOTHING, Sums};
use nvme_latency::{Latencies, Ranked};
use nvme_model::Finished;
use std::alloc::{AllocError, Global};

/// The latencies of commands as they come, and sums over the same commands.
#[derive(Drop)]
pub struct Tally {
    pub latencies: Latencies,
    pub sums: Sums,
    ghost bytes_within: { sums.bytes ≤ length (times_of latencies) * 0xffff_ffff_ffff_ffff },
    ghost host_within: { sums.host ≤ length (times_of latencies) * 0xffff_ffff_ffff_ffff },
    ghost arbitration_within: { sums.arbitration ≤ length (times_of latencies) * 0xffff_ffff_ffff_ffff },
    ghost device_within: { sums.device ≤ length (times_of latencies) * 0xffff_ffff_ffff_ffff },
    ghost service_within: { sums.service ≤ length (times_of latencies) * 0xffff_ffff_ffff_ffff },
}

impl Tally {
    /// Of no command.
    pub fn new(alloc: Global) -> Tally
        ensures times { times_of result.latencies ≡ [] }
        ensures sums { result.sums ≡ no_sums }
    {
        Tally {
            latencies: Latencies::new(alloc),
            sums: NOTHING,
        }
    }

    /// Adds a command. Where there is no memory for it, all stays as it was.
    pub fn add(&mut self, finished: &Finished) -> Result<(), AllocError>
        ensures times { OnOk result (times_of self.new.latencies
            ≡ times_of self.old.latencies ++ (finished.now.times.done - finished.now.times.came) ∷ []) }
        ensures sums { OnOk result (self.new.sums ≡ sums_with self.old.sums finished.now) }
        ensures err_times { OnErr result (times_of self.new.latencies ≡ times_of self.old.latencies) }
        ensures err_sums { OnErr result (self.new.sums ≡ self.old.sums) }
    {
        self.latencies.add(finished.times.latency())?;
        self.sums = self.sums.with(finished);
        Ok(())
    }

    /// Adds the commands of another tally. Where there is no memory for them, all stays as it was.
    pub fn append(&mut self, others: &RankedTally) -> Result<(), AllocError>
        ensures times { OnOk result (times_of self.new.latencies
            ≡ times_of self.old.latencies ++ ranked_times others.now.latencies) }
        ensures sums { OnOk result (self.new.sums ≡ sums_plus self.old.sums others.now.sums) }
        ensures err_times { OnErr result (times_of self.new.latencies ≡ times_of self.old.latencies) }
        ensures err_sums { OnErr result (self.new.sums ≡ self.old.sums) }
    {
        self.latencies.append(&others.latencies)?;
        self.sums = self.sums.plus(&others.sums);
        Ok(())
    }

    /// The same, with the latencies from the shortest to the longest.
    pub fn ranked(self) -> RankedTally
        ensures times { IsPermutation (times_of self.latencies) (ranked_times result.latencies) }
        ensures sums { result.sums ≡ self.sums }
    {
        let Tally { latencies, sums } = self;
        RankedTally {
            latencies: latencies.ranked(),
            sums,
        }
    }
}

/// The latencies of commands by their rank, and sums over the same commands.
#[derive(Drop)]
pub struct RankedTally {
    pub latencies: Ranked,
    pub sums: Sums,
    ghost bytes_within: { sums.bytes ≤ length (ranked_times latencies) * 0xffff_ffff_ffff_ffff },
    ghost host_within: { sums.host ≤ length (ranked_times latencies) * 0xffff_ffff_ffff_ffff },
    ghost arbitration_within: { sums.arbitration ≤ length (ranked_times latencies) * 0xffff_ffff_ffff_ffff },
    ghost device_within: { sums.device ≤ length (ranked_times latencies) * 0xffff_ffff_ffff_ffff },
    ghost service_within: { sums.service ≤ length (ranked_times latencies) * 0xffff_ffff_ffff_ffff },
}
