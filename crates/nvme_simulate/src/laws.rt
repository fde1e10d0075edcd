//! Loads, worked by hand. Each function does nothing: its contract is the law.
ghost use Rattle.nvme_simulate.specs.Examples.{LoadExamples, LongExamples, MeanExamples, ScalingExamples};

/// The means of times, and of the commands of a queue.
pub fn worked_means()
    ensures { MeanExamples }
{}

/// What open queues ask for, and what a device can do.
pub fn worked_loads()
    ensures { LoadExamples }
{}

/// Gaps that are scaled to a load.
pub fn worked_scaling()
    ensures { ScalingExamples }
{}

/// Gaps that would be too long, and the longest ones that aren't.
pub fn worked_long_gaps()
    ensures { LongExamples }
{}
