//! Laws of waits. Each function does nothing: its contract is the law.
ghost use Rattle.nvme_bounds.specs.Examples.{BoundExamples};
ghost use Rattle.nvme_bounds.specs.Laws.{EndsComeInTime, FewComeBefore, WaitsAreShort};
ghost use Rattle.nvme_bounds.specs.Pools.{FullPoolsRun};
ghost use Rattle.nvme_bounds.specs.Refills.{EndsMakeRoom};

/// While a queue has commands to be picked and none is, no more commands of others are picked than `Queues::most_before` says: in each stretch of a lawful
/// run, with limits or without, in which the settings stay and only queues that were counted are ready.
pub fn few_come_before()
    ensures { FewComeBefore }
{}

/// Where so many commands run at least at each time, and each takes at most the longest time, so many more end in each longest time.
pub fn ends_come_in_time()
    ensures { EndsComeInTime }
{}

/// Both together: a queue whose command waits while the device is full, and each command that ends there makes room for one that is picked, waits no longer
/// than `time_behind` of `Queues::most_before`.
pub fn waits_are_short()
    ensures { WaitsAreShort }
{}

/// A pool that doesn't pause and has no room runs as many commands as it has channels, or as its depth, where that is less.
pub fn full_pools_run()
    ensures { FullPoolsRun }
{}

/// Where a device has no room before some calls and none after them, as many commands ended between as it took.
pub fn ends_make_room()
    ensures { EndsMakeRoom }
{}

/// Bounds at 8:4:2, worked by hand.
pub fn worked_bounds()
    ensures { BoundExamples }
{}
