//! Bounds on service, by count: laws over lawful runs in which the settings stay.
ghost use Rattle.nvme_arbiter.specs.Service.{RoundRobinServes, ClassServes, LowIsServed};
ghost use Rattle.nvme_arbiter.specs.ServiceExamples.{RoundRobinBoundIsLeast, ClassBoundIsLeast, LowBoundIsLeast};

/// Round robin: a queue that is seen ready at every pick of a stretch is picked within any 65 picks in a row.
pub fn round_robin_serves()
    ensures { RoundRobinServes }
{}

/// Weighted: a queue that is seen ready in a class at every pick of that class is picked within any 64 picks of the
/// class in a row.
pub fn class_serves()
    ensures { ClassServes }
{}

/// Weighted: where at every pick no admin or urgent queue is seen ready and some low queue is, at most twice the
/// weights of High and Medium together are picked of these levels before a low queue is picked.
pub fn low_is_served()
    ensures { LowIsServed }
{}

/// Round robin: of 65 ready queues the last waits for 64 picks, so the bound of 65 can't be smaller.
pub fn round_robin_bound_is_least()
    ensures { RoundRobinBoundIsLeast }
{}

/// Weighted: of 64 ready queues of a class the last waits for 63 picks, so the bound of 64 can't be smaller.
pub fn class_bound_is_least()
    ensures { ClassBoundIsLeast }
{}

/// Weighted: a low queue waits for four commands at weights 1 and 1, so twice the weights can't be less.
pub fn low_bound_is_least()
    ensures { LowBoundIsLeast }
{}
