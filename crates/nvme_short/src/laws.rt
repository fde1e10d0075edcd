//! A law over the definitions alone. The function does nothing: its contract is the law.
ghost use Rattle.nvme_short.specs.Expansion.{FirstFaultIsToldFirst};

/// What is told of a short file begins with its first fault, that at which reading it ends.
pub fn the_first_fault_is_told_first()
    ensures { FirstFaultIsToldFirst }
{}
