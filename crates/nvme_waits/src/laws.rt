//! Laws over the definitions alone. Each function does nothing: its contract is the law.
ghost use Rattle.nvme_waits.specs.Examples.{BoundExamples, TextExamples};
ghost use Rattle.nvme_waits.specs.Laws.{NoneTakesLonger};

/// No command that may come takes longer than the longest service that `Bounds::of` tells.
pub fn none_takes_longer()
    ensures { NoneTakesLonger }
{}

/// Bounds in time, worked by hand.
pub fn worked_bounds()
    ensures { BoundExamples }
{}

/// A line of the table, and why there is no bound.
pub fn worked_texts()
    ensures { TextExamples }
{}
