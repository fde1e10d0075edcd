//! Laws over the definitions alone. Each function does nothing: its contract is the law.
ghost use Rattle.nvme_model.specs.declared.times.Times.{Times};
ghost use Rattle.nvme_model.specs.Laws.{IsSumOfParts};

/// A latency is the sum of its parts.
pub fn latency_is_sum_of_parts()
    ensures { (times : Times) → IsSumOfParts times }
{}
