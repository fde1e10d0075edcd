//! Laws over the definitions alone, worked examples among them. Each function does nothing: its contract is the law.
ghost use Rattle.std.specs.Prelude.{ℕ, List};
ghost use Rattle.nvme_latency.specs.Examples.{QuantileExamples, RankExamples};
ghost use Rattle.nvme_latency.specs.Laws.{LongestIsLast, OrderIsNoMatter, QuantilesRise};

/// A quantile of more parts is no shorter, so each has one value.
pub fn quantiles_rise()
    ensures { (p q : ℕ) (times : List ℕ) → QuantilesRise p q times }
{}

/// The longest latency is the quantile of all parts.
pub fn longest_is_last()
    ensures { (times : List ℕ) → LongestIsLast times }
{}

/// The same latencies in another order have the same quantiles, mean and longest one.
pub fn order_is_no_matter()
    ensures { (times others : List ℕ) → OrderIsNoMatter times others }
{}

/// Ranks of quantiles.
pub fn worked_ranks()
    ensures { RankExamples }
{}

/// Quantiles of a few latencies, and the longest one.
pub fn worked_quantiles()
    ensures { QuantileExamples }
{}
