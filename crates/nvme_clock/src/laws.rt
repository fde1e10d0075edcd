//! Laws over the definitions alone, worked examples among them. Each function does nothing: its contract is the law.
ghost use Rattle.std.specs.Prelude.{◌<◌, ℕ};
ghost use Rattle.nvme_clock.specs.Draws.{IsFair};
ghost use Rattle.nvme_clock.specs.Examples.{DrawExamples, DurationExamples, EventExamples, PublishedWords};

/// Durations, and texts that are none.
pub fn worked_durations()
    ensures { DurationExamples }
{}

/// Draws from streams of given words.
pub fn worked_draws()
    ensures { DrawExamples }
{}

/// The words that are published of xoshiro256++ and of SplitMix64.
pub fn published_words()
    ensures { PublishedWords }
{}

/// Events of one time come in the order in which they were pushed.
pub fn worked_events()
    ensures { EventExamples }
{}

/// A uniform number has no bias: each number below a bound is the remainder of equally many accepted words.
pub fn uniform_is_fair()
    ensures { (n : ℕ) → 0 < n → IsFair n }
{}
