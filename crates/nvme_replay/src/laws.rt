//! Speeds, worked by hand. The function does nothing: its contract is the law.
ghost use Rattle.nvme_replay.specs.Examples.{SpeedExamples};

/// What texts of speeds say, and times at a speed.
pub fn worked_speeds()
    ensures { SpeedExamples }
{}
