//! Laws over the definitions alone, worked examples among them. Each function does nothing: its contract is the law.
ghost use Rattle.std.specs.Prelude.{ℕ, List};
ghost use Rattle.nvme_points.specs.Examples.{EstimateExamples, PointExamples};
ghost use Rattle.nvme_points.specs.Points.{AreAll};

/// The points of a sweep are all combinations, in order, and each is there once.
pub fn points_are_all_combinations()
    ensures { (lengths : List ℕ) → AreAll lengths }
{}

/// The points of two keys.
pub fn worked_points()
    ensures { PointExamples }
{}

/// The differences of a few values, and the width of their interval.
pub fn worked_estimates()
    ensures { EstimateExamples }
{}
