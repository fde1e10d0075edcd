//! Laws over the definitions alone. Each function does nothing: its contract is the law.
ghost use Rattle.std.specs.Prelude.{◌<◌, ℕ};
ghost use Rattle.nvme_model_form.specs.Times.{IsNearest, gap_of_rate};

/// The gap of a rate is the nearest whole number of picoseconds.
pub fn rates_mean_nearest_gaps()
    ensures { (rate : ℕ) → 0 < rate → IsNearest rate (gap_of_rate rate) }
{}
