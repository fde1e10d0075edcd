//! What a sweep is: the keys of a simulation file and their values, the points, which are all their combinations, a run of a
//! point with one of its seeds, and its means over seeds with their intervals.
#![tactic(auto)]

mod axis;
mod estimates;
mod fault;
pub mod laws;
mod overridden;
mod place;
mod points;
mod rows;
mod sweep;

pub use axis::{Axis, MAX_POINTS, axes_of};
pub use estimates::{Estimate, estimate_of, half_width, mean};
pub use fault::{SweepFault, add};
pub use points::{choices_at, points_of};
pub use rows::{COUNT, MEAN, NAMES, P99, Run, Scope, SweepRow};
pub use sweep::{Overloads, Point, Sweep};
