//! The waits of a simulation's commands for arbitration: the longest that were seen, and how long they may be.
#![tactic(auto)]

mod bounds;
pub mod laws;
mod texts;
mod waits;

pub use bounds::{Bound, Bounds, NoBound};
