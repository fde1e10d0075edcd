//! Exact order statistics of latencies in whole picoseconds: nothing is put into classes, and nothing is left out.
#![tactic(auto)]

mod latencies;
pub mod laws;
mod ranked;

pub use latencies::Latencies;
pub use ranked::{PARTS, Ranked};
