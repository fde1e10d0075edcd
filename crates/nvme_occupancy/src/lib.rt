//! How many commands are in a system over time, and Little's law as an identity of whole numbers.
#![tactic(auto)]

pub mod laws;
mod occupancy;

pub use occupancy::{Occupancy, OccupancyFault};
