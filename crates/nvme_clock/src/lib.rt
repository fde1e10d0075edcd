//! Virtual time in whole picoseconds: durations as people write them, events to come in a stable order, and random streams
//! with what is drawn from them. No clock is read: each is a function of what it is given.
#![tactic(auto)]

mod draws;
mod durations;
mod events;
pub mod laws;
mod quantiles;
mod streams;

pub use draws::{MAX_MEAN, TwoPoints, exponential, uniform};
pub use durations::{DurationFault, duration_in};
pub use events::{Event, EventQueue, PushFault};
pub use quantiles::{Quantiles, TableFault};
pub use streams::{Purpose, stream};
