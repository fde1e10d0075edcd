//! What a queue asks of a device and how long the device takes, as functions of what they are given and of random streams.
//! Times are whole picoseconds. No clock is read, and there is no float.
#![tactic(auto)]

mod arrivals;
pub mod laws;
mod mean;
mod mix;
mod phases;
mod places;
mod replay;
mod services;

pub use arrivals::{Arrivals, ArrivalsFault, Closed, Gap};
pub use mean::{Mean, MeanFault};
pub use mix::{Mix, MixFault, Operation};
pub use phases::{Phases, PhasesFault};
pub use places::{Extent, ExtentFault, MAX_BLOCKS, Order, Places};
pub use replay::{Replay, ReplayFault, Request};
pub use services::{Distribution, Service, Services};
