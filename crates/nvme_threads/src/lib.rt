//! Drives a front with its hosts and its workers, each on a thread of its own, and the front on the calling thread.
#![tactic(auto)]

mod bells;
mod crew;
mod drainer;
mod drives;
mod fed_drives;
mod feeder;
mod flags;
mod hosts;
mod join;
mod loaded_rings;
mod pauses;
mod start;
mod tasks;
mod turns;
mod watch;

pub use drives::{DriveError, drive};
pub use fed_drives::drive_fed;
pub use loaded_rings::{SqEnds, load};
