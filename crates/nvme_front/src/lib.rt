//! The front of an NVMe controller, which fetches commands, picks them by arbitration, has them executed and posts
//! their completions, and is settled with its hosts at the end: a controller (`nvme_engine`) with the front's ends of the
//! rings, the jobs of the workers (`nvme_jobs`) and a log. `nvme_log` defines what its log says.
#![tactic(auto)]

mod arbitration;
mod beginning;
mod completions;
mod deletion;
mod dispatches;
mod ends;
mod front;
mod handover;
mod last_look;
pub mod laws;
mod log;
mod region;
mod regions;
mod scan;
mod settled;
mod settlement;
mod state;

pub use front::{AddError, Front, FrontConfig, FrontError, Step};
pub use last_look::drop_beside;
pub use nvme_log::{Event, Listed, MAX_EVENTS, MAX_OUTSTANDING};
pub use settled::{Sent, SettleError, Settled};
pub use settlement::{Parts, settle};
