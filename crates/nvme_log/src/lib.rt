//! The log of a front: its events, and what they say of queues, places and completions. `specs/` defines when a log
//! accounts for what the hosts submitted and collected. `laws` has the laws of such logs.
#![tactic(auto)]

mod event;
pub mod laws;
mod limits;
mod listed;
mod place;

pub use event::Event;
pub use limits::{MAX_EVENTS, MAX_OUTSTANDING, window_of};
pub use listed::Listed;
pub use place::Place;
