//! Bounds on how long a command waits for arbitration: how many commands of other queues are picked before it, and how long so many commands take on a
//! pool of channels.
#![tactic(auto)]

pub mod laws;
mod queues;
mod waits;

pub use queues::Queues;
pub use waits::time_behind;
