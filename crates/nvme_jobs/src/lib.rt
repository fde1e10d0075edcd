//! The jobs of picked I/O commands: which were handed to the workers of a lane's front, and which wait for their result.
//! `specs/` defines when they are those of a log, and `proofs/` shows that each event of the log, and each step of the
//! jobs, keeps it so.
#![tactic(auto)]

mod dispatched;
mod fifo;
mod jobs;
pub mod laws;
mod running;

pub use dispatched::Dispatched;
pub use jobs::{Gained, Jobs};
