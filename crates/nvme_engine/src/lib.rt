//! A controller with its slots, as a front uses it, which keeps the log and the rings: each entry that the front gets is
//! submitted and fetched at once, each command is taken when it is picked, and each completion consumed when it is
//! posted. `specs/Standing.antt` says when an engine stands at a front's log.
#![tactic(auto)]

mod admin;
mod answers;
mod deletion;
mod engine;
mod fetches;
pub mod laws;
mod picks;
mod posts;
mod queues;

pub use admin::Ending;
pub use answers::Taking;
pub use deletion::Finishing;
pub use engine::Engine;
