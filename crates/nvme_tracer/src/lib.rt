//! The trace of a log: how it is written, and that each one is lawful.
#![tactic(auto)]

mod laws;
mod writer;

pub use laws::written_traces_are_lawful;
pub use nvme_output::WriteFault;
pub use writer::{put_head, put_seen, write_trace};
