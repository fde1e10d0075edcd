//! The entries of NVMe queues: submission and completion entries with their bytes, status values,
//! namespaces, and the outcome of an I/O command.
#![tactic(auto)]

mod admin;
mod completion;
mod laws;
mod namespaces;
mod outcomes;
mod status;
mod submission;

pub use admin::{AdminCommand, admin_of};
pub use completion::{Cqe, complete};
pub use laws::{
    completion_layout_is_exact, submission_layout_is_exact, worked_admin_commands, worked_layouts,
    worked_outcomes,
};
pub use namespaces::{MAX_NAMESPACES, Namespaces, SpaceError};
pub use outcomes::outcome;
pub use status::Status;
pub use submission::Sqe;
