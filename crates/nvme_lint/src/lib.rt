//! Checks a workload file for its writer: what of a valid workload has no effect. Its faults are those that
//! `nvme_workload::read_placed` answers.
#![tactic(auto)]

mod cause;
mod heed;
mod lints;
mod named;
mod part;
mod room;
mod scripts;
mod site;
mod warning;
mod warnings;

pub use lints::lint;
pub use named::status_name;
pub use part::Part;
pub use room::Room;
pub use site::Site;
pub use warning::{Kind, Warning, WarningDetails};
