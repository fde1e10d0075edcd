//! The report of a run: its picks, its regions, and the completion of each fetched command. `laws` has its law.
#![tactic(auto)]

pub mod laws;
mod reports;

pub use nvme_lane::Mode;
pub use nvme_output::WriteFault;
pub use reports::report;
pub use reports::rows::{CommandRow, CompletionRow, PickRow, Rows, SubmissionRow, rows_of};
