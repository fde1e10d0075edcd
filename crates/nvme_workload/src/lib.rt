//! The workload file: what hosts submit, and the controller that they submit it to.
#![tactic(auto)]

mod error;
mod fault;
mod file;
mod flaw;
mod found;
mod key;
mod memory;
mod place;
mod plan;
mod ranges;
mod reading;
mod regions;
mod scripts;
mod values;

pub use error::WorkloadError;
pub use fault::{Details, Fault, ReadError, Why};
pub use file::{DocumentError, document, read, read_document};
pub use flaw::{Flaw, PlanError};
pub use found::Found;
pub use key::Key;
pub use memory::MAX_MEMORY;
pub use place::{Place, Spot};
pub use plan::{CqPlan, Sequence, SqPlan, Workload};
pub use reading::read_placed;
pub use scripts::MAX_COMMANDS;
