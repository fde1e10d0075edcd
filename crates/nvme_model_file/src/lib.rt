//! The simulation file: what its bytes say of a model, and how its first fault is told.
#![tactic(auto)]

mod fault;
mod faults;
mod file;

pub use fault::{Flaw, ModelFault, Told};
pub use file::{model_in, model_in_document, simulation_in, sources_in, sources_in_document};
pub use nvme_model_form::{
    Fault, Key, Kind, ModelError, Owner, Place, Refusal, Source, Target, is_simulation, model_of,
    sources_of,
};
