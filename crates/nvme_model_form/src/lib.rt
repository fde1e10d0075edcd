//! The simulation file: what the table of one says of a model, or its first fault.
#![tactic(auto)]

mod arrivals;
mod device;
mod error;
mod form;
mod key;
pub mod laws;
mod place;
mod queue;
mod services;
mod simulation;
mod sources;
mod spread;
mod tables;
mod times;
mod values;

pub use error::{Fault, Kind, ModelError, Refusal};
pub use form::{is_simulation, model_of};
pub use key::Key;
pub use place::{Owner, Place, Target, key_of};
pub use sources::{Source, sources_of};
pub use tables::{
    ARRIVAL_KEYS, BURST_KEYS, DEVICE_KEYS, FILE_KEYS, FLUSH_KEYS, MIX_KEYS, PAUSE_KEYS, QUEUE_KEYS,
    REPLAY_KEYS, SERVICE_KEYS, SIMULATION_KEYS,
};
