//! The short workload file, a form that a person can write: what the table of one says, or its faults.
#![tactic(auto)]

mod admin;
mod admin_flaws;
mod all_flaws;
mod command;
mod error;
mod flaw;
mod form;
mod item_flaws;
mod key;
pub mod laws;
mod place;
mod queue;
mod script;
mod tables;
mod values;

pub use admin::{Step, arbitration_in};
pub use all_flaws::flaws_of;
pub use command::{Item, Run, command_of};
pub use error::{Fault, ShortError};
pub use flaw::Flaw;
pub use form::{Form, form_of, is_short, mechanism_in};
pub use key::Key;
pub use place::Place;
pub use queue::{Queue, qprio_in};
pub use tables::{
    ABORT_KEYS, ACCESS_KEYS, FILE_KEYS, FLUSH_KEYS, GET_KEYS, QUEUE_KEYS, QUEUE_OP_KEYS, RAW_KEYS,
    REPEAT_KEYS, SET_KEYS, SHARED_KEYS, WEIGHT_KEYS,
};
