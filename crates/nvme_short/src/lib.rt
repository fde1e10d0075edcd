//! The short workload file: what it is written out to, and how its faults are told.
#![tactic(auto)]

mod creates;
mod document;
mod expansion;
mod faults;
pub mod laws;
mod looking;
mod names;
mod near;
mod scan;
mod short_fault;
mod spot;
mod texts;

pub use expansion::{ExpandError, Standing, expand, read_short, short_in, stood_for};
pub use faults::{MOST_TOLD, ShortFaults};
pub use names::Names;
pub use near::nearest;
pub use nvme_short_form::{Fault, Flaw, Form, Item, Key, Place, Queue, Run, ShortError, Step};
pub use scan::{Step as PathStep, offset_of};
pub use short_fault::{Note, ShortDetails, ShortFault, fault_in, found_in, is_short_key, start_of};
pub use spot::{Spot, spot_behind};
