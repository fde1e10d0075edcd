//! The queue table of a controller, its features, and the checks of admin commands.
#![tactic(auto)]

mod bounds;
mod effect;
mod fields;
pub mod laws;
mod layout;
mod limits;
mod region;
mod table;
mod verdict;

pub use bounds::{MAX_IO_QUEUES, MAX_QSIZE, MAX_REGIONS, MAX_SLOTS, MIN_SLOTS};
pub use effect::Effect;
pub use fields::TableFields;
pub use limits::Limits;
pub use region::{AdminError, Region};
pub use table::Table;
pub use verdict::{SqEntry, Verdict};
