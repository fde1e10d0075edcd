//! A queue table whose queues lie on regions, or anywhere in memory.
#![tactic(auto)]

mod placement;
mod table;
mod tokens;

pub use placement::{INVALID_INTERRUPT_VECTOR, PRP_OFFSET_INVALID, Placement};
pub use table::PlacedTable;
