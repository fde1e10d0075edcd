//! Rows of cells as texts: comma-separated values, members of a JSON object, and lines of a table for people. A row is fields,
//! each a name and a cell. Shares and Jain's index are numbers that cells tell.
#![tactic(auto)]

mod cell;
mod field;
mod json;
pub mod laws;
mod quotients;
mod table;

pub use cell::{Cell, Places};
pub use field::{Field, put_members, put_names, put_object, put_values};
pub use nvme_output::WriteFault;
pub use quotients::{jain, quotient};
pub use table::{Place, Placed, put_row, put_rows};
