//! The checks of I/O commands for a device over real rings: PSDT is looked at, namespaces may be inactive, and there
//! may be any number of them. The check of a range is there by itself, for opcodes of the device's own.
#![tactic(auto)]

mod commands;
mod identifiers;
pub mod laws;
mod ranges;
#[cfg(test)]
mod tests;

pub use commands::check;
pub use ranges::range;
