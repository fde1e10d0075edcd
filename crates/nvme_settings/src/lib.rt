//! The settings of the Arbitration feature in words: Command Dword 11 of Set Features 01h, and the burst and the weights
//! that it stands for.
#![tactic(auto)]

pub mod laws;
mod reading;
mod table;

pub use reading::{SettingsFault, settings_in};
pub use table::put_table;
