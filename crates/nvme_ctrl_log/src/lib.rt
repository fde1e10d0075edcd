//! The log of a controller, which nobody keeps: the notes of its calls, in `specs/Notes.antt`, and when they are accounted
//! (`specs/Account.antt`). `laws` has what holds of each such log. Beside the flags of a completion there is no code here.
#![tactic(auto)]

pub mod laws;
mod status_flags;

pub use status_flags::StatusFlags;
