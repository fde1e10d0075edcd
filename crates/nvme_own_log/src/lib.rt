//! The log of the library's own controller, shown to the judge of every controller: what notes show of doorbells, fetches
//! and completions, and laws of it over the definitions alone. There is no code here.
#![tactic(auto)]

pub mod laws;
