//! A picture of a trace of arbitration.
#![tactic(auto)]

mod picture;
mod rows;

pub use picture::{Form, Picture, Style, chart};
