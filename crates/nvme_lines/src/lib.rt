//! The lines of a text, which is read as a stream: those that aren't blank, with their numbers.
#![tactic(auto)]

mod lines;
mod numbered;

pub use lines::NextError;
pub use numbered::NumberedLines;
