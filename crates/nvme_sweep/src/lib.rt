//! How a sweep is run, on several threads, and told: its answer as text, JSON or comma-separated values, its picture, and a
//! command line for each point.
#![tactic(auto)]

mod answer;
mod chart;
mod commands;
mod crew;
mod lines;
mod object;
mod positions;
mod sheet;
mod table;
mod tally;

pub use answer::{Style, put_answer};
pub use commands::{CommandWords, put_commands};
pub use lines::{drawn_class, look_at_lines};
