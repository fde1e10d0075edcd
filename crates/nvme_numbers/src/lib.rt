//! The numbers of a simulation: how many commands a queue, a class and all had finished, how fast and how long they took, and
//! in which parts of their way. Numbers are whole, latencies are exact, and there is no float. What is told of a simulation is
//! written as text for people, as JSON and as CSV, and each command as a line of a log.
#![tactic(auto)]

mod answer;
mod columns;
mod feed;
mod finish_log;
mod groups;
pub mod laws;
mod names;
mod numbers;
mod quotient;
mod row;
mod sums;
mod tally;

pub use answer::{About, Answer, Member, comma_before, micros};
pub use columns::column;
pub use finish_log::{log_header, log_line};
pub use names::{PickingWords, class_name};
pub use numbers::Numbers;
pub use nvme_output::WriteFault;
pub use row::{Fed, Row, Spread};
