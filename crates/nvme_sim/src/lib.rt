//! The program `nvmearb` as a library: it does what a command line asks for, over the streams that it is given.
#![tactic(auto)]

mod commands;
mod faults;
pub mod laws;
mod long_script;
mod named;
mod output;
mod pipes;
mod run_answers;
mod second_line;

pub use commands::{command, run_answer};
pub use nvme_report::{Mode, WriteFault, report};
pub use nvme_runs::{Ran, RunError, run, run_with, settled_run};
pub use nvme_words::{
    AuditWords, Format, InputError, MAX_INPUT, MAX_JOBS, MAX_READS, OnceError, Request,
    SimulationWords, WordsError, asked_of, audit_asked, file_named, once, output_named,
    simulation_asked, take_input,
};
pub use output::flushed;
pub use pipes::{Errors, Output};
pub use run_answers::RunAnswer;
