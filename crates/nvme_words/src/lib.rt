//! What the program `nvmearb` is given: its words, its input, and one entry with its answer.
#![tactic(auto)]

mod audits;
mod entries;
mod files;
mod input;
mod laws;
mod program;
mod requests;
mod simulations;
mod words;

pub use audits::{AuditWords, audit_asked};
pub use entries::{OnceError, once};
pub use files::{file_named, output_named};
pub use input::{InputError, MAX_INPUT, MAX_READS, take_input};
pub use laws::{
    lines_ask_for, lines_have_faults, lines_name_files, lines_name_outputs, lines_show_text,
    one_request,
};
pub use nvme_version::VERSION;
pub use program::MAX_JOBS;
pub use requests::{Drawing, Format, Numbers, OptionsFault, Range, Request, WordsError, asked_of};
pub use simulations::{SimulationWords, simulation_asked};
pub use words::reads_input_alone;
