//! Files of requests, which a queue replays: what each line asks for and when. Times are whole picoseconds.
#![tactic(auto)]

mod blkparse;
mod fault;
mod fields;
mod fio;
mod form;
pub mod laws;
mod list;
mod log;
mod records;
mod requests;
mod spaced;
mod speed;
mod traces;
mod words;

pub use fault::{FileFault, LineFault, ReplayError};
pub use form::Form;
pub use list::{Served, Wanted, replay_of};
pub use requests::{Lined, requests_in};
pub use speed::Speed;
