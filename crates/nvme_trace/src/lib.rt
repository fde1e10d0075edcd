//! Traces of arbitration, which say what an arbiter saw and picked: how they are read, and the check of each pick.
#![tactic(auto)]

mod basis;
mod explanation;
mod fault;
mod follower;
mod judge;
mod judges;
mod laws;
mod names;
mod notes;
mod raw;
mod records;
mod state;
mod survey;
mod taken;
mod trace;
mod verdicts;

pub use basis::Basis;
pub use explanation::{SettingsInWords, put_limits, sentence_of};
pub use fault::{Field, LineFault, TraceError};
pub use judge::{Finding, Judge};
pub use judges::{Breach, Reason, judge_by_rules};
pub use laws::{
    lawful_runs_are_taken, lawful_texts_are_allowed, lawful_texts_pass,
    runs_within_rooms_are_taken, surveys_of_none_are_lawful, taken_runs_are_lawful,
    texts_are_read_as_written, texts_follow_each_history, texts_have_one_answer,
};
pub use names::{class_name, mechanism_name};
pub use notes::event_note;
pub use nvme_arbiter::specified::Rule;
pub use records::{Head, TraceEvent, event_in, mechanism_of};
pub use survey::{Counts, Difference, Kind, Survey, check_all};
pub use trace::Trace;
pub use verdicts::{Checked, Refusal, check, check_by};
