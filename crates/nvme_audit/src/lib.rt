//! A judge of a whole controller, whoever made it, from a log of what was seen of it: doorbells, fetched entries and
//! completions. It judges by the specification alone, and keeps what is outstanding.
#![tactic(auto)]

mod answers;
mod commands;
mod event;
mod facts;
mod judge;
mod laws;
mod repair;
mod rules;
mod scene;
mod verdict;

pub use event::{Completion, Event};
pub use facts::{Admin, Command, Cq, Ring, Sq, Start, Tells};
pub use judge::{AuditError, Judge};
pub use laws::{
    answered_once, broken_is_asked, first_breach_is_told, heads_are_counts, late_is_faultless,
    less_is_faultless, projections_are_lawful, worked_coverage, worked_repairs, worked_statuses,
    worked_verdicts,
};
pub use repair::WholeJudge;
pub use scene::{Count, FetchScene, PostScene, Scene, count_asked};
pub use verdict::{Breach, Rule, Verdict};
