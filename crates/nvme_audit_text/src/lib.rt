//! Logs of whole controllers as text: what their lines say, and the audit of a log.
#![tactic(auto)]

mod audit;
mod entries;
mod events;
mod explanation;
mod facts;
mod fault;
mod head;
mod laws;
mod names;
mod notes;
mod picks;
mod reading;
mod views;
mod whole;

pub use audit::{Audit, Broken, Finding, audit_log};
pub use events::{Said, head_of_line, said_of_line};
pub use facts::Facts;
pub use fault::{Field, Kind, LineFault, LogError};
pub use head::Head;
pub use laws::{breaches_are_first, each_rule_stands, picks_are_told_with_a_mechanism};
pub use names::{breach_name, pick_rule_name, pick_rules, rule_name, rule_named, rules};
pub use nvme_audit::{Breach, Count, Rule, Verdict};
pub use nvme_trace::{Breach as PickBreach, Rule as PickRule};
pub use picks::{PickFinding, ToldPicks};
pub use views::{Completions, Observer, View};
pub use whole::{Place, Told, WholeAudit, audit_whole_log};
