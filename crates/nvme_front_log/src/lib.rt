//! The log of a front, by its engine (`nvme_engine`), before the judge of every controller (`nvme_audit`): a law over the
//! definitions alone. There is no code here.
#![tactic(auto)]

pub mod laws;
