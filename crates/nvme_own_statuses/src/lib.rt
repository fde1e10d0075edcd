//! The statuses that the log of the library's own controller shows to the judge of every controller (`nvme_own_log`): laws of
//! them over the definitions alone. There is no code here.
#![tactic(auto)]

pub mod laws;
