//! How long a command waits for arbitration in a run of a simulation: no longer than the bounds of `nvme_bounds` say, and in a run of a model no
//! longer than is told of it.
#![tactic(auto)]

pub mod laws;
