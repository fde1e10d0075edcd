//! Runs of a workload: it is read, driven on threads, settled and reported. `laws` has the laws of runs.
#![tactic(auto)]

pub mod laws;
mod runs;

pub use runs::{Ran, RunError, run, run_with, settled_run};
