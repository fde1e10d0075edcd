//! A use of a front, as a caller writes it: a device that one thread serves.
#![tactic(auto)]

pub mod device;
