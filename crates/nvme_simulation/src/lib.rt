//! A controller in virtual time: hosts whose commands come at random times or by lists, the proved controller, and a
//! device of channels. No clock is read: all that happens is a function of the model, whose seed is that of all that is drawn.
#![tactic(auto)]

mod agenda;
mod beginning;
mod channels;
mod creates;
mod fault;
mod flight;
mod front;
mod happening;
mod host;
mod hosts;
pub mod laws;
mod machine;
mod simulation;

pub use fault::{Broken, SimulationFault};
pub use happening::{Happening, Picked};
pub use simulation::Simulation;
