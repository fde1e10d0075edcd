//! What is simulated: the hosts of queues, the settings of a controller and a device; and what is told of each command.
//! Times are whole picoseconds.
#![tactic(auto)]

mod device;
mod finished;
pub mod laws;
mod model;
mod queue;
mod times;

pub use device::{Device, DeviceFault, MAX_DEPTH, Pauses, PausesFault};
pub use finished::Finished;
pub use model::{End, EndFault, MAX_COMMANDS, MAX_QUEUES, Model, QueuesFault};
pub use queue::{MAX_SLOTS, MIN_SLOTS, Queue, SlotsFault};
pub use times::Times;
