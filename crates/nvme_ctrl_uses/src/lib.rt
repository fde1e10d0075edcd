//! A device over an array that stands for guest memory, to be copied: it owns the slots of its controller, reads the
//! entries that the controller fetches, executes the commands that it hands out, and writes the completions that it
//! posts. What a device keeps of its own, such as blocks, would stand beside the memory.
#![tactic(auto)]

mod device;
mod memory;

pub use device::{ROOM, STEPS, answer_to, execute, fetch_queue, post_queue, serve, step};
pub use memory::{ALL_SLOTS, Memory, SLOTS};
