//! The memory of a controller's commands: slots of a pool, chains of them, the rings of queues by their numbers of slots,
//! and the tags that name the commands that a device has. `laws` says when a tag names no other command.
#![tactic(auto)]

pub mod chain;
pub mod laws;
pub mod ring;
pub mod slot;
pub mod tag;
