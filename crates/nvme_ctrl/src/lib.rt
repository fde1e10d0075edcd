//! The controller: its state, and a module for each of its calls, without rings in memory, threads, jobs or a kept log.
//! Its owner calls it: the host rang a doorbell (`sq_tail`, `cq_head`), which slot is to be read (`fetch`, `fetched`),
//! what is served next (`pick`, `take`), what the device answered (`complete`), which completion is to be written where
//! (`post`), and whether a deletion is done (`finish`). The owner is told the next queue with work (`next_fetch`,
//! `next_to_post`), and says how many commands of a queue may hold a slot (`set_depth`). It may leave a queue out of
//! arbitration for a while (`hold`), and give it another priority class (`set_class`). It keeps the pool of slots that
//! the commands are in, and gives it to each call.
//!
//! Each call's contract says what is noted in the controller's log, which nobody keeps (`specs/Standing.antt`). The log and
//! its laws are in `nvme_ctrl_log`; `laws` has those of controllers.
#![tactic(auto)]

mod board_counts;
mod deletion;
mod device;
mod doorbells;
mod effects;
mod fetches;
mod holds;
pub mod laws;
mod lookups;
mod making;
mod next_queue;
mod outlook;
mod own;
mod picks;
mod posts;
mod queue_set;
mod ranges;
mod state;

pub use device::Answer;
pub use lookups::Waiting;
pub use nvme_ctrl_log::StatusFlags;
pub use nvme_slots::ring::Ring;
pub use nvme_slots::slot::{Slot, slot_at};
pub use nvme_slots::tag::Tag;
pub use own::OwnCommands;
pub use picks::Step;
pub use posts::Post;
pub use state::Controller;
