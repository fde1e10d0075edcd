//! Arbitration of an NVMe controller: which submission queue is served next, and how many of its commands are taken.
#![tactic(auto)]

mod arbiter;
mod arbiter_fields;
mod bits;
mod board;
mod board_fields;
mod by_class;
mod kept;
mod laws;
mod limits;
mod observation;
mod pick;
mod queues;
mod ready;
mod rules;
mod seek;
pub mod service;
mod settings;
pub mod specified;

pub use arbiter::Arbiter;
pub use arbiter_fields::{ArbiterFields, LastFields, UsedFields};
pub use board::Board;
pub use board_fields::BoardFields;
pub use by_class::ByClass;
pub use kept::{Kept, Last, Used};
pub use laws::{
    fresh_where_due, lawful_picks_are_measured, limits_are_kept, limits_of_observations,
    next_by_identifier, no_burst_limit, nothing_picked_where_idle, one_lawful_pick,
    prefixes_are_lawful, queues_of_a_board, round_robin_four_queues, settings_and_cdw11,
    settings_change, two_admin_commands, urgent_cuts_in, used_is_within_weight,
    weighted_two_rounds, weighted_with_limits,
};
pub use limits::{HIGHEST_COUNT, HIGHEST_QID, QUEUE_LIMIT};
pub use observation::{class_in, is_observation};
pub use pick::{OpenQueue, Pick, Seen};
pub use queues::{QueueFields, QueuesFields};
pub use ready::ReadyQueues;
pub use settings::{Class, Mechanism, Settings};
