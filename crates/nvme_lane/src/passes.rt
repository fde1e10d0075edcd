//! The right to push into a lane, and the right to pop from one. A pass may move to a thread of its own.
use crate::rule::Hand;
use crossbeam_queue::Pass;
use std::marker::Model;

/// The right to push. Contracts see the lane that it is of, its parts of that lane, and the list of what
/// was pushed by it (`items`).
#[derive(Drop)]
pub struct PushPass<T> {
    pub(crate) pass: Pass<T, Hand<T>>,
    // How many items the lane holds at most.
    pub(crate) capacity: u16,
}

impl<T> Model for PushPass<T> {
    ghost use Rattle.std.specs.Prelude.{◌≡◌, ◌<◌, []};
    ghost use Rattle.crossbeam_queue.specs.Passes.{view as hand_of};
    ghost use Rattle.nvme_lane.specs.Passes.{PassView};

    ghost Value = { PassView T };

    ghost view = { λ p. record { lane = record { name = p.pass.table_id; capacity = p.capacity }; parts = (hand_of p.pass).parts; items = (hand_of p.pass).put } };

    ghost invariant = { λ p. (p.pass.me.1 ≡ []) × (0 < (hand_of p.pass).parts) × ((hand_of p.pass).taken ≡ []) };
}

/// The right to pop. Contracts see the lane that it is of, its parts of that lane, and the list of what
/// was popped by it (`items`).
#[derive(Drop)]
pub struct PopPass<T> {
    pub(crate) pass: Pass<T, Hand<T>>,
    // How many items the lane holds at most.
    pub(crate) capacity: u16,
}

impl<T> Model for PopPass<T> {
    ghost use Rattle.std.specs.Prelude.{◌≡◌, ◌<◌, []};
    ghost use Rattle.crossbeam_queue.specs.Passes.{view as hand_of};
    ghost use Rattle.nvme_lane.specs.Passes.{PassView};

    ghost Value = { PassView T };

    ghost view = { λ p. record { lane = record { name = p.pass.table_id; capacity = p.capacity }; parts = (hand_of p.pass).parts; items = (hand_of p.pass).taken } };

    ghost invariant = { λ p. (p.pass.me.1 ≡ []) × (0 < (hand_of p.pass).parts) × ((hand_of p.pass).put ≡ []) };
}
