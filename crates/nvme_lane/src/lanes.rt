//! A bounded queue for several producers and several consumers, in which each item comes out as often as
//! it went in. Threads share it by reference.
use crate::errors::Full;
use crate::passes::{PopPass, PushPass};
use crate::rule::{Fair, Hand, Puts, Takes};
use crossbeam_queue::RuledArrayQueue;
use std::marker::Model;
use std::sync::Wait;

/// The queue of a lane, under its rule.
pub(crate) type Queue<T> = RuledArrayQueue<T, Hand<T>, Fair>;

/// A lane of items. Contracts see its name and its capacity, which its passes carry too.
#[derive(Drop)]
pub struct Lane<T> {
    pub(crate) queue: Queue<T>,
}

impl<T> Model for Lane<T> {
    ghost use Rattle.std.specs.Prelude.{◌≤◌};
    ghost use Rattle.crossbeam_queue.specs.Passes.{ruled_capacity};
    ghost use Rattle.nvme_lane.specs.Limits.{max_capacity};
    ghost use Rattle.nvme_lane.specs.Passes.{LaneView};

    ghost Value = { LaneView };

    ghost view = { λ l. record { name = l.queue.table.shared.table_id; capacity = ruled_capacity l.queue } };

    ghost invariant = { λ l. ruled_capacity l.queue ≤ max_capacity };
}

impl<T: Copy> Lane<T> {
    ghost use Rattle.std.specs.Prelude.{◌≡◌, [], ◌∷◌, ◌++◌, OnOk, OnErr, IfErr, IfSome, IfNone};
    ghost use Rattle.nvme_lane.specs.Passes.{SamePass};

    /// Pushes an item. `Full` hands the item back where the lane was found full; the pass is unchanged
    /// then. It may wait for another thread.
    pub fn push<R: Wait>(&self, rt: &R, pass: &mut PushPass<T>, item: T) -> Result<(), Full<T>>
        requires { pass.old.lane ≡ self.now }
        ensures same { SamePass pass.old pass.new }
        ensures pushed { OnOk result (pass.new.items ≡ pass.old.items ++ item ∷ []) }
        ensures full { IfErr result (λ e. e.0 ≡ item) }
        ensures unchanged { OnErr result (pass.new ≡ pass.old) }
    {
        match self.queue.push_as::<Puts, R>(rt, &mut pass.pass, item) {
            Ok(()) => Ok(()),
            Err(back) => Err(Full(back)),
        }
    }

    /// Pops an item. `None` where the lane was found empty; the pass is unchanged then. It may wait for
    /// another thread.
    pub fn pop<R: Wait>(&self, rt: &R, pass: &mut PopPass<T>) -> Option<T>
        requires { pass.old.lane ≡ self.now }
        ensures same { SamePass pass.old pass.new }
        ensures popped { IfSome result (λ x. pass.new.items ≡ pass.old.items ++ x ∷ []) }
        ensures unchanged { IfNone result (pass.new ≡ pass.old) }
    {
        self.queue.pop_as::<Takes, R>(rt, &mut pass.pass)
    }
}
