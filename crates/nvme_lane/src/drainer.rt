//! Drives the get end of a ring, and keeps what it gets in a list.
ghost use Rattle.std.specs.Prelude.{◌≡◌};

use crate::contents::beside;
use crate::errors::NoMemory;
use crate::get_end::GetEnd;
use crate::put_end::PutEnd;
use std::alloc::Global;

/// A get end, with the list of what it got. Its type keeps that the list is all that was got, wherever
/// the drainer comes from.
#[derive(Drop)]
pub struct Drainer<T: Copy> {
    items: Vec<T>,
    end: GetEnd<T>,
    pub ghost accounted: { items.items ≡ end.got },
}

impl<T: Copy> Drainer<T> {
    ghost use Rattle.std.specs.Prelude.{◌≡◌, ◌+◌, ◌<◌, ◌≤◌, [], ◌∷◌, ◌++◌, length, IfOk, OnErr, IsTrue, IsFalse};
    ghost use mathlib.Core.List.{IsPrefix};
    ghost use Rattle.nvme_lane.specs.Limits.{max_slots};
    ghost use Rattle.nvme_lane.specs.View.{IsPair, SamePut, SameGet};
    ghost use Rattle.nvme_lane.specs.Drainer.{items_of, get_of};

    /// A drainer that has taken nothing. Its list will grow by this allocator.
    pub fn new(alloc: Global, end: GetEnd<T>) -> Drainer<T>
        requires { end.got ≡ [] }
        ensures items { items_of result ≡ [] }
        ensures get { get_of result ≡ end }
    {
        Drainer {
            items: Vec::new(alloc),
            end,
        }
    }

    /// Takes the next item. True where one was taken, false where none was found, which never happens while
    /// an item is `known`. Room is made first, so `NoMemory` changes nothing, and a later call takes the
    /// item that was next.
    pub fn take(&mut self) -> Result<bool, NoMemory>
        ensures ring { SameGet (get_of self.old) (get_of self.new) }
        ensures took { IfOk result (λ b. IsTrue b → (x : T) × (items_of self.new ≡ items_of self.old ++ x ∷ []) × (0 < length (get_of self.old).known → (get_of self.old).known ≡ x ∷ (get_of self.new).known)) }
        ensures none { IfOk result (λ b. IsFalse b → (items_of self.new ≡ items_of self.old) × (get_of self.new ≡ get_of self.old)) }
        ensures some { IfOk result (λ b. 0 < length (get_of self.old).known → IsTrue b) }
        ensures refused { OnErr result ((items_of self.new ≡ items_of self.old) × (get_of self.new ≡ get_of self.old)) }
    {
        if self.items.reserve(1).is_err() {
            return Err(NoMemory);
        }
        match self.end.get() {
            None => Ok(false),
            Some(item) => {
                self.items.push_reserved(item);
                Ok(true)
            }
        }
    }

    /// The items taken, in order.
    pub fn items(&self) -> &[T]
        ensures { result.now ≡ items_of self.now }
    {
        self.items.as_slice()
    }

    /// The items taken, in order. The end is dropped.
    pub fn into_items(self) -> Vec<T>
        ensures { result.items ≡ items_of self }
    {
        let Drainer { items, end: _ } = self;
        items
    }

    /// The address of the ring.
    pub fn address(&self) -> u64
        ensures { result ≡ (get_of self.now).address }
    {
        self.end.address()
    }

    /// The number of items that rest in the ring, by `beside` of the drainer's end and this one.
    pub fn beside(&mut self, put: &mut PutEnd<T>) -> u16
        requires { IsPair put.old (get_of self.old) }
        ensures items { items_of self.new ≡ items_of self.old }
        ensures put_ring { SamePut put.old put.new }
        ensures sent { put.new.sent ≡ put.old.sent }
        ensures get_ring { SameGet (get_of self.old) (get_of self.new) }
        ensures known { IsPrefix (get_of self.old).known (get_of self.new).known }
        ensures rest { items_of self.new ++ (get_of self.new).known ≡ put.new.sent }
        ensures count { result ≡ length (get_of self.new).known }
        ensures few { result < max_slots }
        ensures free { put.new.free + result + 1 ≡ put.new.slots }
        ensures no_smaller { put.old.free ≤ put.new.free }
    {
        beside(put, &mut self.end)
    }
}
