//! The get end of a ring. It may move to a thread of its own, and no call on it waits for the other end.
use rtrb::Consumer;
use std::marker::Model;

/// The get end of a ring. Contracts see the list of all that it got (`got`), the items that it
/// knows to come next (`known`), and the address, the slots and the ring that it is an end of.
#[derive(Drop)]
pub struct GetEnd<T: Copy> {
    pub(crate) consumer: Consumer<T>,
    pub(crate) address: u64,
    pub(crate) slots: u16,
}

impl<T: Copy> Model for GetEnd<T> {
    ghost use Rattle.std.specs.Prelude.{◌≡◌, ◌+◌, ◌<◌, ◌≤◌};
    ghost use Rattle.rtrb.specs.Ring.{received, known_items, consumer_capacity};
    ghost use Rattle.nvme_lane.specs.Limits.{min_slots, max_slots};
    ghost use Rattle.nvme_lane.specs.View.{GetView, ring_of_consumer};

    ghost Value = { GetView T };

    ghost view = { λ e. record { got = received e.consumer; known = known_items e.consumer; address = e.address; slots = e.slots; ring = ring_of_consumer e.consumer } };

    ghost invariant = { λ e. (consumer_capacity e.consumer + 1 ≡ e.slots) × (min_slots ≤ e.slots) × (e.slots ≤ max_slots) };
}

impl<T: Copy> GetEnd<T> {
    ghost use Rattle.std.specs.Prelude.{◌≡◌, ◌<◌, ◌≤◌, true, false, [], ◌∷◌, ◌++◌, length, take, drop, IsSome, IfSome, IfNone};
    ghost use mathlib.Core.List.{IsPrefix};
    ghost use Rattle.nvme_lane.specs.Limits.{min_slots, max_slots};
    ghost use Rattle.nvme_lane.specs.View.{SameGet};

    /// Whether nothing was found to be got: never while an item is `known`. What it finds is `known` then. Where it
    /// finds nothing, or an item was `known` before, nothing changes.
    pub fn is_empty(&mut self) -> bool
        ensures ring { SameGet self.old self.new }
        ensures got { self.new.got ≡ self.old.got }
        ensures found { result ≡ false → 0 < length self.new.known }
        ensures none_known { result ≡ true → self.old.known ≡ [] }
        ensures unchanged { result ≡ true → self.new ≡ self.old }
        ensures known { 0 < length self.old.known → self.new ≡ self.old }
    {
        if self.consumer.cached_slots() > 0 {
            return false;
        }
        self.consumer.is_empty()
    }

    /// Gets the oldest item that was put and not got, which is `known`.
    pub fn get_known(&mut self) -> T
        requires { 0 < length self.old.known }
        ensures ring { SameGet self.old self.new }
        ensures got { self.new.got ≡ self.old.got ++ result ∷ [] }
        ensures known { self.old.known ≡ result ∷ self.new.known }
    {
        self.consumer.pop_known()
    }

    /// Gets the oldest item that was put and not got. `None`, which changes nothing, where no item was found:
    /// never while an item is `known`.
    pub fn get(&mut self) -> Option<T>
        ensures ring { SameGet self.old self.new }
        ensures got { IfSome result (λ x. self.new.got ≡ self.old.got ++ x ∷ []) }
        ensures known { IfSome result (λ x. 0 < length self.old.known → self.old.known ≡ x ∷ self.new.known) }
        ensures none_known { IfNone result (self.old.known ≡ []) }
        ensures unchanged { IfNone result (self.new ≡ self.old) }
        ensures succeeds { 0 < length self.old.known → IsSome result }
    {
        if self.is_empty() {
            return None;
        }
        Some(self.get_known())
    }

    /// Gets items into the beginning of a slice, in order, until the slice is full or the ring is found empty.
    /// Answers how many.
    pub fn get_some(&mut self, items: &mut [T]) -> usize
        ensures ring { SameGet self.old self.new }
        ensures few { result ≤ length items.old }
        ensures got { self.new.got ≡ self.old.got ++ take result items.new }
        ensures rest { drop result items.new ≡ drop result items.old }
        ensures known { IsPrefix self.old.known (take result items.new ++ self.new.known) }
        ensures none_known { result < length items.old → self.new.known ≡ [] }
    {
        self.consumer.pop_partial_slice(items)
    }

    /// The address that the ring was made with.
    pub fn address(&self) -> u64
        ensures { result ≡ self.now.address }
    {
        self.address
    }

    /// The number of slots that the ring was made with, from `MIN_SLOTS` to `MAX_SLOTS`. The items known to
    /// come next are always fewer.
    pub fn slots(&self) -> u16
        ensures value { result ≡ self.now.slots }
        ensures least { min_slots ≤ result }
        ensures most { result ≤ max_slots }
        ensures known { length self.now.known < result }
    {
        self.slots
    }
}
