//! The put end of a ring. It may move to a thread of its own, and no call on it waits for the other end.
use crate::errors::Full;
use rtrb::Producer;
use std::marker::Model;

/// The put end of a ring. Contracts see the list of all that it put (`sent`), how many places it
/// knows to be free (`free`), and the address, the slots and the ring that it is an end of.
#[derive(Drop)]
pub struct PutEnd<T: Copy> {
    pub(crate) producer: Producer<T>,
    pub(crate) address: u64,
    pub(crate) slots: u16,
    // The number of places that were free when both ends were last looked at together, less those filled since.
    pub(crate) free: u16,
}

impl<T: Copy> Model for PutEnd<T> {
    ghost use Rattle.std.specs.Prelude.{◌≡◌, ◌+◌, ◌<◌, ◌≤◌};
    ghost use Rattle.rtrb.specs.Ring.{sent, known_free, producer_capacity};
    ghost use Rattle.nvme_lane.specs.Limits.{min_slots, max_slots};
    ghost use Rattle.nvme_lane.specs.View.{PutView, ring_of_producer};

    ghost Value = { PutView T };

    ghost view = { λ e. record { sent = sent e.producer; free = e.free; address = e.address; slots = e.slots; ring = ring_of_producer e.producer } };

    ghost invariant = { λ e. (producer_capacity e.producer + 1 ≡ e.slots) × (e.free ≤ known_free e.producer) × (e.free < e.slots) × (min_slots ≤ e.slots) × (e.slots ≤ max_slots) };
}

impl<T: Copy> PutEnd<T> {
    ghost use Rattle.std.specs.Prelude.{◌≡◌, ◌-◌, ◌<◌, ◌≤◌, [], ◌∷◌, ◌++◌, length, take, IsOk, OnOk, IfErr, OnErr};
    ghost use Rattle.nvme_lane.specs.Limits.{min_slots, max_slots};
    ghost use Rattle.nvme_lane.specs.View.{SamePut};

    /// Puts an item after those put before. `Full`, which changes nothing, hands the item back where no place
    /// was found free: never while `free` is above 0.
    pub fn put(&mut self, item: T) -> Result<(), Full<T>>
        ensures ring { SamePut self.old self.new }
        ensures sent { OnOk result (self.new.sent ≡ self.old.sent ++ item ∷ []) }
        ensures free { OnOk result (self.new.free ≡ self.old.free - 1) }
        ensures full { IfErr result (λ e. e.0 ≡ item) }
        ensures unchanged { OnErr result (self.new ≡ self.old) }
        ensures succeeds { 0 < self.old.free → IsOk result }
    {
        if self.free > 0 {
            self.free -= 1;
        } else if self.producer.is_full() {
            return Err(Full(item));
        }
        self.producer.push_reserved(item);
        Ok(())
    }

    /// Puts items from the beginning of a slice, in order, after those put before, until all are put or the
    /// ring is found full. Answers how many.
    pub fn put_some(&mut self, items: &[T]) -> usize
        ensures ring { SamePut self.old self.new }
        ensures few { result ≤ length items.now }
        ensures sent { self.new.sent ≡ self.old.sent ++ take result items.now }
        ensures free { self.new.free ≡ self.old.free - result }
        ensures none_free { result < length items.now → self.new.free ≡ 0 }
    {
        let (put, _) = self.producer.push_partial_slice(items);
        let count = put.len();
        self.free = if count < usize::from(self.free) {
            self.free - count as u16
        } else {
            0
        };
        count
    }

    /// The address that the ring was made with.
    pub fn address(&self) -> u64
        ensures { result ≡ self.now.address }
    {
        self.address
    }

    /// The number of slots that the ring was made with, from `MIN_SLOTS` to `MAX_SLOTS`. The places known to
    /// be free are always fewer.
    pub fn slots(&self) -> u16
        ensures value { result ≡ self.now.slots }
        ensures least { min_slots ≤ result }
        ensures most { result ≤ max_slots }
        ensures free { self.now.free < result }
    {
        self.slots
    }
}
