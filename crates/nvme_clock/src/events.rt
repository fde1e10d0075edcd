// Events to come, in a stable order: by their time, and at one time by their number.
ghost use Rattle.std.specs.Prelude.{◌≡◌, ◌≤◌, ◌<◌, ◌↔◌, All, OnOk, OnErr};
ghost use Rattle.std.specs.BinaryHeap.{IsHeap, heap_items};
ghost use Rattle.std.specs.List.{IsDistinct, IsDistinct-prop};
ghost use Rattle.std.proofs.Props.{props};
ghost use Rattle.nvme_clock.specs.Events.{comes_later, events_in, same_number};

use std::alloc::Global;
use std::cmp::Reverse;
use std::collections::BinaryHeap;
use thiserror::Error;

/// What comes at a time. Its number says how many events were pushed before it.
#[derive(Drop)]
#[derive_where(PartialEq, Eq, PartialOrd, Ord)]
pub struct Event<E> {
    pub at: u64,
    pub number: u64,
    #[derive_where(skip(EqHashOrd))]
    pub what: E,
}

/// Why an event was not pushed.
#[derive(Clone, Copy, Debug, PartialEq, Eq, Error)]
pub enum PushFault {
    /// Its time has passed.
    #[error("the event's time has passed")]
    Past,
    /// 2^64 - 1 events were pushed before.
    #[error("2^64 - 1 events were pushed before")]
    Numbers,
    /// There is no memory.
    #[error("out of memory")]
    Memory,
}

/// The events to come, and the time of the last one that came. They come by their time, and at one time in the order in
/// which they were pushed.
#[derive(Drop)]
pub struct EventQueue<E> {
    heap: BinaryHeap<Reverse<Event<E>>>,
    time: u64,
    next: u64,
    ghost ordered: { IsHeap comes_later (heap_items heap) } by { Prim.hlevel props },
    ghost distinct: { IsDistinct same_number (events_in (heap_items heap)) } by { IsDistinct-prop same_number (events_in (heap_items heap)) },
    ghost numbered: { All (λ e. e.number < next) (events_in (heap_items heap)) },
    ghost to_come: { All (λ e. time ≤ e.at) (events_in (heap_items heap)) },
}

impl<E: Drop> EventQueue<E> {
    ghost use Rattle.nvme_clock.specs.Held.{held, nothing, popped, pushed};

    /// No event, at time 0.
    pub fn new(alloc: Global) -> EventQueue<E>
        ensures { held result ≡ nothing }
    {
        EventQueue {
            heap: BinaryHeap::new(alloc),
            time: 0,
            next: 0,
        }
    }

    /// The time of the last event that came, or 0.
    pub fn time(&self) -> u64
        ensures { result ≡ (held self.now).time }
    {
        self.time
    }

    /// Adds an event, which gets the next number. Where it is refused, the queue stays as it was.
    pub fn push(&mut self, at: u64, what: E) -> Result<(), PushFault>
        ensures ok { OnOk result (held self.new ≡ pushed at what (held self.old)) }
        ensures err { OnErr result (held self.new ≡ held self.old) }
        ensures past { (result ≡ Err PushFault.Past) ↔ (at < (held self.old).time) }
        ensures numbers { result ≡ Err PushFault.Numbers → (held self.old).next ≡ u64.MAX }
    {
        if at < self.time {
            return Err(PushFault::Past);
        }
        if self.next == u64::MAX {
            return Err(PushFault::Numbers);
        }
        let number = self.next;
        match self.heap.push(Reverse(Event { at, number, what })) {
            Ok(()) => {
                self.next = number + 1;
                Ok(())
            }
            Err(_) => Err(PushFault::Memory),
        }
    }

    /// The event that comes first, whose time it is then.
    pub fn pop(&mut self) -> Option<Event<E>>
        ensures value { (result, held self.new) ≡ popped (held self.old) }
        ensures forward { (held self.old).time ≤ (held self.new).time }
    {
        let Some(Reverse(event)) = self.heap.pop() else {
            return None;
        };
        self.time = event.at;
        Some(event)
    }
}
