// A queue of items, whose memory is allocated when it is made.
ghost use Rattle.std.specs.Prelude.{◌≡◌};

use std::alloc::Global;
use std::collections::VecDeque;
use std::marker::Model;

/// Items in the order in which they came. It has room for a fixed number of them from the start, and never allocates
/// afterwards.
#[derive(Drop)]
pub struct Fifo<T: Copy> {
    items: VecDeque<T>,
    room: usize,
}

impl<T: Copy> Model for Fifo<T> {
    ghost use Rattle.std.specs.Prelude.{◌≤◌};
    ghost use Rattle.std.specs.VecDeque.{deque_len, deque_capacity};
    ghost use Rattle.nvme_jobs.specs.inside.Fifo.{FifoView};

    ghost Value = { FifoView T };

    ghost view = { λ f. record { items = f.items.items; room = f.room } };

    ghost invariant = { λ f. (deque_len f.items ≤ f.room) × (f.room ≤ deque_capacity f.items) };
}

impl<T: Copy> Fifo<T> {
    ghost use Rattle.std.specs.Prelude.{◌≡◌, ◌+◌, ◌^◌, ◌<◌, ◌≤◌, ◌==◌, [], ◌∷◌, ◌++◌, length, drop, slice_get, IfSome, option_to_list};

    /// An empty queue with room for the given number of items. `None` where memory was refused.
    pub fn new(alloc: Global, room: usize) -> Option<Fifo<T>>
        ensures empty { IfSome result (λ f. f.items ≡ []) }
        ensures room { IfSome result (λ f. f.room ≡ room) }
    {
        let Ok(items) = VecDeque::with_capacity(alloc, room) else {
            return None;
        };
        Some(Fifo { items, room })
    }

    /// An empty queue with no room.
    pub fn empty(alloc: Global) -> Fifo<T>
        ensures empty { result.items ≡ [] }
        ensures room { result.room ≡ 0 }
    {
        Fifo {
            items: VecDeque::new(alloc),
            room: 0,
        }
    }

    /// How many items it has room for.
    pub fn room(&self) -> usize
        ensures { result ≡ self.now.room }
    {
        self.room
    }

    /// The oldest item, which stays. `None` where the queue is empty.
    pub fn front(&self) -> Option<T>
        ensures { result ≡ slice_get self.now.items 0 }
    {
        self.items.front().copied()
    }

    /// Appends an item, for which there must be room.
    pub fn push(&mut self, item: T)
        requires { length self.old.items < self.old.room }
        ensures { self.new ≡ record self.old { items = self.old.items ++ item ∷ [] } }
    {
        self.items.push_back_reserved(item);
    }

    /// Takes the oldest item out. `None` where the queue is empty.
    pub fn pop(&mut self) -> Option<T>
        ensures items { self.old.items ≡ option_to_list result ++ self.new.items }
        ensures value { result ≡ slice_get self.old.items 0 }
        ensures rest { self.new.items ≡ drop 1 self.old.items }
        ensures room { self.new.room ≡ self.old.room }
    {
        self.items.pop_front()
    }
}
