// Chains of slots, first in, first out.
ghost use Rattle.std.specs.Prelude.{◌≡◌};

use crate::slot::{Slot, put_next, slot_at};

/// A chain of slots: the first one, the last one and how many there are. Each is linked to the one after it.
#[repr(C)]
#[derive(Clone, Copy, Drop)]
pub struct Chain {
    pub first: u16,
    pub last: u16,
    pub len: u16,
}

impl Chain {
    ghost use Rattle.std.specs.Prelude.{◌≡◌, ℕ, ◌+◌, ◌<◌, ◌^◌, List, [], ◌∷◌, ◌++◌, length, slice_get, Some, None};
    ghost use Rattle.nvme_slots.specs.Pool.{IsChain, IsNew, SameItems, SameLinks, pushed, longer, first_of, shorter, named_in, without_named, found_in};
    ghost use Rattle.nvme_slots.specs.declared.slot.Slot.{Slot};

    /// The chain of no slot.
    pub fn new() -> Chain
        ensures chain { (slots : List Slot) → IsChain slots result [] }
        ensures empty { result.len ≡ 0 }
    {
        Chain {
            first: 0,
            last: 0,
            len: 0,
        }
    }

    /// Puts a slot behind the others.
    pub fn push(&mut self, slots: &mut [Slot], x: u16)
        ensures chain { (xs : List ℕ) → IsChain slots.old self.old xs → x < length slots.old → IsNew x xs → length xs + 1 < 2 ^ 16 → IsChain slots.new self.new (xs ++ x ∷ []) }
        ensures value { self.new ≡ longer self.old x }
        ensures slots { slots.new ≡ pushed slots.old self.old x }
        ensures items { SameItems slots.old slots.new }
        ensures links { (xs : List ℕ) → IsChain slots.old self.old xs → SameLinks xs slots.old slots.new }
    {
        if self.len == 0 {
            self.first = x;
        } else {
            put_next(slots, self.last, x);
        }
        self.last = x;
        self.len = self.len.saturating_add(1);
    }

    /// Takes the first slot out.
    pub fn pop(&mut self, slots: &[Slot]) -> Option<u16>
        ensures first { result ≡ first_of self.old }
        ensures value { self.new ≡ shorter slots.now self.old }
        ensures none { result ≡ None → self.new ≡ self.old }
        ensures empty { IsChain slots.now self.old [] → result ≡ None }
        ensures some { (x : ℕ) (rest : List ℕ) → IsChain slots.now self.old (x ∷ rest) → result ≡ Some x }
        ensures rest { (x : ℕ) (rest : List ℕ) → IsChain slots.now self.old (x ∷ rest) → IsChain slots.now self.new rest }
    {
        if self.len == 0 {
            return None;
        }
        let x = self.first;
        self.first = slot_at(slots, x).next;
        self.len -= 1;
        Some(x)
    }

    /// The slot that comes as the nth, the first one as the 0th.
    pub fn nth(&self, slots: &[Slot], n: usize) -> Option<u16>
        ensures { (xs : List ℕ) → IsChain slots.now self.now xs → result ≡ slice_get xs n }
    {
        if n >= usize::from(self.len) {
            return None;
        }
        let mut x = self.first;
        for _ in 0..n {
            x = slot_at(slots, x).next;
        }
        Some(x)
    }

    /// The first slot whose command has this identifier, and the one before it. The first slot of all has itself before
    /// it.
    pub fn find(&self, slots: &[Slot], cid: u16) -> Option<(u16, u16)>
        ensures { (xs : List ℕ) → IsChain slots.now self.now xs → result ≡ found_in slots.now cid self.now.first xs }
    {
        let mut before = self.first;
        let mut x = self.first;
        for _ in 0..self.len {
            let slot = slot_at(slots, x);
            if slot.entry.cid == cid {
                return Some((before, x));
            }
            before = x;
            x = slot.next;
        }
        None
    }

    /// Takes the first slot out whose command has this identifier.
    pub fn take_named(&mut self, slots: &mut [Slot], cid: u16) -> Option<u16>
        ensures none { result ≡ None → (self.new ≡ self.old) × (slots.new ≡ slots.old) }
        ensures named { (xs : List ℕ) → IsChain slots.old self.old xs → result ≡ named_in slots.old cid xs }
        ensures rest { (xs : List ℕ) → IsChain slots.old self.old xs → IsChain slots.new self.new (without_named slots.old cid xs) }
        ensures items { SameItems slots.old slots.new }
        ensures links { (xs : List ℕ) → IsChain slots.old self.old xs → SameLinks xs slots.old slots.new }
    {
        let (before, x) = self.find(slots, cid)?;
        let next = slot_at(slots, x).next;
        if x == self.first {
            self.first = next;
        } else {
            put_next(slots, before, next);
            if x == self.last {
                self.last = before;
            }
        }
        self.len = self.len.saturating_sub(1);
        Some(x)
    }
}
