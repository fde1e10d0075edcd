// What is seen of a controller.
use crate::state::Controller;
use nvme_arbiter::Seen;
use nvme_entry::Sqe;
use nvme_slots::slot::{OUT, Slot, slot_at};

/// A command that waits to be picked.
#[derive(Clone, Copy, Debug, PartialEq, Eq)]
pub struct Waiting {
    pub entry: Sqe,
    /// What the caller keeps with it.
    pub cookie: u32,
}

impl Controller {
    ghost use Rattle.std.specs.Prelude.{◌≡◌, ℕ, ◌+◌, ◌≤◌, Bool, true, List, Option, Some, None, IfSome, length, option_map, is_some, slice_get};
    ghost use Rattle.nvme_log.specs.Rules.{FrontRules};
    ghost use Rattle.nvme_log.specs.Queues.{Queue, open_sq, open_cq};
    ghost use Rattle.nvme_log.specs.Places.{entry_at, waiting};
    ghost use Rattle.nvme_log.specs.declared.place.Place.{Place};
    ghost use Rattle.nvme_ctrl_log.specs.Notes.{Notes, logged};
    ghost use Rattle.nvme_ctrl_log.specs.Tags.{is_out, holder, cookie_of};
    ghost use Rattle.nvme_ctrl_log.specs.Calls.{IsTagOf};
    ghost use Rattle.nvme_ctrl_log.specs.Observation.{seen_in};
    ghost use Rattle.nvme_ctrl_log.specs.Waits.{WaitsAt};
    ghost use Rattle.nvme_ctrl_log.specs.Making.{placing_in};
    ghost use Rattle.nvme_ctrl_log.specs.Steps.{IsIdentifier};
    ghost use Rattle.nvme_placing.specs.Telling.{placing_of};
    ghost use Rattle.nvme_ctrl.specs.Standing.{Stands, IsController};
    ghost use Rattle.nvme_slots.specs.Lookups.{is_found};
    ghost use Rattle.nvme_slots.specs.Pool.{IsChain, slot_at};
    ghost use Rattle.nvme_ctrl.specs.kept.State.{sq_at, picked_in};
    ghost use Rattle.nvme_slots.specs.declared.slot.Slot.{Slot};

    /// The command in a slot. Where the device has it, it is the one that was fetched for the place of this tag.
    pub fn entry(&self, slots: &[Slot], tag: u16) -> Sqe
        ensures value { result ≡ (slot_at slots.now tag).entry }
        ensures out { (rules : FrontRules) (late : Bool) (notes : Notes) → Stands rules late notes self.now slots.now → (place : Place) → holder notes tag ≡ Some place → is_out notes tag ≡ true
            → entry_at (logged notes) place.region place.index ≡ Some result }
    {
        slot_at(slots, tag).entry
    }

    /// What the caller keeps with the command in a slot. Where the device has it, it is what was kept with the command
    /// of this tag.
    pub fn cookie(&self, slots: &[Slot], tag: u16) -> u32
        ensures value { result ≡ (slot_at slots.now tag).cookie }
        ensures out { (rules : FrontRules) (late : Bool) (notes : Notes) → Stands rules late notes self.now slots.now → (place : Place) → holder notes tag ≡ Some place → is_out notes tag ≡ true
            → cookie_of notes place.region place.index ≡ Some result }
    {
        slot_at(slots, tag).cookie
    }

    /// Whether the device has the command of a tag: it took it, and hasn't answered it.
    pub fn is_out(&self, slots: &[Slot], tag: u16) -> bool
        ensures { (rules : FrontRules) (late : Bool) (notes : Notes) → Stands rules late notes self.now slots.now → result ≡ is_out notes tag }
    {
        slot_at(slots, tag).state == OUT
    }

    // Whether a slot has a command with this identifier that the device has, of the submission queue with this one.
    fn is_named(&self, slot: &Slot, qid: u16, cid: u16) -> bool
        ensures { result ≡ is_found slot.now qid cid }
    {
        slot.state == OUT && u16::from(slot.sqid) == qid && slot.entry.cid == cid
    }

    /// The tag of the command with this identifier, of the submission queue with this one, that the device has: it took
    /// it, and hasn't answered it. None where it has no such command. A host gives no two commands of a queue one
    /// identifier at a time; where it does, it is the tag of either. (Base Specification, Abort; Common Command Format,
    /// Command Identifier)
    pub fn named(&self, slots: &[Slot], qid: u16, cid: u16) -> Option<u16>
        ensures found { (rules : FrontRules) (late : Bool) (notes : Notes) → Stands rules late notes self.now slots.now → IfSome result (λ tag. IsTagOf notes qid cid tag) }
        ensures none { (rules : FrontRules) (late : Bool) (notes : Notes) → Stands rules late notes self.now slots.now → result ≡ None → (tag : ℕ) → IsTagOf notes qid cid tag → ⊥ }
    {
        // (no controller has more)
        let count = slots.len().min(0x1_0000);
        for x in 0..count {
            let tag = x as u16;
            if self.is_named(&slot_at(slots, tag), qid, cid) {
                return Some(tag);
            }
        }
        None
    }

    // The number that is told of a queue's region: where queues may lie anywhere, the queue's identifier.
    pub(crate) fn region_told(&self, qid: u16, region: u8) -> u8
        ensures on_regions { placing_of self.now.table ≡ None → result ≡ region }
        ensures anywhere { is_some (placing_of self.now.table) ≡ true → IsIdentifier qid result }
    {
        if self.table.placing().is_none() {
            return region;
        }
        u8::try_from(qid).unwrap_or(region)
    }

    /// The region of an open submission queue. Where queues may lie anywhere, its number is the identifier.
    pub fn sq_region(&self, qid: u16) -> Option<u8>
        ensures told { (rules : FrontRules) (late : Bool) (notes : Notes) (pool : List Slot) → Stands rules late notes self.now pool → is_some result ≡ is_some (open_sq (logged notes) qid) }
        ensures on_regions { (rules : FrontRules) (late : Bool) (notes : Notes) (pool : List Slot) → Stands rules late notes self.now pool → placing_in rules ≡ None → result ≡ option_map (λ queue. queue.region) (open_sq (logged notes) qid) }
        ensures anywhere { (rules : FrontRules) (late : Bool) (notes : Notes) (pool : List Slot) → Stands rules late notes self.now pool → is_some (placing_in rules) ≡ true → IfSome result (λ region. IsIdentifier qid region) }
    {
        let queue = self.table.sq(qid)?;
        if queue.closing {
            None
        } else {
            Some(self.region_told(qid, queue.region))
        }
    }

    /// The region of an open completion queue, as `sq_region` tells that of a submission queue.
    pub fn cq_region(&self, cqid: u16) -> Option<u8>
        ensures told { (rules : FrontRules) (late : Bool) (notes : Notes) (pool : List Slot) → Stands rules late notes self.now pool → is_some result ≡ is_some (open_cq (logged notes) cqid) }
        ensures on_regions { (rules : FrontRules) (late : Bool) (notes : Notes) (pool : List Slot) → Stands rules late notes self.now pool → placing_in rules ≡ None → result ≡ open_cq (logged notes) cqid }
        ensures anywhere { (rules : FrontRules) (late : Bool) (notes : Notes) (pool : List Slot) → Stands rules late notes self.now pool → is_some (placing_in rules) ≡ true → IfSome result (λ region. IsIdentifier cqid region) }
    {
        let region = self.table.cq(cqid)?;
        Some(self.region_told(cqid, region))
    }

    /// How many commands of an open submission queue were fetched and wait to be picked. Of no other queue any waits.
    pub fn waiting(&self, qid: u16) -> u16
        ensures none { (rules : FrontRules) (late : Bool) (notes : Notes) (pool : List Slot) → Stands rules late notes self.now pool → open_sq (logged notes) qid ≡ None → result ≡ 0 }
        ensures waits { (rules : FrontRules) (late : Bool) (notes : Notes) (pool : List Slot) → Stands rules late notes self.now pool
            → (queue : Queue) → open_sq (logged notes) qid ≡ Some queue → result ≡ length (waiting (logged notes) queue.region) }
    {
        if self.sq_region(qid).is_none() {
            return 0;
        }
        self.sq(qid).window.len.saturating_sub(self.picked_in(qid))
    }

    /// What the next pick is shown of an open submission queue: the class that the device set, else that of its Create, and
    /// how many of its commands wait, 0 where it is held. None where the queue isn't open, or is closing.
    pub fn seen(&self, qid: u16) -> Option<Seen>
        ensures { (rules : FrontRules) (late : Bool) (notes : Notes) (pool : List Slot) → Stands rules late notes self.now pool → result ≡ seen_in notes qid }
    {
        let queue = self.board.queue(qid)?;
        Some(Seen {
            qid,
            class: queue.class,
            count: queue.count,
        })
    }

    // The slot of the command that waits as the nth in a submission queue. In the window's chain it comes after those that
    // are picked and not taken.
    fn waiting_slot(&self, slots: &[Slot], qid: u16, n: u16) -> Option<u16>
        ensures { (xs : List ℕ) → IsChain slots.now (sq_at self.now.sqs qid).window xs → result ≡ slice_get xs (picked_in self.now qid + n) }
    {
        let at = usize::from(self.picked_in(qid)) + usize::from(n);
        self.sq(qid).window.nth(slots, at)
    }

    /// The command that waits as the nth in an open submission queue, the oldest as the 0th. None where at most `n` wait in
    /// it, and where the queue isn't open or is closing.
    pub fn waits(&self, slots: &[Slot], qid: u16, n: u16) -> Option<Waiting>
        ensures some { (rules : FrontRules) (late : Bool) (notes : Notes) → Stands rules late notes self.now slots.now → IfSome result (λ command. WaitsAt notes qid n command.entry command.cookie) }
        ensures none { (rules : FrontRules) (late : Bool) (notes : Notes) → Stands rules late notes self.now slots.now → result ≡ None
            → (queue : Queue) → open_sq (logged notes) qid ≡ Some queue → length (waiting (logged notes) queue.region) ≤ n }
    {
        if self.sq_region(qid).is_none() {
            return None;
        }
        let tag = self.waiting_slot(slots, qid, n)?;
        let slot = slot_at(slots, tag);
        Some(Waiting {
            entry: slot.entry,
            cookie: slot.cookie,
        })
    }
}
