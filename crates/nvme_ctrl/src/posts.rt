// The posts of a controller. (Base Specification, Completion Queue Entry, Phase Tag)
use crate::queue_set::{has_queue, with_queue};
use crate::state::{Controller, CqState};
use nvme_ctrl_log::StatusFlags;
use nvme_entry::{Cqe, Status};
use nvme_slots::slot::{DROPPED, FREE, Slot, put_state, slot_at};

/// A completion to write into a slot of the ring of a completion queue.
#[derive(Clone, Copy, Debug, PartialEq, Eq)]
pub struct Post {
    /// The slot of the ring.
    pub slot: u16,
    /// The completion queue entry.
    pub cqe: Cqe,
    /// The slot of its command in the pool, which is free now.
    pub tag: u16,
    /// What the caller kept with its command.
    pub cookie: u32,
    /// Its flags: those that the device answered, else those of a status of the controller.
    pub flags: StatusFlags,
}

impl CqState {
    ghost use Rattle.std.specs.Prelude.{◌≡◌, ℕ, ◌+◌, ◌<◌, ◌==◌};
    ghost use Rattle.nvme_log.specs.Completions.{phase_after};
    ghost use Rattle.nvme_slots.specs.Rings.{HasCounts};

    // A completion was written into the slot at the tail. The phase tag turns where the tail comes round to the first slot.
    fn write(&mut self)
        ensures counts { (read written : ℕ) → HasCounts self.old.ring read written → written + 1 < read + self.old.ring.slots → HasCounts self.new.ring read (written + 1) }
        ensures phase { (read written : ℕ) → HasCounts self.old.ring read written → written + 1 < read + self.old.ring.slots → (self.old.phase == 1) ≡ phase_after written self.old.ring.slots → (self.new.phase == 1) ≡ phase_after (written + 1) self.old.ring.slots }
        ensures ready { self.new.ready ≡ self.old.ready }
        ensures slots { self.new.ring.slots ≡ self.old.ring.slots }
    {
        self.ring.write();
        if self.ring.tail == 0 {
            self.phase = if self.phase == 1 { 0 } else { 1 };
        }
    }
}

impl Controller {
    ghost use Rattle.nvme_slots.specs.Generations.{SameGenerations};
    ghost use Rattle.nvme_ctrl.specs.Own.{own_of};
    ghost use Rattle.std.specs.Prelude.{◌≡◌, ℕ, Bool, true, false, List, ◌∷◌, length, None, Some, IfSome};
    ghost use Rattle.nvme_log.specs.Rules.{FrontRules};
    ghost use Rattle.nvme_log.specs.Queues.{open_cq};
    ghost use Rattle.nvme_ctrl_log.specs.Notes.{Notes, logged};
    ghost use Rattle.nvme_ctrl.specs.Standing.{Stands, IsController};
    ghost use Rattle.nvme_ctrl.specs.Calls.{depths_of, HasPosted};
    ghost use Rattle.nvme_ctrl_log.specs.Posts.{NonePostable};
    ghost use Rattle.nvme_ctrl.specs.Posts.{IsPostOf, completion_of, next_post_of};
    ghost use Rattle.nvme_slots.specs.Pool.{slot_at};
    ghost use Rattle.nvme_slots.specs.declared.slot.Slot.{Slot};
    ghost use Rattle.nvme_ctrl.specs.inside.Posting.{counted_post};

    // The completion queue entry of a command that ended.
    fn completion(&self, command: &Slot, phase: bool) -> Cqe
        ensures { result ≡ completion_of self.now command.now phase }
    {
        Cqe {
            dw0: command.dw0,
            sqhd: self.sq(u16::from(command.sqid)).ring.head,
            sqid: u16::from(command.sqid),
            cid: command.entry.cid,
            phase,
            status: Status {
                sct: command.sct % 8,
                sc: command.sc,
            },
        }
    }

    // A completion of a command is posted: it isn't outstanding any more, unless it was aborted with its queue.
    fn count_post(&mut self, command: &Slot)
        ensures { self.new ≡ counted_post self.old command.now }
    {
        let sqid = u16::from(command.sqid);
        let sq = self.sq(sqid);
        self.put_unposted(sqid, sq.unposted.saturating_sub(1));
        if command.state != DROPPED {
            self.outstanding = self.outstanding.saturating_sub(1);
        }
    }

    /// What `post` would answer, which changes nothing.
    pub fn next_post(&self, slots: &[Slot], cqid: u16) -> Option<Post>
        ensures value { result ≡ next_post_of self.now slots.now cqid }
    {
        if !has_queue(self.readied, cqid) {
            return None;
        }
        let cq = self.cq(cqid);
        if cq.ring.is_full() || cq.ready.len == 0 {
            return None;
        }
        let command = slot_at(slots, cq.ready.first);
        Some(Post {
            slot: cq.ring.tail,
            cqe: self.completion(&command, cq.phase == 1),
            tag: cq.ready.first,
            cookie: command.cookie,
            flags: command.flags(),
        })
    }

    /// Posts the completion that became ready first in an open completion queue. None, which changes nothing, exactly where
    /// the queue isn't open, where none is ready, and where the host has freed no slot of the ring.
    pub fn post(&mut self, slots: &mut [Slot], cqid: u16) -> Option<Post>
        ensures front { IsController self.old slots.old → IsController self.new slots.new }
        ensures none { result ≡ None → (self.new ≡ self.old) × (slots.new ≡ slots.old) }
        ensures depths { depths_of self.new ≡ depths_of self.old }
        ensures size { length slots.new ≡ length slots.old }
        ensures generations { SameGenerations slots.old slots.new }
        ensures own { own_of self.new ≡ own_of self.old }
        ensures told { (rules : FrontRules) (late : Bool) (notes : Notes) → Stands rules late notes self.old slots.old → result ≡ None → (x : ℕ) → open_cq (logged notes) cqid ≡ Some x → NonePostable rules notes x }
        ensures value { result ≡ next_post_of self.old slots.old cqid }
        ensures command { IfSome result (λ p. IsPostOf (slot_at slots.old p.tag) p.cqe p.cookie p.flags) }
        ensures stands { (rules : FrontRules) (late : Bool) (notes : Notes) → Stands rules late notes self.old slots.old → IfSome result (λ p. HasPosted rules late notes cqid p.slot p.cqe p.cookie p.flags self.new slots.new) }
    {
        let post = self.next_post(slots, cqid)?;
        let command = slot_at(slots, post.tag);
        let mut cq = self.cq(cqid);
        cq.ready.pop(slots);
        cq.write();
        self.put_cq(cqid, cq);
        self.readied = with_queue(self.readied, cqid, cq.ready.len != 0);
        self.count_post(&command);
        put_state(slots, post.tag, FREE);
        self.free.push(slots, post.tag);
        Some(post)
    }
}
