// The fetches of a controller. (Base Specification, Command Submission and Completion Mechanism; depths and windows: profile)
use crate::board_counts::came;
use crate::state::Controller;
use nvme_admin::MAX_REGIONS;
use nvme_arbiter::HIGHEST_COUNT;
use nvme_entry::Sqe;
use nvme_slots::slot::{Slot, put_waiting};

impl Controller {
    ghost use Rattle.std.specs.Prelude.{◌≡◌, ◌≢◌, ℕ, Bool, true, false, List, length, slice_set, Some, None, IfSome};
    ghost use Rattle.nvme_log.specs.Rules.{FrontRules};
    ghost use Rattle.nvme_ctrl_log.specs.Notes.{Notes};
    ghost use Rattle.nvme_ctrl.specs.Standing.{Stands, IsController};
    ghost use Rattle.nvme_slots.specs.Generations.{SameGenerations};
    ghost use Rattle.nvme_ctrl.specs.Own.{own_of};
    ghost use Rattle.nvme_ctrl.specs.Calls.{depths_of, depth_of, HasFetched};
    ghost use Rattle.nvme_ctrl_log.specs.Calls.{MayFetch};
    ghost use Rattle.nvme_ctrl.specs.inside.Fetching.{IsFetchable};
    ghost use Rattle.nvme_slots.specs.declared.slot.Slot.{Slot};

    /// From now on at most `depth` commands of a submission queue hold a slot of the pool, each from its fetch to the posting
    /// of its completion: those that wait, and those that are picked, at the device, ready or aborted. Of an identifier above
    /// 64 nothing changes. Call it before the queue is created: an identifier keeps its depth, whatever is created and
    /// deleted. Where more commands hold a slot already, just the next fetch waits until fewer do. The depth of the admin
    /// queue has to be above the number of event requests that the device holds, else no admin command is fetched any more.
    /// (Base Specification, Asynchronous Event Request; profile)
    pub fn set_depth(&mut self, qid: u16, depth: u16)
        ensures depths { depths_of self.new ≡ slice_set (depths_of self.old) qid depth }
        ensures own { own_of self.new ≡ own_of self.old }
        ensures front { (pool : List Slot) → IsController self.old pool → IsController self.new pool }
        ensures stands { (rules : FrontRules) (late : Bool) (notes : Notes) (pool : List Slot) → Stands rules late notes self.old pool → Stands rules late notes self.new pool }
    {
        let qid = usize::from(qid);
        if qid < MAX_REGIONS {
            self.depths[qid] = depth;
        }
    }

    // Whether a command of a submission queue may be fetched.
    fn is_fetchable(&self, qid: u16) -> bool
        ensures yes { result ≡ true → IsFetchable self.now qid }
        ensures no { IsFetchable self.now qid → result ≡ true }
    {
        if usize::from(qid) >= MAX_REGIONS {
            return false;
        }
        let sq = self.sq(qid);
        if sq.closing != 0 || sq.ring.head == sq.ring.tail || self.free.len == 0 {
            return false;
        }
        let waiting = u32::from(sq.window.len.saturating_sub(self.picked_in(qid)));
        waiting + u32::from(sq.unposted) < u32::from(self.depth(qid))
            && waiting < u32::from(HIGHEST_COUNT)
            && waiting + 1 < u32::from(sq.ring.slots)
    }

    /// The slot of the ring of an open submission queue whose entry is to be read next. None where the queue isn't open,
    /// where the host submitted no more, where as many of its commands hold a slot as its depth, where as many wait as its
    /// ring has slots less one, or 256, and where no slot of the pool is free. A queue isn't open any more once its deletion
    /// began.
    pub fn fetch(&self, qid: u16) -> Option<u16>
        ensures may { (rules : FrontRules) (late : Bool) (notes : Notes) (slots : List Slot) → Stands rules late notes self.now slots → IfSome result (λ slot. MayFetch rules notes (depth_of self.now qid) (length slots) qid slot) }
        ensures told { (rules : FrontRules) (late : Bool) (notes : Notes) (slots : List Slot) → Stands rules late notes self.now slots → (slot : ℕ) → MayFetch rules notes (depth_of self.now qid) (length slots) qid slot → result ≡ Some slot }
    {
        if self.is_fetchable(qid) {
            Some(self.sq(qid).ring.head)
        } else {
            None
        }
    }

    /// The entry was read that `fetch` told. Its command waits then. The cookie is kept with it. False, which changes
    /// nothing, exactly where `fetch` tells none.
    pub fn fetched(&mut self, slots: &mut [Slot], qid: u16, entry: &Sqe, cookie: u32) -> bool
        ensures front { IsController self.old slots.old → IsController self.new slots.new }
        ensures told { (rules : FrontRules) (late : Bool) (notes : Notes) → Stands rules late notes self.old slots.old → (slot : ℕ) → MayFetch rules notes (depth_of self.old qid) (length slots.old) qid slot → result ≡ true }
        ensures depths { depths_of self.new ≡ depths_of self.old }
        ensures own { own_of self.new ≡ own_of self.old }
        ensures size { length slots.new ≡ length slots.old }
        ensures generations { SameGenerations slots.old slots.new }
        ensures refused { result ≡ false → (self.new ≡ self.old) × (slots.new ≡ slots.old) }
        ensures stands { (rules : FrontRules) (late : Bool) (notes : Notes) → Stands rules late notes self.old slots.old → result ≡ true → HasFetched rules late notes qid entry.now cookie self.new slots.new }
    {
        if !self.is_fetchable(qid) {
            return false;
        }
        let Some(tag) = self.free.pop(slots) else {
            return false;
        };
        put_waiting(slots, tag, entry, cookie, (qid % 256) as u8);
        let mut sq = self.sq(qid);
        sq.ring.read();
        self.push_fetched(slots, qid, sq.ring.head, tag);
        self.note_fetched(qid, sq.ring.head == sq.ring.tail);
        came(&mut self.board, qid, sq.held == 1);
        true
    }
}
