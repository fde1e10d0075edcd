// The end of deletions. (Base Specification, Delete I/O Submission Queue)
use crate::state::{Controller, SqState};
use nvme_admin::MAX_REGIONS;
use nvme_entry::Status;
use nvme_slots::slot::{ENDED, Slot};

impl Controller {
    ghost use Rattle.std.specs.Prelude.{◌≡◌, ◌≢◌, ◌⊎◌, ◌<◌, ℕ, Bool, true, false, List, length, None, IfSome, IsSomeAnd, IsTrue};
    ghost use Rattle.nvme_log.specs.Rules.{FrontRules};
    ghost use Rattle.nvme_ctrl_log.specs.Notes.{Notes};
    ghost use Rattle.nvme_ctrl.specs.Standing.{Stands, IsController};
    ghost use Rattle.nvme_admin.specs.Standing.{sq_of};
    ghost use Rattle.nvme_placing.specs.Telling.{content_of};
    ghost use Rattle.nvme_slots.specs.Generations.{SameGenerations};
    ghost use Rattle.nvme_ctrl.specs.Own.{own_of};
    ghost use Rattle.nvme_ctrl.specs.Calls.{depths_of};
    ghost use Rattle.nvme_ctrl.specs.Steps.{HasFinished};
    ghost use Rattle.nvme_ctrl_log.specs.Steps.{IsFinishableAt, NoneFinishable};
    ghost use Rattle.nvme_ctrl.specs.kept.State.{sq_at, IsFinishable};
    ghost use Rattle.nvme_slots.specs.declared.slot.Slot.{Slot};

    // Whether the deletion of a queue is pending, and all completions of the queue are posted.
    fn is_finishable(&self, qid: u16) -> bool
        ensures closing { result ≡ true → (sq_at self.now.sqs qid).closing ≢ 0 }
        ensures posted { result ≡ true → (sq_at self.now.sqs qid).unposted ≡ 0 }
        ensures none { result ≡ false → ((sq_at self.now.sqs qid).closing ≡ 0) ⊎ ((sq_at self.now.sqs qid).unposted ≢ 0) }
    {
        let sq = self.sq(qid);
        sq.closing != 0 && sq.unposted == 0
    }

    // Whether a submission queue is closing in the table.
    fn is_closing(&self, qid: u16) -> bool
        ensures yes { result ≡ true → IsSomeAnd (sq_of (content_of self.now.table) qid) (λ queue. IsTrue queue.closing) }
        ensures no { result ≡ false → IsSomeAnd (sq_of (content_of self.now.table) qid) (λ queue. IsTrue queue.closing) → ⊥ }
    {
        match self.table.sq(qid) {
            Some(queue) => queue.closing,
            None => false,
        }
    }

    /// The queue whose deletion `finish` would finish, the first one of several. None where it would finish none. No queue
    /// is looked at where no deletion is pending.
    pub fn can_finish(&self) -> Option<u16>
        ensures kept { IfSome result (λ qid. IsFinishable self.now qid) }
        ensures some { (rules : FrontRules) (late : Bool) (notes : Notes) (pool : List Slot) → Stands rules late notes self.now pool → IfSome result (λ qid. IsFinishableAt notes qid) }
        ensures first { (rules : FrontRules) (late : Bool) (notes : Notes) (pool : List Slot) → Stands rules late notes self.now pool → IfSome result (λ qid. (q : ℕ) → q < qid → IsFinishableAt notes q → ⊥) }
        ensures none { (rules : FrontRules) (late : Bool) (notes : Notes) (pool : List Slot) → Stands rules late notes self.now pool → result ≡ None → NoneFinishable notes }
    {
        if self.pending_deletions == 0 {
            return None;
        }
        for qid in 0..MAX_REGIONS as u16 {
            if self.is_finishable(qid) {
                return Some(qid);
            }
        }
        None
    }

    /// Finishes a deletion, if all completions of its queue are posted, and tells the identifier of the queue. The
    /// completion of the Delete is then ready. Of several the first queue's is finished; call it until it tells none.
    /// None, which changes nothing, where no deletion is pending, and while completions are to be posted of each queue that
    /// is being deleted.
    pub fn finish(&mut self, slots: &mut [Slot]) -> Option<u16>
        ensures front { IsController self.old slots.old → IsController self.new slots.new }
        ensures none { result ≡ None → (self.new ≡ self.old) × (slots.new ≡ slots.old) }
        ensures depths { depths_of self.new ≡ depths_of self.old }
        ensures size { length slots.new ≡ length slots.old }
        ensures generations { SameGenerations slots.old slots.new }
        ensures own { own_of self.new ≡ own_of self.old }
        ensures told { (rules : FrontRules) (late : Bool) (notes : Notes) → Stands rules late notes self.old slots.old → result ≡ None → NoneFinishable notes }
        ensures first { (rules : FrontRules) (late : Bool) (notes : Notes) → Stands rules late notes self.old slots.old → IfSome result (λ qid. (q : ℕ) → q < qid → IsFinishableAt notes q → ⊥) }
        ensures stands { (rules : FrontRules) (late : Bool) (notes : Notes) → Stands rules late notes self.old slots.old → IfSome result (λ qid. HasFinished rules late notes qid self.new slots.new) }
    {
        let qid = self.can_finish()?;
        if !self.is_closing(qid) {
            return None;
        }
        let tag = self.sq(qid).tag;
        self.table.finish_delete(qid);
        self.put_sq(qid, SqState::none());
        self.pending_deletions = self.pending_deletions.saturating_sub(1);
        self.end(slots, tag, ENDED, Status::SUCCESS, 0, 0);
        Some(qid)
    }
}
