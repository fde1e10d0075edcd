// The doorbells of a controller. (PCIe Transport Specification, Submission Queue y Tail Doorbell, Completion Queue y Head
// Doorbell)
use crate::queue_set::with_queue;
use crate::state::Controller;

impl Controller {
    ghost use Rattle.std.specs.Prelude.{◌≡◌, ◌↔◌, Bool, true, false, List, ◌∷◌, IsTrue};
    ghost use Rattle.nvme_log.specs.Rules.{FrontRules};
    ghost use Rattle.nvme_ctrl_log.specs.Notes.{Notes};
    ghost use Rattle.nvme_ctrl.specs.Standing.{Stands, IsController};
    ghost use Rattle.nvme_ctrl.specs.Own.{own_of};
    ghost use Rattle.nvme_ctrl.specs.Calls.{depths_of, TailRung, HeadRung};
    ghost use Rattle.nvme_ctrl_log.specs.Calls.{IsTailOf, IsHeadOf};
    ghost use Rattle.nvme_slots.specs.declared.slot.Slot.{Slot};

    /// The host wrote the tail doorbell of a submission queue. False, which changes nothing, where the queue isn't open,
    /// where it has no such slot, and where its ring hasn't as many free slots: the doorbell value is invalid then.
    pub fn sq_tail(&mut self, qid: u16, slot: u16) -> bool
        ensures depths { depths_of self.new ≡ depths_of self.old }
        ensures own { own_of self.new ≡ own_of self.old }
        ensures refused { result ≡ false → self.new ≡ self.old }
        ensures front { (slots : List Slot) → IsController self.old slots → IsController self.new slots }
        ensures answer { (rules : FrontRules) (late : Bool) (notes : Notes) (slots : List Slot) → Stands rules late notes self.old slots → IsTrue result ↔ IsTailOf rules notes qid slot }
        ensures stands { (rules : FrontRules) (late : Bool) (notes : Notes) (slots : List Slot) → Stands rules late notes self.old slots → result ≡ true → TailRung rules late notes qid slot self.new slots }
    {
        let mut sq = self.sq(qid);
        if sq.closing != 0 {
            return false;
        }
        if !sq.ring.write_to(slot) {
            return false;
        }
        self.put_ring(qid, sq.ring);
        self.rung = with_queue(self.rung, qid, true);
        true
    }

    /// The host wrote the head doorbell of a completion queue. False, which changes nothing, where the queue isn't open,
    /// where it has no such slot, and where not as many completions were posted: the doorbell value is invalid then.
    pub fn cq_head(&mut self, cqid: u16, slot: u16) -> bool
        ensures depths { depths_of self.new ≡ depths_of self.old }
        ensures own { own_of self.new ≡ own_of self.old }
        ensures refused { result ≡ false → self.new ≡ self.old }
        ensures front { (slots : List Slot) → IsController self.old slots → IsController self.new slots }
        ensures answer { (rules : FrontRules) (late : Bool) (notes : Notes) (slots : List Slot) → Stands rules late notes self.old slots → IsTrue result ↔ IsHeadOf rules notes cqid slot }
        ensures stands { (rules : FrontRules) (late : Bool) (notes : Notes) (slots : List Slot) → Stands rules late notes self.old slots → result ≡ true → HeadRung rules late notes cqid slot self.new slots }
    {
        let mut cq = self.cq(cqid);
        let rung = cq.ring.read_to(slot);
        self.put_cq(cqid, cq);
        rung
    }
}
