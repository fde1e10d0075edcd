// The queues that a device holds, and the classes that it sets. (Base Specification, Command Arbitration; profile)
use crate::board_counts::show;
use crate::state::Controller;
use nvme_arbiter::{Class, HIGHEST_COUNT};
use nvme_slots::slot::bit;

impl Controller {
    ghost use Rattle.std.specs.Prelude.{◌≡◌, ◌↔◌, Bool, true, false, List, ◌∷◌, IsTrue};
    ghost use Rattle.nvme_log.specs.Rules.{FrontRules};
    ghost use Rattle.nvme_ctrl_log.specs.Notes.{Notes, Held, Classed};
    ghost use Rattle.nvme_ctrl_log.specs.Account.{MayBeHeld, MayBeClassed};
    ghost use Rattle.nvme_ctrl.specs.Standing.{Stands, IsController};
    ghost use Rattle.nvme_ctrl.specs.Own.{own_of};
    ghost use Rattle.nvme_ctrl.specs.Calls.{depths_of};
    ghost use Rattle.nvme_slots.specs.declared.slot.Slot.{Slot};

    /// From now on no command of a submission queue is picked (`on`), or they are again. The queue may be the admin queue.
    /// What waits in it stays there, and more is fetched as before. An Abort still takes it, and the deletion of
    /// the queue still drops it. Commands that were picked stay picked. A queue that is opened isn't held. False, which
    /// changes nothing, where the queue isn't open. (profile)
    pub fn hold(&mut self, qid: u16, on: bool) -> bool
        ensures depths { depths_of self.new ≡ depths_of self.old }
        ensures own { own_of self.new ≡ own_of self.old }
        ensures refused { result ≡ false → self.new ≡ self.old }
        ensures front { (pool : List Slot) → IsController self.old pool → IsController self.new pool }
        ensures answer { (rules : FrontRules) (late : Bool) (notes : Notes) (pool : List Slot) → Stands rules late notes self.old pool → IsTrue result ↔ MayBeHeld notes qid }
        ensures stands { (rules : FrontRules) (late : Bool) (notes : Notes) (pool : List Slot) → Stands rules late notes self.old pool → result ≡ true → Stands rules late (Held qid on ∷ notes) self.new pool }
    {
        let Some(seen) = self.board.queue(qid) else {
            return false;
        };
        let mut sq = self.sq(qid);
        let waiting = sq.window.len.saturating_sub(self.picked_in(qid));
        let count = if on { 0 } else { waiting.min(HIGHEST_COUNT) };
        show(&mut self.board, qid, seen.class, count);
        sq.held = bit(on);
        self.put_sq(qid, sq);
        true
    }

    /// From now on this is the priority class of an I/O submission queue, whatever its Create asked for. A queue that is
    /// opened has the class of its Create. False, which changes nothing, where the queue is the admin queue or isn't open,
    /// and where the class is that of the admin queue. (Base Specification, Create I/O Submission Queue, QPRIO; profile)
    pub fn set_class(&mut self, qid: u16, class: Class) -> bool
        ensures depths { depths_of self.new ≡ depths_of self.old }
        ensures own { own_of self.new ≡ own_of self.old }
        ensures refused { result ≡ false → self.new ≡ self.old }
        ensures front { (pool : List Slot) → IsController self.old pool → IsController self.new pool }
        ensures answer { (rules : FrontRules) (late : Bool) (notes : Notes) (pool : List Slot) → Stands rules late notes self.old pool → IsTrue result ↔ MayBeClassed notes qid class }
        ensures stands { (rules : FrontRules) (late : Bool) (notes : Notes) (pool : List Slot) → Stands rules late notes self.old pool → result ≡ true → Stands rules late (Classed qid class ∷ notes) self.new pool }
    {
        if qid == 0 || matches!(class, Class::Admin) {
            return false;
        }
        let Some(seen) = self.board.queue(qid) else {
            return false;
        };
        show(&mut self.board, qid, class, seen.count);
        true
    }
}
