// The commands that the device takes, and its answers. (tags: profile)
use crate::queue_set::with_queue;
use crate::state::Controller;
use nvme_ctrl_log::StatusFlags;
use nvme_entry::Status;
use nvme_slots::slot::{ANSWERED, OUT, Slot, put_ended, put_out, slot_at};

/// What the device answers to a command.
#[derive(Clone, Copy, Debug, PartialEq, Eq)]
pub struct Answer {
    pub status: Status,
    /// Dword 0 of the completion.
    pub dw0: u32,
    /// The flags of the completion.
    pub flags: StatusFlags,
}

impl Controller {
    ghost use Rattle.std.specs.Prelude.{◌≡◌, ℕ, ◌≢◌, Bool, true, false, List, ◌∷◌, length, None, Some, IfSome};
    ghost use Rattle.nvme_log.specs.Rules.{FrontRules};
    ghost use Rattle.nvme_log.specs.Answers as log;
    ghost use Rattle.nvme_ctrl_log.specs.Notes.{Notes};
    ghost use Rattle.nvme_ctrl_log.specs.Tags.{is_out, handed, taken};
    ghost use Rattle.nvme_ctrl.specs.Standing.{Stands, IsController};
    ghost use Rattle.nvme_slots.specs.Generations.{SameGenerations, IsNextGeneration};
    ghost use Rattle.nvme_ctrl.specs.Own.{own_of};
    ghost use Rattle.nvme_ctrl.specs.Calls.{depths_of, HasTaken, HasAnswered};
    ghost use Rattle.nvme_slots.specs.declared.slot.Slot.{Slot};

    /// The device takes the next picked command, whose slot has the next generation from then on (`Tag`). The slot holds the
    /// command until its completion is posted. None, which changes nothing, exactly where all that was picked is taken.
    pub fn take(&mut self, slots: &mut [Slot]) -> Option<u16>
        ensures front { IsController self.old slots.old → IsController self.new slots.new }
        ensures none { result ≡ None → (self.new ≡ self.old) × (slots.new ≡ slots.old) }
        ensures depths { depths_of self.new ≡ depths_of self.old }
        ensures size { length slots.new ≡ length slots.old }
        ensures own { own_of self.new ≡ own_of self.old }
        ensures generation { (rules : FrontRules) (late : Bool) (notes : Notes) → Stands rules late notes self.old slots.old → IfSome result (λ tag. IsNextGeneration slots.old slots.new tag) }
        ensures told { (rules : FrontRules) (late : Bool) (notes : Notes) → Stands rules late notes self.old slots.old → result ≡ None → handed notes ≡ taken notes }
        ensures stands { (rules : FrontRules) (late : Bool) (notes : Notes) → Stands rules late notes self.old slots.old → IfSome result (λ tag. HasTaken rules late notes tag self.new slots.new) }
    {
        if self.picked == 0 {
            return None;
        }
        if !self.has_first(slots, self.picked_qid) {
            return None;
        }
        let tag = self.pop_window(slots, self.picked_qid)?;
        put_out(slots, tag);
        self.picked -= 1;
        Some(tag)
    }

    /// The device answers the command of a tag, whose completion is ready then. False, which changes nothing, exactly
    /// where the device has no command of this tag.
    pub fn complete(&mut self, slots: &mut [Slot], tag: u16, answer: Answer) -> bool
        ensures front { IsController self.old slots.old → IsController self.new slots.new }
        ensures refused { result ≡ false → (self.new ≡ self.old) × (slots.new ≡ slots.old) }
        ensures depths { depths_of self.new ≡ depths_of self.old }
        ensures size { length slots.new ≡ length slots.old }
        ensures generations { SameGenerations slots.old slots.new }
        ensures own { own_of self.new ≡ own_of self.old }
        ensures answer { (rules : FrontRules) (late : Bool) (notes : Notes) → Stands rules late notes self.old slots.old → result ≡ is_out notes tag }
        ensures stands { (rules : FrontRules) (late : Bool) (notes : Notes) → Stands rules late notes self.old slots.old → result ≡ true → HasAnswered rules late notes tag (record { status = answer.status; dw0 = answer.dw0 }) answer.flags self.new slots.new }
    {
        let slot = slot_at(slots, tag);
        if slot.state != OUT {
            return false;
        }
        put_ended(
            slots,
            tag,
            ANSWERED,
            answer.status,
            answer.dw0,
            answer.flags,
        );
        let cqid = self.sq(u16::from(slot.sqid)).cqid;
        self.push_ready(slots, cqid, tag);
        self.readied = with_queue(self.readied, cqid, true);
        true
    }
}
