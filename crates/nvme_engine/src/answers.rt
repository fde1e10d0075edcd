// The picked commands that are taken, and their answers.
use crate::engine::Engine;
use nvme_ctrl::{Answer, StatusFlags};
use nvme_entry::{Sqe, Status};

/// A picked command that is taken: its tag, its index among the fetches of its region, and its entry.
#[derive(Clone, Copy, Debug, PartialEq, Eq)]
pub struct Taking {
    pub tag: u16,
    pub index: u32,
    pub entry: Sqe,
}

impl Engine {
    ghost use Rattle.std.specs.Prelude.{◌≡◌, ℕ, ◌==◌, Bool, true, false, List, [], ◌∷◌, Some, None, IfSome, IsSome};
    ghost use Rattle.nvme_entry.specs.Outcome.{outcome_of};
    ghost use Rattle.nvme_entry.specs.declared.submission.Sqe.{Sqe};
    ghost use Rattle.nvme_log.specs.Rules.{FrontRules};
    ghost use Rattle.nvme_log.specs.Places.{entry_at};
    ghost use Rattle.nvme_log.specs.declared.place.Place.{Place};
    ghost use Rattle.nvme_ctrl_log.specs.Notes.{Notes, logged};
    ghost use Rattle.nvme_ctrl_log.specs.Tags.{holder, is_out};
    ghost use Rattle.nvme_engine.specs.Standing.{StandsAt, StandsBut, IsEngine};
    ghost use Rattle.nvme_engine.specs.Calls.{HasTaken, HasAnswered};

    /// Takes the next picked command of an I/O queue. None, which changes nothing, where all are taken.
    pub fn take(&mut self) -> Option<Taking>
        requires engine { IsEngine self.old }
        ensures none { (rules : FrontRules) (late : Bool) (notes : Notes) → StandsAt rules late notes self.old → (result ≡ None) × (self.new ≡ self.old) }
        ensures some { (rules : FrontRules) (late : Bool) (notes : Notes) (p : Place) (rest : List Place) → StandsBut rules late notes (p ∷ rest) self.old → IsSome result }
        ensures stands { (rules : FrontRules) (late : Bool) (notes : Notes) (p : Place) (rest : List Place) → StandsBut rules late notes (p ∷ rest) self.old → IfSome result (λ t. HasTaken rules late notes p rest t self.new) }
    {
        let tag = self.controller.take(&mut self.slots)?;
        let slots = self.slots.as_slice();
        Some(Taking {
            tag,
            index: self.controller.cookie(slots, tag),
            entry: self.controller.entry(slots, tag),
        })
    }

    /// The command of a tag was executed, with its outcome as status. Its completion is ready then. (Base Specification,
    /// Completion Queue Entry)
    pub fn complete(&mut self, tag: u16, status: Status)
        requires engine { IsEngine self.old }
        ensures stands { (rules : FrontRules) (late : Bool) (notes : Notes) (p : Place) (entry : Sqe) → StandsAt rules late notes self.old → holder notes tag ≡ Some p → is_out notes tag ≡ true → entry_at (logged notes) p.region p.index ≡ Some entry → status ≡ outcome_of entry rules.sizes → HasAnswered rules late notes p status self.new }
    {
        let answer = Answer {
            status,
            dw0: 0,
            flags: StatusFlags::NONE,
        };
        self.controller.complete(&mut self.slots, tag, answer);
    }
}
