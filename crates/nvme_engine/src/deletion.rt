// The end of deletions. (Base Specification, Delete I/O Submission Queue)
use crate::engine::Engine;

/// The deletion of a submission queue that can be finished: its identifier and its region.
#[derive(Clone, Copy, Debug, PartialEq, Eq)]
pub struct Finishing {
    pub qid: u16,
    pub region: u8,
}

impl Engine {
    ghost use Rattle.std.specs.Prelude.{◌≡◌, ◌≢◌, ℕ, Bool, Some, None, IfSome, is_some};
    ghost use Rattle.nvme_log.specs.Rules.{FrontRules};
    ghost use Rattle.nvme_log.specs.Queues.{Deletion, pending};
    ghost use Rattle.nvme_log.specs.Completions.{unposted_of};
    ghost use Rattle.nvme_ctrl_log.specs.Notes.{Notes, logged};
    ghost use Rattle.nvme_engine.specs.Standing.{StandsAt, IsEngine};
    ghost use Rattle.nvme_engine.specs.Calls.{HasFinished};

    /// Whether a deletion is pending.
    pub fn is_deleting(&self) -> bool
        ensures { (rules : FrontRules) (late : Bool) (notes : Notes) → StandsAt rules late notes self.now → result ≡ is_some (pending (logged notes)) }
    {
        self.controller.is_deleting()
    }

    /// The pending deletion, where all places of its queue are posted.
    pub fn finishing(&self) -> Option<Finishing>
        ensures some { (rules : FrontRules) (late : Bool) (notes : Notes) → StandsAt rules late notes self.now → IfSome result (λ f. (pending (logged notes) ≡ Some (record { qid = f.qid; region = f.region })) × (unposted_of (logged notes) f.region ≡ 0)) }
        ensures none { (rules : FrontRules) (late : Bool) (notes : Notes) → StandsAt rules late notes self.now → result ≡ None → (d : Deletion) → pending (logged notes) ≡ Some d → unposted_of (logged notes) d.region ≢ 0 }
    {
        let qid = self.controller.can_finish()?;
        let region = self.controller.serving(qid)?;
        Some(Finishing { qid, region })
    }

    /// Finishes the pending deletion, all places of whose queue are posted. The completion of the Delete is ready then.
    pub fn finish(&mut self)
        requires engine { IsEngine self.old }
        ensures stands { (rules : FrontRules) (late : Bool) (notes : Notes) (d : Deletion) → StandsAt rules late notes self.old → pending (logged notes) ≡ Some d → unposted_of (logged notes) d.region ≡ 0 → HasFinished rules late notes d self.new }
    {
        self.controller.finish(&mut self.slots);
    }
}
