// What is seen of an engine's queues.
//
// Decided: a turn looks at the identifiers up to the highest that was ever opened: most workloads count from 1, and a
// bound needs one lemma where a set of identifiers would need many.
use crate::engine::Engine;
use nvme_admin::MAX_REGIONS;

impl Engine {
    ghost use Rattle.std.specs.Prelude.{◌≡◌, ◌↔◌, ℕ, ◌<◌, ◌≤◌, Bool, Some, None, IsTrue, length, option_map, is_some};
    ghost use Rattle.nvme_arbiter.specs.Limits.{queue_limit};
    ghost use Rattle.nvme_log.specs.Rules.{FrontRules, sq_regions_of};
    ghost use Rattle.nvme_log.specs.Queues.{Queue, open_sq, open_cq, is_serving, qid_of_region, is_closed_region};
    ghost use Rattle.nvme_log.specs.Places.{waiting};
    ghost use Rattle.nvme_log.specs.Account.{IsClear};
    ghost use Rattle.nvme_ctrl_log.specs.Notes.{Notes, logged};
    ghost use Rattle.nvme_engine.specs.Standing.{StandsAt};

    /// The region of an open submission queue.
    pub fn sq_region(&self, qid: u16) -> Option<u8>
        ensures { (rules : FrontRules) (late : Bool) (notes : Notes) → StandsAt rules late notes self.now → result ≡ option_map (λ queue. queue.region) (open_sq (logged notes) qid) }
    {
        self.controller.sq_region(qid)
    }

    /// The region of an open completion queue.
    pub fn cq_region(&self, cqid: u16) -> Option<u8>
        ensures { (rules : FrontRules) (late : Bool) (notes : Notes) → StandsAt rules late notes self.now → result ≡ open_cq (logged notes) cqid }
    {
        self.controller.cq_region(cqid)
    }

    /// A bound on the identifiers of the open queues of both kinds: each is below it. It is at most 65.
    pub fn queues(&self) -> u16
        ensures few { (rules : FrontRules) (late : Bool) (notes : Notes) → StandsAt rules late notes self.now → result ≤ queue_limit }
        ensures sqs { (rules : FrontRules) (late : Bool) (notes : Notes) → StandsAt rules late notes self.now → (q : ℕ) → result ≤ q → open_sq (logged notes) q ≡ None }
        ensures cqs { (rules : FrontRules) (late : Bool) (notes : Notes) → StandsAt rules late notes self.now → (q : ℕ) → result ≤ q → open_cq (logged notes) q ≡ None }
    {
        self.queues
    }

    /// How many commands of an open submission queue were fetched and wait to be picked.
    pub fn waiting(&self, qid: u16) -> u16
        ensures { (rules : FrontRules) (late : Bool) (notes : Notes) → StandsAt rules late notes self.now → (queue : Queue) → open_sq (logged notes) qid ≡ Some queue → result ≡ length (waiting (logged notes) queue.region) }
    {
        self.controller.waiting(qid)
    }

    /// Whether the queue of a submission region is open or closing.
    pub fn is_serving(&self, region: u8) -> bool
        ensures { (rules : FrontRules) (late : Bool) (notes : Notes) → StandsAt rules late notes self.now → result ≡ is_serving (logged notes) region }
    {
        for qid in 0..MAX_REGIONS as u16 {
            if self.controller.serving(qid) == Some(region) {
                return true;
            }
        }
        false
    }

    /// Whether no command waits, every fetched command has its completion posted, and no deletion is pending.
    pub fn is_clear(&self) -> bool
        ensures { (rules : FrontRules) (late : Bool) (notes : Notes) → StandsAt rules late notes self.now → IsTrue result ↔ IsClear (logged notes) }
    {
        self.controller.is_clear(self.slots.as_slice())
    }
}
