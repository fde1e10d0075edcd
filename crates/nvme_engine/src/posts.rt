// The posts of an engine. (Base Specification, Completion Queue Entry)
use crate::engine::Engine;
use nvme_entry::Cqe;
use nvme_log::Place;

impl Engine {
    ghost use Rattle.std.specs.Prelude.{◌≡◌, ◌≢◌, ℕ, ◌<◌, Bool, true, false, Some, None, IfSome, IsSome};
    ghost use Rattle.nvme_entry.specs.declared.completion.Cqe.{Cqe};
    ghost use Rattle.nvme_log.specs.Rules.{FrontRules, cq_regions_of, slots_at};
    ghost use Rattle.nvme_log.specs.Queues.{open_cq};
    ghost use Rattle.nvme_ctrl_log.specs.Notes.{Notes, logged};
    ghost use Rattle.nvme_ctrl_log.specs.Posts.{AllPosted};
    ghost use Rattle.nvme_engine.specs.Standing.{StandsAt, IsEngine};
    ghost use Rattle.nvme_engine.specs.Calls.{next_cqe, HasPosted};

    /// Whether a completion is ready in any completion queue.
    pub fn has_ready(&self) -> bool
        ensures some { result ≡ true → (cqid : ℕ) × (next_cqe self.now cqid ≢ None) }
        ensures none { (rules : FrontRules) (late : Bool) (notes : Notes) (cqid x : ℕ) → StandsAt rules late notes self.now → open_cq (logged notes) cqid ≡ Some x → result ≡ false → AllPosted notes x }
    {
        self.controller
            .next_to_post(self.slots.as_slice(), 0)
            .is_some()
    }

    /// The completion that is posted next to a completion queue. None where the queue isn't open, and where none is ready.
    pub fn next_post(&self, cqid: u16) -> Option<Cqe>
        ensures value { result ≡ next_cqe self.now cqid }
        ensures none { (rules : FrontRules) (late : Bool) (notes : Notes) (x : ℕ) → StandsAt rules late notes self.now → open_cq (logged notes) cqid ≡ Some x → result ≡ None → AllPosted notes x }
    {
        let post = self.controller.next_post(self.slots.as_slice(), cqid)?;
        Some(post.cqe)
    }

    /// The completion that `next_post` tells was put into the ring of its queue, which has so many slots. The answer is its
    /// place.
    pub fn post(&mut self, cqid: u16, slots: u16) -> Option<Place>
        requires engine { IsEngine self.old }
        requires some { 0 < slots }
        ensures posted { (rules : FrontRules) (late : Bool) (notes : Notes) (x : ℕ) (cqe : Cqe) → StandsAt rules late notes self.old → open_cq (logged notes) cqid ≡ Some x → slots ≡ slots_at (cq_regions_of rules) x → next_cqe self.old cqid ≡ Some cqe → IsSome result }
        ensures stands { (rules : FrontRules) (late : Bool) (notes : Notes) (x : ℕ) (cqe : Cqe) → StandsAt rules late notes self.old → open_cq (logged notes) cqid ≡ Some x → slots ≡ slots_at (cq_regions_of rules) x → next_cqe self.old cqid ≡ Some cqe → IfSome result (λ p. HasPosted rules late notes x cqe p self.new) }
    {
        let post = self.controller.post(&mut self.slots, cqid)?;
        let head = (u32::from(post.slot) + 1) % u32::from(slots);
        self.controller.cq_head(cqid, head as u16);
        let region = self.controller.serving(post.cqe.sqid)?;
        Some(Place {
            region,
            index: post.cookie,
        })
    }
}
