// The picks of an engine. (Base Specification, Command Arbitration)
use crate::engine::Engine;
use arrayvec::ArrayVec;
use nvme_arbiter::{HIGHEST_COUNT, Pick, QUEUE_LIMIT, Seen};

impl Engine {
    ghost use Rattle.std.specs.Prelude.{◌≡◌, ◌≢◌, ℕ, ◌+◌, Bool, Some, nat_lt};
    ghost use Rattle.nvme_arbiter.specs.declared.pick.Pick.{Pick};
    ghost use Rattle.nvme_log.specs.Rules.{FrontRules};
    ghost use Rattle.nvme_log.specs.Limits.{max_outstanding};
    ghost use Rattle.nvme_log.specs.Places.{observation_of};
    ghost use Rattle.nvme_log.specs.Aborts.{places_for};
    ghost use Rattle.nvme_log.specs.Completions.{outstanding};
    ghost use Rattle.nvme_ctrl_log.specs.Notes.{Notes, logged};
    ghost use Rattle.nvme_engine.specs.Standing.{StandsAt, IsEngine};
    ghost use Rattle.nvme_engine.specs.Calls.{next_of, MayPick, HasPicked};

    /// The pick that arbitration makes next, of the commands that wait now.
    pub fn next_pick(&self) -> Option<Pick>
        requires engine { IsEngine self.now }
        ensures { (rules : FrontRules) (late : Bool) (notes : Notes) → StandsAt rules late notes self.now → result ≡ next_of rules notes }
    {
        self.controller.next_pick(self.slots.as_slice())
    }

    /// Whether a pick needs more outstanding places than are free, where it comes next: one for each command, and for an
    /// Abort command a second one, for the command that it aborts. (profile)
    pub fn lacks_places(&self, pick: Pick) -> bool
        ensures { (rules : FrontRules) (late : Bool) (notes : Notes) → StandsAt rules late notes self.now → result ≡ nat_lt max_outstanding (outstanding rules (logged notes) + places_for (logged notes) pick) }
    {
        self.controller.lacks_places(self.slots.as_slice(), pick)
    }

    /// What arbitration sees: the open queues, each with its number of waiting commands.
    pub fn observed(&self) -> ArrayVec<Seen, QUEUE_LIMIT>
        ensures { (rules : FrontRules) (late : Bool) (notes : Notes) → StandsAt rules late notes self.now → result.items ≡ observation_of (logged notes) }
    {
        let mut seen = ArrayVec::new();
        for qid in 0..self.queues {
            if let Some(queue) = self.controller.seen(qid) {
                let _fits = seen.try_push(queue);
            }
        }
        seen
    }

    /// Makes the next pick, which is of an I/O queue and has its places. Its commands are to be taken.
    pub fn pick_io(&mut self)
        requires engine { IsEngine self.old }
        ensures stands { (rules : FrontRules) (late : Bool) (notes : Notes) (pick : Pick) → StandsAt rules late notes self.old → MayPick rules notes pick → pick.qid ≢ 0 → HasPicked rules late notes pick self.new }
    {
        self.controller.pick(&mut self.slots, HIGHEST_COUNT);
    }
}
