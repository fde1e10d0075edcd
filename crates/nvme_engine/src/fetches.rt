// The fetches of an engine.
use crate::engine::Engine;
use nvme_entry::Sqe;

impl Engine {
    ghost use Rattle.std.specs.Prelude.{◌≡◌, ℕ, ◌+◌, ◌<◌, ◌%◌, Bool};
    ghost use Rattle.nvme_log.specs.Rules.{FrontRules};
    ghost use Rattle.nvme_ctrl_log.specs.Notes.{Notes};
    ghost use Rattle.nvme_engine.specs.Standing.{StandsAt, IsEngine};
    ghost use Rattle.nvme_engine.specs.Calls.{MayFetch, HasFetched};

    /// The front got the entry of a command of an open submission queue whose window has room. It is the next one, of this
    /// index among the fetches of its region, whose ring has so many slots. It waits then. (Base Specification, Command
    /// Submission and Completion Mechanism)
    pub fn fetched(&mut self, qid: u16, slots: u16, index: u32, entry: &Sqe)
        requires engine { IsEngine self.old }
        requires some { 0 < slots }
        ensures stands { (rules : FrontRules) (late : Bool) (notes : Notes) → StandsAt rules late notes self.old → MayFetch rules notes qid slots index → HasFetched rules late notes qid ((index + 1) % slots) index entry.now self.new }
    {
        let slots = u32::from(slots);
        let tail = (index % slots + 1) % slots;
        self.controller.sq_tail(qid, tail as u16);
        self.controller.fetched(&mut self.slots, qid, entry, index);
    }
}
