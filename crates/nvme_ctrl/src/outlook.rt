// What a caller sees of a controller that keeps a log itself. (profile)
//
// Decided: a command that an Abort takes holds an outstanding place until its completion is posted, which bounds what
// waits to be posted. One that is aborted with its queue holds none, since a front has one deletion pending at a time.
ghost use Rattle.std.specs.Prelude.{◌≡◌, Some};
ghost use Rattle.nvme_log.specs.Aborts.{is_abort_entry};

use crate::state::Controller;
use arrayvec::ArrayVec;
use nvme_arbiter::{Pick, QUEUE_LIMIT, Seen};
use nvme_entry::{AdminCommand, Sqe, admin_of};
use nvme_log::MAX_OUTSTANDING;
use nvme_slots::slot::Slot;

// Whether an entry of the admin queue is an Abort.
fn is_abort(entry: &Sqe) -> bool
    ensures { result ≡ is_abort_entry (Some entry.now) }
{
    matches!(admin_of(entry), AdminCommand::Abort { .. })
}

impl Controller {
    ghost use Rattle.std.specs.Prelude.{◌≡◌, ◌↔◌, ℕ, ◌+◌, nat_lt, Bool, true, false, List, Some, None, IfSome, IsTrue, is_some};
    ghost use Rattle.nvme_log.specs.Rules.{FrontRules};
    ghost use Rattle.nvme_log.specs.Aborts.{is_abort_entry, places_for};
    ghost use Rattle.nvme_log.specs.Histories.{admin_entry};
    ghost use Rattle.nvme_log.specs.Completions.{outstanding};
    ghost use Rattle.nvme_log.specs.Limits.{max_outstanding};
    ghost use Rattle.nvme_log.specs.Queues.{is_closed_region, qid_of_region};
    ghost use Rattle.nvme_ctrl_log.specs.Notes.{Notes, logged};
    ghost use Rattle.nvme_ctrl_log.specs.Deletions.{IsDeletingSome};
    ghost use Rattle.nvme_ctrl_log.specs.Laws.{NoneDeleting};
    ghost use Rattle.nvme_ctrl_log.specs.Making.{placing_in};
    ghost use Rattle.nvme_ctrl_log.specs.Observation.{observed_of};
    ghost use Rattle.nvme_ctrl.specs.Outlook.{IsAllDone};
    ghost use Rattle.nvme_ctrl.specs.Standing.{Stands};
    ghost use Rattle.nvme_ctrl_log.specs.Steps.{IsIdentifier};
    ghost use Rattle.nvme_slots.specs.declared.slot.Slot.{Slot};

    /// What the next pick is shown: the open queues by ascending identifier, each as `seen` tells it. (Base Specification,
    /// Command Arbitration)
    pub fn observed(&self) -> ArrayVec<Seen, QUEUE_LIMIT>
        ensures { (rules : FrontRules) (late : Bool) (notes : Notes) (pool : List Slot) → Stands rules late notes self.now pool → result.items ≡ observed_of notes }
    {
        self.board.seen()
    }

    // Whether the command that waits first in the admin queue is an Abort, which may abort a second command.
    fn is_abort_first(&self, slots: &[Slot]) -> bool
        ensures { (rules : FrontRules) (late : Bool) (notes : Notes) → Stands rules late notes self.now slots.now → result ≡ is_abort_entry (admin_entry (logged notes)) }
    {
        match self.waits(slots, 0, 0) {
            Some(oldest) => is_abort(&oldest.entry),
            None => false,
        }
    }

    // How many outstanding places a pick needs: one for each command, and for an Abort command a second one, for the
    // command that it aborts.
    fn needs(&self, slots: &[Slot], pick: Pick) -> u16
        ensures { (rules : FrontRules) (late : Bool) (notes : Notes) → Stands rules late notes self.now slots.now → result ≡ places_for (logged notes) pick }
    {
        if pick.qid == 0 && self.is_abort_first(slots) {
            2
        } else {
            pick.n
        }
    }

    /// Whether a pick would leave more commands outstanding than `MAX_OUTSTANDING`, where it comes next, as `next_pick` tells
    /// it. An Abort command needs one place more, for the command that it aborts. `pick` has no such limit: a caller that
    /// keeps to one asks here before.
    pub fn lacks_places(&self, slots: &[Slot], pick: Pick) -> bool
        ensures { (rules : FrontRules) (late : Bool) (notes : Notes) → Stands rules late notes self.now slots.now → result ≡ nat_lt max_outstanding (outstanding rules (logged notes) + places_for (logged notes) pick) }
    {
        self.outstanding.saturating_add(self.needs(slots, pick)) > MAX_OUTSTANDING
    }

    /// Whether the deletion of a submission queue began and isn't finished. (Base Specification, Delete I/O Submission
    /// Queue)
    pub fn is_deleting(&self) -> bool
        ensures none { (rules : FrontRules) (late : Bool) (notes : Notes) (pool : List Slot) → Stands rules late notes self.now pool → result ≡ false → NoneDeleting (logged notes) }
        ensures some { (rules : FrontRules) (late : Bool) (notes : Notes) (pool : List Slot) → Stands rules late notes self.now pool → result ≡ true → IsDeletingSome (logged notes) }
    {
        self.pending_deletions != 0
    }

    /// The region of a submission queue that is open or is being deleted. Where queues may lie anywhere, its number is the
    /// identifier.
    pub fn serving(&self, qid: u16) -> Option<u8>
        ensures on_regions { (rules : FrontRules) (late : Bool) (notes : Notes) (pool : List Slot) → Stands rules late notes self.now pool → placing_in rules ≡ None
            → (r : ℕ) → (result ≡ Some r) ↔ ((qid_of_region (logged notes) r ≡ Some qid) × (is_closed_region (logged notes) r ≡ false)) }
        ensures anywhere { (rules : FrontRules) (late : Bool) (notes : Notes) (pool : List Slot) → Stands rules late notes self.now pool → is_some (placing_in rules) ≡ true → IfSome result (λ region. IsIdentifier qid region) }
    {
        if self.sq(qid).ring.slots == 0 {
            return None;
        }
        let queue = self.table.sq(qid)?;
        Some(self.region_told(qid, queue.region))
    }

    /// Whether nothing is left to do: no command waits, each fetched command has its completion posted, and no queue is
    /// being deleted. All slots are free exactly then.
    pub fn is_clear(&self, slots: &[Slot]) -> bool
        ensures { (rules : FrontRules) (late : Bool) (notes : Notes) → Stands rules late notes self.now slots.now → IsTrue result ↔ IsAllDone (logged notes) }
    {
        usize::from(self.free.len) == slots.len()
    }
}
