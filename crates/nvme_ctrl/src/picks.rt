// The picks of a controller. (Base Specification, Command Arbitration)
//
// Decided: a pick tells what it did, and the command. A front asks beforehand which commands a Delete or an Abort will
// end: a controller keeps no list, and a chain in the pool would have to be told apart from the completions before it.
//
// Decided: a pick is told its room, 0 where the device is full, since just the device knows it then.
use crate::state::Controller;
use nvme_admin::Effect;
use nvme_arbiter::Pick;
use nvme_entry::{AdminCommand, Sqe, admin_of};
use nvme_slots::slot::{Slot, slot_at};

/// What a step of arbitration did.
#[derive(Clone, Copy, Debug, PartialEq, Eq)]
pub enum Step {
    /// No command waits, but in queues that are held.
    Idle,
    /// Commands are picked that the device hasn't taken.
    Busy,
    /// There is a next pick, but the device has room for no command.
    NoRoom,
    /// Commands of an I/O queue were picked, for the device to take: no more than it has room for.
    Picked(Pick),
    /// A command of the admin queue was picked that is the device's, which is to take it.
    Passed(Pick),
    /// A command of the admin queue was picked and carried out: what it did, and its entry. Where queues may lie anywhere,
    /// the number of a new queue's region is its identifier.
    Done(Effect, Sqe),
}

impl Controller {
    ghost use Rattle.std.specs.Prelude.{◌≡◌, ◌≢◌, ℕ, ◌+◌, ◌≤◌, Bool, true, false, not, List, length, Option, Some, None, IfSome, IsTrue, is_some};
    ghost use Rattle.nvme_arbiter.specs.Layout.{board_of};
    ghost use Rattle.nvme_arbiter.specs.Queues.{seen_of};
    ghost use Rattle.nvme_arbiter.specs.Standing.{pick_of};
    ghost use Rattle.nvme_log.specs.Rules.{FrontRules};
    ghost use Rattle.nvme_ctrl_log.specs.Notes.{Notes, logged};
    ghost use Rattle.nvme_ctrl.specs.Standing.{Stands, IsController, has_arbiter};
    ghost use Rattle.nvme_arbiter.specs.declared.pick.Pick.{Pick};
    ghost use Rattle.nvme_admin.specs.declared.effect.Effect.{Effect};
    ghost use Rattle.nvme_entry.specs.declared.submission.Sqe.{Sqe};
    ghost use Rattle.nvme_entry.specs.AdminCommand.{admin_command_of};
    ghost use Rattle.nvme_entry.specs.declared.admin.AdminCommand.TheVariants as command;
    ghost use Rattle.nvme_slots.specs.Generations.{SameGenerations};
    ghost use Rattle.nvme_ctrl_log.specs.Own.{names_none};
    ghost use Rattle.nvme_ctrl.specs.Own.{is_own, own_of, oldest_is_own};
    ghost use Rattle.nvme_ctrl.specs.Calls.{depths_of};
    ghost use Rattle.nvme_placing.specs.Telling.{placing_of, unplaced_verdict};
    ghost use Rattle.nvme_ctrl_log.specs.Making.{placing_in};
    ghost use Rattle.nvme_admin.specs.Effects.{verdict_in};
    ghost use Rattle.nvme_ctrl_log.specs.Steps.{IsNextPick, IsVerdictOf, IsBusy, NamesQueues, NamesIdentifiers, picked_notes};
    ghost use Rattle.nvme_ctrl.specs.Steps.{HasStepped, HasPassed, HasDone, PicksNone};
    ghost use Rattle.nvme_ctrl.specs.inside.Picks.{CanPickNow, oldest_entry};
    ghost use Rattle.nvme_slots.specs.declared.slot.Slot.{Slot};
    ghost use Rattle.nvme_ctrl.specs.declared.picks.Step.TheVariants as step;

    /// Whether what arbitration keeps is in its ranges. That of a controller always is.
    pub fn has_arbiter(&self) -> bool
        ensures value { result ≡ has_arbiter self.now }
        ensures made { (slots : List Slot) → IsController self.now slots → result ≡ true }
    {
        self.board.arbiter.is_arbiter()
    }

    /// The pick that arbitration makes next, of the commands that wait now. None where none waits, but in queues that are
    /// held.
    pub fn next_pick(&self, slots: &[Slot]) -> Option<Pick>
        requires arbiter { IsTrue (has_arbiter self.now) }
        ensures { (rules : FrontRules) (late : Bool) (notes : Notes) → Stands rules late notes self.now slots.now → IsNextPick rules notes result }
    {
        self.board.peek()
    }

    // Makes the next pick, which is of an I/O queue.
    fn pick_io(&mut self, slots: &[Slot], pick: Pick)
        requires can { CanPickNow self.old slots.now pick }
        requires io { pick.qid ≢ 0 }
        ensures depths { depths_of self.new ≡ depths_of self.old }
        ensures own { own_of self.new ≡ own_of self.old }
        ensures stands { (rules : FrontRules) (late : Bool) (notes : Notes) → Stands rules late notes self.old slots.now → Stands rules late (picked_notes notes pick) self.new slots.now }
    {
        self.board.keep(pick);
        let sq = self.sq(pick.qid);
        let unposted = sq.unposted.saturating_add(pick.n);
        self.put_unposted(pick.qid, unposted);
        self.outstanding = self.outstanding.saturating_add(pick.n);
        self.picked = pick.n;
        self.picked_qid = pick.qid;
    }

    // Whether a command with this identifier waits in the I/O submission queue with this one. (Abort)
    fn has_waiting(&self, slots: &[Slot], sqid: u16, cid: u16) -> bool
        ensures { (rules : FrontRules) (late : Bool) (notes : Notes) → Stands rules late notes self.now slots.now → self.now.picked ≡ 0 → result ≡ not (names_none (logged notes) (command.Abort sqid cid)) }
    {
        if sqid == 0 {
            return false;
        }
        self.sq_region(sqid).is_some() && self.sq(sqid).window.find(slots, cid).is_some()
    }

    // Whether a command is no Abort that names a command that waits. (Abort)
    fn names_none(&self, slots: &[Slot], entry: &Sqe) -> bool
        ensures { (rules : FrontRules) (late : Bool) (notes : Notes) → Stands rules late notes self.now slots.now → self.now.picked ≡ 0 → result ≡ names_none (logged notes) (admin_command_of entry.now) }
    {
        match admin_of(entry) {
            AdminCommand::Abort { sqid, cid } => !self.has_waiting(slots, sqid, cid),
            _ => true,
        }
    }

    // Whether the oldest command of the admin queue's window is the device's.
    fn is_own(&self, slots: &[Slot]) -> bool
        ensures { (rules : FrontRules) (late : Bool) (notes : Notes) → Stands rules late notes self.now slots.now → self.now.picked ≡ 0 → result ≡ is_own self.now.own (logged notes) (oldest_entry self.now slots.now) }
    {
        let oldest = slot_at(slots, self.sq(0).window.first);
        self.own.has(&oldest.entry) && self.names_none(slots, &oldest.entry)
    }

    // Makes the next pick, which is of the admin queue. Its command is the device's, which is to take it.
    fn pass(&mut self, slots: &[Slot], pick: Pick)
        requires can { CanPickNow self.old slots.now pick }
        requires of_admin { pick.qid ≡ 0 }
        requires own { (rules : FrontRules) (late : Bool) (notes : Notes) → Stands rules late notes self.old slots.now → is_own self.old.own (logged notes) (oldest_entry self.old slots.now) ≡ true }
        ensures depths { depths_of self.new ≡ depths_of self.old }
        ensures left { own_of self.new ≡ own_of self.old }
        ensures stands { (rules : FrontRules) (late : Bool) (notes : Notes) → Stands rules late notes self.old slots.now → HasPassed rules late notes pick self.new slots.now }
    {
        self.board.keep(pick);
        let mut sq = self.sq(0);
        sq.unposted = sq.unposted.saturating_add(1);
        self.put_sq(0, sq);
        self.outstanding = self.outstanding.saturating_add(1);
        self.picked = 1;
        self.picked_qid = 0;
    }

    // An effect with the regions that are told.
    fn told(&self, effect: Effect) -> Effect
        ensures on_regions { placing_of self.now.table ≡ None → result ≡ effect }
        ensures anywhere { is_some (placing_of self.now.table) ≡ true → NamesIdentifiers result }
        ensures same { unplaced_verdict (verdict_in result) ≡ unplaced_verdict (verdict_in effect) }
    {
        match effect {
            Effect::OpenSq {
                qid,
                region,
                cqid,
                cq_region,
                class,
            } => Effect::OpenSq {
                qid,
                region: self.region_told(qid, region),
                cqid,
                cq_region: self.region_told(cqid, cq_region),
                class,
            },
            Effect::OpenCq { qid, region } => Effect::OpenCq {
                qid,
                region: self.region_told(qid, region),
            },
            Effect::BeginDelete { qid, region } => Effect::BeginDelete {
                qid,
                region: self.region_told(qid, region),
            },
            Effect::CloseCq { qid, region } => Effect::CloseCq {
                qid,
                region: self.region_told(qid, region),
            },
            _ => effect,
        }
    }

    // Makes the next pick, which is of the admin queue, and carries the command out.
    fn pick_admin(&mut self, slots: &mut [Slot], pick: Pick) -> (Effect, Sqe)
        requires can { CanPickNow self.old slots.old pick }
        requires of_admin { pick.qid ≡ 0 }
        ensures depths { depths_of self.new ≡ depths_of self.old }
        ensures size { length slots.new ≡ length slots.old }
        ensures generations { SameGenerations slots.old slots.new }
        ensures names { (rules : FrontRules) (late : Bool) (notes : Notes) → Stands rules late notes self.old slots.old → placing_in rules ≡ None → NamesQueues (logged notes) result.0 }
        ensures anywhere { (rules : FrontRules) (late : Bool) (notes : Notes) → Stands rules late notes self.old slots.old → is_some (placing_in rules) ≡ true → NamesIdentifiers result.0 }
        ensures own { own_of self.new ≡ own_of self.old }
        ensures commanded { (rules : FrontRules) (late : Bool) (notes : Notes) → Stands rules late notes self.old slots.old → IsVerdictOf (admin_command_of result.1) (verdict_in result.0) }
        ensures stands { (rules : FrontRules) (late : Bool) (notes : Notes) → Stands rules late notes self.old slots.old → HasDone rules late notes result.0 result.1 self.new slots.new }
    {
        self.board.keep(pick);
        let mut sq = self.sq(0);
        let tag = sq.window.pop(slots).unwrap_or(0);
        sq.unposted = sq.unposted.saturating_add(1);
        self.put_sq(0, sq);
        self.outstanding = self.outstanding.saturating_add(1);
        let entry = slot_at(slots, tag).entry;
        let effect = self.table.execute(&entry);
        let told = self.told(effect);
        self.carry_out(slots, tag, &effect);
        (told, entry)
    }

    /// Makes the next pick of arbitration, of at most `room` commands: as many as the device can take now. The rest of the
    /// burst waits until its queue's turn comes again. Where it makes none, nothing changes. A command of the admin queue is
    /// passed on to the device exactly where it is the device's (`own_opcode`, `own_feature`). An Abort of a command that
    /// waits never is: the controller ends that command. Any other Abort is, where its opcode was announced. (Command
    /// Arbitration, Abort)
    pub fn pick(&mut self, slots: &mut [Slot], room: u16) -> Step
        requires arbiter { IsTrue (has_arbiter self.old) }
        ensures front { IsController self.old slots.old → IsController self.new slots.new }
        ensures idle { result ≡ step.Idle → (self.new ≡ self.old) × (slots.new ≡ slots.old) }
        ensures busy { result ≡ step.Busy → (self.new ≡ self.old) × (slots.new ≡ slots.old) }
        ensures taken { (rules : FrontRules) (late : Bool) (notes : Notes) → Stands rules late notes self.old slots.old → IsBusy notes → result ≡ step.Busy }
        ensures no_room { result ≡ step.NoRoom → (self.new ≡ self.old) × (slots.new ≡ slots.old) }
        ensures needs_room { room ≡ 0 → PicksNone result }
        ensures io { (pick : Pick) → result ≡ step.Picked pick → pick.qid ≢ 0 }
        ensures commanded { (rules : FrontRules) (late : Bool) (notes : Notes) → Stands rules late notes self.old slots.old → (effect : Effect) (entry : Sqe) → result ≡ step.Done effect entry → IsVerdictOf (admin_command_of entry) (verdict_in effect) }
        ensures passed { (rules : FrontRules) (late : Bool) (notes : Notes) → Stands rules late notes self.old slots.old → (pick : Pick) → result ≡ step.Passed pick → oldest_is_own (own_of self.old) notes ≡ Some true }
        ensures carried_out { (rules : FrontRules) (late : Bool) (notes : Notes) → Stands rules late notes self.old slots.old → (effect : Effect) (entry : Sqe) → result ≡ step.Done effect entry → oldest_is_own (own_of self.old) notes ≡ Some false }
        ensures anywhere { (rules : FrontRules) (late : Bool) (notes : Notes) → Stands rules late notes self.old slots.old → is_some (placing_in rules) ≡ true → (effect : Effect) (entry : Sqe) → result ≡ step.Done effect entry → NamesIdentifiers effect }
        ensures names { (rules : FrontRules) (late : Bool) (notes : Notes) → Stands rules late notes self.old slots.old → placing_in rules ≡ None → (effect : Effect) (entry : Sqe) → result ≡ step.Done effect entry → NamesQueues (logged notes) effect }
        ensures depths { depths_of self.new ≡ depths_of self.old }
        ensures size { length slots.new ≡ length slots.old }
        ensures generations { SameGenerations slots.old slots.new }
        ensures own { own_of self.new ≡ own_of self.old }
        ensures stands { (rules : FrontRules) (late : Bool) (notes : Notes) → Stands rules late notes self.old slots.old → HasStepped rules late notes room result self.new slots.new }
    {
        if self.picked != 0 {
            return Step::Busy;
        }
        let Some(whole) = self.board.peek() else {
            return Step::Idle;
        };
        if room == 0 {
            return Step::NoRoom;
        }
        let pick = whole.up_to(room);
        if pick.qid != 0 {
            self.pick_io(slots, pick);
            Step::Picked(pick)
        } else if self.is_own(slots) {
            self.pass(slots, pick);
            Step::Passed(pick)
        } else {
            let (effect, entry) = self.pick_admin(slots, pick);
            Step::Done(effect, entry)
        }
    }
}
