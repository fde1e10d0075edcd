// The effects of admin commands, which the controller carries out within. (Base Specification, Admin Command Set)
ghost use Rattle.std.specs.Prelude.{◌≡◌};
ghost use Rattle.nvme_entry.specs.AdminCommand.{admin_command_of};
ghost use Rattle.nvme_ctrl_log.specs.Making.{slots_asked};

use crate::board_counts::{hide, show_empty, went};
use crate::queue_set::with_queue;
use crate::state::{Controller, CqState, SqState};
use nvme_admin::Effect;
use nvme_arbiter::{Class, Settings};
use nvme_ctrl_log::StatusFlags;
use nvme_entry::{AdminCommand, Sqe, Status, admin_of};
use nvme_slots::ring::Ring;
use nvme_slots::slot::{DELETING, DROPPED, ENDED, Slot, put_ended, put_state, slot_at};

// The number of slots that a Create asks for.
fn asked_slots(entry: &Sqe) -> u16
    ensures { result ≡ slots_asked (admin_command_of entry.now) }
{
    match admin_of(entry) {
        AdminCommand::CreateSq { qsize, .. } | AdminCommand::CreateCq { qsize, .. } => {
            qsize.saturating_add(1)
        }
        _ => 1,
    }
}

impl Controller {
    ghost use Rattle.std.specs.Prelude.{◌≡◌, ◌≢◌, ℕ, ◌+◌, ◌<◌, ◌≤◌, ◌^◌, [], ◌∷◌, ◌↔◌, Bool, true, false, List, length, Some, None, IsSome, IsTrue};
    ghost use Rattle.nvme_arbiter.specs.Layout.{board_of, is_arbiter};
    ghost use Rattle.nvme_arbiter.specs.Limits.{highest_qid};
    ghost use Rattle.nvme_arbiter.specs.History.{History, Changed};
    ghost use Rattle.nvme_arbiter.specs.Board.{BoardStandsAt};
    ghost use Rattle.nvme_arbiter.specs.Queues.{queue_at};
    ghost use Rattle.nvme_arbiter.specs.Settings.{ArbitrationFields};
    ghost use Rattle.nvme_arbiter.specs.declared.settings.Mechanism.{Mechanism};
    ghost use Rattle.nvme_arbiter.specs.declared.settings.Class.TheVariants.{Admin};
    ghost use Rattle.nvme_admin.specs.declared.verdict.Verdict.{Verdict};
    ghost use Rattle.nvme_slots.specs.Generations.{SameGenerations};
    ghost use Rattle.nvme_ctrl.specs.Own.{own_of};
    ghost use Rattle.nvme_ctrl.specs.Calls.{depths_of};
    ghost use Rattle.nvme_ctrl.specs.Steps.{HasCarriedOut};
    ghost use Rattle.nvme_ctrl_log.specs.Tags.{answer_of, is_passed};
    ghost use Rattle.nvme_slots.specs.declared.slot.Slot.{Slot};
    ghost use Rattle.nvme_ctrl.specs.inside.Carrying.{IsApplied, HasDropped, oldest_dropped, item_dropped, HasBegun, HasRequested};
    ghost use Rattle.nvme_ctrl_content.specs.Carrying.{IsOpenable, IsCqOpenable, IsUnattached, opening, opening_cq, closing_cq, IsDroppable, dropped, deleting, HasNoneNamed, IsAbortable};
    ghost use Rattle.nvme_admin.specs.declared.bounds.TheConstants.{MAX_REGIONS};
    ghost use Rattle.nvme_log.specs.Rules.{FrontRules};
    ghost use Rattle.nvme_ctrl_log.specs.Notes.{Notes};
    ghost use Rattle.nvme_ctrl_content.specs.Content.{Candidate, Ready, Content, with_ready};
    ghost use Rattle.nvme_log.specs.Dispatches.{place_at};
    ghost use Rattle.nvme_ctrl.specs.kept.Kept.{Item, Items, IsThrough, IsCookie, is_passed_at, IsUnflagged};
    ghost use Rattle.nvme_ctrl.specs.inside.Loose.{IsLoose, Keeps, MakesReady, ended, with_item};
    ghost use Rattle.nvme_slots.specs.Pool.{slot_at, item_at};

    // The command of a slot ends without the device: its completion is ready in a completion queue, with the flags of its
    // status.
    pub(crate) fn end(
        &mut self,
        slots: &mut [Slot],
        tag: u16,
        state: u8,
        status: Status,
        dw0: u32,
        cqid: u16,
    )
        ensures kept { (rules : FrontRules) (notes : Notes) (k : Content) (g : Items) (t : Ready) → Keeps rules notes self.old slots.old k g → IsLoose slots.old g tag → MakesReady slots.old tag state status dw0 t → IsThrough notes t → IsCookie notes slots.old tag t.place → t.passed ≡ is_passed_at notes t.place → IsUnflagged notes t.place → (x : ℕ) → k.cq_life cqid ≡ Some x → k.sq_id t.place.region ≡ Some t.sqid → Keeps rules notes self.new slots.new (with_ready k x t) (with_item g x (ended tag t)) }
        ensures left { self.new ≡ record self.old { cqs = self.new.cqs; readied = self.new.readied } }
        ensures size { length slots.new ≡ length slots.old }
        ensures generations { SameGenerations slots.old slots.new }
        ensures others { (y : ℕ) → y ≢ tag → item_at slots.new y ≡ item_at slots.old y }
    {
        let flags = StatusFlags::of(status);
        put_ended(slots, tag, state, status, dw0, flags);
        self.push_ready(slots, cqid, tag);
        self.readied = with_queue(self.readied, cqid, true);
    }

    // Opens a submission queue. (Create I/O Submission Queue)
    fn open_sq(&mut self, qid: u16, size: u16, cqid: u16, class: Class)
        requires some { 0 < size }
        ensures kept { qid ≤ highest_qid → queue_at (board_of self.old.board).queues qid ≡ None → ((class ≡ Admin) ↔ (qid ≡ 0)) → (rules : FrontRules) (notes : Notes) (slots : List Slot) (k : Content) (g : Items) → (region x : ℕ) → Keeps rules notes self.old slots k g → self.old.picked ≡ 0 → IsOpenable rules notes k qid size cqid region x → Keeps rules notes self.new slots (opening k qid region x class) g }
        ensures left { self.new ≡ record self.old { board = self.new.board; sqs = self.new.sqs } }
        ensures arbiter { self.new.board.arbiter ≡ self.old.board.arbiter }
    {
        show_empty(&mut self.board, qid, class);
        self.put_sq(
            qid,
            SqState {
                ring: Ring::new(size),
                cqid,
                ..SqState::none()
            },
        );
    }

    // Opens a completion queue. (Create I/O Completion Queue)
    fn open_cq(&mut self, cqid: u16, size: u16)
        requires some { 0 < size }
        ensures kept { (rules : FrontRules) (notes : Notes) (slots : List Slot) (k : Content) (g : Items) (x : ℕ) → Keeps rules notes self.old slots k g → IsCqOpenable rules notes k cqid size x → Keeps rules notes self.new slots (opening_cq k cqid x) g }
        ensures left { self.new ≡ record self.old { cqs = self.new.cqs } }
    {
        self.put_cq(
            cqid,
            CqState {
                ring: Ring::new(size),
                ..CqState::none()
            },
        );
    }

    // Closes a completion queue, to which no submission queue is attached. (Delete I/O Completion Queue)
    fn close_cq(&mut self, cqid: u16)
        ensures kept { (rules : FrontRules) (notes : Notes) (slots : List Slot) (k : Content) (g : Items) (x : ℕ) → Keeps rules notes self.old slots k g → k.cq_life cqid ≡ Some x → g.readies x ≡ [] → IsUnattached k cqid x → Keeps rules notes self.new slots (closing_cq k cqid x) g }
        ensures left { self.new ≡ record self.old { cqs = self.new.cqs } }
    {
        self.put_cq(cqid, CqState::none());
    }

    // Begins the deletion of a submission queue. Its candidates are dropped: their completions are ready. The Delete is
    // answered when the deletion is finished. Other deletions may be pending. (Delete I/O Submission Queue)
    fn begin_delete(&mut self, slots: &mut [Slot], tag: u16, qid: u16)
        ensures depths { depths_of self.new ≡ depths_of self.old }
        ensures size { length slots.new ≡ length slots.old }
        ensures generations { SameGenerations slots.old slots.new }
        ensures own { own_of self.new ≡ own_of self.old }
        ensures begun { IsSome (queue_at (board_of self.old.board).queues qid) → (rules : FrontRules) (notes : Notes) (k : Content) (g : Items) (region c : ℕ) (candidate : Candidate) → Keeps rules notes self.old slots.old k g → self.old.picked ≡ 0 → IsLoose slots.old g tag → (slot_at slots.old tag).entry ≡ candidate.entry → (slot_at slots.old tag).sqid ≡ 0 → answer_of notes 0 candidate.index ≡ None → IsCookie notes slots.old tag (place_at 0 candidate.index) → is_passed notes candidate.index ≡ false → IsDroppable notes k qid region c → (k.sq region).unposted + length (k.sq region).window < 2 ^ 16 → HasBegun rules notes (deleting k qid region c candidate) self.new slots.new }
    {
        let mut sq = self.sq(qid);
        sq.unposted = sq.unposted.saturating_add(sq.window.len);
        self.put_sq(qid, sq);
        self.drop_window(slots, qid);
        hide(&mut self.board, qid);
        put_state(slots, tag, DELETING);
        self.put_closing(qid, tag);
        self.pending_deletions = self.pending_deletions.saturating_add(1);
    }

    // Drops all candidates of a submission queue.
    fn drop_window(&mut self, slots: &mut [Slot], qid: u16)
        ensures dropped { (rules : FrontRules) (notes : Notes) (k : Content) (g : Items) (region c y : ℕ) → Keeps rules notes self.old slots.old k g → self.old.picked ≡ 0 → IsDroppable notes k qid region c → IsLoose slots.old g y → HasDropped rules notes (dropped k qid region c) slots.old y self.new slots.new }
        ensures size { length slots.new ≡ length slots.old }
        ensures generations { SameGenerations slots.old slots.new }
        ensures left { self.new ≡ record self.old { sqs = self.new.sqs; cqs = self.new.cqs; readied = self.new.readied } }
    {
        for _ in 0..self.sq(qid).window.len {
            self.drop_oldest(slots, qid);
        }
    }

    // Drops the oldest candidate of a submission queue.
    fn drop_oldest(&mut self, slots: &mut [Slot], qid: u16)
        ensures dropped { (rules : FrontRules) (notes : Notes) (k : Content) (g : Items) (region c : ℕ) (x : Item) (rest : List Item) → Keeps rules notes self.old slots.old k g → self.old.picked ≡ 0 → IsDroppable notes k qid region c → g.windows region ≡ x ∷ rest → Keeps rules notes self.new slots.new (oldest_dropped k qid region c x rest) (item_dropped g qid region c x rest) }
        ensures others { (rules : FrontRules) (notes : Notes) (k : Content) (g : Items) (region : ℕ) (x : Item) (rest : List Item) → Keeps rules notes self.old slots.old k g → k.sq_life qid ≡ Some region → g.windows region ≡ x ∷ rest → (y : ℕ) → y ≢ x.tag → item_at slots.new y ≡ item_at slots.old y }
        ensures size { length slots.new ≡ length slots.old }
        ensures generations { SameGenerations slots.old slots.new }
        ensures left { self.new ≡ record self.old { sqs = self.new.sqs; cqs = self.new.cqs; readied = self.new.readied } }
    {
        let Some(x) = self.pop_window(slots, qid) else {
            return;
        };
        let status = Status::ABORTED_BY_DELETION;
        self.end(slots, x, DROPPED, status, 0, self.sq(qid).cqid);
    }

    // Aborts the oldest waiting command with a command identifier in an open I/O submission queue. False, which changes
    // nothing, where there is no such command. (Abort)
    fn abort(&mut self, slots: &mut [Slot], sqid: u16, cid: u16) -> bool
        ensures depths { depths_of self.new ≡ depths_of self.old }
        ensures size { length slots.new ≡ length slots.old }
        ensures generations { SameGenerations slots.old slots.new }
        ensures own { own_of self.new ≡ own_of self.old }
        ensures none { result ≡ false → (self.new ≡ self.old) × (slots.new ≡ slots.old) }
        ensures none_named { (rules : FrontRules) (notes : Notes) (k : Content) (g : Items) → result ≡ false → Keeps rules notes self.old slots.old k g → self.old.picked ≡ 0 → IsAbortable notes k sqid cid → HasNoneNamed k sqid cid }
        ensures aborted { (rules : FrontRules) (notes : Notes) (k : Content) (g : Items) (y : ℕ) → result ≡ true → Keeps rules notes self.old slots.old k g → self.old.picked ≡ 0 → IsAbortable notes k sqid cid → IsLoose slots.old g y → HasRequested rules notes k sqid cid slots.old y self.new slots.new }
    {
        if sqid == 0 {
            return false;
        }
        let Some(queue) = self.table.sq(sqid) else {
            return false;
        };
        if queue.closing {
            return false;
        }
        let mut sq = self.sq(sqid);
        let Some(x) = sq.window.take_named(slots, cid) else {
            return false;
        };
        sq.unposted = sq.unposted.saturating_add(1);
        self.put_sq(sqid, sq);
        self.outstanding = self.outstanding.saturating_add(1);
        went(&mut self.board, sqid, sq.held == 1);
        let status = Status::ABORT_REQUESTED;
        self.end(slots, x, ENDED, status, 0, sq.cqid);
        true
    }

    // Puts new settings of arbitration in force. (Arbitration feature)
    fn set_arbitration(&mut self, settings: Settings)
        requires is_arbiter { IsTrue (is_arbiter self.old.board.arbiter) }
        ensures depths { depths_of self.new ≡ depths_of self.old }
        ensures own { own_of self.new ≡ own_of self.old }
        ensures kept { (rules : FrontRules) (notes : Notes) (slots : List Slot) (k : Content) (g : Items) → Keeps rules notes self.old slots k g → Keeps rules notes self.new slots (record k { board = board_of self.new.board }) g }
        ensures queues { (board_of self.new.board).queues ≡ (board_of self.old.board).queues }
        ensures stands { (mechanism : Mechanism) (first : ArbitrationFields) (h : History) → BoardStandsAt mechanism first h (board_of self.old.board) → BoardStandsAt mechanism first (Changed settings ∷ h) (board_of self.new.board) }
    {
        self.board.set(settings);
    }

    /// Carries out the effect of a picked admin command, which is in this slot.
    pub(crate) fn carry_out(&mut self, slots: &mut [Slot], tag: u16, effect: &Effect)
        requires arbiter { IsTrue (is_arbiter self.old.board.arbiter) }
        ensures depths { depths_of self.new ≡ depths_of self.old }
        ensures size { length slots.new ≡ length slots.old }
        ensures generations { SameGenerations slots.old slots.new }
        ensures own { own_of self.new ≡ own_of self.old }
        ensures stands { (rules : FrontRules) (late : Bool) (notes : Notes) (verdict : Verdict) → IsApplied rules late notes self.old slots.old tag effect.now verdict → HasCarriedOut rules late notes verdict self.new slots.new }
    {
        match *effect {
            Effect::Done(status, dw0) => self.end(slots, tag, ENDED, status, dw0, 0),
            Effect::OpenSq {
                qid,
                cqid,
                class,
                ..
            } => {
                let size = asked_slots(&slot_at(slots, tag).entry);
                self.open_sq(qid, size, cqid, class);
                self.end(slots, tag, ENDED, Status::SUCCESS, 0, 0);
            }
            Effect::OpenCq { qid, .. } => {
                let size = asked_slots(&slot_at(slots, tag).entry);
                self.open_cq(qid, size);
                self.end(slots, tag, ENDED, Status::SUCCESS, 0, 0);
            }
            Effect::CloseCq { qid, .. } => {
                self.close_cq(qid);
                self.end(slots, tag, ENDED, Status::SUCCESS, 0, 0);
            }
            Effect::BeginDelete { qid, .. } => self.begin_delete(slots, tag, qid),
            Effect::Abort { sqid, cid } => {
                let dw0 = if self.abort(slots, sqid, cid) { 0 } else { 1 };
                self.end(slots, tag, ENDED, Status::SUCCESS, dw0, 0);
            }
            Effect::SetArbitration(settings) => {
                self.set_arbitration(settings);
                self.end(slots, tag, ENDED, Status::SUCCESS, 0, 0);
            }
        }
    }
}
