// The board: an arbiter that keeps the counts of its queues itself.
use crate::board_fields::BoardFields;
use crate::limits::QUEUE_LIMIT;
use crate::pick::{OpenQueue, Pick, Seen};
use crate::settings::{Class, Mechanism, Settings};
use arrayvec::ArrayVec;
use std::marker::Model;

/// An arbiter with the open queues and the number of commands that wait in each. It finds the next queue in masks,
/// so the cost of a pick doesn't grow with the number of queues. It picks what an `Arbiter` picks of `seen()`.
#[derive(Debug, Drop)]
pub struct Board {
    fields: BoardFields,
}

impl Model for Board {
    ghost use Rattle.std.specs.Prelude.{IsTrue};
    ghost use Rattle.nvme_arbiter.specs.Board.{BoardView};
    ghost use Rattle.nvme_arbiter.specs.Layout.{board_of, is_arbiter};

    ghost Value = { BoardView };

    ghost view = { λ b. board_of b.fields };

    ghost invariant = { λ b. IsTrue (is_arbiter b.fields.arbiter) };
}

impl Board {
    ghost use Rattle.std.specs.Prelude.{◌≡◌, ◌↔◌, ◌+◌, ◌-◌, ◌<◌, ◌≤◌, [], ◌∷◌, List, Option, Some, None, IsSome, IsNone, IsSomeAnd, IfSome, MatchOption, option_map, replicate, slice_set};
    ghost use Rattle.nvme_arbiter.specs.Limits.{highest_qid, highest_count, queue_limit};
    ghost use Rattle.nvme_arbiter.specs.Settings.{ArbitrationFields};
    ghost use Rattle.nvme_arbiter.specs.Observation.{IsObservation, IsIdle, class_in};
    ghost use Rattle.nvme_arbiter.specs.History.{History, Picked, Changed};
    ghost use Rattle.nvme_arbiter.specs.Lawful.{lawful_pick, limited_pick, cut, IsCutOf};
    ghost use Rattle.nvme_arbiter.specs.Standing.{pick_of, first_kept, kept_after, nothing_used};
    ghost use Rattle.nvme_arbiter.specs.Queues.{seen_of, queue_at, FitsUnder};
    ghost use Rattle.nvme_arbiter.specs.Board.{IsBoard, BoardStandsAt, queues_after};
    ghost use Rattle.nvme_arbiter.specs.declared.settings.Mechanism.{Mechanism};
    ghost use Rattle.nvme_arbiter.specs.declared.settings.Class.TheVariants.{Admin};

    /// A board on which no queue is open and that has served nothing yet. A round starts.
    pub fn new(mechanism: Mechanism, settings: Settings) -> Board
        ensures stands { BoardStandsAt mechanism settings [] result }
        ensures closed { result.queues ≡ replicate queue_limit None }
        ensures kept { result.kept ≡ first_kept mechanism settings }
        ensures is_board { IsBoard result }
    {
        Board {
            fields: BoardFields::new(mechanism, settings),
        }
    }

    /// Opens a queue in which no command waits. What was served last and used in the round stays.
    pub fn open(&mut self, qid: u16, class: Class)
        requires within { qid ≤ highest_qid }
        requires not_open { queue_at self.old.queues qid ≡ None }
        requires admin { (class ≡ Admin) ↔ (qid ≡ 0) }
        ensures opened { self.new ≡ record self.old { queues = slice_set self.old.queues qid (Some (record { class = class; count = 0 })) } }
        ensures there { queue_at self.new.queues qid ≡ Some (record { class = class; count = 0 }) }
        ensures stands { (mechanism : Mechanism) (first : ArbitrationFields) (past : History) → BoardStandsAt mechanism first past self.old → BoardStandsAt mechanism first past self.new }
        ensures is_board { IsBoard self.new }
    {
        self.fields.open(qid, class);
    }

    /// Closes a queue and drops its count. What was served last and used in the round stays.
    pub fn close(&mut self, qid: u16)
        requires { IsSome (queue_at self.old.queues qid) }
        ensures closed { self.new ≡ record self.old { queues = slice_set self.old.queues qid None } }
        ensures stands { (mechanism : Mechanism) (first : ArbitrationFields) (past : History) → BoardStandsAt mechanism first past self.old → BoardStandsAt mechanism first past self.new }
        ensures is_board { IsBoard self.new }
    {
        self.fields.close(qid);
    }

    /// Counts one more waiting command in an open queue.
    pub fn came(&mut self, qid: u16)
        requires { IsSomeAnd (queue_at self.old.queues qid) (λ queue. queue.count < highest_count) }
        ensures came { IfSome (queue_at self.old.queues qid) (λ queue. self.new ≡ record self.old { queues = slice_set self.old.queues qid (Some (record queue { count = queue.count + 1 })) }) }
        ensures stands { (mechanism : Mechanism) (first : ArbitrationFields) (past : History) → BoardStandsAt mechanism first past self.old → BoardStandsAt mechanism first past self.new }
        ensures is_board { IsBoard self.new }
    {
        self.fields.came(qid);
    }

    /// Counts `n` more waiting commands in an open queue.
    pub fn came_n(&mut self, qid: u16, n: u16)
        requires { IsSomeAnd (queue_at self.old.queues qid) (λ queue. queue.count + n ≤ highest_count) }
        ensures came { IfSome (queue_at self.old.queues qid) (λ queue. self.new ≡ record self.old { queues = slice_set self.old.queues qid (Some (record queue { count = queue.count + n })) }) }
        ensures stands { (mechanism : Mechanism) (first : ArbitrationFields) (past : History) → BoardStandsAt mechanism first past self.old → BoardStandsAt mechanism first past self.new }
        ensures is_board { IsBoard self.new }
    {
        self.fields.came_n(qid, n);
    }

    /// Counts one waiting command less in an open queue: it left without being picked.
    pub fn went(&mut self, qid: u16)
        requires { IsSomeAnd (queue_at self.old.queues qid) (λ queue. 0 < queue.count) }
        ensures went { IfSome (queue_at self.old.queues qid) (λ queue. self.new ≡ record self.old { queues = slice_set self.old.queues qid (Some (record queue { count = queue.count - 1 })) }) }
        ensures stands { (mechanism : Mechanism) (first : ArbitrationFields) (past : History) → BoardStandsAt mechanism first past self.old → BoardStandsAt mechanism first past self.new }
        ensures is_board { IsBoard self.new }
    {
        self.fields.went(qid);
    }

    /// The queue of an identifier, where it is open.
    pub fn queue(&self, qid: u16) -> Option<OpenQueue>
        ensures is_there { result ≡ queue_at self.now.queues qid }
        ensures fits { FitsUnder qid result }
        ensures is_board { IsBoard self.now }
    {
        self.fields.queue(qid)
    }

    /// The open queues by ascending identifier, each with its class and the number of commands that wait.
    pub fn seen(&self) -> ArrayVec<Seen, QUEUE_LIMIT>
        ensures seen { result.items ≡ seen_of self.now.queues }
        ensures observed { IsObservation (seen_of self.now.queues) }
        ensures is_board { IsBoard self.now }
    {
        self.fields.seen()
    }

    /// What `pick` would answer.
    pub fn peek(&self) -> Option<Pick>
        ensures by_what_is_kept { result ≡ pick_of self.now.kept (seen_of self.now.queues) }
        ensures lawful { (mechanism : Mechanism) (first : ArbitrationFields) (past : History) → BoardStandsAt mechanism first past self.now → result ≡ lawful_pick mechanism first past (seen_of self.now.queues) }
        ensures none_where_idle { IsNone result ↔ IsIdle (seen_of self.now.queues) }
        ensures is_board { IsBoard self.now }
    {
        self.fields.peek()
    }

    /// The lawful pick for `seen()` after the picks and settings so far (Base Specification, Command
    /// Arbitration). As many commands of its queue wait no longer. `None` exactly where no command waits; it changes
    /// nothing.
    pub fn pick(&mut self) -> Option<Pick>
        ensures by_what_is_kept { result ≡ pick_of self.old.kept (seen_of self.old.queues) }
        ensures lawful { (mechanism : Mechanism) (first : ArbitrationFields) (past : History) → BoardStandsAt mechanism first past self.old → result ≡ lawful_pick mechanism first past (seen_of self.old.queues) }
        ensures none_where_idle { IsNone result ↔ IsIdle (seen_of self.old.queues) }
        ensures stands { (mechanism : Mechanism) (first : ArbitrationFields) (past : History) → BoardStandsAt mechanism first past self.old → MatchOption result (self.new ≡ self.old) (λ pick. BoardStandsAt mechanism first (Picked (seen_of self.old.queues) pick ∷ past) self.new) }
        ensures queues { MatchOption result (self.new ≡ self.old) (λ pick. self.new.queues ≡ queues_after self.old.queues pick) }
        ensures kept { MatchOption result (self.new.kept ≡ self.old.kept) (λ pick. self.new.kept ≡ kept_after self.old.kept.mechanism self.old.kept (class_in (seen_of self.old.queues) pick.qid) pick) }
        ensures is_board { IsBoard self.new }
    {
        let pick = self.peek()?;
        self.keep(pick);
        Some(pick)
    }

    /// The lawful pick as `pick` makes it, but of at most so many commands: the burst is the most that may be taken.
    /// (Base Specification, Command Arbitration)
    pub fn pick_up_to(&mut self, limit: u16) -> Option<Pick>
        requires some { 1 ≤ limit }
        ensures by_what_is_kept { result ≡ option_map (cut limit) (pick_of self.old.kept (seen_of self.old.queues)) }
        ensures lawful { (mechanism : Mechanism) (first : ArbitrationFields) (past : History) → BoardStandsAt mechanism first past self.old → result ≡ limited_pick limit mechanism first past (seen_of self.old.queues) }
        ensures none_where_idle { IsNone result ↔ IsIdle (seen_of self.old.queues) }
        ensures stands { (mechanism : Mechanism) (first : ArbitrationFields) (past : History) → BoardStandsAt mechanism first past self.old → MatchOption result (self.new ≡ self.old) (λ pick. BoardStandsAt mechanism first (Picked (seen_of self.old.queues) pick ∷ past) self.new) }
        ensures queues { MatchOption result (self.new ≡ self.old) (λ pick. self.new.queues ≡ queues_after self.old.queues pick) }
        ensures kept { MatchOption result (self.new.kept ≡ self.old.kept) (λ pick. self.new.kept ≡ kept_after self.old.kept.mechanism self.old.kept (class_in (seen_of self.old.queues) pick.qid) pick) }
        ensures is_board { IsBoard self.new }
    {
        let pick = self.peek()?.up_to(limit);
        self.keep(pick);
        Some(pick)
    }

    /// Keeps the pick that `peek` answers, or one of fewer of its commands, at least one. As many commands of its queue wait
    /// no longer. Where it is one of none, the turn goes on, and no law speaks of the run any more.
    pub fn keep(&mut self, pick: Pick)
        requires { IsSomeAnd (pick_of self.old.kept (seen_of self.old.queues)) (λ whole. IsCutOf whole pick) }
        ensures stands { (mechanism : Mechanism) (first : ArbitrationFields) (past : History) → BoardStandsAt mechanism first past self.old → BoardStandsAt mechanism first (Picked (seen_of self.old.queues) pick ∷ past) self.new }
        ensures queues { self.new.queues ≡ queues_after self.old.queues pick }
        ensures kept { self.new.kept ≡ kept_after self.old.kept.mechanism self.old.kept (class_in (seen_of self.old.queues) pick.qid) pick }
        ensures is_board { IsBoard self.new }
    {
        self.fields.keep(pick);
    }

    /// Takes new settings, which start a new round. The identifiers served last and the queues stay.
    pub fn set(&mut self, settings: Settings)
        ensures stands { (mechanism : Mechanism) (first : ArbitrationFields) (past : History) → BoardStandsAt mechanism first past self.old → BoardStandsAt mechanism first (Changed settings ∷ past) self.new }
        ensures queues { self.new.queues ≡ self.old.queues }
        ensures kept { self.new.kept ≡ record self.old.kept { settings = settings; used = nothing_used } }
        ensures is_board { IsBoard self.new }
    {
        self.fields.set(settings);
    }
}
