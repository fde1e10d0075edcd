// The board as it lies in memory.
use crate::arbiter_fields::ArbiterFields;
use crate::limits::QUEUE_LIMIT;
use crate::pick::{OpenQueue, Pick, Seen};
use crate::queues::{QueuesFields, class_of};
use crate::settings::{Class, Mechanism, Settings};
use arrayvec::ArrayVec;

/// A board as it lies in memory, of numbers alone, so that it may lie where others write: the open queues, and an
/// arbiter. Any numbers are the queues of some board, so only the arbiter's have to be accepted. Contracts see its
/// content by `board_of`. What a call is and what it needs is said at `Board`.
#[repr(C)]
#[derive(Clone, Copy, Debug, Drop)]
pub struct BoardFields {
    pub queues: QueuesFields,
    pub arbiter: ArbiterFields,
}

impl BoardFields {
    ghost use Rattle.std.specs.Prelude.{◌≡◌, ◌↔◌, ◌+◌, ◌-◌, ◌<◌, ◌≤◌, [], ◌∷◌, List, Option, Some, None, IsTrue, IsSome, IsNone, IsSomeAnd, IfSome, MatchOption, replicate, slice_set, option_map};
    ghost use Rattle.nvme_arbiter.specs.Limits.{highest_qid, highest_count, queue_limit};
    ghost use Rattle.nvme_arbiter.specs.Settings.{ArbitrationFields};
    ghost use Rattle.nvme_arbiter.specs.Observation.{IsObservation, IsIdle, IsSeen, class_in};
    ghost use Rattle.nvme_arbiter.specs.History.{History, Picked, Changed};
    ghost use Rattle.nvme_arbiter.specs.Lawful.{lawful_pick, limited_pick, cut, IsCutOf};
    ghost use Rattle.nvme_arbiter.specs.Standing.{pick_of, first_kept, kept_after, nothing_used};
    ghost use Rattle.nvme_arbiter.specs.Queues.{seen_of, seen_as, queue_at, FitsUnder};
    ghost use Rattle.nvme_arbiter.specs.Board.{IsBoard, BoardStandsAt, queues_after};
    ghost use Rattle.nvme_arbiter.specs.Layout.{is_arbiter, board_of};
    ghost use Rattle.nvme_arbiter.specs.declared.settings.Mechanism.{Mechanism};
    ghost use Rattle.nvme_arbiter.specs.declared.settings.Class.TheVariants.{Admin};

    /// A board on which no queue is open and that has served nothing yet. A round starts.
    pub fn new(mechanism: Mechanism, settings: Settings) -> BoardFields
        ensures stands { BoardStandsAt mechanism settings [] (board_of result) }
        ensures closed { (board_of result).queues ≡ replicate queue_limit None }
        ensures kept { (board_of result).kept ≡ first_kept mechanism settings }
        ensures is_board { IsBoard (board_of result) }
        ensures is_arbiter { IsTrue (is_arbiter result.arbiter) }
    {
        let board = BoardFields {
            queues: QueuesFields::new(),
            arbiter: ArbiterFields::new(mechanism, settings),
        };
        board.queues.are_observed();
        board
    }

    /// Opens a queue in which no command waits. What was served last and used in the round stays.
    pub fn open(&mut self, qid: u16, class: Class)
        requires within { qid ≤ highest_qid }
        requires not_open { queue_at (board_of self.old).queues qid ≡ None }
        requires admin { (class ≡ Admin) ↔ (qid ≡ 0) }
        ensures opened { board_of self.new ≡ record (board_of self.old) { queues = slice_set (board_of self.old).queues qid (Some (record { class = class; count = 0 })) } }
        ensures there { queue_at (board_of self.new).queues qid ≡ Some (record { class = class; count = 0 }) }
        ensures stands { (mechanism : Mechanism) (first : ArbitrationFields) (past : History) → BoardStandsAt mechanism first past (board_of self.old) → BoardStandsAt mechanism first past (board_of self.new) }
        ensures is_board { IsBoard (board_of self.new) }
        ensures arbiter { self.new.arbiter ≡ self.old.arbiter }
    {
        self.queues.put(qid, OpenQueue { class, count: 0 });
    }

    /// Closes a queue and drops its count. What was served last and used in the round stays.
    pub fn close(&mut self, qid: u16)
        requires { IsSome (queue_at (board_of self.old).queues qid) }
        ensures closed { board_of self.new ≡ record (board_of self.old) { queues = slice_set (board_of self.old).queues qid None } }
        ensures stands { (mechanism : Mechanism) (first : ArbitrationFields) (past : History) → BoardStandsAt mechanism first past (board_of self.old) → BoardStandsAt mechanism first past (board_of self.new) }
        ensures is_board { IsBoard (board_of self.new) }
        ensures arbiter { self.new.arbiter ≡ self.old.arbiter }
    {
        if let Some(queue) = self.queues.queue(qid) {
            self.queues.close(qid, queue.class);
        }
    }

    /// Counts one more waiting command in an open queue.
    #[inline(always)]
    pub fn came(&mut self, qid: u16)
        requires { IsSomeAnd (queue_at (board_of self.old).queues qid) (λ queue. queue.count < highest_count) }
        ensures came { IfSome (queue_at (board_of self.old).queues qid) (λ queue. board_of self.new ≡ record (board_of self.old) { queues = slice_set (board_of self.old).queues qid (Some (record queue { count = queue.count + 1 })) }) }
        ensures stands { (mechanism : Mechanism) (first : ArbitrationFields) (past : History) → BoardStandsAt mechanism first past (board_of self.old) → BoardStandsAt mechanism first past (board_of self.new) }
        ensures is_board { IsBoard (board_of self.new) }
        ensures arbiter { self.new.arbiter ≡ self.old.arbiter }
    {
        self.came_n(qid, 1);
    }

    /// Counts `n` more waiting commands in an open queue.
    #[inline(always)]
    pub fn came_n(&mut self, qid: u16, n: u16)
        requires { IsSomeAnd (queue_at (board_of self.old).queues qid) (λ queue. queue.count + n ≤ highest_count) }
        ensures came { IfSome (queue_at (board_of self.old).queues qid) (λ queue. board_of self.new ≡ record (board_of self.old) { queues = slice_set (board_of self.old).queues qid (Some (record queue { count = queue.count + n })) }) }
        ensures stands { (mechanism : Mechanism) (first : ArbitrationFields) (past : History) → BoardStandsAt mechanism first past (board_of self.old) → BoardStandsAt mechanism first past (board_of self.new) }
        ensures is_board { IsBoard (board_of self.new) }
        ensures arbiter { self.new.arbiter ≡ self.old.arbiter }
    {
        if let Some(queue) = self.queues.queue(qid) {
            let queue = OpenQueue {
                class: queue.class,
                count: queue.count + n,
            };
            self.queues.put_count(qid, queue);
        }
    }

    /// Counts one waiting command less in an open queue: it left without being picked.
    pub fn went(&mut self, qid: u16)
        requires { IsSomeAnd (queue_at (board_of self.old).queues qid) (λ queue. 0 < queue.count) }
        ensures went { IfSome (queue_at (board_of self.old).queues qid) (λ queue. board_of self.new ≡ record (board_of self.old) { queues = slice_set (board_of self.old).queues qid (Some (record queue { count = queue.count - 1 })) }) }
        ensures stands { (mechanism : Mechanism) (first : ArbitrationFields) (past : History) → BoardStandsAt mechanism first past (board_of self.old) → BoardStandsAt mechanism first past (board_of self.new) }
        ensures is_board { IsBoard (board_of self.new) }
        ensures arbiter { self.new.arbiter ≡ self.old.arbiter }
    {
        self.queues.take(qid, 1);
    }

    /// The queue of an identifier, where it is open.
    #[inline(always)]
    pub fn queue(&self, qid: u16) -> Option<OpenQueue>
        ensures is_there { result ≡ queue_at (board_of self.now).queues qid }
        ensures fits { FitsUnder qid result }
        ensures is_board { IsBoard (board_of self.now) }
    {
        self.queues.are_observed();
        self.queues.queue(qid)
    }

    /// The open queues by ascending identifier, each with its class and the number of commands that wait.
    pub fn seen(&self) -> ArrayVec<Seen, QUEUE_LIMIT>
        ensures seen { result.items ≡ seen_of (board_of self.now).queues }
        ensures observed { IsObservation (seen_of (board_of self.now).queues) }
        ensures is_board { IsBoard (board_of self.now) }
    {
        self.queues.are_observed();
        self.queues.seen()
    }

    /// What `pick` would answer.
    #[inline(always)]
    pub fn peek(&self) -> Option<Pick>
        requires { IsTrue (is_arbiter self.now.arbiter) }
        ensures by_what_is_kept { result ≡ pick_of (board_of self.now).kept (seen_of (board_of self.now).queues) }
        ensures lawful { (mechanism : Mechanism) (first : ArbitrationFields) (past : History) → BoardStandsAt mechanism first past (board_of self.now) → result ≡ lawful_pick mechanism first past (seen_of (board_of self.now).queues) }
        ensures none_where_idle { IsNone result ↔ IsIdle (seen_of (board_of self.now).queues) }
        ensures is_board { IsBoard (board_of self.now) }
    {
        self.queues.are_observed();
        self.arbiter.peek(&self.queues)
    }

    /// Keeps the pick that `peek` answers, or one of fewer of its commands, at least one. As many commands of its queue wait
    /// no longer. Where it is one of none, the turn goes on, and no law speaks of the run any more.
    #[inline(always)]
    pub fn keep(&mut self, pick: Pick)
        requires is_arbiter { IsTrue (is_arbiter self.old.arbiter) }
        requires peeked { IsSomeAnd (pick_of (board_of self.old).kept (seen_of (board_of self.old).queues)) (λ whole. IsCutOf whole pick) }
        ensures stands { (mechanism : Mechanism) (first : ArbitrationFields) (past : History) → BoardStandsAt mechanism first past (board_of self.old) → BoardStandsAt mechanism first (Picked (seen_of (board_of self.old).queues) pick ∷ past) (board_of self.new) }
        ensures queues { (board_of self.new).queues ≡ queues_after (board_of self.old).queues pick }
        ensures kept { (board_of self.new).kept ≡ kept_after (board_of self.old).kept.mechanism (board_of self.old).kept (class_in (seen_of (board_of self.old).queues) pick.qid) pick }
        ensures is_board { IsBoard (board_of self.new) }
        ensures is_arbiter { IsTrue (is_arbiter self.new.arbiter) }
    {
        self.queues.are_observed();
        let found = self.queues.queue(pick.qid);
        self.queues.seen_class(pick.qid, found);
        self.arbiter.keep_as(&self.queues, class_of(found), pick);
        self.queues.take_from(pick.qid, found, pick.n);
    }

    /// The lawful pick for `seen()` after the picks and settings so far. As many commands of its queue wait no longer.
    /// `None` exactly where no command waits; it changes nothing.
    pub fn pick(&mut self) -> Option<Pick>
        requires { IsTrue (is_arbiter self.old.arbiter) }
        ensures by_what_is_kept { result ≡ pick_of (board_of self.old).kept (seen_of (board_of self.old).queues) }
        ensures lawful { (mechanism : Mechanism) (first : ArbitrationFields) (past : History) → BoardStandsAt mechanism first past (board_of self.old) → result ≡ lawful_pick mechanism first past (seen_of (board_of self.old).queues) }
        ensures none_where_idle { IsNone result ↔ IsIdle (seen_of (board_of self.old).queues) }
        ensures stands { (mechanism : Mechanism) (first : ArbitrationFields) (past : History) → BoardStandsAt mechanism first past (board_of self.old) → MatchOption result (self.new ≡ self.old) (λ pick. BoardStandsAt mechanism first (Picked (seen_of (board_of self.old).queues) pick ∷ past) (board_of self.new)) }
        ensures queues { MatchOption result (self.new ≡ self.old) (λ pick. (board_of self.new).queues ≡ queues_after (board_of self.old).queues pick) }
        ensures kept { MatchOption result (self.new ≡ self.old) (λ pick. (board_of self.new).kept ≡ kept_after (board_of self.old).kept.mechanism (board_of self.old).kept (class_in (seen_of (board_of self.old).queues) pick.qid) pick) }
        ensures is_board { IsBoard (board_of self.new) }
        ensures is_arbiter { IsTrue (is_arbiter self.new.arbiter) }
    {
        let pick = self.peek()?;
        self.keep(pick);
        Some(pick)
    }

    /// The lawful pick for `seen()`, of at most so many commands. `None` exactly where no command waits; it changes nothing.
    pub fn pick_up_to(&mut self, limit: u16) -> Option<Pick>
        requires is_arbiter { IsTrue (is_arbiter self.old.arbiter) }
        requires some { 1 ≤ limit }
        ensures by_what_is_kept { result ≡ option_map (cut limit) (pick_of (board_of self.old).kept (seen_of (board_of self.old).queues)) }
        ensures lawful { (mechanism : Mechanism) (first : ArbitrationFields) (past : History) → BoardStandsAt mechanism first past (board_of self.old) → result ≡ limited_pick limit mechanism first past (seen_of (board_of self.old).queues) }
        ensures none_where_idle { IsNone result ↔ IsIdle (seen_of (board_of self.old).queues) }
        ensures stands { (mechanism : Mechanism) (first : ArbitrationFields) (past : History) → BoardStandsAt mechanism first past (board_of self.old) → MatchOption result (self.new ≡ self.old) (λ pick. BoardStandsAt mechanism first (Picked (seen_of (board_of self.old).queues) pick ∷ past) (board_of self.new)) }
        ensures queues { MatchOption result (self.new ≡ self.old) (λ pick. (board_of self.new).queues ≡ queues_after (board_of self.old).queues pick) }
        ensures kept { MatchOption result (self.new ≡ self.old) (λ pick. (board_of self.new).kept ≡ kept_after (board_of self.old).kept.mechanism (board_of self.old).kept (class_in (seen_of (board_of self.old).queues) pick.qid) pick) }
        ensures is_board { IsBoard (board_of self.new) }
        ensures is_arbiter { IsTrue (is_arbiter self.new.arbiter) }
    {
        let pick = self.peek()?.up_to(limit);
        self.keep(pick);
        Some(pick)
    }

    /// Takes new settings, which start a new round. The identifiers served last and the queues stay.
    pub fn set(&mut self, settings: Settings)
        requires { IsTrue (is_arbiter self.old.arbiter) }
        ensures stands { (mechanism : Mechanism) (first : ArbitrationFields) (past : History) → BoardStandsAt mechanism first past (board_of self.old) → BoardStandsAt mechanism first (Changed settings ∷ past) (board_of self.new) }
        ensures queues { self.new.queues ≡ self.old.queues }
        ensures kept { (board_of self.new).kept ≡ record (board_of self.old).kept { settings = settings; used = nothing_used } }
        ensures is_board { IsBoard (board_of self.new) }
        ensures is_arbiter { IsTrue (is_arbiter self.new.arbiter) }
    {
        self.queues.are_observed();
        self.arbiter.set(settings);
    }
}
