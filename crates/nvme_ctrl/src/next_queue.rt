// The next queue that has work. (profile)
//
// Decided: the queue of the last turn is an argument, and the controller keeps no turn, since a look-up changes
// nothing. It looks at the queues of a mask alone: each whose ring has an entry, or that has a ready completion, is in
// it. One that is at its depth, or whose ring is full, stays in it.
ghost use Rattle.std.specs.Prelude.{◌≡◌, ◌≤◌, ℕ, MatchOption};
ghost use Rattle.nvme_ctrl.specs.NextQueue.{turns_before};
ghost use Rattle.nvme_ctrl.specs.inside.Turns.{HasNoTurn, IsNextTurn};

use crate::queue_set::first_above;
use crate::state::Controller;
use nvme_arbiter::HIGHEST_QID;
use nvme_slots::slot::Slot;

// The queue whose turn comes after so many others, after the last one's.
fn at_turn(last: u16, turn: u16) -> u16
    requires last { last ≤ 64 }
    requires turn { turn ≤ 64 }
    ensures few { result ≤ 64 }
    ensures turn { turns_before last result ≡ turn }
    ensures alone { (p : ℕ) → p ≤ 64 → turns_before last p ≡ turn → p ≡ result }
{
    let next = last + 1 + turn;
    if next > HIGHEST_QID {
        next - HIGHEST_QID - 1
    } else {
        next
    }
}

// The first turn, from one on, of a queue that is in a set. Queues take turns after the last one's.
fn next_turn(set: u64, last: u16, turn: u16) -> Option<u16>
    requires last { last ≤ 64 }
    requires turn { turn ≤ 65 }
    ensures { MatchOption result (HasNoTurn set last turn) (IsNextTurn set last turn) }
{
    // That of the admin queue, behind those of all queues above the last one.
    let admin = HIGHEST_QID - last;
    if turn <= admin {
        return match first_above(set, last + turn) {
            Some(qid) => Some(qid - last - 1),
            None => Some(admin),
        };
    }
    match first_above(set, turn - admin - 1) {
        Some(qid) if qid <= last => Some(admin + qid),
        _ => None,
    }
}

impl Controller {
    ghost use Rattle.std.specs.Prelude.{◌≡◌, ℕ, Bool, List, length, min, None, IfSome};
    ghost use Rattle.nvme_log.specs.Rules.{FrontRules};
    ghost use Rattle.nvme_ctrl_log.specs.Notes.{Notes};
    ghost use Rattle.nvme_ctrl.specs.Standing.{Stands};
    ghost use Rattle.nvme_ctrl.specs.Calls.{depth_of};
    ghost use Rattle.nvme_ctrl_log.specs.Calls.{MayFetch};
    ghost use Rattle.nvme_ctrl.specs.Posts.{next_post_of};
    ghost use Rattle.nvme_ctrl.specs.NextQueue.{IsNextWith, HasFetch, HasPost};
    ghost use Rattle.nvme_slots.specs.declared.slot.Slot.{Slot};

    /// The next submission queue of which an entry may be fetched, and the slot of its ring, as `fetch` tells it. Queues
    /// take turns by ascending identifier, beginning behind `last`; 0 comes behind 64, and any `last` above is as 64. None
    /// where no entry of any queue may be fetched. Where `last` is the queue that was told before, each queue with work
    /// comes within 65 calls (`queues_take_turns`).
    pub fn next_fetch(&self, last: u16) -> Option<(u16, u16)>
        ensures next { (rules : FrontRules) (late : Bool) (notes : Notes) (slots : List Slot) → Stands rules late notes self.now slots → IfSome result (λ next. IsNextWith (HasFetch rules notes self.now slots) (min last 64) next.0) }
        ensures slot { (rules : FrontRules) (late : Bool) (notes : Notes) (slots : List Slot) → Stands rules late notes self.now slots → IfSome result (λ next. MayFetch rules notes (depth_of self.now next.0) (length slots) next.0 next.1) }
        ensures none { (rules : FrontRules) (late : Bool) (notes : Notes) (slots : List Slot) → Stands rules late notes self.now slots → result ≡ None → (q : ℕ) → HasFetch rules notes self.now slots q → ⊥ }
    {
        let last = last.min(HIGHEST_QID);
        let mut turn = 0;
        while let Some(next) = next_turn(self.rung, last, turn) {
            let qid = at_turn(last, next);
            if let Some(slot) = self.fetch(qid) {
                return Some((qid, slot));
            }
            turn = next + 1;
        }
        None
    }

    /// The next completion queue to which a completion may be posted, as `post` posts it. Queues take turns as those of
    /// `next_fetch`. None where none may be posted.
    pub fn next_to_post(&self, slots: &[Slot], last: u16) -> Option<u16>
        ensures next { IfSome result (λ q. IsNextWith (HasPost self.now slots.now) (min last 64) q) }
        ensures none { result ≡ None → (q : ℕ) → next_post_of self.now slots.now q ≡ None }
    {
        let last = last.min(HIGHEST_QID);
        let mut turn = 0;
        while let Some(next) = next_turn(self.readied, last, turn) {
            let cqid = at_turn(last, next);
            if self.next_post(slots, cqid).is_some() {
                return Some(cqid);
            }
            turn = next + 1;
        }
        None
    }
}
