// Judges a history, event by event.
ghost use Rattle.std.specs.Prelude.{◌≡◌};

use crate::records::TraceEvent;
use crate::taken::{as_written, pick_within};
use nvme_arbiter::{Arbiter, Class, Kept, Pick, Seen, class_in};
use nvme_judge::count_in;
use std::marker::Model;

/// A pick that isn't the lawful one.
#[derive(Clone, Copy, Debug, PartialEq, Eq)]
pub struct Finding {
    /// The pick that was made.
    pub picked: Pick,
    /// The lawful pick. `None` where nothing is ready.
    pub lawful: Option<Pick>,
    /// The class in which the queue of the lawful pick was seen.
    pub class: Option<Class>,
    /// How many commands wait in that queue.
    pub waiting: Option<u16>,
    /// For how many commands the device had room, where the line tells that.
    pub room: Option<u16>,
    /// What the arbiter kept before the pick: what was served last, and what was used in the round.
    pub kept: Kept,
}

/// An arbiter that makes each pick again, and counts the lawful ones.
#[derive(Drop)]
pub struct Judge {
    arbiter: Arbiter,
    picks: u64,
}

impl Model for Judge {
    ghost use Rattle.nvme_trace.specs.Judged.{JudgeView};

    ghost Value = { JudgeView };

    ghost view = { λ j. record { kept = j.arbiter; picks = j.picks } };
}

impl Judge {
    ghost use Rattle.std.specs.Prelude.{◌+◌, ◌-◌, ◌^◌, ◌<◌, ℕ, ◌∷◌, Option, MatchOption, IfSome, IfNone};
    ghost use Rattle.nvme_arbiter.specs.Settings.{ArbitrationFields};
    ghost use Rattle.nvme_arbiter.specs.History.{History, Picked};
    ghost use Rattle.nvme_arbiter.specs.Observation.{IsObservation};
    ghost use Rattle.nvme_arbiter.specs.Standing.{StandsAt};
    ghost use Rattle.nvme_arbiter.specs.declared.settings.Mechanism.{Mechanism};
    ghost use Rattle.nvme_trace.specs.Format.{event_view, room_view};
    ghost use Rattle.nvme_trace.specs.Judged.{IsObserved, IsTakenEvent, IsFinding, picks_of};
    ghost use Rattle.nvme_trace.specs.Taken.{IsTakenPick};

    /// A judge of the events that follow where an arbiter keeps this.
    pub fn new(start: Kept) -> Judge
        ensures kept { result.kept ≡ start }
        ensures picks { result.picks ≡ 0 }
    {
        Judge {
            arbiter: Arbiter::from_parts(start),
            picks: 0,
        }
    }

    /// The number of lawful picks so far.
    pub fn picks(&self) -> u64
        ensures { result ≡ self.now.picks }
    {
        self.picks
    }

    /// Judges the next event. `None` where it is lawful after the events so far, a pick in the room that it tells; it then
    /// counts among them. While nothing is used in the round, a lawful pick may be told to be fresh or not. A pick that isn't lawful changes nothing.
    pub fn judge(&mut self, event: &TraceEvent) -> Option<Finding>
        requires observed { IsObserved (event_view event.now) }
        requires few { self.old.picks < 2 ^ 64 - 1 }
        ensures lawful { (mechanism : Mechanism) (first : ArbitrationFields) (past : History) → StandsAt mechanism first past self.old.kept → MatchOption result (IsTakenEvent mechanism first past (room_view event.now) (event_view event.now)) (IsFinding mechanism first past (room_view event.now) (event_view event.now)) }
        ensures stands { (mechanism : Mechanism) (first : ArbitrationFields) (past : History) → StandsAt mechanism first past self.old.kept → IfNone result (StandsAt mechanism first (event_view event.now ∷ past) self.new.kept) }
        ensures picks { IfNone result (self.new.picks ≡ self.old.picks + picks_of (event_view event.now)) }
        ensures unlawful { IfSome result (λ _. self.new ≡ self.old) }
    {
        match event {
            TraceEvent::Pick { seen, pick, room } => self.judge_pick(seen, *pick, *room),
            TraceEvent::Set { settings } => {
                self.arbiter.set(*settings);
                None
            }
        }
    }

    // Judges a pick in the room that is told.
    fn judge_pick(&mut self, seen: &[Seen], picked: Pick, room: Option<u16>) -> Option<Finding>
        requires observed { IsObservation seen.now }
        requires few { self.old.picks < 2 ^ 64 - 1 }
        ensures lawful { (mechanism : Mechanism) (first : ArbitrationFields) (past : History) → StandsAt mechanism first past self.old.kept → MatchOption result (IsTakenPick mechanism first past room seen.now picked) (IsFinding mechanism first past room (Picked seen.now picked)) }
        ensures stands { (mechanism : Mechanism) (first : ArbitrationFields) (past : History) → StandsAt mechanism first past self.old.kept → IfNone result (StandsAt mechanism first (Picked seen.now picked ∷ past) self.new.kept) }
        ensures picks { IfNone result (self.new.picks ≡ self.old.picks + 1) }
        ensures unlawful { IfSome result (λ _. self.new ≡ self.old) }
    {
        let kept = self.arbiter.parts();
        let mut next = self.arbiter;
        let lawful = pick_within(&mut next, room, seen);
        if lawful == Some(as_written(&kept, picked)) {
            self.arbiter = next;
            self.picks += 1;
            return None;
        }
        Some(Finding {
            picked,
            lawful,
            class: lawful.and_then(|pick| class_in(seen, pick.qid)),
            waiting: lawful.and_then(|pick| count_in(seen, pick.qid)),
            room,
            kept,
        })
    }
}
