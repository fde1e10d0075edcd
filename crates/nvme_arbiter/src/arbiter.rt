// The arbiter: it looks through the queues that it is shown.
use crate::arbiter_fields::ArbiterFields;
use crate::kept::Kept;
use crate::pick::{Pick, Seen};
use crate::settings::{Mechanism, Settings};
use std::marker::Model;

/// An arbiter of submission queues. It keeps the identifiers that it served last and the commands that it used of
/// each level, and no list of its picks.
#[derive(Clone, Copy, Debug, PartialEq, Eq)]
pub struct Arbiter {
    kept: Kept,
}

impl Model for Arbiter {
    ghost use Rattle.nvme_arbiter.specs.declared.kept.Kept.{Kept};

    ghost Value = { Kept };

    ghost view = { λ a. a.kept };

    ghost inverse = { λ v. record { kept = v } };
}

impl Arbiter {
    ghost use Rattle.std.specs.Prelude.{◌≡◌, ◌↔◌, ◌≤◌, [], ◌∷◌, List, Option, Some, IsNone, IsSomeAnd, IfSome, MatchOption, option_map};
    ghost use Rattle.nvme_arbiter.specs.Settings.{ArbitrationFields};
    ghost use Rattle.nvme_arbiter.specs.Observation.{IsObservation, IsIdle, class_in};
    ghost use Rattle.nvme_arbiter.specs.History.{History, Picked, Changed};
    ghost use Rattle.nvme_arbiter.specs.Lawful.{lawful_pick, limited_pick, cut, IsCutOf};
    ghost use Rattle.nvme_arbiter.specs.Standing.{StandsAt, pick_of, first_kept, kept_after, nothing_used};
    ghost use Rattle.nvme_arbiter.specs.declared.settings.Mechanism.{Mechanism};

    /// An arbiter that has served nothing yet. A round starts.
    pub fn new(mechanism: Mechanism, settings: Settings) -> Arbiter
        ensures stands { StandsAt mechanism settings [] result }
        ensures kept { result ≡ first_kept mechanism settings }
    {
        Arbiter {
            kept: Kept::new(mechanism, settings),
        }
    }

    /// An arbiter that keeps this.
    pub fn from_parts(kept: Kept) -> Arbiter
        ensures { result ≡ kept }
    {
        Arbiter { kept }
    }

    /// What the arbiter keeps.
    pub fn parts(&self) -> Kept
        ensures { result ≡ self.now }
    {
        let kept = self.kept;
        kept
    }

    /// What `pick` would answer.
    pub fn peek(&self, seen: &[Seen]) -> Option<Pick>
        requires { IsObservation seen.now }
        ensures by_what_is_kept { result ≡ pick_of self.now seen.now }
        ensures lawful { (mechanism : Mechanism) (first : ArbitrationFields) (past : History) → StandsAt mechanism first past self.now → result ≡ lawful_pick mechanism first past seen.now }
        ensures none_where_idle { IsNone result ↔ IsIdle seen.now }
    {
        ArbiterFields::of(self.kept).peek(&seen)
    }

    /// The lawful pick after the picks and settings so far: the next queue, and how many of its commands are taken
    /// (Base Specification, Command Arbitration). `None` exactly where no command waits; it changes
    /// nothing.
    pub fn pick(&mut self, seen: &[Seen]) -> Option<Pick>
        requires { IsObservation seen.now }
        ensures by_what_is_kept { result ≡ pick_of self.old seen.now }
        ensures lawful { (mechanism : Mechanism) (first : ArbitrationFields) (past : History) → StandsAt mechanism first past self.old → result ≡ lawful_pick mechanism first past seen.now }
        ensures none_where_idle { IsNone result ↔ IsIdle seen.now }
        ensures stands { (mechanism : Mechanism) (first : ArbitrationFields) (past : History) → StandsAt mechanism first past self.old → MatchOption result (self.new ≡ self.old) (λ pick. StandsAt mechanism first (Picked seen.now pick ∷ past) self.new) }
        ensures kept { MatchOption result (self.new ≡ self.old) (λ pick. self.new ≡ kept_after self.old.mechanism self.old (class_in seen.now pick.qid) pick) }
        ensures none_changes_nothing { IsNone result → self.new ≡ self.old }
    {
        let pick = self.peek(seen)?;
        self.keep(seen, pick);
        Some(pick)
    }

    /// The lawful pick as `pick` makes it, but of at most so many commands: the burst is the most that may be taken.
    /// (Base Specification, Command Arbitration)
    pub fn pick_up_to(&mut self, seen: &[Seen], limit: u16) -> Option<Pick>
        requires observed { IsObservation seen.now }
        requires some { 1 ≤ limit }
        ensures by_what_is_kept { result ≡ option_map (cut limit) (pick_of self.old seen.now) }
        ensures lawful { (mechanism : Mechanism) (first : ArbitrationFields) (past : History) → StandsAt mechanism first past self.old → result ≡ limited_pick limit mechanism first past seen.now }
        ensures none_where_idle { IsNone result ↔ IsIdle seen.now }
        ensures stands { (mechanism : Mechanism) (first : ArbitrationFields) (past : History) → StandsAt mechanism first past self.old → MatchOption result (self.new ≡ self.old) (λ pick. StandsAt mechanism first (Picked seen.now pick ∷ past) self.new) }
        ensures kept { MatchOption result (self.new ≡ self.old) (λ pick. self.new ≡ kept_after self.old.mechanism self.old (class_in seen.now pick.qid) pick) }
    {
        let mut fields = ArbiterFields::of(self.kept);
        let pick = fields.pick_up_to(&seen, limit)?;
        self.kept = fields.kept();
        Some(pick)
    }

    /// Keeps the pick that `peek` answers, or one of fewer of its commands, at least one. Where it is one of none, the turn
    /// goes on, and no law speaks of the run any more.
    pub fn keep(&mut self, seen: &[Seen], pick: Pick)
        requires observed { IsObservation seen.now }
        requires peeked { IsSomeAnd (pick_of self.old seen.now) (λ whole. IsCutOf whole pick) }
        ensures stands { (mechanism : Mechanism) (first : ArbitrationFields) (past : History) → StandsAt mechanism first past self.old → StandsAt mechanism first (Picked seen.now pick ∷ past) self.new }
        ensures kept { self.new ≡ kept_after self.old.mechanism self.old (class_in seen.now pick.qid) pick }
    {
        let mut fields = ArbiterFields::of(self.kept);
        fields.keep(&seen, pick);
        self.kept = fields.kept();
    }

    /// Takes new settings, which start a new round. The identifiers served last stay.
    pub fn set(&mut self, settings: Settings)
        ensures stands { (mechanism : Mechanism) (first : ArbitrationFields) (past : History) → StandsAt mechanism first past self.old → StandsAt mechanism first (Changed settings ∷ past) self.new }
        ensures kept { self.new ≡ record self.old { settings = settings; used = nothing_used } }
    {
        self.kept.set(settings);
    }
}
