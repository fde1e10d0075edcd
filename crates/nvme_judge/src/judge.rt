// Judges a history by the rules, event by event.
ghost use Rattle.std.specs.Prelude.{◌≡◌, ◌↔◌, ◌==◌, ◌<◌, ◌≤◌, IsTrue, All, find, option_map};
ghost use Rattle.nvme_arbiter.specs.Specified.{waiting, TakesCandidates, IsWithinBurst, strict_class, IsOfHighestPriority};

use crate::round::Round;
use crate::turns::Turns;
use nvme_arbiter::specified::Rule;
use nvme_arbiter::{Class, Mechanism, Pick, Seen, Settings, Used, class_in};
use std::marker::Model;

/// A judge of the rules of the specification. It keeps when each queue was picked last and since when it waits, and
/// what is used in the round, and no list of the picks.
#[derive(Drop)]
pub struct RuleJudge {
    mechanism: Mechanism,
    round: Round,
    turns: Turns,
    picks: u64,
}

impl Model for RuleJudge {
    ghost use Rattle.nvme_judge.specs.Standing.{JudgeView};

    ghost Value = { JudgeView };

    ghost view = { λ j. record { mechanism = j.mechanism; settings = j.round.settings; used = j.round.used; turns = j.turns; picks = j.picks } };
}

/// How many commands wait in a queue, where it is seen.
pub fn count_in(seen: &[Seen], qid: u16) -> Option<u16>
    ensures { result ≡ option_map (λ s. s.count) (find (λ s. s.qid == qid) seen.now) }
{
    seen.iter()
        .find(|queue| queue.qid == qid)
        .map(|queue| queue.count)
}

// How many commands wait in a queue.
fn waiting(seen: &[Seen], qid: u16) -> u16
    ensures { result ≡ waiting (find (λ s. s.qid == qid) seen.now) }
{
    count_in(seen, qid).unwrap_or(0)
}

// Whether a pick takes at least one command, and only such as wait in its queue.
fn takes_candidates(seen: &[Seen], pick: &Pick) -> bool
    ensures { IsTrue result ↔ TakesCandidates seen.now pick.now }
{
    pick.n >= 1 && pick.n <= waiting(seen, pick.qid)
}

// Whether a pick takes no more commands than the burst.
fn is_within_burst(settings: &Settings, pick: &Pick) -> bool
    ensures { IsTrue result ↔ IsWithinBurst settings.now pick.now }
{
    settings.burst().is_none_or(|burst| pick.n <= burst)
}

// The rank of a class: the levels are one strict priority class.
fn strict_class(class: Class) -> u8
    ensures { result ≡ strict_class class }
{
    match class {
        Class::Admin => 0,
        Class::Urgent => 1,
        Class::High | Class::Medium | Class::Low => 2,
    }
}

// Whether no queue of a higher class is ready.
fn none_is_higher(seen: &[Seen], class: Class) -> bool
    ensures { IsTrue result ↔ All (λ s. 0 < s.count → strict_class class ≤ strict_class s.class) seen.now }
{
    seen.iter().all(|queue| queue.count == 0 || strict_class(class) <= strict_class(queue.class))
}

// Whether no queue of a higher strict priority class is ready.
fn is_of_highest_priority(mechanism: Mechanism, seen: &[Seen], pick: &Pick) -> bool
    ensures { IsTrue result ↔ IsOfHighestPriority mechanism seen.now pick.now }
{
    match (mechanism, class_in(seen, pick.qid)) {
        (Mechanism::Weighted, Some(class)) => none_is_higher(seen, class),
        _ => true,
    }
}

impl RuleJudge {
    ghost use Rattle.std.specs.Prelude.{◌+◌, ◌-◌, ◌^◌, [], ◌∷◌, ◌++◌, MatchOption, IfSome, IfNone, IfOk, IfErr};
    ghost use Rattle.nvme_arbiter.specs.Settings.{ArbitrationFields};
    ghost use Rattle.nvme_arbiter.specs.History.{History, Picked, Changed, settings_after};
    ghost use Rattle.nvme_arbiter.specs.Observation.{IsObservation};
    ghost use Rattle.nvme_arbiter.specs.Specified.{IsWithinCredit, IsInTurn, IsSpecifiedPick};
    ghost use Rattle.nvme_arbiter.specs.declared.settings.Mechanism.{Mechanism};
    ghost use Rattle.nvme_judge.specs.Standing.{JudgeStandsAt, IsFirstBroken, IsQuiet, UsedIs, weight_left};
    ghost use Rattle.nvme_judge.specs.inside.Steps.{turn_class};

    /// A judge of what follows these settings, where this is used in the round. It follows each history that leaves
    /// no queue waiting and in whose round this is used.
    pub fn new(mechanism: Mechanism, settings: Settings, used: Used) -> RuleJudge
        ensures stands { (prior : History) → IsQuiet prior → settings_after settings prior ≡ settings → UsedIs mechanism settings prior used → JudgeStandsAt mechanism settings prior [] result }
        ensures picks { result.picks ≡ 0 }
    {
        RuleJudge {
            mechanism,
            round: Round { settings, used },
            turns: Turns::new(),
            picks: 0,
        }
    }

    /// The number of picks so far.
    pub fn picks(&self) -> u64
        ensures { result ≡ self.now.picks }
    {
        self.picks
    }

    /// The arbitration mechanism.
    pub fn mechanism(&self) -> Mechanism
        ensures { result ≡ self.now.mechanism }
    {
        self.mechanism
    }

    /// The settings in force.
    pub fn settings(&self) -> Settings
        ensures { result ≡ self.now.settings }
    {
        self.round.settings
    }

    /// Takes new settings, which start a new round.
    pub fn set(&mut self, settings: Settings)
        ensures stands { (mechanism : Mechanism) (first : ArbitrationFields) (prior past : History) → JudgeStandsAt mechanism first prior past self.old → JudgeStandsAt mechanism first prior (Changed settings ∷ past) self.new }
        ensures picks { self.new.picks ≡ self.old.picks }
    {
        self.round = Round::new(settings);
    }

    /// How many commands of the level of a pick are left in its round. `None` for a pick of no level, and under round
    /// robin.
    pub fn left(&self, seen: &[Seen], pick: &Pick) -> Option<u16>
        ensures { (mechanism : Mechanism) (first : ArbitrationFields) (prior past : History) → JudgeStandsAt mechanism first prior past self.now → result ≡ weight_left mechanism first (past ++ prior) seen.now pick.now }
    {
        match self.mechanism {
            Mechanism::RoundRobin => None,
            Mechanism::Weighted => self.round.left(seen, pick),
        }
    }

    // The class among whose picks a pick has its turn: none under round robin.
    fn turn_class(&self, class: Option<Class>) -> Option<Class>
        ensures { result ≡ turn_class self.now.mechanism class }
    {
        match self.mechanism {
            Mechanism::RoundRobin => None,
            Mechanism::Weighted => class,
        }
    }

    // Whether a pick of a queue that is seen is in its turn.
    fn is_in_turn(&self, seen: &[Seen], pick: &Pick) -> bool
        requires observed { IsObservation seen.now }
        requires there { TakesCandidates seen.now pick.now }
        ensures { (mechanism : Mechanism) (first : ArbitrationFields) (prior past : History) → JudgeStandsAt mechanism first prior past self.now → IsTrue result ↔ IsInTurn mechanism (past ++ prior) seen.now pick.now }
    {
        let class = self.turn_class(class_in(seen, pick.qid));
        !self.turns.some_has_waited(class, seen, pick.qid)
    }

    // What is used after a pick. `None` where it takes more than the credit.
    fn used_after(&self, seen: &[Seen], pick: &Pick) -> Option<Used>
        ensures { (mechanism : Mechanism) (first : ArbitrationFields) (prior past : History) → JudgeStandsAt mechanism first prior past self.now → MatchOption result (IsWithinCredit mechanism first (past ++ prior) seen.now pick.now → ⊥) (λ used. IsWithinCredit mechanism first (past ++ prior) seen.now pick.now × UsedIs mechanism first (Picked seen.now pick.now ∷ past ++ prior) used) }
    {
        match self.mechanism {
            Mechanism::RoundRobin => Some(self.round.used),
            Mechanism::Weighted => self.round.used_after(seen, pick),
        }
    }

    // The first rule that a pick breaks, or what is used after it.
    fn verdict(&self, seen: &[Seen], pick: &Pick) -> Result<Used, Rule>
        requires observed { IsObservation seen.now }
        ensures specified { (mechanism : Mechanism) (first : ArbitrationFields) (prior past : History) → JudgeStandsAt mechanism first prior past self.now → IfOk result (λ _. IsSpecifiedPick mechanism first (past ++ prior) seen.now pick.now) }
        ensures used { (mechanism : Mechanism) (first : ArbitrationFields) (prior past : History) → JudgeStandsAt mechanism first prior past self.now → IfOk result (UsedIs mechanism first (Picked seen.now pick.now ∷ past ++ prior)) }
        ensures broken { (mechanism : Mechanism) (first : ArbitrationFields) (prior past : History) → JudgeStandsAt mechanism first prior past self.now → IfErr result (IsFirstBroken mechanism first (past ++ prior) seen.now pick.now) }
    {
        if !takes_candidates(seen, pick) {
            return Err(Rule::Candidates);
        }
        if !is_within_burst(&self.round.settings, pick) {
            return Err(Rule::Burst);
        }
        if !is_of_highest_priority(self.mechanism, seen, pick) {
            return Err(Rule::Priority);
        }
        let Some(used) = self.used_after(seen, pick) else {
            return Err(Rule::Credit);
        };
        if self.is_in_turn(seen, pick) {
            Ok(used)
        } else {
            Err(Rule::Turn)
        }
    }

    // Keeps a pick, with what is used after it.
    fn keep(&mut self, seen: &[Seen], pick: &Pick, used: Used)
        requires few { self.old.picks < 2 ^ 64 - 1 }
        ensures stands { (mechanism : Mechanism) (first : ArbitrationFields) (prior past : History) → JudgeStandsAt mechanism first prior past self.old → UsedIs mechanism first (Picked seen.now pick.now ∷ past ++ prior) used → JudgeStandsAt mechanism first prior (Picked seen.now pick.now ∷ past) self.new }
        ensures picks { self.new.picks ≡ self.old.picks + 1 }
    {
        let class = self.turn_class(class_in(seen, pick.qid));
        self.picks += 1;
        self.round.used = used;
        self.turns.note(class, seen, pick.qid, self.picks);
    }

    /// Judges the next pick. `None` where it keeps each rule after the picks and settings so far; it then counts among
    /// them. Otherwise the first rule that it breaks, in the order of `Rule`, and nothing changes.
    pub fn judge(&mut self, seen: &[Seen], pick: &Pick) -> Option<Rule>
        requires observed { IsObservation seen.now }
        requires few { self.old.picks < 2 ^ 64 - 1 }
        ensures specified { (mechanism : Mechanism) (first : ArbitrationFields) (prior past : History) → JudgeStandsAt mechanism first prior past self.old → MatchOption result (IsSpecifiedPick mechanism first (past ++ prior) seen.now pick.now) (IsFirstBroken mechanism first (past ++ prior) seen.now pick.now) }
        ensures stands { (mechanism : Mechanism) (first : ArbitrationFields) (prior past : History) → JudgeStandsAt mechanism first prior past self.old → IfNone result (JudgeStandsAt mechanism first prior (Picked seen.now pick.now ∷ past) self.new) }
        ensures picks { IfNone result (self.new.picks ≡ self.old.picks + 1) }
        ensures broken { IfSome result (λ _. self.new ≡ self.old) }
    {
        match self.verdict(seen, pick) {
            Ok(used) => {
                self.keep(seen, pick, used);
                None
            }
            Err(rule) => Some(rule),
        }
    }
}
