// What an arbiter keeps, as it lies in memory. A state is accepted where its mechanism is one of the two and each
// identifier is in range. An arbiter can keep every such state, so nothing else has to hold of it.
ghost use Rattle.std.specs.Prelude.{◌≡◌, IsTrue};
ghost use Rattle.nvme_arbiter.specs.Standing.{last_with, used_of, used_with, nothing_used, StaysWithin};
ghost use Rattle.nvme_arbiter.specs.Layout.{last_of_place, is_place, are_places, mechanism_of, is_mechanism, last_in, used_in};

use crate::by_class::ByClass;
use crate::kept::{Kept, Last, Used};
use crate::pick::Pick;
use crate::ready::ReadyQueues;
use crate::settings::{Class, Mechanism, Settings};

/// The identifiers that were served last, each plus 1, and 0 for none: of all queues, and of each class.
#[repr(C)]
#[derive(Clone, Copy, Debug, Drop)]
pub struct LastFields {
    pub all: u32,
    pub admin: u32,
    pub urgent: u32,
    pub high: u32,
    pub medium: u32,
    pub low: u32,
}

/// How many commands of each level were picked in this round.
#[repr(C)]
#[derive(Clone, Copy, Debug, Drop)]
pub struct UsedFields {
    pub high: u16,
    pub medium: u16,
    pub low: u16,
}

/// An arbiter as it lies in memory, of numbers alone: the mechanism (1 round robin, 2 weighted), the CDW11 of its
/// settings, and what was served. Contracts see what it keeps by `kept_of`.
#[repr(C)]
#[derive(Clone, Copy, Debug, Drop)]
pub struct ArbiterFields {
    pub mechanism: u32,
    pub cdw11: u32,
    pub last: LastFields,
    pub used: UsedFields,
}

// Whether this number is that of an identifier, or 0 for none.
#[inline(always)]
fn is_place(place: u32) -> bool
    ensures { result ≡ is_place place }
{
    place <= 0x1_0000
}

/// The identifier with this number, 0 for none.
#[inline(always)]
pub fn last_of_place(place: u32) -> Option<u16>
    requires { IsTrue (is_place place) }
    ensures { result ≡ last_of_place place }
{
    if place == 0 {
        None
    } else {
        Some((place - 1) as u16)
    }
}

// The number of an identifier, 0 for none.
#[inline(always)]
fn place_of_last(last: Option<u16>) -> u32
    ensures back { last_of_place result ≡ last }
    ensures is_place { IsTrue (is_place result) }
{
    match last {
        None => 0,
        Some(qid) => u32::from(qid) + 1,
    }
}

/// The mechanism of a number: 1 is round robin, any other is weighted.
#[inline(always)]
pub fn mechanism_of(number: u32) -> Mechanism
    ensures { result ≡ mechanism_of number }
{
    if number == 1 {
        Mechanism::RoundRobin
    } else {
        Mechanism::Weighted
    }
}

// The number of a mechanism.
fn number_of(mechanism: Mechanism) -> u32
    ensures back { mechanism_of result ≡ mechanism }
    ensures is_mechanism { IsTrue (is_mechanism result) }
{
    match mechanism {
        Mechanism::RoundRobin => 1,
        Mechanism::Weighted => 2,
    }
}

impl LastFields {
    // The fields of what was served last.
    fn of(last: Last) -> LastFields
        ensures back { last_in result ≡ last }
        ensures places { IsTrue (are_places result) }
    {
        LastFields {
            all: place_of_last(last.all),
            admin: place_of_last(last.by_class.admin),
            urgent: place_of_last(last.by_class.urgent),
            high: place_of_last(last.by_class.high),
            medium: place_of_last(last.by_class.medium),
            low: place_of_last(last.by_class.low),
        }
    }

    // Whether each is that of an identifier, or 0 for none.
    #[inline(always)]
    fn are_places(&self) -> bool
        ensures { result ≡ are_places self.now }
    {
        is_place(self.all)
            && is_place(self.admin)
            && is_place(self.urgent)
            && is_place(self.high)
            && is_place(self.medium)
            && is_place(self.low)
    }

    // Keeps that a queue of a class was served.
    #[inline(always)]
    fn serve(&mut self, class: Option<Class>, qid: u16)
        requires { IsTrue (are_places self.old) }
        ensures last { last_in self.new ≡ last_with (last_in self.old) class qid }
        ensures places { IsTrue (are_places self.new) }
    {
        let place = place_of_last(Some(qid));
        match class {
            Some(Class::Admin) => self.admin = place,
            Some(Class::Urgent) => self.urgent = place,
            Some(Class::High) => self.high = place,
            Some(Class::Medium) => self.medium = place,
            Some(Class::Low) => self.low = place,
            None => {}
        }
    }

    // What was served last.
    fn last(&self) -> Last
        requires { IsTrue (are_places self.now) }
        ensures { result ≡ last_in self.now }
    {
        Last {
            all: last_of_place(self.all),
            by_class: ByClass {
                admin: last_of_place(self.admin),
                urgent: last_of_place(self.urgent),
                high: last_of_place(self.high),
                medium: last_of_place(self.medium),
                low: last_of_place(self.low),
            },
        }
    }
}

impl UsedFields {
    // The fields of what was picked in this round.
    fn of(used: Used) -> UsedFields
        ensures { used_in result ≡ used }
    {
        UsedFields {
            high: used.high,
            medium: used.medium,
            low: used.low,
        }
    }

    // Nothing is used in a new round.
    #[inline(always)]
    const fn none() -> UsedFields
        ensures { used_in result ≡ nothing_used }
    {
        UsedFields {
            high: 0,
            medium: 0,
            low: 0,
        }
    }

    // Keeps that commands of a class were taken. Only levels have credits, and they stay within their weights.
    #[inline(always)]
    fn take(&mut self, settings: &Settings, class: Option<Class>, n: u16)
        requires { StaysWithin settings.now (used_in self.old) class n }
        ensures { used_in self.new ≡ used_with (used_in self.old) class n }
    {
        match class {
            Some(Class::High) => {
                self.high = self
                    .high
                    .saturating_add(n)
                    .min(settings.weight(Class::High));
            }
            Some(Class::Medium) => {
                self.medium = self
                    .medium
                    .saturating_add(n)
                    .min(settings.weight(Class::Medium));
            }
            Some(Class::Low) => {
                self.low = self.low.saturating_add(n).min(settings.weight(Class::Low));
            }
            Some(Class::Admin | Class::Urgent) | None => {}
        }
    }

    /// How many commands of a level were picked in this round.
    #[inline(always)]
    pub fn of_level(&self, level: Class) -> u16
        ensures { result ≡ used_of (used_in self.now) level }
    {
        match level {
            Class::High => self.high,
            Class::Medium => self.medium,
            Class::Low => self.low,
            Class::Admin | Class::Urgent => 0,
        }
    }

    // What was picked in this round.
    fn used(&self) -> Used
        ensures { result ≡ used_in self.now }
    {
        Used {
            high: self.high,
            medium: self.medium,
            low: self.low,
        }
    }
}

impl ArbiterFields {
    ghost use Rattle.std.specs.Prelude.{◌≡◌, ◌↔◌, ◌≤◌, [], ◌∷◌, Some, IsTrue, IsNone, IsSomeAnd, MatchOption, option_map};
    ghost use Rattle.nvme_arbiter.specs.Settings.{ArbitrationFields};
    ghost use Rattle.nvme_arbiter.specs.Observation.{IsObservation, IsIdle, class_in};
    ghost use Rattle.nvme_arbiter.specs.History.{History, Picked, Changed};
    ghost use Rattle.nvme_arbiter.specs.Lawful.{lawful_pick, limited_pick, cut, IsCutOf};
    ghost use Rattle.nvme_arbiter.specs.Standing.{StandsAt, pick_of, first_kept, kept_after, nothing_used, IsWithinWeight};
    ghost use Rattle.nvme_arbiter.specs.Layout.{is_arbiter, kept_of};
    ghost use Rattle.nvme_arbiter.specs.declared.settings.Mechanism.{Mechanism};

    /// An arbiter that has served nothing yet. A round starts.
    pub fn new(mechanism: Mechanism, settings: Settings) -> ArbiterFields
        ensures stands { StandsAt mechanism settings [] (kept_of result) }
        ensures kept { kept_of result ≡ first_kept mechanism settings }
        ensures is_arbiter { IsTrue (is_arbiter result) }
    {
        ArbiterFields::of(Kept::new(mechanism, settings))
    }

    /// The fields of what is kept.
    pub fn of(kept: Kept) -> ArbiterFields
        ensures kept { kept_of result ≡ kept }
        ensures is_arbiter { IsTrue (is_arbiter result) }
    {
        ArbiterFields {
            mechanism: number_of(kept.mechanism),
            cdw11: kept.settings.to_cdw11(),
            last: LastFields::of(kept.last),
            used: UsedFields::of(kept.used),
        }
    }

    /// Whether an arbiter can keep this.
    #[inline(always)]
    pub fn is_arbiter(&self) -> bool
        ensures { result ≡ is_arbiter self.now }
    {
        (self.mechanism == 1 || self.mechanism == 2) && self.last.are_places()
    }

    /// What is kept.
    pub fn kept(&self) -> Kept
        requires { IsTrue (is_arbiter self.now) }
        ensures { result ≡ kept_of self.now }
    {
        Kept {
            mechanism: mechanism_of(self.mechanism),
            settings: Settings::from_cdw11(self.cdw11),
            last: self.last.last(),
            used: self.used.used(),
        }
    }

    /// The lawful pick of these queues, of at most so many commands, which is kept. `None` exactly where no command waits;
    /// it changes nothing.
    pub fn pick_up_to<Q: ReadyQueues>(&mut self, queues: &Q, limit: u16) -> Option<Pick>
        requires observed { IsObservation (Q.seen queues.now) }
        requires is_arbiter { IsTrue (is_arbiter self.old) }
        requires some { 1 ≤ limit }
        ensures by_what_is_kept { result ≡ option_map (cut limit) (pick_of (kept_of self.old) (Q.seen queues.now)) }
        ensures lawful { (mechanism : Mechanism) (first : ArbitrationFields) (past : History) → StandsAt mechanism first past (kept_of self.old) → result ≡ limited_pick limit mechanism first past (Q.seen queues.now) }
        ensures none_where_idle { IsNone result ↔ IsIdle (Q.seen queues.now) }
        ensures stands { (mechanism : Mechanism) (first : ArbitrationFields) (past : History) → StandsAt mechanism first past (kept_of self.old) → MatchOption result (self.new ≡ self.old) (λ pick. StandsAt mechanism first (Picked (Q.seen queues.now) pick ∷ past) (kept_of self.new)) }
        ensures kept { MatchOption result (self.new ≡ self.old) (λ pick. kept_of self.new ≡ kept_after (kept_of self.old).mechanism (kept_of self.old) (class_in (Q.seen queues.now) pick.qid) pick) }
        ensures is_arbiter { IsTrue (is_arbiter self.new) }
    {
        let pick = self.peek(queues)?.up_to(limit);
        self.keep(queues, pick);
        Some(pick)
    }

    /// Keeps the pick that `peek` answers, or one of fewer of its commands, at least one. Where it is one of none, the turn
    /// goes on, and no law speaks of the run any more.
    #[inline(always)]
    pub fn keep<Q: ReadyQueues>(&mut self, queues: &Q, pick: Pick)
        requires observed { IsObservation (Q.seen queues.now) }
        requires is_arbiter { IsTrue (is_arbiter self.old) }
        requires peeked { IsSomeAnd (pick_of (kept_of self.old) (Q.seen queues.now)) (λ whole. IsCutOf whole pick) }
        ensures stands { (mechanism : Mechanism) (first : ArbitrationFields) (past : History) → StandsAt mechanism first past (kept_of self.old) → StandsAt mechanism first (Picked (Q.seen queues.now) pick ∷ past) (kept_of self.new) }
        ensures kept { kept_of self.new ≡ kept_after (kept_of self.old).mechanism (kept_of self.old) (class_in (Q.seen queues.now) pick.qid) pick }
        ensures is_arbiter { IsTrue (is_arbiter self.new) }
    {
        self.keep_as(queues, queues.class_of(pick.qid), pick);
    }

    /// What `keep` keeps, where it is known already in which class the pick's queue is seen.
    #[inline(always)]
    pub fn keep_as<Q: ReadyQueues>(&mut self, queues: &Q, class: Option<Class>, pick: Pick)
        requires observed { IsObservation (Q.seen queues.now) }
        requires is_arbiter { IsTrue (is_arbiter self.old) }
        requires peeked { IsSomeAnd (pick_of (kept_of self.old) (Q.seen queues.now)) (λ whole. IsCutOf whole pick) }
        requires class { class ≡ class_in (Q.seen queues.now) pick.qid }
        ensures stands { (mechanism : Mechanism) (first : ArbitrationFields) (past : History) → StandsAt mechanism first past (kept_of self.old) → StandsAt mechanism first (Picked (Q.seen queues.now) pick ∷ past) (kept_of self.new) }
        ensures kept { kept_of self.new ≡ kept_after (kept_of self.old).mechanism (kept_of self.old) (class_in (Q.seen queues.now) pick.qid) pick }
        ensures is_arbiter { IsTrue (is_arbiter self.new) }
    {
        self.note(class, pick);
    }

    // Keeps a pick of a class.
    #[inline(always)]
    fn note(&mut self, class: Option<Class>, pick: Pick)
        requires is_arbiter { IsTrue (is_arbiter self.old) }
        requires within { IsWithinWeight (kept_of self.old).mechanism (kept_of self.old) class pick }
        ensures kept { kept_of self.new ≡ kept_after (kept_of self.old).mechanism (kept_of self.old) class pick }
        ensures is_arbiter { IsTrue (is_arbiter self.new) }
    {
        match mechanism_of(self.mechanism) {
            Mechanism::RoundRobin => self.last.all = place_of_last(Some(pick.qid)),
            Mechanism::Weighted => {
                if pick.fresh {
                    self.used = UsedFields::none();
                }
                self.last.serve(class, pick.qid);
                let settings = Settings::from_cdw11(self.cdw11);
                self.used.take(&settings, class, pick.n);
            }
        }
    }

    /// Takes new settings, which start a new round. The identifiers served last stay.
    pub fn set(&mut self, settings: Settings)
        requires { IsTrue (is_arbiter self.old) }
        ensures stands { (mechanism : Mechanism) (first : ArbitrationFields) (past : History) → StandsAt mechanism first past (kept_of self.old) → StandsAt mechanism first (Changed settings ∷ past) (kept_of self.new) }
        ensures kept { kept_of self.new ≡ record (kept_of self.old) { settings = settings; used = nothing_used } }
        ensures is_arbiter { IsTrue (is_arbiter self.new) }
    {
        self.cdw11 = settings.to_cdw11();
        self.used = UsedFields::none();
    }
}
