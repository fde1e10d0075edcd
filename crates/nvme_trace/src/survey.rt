// Tells all picks of a trace that differ from those of this front.
ghost use Rattle.std.specs.Prelude.{◌≡◌, ◌↔◌, IsTrue, ◌+◌, ◌-◌, ◌^◌, ◌<◌, ◌≤◌, ◌∷◌, ◌++◌, [], ℕ, List, Some, Ok, IfOk, IfErr, IfSome, OnOk, if◌then◌else◌, map, take, reverse};
ghost use Rattle.nvme_arbiter.specs.History.{History, Picked, Changed};
ghost use Rattle.nvme_trace.specs.Taken.{IsTakenPick};
ghost use Rattle.nvme_arbiter.specs.Observation.{IsObservation};
ghost use Rattle.nvme_lines.specs.Lines.{TakesTold};
ghost use Rattle.nvme_trace.specs.Format.{start_of_line, head_of_kept, event_view, room_view, room_of_line};
ghost use Rattle.nvme_trace.specs.Judged.{IsObserved, picks_of};
ghost use Rattle.nvme_judge.specs.Starts.{CanBegin, IsPrior};
ghost use Rattle.nvme_trace.specs.Shown.{IsReadFault};
ghost use Rattle.nvme_trace.specs.Surveys.{IsSurvey, IsDifferent, AreNone, Told, kind_of, is_kind, most_told, told_of};
ghost use Rattle.nvme_trace.specs.inside.Steps.{AreFew, SurveysAt};
ghost use Rattle.nvme_trace.specs.declared.records.Head.{Head};
ghost use Rattle.nvme_trace.specs.declared.survey.Kind.TheVariants as kinds;
ghost use Rattle.nvme_trace.specs.declared.fault.TraceError.TheVariants as fault;

use crate::basis::Basis;
use crate::fault::TraceError;
use crate::follower::{difference, follow};
use crate::judge::Finding;
use crate::records::TraceEvent;
use crate::trace::Trace;
use nvme_arbiter::{Kept, Pick, Seen, Settings};
use std::alloc::Global;
use std::io::Read;

// The most picks that are told one by one.
const MOST_TOLD: usize = 10;

/// In what a pick differs from the one that this front makes: the first of these.
#[derive(Clone, Copy, Debug, PartialEq, Eq)]
pub enum Kind {
    /// Nothing is ready, so this front makes no pick.
    NothingReady,
    /// It is of another queue.
    Queue,
    /// It takes another number of commands.
    Number,
    /// It starts a round where this front's doesn't, or the other way round.
    Fresh,
}

/// A pick that differs.
#[derive(Debug, Drop, PartialEq, Eq)]
pub struct Difference {
    /// The number of its line, from 1 on.
    pub line: u64,
    /// The line.
    pub quoted: Vec<u8>,
    /// What was picked, and the lawful pick after the picks that were made.
    pub finding: Finding,
}

/// How many picks differ, by kind.
#[derive(Clone, Copy, Debug, PartialEq, Eq)]
pub struct Counts {
    pub nothing_ready: u64,
    pub queue: u64,
    pub number: u64,
    pub fresh: u64,
}

/// What is told of all picks of a trace.
#[derive(Debug, Drop, PartialEq, Eq)]
pub struct Survey {
    /// The number of picks.
    pub picks: u64,
    /// The first ten of those that differ.
    pub first: Vec<Difference>,
    /// How many differ, by kind.
    pub counts: Counts,
}

// In what a pick differs from the lawful one.
fn kind_of(lawful: Option<Pick>, picked: Pick) -> Kind
    ensures { result ≡ kind_of lawful picked }
{
    match lawful {
        None => Kind::NothingReady,
        Some(lawful) if lawful.qid != picked.qid => Kind::Queue,
        Some(lawful) if lawful.n != picked.n => Kind::Number,
        Some(_) => Kind::Fresh,
    }
}

impl Survey {
    /// Whether no pick differs.
    pub fn is_lawful(&self) -> bool
        ensures { IsTrue result ↔ AreNone self.now.counts }
    {
        let counts = &self.counts;
        counts.nothing_ready == 0 && counts.queue == 0 && counts.number == 0 && counts.fresh == 0
    }
}

impl Counts {
    // Nothing is counted yet.
    const fn none() -> Counts
        ensures { result ≡ record { nothing_ready = 0; queue = 0; number = 0; fresh = 0 } }
    {
        Counts {
            nothing_ready: 0,
            queue: 0,
            number: 0,
            fresh: 0,
        }
    }

    /// How many picks differ.
    pub(crate) fn all(&self) -> u64 {
        self.nothing_ready
            .saturating_add(self.queue)
            .saturating_add(self.number)
            .saturating_add(self.fresh)
    }

    // Counts one more of a kind.
    fn count(&mut self, kind: Kind, picks: u64)
        requires counted { AreFew self.old picks }
        requires room { picks < 2 ^ 64 - 1 }
        ensures nothing_ready { self.new.nothing_ready ≡ self.old.nothing_ready + (if is_kind kinds.NothingReady kind then 1 else 0) }
        ensures queue { self.new.queue ≡ self.old.queue + (if is_kind kinds.Queue kind then 1 else 0) }
        ensures number { self.new.number ≡ self.old.number + (if is_kind kinds.Number kind then 1 else 0) }
        ensures fresh { self.new.fresh ≡ self.old.fresh + (if is_kind kinds.Fresh kind then 1 else 0) }
        ensures few { AreFew self.new (picks + 1) }
    {
        match kind {
            Kind::NothingReady => self.nothing_ready += 1,
            Kind::Queue => self.queue += 1,
            Kind::Number => self.number += 1,
            Kind::Fresh => self.fresh += 1,
        }
    }
}

// Keeps a pick that differs, where few are kept.
#[tactic(auto, using(crate::proofs::SurveyLemmas::first_pushed, crate::proofs::SurveyLemmas::first_full))]
fn keep_first(first: &mut Vec<Difference>, difference: Difference) -> Result<(), TraceError>
    ensures first { OnOk result ((all : List Told) → map told_of first.old.items ≡ take most_told (reverse all) → map told_of first.new.items ≡ take most_told (reverse (told_of difference ∷ all))) }
    ensures fault { IfErr result (λ e. e ≡ fault.NoMemory) }
{
    if first.len() < MOST_TOLD {
        first.push(difference)?;
    }
    Ok(())
}

/// What is kept of the picks that were made, and what is told so far.
#[derive(Drop)]
pub(crate) struct Surveyor {
    pub kept: Kept,
    pub survey: Survey,
}

impl Surveyor {
    // Nothing was read yet.
    #[tactic(auto, using(crate::proofs::SurveyLemmas::surveys_new))]
    fn new(alloc: Global, start: Kept) -> Surveyor
        ensures at { (prior : History) (lines : List (ℕ × List ℕ)) → IsPrior start prior → SurveysAt (head_of_kept start) prior [] lines result }
        ensures picks { result.survey.picks ≡ 0 }
        ensures few { AreFew result.survey.counts result.survey.picks }
    {
        Surveyor {
            kept: start,
            survey: Survey {
                picks: 0,
                first: Vec::new(alloc),
                counts: Counts::none(),
            },
        }
    }

    // Takes new settings.
    #[tactic(auto, using(crate::proofs::SurveyLemmas::surveys_set))]
    fn set(&mut self, settings: Settings)
        ensures at { (head : Head) (prior past : History) (line : ℕ × List ℕ) (lines : List (ℕ × List ℕ)) → SurveysAt head prior past lines self.old → SurveysAt head prior (Changed settings ∷ past) (line ∷ lines) self.new }
        ensures survey { self.new.survey ≡ self.old.survey }
    {
        self.kept.set(settings);
    }

    // Takes a pick that is the lawful one.
    fn pass(&mut self, seen: &[Seen], picked: Pick)
        requires few { self.old.survey.picks < 2 ^ 64 - 1 }
        ensures at { (head : Head) (prior past : History) (line : ℕ × List ℕ) (lines : List (ℕ × List ℕ)) → SurveysAt head prior past lines self.old → IsObservation seen.now → IsTakenPick head.mechanism head.settings (past ++ prior) (room_of_line line.1) seen.now picked → SurveysAt head prior (Picked seen.now picked ∷ past) (line ∷ lines) self.new }
        ensures picks { self.new.survey.picks ≡ self.old.survey.picks + 1 }
        ensures counts { self.new.survey.counts ≡ self.old.survey.counts }
    {
        self.kept = follow(&self.kept, seen, picked);
        self.survey.picks += 1;
    }

    // Tells a pick that differs.
    fn tell(
        &mut self,
        seen: &[Seen],
        picked: Pick,
        difference: Difference,
    ) -> Result<(), TraceError>
        requires few { AreFew self.old.survey.counts self.old.survey.picks }
        requires room { self.old.survey.picks < 2 ^ 64 - 1 }
        ensures at { OnOk result ((head : Head) (prior past : History) (lines : List (ℕ × List ℕ)) → SurveysAt head prior past lines self.old → IsObservation seen.now → IsDifferent head (past ++ prior) (room_of_line difference.quoted.items) seen.now picked difference.finding → SurveysAt head prior (Picked seen.now picked ∷ past) ((difference.line, difference.quoted.items) ∷ lines) self.new) }
        ensures picks { self.new.survey.picks ≡ self.old.survey.picks + 1 }
        ensures counts { AreFew self.new.survey.counts self.new.survey.picks }
        ensures fault { IfErr result (λ e. e ≡ fault.NoMemory) }
    {
        let finding = difference.finding;
        let kind = kind_of(finding.lawful, finding.picked);
        self.survey.counts.count(kind, self.survey.picks);
        self.survey.picks += 1;
        self.kept = follow(&self.kept, seen, picked);
        keep_first(&mut self.survey.first, difference)
    }

    // Takes the event of the latest line.
    fn note<R: Read>(
        &mut self,
        alloc: Global,
        trace: &mut Trace<R>,
        event: &TraceEvent,
    ) -> Result<(), TraceError>
        requires observed { IsObserved (event_view event.now) }
        requires told { room_view event.now ≡ room_of_line trace.old.latest }
        requires few { AreFew self.old.survey.counts self.old.survey.picks }
        requires room { self.old.survey.picks < 2 ^ 64 - 1 }
        ensures at { OnOk result ((head : Head) (prior past : History) (lines : List (ℕ × List ℕ)) → SurveysAt head prior past lines self.old → SurveysAt head prior (event_view event.now ∷ past) ((trace.old.number, trace.old.latest) ∷ lines) self.new) }
        ensures picks { self.new.survey.picks ≡ self.old.survey.picks + picks_of (event_view event.now) }
        ensures counts { AreFew self.new.survey.counts self.new.survey.picks }
        ensures rest { trace.new.rest ≡ trace.old.rest }
        ensures number { trace.new.number ≡ trace.old.number }
        ensures fault { IfErr result (λ e. e ≡ fault.NoMemory) }
    {
        match event {
            TraceEvent::Set { settings } => {
                self.set(*settings);
                Ok(())
            }
            TraceEvent::Pick { seen, pick, room } => match difference(
                &self.kept, seen, *pick, *room,
            ) {
                None => {
                    self.pass(seen, *pick);
                    Ok(())
                }
                Some(finding) => {
                    let line = trace.number();
                    let quoted = trace.take_line(alloc);
                    let difference = Difference {
                        line,
                        quoted,
                        finding,
                    };
                    self.tell(seen, *pick, difference)
                }
            },
        }
    }
}

/// Tells all picks of a trace that differ from those that this front makes, each judged after the picks that were made
/// before it: how many there are of each kind, and the first ten. The error is of the first line with a fault. The trace
/// is read as a stream.
pub fn check_all<R: Read + Drop>(alloc: Global, reader: R) -> Result<Survey, TraceError>
    ensures survey { IfOk result (λ survey. IfSome (R.remaining reader) (λ text. IsSurvey text survey)) }
    ensures fault { IfErr result (λ error. IfSome (R.remaining reader) (λ text. IsReadFault text error)) }
{
    let mut trace = Trace::new(alloc, reader);
    match trace.start(alloc) {
        Ok(start) => surveyed(alloc, start, &mut trace),
        Err(error) => Err(error),
    }
}

// Goes through the events after a head.
fn surveyed<R: Read>(alloc: Global, start: Kept, trace: &mut Trace<R>) -> Result<Survey, TraceError>
    requires { CanBegin start }
    ensures survey { IfOk result (λ survey. (text : List ℕ) → TakesTold (λ line. start_of_line line ≡ Ok start) 0 (Some text) trace.old.number trace.old.rest → IsSurvey text survey) }
    ensures fault { IfErr result (λ error. (text : List ℕ) → TakesTold (λ line. start_of_line line ≡ Ok start) 0 (Some text) trace.old.number trace.old.rest → IsReadFault text error) }
{
    let mut surveyor = Surveyor::new(alloc, start);
    for _ in 1..u64::MAX {
        let Some(event) = trace.event_by(alloc, Basis::Profile)? else {
            return Ok(surveyor.survey);
        };
        surveyor.note(alloc, trace, &event)?;
    }
    Err(TraceError::Read)
}
