// Judges a log, which is read as a stream.
ghost use Rattle.std.specs.Prelude.{◌≡◌, ◌≤◌, ℕ, List, Option, Ok, length, take, Some, None, [], ◌∷◌, ◌++◌, ◌+◌, IfOk, IfErr, IfSome, OnOk, MatchOption};
ghost use Rattle.nvme_lines.specs.Lines.{longest_line, MatchTold, TakesTold, HasNoTold, AreInAll};
ghost use Rattle.nvme_audit.specs.declared.facts.Start.{Start};
ghost use Rattle.nvme_audit.specs.Lives.{Past};
ghost use Rattle.nvme_audit.specs.Standing.{StandsAt};
ghost use Rattle.nvme_audit_text.specs.declared.views.View.{View};
ghost use Rattle.nvme_audit_text.specs.declared.head.Head.{Head};
ghost use Rattle.nvme_audit_text.specs.declared.audit.Finding.{Finding};
ghost use Rattle.nvme_audit_text.specs.Format.{heard_of, head_of_line, said_of_line};
ghost use Rattle.nvme_audit_text.specs.Readings.{Fails};
ghost use Rattle.nvme_audit_text.specs.Picks.{WasObserved};
ghost use Rattle.nvme_audit_text.specs.Audits.{added, host_at, most_told, asked_in, IsAudit, IsFault};
ghost use Rattle.nvme_audit_text.specs.inside.Steps.{IsTaken, IsOther, AuditsAt, IsFinding, IsLineFault, IsStopped, IsHeadFault, IsEventFault};

use crate::events::{Said, head_of_line, said_of_line};
use crate::facts::Facts;
use crate::fault::{LineFault, LogError};
use crate::head::Head;
use crate::names::{RULE_COUNT, none_asked};
use crate::notes::{event_note, head_note};
use crate::picks::{PickAuditor, PickFinding, arbitration_of};
use crate::views::View;
use nvme_audit::{AuditError, Count, Event, Judge, Start, Verdict, count_asked};
use nvme_lines::{NextError, NumberedLines};
use std::alloc::Global;
use std::io::Read;

/// How many breaches of the host are told.
pub(crate) const MOST_TOLD: usize = 10;

/// A line at which a rule is broken.
#[derive(Clone, Copy)]
pub struct Finding {
    /// The number of the line, from 1 on.
    pub line: u64,
    /// What it tells.
    pub event: Event,
    /// Who breaks which rule.
    pub said: Verdict,
    /// What stood before it.
    pub facts: Facts,
}

/// What the controller breaks.
#[derive(Clone, Copy)]
pub enum Broken {
    /// A rule of queues, commands and statuses.
    OfQueues(Finding),
    /// A rule of arbitration.
    OfArbitration(PickFinding),
}

impl Broken {
    /// The number of its line, from 1 on.
    pub fn line(&self) -> u64 {
        match self {
            Broken::OfQueues(finding) => finding.line,
            Broken::OfArbitration(finding) => finding.line,
        }
    }
}

/// The answer of an audit.
#[derive(Drop)]
pub struct Audit {
    /// How many lines were read.
    pub lines: u64,
    /// The first breaches of the host, ten at most.
    pub host: Vec<Finding>,
    /// How many there are.
    pub host_breaches: u64,
    /// Where the controller breaks a rule first.
    pub broken: Option<Broken>,
    /// Of each rule for the controller but those of arbitration, how often it asked something.
    pub asked: [Count; RULE_COUNT],
    /// How many picks were judged: each of the rules of arbitration asked something of each.
    pub picks: u64,
}

// A judge, and what it told of the host so far.
#[derive(Drop)]
struct Auditor {
    judge: Judge,
    host: Vec<Finding>,
    host_breaches: u64,
    asked: [Count; RULE_COUNT],
}

/// The fault of a judge.
pub(crate) fn fault_of(error: AuditError) -> LogError
    ensures { IsOther result }
{
    match error {
        AuditError::NoMemory => LogError::NoMemory,
        AuditError::TooLong => LogError::TooLong,
    }
}

// Counts what the rules ask of the next event.
#[tactic(auto, using(crate::proofs::CountLemmas::one_event_more))]
fn counted(asked: &mut [Count; RULE_COUNT], judge: &Judge, event: &Event) -> Result<(), LogError>
    ensures counted { (start : Start) (past : Past) → StandsAt start past judge.now → asked.old ≡ asked_in start past → OnOk result (asked.new ≡ asked_in start (event.now ∷ past)) }
    ensures other { IfErr result IsOther }
{
    match count_asked(asked, &judge.scene(event)) {
        Ok(()) => Ok(()),
        Err(error) => Err(fault_of(error)),
    }
}

// Judges an event.
fn judged(judge: &mut Judge, event: &Event) -> Result<Verdict, LogError>
    ensures taken { (start : Start) (past : Past) → StandsAt start past judge.old → IfOk result (λ said. IsTaken start past event.now said judge.old judge.new) }
    ensures other { IfErr result IsOther }
{
    match judge.judge(event) {
        Ok(verdict) => Ok(verdict),
        Err(error) => Err(fault_of(error)),
    }
}

/// One more breach.
pub(crate) fn one_more(count: u64) -> Result<u64, LogError>
    ensures more { IfOk result (λ n. n ≡ count + 1) }
    ensures other { IfErr result IsOther }
{
    match count.checked_add(1) {
        Some(n) => Ok(n),
        None => Err(LogError::TooLong),
    }
}

/// Keeps one more finding, where fewer than these are kept.
#[tactic(auto, using(crate::proofs::ToldLemmas::one_more_told, crate::proofs::ToldLemmas::enough_told))]
pub(crate) fn keep_first(
    kept: &mut Vec<Finding>,
    most: usize,
    line: u64,
    event: Event,
    said: Verdict,
    facts: Facts,
) -> Result<(), LogError>
    ensures first { OnOk result ((found : List Finding) → kept.old.items ≡ take most found → kept.new.items ≡ take most (found ++ record { line = line; event = event; said = said; facts = facts } ∷ [])) }
    ensures other { IfErr result IsOther }
{
    if kept.len() < most {
        kept.push(Finding {
            line,
            event,
            said,
            facts,
        })?;
    }
    Ok(())
}

impl Auditor {
    // Nothing was read yet but the head.
    fn new(alloc: Global, start: Start) -> Auditor
        ensures stands { AuditsAt start [] [] result }
        ensures asked { result.asked ≡ asked_in start [] }
    {
        let asked = none_asked();
        Auditor {
            judge: Judge::new(alloc, start),
            host: Vec::new(alloc),
            host_breaches: 0,
            asked,
        }
    }

    // Takes an event, which the line of this number tells. The answer is a breach of the controller.
    fn take(&mut self, line: u64, event: Event) -> Result<Option<Finding>, LogError>
        ensures taken { (start : Start) (past : Past) (found : List Finding) → AuditsAt start past found self.old → IfOk result (λ o. MatchOption o (AuditsAt start (event ∷ past) (found ++ host_at start past line (Some event)) self.new) (λ finding. IsFinding start past line (Some event) finding × AuditsAt start past found self.new)) }
        ensures counted { (start : Start) (past : Past) → StandsAt start past self.old.judge → self.old.asked ≡ asked_in start past → OnOk result (self.new.asked ≡ asked_in start (event ∷ past)) }
        ensures other { IfErr result IsOther }
    {
        let facts = Facts::of(&self.judge, &event);
        counted(&mut self.asked, &self.judge, &event)?;
        let said = judged(&mut self.judge, &event)?;
        match said {
            Verdict::Kept => Ok(None),
            Verdict::Broken(_) => Ok(Some(Finding {
                line,
                event,
                said,
                facts,
            })),
            Verdict::Host(_) => {
                self.host_breaches = one_more(self.host_breaches)?;
                keep_first(&mut self.host, MOST_TOLD, line, event, said, facts)?;
                Ok(None)
            }
        }
    }

    // Takes what the line of this number tells.
    fn note(&mut self, line: u64, said: Option<Event>) -> Result<Option<Finding>, LogError>
        ensures taken { (start : Start) (past : Past) (found : List Finding) → AuditsAt start past found self.old → IfOk result (λ o. MatchOption o (AuditsAt start (added said past) (found ++ host_at start past line said) self.new) (λ finding. IsFinding start past line said finding × AuditsAt start past found self.new)) }
        ensures counted { (start : Start) (past : Past) → StandsAt start past self.old.judge → self.old.asked ≡ asked_in start past → OnOk result (self.new.asked ≡ asked_in start (added said past)) }
        ensures other { IfErr result IsOther }
    {
        match said {
            Some(event) => self.take(line, event),
            None => Ok(None),
        }
    }

    // The answer after the lines so far.
    fn answer(self, lines: u64, broken: Option<Broken>, picks: u64) -> Audit
        ensures lines { result.lines ≡ lines }
        ensures broken { result.broken ≡ broken }
        ensures host { result.host_breaches ≡ self.host_breaches }
        ensures told { result.host.items ≡ self.host.items }
        ensures asked { result.asked ≡ self.asked }
        ensures picks { result.picks ≡ picks }
    {
        let asked = self.asked;
        Audit {
            lines,
            host: self.host,
            host_breaches: self.host_breaches,
            broken,
            asked,
            picks,
        }
    }
}

// A fault of the line of this number, with a note.
fn fault_at(number: u64, fault: LineFault, note: String) -> LogError
    ensures { IsLineFault result number fault }
{
    match fault {
        LineFault::NoMemory => LogError::NoMemory,
        fault => LogError::Line {
            line: number,
            fault,
            note,
        },
    }
}

// Why the line of this number wasn't taken.
fn stopped(alloc: Global, number: u64, error: NextError) -> LogError
    ensures { IsStopped result error number }
{
    match error {
        NextError::TooLong => fault_at(number, LineFault::TooLong, String::new(alloc)),
        NextError::Read => LogError::Read,
        NextError::NoMemory => LogError::NoMemory,
    }
}

// Reads the next line that isn't blank. The answer is false at the end of the text.
#[tactic(auto, using(crate::proofs::LineLemmas::stopped_head, crate::proofs::LineLemmas::stopped_event))]
fn told_line<R: Read>(alloc: Global, lines: &mut NumberedLines<R>) -> Result<bool, LogError>
    ensures ok { IfOk result (λ more. MatchTold more lines.new.latest lines.old.number lines.old.rest lines.new.number lines.new.rest) }
    ensures short { OnOk result (length lines.new.latest ≤ longest_line) }
    ensures head { (view : View) → IfErr result (λ e. IsHeadFault view e lines.old.number lines.old.rest) }
    ensures event { (view : View) (head : Head) → IfErr result (λ e. IsEventFault view head e lines.old.number lines.old.rest) }
{
    match lines.next() {
        Ok(more) => Ok(more),
        Err(error) => Err(stopped(alloc, lines.number(), error)),
    }
}

// The fault of the latest line, which is no head, with its note.
#[tactic(auto, using(crate::proofs::LineLemmas::head_fails))]
fn head_fault<R: Read>(alloc: Global, lines: &NumberedLines<R>, fault: LineFault) -> LogError
    ensures { (view : View) (rest : Option (List ℕ)) (m : ℕ) → TakesTold (λ l. l ≡ lines.now.latest) m rest lines.now.number lines.now.rest → Fails fault (head_of_line view lines.now.latest) → IsHeadFault view result m rest }
{
    match head_note(alloc, lines.latest(), fault) {
        Ok(note) => fault_at(lines.number(), fault, note),
        Err(_) => LogError::NoMemory,
    }
}

// The fault of the latest line, which tells nothing, with its note.
#[tactic(auto, using(crate::proofs::LineLemmas::said_fails))]
fn event_fault<R: Read>(alloc: Global, lines: &NumberedLines<R>, fault: LineFault) -> LogError
    ensures { (view : View) (head : Head) (rest : Option (List ℕ)) (m : ℕ) → TakesTold (λ l. l ≡ lines.now.latest) m rest lines.now.number lines.now.rest → Fails fault (said_of_line view head lines.now.latest) → IsEventFault view head result m rest }
{
    match event_note(alloc, lines.latest(), fault) {
        Ok(note) => fault_at(lines.number(), fault, note),
        Err(_) => LogError::NoMemory,
    }
}

// The fault of a text with no line but blank ones.
#[tactic(auto, using(crate::proofs::LineLemmas::no_head))]
fn no_head(alloc: Global) -> LogError
    ensures { (view : View) (m : ℕ) (rest : Option (List ℕ)) → HasNoTold m rest → IsHeadFault view result m rest }
{
    match head_note(alloc, b"", LineFault::NoHead) {
        Ok(note) => fault_at(1, LineFault::NoHead, note),
        Err(_) => LogError::NoMemory,
    }
}

/// Reads the head, the first line that isn't blank.
pub(crate) fn head_in_text<R: Read>(
    alloc: Global,
    through: &View,
    lines: &mut NumberedLines<R>,
) -> Result<Head, LogError>
    requires { lines.old.number ≡ 0 }
    ensures ok { IfOk result (λ head. TakesTold (λ line. head_of_line through.now line ≡ Ok head) 0 lines.old.rest lines.new.number lines.new.rest) }
    ensures err { IfErr result (λ e. IsHeadFault through.now e 0 lines.old.rest) }
{
    if !told_line(alloc, lines)? {
        return Err(no_head(alloc));
    }
    match head_of_line(alloc, through, lines.latest()) {
        Ok(head) => Ok(head),
        Err(fault) => Err(head_fault(alloc, lines, fault)),
    }
}

/// Reads the next line after the head that isn't blank. `None` at the end of the log.
pub(crate) fn said_next<R: Read>(
    alloc: Global,
    through: &View,
    head: &Head,
    lines: &mut NumberedLines<R>,
) -> Result<Option<Said>, LogError>
    ensures ok { IfOk result (λ o. MatchOption o (HasNoTold lines.old.number lines.old.rest × AreInAll lines.old.number lines.old.rest lines.new.number) (λ said. TakesTold (λ line. said_of_line through.now head.now line ≡ Ok (heard_of said)) lines.old.number lines.old.rest lines.new.number lines.new.rest)) }
    ensures observed { IfOk result (λ o. IfSome o (λ said. WasObserved (heard_of said))) }
    ensures err { IfErr result (λ e. IsEventFault through.now head.now e lines.old.number lines.old.rest) }
{
    if !told_line(alloc, lines)? {
        return Ok(None);
    }
    match said_of_line(alloc, through, head, lines.latest()) {
        Ok(said) => Ok(Some(said)),
        Err(fault) => Err(event_fault(alloc, lines, fault)),
    }
}

/// Judges a log, as far as a view shows it, until the controller breaks a rule. The error is of the first line with a
/// fault, where the controller breaks no rule before it. The log is read as a stream.
#[tactic(auto, using(crate::proofs::AuditLemmas::head_fault))]
pub fn audit_log<R: Read + Drop>(
    alloc: Global,
    through: &View,
    reader: R,
) -> Result<Audit, LogError>
    ensures answer { IfOk result (λ audit. IfSome (R.remaining reader) (λ text. IsAudit through.now text audit)) }
    ensures fault { IfErr result (λ e. IfSome (R.remaining reader) (λ text. IsFault through.now text e)) }
{
    let mut lines = NumberedLines::new(alloc, reader);
    match head_in_text(alloc, through, &mut lines) {
        Ok(head) => audited(alloc, through, &head, &mut lines),
        Err(error) => Err(error),
    }
}

// Judges the lines after a head.
fn audited<R: Read>(
    alloc: Global,
    through: &View,
    head: &Head,
    lines: &mut NumberedLines<R>,
) -> Result<Audit, LogError>
    ensures answer { IfOk result (λ audit. (text : List ℕ) → TakesTold (λ line. head_of_line through.now line ≡ Ok head.now) 0 (Some text) lines.old.number lines.old.rest → IsAudit through.now text audit) }
    ensures fault { IfErr result (λ e. (text : List ℕ) → TakesTold (λ line. head_of_line through.now line ≡ Ok head.now) 0 (Some text) lines.old.number lines.old.rest → IsFault through.now text e) }
{
    let mut auditor = Auditor::new(alloc, head.start);
    let mut picks = PickAuditor::new(arbitration_of(head));
    for _ in 1..u64::MAX {
        let Some(said) = said_next(alloc, through, head, lines)? else {
            return Ok(auditor.answer(lines.number(), None, picks.judged()));
        };
        if let Some(finding) = auditor.note(lines.number(), said.event())? {
            let broken = Some(Broken::OfQueues(finding));
            return Ok(auditor.answer(lines.number(), broken, picks.judged()));
        }
        if let Some(unlawful) = picks.note(lines.number(), &said)? {
            let broken = Some(Broken::OfArbitration(unlawful));
            return Ok(auditor.answer(lines.number(), broken, picks.judged()));
        }
    }
    Err(LogError::Read)
}
