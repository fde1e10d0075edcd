// Judges a whole log, which is read as a stream, and goes on after breaches of the controller.
ghost use Rattle.std.specs.Prelude.{◌≡◌, ◌+◌, ◌-◌, ◌^◌, ◌<◌, slice_get, ℕ, List, Option, Ok, Some, [], ◌∷◌, ◌++◌, IfOk, IfErr, IfSome, OnOk};
ghost use Rattle.nvme_lines.specs.Lines.{TakesTold};
ghost use Rattle.nvme_audit.specs.declared.facts.Start.{Start};
ghost use Rattle.nvme_audit.specs.Lives.{Past};
ghost use Rattle.nvme_audit.specs.Lawful.{is_broken};
ghost use Rattle.nvme_audit.specs.Repairs.{said};
ghost use Rattle.nvme_audit.specs.Standing.{GoesOnAt};
ghost use Rattle.nvme_audit_text.specs.declared.audit.Finding.{Finding};
ghost use Rattle.nvme_audit_text.specs.Format.{head_of_line};
ghost use Rattle.nvme_audit_text.specs.Audits.{added, is_host, most_told};
ghost use Rattle.nvme_audit_text.specs.WholeAudits.{earlier, behind, told_if, told_at, most_broken, AreTold, asked_whole, IsWholeAudit, IsWholeFault};
ghost use Rattle.nvme_audit_text.specs.inside.Steps.{IsOther, GoesOn};

use crate::audit::{
    Broken, Finding, MOST_TOLD, fault_of, head_in_text, keep_first, one_more, said_next,
};
use crate::facts::Facts;
use crate::fault::LogError;
use crate::head::Head;
use crate::names::{RULE_COUNT, none_asked};
use crate::picks::{PickFinding, ToldPicks, WholePicks, arbitration_of};
use crate::views::View;
use nvme_audit::{Count, Event, Start, Verdict, WholeJudge, count_asked};
use nvme_lines::NumberedLines;
use std::alloc::Global;
use std::io::Read;

// How many breaches of the controller are told.
const MOST_BROKEN: usize = 1000;

/// Breaches of one kind.
#[derive(Drop)]
pub struct Told {
    /// The first of them.
    pub first: Vec<Finding>,
    /// How many there are.
    pub count: u64,
}

/// The answer of an audit that goes on after breaches of the controller.
#[derive(Drop)]
pub struct WholeAudit {
    /// How many lines were read.
    pub lines: u64,
    /// The breaches of the controller that were told, the first 1,000 of them. After each its queues are let go until
    /// they are created again.
    pub broken: Told,
    /// Those of the host, of which the first ten are kept.
    pub host: Told,
    /// Of each rule for the controller but those of arbitration, how often it asked something.
    pub asked: [Count; RULE_COUNT],
    /// The picks that break a rule of arbitration, the first 1,000 of them. After each nothing is said of picks until the
    /// settings change.
    pub unlawful: ToldPicks,
    /// How many picks were judged: each of the rules of arbitration asked something of each.
    pub picks: u64,
}

/// A place among the breaches of the controller that are told, by their lines: how many of each sort stand before it.
#[derive(Clone, Copy)]
pub struct Place {
    pub broken: usize,
    pub unlawful: usize,
}

impl Place {
    /// That of the first one.
    pub const fn first() -> Place
        ensures { result ≡ record { broken = 0; unlawful = 0 } }
    {
        Place {
            broken: 0,
            unlawful: 0,
        }
    }

    /// The place behind a breach that stands here.
    pub fn behind(self, broken: &Broken) -> Place
        ensures { self.broken + 1 < 2 ^ 64 → self.unlawful + 1 < 2 ^ 64 → result ≡ behind broken.now self }
    {
        match broken {
            Broken::OfQueues(_) => Place {
                broken: self.broken.saturating_add(1),
                ..self
            },
            Broken::OfArbitration(_) => Place {
                unlawful: self.unlawful.saturating_add(1),
                ..self
            },
        }
    }
}

// The breach of queues at an index.
fn finding_at(found: &[Finding], index: usize) -> Option<Finding>
    ensures { result ≡ slice_get found.now index }
{
    found.get(index).copied()
}

// The breach of arbitration at an index.
fn unlawful_at(found: &[PickFinding], index: usize) -> Option<PickFinding>
    ensures { result ≡ slice_get found.now index }
{
    found.get(index).copied()
}

// The breach of the earlier line.
fn earlier(finding: Option<Finding>, unlawful: Option<PickFinding>) -> Option<Broken>
    ensures { result ≡ earlier finding unlawful }
{
    let Some(unlawful) = unlawful else {
        return Some(Broken::OfQueues(finding?));
    };
    if let Some(finding) = finding
        && finding.line <= unlawful.line
    {
        return Some(Broken::OfQueues(finding));
    }
    Some(Broken::OfArbitration(unlawful))
}

impl WholeAudit {
    ghost use Rattle.std.specs.Prelude.{vec_len};

    /// The breach of the controller at a place, by their lines. `None` behind the last one.
    pub fn broken_at(&self, at: Place) -> Option<Broken>
        ensures { result ≡ earlier (slice_get self.now.broken.first.items at.broken) (slice_get self.now.unlawful.first.items at.unlawful) }
    {
        let finding = finding_at(self.broken.first.as_slice(), at.broken);
        let unlawful = unlawful_at(self.unlawful.first.as_slice(), at.unlawful);
        earlier(finding, unlawful)
    }

    /// How many breaches of the controller are told.
    pub fn told(&self) -> usize
        ensures { vec_len self.now.broken.first + vec_len self.now.unlawful.first < 2 ^ 64 → result ≡ vec_len self.now.broken.first + vec_len self.now.unlawful.first }
    {
        let told = self.broken.first.len();
        told.saturating_add(self.unlawful.first.len())
    }

    /// How many more there are.
    pub fn untold(&self) -> u64 {
        let count = self.broken.count.saturating_add(self.unlawful.count);
        count.saturating_sub(self.told() as u64)
    }
}

// A judge, and what it told so far.
#[derive(Drop)]
struct WholeAuditor {
    judge: WholeJudge,
    broken: Told,
    host: Told,
    asked: [Count; RULE_COUNT],
}

// Counts what the rules ask of the next event.
#[tactic(auto, using(crate::proofs::CountLemmas::one_event_more_whole))]
fn counted(
    asked: &mut [Count; RULE_COUNT],
    judge: &WholeJudge,
    event: &Event,
) -> Result<(), LogError>
    ensures counted { (start : Start) (past : Past) → GoesOnAt start past judge.now → asked.old ≡ asked_whole start past → OnOk result (asked.new ≡ asked_whole start (event.now ∷ past)) }
    ensures other { IfErr result IsOther }
{
    match count_asked(asked, &judge.scene(event)) {
        Ok(()) => Ok(()),
        Err(error) => Err(fault_of(error)),
    }
}

// Judges an event.
fn judged(judge: &mut WholeJudge, event: &Event) -> Result<Verdict, LogError>
    ensures exact { (start : Start) (past : Past) → GoesOnAt start past judge.old → IfOk result (λ v. v ≡ said start past event.now) }
    ensures stands { (start : Start) (past : Past) → GoesOnAt start past judge.old → OnOk result (GoesOnAt start (event.now ∷ past) judge.new) }
    ensures other { IfErr result IsOther }
{
    match judge.judge(event) {
        Ok(verdict) => Ok(verdict),
        Err(error) => Err(fault_of(error)),
    }
}

impl Told {
    // Nothing.
    #[tactic(auto, using(crate::proofs::ToldLemmas::none_told))]
    fn none(alloc: Global) -> Told
        ensures { (most : ℕ) → AreTold most [] result }
    {
        Told {
            first: Vec::new(alloc),
            count: 0,
        }
    }

    // One more, which is kept where fewer than these are.
    #[tactic(auto, using(crate::proofs::ToldLemmas::one_more_found))]
    fn add(&mut self, most: usize, finding: Finding) -> Result<(), LogError>
        ensures more { OnOk result ((found : List Finding) → AreTold most found self.old → AreTold most (found ++ finding ∷ []) self.new) }
        ensures other { IfErr result IsOther }
    {
        self.count = one_more(self.count)?;
        let Finding {
            line,
            event,
            said,
            facts,
        } = finding;
        keep_first(&mut self.first, most, line, event, said, facts)
    }
}

// Tells a finding, where a rule is broken.
fn tell(broken: &mut Told, host: &mut Told, finding: Finding) -> Result<(), LogError>
    ensures broken { OnOk result ((found : List Finding) → AreTold most_broken found broken.old → AreTold most_broken (found ++ told_if is_broken finding) broken.new) }
    ensures host { OnOk result ((found : List Finding) → AreTold most_told found host.old → AreTold most_told (found ++ told_if is_host finding) host.new) }
    ensures other { IfErr result IsOther }
{
    match finding.said {
        Verdict::Kept => Ok(()),
        Verdict::Broken(_) => broken.add(MOST_BROKEN, finding),
        Verdict::Host(_) => host.add(MOST_TOLD, finding),
    }
}

impl WholeAuditor {
    // Nothing was read yet but the head.
    fn new(alloc: Global, start: Start) -> WholeAuditor
        ensures { GoesOn start [] [] [] result }
    {
        let asked = none_asked();
        WholeAuditor {
            judge: WholeJudge::new(alloc, start),
            broken: Told::none(alloc),
            host: Told::none(alloc),
            asked,
        }
    }

    // Takes an event, which the line of this number tells.
    fn take(&mut self, line: u64, event: Event) -> Result<(), LogError>
        ensures taken { (start : Start) (past : Past) (broken hosts : List Finding) → GoesOn start past broken hosts self.old → OnOk result (GoesOn start (event ∷ past) (broken ++ told_at is_broken start past line (Some event)) (hosts ++ told_at is_host start past line (Some event)) self.new) }
        ensures other { IfErr result IsOther }
    {
        let facts = Facts::of(self.judge.known(), &event);
        counted(&mut self.asked, &self.judge, &event)?;
        let said = judged(&mut self.judge, &event)?;
        let finding = Finding {
            line,
            event,
            said,
            facts,
        };
        tell(&mut self.broken, &mut self.host, finding)
    }

    // Takes what the line of this number tells.
    fn note(&mut self, line: u64, said: Option<Event>) -> Result<(), LogError>
        ensures taken { (start : Start) (past : Past) (broken hosts : List Finding) → GoesOn start past broken hosts self.old → OnOk result (GoesOn start (added said past) (broken ++ told_at is_broken start past line said) (hosts ++ told_at is_host start past line said) self.new) }
        ensures other { IfErr result IsOther }
    {
        match said {
            Some(event) => self.take(line, event),
            None => Ok(()),
        }
    }

    // The answer after the lines so far.
    fn answer(self, lines: u64, picks: WholePicks) -> WholeAudit
        ensures lines { result.lines ≡ lines }
        ensures broken { result.broken ≡ self.broken }
        ensures host { result.host ≡ self.host }
        ensures asked { result.asked ≡ self.asked }
        ensures unlawful { result.unlawful ≡ picks.unlawful }
        ensures picks { result.picks ≡ picks.judged }
    {
        let asked = self.asked;
        WholeAudit {
            lines,
            broken: self.broken,
            host: self.host,
            asked,
            unlawful: picks.unlawful,
            picks: picks.judged,
        }
    }
}

/// Judges a whole log, as far as a view shows it. After a breach of the controller it goes on: of the queues of that
/// event nothing more is said until they are created again. The error is of the first line with a fault. The log is read
/// as a stream.
#[tactic(auto, using(crate::proofs::WholeLemmas::head_fault))]
pub fn audit_whole_log<R: Read + Drop>(
    alloc: Global,
    through: &View,
    reader: R,
) -> Result<WholeAudit, LogError>
    ensures answer { IfOk result (λ audit. IfSome (R.remaining reader) (λ text. IsWholeAudit through.now text audit)) }
    ensures fault { IfErr result (λ e. IfSome (R.remaining reader) (λ text. IsWholeFault through.now text e)) }
{
    let mut lines = NumberedLines::new(alloc, reader);
    match head_in_text(alloc, through, &mut lines) {
        Ok(head) => audited(alloc, through, &head, &mut lines),
        Err(error) => Err(error),
    }
}

// Judges the lines after a head.
fn audited<R: Read>(
    alloc: Global,
    through: &View,
    head: &Head,
    lines: &mut NumberedLines<R>,
) -> Result<WholeAudit, LogError>
    ensures answer { IfOk result (λ audit. (text : List ℕ) → TakesTold (λ line. head_of_line through.now line ≡ Ok head.now) 0 (Some text) lines.old.number lines.old.rest → IsWholeAudit through.now text audit) }
    ensures fault { IfErr result (λ e. (text : List ℕ) → TakesTold (λ line. head_of_line through.now line ≡ Ok head.now) 0 (Some text) lines.old.number lines.old.rest → IsWholeFault through.now text e) }
{
    let mut auditor = WholeAuditor::new(alloc, head.start);
    let mut picks = WholePicks::new(alloc, arbitration_of(head));
    for _ in 1..u64::MAX {
        let Some(said) = said_next(alloc, through, head, lines)? else {
            return Ok(auditor.answer(lines.number(), picks));
        };
        auditor.note(lines.number(), said.event())?;
        picks.note(lines.number(), &said)?;
    }
    Err(LogError::Read)
}
