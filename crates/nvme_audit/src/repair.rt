// Judges a log to its end: after a breach of the controller its queues are let go.
ghost use Rattle.std.specs.Prelude.{◌≡◌};
ghost use Rattle.nvme_audit.specs.Repairs.{is_of_order, lets_go, unless, sq_in, cq_in};

use crate::answers::{cq_named, sq_named};
use crate::event::Event;
use crate::facts::Start;
use crate::judge::{AuditError, Judge};
use crate::scene::Scene;
use crate::verdict::{Rule, Verdict};
use nvme_entry::AdminCommand;
use std::alloc::Global;
use std::collections::HashMap;

// Whether a rule is one of rings, or of the order of events.
fn is_of_order(rule: Rule) -> bool
    ensures { result ≡ is_of_order rule }
{
    match rule {
        Rule::FetchClosed | Rule::FetchBeyondTail | Rule::FetchSlot | Rule::PostClosed => true,
        Rule::Slot | Rule::Phase | Rule::CqFull | Rule::CqWrong | Rule::Life | Rule::Sqhd => true,
        Rule::SqdelUnasked | Rule::AbortUnasked | Rule::AbortUntrue => false,
        Rule::StatusForeign | Rule::StatusCreate | Rule::StatusDelete | Rule::Features => false,
    }
}

// Whether the queues of an event are let go by what is said of it.
fn lets_go(verdict: Verdict) -> bool
    ensures { result ≡ lets_go verdict }
{
    match verdict {
        Verdict::Broken(rule) => is_of_order(rule),
        _ => false,
    }
}

// What is said of an event, whose verdict this is, where it is passed over or not.
fn said_of(is_passed_over: bool, verdict: Verdict) -> Verdict
    ensures { result ≡ unless is_passed_over verdict }
{
    if is_passed_over {
        Verdict::Kept
    } else {
        verdict
    }
}

// The submission queue that an event names.
fn sq_in(event: &Event) -> Option<u16>
    ensures { result ≡ sq_in event.now }
{
    match event {
        Event::Tail { sq, .. } | Event::Fetch { sq, .. } => Some(*sq),
        Event::Head { .. } => None,
        Event::Post { completion, .. } => Some(completion.sq),
    }
}

// The completion queue that it names.
fn cq_in(event: &Event) -> Option<u16>
    ensures { result ≡ cq_in event.now }
{
    match event {
        Event::Head { cq, .. } | Event::Post { cq, .. } => Some(*cq),
        Event::Tail { .. } | Event::Fetch { .. } => None,
    }
}

/// The queues of one kind that were let go, by identifier.
#[derive(Drop)]
pub struct Gone {
    pub by_id: HashMap<u16, bool>,
}

impl Gone {
    ghost use Rattle.std.specs.Prelude.{◌≡◌, ℕ, ◌==◌, Bool, true, false, ◌||◌, ◌&&◌, OnOk, if◌then◌else◌, not};
    ghost use Rattle.nvme_audit.specs.Repairs.{is, is_gone};
    ghost use Rattle.nvme_audit.specs.Standing.{gone_at};

    // None.
    fn new(alloc: Global) -> Gone
        ensures { (q : ℕ) → gone_at result q ≡ false }
    {
        Gone {
            by_id: HashMap::new(alloc),
        }
    }

    // Whether a queue was let go.
    fn has(&self, q: u16) -> bool
        ensures { result ≡ gone_at self.now q }
    {
        self.by_id.get(&q).copied().unwrap_or(false)
    }

    // Whether there is a queue, and it was let go.
    fn has_named(&self, named: Option<u16>) -> bool
        ensures { result ≡ is_gone (gone_at self.now) named }
    {
        match named {
            Some(q) => self.has(q),
            None => false,
        }
    }

    fn put(&mut self, q: u16, gone: bool) -> Result<(), AuditError>
        ensures { OnOk result ((k : ℕ) → gone_at self.new k ≡ (if q == k then gone else gone_at self.old k)) }
    {
        match self.by_id.insert(q, gone) {
            Ok(_) => Ok(()),
            Err(_) => Err(AuditError::NoMemory),
        }
    }

    // Lets a queue go, if there is one.
    fn let_go(&mut self, named: Option<u16>) -> Result<(), AuditError>
        ensures { OnOk result ((k : ℕ) → gone_at self.new k ≡ (if is named k then true else gone_at self.old k)) }
    {
        match named {
            Some(q) => self.put(q, true),
            None => Ok(()),
        }
    }
}

/// A judge of a whole log. It goes on after breaches of the controller: of the queues of such an event nothing more is
/// said until they are created again.
#[derive(Drop)]
pub struct WholeJudge {
    judge: Judge,
    // Whether all queues were let go.
    all: bool,
    sqs: Gone,
    cqs: Gone,
}

impl WholeJudge {
    ghost use Rattle.std.specs.Prelude.{◌≡◌, ℕ, [], ◌∷◌, OnOk, IfOk, Bool};
    ghost use Rattle.nvme_entry.specs.declared.admin.AdminCommand.{AdminCommand};
    ghost use Rattle.nvme_audit.specs.declared.facts.Start.{Start};
    ghost use Rattle.nvme_audit.specs.Lives.{Past};
    ghost use Rattle.nvme_audit.specs.Repairs.{is_among, is_passed_over, said, scene_said};
    ghost use Rattle.nvme_audit.specs.Standing.{StandsAt, gone_in, GoesOnAt};
    ghost use Rattle.nvme_audit.specs.inside.Steps.{LetsGo, Reopens};

    /// A judge of the first event.
    pub fn new(alloc: Global, start: Start) -> WholeJudge
        ensures stands { GoesOnAt start [] result }
    {
        WholeJudge {
            judge: Judge::new(alloc, start),
            all: false,
            sqs: Gone::new(alloc),
            cqs: Gone::new(alloc),
        }
    }

    /// What is known of the events so far, those among them that break a rule.
    pub fn known(&self) -> &Judge
        ensures { (start : Start) (past : Past) → GoesOnAt start past self.now → StandsAt start past result.now }
    {
        &self.judge
    }

    // Whether a queue that the event names was let go, or one that the command names which it answers.
    fn is_among(&self, command: AdminCommand, event: &Event) -> bool
        ensures { result ≡ is_among (gone_in self.now) command event.now }
    {
        self.all
            || self.sqs.has_named(sq_in(event))
            || self.cqs.has_named(cq_in(event))
            || self.sqs.has(sq_named(command))
            || self.cqs.has(cq_named(command))
    }

    // Whether nothing is said of the next event.
    fn is_passed_over(&self, event: &Event) -> bool
        ensures { (start : Start) (past : Past) → GoesOnAt start past self.now → result ≡ is_passed_over start past event.now }
    {
        self.is_among(self.judge.answered_at(event), event)
    }

    /// What the rules for the controller read at the next event. Where that is passed over they ask nothing.
    pub fn scene(&self, event: &Event) -> Scene
        ensures { (start : Start) (past : Past) → GoesOnAt start past self.now → result ≡ scene_said start past event.now }
    {
        if self.is_passed_over(event) {
            Scene::Unjudged
        } else {
            self.judge.scene(event)
        }
    }

    // Lets the queues of an event go, where what is said of it does so.
    fn let_go(&mut self, said: Verdict, event: &Event) -> Result<(), AuditError>
        ensures { OnOk result (LetsGo self.old self.new said event.now) }
    {
        if !lets_go(said) {
            return Ok(());
        }
        let (sq, cq) = (sq_in(event), cq_in(event));
        self.all = self.all || sq == Some(0) || cq == Some(0);
        self.sqs.let_go(sq)?;
        self.cqs.let_go(cq)
    }

    // Judges a queue again that a command with success opens or closes.
    fn reopen(&mut self, command: AdminCommand) -> Result<(), AuditError>
        ensures { OnOk result (Reopens self.old self.new command) }
    {
        match command {
            AdminCommand::DeleteSq { qid } | AdminCommand::CreateSq { qid, .. } => {
                self.sqs.put(qid, false)
            }
            AdminCommand::DeleteCq { qid } | AdminCommand::CreateCq { qid, .. } => {
                self.cqs.put(qid, false)
            }
            _ => Ok(()),
        }
    }

    /// Judges the next event, which counts from then on.
    pub fn judge(&mut self, event: &Event) -> Result<Verdict, AuditError>
        ensures exact { (start : Start) (past : Past) → GoesOnAt start past self.old → IfOk result (λ v. v ≡ said start past event.now) }
        ensures stands { (start : Start) (past : Past) → GoesOnAt start past self.old → OnOk result (GoesOnAt start (event.now ∷ past) self.new) }
    {
        let is_passed_over = self.is_passed_over(event);
        let done = self.judge.done_at(event);
        let verdict = self.judge.judge_on(event)?;
        let said = said_of(is_passed_over, verdict);
        self.let_go(said, event)?;
        self.reopen(done)?;
        Ok(said)
    }
}
