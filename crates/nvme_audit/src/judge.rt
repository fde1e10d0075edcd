// Judges a log, event by event.
ghost use Rattle.std.specs.Prelude.{◌≡◌, ◌+◌, IfOk};

use crate::answers::{
    answer_verdict, answered, asking, cid_named, cq_named, creates, mark_in, numbers_by, sq_named,
    told_of,
};
use crate::commands::Commands;
use crate::event::{Completion, Event};
use crate::facts::{Admin, Command, Cq, Ring, Sq, Start};
use crate::rules::{
    advanced_where_open, fetch_verdict, head_verdict, post_verdict, qsize_in, tail_verdict,
};
use crate::scene::{FetchScene, PostScene, Scene};
use crate::verdict::{Rule, Verdict};
use nvme_entry::{AdminCommand, Status};
use std::alloc::Global;
use std::collections::HashMap;
use thiserror::Error;

/// Why a judge gives up. What it says afterwards is of no use.
#[derive(Clone, Copy, Debug, PartialEq, Eq, Error)]
pub enum AuditError {
    #[error("memory was refused")]
    NoMemory,
    #[error("a count of the log has more than 64 bits")]
    TooLong,
}

/// A judge of a controller. It keeps the facts of each queue and the outstanding commands, and no list of the events. Once the
/// host uses an identifier of the admin queue again while its command is outstanding, nothing is judged any more: which of
/// the two a completion answers nobody knows.
#[derive(Drop)]
pub struct Judge {
    start: Start,
    sqs: HashMap<u16, Sq>,
    cqs: HashMap<u16, Cq>,
    admin: Admin,
    commands: Commands,
    lost: bool,
}

impl Judge {
    ghost use Rattle.std.specs.Prelude.{◌≡◌, ℕ, [], ◌∷◌, OnOk, IfOk, IfErr, MatchBool, MatchOption, true, if◌then◌else◌};
    ghost use Rattle.nvme_audit.specs.declared.facts.Start.{Start};
    ghost use Rattle.nvme_audit.specs.Lives.{Past, done_by};
    ghost use Rattle.nvme_audit.specs.Lawful.{verdict, is_broken, log_after, IsLawfulRun, IsFirstBroken};
    ghost use Rattle.nvme_audit.specs.Standing.{sq_at, cq_at, command_at, StandsAt};
    ghost use Rattle.nvme_audit.specs.Facts.{outstanding};
    ghost use Rattle.nvme_audit.specs.Coverage.{scene_read, scene_of};
    ghost use Rattle.nvme_audit.specs.Repairs.{answered_at, done_at};
    ghost use Rattle.nvme_audit.specs.declared.scene.Scene.TheVariants.{Posted};
    ghost use Rattle.nvme_audit.specs.Answers.{command_in};
    ghost use Rattle.nvme_audit.specs.declared.event.Event.TheVariants.{Post};
    ghost use Rattle.nvme_audit.specs.declared.verdict.Verdict.TheVariants.{Kept};
    ghost use Rattle.nvme_audit.specs.inside.Steps.{ruled_at, mark_at, PutsSq, PutsCq, sq_told, cq_released, KeepsFetch, AsksSq, AsksCq, Asks, KeepsPost, AnswersSq, Answers, told_at, Owes, sq_begun, cq_begun, cq_joined, cq_parted, BeginsSq, TurnsSq, Turns, Notes};

    /// A judge of the first event.
    pub fn new(alloc: Global, start: Start) -> Judge
        ensures stands { StandsAt start [] result }
    {
        Judge {
            start,
            sqs: HashMap::new(alloc),
            cqs: HashMap::new(alloc),
            admin: Admin::first(),
            commands: Commands::new(alloc),
            lost: false,
        }
    }

    /// The facts of a submission queue. The admin queue is open from the start.
    pub fn sq(&self, q: u16) -> Sq
        ensures { result ≡ sq_at self.now q }
    {
        match self.sqs.get(&q) {
            Some(sq) => *sq,
            None => Sq::first(&self.start, q),
        }
    }

    /// The facts of a completion queue.
    pub fn cq(&self, q: u16) -> Cq
        ensures { result ≡ cq_at self.now q }
    {
        match self.cqs.get(&q) {
            Some(cq) => *cq,
            None => Cq::first(&self.start, q),
        }
    }

    /// The outstanding command of a name.
    pub fn command(&self, sq: u16, cid: u16) -> Option<Command>
        ensures { (start : Start) (past : Past) → StandsAt start past self.now → result ≡ outstanding past sq cid }
    {
        self.commands.get(sq, cid)
    }

    /// What the rules for the controller read at the next event.
    pub fn scene(&self, event: &Event) -> Scene
        ensures { (start : Start) (past : Past) → StandsAt start past self.now → result ≡ scene_of start past event.now }
    {
        if self.lost {
            return Scene::Unjudged;
        }
        let tells = self.start.tells;
        match *event {
            Event::Tail { .. } | Event::Head { .. } => Scene::Unjudged,
            Event::Fetch { sq, slot, .. } => Scene::Fetched(FetchScene {
                tells,
                sq: self.sq(sq),
                slot,
            }),
            Event::Post {
                cq,
                slot,
                completion,
            } => Scene::Posted(self.post_scene(cq, slot, completion)),
        }
    }

    // What they read at a completion.
    fn post_scene(&self, q: u16, slot: Option<u16>, completion: Completion) -> PostScene
        ensures { (start : Start) (past : Past) → StandsAt start past self.now → Posted result ≡ scene_read start past (Post q slot completion) }
    {
        let command = self.commands.get(completion.sq, completion.cid);
        let asked = answered(command, &completion);
        PostScene {
            tells: self.start.tells,
            cq: self.cq(q),
            own_cq: self.cq(cq_named(asked)),
            sq: self.sq(completion.sq),
            own_sq: self.sq(sq_named(asked)),
            admin: self.admin,
            command,
            slot,
            completion,
        }
    }

    fn put_sq(&mut self, q: u16, sq: Sq) -> Result<(), AuditError>
        ensures { OnOk result (PutsSq self.old self.new q sq) }
    {
        match self.sqs.insert(q, sq) {
            Ok(_) => Ok(()),
            Err(_) => Err(AuditError::NoMemory),
        }
    }

    fn put_cq(&mut self, q: u16, cq: Cq) -> Result<(), AuditError>
        ensures { OnOk result (PutsCq self.old self.new q cq) }
    {
        match self.cqs.insert(q, cq) {
            Ok(_) => Ok(()),
            Err(_) => Err(AuditError::NoMemory),
        }
    }

    // What is said of an event of which the rules say this.
    fn said(&self, ruled: Verdict) -> Verdict
        ensures { result ≡ (if self.now.lost then Kept else ruled) }
    {
        if self.lost { Verdict::Kept } else { ruled }
    }

    // What the rules say of an event.
    fn ruled(&self, event: &Event) -> Result<Verdict, AuditError>
        ensures ok { IfOk result (λ v. v ≡ ruled_at self.now event.now) }
        ensures err { IfErr result (λ e. e ≡ AuditError.TooLong) }
    {
        let tells = &self.start.tells;
        match *event {
            Event::Tail { sq, slot } => tail_verdict(&self.sq(sq), slot),
            Event::Head { cq, slot } => head_verdict(&self.cq(cq), slot),
            Event::Fetch { sq, slot, cid, .. } => {
                let is_out = self.commands.get(sq, cid).is_some();
                Ok(fetch_verdict(tells, &self.sq(sq), slot, is_out))
            }
            Event::Post {
                cq,
                slot,
                completion,
            } => Ok(self.post_verdict(cq, slot, &completion)),
        }
    }

    // What is said of a completion by its slot and its name, and then by its status.
    fn post_verdict(&self, q: u16, slot: Option<u16>, completion: &Completion) -> Verdict
        ensures { result ≡ ruled_at self.now (Post q slot completion.now) }
    {
        let tells = &self.start.tells;
        let command = self.commands.get(completion.sq, completion.cid);
        let (cq, sq) = (self.cq(q), self.sq(completion.sq));
        let posted = post_verdict(tells, q, &cq, &sq, command, slot, completion);
        if !posted.is_kept() {
            return posted;
        }
        let asked = answered(command, completion);
        let own_cq = self.cq(cq_named(asked));
        let own_sq = self.sq(sq_named(asked));
        let target = self.commands.get(sq_named(asked), cid_named(asked));
        answer_verdict(
            tells,
            &cq,
            &own_cq,
            &sq,
            &own_sq,
            &self.admin,
            command,
            target,
            completion,
        )
    }

    fn keep_tail(&mut self, q: u16, slot: u16, verdict: Verdict) -> Result<(), AuditError>
        ensures { OnOk result (PutsSq self.old self.new q (sq_told (sq_at self.old q) slot verdict)) }
    {
        let mut sq = self.sq(q);
        sq.submitted = advanced_where_open(qsize_in(sq.ring), sq.submitted, slot)?;
        sq.excused = sq.excused || !verdict.is_kept();
        self.put_sq(q, sq)
    }

    fn keep_head(&mut self, q: u16, slot: u16, verdict: Verdict) -> Result<(), AuditError>
        ensures { OnOk result (PutsCq self.old self.new q (cq_released (cq_at self.old q) slot verdict)) }
    {
        let mut cq = self.cq(q);
        cq.consumed = advanced_where_open(cq.qsize, cq.consumed, slot)?;
        cq.excused = cq.excused || !verdict.is_kept();
        self.put_cq(q, cq)
    }

    // What is noted of a command at its fetch.
    fn mark(&self, command: AdminCommand) -> u64
        ensures { result ≡ mark_at self.now command }
    {
        match command {
            AdminCommand::CreateSq { cqid, .. } => self.cq(cqid).answered,
            AdminCommand::DeleteCq { .. } => self.admin.answered,
            AdminCommand::Abort { sqid, .. } => self.sq(sqid).stirred,
            AdminCommand::SetFeatures { .. } if self.admin.created => 1,
            _ => 0,
        }
    }

    fn keep_fetch(&mut self, q: u16, cid: u16, command: AdminCommand) -> Result<(), AuditError>
        ensures { OnOk result (KeepsFetch self.old self.new q cid command) }
    {
        let mark = self.mark(command);
        let mut sq = self.sq(q);
        let number = sq.fetched;
        sq.fetched = next(number)?;
        let is_out = self.commands.get(q, cid).is_some();
        sq.excused = is_out || sq.excused;
        self.put_sq(q, sq)?;
        self.lost = (q == 0 && is_out) || self.lost;
        let named = self.admin.aborts_answered < self.admin.aborts_asked;
        let taken = Command {
            number,
            command,
            mark,
            named,
            owed: false,
        };
        self.commands.insert(q, cid, taken)
    }

    // Counts a Create or a Delete that is fetched.
    fn ask(&mut self, command: AdminCommand) -> Result<(), AuditError>
        ensures { OnOk result (Asks self.old self.new command) }
    {
        match command {
            AdminCommand::DeleteSq { qid } => self.ask_sq(qid, true),
            AdminCommand::CreateSq { qid, .. } => self.ask_sq(qid, false),
            AdminCommand::DeleteCq { qid } => self.ask_cq(qid, true),
            AdminCommand::CreateCq { qid, .. } => self.ask_cq(qid, false),
            AdminCommand::Abort { sqid, cid } => {
                self.admin.aborts_asked = next(self.admin.aborts_asked)?;
                self.commands.flag(sqid, cid, true, false)
            }
            _ => Ok(()),
        }
    }

    fn ask_sq(&mut self, q: u16, deletes: bool) -> Result<(), AuditError>
        ensures { OnOk result (AsksSq self.old self.new q deletes) }
    {
        let mut sq = self.sq(q);
        let waits = sq.answered < sq.asked;
        self.admin.met = waits || self.admin.met;
        self.admin.asked = next(self.admin.asked)?;
        sq.excused = (deletes || waits || sq.ring.is_some()) && sq.excused;
        sq.asked = next(sq.asked)?;
        sq.doomed = deletes || sq.doomed;
        self.put_sq(q, sq)
    }

    fn ask_cq(&mut self, q: u16, deletes: bool) -> Result<(), AuditError>
        ensures { OnOk result (AsksCq self.old self.new q deletes) }
    {
        let mut cq = self.cq(q);
        let waits = cq.answered < cq.asked;
        self.admin.met = waits || self.admin.met;
        cq.excused = (deletes || waits || cq.qsize.is_some()) && cq.excused;
        cq.asked = next(cq.asked)?;
        self.put_cq(q, cq)
    }

    fn keep_post(&mut self, q: u16, completion: &Completion) -> Result<(), AuditError>
        ensures { OnOk result (KeepsPost self.old self.new q completion.now) }
    {
        let mut cq = self.cq(q);
        cq.posted = next(cq.posted)?;
        cq.early = (cq.qsize.is_none() && cq.answered < cq.asked) || cq.early;
        self.put_cq(q, cq)?;
        self.commands.remove(completion.sq, completion.cid);
        let mut sq = self.sq(completion.sq);
        if completion.status == Status::ABORT_REQUESTED {
            sq.stirred = next(sq.stirred)?;
        }
        self.put_sq(completion.sq, sq)
    }

    // The admin command that a completion carries to its end.
    fn done(&self, completion: &Completion) -> AdminCommand
        ensures { result ≡ done_by (command_in (command_at self.now.commands 0 completion.now.cid)) completion.now }
    {
        match self.commands.get(0, completion.cid) {
            Some(out) if completion.sq == 0 && completion.status == Status::SUCCESS => out.command,
            _ => AdminCommand::Other,
        }
    }

    // Counts a Create or a Delete that is answered.
    fn answer(&mut self, command: AdminCommand) -> Result<(), AuditError>
        ensures { OnOk result (Answers self.old self.new command) }
    {
        match command {
            AdminCommand::DeleteSq { qid } | AdminCommand::CreateSq { qid, .. } => {
                self.answer_sq(qid)
            }
            AdminCommand::DeleteCq { qid } | AdminCommand::CreateCq { qid, .. } => {
                let mut cq = self.cq(qid);
                cq.answered = next(cq.answered)?;
                self.put_cq(qid, cq)
            }
            AdminCommand::Abort { .. } => {
                self.admin.aborts_answered = next(self.admin.aborts_answered)?;
                Ok(())
            }
            _ => Ok(()),
        }
    }

    fn answer_sq(&mut self, q: u16) -> Result<(), AuditError>
        ensures { OnOk result (AnswersSq self.old self.new q) }
    {
        let mut sq = self.sq(q);
        sq.answered = next(sq.answered)?;
        self.admin.answered = next(self.admin.answered)?;
        self.put_sq(q, sq)
    }

    // Whether an Abort is answered that it aborted a command.
    fn told(&self, command: AdminCommand, completion: &Completion) -> bool
        ensures { result ≡ told_at self.now completion.now command }
    {
        let mark = mark_in(self.commands.get(0, completion.cid));
        told_of(self.sq(sq_named(command)).stirred, mark, completion)
    }

    // Notes of the command that an Abort names what is said of it.
    fn owe(&mut self, command: AdminCommand, told: bool) -> Result<(), AuditError>
        ensures { OnOk result (Owes self.old self.new command told) }
    {
        match command {
            AdminCommand::Abort { sqid, cid } if told => {
                self.commands.flag(sqid, cid, false, true)
            }
            _ => Ok(()),
        }
    }

    // Opens or closes the queue of an admin command.
    fn turn(&mut self, done: AdminCommand) -> Result<(), AuditError>
        ensures { OnOk result (Turns self.old self.new done) }
    {
        match done {
            AdminCommand::CreateSq {
                qid,
                qsize,
                cqid,
                ..
            } => self.turn_sq(qid, Some(Ring { qsize, cqid })),
            AdminCommand::DeleteSq { qid } => self.turn_sq(qid, None),
            AdminCommand::CreateCq { qid, qsize, .. } => self.begin_cq(qid, Some(qsize)),
            AdminCommand::DeleteCq { qid } => self.begin_cq(qid, None),
            _ => Ok(()),
        }
    }

    // Opens or closes a submission queue, and counts it with its completion queue.
    fn turn_sq(&mut self, q: u16, ring: Option<Ring>) -> Result<(), AuditError>
        ensures { OnOk result (TurnsSq self.old self.new q ring) }
    {
        let sq = self.sq(q);
        if let Some(ring) = ring {
            self.join(ring.cqid)?;
        }
        if let Some(ring) = sq.ring {
            self.part(ring.cqid)?;
        }
        self.begin_sq(q, ring)
    }

    fn join(&mut self, q: u16) -> Result<(), AuditError>
        ensures { OnOk result (PutsCq self.old self.new q (cq_joined (cq_at self.old q))) }
    {
        let mut cq = self.cq(q);
        cq.joined = next(cq.joined)?;
        self.put_cq(q, cq)
    }

    fn part(&mut self, q: u16) -> Result<(), AuditError>
        ensures { OnOk result (PutsCq self.old self.new q (cq_parted (cq_at self.old q))) }
    {
        let mut cq = self.cq(q);
        cq.parted = next(cq.parted)?;
        self.put_cq(q, cq)
    }

    fn begin_sq(&mut self, q: u16, ring: Option<Ring>) -> Result<(), AuditError>
        ensures { OnOk result (BeginsSq self.old self.new q (sq_begun ring (sq_at self.old q))) }
    {
        let mut sq = self.sq(q);
        sq.deleted = ring.is_none() || sq.deleted;
        sq.ring = ring;
        sq.submitted = 0;
        sq.fetched = 0;
        sq.stirred = next(sq.stirred)?;
        self.put_sq(q, sq)?;
        self.commands.remove_queue(q);
        Ok(())
    }

    fn begin_cq(&mut self, q: u16, qsize: Option<u16>) -> Result<(), AuditError>
        ensures { OnOk result (PutsCq self.old self.new q (cq_begun qsize (cq_at self.old q))) }
    {
        let mut cq = self.cq(q);
        cq.qsize = qsize;
        cq.posted = 0;
        cq.consumed = 0;
        cq.early = qsize.is_some() && cq.early;
        self.put_cq(q, cq)
    }

    // Notes what a command that succeeds with this Dword 0 says of the I/O queues.
    fn note(&mut self, done: AdminCommand, dw0: Option<u32>)
        ensures { Notes self.old self.new done dw0 }
    {
        self.admin.created = creates(done) || self.admin.created;
        self.admin.numbers = numbers_by(done, dw0, self.admin.numbers);
    }

    // Counts an event, of which the rules say this.
    fn keep(&mut self, event: &Event, ruled: Verdict) -> Result<(), AuditError>
        ensures { (start : Start) (past : Past) → StandsAt start past self.old → ruled ≡ ruled_at self.old event.now → OnOk result (StandsAt start (event.now ∷ past) self.new) }
    {
        match *event {
            Event::Tail { sq, slot } => self.keep_tail(sq, slot, ruled),
            Event::Head { cq, slot } => self.keep_head(cq, slot, ruled),
            Event::Fetch {
                sq,
                cid,
                command,
                ..
            } => {
                self.keep_fetch(sq, cid, command)?;
                self.ask(asking(sq, command))
            }
            Event::Post { cq, completion, .. } => {
                let asked = answered(self.commands.get(0, completion.cid), &completion);
                let told = self.told(asked, &completion);
                let done = self.done(&completion);
                self.keep_post(cq, &completion)?;
                self.owe(asked, told)?;
                self.answer(asked)?;
                self.turn(done)?;
                self.note(done, completion.dw0);
                Ok(())
            }
        }
    }

    /// Judges the next event. Where the controller breaks a rule nothing changes: the rule is the first that it
    /// breaks, in the order of `Rule`. Any other event counts from then on, and may want memory.
    pub fn judge(&mut self, event: &Event) -> Result<Verdict, AuditError>
        ensures exact { (start : Start) (past : Past) → StandsAt start past self.old → IfOk result (λ v. v ≡ verdict start past event.now) }
        ensures stands { (start : Start) (past : Past) → StandsAt start past self.old → IfOk result (λ v. MatchBool (is_broken v) (self.new ≡ self.old) (StandsAt start (event.now ∷ past) self.new)) }
        ensures told { (start : Start) (past : Past) → StandsAt start past self.old → is_broken (verdict start past event.now) ≡ true → IfErr result (λ e. e ≡ AuditError.TooLong) }
    {
        let ruled = self.ruled(event)?;
        let verdict = self.said(ruled);
        if !verdict.is_broken() {
            self.keep(event, ruled)?;
        }
        Ok(verdict)
    }

    /// Judges the next event, which counts from then on whatever is said of it.
    pub fn judge_on(&mut self, event: &Event) -> Result<Verdict, AuditError>
        ensures exact { (start : Start) (past : Past) → StandsAt start past self.old → IfOk result (λ v. v ≡ verdict start past event.now) }
        ensures stands { (start : Start) (past : Past) → StandsAt start past self.old → OnOk result (StandsAt start (event.now ∷ past) self.new) }
    {
        let ruled = self.ruled(event)?;
        let verdict = self.said(ruled);
        self.keep(event, ruled)?;
        Ok(verdict)
    }

    /// The admin command that the next event answers, whatever the status.
    pub(crate) fn answered_at(&self, event: &Event) -> AdminCommand
        ensures { (start : Start) (past : Past) → StandsAt start past self.now → result ≡ answered_at past event.now }
    {
        match event {
            Event::Post { completion, .. } => {
                answered(self.commands.get(0, completion.cid), completion)
            }
            _ => AdminCommand::Other,
        }
    }

    /// The admin command that the next event carries to its end.
    pub(crate) fn done_at(&self, event: &Event) -> AdminCommand
        ensures { (start : Start) (past : Past) → StandsAt start past self.now → result ≡ done_at past event.now }
    {
        match event {
            Event::Post { completion, .. } => self.done(completion),
            _ => AdminCommand::Other,
        }
    }

    /// Judges the next events in turn, until the controller breaks a rule: which it is, and at which index.
    pub fn judge_run(&mut self, events: &[Event]) -> Result<Option<(usize, Rule)>, AuditError>
        ensures { (start : Start) (past : Past) → StandsAt start past self.old → IfOk result (λ found. MatchOption found (IsLawfulRun start past events.now × StandsAt start (log_after past events.now) self.new) (λ f. IsFirstBroken start past events.now f.0 f.1)) }
    {
        for (i, event) in events.iter().enumerate() {
            if let Verdict::Broken(rule) = self.judge(event)? {
                return Ok(Some((i, rule)));
            }
        }
        Ok(None)
    }
}

/// The next count.
pub(crate) fn next(count: u64) -> Result<u64, AuditError>
    ensures { IfOk result (λ n. n ≡ count + 1) }
{
    match count.checked_add(1) {
        Some(n) => Ok(n),
        None => Err(AuditError::TooLong),
    }
}
