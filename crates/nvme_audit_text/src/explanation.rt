// Writes what is said of a line at which a rule is broken.
ghost use Rattle.std.specs.Prelude.{◌≡◌, ◌+◌};

use crate::audit::{Audit, Broken, Finding};
use crate::names::{
    breach_name, pick_rule_name, rule_name, section_of, section_of_breach, section_of_pick,
};
use crate::picks::PickFinding;
use crate::whole::{Place, WholeAudit};
use nvme_audit::{Breach, Command, Completion, Cq, Event, Rule, Sq, Verdict};
use nvme_trace::{SettingsInWords, put_limits, sentence_of};
use std::fmt;

// How many slots a queue of this size has, zero based.
fn slots_of(qsize: u16) -> u64
    ensures { result ≡ qsize + 1 }
{
    u64::from(qsize) + 1
}

// The slot that a count names in a queue of this size.
fn slot_of(count: u64, qsize: u16) -> u64 {
    count % slots_of(qsize)
}

// Writes a slot where it is told.
fn put_slot<W: fmt::Write>(slot: Option<u16>, f: &mut fmt::Formatter<W>) -> fmt::Result {
    match slot {
        Some(slot) => write!(f, ", slot {slot}"),
        None => Ok(()),
    }
}

// Writes what a completion tells beside its name.
fn put_completion<W: fmt::Write>(
    completion: &Completion,
    f: &mut fmt::Formatter<W>,
) -> fmt::Result {
    let (sct, sc) = (completion.status.sct(), completion.status.sc());
    write!(f, ", status {sct}/{sc:02x}")?;
    if let Some(head) = completion.sqhd {
        write!(f, ", SQHD {head}")?;
    }
    match completion.phase {
        Some(true) => write!(f, ", phase tag 1"),
        Some(false) => write!(f, ", phase tag 0"),
        None => Ok(()),
    }
}

// Writes what happened.
fn put_event<W: fmt::Write>(event: &Event, f: &mut fmt::Formatter<W>) -> fmt::Result {
    match event {
        Event::Tail { sq, slot } => {
            write!(
                f,
                "the tail doorbell of submission queue {sq} names slot {slot}"
            )
        }
        Event::Head { cq, slot } => {
            write!(
                f,
                "the head doorbell of completion queue {cq} names slot {slot}"
            )
        }
        Event::Fetch { sq, slot, cid, .. } => {
            write!(f, "command {cid} is fetched from submission queue {sq}")?;
            put_slot(*slot, f)
        }
        Event::Post {
            cq,
            slot,
            completion,
        } => {
            let (sq, cid) = (completion.sq, completion.cid);
            write!(
                f,
                "completion queue {cq} gets the answer to command {cid} of submission queue {sq}"
            )?;
            put_slot(*slot, f)?;
            put_completion(completion, f)
        }
    }
}

// Writes what was wanted of a fetch.
fn put_wanted_fetch<W: fmt::Write>(rule: Rule, sq: &Sq, f: &mut fmt::Formatter<W>) -> fmt::Result {
    let (submitted, fetched) = (sq.submitted, sq.fetched);
    match (rule, sq.ring) {
        (Rule::FetchSlot, Some(ring)) => {
            let (slot, slots) = (slot_of(fetched, ring.qsize), slots_of(ring.qsize));
            write!(
                f,
                "slot {slot}: {fetched} commands came before, and it has {slots} slots"
            )
        }
        (Rule::FetchBeyondTail, _) => {
            write!(
                f,
                "none: {submitted} commands were announced, and {fetched} fetched"
            )
        }
        _ => write!(f, "none: the submission queue isn't open"),
    }
}

// Writes what was wanted of the place of a completion.
fn put_wanted_place<W: fmt::Write>(rule: Rule, cq: &Cq, f: &mut fmt::Formatter<W>) -> fmt::Result {
    let (posted, consumed) = (cq.posted, cq.consumed);
    let Some(qsize) = cq.qsize else {
        return write!(f, "none: the completion queue isn't open");
    };
    let (slot, slots) = (slot_of(posted, qsize), slots_of(qsize));
    match rule {
        Rule::Slot => {
            write!(
                f,
                "slot {slot}: {posted} completions came before, and it has {slots} slots"
            )
        }
        Rule::Phase => {
            let tag = 1 - posted / slots % 2;
            write!(
                f,
                "phase tag {tag}: {posted} completions came before, and it has {slots} slots"
            )
        }
        _ => {
            write!(
                f,
                "none: {posted} completions came, {consumed} were released, and {qsize} fill it"
            )
        }
    }
}

// Writes what was wanted of the name and the head that a completion tells.
fn put_wanted_name<W: fmt::Write>(
    rule: Rule,
    sq: &Sq,
    command: Option<Command>,
    f: &mut fmt::Formatter<W>,
) -> fmt::Result {
    match (rule, sq.ring, command) {
        (Rule::CqWrong, Some(ring), _) => {
            let cqid = ring.cqid;
            write!(f, "completion queue {cqid}, that of the submission queue")
        }
        (Rule::Sqhd, Some(ring), Some(command)) => {
            let first = slot_of(command.number.saturating_add(1), ring.qsize);
            let (last, slots) = (slot_of(sq.fetched, ring.qsize), slots_of(ring.qsize));
            write!(
                f,
                "SQHD from {first} on to {last}, round the {slots} slots: behind the command, and no further than what was fetched"
            )
        }
        (_, None, _) if sq.deleted => write!(f, "none: the submission queue was deleted"),
        (_, None, _) => write!(f, "none: the submission queue isn't open"),
        _ => write!(f, "an outstanding command: none has this identifier"),
    }
}

// Writes what was wanted of the status of a completion.
fn put_wanted_status<W: fmt::Write>(rule: Rule, f: &mut fmt::Formatter<W>) -> fmt::Result {
    let wanted = match rule {
        Rule::SqdelUnasked => "another status: no Delete names the submission queue",
        Rule::AbortUnasked => "another status: no Abort names the command",
        Rule::AbortUntrue =>
            "bit 0 of Dword 0 set: no command that the Abort names is outstanding, or ended as aborted since it was fetched",
        Rule::StatusForeign => "a status of the command: this one is that of other commands",
        Rule::Features =>
            "possible numbers of queues in Dword 0, the same each time, and before the first I/O queue",
        _ => "a status that is true of some moment since the command was fetched",
    };
    write!(f, "{wanted}")
}

// Writes what was wanted of the controller.
fn put_wanted<W: fmt::Write>(
    rule: Rule,
    finding: &Finding,
    f: &mut fmt::Formatter<W>,
) -> fmt::Result {
    let facts = &finding.facts;
    match (rule, &facts.sq, &facts.cq) {
        (Rule::FetchClosed | Rule::FetchBeyondTail | Rule::FetchSlot, Some(sq), _) => {
            put_wanted_fetch(rule, sq, f)
        }
        (Rule::Slot | Rule::Phase | Rule::CqFull, _, Some(cq)) => put_wanted_place(rule, cq, f),
        (Rule::PostClosed, _, Some(cq)) if cq.qsize.is_none() => put_wanted_place(rule, cq, f),
        (
            Rule::SqdelUnasked
            | Rule::AbortUnasked
            | Rule::AbortUntrue
            | Rule::StatusForeign
            | Rule::StatusCreate
            | Rule::StatusDelete
            | Rule::Features,
            _,
            _,
        ) => put_wanted_status(rule, f),
        (_, Some(sq), _) => put_wanted_name(rule, sq, facts.command, f),
        _ => Ok(()),
    }
}

// Writes the life of a command: that it is outstanding, or not.
fn put_command<W: fmt::Write>(
    sq: u16,
    cid: u16,
    command: Option<Command>,
    f: &mut fmt::Formatter<W>,
) -> fmt::Result {
    match command {
        Some(command) => {
            let number = command.number;
            write!(
                f,
                "\ncommand {cid} of submission queue {sq}: fetched, {number} came before it, and not answered"
            )
        }
        None => write!(
            f,
            "\ncommand {cid} of submission queue {sq}: none is outstanding"
        ),
    }
}

// Writes the state of a submission queue.
fn put_sq<W: fmt::Write>(q: u16, sq: &Sq, f: &mut fmt::Formatter<W>) -> fmt::Result {
    let (submitted, fetched) = (sq.submitted, sq.fetched);
    match sq.ring {
        Some(ring) => {
            let (slots, cqid) = (slots_of(ring.qsize), ring.cqid);
            write!(
                f,
                "\nsubmission queue {q}: {slots} slots, completion queue {cqid}, {submitted} announced, {fetched} fetched"
            )
        }
        None if sq.deleted => write!(f, "\nsubmission queue {q}: deleted"),
        None => write!(f, "\nsubmission queue {q}: not open"),
    }
}

// Writes the state of a completion queue.
fn put_cq<W: fmt::Write>(q: u16, cq: &Cq, f: &mut fmt::Formatter<W>) -> fmt::Result {
    let (posted, consumed) = (cq.posted, cq.consumed);
    match cq.qsize {
        Some(qsize) => {
            let slots = slots_of(qsize);
            write!(
                f,
                "\ncompletion queue {q}: {slots} slots, {posted} completions, {consumed} released"
            )
        }
        None => write!(f, "\ncompletion queue {q}: not open"),
    }
}

// Writes what stood before the event: its command and its queues.
fn put_state<W: fmt::Write>(finding: &Finding, f: &mut fmt::Formatter<W>) -> fmt::Result {
    let facts = &finding.facts;
    let (sq, cq) = match finding.event {
        Event::Tail { sq, .. } => (sq, 0),
        Event::Head { cq, .. } => (0, cq),
        Event::Fetch { sq, cid, .. } => {
            put_command(sq, cid, facts.command, f)?;
            (sq, 0)
        }
        Event::Post { cq, completion, .. } => {
            put_command(completion.sq, completion.cid, facts.command, f)?;
            (completion.sq, cq)
        }
    };
    if let Some(facts) = &facts.sq {
        put_sq(sq, facts, f)?;
    }
    match &facts.cq {
        Some(facts) => put_cq(cq, facts, f),
        None => Ok(()),
    }
}

// Writes a breach of the controller.
fn put_broken<W: fmt::Write>(
    rule: Rule,
    finding: &Finding,
    f: &mut fmt::Formatter<W>,
) -> fmt::Result {
    let (line, name, section) = (finding.line, rule_name(rule), section_of(rule));
    write!(f, "broken: line {line}: {name}\nwhat: ")?;
    put_event(&finding.event, f)?;
    write!(f, "\nwanted: ")?;
    put_wanted(rule, finding, f)?;
    write!(f, "\nwhy: Base Specification, {section}")?;
    put_state(finding, f)
}

// Writes a breach of the host.
fn put_host<W: fmt::Write>(
    breach: Breach,
    finding: &Finding,
    f: &mut fmt::Formatter<W>,
) -> fmt::Result {
    let (line, name, section) = (finding.line, breach_name(breach), section_of_breach(breach));
    write!(f, "host: line {line}: {name}: ")?;
    put_event(&finding.event, f)?;
    write!(f, " (Base Specification, {section})")
}

impl fmt::Display for Finding {
    fn fmt<W: fmt::Write>(&self, f: &mut fmt::Formatter<W>) -> fmt::Result {
        match self.said {
            Verdict::Kept => Ok(()),
            Verdict::Host(breach) => put_host(breach, self, f),
            Verdict::Broken(rule) => put_broken(rule, self, f),
        }
    }
}

impl fmt::Display for PickFinding {
    fn fmt<W: fmt::Write>(&self, f: &mut fmt::Formatter<W>) -> fmt::Result {
        let breach = &self.breach;
        let (line, name) = (self.line, pick_rule_name(breach.rule));
        let (qid, n) = (breach.picked.qid, breach.picked.n);
        let (sentence, section) = (sentence_of(breach.rule), section_of_pick(breach.rule));
        write!(f, "broken: line {line}: {name}")?;
        write!(
            f,
            "\nwhat: {n} commands of submission queue {qid} are picked"
        )?;
        write!(
            f,
            "\nwanted: {sentence}\nwhy: Base Specification, {section}"
        )?;
        put_limits(breach, f)?;
        let settings = SettingsInWords {
            mechanism: breach.mechanism,
            settings: breach.settings,
        };
        write!(f, "\nsettings: {settings}")
    }
}

impl fmt::Display for Broken {
    fn fmt<W: fmt::Write>(&self, f: &mut fmt::Formatter<W>) -> fmt::Result {
        match self {
            Broken::OfQueues(finding) => write!(f, "{finding}"),
            Broken::OfArbitration(finding) => write!(f, "{finding}"),
        }
    }
}

// Writes how many breaches of some kind aren't told.
fn put_more<W: fmt::Write>(who: &str, more: u64, f: &mut fmt::Formatter<W>) -> fmt::Result {
    match more {
        0 => Ok(()),
        more => write!(f, "\n{who}: and {more} more"),
    }
}

// Writes the breaches of the host that are told, and how many more there are.
fn put_hosts<W: fmt::Write>(
    told: &[Finding],
    count: u64,
    f: &mut fmt::Formatter<W>,
) -> fmt::Result {
    for finding in told {
        write!(f, "\n{finding}")?;
    }
    put_more("host", count.saturating_sub(told.len() as u64), f)
}

// Writes that the controller breaks no rule.
fn put_lawful<W: fmt::Write>(lines: u64, f: &mut fmt::Formatter<W>) -> fmt::Result {
    write!(f, "lawful: {lines} lines")
}

impl fmt::Display for Audit {
    fn fmt<W: fmt::Write>(&self, f: &mut fmt::Formatter<W>) -> fmt::Result {
        match &self.broken {
            Some(broken) => write!(f, "{broken}")?,
            None => put_lawful(self.lines, f)?,
        }
        put_hosts(&self.host, self.host_breaches, f)
    }
}

// Writes the breaches of the controller that are told, by their lines.
fn put_all_broken<W: fmt::Write>(audit: &WholeAudit, f: &mut fmt::Formatter<W>) -> fmt::Result {
    let (mut before, mut at) = ("", Place::first());
    for _ in 0..audit.told() {
        let Some(broken) = audit.broken_at(at) else {
            return Ok(());
        };
        write!(f, "{before}{broken}")?;
        (before, at) = ("\n", at.behind(&broken));
    }
    Ok(())
}

impl fmt::Display for WholeAudit {
    fn fmt<W: fmt::Write>(&self, f: &mut fmt::Formatter<W>) -> fmt::Result {
        if self.told() == 0 {
            put_lawful(self.lines, f)?;
        }
        put_all_broken(self, f)?;
        put_more("broken", self.untold(), f)?;
        put_hosts(&self.host.first, self.host.count, f)
    }
}
