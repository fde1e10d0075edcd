// The rules, over the facts of the queues and of the command.
ghost use Rattle.std.specs.Prelude.{◌≡◌, ◌+◌, ◌%◌, ◌^◌, ◌≤◌, IfOk, IfErr};
ghost use Rattle.nvme_audit.specs.declared.judge.AuditError.{AuditError};
ghost use Rattle.nvme_audit.specs.Rings.{gap, slots_of, advanced, advanced_where_open, qsize_in, phase_of};
ghost use Rattle.nvme_audit.specs.Host.{is_kept, tail_rules, tail_verdict, head_rules, head_verdict};
ghost use Rattle.nvme_audit.specs.Rules.{is_other, is_other_phase, fetch_rules, fetch_verdict, is_head_of, is_other_head, name_rules, name_verdict, slot_rules, post_verdict};

use crate::event::Completion;
use crate::facts::{Command, Cq, Ring, Sq, Tells};
use crate::judge::AuditError;
use crate::verdict::{Breach, Rule, Verdict};

// How many slots it is from the slot of a count to another, round the ring.
fn gap_from(qsize: u16, count: u64, slot: u16) -> u64
    ensures { result ≡ gap (slots_of qsize) (count % slots_of qsize) slot }
{
    let slots = u64::from(qsize) + 1;
    let from = count % slots;
    let to = u64::from(slot);
    if from <= to {
        to - from
    } else {
        to + slots - from
    }
}

// A count after a doorbell names a slot.
fn advanced(qsize: u16, count: u64, slot: u16) -> Result<u64, AuditError>
    ensures ok { IfOk result (λ n. n ≡ advanced qsize count slot) }
    ensures err { IfErr result (λ e. (e ≡ AuditError.TooLong) × (2 ^ 64 ≤ advanced qsize count slot)) }
{
    let steps = gap_from(qsize, count, slot);
    match count.checked_add(steps) {
        Some(n) => Ok(n),
        None => Err(AuditError::TooLong),
    }
}

/// The same of a queue that may not be open, where nothing counts.
pub fn advanced_where_open(qsize: Option<u16>, count: u64, slot: u16) -> Result<u64, AuditError>
    ensures ok { IfOk result (λ n. n ≡ advanced_where_open qsize count slot) }
    ensures err { IfErr result (λ e. (e ≡ AuditError.TooLong) × (2 ^ 64 ≤ advanced_where_open qsize count slot)) }
{
    match qsize {
        Some(qsize) => advanced(qsize, count, slot),
        None => Ok(count),
    }
}

/// The size of a submission queue, zero based.
pub fn qsize_in(ring: Option<Ring>) -> Option<u16>
    ensures { result ≡ qsize_in ring }
{
    match ring {
        Some(ring) => Some(ring.qsize),
        None => None,
    }
}

fn tail_rules(
    qsize: Option<u16>,
    submitted: u64,
    fetched: u64,
    slot: u16,
) -> Result<Verdict, AuditError>
    ensures ok { IfOk result (λ v. v ≡ tail_rules qsize submitted fetched slot) }
    ensures err { IfErr result (λ e. e ≡ AuditError.TooLong) }
{
    let Some(qsize) = qsize else {
        return Ok(Verdict::Host(Breach::TailRange));
    };
    if qsize < slot {
        return Ok(Verdict::Host(Breach::TailRange));
    }
    let after = advanced(qsize, submitted, slot)?;
    let Some(room) = fetched.checked_add(u64::from(qsize)) else {
        return Err(AuditError::TooLong);
    };
    if room < after {
        Ok(Verdict::Host(Breach::TailFull))
    } else {
        Ok(Verdict::Kept)
    }
}

/// What is said of a tail.
pub fn tail_verdict(sq: &Sq, slot: u16) -> Result<Verdict, AuditError>
    ensures ok { IfOk result (λ v. v ≡ tail_verdict sq.now slot) }
    ensures err { IfErr result (λ e. e ≡ AuditError.TooLong) }
{
    if sq.excused {
        Ok(Verdict::Kept)
    } else {
        tail_rules(qsize_in(sq.ring), sq.submitted, sq.fetched, slot)
    }
}

fn head_rules(
    qsize: Option<u16>,
    early: bool,
    posted: u64,
    consumed: u64,
    slot: u16,
) -> Result<Verdict, AuditError>
    ensures ok { IfOk result (λ v. v ≡ head_rules qsize early posted consumed slot) }
    ensures err { IfErr result (λ e. e ≡ AuditError.TooLong) }
{
    let Some(qsize) = qsize else {
        return Ok(Verdict::Host(Breach::HeadRange));
    };
    let after = advanced(qsize, consumed, slot)?;
    if qsize < slot || (!early && posted < after) {
        Ok(Verdict::Host(Breach::HeadRange))
    } else {
        Ok(Verdict::Kept)
    }
}

/// What is said of a head.
pub fn head_verdict(cq: &Cq, slot: u16) -> Result<Verdict, AuditError>
    ensures ok { IfOk result (λ v. v ≡ head_verdict cq.now slot) }
    ensures err { IfErr result (λ e. e ≡ AuditError.TooLong) }
{
    if cq.excused {
        Ok(Verdict::Kept)
    } else {
        head_rules(cq.qsize, cq.early, cq.posted, cq.consumed, slot)
    }
}

// Whether a slot is told and isn't that of a count.
fn is_other_slot(slot: Option<u16>, qsize: u16, count: u64) -> bool
    ensures { result ≡ is_other slot (count % slots_of qsize) }
{
    match slot {
        Some(slot) => u64::from(slot) != count % (u64::from(qsize) + 1),
        None => false,
    }
}

// Whether a phase tag is told and isn't that of a count.
fn is_other_phase(phase: Option<bool>, qsize: u16, count: u64) -> bool
    ensures { result ≡ is_other_phase phase (phase_of qsize count) }
{
    match phase {
        Some(phase) => phase != (count / (u64::from(qsize) + 1) % 2 == 0),
        None => false,
    }
}

fn fetch_rules(
    tells: &Tells,
    sq: &Sq,
    ring: Option<Ring>,
    slot: Option<u16>,
    is_out: bool,
) -> Verdict
    ensures { result ≡ fetch_rules tells.now sq.now ring slot is_out }
{
    let Some(ring) = ring else {
        return Verdict::Broken(Rule::FetchClosed);
    };
    if tells.tails && sq.submitted <= sq.fetched {
        Verdict::Broken(Rule::FetchBeyondTail)
    } else if is_other_slot(slot, ring.qsize, sq.fetched) {
        Verdict::Broken(Rule::FetchSlot)
    } else if is_out {
        Verdict::Host(Breach::CidReused)
    } else {
        Verdict::Kept
    }
}

/// What is said of a fetch. `is_out` is whether its identifier is that of an outstanding command.
pub fn fetch_verdict(tells: &Tells, sq: &Sq, slot: Option<u16>, is_out: bool) -> Verdict
    ensures { result ≡ fetch_verdict tells.now sq.now slot is_out }
{
    if sq.excused {
        Verdict::Kept
    } else {
        fetch_rules(tells, sq, sq.ring, slot, is_out)
    }
}

// Whether a head is after the own entry of a command and no further than what was fetched.
fn is_head_of(qsize: u16, number: u64, fetched: u64, head: u16) -> bool
    ensures { result ≡ is_head_of qsize number fetched head }
{
    let Some(next) = number.checked_add(1) else {
        return false;
    };
    let steps = gap_from(qsize, next, head);
    match next.checked_add(steps) {
        Some(told) => head <= qsize && told <= fetched,
        None => false,
    }
}

fn is_other_head(qsize: u16, command: Option<Command>, fetched: u64, head: Option<u16>) -> bool
    ensures { result ≡ is_other_head qsize command fetched head }
{
    match (command, head) {
        (Some(command), Some(head)) => !is_head_of(qsize, command.number, fetched, head),
        _ => false,
    }
}

fn name_rules(
    cqid: u16,
    sq: &Sq,
    ring: Option<Ring>,
    command: Option<Command>,
    head: Option<u16>,
) -> Verdict
    ensures { result ≡ name_rules cqid sq.now ring command head }
{
    let Some(ring) = ring else {
        let rule = if sq.deleted {
            Rule::PostClosed
        } else {
            Rule::Life
        };
        return Verdict::Broken(rule);
    };
    if ring.cqid != cqid {
        Verdict::Broken(Rule::CqWrong)
    } else if command.is_none() {
        Verdict::Broken(Rule::Life)
    } else if is_other_head(ring.qsize, command, sq.fetched, head) {
        Verdict::Broken(Rule::Sqhd)
    } else {
        Verdict::Kept
    }
}

// What is said of the name and the head that a completion tells.
fn name_verdict(
    tells: &Tells,
    cqid: u16,
    sq: &Sq,
    command: Option<Command>,
    head: Option<u16>,
) -> Verdict
    ensures { result ≡ name_verdict tells.now cqid sq.now command head }
{
    if sq.excused || (!tells.posts && sq.deleted) {
        Verdict::Kept
    } else {
        name_rules(cqid, sq, sq.ring, command, head)
    }
}

// What is said of the slot and the phase tag of a completion.
fn slot_rules(
    tells: &Tells,
    cq: &Cq,
    qsize: Option<u16>,
    slot: Option<u16>,
    phase: Option<bool>,
) -> Verdict
    ensures { result ≡ slot_rules tells.now cq.now qsize slot phase }
{
    let Some(qsize) = qsize else {
        return if !tells.posts || cq.answered < cq.asked {
            Verdict::Kept
        } else {
            Verdict::Broken(Rule::PostClosed)
        };
    };
    if cq.early {
        Verdict::Kept
    } else if is_other_slot(slot, qsize, cq.posted) {
        Verdict::Broken(Rule::Slot)
    } else if is_other_phase(phase, qsize, cq.posted) {
        Verdict::Broken(Rule::Phase)
    } else if tells.heads
        && cq
            .consumed
            .checked_add(u64::from(qsize))
            .is_some_and(|full| full <= cq.posted)
    {
        Verdict::Broken(Rule::CqFull)
    } else {
        Verdict::Kept
    }
}

/// What is said of a completion in queue `cqid`, for a submission queue and the outstanding command of its name.
pub fn post_verdict(
    tells: &Tells,
    cqid: u16,
    cq: &Cq,
    sq: &Sq,
    command: Option<Command>,
    slot: Option<u16>,
    completion: &Completion,
) -> Verdict
    ensures { result ≡ post_verdict tells.now cqid cq.now sq.now command slot completion.now }
{
    if cq.excused {
        return Verdict::Kept;
    }
    match slot_rules(tells, cq, cq.qsize, slot, completion.phase) {
        Verdict::Kept => name_verdict(tells, cqid, sq, command, completion.sqhd),
        verdict => verdict,
    }
}
