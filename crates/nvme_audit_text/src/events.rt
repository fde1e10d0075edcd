// Reads what a line says.
ghost use Rattle.std.specs.Prelude.{◌≡◌, ◌≤◌, length, ok_or, Ok, IfOk};
ghost use Rattle.serde_json.specs.Read.{read};
ghost use Rattle.serde_json.specs.View.{view};
ghost use Rattle.nvme_lines.specs.Lines.{longest_line};
ghost use Rattle.nvme_audit_text.specs.Readings.{Gives, seen_by};
ghost use Rattle.nvme_audit_text.specs.Views.{kept_if, seen_through};
ghost use Rattle.nvme_audit_text.specs.Format.{has, kind_in, tail_in, head_doorbell_in, fetch_fields, fetch_in, completion_fields, post_in, of_trace, arbitration_in, heard_of, arbitration_through, said_of, said_in, data_of, object_in, head_of_line, said_of_line};
ghost use Rattle.nvme_trace.specs.Format.{event_view};
ghost use Rattle.nvme_trace.specs.Judged.{IsObserved};
ghost use Rattle.nvme_audit_text.specs.Picks.{WasObserved};

use crate::entries::{completion_in, entry_in, word_in};
use crate::fault::{Field, Kind, LineFault};
use crate::head::{Head, head_in};
use crate::reading::{maybe_at, number_at, one_at, only};
use crate::views::View;
use nvme_audit::{Completion, Event};
use nvme_entry::admin_of;
use nvme_trace::{Basis, TraceEvent};
use serde_json::Value;
use std::alloc::Global;

/// What a line after the head tells.
#[derive(Drop)]
pub enum Said {
    /// Nothing that is looked at.
    Nothing,
    /// An event of queues.
    OfQueues(Event),
    /// A pick or a change of the settings.
    OfArbitration(TraceEvent),
}

impl Said {
    ghost use Rattle.std.specs.Prelude.{◌≡◌};
    ghost use Rattle.nvme_audit_text.specs.Format.{heard_of, event_heard};

    /// The event of queues, if it is one.
    pub(crate) fn event(&self) -> Option<Event>
        ensures { result ≡ event_heard (heard_of self.now) }
    {
        match self {
            Said::OfQueues(event) => Some(*event),
            _ => None,
        }
    }
}

// Whether a line has the field of a kind.
fn has(kind: Kind, line: &Value) -> bool
    ensures { result ≡ has kind (view line.now) }
{
    line.get(kind.name()).is_some()
}

// The kind of a line.
#[tactic(auto, unfolding(crate::specs::Format::kind_in))]
fn kind_in(line: &Value) -> Option<Kind>
    ensures { result ≡ kind_in (view line.now) }
{
    if has(Kind::Tail, line) {
        Some(Kind::Tail)
    } else if has(Kind::Head, line) {
        Some(Kind::Head)
    } else if has(Kind::Fetch, line) {
        Some(Kind::Fetch)
    } else if has(Kind::Post, line) {
        Some(Kind::Post)
    } else if has(Kind::Complete, line) {
        Some(Kind::Complete)
    } else if has(Kind::Start, line) {
        Some(Kind::Start)
    } else if has(Kind::Done, line) {
        Some(Kind::Done)
    } else if has(Kind::Pick, line) {
        Some(Kind::Pick)
    } else if has(Kind::Set, line) {
        Some(Kind::Set)
    } else {
        None
    }
}

// What is looked at.
fn kept_if(looks: bool, told: Option<u16>) -> Option<u16>
    ensures { result ≡ kept_if looks told }
{
    if looks { told } else { None }
}

// What a view leaves of a completion.
fn seen_through(through: &View, completion: Completion) -> Completion
    ensures { result ≡ seen_through through.now completion }
{
    let phase = if through.phases {
        completion.phase
    } else {
        None
    };
    Completion {
        sqhd: kept_if(through.sq_heads, completion.sqhd),
        phase,
        ..completion
    }
}

// A tail doorbell.
#[tactic(auto, unfolding(crate::specs::Format::tail_in))]
fn tail_in(line: &Value) -> Result<Event, LineFault>
    ensures { result ≡ tail_in (view line.now) }
{
    let sq = number_at(line, Field::Of(Kind::Tail), 0xffff)? as u16;
    let slot = number_at(line, Field::Slot, 0xffff)? as u16;
    only(2, line)?;
    Ok(Event::Tail { sq, slot })
}

// A head doorbell.
#[tactic(auto, unfolding(crate::specs::Format::head_doorbell_in))]
fn head_doorbell_in(line: &Value) -> Result<Event, LineFault>
    ensures { result ≡ head_doorbell_in (view line.now) }
{
    let cq = number_at(line, Field::Of(Kind::Head), 0xffff)? as u16;
    let slot = number_at(line, Field::Slot, 0xffff)? as u16;
    only(2, line)?;
    Ok(Event::Head { cq, slot })
}

// The number of fields of a fetch.
fn fetch_fields(line: &Value) -> usize
    ensures { result ≡ fetch_fields (view line.now) }
{
    1 + one_at(Field::Slot, line)
        + one_at(Field::Sqe, line)
        + one_at(Field::Cid, line)
        + one_at(Field::Op, line)
        + one_at(Field::Cdw10, line)
        + one_at(Field::Cdw11, line)
}

// A fetch.
#[tactic(auto, unfolding(crate::specs::Format::fetch_in))]
fn fetch_in(through: &View, line: &Value) -> Result<Event, LineFault>
    ensures { result ≡ fetch_in through.now (view line.now) }
{
    let sq = number_at(line, Field::Of(Kind::Fetch), 0xffff)? as u16;
    let slot = word_in(line, Field::Slot)?;
    let entry = entry_in(line)?;
    only(fetch_fields(line), line)?;
    Ok(Event::Fetch {
        sq,
        slot: kept_if(through.fetch_slots, slot),
        cid: entry.cid,
        command: admin_of(&entry),
    })
}

// The number of fields of a completion.
fn completion_fields(line: &Value) -> usize
    ensures { result ≡ completion_fields (view line.now) }
{
    1 + one_at(Field::Slot, line)
        + one_at(Field::Cqe, line)
        + one_at(Field::Sq, line)
        + one_at(Field::Cid, line)
        + one_at(Field::Status, line)
        + one_at(Field::Sqhd, line)
        + one_at(Field::Phase, line)
        + one_at(Field::Dw0, line)
}

// A completion, of either kind.
#[tactic(auto, unfolding(crate::specs::Format::post_in))]
fn post_in(through: &View, kind: Kind, line: &Value) -> Result<Event, LineFault>
    ensures { result ≡ post_in through.now kind (view line.now) }
{
    let cq = number_at(line, Field::Of(kind), 0xffff)? as u16;
    let slot = word_in(line, Field::Slot)?;
    let completion = completion_in(line)?;
    only(completion_fields(line), line)?;
    Ok(Event::Post {
        cq,
        slot: kept_if(through.post_slots, slot),
        completion: seen_through(through, completion),
    })
}

// A pick or a change of the settings.
fn arbitration_in(line: &Value) -> Result<TraceEvent, LineFault>
    ensures value { seen_by event_view result ≡ arbitration_in (view line.now) }
    ensures observed { IfOk result (λ e. IsObserved (event_view e)) }
{
    match nvme_trace::event_in(Basis::Specification, line) {
        Ok(event) => Ok(event),
        Err(fault) => Err(LineFault::Arbitration(fault)),
    }
}

// What a view leaves of arbitration.
fn arbitration_through(through: &View, event: TraceEvent) -> Said
    requires observed { IsObserved (event_view event) }
    ensures value { heard_of result ≡ arbitration_through through.now (event_view event) }
    ensures observed { WasObserved (heard_of result) }
{
    if through.picks {
        Said::OfArbitration(event)
    } else {
        Said::Nothing
    }
}

// What a line of this kind says. Of completions one kind counts.
#[tactic(auto, unfolding(crate::specs::Format::said_of))]
fn said_of(through: &View, head: &Head, kind: Kind, line: &Value) -> Result<Said, LineFault>
    ensures value { seen_by heard_of result ≡ said_of through.now head.now kind (view line.now) }
    ensures observed { IfOk result (λ said. WasObserved (heard_of said)) }
{
    let posts = head.start.tells.posts;
    let event = match kind {
        Kind::Tail => tail_in(line)?,
        Kind::Head => head_doorbell_in(line)?,
        Kind::Fetch => fetch_in(through, line)?,
        Kind::Post if !head.has_posts => return Err(LineFault::NotTold(Kind::Post)),
        Kind::Post if posts => post_in(through, Kind::Post, line)?,
        Kind::Complete if !posts => post_in(through, Kind::Complete, line)?,
        Kind::Pick | Kind::Set if head.arbitration.is_none() => {
            return Err(LineFault::NoMechanism(kind));
        }
        Kind::Pick if !head.has_picks => return Err(LineFault::NotTold(Kind::Pick)),
        Kind::Pick | Kind::Set => return Ok(arbitration_through(through, arbitration_in(line)?)),
        _ => return Ok(Said::Nothing),
    };
    Ok(Said::OfQueues(event))
}

// What a line after the head says.
#[tactic(auto, unfolding(crate::specs::Format::said_in))]
fn said_in(through: &View, head: &Head, line: &Value) -> Result<Said, LineFault>
    ensures value { seen_by heard_of result ≡ said_in through.now head.now (view line.now) }
    ensures observed { IfOk result (λ said. WasObserved (heard_of said)) }
{
    match kind_in(line) {
        Some(kind) => said_of(through, head, kind, line),
        None => Err(LineFault::NoKind),
    }
}

// The JSON value of a text.
fn value_of(alloc: Global, text: &str) -> Result<Value, LineFault>
    ensures { Gives (seen_by view result) (ok_or (read text.now) LineFault.NotJson) }
{
    match Value::from_str(alloc, text) {
        Ok(value) => Ok(value),
        Err(error) if error.is_memory() => Err(LineFault::NoMemory),
        Err(_) => Err(LineFault::NotJson),
    }
}

// The JSON value of a line.
fn data_of(alloc: Global, line: &[u8]) -> Result<Value, LineFault>
    requires { length line.now ≤ longest_line }
    ensures { Gives (seen_by view result) (data_of line.now) }
{
    match std::str::from_utf8(line) {
        Ok(text) => value_of(alloc, text),
        Err(_) => Err(LineFault::NotUtf8),
    }
}

// That a line is an object.
#[tactic(auto, unfolding(crate::specs::Format::object_in))]
fn object_in(line: &Value) -> Result<(), LineFault>
    ensures { result ≡ object_in (view line.now) }
{
    match line.as_object() {
        Some(_) => Ok(()),
        None => Err(LineFault::NotObject),
    }
}

/// What the first line says, through a view.
#[tactic(auto, unfolding(crate::specs::Format::head_of_line))]
pub fn head_of_line(alloc: Global, through: &View, line: &[u8]) -> Result<Head, LineFault>
    requires { length line.now ≤ longest_line }
    ensures { Gives result (head_of_line through.now line.now) }
{
    let value = data_of(alloc, line)?;
    object_in(&value)?;
    head_in(through, &value)
}

/// What a later line tells.
#[tactic(auto, unfolding(crate::specs::Format::said_of_line))]
pub fn said_of_line(
    alloc: Global,
    through: &View,
    head: &Head,
    line: &[u8],
) -> Result<Said, LineFault>
    requires { length line.now ≤ longest_line }
    ensures value { Gives (seen_by heard_of result) (said_of_line through.now head.now line.now) }
    ensures observed { IfOk result (λ said. WasObserved (heard_of said)) }
{
    let value = data_of(alloc, line)?;
    object_in(&value)?;
    said_in(through, head, &value)
}
