// Reads what a line says.
ghost use Rattle.std.specs.Prelude.{◌≡◌, ◌≤◌, length, None, Ok, option_map, ok_or, IfOk, IfSome};
ghost use Rattle.serde_json.specs.View.{view, members_view};
ghost use Rattle.nvme_trace.specs.Readings.{Gives, seen_by, only, value_at, whole, number_at, flag_at, is_extra, member_count, field_count};
ghost use Rattle.nvme_trace.specs.Format.{mechanism_of, basics_in, class_named, number_of_part, class_of_part, part_count, triple_of, queue_of, queues_of, observation_of, set_in, fresh_in, but_zero, room_in, pick_fields, pick_in, event_in, room_told, room_of_line, data_of, object_in, start_of_line, event_by, event_view, room_view};
ghost use Rattle.nvme_lines.specs.Lines.{longest_line};
ghost use Rattle.serde_json.specs.Read.{read};
ghost use Rattle.nvme_arbiter.specs.Observation.{IsObservation};
ghost use Rattle.nvme_trace.specs.Judged.{IsObserved};
ghost use Rattle.nvme_judge.specs.Starts.{CanBegin};

use crate::basis::Basis;
use crate::fault::{Field, LineFault};
use crate::state::start_in;
use arrayvec::ArrayVec;
use nvme_arbiter::{Class, Kept, Mechanism, Pick, QUEUE_LIMIT, Seen, Settings, is_observation};
use serde_json::{Map, Value};
use std::alloc::Global;

/// The first line of a trace.
#[derive(Clone, Copy, Debug, PartialEq, Eq)]
pub struct Head {
    /// The arbitration mechanism.
    pub mechanism: Mechanism,
    /// The settings before the first event.
    pub settings: Settings,
}

impl Head {
    ghost use Rattle.std.specs.Prelude.{◌≡◌};
    ghost use Rattle.nvme_trace.specs.Format.{head_of_kept};

    /// The head of a trace that begins where an arbiter keeps this.
    pub fn of(start: &Kept) -> Head
        ensures { result ≡ head_of_kept start.now }
    {
        Head {
            mechanism: start.mechanism,
            settings: start.settings,
        }
    }
}

/// A line of a trace after its head.
#[derive(Debug, Drop, PartialEq, Eq)]
pub enum TraceEvent {
    /// A pick, the open queues that were seen, and for how many commands the device had room, where that was a limit.
    Pick {
        seen: ArrayVec<Seen, QUEUE_LIMIT>,
        pick: Pick,
        room: Option<u16>,
    },
    /// A change of the settings.
    Set {
        settings: Settings,
    },
}

// Whether a field of this name is ignored: it begins with x_.
pub(crate) fn is_extra(name: &str) -> bool
    ensures { result ≡ is_extra name.now }
{
    matches!(name.as_bytes(), [b'x', b'_', ..])
}

// The number of members of an object that aren't ignored.
fn member_count(members: &Map<String, Value>) -> usize
    ensures { result ≡ member_count (members_view members.now.entries) }
{
    let mut count = members.len();
    for (name, _) in members.iter() {
        if is_extra(name.as_str()) {
            count -= 1;
        }
    }
    count
}

/// The number of fields of a value that aren't ignored.
pub(crate) fn field_count(value: &Value) -> usize
    ensures { result ≡ field_count (view value.now) }
{
    match value.as_object() {
        Some(members) => member_count(members),
        None => 0,
    }
}

/// Refuses a line that doesn't have this number of fields.
pub(crate) fn only(count: usize, line: &Value) -> Result<(), LineFault>
    ensures { result ≡ only count (view line.now) }
{
    if field_count(line) == count {
        Ok(())
    } else {
        Err(LineFault::Unknown)
    }
}

// The value of a field that the line must have.
fn value_at(line: &Value, field: Field) -> Result<&Value, LineFault>
    ensures { seen_by (λ v. view v.now) result ≡ value_at field (view line.now) }
{
    match line.get(field.name()) {
        Some(value) => Ok(value),
        None => Err(LineFault::Missing(field)),
    }
}

/// A whole number, at most `most`.
pub(crate) fn whole(value: &Value, most: u64) -> Option<u64>
    ensures value { result ≡ whole most (view value.now) }
{
    match value.as_u64() {
        Some(number) if number <= most => Some(number),
        _ => None,
    }
}

// The number of a field.
#[tactic(auto, unfolding(crate::specs::Readings::number_at))]
fn number_at(line: &Value, field: Field, most: u64) -> Result<u64, LineFault>
    ensures value { result ≡ number_at field most (view line.now) }
    ensures in_range { IfOk result (λ n. n ≤ most) }
{
    match whole(value_at(line, field)?, most) {
        Some(number) => Ok(number),
        None => Err(LineFault::Bad(field)),
    }
}

// A field that is true or false.
#[tactic(auto, unfolding(crate::specs::Readings::flag_at))]
fn flag_at(line: &Value, field: Field) -> Result<bool, LineFault>
    ensures { result ≡ flag_at field (view line.now) }
{
    match value_at(line, field)?.as_bool() {
        Some(flag) => Ok(flag),
        None => Err(LineFault::Bad(field)),
    }
}

/// The mechanism that a value names.
pub fn mechanism_of(value: &Value) -> Result<Mechanism, LineFault>
    ensures { result ≡ mechanism_of (view value.now) }
{
    match value.as_str() {
        Some("round-robin") => Ok(Mechanism::RoundRobin),
        Some("weighted") => Ok(Mechanism::Weighted),
        _ => Err(LineFault::Bad(Field::Mechanism)),
    }
}

/// What each head says.
pub(crate) fn basics_in(line: &Value) -> Result<Head, LineFault>
    ensures { result ≡ basics_in (view line.now) }
{
    if number_at(line, Field::Version, 1)? != 1 {
        return Err(LineFault::Bad(Field::Version));
    }
    let mechanism = mechanism_of(value_at(line, Field::Mechanism)?)?;
    let cdw11 = number_at(line, Field::Cdw11, 0xffff_ffff)?;
    Ok(Head {
        mechanism,
        settings: Settings::from_cdw11(cdw11 as u32),
    })
}

// The class of this name.
fn class_named(name: Option<&str>) -> Option<Class>
    ensures { result ≡ class_named (option_map (λ s. s.now) name.entry) }
{
    match name {
        Some("admin") => Some(Class::Admin),
        Some("urgent") => Some(Class::Urgent),
        Some("high") => Some(Class::High),
        Some("medium") => Some(Class::Medium),
        Some("low") => Some(Class::Low),
        _ => None,
    }
}

// The part of an array at an index, as a number of 16 bits.
fn number_of_part(index: usize, parts: &Value) -> Option<u16>
    ensures { result ≡ number_of_part index (view parts.now) }
{
    let number = whole(parts.get(index)?, 0xffff)?;
    Some(number as u16)
}

// The part of an array at an index, as a class.
fn class_of_part(index: usize, parts: &Value) -> Option<Class>
    ensures { result ≡ class_of_part index (view parts.now) }
{
    class_named(parts.get(index)?.as_str())
}

// The number of items of an array.
#[tactic(auto, using(crate::proofs::ReadingLemmas::item_count_view))]
fn part_count(parts: &Value) -> Option<usize>
    ensures { result ≡ part_count (view parts.now) }
{
    let items = parts.as_array()?;
    Some(items.len())
}

// An array's first three items as an open queue: identifier, class and count.
#[tactic(auto, unfolding(crate::specs::Format::triple_of))]
fn triple_of(parts: &Value) -> Option<Seen>
    ensures { result ≡ triple_of (view parts.now) }
{
    let qid = number_of_part(0, parts)?;
    let class = class_of_part(1, parts)?;
    let count = number_of_part(2, parts)?;
    Some(Seen { qid, class, count })
}

// An open queue: an array of just these.
#[tactic(auto, unfolding(crate::specs::Format::queue_of))]
fn queue_of(parts: &Value) -> Option<Seen>
    ensures { result ≡ queue_of (view parts.now) }
{
    if part_count(parts)? == 3 {
        triple_of(parts)
    } else {
        None
    }
}

// The open queues of an array.
#[tactic(auto, using(crate::proofs::ReadingLemmas::item_count_view), unfolding(crate::specs::Format::queues_of))]
fn queues_of(value: &Value) -> Option<ArrayVec<Seen, QUEUE_LIMIT>>
    ensures { option_map (λ v. v.items) result ≡ queues_of (view value.now) }
{
    let items = value.as_array()?;
    if QUEUE_LIMIT < items.len() {
        return None;
    }
    let mut seen = ArrayVec::new();
    for item in items {
        seen.push(queue_of(item)?);
    }
    Some(seen)
}

// What a pick saw.
#[tactic(auto, unfolding(crate::specs::Format::observation_of))]
fn observation_of(value: &Value) -> Option<ArrayVec<Seen, QUEUE_LIMIT>>
    ensures value { option_map (λ v. v.items) result ≡ observation_of (view value.now) }
    ensures observed { IfSome result (λ v. IsObservation v.items) }
{
    let seen = queues_of(value)?;
    if is_observation(&seen) {
        Some(seen)
    } else {
        None
    }
}

// What a change of the settings says.
#[tactic(auto, unfolding(crate::specs::Format::set_in))]
fn set_in(line: &Value) -> Result<TraceEvent, LineFault>
    ensures value { seen_by event_view result ≡ set_in (view line.now) }
    ensures room { IfOk result (λ e. room_view e ≡ None) }
    ensures observed { IfOk result (λ e. IsObserved (event_view e)) }
{
    let cdw11 = number_at(line, Field::Set, 0xffff_ffff)?;
    only(1, line)?;
    Ok(TraceEvent::Set {
        settings: Settings::from_cdw11(cdw11 as u32),
    })
}

// Whether a pick starts a round: false where that may be missing, and is.
#[tactic(auto, unfolding(crate::specs::Format::fresh_in))]
fn fresh_in(basis: Basis, line: &Value) -> Result<bool, LineFault>
    ensures { result ≡ fresh_in basis (view line.now) }
{
    if basis == Basis::Specification && line.get(Field::Fresh.name()).is_none() {
        Ok(false)
    } else {
        flag_at(line, Field::Fresh)
    }
}

// A whole number from 1 to 65,535.
fn but_zero(value: &Value) -> Option<u16>
    ensures { result ≡ but_zero (whole 65535 (view value.now)) }
{
    match whole(value, 0xffff)? {
        0 => None,
        number => Some(number as u16),
    }
}

// For how many commands the device had room, where that is told.
#[tactic(auto, unfolding(crate::specs::Format::room_in))]
fn room_in(line: &Value) -> Result<Option<u16>, LineFault>
    ensures { result ≡ room_in (view line.now) }
{
    let Some(value) = line.get(Field::Room.name()) else {
        return Ok(None);
    };
    match but_zero(value) {
        Some(room) => Ok(Some(room)),
        None => Err(LineFault::Bad(Field::Room)),
    }
}

// The number of fields of a pick.
fn pick_fields(line: &Value) -> usize
    ensures { result ≡ pick_fields (view line.now) }
{
    let with_fresh = if line.get(Field::Fresh.name()).is_some() {
        4
    } else {
        3
    };
    let with_room = if line.get(Field::Room.name()).is_some() {
        1
    } else {
        0
    };
    with_fresh + with_room
}

// What a pick says.
#[tactic(auto, unfolding(crate::specs::Format::pick_in))]
fn pick_in(basis: Basis, line: &Value) -> Result<TraceEvent, LineFault>
    ensures value { seen_by event_view result ≡ pick_in basis (view line.now) }
    ensures room { IfOk result (λ e. Ok (room_view e) ≡ room_in (view line.now)) }
    ensures observed { IfOk result (λ e. IsObserved (event_view e)) }
{
    let qid = number_at(line, Field::Pick, 0xffff)? as u16;
    let n = number_at(line, Field::N, 0xffff)? as u16;
    let room = room_in(line)?;
    let fresh = fresh_in(basis, line)?;
    let Some(seen) = observation_of(value_at(line, Field::Seen)?) else {
        return Err(LineFault::NotObservation);
    };
    only(pick_fields(line), line)?;
    Ok(TraceEvent::Pick {
        seen,
        pick: Pick { qid, n, fresh },
        room,
    })
}

/// What the value of a line after the head says.
#[tactic(auto, unfolding(crate::specs::Format::event_in))]
pub fn event_in(basis: Basis, line: &Value) -> Result<TraceEvent, LineFault>
    ensures value { seen_by event_view result ≡ event_in basis (view line.now) }
    ensures room { IfOk result (λ e. Ok (room_view e) ≡ room_told (view line.now)) }
    ensures observed { IfOk result (λ e. IsObserved (event_view e)) }
{
    if line.get(Field::Set.name()).is_some() {
        set_in(line)
    } else {
        pick_in(basis, line)
    }
}

// The JSON value of a text.
fn value_of(alloc: Global, text: &str) -> Result<Value, LineFault>
    ensures { Gives (seen_by view result) (ok_or (read text.now) LineFault.NotJson) }
{
    match Value::from_str(alloc, text) {
        Ok(value) => Ok(value),
        Err(error) if error.is_memory() => Err(LineFault::NoMemory),
        Err(_) => Err(LineFault::NotJson),
    }
}

// The JSON value of a line.
fn data_of(alloc: Global, line: &[u8]) -> Result<Value, LineFault>
    requires { length line.now ≤ longest_line }
    ensures { Gives (seen_by view result) (data_of line.now) }
{
    match std::str::from_utf8(line) {
        Ok(text) => value_of(alloc, text),
        Err(_) => Err(LineFault::NotUtf8),
    }
}

// That a line is an object.
#[tactic(auto, unfolding(crate::specs::Format::object_in))]
fn object_in(line: &Value) -> Result<(), LineFault>
    ensures { result ≡ object_in (view line.now) }
{
    match line.as_object() {
        Some(_) => Ok(()),
        None => Err(LineFault::NotObject),
    }
}

/// What the first line says that the arbiter kept.
#[tactic(auto, unfolding(crate::specs::Format::start_of_line))]
pub(crate) fn start_of_line(alloc: Global, line: &[u8]) -> Result<Kept, LineFault>
    requires { length line.now ≤ longest_line }
    ensures value { Gives result (start_of_line line.now) }
    ensures fits { IfOk result CanBegin }
{
    let value = data_of(alloc, line)?;
    object_in(&value)?;
    start_in(&value)
}

/// What a later line says.
#[tactic(auto, unfolding(crate::specs::Format::event_by))]
pub(crate) fn event_of_line(
    alloc: Global,
    basis: Basis,
    line: &[u8],
) -> Result<TraceEvent, LineFault>
    requires { length line.now ≤ longest_line }
    ensures value { Gives (seen_by event_view result) (event_by basis line.now) }
    ensures room { IfOk result (λ e. room_view e ≡ room_of_line line.now) }
    ensures observed { IfOk result (λ e. IsObserved (event_view e)) }
{
    let value = data_of(alloc, line)?;
    object_in(&value)?;
    event_in(basis, &value)
}
