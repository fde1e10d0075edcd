// Reads the head of a log.
ghost use Rattle.std.specs.Prelude.{◌≡◌, ◌≤◌, Ok, IfOk, option_map};
ghost use Rattle.std.specs.List.{list_all, list_any};
ghost use Rattle.serde_json.specs.Find.{as_str};
ghost use Rattle.serde_json.specs.View.{view, items_view};
ghost use Rattle.nvme_audit_text.specs.Readings.{seen_by};
ghost use Rattle.nvme_audit_text.specs.Heads.{is_text, names, is_kind, are_kinds, has_kind, told_in, if_told, posts_by, size_of, size_at, text_from, end_from, unread_in, named, mechanism_from, arbitration_by, arbitration_in, picks_told, head_fields, tells_of, head_in};
ghost use Rattle.nvme_audit_text.specs.Fields.{text_of};
ghost use Rattle.serde_json.specs.Find.{get};

use crate::entries::dword_in;
use crate::fault::{Field, Kind, LineFault};
use crate::reading::{at_least_one, maybe_at, number_at, one_at, only, value_at};
use crate::views::{Completions, View};
use nvme_arbiter::{Mechanism, Settings};
use nvme_audit::{Start, Tells};
use nvme_trace::{Head as Arbitration, mechanism_of};
use serde_json::Value;

/// The first line of a log.
#[derive(Clone, Copy, Debug, PartialEq, Eq)]
pub struct Head {
    /// Where the log starts.
    pub start: Start,
    /// Whether it tells the completions that the controller wrote.
    pub has_posts: bool,
    /// The arbitration mechanism and its settings, where they are told.
    pub arbitration: Option<Arbitration>,
    /// Whether it tells the picks.
    pub has_picks: bool,
}

// Whether a value is this text.
fn is_text(wanted: &str, value: &Value) -> bool
    ensures { result ≡ is_text wanted.now (as_str (view value.now)) }
{
    match value.as_str() {
        Some(text) => text == wanted,
        None => false,
    }
}

// Whether a value is the name of this kind.
fn names(kind: Kind, value: &Value) -> bool
    ensures { result ≡ names kind (view value.now) }
{
    is_text(kind.name(), value)
}

// Whether a value is the name of a kind.
fn is_kind(value: &Value) -> bool
    ensures { result ≡ is_kind (view value.now) }
{
    names(Kind::Tail, value)
        || names(Kind::Head, value)
        || names(Kind::Fetch, value)
        || names(Kind::Post, value)
        || names(Kind::Complete, value)
        || names(Kind::Start, value)
        || names(Kind::Done, value)
        || names(Kind::Pick, value)
}

// Whether each value is the name of a kind.
fn are_kinds(values: &[Value]) -> bool
    ensures { result ≡ are_kinds (items_view values.now) }
{
    values.iter().all(|value| is_kind(value))
}

// Whether a kind is among the values.
fn has_kind(kind: Kind, values: &[Value]) -> bool
    ensures { result ≡ has_kind kind (items_view values.now) }
{
    values.iter().any(|value| names(kind, value))
}

// The kinds of which a head tells all.
#[tactic(auto, unfolding(crate::specs::Heads::told_in))]
fn told_in(line: &Value) -> Result<&[Value], LineFault>
    ensures { seen_by (λ v. items_view v.now) result ≡ told_in (view line.now) }
{
    match value_at(line, Field::Tells)?.as_array() {
        Some(values) if are_kinds(values) => Ok(values.as_slice()),
        _ => Err(LineFault::Bad(Field::Tells)),
    }
}

// Refuses a log that doesn't tell all of a kind.
fn if_told(kind: Kind, told: &[Value]) -> Result<(), LineFault>
    ensures { result ≡ if_told kind (items_view told.now) }
{
    if has_kind(kind, told) {
        Ok(())
    } else {
        Err(LineFault::Untold(kind))
    }
}

// Whether completions count where the controller wrote them.
#[tactic(auto, unfolding(crate::specs::Heads::posts_by))]
fn posts_by(completions: Completions, told: &[Value]) -> Result<bool, LineFault>
    ensures { result ≡ posts_by completions (items_view told.now) }
{
    match completions {
        Completions::AsTold if has_kind(Kind::Post, told) => Ok(true),
        Completions::Posts => {
            if_told(Kind::Post, told)?;
            Ok(true)
        }
        _ => {
            if_told(Kind::Complete, told)?;
            Ok(false)
        }
    }
}

// The size of an admin queue, zero based.
#[tactic(auto, unfolding(crate::specs::Heads::size_at))]
fn size_at(line: &Value, field: Field) -> Result<u16, LineFault>
    ensures { result ≡ size_at field (view line.now) }
{
    let slots = number_at(line, field, 4096)?;
    if slots < 2 {
        Err(LineFault::Bad(field))
    } else {
        Ok((slots - 1) as u16)
    }
}

// Who made the log.
fn maker_in(line: &Value) -> Result<(), LineFault>
    ensures { result ≡ text_from (get (text_of Field.By) (view line.now)) }
{
    match line.get(Field::By.name()) {
        Some(value) if value.as_str().is_none() => Err(LineFault::Bad(Field::By)),
        _ => Ok(()),
    }
}

// How the log ended.
fn end_in(line: &Value) -> Result<(), LineFault>
    ensures { result ≡ end_from (get (text_of Field.End) (view line.now)) }
{
    match line.get(Field::End.name()) {
        Some(value) if !is_text("quiet", value) && !is_text("cut", value) => {
            Err(LineFault::Bad(Field::End))
        }
        _ => Ok(()),
    }
}

// What no rule reads.
#[tactic(auto, unfolding(crate::specs::Heads::unread_in))]
fn unread_in(line: &Value) -> Result<(), LineFault>
    ensures { result ≡ unread_in (view line.now) }
{
    maker_in(line)?;
    end_in(line)?;
    at_least_one(Field::Queues, maybe_at(line, Field::Queues, 65_536)?)?;
    at_least_one(Field::Mqes, maybe_at(line, Field::Mqes, 65_536)?)
}

// The mechanism where it is told.
fn mechanism_in(line: &Value) -> Result<Option<Mechanism>, LineFault>
    ensures { result ≡ mechanism_from (get (text_of Field.Mechanism) (view line.now)) }
{
    let Some(value) = line.get(Field::Mechanism.name()) else {
        return Ok(None);
    };
    match mechanism_of(value) {
        Ok(mechanism) => Ok(Some(mechanism)),
        Err(_) => Err(LineFault::Bad(Field::Mechanism)),
    }
}

// The mechanism with its settings, where they are told.
fn arbitration_by(
    mechanism: Option<Mechanism>,
    cdw11: Option<u32>,
) -> Result<Option<Arbitration>, LineFault>
    ensures { result ≡ arbitration_by mechanism cdw11 }
{
    match (mechanism, cdw11) {
        (None, None) => Ok(None),
        (None, Some(_)) => Err(LineFault::Missing(Field::Mechanism)),
        (Some(_), None) => Err(LineFault::Missing(Field::Settings)),
        (Some(mechanism), Some(cdw11)) => Ok(Some(Arbitration {
            mechanism,
            settings: Settings::from_cdw11(cdw11),
        })),
    }
}

// What the head tells of arbitration.
#[tactic(auto, unfolding(crate::specs::Heads::arbitration_in))]
fn arbitration_in(line: &Value) -> Result<Option<Arbitration>, LineFault>
    ensures { result ≡ arbitration_in (view line.now) }
{
    let mechanism = mechanism_in(line)?;
    arbitration_by(mechanism, dword_in(line, Field::Settings)?)
}

// Whether all picks are told.
fn picks_told(arbitration: &Option<Arbitration>, told: &[Value]) -> Result<bool, LineFault>
    ensures { result ≡ picks_told arbitration.now (items_view told.now) }
{
    let has_picks = has_kind(Kind::Pick, told);
    match arbitration {
        None if has_picks => Err(LineFault::Missing(Field::Mechanism)),
        _ => Ok(has_picks),
    }
}

// The number of fields of a head.
fn head_fields(line: &Value) -> usize
    ensures { result ≡ head_fields (view line.now) }
{
    4 + one_at(Field::By, line)
        + one_at(Field::End, line)
        + one_at(Field::Queues, line)
        + one_at(Field::Mqes, line)
        + one_at(Field::Mechanism, line)
        + one_at(Field::Settings, line)
}

// What is told, through a view.
fn tells_of(through: &View, told: &[Value], posts: bool) -> Tells
    ensures { result ≡ tells_of through.now (items_view told.now) posts }
{
    Tells {
        tails: has_kind(Kind::Tail, told) && through.tails,
        heads: has_kind(Kind::Head, told) && through.heads,
        posts,
    }
}

/// What a head says, through a view.
#[tactic(auto, unfolding(crate::specs::Heads::head_in))]
pub(crate) fn head_in(through: &View, line: &Value) -> Result<Head, LineFault>
    ensures { result ≡ head_in through.now (view line.now) }
{
    if number_at(line, Field::Log, 1)? != 1 {
        return Err(LineFault::Bad(Field::Log));
    }
    let told = told_in(line)?;
    if_told(Kind::Fetch, told)?;
    let posts = posts_by(through.completions, told)?;
    let asqs = size_at(line, Field::Asq)?;
    let acqs = size_at(line, Field::Acq)?;
    unread_in(line)?;
    let arbitration = arbitration_in(line)?;
    let has_picks = picks_told(&arbitration, told)?;
    only(head_fields(line), line)?;
    Ok(Head {
        start: Start {
            tells: tells_of(through, told, posts),
            asqs,
            acqs,
        },
        has_posts: has_kind(Kind::Post, told),
        arbitration,
        has_picks,
    })
}
