// Reads what a head tells of the state of its arbiter.
ghost use Rattle.std.specs.Prelude.{◌≡◌, true, IfOk};
ghost use Rattle.serde_json.specs.View.{view};
ghost use Rattle.nvme_judge.specs.Starts.{CanBegin, last_fits, used_fits};
ghost use Rattle.nvme_trace.specs.Format.{members_are, one_at, served_in, last_in, last_told, count_at, used_in, used_told, if_last_fits, if_used_fits, head_fields, start_in};

use crate::fault::{Field, LineFault};
use crate::records::{Head, basics_in, field_count, only, whole};
use nvme_arbiter::{ByClass, Kept, Last, Used};
use nvme_judge::{last_fits, used_fits};
use serde_json::Value;

// Refuses what isn't an object of this many members.
fn members_are(count: usize, field: Field, value: &Value) -> Result<(), LineFault>
    ensures { result ≡ members_are count field (view value.now) }
{
    if value.as_object().is_some() && field_count(value) == count {
        Ok(())
    } else {
        Err(LineFault::Bad(field))
    }
}

// 1 where a member of this name is there.
fn one_at(name: &str, value: &Value) -> usize
    ensures { result ≡ one_at name.now (view value.now) }
{
    if value.get(name).is_some() { 1 } else { 0 }
}

// The identifier that was served last, where a member of this name tells it.
#[tactic(auto, unfolding(crate::specs::Format::served_in))]
fn served_in(name: &str, value: &Value) -> Result<Option<u16>, LineFault>
    ensures { result ≡ served_in name.now (view value.now) }
{
    let Some(qid) = value.get(name) else {
        return Ok(None);
    };
    match whole(qid, 0xffff) {
        Some(qid) => Ok(Some(qid as u16)),
        None => Err(LineFault::Bad(Field::Last)),
    }
}

// The identifiers that were served last.
#[tactic(auto, unfolding(crate::specs::Format::last_in))]
fn last_in(value: &Value) -> Result<Last, LineFault>
    ensures { result ≡ last_in (view value.now) }
{
    let all = served_in("all", value)?;
    let admin = served_in("admin", value)?;
    let urgent = served_in("urgent", value)?;
    let high = served_in("high", value)?;
    let medium = served_in("medium", value)?;
    let low = served_in("low", value)?;
    let count = one_at("all", value)
        + one_at("admin", value)
        + one_at("urgent", value)
        + one_at("high", value)
        + one_at("medium", value)
        + one_at("low", value);
    members_are(count, Field::Last, value)?;
    Ok(Last {
        all,
        by_class: ByClass {
            admin,
            urgent,
            high,
            medium,
            low,
        },
    })
}

// Those that a head tells: none where it doesn't.
#[tactic(auto, unfolding(crate::specs::Format::last_told))]
fn last_told(line: &Value) -> Result<Last, LineFault>
    ensures { result ≡ last_told (view line.now) }
{
    match line.get(Field::Last.name()) {
        Some(value) => last_in(value),
        None => Ok(Last {
            all: None,
            by_class: ByClass::same(None),
        }),
    }
}

// How many commands of a level were used: 0 where no member of this name tells it.
#[tactic(auto, unfolding(crate::specs::Format::count_at))]
fn count_at(name: &str, value: &Value) -> Result<u16, LineFault>
    ensures { result ≡ count_at name.now (view value.now) }
{
    let Some(count) = value.get(name) else {
        return Ok(0);
    };
    match whole(count, 0xffff) {
        Some(count) => Ok(count as u16),
        None => Err(LineFault::Bad(Field::Used)),
    }
}

// The commands that were used in the round.
#[tactic(auto, unfolding(crate::specs::Format::used_in))]
fn used_in(value: &Value) -> Result<Used, LineFault>
    ensures { result ≡ used_in (view value.now) }
{
    let high = count_at("high", value)?;
    let medium = count_at("medium", value)?;
    let low = count_at("low", value)?;
    let count = one_at("high", value) + one_at("medium", value) + one_at("low", value);
    members_are(count, Field::Used, value)?;
    Ok(Used { high, medium, low })
}

// Those that a head tells: none where it doesn't.
#[tactic(auto, unfolding(crate::specs::Format::used_told))]
fn used_told(line: &Value) -> Result<Used, LineFault>
    ensures { result ≡ used_told (view line.now) }
{
    match line.get(Field::Used.name()) {
        Some(value) => used_in(value),
        None => Ok(Used {
            high: 0,
            medium: 0,
            low: 0,
        }),
    }
}

// Refuses queues that no arbiter of this head can have served last.
fn if_last_fits(head: &Head, last: &Last) -> Result<(), LineFault>
    ensures value { result ≡ if_last_fits head.now last.now }
    ensures fits { IfOk result (λ _. last_fits head.now.mechanism last.now ≡ true) }
{
    if last_fits(head.mechanism, last) {
        Ok(())
    } else {
        Err(LineFault::Bad(Field::Last))
    }
}

// Refuses what no arbiter of this head can have used in a round.
fn if_used_fits(head: &Head, last: &Last, used: &Used) -> Result<(), LineFault>
    ensures value { result ≡ if_used_fits head.now last.now used.now }
    ensures fits { IfOk result (λ _. used_fits head.now.mechanism head.now.settings last.now used.now ≡ true) }
{
    if used_fits(head.mechanism, &head.settings, last, used) {
        Ok(())
    } else {
        Err(LineFault::Bad(Field::Used))
    }
}

// The number of fields of a head.
fn head_fields(line: &Value) -> usize
    ensures { result ≡ head_fields (view line.now) }
{
    let with_last = if line.get(Field::Last.name()).is_some() {
        4
    } else {
        3
    };
    let with_used = if line.get(Field::Used.name()).is_some() {
        1
    } else {
        0
    };
    with_last + with_used
}

/// What an arbiter keeps where a trace begins.
#[tactic(auto, unfolding(crate::specs::Format::start_in))]
pub(crate) fn start_in(line: &Value) -> Result<Kept, LineFault>
    ensures value { result ≡ start_in (view line.now) }
    ensures fits { IfOk result CanBegin }
{
    let head = basics_in(line)?;
    let last = last_told(line)?;
    if_last_fits(&head, &last)?;
    let used = used_told(line)?;
    if_used_fits(&head, &last, &used)?;
    only(head_fields(line), line)?;
    Ok(Kept {
        mechanism: head.mechanism,
        settings: head.settings,
        last,
        used,
    })
}
