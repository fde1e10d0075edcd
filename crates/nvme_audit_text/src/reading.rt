// Reads the fields of a line.
ghost use Rattle.std.specs.Prelude.{◌≡◌, ◌≤◌, Ok, IfOk, IfSome, OnOk, ok_or};
ghost use Rattle.serde_json.specs.View.{view, members_view};
ghost use Rattle.nvme_audit_text.specs.Readings.{seen_by, only, one_at, value_at, whole, number_at, maybe_at, at_least_one, is_extra, member_count, field_count};

use crate::fault::{Field, LineFault};
use serde_json::{Map, Value};

/// Whether a field of this name is passed over: it begins with x_.
pub(crate) fn is_extra(name: &str) -> bool
    ensures { result ≡ is_extra name.now }
{
    matches!(name.as_bytes(), [b'x', b'_', ..])
}

// The number of members of an object that aren't passed over.
fn member_count(members: &Map<String, Value>) -> usize
    ensures { result ≡ member_count (members_view members.now.entries) }
{
    let mut count = members.len();
    for (name, _) in members.iter() {
        if is_extra(name.as_str()) {
            count -= 1;
        }
    }
    count
}

// The number of fields of a value that aren't passed over.
fn field_count(value: &Value) -> usize
    ensures { result ≡ field_count (view value.now) }
{
    match value.as_object() {
        Some(members) => member_count(members),
        None => 0,
    }
}

/// Refuses a line that doesn't have this number of fields.
pub(crate) fn only(count: usize, line: &Value) -> Result<(), LineFault>
    ensures { result ≡ only count (view line.now) }
{
    if field_count(line) == count {
        Ok(())
    } else {
        Err(LineFault::Unknown)
    }
}

/// 1 where a field is there.
pub(crate) fn one_at(field: Field, line: &Value) -> usize
    ensures value { result ≡ one_at field (view line.now) }
    ensures few { result ≤ 1 }
{
    if line.get(field.name()).is_some() {
        1
    } else {
        0
    }
}

/// The value of a field that the line must have.
pub(crate) fn value_at(line: &Value, field: Field) -> Result<&Value, LineFault>
    ensures { seen_by (λ v. view v.now) result ≡ value_at field (view line.now) }
{
    match line.get(field.name()) {
        Some(value) => Ok(value),
        None => Err(LineFault::Missing(field)),
    }
}

// A whole number, at most `most`.
fn whole(value: &Value, most: u64) -> Option<u64>
    ensures value { result ≡ whole most (view value.now) }
{
    match value.as_u64() {
        Some(number) if number <= most => Some(number),
        _ => None,
    }
}

/// The number of a field.
#[tactic(auto, unfolding(crate::specs::Readings::number_at))]
pub(crate) fn number_at(line: &Value, field: Field, most: u64) -> Result<u64, LineFault>
    ensures value { result ≡ number_at field most (view line.now) }
    ensures in_range { IfOk result (λ n. n ≤ most) }
{
    match whole(value_at(line, field)?, most) {
        Some(number) => Ok(number),
        None => Err(LineFault::Bad(field)),
    }
}

/// The same where the field may be missing.
#[tactic(auto, unfolding(crate::specs::Readings::maybe_at))]
pub(crate) fn maybe_at(line: &Value, field: Field, most: u64) -> Result<Option<u64>, LineFault>
    ensures value { result ≡ maybe_at field most (view line.now) }
    ensures in_range { IfOk result (λ o. IfSome o (λ n. n ≤ most)) }
{
    let Some(value) = line.get(field.name()) else {
        return Ok(None);
    };
    match whole(value, most) {
        Some(number) => Ok(Some(number)),
        None => Err(LineFault::Bad(field)),
    }
}

/// Refuses the number 0.
pub(crate) fn at_least_one(field: Field, number: Option<u64>) -> Result<(), LineFault>
    ensures { result ≡ at_least_one field number }
{
    match number {
        Some(0) => Err(LineFault::Bad(field)),
        _ => Ok(()),
    }
}
