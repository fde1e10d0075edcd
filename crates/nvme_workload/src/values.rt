// Readings of values. A flaw is told of the table that is given.
//
// Decided: booleans, floats (1.0 too) and date-times are of the wrong kind for every integer key, and so is an item
// that is no table. An integer beyond 64 bits is not TOML, as the `toml` crate says.
ghost use Rattle.std.specs.Prelude.{◌≡◌, ◌≤◌, false, true, None, IfOk, IfSome, option_map};
ghost use Rattle.toml.specs.View.{view, array_view, table_view};
ghost use Rattle.toml.specs.Data.{get_member};
ghost use Rattle.nvme_workload.specs.Keys.{text_of};
ghost use Rattle.nvme_workload.specs.Readings.{seen, is_known, all_known, only_keys, value_at, whole, array_of, table_of, number_at, number_or};

use crate::flaw::{Flaw, PlanError};
use crate::key::Key;
use crate::place::Spot;
use crate::ranges::Range;
use toml::value::Array;
use toml::{Table, Value};

// Whether the name is that of one of the keys.
fn is_known(keys: &[Key], name: &str) -> bool
    ensures { result ≡ is_known keys.now name.now }
{
    for key in keys {
        if key.name() == name {
            return true;
        }
    }
    false
}

/// The first key of the table, in the order of bytes, that is none of these.
pub(crate) fn unknown_key<'t>(keys: &[Key], table: &'t Table) -> Option<&'t str>
    ensures some { IfSome result (λ _. all_known keys.now (table_view table.now) ≡ false) }
    ensures none { result ≡ None → all_known keys.now (table_view table.now) ≡ true }
{
    for (name, _value) in table.iter() {
        if !is_known(keys, name.as_str()) {
            return Some(name.as_str());
        }
    }
    None
}

// That every key of the table is one of these.
#[tactic(auto, unfolding(crate::specs::Readings::only_keys))]
pub(crate) fn only_keys(spot: Spot, keys: &[Key], table: &Table) -> Result<(), PlanError>
    ensures { result ≡ only_keys spot keys.now (table_view table.now) }
{
    match unknown_key(keys, table) {
        None => Ok(()),
        Some(_) => Err(PlanError::At(spot, Flaw::Unknown)),
    }
}

// The value at a key, where the table has it.
pub(crate) fn find(table: &Table, key: Key) -> Option<&Value>
    ensures { option_map (λ v. view v.now) result ≡ get_member (text_of key) (table_view table.now) }
{
    table.get(key.name())
}

// The value at a key that the table has to have.
pub(crate) fn value_at(spot: Spot, table: &Table, key: Key) -> Result<&Value, PlanError>
    ensures { seen (λ v. view v.now) result ≡ value_at spot key (table_view table.now) }
{
    match find(table, key) {
        Some(value) => Ok(value),
        None => Err(PlanError::At(spot, Flaw::Missing(key))),
    }
}

// A whole number of this range.
pub(crate) fn whole(spot: Spot, value: &Value, key: Key, range: Range) -> Result<u64, PlanError>
    ensures value { result ≡ whole spot key range.low range.high (view value.now) }
    ensures in_range { IfOk result (λ n. (range.low ≤ n) × (n ≤ range.high)) }
{
    let number = match value.as_integer() {
        Some(number) if number >= 0 => number as u64,
        _ => return Err(PlanError::At(spot, Flaw::Bad(key))),
    };
    if number < range.low || range.high < number {
        return Err(PlanError::At(spot, Flaw::Bad(key)));
    }
    Ok(number)
}

// An array.
pub(crate) fn array_of(spot: Spot, value: &Value, key: Key) -> Result<&Array, PlanError>
    ensures { seen (λ v. array_view v.now) result ≡ array_of spot key (view value.now) }
{
    match value.as_array() {
        Some(items) => Ok(items),
        None => Err(PlanError::At(spot, Flaw::Bad(key))),
    }
}

// A table.
pub(crate) fn table_of(spot: Spot, value: &Value, key: Key) -> Result<&Table, PlanError>
    ensures { seen (λ t. table_view t.now) result ≡ table_of spot key (view value.now) }
{
    match value.as_table() {
        Some(table) => Ok(table),
        None => Err(PlanError::At(spot, Flaw::Bad(key))),
    }
}

// The number at a key that the table has to have.
#[tactic(auto, unfolding(crate::specs::Readings::number_at))]
pub(crate) fn number_at(spot: Spot, table: &Table, key: Key, range: Range) -> Result<u64, PlanError>
    ensures value { result ≡ number_at spot key range.low range.high (table_view table.now) }
    ensures in_range { IfOk result (λ n. (range.low ≤ n) × (n ≤ range.high)) }
{
    whole(spot, value_at(spot, table, key)?, key, range)
}

// The number at a key that the table may leave out.
#[tactic(auto, unfolding(crate::specs::Readings::number_or))]
pub(crate) fn number_or(
    spot: Spot,
    table: &Table,
    key: Key,
    default: u64,
    range: Range,
) -> Result<u64, PlanError>
    requires low_default { range.low ≤ default }
    requires high_default { default ≤ range.high }
    ensures value { result ≡ number_or spot key default range.low range.high (table_view table.now) }
    ensures in_range { IfOk result (λ n. (range.low ≤ n) × (n ≤ range.high)) }
{
    match find(table, key) {
        Some(value) => whole(spot, value, key, range),
        None => Ok(default),
    }
}
