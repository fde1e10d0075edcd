// Readings of values. A fault is told at the place that is given.
ghost use Rattle.std.specs.Prelude.{◌≡◌, ◌≤◌, IfOk, option_map};
ghost use Rattle.toml.specs.View.{view, array_view, table_view};
ghost use Rattle.nvme_short_form.specs.Readings.{seen, is_known, only_keys, value_in, value_at, whole, array_of, table_of, number_at, number_or};

use crate::error::{Fault, ShortError};
use crate::key::Key;
use crate::place::Place;
use toml::value::Array;
use toml::{Table, Value};

// Whether the name is that of one of the keys.
pub(crate) fn is_known(keys: &[Key], name: &str) -> bool
    ensures { result ≡ is_known keys.now name.now }
{
    for key in keys {
        if key.name() == name {
            return true;
        }
    }
    false
}

// That every key of the table is one of these.
#[tactic(auto, unfolding(crate::specs::Readings::only_keys))]
pub(crate) fn only_keys(place: Place, keys: &[Key], table: &Table) -> Result<(), ShortError>
    ensures { result ≡ only_keys place keys.now (table_view table.now) }
{
    for (name, _value) in table.iter() {
        if !is_known(keys, name.as_str()) {
            return Err(ShortError::At(place, Fault::Unknown));
        }
    }
    Ok(())
}

// The value at a key, where the table has it.
pub(crate) fn value_in(key: Key, table: &Table) -> Option<&Value>
    ensures { option_map (λ v. view v.now) result ≡ value_in key (table_view table.now) }
{
    table.get(key.name())
}

// The value at a key that the table has to have.
pub(crate) fn value_at(place: Place, key: Key, table: &Table) -> Result<&Value, ShortError>
    ensures { seen (λ v. view v.now) result ≡ value_at place key (table_view table.now) }
{
    match value_in(key, table) {
        Some(value) => Ok(value),
        None => Err(ShortError::At(place, Fault::Missing(key))),
    }
}

// A whole number from low to high.
pub(crate) fn whole(
    place: Place,
    key: Key,
    low: u64,
    high: u64,
    value: &Value,
) -> Result<u64, ShortError>
    ensures value { result ≡ whole place key low high (view value.now) }
    ensures in_range { IfOk result (λ n. (low ≤ n) × (n ≤ high)) }
{
    let number = match value.as_integer() {
        Some(number) if number >= 0 => number as u64,
        _ => return Err(ShortError::At(place, Fault::Bad(key))),
    };
    if number < low || high < number {
        return Err(ShortError::At(place, Fault::Bad(key)));
    }
    Ok(number)
}

// An array.
pub(crate) fn array_of(place: Place, key: Key, value: &Value) -> Result<&Array, ShortError>
    ensures { seen (λ v. array_view v.now) result ≡ array_of place key (view value.now) }
{
    match value.as_array() {
        Some(items) => Ok(items),
        None => Err(ShortError::At(place, Fault::Bad(key))),
    }
}

// A table.
pub(crate) fn table_of(place: Place, key: Key, value: &Value) -> Result<&Table, ShortError>
    ensures { seen (λ t. table_view t.now) result ≡ table_of place key (view value.now) }
{
    match value.as_table() {
        Some(table) => Ok(table),
        None => Err(ShortError::At(place, Fault::Bad(key))),
    }
}

// The number at a key that the table has to have.
#[tactic(auto, unfolding(crate::specs::Readings::number_at))]
pub(crate) fn number_at(
    place: Place,
    key: Key,
    low: u64,
    high: u64,
    table: &Table,
) -> Result<u64, ShortError>
    ensures value { result ≡ number_at place key low high (table_view table.now) }
    ensures in_range { IfOk result (λ n. (low ≤ n) × (n ≤ high)) }
{
    whole(place, key, low, high, value_at(place, key, table)?)
}

// The number at a key that the table may leave out.
#[tactic(auto, unfolding(crate::specs::Readings::number_or))]
pub(crate) fn number_or(
    place: Place,
    key: Key,
    default: u64,
    low: u64,
    high: u64,
    table: &Table,
) -> Result<u64, ShortError>
    requires low_default { low ≤ default }
    requires high_default { default ≤ high }
    ensures value { result ≡ number_or place key default low high (table_view table.now) }
    ensures in_range { IfOk result (λ n. (low ≤ n) × (n ≤ high)) }
{
    match value_in(key, table) {
        Some(value) => whole(place, key, low, high, value),
        None => Ok(default),
    }
}
