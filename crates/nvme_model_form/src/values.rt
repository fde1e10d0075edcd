// Readings of values. A fault is told at the place that is given.
ghost use Rattle.std.specs.Prelude.{◌≡◌, ◌≤◌, IfOk, option_map};
ghost use Rattle.toml.specs.Data.{as_table};
ghost use Rattle.toml.specs.View.{view, table_view};
ghost use Rattle.nvme_model_form.specs.Readings.{Means, seen, is_known, only_keys, value_in, whole, number_or};

use crate::error::{Fault, Kind, ModelError};
use crate::key::Key;
use crate::place::{Place, Target};
use toml::{Table, Value};

/// The greatest whole number of TOML.
pub(crate) const MOST: u64 = 0x7fff_ffff_ffff_ffff;

// Whether the name is that of one of the keys.
fn is_known(keys: &[Key], name: &str) -> bool
    ensures { result ≡ is_known keys.now name.now }
{
    for key in keys {
        if key.name() == name {
            return true;
        }
    }
    false
}

/// That every key of the table is one of these.
#[tactic(auto, unfolding(crate::specs::Readings::only_keys))]
pub(crate) fn only_keys(place: Place, keys: &[Key], table: &Table) -> Result<(), ModelError>
    ensures { Means result (only_keys keys.now (table_view table.now)) }
{
    for (name, _value) in table.iter() {
        if !is_known(keys, name.as_str()) {
            return Err(ModelError::At(place, Target::Table, Fault::Unknown));
        }
    }
    Ok(())
}

/// The value at a key, where the table has it.
pub(crate) fn value_in(key: Key, table: &Table) -> Option<&Value>
    ensures { option_map (λ v. view v.now) result ≡ value_in key (table_view table.now) }
{
    table.get(key.name())
}

/// The value at a key that the table has to have.
pub(crate) fn value_at(place: Place, key: Key, table: &Table) -> Result<&Value, ModelError>
    ensures { Means (seen (λ v. view v.now) result) (value_in key (table_view table.now)) }
{
    match value_in(key, table) {
        Some(value) => Ok(value),
        None => Err(ModelError::At(place, Target::Table, Fault::Missing(key))),
    }
}

/// A value of another kind than this.
pub(crate) fn bad(place: Place, key: Key, kind: Kind) -> ModelError {
    ModelError::At(place, Target::Key(key), Fault::Bad(kind))
}

/// A whole number from low to high.
pub(crate) fn whole(
    place: Place,
    key: Key,
    low: u64,
    high: u64,
    value: &Value,
) -> Result<u64, ModelError>
    ensures value { Means result (whole low high (view value.now)) }
    ensures in_range { IfOk result (λ n. (low ≤ n) × (n ≤ high)) }
{
    let fault = ModelError::At(place, Target::Key(key), Fault::Range(low, high));
    let number = match value.as_integer() {
        Some(number) if number >= 0 => number as u64,
        _ => return Err(fault),
    };
    if number < low || high < number {
        return Err(fault);
    }
    Ok(number)
}

/// A table.
pub(crate) fn table_of(place: Place, key: Key, value: &Value) -> Result<&Table, ModelError>
    ensures { Means (seen (λ t. table_view t.now) result) (as_table (view value.now)) }
{
    match value.as_table() {
        Some(table) => Ok(table),
        None => Err(bad(place, key, Kind::Table)),
    }
}

/// The number at a key that the table may leave out.
#[tactic(auto, unfolding(crate::specs::Readings::number_or))]
pub(crate) fn number_or(
    place: Place,
    key: Key,
    default: u64,
    low: u64,
    high: u64,
    table: &Table,
) -> Result<u64, ModelError>
    requires low_default { low ≤ default }
    requires high_default { default ≤ high }
    ensures value { Means result (number_or key default low high (table_view table.now)) }
    ensures in_range { IfOk result (λ n. (low ≤ n) × (n ≤ high)) }
{
    match value_in(key, table) {
        Some(value) => whole(place, key, low, high, value),
        None => Ok(default),
    }
}
