// Durations, and the gaps that rates mean.
ghost use Rattle.std.specs.Prelude.{◌≡◌, ◌≤◌, ◌<◌};
ghost use Rattle.toml.specs.View.{view, table_view};
ghost use Rattle.nvme_model_form.specs.Readings.{Means, seen};
ghost use Rattle.nvme_model_form.specs.Times.{duration_of, duration_at, duration_or_none, gap_of_rate, gap_of, mean_of};
ghost use Rattle.nvme_model_form.specs.declared.times.TheConstants.{SECOND};

use crate::error::{Fault, Kind, ModelError, Refusal, refused};
use crate::key::Key;
use crate::place::{Place, Target};
use crate::values::{bad, value_at, value_in, whole};
use nvme_clock::duration_in;
use nvme_load::Mean;
use toml::{Table, Value};

/// The picoseconds of a second, and the greatest rate in commands a second.
pub(crate) const SECOND: u64 = 1_000_000_000_000;

/// The picoseconds of a duration.
pub(crate) fn duration_of(place: Place, target: Target, value: &Value) -> Result<u64, ModelError>
    ensures { Means result (duration_of (view value.now)) }
{
    let Some(text) = value.as_str() else {
        return Err(ModelError::At(place, target, Fault::Bad(Kind::Duration)));
    };
    match duration_in(text) {
        Ok(time) => Ok(time),
        Err(fault) => {
            let fault = Fault::Refused(Refusal::Duration(fault));
            Err(ModelError::At(place, target, fault))
        }
    }
}

/// The duration at a key that the table has to have.
pub(crate) fn duration_at(place: Place, key: Key, table: &Table) -> Result<u64, ModelError>
    ensures { Means result (duration_at key (table_view table.now)) }
{
    duration_of(place, Target::Key(key), value_at(place, key, table)?)
}

/// The duration at a key that the table may leave out, which is 0 then.
pub(crate) fn duration_or_none(place: Place, key: Key, table: &Table) -> Result<u64, ModelError>
    ensures { Means result (duration_or_none key (table_view table.now)) }
{
    match value_in(key, table) {
        Some(value) => duration_of(place, Target::Key(key), value),
        None => Ok(0),
    }
}

/// The picoseconds between commands of so many a second, rounded to the nearest.
pub(crate) fn gap_of_rate(rate: u64) -> u64
    requires some { 0 < rate }
    requires at_most { rate ≤ SECOND }
    ensures { result ≡ gap_of_rate rate }
{
    (2 * SECOND + rate) / (2 * rate)
}

/// The picoseconds between commands, by a rate or a duration.
pub(crate) fn gap_of(place: Place, key: Key, value: &Value) -> Result<u64, ModelError>
    ensures { Means result (gap_of (view value.now)) }
{
    if value.as_integer().is_some() {
        return Ok(gap_of_rate(whole(place, key, 1, SECOND, value)?));
    }
    if value.as_str().is_none() {
        return Err(bad(place, key, Kind::Gap));
    }
    duration_of(place, Target::Key(key), value)
}

/// The mean of exponential times.
pub(crate) fn mean_of(place: Place, key: Key, picoseconds: u64) -> Result<Mean, ModelError>
    ensures { Means (seen (λ m. m.picoseconds) result) (mean_of picoseconds) }
{
    match Mean::new(picoseconds) {
        Ok(mean) => Ok(mean),
        Err(fault) => Err(refused(place, key, Refusal::Mean(fault))),
    }
}
