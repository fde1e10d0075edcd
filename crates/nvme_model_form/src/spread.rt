// How service times are spread.
ghost use Rattle.std.specs.Prelude.{◌≡◌, Some, IfErr, OnOk};
ghost use Rattle.toml.specs.View.{view, items_view, table_view};
ghost use Rattle.nvme_clock.specs.Quantiles.{values_of};
ghost use Rattle.nvme_model_form.specs.Readings.{Means, Refuses, in_turn, seen};
ghost use Rattle.nvme_model_form.specs.Views.{spread_of};
ghost use Rattle.nvme_model_form.specs.Services.{with_time, table_of, quantiles_of, exponential_of, two_points_of, spread_in};

use crate::error::{Fault, Kind, ModelError, Refusal, refused};
use crate::key::Key;
use crate::place::{Place, Target};
use crate::times::{duration_at, duration_of, mean_of};
use crate::values::{MOST, bad, value_at, value_in, whole};
use nvme_clock::{Quantiles, TwoPoints};
use nvme_load::Distribution;
use std::alloc::Global;
use toml::{Table, Value};

// Appends a duration.
#[tactic(auto, unfolding(crate::specs::Services::with_time))]
fn push_time(
    times: &mut Vec<u64>,
    place: Place,
    index: usize,
    item: &Value,
) -> Result<(), ModelError>
    ensures ok { OnOk result (with_time index times.old.items (view item.now) ≡ Some times.new.items) }
    ensures err { IfErr result (λ e. Refuses e (with_time index times.old.items (view item.now))) }
{
    let time = duration_of(place, Target::Item(Key::Quantiles, index), item)?;
    times.push(time)?;
    Ok(())
}

// Appends the durations of an array.
fn push_quantiles(times: &mut Vec<u64>, place: Place, items: &[Value]) -> Result<(), ModelError>
    ensures ok { OnOk result (in_turn with_time 0 times.old.items (items_view items.now) ≡ Some times.new.items) }
    ensures err { IfErr result (λ e. Refuses e (in_turn with_time 0 times.old.items (items_view items.now))) }
{
    for (index, item) in items.iter().enumerate() {
        push_time(times, place, index, item)?;
    }
    Ok(())
}

// The quantiles of an array.
#[tactic(auto, unfolding(crate::specs::Services::quantiles_of))]
fn quantiles_of(alloc: Global, place: Place, value: &Value) -> Result<Quantiles, ModelError>
    ensures { Means (seen values_of result) (quantiles_of (view value.now)) }
{
    let Some(items) = value.as_array() else {
        return Err(bad(place, Key::Quantiles, Kind::Durations));
    };
    let mut times = Vec::new(alloc);
    push_quantiles(&mut times, place, items)?;
    table_of(place, times)
}

// The quantiles of durations.
fn table_of(place: Place, times: Vec<u64>) -> Result<Quantiles, ModelError>
    ensures { Means (seen values_of result) (table_of times.items) }
{
    match Quantiles::new(times) {
        Ok(quantiles) => Ok(quantiles),
        Err(fault) => Err(refused(place, Key::Quantiles, Refusal::Quantiles(fault))),
    }
}

// Exponential times.
#[tactic(auto, unfolding(crate::specs::Services::exponential_of))]
fn exponential_of(place: Place, value: &Value) -> Result<Distribution, ModelError>
    ensures { Means (seen spread_of result) (exponential_of (view value.now)) }
{
    let time = duration_of(place, Target::Key(Key::Exponential), value)?;
    Ok(Distribution::Exponential(mean_of(place, Key::Exponential, time)?))
}

// A usual time, and a rare one once in so many.
#[tactic(auto, unfolding(crate::specs::Services::two_points_of))]
fn two_points_of(place: Place, usual: &Value, table: &Table) -> Result<Distribution, ModelError>
    ensures { Means (seen spread_of result) (two_points_of (view usual.now) (table_view table.now)) }
{
    let usual = duration_of(place, Target::Key(Key::Usual), usual)?;
    let rare = duration_at(place, Key::Rare, table)?;
    let one_in = value_at(place, Key::OneIn, table)?;
    let out_of = whole(place, Key::OneIn, 1, MOST, one_in)?;
    Ok(Distribution::TwoPoints(TwoPoints {
        usual,
        rare,
        times: 1,
        out_of,
    }))
}

/// How the times of a service's table are spread, by the one of four keys that it has.
#[tactic(auto, unfolding(crate::specs::Services::spread_in))]
pub(crate) fn spread_in(
    alloc: Global,
    place: Place,
    table: &Table,
) -> Result<Distribution, ModelError>
    ensures { Means (seen spread_of result) (spread_in (table_view table.now)) }
{
    let fixed = value_in(Key::Fixed, table);
    let exponential = value_in(Key::Exponential, table);
    let usual = value_in(Key::Usual, table);
    let quantiles = value_in(Key::Quantiles, table);
    let rare = value_in(Key::Rare, table);
    let one_in = value_in(Key::OneIn, table);
    match (fixed, exponential, usual, quantiles, rare, one_in) {
        (Some(value), None, None, None, None, None) => {
            let time = duration_of(place, Target::Key(Key::Fixed), value)?;
            Ok(Distribution::Fixed(time))
        }
        (None, Some(value), None, None, None, None) => exponential_of(place, value),
        (None, None, Some(value), None, _, _) => two_points_of(place, value, table),
        (None, None, None, Some(value), None, None) => {
            Ok(Distribution::Quantiles(quantiles_of(alloc, place, value)?))
        }
        _ => Err(ModelError::At(place, Target::Table, Fault::NoService)),
    }
}
