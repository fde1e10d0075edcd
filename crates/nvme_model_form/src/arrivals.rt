// When the commands of a queue come.
ghost use Rattle.toml.specs.View.{view, table_view};
ghost use Rattle.nvme_model_form.specs.Readings.{Means, seen};
ghost use Rattle.nvme_model_form.specs.Views.{coming_of};
ghost use Rattle.nvme_model_form.specs.Arrivals.{poisson_of, regular_of, closed_of, phases_of, bursts_of, drawn_in, arrivals_in, arrivals_at};

use crate::error::{Fault, ModelError, Refusal, refused};
use crate::key::Key;
use crate::place::{Place, Target};
use crate::tables::{ARRIVAL_KEYS, BURST_KEYS, REPLAY_KEYS};
use crate::times::{duration_at, duration_or_none, gap_of, mean_of};
use crate::values::{only_keys, table_of, value_at, value_in, whole};
use nvme_load::{Arrivals, Closed, Gap, Mean, Phases, Replay};
use std::alloc::Global;
use toml::{Table, Value};

/// The most commands that a closed host has out.
pub(crate) const MAX_OUT: u64 = 4_096;

// The mean of exponential gaps, by a rate or a duration.
#[tactic(auto, unfolding(crate::specs::Arrivals::poisson_of))]
fn poisson_of(place: Place, value: &Value) -> Result<Mean, ModelError>
    ensures { Means (seen (λ m. m.picoseconds) result) (poisson_of (view value.now)) }
{
    mean_of(place, Key::Poisson, gap_of(place, Key::Poisson, value)?)
}

// Equal gaps, by a rate or a duration.
#[tactic(auto, unfolding(crate::specs::Arrivals::regular_of))]
fn regular_of(place: Place, value: &Value) -> Result<Arrivals, ModelError>
    ensures { Means (seen coming_of result) (regular_of (view value.now)) }
{
    match Gap::new(gap_of(place, Key::Every, value)?) {
        Ok(gap) => Ok(Arrivals::Regular(gap)),
        Err(fault) => Err(refused(place, Key::Every, Refusal::Arrivals(fault))),
    }
}

// A closed host.
#[tactic(auto, unfolding(crate::specs::Arrivals::closed_of))]
fn closed_of(place: Place, value: &Value, table: &Table) -> Result<Arrivals, ModelError>
    ensures { Means (seen coming_of result) (closed_of (view value.now) (table_view table.now)) }
{
    let depth = whole(place, Key::Closed, 1, MAX_OUT, value)?;
    let think = duration_or_none(place, Key::Think, table)?;
    match Closed::new(depth as u32, think) {
        Ok(closed) => Ok(Arrivals::Closed(closed)),
        Err(fault) => Err(refused(place, Key::Closed, Refusal::Arrivals(fault))),
    }
}

// On and off phases.
fn phases_of(place: Place, mean: Mean, on: u64, off: u64) -> Result<Arrivals, ModelError>
    ensures { Means (seen coming_of result) (phases_of mean.picoseconds on off) }
{
    match Phases::new(mean, on, off) {
        Ok(phases) => Ok(Arrivals::OnOff(phases)),
        Err(fault) => Err(refused(place, Key::On, Refusal::Phases(fault))),
    }
}

// Bursts of a queue.
#[tactic(auto, unfolding(crate::specs::Arrivals::bursts_of))]
fn bursts_of(number: usize, value: &Value) -> Result<Arrivals, ModelError>
    ensures { Means (seen coming_of result) (bursts_of (view value.now)) }
{
    let table = table_of(Place::Arrivals(number), Key::Bursts, value)?;
    let place = Place::Bursts(number);
    only_keys(place, &BURST_KEYS, table)?;
    let mean = poisson_of(place, value_at(place, Key::Poisson, table)?)?;
    let on = duration_at(place, Key::On, table)?;
    let off = duration_at(place, Key::Off, table)?;
    phases_of(place, mean, on, off)
}

// The arrivals of the queue of this number, by the one of four keys that their table has.
#[tactic(auto, unfolding(crate::specs::Arrivals::drawn_in))]
fn drawn_in(number: usize, table: &Table) -> Result<Arrivals, ModelError>
    ensures { Means (seen coming_of result) (drawn_in (table_view table.now)) }
{
    let place = Place::Arrivals(number);
    only_keys(place, &ARRIVAL_KEYS, table)?;
    let poisson = value_in(Key::Poisson, table);
    let every = value_in(Key::Every, table);
    let closed = value_in(Key::Closed, table);
    let bursts = value_in(Key::Bursts, table);
    let think = value_in(Key::Think, table);
    match (poisson, every, closed, bursts, think) {
        (Some(value), None, None, None, None) => {
            Ok(Arrivals::Poisson(poisson_of(place, value)?))
        }
        (None, Some(value), None, None, None) => regular_of(place, value),
        (None, None, Some(value), None, _) => closed_of(place, value, table),
        (None, None, None, Some(value), None) => bursts_of(number, value),
        _ => Err(ModelError::At(place, Target::Table, Fault::NoArrivals)),
    }
}

// The arrivals of the queue of this number, which replays a file where their table has that key.
fn arrivals_in(
    alloc: Global,
    number: usize,
    size: u64,
    table: &Table,
) -> Result<Arrivals, ModelError>
    ensures { Means (seen coming_of result) (arrivals_in (table_view table.now)) }
{
    match value_in(Key::Replay, table) {
        None => drawn_in(number, table),
        Some(_) => {
            only_keys(Place::Replay(number), &REPLAY_KEYS, table)?;
            Ok(Arrivals::Replay(Replay::empty(alloc, size)))
        }
    }
}

/// The arrivals of the queue of this number. The list of one that replays a file has no command yet: `sources_of` says which
/// file that is.
#[tactic(auto, unfolding(crate::specs::Arrivals::arrivals_at))]
pub(crate) fn arrivals_at(
    alloc: Global,
    number: usize,
    size: u64,
    queue: &Table,
) -> Result<Arrivals, ModelError>
    ensures { Means (seen coming_of result) (arrivals_at (table_view queue.now)) }
{
    let place = Place::Queue(number);
    let value = value_at(place, Key::Arrivals, queue)?;
    arrivals_in(alloc, number, size, table_of(place, Key::Arrivals, value)?)
}
