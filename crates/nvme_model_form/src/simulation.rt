// How long a simulation goes, and its seed.
ghost use Rattle.std.specs.Prelude.{◌≤◌, ◌<◌, Some};
ghost use Rattle.toml.specs.View.{view, table_view};
ghost use Rattle.nvme_model.specs.declared.model.TheConstants.{MAX_COMMANDS};
ghost use Rattle.nvme_model_form.specs.Readings.{Means, seen};
ghost use Rattle.nvme_model_form.specs.Views.{ending_of};
ghost use Rattle.nvme_model_form.specs.Simulations.{lasting, ending_after, ending_in, lasting_of, lasting_at};

use crate::error::{Fault, ModelError, Refusal, refused};
use crate::key::Key;
use crate::place::{Place, Target};
use crate::tables::SIMULATION_KEYS;
use crate::times::duration_of;
use crate::values::{MOST, number_or, only_keys, table_of, value_in, whole};
use nvme_model::{End, MAX_COMMANDS};
use toml::Table;

/// What the table `simulation` says.
#[derive(Clone, Copy)]
pub(crate) struct Simulation {
    pub(crate) seed: u64,
    pub(crate) end: End,
    pub(crate) warm_up: u64,
}

// The end after so many commands.
fn end_after(commands: u64) -> Result<End, ModelError>
    requires some { 0 < commands }
    requires at_most { commands ≤ MAX_COMMANDS }
    ensures { Means (seen ending_of result) (Some (ending_after commands)) }
{
    match End::after(commands) {
        Ok(end) => Ok(end),
        Err(fault) => Err(refused(Place::Simulation, Key::Commands, Refusal::End(fault))),
    }
}

// The end of a simulation: after so many commands, or at a time.
fn end_in(table: &Table) -> Result<End, ModelError>
    ensures { Means (seen ending_of result) (ending_in (table_view table.now)) }
{
    let place = Place::Simulation;
    let target = Target::Key(Key::Time);
    match (value_in(Key::Commands, table), value_in(Key::Time, table)) {
        (None, None) => end_after(100_000),
        (Some(value), None) => end_after(whole(place, Key::Commands, 1, MAX_COMMANDS, value)?),
        (None, Some(value)) => Ok(End::at(duration_of(place, target, value)?)),
        (Some(_), Some(_)) => {
            let fault = Fault::Beside(Key::Commands);
            Err(ModelError::At(place, target, fault))
        }
    }
}

// The simulation that a table says.
#[tactic(auto, unfolding(crate::specs::Simulations::lasting_of))]
fn simulation_of(table: &Table) -> Result<Simulation, ModelError>
    ensures { Means (seen lasting result) (lasting_of (table_view table.now)) }
{
    let place = Place::Simulation;
    only_keys(place, &SIMULATION_KEYS, table)?;
    let seed = number_or(place, Key::Seed, 1, 0, MOST, table)?;
    let end = end_in(table)?;
    let warm_up = number_or(place, Key::WarmUp, 0, 0, MAX_COMMANDS, table)?;
    Ok(Simulation { seed, end, warm_up })
}

/// The simulation of a file, which may leave it out.
#[tactic(auto, unfolding(crate::specs::Simulations::lasting_at))]
pub(crate) fn simulation_at(file: &Table) -> Result<Simulation, ModelError>
    ensures { Means (seen lasting result) (lasting_at (table_view file.now)) }
{
    match value_in(Key::Simulation, file) {
        Some(value) => simulation_of(table_of(Place::Top, Key::Simulation, value)?),
        None => Ok(Simulation {
            seed: 1,
            end: end_after(100_000)?,
            warm_up: 0,
        }),
    }
}
