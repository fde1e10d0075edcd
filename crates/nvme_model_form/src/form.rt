// The whole of a simulation file.
ghost use Rattle.std.specs.Prelude.{◌≡◌, length, map, Some, IfOk};
ghost use Rattle.toml.specs.View.{table_view};
ghost use Rattle.nvme_model_form.specs.Readings.{Means, seen};
ghost use Rattle.nvme_model_form.specs.Simulations.{lasting_at};
ghost use Rattle.nvme_model_form.specs.Views.{asking_of, running_of, ending_of};
ghost use Rattle.nvme_model_form.specs.Models.{is_simulation, mechanism_in, settings_in, device_in, plan_in, plan_of, queues_of};
ghost use Rattle.nvme_model_form.specs.Queues.{queue_count};

use crate::device::{device_at, device_in, size_in};
use crate::error::{ModelError, Refusal, refused};
use crate::key::Key;
use crate::place::Place;
use crate::queue::queues_in;
use crate::simulation::simulation_at;
use crate::tables::FILE_KEYS;
use crate::values::{only_keys, value_at, value_in, whole};
use nvme_arbiter::Settings;
use nvme_model::Model;
use nvme_short_form::{arbitration_in, mechanism_in};
use std::alloc::Global;
use toml::Table;

/// Whether the table is that of a simulation file: it has the key `device` or `simulation`, whatever stands there.
pub fn is_simulation(table: &Table) -> bool
    ensures { result ≡ is_simulation (table_view table.now) }
{
    value_in(Key::Device, table).is_some() || value_in(Key::Simulation, table).is_some()
}

/// What the table of a simulation file says, or its first fault. Keys that a table may not have are looked for first,
/// then each key is read in the order of the tables; the device comes before the queues.
#[tactic(auto, unfolding(crate::specs::Models::plan_in, crate::specs::Models::queues_of))]
pub fn model_of(alloc: Global, table: &Table) -> Result<Model, ModelError>
    ensures value { Means (seen plan_of result) (plan_in (table_view table.now)) }
    ensures mechanism { IfOk result (λ m. mechanism_in (table_view table.now) ≡ Some m.mechanism) }
    ensures settings { IfOk result (λ m. settings_in (table_view table.now) ≡ Some m.settings) }
    ensures device { IfOk result (λ m. device_in (table_view table.now) ≡ Some (running_of m.device)) }
    ensures queues { IfOk result (λ m. queues_of (table_view table.now) ≡ Some (map asking_of m.queues.items)) }
    ensures count { IfOk result (λ m. queue_count (table_view table.now) ≡ Some (length m.queues.items)) }
    ensures lasting { IfOk result (λ m. lasting_at (table_view table.now) ≡ Some (record { seed = m.seed; ending = ending_of m.end; warm_up = m.warm_up })) }
{
    only_keys(Place::Top, &FILE_KEYS, table)?;
    let version = value_at(Place::Top, Key::Version, table)?;
    let _version = whole(Place::Top, Key::Version, 1, 1, version)?;
    let mechanism = mechanism_in(table)?;
    let arbitration = arbitration_in(nvme_short_form::Place::Top, table)?;
    let settings = Settings::from_cdw11(arbitration);
    let simulation = simulation_at(table)?;
    let device_table = device_at(table)?;
    let device = device_in(alloc, device_table)?;
    let size = size_in(device_table)?;
    let queues = queues_in(alloc, size, device_table, table)?;
    match Model::new(
        mechanism,
        settings,
        device,
        queues,
        simulation.seed,
        simulation.end,
        simulation.warm_up,
    ) {
        Ok(model) => Ok(model),
        Err(fault) => Err(refused(Place::Top, Key::Queue, Refusal::Queues(fault))),
    }
}
