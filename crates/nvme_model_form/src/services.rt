// How long the device takes.
ghost use Rattle.std.specs.Prelude.{◌≡◌};
ghost use Rattle.toml.specs.View.{view, table_view};
ghost use Rattle.nvme_model_form.specs.Readings.{Means, only_keys, seen};
ghost use Rattle.nvme_model_form.specs.Views.{coming_of, serving_of, shares_of, taking_of};
ghost use Rattle.nvme_model_form.specs.Services.{checked_service, keys_of, service_in, service_of, service_for, services_for, needed};

use crate::error::{Fault, Kind, ModelError};
use crate::key::Key;
use crate::place::{Owner, Place, Target, key_of};
use crate::spread::spread_in;
use crate::tables::{FLUSH_KEYS, SERVICE_KEYS};
use crate::times::{duration_of, duration_or_none};
use crate::values::{only_keys, value_in};
use nvme_load::{Arrivals, Distribution, Mix, Operation, Service, Services};
use std::alloc::Global;
use toml::{Table, Value};

// The table in which the service of an operation stands.
fn outer(owner: Owner) -> Place {
    match owner {
        Owner::Device => Place::Device,
        Owner::Queue(number) => Place::Queue(number),
    }
}

// That a service's table has keys of the operation alone.
fn only_service_keys(place: Place, operation: Operation, table: &Table) -> Result<(), ModelError>
    ensures { Means result (only_keys (keys_of operation) (table_view table.now)) }
{
    match operation {
        Operation::Flush => only_keys(place, &FLUSH_KEYS, table),
        _ => only_keys(place, &SERVICE_KEYS, table),
    }
}

// The service that a table says.
#[tactic(auto, unfolding(crate::specs::Services::service_in))]
fn service_in(
    alloc: Global,
    owner: Owner,
    operation: Operation,
    table: &Table,
) -> Result<Service, ModelError>
    ensures { Means (seen taking_of result) (service_in operation (table_view table.now)) }
{
    let place = Place::Service(owner, operation);
    only_service_keys(place, operation, table)?;
    let time = spread_in(alloc, place, table)?;
    let per_block = duration_or_none(place, Key::PerBlock, table)?;
    Ok(Service { time, per_block })
}

/// The service of an operation: a duration, or a table.
pub(crate) fn service_of(
    alloc: Global,
    owner: Owner,
    operation: Operation,
    value: &Value,
) -> Result<Service, ModelError>
    ensures { Means (seen taking_of result) (service_of operation (view value.now)) }
{
    if let Some(table) = value.as_table() {
        return service_in(alloc, owner, operation, table);
    }
    let (place, target) = (outer(owner), Target::Key(key_of(operation)));
    if value.as_str().is_none() {
        return Err(ModelError::At(place, target, Fault::Bad(Kind::Service)));
    }
    Ok(Service {
        time: Distribution::Fixed(duration_of(place, target, value)?),
        per_block: 0,
    })
}

/// That what a device has of services has no fault.
pub(crate) fn check_service(
    alloc: Global,
    operation: Operation,
    device: &Table,
) -> Result<(), ModelError>
    ensures { Means result (checked_service operation (table_view device.now)) }
{
    if let Some(value) = value_in(key_of(operation), device) {
        let _service = service_of(alloc, Owner::Device, operation, value)?;
    }
    Ok(())
}

// The service of an operation that has so large a share of a queue's commands: the queue's own, or else the device's. An
// operation without a share may have none, and takes no time then.
fn service_for(
    alloc: Global,
    number: usize,
    operation: Operation,
    share: u32,
    queue: &Table,
    device: &Table,
) -> Result<Service, ModelError>
    ensures { Means (seen taking_of result) (service_for operation share (table_view queue.now) (table_view device.now)) }
{
    let key = key_of(operation);
    match (value_in(key, queue), value_in(key, device)) {
        (Some(value), _) => service_of(alloc, Owner::Queue(number), operation, value),
        (None, Some(value)) => service_of(alloc, Owner::Device, operation, value),
        (None, None) if share == 0 => Ok(Service {
            time: Distribution::Fixed(0),
            per_block: 0,
        }),
        (None, None) => Err(ModelError::At(
            Place::Queue(number),
            Target::Table,
            Fault::Missing(key),
        )),
    }
}

// How large a share of a queue's commands needs a service of their operation: none where a list says what they do.
fn needed(arrivals: &Arrivals, share: u32) -> u32
    ensures { result ≡ needed (coming_of arrivals.now) share }
{
    match arrivals {
        Arrivals::Replay(_) => 0,
        _ => share,
    }
}

/// The services of a queue.
#[tactic(auto, unfolding(crate::specs::Services::services_for))]
pub(crate) fn services_for(
    alloc: Global,
    number: usize,
    arrivals: &Arrivals,
    mix: Mix,
    queue: &Table,
    device: &Table,
) -> Result<Services, ModelError>
    ensures { Means (seen serving_of result) (services_for (coming_of arrivals.now) (shares_of mix) (table_view queue.now) (table_view device.now)) }
{
    let reads = needed(arrivals, mix.read);
    let read = service_for(alloc, number, Operation::Read, reads, queue, device)?;
    let writes = needed(arrivals, mix.write);
    let write = service_for(alloc, number, Operation::Write, writes, queue, device)?;
    let flushes = needed(arrivals, mix.flush);
    let flush = service_for(alloc, number, Operation::Flush, flushes, queue, device)?;
    Ok(Services {
        read,
        write,
        flush: flush.time,
    })
}
