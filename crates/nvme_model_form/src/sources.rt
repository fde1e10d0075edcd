// The files that queues replay.
use crate::device::{device_at, size_in};
use crate::error::{Fault, Kind, ModelError};
use crate::key::Key;
use crate::place::{Place, Target};
use crate::values::{bad, value_at, value_in, whole};
use nvme_replay::{Form, Served, Speed, Wanted};
use std::alloc::Global;
use toml::{Table, Value};

// The greatest number of a queue.
const MAX_QUEUE: u64 = 65_535;

/// A file that a queue replays.
#[derive(Debug, Drop)]
pub struct Source {
    /// Its name.
    pub file: String,
    pub form: Form,
    /// The queue whose lines of a log are replayed. Other forms have no queues.
    pub of: u64,
    /// What the queue wants of its requests.
    pub wanted: Wanted,
}

// The name of the file.
fn file_in(alloc: Global, place: Place, table: &Table) -> Result<String, ModelError> {
    match value_at(place, Key::Replay, table)?.as_str() {
        Some(name) => Ok(String::from_str(alloc, name)?),
        None => Err(bad(place, Key::Replay, Kind::File)),
    }
}

// The form of the file.
fn form_in(place: Place, table: &Table) -> Result<Form, ModelError> {
    let name = value_at(place, Key::Form, table)?.as_str().unwrap_or("");
    match Form::named(name) {
        Some(form) => Ok(form),
        None => Err(bad(place, Key::Form, Kind::Form)),
    }
}

// The speed that a value says: a whole number, or a text.
fn speed_of(value: &Value) -> Option<Speed> {
    match (value.as_integer(), value.as_str()) {
        (Some(times), _) if times > 0 => Speed::whole(times as u64),
        (None, Some(text)) => Speed::parse(text),
        _ => None,
    }
}

// How many times as fast as in the file commands come.
fn speed_in(place: Place, table: &Table) -> Result<Speed, ModelError> {
    let Some(value) = value_in(Key::Speed, table) else {
        return Ok(Speed::SAME);
    };
    match speed_of(value) {
        Some(speed) => Ok(speed),
        None => Err(bad(place, Key::Speed, Kind::Speed)),
    }
}

// The queue whose lines of a log are replayed: that of the number of the one that replays them, unless the table says another.
fn of_in(place: Place, number: usize, form: Form, table: &Table) -> Result<u64, ModelError> {
    match (value_in(Key::Queue, table), form) {
        (None, _) => Ok(number as u64),
        (Some(value), Form::Csv) => whole(place, Key::Queue, 1, MAX_QUEUE, value),
        (Some(_), _) => {
            let target = Target::Key(Key::Queue);
            Err(ModelError::At(place, target, Fault::NotCsv))
        }
    }
}

// Whether the queue or the device says how long an operation takes.
fn is_served(key: Key, queue: &Table, device: &Table) -> bool {
    value_in(key, queue).is_some() || value_in(key, device).is_some()
}

// The source of a queue, if it replays a file.
fn source_in(
    alloc: Global,
    number: usize,
    size: u64,
    device: &Table,
    queue: &Table,
) -> Result<Option<Source>, ModelError> {
    let Some(table) = value_in(Key::Arrivals, queue).and_then(|value| value.as_table()) else {
        return Ok(None);
    };
    if value_in(Key::Replay, table).is_none() {
        return Ok(None);
    }
    let place = Place::Replay(number);
    let file = file_in(alloc, place, table)?;
    let form = form_in(place, table)?;
    let speed = speed_in(place, table)?;
    let of = of_in(place, number, form, table)?;
    let served = Served {
        read: is_served(Key::Read, queue, device),
        write: is_served(Key::Write, queue, device),
        flush: is_served(Key::Flush, queue, device),
    };
    let wanted = Wanted {
        queue: number,
        speed,
        size,
        served,
    };
    Ok(Some(Source {
        file,
        form,
        of,
        wanted,
    }))
}

/// The files that the queues of a simulation file replay, in the order of the queues, or the first fault of what is said of
/// them. `model_of` tells the other faults of the table.
pub fn sources_of(alloc: Global, table: &Table) -> Result<Vec<Source>, ModelError> {
    let mut sources = Vec::new(alloc);
    let device = device_at(table)?;
    let size = size_in(device)?;
    let Some(items) = value_at(Place::Top, Key::Queue, table)?.as_array() else {
        return Ok(sources);
    };
    for (index, item) in items.iter().enumerate() {
        let number = index.saturating_add(1);
        let Some(queue) = item.as_table() else {
            continue;
        };
        if let Some(source) = source_in(alloc, number, size, device, queue)? {
            sources.push(source)?;
        }
    }
    Ok(sources)
}
