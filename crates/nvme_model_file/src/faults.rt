// How the first fault of a simulation file is told: where it is in the text, what stands there and what was meant.
use crate::fault::{Flaw, ModelFault};
use nvme_load::Operation;
use nvme_model_form::{
    ARRIVAL_KEYS, BURST_KEYS, DEVICE_KEYS, FILE_KEYS, FLUSH_KEYS, Fault, Key, Kind, MIX_KEYS,
    ModelError, Owner, PAUSE_KEYS, Place, QUEUE_KEYS, REPLAY_KEYS, SERVICE_KEYS, SIMULATION_KEYS,
    Target, key_of,
};
use nvme_short::{PathStep, Spot, found_in, nearest, offset_of, spot_behind, start_of};
use nvme_short_form::ShortError;
use nvme_workload::Found;
use std::alloc::{AllocError, Global};
use toml::{Table, Value};

// The most characters that are kept of an unknown key.
const KEY_CHARACTERS: usize = 100;

/// The fault of bytes that aren't UTF-8. `valid` are those before it.
pub(crate) fn bad_bytes(valid: &[u8]) -> ModelFault {
    ModelFault::NotUtf8(spot_behind(valid, valid.len()))
}

/// The fault of a text that isn't a TOML document.
pub(crate) fn bad_text(text: &str, error: toml::de::Error) -> ModelFault {
    match error.span() {
        Some(span) => {
            let spot = spot_behind(text.as_bytes(), span.start);
            ModelFault::NotToml(spot, error)
        }
        None => ModelFault::NoMemory,
    }
}

// The keys that the table at a place may have.
fn keys_at(place: Place) -> &'static [Key] {
    match place {
        Place::Top => &FILE_KEYS,
        Place::Simulation => &SIMULATION_KEYS,
        Place::Device => &DEVICE_KEYS,
        Place::Pauses => &PAUSE_KEYS,
        Place::Queue(_) => &QUEUE_KEYS,
        Place::Mix(_) => &MIX_KEYS,
        Place::Arrivals(_) => &ARRIVAL_KEYS,
        Place::Replay(_) => &REPLAY_KEYS,
        Place::Bursts(_) => &BURST_KEYS,
        Place::Service(_, Operation::Flush) => &FLUSH_KEYS,
        Place::Service(_, _) => &SERVICE_KEYS,
    }
}

// The words that a value of a kind may be.
fn words_of(kind: Kind) -> &'static [&'static str] {
    match kind {
        Kind::Placing => &["pool", "striped"],
        Kind::Offsets => &["uniform", "sequential"],
        Kind::Form => &["csv", "msr", "alibaba", "blkparse", "fio"],
        _ => &[],
    }
}

// Appends the step to the value at a key.
fn push_key<'a>(path: &mut Vec<PathStep<'a>>, key: Key) -> Result<(), AllocError> {
    path.push(PathStep::At(key.name()))?;
    Ok(())
}

// Appends the path to a queue.
fn push_queue<'a>(path: &mut Vec<PathStep<'a>>, number: usize) -> Result<(), AllocError> {
    push_key(path, Key::Queue)?;
    path.push(PathStep::Item(number.saturating_sub(1)))?;
    Ok(())
}

// Appends the path to a table.
fn push_place<'a>(path: &mut Vec<PathStep<'a>>, place: Place) -> Result<(), AllocError> {
    match place {
        Place::Top => Ok(()),
        Place::Simulation => push_key(path, Key::Simulation),
        Place::Device => push_key(path, Key::Device),
        Place::Pauses => {
            push_key(path, Key::Device)?;
            push_key(path, Key::Pauses)
        }
        Place::Queue(number) => push_queue(path, number),
        Place::Mix(number) => {
            push_queue(path, number)?;
            push_key(path, Key::Mix)
        }
        Place::Arrivals(number) | Place::Replay(number) => {
            push_queue(path, number)?;
            push_key(path, Key::Arrivals)
        }
        Place::Bursts(number) => {
            push_queue(path, number)?;
            push_key(path, Key::Arrivals)?;
            push_key(path, Key::Bursts)
        }
        Place::Service(Owner::Device, operation) => {
            push_key(path, Key::Device)?;
            push_key(path, key_of(operation))
        }
        Place::Service(Owner::Queue(number), operation) => {
            push_queue(path, number)?;
            push_key(path, key_of(operation))
        }
    }
}

// Appends the path from a table to what of it is at fault.
fn push_target<'a>(path: &mut Vec<PathStep<'a>>, target: Target) -> Result<(), AllocError> {
    match target {
        Target::Table => Ok(()),
        Target::Key(key) => push_key(path, key),
        Target::Item(key, index) => {
            push_key(path, key)?;
            path.push(PathStep::Item(index))?;
            Ok(())
        }
    }
}

// The value behind a step.
fn behind<'t>(value: &'t Value, step: &PathStep) -> Option<&'t Value> {
    match (value, step) {
        (Value::Table(table), PathStep::At(name)) => table.get(*name),
        (Value::Array(items), PathStep::Item(index)) => items.get(*index),
        _ => None,
    }
}

// The value to which a path leads.
fn value_at<'t>(document: &'t Table, path: &[PathStep]) -> Option<&'t Value> {
    let mut steps = path.iter();
    let mut value = match steps.next() {
        Some(PathStep::At(name)) => document.get(*name)?,
        _ => return None,
    };
    for step in steps {
        value = behind(value, step)?;
    }
    Some(value)
}

// The table to which a path leads.
fn table_at<'t>(document: &'t Table, path: &[PathStep]) -> Option<&'t Table> {
    if path.is_empty() {
        return Some(document);
    }
    value_at(document, path)?.as_table()
}

// The first key of the table, in the order of bytes, that isn't one of these.
fn unknown_key<'t>(keys: &[Key], table: &'t Table) -> Option<&'t str> {
    for (name, _value) in table.iter() {
        if !keys.iter().any(|key| key.name() == name.as_str()) {
            return Some(name.as_str());
        }
    }
    None
}

// The place in the text to which a path leads.
fn spot_at(
    alloc: Global,
    text: &[u8],
    path: &[PathStep],
    is_value_wanted: bool,
) -> Result<Option<Spot>, AllocError> {
    match offset_of(alloc, text, path, is_value_wanted)? {
        Some(at) => Ok(Some(spot_behind(text, at))),
        None => Ok(None),
    }
}

// The names of keys.
fn names_of(alloc: Global, keys: &[Key]) -> Result<Vec<&'static str>, AllocError> {
    let mut names = Vec::new(alloc);
    for key in keys {
        names.push(key.name())?;
    }
    Ok(names)
}

// The fault of a table that has an unknown key. The path leads to the table.
fn unknown_at<'t>(
    alloc: Global,
    text: &[u8],
    document: &'t Table,
    place: Place,
    path: &mut Vec<PathStep<'t>>,
) -> Result<Flaw, AllocError> {
    let known = keys_at(place);
    let name = match table_at(document, path) {
        Some(table) => unknown_key(known, table).unwrap_or(""),
        None => "",
    };
    path.push(PathStep::At(name))?;
    Ok(Flaw {
        place,
        target: Target::Table,
        fault: Fault::Unknown,
        spot: spot_at(alloc, text, path, false)?,
        key: start_of(alloc, name, KEY_CHARACTERS)?,
        known,
        found: Found::Untold,
        meant: nearest(alloc, name, &names_of(alloc, known)?)?,
    })
}

// The word that may have been meant.
fn meant_by(
    alloc: Global,
    fault: Fault,
    found: &Found,
) -> Result<Option<&'static str>, AllocError> {
    match (fault, found) {
        (Fault::Bad(kind), Found::Text(text)) => nearest(alloc, text.as_str(), words_of(kind)),
        _ => Ok(None),
    }
}

// Whether a fault says what was found.
fn tells_found(fault: Fault) -> bool {
    matches!(fault, Fault::Bad(_) | Fault::Range(..) | Fault::Refused(_))
}

// Another fault at a place.
fn flaw_at(
    alloc: Global,
    text: &[u8],
    document: &Table,
    place: Place,
    target: Target,
    fault: Fault,
) -> Result<Flaw, AllocError> {
    let mut path = Vec::new(alloc);
    push_place(&mut path, place)?;
    if fault == Fault::Unknown {
        return unknown_at(alloc, text, document, place, &mut path);
    }
    push_target(&mut path, target)?;
    let found = if tells_found(fault) {
        found_in(alloc, value_at(document, &path))?
    } else {
        Found::Untold
    };
    let meant = meant_by(alloc, fault, &found)?;
    let is_value_wanted = tells_found(fault);
    Ok(Flaw {
        place,
        target,
        fault,
        spot: spot_at(alloc, text, &path, is_value_wanted)?,
        key: String::new(alloc),
        known: &[],
        found,
        meant,
    })
}

// A fault of the settings.
fn settings_at(alloc: Global, text: &[u8], document: &Table, error: ShortError) -> ModelFault {
    let flaw = nvme_short_form::Flaw {
        error,
        inner: None,
        nth: 0,
    };
    match nvme_short::fault_in(alloc, text, document, flaw) {
        Some(fault) => ModelFault::Settings(fault),
        None => ModelFault::NoMemory,
    }
}

/// A fault of a table, which was read from the text, with what is told of it. `NoMemory` where memory was refused.
pub(crate) fn fault_in(
    alloc: Global,
    text: &[u8],
    document: &Table,
    error: ModelError,
) -> ModelFault {
    match error {
        ModelError::NoMemory => ModelFault::NoMemory,
        ModelError::Settings(place, fault) => {
            settings_at(alloc, text, document, ShortError::At(place, fault))
        }
        ModelError::At(place, target, fault) => {
            match flaw_at(alloc, text, document, place, target, fault) {
                Ok(flaw) => ModelFault::At(flaw),
                Err(_) => ModelFault::NoMemory,
            }
        }
    }
}
