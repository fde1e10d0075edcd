// How a fault is told.
ghost use Rattle.std.specs.Prelude.{◌≡◌, IfOk, IfSome};
ghost use Rattle.nvme_short.specs.Faults.{shown};

use crate::looking::{Seen, Site, other_at, seen_at, unknown_key, value_in};
use crate::near::nearest;
use crate::spot::{Spot, spot_of};
use crate::texts::{expected, words_of};
use nvme_short_form::{FILE_KEYS, Fault, Flaw, Key, Place, ShortError};
use nvme_workload::Found;
use std::alloc::{AllocError, Global};
use std::fmt;
use toml::{Table, Value};

// The most characters that are kept of an unknown key, and of a value.
const KEY_CHARACTERS: usize = 100;

const VALUE_CHARACTERS: usize = 40;

/// Whether a key is one of the table of a short file, whether or not the other form has it too.
pub fn is_short_key(name: &str) -> bool {
    FILE_KEYS.iter().any(|key| key.name() == name)
}

/// What is told in place of what was expected.
#[derive(Clone, Copy, Debug, PartialEq, Eq)]
pub enum Note {
    /// A repeat stands in a repeat.
    Nested,
    /// `cq_depth` stands beside `cq`.
    BesideCq,
    /// A number is that of no queue, of which there are so many.
    NoQueue { number: i64, queues: usize },
}

/// A fault of a short workload file: where it is, and what was expected there.
#[derive(Debug, Drop)]
pub struct ShortFault {
    /// The fault.
    pub fault: Fault,
    /// Where it is.
    pub place: Place,
    /// Where in the text it is, as far as it was found there.
    pub spot: Option<Spot>,
    /// The unknown key, of which at most the first 100 characters are kept; empty with another fault.
    pub key: String,
    /// The keys that may stand there, where a key is unknown.
    pub known: &'static [Key],
    /// What stands there. Of a text at most the first 40 characters are kept.
    pub found: Found,
    /// What is told in place of what was expected.
    pub note: Option<Note>,
    /// The key or the word that may have been meant.
    pub meant: Option<&'static str>,
}

/// The first characters of a text.
pub fn start_of(alloc: Global, text: &str, characters: usize) -> Result<String, AllocError> {
    let mut start = String::new(alloc);
    for character in text.chars().take(characters) {
        start.push(character)?;
    }
    Ok(start)
}

/// What a value is.
pub fn found_in(alloc: Global, value: Option<&Value>) -> Result<Found, AllocError> {
    let found = match value {
        None => Found::Untold,
        Some(Value::Integer(number)) => Found::Integer(*number),
        Some(Value::String(text)) => Found::Text(start_of(alloc, text.as_str(), VALUE_CHARACTERS)?),
        Some(Value::Boolean(true)) => Found::Other("true"),
        Some(Value::Boolean(false)) => Found::Other("false"),
        Some(Value::Array(items)) if items.is_empty() => Found::Other("an empty array"),
        Some(Value::Array(_)) => Found::Other("an array"),
        Some(Value::Table(_)) => Found::Other("a table"),
        Some(_) => Found::Other("a value of another kind"),
    };
    Ok(found)
}

// The first item of the sizes that is none, or what stands in their place.
fn other_size(sizes: &Value) -> &Value {
    match sizes {
        Value::Array(items) => items
            .iter()
            .find(|item| !matches!(item, Value::Integer(size) if 0 < *size))
            .unwrap_or(sizes),
        _ => sizes,
    }
}

// The value at fault.
fn value_at<'t>(
    document: &'t Table,
    site: Site,
    fault: Fault,
    seen: Option<Seen<'t>>,
) -> Option<&'t Value> {
    match (fault, seen) {
        (Fault::Bad(Key::Namespaces), _) => {
            Some(other_size(value_in(document, Key::Namespaces)?))
        }
        (Fault::Bad(key), Some(seen)) => value_in(seen.table, key),
        (Fault::Bad(_), None) => other_at(document, site),
        _ => None,
    }
}

// What is told in place of what was expected, of a fault with this unknown key.
fn note_of(
    document: &Table,
    fault: Fault,
    found: Option<&Value>,
    seen: Option<Seen>,
    key: &str,
) -> Option<Note> {
    match (fault, found, seen) {
        (Fault::Bad(Key::Number), Some(Value::Integer(number)), _) => Some(Note::NoQueue {
            number: *number,
            queues: match value_in(document, Key::Queue) {
                Some(Value::Array(items)) => items.len(),
                _ => 0,
            },
        }),
        (Fault::Missing(Key::Op), _, Some(seen)) if value_in(seen.table, Key::Repeat).is_some() => {
            Some(Note::Nested)
        }
        (Fault::Unknown, _, Some(seen)) if seen.keys.iter().any(|it| it.name() == key) => {
            Some(Note::BesideCq)
        }
        _ => None,
    }
}

// The names of keys.
fn names_of(alloc: Global, keys: &[Key]) -> Result<Vec<&'static str>, AllocError> {
    let mut names = Vec::new(alloc);
    for key in keys {
        names.push(key.name())?;
    }
    Ok(names)
}

// The key or the word that may have been meant.
fn meant_by(
    alloc: Global,
    fault: Fault,
    place: Place,
    key: &str,
    known: &[Key],
    found: &Found,
) -> Result<Option<&'static str>, AllocError> {
    match (fault, found) {
        (Fault::Unknown, _) => nearest(alloc, key, &names_of(alloc, known)?),
        (Fault::Bad(at), Found::Text(text)) => nearest(alloc, text.as_str(), words_of(at, place)),
        _ => Ok(None),
    }
}

// A fault at a site of a short table, with what is told of it. Of the unknown keys it is the one with this index.
fn told_at(
    alloc: Global,
    text: &[u8],
    document: &Table,
    site: Site,
    fault: Fault,
    index: usize,
) -> Result<ShortFault, AllocError>
    ensures { IfOk result (λ f. (f.place ≡ site.place) × (f.fault ≡ fault)) }
{
    let seen = seen_at(document, site);
    let value = value_at(document, site, fault, seen);
    let name = match (fault, seen) {
        (Fault::Unknown, Some(seen)) => unknown_key(seen.fit, seen.table, index).unwrap_or(""),
        _ => "",
    };
    let note = note_of(document, fault, value, seen, name);
    let key = start_of(alloc, name, KEY_CHARACTERS)?;
    let spot = spot_of(alloc, text, site, fault, name, seen.is_some())?;
    let known: &'static [Key] = match (fault, seen) {
        (Fault::Unknown, Some(seen)) => seen.keys,
        _ => &[],
    };
    let found = found_in(alloc, value)?;
    let place = site.place;
    let meant = match note {
        Some(_) => None,
        None => meant_by(alloc, fault, place, key.as_str(), known, &found)?,
    };
    Ok(ShortFault {
        fault,
        place,
        spot,
        key,
        known,
        found,
        note,
        meant,
    })
}

/// One of the faults of a short table, which was read from the text, with what is told of it. `None` where memory was
/// refused.
pub fn fault_in(alloc: Global, text: &[u8], document: &Table, flaw: Flaw) -> Option<ShortFault>
    ensures { IfSome result (λ f. flaw.error ≡ shown f) }
{
    let ShortError::At(place, fault) = flaw.error else {
        return None;
    };
    let site = Site {
        place,
        inner: flaw.inner,
    };
    match told_at(alloc, text, document, site, fault, flaw.nth) {
        Ok(fault) => Some(fault),
        Err(_) => None,
    }
}

impl fmt::Display for Note {
    fn fmt<W: fmt::Write>(&self, f: &mut fmt::Formatter<W>) -> fmt::Result {
        match self {
            Note::Nested => f.write_str("a repeat can't stand in a repeat"),
            Note::BesideCq => f.write_str("cq_depth can't stand beside cq"),
            Note::NoQueue { number, queues: 0 } => write!(f, "queue {number}: there is no queue"),
            Note::NoQueue { number, queues: 1 } => write!(f, "queue {number}: there is 1 queue"),
            Note::NoQueue { number, queues } => {
                write!(f, "queue {number}: there are {queues} queues")
            }
        }
    }
}

impl ShortFault {
    // What was expected of the keys of a table.
    fn write_known<W: fmt::Write>(&self, f: &mut fmt::Formatter<W>) -> fmt::Result {
        write!(f, "{key:?}, expected one of", key = self.key)?;
        for other in self.known.iter() {
            write!(f, " {name}", name = other.name())?;
        }
        match self.meant {
            Some(meant) => write!(f, "; did you mean {meant}?"),
            None => Ok(()),
        }
    }

    // What stands there, and what was expected.
    fn write_expected<W: fmt::Write>(&self, f: &mut fmt::Formatter<W>) -> fmt::Result {
        let what = expected(self.fault, self.place);
        write!(f, "{found}expected {what}", found = self.found)?;
        match self.meant {
            Some(meant) => write!(f, "; did you mean {meant:?}?"),
            None => Ok(()),
        }
    }
}

impl fmt::Display for ShortFault {
    fn fmt<W: fmt::Write>(&self, f: &mut fmt::Formatter<W>) -> fmt::Result {
        let (fault, place) = (self.fault, self.place);
        write!(f, "{fault}: ")?;
        if let Some(spot) = self.spot {
            write!(f, "{spot}: ")?;
        }
        write!(f, "{place}: ")?;
        ShortDetails(self).fmt(f)
    }
}

/// Of a fault of a short workload file: what stands there, and what was expected.
#[derive(Debug, Drop)]
pub struct ShortDetails<'a>(pub &'a ShortFault);

impl fmt::Display for ShortDetails<'_> {
    fn fmt<W: fmt::Write>(&self, f: &mut fmt::Formatter<W>) -> fmt::Result {
        let told = self.0;
        match (told.note, told.fault) {
            (Some(note), _) => write!(f, "{note}"),
            (None, Fault::Unknown) => told.write_known(f),
            (None, Fault::Missing(Key::Mechanism)) => {
                let what = match told.place {
                    Place::Queue(_) => "classes",
                    _ => "weights",
                };
                write!(
                    f,
                    "{what} have no effect under round robin: mechanism = \"weighted\" is missing"
                )
            }
            (None, _) => told.write_expected(f),
        }
    }
}
