// Where in its text a short table is at fault.
use crate::looking::Site;
use crate::scan::{Step, offset_of};
use nvme_short_form::{Fault, Key, Place};
use std::alloc::{AllocError, Global};
use std::fmt;

/// A place in a text. Lines and columns count from 1, and columns count characters.
#[derive(Clone, Copy, Debug, PartialEq, Eq)]
pub struct Spot {
    /// The line.
    pub line: usize,
    /// The column.
    pub column: usize,
}

impl fmt::Display for Spot {
    fn fmt<W: fmt::Write>(&self, f: &mut fmt::Formatter<W>) -> fmt::Result {
        let Spot { line, column } = *self;
        write!(f, "line {line}, column {column}")
    }
}

/// The place behind so many bytes of a text.
pub fn spot_behind(text: &[u8], bytes: usize) -> Spot {
    let mut spot = Spot { line: 1, column: 1 };
    for byte in text.iter().take(bytes) {
        spot = match *byte {
            b'\n' => Spot {
                line: spot.line.saturating_add(1),
                column: 1,
            },
            0x80..=0xbf => spot,
            _ => Spot {
                column: spot.column.saturating_add(1),
                ..spot
            },
        };
    }
    spot
}

// Appends the path to an item of an array.
fn push_item<'a>(path: &mut Vec<Step<'a>>, key: Key, index: usize) -> Result<(), AllocError> {
    path.push(Step::At(key.name()))?;
    path.push(Step::Item(index))?;
    Ok(())
}

// Appends the path to a place.
fn push_place<'a>(path: &mut Vec<Step<'a>>, place: Place) -> Result<(), AllocError> {
    match place {
        Place::Top => Ok(()),
        Place::Queue(number) => push_item(path, Key::Queue, number.saturating_sub(1)),
        Place::Item { queue, item } => {
            push_item(path, Key::Queue, queue.saturating_sub(1))?;
            push_item(path, Key::Script, item)
        }
        Place::Admin(item) => push_item(path, Key::Admin, item),
        Place::Weights => {
            path.push(Step::At(Key::Weights.name()))?;
            Ok(())
        }
        Place::AdminWeights(item) => {
            push_item(path, Key::Admin, item)?;
            path.push(Step::At(Key::Weights.name()))?;
            Ok(())
        }
    }
}

// The key at a place where the fault is.
fn key_at<'a>(place: Place, fault: Fault, key: &'a str, is_seen: bool) -> Option<&'a str> {
    match (fault, place) {
        (Fault::Unknown, _) => Some(key),
        (Fault::Bad(key), _) if is_seen => Some(key.name()),
        (Fault::Limit(key @ (Key::Queue | Key::Namespaces)), _) => Some(key.name()),
        (Fault::Missing(Key::Mechanism), Place::Top) => Some(Key::Weights.name()),
        (Fault::Missing(Key::Mechanism), _) => Some(Key::Class.name()),
        _ => None,
    }
}

/// Where in the text a fault is, at a site whose table was seen or not. `None` where nothing of it was found there.
pub(crate) fn spot_of(
    alloc: Global,
    text: &[u8],
    site: Site,
    fault: Fault,
    key: &str,
    is_seen: bool,
) -> Result<Option<Spot>, AllocError> {
    let mut path = Vec::new(alloc);
    push_place(&mut path, site.place)?;
    if let Some(inner) = site.inner {
        push_item(&mut path, Key::Script, inner)?;
    }
    if let Some(key) = key_at(site.place, fault, key, is_seen) {
        path.push(Step::At(key))?;
    }
    let is_value_wanted = matches!(fault, Fault::Bad(_));
    match offset_of(alloc, text, &path, is_value_wanted)? {
        Some(at) => Ok(Some(spot_behind(text, at))),
        None => Ok(None),
    }
}
