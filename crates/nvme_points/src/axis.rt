// The keys of a sweep and their values.
ghost use Rattle.std.specs.Prelude.{◌≡◌, IfOk};
ghost use Rattle.nvme_points.specs.Values.{lengths_of};

use crate::fault::{SweepFault, add};
use crate::points::points_of;
use std::alloc::{AllocError, Global};

/// The most points of a sweep.
pub const MAX_POINTS: usize = 100_000;

/// A key of a simulation file, and the values that it takes in turn.
#[derive(Debug, Drop)]
pub struct Axis<'a> {
    /// The path of the key, as `device.depth`.
    pub key: &'a str,
    /// Its values, at least one, as they are written.
    pub values: Vec<&'a str>,
}

// Whether a key or a value may have this byte: none of them needs a quote in an answer or in a shell.
fn is_plain(byte: u8) -> bool {
    byte.is_ascii_alphanumeric() || matches!(byte, b'.' | b'_' | b'-' | b':' | b'+')
}

// Whether a text can be a key or a value.
fn is_fit(text: &str) -> bool {
    !text.is_empty() && text.as_bytes().iter().all(|byte| is_plain(*byte))
}

// A value that is there twice.
fn repeated<'a>(alloc: Global, values: &[&'a str]) -> Result<Option<&'a str>, AllocError> {
    let mut sorted = Vec::new(alloc);
    sorted.extend_from_slice(values)?;
    sorted.sort()?;
    let mut before: Option<&'a str> = None;
    for value in sorted {
        if before == Some(value) {
            return Ok(before);
        }
        before = Some(value);
    }
    Ok(None)
}

// What `KEY=A,B,..` says.
fn axis_of<'a>(alloc: Global, words: &'a str) -> Result<Axis<'a>, SweepFault<'a>> {
    let Some((key, list)) = words.split_once('=') else {
        return Err(SweepFault::NoValues(words));
    };
    if !is_fit(key) {
        return Err(SweepFault::NoValues(words));
    }
    let mut values = Vec::new(alloc);
    for value in list.split(',') {
        if !is_fit(value) {
            return Err(SweepFault::BadValue(words));
        }
        add(&mut values, value)?;
    }
    match repeated(alloc, &values)? {
        Some(value) => Err(SweepFault::SameValue(key, value)),
        None => Ok(Axis { key, values }),
    }
}

/// How many values the keys have, that of the last one first: it is the fastest.
pub fn lengths_of(alloc: Global, axes: &[Axis]) -> Result<Vec<usize>, AllocError>
    ensures { IfOk result (λ lengths. lengths.items ≡ lengths_of axes.now) }
{
    axes.iter()
        .rev()
        .map(|axis| axis.values.len())
        .collect(alloc)
}

/// The keys and values of words as `KEY=A,B,..`, in their order. They have at most `MAX_POINTS` combinations.
pub fn axes_of<'a>(alloc: Global, sweeps: &[&'a str]) -> Result<Vec<Axis<'a>>, SweepFault<'a>> {
    let mut axes: Vec<Axis<'a>> = Vec::new(alloc);
    for words in sweeps {
        let axis = axis_of(alloc, words)?;
        if axes.iter().any(|other| other.key == axis.key) {
            return Err(SweepFault::Twice(axis.key));
        }
        add(&mut axes, axis)?;
    }
    match points_of(&lengths_of(alloc, &axes)?) {
        Some(points) if points <= MAX_POINTS => Ok(axes),
        _ => Err(SweepFault::TooManyPoints),
    }
}
