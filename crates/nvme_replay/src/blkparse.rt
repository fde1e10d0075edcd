// The text that blkparse prints by default.
use crate::fault::LineFault;
use crate::fields::{Raw, count_of, number_in, number_of};
use crate::words::Words;
use nvme_load::Operation;

// The places of the words: device, processor, number, seconds, process, action, kind, sector, + and how many sectors.
const DEVICE: usize = 0;

const TIME: usize = 3;

const ACTION: usize = 5;

const KIND: usize = 6;

const SECTOR: usize = 7;

const PLUS: usize = 8;

const SECTORS: usize = 9;

// The nanoseconds of a second.
const SECOND: u64 = 1_000_000_000;

// How many digits tell them.
const DIGITS: usize = 9;

// The two parts of a word around a byte that it has once.
fn parts_of(word: &[u8], separator: u8) -> Option<(&[u8], &[u8])> {
    let mut parts = word.split(|byte| *byte == separator);
    match (parts.next(), parts.next(), parts.next()) {
        (Some(one), Some(other), None) => Some((one, other)),
        _ => None,
    }
}

// The nanoseconds of seconds with nine digits behind the point.
fn nanoseconds_in(word: &[u8]) -> Option<u64> {
    let (seconds, digits) = parts_of(word, b'.')?;
    if digits.len() != DIGITS {
        return None;
    }
    let seconds = number_in(seconds)?.checked_mul(SECOND)?;
    seconds.checked_add(number_in(digits)?)
}

// Whether a word is a device's major and minor number: no other line begins so.
fn is_device(word: &[u8]) -> bool {
    match parts_of(word, b',') {
        Some((major, minor)) => number_in(major).is_some() && number_in(minor).is_some(),
        None => false,
    }
}

// What a kind asks for, of which each letter says something. None where it is neither read nor written, as where blocks are
// discarded.
fn operation_of(kind: &[u8]) -> Option<Operation> {
    if kind.contains(&b'D') {
        None
    } else if kind.contains(&b'R') {
        Some(Operation::Read)
    } else if kind.contains(&b'W') {
        Some(Operation::Write)
    } else {
        None
    }
}

/// The request of a line: one that is queued, and reads or writes sectors. A flush has none.
pub(crate) fn request_of(words: &Words) -> Result<Option<Raw>, LineFault> {
    let is_queued = matches!(words[ACTION], b"Q") && matches!(words[PLUS], b"+");
    if !is_queued || !is_device(words[DEVICE]) {
        return Ok(None);
    }
    let Some(operation) = operation_of(words[KIND]) else {
        return Ok(None);
    };
    let Some(time) = nanoseconds_in(words[TIME]) else {
        return Err(LineFault::Seconds);
    };
    let block = number_of(words[SECTOR], "the sector")?;
    let sectors = number_of(words[SECTORS], "the number of sectors")?;
    Ok(Some(Raw {
        time,
        operation,
        block,
        blocks: count_of(sectors)?,
    }))
}
