// What is said of a fault for people: what was found in the line, and what was wanted.
use crate::fault::{Field, Kind, LineFault};
use crate::reading::is_extra;
use serde_json::Value;
use std::alloc::{AllocError, Global};

// How many characters of a name or a value are shown.
const SHOWN: usize = 40;

const HEAD: &str =
    "log, tells, asq and acq, and by, end, queues, mqes, mechanism and cdw11 where they are known";

const KINDS: &str = "tail, head, fetch, post, complete, start, done, pick or set";

// The fields that a line of a kind may have.
fn fields_of(kind: Kind) -> &'static [&'static str] {
    match kind {
        Kind::Tail => &["tail", "slot"],
        Kind::Head => &["head", "slot"],
        Kind::Fetch => &["fetch", "slot", "sqe", "cid", "op", "cdw10", "cdw11"],
        Kind::Post => &[
            "post", "slot", "cqe", "sq", "cid", "status", "sqhd", "phase", "dw0",
        ],
        _ => &[
            "complete", "slot", "cqe", "sq", "cid", "status", "sqhd", "phase", "dw0",
        ],
    }
}

const HEAD_FIELDS: &[&str] = &[
    "log",
    "tells",
    "asq",
    "acq",
    "by",
    "end",
    "queues",
    "mqes",
    "mechanism",
    "cdw11",
];

const EVENTS: &[Kind] = &[
    Kind::Tail,
    Kind::Head,
    Kind::Fetch,
    Kind::Post,
    Kind::Complete,
];

// What the value of a field has to be.
fn wanted(field: Field) -> &'static str {
    match field {
        Field::Log => "1",
        Field::Tells => {
            "an array of kinds: \"tail\", \"head\", \"fetch\", \"post\", \"complete\", \"start\", \"done\", \"pick\""
        }
        Field::Asq | Field::Acq => "a whole number of slots from 2 to 4096",
        Field::By => "a text",
        Field::End => "\"quiet\" or \"cut\"",
        Field::Queues | Field::Mqes => "a whole number from 1 to 65536",
        Field::Mechanism => "\"round-robin\" or \"weighted\"",
        Field::Sqe => "128 hexadecimal digits",
        Field::Cqe => "32 hexadecimal digits",
        Field::Op => "a whole number from 0 to 255",
        Field::Settings | Field::Cdw10 | Field::Cdw11 | Field::Dw0 =>
            "a whole number from 0 to 4294967295",
        Field::Status => "a whole number from 0 to 32767",
        Field::Phase => "0 or 1",
        Field::Of(_) | Field::Slot | Field::Cid | Field::Sq | Field::Sqhd => {
            "a whole number from 0 to 65535"
        }
    }
}

// Adds a character, as an escape where it isn't to be seen.
fn push_shown(shown: &mut String, character: char) -> Result<(), AllocError> {
    if matches!(character, '"' | '\'' | '\\') {
        return shown.push(character);
    }
    for part in character.escape_debug() {
        shown.push(part)?;
    }
    Ok(())
}

// The first characters of a text, with escapes for those that aren't to be seen.
fn cut(alloc: Global, text: &str) -> Result<String, AllocError> {
    let mut shown = String::new(alloc);
    for (index, character) in text.chars().enumerate() {
        if index == SHOWN {
            shown.push_str("..")?;
            return Ok(shown);
        }
        push_shown(&mut shown, character)?;
    }
    Ok(shown)
}

// The value of a line, where it is one.
fn value_in(alloc: Global, line: &[u8]) -> Result<Option<Value>, AllocError> {
    let Ok(text) = std::str::from_utf8(line) else {
        return Ok(None);
    };
    match Value::from_str(alloc, text) {
        Ok(value) => Ok(Some(value)),
        Err(error) if error.is_memory() => Err(AllocError),
        Err(_) => Ok(None),
    }
}

// The name of the first field that stands in a line.
fn first_name(line: &[u8]) -> Option<&str> {
    let text = std::str::from_utf8(line).ok()?;
    let rest = text.trim().strip_prefix('{')?.trim_start();
    rest.strip_prefix('"')?.split('"').next()
}

// The first field of a line, by the order of bytes, that isn't among these, nor passed over.
fn unknown_in<'a>(line: &'a Value, known: &[&str]) -> Option<&'a str> {
    for (name, _) in line.as_object()?.iter() {
        if !known.iter().any(|field| *field == name.as_str()) && !is_extra(name.as_str()) {
            return Some(name.as_str());
        }
    }
    None
}

// A field that such a line doesn't have.
fn unknown_note(alloc: Global, line: &[u8], known: &[&str]) -> Result<String, AllocError> {
    let Some(value) = value_in(alloc, line)? else {
        return Ok(String::new(alloc));
    };
    let Some(name) = unknown_in(&value, known) else {
        return Ok(String::new(alloc));
    };
    let name = cut(alloc, name)?;
    format!(in alloc; ": {name:?}; fields that begin with x_ are passed over")
}

// A field whose value is wrong.
fn bad_note(alloc: Global, line: &[u8], field: Field) -> Result<String, AllocError> {
    let wanted = wanted(field);
    let Some(value) = value_in(alloc, line)? else {
        return Ok(String::new(alloc));
    };
    let Some(found) = value.get(field.name()) else {
        return Ok(String::new(alloc));
    };
    let text = found.to_string(alloc)?;
    let found = cut(alloc, text.as_str())?;
    format!(in alloc; ": found {found}, wanted {wanted}")
}

// A line that isn't what a log has.
fn found_note(alloc: Global, line: &[u8], wanted: &str) -> Result<String, AllocError> {
    let Ok(text) = std::str::from_utf8(line) else {
        return Ok(String::new(alloc));
    };
    let found = cut(alloc, text.trim())?;
    format!(in alloc; ": found {found}, wanted {wanted}")
}

// The fields of the kind of a line.
fn known_in(alloc: Global, line: &[u8]) -> Result<&'static [&'static str], AllocError> {
    let Some(value) = value_in(alloc, line)? else {
        return Ok(&[]);
    };
    for kind in EVENTS {
        if value.get(kind.name()).is_some() {
            return Ok(fields_of(*kind));
        }
    }
    Ok(&[])
}

// A kind that isn't known.
fn kind_note(alloc: Global, line: &[u8]) -> Result<String, AllocError> {
    let Some(name) = first_name(line) else {
        return format!(in alloc; ": wanted {KINDS}");
    };
    let name = cut(alloc, name)?;
    format!(in alloc; ": {name:?}, wanted {KINDS}")
}

// What is said of a fault of any line.
fn note(alloc: Global, line: &[u8], fault: LineFault, wants: &str) -> Result<String, AllocError> {
    match fault {
        LineFault::NotJson | LineFault::NotObject => found_note(alloc, line, wants),
        LineFault::Missing(field) => {
            let wanted = wanted(field);
            format!(in alloc; ": wanted {wanted}")
        }
        LineFault::Bad(field) => bad_note(alloc, line, field),
        LineFault::NoKind => kind_note(alloc, line),
        _ => Ok(String::new(alloc)),
    }
}

/// What is said of a fault of a head.
pub(crate) fn head_note(
    alloc: Global,
    line: &[u8],
    fault: LineFault,
) -> Result<String, AllocError> {
    match fault {
        LineFault::NoHead => {
            format!(in alloc; ": wanted an object with {HEAD} on the first line")
        }
        LineFault::Unknown => unknown_note(alloc, line, HEAD_FIELDS),
        LineFault::Untold(Kind::Fetch) => { format!(in alloc; ": a log tells all fetches") }
        LineFault::Untold(_) => {
            format!(in alloc; ": a log tells all completions, by post or by complete")
        }
        fault => note(alloc, line, fault, "an object, the head of a log"),
    }
}

/// What is said of a fault of a later line.
pub(crate) fn event_note(
    alloc: Global,
    line: &[u8],
    fault: LineFault,
) -> Result<String, AllocError> {
    match fault {
        LineFault::Unknown => unknown_note(alloc, line, known_in(alloc, line)?),
        LineFault::NoMechanism(_) => {
            format!(in alloc; ": picks are judged where the head tells mechanism and cdw11")
        }
        LineFault::NotTold(Kind::Pick) => { format!(in alloc; ": a log tells all picks or none") }
        LineFault::Arbitration(fault) => nvme_trace::event_note(alloc, line, fault),
        LineFault::NotTold(_) => {
            format!(in alloc; ": completions are told by post, all of them, or by complete")
        }
        fault => note(alloc, line, fault, "an object, an event"),
    }
}
