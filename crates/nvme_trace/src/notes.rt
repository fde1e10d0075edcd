// What is said of a fault for people: what was found in the line, and what was wanted.
use crate::fault::{Field, LineFault};
use crate::names::class_name;
use crate::raw::Found;
use crate::records::is_extra;
use nvme_arbiter::{Class, HIGHEST_COUNT, HIGHEST_QID, QUEUE_LIMIT};
use serde_json::Value;
use std::alloc::{AllocError, Global};

// How many characters of a name are shown.
const SHOWN: usize = 40;

// The fields of a head and of a pick.
const HEAD: &str = "version, mechanism and cdw11";

const HEAD_OR_STATE: &str = "version, mechanism, cdw11 and, from the middle, last and used";

const PICK: &str = "pick, n, fresh and seen";

const PICK_OR_LIMIT: &str = "pick, n, fresh, seen and, with a limit, room";

// What makes a line of each object.
const ARRAY: &str = "; one object on each line (jq -c '.[]' makes them)";

const OBJECT: &str = "; one object on each line (jq -c . makes them)";

// What the value of a field has to be.
fn wanted(field: Field) -> &'static str {
    match field {
        Field::Version => "1",
        Field::Mechanism => "\"round-robin\" or \"weighted\"",
        Field::Last => {
            "an object with identifiers that can be served last: all (round robin), or admin, urgent, high, medium, low (weighted)"
        }
        Field::Used => {
            "an object with high, medium, low, each at most its weight, and 0 where no queue of the level was served (weighted)"
        }
        Field::Cdw11 | Field::Set => "a whole number from 0 to 4294967295",
        Field::Pick | Field::N => "a whole number from 0 to 65535",
        Field::Room => "a whole number from 1 to 65535; without a limit leave it out",
        Field::Fresh => "true or false",
        Field::Seen => "an array of the open submission queues",
    }
}

// The first characters of a name.
fn cut(alloc: Global, text: &str) -> Result<String, AllocError> {
    let mut shown = String::new(alloc);
    for (index, character) in text.chars().enumerate() {
        if index == SHOWN {
            shown.push_str("..")?;
            return Ok(shown);
        }
        shown.push(character)?;
    }
    Ok(shown)
}

// What stands at a place, and what has to.
fn note_of_value(alloc: Global, value: &Found<'_>, wanted: &str) -> Result<String, AllocError> {
    let found = value.shown(alloc)?;
    format!(in alloc; ": found {found}, wanted {wanted}")
}

// A field that is missing.
fn missing_note(alloc: Global, field: Field) -> Result<String, AllocError> {
    let wanted = wanted(field);
    let more = if field == Field::Fresh {
        "; with --spec it may be left out"
    } else {
        ""
    };
    format!(in alloc; ": wanted {wanted}{more}")
}

// A field whose value is wrong.
fn bad_note(alloc: Global, line: &Found<'_>, field: Field) -> Result<String, AllocError> {
    match line.member(field.name()) {
        Some(value) => note_of_value(alloc, &value, wanted(field)),
        None => Ok(String::new(alloc)),
    }
}

// The first field of a line, by the order of bytes, that isn't among these, nor ignored.
fn unknown_in<'a>(line: &'a Value, known: &[&str]) -> Option<&'a str> {
    for (name, _) in line.as_object()?.iter() {
        if !known.iter().any(|field| *field == name.as_str()) && !is_extra(name.as_str()) {
            return Some(name.as_str());
        }
    }
    None
}

// A field that such a line doesn't have.
fn unknown_note(
    alloc: Global,
    line: &Value,
    known: &[&str],
    wanted: &str,
) -> Result<String, AllocError> {
    let Some(name) = unknown_in(line, known) else {
        return Ok(String::new(alloc));
    };
    let name = cut(alloc, name)?;
    format!(in alloc; ": {name:?}, wanted {wanted}; fields that begin with x_ are ignored")
}

// The class of this name.
fn class_named(name: &str) -> Option<Class> {
    let classes = [
        Class::Admin,
        Class::Urgent,
        Class::High,
        Class::Medium,
        Class::Low,
    ];
    classes
        .iter()
        .copied()
        .find(|class| class_name(*class) == name)
}

// A number of an item, where it is at most `most`.
fn number_in(item: &Found<'_>, index: usize, most: u16) -> Option<u16> {
    let number = item.value.get(index)?.as_u64()?;
    if number <= u64::from(most) {
        Some(number as u16)
    } else {
        None
    }
}

// What is wrong with a part of an item.
fn part_note(
    alloc: Global,
    item: &Found<'_>,
    index: usize,
    name: &str,
    wanted: &str,
) -> Result<String, AllocError> {
    match item.item(index) {
        Some(part) => {
            let found = part.shown(alloc)?;
            format!(in alloc; "{name} {found}, wanted {wanted}")
        }
        None => Ok(String::new(alloc)),
    }
}

// What is wrong with the class of a queue: the admin queue is queue 0 and the only one of its class.
fn class_note(alloc: Global, qid: u16, class: Class) -> Result<Option<String>, AllocError> {
    let name = class_name(class);
    let wanted = match (qid == 0, class == Class::Admin) {
        (true, false) => "\"admin\" for queue 0",
        (false, true) => "another: it is that of queue 0 alone",
        _ => return Ok(None),
    };
    Ok(Some(format!(in alloc; "class \"{name}\" of queue {qid}, wanted {wanted}")?))
}

// What is wrong with an item of an observation, behind one whose identifier is `before`.
fn item_note(
    alloc: Global,
    item: &Found<'_>,
    before: Option<u16>,
) -> Result<Option<String>, AllocError> {
    if item.value.as_array().is_none_or(|parts| parts.len() != 3) {
        let found = item.shown(alloc)?;
        return Ok(Some(format!(in alloc;
            "found {found}, wanted an array of identifier, class and count"
        )?));
    }
    let Some(qid) = number_in(item, 0, HIGHEST_QID) else {
        let wanted = format!(in alloc;
            "0 to {HIGHEST_QID}; queues above {HIGHEST_QID} can't be judged"
        )?;
        return Ok(Some(part_note(alloc, item, 0, "identifier", wanted.as_str())?));
    };
    let Some(class) = item
        .value
        .get(1)
        .and_then(Value::as_str)
        .and_then(class_named)
    else {
        let wanted = "\"admin\", \"urgent\", \"high\", \"medium\" or \"low\"";
        return Ok(Some(part_note(alloc, item, 1, "class", wanted)?));
    };
    if number_in(item, 2, HIGHEST_COUNT).is_none() {
        let wanted = format!(in alloc;
            "0 to {HIGHEST_COUNT}; write {HIGHEST_COUNT} where more wait"
        )?;
        return Ok(Some(part_note(alloc, item, 2, "count", wanted.as_str())?));
    }
    if let Some(before) = before
        && qid <= before
    {
        return Ok(Some(format!(in alloc;
            "identifier {qid} behind {before}, wanted ascending identifiers, each once"
        )?));
    }
    class_note(alloc, qid, class)
}

// What is wrong with the items of an observation: the first fault.
fn items_note(alloc: Global, seen: &Found<'_>, count: usize) -> Result<String, AllocError> {
    let mut before = None;
    for index in 0..count {
        let Some(item) = seen.item(index) else {
            return Ok(String::new(alloc));
        };
        if let Some(note) = item_note(alloc, &item, before)? {
            return format!(in alloc; ": seen[{index}]: {note}");
        }
        before = number_in(&item, 0, HIGHEST_QID);
    }
    Ok(String::new(alloc))
}

// Why what a pick saw is no observation.
fn seen_note(alloc: Global, line: &Found<'_>) -> Result<String, AllocError> {
    let Some(seen) = line.member(Field::Seen.name()) else {
        return Ok(String::new(alloc));
    };
    let Some(items) = seen.value.as_array() else {
        return note_of_value(alloc, &seen, wanted(Field::Seen));
    };
    let count = items.len();
    if count > QUEUE_LIMIT {
        return format!(in alloc; ": found {count} queues, wanted at most {QUEUE_LIMIT}");
    }
    items_note(alloc, &seen, count)
}

// What is said of an array of objects, which was to be a line for each.
fn several(line: &Value) -> &'static str {
    match line.get(0usize) {
        Some(first) if first.as_object().is_some() => ARRAY,
        _ => "",
    }
}

// What is said of the fault of a line that is a JSON value, where a line of this kind has the known fields.
fn value_note(
    alloc: Global,
    line: &Found<'_>,
    fault: LineFault,
    known: &[&str],
    fields: &str,
) -> Result<String, AllocError> {
    match fault {
        LineFault::Missing(field) => missing_note(alloc, field),
        LineFault::Bad(field) => bad_note(alloc, line, field),
        LineFault::Unknown => unknown_note(alloc, line.value, known, fields),
        LineFault::NotObservation => seen_note(alloc, line),
        LineFault::NotObject => {
            let found = line.shown(alloc)?;
            let more = several(line.value);
            format!(in alloc; ": found {found}, wanted an object with {fields}{more}")
        }
        _ => Ok(String::new(alloc)),
    }
}

// What is said of a line that ends too early.
fn unfinished(text: &str) -> &'static str {
    match text.as_bytes() {
        [b'[', ..] => ARRAY,
        [b'{', ..] => OBJECT,
        _ => "",
    }
}

// What is said of a text that is no JSON value.
fn text_note(
    alloc: Global,
    text: &str,
    error: &serde_json::Error,
    fields: &str,
) -> Result<String, AllocError> {
    if error.is_memory() {
        return Err(AllocError);
    }
    let column = error.column();
    let more = if error.is_eof() {
        unfinished(text.trim())
    } else {
        ""
    };
    format!(in alloc; ": byte {column}, wanted an object with {fields}{more}")
}

// What is said of a first line that is no JSON value.
fn first_text_note(
    alloc: Global,
    text: &str,
    error: &serde_json::Error,
) -> Result<String, AllocError> {
    if text.starts_with('\u{feff}') {
        return String::from_str(
            alloc,
            ": begins with a byte order mark (EF BB BF); save it without",
        );
    }
    text_note(alloc, text, error, HEAD)
}

/// What is said of the fault of a first line.
pub(crate) fn head_note(
    alloc: Global,
    line: &[u8],
    fault: LineFault,
) -> Result<String, AllocError> {
    if fault == LineFault::NoHead {
        return format!(in alloc; ": wanted a line with {HEAD}");
    }
    let Ok(text) = std::str::from_utf8(line) else {
        return Ok(String::new(alloc));
    };
    match Value::from_str(alloc, text) {
        Ok(value) => value_note(
            alloc,
            &Found::new(&value, text),
            fault,
            &["version", "mechanism", "cdw11", "last", "used"],
            if fault == LineFault::Unknown {
                HEAD_OR_STATE
            } else {
                HEAD
            },
        ),
        Err(error) => first_text_note(alloc, text, &error),
    }
}

// What is said of the fault of a later line that is a JSON value.
fn event_value_note(
    alloc: Global,
    line: &Found<'_>,
    fault: LineFault,
) -> Result<String, AllocError> {
    if line.value.get(Field::Set.name()).is_some() {
        value_note(alloc, line, fault, &["set"], "set alone")
    } else {
        let fields = if fault == LineFault::Unknown {
            PICK_OR_LIMIT
        } else {
            PICK
        };
        value_note(
            alloc,
            line,
            fault,
            &["pick", "n", "room", "fresh", "seen"],
            fields,
        )
    }
}

/// What is said of the fault of a later line.
pub fn event_note(alloc: Global, line: &[u8], fault: LineFault) -> Result<String, AllocError> {
    let Ok(text) = std::str::from_utf8(line) else {
        return Ok(String::new(alloc));
    };
    match Value::from_str(alloc, text) {
        Ok(value) => event_value_note(alloc, &Found::new(&value, text), fault),
        Err(error) => text_note(alloc, text, &error, PICK),
    }
}
