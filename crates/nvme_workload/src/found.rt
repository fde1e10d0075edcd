// What stands where a workload file is at fault.
use crate::flaw::Flaw;
use crate::key::Key;
use crate::place::Spot;
use crate::values::find;
use std::alloc::{AllocError, Global};
use std::fmt;
use toml::{Table, Value};

// The most characters of a text of the file that are kept.
const KEPT_CHARACTERS: usize = 100;

/// What stands where a workload file is at fault.
#[derive(Debug, Drop)]
pub enum Found {
    /// What was expected there says it, or what isn't TOML does.
    Untold,
    /// No value.
    Nothing,
    /// A whole number.
    Integer(i64),
    /// A text, of which at most the first 100 characters are kept.
    Text(String),
    /// A value of another kind, by the name of its kind.
    Other(&'static str),
}

impl fmt::Display for Found {
    fn fmt<W: fmt::Write>(&self, f: &mut fmt::Formatter<W>) -> fmt::Result {
        match self {
            Found::Untold => Ok(()),
            Found::Nothing => f.write_str("found nothing, "),
            Found::Integer(number) => write!(f, "found {number}, "),
            Found::Text(text) => write!(f, "found {text:?}, "),
            Found::Other(kind) => write!(f, "found {kind}, "),
        }
    }
}

/// The first characters of a text.
pub(crate) fn beginning_of(alloc: Global, text: &str) -> Result<String, AllocError> {
    let mut beginning = String::new(alloc);
    for character in text.chars().take(KEPT_CHARACTERS) {
        beginning.push(character)?;
    }
    Ok(beginning)
}

// What a value is.
fn found_in(alloc: Global, value: Option<&Value>) -> Result<Found, AllocError> {
    let found = match value {
        None => Found::Nothing,
        Some(Value::Integer(number)) => Found::Integer(*number),
        Some(Value::String(text)) => Found::Text(beginning_of(alloc, text.as_str())?),
        Some(Value::Array(items)) if items.is_empty() => Found::Other("an empty array"),
        Some(Value::Array(_)) => Found::Other("an array"),
        Some(Value::Table(_)) => Found::Other("a table"),
        Some(_) => Found::Other("a value of another kind"),
    };
    Ok(found)
}

// An item of the array at a key.
fn item_of(table: &Table, key: Key, index: usize) -> Option<&Value> {
    find(table, key)?.as_array()?.get(index)
}

// The item of an array that stands for a table.
fn item_at(table: &Table, spot: Spot) -> Option<&Value> {
    match spot {
        Spot::Top => None,
        Spot::Submission(region) => item_of(table, Key::Submission, region),
        Spot::Item { region, item } => {
            let region = item_of(table, Key::Submission, region)?.as_table()?;
            item_of(region, Key::Script, item)
        }
        Spot::Completion(region) => item_of(table, Key::Completion, region),
    }
}

/// A table of a document.
pub(crate) fn table_at(table: &Table, spot: Spot) -> Option<&Table> {
    match spot {
        Spot::Top => Some(table),
        spot => item_at(table, spot)?.as_table(),
    }
}

// The value of a key in a table, or the item that stands for the table, where that is none.
fn value_in(table: &Table, spot: Spot, key: Key) -> Option<&Value> {
    match table_at(table, spot) {
        Some(found) => find(found, key),
        None => item_at(table, spot),
    }
}

/// What stands where a document has a flaw.
pub(crate) fn found_at(
    alloc: Global,
    table: &Table,
    spot: Spot,
    flaw: Flaw,
) -> Result<Found, AllocError> {
    match flaw {
        Flaw::Missing(_) => Ok(Found::Nothing),
        Flaw::Bad(key) => found_in(alloc, value_in(table, spot, key)),
        Flaw::Repeated => found_in(alloc, value_in(table, spot, Key::Address)),
        Flaw::Unknown | Flaw::Most(_) => Ok(Found::Untold),
    }
}
