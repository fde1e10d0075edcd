// What stands in a short table where it is at fault.
use nvme_short_form::{
    ABORT_KEYS, ACCESS_KEYS, FILE_KEYS, FLUSH_KEYS, GET_KEYS, Key, Place, QUEUE_KEYS,
    QUEUE_OP_KEYS, RAW_KEYS, REPEAT_KEYS, SET_KEYS, SHARED_KEYS, WEIGHT_KEYS,
};
use toml::{Table, Value};

/// Where a table at fault is.
#[derive(Clone, Copy)]
pub(crate) struct Site {
    pub(crate) place: Place,
    /// Its index, where it is an item of the script that another item repeats.
    pub(crate) inner: Option<usize>,
}

/// The table at fault.
#[derive(Clone, Copy)]
pub(crate) struct Seen<'t> {
    pub(crate) table: &'t Table,
    /// The keys that tables of its kind may have.
    pub(crate) keys: &'static [Key],
    /// Those that it may have beside its others.
    pub(crate) fit: &'static [Key],
}

/// The value at a key.
pub(crate) fn value_in(table: &Table, key: Key) -> Option<&Value> {
    table.get(key.name())
}

/// An item of the array at a key.
pub(crate) fn item_at(table: &Table, key: Key, index: usize) -> Option<&Value> {
    match value_in(table, key) {
        Some(Value::Array(items)) => items.get(index),
        _ => None,
    }
}

// The table at an index of the array at a key.
fn table_at(table: &Table, key: Key, index: usize) -> Option<&Table> {
    item_at(table, key, index)?.as_table()
}

/// The unknown key of the table with this index, in the order of bytes: it isn't one of these.
pub(crate) fn unknown_key<'t>(keys: &[Key], table: &'t Table, index: usize) -> Option<&'t str> {
    let mut left = index;
    for (name, _value) in table.iter() {
        if !keys.iter().any(|key| key.name() == name.as_str()) {
            if left == 0 {
                return Some(name.as_str());
            }
            left -= 1;
        }
    }
    None
}

// The keys that an item may have, by what `op` says.
fn item_keys(item: &Table) -> &'static [Key] {
    match value_in(item, Key::Op) {
        Some(Value::String(name)) => match name.as_str() {
            "read" | "write" => &ACCESS_KEYS,
            "flush" => &FLUSH_KEYS,
            "create" | "delete" => &QUEUE_OP_KEYS,
            "abort" => &ABORT_KEYS,
            "set-arbitration" => &SET_KEYS,
            _ => &GET_KEYS,
        },
        _ => &RAW_KEYS,
    }
}

// A table of a kind.
fn seen_with<'t>(table: &'t Table, keys: &'static [Key]) -> Seen<'t> {
    Seen {
        table,
        keys,
        fit: keys,
    }
}

// The table at fault of an item of a script.
fn seen_in_entry(entry: &Table, inner: Option<usize>) -> Option<Seen<'_>> {
    if let Some(index) = inner {
        let item = table_at(entry, Key::Script, index)?;
        return Some(seen_with(item, item_keys(item)));
    }
    match value_in(entry, Key::Repeat) {
        Some(_) => Some(seen_with(entry, &REPEAT_KEYS)),
        None => Some(seen_with(entry, item_keys(entry))),
    }
}

// The weights of a table.
fn seen_weights(table: &Table) -> Option<Seen<'_>> {
    let weights = value_in(table, Key::Weights)?.as_table()?;
    Some(seen_with(weights, &WEIGHT_KEYS))
}

// An item of the script of a queue.
fn entry_at(document: &Table, queue: usize, item: usize) -> Option<&Value> {
    let table = table_at(document, Key::Queue, queue.saturating_sub(1))?;
    item_at(table, Key::Script, item)
}

/// The table at a site. `None` where there is another value.
pub(crate) fn seen_at(document: &Table, site: Site) -> Option<Seen<'_>> {
    match site.place {
        Place::Top => Some(seen_with(document, &FILE_KEYS)),
        Place::Queue(number) => {
            let table = table_at(document, Key::Queue, number.saturating_sub(1))?;
            let fit: &'static [Key] = match value_in(table, Key::Cq) {
                Some(_) => &SHARED_KEYS,
                None => &QUEUE_KEYS,
            };
            Some(Seen {
                table,
                keys: &QUEUE_KEYS,
                fit,
            })
        }
        Place::Item { queue, item } => {
            seen_in_entry(entry_at(document, queue, item)?.as_table()?, site.inner)
        }
        Place::Admin(item) => {
            let table = table_at(document, Key::Admin, item)?;
            Some(seen_with(table, item_keys(table)))
        }
        Place::Weights => seen_weights(document),
        Place::AdminWeights(item) => seen_weights(table_at(document, Key::Admin, item)?),
    }
}

/// The item that stands at a site where a table belongs.
pub(crate) fn other_at(document: &Table, site: Site) -> Option<&Value> {
    match site.place {
        Place::Top | Place::Weights | Place::AdminWeights(_) => None,
        Place::Queue(number) => item_at(document, Key::Queue, number.saturating_sub(1)),
        Place::Item { queue, item } => {
            let entry = entry_at(document, queue, item)?;
            match site.inner {
                Some(inner) => item_at(entry.as_table()?, Key::Script, inner),
                None => Some(entry),
            }
        }
        Place::Admin(item) => item_at(document, Key::Admin, item),
    }
}
