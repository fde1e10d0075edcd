// A value at a key of a document, and the key that is none of it.
ghost use Rattle.std.specs.Prelude.{◌≡◌, ◌<◌, ◌⊎◌, pos, codes, IfErr, IfOk, None, OnOk, Some, option_map, string_bytes};
ghost use Rattle.toml.specs.Data.{array, integer, member, no_members, table};
ghost use Rattle.toml.specs.View.{view, array_view, table_view};
ghost use Rattle.nvme_points.specs.Documents.{are_digits, cut, index_named, insert_member, names_of, load_among, number_in, put_all, put_at, put_last, put_one, put_through, put_value, value_of, weights_in, plain};

use crate::axis::Axis;
use crate::fault::SweepFault;
use std::alloc::{AllocError, Global};
use std::mem;
use toml::{Table, Value};

/// The key of a sweep that is none of the file: the load to which the gaps of all open queues are scaled.
pub const LOAD: &str = "load";

/// The key of a file for which `--seed` may stand.
pub const SEED: &str = "simulation.seed";

/// A key for which `--commands` or `--time` may stand.
pub const COMMANDS: &str = "simulation.commands";

/// The other key for which they may stand.
pub const TIME: &str = "simulation.time";

/// The key for which `--warm-up` may stand.
pub const WARM_UP: &str = "simulation.warm_up";

// The parts of a text around the first of these characters.
fn cut(text: &str, separator: char) -> Option<(&str, &str)>
    requires { separator < 128 }
    ensures { option_map (λ parts. (parts.0.now, parts.1.now)) result ≡ cut separator text.now }
{
    text.split_once(separator)
}

// Whether a text is a whole number, of whatever size.
fn are_digits(text: &str) -> bool
    ensures { result ≡ are_digits text.now }
{
    text.as_bytes().iter().all(|byte| byte.is_ascii_digit())
}

// The whole number that digits say. `None` where it has more than 63 bits.
fn number_in(text: &str) -> Option<i64>
    ensures { result ≡ option_map pos (number_in text.now) }
{
    if !are_digits(text) {
        return None;
    }
    match text.parse::<i64>() {
        Ok(number) => Some(number),
        Err(_) => None,
    }
}

// Puts a value at a name of a table.
fn put_member(
    alloc: Global,
    members: &mut Table,
    name: &str,
    value: Value,
) -> Result<(), AllocError>
    ensures { OnOk result (table_view members.new ≡ insert_member name.now (view value) (table_view members.old)) }
{
    match members.insert(String::from_str(alloc, name)?, value) {
        Ok(_) => Ok(()),
        Err(_) => Err(AllocError),
    }
}

// The index that a number from 1 on names.
fn index_named(name: &str) -> Option<usize>
    ensures { result ≡ index_named name.now }
{
    match name.parse::<usize>() {
        Ok(number) => number.checked_sub(1),
        Err(_) => None,
    }
}

// Moves a value out, to be changed and put back.
fn take(value: &mut Value) -> Value
    ensures { result ≡ value.old }
{
    mem::replace(value, Value::Boolean(false))
}

// Puts a value at the last name of a path.
fn put_last(alloc: Global, old: Value, name: &str, new: Value) -> Result<Option<Value>, AllocError>
    ensures { IfOk result (λ made. option_map view made ≡ put_last name.now (view new) (view old)) }
{
    let Value::Table(mut table) = old else {
        return Ok(None);
    };
    put_member(alloc, &mut table, name, new)?;
    Ok(Some(Value::Table(table)))
}

// Puts a value at the end of a path of names that points part. `None` where the tables before it aren't there.
#[cycle(put_at)]
fn put_at(alloc: Global, old: Value, path: &str, new: Value) -> Result<Option<Value>, AllocError>
    ensures { IfOk result (λ made. option_map view made ≡ put_at (names_of path.now) (view new) (view old)) }
{
    let Some((name, rest)) = cut(path, '.') else {
        return put_last(alloc, old, path, new);
    };
    match old {
        Value::Table(inner) => put_in_table(alloc, inner, name, rest, new),
        Value::Array(items) => put_in_array(alloc, items, name, rest, new),
        Value::String(_) => Ok(None),
        Value::Integer(_) => Ok(None),
        Value::Float(_) => Ok(None),
        Value::Boolean(_) => Ok(None),
        Value::Datetime(_) => Ok(None),
    }
}

// Puts a value at a path behind the name of a table.
#[cycle(put_at)]
fn put_in_table(
    alloc: Global,
    mut inner: Table,
    name: &str,
    rest: &str,
    new: Value,
) -> Result<Option<Value>, AllocError>
    ensures { IfOk result (λ made. option_map view made ≡ put_through name.now (put_at (names_of rest.now) (view new)) (table (table_view inner))) }
{
    let Some(slot) = inner.get_mut(name) else {
        return Ok(None);
    };
    let below = take(slot);
    let Some(made) = put_at(alloc, below, rest, new)? else {
        return Ok(None);
    };
    *slot = made;
    Ok(Some(Value::Table(inner)))
}

// Puts a value at a path behind the number of an item, from 1 on.
#[cycle(put_at)]
fn put_in_array(
    alloc: Global,
    mut items: Vec<Value>,
    name: &str,
    rest: &str,
    new: Value,
) -> Result<Option<Value>, AllocError>
    ensures { IfOk result (λ made. option_map view made ≡ put_through name.now (put_at (names_of rest.now) (view new)) (array (array_view items))) }
{
    let Some(index) = index_named(name) else {
        return Ok(None);
    };
    if index >= items.len() {
        return Ok(None);
    }
    let slot = &mut items[index];
    let below = take(slot);
    let Some(made) = put_at(alloc, below, rest, new)? else {
        return Ok(None);
    };
    *slot = made;
    Ok(Some(Value::Array(items)))
}

// The table of three weights.
fn weights_table(alloc: Global, high: i64, medium: i64, low: i64) -> Result<Value, AllocError>
    ensures { IfOk result (λ made. view made ≡ table (member (codes "high") (integer high) (member (codes "low") (integer low) (member (codes "medium") (integer medium) no_members)))) }
{
    let mut weights = Table::new(alloc);
    put_member(alloc, &mut weights, "high", Value::Integer(high))?;
    put_member(alloc, &mut weights, "medium", Value::Integer(medium))?;
    put_member(alloc, &mut weights, "low", Value::Integer(low))?;
    Ok(Value::Table(weights))
}

// The table of weights that are written as `8:4:2`. `None` of another text.
fn weights_in(alloc: Global, text: &str) -> Result<Option<Value>, AllocError>
    ensures { IfOk result (λ made. option_map view made ≡ weights_in text.now) }
{
    let Some((high, rest)) = cut(text, ':') else {
        return Ok(None);
    };
    let Some((medium, low)) = cut(rest, ':') else {
        return Ok(None);
    };
    let Some(high) = number_in(high) else {
        return Ok(None);
    };
    let Some(medium) = number_in(medium) else {
        return Ok(None);
    };
    let Some(low) = number_in(low) else {
        return Ok(None);
    };
    Ok(Some(weights_table(alloc, high, medium, low)?))
}

// A whole number where it is written in digits, and else a text. `None` of a number of more than 63 bits.
fn plain(alloc: Global, text: &str) -> Result<Option<Value>, AllocError>
    ensures { IfOk result (λ made. option_map view made ≡ plain text.now) }
{
    if !are_digits(text) {
        return Ok(Some(Value::string(alloc, text)?));
    }
    match number_in(text) {
        Some(number) => Ok(Some(Value::Integer(number))),
        None => Ok(None),
    }
}

// What a text is as the value of a key. `None` where it is none that the key takes.
fn value_of(alloc: Global, key: &str, text: &str) -> Result<Option<Value>, AllocError>
    ensures { IfOk result (λ made. option_map view made ≡ value_of key.now text.now) }
{
    if key == "weights" {
        weights_in(alloc, text)
    } else {
        plain(alloc, text)
    }
}

// Puts a value, as it is written, at the key of a path, as `queue.2.arrivals.poisson`. The tables that lead to it are there.
fn put<'a>(
    alloc: Global,
    document: Table,
    key: &'a str,
    text: &'a str,
) -> Result<Table, SweepFault<'a>>
    ensures value { IfOk result (λ made. put_value key.now text.now (table_view document) ≡ Some (table_view made)) }
    ensures refused { IfErr result (λ e. (e ≡ SweepFault.NoMemory) ⊎ (put_value key.now text.now (table_view document) ≡ None)) }
{
    let Some(value) = value_of(alloc, key, text)? else {
        return Err(SweepFault::Unfit(key, text));
    };
    let Some(made) = put_at(alloc, Value::Table(document), key, value)? else {
        return Err(SweepFault::NoKey(key));
    };
    match made {
        Value::Table(made) => Ok(made),
        _ => Err(SweepFault::NoKey(key)),
    }
}

// Puts a value at a key of a sweep. The load is no key of a file.
fn put_one<'a>(
    alloc: Global,
    document: Table,
    axis: &Axis<'a>,
    text: &'a str,
) -> Result<Table, SweepFault<'a>>
    ensures value { IfOk result (λ made. put_one axis.now text.now (table_view document) ≡ Some (table_view made)) }
    ensures refused { IfErr result (λ e. (e ≡ SweepFault.NoMemory) ⊎ (put_one axis.now text.now (table_view document) ≡ None)) }
{
    if axis.key == LOAD {
        return Ok(document);
    }
    put(alloc, document, axis.key, text)
}

/// Puts a value at each key of a sweep, one after another. The error is the first that can't be put.
#[tactic(auto, using(crate::proofs::Documents::put_next, crate::proofs::Documents::put_stops, crate::proofs::Documents::put_end))]
pub fn put_all<'a>(
    alloc: Global,
    file: Table,
    axes: &[Axis<'a>],
    values: &[&'a str],
) -> Result<Table, SweepFault<'a>>
    ensures value { IfOk result (λ made. put_all axes.now values.now (table_view file) ≡ Some (table_view made)) }
    ensures refused { IfErr result (λ e. (e ≡ SweepFault.NoMemory) ⊎ (put_all axes.now values.now (table_view file) ≡ None)) }
{
    let mut document = file;
    for index in 0..axes.len().min(values.len()) {
        document = put_one(alloc, document, &axes[index], values[index])?;
    }
    Ok(document)
}

/// The load among the values of keys, where it is swept.
#[tactic(auto, using(crate::proofs::Documents::load_here, crate::proofs::Documents::load_later, crate::proofs::Documents::load_end))]
pub fn load_among<'t>(axes: &[Axis], values: &[&'t str]) -> Option<&'t str>
    ensures { option_map (λ t. t.now) result ≡ load_among axes.now values.now }
{
    for index in 0..axes.len().min(values.len()) {
        if axes[index].key == LOAD {
            return Some(values[index]);
        }
    }
    None
}
