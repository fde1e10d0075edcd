// The scripts of queues.
ghost use Rattle.std.specs.Prelude.{◌≡◌, ◌+◌, ◌≤◌, ◌++◌, [], nat_lt, if◌then◌else◌, Ok, Err, IfOk, IfErr, OnOk};
ghost use Rattle.nvme_short_form.specs.declared.key.Key.TheVariants as key;
ghost use Rattle.nvme_short_form.specs.declared.error.Fault.TheVariants.{Limit};
ghost use Rattle.nvme_short_form.specs.declared.error.ShortError.TheVariants.{At};
ghost use Rattle.toml.specs.View.{view, items_view, table_view};
ghost use Rattle.nvme_workload.specs.Scripts.{most_commands};
ghost use Rattle.nvme_short_form.specs.Readings.{Fails, Gives, seen, in_turn};
ghost use Rattle.nvme_short_form.specs.Commands.{item_at, items_of_run};
ghost use Rattle.nvme_short_form.specs.Scripts.{copies, with_items, with_command, with_inner, with_repeat, with_entry, script_in};

use crate::command::{Item, Run, command_of};
use crate::error::{Fault, ShortError};
use crate::key::Key;
use crate::place::Place;
use crate::tables::REPEAT_KEYS;
use crate::values::{array_of, number_at, only_keys, table_of, value_at, value_in};
use nvme_workload::MAX_COMMANDS;
use std::alloc::{AllocError, Global};
use toml::{Table, Value};

// The number of all commands so far, with this many more.
pub(crate) fn with_more(place: Place, before: u64, commands: u64) -> Result<u64, ShortError>
    requires { before ≤ most_commands }
    ensures value { result ≡ (if nat_lt most_commands (before + commands) then Err (At place (Limit key.Script)) else Ok (before + commands)) }
    ensures fits { IfOk result (λ n. n ≤ most_commands) }
{
    if MAX_COMMANDS as u64 - before < commands {
        return Err(ShortError::At(place, Fault::Limit(Key::Script)));
    }
    Ok(before + commands)
}

// An item of a run.
fn item_at(run: Run, index: u32) -> Item
    ensures { result ≡ item_at run index }
{
    let beyond = u64::from(index) * u64::from(run.stride);
    Item {
        dw10: run.item.dw10.wrapping_add(beyond),
        ..run.item
    }
}

// Appends the items of a run.
#[tactic(auto, using(crate::proofs::Runs::run_more))]
fn push_run(script: &mut Vec<Item>, run: Run) -> Result<(), AllocError>
    ensures { OnOk result (script.new.items ≡ script.old.items ++ items_of_run run) }
{
    for index in 0..run.times {
        script.push(item_at(run, index))?;
    }
    Ok(())
}

// Appends items so many times.
#[tactic(auto, using(crate::proofs::Runs::copies_more))]
fn push_copies(script: &mut Vec<Item>, items: &[Item], times: u64) -> Result<(), AllocError>
    ensures { OnOk result (script.new.items ≡ script.old.items ++ copies times items.now) }
{
    for _copy in 0..times {
        script.extend_from_slice(items)?;
    }
    Ok(())
}

// Appends items so many times. No items are done with at once, however often they are repeated.
fn push_repeated(script: &mut Vec<Item>, items: &[Item], times: u64) -> Result<(), AllocError>
    ensures { OnOk result (script.new.items ≡ script.old.items ++ copies times items.now) }
{
    if items.is_empty() {
        return Ok(());
    }
    push_copies(script, items, times)
}

// Appends a command that is named, or a raw item.
#[tactic(auto, unfolding(crate::specs::Scripts::with_command))]
fn push_command(
    script: &mut Vec<Item>,
    place: Place,
    before: u64,
    table: &Table,
) -> Result<u64, ShortError>
    requires { before ≤ most_commands }
    ensures ok { IfOk result (λ n. with_command place (script.old.items, before) (table_view table.now) ≡ Ok (script.new.items, n)) }
    ensures err { IfErr result (λ e. Fails e (with_command place (script.old.items, before) (table_view table.now))) }
    ensures fits { IfOk result (λ n. n ≤ most_commands) }
{
    let run = command_of(place, table)?;
    let commands = with_more(
        place,
        before,
        u64::from(run.times) * u64::from(run.item.count),
    )?;
    push_run(script, run)?;
    Ok(commands)
}

// Appends an item of the script within an entry that repeats it.
#[tactic(auto, unfolding(crate::specs::Scripts::with_inner))]
fn push_inner(
    script: &mut Vec<Item>,
    place: Place,
    index: usize,
    before: u64,
    item: &Value,
) -> Result<u64, ShortError>
    requires { before ≤ most_commands }
    ensures ok { IfOk result (λ n. with_inner place index (script.old.items, before) (view item.now) ≡ Ok (script.new.items, n)) }
    ensures err { IfErr result (λ e. Fails e (with_inner place index (script.old.items, before) (view item.now))) }
    ensures fits { IfOk result (λ n. n ≤ most_commands) }
{
    push_command(script, place, before, table_of(place, Key::Script, item)?)
}

// Appends the script within an entry that repeats it.
fn push_inners(script: &mut Vec<Item>, place: Place, items: &[Value]) -> Result<u64, ShortError>
    ensures ok { IfOk result (λ n. in_turn (with_inner place) 0 (script.old.items, 0) (items_view items.now) ≡ Ok (script.new.items, n)) }
    ensures err { IfErr result (λ e. Fails e (in_turn (with_inner place) 0 (script.old.items, 0) (items_view items.now))) }
    ensures fits { IfOk result (λ n. n ≤ most_commands) }
{
    let mut commands = 0;
    for (index, item) in items.iter().enumerate() {
        commands = push_inner(script, place, index, commands, item)?;
    }
    Ok(commands)
}

// Appends an entry that repeats a script.
#[tactic(auto, unfolding(crate::specs::Scripts::with_repeat))]
fn push_repeat(
    alloc: Global,
    script: &mut Vec<Item>,
    place: Place,
    before: u64,
    table: &Table,
) -> Result<u64, ShortError>
    requires { before ≤ most_commands }
    ensures ok { IfOk result (λ n. with_repeat place (script.old.items, before) (table_view table.now) ≡ Ok (script.new.items, n)) }
    ensures err { IfErr result (λ e. Fails e (with_repeat place (script.old.items, before) (table_view table.now))) }
    ensures fits { IfOk result (λ n. n ≤ most_commands) }
{
    only_keys(place, &REPEAT_KEYS, table)?;
    let times = number_at(place, Key::Repeat, 1, 65_536, table)?;
    let items = array_of(place, Key::Script, value_at(place, Key::Script, table)?)?;
    let mut inner = Vec::new(alloc);
    let each = push_inners(&mut inner, place, items)?;
    let commands = with_more(place, before, times * each)?;
    push_repeated(script, &inner, times)?;
    Ok(commands)
}

// Appends an entry of the script of a queue.
#[tactic(auto, unfolding(crate::specs::Scripts::with_entry))]
fn push_entry(
    alloc: Global,
    script: &mut Vec<Item>,
    queue: usize,
    item: usize,
    before: u64,
    entry: &Value,
) -> Result<u64, ShortError>
    requires { before ≤ most_commands }
    ensures ok { IfOk result (λ n. with_entry queue item (script.old.items, before) (view entry.now) ≡ Ok (script.new.items, n)) }
    ensures err { IfErr result (λ e. Fails e (with_entry queue item (script.old.items, before) (view entry.now))) }
    ensures fits { IfOk result (λ n. n ≤ most_commands) }
{
    let place = Place::Item { queue, item };
    let table = table_of(place, Key::Script, entry)?;
    match value_in(Key::Repeat, table) {
        Some(_) => push_repeat(alloc, script, place, before, table),
        None => push_command(script, place, before, table),
    }
}

// Appends the entries of the script of a queue.
fn push_entries(
    alloc: Global,
    script: &mut Vec<Item>,
    queue: usize,
    before: u64,
    entries: &[Value],
) -> Result<u64, ShortError>
    requires { before ≤ most_commands }
    ensures ok { IfOk result (λ n. in_turn (with_entry queue) 0 (script.old.items, before) (items_view entries.now) ≡ Ok (script.new.items, n)) }
    ensures err { IfErr result (λ e. Fails e (in_turn (with_entry queue) 0 (script.old.items, before) (items_view entries.now))) }
    ensures fits { IfOk result (λ n. n ≤ most_commands) }
{
    let mut commands = before;
    for (index, item) in entries.iter().enumerate() {
        commands = push_entry(alloc, script, queue, index, commands, item)?;
    }
    Ok(commands)
}

// Appends the script of a queue, and answers the number of all commands so far.
#[tactic(auto, unfolding(crate::specs::Scripts::script_in))]
pub(crate) fn push_script(
    alloc: Global,
    script: &mut Vec<Item>,
    queue: usize,
    before: u64,
    table: &Table,
) -> Result<u64, ShortError>
    requires few { before ≤ most_commands }
    requires none { script.old.items ≡ [] }
    ensures ok { IfOk result (λ n. script_in queue before (table_view table.now) ≡ Ok (script.new.items, n)) }
    ensures err { IfErr result (λ e. Fails e (script_in queue before (table_view table.now))) }
    ensures fits { IfOk result (λ n. n ≤ most_commands) }
{
    let Some(value) = value_in(Key::Script, table) else {
        return Ok(before);
    };
    let entries = array_of(Place::Queue(queue), Key::Script, value)?;
    push_entries(alloc, script, queue, before, entries)
}
