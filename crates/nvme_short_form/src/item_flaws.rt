// All faults of commands and scripts.
ghost use Rattle.std.specs.Prelude.{◌≡◌, ◌++◌, OnOk};
ghost use Rattle.toml.specs.View.{view, items_view, table_view};
ghost use Rattle.nvme_short_form.specs.Readings.{value_in};
ghost use Rattle.nvme_short_form.specs.Flaws.{access_flaws, command_flaws, each_from, entry_flaws, flush_flaws, inner_flaws, raw_flaws, raw_key_flaws, repeat_flaws, repeated_flaws, script_flaws};
ghost use Rattle.nvme_short_form.specs.declared.key.Key.TheVariants as key;

use crate::command::spread_in;
use crate::error::Fault;
use crate::flaw::{Flaw, Site, push_fault, push_given, push_one, push_unknown};
use crate::key::Key;
use crate::place::Place;
use crate::tables::{ACCESS_KEYS, FLUSH_KEYS, RAW_KEYS, REPEAT_KEYS};
use crate::values::{number_at, number_or, value_in};
use std::alloc::AllocError;
use toml::{Table, Value};

// Appends the faults of a Read or a Write.
#[tactic(auto, unfolding(crate::specs::Flaws::access_flaws))]
fn push_access(flaws: &mut Vec<Flaw>, site: Site, table: &Table) -> Result<(), AllocError>
    ensures { OnOk result (flaws.new.items ≡ flaws.old.items ++ access_flaws site.place site.inner (table_view table.now)) }
{
    let place = site.place;
    let errors = [
        number_or(place, Key::Nsid, 1, 0, 0xffff_ffff, table).err(),
        number_or(place, Key::Slba, 0, 0, 0x7fff_ffff_ffff_ffff, table).err(),
        number_or(place, Key::Blocks, 1, 1, 65_536, table).err(),
        number_or(place, Key::Count, 1, 1, 65_536, table).err(),
        spread_in(place, table).err(),
    ];
    push_unknown(flaws, site, &ACCESS_KEYS, table)?;
    push_given(flaws, site.inner, &errors)
}

// Appends the faults of a Flush.
#[tactic(auto, unfolding(crate::specs::Flaws::flush_flaws))]
fn push_flush(flaws: &mut Vec<Flaw>, site: Site, table: &Table) -> Result<(), AllocError>
    ensures { OnOk result (flaws.new.items ≡ flaws.old.items ++ flush_flaws site.place site.inner (table_view table.now)) }
{
    let place = site.place;
    let errors = [
        number_or(place, Key::Nsid, 1, 0, 0xffff_ffff, table).err(),
        number_or(place, Key::Count, 1, 1, 65_536, table).err(),
    ];
    push_unknown(flaws, site, &FLUSH_KEYS, table)?;
    push_given(flaws, site.inner, &errors)
}

// Appends the faults of the keys beside an opcode.
#[tactic(auto, unfolding(crate::specs::Flaws::raw_key_flaws))]
fn push_raw_keys(flaws: &mut Vec<Flaw>, site: Site, table: &Table) -> Result<(), AllocError>
    ensures { OnOk result (flaws.new.items ≡ flaws.old.items ++ raw_key_flaws site.place site.inner (table_view table.now)) }
{
    let place = site.place;
    let errors = [
        number_or(place, Key::Flags, 0, 0, 0xff, table).err(),
        number_or(place, Key::Nsid, 0, 0, 0xffff_ffff, table).err(),
        number_or(place, Key::Prp1, 0, 0, 0x7fff_ffff_ffff_ffff, table).err(),
        number_or(place, Key::Cdw10, 0, 0, 0xffff_ffff, table).err(),
        number_or(place, Key::Cdw11, 0, 0, 0xffff_ffff, table).err(),
        number_or(place, Key::Cdw12, 0, 0, 0xffff_ffff, table).err(),
        number_or(place, Key::Count, 1, 1, 65_536, table).err(),
    ];
    push_unknown(flaws, site, &RAW_KEYS, table)?;
    push_given(flaws, site.inner, &errors)
}

/// Appends the faults of an item of an opcode.
pub(crate) fn push_raw(flaws: &mut Vec<Flaw>, site: Site, table: &Table) -> Result<(), AllocError>
    ensures { OnOk result (flaws.new.items ≡ flaws.old.items ++ raw_flaws site.place site.inner (table_view table.now)) }
{
    match number_at(site.place, Key::Op, 0, 0xff, table) {
        Ok(_) => push_raw_keys(flaws, site, table),
        Err(error) => push_one(flaws, site.inner, Some(error)),
    }
}

// Appends the faults of an item of a script that repeats none.
#[tactic(auto, unfolding(crate::specs::Flaws::command_flaws))]
fn push_command(flaws: &mut Vec<Flaw>, site: Site, table: &Table) -> Result<(), AllocError>
    ensures { OnOk result (flaws.new.items ≡ flaws.old.items ++ command_flaws site.place site.inner (table_view table.now)) }
{
    let Some(op) = value_in(Key::Op, table) else {
        return push_fault(flaws, site, Fault::Missing(Key::Op));
    };
    match op.as_str() {
        Some("read") => push_access(flaws, site, table),
        Some("write") => push_access(flaws, site, table),
        Some("flush") => push_flush(flaws, site, table),
        Some(_) => push_fault(flaws, site, Fault::Bad(Key::Op)),
        None => push_raw(flaws, site, table),
    }
}

// Appends the faults of an item of the script that an entry repeats.
fn push_inner(
    flaws: &mut Vec<Flaw>,
    place: Place,
    index: usize,
    item: &Value,
) -> Result<(), AllocError>
    ensures { OnOk result (flaws.new.items ≡ flaws.old.items ++ inner_flaws place index (view item.now)) }
{
    let site = Site {
        place,
        inner: Some(index),
    };
    match item.as_table() {
        Some(table) => push_command(flaws, site, table),
        None => push_fault(flaws, site, Fault::Bad(Key::Script)),
    }
}

// Appends the faults of the items of the script that an entry repeats.
fn push_inners(flaws: &mut Vec<Flaw>, place: Place, items: &[Value]) -> Result<(), AllocError>
    ensures { OnOk result (flaws.new.items ≡ flaws.old.items ++ each_from (inner_flaws place) 0 (items_view items.now)) }
{
    for (index, item) in items.iter().enumerate() {
        push_inner(flaws, place, index, item)?;
    }
    Ok(())
}

// Appends the faults of the script that an entry repeats.
fn push_repeated(flaws: &mut Vec<Flaw>, place: Place, table: &Table) -> Result<(), AllocError>
    ensures { OnOk result (flaws.new.items ≡ flaws.old.items ++ repeated_flaws place (value_in key.Script (table_view table.now))) }
{
    let Some(script) = value_in(Key::Script, table) else {
        return push_fault(flaws, Site::of(place), Fault::Missing(Key::Script));
    };
    match script.as_array() {
        Some(items) => push_inners(flaws, place, items),
        None => push_fault(flaws, Site::of(place), Fault::Bad(Key::Script)),
    }
}

// Appends the faults of an entry that repeats a script.
#[tactic(auto, unfolding(crate::specs::Flaws::repeat_flaws))]
fn push_repeat(flaws: &mut Vec<Flaw>, place: Place, table: &Table) -> Result<(), AllocError>
    ensures { OnOk result (flaws.new.items ≡ flaws.old.items ++ repeat_flaws place (table_view table.now)) }
{
    let times = number_at(place, Key::Repeat, 1, 65_536, table).err();
    push_unknown(flaws, Site::of(place), &REPEAT_KEYS, table)?;
    push_given(flaws, None, &[times])?;
    push_repeated(flaws, place, table)
}

// Appends the faults of an entry of the script of a queue.
fn push_entry(
    flaws: &mut Vec<Flaw>,
    queue: usize,
    item: usize,
    entry: &Value,
) -> Result<(), AllocError>
    ensures { OnOk result (flaws.new.items ≡ flaws.old.items ++ entry_flaws queue item (view entry.now)) }
{
    let place = Place::Item { queue, item };
    let Some(table) = entry.as_table() else {
        return push_fault(flaws, Site::of(place), Fault::Bad(Key::Script));
    };
    match value_in(Key::Repeat, table) {
        Some(_) => push_repeat(flaws, place, table),
        None => push_command(flaws, Site::of(place), table),
    }
}

// Appends the faults of the entries of the script of a queue.
fn push_entries(flaws: &mut Vec<Flaw>, queue: usize, entries: &[Value]) -> Result<(), AllocError>
    ensures { OnOk result (flaws.new.items ≡ flaws.old.items ++ each_from (entry_flaws queue) 0 (items_view entries.now)) }
{
    for (index, item) in entries.iter().enumerate() {
        push_entry(flaws, queue, index, item)?;
    }
    Ok(())
}

/// Appends the faults of the script of a queue.
pub(crate) fn push_script(
    flaws: &mut Vec<Flaw>,
    queue: usize,
    table: &Table,
) -> Result<(), AllocError>
    ensures { OnOk result (flaws.new.items ≡ flaws.old.items ++ script_flaws queue (value_in key.Script (table_view table.now))) }
{
    let Some(script) = value_in(Key::Script, table) else {
        return Ok(());
    };
    match script.as_array() {
        Some(entries) => push_entries(flaws, queue, entries),
        None => push_fault(
            flaws,
            Site::of(Place::Queue(queue)),
            Fault::Bad(Key::Script),
        ),
    }
}
