// All faults of settings and admin commands.
ghost use Rattle.std.specs.Prelude.{◌≡◌, ◌++◌, OnOk};
ghost use Rattle.toml.specs.View.{view, items_view, table_view};
ghost use Rattle.nvme_short_form.specs.Readings.{value_in};
ghost use Rattle.nvme_short_form.specs.Flaws.{abort_flaws, admin_flaws, arbitration_flaws, each_from, get_flaws, optional_weight_flaws, queue_op_flaws, set_flaws, step_flaws, step_op_flaws, weight_flaws};
ghost use Rattle.nvme_short_form.specs.declared.key.Key.TheVariants as key;

use crate::admin::{burst_in, feature_in, weights_place};
use crate::error::Fault;
use crate::flaw::{Flaw, Site, push_fault, push_given, push_unknown};
use crate::item_flaws::push_raw;
use crate::key::Key;
use crate::place::Place;
use crate::tables::{ABORT_KEYS, GET_KEYS, QUEUE_OP_KEYS, SET_KEYS, WEIGHT_KEYS};
use crate::values::{number_at, number_or, value_in};
use std::alloc::AllocError;
use toml::{Table, Value};

// Appends the faults of the table of weights at a place.
#[tactic(auto, unfolding(crate::specs::Flaws::weight_flaws))]
fn push_weight_keys(flaws: &mut Vec<Flaw>, at: Place, table: &Table) -> Result<(), AllocError>
    ensures { OnOk result (flaws.new.items ≡ flaws.old.items ++ weight_flaws at (table_view table.now)) }
{
    let errors = [
        number_or(at, Key::High, 1, 1, 256, table).err(),
        number_or(at, Key::Medium, 1, 1, 256, table).err(),
        number_or(at, Key::Low, 1, 1, 256, table).err(),
    ];
    push_unknown(flaws, Site::of(at), &WEIGHT_KEYS, table)?;
    push_given(flaws, None, &errors)
}

// Appends the faults of the weights of a table at a place.
fn push_weights(flaws: &mut Vec<Flaw>, place: Place, table: &Table) -> Result<(), AllocError>
    ensures { OnOk result (flaws.new.items ≡ flaws.old.items ++ optional_weight_flaws place (value_in key.Weights (table_view table.now))) }
{
    let Some(weights) = value_in(Key::Weights, table) else {
        return Ok(());
    };
    match weights.as_table() {
        Some(weights) => push_weight_keys(flaws, weights_place(place), weights),
        None => push_fault(flaws, Site::of(place), Fault::Bad(Key::Weights)),
    }
}

/// Appends the faults of `burst` and `weights` of a table at a place.
#[tactic(auto, unfolding(crate::specs::Flaws::arbitration_flaws))]
pub(crate) fn push_arbitration(
    flaws: &mut Vec<Flaw>,
    place: Place,
    table: &Table,
) -> Result<(), AllocError>
    ensures { OnOk result (flaws.new.items ≡ flaws.old.items ++ arbitration_flaws place (table_view table.now)) }
{
    let burst = burst_in(place, table).err();
    push_given(flaws, None, &[burst])?;
    push_weights(flaws, place, table)
}

// Appends the faults of `create` and `delete`, where there are so many queues.
#[tactic(auto, unfolding(crate::specs::Flaws::queue_op_flaws))]
fn push_queue_op(
    flaws: &mut Vec<Flaw>,
    place: Place,
    queues: u64,
    table: &Table,
) -> Result<(), AllocError>
    ensures { OnOk result (flaws.new.items ≡ flaws.old.items ++ queue_op_flaws place queues (table_view table.now)) }
{
    let number = number_at(place, Key::Number, 1, queues, table).err();
    push_unknown(flaws, Site::of(place), &QUEUE_OP_KEYS, table)?;
    push_given(flaws, None, &[number])
}

// Appends the faults of `abort`.
#[tactic(auto, unfolding(crate::specs::Flaws::abort_flaws))]
fn push_abort(flaws: &mut Vec<Flaw>, place: Place, table: &Table) -> Result<(), AllocError>
    ensures { OnOk result (flaws.new.items ≡ flaws.old.items ++ abort_flaws place (table_view table.now)) }
{
    let errors = [
        number_at(place, Key::Target, 0, 0xffff, table).err(),
        number_at(place, Key::Cid, 0, 0xffff, table).err(),
    ];
    push_unknown(flaws, Site::of(place), &ABORT_KEYS, table)?;
    push_given(flaws, None, &errors)
}

// Appends the faults of `set-arbitration`.
#[tactic(auto, unfolding(crate::specs::Flaws::set_flaws))]
fn push_set(flaws: &mut Vec<Flaw>, place: Place, table: &Table) -> Result<(), AllocError>
    ensures { OnOk result (flaws.new.items ≡ flaws.old.items ++ set_flaws place (table_view table.now)) }
{
    push_unknown(flaws, Site::of(place), &SET_KEYS, table)?;
    push_arbitration(flaws, place, table)
}

// Appends the faults of `get-features`.
#[tactic(auto, unfolding(crate::specs::Flaws::get_flaws))]
fn push_get(flaws: &mut Vec<Flaw>, place: Place, table: &Table) -> Result<(), AllocError>
    ensures { OnOk result (flaws.new.items ≡ flaws.old.items ++ get_flaws place (table_view table.now)) }
{
    let feature = feature_in(place, table).err();
    push_unknown(flaws, Site::of(place), &GET_KEYS, table)?;
    push_given(flaws, None, &[feature])
}

// Appends the faults of a table of `admin`, where there are so many queues.
fn push_step_keys(
    flaws: &mut Vec<Flaw>,
    place: Place,
    queues: u64,
    table: &Table,
) -> Result<(), AllocError>
    ensures { OnOk result (flaws.new.items ≡ flaws.old.items ++ step_op_flaws place queues (table_view table.now) (value_in key.Op (table_view table.now))) }
{
    let Some(op) = value_in(Key::Op, table) else {
        return push_fault(flaws, Site::of(place), Fault::Missing(Key::Op));
    };
    match op.as_str() {
        Some("create") => push_queue_op(flaws, place, queues, table),
        Some("delete") => push_queue_op(flaws, place, queues, table),
        Some("abort") => push_abort(flaws, place, table),
        Some("set-arbitration") => push_set(flaws, place, table),
        Some("get-features") => push_get(flaws, place, table),
        Some(_) => push_fault(flaws, Site::of(place), Fault::Bad(Key::Op)),
        None => push_raw(flaws, Site::of(place), table),
    }
}

// Appends the faults of an item of `admin`.
fn push_step(
    flaws: &mut Vec<Flaw>,
    queues: u64,
    index: usize,
    item: &Value,
) -> Result<(), AllocError>
    ensures { OnOk result (flaws.new.items ≡ flaws.old.items ++ step_flaws queues index (view item.now)) }
{
    let place = Place::Admin(index);
    match item.as_table() {
        Some(table) => push_step_keys(flaws, place, queues, table),
        None => push_fault(flaws, Site::of(place), Fault::Bad(Key::Admin)),
    }
}

// Appends the faults of the items of `admin`.
fn push_steps(flaws: &mut Vec<Flaw>, queues: u64, items: &[Value]) -> Result<(), AllocError>
    ensures { OnOk result (flaws.new.items ≡ flaws.old.items ++ each_from (step_flaws queues) 0 (items_view items.now)) }
{
    for (index, item) in items.iter().enumerate() {
        push_step(flaws, queues, index, item)?;
    }
    Ok(())
}

/// Appends the faults of `admin` of a file with so many queues.
pub(crate) fn push_admin(
    flaws: &mut Vec<Flaw>,
    queues: u64,
    table: &Table,
) -> Result<(), AllocError>
    ensures { OnOk result (flaws.new.items ≡ flaws.old.items ++ admin_flaws queues (value_in key.Admin (table_view table.now))) }
{
    let Some(steps) = value_in(Key::Admin, table) else {
        return Ok(());
    };
    match steps.as_array() {
        Some(items) => push_steps(flaws, queues, items),
        None => push_fault(flaws, Site::of(Place::Top), Fault::Bad(Key::Admin)),
    }
}
