// All faults of queues and of a file.
ghost use Rattle.std.specs.Prelude.{◌≡◌, ◌+◌, ◌<◌, ◌≤◌, ◌++◌, ◌∷◌, [], IfOk, OnOk, length};
ghost use Rattle.std.specs.Result.{result_err};
ghost use Rattle.toml.specs.Data.{as_table};
ghost use Rattle.toml.specs.View.{view, items_view, table_view};
ghost use Rattle.nvme_short_form.specs.Form.{sizes_in};
ghost use Rattle.nvme_short_form.specs.Readings.{value_in};
ghost use Rattle.nvme_short_form.specs.Flaws.{all_queue_flaws, alone, behind, cq_among, cq_flaws, is_among, is_of_count, leading, led_by, queue_count, queue_flaws, queue_table_flaws, queues_from, settings_flaws, shared_among, table_flaws};
ghost use Rattle.nvme_short_form.specs.declared.key.Key.TheVariants as key;

use crate::admin_flaws::{push_admin, push_arbitration};
use crate::error::{Fault, ShortError};
use crate::flaw::{Flaw, Site, push_fault, push_given, push_unknown};
use crate::form::{mechanism_in, sizes_in};
use crate::item_flaws::push_script;
use crate::key::Key;
use crate::place::Place;
use crate::queue::{qprio_in, slots_in};
use crate::tables::{FILE_KEYS, QUEUE_KEYS, SHARED_KEYS};
use crate::values::{number_at, number_or, value_in, whole};
use nvme_admin::MAX_IO_QUEUES;
use std::alloc::{AllocError, Global};
use toml::{Table, Value};

// Whether a completion queue is one of these.
fn is_among(cqs: &[u16], cq: u16) -> bool
    ensures { result ≡ is_among cqs.now cq }
{
    cqs.iter().any(|it| *it == cq)
}

// The identifier of a completion queue, which is one of these.
#[tactic(auto, unfolding(crate::specs::Flaws::shared_among))]
fn shared_among(place: Place, cqs: &[u16], value: &Value) -> Result<u16, ShortError>
    ensures { result ≡ shared_among place cqs.now (view value.now) }
{
    let cq = whole(place, Key::Cq, 1, u64::from(MAX_IO_QUEUES), value)? as u16;
    if is_among(cqs, cq) {
        Ok(cq)
    } else {
        Err(ShortError::At(place, Fault::Bad(Key::Cq)))
    }
}

// Appends the faults of the keys of a queue and of its completion queue, behind queues with these.
fn push_cq(flaws: &mut Vec<Flaw>, cqs: &[u16], table: &Table) -> Result<(), AllocError>
    requires { length cqs.now < MAX_IO_QUEUES }
    ensures { OnOk result (flaws.new.items ≡ flaws.old.items ++ cq_flaws cqs.now (table_view table.now) (value_in key.Cq (table_view table.now))) }
{
    let place = Place::Queue(cqs.len() + 1);
    match value_in(Key::Cq, table) {
        Some(value) => {
            let cq = shared_among(place, cqs, value).err();
            push_unknown(flaws, Site::of(place), &SHARED_KEYS, table)?;
            push_given(flaws, None, &[cq])
        }
        None => push_unknown(flaws, Site::of(place), &QUEUE_KEYS, table),
    }
}

// Appends the faults of the table of a queue, behind queues with these completion queues.
#[tactic(auto, unfolding(crate::specs::Flaws::queue_table_flaws))]
fn push_queue_keys(flaws: &mut Vec<Flaw>, cqs: &[u16], table: &Table) -> Result<(), AllocError>
    requires { length cqs.now < MAX_IO_QUEUES }
    ensures { OnOk result (flaws.new.items ≡ flaws.old.items ++ queue_table_flaws cqs.now (table_view table.now)) }
{
    let number = cqs.len() + 1;
    let place = Place::Queue(number);
    let errors = [
        qprio_in(place, table).err(),
        slots_in(place, Key::Depth, table).err(),
        slots_in(place, Key::CqDepth, table).err(),
    ];
    push_cq(flaws, cqs, table)?;
    push_given(flaws, None, &errors)?;
    push_script(flaws, number, table)
}

// Appends the faults of a queue, behind queues with these completion queues.
fn push_queue(flaws: &mut Vec<Flaw>, cqs: &[u16], item: &Value) -> Result<(), AllocError>
    requires { length cqs.now < MAX_IO_QUEUES }
    ensures { OnOk result (flaws.new.items ≡ flaws.old.items ++ queue_flaws cqs.now (view item.now)) }
{
    match item.as_table() {
        Some(table) => push_queue_keys(flaws, cqs, table),
        None => {
            let place = Place::Queue(cqs.len() + 1);
            push_fault(flaws, Site::of(place), Fault::Bad(Key::Queue))
        }
    }
}

// The completion queue of a queue, behind queues with these: one of its own where what is at `cq` is at fault.
fn cq_among(cqs: &[u16], item: &Value) -> u16
    requires { length cqs.now < MAX_IO_QUEUES }
    ensures { result ≡ cq_among cqs.now (as_table (view item.now)) }
{
    let own = cqs.len() + 1;
    let Some(table) = item.as_table() else {
        return own as u16;
    };
    match value_in(Key::Cq, table) {
        Some(value) => match shared_among(Place::Queue(own), cqs, value) {
            Ok(cq) => cq,
            Err(_) => own as u16,
        },
        None => own as u16,
    }
}

// Appends the faults of queues.
fn push_queues(alloc: Global, flaws: &mut Vec<Flaw>, items: &[Value]) -> Result<(), AllocError>
    requires { length items.now ≤ MAX_IO_QUEUES }
    ensures { OnOk result (flaws.new.items ≡ flaws.old.items ++ queues_from [] (items_view items.now)) }
{
    let mut cqs = Vec::new(alloc);
    for item in items {
        push_queue(flaws, &cqs, item)?;
        cqs.push(cq_among(&cqs, item))?;
    }
    Ok(())
}

// Appends the faults of all queues of a file.
#[tactic(auto, using(crate::proofs::Turns::item_count_view))]
fn push_all_queues(alloc: Global, flaws: &mut Vec<Flaw>, table: &Table) -> Result<(), AllocError>
    ensures { OnOk result (flaws.new.items ≡ flaws.old.items ++ all_queue_flaws (value_in key.Queue (table_view table.now))) }
{
    let Some(queues) = value_in(Key::Queue, table) else {
        return Ok(());
    };
    match queues.as_array() {
        Some(items) if usize::from(MAX_IO_QUEUES) < items.len() => {
            push_fault(flaws, Site::of(Place::Top), Fault::Limit(Key::Queue))
        }
        Some(items) => push_queues(alloc, flaws, items),
        None => push_fault(flaws, Site::of(Place::Top), Fault::Bad(Key::Queue)),
    }
}

// How many queues a file has.
#[tactic(auto, using(crate::proofs::Turns::item_count_view))]
fn queue_count(table: &Table) -> u64
    ensures { result ≡ queue_count (value_in key.Queue (table_view table.now)) }
{
    let Some(queues) = value_in(Key::Queue, table) else {
        return 0;
    };
    match queues.as_array() {
        Some(items) => items.len() as u64,
        None => 0,
    }
}

// The fault of the sizes of the namespaces.
fn sizes_error(alloc: Global, table: &Table) -> Result<Option<ShortError>, AllocError>
    ensures { IfOk result (λ error. error ≡ result_err (sizes_in (table_view table.now))) }
{
    match sizes_in(alloc, table) {
        Ok(_) => Ok(None),
        Err(ShortError::At(place, fault)) => Ok(Some(ShortError::At(place, fault))),
        Err(ShortError::NoMemory) => Err(AllocError),
    }
}

// Appends the faults of the keys of a file's own table that come before its queues.
#[tactic(auto, unfolding(crate::specs::Flaws::settings_flaws))]
fn push_settings(alloc: Global, flaws: &mut Vec<Flaw>, table: &Table) -> Result<(), AllocError>
    ensures { OnOk result (flaws.new.items ≡ flaws.old.items ++ settings_flaws (table_view table.now)) }
{
    let top = Place::Top;
    let first = [
        number_at(top, Key::Version, 1, 1, table).err(),
        mechanism_in(table).err(),
    ];
    let rest = [
        sizes_error(alloc, table)?,
        number_or(top, Key::Patience, 100_000_000, 1, 0xffff_ffff, table).err(),
        slots_in(top, Key::AdminDepth, table).err(),
        slots_in(top, Key::AdminCqDepth, table).err(),
    ];
    push_unknown(flaws, Site::of(top), &FILE_KEYS, table)?;
    push_given(flaws, None, &first)?;
    push_arbitration(flaws, top, table)?;
    push_given(flaws, None, &rest)
}

// The faults that the tables of a file have.
#[tactic(auto, unfolding(crate::specs::Flaws::table_flaws))]
fn table_flaws(alloc: Global, table: &Table) -> Result<Vec<Flaw>, AllocError>
    ensures { IfOk result (λ flaws. flaws.items ≡ table_flaws (table_view table.now)) }
{
    let mut flaws = Vec::new(alloc);
    push_settings(alloc, &mut flaws, table)?;
    push_all_queues(alloc, &mut flaws, table)?;
    push_admin(&mut flaws, queue_count(table), table)?;
    Ok(flaws)
}

// Whether a fault is one of no table alone: there are too many commands.
fn is_of_count(error: ShortError) -> bool
    ensures { result ≡ is_of_count error }
{
    match error {
        ShortError::At(_, Fault::Limit(Key::Script)) => true,
        ShortError::At(_, Fault::Written(_)) => true,
        _ => false,
    }
}

// The first of the faults of tables, as the one at which reading ends.
fn leading(error: ShortError, flaws: &[Flaw]) -> Flaw
    ensures { result ≡ leading error flaws.now }
{
    match flaws {
        [flaw, ..] => Flaw { error, ..*flaw },
        [] => alone(error),
    }
}

// A fault of no table.
fn alone(error: ShortError) -> Flaw
    ensures { result ≡ alone error }
{
    Flaw {
        error,
        inner: None,
        nth: 0,
    }
}

// The faults behind the first.
fn behind(flaws: &[Flaw]) -> &[Flaw]
    ensures { result.now ≡ behind flaws.now }
{
    match flaws {
        [_, others @ ..] => others,
        [] => flaws,
    }
}

/// All faults of the table of a short workload file, of which this is the one at which reading ends: it is the first of
/// them. They come in the order in which keys are read. That there are too many commands is told where it is that one.
pub fn flaws_of(alloc: Global, table: &Table, error: ShortError) -> Result<Vec<Flaw>, AllocError>
    ensures { IfOk result (λ flaws. flaws.items ≡ led_by error (table_flaws (table_view table.now))) }
{
    let flaws = table_flaws(alloc, table)?;
    let mut led = Vec::new(alloc);
    if is_of_count(error) {
        led.push(alone(error))?;
        led.extend_from_slice(&flaws)?;
    } else {
        led.push(leading(error, &flaws))?;
        led.extend_from_slice(behind(&flaws))?;
    }
    Ok(led)
}
