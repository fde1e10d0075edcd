// The whole of a short workload file.
ghost use Rattle.std.specs.Prelude.{◌≡◌, [], Ok, IfOk, IfErr, OnOk};
ghost use Rattle.toml.specs.Data.{as_table};
ghost use Rattle.toml.specs.View.{view, items_view, table_view};
ghost use Rattle.nvme_short_form.specs.Readings.{Fails, Gives, in_turn, value_in};
ghost use Rattle.nvme_short_form.specs.Form.{is_short, without_weights, has_class, without_class, without_classes, unsaid_mechanism, optional_mechanism, with_size, sizes_in, form_of};
ghost use Rattle.nvme_short_form.specs.declared.key.Key.TheVariants as key;

use crate::admin::{Step, arbitration_in, push_steps};
use crate::error::{Fault, ShortError};
use crate::key::Key;
use crate::place::Place;
use crate::queue::{Queue, push_all_queues, slots_in};
use crate::tables::FILE_KEYS;
use crate::values::{array_of, number_at, number_or, only_keys, value_in, whole};
use nvme_arbiter::Mechanism;
use nvme_entry::MAX_NAMESPACES;
use nvme_workload::Sequence;
use std::alloc::Global;
use toml::{Table, Value};

/// What a short workload file says.
#[derive(Debug, Drop)]
pub struct Form {
    /// How the front chooses among the submission queues.
    pub mechanism: Mechanism,
    /// Command Dword 11 of the Arbitration feature at the start.
    pub arbitration: u32,
    /// The sizes of the namespaces, in blocks.
    pub sizes: Sequence<u64>,
    /// How many turns in a row may find nothing to do before a run gives up.
    pub patience: u32,
    /// The slots of the admin submission queue.
    pub admin_depth: u16,
    /// The slots of the admin completion queue.
    pub admin_cq_depth: u16,
    /// The I/O queues, by their numbers from 1.
    pub queues: Sequence<Queue>,
    /// The items of `admin`.
    pub steps: Sequence<Step>,
}

/// Whether the table is that of a short file: it has the key `version`.
pub fn is_short(table: &Table) -> bool
    ensures { result ≡ is_short (table_view table.now) }
{
    value_in(Key::Version, table).is_some()
}

// That a file has no weights.
fn without_weights(table: &Table) -> Result<(), ShortError>
    ensures { result ≡ without_weights (table_view table.now) }
{
    if value_in(Key::Weights, table).is_some() {
        return Err(ShortError::At(Place::Top, Fault::Missing(Key::Mechanism)));
    }
    Ok(())
}

// Whether a queue has a class.
fn has_class(queue: &Value) -> bool
    ensures { result ≡ has_class (as_table (view queue.now)) }
{
    match queue.as_table() {
        Some(table) => value_in(Key::Class, table).is_some(),
        None => false,
    }
}

// That none of these queues has a class.
fn without_classes_among(queues: &[Value]) -> Result<(), ShortError>
    ensures { result ≡ in_turn without_class 0 tt (items_view queues.now) }
{
    for (index, queue) in queues.iter().enumerate() {
        if has_class(queue) {
            let place = Place::Queue(index + 1);
            return Err(ShortError::At(place, Fault::Missing(Key::Mechanism)));
        }
    }
    Ok(())
}

// That no queue of a file has a class.
fn without_classes(table: &Table) -> Result<(), ShortError>
    ensures { result ≡ without_classes (value_in key.Queue (table_view table.now)) }
{
    let Some(value) = value_in(Key::Queue, table) else {
        return Ok(());
    };
    match value.as_array() {
        Some(queues) => without_classes_among(queues),
        None => Ok(()),
    }
}

// The mechanism of a file that says none: round robin, under which weights and classes have no effect. So a file that
// has some has to say its mechanism.
#[tactic(auto, unfolding(crate::specs::Form::unsaid_mechanism))]
fn unsaid_mechanism(table: &Table) -> Result<Mechanism, ShortError>
    ensures { result ≡ unsaid_mechanism (table_view table.now) }
{
    without_weights(table)?;
    without_classes(table)?;
    Ok(Mechanism::RoundRobin)
}

/// The mechanism that the table of a file says, or its fault. Where it says none, it is round robin, and neither `weights`
/// nor the `class` of a queue may stand there.
pub fn mechanism_in(table: &Table) -> Result<Mechanism, ShortError>
    ensures { result ≡ optional_mechanism (table_view table.now) (value_in key.Mechanism (table_view table.now)) }
{
    let Some(value) = value_in(Key::Mechanism, table) else {
        return unsaid_mechanism(table);
    };
    match value.as_str() {
        Some("round-robin") => Ok(Mechanism::RoundRobin),
        Some("weighted") => Ok(Mechanism::Weighted),
        _ => Err(ShortError::At(Place::Top, Fault::Bad(Key::Mechanism))),
    }
}

// Appends the size of one more namespace.
#[tactic(auto, unfolding(crate::specs::Form::with_size))]
fn push_size(sizes: &mut Vec<u64>, index: usize, item: &Value) -> Result<(), ShortError>
    ensures ok { OnOk result (with_size index sizes.old.items (view item.now) ≡ Ok sizes.new.items) }
    ensures err { IfErr result (λ e. Fails e (with_size index sizes.old.items (view item.now))) }
{
    let size = whole(Place::Top, Key::Namespaces, 1, 0x7fff_ffff_ffff_ffff, item)?;
    sizes.push(size)?;
    Ok(())
}

// Appends the sizes of an array.
fn push_sizes(sizes: &mut Vec<u64>, items: &[Value]) -> Result<(), ShortError>
    ensures ok { OnOk result (in_turn with_size 0 sizes.old.items (items_view items.now) ≡ Ok sizes.new.items) }
    ensures err { IfErr result (λ e. Fails e (in_turn with_size 0 sizes.old.items (items_view items.now))) }
{
    for (index, item) in items.iter().enumerate() {
        push_size(sizes, index, item)?;
    }
    Ok(())
}

// The sizes of the namespaces.
#[tactic(auto, using(crate::proofs::Turns::item_count_view), unfolding(crate::specs::Form::sizes_in))]
pub(crate) fn sizes_in(alloc: Global, table: &Table) -> Result<Sequence<u64>, ShortError>
    ensures { Gives result (sizes_in (table_view table.now)) }
{
    let mut sizes = Vec::new(alloc);
    match value_in(Key::Namespaces, table) {
        Some(value) => {
            let items = array_of(Place::Top, Key::Namespaces, value)?;
            if MAX_NAMESPACES < items.len() {
                return Err(ShortError::At(Place::Top, Fault::Limit(Key::Namespaces)));
            }
            push_sizes(&mut sizes, items)?;
        }
        None => sizes.push(0x10_0000)?,
    }
    Ok(Sequence::new(sizes))
}

/// What the table of a short workload file says, or its first fault. Keys that a table may not have are looked for
/// first, then each key is read in order; scripts item by item. The queues come before `admin`.
#[tactic(auto, unfolding(crate::specs::Form::form_of))]
pub fn form_of(alloc: Global, table: &Table) -> Result<Form, ShortError>
    ensures { Gives result (form_of (table_view table.now)) }
{
    only_keys(Place::Top, &FILE_KEYS, table)?;
    let _version = number_at(Place::Top, Key::Version, 1, 1, table)?;
    let mechanism = mechanism_in(table)?;
    let arbitration = arbitration_in(Place::Top, table)?;
    let sizes = sizes_in(alloc, table)?;
    let patience = number_or(
        Place::Top,
        Key::Patience,
        100_000_000,
        1,
        0xffff_ffff,
        table,
    )?;
    let admin_depth = slots_in(Place::Top, Key::AdminDepth, table)?;
    let admin_cq_depth = slots_in(Place::Top, Key::AdminCqDepth, table)?;
    let mut queues = Vec::new(alloc);
    let commands = push_all_queues(alloc, &mut queues, table)?;
    let mut steps = Vec::new(alloc);
    let _commands = push_steps(&mut steps, queues.len() as u16, commands, table)?;
    Ok(Form {
        mechanism,
        arbitration,
        sizes,
        patience: patience as u32,
        admin_depth,
        admin_cq_depth,
        queues: Sequence::new(queues),
        steps: Sequence::new(steps),
    })
}
