// The I/O queues.
ghost use Rattle.std.specs.Prelude.{◌≡◌, ◌+◌, ◌<◌, ◌≤◌, [], length, vec_len, Ok, IfOk, IfErr};
ghost use Rattle.toml.specs.View.{view, items_view, table_view};
ghost use Rattle.nvme_workload.specs.Scripts.{most_commands};
ghost use Rattle.nvme_short_form.specs.Readings.{Fails, in_turn, value_in};
ghost use Rattle.nvme_short_form.specs.Queues.{slots_in, qprio_in, has_cq, shared_cq, cq_of, create_count, with_creates, with_queue, queues_in};
ghost use Rattle.nvme_short_form.specs.declared.key.Key.TheVariants as key;
ghost use Rattle.nvme_short_form.specs.declared.place.Place.TheVariants as place;

use crate::command::Item;
use crate::error::{Fault, ShortError};
use crate::key::Key;
use crate::place::Place;
use crate::script::{push_script, with_more};
use crate::tables::{QUEUE_KEYS, SHARED_KEYS};
use crate::values::{array_of, number_or, only_keys, table_of, value_in, whole};
use nvme_admin::{MAX_IO_QUEUES, MAX_SLOTS, MIN_SLOTS};
use nvme_workload::Sequence;
use std::alloc::Global;
use toml::{Table, Value};

/// An I/O queue of a short workload file.
#[derive(Debug, Drop)]
pub struct Queue {
    /// The identifier of its submission queue: its place in the file, from 1.
    pub number: u16,
    /// QPRIO of its Create: 0 urgent, 1 high, 2 medium, 3 low.
    pub qprio: u8,
    /// The slots of its submission queue, 2 to 4,096.
    pub depth: u16,
    /// The identifier of its completion queue: `number`, or that of an earlier queue.
    pub cq: u16,
    /// The slots of its own completion queue, 2 to 4,096.
    pub cq_depth: u16,
    /// What its host submits.
    pub script: Sequence<Item>,
}

// The slots of a ring.
pub(crate) fn slots_in(place: Place, key: Key, table: &Table) -> Result<u16, ShortError>
    ensures { result ≡ slots_in place key (table_view table.now) }
{
    let slots = number_or(
        place,
        key,
        1024,
        u64::from(MIN_SLOTS),
        u64::from(MAX_SLOTS),
        table,
    )?;
    Ok(slots as u16)
}

/// QPRIO, by `class` of the table of a queue at this place, or its fault: 0 urgent, 1 high, 2 medium, 3 low.
pub fn qprio_in(place: Place, table: &Table) -> Result<u8, ShortError>
    ensures { result ≡ qprio_in place (table_view table.now) }
{
    let Some(value) = value_in(Key::Class, table) else {
        return Ok(2);
    };
    match value.as_str() {
        Some("urgent") => Ok(0),
        Some("high") => Ok(1),
        Some("medium") => Ok(2),
        Some("low") => Ok(3),
        _ => Err(ShortError::At(place, Fault::Bad(Key::Class))),
    }
}

// Whether some queue of these uses the completion queue.
fn has_cq(queues: &[Queue], cq: u16) -> bool
    ensures { result ≡ has_cq queues.now cq }
{
    queues.iter().any(|queue| queue.cq == cq)
}

// The identifier of a completion queue that an earlier queue has.
#[tactic(auto, unfolding(crate::specs::Queues::shared_cq))]
fn shared_cq(place: Place, before: &[Queue], value: &Value) -> Result<u16, ShortError>
    ensures { result ≡ shared_cq place before.now (view value.now) }
{
    let cq = whole(place, Key::Cq, 1, u64::from(MAX_IO_QUEUES), value)? as u16;
    if has_cq(before, cq) {
        Ok(cq)
    } else {
        Err(ShortError::At(place, Fault::Bad(Key::Cq)))
    }
}

// The identifier of the completion queue of one more queue, whose keys are looked at first.
fn cq_of(before: &[Queue], table: &Table) -> Result<u16, ShortError>
    requires { length before.now < MAX_IO_QUEUES }
    ensures { result ≡ cq_of before.now (table_view table.now) (value_in key.Cq (table_view table.now)) }
{
    let number = before.len() + 1;
    let place = Place::Queue(number);
    match value_in(Key::Cq, table) {
        Some(value) => {
            only_keys(place, &SHARED_KEYS, table)?;
            shared_cq(place, before, value)
        }
        None => {
            only_keys(place, &QUEUE_KEYS, table)?;
            Ok(number as u16)
        }
    }
}

// The number of all commands so far, with the Creates of a queue.
fn with_creates(place: Place, before: u64, number: u16, cq: u16) -> Result<u64, ShortError>
    requires { before ≤ most_commands }
    ensures value { result ≡ with_creates place before (create_count number cq) }
    ensures fits { IfOk result (λ n. n ≤ most_commands) }
{
    with_more(place, before, if cq == number { 2 } else { 1 })
}

// Appends one more queue.
#[tactic(auto, unfolding(crate::specs::Queues::with_queue))]
fn push_queue(
    alloc: Global,
    queues: &mut Vec<Queue>,
    index: usize,
    before: u64,
    item: &Value,
) -> Result<u64, ShortError>
    requires few { before ≤ most_commands }
    requires room { vec_len queues.old < MAX_IO_QUEUES }
    ensures ok { IfOk result (λ n. with_queue index (queues.old.items, before) (view item.now) ≡ Ok (queues.new.items, n)) }
    ensures err { IfErr result (λ e. Fails e (with_queue index (queues.old.items, before) (view item.now))) }
    ensures fits { IfOk result (λ n. n ≤ most_commands) }
    ensures one { IfOk result (λ n. vec_len queues.new ≡ vec_len queues.old + 1) }
{
    let number = queues.len() + 1;
    let place = Place::Queue(number);
    let table = table_of(place, Key::Queue, item)?;
    let cq = cq_of(queues, table)?;
    let qprio = qprio_in(place, table)?;
    let depth = slots_in(place, Key::Depth, table)?;
    let cq_depth = slots_in(place, Key::CqDepth, table)?;
    let commands = with_creates(place, before, number as u16, cq)?;
    let mut script = Vec::new(alloc);
    let commands = push_script(alloc, &mut script, number, commands, table)?;
    queues.push(Queue {
        number: number as u16,
        qprio,
        depth,
        cq,
        cq_depth,
        script: Sequence::new(script),
    })?;
    Ok(commands)
}

// Appends the queues of an array.
fn push_queues(alloc: Global, queues: &mut Vec<Queue>, items: &[Value]) -> Result<u64, ShortError>
    requires none { queues.old.items ≡ [] }
    requires room { length items.now ≤ MAX_IO_QUEUES }
    ensures ok { IfOk result (λ n. in_turn with_queue 0 (queues.old.items, 0) (items_view items.now) ≡ Ok (queues.new.items, n)) }
    ensures err { IfErr result (λ e. Fails e (in_turn with_queue 0 (queues.old.items, 0) (items_view items.now))) }
    ensures fits { IfOk result (λ n. n ≤ most_commands) }
    ensures few { IfOk result (λ n. vec_len queues.new ≤ MAX_IO_QUEUES) }
{
    let mut commands = 0;
    for (index, item) in items.iter().enumerate() {
        commands = push_queue(alloc, queues, index, commands, item)?;
    }
    Ok(commands)
}

// The queues of a file, and the number of their commands and Creates.
#[tactic(auto, using(crate::proofs::Turns::item_count_view), unfolding(crate::specs::Queues::queues_in))]
pub(crate) fn push_all_queues(
    alloc: Global,
    queues: &mut Vec<Queue>,
    table: &Table,
) -> Result<u64, ShortError>
    requires none { queues.old.items ≡ [] }
    ensures ok { IfOk result (λ n. queues_in (table_view table.now) ≡ Ok (queues.new.items, n)) }
    ensures err { IfErr result (λ e. Fails e (queues_in (table_view table.now))) }
    ensures fits { IfOk result (λ n. n ≤ most_commands) }
    ensures few { IfOk result (λ n. vec_len queues.new ≤ MAX_IO_QUEUES) }
{
    let Some(value) = value_in(Key::Queue, table) else {
        return Ok(0);
    };
    let items = array_of(Place::Top, Key::Queue, value)?;
    if usize::from(MAX_IO_QUEUES) < items.len() {
        return Err(ShortError::At(Place::Top, Fault::Limit(Key::Queue)));
    }
    push_queues(alloc, queues, items)
}
