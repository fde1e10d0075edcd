// The queues.
ghost use Rattle.std.specs.Prelude.{◌≡◌, ◌+◌, ◌<◌, ◌≤◌, [], length, map, Some, IfErr, IfOk, OnOk};
ghost use Rattle.toml.specs.View.{view, items_view, table_view};
ghost use Rattle.nvme_model_form.specs.Readings.{Means, Refuses, seen, in_turn};
ghost use Rattle.nvme_model_form.specs.Views.{asking_of, coming_of, shares_of, spread_of, taking_of};
ghost use Rattle.nvme_model_form.specs.Queues.{class_in, slots_in, share_in, mix_of, mix_in, blocks_in, listed_alone, order_in, queue_in, with_queue, queues_in, queue_count, without};
ghost use Rattle.nvme_model.specs.declared.model.TheConstants.{MAX_QUEUES};
ghost use Rattle.nvme_model.specs.declared.queue.TheConstants.{MAX_SLOTS, MIN_SLOTS};

use crate::arrivals::arrivals_at;
use crate::error::{Fault, Kind, ModelError, Refusal, refused};
use crate::key::Key;
use crate::place::{Place, Target};
use crate::services::services_for;
use crate::tables::{MIX_KEYS, QUEUE_KEYS};
use crate::values::{bad, number_or, only_keys, table_of, value_at, value_in};
use nvme_arbiter::Class;
use nvme_load::{Arrivals, Extent, MAX_BLOCKS, Mix, Order, Places, Services};
use nvme_model::{MAX_QUEUES, MAX_SLOTS, MIN_SLOTS, Queue, QueuesFault};
use nvme_short_form::qprio_in;
use std::alloc::Global;
use toml::{Table, Value};

// The priority class of a queue.
fn class_in(number: usize, queue: &Table) -> Result<Class, ModelError>
    ensures { Means result (class_in number (table_view queue.now)) }
{
    match qprio_in(nvme_short_form::Place::Queue(number), queue)? {
        0 => Ok(Class::Urgent),
        1 => Ok(Class::High),
        2 => Ok(Class::Medium),
        _ => Ok(Class::Low),
    }
}

// The slots of a queue's rings.
fn slots_in(number: usize, queue: &Table) -> Result<u16, ModelError>
    ensures value { Means result (slots_in (table_view queue.now)) }
    ensures in_range { IfOk result (λ n. (MIN_SLOTS ≤ n) × (n ≤ MAX_SLOTS)) }
{
    let (low, high) = (u64::from(MIN_SLOTS), u64::from(MAX_SLOTS));
    let slots = number_or(Place::Queue(number), Key::Slots, 1024, low, high, queue)?;
    Ok(slots as u16)
}

// A share of a mix.
fn share_in(number: usize, key: Key, mix: &Table) -> Result<u32, ModelError>
    ensures { Means result (share_in key (table_view mix.now)) }
{
    let share = number_or(Place::Mix(number), key, 0, 0, 0xffff_ffff, mix)?;
    Ok(share as u32)
}

// A mix of these shares.
fn mix_of(number: usize, read: u32, write: u32, flush: u32) -> Result<Mix, ModelError>
    ensures { Means (seen shares_of result) (mix_of read write flush) }
{
    match Mix::new(read, write, flush) {
        Ok(mix) => Ok(mix),
        Err(fault) => Err(refused(Place::Queue(number), Key::Mix, Refusal::Mix(fault))),
    }
}

// The mix of a queue: reads alone, where it says none.
#[tactic(auto, unfolding(crate::specs::Queues::mix_table))]
fn mix_in(number: usize, queue: &Table) -> Result<Mix, ModelError>
    ensures { Means (seen shares_of result) (mix_in (table_view queue.now)) }
{
    let Some(value) = value_in(Key::Mix, queue) else {
        return mix_of(number, 1, 0, 0);
    };
    let table = table_of(Place::Queue(number), Key::Mix, value)?;
    only_keys(Place::Mix(number), &MIX_KEYS, table)?;
    let read = share_in(number, Key::Read, table)?;
    let write = share_in(number, Key::Write, table)?;
    let flush = share_in(number, Key::Flush, table)?;
    mix_of(number, read, write, flush)
}

// The blocks of a queue's commands in a namespace of this size.
fn extent_in(number: usize, size: u64, queue: &Table) -> Result<Extent, ModelError>
    ensures blocks { Means (seen (λ e. e.blocks) result) (blocks_in size (table_view queue.now)) }
    ensures size { IfOk result (λ e. e.size ≡ size) }
{
    let place = Place::Queue(number);
    let blocks = number_or(place, Key::Blocks, 8, 1, u64::from(MAX_BLOCKS), queue)?;
    match Extent::new(size, blocks as u32) {
        Ok(extent) => Ok(extent),
        Err(fault) => Err(refused(place, Key::Blocks, Refusal::Extent(fault))),
    }
}

// Where a queue's commands lie.
fn order_in(number: usize, queue: &Table) -> Result<Order, ModelError>
    ensures { Means result (order_in (table_view queue.now)) }
{
    let Some(value) = value_in(Key::Offsets, queue) else {
        return Ok(Order::Uniform);
    };
    match value.as_str() {
        Some("uniform") => Ok(Order::Uniform),
        Some("sequential") => Ok(Order::Sequential),
        _ => Err(bad(Place::Queue(number), Key::Offsets, Kind::Offsets)),
    }
}

// That a table doesn't have a key, of which the list of a replay says more.
fn without(number: usize, key: Key, queue: &Table) -> Result<(), ModelError>
    ensures { Means result (without key (table_view queue.now)) }
{
    match value_in(key, queue) {
        Some(_) => {
            let fault = Fault::Beside(Key::Replay);
            Err(ModelError::At(Place::Queue(number), Target::Key(key), fault))
        }
        None => Ok(()),
    }
}

// That a queue whose commands a list says has no key of what they do and where they lie.
fn listed_alone(number: usize, arrivals: &Arrivals, queue: &Table) -> Result<(), ModelError>
    ensures { Means result (listed_alone (coming_of arrivals.now) (table_view queue.now)) }
{
    match arrivals {
        Arrivals::Replay(_) => {
            without(number, Key::Mix, queue)?;
            without(number, Key::Blocks, queue)?;
            without(number, Key::Offsets, queue)
        }
        _ => Ok(()),
    }
}

// A queue of these parts.
fn queue_of(
    number: usize,
    class: Class,
    slots: u16,
    arrivals: Arrivals,
    mix: Mix,
    places: Places,
    services: Services,
) -> Result<Queue, ModelError>
    requires at_least { MIN_SLOTS ≤ slots }
    requires at_most { slots ≤ MAX_SLOTS }
    ensures { Means (seen asking_of result) (Some (record { class = class; slots = slots; coming = coming_of arrivals; shares = shares_of mix; size = places.extent.size; blocks = places.extent.blocks; order = places.order; read = taking_of services.read; write = taking_of services.write; flush = spread_of services.flush })) }
{
    match Queue::new(class, slots, arrivals, mix, places, services) {
        Ok(queue) => Ok(queue),
        Err(fault) => Err(refused(Place::Queue(number), Key::Slots, Refusal::Slots(fault))),
    }
}

// The queue of this number that a table says.
#[tactic(auto, unfolding(crate::specs::Queues::queue_in))]
fn queue_in(
    alloc: Global,
    number: usize,
    size: u64,
    device: &Table,
    queue: &Table,
) -> Result<Queue, ModelError>
    ensures { Means (seen asking_of result) (queue_in number size (table_view device.now) (table_view queue.now)) }
{
    only_keys(Place::Queue(number), &QUEUE_KEYS, queue)?;
    let class = class_in(number, queue)?;
    let slots = slots_in(number, queue)?;
    let arrivals = arrivals_at(alloc, number, size, queue)?;
    listed_alone(number, &arrivals, queue)?;
    let mix = mix_in(number, queue)?;
    let extent = extent_in(number, size, queue)?;
    let order = order_in(number, queue)?;
    let services = services_for(alloc, number, &arrivals, mix, queue, device)?;
    let places = Places::new(extent, order);
    queue_of(number, class, slots, arrivals, mix, places, services)
}

// Appends the queue of an item.
#[tactic(auto, unfolding(crate::specs::Queues::with_queue))]
fn push_queue(
    alloc: Global,
    queues: &mut Vec<Queue>,
    index: usize,
    size: u64,
    device: &Table,
    item: &Value,
) -> Result<(), ModelError>
    requires few { index < MAX_QUEUES }
    ensures ok { OnOk result (with_queue size (table_view device.now) index (map asking_of queues.old.items) (view item.now) ≡ Some (map asking_of queues.new.items)) }
    ensures err { IfErr result (λ e. Refuses e (with_queue size (table_view device.now) index (map asking_of queues.old.items) (view item.now))) }
    ensures one { OnOk result (length queues.new.items ≡ length queues.old.items + 1) }
{
    let Some(table) = item.as_table() else {
        let target = Target::Item(Key::Queue, index);
        return Err(ModelError::At(Place::Top, target, Fault::Bad(Kind::Table)));
    };
    let number = index + 1;
    queues.push(queue_in(alloc, number, size, device, table)?)?;
    Ok(())
}

// Appends the queues of an array.
fn push_queues(
    alloc: Global,
    queues: &mut Vec<Queue>,
    size: u64,
    device: &Table,
    items: &[Value],
) -> Result<(), ModelError>
    requires none { queues.old.items ≡ [] }
    requires few { length items.now ≤ MAX_QUEUES }
    ensures ok { OnOk result (in_turn (with_queue size (table_view device.now)) 0 [] (items_view items.now) ≡ Some (map asking_of queues.new.items)) }
    ensures err { IfErr result (λ e. Refuses e (in_turn (with_queue size (table_view device.now)) 0 [] (items_view items.now))) }
    ensures count { OnOk result (length queues.new.items ≡ length items.now) }
{
    for (index, item) in items.iter().enumerate() {
        push_queue(alloc, queues, index, size, device, item)?;
    }
    Ok(())
}

/// The queues of a file, over a device with a namespace of this size.
#[tactic(auto, using(crate::proofs::Turns::item_count_view), unfolding(crate::specs::Queues::queues_in))]
pub(crate) fn queues_in(
    alloc: Global,
    size: u64,
    device: &Table,
    file: &Table,
) -> Result<Vec<Queue>, ModelError>
    ensures value { Means (seen (λ qs. map asking_of qs.items) result) (queues_in size (table_view device.now) (table_view file.now)) }
    ensures count { IfOk result (λ qs. queue_count (table_view file.now) ≡ Some (length qs.items)) }
    ensures some { IfOk result (λ qs. 0 < length qs.items) }
    ensures at_most { IfOk result (λ qs. length qs.items ≤ MAX_QUEUES) }
{
    let value = value_at(Place::Top, Key::Queue, file)?;
    let Some(items) = value.as_array() else {
        return Err(bad(Place::Top, Key::Queue, Kind::Queues));
    };
    if items.is_empty() {
        let refusal = Refusal::Queues(QueuesFault::NoQueues);
        return Err(refused(Place::Top, Key::Queue, refusal));
    }
    if items.len() > MAX_QUEUES {
        let refusal = Refusal::Queues(QueuesFault::TooManyQueues);
        return Err(refused(Place::Top, Key::Queue, refusal));
    }
    let mut queues = Vec::new(alloc);
    push_queues(alloc, &mut queues, size, device, items)?;
    Ok(queues)
}
