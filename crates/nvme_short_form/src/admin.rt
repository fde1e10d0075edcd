// The admin commands.
ghost use Rattle.std.specs.Prelude.{◌≡◌, ◌≤◌, [], Ok, IfOk, IfErr};
ghost use Rattle.toml.specs.View.{view, items_view, table_view};
ghost use Rattle.nvme_workload.specs.Scripts.{most_commands};
ghost use Rattle.nvme_short_form.specs.Readings.{Fails, in_turn, value_in};
ghost use Rattle.nvme_short_form.specs.Admin.{optional_burst, optional_weights, weights_of, weights_place, arbitration_in, admin_item, queue_at, abort_of, set_of, optional_feature, get_of, step_of, step_count, with_step, steps_in};
ghost use Rattle.nvme_short_form.specs.declared.key.Key.TheVariants as key;

use crate::command::{Item, raw_of};
use crate::error::{Fault, ShortError};
use crate::key::Key;
use crate::place::Place;
use crate::script::with_more;
use crate::tables::{ABORT_KEYS, GET_KEYS, QUEUE_OP_KEYS, SET_KEYS, WEIGHT_KEYS};
use crate::values::{array_of, number_at, number_or, only_keys, table_of, value_at, value_in};
use toml::{Table, Value};

/// An item of `admin`.
#[derive(Clone, Copy, Debug, PartialEq, Eq)]
pub enum Step {
    /// The Creates of the queue of this number.
    Create(u16),
    /// A command.
    Command(Item),
}

// The field of the burst.
pub(crate) fn burst_in(place: Place, table: &Table) -> Result<u32, ShortError>
    ensures value { result ≡ optional_burst place (value_in key.Burst (table_view table.now)) }
    ensures in_range { IfOk result (λ code. code ≤ 7) }
{
    let Some(value) = value_in(Key::Burst, table) else {
        return Ok(0);
    };
    match value.as_str() {
        Some("none") => Ok(7),
        Some(_) => Err(ShortError::At(place, Fault::Bad(Key::Burst))),
        None => match value.as_integer() {
            Some(1) => Ok(0),
            Some(2) => Ok(1),
            Some(4) => Ok(2),
            Some(8) => Ok(3),
            Some(16) => Ok(4),
            Some(32) => Ok(5),
            Some(64) => Ok(6),
            _ => Err(ShortError::At(place, Fault::Bad(Key::Burst))),
        },
    }
}

// Where the weights of a table are: of the file's own, or of an item of `admin`.
pub(crate) fn weights_place(place: Place) -> Place
    ensures { result ≡ weights_place place }
{
    match place {
        Place::Top => Place::Weights,
        Place::Admin(item) => Place::AdminWeights(item),
        place => place,
    }
}

// The fields of the weights.
#[tactic(auto, unfolding(crate::specs::Admin::weights_of))]
fn weights_of(place: Place, value: &Value) -> Result<u32, ShortError>
    ensures value { result ≡ weights_of place (view value.now) }
    ensures in_range { IfOk result (λ fields. fields ≤ 0xffff_ff00) }
{
    let table = table_of(place, Key::Weights, value)?;
    let at = weights_place(place);
    only_keys(at, &WEIGHT_KEYS, table)?;
    let high = number_or(at, Key::High, 1, 1, 256, table)?;
    let medium = number_or(at, Key::Medium, 1, 1, 256, table)?;
    let low = number_or(at, Key::Low, 1, 1, 256, table)?;
    let fields = 0x100 * (low - 1) + 0x1_0000 * (medium - 1) + 0x100_0000 * (high - 1);
    Ok(fields as u32)
}

// The fields of the weights, which may be left out.
fn weights_in(place: Place, table: &Table) -> Result<u32, ShortError>
    ensures value { result ≡ optional_weights place (value_in key.Weights (table_view table.now)) }
    ensures in_range { IfOk result (λ fields. fields ≤ 0xffff_ff00) }
{
    match value_in(Key::Weights, table) {
        Some(value) => weights_of(place, value),
        None => Ok(0),
    }
}

/// Command Dword 11 of the Arbitration feature, by `burst` and `weights` of a table at this place, or its fault.
#[tactic(auto, unfolding(crate::specs::Admin::arbitration_in))]
pub fn arbitration_in(place: Place, table: &Table) -> Result<u32, ShortError>
    ensures { result ≡ arbitration_in place (table_view table.now) }
{
    let burst = burst_in(place, table)?;
    let weights = weights_in(place, table)?;
    Ok(burst + weights)
}

// An admin command of this opcode.
fn admin_item(opcode: u8, cdw10: u32, cdw11: u32) -> Item
    ensures { result ≡ admin_item opcode cdw10 cdw11 }
{
    Item {
        op: opcode,
        flags: 0,
        nsid: 0,
        prp1: 0,
        dw10: u64::from(cdw10) + 0x1_0000_0000 * u64::from(cdw11),
        cdw12: 0,
        count: 1,
    }
}

// The number of one of so many queues.
#[tactic(auto, unfolding(crate::specs::Admin::queue_at))]
fn queue_at(place: Place, queues: u16, table: &Table) -> Result<u16, ShortError>
    ensures { result ≡ queue_at place queues (table_view table.now) }
{
    only_keys(place, &QUEUE_OP_KEYS, table)?;
    let number = number_at(place, Key::Number, 1, u64::from(queues), table)?;
    Ok(number as u16)
}

// An Abort.
#[tactic(auto, unfolding(crate::specs::Admin::abort_of))]
fn abort_of(place: Place, table: &Table) -> Result<Step, ShortError>
    ensures { result ≡ abort_of place (table_view table.now) }
{
    only_keys(place, &ABORT_KEYS, table)?;
    let queue = number_at(place, Key::Target, 0, 0xffff, table)?;
    let cid = number_at(place, Key::Cid, 0, 0xffff, table)?;
    Ok(Step::Command(admin_item(8, (queue + 0x1_0000 * cid) as u32, 0)))
}

// A Set Features of Arbitration.
#[tactic(auto, unfolding(crate::specs::Admin::set_of))]
fn set_of(place: Place, table: &Table) -> Result<Step, ShortError>
    ensures { result ≡ set_of place (table_view table.now) }
{
    only_keys(place, &SET_KEYS, table)?;
    let arbitration = arbitration_in(place, table)?;
    Ok(Step::Command(admin_item(9, 1, arbitration)))
}

// The identifier of a feature.
pub(crate) fn feature_in(place: Place, table: &Table) -> Result<u32, ShortError>
    ensures { result ≡ optional_feature place (value_in key.Feature (table_view table.now)) }
{
    let Some(value) = value_in(Key::Feature, table) else {
        return Ok(1);
    };
    match value.as_str() {
        Some("arbitration") => Ok(1),
        Some("number-of-queues") => Ok(7),
        _ => Err(ShortError::At(place, Fault::Bad(Key::Feature))),
    }
}

// A Get Features.
#[tactic(auto, unfolding(crate::specs::Admin::get_of))]
fn get_of(place: Place, table: &Table) -> Result<Step, ShortError>
    ensures { result ≡ get_of place (table_view table.now) }
{
    only_keys(place, &GET_KEYS, table)?;
    let feature = feature_in(place, table)?;
    Ok(Step::Command(admin_item(10, feature, 0)))
}

// The step that `op` names, or the item of an opcode.
#[tactic(auto, unfolding(crate::specs::Admin::step_of))]
fn step_of(place: Place, queues: u16, table: &Table) -> Result<Step, ShortError>
    ensures { result ≡ step_of place queues (table_view table.now) }
{
    match value_at(place, Key::Op, table)?.as_str() {
        Some("create") => Ok(Step::Create(queue_at(place, queues, table)?)),
        Some("delete") => {
            let number = queue_at(place, queues, table)?;
            Ok(Step::Command(admin_item(0, u32::from(number), 0)))
        }
        Some("abort") => abort_of(place, table),
        Some("set-arbitration") => set_of(place, table),
        Some("get-features") => get_of(place, table),
        Some(_) => Err(ShortError::At(place, Fault::Bad(Key::Op))),
        None => Ok(Step::Command(raw_of(place, table)?)),
    }
}

// The commands of a step that count with it.
fn step_count(step: &Step) -> u32
    ensures { result ≡ step_count step.now }
{
    match step {
        Step::Create(_) => 0,
        Step::Command(item) => item.count,
    }
}

// Appends one more step.
#[tactic(auto, unfolding(crate::specs::Admin::with_step))]
fn push_step(
    steps: &mut Vec<Step>,
    queues: u16,
    index: usize,
    before: u64,
    item: &Value,
) -> Result<u64, ShortError>
    requires few { before ≤ most_commands }
    ensures ok { IfOk result (λ n. with_step queues index (steps.old.items, before) (view item.now) ≡ Ok (steps.new.items, n)) }
    ensures err { IfErr result (λ e. Fails e (with_step queues index (steps.old.items, before) (view item.now))) }
    ensures fits { IfOk result (λ n. n ≤ most_commands) }
{
    let place = Place::Admin(index);
    let table = table_of(place, Key::Admin, item)?;
    let step = step_of(place, queues, table)?;
    let commands = with_more(place, before, u64::from(step_count(&step)))?;
    steps.push(step)?;
    Ok(commands)
}

// Appends the steps of an array.
fn push_items(
    steps: &mut Vec<Step>,
    queues: u16,
    before: u64,
    items: &[Value],
) -> Result<u64, ShortError>
    requires few { before ≤ most_commands }
    ensures ok { IfOk result (λ n. in_turn (with_step queues) 0 (steps.old.items, before) (items_view items.now) ≡ Ok (steps.new.items, n)) }
    ensures err { IfErr result (λ e. Fails e (in_turn (with_step queues) 0 (steps.old.items, before) (items_view items.now))) }
{
    let mut commands = before;
    for (index, item) in items.iter().enumerate() {
        commands = push_step(steps, queues, index, commands, item)?;
    }
    Ok(commands)
}

// Appends the steps of a file, after so many queues and commands.
#[tactic(auto, unfolding(crate::specs::Admin::steps_in))]
pub(crate) fn push_steps(
    steps: &mut Vec<Step>,
    queues: u16,
    before: u64,
    table: &Table,
) -> Result<u64, ShortError>
    requires few { before ≤ most_commands }
    requires none { steps.old.items ≡ [] }
    ensures ok { IfOk result (λ n. steps_in queues before (table_view table.now) ≡ Ok (steps.new.items, n)) }
    ensures err { IfErr result (λ e. Fails e (steps_in queues before (table_view table.now))) }
{
    let Some(value) = value_in(Key::Admin, table) else {
        return Ok(before);
    };
    push_items(
        steps,
        queues,
        before,
        array_of(Place::Top, Key::Admin, value)?,
    )
}
