// The tables that a short workload file is written out to.
ghost use Rattle.std.specs.Prelude.{◌≡◌, ◌++◌, ◌∷◌, [], map, IfOk, OnOk};
ghost use Rattle.toml.specs.Data.{array, table};
ghost use Rattle.toml.specs.View.{view, table_view, items_of};
ghost use Rattle.nvme_short.specs.Documents.{with_key, with_number_over, number, item_members, script_data, completion_data, submission_data, submission_of, completions_of, submissions_in, completions_in, mechanism_name, document_of, flat, sq_address, cq_address};

use crate::creates::admin_script;
use nvme_admin::MAX_IO_QUEUES;
use nvme_arbiter::Mechanism;
use nvme_short_form::{Form, Item, Queue};
use nvme_workload::Key;
use std::alloc::{AllocError, Global};
use toml::{Table, Value};

// A number below 2^63.
fn number(n: u64) -> Value
    ensures { view result ≡ number n }
{
    Value::Integer((n % 0x8000_0000_0000_0000) as i64)
}

// Puts a value at a key.
fn put(alloc: Global, table: &mut Table, key: Key, value: Value) -> Result<(), AllocError>
    ensures { OnOk result (table_view table.new ≡ with_key key (view value) (table_view table.old)) }
{
    let name = String::from_str(alloc, key.name())?;
    drop(table.insert(name, value)?);
    Ok(())
}

// Puts a number at a key, unless it is the one that is read where the key is absent.
fn put_over(
    alloc: Global,
    table: &mut Table,
    default: u64,
    key: Key,
    value: u64,
) -> Result<(), AllocError>
    ensures { OnOk result (table_view table.new ≡ with_number_over default key value (table_view table.old)) }
{
    if value != default {
        put(alloc, table, key, number(value))?;
    }
    Ok(())
}

// An item of a script.
fn item_value(alloc: Global, item: &Item) -> Result<Value, AllocError>
    ensures { IfOk result (λ v. view v ≡ table (item_members item.now)) }
{
    let mut table = Table::new(alloc);
    put(alloc, &mut table, Key::Op, number(u64::from(item.op)))?;
    put_over(alloc, &mut table, 0, Key::Flags, u64::from(item.flags))?;
    put_over(alloc, &mut table, 0, Key::Nsid, u64::from(item.nsid))?;
    put_over(alloc, &mut table, 0, Key::Prp1, item.prp1)?;
    put_over(alloc, &mut table, 0, Key::Cdw10, item.dw10 % 0x1_0000_0000)?;
    put_over(alloc, &mut table, 0, Key::Cdw11, item.dw10 / 0x1_0000_0000)?;
    put_over(alloc, &mut table, 0, Key::Cdw12, u64::from(item.cdw12))?;
    put_over(alloc, &mut table, 1, Key::Count, u64::from(item.count))?;
    Ok(Value::Table(table))
}

// A script.
fn script_value(alloc: Global, items: &[Item]) -> Result<Value, AllocError>
    ensures { IfOk result (λ v. view v ≡ script_data items.now) }
{
    let mut values = Vec::new(alloc);
    for item in items {
        values.push(item_value(alloc, item)?)?;
    }
    Ok(Value::Array(values))
}

// A completion region.
fn completion_value(alloc: Global, address: u64, slots: u16) -> Result<Value, AllocError>
    ensures { IfOk result (λ v. view v ≡ completion_data address slots) }
{
    let mut table = Table::new(alloc);
    put(alloc, &mut table, Key::Address, number(address))?;
    put(alloc, &mut table, Key::Slots, number(u64::from(slots)))?;
    Ok(Value::Table(table))
}

// A submission region.
fn submission_value(
    alloc: Global,
    address: u64,
    slots: u16,
    items: &[Item],
) -> Result<Value, AllocError>
    ensures { IfOk result (λ v. view v ≡ submission_data address slots items.now) }
{
    let mut table = Table::new(alloc);
    put(alloc, &mut table, Key::Address, number(address))?;
    put(alloc, &mut table, Key::Slots, number(u64::from(slots)))?;
    put(alloc, &mut table, Key::Script, script_value(alloc, items)?)?;
    Ok(Value::Table(table))
}

// The region of the queue of a number, 0 for the admin queue.
pub(crate) fn sq_address(queue: u16) -> u64
    ensures { result ≡ sq_address queue }
{
    0x10_0000 * (u64::from(queue) + 1)
}

pub(crate) fn cq_address(queue: u16) -> u64
    ensures { result ≡ cq_address queue }
{
    0x10_0000 * (u64::from(queue) + 129)
}

// The submission region of a queue.
fn submission_of(alloc: Global, queue: &Queue) -> Result<Value, AllocError>
    ensures { IfOk result (λ v. view v ≡ submission_of queue.now) }
{
    let address = sq_address(queue.number);
    submission_value(alloc, address, queue.depth, queue.script.as_slice())
}

// The submission regions.
fn submissions_in(alloc: Global, form: &Form) -> Result<Vec<Value>, AllocError>
    ensures { IfOk result (λ vs. map view vs.items ≡ submissions_in form.now) }
{
    let queues = form.queues.as_slice();
    let script = admin_script(alloc, queues, form.steps.as_slice())?;
    let first = submission_value(alloc, sq_address(0), form.admin_depth, &script)?;
    let mut values = Vec::new(alloc);
    values.push(first)?;
    push_submissions(alloc, &mut values, queues)?;
    Ok(values)
}

// Appends the submission regions of queues.
fn push_submissions(
    alloc: Global,
    values: &mut Vec<Value>,
    queues: &[Queue],
) -> Result<(), AllocError>
    ensures { OnOk result (map view values.new.items ≡ map view values.old.items ++ map submission_of queues.now) }
{
    for queue in queues {
        values.push(submission_of(alloc, queue)?)?;
    }
    Ok(())
}

// Appends the completion region of a queue with a completion queue of its own.
fn push_completion(alloc: Global, values: &mut Vec<Value>, queue: &Queue) -> Result<(), AllocError>
    ensures { OnOk result (map view values.new.items ≡ map view values.old.items ++ completions_of queue.now) }
{
    if queue.cq == queue.number {
        let address = cq_address(queue.number);
        values.push(completion_value(alloc, address, queue.cq_depth)?)?;
    }
    Ok(())
}

// The completion regions.
fn completions_in(alloc: Global, form: &Form) -> Result<Vec<Value>, AllocError>
    ensures { IfOk result (λ vs. map view vs.items ≡ completions_in form.now) }
{
    let first = completion_value(alloc, cq_address(0), form.admin_cq_depth)?;
    let mut values = Vec::new(alloc);
    values.push(first)?;
    push_completions(alloc, &mut values, form.queues.as_slice())?;
    Ok(values)
}

// Appends the completion regions of queues.
fn push_completions(
    alloc: Global,
    values: &mut Vec<Value>,
    queues: &[Queue],
) -> Result<(), AllocError>
    ensures { OnOk result (map view values.new.items ≡ map view values.old.items ++ flat completions_of queues.now) }
{
    for queue in queues {
        push_completion(alloc, values, queue)?;
    }
    Ok(())
}

// The sizes of the namespaces.
fn sizes_value(alloc: Global, sizes: &[u64]) -> Result<Value, AllocError>
    ensures { IfOk result (λ v. view v ≡ array (items_of (map number sizes.now))) }
{
    let mut values = Vec::new(alloc);
    for size in sizes {
        values.push(number(*size))?;
    }
    Ok(Value::Array(values))
}

// The name of the mechanism.
fn mechanism_name(mechanism: Mechanism) -> &'static str
    ensures { result.now ≡ mechanism_name mechanism }
{
    match mechanism {
        Mechanism::RoundRobin => "round-robin",
        Mechanism::Weighted => "weighted",
    }
}

/// The table of the workload file that says the same.
#[tactic(auto, unfolding(crate::specs::Documents::document_of))]
pub(crate) fn document_of(alloc: Global, form: &Form) -> Result<Table, AllocError>
    ensures { IfOk result (λ t. table_view t ≡ document_of form.now) }
{
    let mut table = Table::new(alloc);
    let mechanism = Value::string(alloc, mechanism_name(form.mechanism))?;
    let limit = u64::from(MAX_IO_QUEUES);
    put(alloc, &mut table, Key::Mechanism, mechanism)?;
    put(
        alloc,
        &mut table,
        Key::Arbitration,
        number(u64::from(form.arbitration)),
    )?;
    put(alloc, &mut table, Key::SqLimit, number(limit))?;
    put(alloc, &mut table, Key::CqLimit, number(limit))?;
    put(
        alloc,
        &mut table,
        Key::Patience,
        number(u64::from(form.patience)),
    )?;
    put(
        alloc,
        &mut table,
        Key::Namespaces,
        sizes_value(alloc, form.sizes.as_slice())?,
    )?;
    put(
        alloc,
        &mut table,
        Key::Submission,
        Value::Array(submissions_in(alloc, form)?),
    )?;
    put(
        alloc,
        &mut table,
        Key::Completion,
        Value::Array(completions_in(alloc, form)?),
    )?;
    Ok(table)
}
