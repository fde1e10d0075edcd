// The admin script: the Creates and the steps.
ghost use Rattle.std.specs.Prelude.{◌≡◌, ◌++◌, IfOk, OnOk};
ghost use Rattle.std.specs.List.{list_any};
ghost use Rattle.nvme_short.specs.Documents.{create_cq, create_sq, creates_of, creates, first_creates_of, creates_at, step_items, admin_script, flat};

use crate::document::{cq_address, sq_address};
use nvme_short_form::{Item, Queue, Step};
use std::alloc::{AllocError, Global};

// The Create of the completion queue of a queue.
fn create_cq(queue: &Queue) -> Item
    ensures { result ≡ create_cq queue.now }
{
    let qsize = u64::from(queue.cq_depth.saturating_sub(1));
    Item {
        op: 5,
        flags: 0,
        nsid: 0,
        prp1: cq_address(queue.number),
        dw10: u64::from(queue.number) + 0x1_0000 * qsize + 0x1_0000_0000,
        cdw12: 0,
        count: 1,
    }
}

// The Create of its submission queue.
fn create_sq(queue: &Queue) -> Item
    ensures { result ≡ create_sq queue.now }
{
    let (number, qprio, cq) = (queue.number, queue.qprio, queue.cq);
    let qsize = u64::from(queue.depth.saturating_sub(1));
    let cdw11 = 1 + 2 * u64::from(qprio) + 0x1_0000 * u64::from(cq);
    Item {
        op: 1,
        flags: 0,
        nsid: 0,
        prp1: sq_address(queue.number),
        dw10: u64::from(number) + 0x1_0000 * qsize + 0x1_0000_0000 * cdw11,
        cdw12: 0,
        count: 1,
    }
}

// Appends the Creates of a queue.
fn push_creates(items: &mut Vec<Item>, queue: &Queue) -> Result<(), AllocError>
    ensures { OnOk result (items.new.items ≡ items.old.items ++ creates_of queue.now) }
{
    if queue.cq == queue.number {
        items.push(create_cq(queue))?;
    }
    items.push(create_sq(queue))?;
    Ok(())
}

// Whether a step creates the queue of the number.
fn creates(number: u16, step: &Step) -> bool
    ensures { result ≡ creates number step.now }
{
    match step {
        Step::Create(created) => *created == number,
        Step::Command(_) => false,
    }
}

// Whether some step creates the queue of the number.
fn is_created(steps: &[Step], number: u16) -> bool
    ensures { result ≡ list_any (creates number) steps.now }
{
    steps.iter().any(|step| creates(number, step))
}

/// Appends the Creates of a queue that no step creates.
pub(crate) fn push_first_creates_of(
    items: &mut Vec<Item>,
    steps: &[Step],
    queue: &Queue,
) -> Result<(), AllocError>
    ensures { OnOk result (items.new.items ≡ items.old.items ++ first_creates_of steps.now queue.now) }
{
    if !is_created(steps, queue.number) {
        push_creates(items, queue)?;
    }
    Ok(())
}

// Appends the Creates of the queues that no step creates.
fn push_first_creates(
    items: &mut Vec<Item>,
    queues: &[Queue],
    steps: &[Step],
) -> Result<(), AllocError>
    ensures { OnOk result (items.new.items ≡ items.old.items ++ flat (first_creates_of steps.now) queues.now) }
{
    for queue in queues {
        push_first_creates_of(items, steps, queue)?;
    }
    Ok(())
}

// Appends the Creates of a queue, where it has the number.
fn push_creates_if(items: &mut Vec<Item>, number: u16, queue: &Queue) -> Result<(), AllocError>
    ensures { OnOk result (items.new.items ≡ items.old.items ++ creates_at number queue.now) }
{
    if queue.number == number {
        push_creates(items, queue)?;
    }
    Ok(())
}

// Appends the Creates of the queue of the number.
fn push_creates_at(items: &mut Vec<Item>, queues: &[Queue], number: u16) -> Result<(), AllocError>
    ensures { OnOk result (items.new.items ≡ items.old.items ++ flat (creates_at number) queues.now) }
{
    for queue in queues {
        push_creates_if(items, number, queue)?;
    }
    Ok(())
}

/// Appends the commands of a step.
pub(crate) fn push_step(
    items: &mut Vec<Item>,
    queues: &[Queue],
    step: &Step,
) -> Result<(), AllocError>
    ensures { OnOk result (items.new.items ≡ items.old.items ++ step_items queues.now step.now) }
{
    match step {
        Step::Create(number) => push_creates_at(items, queues, *number)?,
        Step::Command(item) => items.push(*item)?,
    }
    Ok(())
}

// Appends the commands of steps.
fn push_steps(items: &mut Vec<Item>, queues: &[Queue], steps: &[Step]) -> Result<(), AllocError>
    ensures { OnOk result (items.new.items ≡ items.old.items ++ flat (step_items queues.now) steps.now) }
{
    for step in steps {
        push_step(items, queues, step)?;
    }
    Ok(())
}

/// The admin script.
pub(crate) fn admin_script(
    alloc: Global,
    queues: &[Queue],
    steps: &[Step],
) -> Result<Vec<Item>, AllocError>
    ensures { IfOk result (λ items. items.items ≡ admin_script queues.now steps.now) }
{
    let mut items = Vec::new(alloc);
    push_first_creates(&mut items, queues, steps)?;
    push_steps(&mut items, queues, steps)?;
    Ok(items)
}
