// What the parts of the text that a short file is written out to are in the file.
ghost use Rattle.std.specs.Prelude.{◌≡◌, ◌++◌, IfOk, OnOk};
ghost use Rattle.nvme_short.specs.Documents.{flat};
ghost use Rattle.nvme_short.specs.Names.{AreNamesOf, first_places_of, flat_from, own_cq, places_of, step_places};

use crate::creates::{push_first_creates_of, push_step};
use nvme_short_form::{Form, Item, Place, Queue, Step};
use std::alloc::{AllocError, Global};

/// What the parts of the text that a short file is written out to are in the file. Submission region 0 is that of the
/// admin queue, and each other one that of the queue of its number; completion region 0 is the admin queue's too.
#[derive(Debug, Drop, PartialEq, Eq)]
pub struct Names {
    /// The place of each command of the admin script: an item of `admin`, or the queue whose Create it is.
    pub commands: Vec<Place>,
    /// The number of the queue of each completion region but the first.
    pub completions: Vec<u16>,
}

// Appends a place for each command of an item.
#[tactic(auto, using(crate::proofs::Flat::places_more))]
fn push_places_of(places: &mut Vec<Place>, place: Place, item: &Item) -> Result<(), AllocError>
    ensures { OnOk result (places.new.items ≡ places.old.items ++ places_of place item.now) }
{
    for _command in 0..item.count {
        places.push(place)?;
    }
    Ok(())
}

// Appends a place for each command of items.
fn push_places(places: &mut Vec<Place>, place: Place, items: &[Item]) -> Result<(), AllocError>
    ensures { OnOk result (places.new.items ≡ places.old.items ++ flat (places_of place) items.now) }
{
    for item in items {
        push_places_of(places, place, item)?;
    }
    Ok(())
}

// Appends the places of the Creates of a queue that no step creates.
fn push_first_of(
    alloc: Global,
    places: &mut Vec<Place>,
    steps: &[Step],
    queue: &Queue,
) -> Result<(), AllocError>
    ensures { OnOk result (places.new.items ≡ places.old.items ++ first_places_of steps.now queue.now) }
{
    let mut items = Vec::new(alloc);
    push_first_creates_of(&mut items, steps, queue)?;
    push_places(places, Place::Queue(usize::from(queue.number)), &items)
}

// Appends the places of the Creates of the queues that no step creates.
fn push_first(
    alloc: Global,
    places: &mut Vec<Place>,
    queues: &[Queue],
    steps: &[Step],
) -> Result<(), AllocError>
    ensures { OnOk result (places.new.items ≡ places.old.items ++ flat (first_places_of steps.now) queues.now) }
{
    for queue in queues {
        push_first_of(alloc, places, steps, queue)?;
    }
    Ok(())
}

// Appends the places of the commands of the step with this index.
fn push_step_of(
    alloc: Global,
    places: &mut Vec<Place>,
    queues: &[Queue],
    index: usize,
    step: &Step,
) -> Result<(), AllocError>
    ensures { OnOk result (places.new.items ≡ places.old.items ++ step_places queues.now index step.now) }
{
    let mut items = Vec::new(alloc);
    push_step(&mut items, queues, step)?;
    push_places(places, Place::Admin(index), &items)
}

// Appends the places of the commands of all steps.
fn push_steps_of(
    alloc: Global,
    places: &mut Vec<Place>,
    queues: &[Queue],
    steps: &[Step],
) -> Result<(), AllocError>
    ensures { OnOk result (places.new.items ≡ places.old.items ++ flat_from (step_places queues.now) 0 steps.now) }
{
    for (index, step) in steps.iter().enumerate() {
        push_step_of(alloc, places, queues, index, step)?;
    }
    Ok(())
}

// Appends the number of a queue with a completion queue of its own.
fn push_own_cq(numbers: &mut Vec<u16>, queue: &Queue) -> Result<(), AllocError>
    ensures { OnOk result (numbers.new.items ≡ numbers.old.items ++ own_cq queue.now) }
{
    if queue.cq == queue.number {
        numbers.push(queue.number)?;
    }
    Ok(())
}

// Appends the numbers of the queues with a completion queue of their own.
fn push_own_cqs(numbers: &mut Vec<u16>, queues: &[Queue]) -> Result<(), AllocError>
    ensures { OnOk result (numbers.new.items ≡ numbers.old.items ++ flat own_cq queues.now) }
{
    for queue in queues {
        push_own_cq(numbers, queue)?;
    }
    Ok(())
}

/// The names of what a form is written out to.
pub(crate) fn names_of(alloc: Global, form: &Form) -> Result<Names, AllocError>
    ensures { IfOk result (AreNamesOf form.now) }
{
    let (queues, steps) = (form.queues.as_slice(), form.steps.as_slice());
    let mut commands = Vec::new(alloc);
    push_first(alloc, &mut commands, queues, steps)?;
    push_steps_of(alloc, &mut commands, queues, steps)?;
    let mut completions = Vec::new(alloc);
    push_own_cqs(&mut completions, queues)?;
    Ok(Names {
        commands,
        completions,
    })
}
