//! How a lane and its passes are made.
ghost use Rattle.std.specs.Prelude.{◌≡◌, ◌↔◌, ◌+◌, ◌-◌, ◌<◌, ◌≤◌, replicate, vec_len, vec_capacity, IfOk};
ghost use Rattle.crossbeam_queue.specs.Passes.{view as hand_of, IsPassOf, IsSamePass};
ghost use Rattle.nvme_lane.specs.Hands.{hand};
ghost use Rattle.nvme_lane.specs.Limits.{max_capacity, max_passes, IsNoLaneSize};
ghost use Rattle.nvme_lane.specs.Passes.{AreAllOf, AreBlank, fresh};

use crate::errors::LaneError;
use crate::lanes::{Lane, Queue};
use crate::limits::{MAX_CAPACITY, MAX_PASSES, is_outside};
use crate::passes::{PopPass, PushPass};
use crate::rule::{Cut, Hand};
use crossbeam_queue::Pass;
use std::alloc::{AllocError, Global};

/// A lane that holds up to `cap` items, with a pass for each producer and one for each consumer. `Size`
/// exactly where `cap` is outside 1 to `MAX_CAPACITY`, or a number of passes outside 1 to `MAX_PASSES`;
/// `NoMemory` where an allocation was refused.
pub fn lane<T: Copy>(
    alloc: Global,
    cap: u16,
    producers: u8,
    consumers: u8,
) -> Result<(Lane<T>, Vec<PushPass<T>>, Vec<PopPass<T>>), LaneError>
    ensures size { (result ≡ Err LaneError.Size) ↔ IsNoLaneSize cap producers consumers }
    ensures capacity { IfOk result (λ r. r.0.capacity ≡ cap) }
    ensures producers { IfOk result (λ r. vec_len r.1 ≡ producers) }
    ensures consumers { IfOk result (λ r. vec_len r.2 ≡ consumers) }
    ensures all { IfOk result (λ r. AreAllOf r.0 r.1.items r.2.items) }
    ensures nothing_pushed { IfOk result (λ r. AreBlank r.1.items) }
    ensures nothing_popped { IfOk result (λ r. AreBlank r.2.items) }
{
    if is_outside(cap, 1, MAX_CAPACITY)
        || is_outside(u16::from(producers), 1, MAX_PASSES)
        || is_outside(u16::from(consumers), 1, MAX_PASSES)
    {
        return Err(LaneError::Size);
    }
    match build(alloc, cap, producers, consumers) {
        Ok(made) => Ok(made),
        Err(AllocError) => Err(LaneError::NoMemory),
    }
}

// A lane of a size that a lane may have.
fn build<T: Copy>(
    alloc: Global,
    cap: u16,
    producers: u8,
    consumers: u8,
) -> Result<(Lane<T>, Vec<PushPass<T>>, Vec<PopPass<T>>), AllocError>
    requires cap { (1 ≤ cap) × (cap ≤ max_capacity) }
    requires producers { (1 ≤ producers) × (producers ≤ max_passes) }
    requires consumers { (1 ≤ consumers) × (consumers ≤ max_passes) }
    ensures capacity { IfOk result (λ r. r.0.capacity ≡ cap) }
    ensures numbers { IfOk result (λ r. (vec_len r.1 ≡ producers) × (vec_len r.2 ≡ consumers)) }
    ensures all { IfOk result (λ r. AreAllOf r.0 r.1.items r.2.items) }
    ensures blank { IfOk result (λ r. AreBlank r.1.items × AreBlank r.2.items) }
{
    let (queue, mut root) = Queue::<T>::ruled(alloc, usize::from(cap))?;
    let mut pushes = push_passes(alloc, &queue, &mut root, cap, producers - 1)?;
    let pops = pop_passes(alloc, &queue, &mut root, cap, consumers)?;
    pushes.push_reserved(PushPass {
        pass: root,
        capacity: cap,
    });
    Ok((Lane { queue }, pushes, pops))
}

// The given number of passes of one part each, of a lane of that capacity, in a list with room for one more.
fn push_passes<T>(
    alloc: Global,
    queue: &Queue<T>,
    root: &mut Pass<T, Hand<T>>,
    cap: u16,
    count: u8,
) -> Result<Vec<PushPass<T>>, AllocError>
    requires { IsPassOf queue.now root.old × (count < (hand_of root.old).parts) }
    ensures root { IfOk result (λ _. IsSamePass root.old root.new × (hand_of root.new ≡ hand ((hand_of root.old).parts - count) (hand_of root.old).put (hand_of root.old).taken)) }
    ensures passes { IfOk result (λ v. v.items ≡ replicate count (fresh (record { name = root.old.table_id; capacity = cap }))) }
    ensures room { IfOk result (λ v. (vec_len v ≡ count) × (count < vec_capacity v)) }
{
    let mut passes = Vec::with_capacity(alloc, usize::from(count) + 1)?;
    for _ in 0..count {
        passes.push_reserved(PushPass {
            pass: queue.another::<Cut>(root),
            capacity: cap,
        });
    }
    Ok(passes)
}

// The given number of passes of one part each, of a lane of that capacity.
fn pop_passes<T>(
    alloc: Global,
    queue: &Queue<T>,
    root: &mut Pass<T, Hand<T>>,
    cap: u16,
    count: u8,
) -> Result<Vec<PopPass<T>>, AllocError>
    requires { IsPassOf queue.now root.old × (count < (hand_of root.old).parts) }
    ensures root { IfOk result (λ _. IsSamePass root.old root.new × (hand_of root.new ≡ hand ((hand_of root.old).parts - count) (hand_of root.old).put (hand_of root.old).taken)) }
    ensures passes { IfOk result (λ v. v.items ≡ replicate count (fresh (record { name = root.old.table_id; capacity = cap }))) }
    ensures len { IfOk result (λ v. vec_len v ≡ count) }
{
    let mut passes = Vec::with_capacity(alloc, usize::from(count))?;
    for _ in 0..count {
        passes.push_reserved(PopPass {
            pass: queue.another::<Cut>(root),
            capacity: cap,
        });
    }
    Ok(passes)
}
