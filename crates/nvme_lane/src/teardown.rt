//! How a lane ends: its passes are joined, one after the other, and what is left in it is counted.
ghost use Rattle.std.specs.Prelude.{◌≡◌, ℕ, ◌+◌, ◌<◌, ◌≤◌, sum_by};
ghost use Rattle.crossbeam_queue.specs.Passes.{view as hand_of, IsPassOf, IsSamePass};
ghost use Rattle.nvme_lane.specs.Passes.{AreNamed, AreAllOf, parts_of, weight_of};
ghost use Rattle.nvme_lane.specs.Shares.{IsShared};

use crate::lanes::{Lane, Queue};
use crate::passes::{PopPass, PushPass};
use crate::rule::{Cut, Hand, Total};
use crossbeam_queue::Pass;
use std::sync::Wait;

/// Ends a lane, drops the items that are left in it, and answers how many there are, at most its capacity.
/// Over all passes, each item was pushed as often as it was popped plus as often as it was left.
pub fn gather<T: Copy, R: Wait>(
    rt: &R,
    lane: Lane<T>,
    mut pushes: Vec<PushPass<T>>,
    pops: Vec<PopPass<T>>,
) -> u16
    requires { AreAllOf lane pushes.items pops.items }
    ensures shares { IsShared pushes.items pops.items result }
    ensures few { result ≤ lane.capacity }
{
    let Lane { queue } = lane;
    let Some(last) = pushes.pop() else {
        unreachable!()
    };
    let PushPass {
        pass: mut root,
        capacity: _,
    } = last;
    join_pushes(&queue, &mut root, pushes);
    join_pops(&queue, &mut root, pops);
    let left = queue.len_as::<Total, R>(rt, &mut root);
    left as u16
}

// Joins passes to one that has some part.
fn join_pushes<T: Copy>(queue: &Queue<T>, root: &mut Pass<T, Hand<T>>, pushes: Vec<PushPass<T>>)
    requires root { IsPassOf queue.now root.old × (0 < (hand_of root.old).parts) }
    requires passes { AreNamed root.old.table_id pushes.items }
    ensures same { IsSamePass root.old root.new }
    ensures parts { (hand_of root.new).parts ≡ (hand_of root.old).parts + parts_of pushes.items }
    ensures put { (h : T → ℕ) → sum_by h (hand_of root.new).put ≡ sum_by h (hand_of root.old).put + weight_of h pushes.items }
    ensures taken { (hand_of root.new).taken ≡ (hand_of root.old).taken }
{
    for p in pushes {
        let PushPass { pass, capacity: _ } = p;
        queue.absorb::<Cut>(root, pass);
    }
}

// Joins passes to one that has some part.
fn join_pops<T: Copy>(queue: &Queue<T>, root: &mut Pass<T, Hand<T>>, pops: Vec<PopPass<T>>)
    requires root { IsPassOf queue.now root.old × (0 < (hand_of root.old).parts) }
    requires passes { AreNamed root.old.table_id pops.items }
    ensures same { IsSamePass root.old root.new }
    ensures parts { (hand_of root.new).parts ≡ (hand_of root.old).parts + parts_of pops.items }
    ensures put { (hand_of root.new).put ≡ (hand_of root.old).put }
    ensures taken { (h : T → ℕ) → sum_by h (hand_of root.new).taken ≡ sum_by h (hand_of root.old).taken + weight_of h pops.items }
{
    for p in pops {
        let PopPass { pass, capacity: _ } = p;
        queue.absorb::<Cut>(root, pass);
    }
}
