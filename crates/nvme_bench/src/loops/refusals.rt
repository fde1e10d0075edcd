// What the calls answer where there is nothing to do, and for arguments that aren't valid, as results of the C library.
ghost use Rattle.nvme_ctrl.specs.Standing.{IsController};

use crate::loops::calls::{complete, cq_head, fetch, fetched, pick, post, sq_tail, take};
use crate::loops::faults::Fault;
use crate::loops::workload::{Kept, RING};
use nvme_ctrl::{Controller, Slot, Step};
use nvme_entry::Status;

const DONE: u64 = 0;

const NOTHING: u64 = 1;

const BAD_ARGUMENT: u64 = 2;

const BUSY: u64 = 7;

const NOROOM: u64 = 8;

// The result of a call that was done, or found nothing to do.
fn result_of(done: bool) -> u64 {
    if done { DONE } else { NOTHING }
}

// That of a doorbell of a queue.
fn doorbell_result(rung: bool, is_open: bool) -> u64 {
    if is_open && !rung {
        BAD_ARGUMENT
    } else {
        result_of(rung)
    }
}

// A tail doorbell.
fn tail_result(ctrl: &mut Controller, slots: &[Slot], qid: u16, slot: u16) -> u64
    requires front { IsController ctrl.old slots.now }
    ensures front { IsController ctrl.new slots.now }
{
    let is_open = ctrl.sq_region(qid).is_some();
    let rung = sq_tail(ctrl, slots, qid, slot);
    doorbell_result(rung, is_open)
}

// A head doorbell.
fn head_result(ctrl: &mut Controller, slots: &[Slot], cqid: u16, slot: u16) -> u64
    requires front { IsController ctrl.old slots.now }
    ensures front { IsController ctrl.new slots.now }
{
    let is_open = ctrl.cq_region(cqid).is_some();
    let rung = cq_head(ctrl, slots, cqid, slot);
    doorbell_result(rung, is_open)
}

// The doorbells and fetches that are refused. Nothing was submitted, and the queue `closed` isn't open.
fn refuse_rings(ctrl: &mut Controller, slots: &mut [Slot], closed: u16) -> [u64; 8]
    requires front { IsController ctrl.old slots.old }
    ensures front { IsController ctrl.new slots.new }
{
    [
        tail_result(ctrl, slots, closed, 1),
        tail_result(ctrl, slots, 1, RING),
        head_result(ctrl, slots, closed, 0),
        head_result(ctrl, slots, 1, RING),
        head_result(ctrl, slots, 1, 1),
        result_of(fetch(ctrl, closed).is_some()),
        result_of(fetch(ctrl, 1).is_some()),
        result_of(fetched(ctrl, slots, 1, &[0; 64], 0)),
    ]
}

// A pick, for which there is no room.
fn pick_result(ctrl: &mut Controller, slots: &mut [Slot]) -> u64
    requires front { IsController ctrl.old slots.old }
    ensures front { IsController ctrl.new slots.new }
{
    match pick(ctrl, slots, 0) {
        Step::Idle => NOTHING,
        Step::Busy => BUSY,
        Step::NoRoom => NOROOM,
        _ => DONE,
    }
}

// The device's answer to a command. There is no status of a status code type above 7.
fn complete_result(ctrl: &mut Controller, slots: &mut [Slot], tag: u16, sct: u8) -> u64
    requires front { IsController ctrl.old slots.old }
    ensures front { IsController ctrl.new slots.new }
{
    let Some(status) = Status::new(sct, 0) else {
        return BAD_ARGUMENT;
    };
    result_of(complete(ctrl, slots, tag, status, 0))
}

// The other calls. Nothing waits, and the device has no command; the pool has `count` slots.
fn refuse_commands(ctrl: &mut Controller, slots: &mut [Slot], closed: u16, count: u16) -> [u64; 7]
    requires front { IsController ctrl.old slots.old }
    ensures front { IsController ctrl.new slots.new }
{
    [
        pick_result(ctrl, slots),
        result_of(take(ctrl, slots).is_some()),
        complete_result(ctrl, slots, 0, 8),
        complete_result(ctrl, slots, 0, 0),
        complete_result(ctrl, slots, count, 0),
        result_of(post(ctrl, slots, closed).is_some()),
        result_of(post(ctrl, slots, 1).is_some()),
    ]
}

// Adds results to the checksum. A fault where a call was done.
fn add_all(kept: &mut Kept, results: &[u64]) -> Result<(), Fault> {
    for &result in results {
        if result == DONE {
            return Err(Fault::NotRefused);
        }
        kept.add(result);
    }
    Ok(())
}

/// Adds to the checksum what calls answer that are refused.
pub fn refuse(
    ctrl: &mut Controller,
    slots: &mut [Slot],
    kept: &mut Kept,
    closed: u16,
    count: u16,
) -> Result<(), Fault>
    requires front { IsController ctrl.old slots.old }
    ensures front { IsController ctrl.new slots.new }
{
    let rings = refuse_rings(ctrl, slots, closed);
    let commands = refuse_commands(ctrl, slots, closed, count);
    add_all(kept, &rings)?;
    add_all(kept, &commands)
}
