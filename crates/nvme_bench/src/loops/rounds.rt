// The loop itself.
ghost use Rattle.std.specs.Prelude.{◌≤◌};
ghost use Rattle.nvme_ctrl.specs.Standing.{IsController};

use crate::loops::calls::{NO_LIMIT, complete, cq_head, fetch, fetched, pick, post, sq_tail, take};
use crate::loops::faults::{Fault, check};
use crate::loops::workload::{Case, Kept, MOST, RING, Taken, join};
use byteorder::{ByteOrder, LittleEndian};
use nvme_arbiter::Pick;
use nvme_ctrl::{Controller, Slot, Step};
use nvme_entry::Status;

// The entries that a queue's host submitted are read.
fn read_entries(
    ctrl: &mut Controller,
    slots: &mut [Slot],
    kept: &mut Kept,
    qid: u16,
) -> Result<(), Fault>
    requires front { IsController ctrl.old slots.old }
    ensures front { IsController ctrl.new slots.new }
{
    for _ in 0..RING {
        let Some(slot) = fetch(ctrl, qid) else {
            return Ok(());
        };
        let number = kept.write_entry(qid, slot);
        let cookie = number.wrapping_add(u32::from(qid));
        if !fetched(ctrl, slots, qid, &kept.entry, cookie) {
            return Err(Fault::Refused);
        }
    }
    Ok(())
}

// The host of a queue rings its doorbell, and the entries are read.
fn submit(
    ctrl: &mut Controller,
    slots: &mut [Slot],
    kept: &mut Kept,
    qid: u16,
    batch: u16,
) -> Result<(), Fault>
    requires front { IsController ctrl.old slots.old }
    ensures front { IsController ctrl.new slots.new }
{
    let tail = kept.advance(qid, batch);
    let rung = sq_tail(ctrl, slots, qid, tail);
    check(rung)?;
    read_entries(ctrl, slots, kept, qid)
}

// So do the hosts of all queues.
fn submit_all(
    ctrl: &mut Controller,
    slots: &mut [Slot],
    kept: &mut Kept,
    case: Case,
) -> Result<(), Fault>
    requires front { IsController ctrl.old slots.old }
    ensures front { IsController ctrl.new slots.new }
{
    for qid in 1..=case.queues {
        submit(ctrl, slots, kept, qid, case.batch)?;
    }
    Ok(())
}

// What was picked is taken. Answers how many commands that were.
fn take_all(ctrl: &mut Controller, slots: &mut [Slot], kept: &mut Kept) -> usize
    requires front { IsController ctrl.old slots.old }
    ensures front { IsController ctrl.new slots.new }
    ensures most { result ≤ MOST }
{
    for k in 0..MOST {
        let Some(command) = take(ctrl, slots) else {
            return k;
        };
        let (tag, cookie) = (command.tag, command.cookie);
        kept.add(join(command.entry.cid, tag, cookie) ^ u64::from(command.entry.cdw15));
        kept.taken[k] = Taken { tag, cookie };
    }
    MOST
}

// It is completed in the other order.
fn complete_all(ctrl: &mut Controller, slots: &mut [Slot], taken: &[Taken]) -> Result<(), Fault>
    requires front { IsController ctrl.old slots.old }
    ensures front { IsController ctrl.new slots.new }
{
    for command in taken.iter().rev() {
        if !complete(ctrl, slots, command.tag, Status::SUCCESS, command.cookie) {
            return Err(Fault::Refused);
        }
    }
    Ok(())
}

// The completions of a queue are posted. Answers the head of its host, which consumes them.
fn post_all(ctrl: &mut Controller, slots: &mut [Slot], kept: &mut Kept, cqid: u16) -> u16
    requires front { IsController ctrl.old slots.old }
    ensures front { IsController ctrl.new slots.new }
{
    let mut head = 0;
    for _ in 0..RING {
        let Some(post) = post(ctrl, slots, cqid) else {
            return head;
        };
        kept.add(LittleEndian::read_u64(&post.bytes[0..8]));
        kept.add(LittleEndian::read_u64(&post.bytes[8..16]));
        kept.add(join(post.slot, post.tag, post.cookie));
        head = post.slot.wrapping_add(1) % RING;
    }
    head
}

// What was picked of a queue is served.
fn serve(
    ctrl: &mut Controller,
    slots: &mut [Slot],
    kept: &mut Kept,
    pick: Pick,
) -> Result<(), Fault>
    requires front { IsController ctrl.old slots.old }
    ensures front { IsController ctrl.new slots.new }
{
    kept.add(join(pick.qid, pick.n, u32::from(pick.fresh)));
    let count = take_all(ctrl, slots, kept);
    complete_all(ctrl, slots, &kept.taken[..count])?;
    let head = post_all(ctrl, slots, kept, pick.qid);
    let rung = cq_head(ctrl, slots, pick.qid, head);
    check(rung)
}

// All that waits is served.
fn serve_all(ctrl: &mut Controller, slots: &mut [Slot], kept: &mut Kept) -> Result<(), Fault>
    requires front { IsController ctrl.old slots.old }
    ensures front { IsController ctrl.new slots.new }
{
    for _ in 0..u32::MAX {
        let Step::Picked(pick) = pick(ctrl, slots, NO_LIMIT) else {
            return Ok(());
        };
        serve(ctrl, slots, kept, pick)?;
    }
    Ok(())
}

/// Goes round so many times: hosts ring the doorbells of all queues, the entries are read, and what is picked is served.
/// Its instructions are counted.
#[inline(never)]
pub fn counted(
    ctrl: &mut Controller,
    slots: &mut [Slot],
    kept: &mut Kept,
    case: Case,
    rounds: u32,
) -> Result<(), Fault>
    requires front { IsController ctrl.old slots.old }
    ensures front { IsController ctrl.new slots.new }
{
    for _ in 0..rounds {
        submit_all(ctrl, slots, kept, case)?;
        serve_all(ctrl, slots, kept)?;
    }
    Ok(())
}
