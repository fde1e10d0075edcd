// What a device does between two doorbells.
ghost use Rattle.nvme_ctrl.specs.Standing.{IsController};

use crate::memory::{Memory, SLOTS};
use nvme_ctrl::{Answer, Controller, Slot, StatusFlags, Step, slot_at};
use nvme_entry::{Sqe, Status};

/// The steps of one call of `execute`: enough for all commands of both queues.
pub const STEPS: usize = 64;

/// How many commands the device takes of a pick at most. It answers each one before the next pick, and so has room for as
/// many again. A device that answers later passes how many more it can take then.
pub const ROOM: u16 = 16;

/// Fetches what the host submitted to a queue, as far as its depth goes.
pub fn fetch_queue(ctrl: &mut Controller, slots: &mut [Slot], memory: &Memory, qid: u16)
    requires front { IsController ctrl.old slots.old }
    ensures front { IsController ctrl.new slots.new }
{
    for _ in 0..SLOTS {
        let Some(slot) = ctrl.fetch(qid) else {
            return;
        };
        let Some(entry) = memory.read(qid, slot) else {
            return;
        };
        ctrl.fetched(slots, qid, &entry, 0);
    }
}

/// What the device answers to a command. This one has no blocks: a Flush succeeds, and it knows nothing else, so that the
/// host needn't retry.
pub fn answer_to(entry: &Sqe) -> Answer {
    let status = if entry.opcode == 0 {
        Status::SUCCESS
    } else {
        Status::INVALID_OPCODE
    };
    Answer {
        status,
        dw0: 0,
        flags: StatusFlags::of(status),
    }
}

/// Takes a picked command and answers it, or makes the next pick. The controller carries out admin commands itself. False
/// where nothing is to be served.
pub fn step(ctrl: &mut Controller, slots: &mut [Slot]) -> bool
    requires front { IsController ctrl.old slots.old }
    ensures front { IsController ctrl.new slots.new }
{
    let Some(tag) = ctrl.take(slots) else {
        return matches!(ctrl.pick(slots, ROOM), Step::Picked(_) | Step::Done(..));
    };
    let answer = answer_to(&slot_at(slots, tag).entry);
    ctrl.complete(slots, tag, answer)
}

/// Serves what waits, by at most `STEPS` steps.
pub fn execute(ctrl: &mut Controller, slots: &mut [Slot])
    requires front { IsController ctrl.old slots.old }
    ensures front { IsController ctrl.new slots.new }
{
    for _ in 0..STEPS {
        if !step(ctrl, slots) {
            return;
        }
    }
}

/// Writes the completions that are ready in a completion queue, until its ring is full.
pub fn post_queue(ctrl: &mut Controller, slots: &mut [Slot], memory: &mut Memory, cqid: u16)
    requires front { IsController ctrl.old slots.old }
    ensures front { IsController ctrl.new slots.new }
{
    for _ in 0..SLOTS {
        let Some(post) = ctrl.post(slots, cqid) else {
            return;
        };
        memory.write(cqid, post.slot, post.cqe, post.flags);
    }
}

/// Serves the admin queues and the queue pair 1. A deletion is finished once all
/// completions of its queue are written.
pub fn serve(ctrl: &mut Controller, slots: &mut [Slot], memory: &mut Memory)
    requires front { IsController ctrl.old slots.old }
    ensures front { IsController ctrl.new slots.new }
{
    fetch_queue(ctrl, slots, memory, 0);
    fetch_queue(ctrl, slots, memory, 1);
    execute(ctrl, slots);
    post_queue(ctrl, slots, memory, 1);
    ctrl.finish(slots);
    post_queue(ctrl, slots, memory, 0);
}
