// The calls of the loop, of which each does what that of C does. None becomes a part of the loop, just as from C, so that
// their instructions can be told from its own.
ghost use Rattle.nvme_ctrl.specs.Standing.{IsController};

use nvme_ctrl::{Answer, Controller, Slot, StatusFlags, Step};
use nvme_entry::{Sqe, Status};

/// The room of a device without a bound.
pub const NO_LIMIT: u16 = 65_535;

/// A command that the device took.
#[derive(Clone, Copy)]
pub struct Command {
    pub entry: Sqe,
    pub cookie: u32,
    pub tag: u16,
}

/// A completion that was posted.
#[derive(Clone, Copy)]
pub struct Posted {
    pub bytes: [u8; 16],
    pub cookie: u32,
    pub tag: u16,
    pub slot: u16,
}

/// The host wrote a tail doorbell.
#[inline(never)]
pub fn sq_tail(ctrl: &mut Controller, slots: &[Slot], qid: u16, tail: u16) -> bool
    requires front { IsController ctrl.old slots.now }
    ensures front { IsController ctrl.new slots.now }
{
    ctrl.sq_tail(qid, tail)
}

/// The host wrote a head doorbell.
#[inline(never)]
pub fn cq_head(ctrl: &mut Controller, slots: &[Slot], cqid: u16, head: u16) -> bool
    requires front { IsController ctrl.old slots.now }
    ensures front { IsController ctrl.new slots.now }
{
    ctrl.cq_head(cqid, head)
}

/// The slot whose entry is to be read next.
#[inline(never)]
pub fn fetch(ctrl: &Controller, qid: u16) -> Option<u16> {
    ctrl.fetch(qid)
}

/// The entry was read.
#[inline(never)]
pub fn fetched(
    ctrl: &mut Controller,
    slots: &mut [Slot],
    qid: u16,
    entry: &[u8; 64],
    cookie: u32,
) -> bool
    requires front { IsController ctrl.old slots.old }
    ensures front { IsController ctrl.new slots.new }
{
    ctrl.fetched(slots, qid, &Sqe::from_bytes(entry), cookie)
}

/// Makes the next pick, of at most `room` commands.
#[inline(never)]
pub fn pick(ctrl: &mut Controller, slots: &mut [Slot], room: u16) -> Step
    requires front { IsController ctrl.old slots.old }
    ensures front { IsController ctrl.new slots.new }
{
    ctrl.pick(slots, room)
}

/// The device takes the next picked command.
#[inline(never)]
pub fn take(ctrl: &mut Controller, slots: &mut [Slot]) -> Option<Command>
    requires front { IsController ctrl.old slots.old }
    ensures front { IsController ctrl.new slots.new }
{
    let tag = ctrl.take(slots)?;
    Some(Command {
        entry: ctrl.entry(slots, tag),
        cookie: ctrl.cookie(slots, tag),
        tag,
    })
}

/// The device answers a command, with this status and Dword 0.
#[inline(never)]
pub fn complete(
    ctrl: &mut Controller,
    slots: &mut [Slot],
    tag: u16,
    status: Status,
    dw0: u32,
) -> bool
    requires front { IsController ctrl.old slots.old }
    ensures front { IsController ctrl.new slots.new }
{
    let answer = Answer {
        status,
        dw0,
        flags: StatusFlags::NONE,
    };
    ctrl.complete(slots, tag, answer)
}

/// Posts the next completion of a queue.
#[inline(never)]
pub fn post(ctrl: &mut Controller, slots: &mut [Slot], cqid: u16) -> Option<Posted>
    requires front { IsController ctrl.old slots.old }
    ensures front { IsController ctrl.new slots.new }
{
    let post = ctrl.post(slots, cqid)?;
    Some(Posted {
        bytes: post.cqe.to_bytes(),
        cookie: post.cookie,
        tag: post.tag,
        slot: post.slot,
    })
}
