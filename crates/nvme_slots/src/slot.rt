// The slots of a pool, each of which holds a command from its fetch until its completion is posted.
ghost use Rattle.std.specs.Prelude.{◌≡◌, ◌+◌, ◌<◌, ◌%◌, slice_set};
ghost use Rattle.nvme_slots.specs.Pool.{bit, slot_at, put_next, put_item};

use nvme_ctrl_log::StatusFlags;
use nvme_entry::{Sqe, Status};

/// Nothing is in the slot.
pub const FREE: u8 = 0;
/// Its command waits to be picked, or to be taken by the device after its pick.
pub const WAITING: u8 = 1;
/// The device has its command.
pub const OUT: u8 = 2;
/// The device answered its command, whose completion waits to be posted.
pub const ANSWERED: u8 = 3;
/// Its command ended without the device: it was carried out within, or aborted. Its completion waits to be posted.
pub const ENDED: u8 = 4;
/// Its command ended with its queue, whose deletion began. Its completion waits to be posted.
pub const DROPPED: u8 = 5;
/// Its command is the Delete whose deletion is pending.
pub const DELETING: u8 = 6;

/// A slot of a controller's pool, as it lies in memory: numbers alone.
#[repr(C)]
#[derive(Clone, Copy, Drop)]
pub struct Slot {
    /// The command.
    pub entry: Sqe,
    /// What the caller keeps with the command.
    pub cookie: u32,
    /// Dword 0 of its completion, where it ended.
    pub dw0: u32,
    /// The slot after it in its chain.
    pub next: u16,
    /// How often its command was taken by the device, modulo 65,536.
    pub generation: u16,
    /// The status of its completion, where it ended.
    pub sct: u8,
    pub sc: u8,
    /// The identifier of the submission queue that it was fetched from.
    pub sqid: u8,
    /// What it is used for, one of the constants above.
    pub state: u8,
    /// The flags of its completion, where it ended: each 1 or 0.
    pub more: u8,
    pub do_not_retry: u8,
}

impl Slot {
    ghost use Rattle.std.specs.Prelude.{◌≡◌};
    ghost use Rattle.nvme_slots.specs.Pool.{no_slot, flags_in};

    /// A free slot.
    pub fn free() -> Slot
        ensures { result ≡ no_slot }
    {
        Slot {
            entry: Sqe {
                opcode: 0,
                flags: 0,
                cid: 0,
                nsid: 0,
                cdw2: 0,
                cdw3: 0,
                mptr: 0,
                prp1: 0,
                prp2: 0,
                cdw10: 0,
                cdw11: 0,
                cdw12: 0,
                cdw13: 0,
                cdw14: 0,
                cdw15: 0,
            },
            cookie: 0,
            dw0: 0,
            next: 0,
            generation: 0,
            sct: 0,
            sc: 0,
            sqid: 0,
            state: FREE,
            more: 0,
            do_not_retry: 0,
        }
    }

    /// The flags of its completion.
    pub fn flags(&self) -> StatusFlags
        ensures { result ≡ flags_in self.now }
    {
        StatusFlags {
            more: self.more == 1,
            do_not_retry: self.do_not_retry == 1,
        }
    }
}

/// The slot of a number; a free one where the pool has no such slot.
pub fn slot_at(slots: &[Slot], x: u16) -> Slot
    ensures { result ≡ slot_at slots.now x }
{
    let x = usize::from(x);
    if x < slots.len() {
        slots[x]
    } else {
        Slot::free()
    }
}

// Puts a slot in the place of one. Where the pool has no such slot, nothing changes.
fn put(slots: &mut [Slot], x: u16, slot: Slot)
    ensures { slots.new ≡ slice_set slots.old x slot }
{
    let x = usize::from(x);
    if x < slots.len() {
        slots[x] = slot;
    }
}

/// Links a slot to the one after it, and leaves all else.
pub fn put_next(slots: &mut [Slot], x: u16, next: u16)
    ensures { slots.new ≡ put_next slots.old x next }
{
    let x = usize::from(x);
    if x < slots.len() {
        slots[x].next = next;
    }
}

/// Puts something else into a slot, and leaves its link.
pub fn put_item(slots: &mut [Slot], x: u16, slot: Slot)
    ensures { slots.new ≡ put_item slots.old x slot }
{
    let next = slot_at(slots, x).next;
    put(slots, x, Slot { next, ..slot });
}

/// The slot has a command that was fetched from a submission queue and waits.
#[inline(always)]
pub fn put_waiting(slots: &mut [Slot], x: u16, entry: &Sqe, cookie: u32, sqid: u8)
    ensures { slots.new ≡ put_item slots.old x (record (slot_at slots.old x) { entry = entry.now; cookie = cookie; sqid = sqid; state = 1 }) }
{
    let x = usize::from(x);
    if x < slots.len() {
        let slot = &mut slots[x];
        slot.entry = *entry;
        slot.cookie = cookie;
        slot.sqid = sqid;
        slot.state = WAITING;
    }
}

/// The slot is used for something else, and holds what it held.
pub fn put_state(slots: &mut [Slot], x: u16, state: u8)
    ensures { slots.new ≡ put_item slots.old x (record (slot_at slots.old x) { state = state }) }
{
    let x = usize::from(x);
    if x < slots.len() {
        slots[x].state = state;
    }
}

/// The command of the slot ended with this completion.
pub fn put_ended(
    slots: &mut [Slot],
    x: u16,
    state: u8,
    status: Status,
    dw0: u32,
    flags: StatusFlags,
)
    ensures slots { slots.new ≡ put_item slots.old x (record (slot_at slots.old x) { state = state; sct = status.sct; sc = status.sc; dw0 = dw0; more = bit flags.more; do_not_retry = bit flags.do_not_retry }) }
    ensures few_types { status.sct < 8 }
{
    let x = usize::from(x);
    if x < slots.len() {
        let slot = &mut slots[x];
        slot.state = state;
        slot.sct = status.sct;
        slot.sc = status.sc;
        slot.dw0 = dw0;
        slot.more = bit(flags.more);
        slot.do_not_retry = bit(flags.do_not_retry);
    }
}

/// The device has the command of the slot, whose generation is the next.
pub fn put_out(slots: &mut [Slot], x: u16)
    ensures { slots.new ≡ put_item slots.old x (record (slot_at slots.old x) { state = 2; generation = ((slot_at slots.old x).generation + 1) % 65536 }) }
{
    let x = usize::from(x);
    if x < slots.len() {
        let slot = &mut slots[x];
        slot.state = OUT;
        slot.generation = slot.generation.wrapping_add(1);
    }
}

/// A mark as a slot has it.
pub fn bit(mark: bool) -> u8
    ensures { result ≡ bit mark }
{
    if mark { 1 } else { 0 }
}
