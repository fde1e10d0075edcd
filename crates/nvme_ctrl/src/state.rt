// What a controller keeps.
//
// Decided: of a queue there is one record, by its identifier: doorbells, fetches, answers and posts read nothing else
// of it. An admin command reads the queue table, and a pick the board: both are crates of their own, proved for whoever
// uses them without a controller.
ghost use Rattle.std.specs.Prelude.{◌≡◌, slice_set};
ghost use Rattle.nvme_ctrl.specs.kept.State.{sq_at, cq_at};

use crate::own::OwnCommands;
use crate::queue_set::with_queue;
use nvme_admin::MAX_REGIONS;
use nvme_arbiter::BoardFields;
use nvme_placing::PlacedTable;
use nvme_slots::chain::Chain;
use nvme_slots::ring::Ring;
use nvme_slots::slot::Slot;

/// A submission queue, open or closing: its ring, of which the controller reads, the chain of its commands that are
/// picked and not taken, and then of those that wait, the number of picked or aborted commands with no completion
/// posted, the completion queue that it posts to, whether it is held, and its deletion.
#[repr(C)]
#[derive(Clone, Copy, Drop)]
pub struct SqState {
    pub ring: Ring,
    pub window: Chain,
    pub unposted: u16,
    pub cqid: u16,
    /// The slot of the Delete command, where it is closing.
    pub tag: u16,
    /// 1 where it is held, else 0.
    pub held: u8,
    /// 1 where its deletion began and isn't finished, else 0.
    pub closing: u8,
}

/// An open completion queue: its ring, of which the host reads, the chain of its commands whose completions are ready,
/// and the phase tag of the next one.
#[repr(C)]
#[derive(Clone, Copy, Drop)]
pub struct CqState {
    pub ring: Ring,
    pub ready: Chain,
    /// 1 or 0. (Base Specification, Phase Tag)
    pub phase: u8,
}

/// The core of a controller, of numbers alone: its queue table, the board of its arbiter, and the state of each queue, by
/// its identifier. Its commands are in the slots of a pool, which each call is given.
#[repr(C)]
#[derive(Drop)]
pub struct Controller {
    pub(crate) table: PlacedTable,
    pub(crate) board: BoardFields,
    pub(crate) sqs: [SqState; MAX_REGIONS],
    pub(crate) cqs: [CqState; MAX_REGIONS],
    /// The free slots.
    pub(crate) free: Chain,
    /// The depth of each submission queue, by its identifier: the most of its commands that hold a slot.
    pub(crate) depths: [u16; MAX_REGIONS],
    /// How many commands were picked, or aborted by an Abort command, and have no completion posted.
    pub(crate) outstanding: u16,
    /// How many commands are picked and not taken.
    pub(crate) picked: u16,
    /// Their submission queue. The admin queue has one where it is the device's.
    pub(crate) picked_qid: u16,
    /// How many submission queues are closing.
    pub(crate) pending_deletions: u16,
    /// The admin commands that are the device's.
    pub(crate) own: OwnCommands,
    /// The I/O submission queues whose rings may have entries that aren't fetched: each that has is in the set.
    pub(crate) rung: u64,
    /// The I/O completion queues that may have ready completions: each that has is in the set.
    pub(crate) readied: u64,
}

impl SqState {
    ghost use Rattle.std.specs.Prelude.{◌≡◌};
    ghost use Rattle.nvme_ctrl.specs.kept.State.{no_sq_state};

    /// The state of no queue.
    pub fn none() -> SqState
        ensures { result ≡ no_sq_state }
    {
        SqState {
            ring: Ring {
                slots: 0,
                head: 0,
                tail: 0,
            },
            window: Chain {
                first: 0,
                last: 0,
                len: 0,
            },
            unposted: 0,
            cqid: 0,
            tag: 0,
            held: 0,
            closing: 0,
        }
    }
}

impl CqState {
    ghost use Rattle.std.specs.Prelude.{◌≡◌};
    ghost use Rattle.nvme_ctrl.specs.kept.State.{no_cq_state};

    /// The state of no queue.
    pub fn none() -> CqState
        ensures { result ≡ no_cq_state }
    {
        CqState {
            ring: Ring {
                slots: 0,
                head: 0,
                tail: 0,
            },
            ready: Chain {
                first: 0,
                last: 0,
                len: 0,
            },
            phase: 1,
        }
    }
}

impl Controller {
    ghost use Rattle.std.specs.Prelude.{◌≡◌, None, false, if◌then◌else◌, length, nat_lt, slice_set};
    ghost use Rattle.nvme_ctrl.specs.Calls.{depth_of};
    ghost use Rattle.nvme_slots.specs.Pool.{SameItems, pushed, longer, first_of, shorter};
    ghost use Rattle.nvme_ctrl.specs.kept.State.{sq_at, cq_at, picked_in};
    ghost use Rattle.nvme_ctrl.specs.kept.QueueSets.{with_queue};

    /// The state of a submission queue.
    pub(crate) fn sq(&self, qid: u16) -> SqState
        ensures { result ≡ sq_at self.now.sqs qid }
    {
        let qid = usize::from(qid);
        if qid < MAX_REGIONS {
            self.sqs[qid]
        } else {
            SqState::none()
        }
    }

    /// The state of a completion queue.
    pub(crate) fn cq(&self, cqid: u16) -> CqState
        ensures { result ≡ cq_at self.now.cqs cqid }
    {
        let cqid = usize::from(cqid);
        if cqid < MAX_REGIONS {
            self.cqs[cqid]
        } else {
            CqState::none()
        }
    }

    /// Puts the state of a submission queue in its place.
    pub(crate) fn put_sq(&mut self, qid: u16, state: SqState)
        ensures { self.new ≡ record self.old { sqs = slice_set self.old.sqs qid state } }
    {
        let qid = usize::from(qid);
        if qid < MAX_REGIONS {
            self.sqs[qid] = state;
        }
    }

    /// Puts the state of a completion queue in its place.
    pub(crate) fn put_cq(&mut self, cqid: u16, state: CqState)
        ensures { self.new ≡ record self.old { cqs = slice_set self.old.cqs cqid state } }
    {
        let cqid = usize::from(cqid);
        if cqid < MAX_REGIONS {
            self.cqs[cqid] = state;
        }
    }

    /// Puts the head of a submission queue in its place, and a slot behind those of its window.
    #[inline(always)]
    pub(crate) fn push_fetched(&mut self, slots: &mut [Slot], qid: u16, head: u16, tag: u16)
        ensures put { self.new ≡ record self.old { sqs = slice_set self.old.sqs qid (record (sq_at self.old.sqs qid) { ring = record (sq_at self.old.sqs qid).ring { head = head }; window = longer (sq_at self.old.sqs qid).window tag }) } }
        ensures slots { slots.new ≡ pushed slots.old (sq_at self.old.sqs qid).window tag }
        ensures items { SameItems slots.old slots.new }
    {
        let qid = usize::from(qid);
        if qid < MAX_REGIONS {
            let sq = &mut self.sqs[qid];
            sq.ring.head = head;
            sq.window.push(slots, tag);
        }
    }

    /// A submission queue leaves the set of those that may have entries, where all of them are fetched.
    #[inline(always)]
    pub(crate) fn note_fetched(&mut self, qid: u16, is_empty: bool)
        ensures { self.new ≡ record self.old { rung = if is_empty then with_queue self.old.rung qid false else self.old.rung } }
    {
        if is_empty {
            self.rung = with_queue(self.rung, qid, false);
        }
    }

    /// Puts the number of a submission queue's commands that have no completion posted in its place.
    #[inline(always)]
    pub(crate) fn put_unposted(&mut self, qid: u16, unposted: u16)
        ensures { self.new ≡ record self.old { sqs = slice_set self.old.sqs qid (record (sq_at self.old.sqs qid) { unposted = unposted }) } }
    {
        let qid = usize::from(qid);
        if qid < MAX_REGIONS {
            self.sqs[qid].unposted = unposted;
        }
    }

    /// Puts the ring of a submission queue in its place.
    #[inline(always)]
    pub(crate) fn put_ring(&mut self, qid: u16, ring: Ring)
        ensures { self.new ≡ record self.old { sqs = slice_set self.old.sqs qid (record (sq_at self.old.sqs qid) { ring = ring }) } }
    {
        let qid = usize::from(qid);
        if qid < MAX_REGIONS {
            self.sqs[qid].ring = ring;
        }
    }

    /// A submission queue is closing from now on, by the Delete in this slot.
    pub(crate) fn put_closing(&mut self, qid: u16, tag: u16)
        ensures { self.new ≡ record self.old { sqs = slice_set self.old.sqs qid (record (sq_at self.old.sqs qid) { tag = tag; closing = 1 }) } }
    {
        let qid = usize::from(qid);
        if qid < MAX_REGIONS {
            let sq = &mut self.sqs[qid];
            sq.tag = tag;
            sq.closing = 1;
        }
    }

    /// Whether the pool has the first slot of the window of a submission queue.
    #[inline(always)]
    pub(crate) fn has_first(&self, slots: &[Slot], qid: u16) -> bool
        ensures { result ≡ nat_lt (sq_at self.now.sqs qid).window.first (length slots.now) }
    {
        usize::from(self.sq(qid).window.first) < slots.len()
    }

    /// Takes the first slot out of the window of a submission queue.
    pub(crate) fn pop_window(&mut self, slots: &[Slot], qid: u16) -> Option<u16>
        ensures first { result ≡ first_of (sq_at self.old.sqs qid).window }
        ensures none { result ≡ None → self.new ≡ self.old }
        ensures put { self.new ≡ record self.old { sqs = slice_set self.old.sqs qid (record (sq_at self.old.sqs qid) { window = shorter slots.now (sq_at self.old.sqs qid).window }) } }
    {
        let qid = usize::from(qid);
        if qid < MAX_REGIONS {
            self.sqs[qid].window.pop(slots)
        } else {
            None
        }
    }

    /// Puts a slot behind those that are ready in a completion queue.
    pub(crate) fn push_ready(&mut self, slots: &mut [Slot], cqid: u16, tag: u16)
        ensures put { self.new ≡ record self.old { cqs = slice_set self.old.cqs cqid (record (cq_at self.old.cqs cqid) { ready = longer (cq_at self.old.cqs cqid).ready tag }) } }
        ensures slots { slots.new ≡ pushed slots.old (cq_at self.old.cqs cqid).ready tag }
        ensures items { SameItems slots.old slots.new }
    {
        let cqid = usize::from(cqid);
        if cqid < MAX_REGIONS {
            self.cqs[cqid].ready.push(slots, tag);
        }
    }

    /// The depth of a submission queue.
    pub(crate) fn depth(&self, qid: u16) -> u16
        ensures { result ≡ depth_of self.now qid }
    {
        let qid = usize::from(qid);
        if qid < MAX_REGIONS {
            self.depths[qid]
        } else {
            0
        }
    }

    /// How many commands of a submission queue are picked and not taken.
    pub(crate) fn picked_in(&self, qid: u16) -> u16
        ensures { result ≡ picked_in self.now qid }
    {
        if qid == self.picked_qid {
            self.picked
        } else {
            0
        }
    }
}
