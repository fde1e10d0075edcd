// Guest memory, as far as the controller's rings lie in it.
use nvme_ctrl::StatusFlags;
use nvme_entry::{Cqe, Sqe, Status};

/// The slots of each ring.
pub const SLOTS: usize = 8;

/// The slots of two rings of a kind: that of the admin queue, and that of one I/O queue.
pub const ALL_SLOTS: usize = 16;

/// The rings, one after the other by queue: the submission rings, and the completion rings with the flags of each
/// completion, which a device puts into bits 30 and 31 of its Dword 3.
#[derive(Drop)]
pub struct Memory {
    pub sqs: [Sqe; ALL_SLOTS],
    pub cqs: [Cqe; ALL_SLOTS],
    pub flags: [StatusFlags; ALL_SLOTS],
}

// Where a slot of a queue's ring lies.
fn place(qid: u16, slot: u16) -> usize {
    usize::from(qid) * SLOTS + usize::from(slot)
}

impl Memory {
    /// Memory that nobody wrote.
    pub fn new() -> Memory {
        let cqe = Cqe {
            dw0: 0,
            sqhd: 0,
            sqid: 0,
            cid: 0,
            phase: false,
            status: Status::SUCCESS,
        };
        Memory {
            sqs: [Sqe::default(); ALL_SLOTS],
            cqs: [cqe; ALL_SLOTS],
            flags: [StatusFlags::NONE; ALL_SLOTS],
        }
    }

    /// The entry in a slot of a submission ring, where there is one.
    pub fn read(&self, qid: u16, slot: u16) -> Option<Sqe> {
        self.sqs.get(place(qid, slot)).copied()
    }

    /// Writes a completion into a slot of a completion ring, where there is one.
    pub fn write(&mut self, cqid: u16, slot: u16, cqe: Cqe, flags: StatusFlags) {
        let at = place(cqid, slot);
        if at < ALL_SLOTS {
            self.cqs[at] = cqe;
            self.flags[at] = flags;
        }
    }
}
