// What goes through the controller of the loop, and what the loop keeps beside it.
use byteorder::{ByteOrder, LittleEndian};
use nvme_arbiter::Mechanism;

/// The slots of each ring.
pub const RING: u16 = 64;

/// The most commands of a pick.
pub const MOST: usize = 256;

// The queues of each kind, the admin queue among them.
const QUEUES: usize = 65;

/// In a round there are `batch` commands of each of the queues 1 to `queues`.
#[derive(Clone, Copy)]
pub struct Case {
    pub mechanism: Mechanism,
    pub queues: u16,
    pub batch: u16,
}

/// A command that the device took.
#[derive(Clone, Copy)]
pub struct Taken {
    pub tag: u16,
    pub cookie: u32,
}

/// What the loop keeps: the hosts' tails, its one entry, how many were submitted, the commands of the last pick, and the
/// checksum.
#[derive(Drop)]
pub struct Kept {
    tails: [u16; QUEUES],
    pub entry: [u8; 64],
    submitted: u32,
    pub taken: [Taken; MOST],
    pub sum: u64,
}

impl Kept {
    /// Nothing was submitted.
    pub fn new() -> Kept {
        Kept {
            tails: [0; QUEUES],
            entry: [0; 64],
            submitted: 0,
            taken: [Taken { tag: 0, cookie: 0 }; MOST],
            sum: 0,
        }
    }

    /// Adds a number to the checksum.
    pub fn add(&mut self, value: u64) {
        self.sum = (self.sum ^ value).wrapping_mul(0x0100_0000_01b3);
    }

    /// The tail of a queue once its host has submitted `batch` more commands.
    pub fn advance(&mut self, qid: u16, batch: u16) -> u16 {
        let qid = usize::from(qid);
        if qid >= QUEUES {
            return 0;
        }
        let tail = self.tails[qid].wrapping_add(batch) % RING;
        self.tails[qid] = tail;
        tail
    }

    /// Writes the next entry of a queue, which lies in this slot of its ring, and answers its number.
    pub fn write_entry(&mut self, qid: u16, slot: u16) -> u32 {
        let number = self.submitted;
        self.submitted = number.wrapping_add(1);
        self.entry[2] = (slot % 0x100) as u8;
        self.entry[3] = (qid % 0x100) as u8;
        LittleEndian::write_u32(&mut self.entry[60..64], number);
        number
    }
}

/// Three numbers, each with bits of its own.
pub fn join(a: u16, b: u16, c: u32) -> u64 {
    u64::from(a) | u64::from(b) << 16 | u64::from(c) << 32
}
