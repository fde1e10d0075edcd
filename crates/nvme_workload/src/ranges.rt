// The ranges of the numbers of a workload file, by which they are checked and told.
use nvme_admin::{MAX_IO_QUEUES, MAX_SLOTS, MIN_SLOTS};

/// The whole numbers from `low` to `high`.
#[derive(Clone, Copy)]
pub(crate) struct Range {
    pub(crate) low: u64,
    pub(crate) high: u64,
}

/// A byte of an entry.
pub(crate) const BYTE: Range = Range { low: 0, high: 0xff };

/// A dword of an entry, or the value of a feature.
pub(crate) const DWORD: Range = Range {
    low: 0,
    high: 0xffff_ffff,
};

/// The address of a region, and PRP entry 1.
pub(crate) const ADDRESS: Range = Range {
    low: 0,
    high: 0x7fff_ffff_ffff_ffff,
};

/// The limit on the queues of a kind.
pub(crate) const QUEUES: Range = Range {
    low: 1,
    high: MAX_IO_QUEUES as u64,
};

/// The turns of a patience.
pub(crate) const TURNS: Range = Range {
    low: 1,
    high: 0xffff_ffff,
};

/// The size of a namespace, in blocks.
pub(crate) const BLOCKS: Range = Range {
    low: 1,
    high: 0x7fff_ffff_ffff_ffff,
};

/// The slots of a ring.
pub(crate) const SLOTS: Range = Range {
    low: MIN_SLOTS as u64,
    high: MAX_SLOTS as u64,
};

/// How many equal commands an item stands for.
pub(crate) const COPIES: Range = Range {
    low: 1,
    high: 65_536,
};
