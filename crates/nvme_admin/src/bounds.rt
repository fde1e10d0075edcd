// The limits of regions and queues (profile). The identifiers of I/O queues count from 1 to `HIGHEST_QID`.
use nvme_arbiter::{HIGHEST_QID, QUEUE_LIMIT};

/// The largest limit on the number of I/O queues of a kind.
pub const MAX_IO_QUEUES: u16 = HIGHEST_QID;

/// The largest number of regions of a kind: that of the admin queue, and one for each I/O queue. It
/// is also the number of queue identifiers of a kind.
pub const MAX_REGIONS: usize = QUEUE_LIMIT;

/// The least number of slots of a region.
pub const MIN_SLOTS: u16 = 2;

/// The largest number of slots of a region.
pub const MAX_SLOTS: u16 = 4096;

/// The largest QSIZE, which is zero based.
pub const MAX_QSIZE: u16 = MAX_SLOTS - 1;
