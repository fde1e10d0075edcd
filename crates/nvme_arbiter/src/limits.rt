// The limits of this profile. A later profile raises them here and in specs/Limits.antt.

/// The highest identifier of an I/O submission queue.
pub const HIGHEST_QID: u16 = 64;

/// The most submission queues: the admin queue and the I/O queues.
pub const QUEUE_LIMIT: usize = HIGHEST_QID as usize + 1;

/// The most candidates of one queue that an observation shows.
pub const HIGHEST_COUNT: u16 = 256;
