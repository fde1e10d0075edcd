//! The sizes of a pool (profile).

/// The most workers of a pool. The fewest is 1.
pub const MAX_WORKERS: u8 = 8;

/// The most jobs that the lane holds.
pub const JOB_CAPACITY: u16 = 256;

/// The slots of each worker's result ring, which holds one result less.
pub const RESULT_SLOTS: u16 = 256;
