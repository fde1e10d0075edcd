// What is told of a command that is done.
use crate::times::Times;
use nvme_load::Operation;

/// A command that is done.
#[derive(Clone, Copy, Debug, PartialEq, Eq)]
pub struct Finished {
    /// Its submission queue, from 1.
    pub queue: u16,
    /// How many commands of its queue came before it.
    pub number: u64,
    pub operation: Operation,
    /// Its first block.
    pub block: u64,
    /// How many blocks it has: none where it is a flush.
    pub blocks: u32,
    /// The channel on which it ran, from 0.
    pub channel: usize,
    pub times: Times,
}
