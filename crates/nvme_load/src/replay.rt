// Commands of a list, which says when each comes, what it does and where it lies.
ghost use Rattle.std.specs.Prelude.{◌≡◌, ◌≤◌, ◌<◌, ◌+◌, All, IfErr, IfOk, IfSome, false, length, max, nat_le, option_map, slice_get, true};
ghost use Rattle.nvme_load.specs.Replays.{TellsReplayFault, in_order};

use crate::mix::Operation;
use std::alloc::Global;
use thiserror::Error;

/// A command of a list.
#[derive(Clone, Copy, Debug, PartialEq, Eq)]
pub struct Request {
    /// When it comes, in picoseconds.
    pub at: u64,
    pub operation: Operation,
    /// Its first block.
    pub block: u64,
    /// How many blocks it has: none where it is a flush.
    pub blocks: u32,
}

impl Request {
    /// Whether it lies within a namespace of so many blocks.
    pub fn lies_within(&self, size: u64) -> bool
        ensures within { result ≡ true → self.now.block + self.now.blocks ≤ size }
        ensures outside { result ≡ false → size < self.now.block + self.now.blocks }
    {
        let blocks = u64::from(self.blocks);
        blocks <= size && self.block <= size - blocks
    }
}

/// Why a list is refused.
#[derive(Clone, Copy, Debug, PartialEq, Eq, Error)]
pub enum ReplayFault {
    /// A command ends behind the namespace.
    #[error("expected commands that lie within the namespace")]
    Outside,
    /// A command comes before the one in front of it.
    #[error("expected times that don't fall")]
    Order,
}

// Whether no command comes before the one in front of it.
fn is_in_order(requests: &[Request]) -> bool
    ensures { result ≡ in_order 0 requests.now }
{
    let mut before = 0;
    for request in requests {
        if request.at < before {
            return false;
        }
        before = request.at;
    }
    true
}

/// A list of commands in the order in which they come, each of which lies within the namespace.
#[derive(Drop)]
pub struct Replay {
    /// The blocks of the namespace.
    pub size: u64,
    pub requests: Vec<Request>,
    ghost within: { All (λ r. r.block + r.blocks ≤ size) requests.items },
    ghost ordered: { in_order 0 requests.items ≡ true },
}

impl Replay {
    /// A list without a command.
    pub fn empty(alloc: Global, size: u64) -> Replay
        ensures size { result.size ≡ size }
        ensures none { length result.requests.items ≡ 0 }
    {
        Replay {
            size,
            requests: Vec::new(alloc),
        }
    }

    /// A list of commands whose times don't fall, in a namespace of so many blocks.
    pub fn new(size: u64, requests: Vec<Request>) -> Result<Replay, ReplayFault>
        ensures size { IfOk result (λ r. r.size ≡ size) }
        ensures requests { IfOk result (λ r. r.requests ≡ requests) }
        ensures err { IfErr result (λ e. TellsReplayFault size requests.items e) }
    {
        if !requests.iter().all(|request| request.lies_within(size)) {
            return Err(ReplayFault::Outside);
        }
        if !is_in_order(&requests) {
            return Err(ReplayFault::Order);
        }
        Ok(Replay { size, requests })
    }

    /// The command of a number, which counts those before it. None where the list has ended.
    pub fn request(&self, number: u64) -> Option<Request>
        ensures value { result ≡ slice_get self.now.requests.items number }
        ensures within { IfSome result (λ r. r.block + r.blocks ≤ self.now.size) }
    {
        self.requests.get(number as usize).copied()
    }

    /// Whether the list has no command of this number, nor behind it.
    pub fn ends_at(&self, number: u64) -> bool
        ensures { result ≡ nat_le (length self.now.requests.items) number }
    {
        self.requests.len() as u64 <= number
    }

    /// When the command of a number comes behind one that came at this time: at its own time, which is no earlier where that
    /// one is of the list too. None where the list has ended.
    pub fn next_after(&self, number: u64, time: u64) -> Option<u64>
        ensures value { result ≡ option_map (λ r. max time r.at) (slice_get self.now.requests.items number) }
        ensures forward { IfSome result (λ at. time ≤ at) }
    {
        let request = self.request(number)?;
        Some(time.max(request.at))
    }
}
