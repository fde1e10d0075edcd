// How long a device takes for a command.
ghost use Rattle.std.specs.Prelude.{◌≡◌, ◌≤◌, IfSome};

use crate::mean::Mean;
use crate::mix::Operation;
use nvme_clock::{Quantiles, TwoPoints};
use rand_core::Rng;

/// How times are spread.
#[derive(Drop)]
pub enum Distribution {
    /// All are equal.
    Fixed(u64),
    Exponential(Mean),
    TwoPoints(TwoPoints),
    Quantiles(Quantiles),
}

impl Distribution {
    ghost use Rattle.nvme_load.specs.Longest.{longest_time};
    ghost use Rattle.nvme_load.specs.Services.{time_of};

    /// The longest time that is drawn, in picoseconds: an exponential one is at most 64 means.
    pub fn longest(&self) -> u64
        ensures { result ≡ longest_time self.now }
    {
        match self {
            Distribution::Fixed(time) => *time,
            Distribution::Exponential(mean) => 64 * mean.picoseconds,
            Distribution::TwoPoints(points) => points.usual.max(points.rare),
            Distribution::Quantiles(table) => {
                let values = table.values();
                values[values.len() - 1]
            }
        }
    }

    /// A time. `Fixed` reads nothing of the stream.
    pub fn draw<R: Rng>(&self, rng: &mut R) -> u64
        ensures value { (result, R.stream rng.new) ≡ time_of self.now (R.stream rng.old) }
        ensures within { result ≤ longest_time self.now }
    {
        match self {
            Distribution::Fixed(time) => *time,
            Distribution::Exponential(mean) => mean.draw(rng),
            Distribution::TwoPoints(points) => points.draw(rng),
            Distribution::Quantiles(table) => table.draw(rng),
        }
    }
}

/// The service of commands with blocks: a time for each command, and on top of it one for each of its blocks.
#[derive(Drop)]
pub struct Service {
    pub time: Distribution,
    pub per_block: u64,
}

impl Service {
    ghost use Rattle.nvme_load.specs.Longest.{longest_service};
    ghost use Rattle.nvme_load.specs.Services.{service_of};

    /// The longest service time of a command with so many blocks, in picoseconds, and 2^64 - 1 where that is longer.
    pub fn longest(&self, blocks: u32) -> u64
        ensures { result ≡ longest_service self.now blocks }
    {
        let of_blocks = self.per_block.saturating_mul(u64::from(blocks));
        self.time.longest().saturating_add(of_blocks)
    }

    /// The service time of a command with so many blocks, or None where it is 2^64 picoseconds or longer.
    pub fn draw<R: Rng>(&self, rng: &mut R, blocks: u32) -> Option<u64>
        ensures value { (result, R.stream rng.new) ≡ service_of self.now blocks (R.stream rng.old) }
        ensures within { IfSome result (λ time. time ≤ longest_service self.now blocks) }
    {
        let time = self.time.draw(rng);
        let Some(of_blocks) = self.per_block.checked_mul(u64::from(blocks)) else {
            return None;
        };
        time.checked_add(of_blocks)
    }
}

/// What a device takes by operation. A flush has no blocks.
#[derive(Drop)]
pub struct Services {
    pub read: Service,
    pub write: Service,
    pub flush: Distribution,
}

impl Services {
    ghost use Rattle.nvme_load.specs.Longest.{longest_by};
    ghost use Rattle.nvme_load.specs.Services.{service_by};

    /// The longest service time of a command with so many blocks, in picoseconds, and 2^64 - 1 where that is longer.
    pub fn longest(&self, operation: Operation, blocks: u32) -> u64
        ensures { result ≡ longest_by self.now operation blocks }
    {
        match operation {
            Operation::Read => self.read.longest(blocks),
            Operation::Write => self.write.longest(blocks),
            Operation::Flush => self.flush.longest(),
        }
    }

    /// The service time of a command with so many blocks, or None where it is 2^64 picoseconds or longer.
    pub fn draw<R: Rng>(&self, rng: &mut R, operation: Operation, blocks: u32) -> Option<u64>
        ensures value { (result, R.stream rng.new) ≡ service_by self.now operation blocks (R.stream rng.old) }
        ensures within { IfSome result (λ time. time ≤ longest_by self.now operation blocks) }
    {
        match operation {
            Operation::Read => self.read.draw(rng, blocks),
            Operation::Write => self.write.draw(rng, blocks),
            Operation::Flush => Some(self.flush.draw(rng)),
        }
    }
}
