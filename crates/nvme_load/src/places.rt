// Where the commands of a queue lie.
ghost use Rattle.std.specs.Prelude.{◌≡◌, ◌≤◌, ◌<◌, ◌+◌, IfErr, IfOk};
ghost use Rattle.nvme_load.specs.declared.places.TheConstants.{MAX_BLOCKS};

use nvme_clock::uniform;
use rand_core::Rng;
use thiserror::Error;

/// The most blocks of a command: NLB has 16 bits, and counts from 0.
pub const MAX_BLOCKS: u32 = 65_536;

/// Why commands have no place.
#[derive(Clone, Copy, Debug, PartialEq, Eq, Error)]
pub enum ExtentFault {
    /// A command has no block.
    #[error("expected 1 to 65,536 blocks for each command")]
    NoBlocks,
    /// A command has more than 65,536 blocks.
    #[error("expected 1 to 65,536 blocks for each command")]
    TooManyBlocks,
    /// The namespace has fewer blocks than a command.
    #[error("expected a namespace with room for one command")]
    SmallNamespace,
}

/// The blocks of a namespace, and of each command that lies in it.
#[derive(Clone, Copy, Debug, PartialEq, Eq)]
pub struct Extent {
    pub size: u64,
    pub blocks: u32,
    ghost some: { 0 < blocks },
    ghost at_most: { blocks ≤ MAX_BLOCKS },
    ghost fits: { blocks ≤ size },
}

impl Extent {
    ghost use Rattle.nvme_load.specs.Places.{TellsExtentFault, place_behind, uniform_place};

    /// Commands of so many blocks in a namespace of this size.
    pub fn new(size: u64, blocks: u32) -> Result<Extent, ExtentFault>
        ensures size { IfOk result (λ e. e.size ≡ size) }
        ensures blocks { IfOk result (λ e. e.blocks ≡ blocks) }
        ensures err { IfErr result (λ e. TellsExtentFault size blocks e) }
    {
        if blocks == 0 {
            return Err(ExtentFault::NoBlocks);
        }
        if blocks > MAX_BLOCKS {
            return Err(ExtentFault::TooManyBlocks);
        }
        if size < u64::from(blocks) {
            return Err(ExtentFault::SmallNamespace);
        }
        Ok(Extent { size, blocks })
    }

    // The first block of a command behind one that ends before `end`, or 0 where it wouldn't fit there.
    fn behind(&self, end: u64) -> u64
        ensures value { result ≡ place_behind self.now.size self.now.blocks end }
        ensures within { result + self.now.blocks ≤ self.now.size }
    {
        if end > self.size - u64::from(self.blocks) {
            0
        } else {
            end
        }
    }

    // The block behind a command that begins here.
    fn end(&self, first: u64) -> u64
        requires within { first + self.now.blocks ≤ self.now.size }
        ensures { result ≡ first + self.now.blocks }
    {
        first + u64::from(self.blocks)
    }

    // The first block of a command at a whole multiple of its blocks, each as likely.
    fn uniform<R: Rng>(&self, rng: &mut R) -> u64
        ensures value { (result, R.stream rng.new) ≡ uniform_place self.now.size self.now.blocks (R.stream rng.old) }
        ensures within { result + self.now.blocks ≤ self.now.size }
    {
        let blocks = u64::from(self.blocks);
        uniform(rng, self.size / blocks) * blocks
    }
}

/// Which place of a namespace comes next.
#[derive(Clone, Copy, Debug, PartialEq, Eq)]
pub enum Order {
    /// A whole multiple of a command's blocks, each as likely.
    Uniform,
    /// Right behind the command before, or the first block where it wouldn't fit there.
    Sequential,
}

/// The places of a queue's commands. `end` is the block behind the command before, and 0 before the first one.
#[derive(Clone, Copy, Debug, PartialEq, Eq)]
pub struct Places {
    pub extent: Extent,
    pub order: Order,
    pub end: u64,
}

impl Places {
    ghost use Rattle.nvme_load.specs.Places.{place};

    /// Places from the first block on.
    pub fn new(extent: Extent, order: Order) -> Places
        ensures { result ≡ record { extent = extent; order = order; end = 0 } }
    {
        Places {
            extent,
            order,
            end: 0,
        }
    }

    // The first block of the next command.
    fn first<R: Rng>(&self, rng: &mut R) -> u64
        ensures value { (result, R.stream rng.new)
            ≡ place self.now.order self.now.extent.size self.now.extent.blocks self.now.end (R.stream rng.old) }
        ensures within { result + self.now.extent.blocks ≤ self.now.extent.size }
    {
        match self.order {
            Order::Uniform => self.extent.uniform(rng),
            Order::Sequential => self.extent.behind(self.end),
        }
    }

    /// The first block of the next command, which lies within the namespace.
    pub fn draw<R: Rng>(&mut self, rng: &mut R) -> u64
        ensures value { (result, R.stream rng.new)
            ≡ place self.old.order self.old.extent.size self.old.extent.blocks self.old.end (R.stream rng.old) }
        ensures moved { self.new ≡ record { extent = self.old.extent; order = self.old.order; end = result + self.old.extent.blocks } }
        ensures within { result + self.old.extent.blocks ≤ self.old.extent.size }
    {
        let first = self.first(rng);
        self.end = self.extent.end(first);
        first
    }
}
