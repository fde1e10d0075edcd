// On which channels a command may run.
ghost use Rattle.std.specs.Prelude.{◌≡◌, ◌≤◌, ◌<◌, IfErr, IfOk, OnErr};

use thiserror::Error;

/// Why a stripe is refused.
#[derive(Clone, Copy, Debug, PartialEq, Eq, Error)]
pub enum StripeFault {
    /// It has no block.
    #[error("expected a stripe of a block or more")]
    NoBlocks,
}

/// The blocks that lie on one channel before those of the next channel begin.
#[derive(Clone, Copy, Debug, PartialEq, Eq)]
pub struct Stripe {
    pub blocks: u64,
    ghost some: { 0 < blocks },
}

impl Stripe {
    /// A stripe of so many blocks, which are above 0.
    pub fn new(blocks: u64) -> Result<Stripe, StripeFault>
        ensures ok { IfOk result (λ s. s.blocks ≡ blocks) }
        ensures err { IfErr result (λ e. e ≡ StripeFault.NoBlocks) }
        ensures no_blocks { OnErr result (blocks ≡ 0) }
    {
        if blocks == 0 {
            return Err(StripeFault::NoBlocks);
        }
        Ok(Stripe { blocks })
    }
}

/// On which channel a command runs.
#[derive(Clone, Copy, Debug, PartialEq, Eq)]
pub enum Placement {
    /// On any.
    Pool,
    /// On the one where its first block lies: stripes lie on the channels one after another, again and again.
    Striped(Stripe),
}

/// The channels on which a command may run: from `first` on, those before `end`.
#[derive(Clone, Copy, Debug, PartialEq, Eq)]
pub struct Reach {
    pub first: usize,
    pub end: usize,
}

impl Placement {
    ghost use Rattle.nvme_channels.specs.Reaches.{reach_of};

    /// The channels of so many on which a command may run that begins at this block.
    pub fn reach(&self, channels: usize, block: u64) -> Reach
        requires some { 0 < channels }
        ensures value { result ≡ reach_of self.now channels block }
        ensures ordered { result.first ≤ result.end }
        ensures within { result.end ≤ channels }
    {
        match self {
            Placement::Pool => Reach {
                first: 0,
                end: channels,
            },
            Placement::Striped(stripe) => {
                let first = (block / stripe.blocks % channels as u64) as usize;
                Reach {
                    first,
                    end: first + 1,
                }
            }
        }
    }
}

impl Reach {
    ghost use Rattle.nvme_channels.specs.Reaches.{reaches};

    // Whether it has this channel.
    pub(crate) fn has(&self, channel: usize) -> bool
        ensures { result ≡ reaches self.now channel }
    {
        self.first <= channel && channel < self.end
    }
}
