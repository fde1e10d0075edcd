// Which operations a queue asks for.
ghost use Rattle.std.specs.Prelude.{◌≡◌, ◌<◌, ◌+◌, IfErr, IfOk};

use nvme_clock::uniform;
use rand_core::Rng;
use thiserror::Error;

/// What a command does.
#[derive(Clone, Copy, Debug, PartialEq, Eq)]
pub enum Operation {
    Read,
    Write,
    Flush,
}

/// Why shares make no mix.
#[derive(Clone, Copy, Debug, PartialEq, Eq, Error)]
pub enum MixFault {
    /// All of them are 0.
    #[error("expected a share of reads, writes or flushes above 0")]
    NoShare,
}

/// The shares that each operation has of a queue's commands. One of them is above 0.
#[derive(Clone, Copy, Debug, PartialEq, Eq)]
pub struct Mix {
    pub read: u32,
    pub write: u32,
    pub flush: u32,
    ghost some: { 0 < read + write + flush },
}

impl Mix {
    ghost use Rattle.nvme_load.specs.Mixes.{TellsMixFault, operation};

    /// A mix of these shares.
    pub fn new(read: u32, write: u32, flush: u32) -> Result<Mix, MixFault>
        ensures reads { IfOk result (λ m. m.read ≡ read) }
        ensures writes { IfOk result (λ m. m.write ≡ write) }
        ensures flushes { IfOk result (λ m. m.flush ≡ flush) }
        ensures err { IfErr result (λ e. TellsMixFault read write flush e) }
    {
        if read == 0 && write == 0 && flush == 0 {
            return Err(MixFault::NoShare);
        }
        Ok(Mix { read, write, flush })
    }

    /// The operation of a command: each number below the sum of the shares stands for one, for reads those below their
    /// share, for writes as many behind them, and for flushes the others.
    pub fn draw<R: Rng>(&self, rng: &mut R) -> Operation
        ensures { (result, R.stream rng.new) ≡ operation self.now.read self.now.write self.now.flush (R.stream rng.old) }
    {
        let reads = u64::from(self.read);
        let reads_and_writes = reads + u64::from(self.write);
        let number = uniform(rng, reads_and_writes + u64::from(self.flush));
        if number < reads {
            Operation::Read
        } else if number < reads_and_writes {
            Operation::Write
        } else {
            Operation::Flush
        }
    }
}
