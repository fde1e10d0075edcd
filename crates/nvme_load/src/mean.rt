// The mean of exponential times.
ghost use Rattle.std.specs.Prelude.{◌≡◌, ◌≤◌, ◌<◌, ◌*◌, IfErr, IfOk};
ghost use Rattle.nvme_clock.specs.declared.draws.TheConstants.{MAX_MEAN};
ghost use Rattle.nvme_clock.specs.Draws.{exponential};
ghost use Rattle.nvme_load.specs.Means.{TellsMeanFault};

use nvme_clock::{MAX_MEAN, exponential};
use rand_core::Rng;
use thiserror::Error;

/// Why a time is no mean of exponential times.
#[derive(Clone, Copy, Debug, PartialEq, Eq, Error)]
pub enum MeanFault {
    /// It is 0.
    #[error("expected a mean above 0")]
    Zero,
    /// It is above `nvme_clock::MAX_MEAN`.
    #[error("expected a mean of at most 288230376151711743 picoseconds, which are 3.3 days")]
    TooLong,
}

/// The mean of exponential times.
#[derive(Clone, Copy, Debug, PartialEq, Eq)]
pub struct Mean {
    pub picoseconds: u64,
    ghost some: { 0 < picoseconds },
    ghost at_most: { picoseconds ≤ MAX_MEAN },
}

impl Mean {
    /// The mean of so many picoseconds, which are above 0 and at most `nvme_clock::MAX_MEAN`.
    pub fn new(picoseconds: u64) -> Result<Mean, MeanFault>
        ensures ok { IfOk result (λ m. m.picoseconds ≡ picoseconds) }
        ensures err { IfErr result (λ e. TellsMeanFault picoseconds e) }
    {
        if picoseconds == 0 {
            return Err(MeanFault::Zero);
        }
        if picoseconds > MAX_MEAN {
            return Err(MeanFault::TooLong);
        }
        Ok(Mean { picoseconds })
    }

    /// An exponential time of this mean.
    pub fn draw<R: Rng>(&self, rng: &mut R) -> u64
        ensures value { (result, R.stream rng.new) ≡ exponential self.now.picoseconds (R.stream rng.old) }
        ensures bound { result ≤ 64 * self.now.picoseconds }
    {
        exponential(rng, self.picoseconds)
    }
}
