// Sums over commands.
ghost use Rattle.std.specs.Prelude.{◌≡◌, ◌-◌, ◌^◌};

use nvme_model::Finished;

/// The bytes of a block.
pub const BLOCK_BYTES: u64 = 512;

/// Sums over commands: bytes, and the times in each part of their way in picoseconds.
#[derive(Clone, Copy, Debug, PartialEq, Eq)]
pub struct Sums {
    pub bytes: u128,
    /// In their hosts.
    pub host: u128,
    /// In their rings and in arbitration.
    pub arbitration: u128,
    /// In the device, before they ran.
    pub device: u128,
    /// On a channel.
    pub service: u128,
}

/// Sums of no command.
pub const NOTHING: Sums = Sums {
    bytes: 0,
    host: 0,
    arbitration: 0,
    device: 0,
    service: 0,
};

impl Sums {
    ghost use Rattle.nvme_numbers.specs.Sums.{sums_plus, sums_with};
    ghost use Rattle.nvme_numbers.specs.inside.Bounds.{GrowsLittle, IsBelow};

    /// With a command.
    pub fn with(self, finished: &Finished) -> Sums
        requires { IsBelow (2 ^ 128 - 2 ^ 64) self }
        ensures value { result ≡ sums_with self finished.now }
        ensures little { GrowsLittle self result }
    {
        let times = &finished.times;
        Sums {
            bytes: self.bytes + u128::from(BLOCK_BYTES * u64::from(finished.blocks)),
            host: self.host + u128::from(times.host()),
            arbitration: self.arbitration + u128::from(times.arbitration()),
            device: self.device + u128::from(times.device()),
            service: self.service + u128::from(times.service()),
        }
    }

    /// With those of other commands.
    pub fn plus(self, others: &Sums) -> Sums
        requires { IsBelow (2 ^ 128) (sums_plus self others.now) }
        ensures { result ≡ sums_plus self others.now }
    {
        Sums {
            bytes: self.bytes + others.bytes,
            host: self.host + others.host,
            arbitration: self.arbitration + others.arbitration,
            device: self.device + others.device,
            service: self.service + others.service,
        }
    }
}
