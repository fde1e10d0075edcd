// The device that is simulated.
ghost use Rattle.std.specs.Prelude.{◌≡◌, ◌≤◌, ◌<◌, IfErr, IfOk};
ghost use Rattle.nvme_model.specs.Devices.{TellsDeviceFault, TellsPausesFault};
ghost use Rattle.nvme_model.specs.declared.device.TheConstants.{MAX_DEPTH};
ghost use Rattle.nvme_channels.specs.declared.channels.TheConstants.{MAX_CHANNELS};

use nvme_channels::{MAX_CHANNELS, Placement};
use thiserror::Error;

/// The most commands that a device has at a time.
pub const MAX_DEPTH: u16 = 4_095;

/// Why pauses are refused.
#[derive(Clone, Copy, Debug, PartialEq, Eq, Error)]
pub enum PausesFault {
    /// They have no length.
    #[error("expected pauses longer than 0")]
    NoLength,
    /// They take all of the time.
    #[error("expected pauses that are shorter than the time from one to the next")]
    TooLong,
}

/// The pauses of each channel, as garbage collection makes them: the command that runs there goes on, and none starts. They
/// come at equal times one after another. Those of the channels are spread evenly.
#[derive(Clone, Copy, Debug, PartialEq, Eq)]
pub struct Pauses {
    /// The time from the beginning of one to that of the next, in picoseconds.
    pub every: u64,
    /// How long each takes, in picoseconds.
    pub length: u64,
    ghost some: { 0 < length },
    ghost apart: { length < every },
}

impl Pauses {
    /// Pauses of this length, above 0, which begin so much later than the one before, more than the length.
    pub fn new(every: u64, length: u64) -> Result<Pauses, PausesFault>
        ensures every { IfOk result (λ p. p.every ≡ every) }
        ensures length { IfOk result (λ p. p.length ≡ length) }
        ensures err { IfErr result (λ e. TellsPausesFault every length e) }
    {
        if length == 0 {
            return Err(PausesFault::NoLength);
        }
        if length >= every {
            return Err(PausesFault::TooLong);
        }
        Ok(Pauses { every, length })
    }
}

/// Why there is no such device.
#[derive(Clone, Copy, Debug, PartialEq, Eq, Error)]
pub enum DeviceFault {
    /// It has no channel, or more than 65,535.
    #[error("expected 1 to 65535 channels")]
    Channels,
    /// It has no command at a time, or more than 4,095.
    #[error("expected a depth of 1 to 4095")]
    Depth,
}

/// A device.
#[derive(Clone, Copy, Debug, PartialEq, Eq)]
pub struct Device {
    /// How many channels it has, each of which runs a command at a time.
    pub channels: usize,
    /// How many commands it has at a time, those that run included.
    pub depth: u16,
    /// On which channels a command may run.
    pub placement: Placement,
    /// The pauses of its channels, if they have any.
    pub pauses: Option<Pauses>,
    ghost some: { 0 < channels },
    ghost at_most: { channels ≤ MAX_CHANNELS },
    ghost has: { 0 < depth },
    ghost few: { depth ≤ MAX_DEPTH },
}

impl Device {
    /// A device of 1 to 65,535 channels and of a depth of 1 to 4,095.
    pub fn new(
        channels: usize,
        depth: u16,
        placement: Placement,
        pauses: Option<Pauses>,
    ) -> Result<Device, DeviceFault>
        ensures channels { IfOk result (λ d. d.channels ≡ channels) }
        ensures depth { IfOk result (λ d. d.depth ≡ depth) }
        ensures placement { IfOk result (λ d. d.placement ≡ placement) }
        ensures pauses { IfOk result (λ d. d.pauses ≡ pauses) }
        ensures err { IfErr result (λ e. TellsDeviceFault channels depth e) }
    {
        if channels == 0 || channels > MAX_CHANNELS {
            return Err(DeviceFault::Channels);
        }
        if depth == 0 || depth > MAX_DEPTH {
            return Err(DeviceFault::Depth);
        }
        Ok(Device {
            channels,
            depth,
            placement,
            pauses,
        })
    }
}
