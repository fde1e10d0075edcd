// A channel of a device.
ghost use Rattle.std.specs.Prelude.{◌≡◌, ◌≤◌, IfOk};

use thiserror::Error;

/// Why a device doesn't take, finish or start a command. It stays as it was.
#[derive(Clone, Copy, Debug, PartialEq, Eq, Error)]
pub enum StepFault {
    /// The device has as many commands as its depth.
    #[error("the device has no room for a command")]
    NoRoom,
    /// The device has fewer channels.
    #[error("the device has no such channel")]
    NoChannel,
    /// No command runs on the channel.
    #[error("no command runs on the channel")]
    NoCommand,
    /// The time is before the end of the channel's last command.
    #[error("the channel's last command ends later")]
    Early,
    /// The command that starts would end at 2^64 picoseconds or later.
    #[error("a command would end after 2^64 picoseconds or more, which are 213 days")]
    TooLate,
}

/// A channel, which runs one command at a time.
#[derive(Clone, Copy, Debug, PartialEq, Eq)]
pub struct Channel {
    /// Whether a command runs.
    pub running: bool,
    /// Whether no command may start.
    pub paused: bool,
    /// When the last command that started ends, in picoseconds. 0 before the first one.
    pub ends: u64,
    /// The service times of all commands that started, in picoseconds.
    pub busy: u64,
}

impl Channel {
    ghost use Rattle.nvme_channels.specs.Channel.{begun, freed, is_idle, paused, resumed};

    // Whether a command may start.
    pub(crate) fn is_idle(&self) -> bool
        ensures { result ≡ is_idle self.now }
    {
        !(self.running || self.paused)
    }

    // Without its command.
    pub(crate) fn freed(self) -> Channel
        ensures { result ≡ freed self }
    {
        Channel {
            running: false,
            ..self
        }
    }

    // Where no command may start.
    pub(crate) fn paused(self) -> Channel
        ensures { result ≡ paused self }
    {
        Channel {
            paused: true,
            ..self
        }
    }

    // Where commands may start.
    pub(crate) fn resumed(self) -> Channel
        ensures { result ≡ resumed self }
    {
        Channel {
            paused: false,
            ..self
        }
    }

    // With a command that starts at this time and takes so long.
    pub(crate) fn begun(self, now: u64, service: u64) -> Result<Channel, StepFault>
        requires worked { self.busy ≤ self.ends }
        ensures value { result ≡ begun now service self }
        ensures worked { IfOk result (λ c. c.busy ≤ c.ends) }
    {
        if now < self.ends {
            return Err(StepFault::Early);
        }
        match now.checked_add(service) {
            Some(ends) => Ok(Channel {
                running: true,
                paused: self.paused,
                ends,
                busy: self.busy + service,
            }),
            None => Err(StepFault::TooLate),
        }
    }
}
