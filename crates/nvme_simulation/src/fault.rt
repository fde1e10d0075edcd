// Why a simulation stops.
use thiserror::Error;

/// What never happens. A simulation tells it rather than go on with wrong numbers.
#[derive(Clone, Copy, Debug, PartialEq, Eq, Error)]
pub enum Broken {
    /// The controller refused a Create of a queue.
    #[error("a queue was not created")]
    Create,
    /// The controller refused the value of a doorbell.
    #[error("a doorbell was refused")]
    Doorbell,
    /// The controller read a slot in which its host has put no command.
    #[error("a slot was read that has no command")]
    Slot,
    /// The controller or the device has a command that isn't under way.
    #[error("a command was lost, or came twice")]
    Command,
    /// The device refused a command, or its end.
    #[error("the device refused a command")]
    Device,
    /// A completion isn't that of the command that ended.
    #[error("a completion is not that of the command that ended")]
    Completion,
    /// A command came to a stage of its way before the stage in front of it.
    #[error("a command went back in time")]
    Time,
}

/// Why a simulation stops.
#[derive(Clone, Copy, Debug, PartialEq, Eq, Error)]
pub enum SimulationFault {
    /// There is no memory.
    #[error("out of memory")]
    Memory,
    /// An event would come after 2^64 picoseconds or more.
    #[error("the run takes longer than 2^64 picoseconds, which are 213 days")]
    TooLong,
    /// Something happened that never does.
    #[error("a fault of the simulation: {0}")]
    Broken(Broken),
}
