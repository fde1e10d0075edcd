// Where a fault of a simulation file is.
ghost use Rattle.std.specs.Prelude.{◌≡◌};
ghost use Rattle.nvme_model_form.specs.Services.{key_of};

use crate::key::Key;
use nvme_load::Operation;
use std::fmt;

/// Whose service it is.
#[derive(Clone, Copy, Debug, PartialEq, Eq)]
pub enum Owner {
    /// The device's, for each queue that has none of its own.
    Device,
    /// That of the queue of this number, from 1.
    Queue(usize),
}

/// A table of a simulation file. Queues count from 1, as their identifiers do.
#[derive(Clone, Copy, Debug, PartialEq, Eq)]
pub enum Place {
    /// The file's own table.
    Top,
    /// `simulation`.
    Simulation,
    /// `device`.
    Device,
    /// `pauses` of the device.
    Pauses,
    /// A queue.
    Queue(usize),
    /// `mix` of a queue.
    Mix(usize),
    /// `arrivals` of a queue.
    Arrivals(usize),
    /// `arrivals` of a queue that replays a file.
    Replay(usize),
    /// `bursts` of the arrivals of a queue.
    Bursts(usize),
    /// The service of an operation.
    Service(Owner, Operation),
}

/// What of a table is at fault.
#[derive(Clone, Copy, Debug, PartialEq, Eq)]
pub enum Target {
    /// The table as a whole.
    Table,
    /// The value at a key.
    Key(Key),
    /// An item, from 0, of the array at a key.
    Item(Key, usize),
}

/// The key at which the service of an operation stands, and its share of a mix.
pub fn key_of(operation: Operation) -> Key
    ensures { result ≡ key_of operation }
{
    match operation {
        Operation::Read => Key::Read,
        Operation::Write => Key::Write,
        Operation::Flush => Key::Flush,
    }
}

impl fmt::Display for Place {
    fn fmt<W: fmt::Write>(&self, f: &mut fmt::Formatter<W>) -> fmt::Result {
        match self {
            Place::Top => f.write_str("top"),
            Place::Simulation => f.write_str("simulation"),
            Place::Device => f.write_str("device"),
            Place::Pauses => f.write_str("device, pauses"),
            Place::Queue(queue) => write!(f, "queue {queue}"),
            Place::Mix(queue) => write!(f, "queue {queue}, mix"),
            Place::Arrivals(queue) | Place::Replay(queue) => {
                write!(f, "queue {queue}, arrivals")
            }
            Place::Bursts(queue) => write!(f, "queue {queue}, arrivals, bursts"),
            Place::Service(Owner::Device, operation) => {
                write!(f, "device, {name}", name = key_of(*operation).name())
            }
            Place::Service(Owner::Queue(queue), operation) => {
                let name = key_of(*operation).name();
                write!(f, "queue {queue}, {name}")
            }
        }
    }
}

impl fmt::Display for Target {
    fn fmt<W: fmt::Write>(&self, f: &mut fmt::Formatter<W>) -> fmt::Result {
        match self {
            Target::Table => Ok(()),
            Target::Key(key) => write!(f, ", {name}", name = key.name()),
            Target::Item(key, item) => {
                let (name, item) = (key.name(), item.saturating_add(1));
                write!(f, ", {name}, item {item}")
            }
        }
    }
}
