// Faults of a simulation file.
ghost use Rattle.std.specs.Prelude.{◌≡◌};
ghost use Rattle.nvme_model_form.specs.declared.error.ModelError.TheVariants.{NoMemory};

use crate::key::Key;
use crate::place::{Place, Target};
use nvme_channels::StripeFault;
use nvme_clock::{DurationFault, TableFault};
use nvme_load::{ArrivalsFault, ExtentFault, MeanFault, MixFault, PhasesFault};
use nvme_model::{DeviceFault, EndFault, PausesFault, QueuesFault, SlotsFault};
use nvme_short_form::ShortError;
use std::alloc::{AllocError, AllocFailed};
use thiserror::Error;

/// What a value has to be.
#[derive(Clone, Copy, Debug, PartialEq, Eq)]
pub enum Kind {
    /// A table.
    Table,
    /// An array of tables, each of a queue.
    Queues,
    /// A text that is a duration.
    Duration,
    /// An array of such texts.
    Durations,
    /// A rate, a whole number of commands a second from 1 to 10^12, or a duration.
    Gap,
    /// A duration or the table of a service.
    Service,
    /// `"pool"` or `"striped"`.
    Placing,
    /// `"uniform"` or `"sequential"`.
    Offsets,
    /// The name of a file.
    File,
    /// The form of a file that is replayed.
    Form,
    /// A number above 0: a whole one, or a text of digits, or of digits, a point and digits.
    Speed,
}

/// Why a value of the right kind is refused. Each says what is expected.
#[derive(Clone, Copy, Debug, PartialEq, Eq, Error)]
pub enum Refusal {
    /// A text is no duration.
    #[error("{0}")]
    Duration(DurationFault),
    /// A time is no mean of exponential times.
    #[error("{0}")]
    Mean(MeanFault),
    /// Times are no quantiles.
    #[error("{0}")]
    Quantiles(TableFault),
    /// No time passes between commands, or none may be out.
    #[error("{0}")]
    Arrivals(ArrivalsFault),
    /// The on and off phases of bursts.
    #[error("{0}")]
    Phases(PhasesFault),
    /// All shares are 0.
    #[error("{0}")]
    Mix(MixFault),
    /// Commands have no place in the namespace.
    #[error("{0}")]
    Extent(ExtentFault),
    /// A stripe has no block.
    #[error("{0}")]
    Stripe(StripeFault),
    /// Pauses have no length, or take all of the time.
    #[error("{0}")]
    Pauses(PausesFault),
    /// There is no such device.
    #[error("{0}")]
    Device(DeviceFault),
    /// A ring has no such number of slots.
    #[error("{0}")]
    Slots(SlotsFault),
    /// No simulation has so many commands.
    #[error("{0}")]
    End(EndFault),
    /// There is no queue, or there are too many.
    #[error("{0}")]
    Queues(QueuesFault),
}

/// What is wrong at a place of a simulation file.
#[derive(Clone, Copy, Debug, PartialEq, Eq)]
pub enum Fault {
    /// A key that the table must have is missing.
    Missing(Key),
    /// The table has a key that it may not have.
    Unknown,
    /// The value is none of its kind.
    Bad(Kind),
    /// The value is no whole number from the first of these to the second.
    Range(u64, u64),
    /// The value is refused.
    Refused(Refusal),
    /// The key can't stand beside this one.
    Beside(Key),
    /// The key has no effect without `placing = "striped"`.
    NotStriped,
    /// The key has no effect without `form = "csv"`.
    NotCsv,
    /// Of the keys that say which service it is there is none, or there are several.
    NoService,
    /// Of the keys that say which arrivals they are there is none, or there are several; or `think` isn't beside `closed`.
    NoArrivals,
}

/// The first fault of the table of a simulation file, or that memory was refused. Nothing is read after it, and nothing
/// is kept of what was read before.
#[derive(Clone, Copy, Debug, PartialEq, Eq)]
pub enum ModelError {
    /// A fault, with its place and what is at fault there.
    At(Place, Target, Fault),
    /// A fault of `mechanism`, `burst`, `weights` or a `class`, as the short workload file has it.
    Settings(nvme_short_form::Place, nvme_short_form::Fault),
    /// Out of memory, before a fault was found.
    NoMemory,
}

/// A refusal of the value at a key.
pub(crate) fn refused(place: Place, key: Key, refusal: Refusal) -> ModelError {
    ModelError::At(place, Target::Key(key), Fault::Refused(refusal))
}

impl From<AllocError> for ModelError {
    ghost from_gives = { λ _ e. e ≡ NoMemory };

    fn from(_e: AllocError) -> ModelError {
        ModelError::NoMemory
    }
}

impl<T: Drop> From<AllocFailed<T>> for ModelError {
    ghost from_gives = { λ _ e. e ≡ NoMemory };

    fn from(_e: AllocFailed<T>) -> ModelError {
        ModelError::NoMemory
    }
}

impl From<ShortError> for ModelError {
    fn from(error: ShortError) -> ModelError {
        match error {
            ShortError::At(place, fault) => ModelError::Settings(place, fault),
            ShortError::NoMemory => ModelError::NoMemory,
        }
    }
}
