ghost use Rattle.std.specs.Prelude.{◌≡◌};
ghost use Rattle.nvme_short_form.specs.declared.error.ShortError.TheVariants.{NoMemory};

use crate::key::Key;
use crate::place::Place;
use nvme_workload::WorkloadError;
use std::alloc::{AllocError, AllocFailed};
use thiserror::Error;

/// What is wrong at a place of a short workload file.
#[derive(Clone, Copy, Debug, PartialEq, Eq, Error)]
pub enum Fault {
    /// A key that a table must have is missing.
    #[error("W3 missing {name}", name = .0.name())]
    Missing(Key),
    /// The value of a key, or an item of its array, is of the wrong kind or out of range.
    #[error("W4 bad {name}", name = .0.name())]
    Bad(Key),
    /// A table has a key that it may not have.
    #[error("W5 unknown key")]
    Unknown,
    /// More than a key may have.
    #[error("W6 over a limit")]
    Limit(Key),
    /// The workload that the file stands for has a fault. No file was found that gives another than too many commands.
    #[error("{0}")]
    Written(WorkloadError),
}

/// The first fault of a short workload file, or that memory was refused. Nothing is read after it, and nothing is kept
/// of what was read before.
#[derive(Clone, Copy, Debug, PartialEq, Eq)]
pub enum ShortError {
    /// A fault, with its place.
    At(Place, Fault),
    /// Out of memory, before a fault was found.
    NoMemory,
}

impl From<AllocError> for ShortError {
    ghost from_gives = { λ _ e. e ≡ NoMemory };

    fn from(_e: AllocError) -> ShortError {
        ShortError::NoMemory
    }
}

impl<T: Drop> From<AllocFailed<T>> for ShortError {
    ghost from_gives = { λ _ e. e ≡ NoMemory };

    fn from(_e: AllocFailed<T>) -> ShortError {
        ShortError::NoMemory
    }
}
