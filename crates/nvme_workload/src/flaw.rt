ghost use Rattle.std.specs.Prelude.{◌≡◌};
ghost use Rattle.nvme_workload.specs.declared.flaw.PlanError.TheVariants.{NoMemory};
ghost use Rattle.nvme_workload.specs.Plan.{fault_of};

use crate::error::WorkloadError;
use crate::key::Key;
use crate::place::Spot;
use std::alloc::{AllocError, AllocFailed};

/// What is wrong in a table of a workload file.
#[derive(Clone, Copy, Debug, PartialEq, Eq)]
pub enum Flaw {
    /// A key that the table must have is missing.
    Missing(Key),
    /// The value of a key, or an item of its array, is of the wrong kind or out of range.
    Bad(Key),
    /// The table has a key that it may not have.
    Unknown,
    /// More than this key may have. At `Key::Count` the commands of all scripts are too many.
    Most(Key),
    /// A region has the address of an earlier one.
    Repeated,
}

impl Flaw {
    /// The fault, as a run reports it.
    pub fn fault(self) -> WorkloadError
        ensures { result ≡ fault_of self }
    {
        match self {
            Flaw::Missing(key) => WorkloadError::Missing(key),
            Flaw::Bad(key) => WorkloadError::Bad(key),
            Flaw::Unknown => WorkloadError::Unknown,
            Flaw::Most(_) => WorkloadError::Limit,
            Flaw::Repeated => WorkloadError::Repeated,
        }
    }
}

/// Why a document is no workload: its first flaw and the table where it is, or that memory was refused before.
#[derive(Clone, Copy, Debug, PartialEq, Eq)]
pub enum PlanError {
    /// The first flaw, and where it is.
    At(Spot, Flaw),
    /// Out of memory, before a flaw was found.
    NoMemory,
}

impl From<AllocError> for PlanError {
    ghost from_gives = { λ _ e. e ≡ NoMemory };

    fn from(_e: AllocError) -> PlanError {
        PlanError::NoMemory
    }
}

impl<T: Drop> From<AllocFailed<T>> for PlanError {
    ghost from_gives = { λ _ e. e ≡ NoMemory };

    fn from(_e: AllocFailed<T>) -> PlanError {
        PlanError::NoMemory
    }
}
