ghost use Rattle.std.specs.Prelude.{◌≡◌};
ghost use Rattle.nvme_entry.specs.Outcome.{ends_past};
ghost use Rattle.nvme_checks.specs.Status.{range_of};

use crate::identifiers::{BROADCAST, size};
use nvme_entry::{Sqe, Status};

// Whether the logical blocks of a command end past so many.
fn is_past(entry: &Sqe, size: u64) -> bool
    ensures { result ≡ ends_past entry.now size }
{
    u128::from(entry.slba()) + u128::from(entry.nlb()) + 1 > u128::from(size)
}

/// The status of a command that names logical blocks by NSID, SLBA and NLB, over namespaces of these sizes: that of the
/// first check of these fields that it fails, or success. The first size is that of namespace identifier 1, and 0 says
/// that an identifier is inactive. The opcode and the flags aren't looked at: Read, Write, Write Uncorrectable,
/// Compare, Write Zeroes and Verify have these fields.
/// (NVM Command Set Specification, these commands, Command Dwords 10 to 12; the order of the checks: profile)
pub fn range(entry: &Sqe, sizes: &[u64]) -> Status
    ensures { result ≡ range_of entry.now sizes.now }
{
    if entry.nsid == BROADCAST {
        return Status::INVALID_FIELD;
    }
    match size(entry.nsid, sizes) {
        None => Status::INVALID_NAMESPACE,
        Some(0) => Status::INVALID_FIELD,
        Some(size) if is_past(entry, size) => Status::LBA_OUT_OF_RANGE,
        Some(_) => Status::SUCCESS,
    }
}
