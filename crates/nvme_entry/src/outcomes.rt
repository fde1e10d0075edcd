ghost use Rattle.std.specs.Prelude.{◌≡◌, ◌==◌, ◌||◌, is_some, if◌then◌else◌};
ghost use Rattle.nvme_entry.specs.Namespaces.{size_at};
ghost use Rattle.nvme_entry.specs.Outcome.{outcome_of};
ghost use Rattle.nvme_entry.specs.Status.{success, invalid_namespace};

use crate::namespaces::Namespaces;
use crate::status::Status;
use crate::submission::Sqe;

// The opcodes of the I/O commands. (NVM Command Set Specification, Opcodes for NVM Commands)
const FLUSH: u8 = 0x00;

const WRITE: u8 = 0x01;

const READ: u8 = 0x02;

// The namespace identifier that names every namespace.
const BROADCAST: u32 = 0xffff_ffff;

/// The status of an I/O command over these namespaces: that of the first check that it fails, or
/// success. No data is moved.
/// (NVM Command Set Specification, Flush, Write and Read; the order of the checks: profile)
pub fn outcome(entry: &Sqe, spaces: &Namespaces) -> Status
    ensures { result ≡ outcome_of entry.now spaces.now }
{
    if entry.fuse() != 0 {
        return Status::INVALID_FIELD;
    }
    if entry.opcode == FLUSH {
        return flush_outcome(entry.nsid, spaces);
    }
    if entry.opcode != WRITE && entry.opcode != READ {
        return Status::INVALID_OPCODE;
    }
    if entry.nsid == BROADCAST {
        return Status::INVALID_FIELD;
    }
    let Some(size) = spaces.size(entry.nsid) else {
        return Status::INVALID_NAMESPACE;
    };
    let end = u128::from(entry.slba()) + u128::from(entry.nlb()) + 1;
    if end > u128::from(size) {
        return Status::LBA_OUT_OF_RANGE;
    }
    Status::SUCCESS
}

// Flush also takes the broadcast identifier.
fn flush_outcome(nsid: u32, spaces: &Namespaces) -> Status
    ensures { result ≡ (if is_some (size_at spaces.now nsid) || (nsid == BROADCAST) then success else invalid_namespace) }
{
    if nsid == BROADCAST || spaces.size(nsid).is_some() {
        Status::SUCCESS
    } else {
        Status::INVALID_NAMESPACE
    }
}
