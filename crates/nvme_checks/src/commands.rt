ghost use Rattle.std.specs.Prelude.{◌≡◌, ◌==◌, not, if◌then◌else◌};
ghost use Rattle.nvme_entry.specs.Status.{success, invalid_field, invalid_namespace};
ghost use Rattle.nvme_checks.specs.Identifiers.{is_valid, is_active};
ghost use Rattle.nvme_checks.specs.Status.{check_of, psdt_of};

use crate::identifiers::{BROADCAST, size};
use crate::ranges::range;
use nvme_entry::{Sqe, Status};

// The opcodes of the I/O commands. (NVM Command Set Specification, Opcodes for NVM Commands)
const FLUSH: u8 = 0x00;

const WRITE: u8 = 0x01;

const READ: u8 = 0x02;

// The PRP or SGL for Data Transfer field, bits 7:6 of the flags: 0 for PRPs.
fn psdt(entry: &Sqe) -> u8
    ensures { result ≡ psdt_of entry.now }
{
    entry.flags / 64
}

// Flush names no logical blocks, and takes the broadcast identifier.
fn flush_status(nsid: u32, sizes: &[u64]) -> Status
    ensures { result ≡ (if nsid == 0xffffffff then success
        else (if not (is_valid sizes.now nsid) then invalid_namespace
        else (if not (is_active sizes.now nsid) then invalid_field else success))) }
{
    if nsid == BROADCAST {
        return Status::SUCCESS;
    }
    match size(nsid, sizes) {
        None => Status::INVALID_NAMESPACE,
        Some(0) => Status::INVALID_FIELD,
        Some(_) => Status::SUCCESS,
    }
}

/// The status of an I/O command over namespaces of these sizes, on a device without SGLs: that of the first check that
/// it fails, or success. The first size is that of namespace identifier 1, and 0 says that an identifier is inactive.
/// Flush, Write and Read are known; of every other opcode FUSE and PSDT are checked, and then it is Invalid Command
/// Opcode. No data is moved.
/// (Base Specification, Common Command Format; NVM Command Set Specification, Flush, Write and Read; the order of the
/// checks: profile)
pub fn check(entry: &Sqe, sizes: &[u64]) -> Status
    ensures { result ≡ check_of entry.now sizes.now }
{
    if entry.fuse() != 0 || psdt(entry) != 0 {
        return Status::INVALID_FIELD;
    }
    match entry.opcode {
        FLUSH => flush_status(entry.nsid, sizes),
        WRITE | READ => range(entry, sizes),
        _ => Status::INVALID_OPCODE,
    }
}
