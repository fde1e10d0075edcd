ghost use Rattle.std.specs.Prelude.{◌≡◌};
ghost use Rattle.nvme_entry.specs.AdminCommand.{admin_command_of};
ghost use Rattle.nvme_entry.specs.Bits.{bits_of};

use crate::Sqe;

/// An admin command with the fields that this controller reads of it. All other bits are ignored.
/// (Base Specification, Admin Command Set)
#[derive(Clone, Copy, Debug, PartialEq, Eq)]
pub enum AdminCommand {
    /// Delete I/O Submission Queue.
    DeleteSq {
        qid: u16,
    },
    /// Create I/O Submission Queue. `qsize` is zero based: the queue has `qsize + 1` slots. `pc` is
    /// Physically Contiguous, `prp1` the address of the queue.
    CreateSq {
        qid: u16,
        qsize: u16,
        prp1: u64,
        cqid: u16,
        qprio: u8,
        pc: bool,
    },
    /// Delete I/O Completion Queue.
    DeleteCq {
        qid: u16,
    },
    /// Create I/O Completion Queue, as `CreateSq`. IEN and IV are ignored.
    CreateCq {
        qid: u16,
        qsize: u16,
        prp1: u64,
        pc: bool,
    },
    /// Abort of the command `cid` of submission queue `sqid`.
    Abort {
        sqid: u16,
        cid: u16,
    },
    /// Set Features of the feature identifier `fid`. `sv` is Save.
    SetFeatures {
        fid: u8,
        sv: bool,
        cdw11: u32,
    },
    /// Get Features of the feature identifier `fid`. Select is ignored.
    GetFeatures {
        fid: u8,
    },
    /// Every other opcode.
    Other,
}

// Bits 15:00 of a command dword.
fn low_half(dword: u32) -> u16
    ensures { result ≡ bits_of 15 0 dword }
{
    (dword % 0x1_0000) as u16
}

// Bits 31:16 of a command dword.
fn high_half(dword: u32) -> u16
    ensures { result ≡ bits_of 31 16 dword }
{
    (dword / 0x1_0000) as u16
}

// Bits 02:01 of a command dword.
fn priority_bits(dword: u32) -> u8
    ensures { result ≡ bits_of 2 1 dword }
{
    (dword / 2 % 4) as u8
}

// Bits 07:00 of a command dword.
fn low_byte(dword: u32) -> u8
    ensures { result ≡ bits_of 7 0 dword }
{
    (dword % 0x100) as u8
}

/// The admin command of an entry. Every entry has one. FUSE and the namespace identifier are ignored.
/// (Base Specification, Opcodes for Admin Commands, and the command dwords of each command)
pub fn admin_of(entry: &Sqe) -> AdminCommand
    ensures { result ≡ admin_command_of entry.now }
{
    let qid = low_half(entry.cdw10);
    let qsize = high_half(entry.cdw10);
    let prp1 = entry.prp1;
    let pc = entry.cdw11 % 2 == 1;
    match entry.opcode {
        0x00 => AdminCommand::DeleteSq { qid },
        0x01 => AdminCommand::CreateSq {
            qid,
            qsize,
            prp1,
            cqid: high_half(entry.cdw11),
            qprio: priority_bits(entry.cdw11),
            pc,
        },
        0x04 => AdminCommand::DeleteCq { qid },
        0x05 => AdminCommand::CreateCq {
            qid,
            qsize,
            prp1,
            pc,
        },
        0x08 => AdminCommand::Abort {
            sqid: low_half(entry.cdw10),
            cid: high_half(entry.cdw10),
        },
        0x09 => AdminCommand::SetFeatures {
            fid: low_byte(entry.cdw10),
            sv: entry.cdw10 / 0x8000_0000 == 1,
            cdw11: entry.cdw11,
        },
        0x0a => AdminCommand::GetFeatures {
            fid: low_byte(entry.cdw10),
        },
        _ => AdminCommand::Other,
    }
}
