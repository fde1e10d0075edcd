ghost use Rattle.std.specs.Prelude.{◌≡◌, ◌+◌, ◌*◌, ◌^◌, ◌<◌, if◌then◌else◌};
ghost use Rattle.nvme_entry.specs.Bits.{bits_of, dword};

use crate::status::Status;
use crate::submission::Sqe;
use byteorder::{ByteOrder, LittleEndian};

/// A completion queue entry of 16 bytes. Its reserved fields (Command Dword 1, and CRD, More and Do
/// Not Retry of the status field) are always 0. (Base Specification, Completion Queue Entry)
#[derive(Clone, Copy, Debug, PartialEq, Eq)]
pub struct Cqe {
    /// The command specific dword.
    pub dw0: u32,
    /// The submission queue head pointer.
    pub sqhd: u16,
    /// The submission queue identifier.
    pub sqid: u16,
    /// The command identifier.
    pub cid: u16,
    /// The phase tag.
    pub phase: bool,
    pub status: Status,
}

// A dword by its low and its high half.
fn dword_of(low: u16, high: u16) -> u32
    ensures low { bits_of 15 0 result ≡ low }
    ensures high { bits_of 31 16 result ≡ high }
{
    u32::from(low) + (u32::from(high) << 16)
}

// Bits 31:16 of Command Dword 3: the phase tag below the status.
fn status_field(status: Status, phase: bool) -> u16
    ensures phase { (if phase then 1 else 0) ≡ bits_of 0 0 result }
    ensures sc { status.sc ≡ bits_of 8 1 result }
    ensures sct { status.sct ≡ bits_of 11 9 result }
    ensures never_set { bits_of 15 12 result ≡ 0 }
{
    let tag = if phase { 1 } else { 0 };
    tag + (u16::from(status.sc()) << 1) + (u16::from(status.sct()) << 9)
}

// The bytes of four dwords.
fn bytes_of(dw0: u32, dw1: u32, dw2: u32, dw3: u32) -> [u8; 16]
    ensures dw0 { dword 0 result ≡ dw0 }
    ensures dw1 { dword 1 result ≡ dw1 }
    ensures dw2 { dword 2 result ≡ dw2 }
    ensures dw3 { dword 3 result ≡ dw3 }
{
    let mut bytes = [0; 16];
    LittleEndian::write_u32_into(&[dw0, dw1, dw2, dw3], &mut bytes);
    bytes
}

// Command Dword `n`, 0 to 3, of a completion entry.
fn dword_at(bytes: &[u8; 16], n: usize) -> u32
    requires { n < 4 }
    ensures { result ≡ dword n bytes.now }
{
    LittleEndian::read_u32(&bytes[4 * n..4 * n + 4])
}

impl Cqe {
    ghost use Rattle.std.specs.Prelude.{◌≡◌, ◌≢◌, ◌⊎◌, ◌↔◌, IsNone, IfSome};
    ghost use Rattle.nvme_entry.specs.Bits.{bits_of, dword};
    ghost use Rattle.nvme_entry.specs.Completion.{IsCompletionEntry};

    /// The 16 bytes of the entry.
    pub fn to_bytes(&self) -> [u8; 16]
        ensures layout { IsCompletionEntry result self.now }
    {
        let queue = dword_of(self.sqhd, self.sqid);
        let command = dword_of(self.cid, status_field(self.status, self.phase));
        bytes_of(self.dw0, 0, queue, command)
    }

    /// The entry that 16 bytes hold. `None` exactly where Command Dword 1 isn't 0 or one of bits 31:28
    /// of Command Dword 3 is set: no completion of this controller has such bytes.
    pub fn from_bytes(bytes: &[u8; 16]) -> Option<Cqe>
        ensures none { IsNone result ↔ ((dword 1 bytes.now ≢ 0) ⊎ (bits_of 31 28 (dword 3 bytes.now) ≢ 0)) }
        ensures some { IfSome result (IsCompletionEntry bytes.now) }
    {
        let queue = dword_at(bytes, 2);
        let command = dword_at(bytes, 3);
        if dword_at(bytes, 1) != 0 || command >> 28 != 0 {
            return None;
        }
        let status = Status::new(((command >> 25) % 8) as u8, ((command >> 17) % 0x100) as u8)?;
        Some(Cqe {
            dw0: dword_at(bytes, 0),
            sqhd: (queue % 0x1_0000) as u16,
            sqid: (queue >> 16) as u16,
            cid: (command % 0x1_0000) as u16,
            phase: (command >> 16) % 2 == 1,
            status,
        })
    }
}

/// The completion of an entry of submission queue `sqid`, with each argument in its field.
pub fn complete(entry: &Sqe, sqid: u16, sqhd: u16, phase: bool, status: Status, dw0: u32) -> Cqe
    ensures dw0 { result.dw0 ≡ dw0 }
    ensures sqhd { result.sqhd ≡ sqhd }
    ensures sqid { result.sqid ≡ sqid }
    ensures cid { result.cid ≡ entry.now.cid }
    ensures phase { result.phase ≡ phase }
    ensures status { result.status ≡ status }
{
    Cqe {
        dw0,
        sqhd,
        sqid,
        cid: entry.cid,
        phase,
        status,
    }
}
