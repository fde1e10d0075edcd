ghost use Rattle.std.specs.Prelude.{◌≡◌, ◌/◌, ◌%◌, ◌^◌};

use byteorder::{ByteOrder, LittleEndian};

/// A submission queue entry of 64 bytes. All its bytes are kept, those that no command here uses
/// among them. (Base Specification, Submission Queue Entry, Common Command Format)
#[repr(C)]
#[derive(Clone, Copy, Debug, Default, PartialEq, Eq)]
pub struct Sqe {
    /// The command's opcode.
    pub opcode: u8,
    /// FUSE in bits 1:0, PSDT in bits 7:6.
    pub flags: u8,
    /// The command identifier.
    pub cid: u16,
    /// The namespace identifier.
    pub nsid: u32,
    pub cdw2: u32,
    pub cdw3: u32,
    /// The metadata pointer.
    pub mptr: u64,
    /// PRP entry 1. In a Create command here, the address of a region.
    pub prp1: u64,
    /// PRP entry 2.
    pub prp2: u64,
    pub cdw10: u32,
    pub cdw11: u32,
    pub cdw12: u32,
    pub cdw13: u32,
    pub cdw14: u32,
    pub cdw15: u32,
}

// Bits 31:00 of a quadword.
fn low_half(quadword: u64) -> u32
    ensures { result ≡ quadword % 2 ^ 32 }
{
    (quadword % 0x1_0000_0000) as u32
}

// Bits 63:32 of a quadword.
fn high_half(quadword: u64) -> u32
    ensures { result ≡ quadword / 2 ^ 32 }
{
    (quadword / 0x1_0000_0000) as u32
}

impl Sqe {
    ghost use Rattle.std.specs.Prelude.{◌≡◌};
    ghost use Rattle.nvme_entry.specs.Submission.{IsSubmissionEntry, fuse_of, slba_of, nlb_of};

    /// The entry that 64 bytes hold. Every byte belongs to a field, so none is lost.
    pub fn from_bytes(bytes: &[u8; 64]) -> Sqe
        ensures layout { IsSubmissionEntry bytes.now result }
    {
        Sqe {
            opcode: bytes[0],
            flags: bytes[1],
            cid: LittleEndian::read_u16(&bytes[2..4]),
            nsid: LittleEndian::read_u32(&bytes[4..8]),
            cdw2: LittleEndian::read_u32(&bytes[8..12]),
            cdw3: LittleEndian::read_u32(&bytes[12..16]),
            mptr: LittleEndian::read_u64(&bytes[16..24]),
            prp1: LittleEndian::read_u64(&bytes[24..32]),
            prp2: LittleEndian::read_u64(&bytes[32..40]),
            cdw10: LittleEndian::read_u32(&bytes[40..44]),
            cdw11: LittleEndian::read_u32(&bytes[44..48]),
            cdw12: LittleEndian::read_u32(&bytes[48..52]),
            cdw13: LittleEndian::read_u32(&bytes[52..56]),
            cdw14: LittleEndian::read_u32(&bytes[56..60]),
            cdw15: LittleEndian::read_u32(&bytes[60..64]),
        }
    }

    /// The 64 bytes of the entry.
    pub fn to_bytes(&self) -> [u8; 64]
        ensures layout { IsSubmissionEntry result self.now }
    {
        let dwords = [
            u32::from(self.opcode) + (u32::from(self.flags) << 8) + (u32::from(self.cid) << 16),
            self.nsid,
            self.cdw2,
            self.cdw3,
            low_half(self.mptr),
            high_half(self.mptr),
            low_half(self.prp1),
            high_half(self.prp1),
            low_half(self.prp2),
            high_half(self.prp2),
            self.cdw10,
            self.cdw11,
            self.cdw12,
            self.cdw13,
            self.cdw14,
            self.cdw15,
        ];
        let mut bytes = [0; 64];
        LittleEndian::write_u32_into(&dwords, &mut bytes);
        bytes
    }

    /// The fused operation field, bits 1:0 of `flags`: 0 for a command on its own.
    pub fn fuse(&self) -> u8
        ensures { result ≡ fuse_of self.now }
    {
        self.flags % 4
    }

    /// The starting logical block of a Read or Write.
    /// (NVM Command Set Specification, Read and Write, Command Dwords 10 and 11)
    pub fn slba(&self) -> u64
        ensures { result ≡ slba_of self.now }
    {
        u64::from(self.cdw10) + (u64::from(self.cdw11) << 32)
    }

    /// The number of logical blocks of a Read or Write, less 1.
    /// (NVM Command Set Specification, Read and Write, Command Dword 12)
    pub fn nlb(&self) -> u16
        ensures { result ≡ nlb_of self.now }
    {
        (self.cdw12 % 0x1_0000) as u16
    }
}
