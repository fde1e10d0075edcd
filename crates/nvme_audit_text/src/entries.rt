// Reads entries: their bytes in hexadecimal, or some of their fields.
ghost use Rattle.std.specs.Prelude.{◌≡◌, ◌≤◌, ◌+◌, IfSome, option_map};
ghost use Rattle.nvme_entry.specs.Bits.{bytes_at};
ghost use Rattle.serde_json.specs.View.{view};
ghost use Rattle.nvme_audit_text.specs.Readings.{maybe_at};
ghost use Rattle.nvme_audit_text.specs.Entries.{bytes_in, entry_of, entry_with, entry_by_fields, entry_in, completion_with, completion_of, completion_by_fields, completion_in};

use crate::fault::{Field, LineFault};
use crate::reading::{maybe_at, number_at};
use byteorder::{ByteOrder, LittleEndian};
use hex::FromHex;
use nvme_audit::Completion;
use nvme_entry::{Sqe, Status};
use serde_json::Value;

// The bytes of a submission entry in hexadecimal.
fn submission_bytes(value: &Value) -> Option<[u8; 64]>
    ensures { result ≡ bytes_in 64 (view value.now) }
{
    <[u8; 64] as FromHex>::from_hex(value.as_str()?).ok()
}

// The bytes of a completion entry in hexadecimal.
fn completion_bytes(value: &Value) -> Option<[u8; 16]>
    ensures { result ≡ bytes_in 16 (view value.now) }
{
    <[u8; 16] as FromHex>::from_hex(value.as_str()?).ok()
}

// The entry that 64 bytes hold.
#[tactic(auto, using(crate::proofs::EntryLemmas::entry_is))]
fn entry_of(bytes: &[u8; 64]) -> Sqe
    ensures { result ≡ entry_of bytes.now }
{
    Sqe::from_bytes(bytes)
}

// An entry of which these fields are told.
fn entry_with(opcode: u8, cid: u16, cdw10: u32, cdw11: u32) -> Sqe
    ensures { result ≡ entry_with opcode cid cdw10 cdw11 }
{
    Sqe {
        opcode,
        flags: 0,
        cid,
        nsid: 0,
        cdw2: 0,
        cdw3: 0,
        mptr: 0,
        prp1: 0,
        prp2: 0,
        cdw10,
        cdw11,
        cdw12: 0,
        cdw13: 0,
        cdw14: 0,
        cdw15: 0,
    }
}

// A submission entry by its fields.
#[tactic(auto, unfolding(crate::specs::Entries::entry_by_fields))]
fn entry_by_fields(line: &Value) -> Result<Sqe, LineFault>
    ensures { result ≡ entry_by_fields (view line.now) }
{
    let cid = number_at(line, Field::Cid, 0xffff)? as u16;
    let opcode = number_at(line, Field::Op, 0xff)? as u8;
    let cdw10 = maybe_at(line, Field::Cdw10, 0xffff_ffff)?.unwrap_or(0) as u32;
    let cdw11 = maybe_at(line, Field::Cdw11, 0xffff_ffff)?.unwrap_or(0) as u32;
    Ok(entry_with(opcode, cid, cdw10, cdw11))
}

/// The submission entry of a line.
#[tactic(auto, unfolding(crate::specs::Entries::entry_in))]
pub(crate) fn entry_in(line: &Value) -> Result<Sqe, LineFault>
    ensures { result ≡ entry_in (view line.now) }
{
    let Some(value) = line.get(Field::Sqe.name()) else {
        return entry_by_fields(line);
    };
    match submission_bytes(value) {
        Some(bytes) => Ok(entry_of(&bytes)),
        None => Err(LineFault::Bad(Field::Sqe)),
    }
}

// The number of two bytes of a completion entry, the lower one first.
fn word_at(bytes: &[u8; 16], place: usize) -> u16
    requires { place + 2 ≤ 16 }
    ensures { result ≡ bytes_at place 2 bytes.now }
{
    LittleEndian::read_u16(&bytes[place..place + 2])
}

// The number of four bytes of one.
fn dword_at(bytes: &[u8; 16], place: usize) -> u32
    requires { place + 4 ≤ 16 }
    ensures { result ≡ bytes_at place 4 bytes.now }
{
    LittleEndian::read_u32(&bytes[place..place + 4])
}

// A completion with these fields.
fn completion_with(
    sq: u16,
    cid: u16,
    sqhd: Option<u16>,
    phase: Option<u64>,
    status: u16,
    dw0: Option<u32>,
) -> Completion
    ensures { result ≡ completion_with sq cid sqhd phase status dw0 }
{
    let sct = (status / 256 % 8) as u8;
    let Some(status) = Status::new(sct, (status % 256) as u8) else {
        unreachable!()
    };
    let phase = match phase {
        Some(tag) => Some(tag == 1),
        None => None,
    };
    Completion {
        sq,
        cid,
        sqhd,
        phase,
        status,
        dw0,
    }
}

// The completion that 16 bytes hold. Reserved bits aren't looked at.
fn completion_of(bytes: &[u8; 16]) -> Completion
    ensures { result ≡ completion_of bytes.now }
{
    let word = word_at(bytes, 14);
    completion_with(
        word_at(bytes, 10),
        word_at(bytes, 12),
        Some(word_at(bytes, 8)),
        Some(u64::from(word % 2)),
        word / 2,
        Some(dword_at(bytes, 0)),
    )
}

/// A number of 16 bits where it is told.
pub(crate) fn word_in(line: &Value, field: Field) -> Result<Option<u16>, LineFault>
    ensures { result ≡ maybe_at field 65535 (view line.now) }
{
    match maybe_at(line, field, 0xffff)? {
        Some(number) => Ok(Some(number as u16)),
        None => Ok(None),
    }
}

/// A number of 32 bits where it is told.
pub(crate) fn dword_in(line: &Value, field: Field) -> Result<Option<u32>, LineFault>
    ensures { result ≡ maybe_at field 4294967295 (view line.now) }
{
    match maybe_at(line, field, 0xffff_ffff)? {
        Some(number) => Ok(Some(number as u32)),
        None => Ok(None),
    }
}

// A completion by its fields.
#[tactic(auto, unfolding(crate::specs::Entries::completion_by_fields))]
fn completion_by_fields(line: &Value) -> Result<Completion, LineFault>
    ensures { result ≡ completion_by_fields (view line.now) }
{
    let sq = number_at(line, Field::Sq, 0xffff)? as u16;
    let cid = number_at(line, Field::Cid, 0xffff)? as u16;
    let status = number_at(line, Field::Status, 0x7fff)? as u16;
    let sqhd = word_in(line, Field::Sqhd)?;
    let phase = maybe_at(line, Field::Phase, 1)?;
    let dw0 = dword_in(line, Field::Dw0)?;
    Ok(completion_with(sq, cid, sqhd, phase, status, dw0))
}

/// The completion of a line.
#[tactic(auto, unfolding(crate::specs::Entries::completion_in))]
pub(crate) fn completion_in(line: &Value) -> Result<Completion, LineFault>
    ensures { result ≡ completion_in (view line.now) }
{
    let Some(value) = line.get(Field::Cqe.name()) else {
        return completion_by_fields(line);
    };
    match completion_bytes(value) {
        Some(bytes) => Ok(completion_of(&bytes)),
        None => Err(LineFault::Bad(Field::Cqe)),
    }
}
