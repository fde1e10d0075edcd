// The commands of a script by their names.
ghost use Rattle.std.specs.Prelude.{◌≡◌, Bool};
ghost use Rattle.toml.specs.View.{table_view};
ghost use Rattle.nvme_short_form.specs.Commands.{spread_over, spread_in, access_of, flush_of, raw_of, command_of, once};

use crate::error::{Fault, ShortError};
use crate::key::Key;
use crate::place::Place;
use crate::tables::{ACCESS_KEYS, FLUSH_KEYS, RAW_KEYS};
use crate::values::{number_at, number_or, only_keys, value_at, value_in};
use toml::Table;

/// An item of a script of today's workload file.
#[derive(Clone, Copy, Debug, PartialEq, Eq)]
pub struct Item {
    /// The opcode.
    pub op: u8,
    /// Byte 1 of the entry.
    pub flags: u8,
    /// The namespace identifier.
    pub nsid: u32,
    /// PRP entry 1, below 2^63.
    pub prp1: u64,
    /// Command Dword 10 in the low half, Command Dword 11 in the high half.
    pub dw10: u64,
    /// Command Dword 12.
    pub cdw12: u32,
    /// How many equal commands it stands for, 1 to 65,536.
    pub count: u32,
}

/// Items that differ in Command Dwords 10 and 11 alone: those of each are `stride` above those of the one before.
#[derive(Clone, Copy, Debug, PartialEq, Eq)]
pub struct Run {
    /// The first item.
    pub item: Item,
    /// How many items, 1 to 65,536.
    pub times: u32,
    /// By how much Command Dwords 10 and 11, as one number, go on.
    pub stride: u32,
}

// An item alone.
fn once(item: Item) -> Run
    ensures { result ≡ once item }
{
    Run {
        item,
        times: 1,
        stride: 0,
    }
}

// The commands of a Read or a Write of so many blocks.
fn spread_over(is_sequential: bool, blocks: u32, count: u32, item: Item) -> Run
    ensures { result ≡ spread_over is_sequential blocks count item }
{
    if is_sequential {
        Run {
            item,
            times: count,
            stride: blocks,
        }
    } else {
        once(Item { count, ..item })
    }
}

// Whether the blocks of a command come after those of the command before.
pub(crate) fn spread_in(place: Place, table: &Table) -> Result<bool, ShortError>
    ensures { result ≡ spread_in place (table_view table.now) }
{
    let Some(value) = value_in(Key::Spread, table) else {
        return Ok(false);
    };
    match value.as_str() {
        Some("sequential") => Ok(true),
        Some("same") => Ok(false),
        _ => Err(ShortError::At(place, Fault::Bad(Key::Spread))),
    }
}

// A Read or a Write.
#[tactic(auto, unfolding(crate::specs::Commands::access_of))]
fn access_of(place: Place, opcode: u8, table: &Table) -> Result<Run, ShortError>
    ensures { result ≡ access_of place opcode (table_view table.now) }
{
    only_keys(place, &ACCESS_KEYS, table)?;
    let nsid = number_or(place, Key::Nsid, 1, 0, 0xffff_ffff, table)?;
    let slba = number_or(place, Key::Slba, 0, 0, 0x7fff_ffff_ffff_ffff, table)?;
    let blocks = number_or(place, Key::Blocks, 1, 1, 65_536, table)?;
    let count = number_or(place, Key::Count, 1, 1, 65_536, table)?;
    let is_sequential = spread_in(place, table)?;
    let item = Item {
        op: opcode,
        flags: 0,
        nsid: nsid as u32,
        prp1: 0,
        dw10: slba,
        cdw12: (blocks - 1) as u32,
        count: 1,
    };
    Ok(spread_over(is_sequential, blocks as u32, count as u32, item))
}

// A Flush.
#[tactic(auto, unfolding(crate::specs::Commands::flush_of))]
fn flush_of(place: Place, table: &Table) -> Result<Run, ShortError>
    ensures { result ≡ flush_of place (table_view table.now) }
{
    only_keys(place, &FLUSH_KEYS, table)?;
    let nsid = number_or(place, Key::Nsid, 1, 0, 0xffff_ffff, table)?;
    let count = number_or(place, Key::Count, 1, 1, 65_536, table)?;
    Ok(once(Item {
        op: 0,
        flags: 0,
        nsid: nsid as u32,
        prp1: 0,
        dw10: 0,
        cdw12: 0,
        count: count as u32,
    }))
}

// An item of today's workload file. Its opcode is read before its keys are looked at.
#[tactic(auto, unfolding(crate::specs::Commands::raw_of))]
pub(crate) fn raw_of(place: Place, table: &Table) -> Result<Item, ShortError>
    ensures { result ≡ raw_of place (table_view table.now) }
{
    let op = number_at(place, Key::Op, 0, 0xff, table)?;
    only_keys(place, &RAW_KEYS, table)?;
    let flags = number_or(place, Key::Flags, 0, 0, 0xff, table)?;
    let nsid = number_or(place, Key::Nsid, 0, 0, 0xffff_ffff, table)?;
    let prp1 = number_or(place, Key::Prp1, 0, 0, 0x7fff_ffff_ffff_ffff, table)?;
    let cdw10 = number_or(place, Key::Cdw10, 0, 0, 0xffff_ffff, table)?;
    let cdw11 = number_or(place, Key::Cdw11, 0, 0, 0xffff_ffff, table)?;
    let cdw12 = number_or(place, Key::Cdw12, 0, 0, 0xffff_ffff, table)?;
    let count = number_or(place, Key::Count, 1, 1, 65_536, table)?;
    Ok(Item {
        op: op as u8,
        flags: flags as u8,
        nsid: nsid as u32,
        prp1,
        dw10: cdw10 + 0x1_0000_0000 * cdw11,
        cdw12: cdw12 as u32,
        count: count as u32,
    })
}

/// The commands of an item of a script that repeats none: those that `op` names, or the item of an opcode. Or its first
/// fault, at the place.
#[tactic(auto, unfolding(crate::specs::Commands::command_of))]
pub fn command_of(place: Place, table: &Table) -> Result<Run, ShortError>
    ensures { result ≡ command_of place (table_view table.now) }
{
    match value_at(place, Key::Op, table)?.as_str() {
        Some("read") => access_of(place, 2, table),
        Some("write") => access_of(place, 1, table),
        Some("flush") => flush_of(place, table),
        Some(_) => Err(ShortError::At(place, Fault::Bad(Key::Op))),
        None => Ok(once(raw_of(place, table)?)),
    }
}
