// What fields say.
ghost use Rattle.std.specs.Prelude.{◌≡◌, ◌<◌, ◌+◌, ◌*◌, ◌^◌, SomeIff};
ghost use Rattle.nvme_replay.specs.Texts.{number_in};

use crate::fault::LineFault;
use nvme_load::{MAX_BLOCKS, Operation};

/// The bytes of a block.
pub(crate) const BLOCK: u64 = 512;

/// A request, as a line of a file has it.
#[derive(Clone, Copy, Debug, PartialEq, Eq)]
pub(crate) struct Raw {
    /// In units of the form.
    pub(crate) time: u64,
    pub(crate) operation: Operation,
    pub(crate) block: u64,
    pub(crate) blocks: u32,
}

/// A request with its line, and what orders those of one time.
#[derive(Clone, Copy, Debug, PartialEq, Eq)]
pub(crate) struct Ordered {
    pub(crate) raw: Raw,
    pub(crate) order: u64,
    pub(crate) line: u64,
}

/// What a number becomes with one digit more behind it, where that is below 2^64.
pub(crate) fn with_digit(number: u64, digit: u64) -> Option<u64>
    ensures { SomeIff result (number * 10 + digit < 2 ^ 64) (number * 10 + digit) }
{
    let Some(tenfold) = number.checked_mul(10) else {
        return None;
    };
    tenfold.checked_add(digit)
}

/// The number that digits write, where there are any and it is below 2^64.
pub(crate) fn number_in(digits: &[u8]) -> Option<u64>
    ensures { result ≡ number_in digits.now }
{
    if digits.is_empty() {
        return None;
    }
    let mut number: u64 = 0;
    for digit in digits {
        if !digit.is_ascii_digit() {
            return None;
        }
        let Some(next) = with_digit(number, u64::from(*digit - b'0')) else {
            return None;
        };
        number = next;
    }
    Some(number)
}

/// The number of the field of a name. Blanks around its digits say nothing.
pub(crate) fn number_of(field: &[u8], name: &'static str) -> Result<u64, LineFault> {
    match number_in(field.trim_ascii()) {
        Some(number) => Ok(number),
        None => Err(LineFault::Number(name)),
    }
}

/// How many blocks a request has.
pub(crate) fn count_of(blocks: u64) -> Result<u32, LineFault> {
    match u32::try_from(blocks) {
        Ok(blocks) if blocks > 0 && blocks <= MAX_BLOCKS => Ok(blocks),
        _ => Err(LineFault::Blocks),
    }
}

/// The first block of bytes, and how many blocks they have.
pub(crate) fn blocks_of(offset: u64, size: u64) -> Result<(u64, u32), LineFault> {
    if offset % BLOCK != 0 || size % BLOCK != 0 {
        return Err(LineFault::PartOfBlock);
    }
    Ok((offset / BLOCK, count_of(size / BLOCK)?))
}
