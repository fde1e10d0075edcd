// The load that a command line asks for.
ghost use Rattle.std.specs.Prelude.{◌≡◌, ◌≤◌, ◌<◌, ◌+◌, ◌*◌, IfErr, IfOk, Err, Ok, Some, length, option_map};
ghost use Rattle.nvme_simulate.specs.Options.{around_point, cut_off_64, millionths_in, number_in, unit_behind, units_of};
ghost use Rattle.nvme_simulate.specs.declared.target.TheConstants.{MAX_LOAD};

use std::fmt;
use thiserror::Error;

/// The greatest load, in millionths.
pub const MAX_LOAD: u64 = 4_000_000;

// The millionths of a load of 1.
const MILLION: u64 = 1_000_000;

// The millionths of a tenth.
const TENTH: u64 = 100_000;

// How many digits may stand behind the point.
const DIGITS: usize = 6;

/// Why a load is refused, or why a model can't be loaded so.
#[derive(Clone, Copy, Debug, PartialEq, Eq, Error)]
pub enum LoadFault {
    /// The text is no number.
    #[error("expected digits, or digits, a point and one to six digits, as 0.7")]
    Digits,
    /// It is 0, or above `MAX_LOAD`.
    #[error("expected a load above 0 and at most 4")]
    Range,
    /// All hosts are closed or replay files, so that no rate of arrivals is there to scale.
    #[error("no queue is open: there is nothing to scale")]
    NoOpenQueue,
    /// No rate of their commands is a load, since they take no time, or so little that it can't be told.
    #[error("the commands of the open queues take no time: there is nothing to scale")]
    NoService,
    /// The gaps of the queue of this number, from 1, would be longer than a simulation file can say.
    #[error("queue {0}: the gaps between its commands would be too long")]
    LongGap(usize),
}

/// A part of what a device can do, which its open queues are to ask for.
#[derive(Clone, Copy, Debug, PartialEq, Eq)]
pub struct Load {
    /// In millionths.
    pub millionths: u64,
    ghost some: { 0 < millionths },
    ghost at_most: { millionths ≤ MAX_LOAD },
}

// What a number becomes with one digit more behind it, or the greatest one where that doesn't fit.
fn with_digit(number: u64, digit: u64) -> u64
    ensures { result ≡ cut_off_64 (number * 10 + digit) }
{
    number.saturating_mul(10).saturating_add(digit)
}

// The number that digits say, or the greatest one where it doesn't fit. `None` where there is no digit, or another byte.
fn number_in(digits: &[u8]) -> Option<u64>
    ensures { result ≡ number_in digits.now }
{
    if digits.is_empty() {
        return None;
    }
    let mut number = 0u64;
    for digit in digits {
        if !digit.is_ascii_digit() {
            return None;
        }
        number = with_digit(number, u64::from(*digit - b'0'));
    }
    Some(number)
}

// What the last of so many digits behind a point counts, in millionths. `None` of none, and of more than six.
fn unit_behind(count: usize) -> Option<u64>
    ensures { result ≡ unit_behind count }
{
    match count {
        1 => Some(100_000),
        2 => Some(10_000),
        3 => Some(1_000),
        4 => Some(100),
        5 => Some(10),
        6 => Some(1),
        _ => None,
    }
}

// So many of a unit as digits say, or the greatest number where that doesn't fit.
fn units_in(digits: &[u8], unit: u64) -> Option<u64>
    ensures { result ≡ units_of (number_in digits.now) (Some unit) }
{
    let number = number_in(digits)?;
    Some(number.saturating_mul(unit))
}

// The millionths that digits behind a point say.
fn part_in(digits: &[u8]) -> Option<u64>
    ensures { result ≡ units_of (number_in digits.now) (unit_behind (length digits.now)) }
{
    let number = number_in(digits)?;
    let unit = unit_behind(digits.len())?;
    Some(number.saturating_mul(unit))
}

// The two parts of a text around its first point.
fn around_point(text: &str) -> Option<(&str, &str)>
    ensures { option_map (λ parts. (parts.0.now, parts.1.now)) result ≡ around_point text.now }
{
    text.split_once('.')
}

// The millionths that a text says.
fn millionths_in(text: &str) -> Option<u64>
    ensures { result ≡ millionths_in text.now }
{
    let Some((before, behind)) = around_point(text) else {
        return units_in(text.as_bytes(), MILLION);
    };
    let whole = units_in(before.as_bytes(), MILLION)?;
    let part = part_in(behind.as_bytes())?;
    Some(whole.saturating_add(part))
}

impl fmt::Display for Load {
    fn fmt<W: fmt::Write>(&self, f: &mut fmt::Formatter<W>) -> fmt::Result {
        let (whole, mut part) = (self.millionths / MILLION, self.millionths % MILLION);
        write!(f, "{whole}")?;
        let mut before = ".";
        for _ in 0..DIGITS {
            if part == 0 {
                break;
            }
            let digit = part / TENTH;
            write!(f, "{before}{digit}")?;
            part = (part % TENTH).saturating_mul(10);
            before = "";
        }
        Ok(())
    }
}

impl Load {
    ghost use Rattle.nvme_simulate.specs.Options.{load_in};

    /// The load that a text says, as `0.7`: digits, or digits, a point and one to six digits. It is above 0 and at most 4.
    pub fn new(text: &str) -> Result<Load, LoadFault>
        ensures ok { IfOk result (λ load. load_in text.now ≡ Ok load.millionths) }
        ensures err { IfErr result (λ e. load_in text.now ≡ Err e) }
    {
        let Some(millionths) = millionths_in(text) else {
            return Err(LoadFault::Digits);
        };
        if millionths == 0 || millionths > MAX_LOAD {
            return Err(LoadFault::Range);
        }
        Ok(Load { millionths })
    }
}
