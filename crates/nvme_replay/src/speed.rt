// How many times as fast as in its file a list comes.
ghost use Rattle.std.specs.Prelude.{◌≡◌, ◌<◌, option_map};
ghost use Rattle.nvme_replay.specs.Speeds.{fraction_from, fraction_in};
ghost use Rattle.nvme_replay.specs.Texts.{around_point};

use crate::fields::{number_in, with_digit};

// So many parts of a whole, which has so many.
#[derive(Clone, Copy)]
struct Fraction {
    parts: u64,
    whole: u64,
}

/// How many times as fast as in its file a list comes: a fraction above 0.
#[derive(Clone, Copy, Debug, PartialEq, Eq)]
pub struct Speed {
    // So many parts of a whole, above 0, which has so many: a power of ten.
    parts: u64,
    whole: u64,
    ghost some: { 0 < parts },
}

// The two parts of a text around its first point.
fn around_point(text: &str) -> Option<(&str, &str)>
    ensures { option_map (λ parts. (parts.0.now, parts.1.now)) result ≡ around_point text.now }
{
    text.split_once('.')
}

// The fraction that digits behind a point make of a number before it.
fn fraction_behind(parts: u64, digits: &[u8]) -> Option<Fraction>
    ensures { result ≡ fraction_from parts 1 digits.now }
{
    let (mut parts, mut whole) = (parts, 1u64);
    for digit in digits {
        if !digit.is_ascii_digit() {
            return None;
        }
        let Some(more) = with_digit(parts, u64::from(*digit - b'0')) else {
            return None;
        };
        let Some(tenfold) = whole.checked_mul(10) else {
            return None;
        };
        parts = more;
        whole = tenfold;
    }
    Some(Fraction { parts, whole })
}

// The fraction that a text says: digits, or digits, a point and digits.
fn fraction_in(text: &str) -> Option<Fraction>
    ensures { result ≡ fraction_in text.now }
{
    let Some((before, behind)) = around_point(text) else {
        let parts = number_in(text.as_bytes())?;
        return Some(Fraction { parts, whole: 1 });
    };
    if behind.is_empty() {
        return None;
    }
    let parts = number_in(before.as_bytes())?;
    fraction_behind(parts, behind.as_bytes())
}

impl Speed {
    ghost use Rattle.nvme_replay.specs.Fractions.{fraction_of};
    ghost use Rattle.nvme_replay.specs.Speeds.{at_speed, speed_in, whole_speed};

    /// As fast as in the file.
    pub const SAME: Speed = Speed { parts: 1, whole: 1 };

    /// A whole number of times as fast. None where it is 0.
    pub fn whole(times: u64) -> Option<Speed>
        ensures { option_map fraction_of result ≡ whole_speed times }
    {
        match times {
            0 => None,
            _ => Some(Speed {
                parts: times,
                whole: 1,
            }),
        }
    }

    /// What a text says, as `2` or `0.5`: digits, or digits, a point and digits. None where it says something else, or 0, or
    /// where its digits write 2^64 or more.
    pub fn parse(text: &str) -> Option<Speed>
        ensures { option_map fraction_of result ≡ speed_in text.now }
    {
        let Fraction { parts, whole } = fraction_in(text)?;
        if parts == 0 {
            None
        } else {
            Some(Speed { parts, whole })
        }
    }

    /// A time at this speed, rounded down. None where it is 2^64 or later.
    pub fn scaled(self, time: u64) -> Option<u64>
        ensures { result ≡ at_speed (fraction_of self) time }
    {
        let scaled = u128::from(time) * u128::from(self.whole) / u128::from(self.parts);
        u64::try_from(scaled).ok()
    }
}
