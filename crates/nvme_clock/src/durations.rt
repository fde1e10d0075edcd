// Reads a duration as people write it.
ghost use Rattle.std.specs.Prelude.{◌≡◌, ◌≤◌, ◌<◌, ◌+◌, ◌*◌, ◌^◌, IfSome, SomeIff, length, position};
ghost use Rattle.nvme_clock.specs.Durations.{duration_in, is_finer, is_of_unit, is_point, number_in, number_of, part_from, unit_in, unit_place, units};

use thiserror::Error;

/// Why a text is no duration.
#[derive(Clone, Copy, Debug, PartialEq, Eq, Error)]
pub enum DurationFault {
    /// No unit stands behind the number.
    #[error("expected a number and a unit of ps, ns, us, ms or s, as in 80us or 1.5ms")]
    Unit,
    /// There is no digit where one has to stand.
    #[error("expected digits, or digits, a point and digits")]
    Digits,
    /// The duration is no whole number of picoseconds.
    #[error("expected no part of a picosecond")]
    Part,
    /// The duration has 2^64 picoseconds or more.
    #[error("expected less than 2^64 picoseconds, which are 213 days")]
    TooLong,
}

// The picoseconds of a unit.
fn unit(text: &[u8]) -> Option<u64>
    ensures { result ≡ unit_in text.now }
{
    match text {
        b"ps" => Some(1),
        b"ns" => Some(1_000),
        b"us" => Some(1_000_000),
        b"ms" => Some(1_000_000_000),
        b"s" => Some(1_000_000_000_000),
        _ => None,
    }
}

// So many times a number, and more, where that is below 2^64.
fn fitting(count: u64, each: u64, more: u64) -> Option<u64>
    ensures { SomeIff result (count * each + more < 2 ^ 64) (count * each + more) }
{
    let Some(product) = count.checked_mul(each) else {
        return None;
    };
    product.checked_add(more)
}

// The number that digits write.
fn number(digits: &[u8]) -> Result<u64, DurationFault>
    ensures { result ≡ number_in digits.now }
{
    if digits.is_empty() {
        return Err(DurationFault::Digits);
    }
    let mut number: u64 = 0;
    for digit in digits {
        if !digit.is_ascii_digit() {
            return Err(DurationFault::Digits);
        }
        let Some(next) = fitting(number, 10, u64::from(*digit - b'0')) else {
            return Err(DurationFault::TooLong);
        };
        number = next;
    }
    Ok(number)
}

// Whether a digit counts a part of a picosecond.
fn is_finer(digit: u8, place: u64) -> bool
    ensures { result ≡ is_finer digit place }
{
    digit != b'0' && place == 0
}

// A duration with what the digits behind the point add to it, where the digit before them counts `unit`.
fn with_part(whole: u64, unit: u64, digits: &[u8]) -> Result<u64, DurationFault>
    ensures { result ≡ part_from unit whole digits.now }
{
    let mut duration = whole;
    let mut place = unit;
    for digit in digits {
        if !digit.is_ascii_digit() {
            return Err(DurationFault::Digits);
        }
        place /= 10;
        if is_finer(*digit, place) {
            return Err(DurationFault::Part);
        }
        let Some(next) = fitting(u64::from(*digit - b'0'), place, duration) else {
            return Err(DurationFault::TooLong);
        };
        duration = next;
    }
    Ok(duration)
}

// The duration of a whole number of units.
fn units(digits: &[u8], unit: u64) -> Result<u64, DurationFault>
    ensures { result ≡ units unit (number_in digits.now) }
{
    let number = number(digits)?;
    match number.checked_mul(unit) {
        Some(duration) => Ok(duration),
        None => Err(DurationFault::TooLong),
    }
}

// Where the point stands.
fn point_place(number: &[u8]) -> Option<usize>
    ensures value { result ≡ position is_point number.now }
    ensures within { IfSome result (λ i. i < length number.now) }
{
    number.iter().position(|c| *c == b'.')
}

// The duration of a number, with a point or without, where 1 counts `unit`.
fn number_of(number: &[u8], unit: u64) -> Result<u64, DurationFault>
    ensures { result ≡ number_of unit number.now }
{
    let Some(point) = point_place(number) else {
        return units(number, unit);
    };
    let whole = units(&number[..point], unit)?;
    let digits = &number[point + 1..];
    if digits.is_empty() {
        return Err(DurationFault::Digits);
    }
    with_part(whole, unit, digits)
}

// Where the first byte stands that is neither a digit nor a point.
fn letter_place(text: &[u8]) -> Option<usize>
    ensures value { result ≡ position is_of_unit text.now }
    ensures within { IfSome result (λ i. i < length text.now) }
{
    text.iter()
        .position(|c| !(c.is_ascii_digit() || *c == b'.'))
}

// How many bytes stand before the unit.
fn unit_place(text: &[u8]) -> usize
    ensures value { result ≡ unit_place text.now }
    ensures within { result ≤ length text.now }
{
    match letter_place(text) {
        Some(place) => place,
        None => text.len(),
    }
}

/// The picoseconds of a duration as people write it, such as `80us` or `1.5ms`: digits, or digits, a point and digits,
/// and right behind them `ps`, `ns`, `us`, `ms` or `s`. It is below 2^64, and a whole number. Of several faults the unit's
/// is told first, and then the first from the left.
pub fn duration_in(text: &str) -> Result<u64, DurationFault>
    ensures { result ≡ duration_in text.now }
{
    let text = text.as_bytes();
    let place = unit_place(text);
    match unit(&text[place..]) {
        Some(unit) => number_of(&text[..place], unit),
        None => Err(DurationFault::Unit),
    }
}
