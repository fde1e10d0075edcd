// Axes and their ticks.
use crate::pixels::{CHARACTER, HUNDREDTHS};
use crate::rounds::{round_above, round_below, stride_of};
use crate::scale::Range;
use crate::words::{Grouped, Time, unit_of};
use std::alloc::{AllocError, Global};

/// All of what shares are of: a share is told in so many parts.
pub const WHOLE: u64 = 1_000_000_000_000_000_000;

// How many decades a number of 64 bits has.
const DECADES: u32 = 20;

// From so wide a range on only each third power of ten has a label, and below so wide a one 2 and 5 times a power too.
const WIDE: u64 = 1_000_000_000_000;

const NARROW: u64 = 1_000;

// The most ticks of a linear axis behind the one at 0.
const STEPS: u64 = 5;

// Where the greatest of given values is so many times the least, and more, their axis is logarithmic.
const FAR: u64 = 10;

// The part of a linear range that lies before its least value, and behind the greatest one.
const ROOM: u64 = 16;

/// A mark of an axis.
#[derive(Debug, Drop)]
pub struct Tick {
    pub at: u64,
    /// What stands at it. A tick without a label is short.
    pub label: Option<String>,
}

/// A value, and how it is written.
#[derive(Clone, Copy, Debug, PartialEq, Eq)]
pub struct Written<'a> {
    pub at: u64,
    pub text: &'a str,
}

/// An axis.
#[derive(Debug, Drop)]
pub struct Axis {
    /// What its values are.
    pub title: String,
    pub range: Range,
    pub ticks: Vec<Tick>,
}

// The value at a place of a logarithmic scale: 1 to 9, then 10 to 90 by tens, and so on. None beyond 64 bits.
fn decimal_at(place: u32) -> Option<u64> {
    let digit = u64::from(place % 9).saturating_add(1);
    10u64.checked_pow(place / 9)?.checked_mul(digit)
}

// Whether the value at a place has a label, where the ends of the range differ by this factor.
fn has_label(place: u32, factor: u64) -> bool {
    match place % 9 {
        0 => factor < WIDE || place / 9 % 3 == 0,
        1 | 4 => factor < NARROW,
        _ => false,
    }
}

// The ticks of times on a logarithmic scale.
fn time_ticks(alloc: Global, low: u64, high: u64) -> Result<Vec<Tick>, AllocError> {
    let factor = high / low.max(1);
    let mut ticks = Vec::new(alloc);
    for place in 0..DECADES.saturating_mul(9) {
        let Some(at) = decimal_at(place) else {
            break;
        };
        if low <= at && at <= high {
            let label = if has_label(place, factor) {
                let time = Time(at);
                Some(format!(in alloc; "{time}")?)
            } else {
                None
            };
            ticks.push(Tick { at, label })?;
        }
    }
    Ok(ticks)
}

// The share of a negative power of ten as a percentage.
fn percentage(alloc: Global, power: u32) -> Result<String, AllocError> {
    if power <= 2 {
        let percent = 100 / 10u32.saturating_pow(power).max(1);
        return format!(in alloc; "{percent} %");
    }
    let mut text = String::from_str(alloc, "0.")?;
    for _ in 3..power {
        text.push_str("0")?;
    }
    text.push_str("1 %")?;
    Ok(text)
}

// A range with some room before the least of its values and behind the greatest one.
fn range_around(least: u64, greatest: u64) -> Range {
    if least > 0 && greatest / least >= FAR {
        let (low, high) = (least / 8, greatest / 8);
        return Range::logarithmic(least.saturating_sub(low), greatest.saturating_add(high));
    }
    let room = (greatest.saturating_sub(least) / ROOM).max(1);
    Range::linear(least.saturating_sub(room), greatest.saturating_add(room))
}

impl Axis {
    // An axis of this title.
    fn new(alloc: Global, title: &str, range: Range, ticks: Vec<Tick>) -> Result<Axis, AllocError> {
        Ok(Axis {
            title: String::from_str(alloc, title)?,
            range,
            ticks,
        })
    }

    /// Of times in picoseconds on a logarithmic scale, between the round times around the shortest and the longest. The labels
    /// have units.
    pub fn of_times(
        alloc: Global,
        title: &str,
        shortest: u64,
        longest: u64,
    ) -> Result<Axis, AllocError> {
        let low = round_below(shortest);
        let high = round_above(longest.max(low.saturating_add(1)));
        let ticks = time_ticks(alloc, low, high)?;
        Axis::new(alloc, title, Range::logarithmic(low, high), ticks)
    }

    /// Of times in picoseconds on a linear scale from 0 to the multiple of a round time that isn't shorter than the longest. The
    /// title has the unit of the labels.
    pub fn from_zero(alloc: Global, title: &str, longest: u64) -> Result<Axis, AllocError> {
        let stride = stride_of(longest, STEPS).max(1);
        let (unit, name) = unit_of(stride);
        let rest = if longest % stride > 0 { 1u64 } else { 0 };
        let steps = (longest / stride).saturating_add(rest).max(1);
        let mut ticks = Vec::new(alloc);
        for step in 0..=steps {
            let at = stride.saturating_mul(step);
            let number = Grouped(at / unit.max(1));
            let label = Some(format!(in alloc; "{number}")?);
            ticks.push(Tick { at, label })?;
        }
        let title = format!(in alloc; "{title} in {name}")?;
        let range = Range::linear(0, stride.saturating_mul(steps));
        Axis::new(alloc, title.as_str(), range, ticks)
    }

    /// Of shares on a logarithmic scale, in parts of `WHOLE`, down to one of so many, or to a tenth.
    pub fn of_shares(alloc: Global, title: &str, count: u64) -> Result<Axis, AllocError> {
        let low = WHOLE / count.max(10);
        let mut ticks = Vec::new(alloc);
        for power in 0..DECADES {
            let at = WHOLE / 10u64.saturating_pow(power).max(1);
            if at >= low.max(1) {
                let label = Some(percentage(alloc, power)?);
                ticks.push(Tick { at, label })?;
            }
        }
        Axis::new(alloc, title, Range::logarithmic(low, WHOLE), ticks)
    }

    /// Of names at equal distances, on an axis of so many pixels. The name of index `n` stands at `2 n + 1`. Where they are
    /// too wide for it, only each second, third or further one has its label.
    pub fn of_names(
        alloc: Global,
        title: &str,
        names: &[&str],
        width: u64,
    ) -> Result<Axis, AllocError> {
        let count = names.len() as u64;
        let longest = names.iter().map(|name| name.len()).max().unwrap_or(0) as u64;
        let wide = longest.saturating_add(1).saturating_mul(CHARACTER);
        let needed = wide.saturating_mul(count) / width.max(1);
        let stride = needed.saturating_add(1).max(1);
        let mut ticks = Vec::new(alloc);
        let mut at = 1u64;
        for name in names {
            let label = if at / 2 % stride == 0 {
                Some(String::from_str(alloc, name)?)
            } else {
                None
            };
            ticks.push(Tick { at, label })?;
            at = at.saturating_add(2);
        }
        let range = Range::linear(0, count.max(1).saturating_mul(2));
        Axis::new(alloc, title, range, ticks)
    }

    /// Of values that are given from the least to the greatest, on an axis of so many pixels, each where it lies between these
    /// two: by logarithms where the greatest is ten times the least or more, and else linearly. A label that would touch the one
    /// before is left out.
    pub fn of_values(
        alloc: Global,
        title: &str,
        values: &[Written],
        width: u64,
    ) -> Result<Axis, AllocError> {
        let least = values.first().map_or(0, |value| value.at);
        let range = range_around(least, values.last().map_or(0, |value| value.at));
        let length = width.saturating_mul(HUNDREDTHS);
        let mut ticks = Vec::new(alloc);
        let mut free = 0u64;
        for value in values {
            let wide = (value.text.len() as u64).saturating_add(1);
            let half = wide.saturating_mul(CHARACTER).saturating_mul(HUNDREDTHS) / 2;
            let middle = range.place(value.at, length).saturating_add(length);
            let label = if middle.saturating_sub(half) >= free {
                free = middle.saturating_add(half);
                Some(String::from_str(alloc, value.text)?)
            } else {
                None
            };
            let at = value.at;
            ticks.push(Tick { at, label })?;
        }
        Axis::new(alloc, title, range, ticks)
    }
}
