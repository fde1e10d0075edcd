// Where the values of the last key of a sweep stand on their axis.
use nvme_plot::{Axis, HUNDREDTHS, Written, span_of};
use nvme_points::Axis as Key;
use std::alloc::{AllocError, Global};

// How many digits behind the point a value on a numeric axis has at most: such a value stands at its millionths.
const DIGITS: usize = 6;

// The longest number before the point, so that its millionths have 64 bits.
const LONGEST: usize = 12;

// How far lines are moved apart, in hundredths of a pixel, at most.
const APART: u64 = 400;

/// Where a value of the last key stands.
#[derive(Clone, Copy, Debug, PartialEq, Eq)]
pub(crate) struct Position {
    /// Its place on the axis.
    pub(crate) x: u64,
    /// How many values stand before it.
    pub(crate) rank: u64,
}

/// Where the values of the last key stand: numbers as far apart as they differ, and others at equal distances.
#[derive(Drop)]
pub(crate) struct Positions {
    // That of each value, in the order of the values.
    all: Vec<Position>,
    pub(crate) axis: Axis,
}

// A value, and its index.
#[derive(Clone, Copy, PartialEq, Eq)]
struct Placed<'a> {
    value: Written<'a>,
    index: usize,
}

// The number that some digits say. `None` where there is none, a byte that is no digit, or more than so many.
fn digits_in(text: &str, most: usize) -> Option<u64> {
    if text.is_empty()
        || text.len() > most
        || !text.as_bytes().iter().all(|it| it.is_ascii_digit())
    {
        return None;
    }
    text.parse::<u64>().ok()
}

// The millionths of a number, written as `8` or `0.95`. `None` of another text.
fn millionths_in(text: &str) -> Option<u64> {
    let (whole, part) = text.split_once('.').unwrap_or((text, "0"));
    let mut millionths = digits_in(part, DIGITS)?;
    for _ in part.len()..DIGITS {
        millionths = millionths.saturating_mul(10);
    }
    let whole = digits_in(whole, LONGEST)?.saturating_mul(1_000_000);
    Some(whole.saturating_add(millionths))
}

// The values where all are numbers, from the least to the greatest.
fn numbers_of<'a>(
    alloc: Global,
    values: &[&'a str],
) -> Result<Option<Vec<Placed<'a>>>, AllocError> {
    let mut numbers = Vec::new(alloc);
    for (index, value) in values.iter().enumerate() {
        let Some(at) = millionths_in(value) else {
            return Ok(None);
        };
        let text: &'a str = value;
        let value = Written { at, text };
        numbers.push(Placed { value, index })?;
    }
    numbers.sort_by_key(|number| number.value.at)?;
    Ok(Some(numbers))
}

// A number with a sign, where the greatest stands for those above it.
fn signed(number: u64) -> i64 {
    i64::try_from(number).unwrap_or(i64::MAX)
}

impl Positions {
    // Of texts, at equal distances.
    fn of_names(
        alloc: Global,
        title: &str,
        names: &[&str],
        width: u64,
    ) -> Result<Positions, AllocError> {
        let mut all = Vec::new(alloc);
        for index in 0..names.len() as u64 {
            let x = index.saturating_mul(2).saturating_add(1);
            all.push(Position { x, rank: index })?;
        }
        let axis = Axis::of_names(alloc, title, names, width)?;
        Ok(Positions { all, axis })
    }

    // Of numbers, from the least to the greatest.
    fn of_numbers(
        alloc: Global,
        title: &str,
        numbers: &[Placed],
        width: u64,
    ) -> Result<Positions, AllocError> {
        let (mut all, mut values) = (Vec::new(alloc), Vec::new(alloc));
        for _ in numbers {
            all.push(Position { x: 0, rank: 0 })?;
        }
        for (rank, number) in numbers.iter().enumerate() {
            values.push(number.value)?;
            if let Some(position) = all.get_mut(number.index) {
                *position = Position {
                    x: number.value.at,
                    rank: rank as u64,
                };
            }
        }
        let axis = Axis::of_values(alloc, title, &values, width)?;
        Ok(Positions { all, axis })
    }

    /// Of the values of a key, on one of so many panels.
    pub(crate) fn of(
        alloc: Global,
        key: Option<&Key>,
        panels: u64,
    ) -> Result<Positions, AllocError> {
        let width = span_of(panels);
        let Some(key) = key else {
            return Positions::of_names(alloc, "", &["the file as it is"], width);
        };
        match numbers_of(alloc, &key.values)? {
            Some(numbers) => Positions::of_numbers(alloc, key.key, &numbers, width),
            None => Positions::of_names(alloc, key.key, &key.values, width),
        }
    }

    /// That of the value of an index.
    pub(crate) fn at(&self, index: u64) -> Option<Position> {
        self.all.get(index as usize).copied()
    }

    // The least distance of two neighbours on one of so many panels, in hundredths of a pixel.
    fn least_distance(&self, panels: u64) -> u64 {
        let length = span_of(panels).saturating_mul(HUNDREDTHS);
        let (mut least, mut before) = (length, None);
        for tick in &self.axis.ticks {
            let place = self.axis.range.place(tick.at, length);
            if let Some(before) = before {
                least = least.min(place.saturating_sub(before));
            }
            before = Some(place);
        }
        least
    }

    /// How far the line of an index is moved to the right, of so many, so that they stand beside one another around their
    /// values, and take half of the distance of two values at most.
    pub(crate) fn shift_of(&self, line: usize, lines: usize, panels: u64) -> i64 {
        let room = self.least_distance(panels) / (lines as u64).max(1) / 2;
        let apart = signed(room.min(APART));
        let before = signed(lines as u64).saturating_sub(1);
        let steps = signed(line as u64).saturating_mul(2).saturating_sub(before);
        steps.saturating_mul(apart) / 2
    }
}
