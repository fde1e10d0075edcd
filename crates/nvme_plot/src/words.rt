// Numbers in words.
use std::fmt;

/// A number with commas between its groups of three digits.
#[derive(Clone, Copy, Debug, PartialEq, Eq)]
pub struct Grouped(pub u64);

impl fmt::Display for Grouped {
    fn fmt<W: fmt::Write>(&self, f: &mut fmt::Formatter<W>) -> fmt::Result {
        let groups = self.0.checked_ilog10().unwrap_or(0) / 3;
        let first = self.0 / 1_000u64.saturating_pow(groups).max(1);
        write!(f, "{first}")?;
        for below in (0..groups).rev() {
            let group = self.0 / 1_000u64.saturating_pow(below).max(1) % 1_000;
            write!(f, ",{group:03}")?;
        }
        Ok(())
    }
}

/// A time in picoseconds, as microseconds with three digits behind the point, rounded.
#[derive(Clone, Copy, Debug, PartialEq, Eq)]
pub struct Micros(pub u64);

impl fmt::Display for Micros {
    fn fmt<W: fmt::Write>(&self, f: &mut fmt::Formatter<W>) -> fmt::Result {
        let nanos = self.0 / 1_000 + (self.0 % 1_000 + 500) / 1_000;
        let (whole, part) = (Grouped(nanos / 1_000), nanos % 1_000);
        write!(f, "{whole}.{part:03}")
    }
}

// The units of time in picoseconds, from the shortest to the longest.
const UNITS: [(u64, &str); 5] = [
    (1, "ps"),
    (1_000, "ns"),
    (1_000_000, "us"),
    (1_000_000_000, "ms"),
    (1_000_000_000_000, "s"),
];

/// The longest unit that isn't longer than a time in picoseconds, and its name.
pub fn unit_of(time: u64) -> (u64, &'static str) {
    let mut found = (1, "ps");
    for unit in UNITS {
        if unit.0 <= time {
            found = unit;
        }
    }
    found
}

/// A round time in picoseconds, in its unit.
#[derive(Clone, Copy, Debug, PartialEq, Eq)]
pub struct Time(pub u64);

impl fmt::Display for Time {
    fn fmt<W: fmt::Write>(&self, f: &mut fmt::Formatter<W>) -> fmt::Result {
        let (unit, name) = unit_of(self.0);
        let number = Grouped(self.0 / unit.max(1));
        write!(f, "{number} {name}")
    }
}
