// Measures of a picture, and places in it.
use std::fmt;

/// Hundredths of a pixel.
#[derive(Clone, Copy, Debug, PartialEq, Eq)]
pub struct Pixels(pub u64);

/// How many hundredths a pixel has.
pub const HUNDREDTHS: u64 = 100;

impl Pixels {
    /// So many hundredths further to the right, and to the left below 0.
    pub fn moved(self, shift: i64) -> Pixels {
        Pixels(self.0.saturating_add_signed(shift))
    }

    /// So many hundredths further down.
    pub fn below(self, by: u64) -> Pixels {
        Pixels(self.0.saturating_add(by))
    }
}

impl fmt::Display for Pixels {
    fn fmt<W: fmt::Write>(&self, f: &mut fmt::Formatter<W>) -> fmt::Result {
        let (whole, part) = (self.0 / HUNDREDTHS, self.0 % HUNDREDTHS);
        write!(f, "{whole}.{part:02}")
    }
}

/// The left edge of the first panel, in pixels.
pub const LEFT: u64 = 80;

/// From the left edge of the first panel to the right edge of the last one, in pixels.
pub const SPAN: u64 = 800;

/// From the right edge of the last panel to that of the picture, in pixels, at least.
pub const MARGIN: u64 = 50;

/// The height of a panel, in pixels.
pub const HEIGHT: u64 = 400;

/// From a panel to the next one, where the axis of that one stands, in pixels.
pub const GAP: u64 = 90;

/// How wide a character is, in pixels, at most in the mean.
pub const CHARACTER: u64 = 7;

/// How wide each of so many panels is, in pixels.
pub fn span_of(panels: u64) -> u64 {
    let gaps = panels.saturating_sub(1).saturating_mul(GAP);
    SPAN.saturating_sub(gaps) / panels.max(1)
}

/// Where a panel lies, in pixels.
#[derive(Clone, Copy, Debug, PartialEq, Eq)]
pub struct Frame {
    pub left: u64,
    pub top: u64,
    pub width: u64,
}

impl Frame {
    /// The frame of a panel of so many, from 0 on, below this height.
    pub fn of(panel: u64, panels: u64, top: u64) -> Frame {
        let width = span_of(panels);
        let before = panel.saturating_mul(width.saturating_add(GAP));
        Frame {
            left: LEFT.saturating_add(before),
            top,
            width,
        }
    }

    /// Its right edge.
    pub fn right(&self) -> u64 {
        self.left.saturating_add(self.width)
    }

    /// Its lower edge.
    pub fn bottom(&self) -> u64 {
        self.top.saturating_add(HEIGHT)
    }
}

/// Tenths of a pixel.
#[derive(Clone, Copy, Debug, PartialEq, Eq)]
pub struct Tenths(pub u64);

impl fmt::Display for Tenths {
    fn fmt<W: fmt::Write>(&self, f: &mut fmt::Formatter<W>) -> fmt::Result {
        let (whole, part) = (self.0 / 10, self.0 % 10);
        write!(f, "{whole}.{part}")
    }
}
