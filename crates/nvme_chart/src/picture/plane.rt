// The plane of the curves: picks from left to right, shares from the bottom up.
use super::Picture;
use super::curve::Curve;
use super::frame::numbers_in;
use super::heights::{Heights, tenths_down};
use nvme_plot::{AXIS, GRID, Grouped, Stand, Tenths, put_path, put_text_line, stride_of};
use nvme_stats::Window;
use std::io::{self, Write};

/// The left edge of the plane, in pixels.
pub const LEFT: u64 = 80;

/// Its upper edge.
pub const TOP: u64 = 84;

/// Its width.
pub const WIDTH: u64 = 880;

/// Its height.
pub const HEIGHT: u64 = 360;

/// Its lower edge.
pub const BOTTOM: u64 = TOP + HEIGHT;

/// What a plane shows.
#[derive(Drop)]
pub struct Plane {
    // The numbers of the first and the last pick.
    first: u64,
    last: u64,
    // The share at the top, in hundredths of a percent.
    highest: u64,
    heights: Heights,
}

// The highest share of the curves in a window, in hundredths of a percent.
fn highest_in(window: &Window, curves: &[Curve]) -> u64 {
    let mut highest = 0u64;
    for curve in curves {
        highest = highest.max(curve.share(window));
    }
    highest
}

// The share at the top, in hundredths of a percent: 100 %, or for thin curves the least of a few that none exceeds.
fn highest_of(picture: &Picture, curves: &[Curve]) -> u64 {
    if curves.iter().all(|curve| !curve.is_thin) {
        return 10_000;
    }
    let mut highest = 0u64;
    for window in &picture.series.all {
        highest = highest.max(highest_in(window, curves));
    }
    match highest {
        0..=500 => 500,
        501..=1_000 => 1_000,
        1_001..=2_000 => 2_000,
        2_001..=5_000 => 5_000,
        _ => 10_000,
    }
}

impl Plane {
    /// The plane of these curves of a picture.
    pub fn of(picture: &Picture, curves: &[Curve]) -> Plane {
        let (first, last) = picture.ends();
        let highest = highest_of(picture, curves);
        Plane {
            first,
            last,
            highest,
            heights: Heights::of(picture, curves, highest),
        }
    }

    /// Where the pick of a number is, in pixels: its left edge.
    pub fn x_of(&self, number: u64) -> u64 {
        let picks = self.last.saturating_sub(self.first).saturating_add(1);
        let before = number.saturating_sub(self.first).min(picks);
        LEFT.saturating_add(before.saturating_mul(WIDTH) / picks.max(1))
    }

    // Where the middle of picks is, in pixels.
    fn middle_of(&self, first: u64, last: u64) -> u64 {
        let right = self.x_of(last.saturating_add(1));
        self.x_of(first).saturating_add(right) / 2
    }

    /// How far down a share in hundredths of a percent is, in tenths of a pixel.
    pub fn down(&self, share: u64) -> u64 {
        tenths_down(share, self.highest)
    }

    /// Where the nth curve is in a window, of which this is the number from 0 on: how far to the right in pixels, and how
    /// far down.
    pub fn point(&self, at: usize, window: &Window, nth: usize) -> (u64, Tenths) {
        let x = self.middle_of(window.first, window.last);
        (x, Tenths(self.heights.down(at, nth)))
    }

    /// Writes the axis of the shares.
    pub fn put_shares<W: Write>(&self, writer: &mut W) -> io::Result<()> {
        let (right, text) = (LEFT + WIDTH, LEFT - 8);
        let stride = stride_of(self.highest / 100, 5);
        for step in 0..6u64 {
            let percent = stride.saturating_mul(step);
            let y = self.down(percent.saturating_mul(100)) / 10;
            let low = y.saturating_add(4);
            if percent.saturating_mul(100) <= self.highest {
                put_path(format_args!("M{LEFT} {y}H{right}"), GRID, writer)?;
                let share = format_args!("{percent} %");
                put_text_line(text, low, Stand::Ends, share, writer)?;
            }
        }
        let middle = TOP + HEIGHT / 2;
        put_text_line(20, middle, Stand::Upward, "share of commands", writer)
    }

    /// Writes the axis of the picks.
    pub fn put_picks<W: Write>(&self, writer: &mut W) -> io::Result<()> {
        let most = numbers_in(WIDTH, self.last).min(10);
        let stride = stride_of(self.last.saturating_sub(self.first), most);
        let mut number = (self.first / stride.max(1)).saturating_mul(stride);
        let (tick, text, low) = (BOTTOM + 5, BOTTOM + 20, BOTTOM + 40);
        for _ in 0..13 {
            if self.first <= number && number <= self.last {
                let x = self.middle_of(number, number);
                put_path(format_args!("M{x} {BOTTOM}V{tick}"), AXIS, writer)?;
                put_text_line(x, text, Stand::Centred, Grouped(number), writer)?;
            }
            number = number.saturating_add(stride);
        }
        let middle = LEFT + WIDTH / 2;
        put_text_line(middle, low, Stand::Centred, "picks", writer)
    }
}
