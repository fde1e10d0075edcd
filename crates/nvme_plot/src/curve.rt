// Curves.
use crate::colours::stroke_of;
use crate::pixels::Pixels;
use crate::place::Place;
use crate::svg::{Escaped, put_tip};
use std::io::{self, Write};

// From the middle of an error bar to each side, in hundredths of a pixel.
const SIDE: u64 = 400;

/// A point of a curve.
#[derive(Clone, Copy, Debug, PartialEq, Eq)]
pub struct Point {
    pub x: u64,
    pub y: u64,
    /// Whether a line leads to it from the point before.
    pub joined: bool,
}

/// An error bar, from its lower end to its upper one.
#[derive(Clone, Copy, Debug, PartialEq, Eq)]
pub struct Bar {
    pub low: u64,
    pub high: u64,
}

/// A point that is marked, and tells of itself where a pointer rests on it.
#[derive(Debug, Drop)]
pub struct Mark {
    pub x: u64,
    pub y: u64,
    pub bar: Option<Bar>,
    pub tip: String,
}

/// A curve.
#[derive(Debug, Drop)]
pub struct Curve {
    /// Its colour and dashes, below `LINES`.
    pub style: usize,
    /// How far it is moved to the right, in hundredths of a pixel, so that equal curves are told apart.
    pub shift: i64,
    /// What it tells of itself where a pointer rests on it.
    pub tip: String,
    pub points: Vec<Point>,
    pub marks: Vec<Mark>,
}

// Writes the line of a curve.
fn put_line<W: Write>(curve: &Curve, place: &Place, writer: &mut W) -> io::Result<()> {
    let stroke = stroke_of(curve.style);
    write!(
        writer,
        "<path fill=\"none\" {stroke} stroke-linejoin=\"round\" d=\""
    )?;
    for point in &curve.points {
        let step = if point.joined { "L" } else { "M" };
        let (x, y) = (place.x(point.x).moved(curve.shift), place.y(point.y));
        write!(writer, "{step}{x} {y}")?;
    }
    let tip = Escaped(curve.tip.as_str());
    writeln!(writer, "\"><title>{tip}</title></path>")
}

// Writes an error bar at x.
fn put_bar<W: Write>(
    bar: &Bar,
    x: Pixels,
    colour: &str,
    place: &Place,
    writer: &mut W,
) -> io::Result<()> {
    let (low, high) = (place.y(bar.low), place.y(bar.high));
    let left = Pixels(x.0.saturating_sub(SIDE));
    let wide = Pixels(SIDE.saturating_mul(2));
    writeln!(
        writer,
        "<path fill=\"none\" stroke=\"{colour}\" d=\"M{x} {low}V{high}M{left} {low}h{wide}M{left} {high}h{wide}\"/>"
    )
}

/// Writes a curve with its marks.
pub fn put_curve<W: Write>(curve: &Curve, place: &Place, writer: &mut W) -> io::Result<()> {
    put_line(curve, place, writer)?;
    let colour = stroke_of(curve.style).colour;
    for mark in &curve.marks {
        let (x, y) = (place.x(mark.x).moved(curve.shift), place.y(mark.y));
        if let Some(bar) = &mark.bar {
            put_bar(bar, x, colour, place, writer)?;
        }
        let look = format_args!("r=\"3.5\" fill=\"{colour}\"");
        put_tip(x, y, look, Escaped(mark.tip.as_str()), writer)?;
    }
    Ok(())
}
