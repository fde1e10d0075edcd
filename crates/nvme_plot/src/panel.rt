// Panels: curves between two axes.
use crate::axis::{Axis, Tick};
use crate::curve::{Curve, put_curve};
use crate::pixels::{Frame, HEIGHT};
use crate::place::Place;
use crate::svg::{AXIS, Escaped, GRID, Stand, put_path, put_path_line, put_text_line};
use std::io::{self, Write};

// How far below the middle of a label its letters stand, in hundredths of a pixel.
const LOWER: u64 = 400;

/// A value of the vertical axis that a dotted line marks.
#[derive(Clone, Copy, Debug, PartialEq, Eq)]
pub struct Guide {
    pub at: u64,
    /// What stands behind it.
    pub label: &'static str,
}

/// Curves between two axes.
#[derive(Debug, Drop)]
pub struct Panel {
    /// The horizontal axis.
    pub x: Axis,
    /// The vertical axis.
    pub y: Axis,
    pub guides: Vec<Guide>,
    pub curves: Vec<Curve>,
}

// Writes a tick of the horizontal axis.
fn put_tick_below<W: Write>(tick: &Tick, place: &Place, writer: &mut W) -> io::Result<()> {
    let (x, frame) = (place.x(tick.at), &place.frame);
    let (top, bottom) = (frame.top, frame.bottom());
    let Some(label) = &tick.label else {
        return put_path_line(format_args!("M{x} {bottom}v4"), AXIS, writer);
    };
    put_path(format_args!("M{x} {top}V{bottom}"), GRID, writer)?;
    put_path(format_args!("M{x} {bottom}v6"), AXIS, writer)?;
    let (low, label) = (bottom.saturating_add(18), Escaped(label.as_str()));
    put_text_line(x, low, Stand::Centred, label, writer)
}

// Writes a tick of the vertical axis.
fn put_tick_beside<W: Write>(tick: &Tick, place: &Place, writer: &mut W) -> io::Result<()> {
    let (y, frame) = (place.y(tick.at), &place.frame);
    let (left, right) = (frame.left, frame.right());
    let Some(label) = &tick.label else {
        return put_path_line(format_args!("M{left} {y}h-4"), AXIS, writer);
    };
    put_path(format_args!("M{left} {y}H{right}"), GRID, writer)?;
    put_path(format_args!("M{left} {y}h-6"), AXIS, writer)?;
    let (end, label) = (left.saturating_sub(9), Escaped(label.as_str()));
    put_text_line(end, y.below(LOWER), Stand::Ends, label, writer)
}

// Writes the titles of the axes.
fn put_titles<W: Write>(panel: &Panel, frame: &Frame, writer: &mut W) -> io::Result<()> {
    let (across, up) = (panel.x.title.as_str(), panel.y.title.as_str());
    let middle = frame.left.saturating_add(frame.width / 2);
    let low = frame.bottom().saturating_add(38);
    put_text_line(middle, low, Stand::Centred, Escaped(across), writer)?;
    let x = frame.left.saturating_sub(62);
    let y = frame.top.saturating_add(HEIGHT / 2);
    put_text_line(x, y, Stand::Upward, Escaped(up), writer)
}

// Writes both axes.
fn put_axes<W: Write>(panel: &Panel, place: &Place, writer: &mut W) -> io::Result<()> {
    for tick in &panel.x.ticks {
        put_tick_below(tick, place, writer)?;
    }
    for tick in &panel.y.ticks {
        put_tick_beside(tick, place, writer)?;
    }
    let frame = &place.frame;
    let (left, top) = (frame.left, frame.top);
    let (right, bottom) = (frame.right(), frame.bottom());
    let steps = format_args!("M{left} {top}V{bottom}H{right}");
    put_path_line(steps, format_args!("fill=\"none\" {AXIS}"), writer)?;
    put_titles(panel, frame, writer)
}

// Writes the dotted lines.
fn put_guides<W: Write>(panel: &Panel, place: &Place, writer: &mut W) -> io::Result<()> {
    let (left, right) = (place.frame.left, place.frame.right());
    for guide in &panel.guides {
        let (y, label) = (place.y(guide.at), guide.label);
        let strokes = format_args!("{AXIS} stroke-dasharray=\"1 3\"");
        put_path(format_args!("M{left} {y}H{right}"), strokes, writer)?;
        let x = right.saturating_add(6);
        put_text_line(x, y.below(LOWER), Stand::Pale, label, writer)?;
    }
    Ok(())
}

/// Writes a panel.
pub fn put_panel<W: Write>(panel: &Panel, frame: Frame, writer: &mut W) -> io::Result<()> {
    let place = Place {
        frame,
        across: panel.x.range,
        up: panel.y.range,
    };
    put_axes(panel, &place, writer)?;
    put_guides(panel, &place, writer)?;
    for curve in &panel.curves {
        put_curve(curve, &place, writer)?;
    }
    Ok(())
}
