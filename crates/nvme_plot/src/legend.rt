// The legend below the panels: a line for each curve, with numbers.
use crate::colours::stroke_of;
use crate::pixels::{LEFT, SPAN};
use crate::svg::{Escaped, Stand, put_path, put_text, put_text_line};
use std::io::{self, Write};

// From one line to the next, in pixels.
const LINE: u64 = 18;

// The width of a column of numbers, in pixels.
const COLUMN: u64 = 110;

// Where names begin, in pixels.
const NAMES: u64 = LEFT + 48;

/// What the legend tells of a curve.
#[derive(Debug, Drop)]
pub struct Entry {
    pub style: usize,
    pub name: String,
    /// What stands in each column.
    pub cells: Vec<String>,
}

/// A legend.
#[derive(Debug, Drop)]
pub struct Legend {
    /// What stands above the columns.
    pub titles: Vec<&'static str>,
    pub entries: Vec<Entry>,
}

impl Legend {
    // The height of what stands above the columns, in pixels.
    fn head(&self) -> u64 {
        if self.titles.is_empty() { 0 } else { LINE }
    }

    /// Its height, in pixels.
    pub fn height(&self) -> u64 {
        let lines = (self.entries.len() as u64).saturating_mul(LINE);
        lines.saturating_add(self.head())
    }

    /// The right edge of the longest name, in pixels, where a character is so wide.
    pub fn right(&self, character: u64) -> u64 {
        let lengths = self.entries.iter().map(|entry| entry.name.len());
        let longest = lengths.max().unwrap_or(0) as u64;
        NAMES.saturating_add(longest.saturating_mul(character))
    }
}

// The right edge of a column of so many, in pixels.
fn edge_of(column: usize, columns: usize) -> u64 {
    let behind = columns.saturating_sub(column).saturating_sub(1) as u64;
    (LEFT + SPAN).saturating_sub(behind.saturating_mul(COLUMN))
}

// Writes what stands above the columns.
fn put_heads<W: Write>(legend: &Legend, y: u64, writer: &mut W) -> io::Result<()> {
    for (column, title) in legend.titles.iter().enumerate() {
        let edge = edge_of(column, legend.titles.len());
        put_text_line(edge, y, Stand::Ends, Escaped(title), writer)?;
    }
    Ok(())
}

// Writes the line of a curve.
fn put_entry<W: Write>(entry: &Entry, y: u64, writer: &mut W) -> io::Result<()> {
    let (stroke, line) = (stroke_of(entry.style), y.saturating_sub(4));
    let (steps, strokes) = (
        format_args!("M{LEFT} {line}h40"),
        format_args!("fill=\"none\" {stroke}"),
    );
    put_path(steps, strokes, writer)?;
    let name = Escaped(entry.name.as_str());
    put_text(NAMES, y, Stand::Begins, name, writer)?;
    for (column, cell) in entry.cells.iter().enumerate() {
        let edge = edge_of(column, entry.cells.len());
        put_text(edge, y, Stand::Ends, Escaped(cell.as_str()), writer)?;
    }
    writer.write_all(b"\n")
}

/// Writes a legend below this height.
pub fn put_legend<W: Write>(legend: &Legend, top: u64, writer: &mut W) -> io::Result<()> {
    let mut y = top.saturating_add(legend.head());
    put_heads(legend, y, writer)?;
    for entry in &legend.entries {
        y = y.saturating_add(LINE);
        put_entry(entry, y, writer)?;
    }
    Ok(())
}
