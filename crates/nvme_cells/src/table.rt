// Rows as lines of a table for people.
ghost use Rattle.std.specs.Prelude.{◌≡◌, ◌++◌, ◌-◌, length, map, replicate};
ghost use Rattle.std.specs.List.{flat_map};
ghost use Rattle.nvme_cells.specs.Tables.{left, placed_row, plain, right, shown_of, shown_text, table_text, words};
ghost use Rattle.nvme_cells.specs.Values.{value_of};
ghost use Rattle.nvme_output.specs.Written.{Writes};

use crate::cell::{Cell, Marks, put_cell, put_filled, room_beside};
use nvme_output::WriteFault;
use std::io::Write;

// A line stands for nothing.
const MARKS: Marks = Marks {
    none: "-",
    percent: "%",
};

/// Where a cell stands in its column, whose width is in bytes. What is longer exceeds it.
#[derive(Clone, Copy)]
pub enum Place {
    /// It is as wide as what it says.
    Plain,
    /// To the left, with blanks behind it.
    Left(usize),
    /// To the right, with blanks before it.
    Right(usize),
}

/// A cell in its place.
#[derive(Clone, Copy)]
pub struct Placed<'a> {
    pub cell: Cell<'a>,
    pub place: Place,
}

impl<'a> Placed<'a> {
    /// A text as it is.
    pub fn words(text: &'a str) -> Placed<'a>
        ensures { shown_of result ≡ words text.now }
    {
        Placed::plain(Cell::Word(text))
    }

    /// A cell as wide as what it says.
    pub fn plain(cell: Cell<'a>) -> Placed<'a>
        ensures { shown_of result ≡ plain (value_of cell.entry) }
    {
        Placed {
            cell,
            place: Place::Plain,
        }
    }

    /// A cell to the left of a column.
    pub fn left(width: usize, cell: Cell<'a>) -> Placed<'a>
        ensures { shown_of result ≡ left width (value_of cell.entry) }
    {
        Placed {
            cell,
            place: Place::Left(width),
        }
    }

    /// A cell to the right of a column.
    pub fn right(width: usize, cell: Cell<'a>) -> Placed<'a>
        ensures { shown_of result ≡ right width (value_of cell.entry) }
    {
        Placed {
            cell,
            place: Place::Right(width),
        }
    }
}

// Writes a cell to the left of its column.
fn put_left<W: Write>(cell: &Cell, width: usize, writer: &mut W) -> Result<(), WriteFault>
    ensures { Writes (W.contents writer.old) (W.contents writer.new) result
        (table_text (value_of cell.now) ++ replicate (width - length (table_text (value_of cell.now))) 32) }
{
    put_cell(cell, &MARKS, writer)?;
    put_filled(b' ', room_beside(cell, &MARKS, width), writer)
}

// Writes a cell to the right of its column.
fn put_right<W: Write>(cell: &Cell, width: usize, writer: &mut W) -> Result<(), WriteFault>
    ensures { Writes (W.contents writer.old) (W.contents writer.new) result
        (replicate (width - length (table_text (value_of cell.now))) 32 ++ table_text (value_of cell.now)) }
{
    put_filled(b' ', room_beside(cell, &MARKS, width), writer)?;
    put_cell(cell, &MARKS, writer)
}

// Writes a cell in its place.
fn put_placed<W: Write>(placed: &Placed, writer: &mut W) -> Result<(), WriteFault>
    ensures { Writes (W.contents writer.old) (W.contents writer.new) result (shown_text (shown_of placed.now)) }
{
    match placed.place {
        Place::Plain => put_cell(&placed.cell, &MARKS, writer),
        Place::Left(width) => put_left(&placed.cell, width, writer),
        Place::Right(width) => put_right(&placed.cell, width, writer),
    }
}

/// Writes cells in their places, one behind the other. `WriteFault` where a write failed.
pub fn put_row<W: Write>(row: &[Placed], writer: &mut W) -> Result<(), WriteFault>
    ensures { Writes (W.contents writer.old) (W.contents writer.new) result (flat_map shown_text (map shown_of row.now)) }
{
    for placed in row {
        put_placed(placed, writer)?;
    }
    Ok(())
}

/// Writes rows of cells in their places, one behind the other. `WriteFault` where a write failed.
pub fn put_rows<W: Write>(rows: &[&[Placed]], writer: &mut W) -> Result<(), WriteFault>
    ensures { Writes (W.contents writer.old) (W.contents writer.new) result (flat_map (λ row. placed_row row.now) rows.now) }
{
    for row in rows {
        put_row(row, writer)?;
    }
    Ok(())
}
