// Values of JSON.
ghost use Rattle.std.specs.List.{flat_map};
ghost use Rattle.nvme_cells.specs.Rows.{json_value};
ghost use Rattle.nvme_cells.specs.Strings.{json_byte, json_string};
ghost use Rattle.nvme_cells.specs.Values.{value_of};
ghost use Rattle.nvme_output.specs.Written.{Writes};

use crate::cell::{Cell, Marks, put_cell};
use nvme_output::{Piece, WriteFault, put, put_pieces};
use std::io::Write;

// Null stands for nothing, and a percentage is its number.
const MARKS: Marks = Marks {
    none: "null",
    percent: "",
};

// Writes a byte of a string.
fn put_byte<W: Write>(byte: u8, writer: &mut W) -> Result<(), WriteFault>
    ensures { Writes (W.contents writer.old) (W.contents writer.new) result (json_byte byte) }
{
    if byte == b'"' {
        put(b"\\\"", writer)
    } else if byte == b'\\' {
        put(b"\\\\", writer)
    } else if byte < 32 {
        put_pieces(&[Piece::Words("\\u00"), Piece::Byte(byte)], writer)
    } else {
        put(&[byte], writer)
    }
}

// Writes the bytes of a string.
fn put_bytes<W: Write>(bytes: &[u8], writer: &mut W) -> Result<(), WriteFault>
    ensures { Writes (W.contents writer.old) (W.contents writer.new) result (flat_map json_byte bytes.now) }
{
    for byte in bytes {
        put_byte(*byte, writer)?;
    }
    Ok(())
}

/// Writes a string. `WriteFault` where a write failed.
pub fn put_string<W: Write>(text: &str, writer: &mut W) -> Result<(), WriteFault>
    ensures { Writes (W.contents writer.old) (W.contents writer.new) result (json_string text.now) }
{
    put(b"\"", writer)?;
    put_bytes(text.as_bytes(), writer)?;
    put(b"\"", writer)
}

/// Writes a value. `WriteFault` where a write failed.
pub fn put_json<W: Write>(cell: &Cell, writer: &mut W) -> Result<(), WriteFault>
    ensures { Writes (W.contents writer.old) (W.contents writer.new) result (json_value (value_of cell.now)) }
{
    match *cell {
        Cell::Word(word) => put_string(word, writer),
        _ => put_cell(cell, &MARKS, writer),
    }
}
