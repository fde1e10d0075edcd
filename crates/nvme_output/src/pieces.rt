// Texts as pieces, and how they are written.
ghost use Rattle.std.specs.Prelude.{◌≡◌, ◌++◌, codes};
ghost use Rattle.std.specs.List.{flat_map};
ghost use Rattle.nvme_output.specs.Pieces.{hex_byte, hex_dword, piece_text};
ghost use Rattle.nvme_output.specs.Written.{Writes};

use arrayvec::ArrayVec;
use std::io::Write;
use thiserror::Error;

// The most bytes of a line that are put together before they are written.
const LINE_ROOM: usize = 256;

/// A write failed, or took no byte.
#[derive(Clone, Copy, Debug, PartialEq, Eq, Error)]
#[error("write failed")]
pub struct WriteFault;

/// A piece of a text: words, a number in decimal, or a byte or dword in hexadecimal with all its digits.
#[derive(Clone, Copy)]
pub enum Piece<'a> {
    Words(&'a str),
    Number(u128),
    Byte(u8),
    Dword(u32),
}

/// Writes all bytes. `WriteFault` where a write failed, was interrupted by a signal, or took no byte; the writer then
/// has a prefix of the bytes.
pub fn put<W: Write>(bytes: &[u8], writer: &mut W) -> Result<(), WriteFault>
    ensures { Writes (W.contents writer.old) (W.contents writer.new) result bytes.now }
{
    let mut rest = bytes;
    while !rest.is_empty() {
        match writer.write(rest) {
            Ok(0) | Err(_) => return Err(WriteFault),
            Ok(count) => rest = &rest[count..],
        }
    }
    Ok(())
}

// The two hexadecimal digits of a byte.
fn byte_digits(n: u8) -> [u8; 2]
    ensures { result ≡ hex_byte n }
{
    let mut digits = [b'0'; 2];
    let Ok(()) = hex::encode_to_slice([n].as_slice(), &mut digits) else {
        unreachable!()
    };
    digits
}

// The eight hexadecimal digits of a dword.
fn dword_digits(n: u32) -> [u8; 8]
    ensures { result ≡ hex_dword n }
{
    let mut digits = [b'0'; 8];
    let Ok(()) = hex::encode_to_slice(n.to_be_bytes().as_slice(), &mut digits) else {
        unreachable!()
    };
    digits
}

// Writes one piece.
fn put_piece<W: Write>(piece: &Piece, writer: &mut W) -> Result<(), WriteFault>
    ensures { Writes (W.contents writer.old) (W.contents writer.new) result (piece_text piece.now) }
{
    match *piece {
        Piece::Words(words) => put(words.as_bytes(), writer),
        Piece::Number(n) => {
            let mut buffer = itoa::Buffer::new();
            put(buffer.format(n).as_bytes(), writer)
        }
        Piece::Byte(n) => put(&byte_digits(n), writer),
        Piece::Dword(n) => put(&dword_digits(n), writer),
    }
}

/// Writes pieces, each by writes of its own. `WriteFault` as `put`.
pub fn put_pieces<W: Write>(pieces: &[Piece], writer: &mut W) -> Result<(), WriteFault>
    ensures { Writes (W.contents writer.old) (W.contents writer.new) result (flat_map piece_text pieces.now) }
{
    for piece in pieces {
        put_piece(piece, writer)?;
    }
    Ok(())
}

// Writes a line of pieces, piece by piece.
fn put_long<W: Write>(pieces: &[Piece], writer: &mut W) -> Result<(), WriteFault>
    ensures { Writes (W.contents writer.old) (W.contents writer.new) result (flat_map piece_text pieces.now ++ codes "\n") }
{
    put_pieces(pieces, writer)?;
    put(b"\n", writer)
}

/// Writes a line of pieces, with a newline at its end, by one write if the writer takes it all. A line of more than 256
/// bytes, its newline included, is written piece by piece. `WriteFault` as `put`.
pub fn put_line<W: Write>(pieces: &[Piece], writer: &mut W) -> Result<(), WriteFault>
    ensures { Writes (W.contents writer.old) (W.contents writer.new) result (flat_map piece_text pieces.now ++ codes "\n") }
{
    let mut line = ArrayVec::<u8, LINE_ROOM>::new();
    match put_long(pieces, &mut line) {
        Ok(()) => put(line.as_slice(), writer),
        Err(WriteFault) => put_long(pieces, writer),
    }
}
