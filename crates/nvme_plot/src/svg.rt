// The elements of a picture as SVG. What stands in them is anything that is shown: a number, a text, or several by `format_args!`.
use std::fmt::{self, Display};
use std::io::{self, Write};

/// The colour of the grid.
pub const GRID: &str = "stroke=\"#dddddd\"";

/// The colour of axes and of their ticks.
pub const AXIS: &str = "stroke=\"#777777\"";

/// A text of XML. What no XML may have is shown as a question mark.
#[derive(Clone, Copy, Debug, PartialEq, Eq)]
pub struct Escaped<'a>(pub &'a str);

impl fmt::Display for Escaped<'_> {
    fn fmt<W: fmt::Write>(&self, f: &mut fmt::Formatter<W>) -> fmt::Result {
        for character in self.0.chars() {
            match character {
                '&' => f.write_str("&amp;")?,
                '<' => f.write_str("&lt;")?,
                '>' => f.write_str("&gt;")?,
                '\0'..='\x1f' => f.write_str("?")?,
                _ => f.write_char(character)?,
            }
        }
        Ok(())
    }
}

/// A line: its colour, its width in pixels, and the lengths of its dashes and gaps.
#[derive(Clone, Copy, Debug, PartialEq, Eq)]
pub struct Stroke {
    pub colour: &'static str,
    pub width: u64,
    pub dashes: &'static str,
}

impl fmt::Display for Stroke {
    fn fmt<W: fmt::Write>(&self, f: &mut fmt::Formatter<W>) -> fmt::Result {
        let (colour, width, dashes) = (self.colour, self.width, self.dashes);
        write!(
            f,
            "stroke=\"{colour}\" stroke-width=\"{width}\" stroke-dasharray=\"{dashes}\""
        )
    }
}

/// How a text stands at its place.
#[derive(Clone, Copy, Debug, PartialEq, Eq)]
pub enum Stand {
    /// It begins there.
    Begins,
    /// It begins there, with letters of this size in pixels.
    Sized(u64),
    /// It begins there, in grey.
    Pale,
    /// Its middle is there.
    Centred,
    /// Its middle is there, and it goes upwards.
    Upward,
    /// It ends there.
    Ends,
}

/// Writes the beginning of a picture of this size in pixels. Its ground is white, and its texts are black or of an ink, whatever a
/// viewer has around it.
pub fn put_begin<W: Write>(
    width: u64,
    height: u64,
    ink: Option<&str>,
    writer: &mut W,
) -> io::Result<()> {
    write!(
        writer,
        "<svg xmlns=\"http://www.w3.org/2000/svg\" width=\"{width}\" height=\"{height}\" viewBox=\"0 0 {width} {height}\" font-family=\"sans-serif\" font-size=\"12\""
    )?;
    if let Some(ink) = ink {
        write!(writer, " fill=\"{ink}\"")?;
    }
    writer.write_all(b">\n<rect width=\"100%\" height=\"100%\" fill=\"#ffffff\"/>\n")
}

/// Writes the end of a picture.
pub fn put_end<W: Write>(writer: &mut W) -> io::Result<()> {
    writer.write_all(b"</svg>\n")
}

/// Writes a text.
pub fn put_text<X: Display + Drop, Y: Display + Drop, T: Display + Drop, W: Write>(
    x: X,
    y: Y,
    stand: Stand,
    text: T,
    writer: &mut W,
) -> io::Result<()> {
    write!(writer, "<text x=\"{x}\" y=\"{y}\"")?;
    match stand {
        Stand::Begins => {}
        Stand::Sized(size) => write!(writer, " font-size=\"{size}\"")?,
        Stand::Pale => writer.write_all(b" fill=\"#555555\"")?,
        Stand::Centred => writer.write_all(b" text-anchor=\"middle\"")?,
        Stand::Upward => write!(
            writer,
            " text-anchor=\"middle\" transform=\"rotate(-90 {x} {y})\""
        )?,
        Stand::Ends => writer.write_all(b" text-anchor=\"end\"")?,
    }
    write!(writer, ">{text}</text>")
}

/// Writes a text as a line of its own.
pub fn put_text_line<X: Display + Drop, Y: Display + Drop, T: Display + Drop, W: Write>(
    x: X,
    y: Y,
    stand: Stand,
    text: T,
    writer: &mut W,
) -> io::Result<()> {
    put_text(x, y, stand, text, writer)?;
    writer.write_all(b"\n")
}

/// Writes a path along these steps, with these strokes.
pub fn put_path<D: Display + Drop, S: Display + Drop, W: Write>(
    steps: D,
    strokes: S,
    writer: &mut W,
) -> io::Result<()> {
    write!(writer, "<path d=\"{steps}\" {strokes}/>")
}

/// Writes a path as a line of its own.
pub fn put_path_line<D: Display + Drop, S: Display + Drop, W: Write>(
    steps: D,
    strokes: S,
    writer: &mut W,
) -> io::Result<()> {
    put_path(steps, strokes, writer)?;
    writer.write_all(b"\n")
}

/// Writes a dot of this radius and colour.
pub fn put_dot<X: Display + Drop, Y: Display + Drop, W: Write>(
    x: X,
    y: Y,
    radius: u64,
    fill: &str,
    writer: &mut W,
) -> io::Result<()> {
    write!(
        writer,
        "<circle cx=\"{x}\" cy=\"{y}\" r=\"{radius}\" fill=\"{fill}\"/>"
    )
}

/// Writes a circle of this radius and look, as a line of its own, which tells of itself where a pointer rests on it.
pub fn put_tip<
    X: Display + Drop,
    Y: Display + Drop,
    L: Display + Drop,
    T: Display + Drop,
    W: Write,
>(x: X, y: Y, look: L, tip: T, writer: &mut W) -> io::Result<()> {
    writeln!(
        writer,
        "<circle cx=\"{x}\" cy=\"{y}\" {look}><title>{tip}</title></circle>"
    )
}
