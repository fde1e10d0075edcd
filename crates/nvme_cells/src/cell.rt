// Cells, and their texts.
ghost use Rattle.std.specs.Prelude.{◌≡◌, ◌-◌, ◌++◌, length, decimal, replicate};
ghost use Rattle.nvme_cells.specs.Values.{behind_text, digits_of, flag_text, fraction_of, fraction_text, percentage_of, scale_of, value_of, value_text, whole_of};
ghost use Rattle.nvme_output.specs.Written.{Writes};

use nvme_output::{WriteFault, put};
use std::io::Write;

/// How many digits stand behind the point.
#[derive(Clone, Copy)]
pub enum Places {
    Two,
    Three,
    Four,
    Five,
    Six,
}

impl Places {
    // How many they are.
    fn digits(self) -> usize
        ensures { result ≡ digits_of self }
    {
        match self {
            Places::Two => 2,
            Places::Three => 3,
            Places::Four => 4,
            Places::Five => 5,
            Places::Six => 6,
        }
    }

    // How many units of the last digit make a whole.
    fn scale(self) -> u128
        ensures { result ≡ scale_of self }
    {
        match self {
            Places::Two => 100,
            Places::Three => 1_000,
            Places::Four => 10_000,
            Places::Five => 100_000,
            Places::Six => 1_000_000,
        }
    }
}

/// What a cell of a row says.
#[derive(Clone, Copy)]
pub enum Cell<'a> {
    /// There is nothing to say.
    Empty,
    /// A word.
    Word(&'a str),
    /// Whether it is so.
    Flag(bool),
    /// A whole number.
    Number(u128),
    /// So many units of the last of the digits behind the point.
    Decimal(u128, Places),
    /// The same of a percentage. The sign stands in tables alone.
    Percent(u128, Places),
}

impl<'a> Cell<'a> {
    /// A whole number, or nothing.
    pub fn number(number: Option<u128>) -> Cell<'a>
        ensures { value_of result ≡ whole_of number }
    {
        match number {
            Some(number) => Cell::Number(number),
            None => Cell::Empty,
        }
    }

    /// So many units of the last of the digits behind the point, or nothing.
    pub fn decimal(units: Option<u128>, places: Places) -> Cell<'a>
        ensures { value_of result ≡ fraction_of places units }
    {
        match units {
            Some(units) => Cell::Decimal(units, places),
            None => Cell::Empty,
        }
    }

    /// The same of a percentage.
    pub fn percent(units: Option<u128>, places: Places) -> Cell<'a>
        ensures { value_of result ≡ percentage_of places units }
    {
        match units {
            Some(units) => Cell::Percent(units, places),
            None => Cell::Empty,
        }
    }
}

// What stands for nothing, and behind a percentage.
#[derive(Clone, Copy)]
pub struct Marks<'a> {
    pub none: &'a str,
    pub percent: &'a str,
}

// How many digits a number has.
fn digits(n: u128) -> usize
    ensures { result ≡ length (decimal n) }
{
    let mut buffer = itoa::Buffer::new();
    buffer.format(n).len()
}

/// Writes a byte so many times.
pub fn put_filled<W: Write>(byte: u8, count: usize, writer: &mut W) -> Result<(), WriteFault>
    ensures { Writes (W.contents writer.old) (W.contents writer.new) result (replicate count byte) }
{
    for _ in 0..count {
        put(&[byte], writer)?;
    }
    Ok(())
}

// Writes a number.
fn put_number<W: Write>(n: u128, writer: &mut W) -> Result<(), WriteFault>
    ensures { Writes (W.contents writer.old) (W.contents writer.new) result (decimal n) }
{
    let mut buffer = itoa::Buffer::new();
    put(buffer.format(n).as_bytes(), writer)
}

// Writes the digits behind the point.
fn put_behind<W: Write>(part: u128, places: Places, writer: &mut W) -> Result<(), WriteFault>
    ensures { Writes (W.contents writer.old) (W.contents writer.new) result (behind_text part places) }
{
    put_filled(b'0', places.digits().saturating_sub(digits(part)), writer)?;
    put_number(part, writer)
}

// Writes a fraction.
fn put_fraction<W: Write>(units: u128, places: Places, writer: &mut W) -> Result<(), WriteFault>
    ensures { Writes (W.contents writer.old) (W.contents writer.new) result (fraction_text units places) }
{
    let scale = places.scale();
    put_number(units / scale, writer)?;
    put(b".", writer)?;
    put_behind(units % scale, places, writer)
}

// Writes a percentage.
fn put_percent<W: Write>(
    units: u128,
    places: Places,
    sign: &str,
    writer: &mut W,
) -> Result<(), WriteFault>
    ensures { Writes (W.contents writer.old) (W.contents writer.new) result (fraction_text units places ++ sign.now) }
{
    put_fraction(units, places, writer)?;
    put(sign.as_bytes(), writer)
}

// The word of a flag.
fn flag_word(flag: bool) -> &'static str
    ensures { result.now ≡ flag_text flag }
{
    if flag { "true" } else { "false" }
}

/// Writes what a cell says. `WriteFault` as `nvme_output`.
pub fn put_cell<W: Write>(cell: &Cell, marks: &Marks, writer: &mut W) -> Result<(), WriteFault>
    ensures { Writes (W.contents writer.old) (W.contents writer.new) result (value_text marks.now.none.now marks.now.percent.now (value_of cell.now)) }
{
    match *cell {
        Cell::Empty => put(marks.none.as_bytes(), writer),
        Cell::Word(word) => put(word.as_bytes(), writer),
        Cell::Flag(flag) => put(flag_word(flag).as_bytes(), writer),
        Cell::Number(n) => put_number(n, writer),
        Cell::Decimal(units, places) => put_fraction(units, places, writer),
        Cell::Percent(units, places) => put_percent(units, places, marks.percent, writer),
    }
}

// How much of a width a fraction leaves.
fn room_beside_fraction(units: u128, places: Places, width: usize) -> usize
    ensures { result ≡ width - length (fraction_text units places) }
{
    let scale = places.scale();
    let behind = places.digits().max(digits(units % scale));
    let whole = digits(units / scale);
    width
        .saturating_sub(whole)
        .saturating_sub(1)
        .saturating_sub(behind)
}

/// How much of a width a cell leaves, in bytes.
pub fn room_beside(cell: &Cell, marks: &Marks, width: usize) -> usize
    ensures { result ≡ width - length (value_text marks.now.none.now marks.now.percent.now (value_of cell.now)) }
{
    match *cell {
        Cell::Empty => width.saturating_sub(marks.none.len()),
        Cell::Word(word) => width.saturating_sub(word.len()),
        Cell::Flag(flag) => width.saturating_sub(flag_word(flag).len()),
        Cell::Number(n) => width.saturating_sub(digits(n)),
        Cell::Decimal(units, places) => room_beside_fraction(units, places, width),
        Cell::Percent(units, places) => {
            room_beside_fraction(units, places, width).saturating_sub(marks.percent.len())
        }
    }
}
