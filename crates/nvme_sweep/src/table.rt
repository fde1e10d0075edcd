// The answer of a sweep as a table for people.
use nvme_numbers::class_name;
use nvme_points::{Estimate, Point, Scope, Sweep, SweepRow};
use std::io::{self, Write};

// How many characters a column of values has at least.
const WIDTH: usize = 8;

// The names of the columns of numbers.
const TITLES: [&str; 7] = ["IOPS", "mean", "p50", "p95", "p99", "p99.9", "max"];

// Writes a text to the left of a column as wide as a key.
fn put_left<W: Write>(text: &str, key: &str, writer: &mut W) -> io::Result<()> {
    let width = key.len().max(WIDTH);
    writer.write_all(text.as_bytes())?;
    for _ in text.len()..width {
        writer.write_all(b" ")?;
    }
    writer.write_all(b" ")
}

/// Writes the line of names. Latencies are in microseconds.
pub fn put_titles<W: Write>(sweep: &Sweep, writer: &mut W) -> io::Result<()> {
    for axis in &sweep.axes {
        put_left(axis.key, axis.key, writer)?;
    }
    writer.write_all(b"class  ")?;
    for title in TITLES {
        write!(writer, " {title:>14}")?;
        if sweep.seeds > 1 {
            writer.write_all(b"            +-")?;
        }
    }
    writer.write_all(b"\n")
}

// Writes a number to the right of a column, or a line where there is none.
fn put_count<W: Write>(number: Option<u128>, writer: &mut W) -> io::Result<()> {
    match number {
        Some(number) => write!(writer, "{number:>14}"),
        None => writer.write_all(b"             -"),
    }
}

// Writes a time in picoseconds as microseconds with three digits behind the point, cut off, or a line where there is none.
fn put_time<W: Write>(time: Option<u128>, writer: &mut W) -> io::Result<()> {
    let Some(time) = time else {
        return writer.write_all(b"             -");
    };
    let (whole, part) = (time / 1_000_000, time % 1_000_000 / 1_000);
    write!(writer, "{whole:>10}.{part:03}")
}

// Writes commands a second, behind a blank.
fn put_rate<W: Write>(rate: &Estimate, seeds: u64, writer: &mut W) -> io::Result<()> {
    writer.write_all(b" ")?;
    put_count(rate.mean, writer)?;
    if seeds > 1 {
        put_count(rate.half, writer)?;
    }
    Ok(())
}

// Writes a latency, behind a blank.
fn put_latency<W: Write>(latency: &Estimate, seeds: u64, writer: &mut W) -> io::Result<()> {
    writer.write_all(b" ")?;
    put_time(latency.mean, writer)?;
    if seeds > 1 {
        put_time(latency.half, writer)?;
    }
    Ok(())
}

// Writes the numbers of a row.
fn put_numbers<W: Write>(row: &SweepRow, seeds: u64, writer: &mut W) -> io::Result<()> {
    for (index, number) in row.numbers.iter().enumerate() {
        if index == 0 {
            put_rate(number, seeds, writer)?;
        } else {
            put_latency(number, seeds, writer)?;
        }
    }
    writer.write_all(b"\n")
}

/// Writes a row for each class of a point, and one for all.
pub fn put_rows<W: Write>(sweep: &Sweep, point: &Point, writer: &mut W) -> io::Result<()> {
    for row in &point.rows {
        let name = match row.scope {
            Scope::Queue(..) => continue,
            Scope::Class(class) => class_name(class),
            Scope::All => "all",
        };
        put_point(sweep, point, writer)?;
        write!(writer, "{name:<7}")?;
        put_numbers(row, sweep.seeds, writer)?;
    }
    Ok(())
}

// Writes the values of a point.
fn put_point<W: Write>(sweep: &Sweep, point: &Point, writer: &mut W) -> io::Result<()> {
    for (axis, value) in sweep.axes.iter().zip(&point.values) {
        put_left(value, axis.key, writer)?;
    }
    Ok(())
}
