// The answer of a sweep as comma-separated values.
use nvme_numbers::class_name;
use nvme_points::{Estimate, NAMES, Point, Scope, Sweep, SweepRow};
use nvme_version::VERSION;
use std::io::{self, Write};

/// Writes the line of names.
pub fn put_names<W: Write>(sweep: &Sweep, writer: &mut W) -> io::Result<()> {
    for axis in &sweep.axes {
        let key = axis.key;
        write!(writer, "{key},")?;
    }
    writer.write_all(b"seed,seeds,version,digest,scope,name,class")?;
    for name in NAMES {
        write!(writer, ",{name}")?;
    }
    for name in NAMES {
        write!(writer, ",{name}_half")?;
    }
    writer.write_all(b"\n")
}

// Writes a number behind a comma, or nothing behind it where there is none.
fn put_field<W: Write>(number: Option<u128>, writer: &mut W) -> io::Result<()> {
    match number {
        Some(number) => write!(writer, ",{number}"),
        None => writer.write_all(b","),
    }
}

// Writes of which commands a row tells.
fn put_scope<W: Write>(scope: Scope, writer: &mut W) -> io::Result<()> {
    match scope {
        Scope::Queue(at, class) => {
            let (number, class) = (at.saturating_add(1), class_name(class));
            write!(writer, "queue,{number},{class}")
        }
        Scope::Class(class) => {
            let class = class_name(class);
            write!(writer, "class,{class},{class}")
        }
        Scope::All => writer.write_all(b"all,all,"),
    }
}

// Writes the means, and then half the widths.
fn put_numbers<W: Write>(numbers: &[Estimate], writer: &mut W) -> io::Result<()> {
    for number in numbers {
        put_field(number.mean, writer)?;
    }
    for number in numbers {
        put_field(number.half, writer)?;
    }
    Ok(())
}

// Writes what stands before each row of a point.
fn put_about<W: Write>(
    sweep: &Sweep,
    point: &Point,
    digest: &str,
    writer: &mut W,
) -> io::Result<()> {
    for value in &point.values {
        write!(writer, "{value},")?;
    }
    let (seed, seeds) = (point.seed, sweep.seeds);
    write!(writer, "{seed},{seeds},{VERSION},{digest},")
}

// Writes a row.
fn put_row<W: Write>(row: &SweepRow, writer: &mut W) -> io::Result<()> {
    put_scope(row.scope, writer)?;
    put_numbers(&row.numbers, writer)?;
    writer.write_all(b"\n")
}

/// Writes the lines of a point.
pub fn put_point<W: Write>(
    sweep: &Sweep,
    point: &Point,
    digest: &str,
    writer: &mut W,
) -> io::Result<()> {
    for row in &point.rows {
        put_about(sweep, point, digest, writer)?;
        put_row(row, writer)?;
    }
    Ok(())
}
