// The answer of a sweep as JSON.
use nvme_numbers::class_name;
use nvme_points::{NAMES, Point, Scope, Sweep, SweepRow};
use nvme_simulate::Origin;
use nvme_version::VERSION;
use std::io::{self, Write};

// The number of the form, which is another where a member gets another meaning or is left out.
const FORM: u32 = 1;

/// Writes what stands before the points.
pub fn put_start<W: Write>(sweep: &Sweep, origin: &Origin, writer: &mut W) -> io::Result<()> {
    let (digest, options) = (origin.digest.as_str(), origin.options.as_str());
    let seeds = sweep.seeds;
    write!(
        writer,
        "{{\"form\":{FORM},\"version\":\"{VERSION}\",\"digest\":\"{digest}\",\"options\":\"{options}\",\"seeds\":{seeds},\"points\":["
    )
}

/// Writes what stands behind the points.
pub fn put_end<W: Write>(writer: &mut W) -> io::Result<()> {
    writer.write_all(b"]}\n")
}

// Writes a number, or null where there is none.
fn put_number<W: Write>(number: Option<u128>, writer: &mut W) -> io::Result<()> {
    match number {
        Some(number) => write!(writer, "{number}"),
        None => writer.write_all(b"null"),
    }
}

// Writes of which commands a row tells.
fn put_scope<W: Write>(scope: Scope, writer: &mut W) -> io::Result<()> {
    match scope {
        Scope::Queue(at, class) => {
            let (number, class) = (at.saturating_add(1), class_name(class));
            write!(
                writer,
                "{{\"scope\":\"queue\",\"queue\":{number},\"class\":\"{class}\""
            )
        }
        Scope::Class(class) => {
            let class = class_name(class);
            write!(writer, "{{\"scope\":\"class\",\"class\":\"{class}\"")
        }
        Scope::All => writer.write_all(b"{\"scope\":\"all\""),
    }
}

// Writes a row.
fn put_row<W: Write>(row: &SweepRow, writer: &mut W) -> io::Result<()> {
    put_scope(row.scope, writer)?;
    for (name, number) in NAMES.iter().zip(&row.numbers) {
        write!(writer, ",\"{name}\":{{\"mean\":")?;
        put_number(number.mean, writer)?;
        writer.write_all(b",\"half\":")?;
        put_number(number.half, writer)?;
        writer.write_all(b"}")?;
    }
    writer.write_all(b"}")
}

// Writes the keys of a point and their values, as texts.
fn put_values<W: Write>(sweep: &Sweep, point: &Point, writer: &mut W) -> io::Result<()> {
    let mut before: &[u8] = b"";
    for (axis, value) in sweep.axes.iter().zip(&point.values) {
        let key = axis.key;
        writer.write_all(before)?;
        write!(writer, "\"{key}\":\"{value}\"")?;
        before = b",";
    }
    Ok(())
}

/// Writes a point, behind a comma where it isn't the first.
pub fn put_point<W: Write>(
    sweep: &Sweep,
    number: usize,
    point: &Point,
    writer: &mut W,
) -> io::Result<()> {
    let comma = if number == 0 { "" } else { "," };
    write!(writer, "{comma}{{\"values\":{{")?;
    put_values(sweep, point, writer)?;
    let seed = point.seed;
    write!(writer, "}},\"seed\":{seed},\"rows\":[")?;
    let mut before: &[u8] = b"";
    for row in &point.rows {
        writer.write_all(before)?;
        put_row(row, writer)?;
        before = b",";
    }
    writer.write_all(b"]}")
}
