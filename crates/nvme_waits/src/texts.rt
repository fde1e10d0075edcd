// Bounds on waits as a table for people, and in JSON.
ghost use Rattle.std.specs.Prelude.{◌≡◌, ◌++◌, map};
ghost use Rattle.std.specs.List.{flat_map};
ghost use Rattle.nvme_cells.specs.Rows.{named_of};
ghost use Rattle.nvme_cells.specs.Tables.{shown_of, words};
ghost use Rattle.nvme_cells.specs.Values.{value_of, whole_of};
ghost use Rattle.nvme_numbers.specs.Objects.{comma_before, listed};
ghost use Rattle.nvme_numbers.specs.Sheets.{placed};
ghost use Rattle.nvme_numbers.specs.Tables.{line_end, silent};
ghost use Rattle.nvme_output.specs.Written.{Writes};
ghost use Rattle.nvme_waits.specs.Texts.{bound_time, bound_whole, bounds_json, bounds_text, head_row, part_text, queue_line, queue_members, queue_object, queue_row, reason_row, reason_value, reason_words, time_if};

use crate::bounds::{Bound, Bounds, NoBound};
use nvme_cells::{Cell, Field, Placed, put_members, put_object, put_row, put_rows};
use nvme_numbers::{class_name, column, comma_before, micros};
use nvme_output::{WriteFault, put};
use std::io::Write;

// A time in microseconds, or nothing.
fn time_if<'a>(time: Option<u64>) -> Cell<'a>
    ensures { value_of result ≡ time_if time }
{
    match time {
        Some(time) => micros(u128::from(time)),
        None => Cell::Empty,
    }
}

// A bound in time in microseconds, or nothing.
fn bound_time<'a>(time: Result<u128, NoBound>) -> Cell<'a>
    ensures { value_of result ≡ bound_time time }
{
    match time {
        Ok(time) => micros(time),
        Err(_) => Cell::Empty,
    }
}

// A whole number, or nothing.
fn whole_if<'a>(number: Option<u64>) -> Cell<'a>
    ensures { value_of result ≡ whole_of number }
{
    match number {
        Some(number) => Cell::Number(u128::from(number)),
        None => Cell::Empty,
    }
}

// What is told before the queues.
fn head<'a>(service: u64) -> [Placed<'a>; 3]
    ensures { map shown_of result ≡ head_row service }
{
    [
        Placed::words(
            "wait for arbitration as the next command of its queue, in us; no service is longer than ",
        ),
        Placed::plain(micros(u128::from(service))),
        Placed::words("\nqueue class            seen        bound  picks before\n"),
    ]
}

// What is told of the queue at a place, of which this was the longest wait.
fn queue<'a>(place: usize, bound: &Bound, seen: Option<u64>) -> [Placed<'a>; 6]
    ensures { map shown_of result ≡ queue_row place bound.now seen }
{
    [
        Placed::words("q"),
        Placed::left(5, Cell::Number(place as u128 + 1)),
        Placed::left(8, Cell::Word(class_name(bound.class))),
        Placed::right(13, time_if(seen)),
        Placed::right(13, bound_time(bound.time)),
        Placed::right(14, whole_if(bound.before)),
    ]
}

// A cell that says nothing.
fn silent<'a>() -> Placed<'a>
    ensures { shown_of result ≡ silent }
{
    Placed::words("")
}

// A reason in words.
fn reason_cell<'a>(reason: NoBound) -> Placed<'a>
    ensures { shown_of result ≡ words (reason_words reason) }
{
    Placed::words(reason.words())
}

// Why there is no bound in time, if there is none.
fn reason<'a>(time: Result<u128, NoBound>) -> [Placed<'a>; 2]
    ensures { map shown_of result ≡ reason_row time }
{
    match time {
        Ok(_) => [silent(), silent()],
        Err(reason) => [Placed::words("  no bound: "), reason_cell(reason)],
    }
}

// The end of a line.
fn line_end<'a>() -> [Placed<'a>; 1]
    ensures { map shown_of result ≡ line_end }
{
    [Placed::words("\n")]
}

// Writes the line of the queue at a place.
fn put_line<W: Write>(
    bounds: &Bounds,
    place: usize,
    bound: &Bound,
    writer: &mut W,
) -> Result<(), WriteFault>
    ensures { Writes (W.contents writer.old) (W.contents writer.new) result (queue_line bounds.now place bound.now) }
{
    let seen = bounds.waits.longest(place);
    put_rows(
        &[&queue(place, bound, seen), &reason(bound.time), &line_end()],
        writer,
    )
}

// Writes the lines of queues.
fn put_lines<W: Write>(bounds: &Bounds, queues: &[Bound], writer: &mut W) -> Result<(), WriteFault>
    ensures { Writes (W.contents writer.old) (W.contents writer.new) result (placed (queue_line bounds.now) 0 queues.now) }
{
    for (place, bound) in queues.iter().enumerate() {
        put_line(bounds, place, bound, writer)?;
    }
    Ok(())
}

/// Writes a table for people.
pub(crate) fn put_table<W: Write>(bounds: &Bounds, writer: &mut W) -> Result<(), WriteFault>
    ensures { Writes (W.contents writer.old) (W.contents writer.new) result (bounds_text bounds.now) }
{
    put_row(&head(bounds.service), writer)?;
    put_lines(bounds, &bounds.queues, writer)
}

// A bound in time in picoseconds, or nothing.
fn bound_whole<'a>(time: Result<u128, NoBound>) -> Cell<'a>
    ensures { value_of result ≡ bound_whole time }
{
    match time {
        Ok(time) => Cell::Number(time),
        Err(_) => Cell::Empty,
    }
}

// The name of why there is no bound in time, or nothing.
fn reason_value<'a>(time: Result<u128, NoBound>) -> Cell<'a>
    ensures { value_of result ≡ reason_value time }
{
    match time {
        Ok(_) => Cell::Empty,
        Err(reason) => Cell::Word(reason.name()),
    }
}

// The members of a queue, of which this was the longest wait.
fn members<'a>(bound: &Bound, seen: Option<u64>) -> [Field<'a>; 5]
    ensures { map named_of result ≡ queue_members bound.now seen }
{
    [
        column("class", Cell::Word(class_name(bound.class))),
        column("wait_max_ps", whole_if(seen)),
        column("bound_ps", bound_whole(bound.time)),
        column("picks_before", whole_if(bound.before)),
        column("no_bound", reason_value(bound.time)),
    ]
}

// Writes the object of the queue at a place behind what stands before it.
fn put_queue<W: Write>(
    bounds: &Bounds,
    place: usize,
    bound: &Bound,
    writer: &mut W,
) -> Result<(), WriteFault>
    ensures { Writes (W.contents writer.old) (W.contents writer.new) result (comma_before place ++ queue_object bounds.now place bound.now) }
{
    let number = column("queue", Cell::Number(place as u128 + 1));
    let members = members(bound, bounds.waits.longest(place));
    put_object(comma_before(place), &number, &[&members], writer)
}

// Writes the objects of queues with commas between them.
fn put_queues<W: Write>(bounds: &Bounds, queues: &[Bound], writer: &mut W) -> Result<(), WriteFault>
    ensures { Writes (W.contents writer.old) (W.contents writer.new) result (listed (queue_object bounds.now) queues.now) }
{
    for (place, bound) in queues.iter().enumerate() {
        put_queue(bounds, place, bound, writer)?;
    }
    Ok(())
}

// The parts of the key of an object, one behind the other.
#[derive(Clone, Copy)]
pub enum Part {
    Service,
    Open,
    Queues,
    Close,
}

const PARTS: [Part; 4] = [Part::Service, Part::Open, Part::Queues, Part::Close];

// Writes a part.
fn put_part<W: Write>(bounds: &Bounds, part: Part, writer: &mut W) -> Result<(), WriteFault>
    ensures { Writes (W.contents writer.old) (W.contents writer.new) result (part_text bounds.now part) }
{
    match part {
        Part::Service => {
            let service = Cell::Number(u128::from(bounds.service));
            put_members(
                ",\"bounds\":{",
                &column("service_max_ps", service),
                &[],
                writer,
            )
        }
        Part::Open => put(b",\"queues\":[", writer),
        Part::Queues => put_queues(bounds, &bounds.queues, writer),
        Part::Close => put(b"]}}\n", writer),
    }
}

// Writes parts, one behind the other.
fn put_parts<W: Write>(bounds: &Bounds, parts: &[Part], writer: &mut W) -> Result<(), WriteFault>
    ensures { Writes (W.contents writer.old) (W.contents writer.new) result (flat_map (part_text bounds.now) parts.now) }
{
    for part in parts {
        put_part(bounds, *part, writer)?;
    }
    Ok(())
}

/// Writes the key of an object that is still open, and ends the object.
pub(crate) fn put_key<W: Write>(bounds: &Bounds, writer: &mut W) -> Result<(), WriteFault>
    ensures { Writes (W.contents writer.old) (W.contents writer.new) result (bounds_json bounds.now) }
{
    put_parts(bounds, &PARTS, writer)
}
