// Statistics as comma-separated values.
use super::fields::{looked_at, number, picked, share, waited};
use super::{Statistics, Written};
use crate::histogram::Histogram;
use crate::lanes::{IO_QUEUES, lanes_of_queue, queue_of_lane};
use crate::series::{Series, Window};
use crate::tally::{NO_TALLY, Tally};
use arrayvec::ArrayString;
use nvme_cells::{Cell, Field, put_names, put_values};
use nvme_output::{Piece, put, put_pieces};
use nvme_terms::class_name;
use std::io::Write;

// Room for the names of all classes.
const NAMES: usize = 32;

// How many queues there are, with the admin queue.
const QUEUES: usize = IO_QUEUES + 1;

// The classes of a queue, with a space between two.
fn classes_of(counted: &Statistics, qid: u16) -> ArrayString<NAMES> {
    let mut classes = ArrayString::new();
    for lane in lanes_of_queue(qid) {
        if counted.tallies.get(lane).is_some_and(|tally| tally.seen) {
            let between = if classes.is_empty() { "" } else { " " };
            let _fits = classes.try_push_str(between);
            let _fits = classes.try_push_str(class_name(queue_of_lane(lane).class));
        }
    }
    classes
}

// The classes of a line.
fn of_classes(classes: &str) -> Field<'_> {
    Field::of("class", Cell::Word(classes))
}

// Writes the line of the names.
fn put_title<W: Write>(counted: &Statistics, writer: &mut W) -> Written {
    let (class, picks) = ([of_classes("")], picked(counted, &NO_TALLY));
    let waits = waited(&Histogram::new(counted.alloc));
    let part = looked_at(&counted.part.selection);
    put_names(
        &number("queue", 0),
        &[&class, &picks, &waits, &part],
        writer,
    )
}

// Writes the line of a queue.
fn put_queue<W: Write>(
    counted: &Statistics,
    qid: u16,
    (tally, waits): (&Tally, &Histogram),
    writer: &mut W,
) -> Written {
    let (classes, queue) = (classes_of(counted, qid), number("queue", u64::from(qid)));
    let (class, picks) = ([of_classes(classes.as_str())], picked(counted, tally));
    let (waits, part) = (waited(waits), looked_at(&counted.part.selection));
    put_values(&queue, &[&class, &picks, &waits, &part], writer)
}

// Writes a line for each queue.
fn put_queues<W: Write>(counted: &Statistics, writer: &mut W) -> Written {
    put_title(counted, writer)?;
    for qid in 0..=IO_QUEUES as u16 {
        let tally = counted.of_queue(qid);
        if tally.seen
            && let Some(waits) = counted.waits.of_queue(qid)
        {
            put_queue(counted, qid, (&tally, waits), writer)?;
        }
    }
    Ok(())
}

// Writes a line for a window.
fn put_window<W: Write>(counted: &Statistics, window: &Window, writer: &mut W) -> Written {
    let (mut parts, mut count) = ([0u64; QUEUES], 0usize);
    for qid in 0..=IO_QUEUES as u16 {
        if counted.of_queue(qid).seen
            && let Some(place) = parts.get_mut(count)
        {
            *place = window.of_queue(qid);
            count = count.saturating_add(1);
        }
    }
    let shares = parts.map(|part| share(part, window.commands));
    let (from, rest) = (
        number("from", window.first),
        [
            number("to", window.last),
            number("commands", window.commands),
        ],
    );
    let [_, _, backlogged] = looked_at(&counted.part.selection);
    let shares = &shares[..count.min(QUEUES)];
    put_values(&from, &[&rest, shares, &[backlogged]], writer)
}

// Writes a line for each window, with the share of each queue.
fn put_windows<W: Write>(counted: &Statistics, series: &Series, writer: &mut W) -> Written {
    put(b"from,to,commands", writer)?;
    for qid in 0..=IO_QUEUES as u16 {
        if counted.of_queue(qid).seen {
            put_pieces(
                &[Piece::Words(",q"), Piece::Number(u128::from(qid))],
                writer,
            )?;
        }
    }
    put(b",backlogged\n", writer)?;
    for window in &series.all {
        put_window(counted, window, writer)?;
    }
    Ok(())
}

/// Writes the lines.
pub fn put_sheet<W: Write>(counted: &Statistics, writer: &mut W) -> Written {
    match &counted.windows {
        Some(series) => put_windows(counted, series, writer),
        None => put_queues(counted, writer),
    }
}
