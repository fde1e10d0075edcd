// Statistics as tables for people.
use super::fields::waited;
use super::{Statistics, Written};
use crate::heading::Heading;
use crate::histogram::Histogram;
use crate::lanes::{IO_QUEUES, queue_of_lane};
use crate::selection::Selection;
use crate::series::{Series, Window};
use crate::shares::millionths;
use crate::tally::Tally;
use nvme_arbiter::{Mechanism, Seen};
use nvme_cells::{Cell, Place, Placed, Places, put_row};
use nvme_output::{WriteFault, put};
use nvme_terms::{CLASSES, SettingsInWords, class_name, count_of};
use std::fmt::Display;
use std::io::Write;

// Writes what is shown.
fn put_shown<T: Display + Drop, W: Write>(shown: T, writer: &mut W) -> Written {
    write!(writer, "{shown}").or(Err(WriteFault))
}

// A word to the left of a column, and a number, a share in millionths and a cell to the right of one.
fn left(word: &str, width: usize) -> Placed<'_> {
    Placed {
        cell: Cell::Word(word),
        place: Place::Left(width),
    }
}

fn right(cell: Cell<'_>, width: usize) -> Placed<'_> {
    Placed {
        cell,
        place: Place::Right(width),
    }
}

fn number(number: u64, width: usize) -> Placed<'static> {
    right(Cell::Number(u128::from(number)), width)
}

fn share(part: u64, whole: u64) -> Placed<'static> {
    right(Cell::Percent(millionths(part, whole), Places::Four), 10)
}

// Writes what was looked at, and under which settings.
fn put_head<W: Write>(counted: &Statistics, writer: &mut W) -> Written {
    let (mechanism, settings) = (counted.mechanism, counted.begun);
    let heading = Heading {
        mechanism,
        picks: counted.picks,
        commands: counted.commands,
    };
    let changes = count_of(counted.changes, "change");
    let begun = SettingsInWords {
        mechanism,
        settings,
    };
    put_shown(
        format_args!("{heading}, {changes} of the settings\n{begun}"),
        writer,
    )?;
    if counted.settings != counted.begun {
        let settings = counted.settings;
        let ended = SettingsInWords {
            mechanism,
            settings,
        };
        put_shown(format_args!("; at the end {ended}"), writer)?;
    }
    put(b"\n", writer)?;
    put_selection(&counted.part.selection, writer)?;
    put_backlogged(counted, writer)?;
    put_nothing(counted, writer)
}

// Writes which picks were looked at, where not all were.
fn put_selection<W: Write>(selection: &Selection, writer: &mut W) -> Written {
    let (first, last) = (selection.first, selection.last);
    if first == last {
        put_shown(format_args!("of pick {first}\n"), writer)
    } else if !selection.is_open() {
        put_shown(format_args!("of picks {first} to {last}\n"), writer)
    } else if first > 1 {
        put_shown(format_args!("of picks {first} to the last\n"), writer)
    } else {
        Ok(())
    }
}

// Writes which of these were looked at, where not all were.
fn put_backlogged<W: Write>(counted: &Statistics, writer: &mut W) -> Written {
    if counted.part.selection.backlogged {
        put(
            b"of picks at which each I/O queue has waiting commands",
            writer,
        )?;
        if counted.mechanism == Mechanism::Weighted {
            put(b", the urgent ones aside where a level is picked", writer)?;
        }
        put(b"\n", writer)?;
    }
    Ok(())
}

// Writes why no pick was looked at, or none of a level.
fn put_nothing<W: Write>(counted: &Statistics, writer: &mut W) -> Written {
    if let Some(last) = counted.last_before() {
        let first = counted.part.selection.first;
        return put_shown(
            format_args!("--from {first} is behind the last pick, {last}\n"),
            writer,
        );
    }
    if !counted.part.selection.backlogged {
        return Ok(());
    }
    if counted.picks == 0 {
        return put(
            b"no pick is looked at: at none do all these queues have waiting commands\n",
            writer,
        );
    }
    if counted.mechanism == Mechanism::Weighted && counted.has_idle_levels() {
        return put(
            b"no pick of a level is looked at: none is made while all queues of the levels have waiting commands\n",
            writer,
        );
    }
    Ok(())
}

// Writes an index, or a line where there is none.
fn put_index<W: Write>(name: &str, index: Option<u128>, writer: &mut W) -> Written {
    let index = Placed {
        cell: Cell::decimal(index, Places::Four),
        place: Place::Plain,
    };
    put_row(
        &[left(name, 0), left(": ", 0), index, left("\n", 0)],
        writer,
    )
}

// Writes how fair the picks are.
fn put_fairness<W: Write>(counted: &Statistics, writer: &mut W) -> Written {
    put_index("Jain's index of the I/O queues", counted.jain(), writer)?;
    if counted.mechanism == Mechanism::Weighted {
        put_index("Jain's index by weight", counted.jain_by_weight(), writer)?;
    }
    Ok(())
}

// Writes how long the low level waits.
fn put_behind<W: Write>(counted: &Statistics, writer: &mut W) -> Written {
    let longest = count_of(counted.behind.longest, "command");
    let bound = counted.behind.bound;
    put_shown(
        format_args!("low behind high and medium: {longest}, at most {bound}\n"),
        writer,
    )
}

// Writes what was counted as the rest of a row of the table.
fn put_tally<W: Write>(counted: &Statistics, tally: &Tally, writer: &mut W) -> Written {
    let row = [
        number(tally.picks, 10),
        number(tally.commands, 10),
        share(tally.commands, counted.commands),
        number(tally.longest, 13),
        number(counted.bound() as u64, 7),
        left("\n", 0),
    ];
    put_row(&row, writer)
}

// Writes the rows of the queues.
fn put_queues<W: Write>(counted: &Statistics, writer: &mut W) -> Written {
    for (lane, tally) in counted.tallies.iter().enumerate() {
        if tally.seen {
            let Seen { qid, class, .. } = queue_of_lane(lane);
            put_shown(format_args!("q{qid:<5}"), writer)?;
            put_row(&[left(class_name(class), 8)], writer)?;
            put_tally(counted, tally, writer)?;
        }
    }
    Ok(())
}

// Writes the rows of the classes.
fn put_classes<W: Write>(counted: &Statistics, writer: &mut W) -> Written {
    for class in CLASSES {
        let tally = counted.of_class(class);
        if tally.seen {
            put_row(&[left("all", 6), left(class_name(class), 8)], writer)?;
            put_tally(counted, &tally, writer)?;
        }
    }
    Ok(())
}

// Writes the waits of a queue.
fn put_wait<W: Write>(qid: u16, waits: &Histogram, writer: &mut W) -> Written {
    let [count, mean, p50, p95, p99, most] = waited(waits);
    put_shown(format_args!("q{qid:<5}"), writer)?;
    let row = [
        right(count.cell, 10),
        right(mean.cell, 12),
        right(p50.cell, 10),
        right(p95.cell, 10),
        right(p99.cell, 10),
        right(most.cell, 10),
        left("\n", 0),
    ];
    put_row(&row, writer)
}

// Writes the waits of the queues.
fn put_waits<W: Write>(counted: &Statistics, writer: &mut W) -> Written {
    put(
        b"commands of others between two services of a queue that is ready all the time:\nqueue      waits        mean       p50       p95       p99       max\n",
        writer,
    )?;
    for qid in 0..=IO_QUEUES as u16 {
        if counted.of_queue(qid).seen
            && let Some(waits) = counted.waits.of_queue(qid)
        {
            put_wait(qid, waits, writer)?;
        }
    }
    Ok(())
}

// Writes a window.
fn put_window<W: Write>(counted: &Statistics, window: &Window, writer: &mut W) -> Written {
    let (first, last, commands) = (window.first, window.last, window.commands);
    put_row(
        &[number(first, 10), number(last, 10), number(commands, 10)],
        writer,
    )?;
    for qid in 0..=IO_QUEUES as u16 {
        if counted.of_queue(qid).seen {
            put_row(&[share(window.of_queue(qid), commands)], writer)?;
        }
    }
    put(b"\n", writer)
}

// Writes the shares of the queues in each window.
fn put_windows<W: Write>(counted: &Statistics, series: &Series, writer: &mut W) -> Written {
    let picks = count_of(series.step, "pick");
    put_shown(
        format_args!("shares by windows of {picks}:\n      from        to  commands"),
        writer,
    )?;
    for qid in 0..=IO_QUEUES as u16 {
        if counted.of_queue(qid).seen {
            let before = if qid < 10 { "        " } else { "       " };
            put_shown(format_args!("{before}q{qid}"), writer)?;
        }
    }
    put(b"\n", writer)?;
    for window in &series.all {
        put_window(counted, window, writer)?;
    }
    Ok(())
}

/// Writes the tables.
pub fn put_table<W: Write>(counted: &Statistics, writer: &mut W) -> Written {
    put_head(counted, writer)?;
    put(
        b"queue class        picks  commands     share  passed over  bound\n",
        writer,
    )?;
    put_queues(counted, writer)?;
    put_classes(counted, writer)?;
    if counted.mechanism == Mechanism::Weighted {
        put_behind(counted, writer)?;
    }
    put_fairness(counted, writer)?;
    put_waits(counted, writer)?;
    match &counted.windows {
        Some(series) => put_windows(counted, series, writer),
        None => Ok(()),
    }
}
