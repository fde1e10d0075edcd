// Statistics as one JSON object.
use super::fields::{looked_at, number, passed_over, picked, share, waited};
use super::{Statistics, Written};
use crate::lanes::{IO_QUEUES, queue_of_lane};
use crate::series::{Series, Window};
use nvme_arbiter::{Class, Settings};
use nvme_cells::{Cell, Field, Places, put_members, put_object};
use nvme_output::put;
use nvme_terms::{CLASSES, class_name, mechanism_name};
use std::io::Write;

// The number of this form, which is another where a member gets another meaning or is left out.
const FORM: u64 = 1;

// Writes the queues as objects.
fn put_queues<W: Write>(counted: &Statistics, writer: &mut W) -> Written {
    put(b",\"queues\":[", writer)?;
    let mut between = "";
    for (lane, tally) in counted.tallies.iter().enumerate() {
        if tally.seen {
            let queue = queue_of_lane(lane);
            let first = number("queue", u64::from(queue.qid));
            let class = [Field::of("class", Cell::Word(class_name(queue.class)))];
            let (picked, passed) = (picked(counted, tally), passed_over(counted, tally));
            put_object(between, &first, &[&class, &picked, &passed], writer)?;
            between = ",";
        }
    }
    put(b"]", writer)
}

// Writes the classes as objects.
fn put_classes<W: Write>(counted: &Statistics, writer: &mut W) -> Written {
    put(b",\"classes\":[", writer)?;
    let mut between = "";
    for class in CLASSES {
        let tally = counted.of_class(class);
        if tally.seen {
            let (picked, passed) = (picked(counted, &tally), passed_over(counted, &tally));
            let first = Field::of("class", Cell::Word(class_name(class)));
            put_object(between, &first, &[&picked, &passed], writer)?;
            between = ",";
        }
    }
    put(b"]", writer)
}

// Writes the waits of the queues.
fn put_waits<W: Write>(counted: &Statistics, writer: &mut W) -> Written {
    put(b",\"waits\":[", writer)?;
    let mut between = "";
    for qid in 0..=IO_QUEUES as u16 {
        if counted.of_queue(qid).seen
            && let Some(waits) = counted.waits.of_queue(qid)
        {
            let first = number("queue", u64::from(qid));
            put_object(between, &first, &[&waited(waits)], writer)?;
            between = ",";
        }
    }
    put(b"]", writer)
}

// Writes the share of a queue in a window, behind what stands before it.
fn put_share<W: Write>(before: &str, qid: u16, window: &Window, writer: &mut W) -> Written {
    let share = [share(window.of_queue(qid), window.commands)];
    let first = number("queue", u64::from(qid));
    put_object(before, &first, &[&share], writer)
}

// Writes the shares of the queues in a window.
fn put_shares<W: Write>(counted: &Statistics, window: &Window, writer: &mut W) -> Written {
    put(b",\"shares\":[", writer)?;
    let mut between = "";
    for qid in 0..=IO_QUEUES as u16 {
        if counted.of_queue(qid).seen {
            put_share(between, qid, window, writer)?;
            between = ",";
        }
    }
    put(b"]", writer)
}

// Writes a window, behind what stands before it.
fn put_window<W: Write>(
    counted: &Statistics,
    before: &str,
    window: &Window,
    writer: &mut W,
) -> Written {
    let rest = [
        number("to", window.last),
        number("commands", window.commands),
    ];
    put(before.as_bytes(), writer)?;
    put_members("{", &number("from", window.first), &[&rest], writer)?;
    put_shares(counted, window, writer)?;
    put(b"}", writer)
}

// Writes the windows.
fn put_windows<W: Write>(counted: &Statistics, series: &Series, writer: &mut W) -> Written {
    put_members(",", &number("window", series.step), &[], writer)?;
    put(b",\"windows\":[", writer)?;
    let mut between = "";
    for window in &series.all {
        put_window(counted, between, window, writer)?;
        between = ",";
    }
    put(b"]", writer)
}

// Writes settings behind what stands before them.
fn put_settings<W: Write>(before: &str, settings: &Settings, writer: &mut W) -> Written {
    let burst = match settings.burst() {
        Some(burst) => number("burst", u64::from(burst)),
        None => Field::of("burst", Cell::Empty),
    };
    let weights = [
        number("high", u64::from(settings.weight(Class::High))),
        number("medium", u64::from(settings.weight(Class::Medium))),
        number("low", u64::from(settings.weight(Class::Low))),
    ];
    put_object(before, &burst, &[&weights], writer)
}

// Writes what is told of all queues together.
fn put_of_all<W: Write>(counted: &Statistics, writer: &mut W) -> Written {
    let behind = [number("at_most", counted.behind.bound)];
    let longest = number("commands", counted.behind.longest);
    put_object(",\"low_behind\":", &longest, &[&behind], writer)?;
    let by_weight = Cell::decimal(counted.jain_by_weight(), Places::Four);
    let by_weight = [Field::of("jain_by_weight", by_weight)];
    let jain = Field::of("jain", Cell::decimal(counted.jain(), Places::Four));
    put_members(",", &jain, &[&by_weight], writer)?;
    put_settings(",\"settings\":", &counted.begun, writer)?;
    put_settings(",\"settings_at_end\":", &counted.settings, writer)
}

/// Writes one object for tools.
pub fn put_statistics<W: Write>(counted: &Statistics, writer: &mut W) -> Written {
    let mechanism = Cell::Word(mechanism_name(counted.mechanism));
    let counts = [
        number("picks", counted.picks),
        number("commands", counted.commands),
        number("changes", counted.changes),
        number("form", FORM),
    ];
    let part = looked_at(&counted.part.selection);
    let first = Field::of("mechanism", mechanism);
    put_members("{", &first, &[&counts, &part], writer)?;
    put_queues(counted, writer)?;
    put_classes(counted, writer)?;
    put_of_all(counted, writer)?;
    put_waits(counted, writer)?;
    if let Some(series) = &counted.windows {
        put_windows(counted, series, writer)?;
    }
    put(b"}\n", writer)
}
