// Writes a trace, line by line.
ghost use Rattle.std.specs.List.{flat_map};
ghost use Rattle.nvme_output.specs.Written.{Writes};
ghost use Rattle.nvme_tracer.specs.Text.{text_of_head, text_of_queue, text_of_next, text_of_seen, text_before_seen, text_of_pick, text_of_set, text_of_event, trace_text};

use nvme_arbiter::{Mechanism, Pick, Seen, Settings};
use nvme_log::Event;
use nvme_output::{Piece, WriteFault, put, put_pieces};
use nvme_trace::{class_name, mechanism_name};
use std::io::Write;

/// Writes the head of a trace: the mechanism and the first settings. `WriteFault` as `write_trace`.
pub fn put_head<W: Write>(
    mechanism: Mechanism,
    settings: Settings,
    writer: &mut W,
) -> Result<(), WriteFault>
    ensures { Writes (W.contents writer.old) (W.contents writer.new) result (text_of_head mechanism settings) }
{
    let pieces = [
        Piece::Words("{\"version\":1,\"mechanism\":\""),
        Piece::Words(mechanism_name(mechanism)),
        Piece::Words("\",\"cdw11\":"),
        Piece::Number(u128::from(settings.to_cdw11())),
        Piece::Words("}\n"),
    ];
    put_pieces(&pieces, writer)
}

// Writes an open queue.
fn put_queue<W: Write>(queue: &Seen, writer: &mut W) -> Result<(), WriteFault>
    ensures { Writes (W.contents writer.old) (W.contents writer.new) result (text_of_queue queue.now) }
{
    let pieces = [
        Piece::Words("["),
        Piece::Number(u128::from(queue.qid)),
        Piece::Words(",\""),
        Piece::Words(class_name(queue.class)),
        Piece::Words("\","),
        Piece::Number(u128::from(queue.count)),
        Piece::Words("]"),
    ];
    put_pieces(&pieces, writer)
}

// Writes an open queue after another.
fn put_next<W: Write>(queue: &Seen, writer: &mut W) -> Result<(), WriteFault>
    ensures { Writes (W.contents writer.old) (W.contents writer.new) result (text_of_next queue.now) }
{
    put(b",", writer)?;
    put_queue(queue, writer)
}

// Writes open queues, each after another.
fn put_more<W: Write>(queues: &[Seen], writer: &mut W) -> Result<(), WriteFault>
    ensures { Writes (W.contents writer.old) (W.contents writer.new) result (flat_map text_of_next queues.now) }
{
    for queue in queues {
        put_next(queue, writer)?;
    }
    Ok(())
}

/// Writes the open queues that a pick saw, as they stand between the brackets of `seen`. `WriteFault` as `write_trace`.
pub fn put_seen<W: Write>(seen: &[Seen], writer: &mut W) -> Result<(), WriteFault>
    ensures { Writes (W.contents writer.old) (W.contents writer.new) result (text_of_seen seen.now) }
{
    let Some((first, more)) = seen.split_first() else {
        return Ok(());
    };
    put_queue(first, writer)?;
    put_more(more, writer)
}

// Writes the part of a pick's line before the open queues.
fn put_picked<W: Write>(pick: &Pick, writer: &mut W) -> Result<(), WriteFault>
    ensures { Writes (W.contents writer.old) (W.contents writer.new) result (text_before_seen pick.now) }
{
    let pieces = [
        Piece::Words("{\"pick\":"),
        Piece::Number(u128::from(pick.qid)),
        Piece::Words(",\"n\":"),
        Piece::Number(u128::from(pick.n)),
        Piece::Words(",\"fresh\":"),
        Piece::Words(if pick.fresh { "true" } else { "false" }),
        Piece::Words(",\"seen\":["),
    ];
    put_pieces(&pieces, writer)
}

// Writes the line of a pick.
fn put_pick<W: Write>(seen: &[Seen], pick: &Pick, writer: &mut W) -> Result<(), WriteFault>
    ensures { Writes (W.contents writer.old) (W.contents writer.new) result (text_of_pick seen.now pick.now) }
{
    put_picked(pick, writer)?;
    put_seen(seen, writer)?;
    put(b"]}\n", writer)
}

// Writes the line of a change of the settings.
fn put_set<W: Write>(settings: &Settings, writer: &mut W) -> Result<(), WriteFault>
    ensures { Writes (W.contents writer.old) (W.contents writer.new) result (text_of_set settings.now) }
{
    let pieces = [
        Piece::Words("{\"set\":"),
        Piece::Number(u128::from(settings.to_cdw11())),
        Piece::Words("}\n"),
    ];
    put_pieces(&pieces, writer)
}

// Writes the line of an event, if it is a pick or a change of the settings.
fn put_event<W: Write>(event: &Event, writer: &mut W) -> Result<(), WriteFault>
    ensures { Writes (W.contents writer.old) (W.contents writer.new) result (text_of_event event.now) }
{
    match event {
        Event::Pick { seen, pick } => put_pick(seen.as_slice(), pick, writer),
        Event::SetArbitration { settings } => put_set(settings, writer),
        _ => Ok(()),
    }
}

// Writes the picks and the changes of the settings of a log.
fn put_events<W: Write>(log: &[Event], writer: &mut W) -> Result<(), WriteFault>
    ensures { Writes (W.contents writer.old) (W.contents writer.new) result (flat_map text_of_event log.now) }
{
    for event in log {
        put_event(event, writer)?;
    }
    Ok(())
}

/// Writes the trace of a front's log: its mechanism and first settings, then its picks and its changes of the settings,
/// and nothing else. `WriteFault` comes only where a write failed or took no byte, and the writer then has a prefix of
/// the trace.
pub fn write_trace<W: Write>(
    mechanism: Mechanism,
    settings: Settings,
    log: &[Event],
    writer: &mut W,
) -> Result<(), WriteFault>
    ensures { Writes (W.contents writer.old) (W.contents writer.new) result (trace_text mechanism settings log.now) }
{
    put_head(mechanism, settings, writer)?;
    put_events(log, writer)
}
