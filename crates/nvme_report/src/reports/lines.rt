// Writes the lines of the mode, of the picks and of the completion regions.
ghost use Rattle.std.specs.List.{flat_map};
ghost use Rattle.nvme_output.specs.Written.{Writes};
ghost use Rattle.nvme_report.specs.Report.{cq_line, cq_line_of, mode_line, numbered, pick_line};

use crate::reports::line::Line;
use nvme_entry::Cqe;
use nvme_front::Event;
use nvme_lane::Mode;
use nvme_output::{Piece, WriteFault, put_line};
use std::io::Write;

/// Writes the line of the mode.
pub fn put_mode<W: Write>(mode: Mode, writer: &mut W) -> Result<(), WriteFault>
    ensures { Writes (W.contents writer.old) (W.contents writer.new) result (mode_line mode) }
{
    match mode {
        Mode::Loaded => put_line(&[Piece::Words("loaded")], writer),
        Mode::Live => put_line(&[Piece::Words("live")], writer),
    }
}

// Writes the line of an event, where it is a pick.
fn put_pick<W: Write>(event: &Event, writer: &mut W) -> Result<(), WriteFault>
    ensures { Writes (W.contents writer.old) (W.contents writer.new) result (pick_line event.now) }
{
    let Event::Pick { pick, .. } = event else {
        return Ok(());
    };
    let mut line = Line::new();
    line.words("pick q");
    line.number(u64::from(pick.qid));
    line.words(" ");
    line.number(u64::from(pick.n));
    line.words(if pick.fresh { " fresh" } else { "" });
    line.write(writer)
}

/// Writes the lines of the picks of a log.
pub fn put_picks<W: Write>(log: &[Event], writer: &mut W) -> Result<(), WriteFault>
    ensures { Writes (W.contents writer.old) (W.contents writer.new) result (flat_map pick_line log.now) }
{
    for event in log {
        put_pick(event, writer)?;
    }
    Ok(())
}

// Writes the line of a completion region.
fn put_collection<W: Write>(region: usize, count: usize, writer: &mut W) -> Result<(), WriteFault>
    ensures { Writes (W.contents writer.old) (W.contents writer.new) result (cq_line_of region count) }
{
    let pieces = [
        Piece::Words("cq "),
        Piece::Number(region as u128),
        Piece::Words(" collected "),
        Piece::Number(count as u128),
    ];
    put_line(&pieces, writer)
}

/// Writes the lines of the completion regions.
pub fn put_collected<W: Write>(collected: &[Vec<Cqe>], writer: &mut W) -> Result<(), WriteFault>
    ensures { Writes (W.contents writer.old) (W.contents writer.new) result (numbered cq_line 0 collected.now) }
{
    for (region, cqes) in collected.iter().enumerate() {
        put_collection(region, cqes.len(), writer)?;
    }
    Ok(())
}
