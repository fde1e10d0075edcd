// The trace of the picks of a simulation, which `nvmearb check`, `stats` and `chart` read.
ghost use Rattle.nvme_output.specs.Written.{Writes};
ghost use Rattle.nvme_tracer.specs.Text.{text_of_head};
ghost use Rattle.nvme_simulate.specs.Trace.{text_before_seen, text_of_pick, text_of_time};

use nvme_arbiter::Seen;
use nvme_model::Model;
use nvme_output::{Piece, WriteFault, put_pieces};
use nvme_simulation::Picked;
use nvme_tracer::{put_head, put_seen};
use std::io::Write;

/// Writes the head of a trace: the mechanism of a model and its settings. `WriteFault` comes only where a write failed or
/// took no byte, and the writer then has a prefix of the head.
pub fn put_trace_head<W: Write>(model: &Model, writer: &mut W) -> Result<(), WriteFault>
    ensures { Writes (W.contents writer.old) (W.contents writer.new) result (text_of_head model.now.mechanism model.now.settings) }
{
    put_head(model.mechanism, model.settings, writer)
}

// Writes the part of a pick's line before the open queues.
fn put_picked<W: Write>(picked: &Picked, writer: &mut W) -> Result<(), WriteFault>
    ensures { Writes (W.contents writer.old) (W.contents writer.new) result (text_before_seen picked.now) }
{
    let pieces = [
        Piece::Words("{\"pick\":"),
        Piece::Number(u128::from(picked.pick.qid)),
        Piece::Words(",\"n\":"),
        Piece::Number(u128::from(picked.pick.n)),
        Piece::Words(",\"room\":"),
        Piece::Number(u128::from(picked.room)),
        Piece::Words(",\"fresh\":"),
        Piece::Words(if picked.pick.fresh { "true" } else { "false" }),
        Piece::Words(",\"seen\":["),
    ];
    put_pieces(&pieces, writer)
}

// Writes the time of a pick, behind the open queues.
fn put_time<W: Write>(time: u64, writer: &mut W) -> Result<(), WriteFault>
    ensures { Writes (W.contents writer.old) (W.contents writer.new) result (text_of_time time) }
{
    let pieces = [
        Piece::Words("],\"x_ps\":"),
        Piece::Number(u128::from(time)),
        Piece::Words("}\n"),
    ];
    put_pieces(&pieces, writer)
}

/// Writes the line of a pick that was shown these queues, with its time in picoseconds as `x_ps`. `WriteFault` comes only
/// where a write failed or took no byte, and the writer then has a prefix of the line.
pub fn put_pick<W: Write>(picked: &Picked, seen: &[Seen], writer: &mut W) -> Result<(), WriteFault>
    ensures { Writes (W.contents writer.old) (W.contents writer.new) result (text_of_pick picked.now seen.now) }
{
    put_picked(picked, writer)?;
    put_seen(seen, writer)?;
    put_time(picked.at, writer)
}
