// The log of the commands that are done, as comma-separated values.
ghost use Rattle.nvme_numbers.specs.Texts.{log_head, log_text};
ghost use Rattle.nvme_output.specs.Written.{Writes};

use crate::names::operation_name;
use nvme_model::Finished;
use nvme_output::{Piece, WriteFault, put_line};
use std::io::Write;

// The names of the columns.
const NAMES: &str =
    "queue,number,operation,block,blocks,channel,came_ps,submitted_ps,picked_ps,started_ps,done_ps";

/// Writes the line of the names. `WriteFault` where a write failed.
pub fn log_header<W: Write>(writer: &mut W) -> Result<(), WriteFault>
    ensures { Writes (W.contents writer.old) (W.contents writer.new) result log_head }
{
    put_line(&[Piece::Words(NAMES)], writer)
}

/// Writes the line of a command. Times are in picoseconds. `WriteFault` where a write failed.
pub fn log_line<W: Write>(finished: &Finished, writer: &mut W) -> Result<(), WriteFault>
    ensures { Writes (W.contents writer.old) (W.contents writer.new) result (log_text finished.now) }
{
    let times = &finished.times;
    let comma = Piece::Words(",");
    put_line(
        &[
            Piece::Number(u128::from(finished.queue)),
            comma,
            Piece::Number(u128::from(finished.number)),
            comma,
            Piece::Words(operation_name(finished.operation)),
            comma,
            Piece::Number(u128::from(finished.block)),
            comma,
            Piece::Number(u128::from(finished.blocks)),
            comma,
            Piece::Number(finished.channel as u128),
            comma,
            Piece::Number(u128::from(times.came)),
            comma,
            Piece::Number(u128::from(times.submitted)),
            comma,
            Piece::Number(u128::from(times.picked)),
            comma,
            Piece::Number(u128::from(times.started)),
            comma,
            Piece::Number(u128::from(times.done)),
        ],
        writer,
    )
}
