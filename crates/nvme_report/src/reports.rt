//! The report of a run.
ghost use Rattle.std.specs.Prelude.{ℕ, ◌≤◌, reverse};
ghost use Rattle.nvme_log.specs.Completions.{posts_of};
ghost use Rattle.nvme_output.specs.Written.{Writes};
ghost use Rattle.nvme_report.specs.Report.{report_text};

pub mod completions;
mod counts;
mod hints;
mod line;
mod lines;
pub mod rows;

use completions::put_completions;
use counts::{counts_of, put_submissions};
use lines::{put_collected, put_mode, put_picks};
use nvme_front::Settled;
use nvme_lane::Mode;
use nvme_output::{WriteFault, put};
use std::io::Write;

/// Writes the report of a run, whose log posts no place twice. It allocates nothing. `WriteFault` comes only where a
/// write failed or took no byte, and the writer then has a prefix of the report.
#[inline(never)]
pub fn report<W: Write>(settled: &Settled, mode: Mode, writer: &mut W) -> Result<(), WriteFault>
    requires posted_once { (r i : ℕ) → posts_of (reverse settled.now.log.items) r i ≤ 1 }
    ensures { Writes (W.contents writer.old) (W.contents writer.new) result (report_text mode settled.now) }
{
    let log = settled.log.as_slice();
    let sent = settled.sent.as_slice();
    let counts = counts_of(log);
    put_mode(mode, writer)?;
    put_picks(log, writer)?;
    put_submissions(&counts, sent, writer)?;
    put_collected(settled.collected.as_slice(), writer)?;
    put_completions(log, &counts, sent.len(), writer)?;
    put(b"end\n", writer)
}
