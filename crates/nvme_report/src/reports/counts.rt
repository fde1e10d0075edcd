// Counts what a log says of the submission regions, and writes their lines.
ghost use Rattle.std.specs.Prelude.{◌≡◌, ℕ, ◌+◌, ◌∷◌, length, reverse};
ghost use Rattle.nvme_log.specs.Rules.{Past};
ghost use Rattle.nvme_output.specs.Written.{Writes};
ghost use Rattle.nvme_report.specs.inside.Tallies.{AreCounted, AreFew, AreMost, IsCounted, Tallies, sq_line_of};
ghost use Rattle.nvme_report.specs.Report.{numbered, sq_line};

use nvme_front::{Event, Sent};
use nvme_output::{Piece, WriteFault, put_line};
use std::io::Write;

// The number of submission queue identifiers.
const QIDS: usize = 65_536;

/// The number of submission regions that an event can name.
pub const REGIONS: usize = 256;

/// What a log says of a submission region.
#[derive(Clone, Copy)]
pub struct Counts {
    pub fetched: usize,
    pub picked: u128,
    pub aborted: usize,
}

// The counts of a region that a log doesn't name.
const NO_COUNTS: Counts = Counts {
    fetched: 0,
    picked: 0,
    aborted: 0,
};

// Adds what an event says to the counts of the regions. `opened` has for each identifier the region on which its queue
// is open.
fn add(counts: &mut [Counts], event: &Event, opened: &mut [Option<u8>])
    requires regions { length counts.old ≡ REGIONS }
    requires room { length opened.old ≡ QIDS }
    requires few { AreFew counts.old }
    ensures bounded { (n : ℕ) → AreMost n counts.old → AreMost (n + 1) counts.new }
    ensures tallies { (past : Past) → Tallies past counts.old opened.old → Tallies (event.now ∷ past) counts.new opened.new }
{
    match event {
        Event::Fetch { region, .. } => counts[usize::from(*region)].fetched += 1,
        Event::Pick { pick, .. } => {
            if let Some(region) = opened[usize::from(pick.qid)] {
                counts[usize::from(region)].picked += u128::from(pick.n);
            }
        }
        Event::Abort { region, .. } => counts[usize::from(*region)].aborted += 1,
        Event::OpenSq { qid, region, .. } => opened[usize::from(*qid)] = Some(*region),
        Event::Closing { qid, .. } => opened[usize::from(*qid)] = None,
        _ => {}
    }
}

/// What a log says of each submission region that an event can name. (Not inlined, as `put_completions`.)
#[inline(never)]
pub fn counts_of(log: &[Event]) -> [Counts; REGIONS]
    ensures { AreCounted (reverse log.now) result }
{
    let mut opened = [None; QIDS];
    opened[0] = Some(0);
    let mut counts = [NO_COUNTS; REGIONS];
    for event in log {
        add(&mut counts, event, &mut opened);
    }
    counts
}

/// The counts of a region.
pub fn counts_at(counts: &[Counts], region: usize) -> Counts
    ensures { (past : Past) → AreCounted past counts.now → IsCounted past region result }
{
    match counts.get(region) {
        Some(counts) => *counts,
        None => NO_COUNTS,
    }
}

// Writes the line of a submission region.
fn put_submission<W: Write>(
    region: usize,
    sent: &Sent,
    counts: Counts,
    writer: &mut W,
) -> Result<(), WriteFault>
    ensures { Writes (W.contents writer.old) (W.contents writer.new) result (sq_line_of region sent.now counts) }
{
    let pieces = [
        Piece::Words("sq "),
        Piece::Number(region as u128),
        Piece::Words(" script "),
        Piece::Number(sent.script.len() as u128),
        Piece::Words(" submitted "),
        Piece::Number(sent.count as u128),
        Piece::Words(" fetched "),
        Piece::Number(counts.fetched as u128),
        Piece::Words(" picked "),
        Piece::Number(counts.picked),
        Piece::Words(" aborted "),
        Piece::Number(counts.aborted as u128),
    ];
    put_line(&pieces, writer)
}

/// Writes the lines of the submission regions.
pub fn put_submissions<W: Write>(
    counts: &[Counts],
    sent: &[Sent],
    writer: &mut W,
) -> Result<(), WriteFault>
    ensures { (past : Past) → AreCounted past counts.now → Writes (W.contents writer.old) (W.contents writer.new) result (numbered (sq_line past) 0 sent.now) }
{
    for (region, of_region) in sent.iter().enumerate() {
        put_submission(region, of_region, counts_at(counts, region), writer)?;
    }
    Ok(())
}
