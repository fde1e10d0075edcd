// The lines of the fetched places.
ghost use Rattle.std.specs.Prelude.{◌≡◌, ℕ, ◌<◌, ◌≤◌, [], ◌∷◌, length, reverse, IfSome, MatchOption};
ghost use Rattle.std.specs.List.{flat_map};
ghost use Rattle.nvme_log.specs.Completions.{posts_of};
ghost use Rattle.nvme_log.specs.Places.{fetched};
ghost use Rattle.nvme_log.specs.Rules.{upto};
ghost use Rattle.nvme_output.specs.Written.{Writes};
ghost use Rattle.nvme_report.specs.Report.{cmd_line, cmd_lines, completions_of};
ghost use Rattle.nvme_report.specs.inside.Tallies.{AreCounted, IsFirst};

use crate::reports::counts::{Counts, counts_at};
use crate::reports::hints::{Hints, PLACES};
use crate::reports::line::Line;
use nvme_entry::Cqe;
use nvme_front::Event;
use nvme_output::WriteFault;
use std::io::Write;

/// A completion and where in a log it was posted.
#[derive(Clone, Copy)]
pub struct Found {
    pub at: usize,
    pub cqe: Cqe,
}

/// The first completion that these events post for a place.
pub fn first_posted(events: &[Event], region: usize, index: usize) -> Option<Found>
    ensures cqe { MatchOption result (completions_of events.now region index ≡ []) (λ found. IsFirst found.cqe (completions_of events.now region index)) }
    ensures at { IfSome result (λ found. found.at < length events.now) }
{
    for (at, event) in events.iter().enumerate() {
        if let Event::Post {
            region: of,
            index: number,
            cqe,
            ..
        } = event
        {
            if usize::from(*of) == region && *number as usize == index {
                return Some(Found { at, cqe: *cqe });
            }
        }
    }
    None
}

/// The completion that a log posts for a place. The search begins at the event `from`, and goes on from the first event.
pub fn completion_of(log: &[Event], region: usize, index: usize, from: usize) -> Option<Found>
    requires from { from ≤ length log.now }
    requires once { length (completions_of log.now region index) ≤ 1 }
    ensures { MatchOption result (completions_of log.now region index ≡ []) (λ found. completions_of log.now region index ≡ found.cqe ∷ []) }
{
    if let Some(found) = first_posted(&log[from..], region, index) {
        return Some(Found {
            at: from + found.at,
            cqe: found.cqe,
        });
    }
    first_posted(&log[..from], region, index)
}

// Writes the line of a place with its completion.
fn put_completion<W: Write>(
    region: usize,
    index: usize,
    cqe: &Cqe,
    writer: &mut W,
) -> Result<(), WriteFault>
    ensures { Writes (W.contents writer.old) (W.contents writer.new) result (cmd_line region index cqe.now) }
{
    let mut line = Line::new();
    line.words("cmd ");
    line.number(region as u64);
    line.words(".");
    line.number(index as u64);
    line.words(" ");
    line.number(u64::from(cqe.status.sct()));
    line.words("/");
    line.byte(cqe.status.sc());
    line.words(" ");
    line.dword(cqe.dw0);
    line.write(writer)
}

// Writes the lines of a number of places of a region.
fn put_places<W: Write>(
    log: &[Event],
    region: usize,
    count: usize,
    hints: &Hints,
    writer: &mut W,
) -> Result<(), WriteFault>
    requires posted_once { (r i : ℕ) → posts_of (reverse log.now) r i ≤ 1 }
    requires count { count ≡ length (fetched (reverse log.now) region) }
    ensures { Writes (W.contents writer.old) (W.contents writer.new) result (cmd_lines log.now region) }
{
    let mut last = 0;
    for index in 0..count {
        let from = hints.posted_at(region, index).unwrap_or(last);
        if let Some(found) = completion_of(log, region, index, from.min(log.len())) {
            last = found.at;
            put_completion(region, index, &found.cqe, writer)?;
        }
    }
    Ok(())
}

/// Writes the lines of the fetched places of all regions. (Not inlined, so that its notes and the arrays of the counts
/// aren't on the stack at once.)
#[inline(never)]
pub fn put_completions<W: Write>(
    log: &[Event],
    counts: &[Counts],
    regions: usize,
    writer: &mut W,
) -> Result<(), WriteFault>
    requires posted_once { (r i : ℕ) → posts_of (reverse log.now) r i ≤ 1 }
    requires counted { AreCounted (reverse log.now) counts.now }
    ensures { Writes (W.contents writer.old) (W.contents writer.new) result (flat_map (cmd_lines log.now) (upto regions)) }
{
    let mut posted = [0u16; PLACES];
    let hints = Hints::of(log, counts, &mut posted);
    for region in 0..regions {
        let count = counts_at(counts, region).fetched;
        put_places(log, region, count, &hints, writer)?;
    }
    Ok(())
}
