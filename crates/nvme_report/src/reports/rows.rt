// What a report tells, as values.
ghost use Rattle.std.specs.Prelude.{◌≡◌, ℕ, ◌≤◌, ◌++◌, filter_map, length, map, reverse, IfOk, OnOk};
ghost use Rattle.std.specs.List.{enumerate_from, flat_map};
ghost use Rattle.nvme_log.specs.Completions.{posts_of};
ghost use Rattle.nvme_log.specs.Places.{fetched};
ghost use Rattle.nvme_log.specs.Rules.{upto};
ghost use Rattle.nvme_report.specs.Report.{completions_of};
ghost use Rattle.nvme_report.specs.Rows.{AreRowsOf, completion_row, command_row, command_rows, pick_row, submission_row};
ghost use Rattle.nvme_report.specs.inside.Tallies.{AreCounted};

use crate::reports::completions::completion_of;
use crate::reports::counts::{Counts, counts_at, counts_of};
use crate::reports::hints::{Hints, PLACES};
use nvme_entry::{Cqe, Status};
use nvme_front::{Event, Sent, Settled};
use serde::{Described, Serialize, Serializer};
use std::alloc::{AllocError, Global};

/// A pick.
#[derive(Clone, Copy, Debug, PartialEq, Eq, Serialize)]
pub struct PickRow {
    /// The identifier of the submission queue.
    pub queue: u16,
    /// How many commands it took.
    pub n: u16,
    /// Whether it began a round of the weighted levels.
    pub fresh: bool,
}

/// What became of the commands of a submission region.
#[derive(Clone, Copy, Debug, PartialEq, Eq, Serialize)]
pub struct SubmissionRow {
    /// The number of the region.
    pub region: usize,
    /// How many commands its script has.
    pub script: usize,
    /// How many of them were submitted.
    pub submitted: usize,
    /// How many were fetched.
    pub fetched: usize,
    /// How many were picked.
    pub picked: u128,
    /// How many were aborted.
    pub aborted: usize,
}

/// How many completions were collected from a completion region.
#[derive(Clone, Copy, Debug, PartialEq, Eq, Serialize)]
pub struct CompletionRow {
    /// The number of the region.
    pub region: usize,
    /// How many completions its host collected.
    pub collected: usize,
}

/// How a fetched command was answered.
#[derive(Clone, Copy, Debug, PartialEq, Eq)]
pub struct CommandRow {
    /// The submission region that it was fetched from.
    pub region: usize,
    /// Its index there.
    pub index: usize,
    /// The status of its completion.
    pub status: Status,
    /// Dword 0 of its completion.
    pub dw0: u32,
}

impl Described for CommandRow {}

impl Serialize for CommandRow {
    fn serialize<S: Serializer>(&self, out: &mut S) -> Result<(), S::Error> {
        let (sct, sc, dw0) = (self.status.sct(), self.status.sc(), self.dw0);
        out.begin_map(Some(4))?;
        out.key("region")?;
        self.region.serialize(out)?;
        out.key("index")?;
        self.index.serialize(out)?;
        out.key("status")?;
        out.collect_str(&format_args!("{sct}/{sc:02x}"))?;
        out.key("dw0")?;
        out.collect_str(&format_args!("{dw0:08x}"))?;
        out.end_map()
    }
}

/// What the lines of a report tell, in their order.
#[derive(Debug, Drop, Serialize)]
pub struct Rows {
    /// The picks, the oldest first.
    pub picks: Vec<PickRow>,
    /// The submission regions.
    pub submissions: Vec<SubmissionRow>,
    /// The completion regions.
    pub completions: Vec<CompletionRow>,
    /// The fetched commands, by region and index.
    pub commands: Vec<CommandRow>,
}

// The row of an event, where it is a pick.
fn pick_row(event: &Event) -> Option<PickRow>
    ensures { result ≡ pick_row event.now }
{
    match event {
        Event::Pick { pick, .. } => Some(PickRow {
            queue: pick.qid,
            n: pick.n,
            fresh: pick.fresh,
        }),
        _ => None,
    }
}

// The rows of the picks of a log.
fn pick_rows(alloc: Global, log: &[Event]) -> Result<Vec<PickRow>, AllocError>
    ensures { IfOk result (λ rows. rows.items ≡ filter_map pick_row log.now) }
{
    log.iter().filter_map(pick_row).collect(alloc)
}

// The row of a submission region of a log with these counts.
fn submission_row(log: &[Event], counts: &[Counts], region: usize, sent: &Sent) -> SubmissionRow
    requires { AreCounted (reverse log.now) counts.now }
    ensures { result ≡ submission_row (reverse log.now) region sent.now }
{
    let counts = counts_at(counts, region);
    SubmissionRow {
        region,
        script: sent.script.len(),
        submitted: sent.count,
        fetched: counts.fetched,
        picked: counts.picked,
        aborted: counts.aborted,
    }
}

// The rows of the submission regions.
fn submission_rows(
    alloc: Global,
    log: &[Event],
    counts: &[Counts],
    sent: &[Sent],
) -> Result<Vec<SubmissionRow>, AllocError>
    requires { AreCounted (reverse log.now) counts.now }
    ensures { IfOk result (λ rows. rows.items ≡ map (λ (p : ℕ × Sent). submission_row (reverse log.now) p.0 p.1) (enumerate_from 0 sent.now)) }
{
    let numbered = sent.iter().enumerate();
    numbered
        .map(|(region, sent)| submission_row(log, counts, region, sent))
        .collect(alloc)
}

// The rows of the completion regions.
fn completion_rows(alloc: Global, collected: &[Vec<Cqe>]) -> Result<Vec<CompletionRow>, AllocError>
    ensures { IfOk result (λ rows. rows.items ≡ map (λ p. completion_row p.0 p.1) (enumerate_from 0 collected.now)) }
{
    let numbered = collected.iter().enumerate();
    numbered
        .map(|(region, cqes)| CompletionRow {
            region,
            collected: cqes.len(),
        })
        .collect(alloc)
}

// The row of a place with its completion.
fn command_row(region: usize, index: usize, cqe: &Cqe) -> CommandRow
    ensures { result ≡ command_row region index cqe.now }
{
    CommandRow {
        region,
        index,
        status: cqe.status,
        dw0: cqe.dw0,
    }
}

// Adds the row of a place, where a log posts a completion for it.
fn add_command(
    log: &[Event],
    region: usize,
    index: usize,
    hints: &Hints,
    rows: &mut Vec<CommandRow>,
) -> Result<(), AllocError>
    requires once { length (completions_of log.now region index) ≤ 1 }
    ensures { OnOk result (rows.new.items ≡ rows.old.items ++ map (command_row region index) (completions_of log.now region index)) }
{
    let from = hints.posted_at(region, index).unwrap_or(0);
    if let Some(found) = completion_of(log, region, index, from.min(log.len())) {
        let row = command_row(region, index, &found.cqe);
        rows.push(row)?;
    }
    Ok(())
}

// Adds the rows of a number of places of a region.
fn add_commands(
    log: &[Event],
    region: usize,
    count: usize,
    hints: &Hints,
    rows: &mut Vec<CommandRow>,
) -> Result<(), AllocError>
    requires posted_once { (r i : ℕ) → posts_of (reverse log.now) r i ≤ 1 }
    requires count { count ≡ length (fetched (reverse log.now) region) }
    ensures { OnOk result (rows.new.items ≡ rows.old.items ++ command_rows log.now region) }
{
    for index in 0..count {
        add_command(log, region, index, hints, rows)?;
    }
    Ok(())
}

// The rows of the fetched places of all regions. (Not inlined, as `put_completions`.)
#[inline(never)]
fn command_rows(
    alloc: Global,
    log: &[Event],
    counts: &[Counts],
    regions: usize,
) -> Result<Vec<CommandRow>, AllocError>
    requires posted_once { (r i : ℕ) → posts_of (reverse log.now) r i ≤ 1 }
    requires counted { AreCounted (reverse log.now) counts.now }
    ensures { IfOk result (λ rows. rows.items ≡ flat_map (command_rows log.now) (upto regions)) }
{
    let mut posted = [0u16; PLACES];
    let hints = Hints::of(log, counts, &mut posted);
    let mut rows = Vec::new(alloc);
    for region in 0..regions {
        let count = counts_at(counts, region).fetched;
        add_commands(log, region, count, &hints, &mut rows)?;
    }
    Ok(rows)
}

/// What the report of a run tells, whose log posts no place twice, as values.
#[inline(never)]
pub fn rows_of(alloc: Global, settled: &Settled) -> Result<Rows, AllocError>
    requires posted_once { (r i : ℕ) → posts_of (reverse settled.now.log.items) r i ≤ 1 }
    ensures { IfOk result (AreRowsOf settled.now) }
{
    let log = settled.log.as_slice();
    let sent = settled.sent.as_slice();
    let counts = counts_of(log);
    Ok(Rows {
        picks: pick_rows(alloc, log)?,
        submissions: submission_rows(alloc, log, &counts, sent)?,
        completions: completion_rows(alloc, settled.collected.as_slice())?,
        commands: command_rows(alloc, log, &counts, sent.len())?,
    })
}
