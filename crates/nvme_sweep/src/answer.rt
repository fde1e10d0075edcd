// Runs all points, and writes the answer.
use crate::chart::picture_of;
use crate::crew::{Batch, Outcome, outcomes_of};
use crate::lines::{Line, note_point};
use crate::object::{put_end, put_point as put_object, put_start};
use crate::sheet::{put_names, put_point as put_lines};
use crate::table::{put_rows, put_titles};
use crate::tally::Tally;
use nvme_points::{Point, Run, Sweep, SweepFault, add};
use nvme_simulate::{Form, Origin};
use std::alloc::Global;
use std::io::{self, Write};
use std::thread::Threads;

// How many runs for each thread are made before their points are written. (So their numbers take little memory, and threads
// seldom wait for the longest run.)
const RUNS_FOR_EACH: usize = 64;

/// How a sweep is run, and how its answer is written.
#[derive(Debug, Drop)]
pub struct Style {
    pub form: Form,
    /// Whether the line of names is written.
    pub has_head: bool,
    /// The file, and the options that hold at each point.
    pub origin: Origin,
    /// On how many threads it runs at most. The answer is the same on any number.
    pub jobs: usize,
}

// Writes what stands before the points.
fn put_head<W: Write>(sweep: &Sweep, style: &Style, writer: &mut W) -> io::Result<()> {
    match style.form {
        Form::Json => put_start(sweep, &style.origin, writer),
        Form::Text if style.has_head => put_titles(sweep, writer),
        Form::Csv if style.has_head => put_names(sweep, writer),
        _ => Ok(()),
    }
}

// Writes a point.
fn put_one<W: Write>(
    sweep: &Sweep,
    style: &Style,
    number: usize,
    point: &Point,
    writer: &mut W,
) -> io::Result<()> {
    match style.form {
        Form::Text => put_rows(sweep, point, writer),
        Form::Json => put_object(sweep, number, point, writer),
        Form::Csv => put_lines(sweep, point, style.origin.digest.as_str(), writer),
    }
}

// Writes the picture of lines.
fn put_chart<'a, W: Write>(
    alloc: Global,
    sweep: &Sweep<'a>,
    lines: &[Line],
    origin: &Origin,
    chart: &mut W,
) -> Result<(), SweepFault<'a>> {
    let picture = picture_of(alloc, sweep, lines, origin)?;
    match picture.write_svg(chart) {
        Ok(()) => Ok(()),
        Err(_) => Err(SweepFault::Write),
    }
}

// The runs of a point, whose outcomes stand from a place on. The error is the first fault. (A run is missing only behind one
// that failed.)
fn runs_from<'a>(
    alloc: Global,
    outcomes: &mut [Option<Outcome<'a>>],
    place: usize,
    count: usize,
) -> Result<Vec<Run>, SweepFault<'a>> {
    let mut runs = Vec::new(alloc);
    for index in place..place.saturating_add(count) {
        let Some(outcome) = outcomes.get_mut(index) else {
            return Err(SweepFault::NoMemory);
        };
        match outcome.take() {
            Some(Ok(run)) => add(&mut runs, run)?,
            Some(Err(fault)) => return Err(fault),
            None => return Err(SweepFault::NoMemory),
        }
    }
    Ok(runs)
}

// Writes a point by its runs. The lines of a picture are noted where one is wanted.
fn put<'a, W: Write>(
    alloc: Global,
    sweep: &Sweep<'a>,
    style: &Style,
    number: usize,
    runs: &[Run],
    output: &mut W,
    lines: &mut Option<Vec<Line>>,
) -> Result<(), SweepFault<'a>> {
    let point = sweep.told(alloc, number, runs)?;
    if put_one(sweep, style, number, &point, output).is_err() {
        return Err(SweepFault::Write);
    }
    if let Some(lines) = lines.as_mut() {
        note_point(alloc, sweep, lines, number, &point)?;
    }
    Ok(())
}

// Makes the runs of a point one after another. A terminal is told how far each is.
fn runs_of<'a, P: Write>(
    alloc: Global,
    sweep: &Sweep<'a>,
    point: usize,
    terminal: &mut Option<P>,
) -> Result<Vec<Run>, SweepFault<'a>> {
    let mut runs = Vec::new(alloc);
    for number in 0..sweep.seeds {
        let run = sweep.run(alloc, point, number, terminal.as_mut())?;
        add(&mut runs, run)?;
    }
    Ok(runs)
}

// Runs all points one after another, and writes each.
fn put_in_turn<'a, P: Write, W: Write>(
    alloc: Global,
    sweep: &Sweep<'a>,
    style: &Style,
    terminal: &mut Option<P>,
    output: &mut W,
    lines: &mut Option<Vec<Line>>,
) -> Result<(), SweepFault<'a>> {
    for number in 0..sweep.points(alloc)? {
        let runs = runs_of(alloc, sweep, number, terminal)?;
        put(alloc, sweep, style, number, &runs, output, lines)?;
    }
    Ok(())
}

// Writes each point of a batch by what its runs came to.
fn put_batch<'a, W: Write>(
    alloc: Global,
    sweep: &Sweep<'a>,
    style: &Style,
    batch: Batch,
    mut outcomes: Vec<Option<Outcome<'a>>>,
    output: &mut W,
    lines: &mut Option<Vec<Line>>,
) -> Result<(), SweepFault<'a>> {
    let count = sweep.runs_of_each();
    for index in 0..batch.points {
        let place = index.saturating_mul(count);
        let runs = runs_from(alloc, outcomes.as_mut_slice(), place, count)?;
        let number = batch.first.saturating_add(index);
        put(alloc, sweep, style, number, &runs, output, lines)?;
    }
    Ok(())
}

// Runs all points on threads, batch after batch, and writes each.
fn put_by_threads<'a, R: Threads + Sync, P: Write + Drop + Send, W: Write>(
    rt: &R,
    alloc: Global,
    sweep: &Sweep<'a>,
    style: &Style,
    tally: &Tally<P>,
    output: &mut W,
    lines: &mut Option<Vec<Line>>,
) -> Result<(), SweepFault<'a>> {
    let points = sweep.points(alloc)?;
    let runs = style.jobs.saturating_mul(RUNS_FOR_EACH);
    let most = (runs / sweep.runs_of_each()).max(1);
    for number in 0..points {
        let first = number.saturating_mul(most);
        if first >= points {
            break;
        }
        let batch = Batch {
            first,
            points: most.min(points.saturating_sub(first)),
        };
        let outcomes = outcomes_of(rt, alloc, sweep, batch, style.jobs, tally)?;
        put_batch(alloc, sweep, style, batch, outcomes, output, lines)?;
    }
    Ok(())
}

// Runs all points, and writes each. A terminal is told how far each run is, or of several threads how many runs are done.
fn put_all<'a, R: Threads + Sync, P: Write + Drop + Send, W: Write>(
    rt: &R,
    alloc: Global,
    sweep: &Sweep<'a>,
    style: &Style,
    mut terminal: Option<P>,
    output: &mut W,
    lines: &mut Option<Vec<Line>>,
) -> Result<(), SweepFault<'a>> {
    let runs = sweep.points(alloc)?.saturating_mul(sweep.runs_of_each());
    if style.jobs.min(runs) < 2 {
        return put_in_turn(alloc, sweep, style, &mut terminal, output, lines);
    }
    let tally = Tally::new(terminal, runs);
    let done = put_by_threads(rt, alloc, sweep, style, &tally, output, lines);
    tally.end();
    done
}

/// Runs all points, and writes their answer, which is the same on any number of threads, and then the picture of it to
/// `chart`, where there is one. A terminal is told how far it is.
pub fn put_answer<'a, R: Threads + Sync, P: Write + Drop + Send, W: Write, C: Write>(
    rt: &R,
    alloc: Global,
    sweep: &Sweep<'a>,
    style: &Style,
    terminal: Option<P>,
    output: &mut W,
    chart: &mut Option<C>,
) -> Result<(), SweepFault<'a>> {
    if put_head(sweep, style, output).is_err() {
        return Err(SweepFault::Write);
    }
    let mut lines = if chart.is_some() {
        Some(Vec::new(alloc))
    } else {
        None
    };
    put_all(rt, alloc, sweep, style, terminal, output, &mut lines)?;
    if style.form == Form::Json && put_end(output).is_err() {
        return Err(SweepFault::Write);
    }
    if let Some(chart) = chart
        && let Some(lines) = &lines
    {
        put_chart(alloc, sweep, lines, &style.origin, chart)?;
    }
    Ok(())
}
