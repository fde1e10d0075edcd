// `nvmearb simulate` with `--sweep` or `--seeds`: the points, and what is told of them.
ghost use Rattle.std.specs.Prelude.{◌≤◌, IfErr};

use crate::files::Answers;
use crate::kept::Kept;
use crate::simulating::form_of;
use crate::telling::{no_memory, unwritten};
use nvme_points::{Overloads, Sweep, SweepFault, axes_of};
use nvme_sim::{MAX_JOBS, SimulationWords};
use nvme_simulate::{Listings, Origin, Overrides};
use nvme_sweep::{CommandWords, Style, drawn_class, look_at_lines, put_answer, put_commands};
use std::io::Write;
use std::thread::{Threads, available_parallelism};

// The exit statuses of a fault of the input, of the command line and at run time.
const INPUT: u8 = 1;

const BAD_LINE: u8 = 2;

const RUN: u8 = 3;

/// A simulation file that has no fault, and the requests of the files that its queues replay.
#[derive(Drop)]
pub(crate) struct File<'a> {
    pub(crate) text: &'a [u8],
    pub(crate) origin: Origin,
    pub(crate) listings: Listings,
}

// Tells why there is no answer. The answer is the exit status.
fn tell_fault<E: Write>(fault: &SweepFault, errors: &mut E) -> u8
    ensures { result ≤ 4 }
{
    match fault {
        SweepFault::NoMemory => return no_memory(errors),
        SweepFault::Write => return unwritten(errors),
        _ => {}
    }
    let _ = writeln!(errors, "nvmearb: {fault}");
    match fault {
        SweepFault::Point(..) | SweepFault::Replay(..) | SweepFault::NotToml => INPUT,
        SweepFault::Stopped(..) => RUN,
        _ => BAD_LINE,
    }
}

// What each command of a point says.
fn command_words<'a>(line: &SimulationWords<'a>) -> CommandWords<'a> {
    CommandWords {
        file: line.file.unwrap_or("-"),
        seed: line.seed,
        commands: line.commands,
        time: line.time,
        warm_up: line.warm_up,
        load: line.load,
        seeds: line.seeds,
        jobs: line.jobs,
        format: line.format.name(),
        has_head: !line.no_head,
    }
}

// On how many threads a sweep runs: as many as there are processors for it, where the line doesn't say.
fn jobs_of<R: Threads>(rt: &R, asked: Option<u64>) -> usize {
    if let Some(jobs) = asked {
        return jobs as usize;
    }
    match available_parallelism(rt) {
        Ok(processors) => processors.get().min(usize::from(MAX_JOBS)),
        Err(_) => 1,
    }
}

// Runs the points of a sweep, or writes their commands.
fn ran<'a, R: AllocGlobal + Threads + Sync, P: Write + Drop + Send, W: Write>(
    rt: &R,
    line: &SimulationWords,
    sweep: &Sweep<'a>,
    origin: Origin,
    terminal: Option<P>,
    output: &mut W,
    chart: &mut Option<Kept>,
) -> Result<(), SweepFault<'a>> {
    if line.points {
        return put_commands(rt.alloc(), sweep, &command_words(line), output);
    }
    let style = Style {
        form: form_of(line.format),
        has_head: !line.no_head,
        origin,
        jobs: jobs_of(rt, line.jobs),
    };
    put_answer(rt, rt.alloc(), sweep, &style, terminal, output, chart)
}

// Notes at which points more commands come than the device can run.
fn note_overloads<E: Write>(overloads: &Overloads, errors: &mut E) {
    let (points, first) = (overloads.points, overloads.first.as_str());
    let _ = match points {
        0 => Ok(()),
        _ if first.is_empty() => writeln!(
            errors,
            "nvmearb: note: more commands come than the device can run: ever more wait"
        ),
        1 => writeln!(
            errors,
            "nvmearb: note: at {first} more commands come than the device can run: ever more wait"
        ),
        _ => writeln!(
            errors,
            "nvmearb: note: at {points} points, first {first}, more commands come than the device can run: ever more wait"
        ),
    };
}

// The sweep of a line over a file, at each of whose points the file has no fault, and where the device is overloaded.
fn sweep_of<'a, R: AllocGlobal>(
    rt: &R,
    line: &SimulationWords<'a>,
    overrides: Overrides,
    listings: Listings,
    text: &'a [u8],
) -> Result<(Sweep<'a>, Overloads), SweepFault<'a>> {
    let Ok(text) = std::str::from_utf8(text) else {
        return Err(SweepFault::NotToml);
    };
    let sweep = Sweep {
        axes: axes_of(rt.alloc(), &line.sweeps)?,
        seeds: line.seeds.unwrap_or(1),
        overrides,
        listings,
        text,
        drawn: drawn_class(line.class)?,
    };
    if line.chart.is_some() {
        look_at_lines(rt.alloc(), &sweep)?;
    }
    let overloads = sweep.look(rt.alloc())?;
    Ok((sweep, overloads))
}

/// Does what a line of `simulate` says of a sweep. A terminal is told how far it is. The answer is the exit status.
pub(crate) fn swept<R, P: Write + Drop + Send, W: Write, E: Write>(
    rt: &R,
    line: &SimulationWords,
    overrides: Overrides,
    file: File,
    terminal: Option<P>,
    answers: Answers<'_, W>,
    errors: &mut E,
) -> u8
where
    R: AllocGlobal + Threads + Sync,
    ensures { result ≤ 4 }
{
    let Answers { output, chart } = answers;
    let File {
        text,
        origin,
        listings,
    } = file;
    let (sweep, overloads) = match sweep_of(rt, line, overrides, listings, text) {
        Ok(found) => found,
        Err(fault) => return tell_fault(&fault, errors),
    };
    if !line.points {
        note_overloads(&overloads, errors);
    }
    match ran(rt, line, &sweep, origin, terminal, output, chart) {
        Ok(()) => 0,
        Err(fault) => tell_fault(&fault, errors),
    }
}
