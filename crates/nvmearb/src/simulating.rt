// `nvmearb simulate`: the files that it reads and writes, and what is told of them.
//
// Decided: `simulate` is done around `command`, which has one output, as checks of several files are; it writes up to
// four. So the command line is read here too, and `command` keeps its words and streams.
//
// Decided: the file of --chart is made after the answer, so that a failed picture loses no answer. Files that are
// replayed are opened once the simulation file has no fault.
ghost use Rattle.std.specs.Prelude.{◌≤◌, IfErr};

use crate::files::{Answers, is_svg, not_svg, put_away, read_file, read_input};
use crate::kept::Kept;
use crate::noted::{Noted, Notes};
use crate::sweeping::{File, swept};
use crate::telling::{failed, no_memory, unwritten};
use nvme_sim::{Format, SimulationWords};
use nvme_simulate::{
    Digest, FileFault, Form, Listings, Model, ModelFault, Origin, Overrides, Progress, ReplayError,
    SimulateFault, Source, Stream, Streams, Told, cut_of, model_in, overload_of, simulate,
    simulate_bounded, sources_in,
};
use std::fs;
use std::io::{self, BufWriter, Write};
use std::rt::Files;
use std::thread::Threads;

// How many bytes of a log or a trace are written at a time.
const ROOM: usize = 65_536;

// The most bytes of a file that is replayed: 1 GiB.
const MAX_REPLAY: u64 = 1_073_741_824;

// The exit statuses of a fault of the input, of the command line and at run time.
const INPUT: u8 = 1;

const BAD_LINE: u8 = 2;

const RUN: u8 = 3;

// What a line says of a file.
#[derive(Clone, Copy)]
struct Named<'a> {
    option: &'static str,
    // What the file is.
    role: &'static str,
    // None where the line names none.
    name: Option<&'a str>,
}

impl<'a> Named<'a> {
    fn new(option: &'static str, role: &'static str, name: Option<&'a str>) -> Named<'a> {
        Named { option, role, name }
    }

    // Whether the other one has the same name.
    fn is_as(&self, other: &Named) -> bool {
        self.name.is_some() && self.name == other.name
    }
}

// The first two files of one name.
fn clash_of<'a>(line: &SimulationWords<'a>) -> Option<(Named<'a>, Named<'a>)> {
    let file = Named::new("FILE", "the file that is read", line.file);
    let log = Named::new("--log", "the file of --log", line.log);
    let trace = Named::new("--trace", "the file of --trace", line.trace);
    let chart = Named::new("--chart", "the file of --chart", line.chart);
    let output = Named::new("--output", "the file of --output", line.output);
    let pairs = [
        (log, file),
        (trace, file),
        (chart, file),
        (output, file),
        (trace, log),
        (chart, log),
        (output, log),
        (chart, trace),
        (output, trace),
        (output, chart),
    ];
    pairs.into_iter().find(|(one, other)| one.is_as(other))
}

// What stands in place of the file's keys. Options that don't go together are told, and the error is the exit status.
fn overrides_of<E: Write>(line: &SimulationWords, errors: &mut E) -> Result<Overrides, u8>
    ensures { IfErr result (λ status. status ≤ 4) }
{
    if let Some((one, other)) = clash_of(line) {
        let (option, name, role) = (one.option, one.name.unwrap_or(""), other.role);
        let _ = writeln!(errors, "nvmearb: {option} {name:?} is {role}");
        return Err(BAD_LINE);
    }
    let unfit = line.unfit_for_sweep().or(line.unfit_for_bounds());
    if let Some(fault) = unfit {
        let _ = writeln!(errors, "nvmearb: {fault}");
        return Err(BAD_LINE);
    }
    let dash = Some("-");
    if line.log == dash || line.trace == dash || line.chart == dash {
        let _ = writeln!(
            errors,
            "nvmearb: --log, --trace and --chart want the name of a file, not -"
        );
        return Err(BAD_LINE);
    }
    if let Some(name) = line.chart
        && !is_svg(name)
    {
        return Err(not_svg("--chart", name, errors));
    }
    match Overrides::new(line.seed, line.commands, line.time, line.warm_up, line.load) {
        Ok(overrides) => Ok(overrides),
        Err(fault) => {
            let _ = writeln!(errors, "nvmearb: {fault}");
            Err(BAD_LINE)
        }
    }
}

// Tells a fault of a simulation file by its place there. The answer is the exit status.
fn tell_model<E: Write>(file: Option<&str>, fault: &ModelFault, errors: &mut E) -> u8
    ensures { result ≤ 4 }
{
    if let ModelFault::NoMemory = fault {
        return no_memory(errors);
    }
    let told = Told {
        file: file.unwrap_or("-"),
        fault,
    };
    let _ = writeln!(errors, "nvmearb: {told}");
    INPUT
}

// Tells a fault of a file that is replayed by its line. The answer is the exit status.
fn tell_replay<E: Write>(fault: &FileFault, errors: &mut E) -> u8
    ensures { result ≤ 4 }
{
    if fault.error == ReplayError::NoMemory {
        return no_memory(errors);
    }
    let _ = writeln!(errors, "nvmearb: {fault}");
    INPUT
}

// The requests of the files that queues replay. A fault is told, and the error is the exit status.
fn listings_of<R: AllocGlobal + Files, E: Write>(
    rt: &R,
    sources: &[Source],
    errors: &mut E,
) -> Result<Listings, u8>
    ensures { IfErr result (λ status. status ≤ 4) }
{
    let mut listings = Listings::new(rt.alloc());
    for source in sources {
        let file = source.file.as_str();
        if listings.has(source) {
            continue;
        }
        let bytes = read_file(rt, file, MAX_REPLAY, errors)?;
        if let Err(error) = listings.read(rt.alloc(), source, bytes.as_slice()) {
            return Err(tell_replay(&FileFault { file, error }, errors));
        }
    }
    Ok(listings)
}

/// The model that a simulation file says, with the lists of the files that its queues replay, and the requests of these. A
/// fault is told by its place in its file, and the error is the exit status.
pub(crate) fn model_of<R: AllocGlobal + Files, E: Write>(
    rt: &R,
    file: Option<&str>,
    text: &[u8],
    errors: &mut E,
) -> Result<(Model, Listings), u8>
    ensures { IfErr result (λ status. status ≤ 4) }
{
    let model = match model_in(rt.alloc(), text) {
        Ok(model) => model,
        Err(fault) => return Err(tell_model(file, &fault, errors)),
    };
    let sources = match sources_in(rt.alloc(), text) {
        Ok(sources) => sources,
        Err(fault) => return Err(tell_model(file, &fault, errors)),
    };
    let listings = listings_of(rt, sources.as_slice(), errors)?;
    match listings.put_into(rt.alloc(), sources.as_slice(), model) {
        Ok(model) => Ok((model, listings)),
        Err(fault) => Err(tell_replay(&fault, errors)),
    }
}

// A file that is written while the simulation runs, if one is wanted. A file of this name is replaced.
fn created<'a, R: AllocGlobal + Files>(
    rt: &R,
    name: Option<&str>,
    notes: &'a Notes,
) -> io::Result<Option<BufWriter<Noted<'a, R::File>>>> {
    let Some(name) = name else {
        return Ok(None);
    };
    let file = Noted::new(fs::create(rt, name)?, notes);
    Ok(Some(BufWriter::with_capacity(rt.alloc(), ROOM, file)?))
}

// Tells that a write to a file failed. The answer is the exit status.
fn failed_write<E: Write>(name: Option<&str>, notes: &Notes, errors: &mut E) -> u8
    ensures { result ≤ 4 }
{
    match (name, notes.write()) {
        (Some(name), Some(error)) => failed("write", name, &error, errors),
        _ => unwritten(errors),
    }
}

// Tells why there is no answer. The answer is the exit status.
fn tell_fault<E: Write>(
    line: &SimulationWords,
    fault: SimulateFault,
    log: &Notes,
    trace: &Notes,
    errors: &mut E,
) -> u8
    ensures { result ≤ 4 }
{
    match fault {
        SimulateFault::NoMemory => no_memory(errors),
        SimulateFault::Write(Stream::Answer | Stream::Chart) => unwritten(errors),
        SimulateFault::Write(Stream::Log) => failed_write(line.log, log, errors),
        SimulateFault::Write(Stream::Trace) => failed_write(line.trace, trace, errors),
        SimulateFault::Simulation(fault) => {
            let _ = writeln!(errors, "nvmearb: simulation: {fault}");
            RUN
        }
    }
}

/// How the answer is written.
pub(crate) fn form_of(format: Format) -> Form {
    match format {
        Format::Text => Form::Text,
        Format::Json => Form::Json,
        Format::Csv => Form::Csv,
    }
}

// Runs a model, and writes its answer, and a picture where one is wanted. The answer is the exit status.
fn ran<R: AllocGlobal + Files, P: Write + Drop, W: Write, E: Write>(
    rt: &R,
    line: &SimulationWords,
    model: Model,
    origin: &Origin,
    terminal: Option<P>,
    answers: Answers<'_, W>,
    errors: &mut E,
) -> u8
    ensures { result ≤ 4 }
{
    let Answers { output, chart } = answers;
    let (log_notes, trace_notes) = (Notes::new(), Notes::new());
    let log = match created(rt, line.log, &log_notes) {
        Ok(log) => log,
        Err(error) => return failed("write", line.log.unwrap_or(""), &error, errors),
    };
    let trace = match created(rt, line.trace, &trace_notes) {
        Ok(trace) => trace,
        Err(error) => return failed("write", line.trace.unwrap_or(""), &error, errors),
    };
    let progress = Progress::new(terminal, model.end);
    let mut streams = Streams {
        log,
        trace,
        progress,
    };
    let (alloc, form) = (rt.alloc(), form_of(line.format));
    let run = if line.bounds {
        simulate_bounded(alloc, model, origin, form, &mut streams, output, chart)
    } else {
        simulate(alloc, model, origin, form, &mut streams, output, chart)
    };
    match run {
        Ok(()) => 0,
        Err(fault) => tell_fault(line, fault, &log_notes, &trace_notes, errors),
    }
}

// What is simulated.
#[derive(Drop)]
enum Task<'a> {
    Run(Model, Origin),
    Sweep(Overrides, File<'a>),
}

// Notes that no command is left for the answer, where no more come than the warm-up takes.
fn note_warm_up<E: Write>(overrides: &Overrides, model: &Model, errors: &mut E) {
    let commands = overrides.end.unwrap_or(model.end).commands;
    let warm_up = overrides.warm_up.unwrap_or(model.warm_up);
    if commands <= warm_up {
        let _ = writeln!(
            errors,
            "nvmearb: note: the warm-up of {warm_up} commands leaves none of {commands} for the answer"
        );
    }
}

// Notes that a replay ends before its files do.
fn note_cut<E: Write>(overrides: &Overrides, model: &Model, errors: &mut E) {
    if let Some(cut) = cut_of(model, overrides.end) {
        let _ = writeln!(errors, "nvmearb: note: {cut}");
    }
}

// Notes that more commands come than the device can run.
fn note_overload<E: Write>(model: &Model, errors: &mut E) {
    if let Some(overload) = overload_of(model) {
        let _ = writeln!(errors, "nvmearb: note: {overload}");
    }
}

// What a line asks for, with what stands in place of what its file says. A load to which the model can't be scaled is told,
// and the error is the exit status.
fn task_of<'a, E: Write>(
    line: &SimulationWords,
    overrides: Overrides,
    model: Model,
    file: File<'a>,
    errors: &mut E,
) -> Result<Task<'a>, u8>
    ensures { IfErr result (λ status. status ≤ 4) }
{
    note_warm_up(&overrides, &model, errors);
    note_cut(&overrides, &model, errors);
    if line.is_sweep() {
        return Ok(Task::Sweep(overrides, file));
    }
    match overrides.applied(model) {
        Ok(model) => {
            note_overload(&model, errors);
            Ok(Task::Run(model, file.origin))
        }
        Err(fault) => {
            let _ = writeln!(errors, "nvmearb: --load: {fault}");
            Err(BAD_LINE)
        }
    }
}

// Simulates what is asked for, and writes the answer and the picture. The answer is the exit status.
fn done<R, P: Write + Drop + Send, W: Write, E: Write>(
    rt: &R,
    line: &SimulationWords,
    task: Task,
    terminal: Option<P>,
    answers: Answers<'_, W>,
    errors: &mut E,
) -> u8
where
    R: AllocGlobal + Files + Threads + Sync,
    ensures { result ≤ 4 }
{
    match task {
        Task::Run(model, origin) => ran(rt, line, model, &origin, terminal, answers, errors),
        Task::Sweep(overrides, file) => swept(rt, line, overrides, file, terminal, answers, errors),
    }
}

// Writes a picture to its file. The answer is the exit status.
fn put_chart<R: Files, E: Write>(rt: &R, line: &SimulationWords, chart: &Kept, errors: &mut E) -> u8
    ensures { result ≤ 4 }
{
    match line.chart {
        Some(name) => put_away(rt, name, chart, errors),
        None => 0,
    }
}

// Writes an answer to a file, and then a picture to its own where one was drawn, so that a picture that can't be written loses
// no answer. The answer is the exit status.
fn put_both<R: Files, E: Write>(
    rt: &R,
    line: &SimulationWords,
    name: &str,
    answer: &Kept,
    chart: &Option<Kept>,
    errors: &mut E,
) -> u8
    ensures { result ≤ 4 }
{
    let Some(chart) = chart else {
        return put_away(rt, name, answer, errors);
    };
    if chart.answer().is_none() {
        return no_memory(errors);
    }
    match put_away(rt, name, answer, errors) {
        0 => put_chart(rt, line, chart, errors),
        status => status,
    }
}

// The same, where the answer went to the standard output and may rest in its buffer.
fn put_behind<R: Files, W: Write, E: Write>(
    rt: &R,
    line: &SimulationWords,
    output: &mut W,
    chart: &Option<Kept>,
    errors: &mut E,
) -> u8
    ensures { result ≤ 4 }
{
    let Some(chart) = chart else {
        return 0;
    };
    if chart.answer().is_none() {
        return no_memory(errors);
    }
    match output.flush() {
        Ok(()) => put_chart(rt, line, chart, errors),
        Err(_) => unwritten(errors),
    }
}

// Simulates what is asked for, and writes the answer to where it belongs and then the picture. The answer is the exit status.
// Where the simulation fails, no file is touched, and the picture's isn't either where the answer can't be written.
fn answered<R, P: Write + Drop + Send, W: Write, E: Write>(
    rt: &R,
    line: &SimulationWords,
    task: Task,
    terminal: Option<P>,
    output: &mut W,
    errors: &mut E,
) -> u8
where
    R: AllocGlobal + Files + Threads + Sync,
    ensures { result ≤ 4 }
{
    let alloc = rt.alloc();
    let mut chart = if line.chart.is_some() {
        Some(Kept::new(alloc))
    } else {
        None
    };
    let Some(name) = line.output else {
        let answers = Answers {
            output: &mut *output,
            chart: &mut chart,
        };
        return match done(rt, line, task, terminal, answers, errors) {
            0 => put_behind(rt, line, output, &chart, errors),
            status => status,
        };
    };
    let mut kept = Kept::new(alloc);
    let answers = Answers {
        output: &mut kept,
        chart: &mut chart,
    };
    match done(rt, line, task, terminal, answers, errors) {
        0 => put_both(rt, line, name, &kept, &chart, errors),
        status => status,
    }
}

/// Does what a line of `simulate` says. A terminal is told how far it is. The answer is the exit status.
#[inline(never)]
pub(crate) fn simulated<R, P: Write + Drop + Send, W: Write, E: Write>(
    rt: &R,
    line: &SimulationWords,
    terminal: Option<P>,
    notes: &Notes,
    output: &mut W,
    errors: &mut E,
) -> u8
where
    R: AllocGlobal + Files + Input + Threads + Sync,
    ensures { result ≤ 4 }
{
    let overrides = match overrides_of(line, errors) {
        Ok(overrides) => overrides,
        Err(status) => return status,
    };
    let text = match read_input(rt, line.file, notes, errors) {
        Ok(text) => text,
        Err(status) => return status,
    };
    let (model, listings) = match model_of(rt, line.file, text.as_slice(), errors) {
        Ok(read) => read,
        Err(status) => return status,
    };
    let Ok(options) = overrides.changes(rt.alloc(), &model) else {
        return no_memory(errors);
    };
    let file = File {
        text: text.as_slice(),
        origin: Origin {
            digest: Digest::of(text.as_slice()),
            options,
        },
        listings,
    };
    match task_of(line, overrides, model, file, errors) {
        Ok(task) => answered(rt, line, task, terminal, output, errors),
        Err(status) => status,
    }
}
