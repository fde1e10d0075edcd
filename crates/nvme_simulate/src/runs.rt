// Runs a model to its end.
ghost use Rattle.std.specs.Prelude.{◌≡◌, IfOk, None, OnOk, Option};
ghost use Rattle.nvme_model.specs.declared.model.Model.{Model};
ghost use Rattle.nvme_output.specs.Written.{Writes};
ghost use Rattle.nvme_simulate.specs.Answers.{IsToldOf, answer_in, answer_with, bounded_in};
ghost use Rattle.nvme_simulate.specs.declared.runs.Form.TheVariants as form;
ghost use Rattle.nvme_waits.specs.declared.bounds.Bounds.{Bounds};
ghost use Rattle.nvme_simulate.specs.Played.{AddsIf, HasRun, IsMeasured, IsPlayed, Takes, done_behind, is_over};
ghost use Rattle.nvme_simulation.specs.Simulations.{IsSimulation};
ghost use Rattle.nvme_simulation.specs.Stepping.{GoesOn};

use crate::distributions::Subject;
use crate::fault::{SimulateFault, Stream};
use crate::lengths::is_too_long;
use crate::origin::Origin;
use crate::progress::Progress;
use crate::streams::Streams;
use crate::watch::Watch;
use nvme_model::{Finished, Model};
use nvme_numbers::{About, Answer, Member, Numbers, Row};
use nvme_output::WriteFault;
use nvme_simulation::{Happening, Simulation, SimulationFault};
use nvme_version::VERSION;
use nvme_waits::Bounds;
use std::alloc::Global;
use std::io::Write;

/// How an answer is written.
#[derive(Clone, Copy, Debug, PartialEq, Eq)]
pub enum Form {
    /// Tables for people.
    Text,
    /// One JSON object.
    Json,
    /// Comma-separated values.
    Csv,
}

impl Form {
    // Writes an answer so.
    fn put<W: Write>(self, answer: &Answer, output: &mut W) -> Result<(), WriteFault>
        ensures { Writes (W.contents output.old) (W.contents output.new) result (answer_in self answer.now) }
    {
        match self {
            Form::Text => answer.write_text(output),
            Form::Json => answer.write_json(output),
            Form::Csv => answer.write_csv(output),
        }
    }

    // Writes an answer and what is proved about waits: behind the tables, or as one more key of the object. Lines of
    // comma-separated values have no place for it.
    fn put_bounded<W: Write>(
        self,
        answer: &Answer,
        bounds: &Bounds,
        output: &mut W,
    ) -> Result<(), WriteFault>
        ensures { Writes (W.contents output.old) (W.contents output.new) result (bounded_in self answer.now bounds.now) }
    {
        match self {
            Form::Text => put_tables(answer, bounds, output),
            Form::Json => put_object(answer, bounds, output),
            Form::Csv => answer.write_csv(output),
        }
    }

    // Writes an answer, and what is proved about waits where that is wanted.
    fn put_with<W: Write>(
        self,
        answer: &Answer,
        bounds: &Option<Bounds>,
        output: &mut W,
    ) -> Result<(), WriteFault>
        ensures { Writes (W.contents output.old) (W.contents output.new) result (answer_with self answer.now bounds.now) }
    {
        match bounds {
            Some(bounds) => self.put_bounded(answer, bounds, output),
            None => self.put(answer, output),
        }
    }
}

// Writes tables, and behind them what is proved about waits.
fn put_tables<W: Write>(answer: &Answer, bounds: &Bounds, output: &mut W) -> Result<(), WriteFault>
    ensures { Writes (W.contents output.old) (W.contents output.new) result (bounded_in form.Text answer.now bounds.now) }
{
    answer.write_text(output)?;
    bounds.write_text(output)
}

// Writes an object, whose last key is what is proved about waits.
fn put_object<W: Write>(answer: &Answer, bounds: &Bounds, output: &mut W) -> Result<(), WriteFault>
    ensures { Writes (W.contents output.old) (W.contents output.new) result (bounded_in form.Json answer.now bounds.now) }
{
    answer.write_open_json(output)?;
    bounds.write_json(output)
}

// Numbers add a command that is done, where it counts.
fn count(numbers: &mut Numbers, command: &Finished, counts: bool) -> Result<(), SimulateFault>
    ensures { OnOk result (AddsIf counts command.now numbers.old numbers.new) }
{
    if !counts {
        return Ok(());
    }
    numbers.add(command)?;
    Ok(())
}

// What happened in a simulation just now is counted and written.
fn note<L: Write, T: Write, P: Write>(
    happening: &Happening,
    simulation: &Simulation,
    watch: &Watch,
    bounds: &mut Option<Bounds>,
    numbers: &mut Numbers,
    streams: &mut Streams<L, T, P>,
) -> Result<(), SimulateFault>
    ensures { OnOk result (Takes simulation.now happening.now numbers.old numbers.new) }
{
    match happening {
        Happening::Picked(picked) => {
            streams.pick(picked, watch.seen())?;
            if let Some(bounds) = bounds {
                bounds.pick(picked.at, &picked.pick)?;
            }
            Ok(())
        }
        Happening::Finished { command, counts } => {
            streams.finish(command)?;
            if let Some(bounds) = bounds {
                bounds.finish(command, *counts);
            }
            numbers.end(command);
            count(numbers, command, *counts)
        }
        Happening::Came { .. } => {
            numbers.come(simulation.occupancy().came, simulation.time());
            Ok(())
        }
        Happening::Settled
        | Happening::Paused { .. }
        | Happening::Resumed { .. }
        | Happening::Over => Ok(()),
    }
}

// What happens next is counted and written.
fn step<L: Write, T: Write, P: Write>(
    simulation: &mut Simulation,
    watch: &mut Watch,
    bounds: &mut Option<Bounds>,
    numbers: &mut Numbers,
    streams: &mut Streams<L, T, P>,
) -> Result<Happening, SimulateFault>
    requires stands { IsSimulation simulation.old }
    ensures stands { IsSimulation simulation.new }
    ensures steps { IfOk result (GoesOn simulation.old simulation.new) }
    ensures takes { IfOk result (λ h. Takes simulation.new h numbers.old numbers.new) }
{
    if streams.trace.is_some() && simulation.picks() {
        watch.look(simulation)?;
    }
    let happening = simulation.go_on()?;
    note(&happening, simulation, watch, bounds, numbers, streams)?;
    Ok(happening)
}

// When the last command was finished: that which just was, or one before it.
fn done_behind(happening: &Happening, before: u64) -> u64
    ensures { result ≡ done_behind happening.now before }
{
    match happening {
        Happening::Finished { command, .. } => command.times.done,
        _ => before,
    }
}

// Whether nothing happens any more.
fn is_over(happening: &Happening) -> bool
    ensures { result ≡ is_over happening.now }
{
    matches!(happening, Happening::Over)
}

// Runs a simulation until nothing happens any more. The answer is the time when the last command was finished, or 0: where
// none comes any more, time goes on a little.
fn run<L: Write, T: Write, P: Write>(
    simulation: &mut Simulation,
    watch: &mut Watch,
    bounds: &mut Option<Bounds>,
    numbers: &mut Numbers,
    streams: &mut Streams<L, T, P>,
) -> Result<u64, SimulateFault>
    requires stands { IsSimulation simulation.old }
    ensures { IfOk result (HasRun simulation.old simulation.new numbers.old numbers.new) }
{
    let mut end = 0;
    for _ in 0..u64::MAX {
        let happening = step(simulation, watch, bounds, numbers, streams)?;
        if is_over(&happening) {
            return Ok(end);
        }
        end = done_behind(&happening, end);
    }
    // (no run has so many steps)
    Err(SimulateFault::Simulation(SimulationFault::TooLong))
}

// Does the same. Then the line that tells how far it is is gone, whatever it came to.
fn run_told<L: Write, T: Write, P: Write>(
    simulation: &mut Simulation,
    watch: &mut Watch,
    bounds: &mut Option<Bounds>,
    numbers: &mut Numbers,
    streams: &mut Streams<L, T, P>,
) -> Result<u64, SimulateFault>
    requires stands { IsSimulation simulation.old }
    ensures { IfOk result (HasRun simulation.old simulation.new numbers.old numbers.new) }
{
    let ran = run(simulation, watch, bounds, numbers, streams);
    streams.progress.clear();
    ran
}

// A model that ran to its end.
#[derive(Drop)]
struct Played {
    simulation: Simulation,
    numbers: Numbers,
    // When the last command was finished.
    end: u64,
}

// Runs a model to its end. What happens is written to the streams meanwhile. A model whose commands would come for longer
// than the clock goes is refused before anything is written.
fn played_to_end<L: Write, T: Write, P: Write>(
    alloc: Global,
    model: Model,
    bounds: &mut Option<Bounds>,
    streams: &mut Streams<L, T, P>,
) -> Result<Played, SimulateFault>
    ensures { IfOk result (λ p. IsPlayed model p.simulation p.numbers p.end) }
{
    if is_too_long(&model) {
        return Err(SimulateFault::Simulation(SimulationFault::TooLong));
    }
    let mut numbers = Numbers::new(alloc, &model)?;
    let mut watch = Watch::new(alloc, &model);
    streams.begin(&model)?;
    let mut simulation = Simulation::new(alloc, model)?;
    let end = run_told(&mut simulation, &mut watch, bounds, &mut numbers, streams)?;
    streams.end()?;
    Ok(Played {
        simulation,
        numbers,
        end,
    })
}

// Writes the picture of a run.
fn put_chart<W: Write>(
    alloc: Global,
    subject: &Subject,
    numbers: &Numbers,
    origin: &Origin,
    chart: &mut W,
) -> Result<(), SimulateFault> {
    let picture = subject.picture(alloc, numbers, origin)?;
    match picture.write_svg(chart) {
        Ok(()) => Ok(()),
        Err(_) => Err(SimulateFault::Write(Stream::Chart)),
    }
}

// Runs a model to its end, and writes its picture, where one is wanted.
fn drawn<L: Write, T: Write, P: Write, C: Write>(
    alloc: Global,
    model: Model,
    bounds: &mut Option<Bounds>,
    origin: &Origin,
    streams: &mut Streams<L, T, P>,
    chart: &mut Option<C>,
) -> Result<Played, SimulateFault>
    ensures { IfOk result (λ p. IsPlayed model p.simulation p.numbers p.end) }
{
    let subject = Subject::of(alloc, &model)?;
    let played = played_to_end(alloc, model, bounds, streams)?;
    if let Some(chart) = chart {
        put_chart(alloc, &subject, &played.numbers, origin, chart)?;
    }
    Ok(played)
}

// What an answer tells of its origin.
fn about(origin: &Origin) -> About<'_> {
    About {
        version: VERSION,
        digest: origin.digest.as_str(),
        options: origin.options.as_str(),
    }
}

// What is told of a model that ran to its end, and what is proved about its waits where that is wanted.
fn put_played<W: Write>(
    played: Played,
    origin: &Origin,
    form: Form,
    bounds: &Option<Bounds>,
    output: &mut W,
) -> Result<(), SimulateFault>
    ensures { (model : Model) → IsPlayed model played.simulation played.numbers played.end → OnOk result (IsToldOf model form bounds.now (W.contents output.old) (W.contents output.new)) }
{
    let Played {
        simulation,
        numbers,
        end,
    } = played;
    let answer = numbers.answer(end, simulation.channels(), about(origin))?;
    match form.put_with(&answer, bounds, output) {
        Ok(()) => Ok(()),
        Err(_) => Err(SimulateFault::Write(Stream::Answer)),
    }
}

/// Runs a model to its end, and writes its answer, which tells its origin. What happens is written to the streams
/// meanwhile, and a picture of the latencies to `chart`, where there is one, before the answer. A model whose commands would
/// come for longer than the clock goes, by their mean times, is refused before anything is written.
pub fn simulate<L: Write, T: Write, P: Write, W: Write, C: Write>(
    alloc: Global,
    model: Model,
    origin: &Origin,
    form: Form,
    streams: &mut Streams<L, T, P>,
    output: &mut W,
    chart: &mut Option<C>,
) -> Result<(), SimulateFault>
    ensures { OnOk result (IsToldOf model form None (W.contents output.old) (W.contents output.new)) }
{
    let played = drawn(alloc, model, &mut None, origin, streams, chart)?;
    put_played(played, origin, form, &None, output)
}

/// Does the same, and tells beside the longest waits for arbitration what is proved about them, but in comma-separated values.
pub fn simulate_bounded<L: Write, T: Write, P: Write, W: Write, C: Write>(
    alloc: Global,
    model: Model,
    origin: &Origin,
    form: Form,
    streams: &mut Streams<L, T, P>,
    output: &mut W,
    chart: &mut Option<C>,
) -> Result<(), SimulateFault>
    ensures { OnOk result ((bounds : Option Bounds) × IsToldOf model form bounds (W.contents output.old) (W.contents output.new)) }
{
    let mut bounds = Some(Bounds::of(alloc, &model)?);
    let played = drawn(alloc, model, &mut bounds, origin, streams, chart)?;
    put_played(played, origin, form, &bounds, output)
}

/// The numbers of a run.
#[derive(Drop)]
pub struct Measured {
    /// Those of the queues, of the identifiers 1, 2 and so on.
    pub queues: Vec<Member>,
    /// Those of the classes that have a queue, from the urgent one down.
    pub classes: Vec<Member>,
    /// Those of all queues together.
    pub all: Row,
}

/// Runs a model to its end. The answer is its numbers.
pub fn measure<P: Write + Drop>(
    alloc: Global,
    model: Model,
    progress: Progress<P>,
) -> Result<Measured, SimulateFault>
    ensures { IfOk result (IsMeasured model) }
{
    let mut streams = Streams {
        log: None::<Vec<u8>>,
        trace: None::<Vec<u8>>,
        progress,
    };
    let played = played_to_end(alloc, model, &mut None, &mut streams)?;
    let Played { numbers, end, .. } = played;
    let about = About {
        version: VERSION,
        digest: "",
        options: "",
    };
    let answer = numbers.answer(end, &[], about)?;
    let Answer {
        queues,
        classes,
        all,
        ..
    } = answer;
    Ok(Measured {
        queues,
        classes,
        all,
    })
}
