// Runs a simulation at each point.
ghost use Rattle.std.specs.Prelude.{◌≡◌, ◌<◌, IfOk, IfSome, None, max};
ghost use Rattle.std.specs.Result.{IsErrAnd};
ghost use Rattle.nvme_points.specs.Overridden.{TellsOverridden, overridden};
ghost use Rattle.toml.specs.View.{table_view};
ghost use Rattle.nvme_model_form.specs.Models.{Says};
ghost use Rattle.nvme_points.specs.Points.{count_of};
ghost use Rattle.nvme_points.specs.Rows.{AreRowsOver};
ghost use Rattle.nvme_points.specs.Runs.{AreOptionsAt, IsDocumentAt, IsListed, IsLoadAt, IsModelAt, IsRunOf, Stand, first_seed, is_list, replays};
ghost use Rattle.nvme_points.specs.Values.{chosen, lengths_of, values_at, values_by};

use crate::axis::{Axis, lengths_of};
use crate::fault::SweepFault;
use crate::overridden::overridden;
use crate::place::{load_among, put_all};
use crate::points::{choices_at, points_of};
use crate::rows::{Run, SweepRow, rows_of};
use nvme_arbiter::Class;
use nvme_load::Arrivals;
use nvme_model::Queue;
use nvme_model_file::{ModelFault, model_in_document, sources_in_document};
use nvme_simulate::{
    Listings, Load, LoadFault, Model, Overrides, Progress, ReplayError, SimulateFault, measure,
    overload_of,
};
use nvme_workload::{DocumentError, document};
use std::alloc::{AllocError, Global};
use std::io::Write;
use toml::Table;

// Whether the commands of a queue are those of a list.
fn is_list(queue: &Queue) -> bool
    ensures { result ≡ is_list queue.now.arrivals }
{
    matches!(queue.arrivals, Arrivals::Replay(_))
}

// Whether a queue replays a list.
fn replays(queues: &[Queue]) -> bool
    ensures { result ≡ replays queues.now }
{
    queues.iter().any(is_list)
}

/// The points of a sweep over the keys of a simulation file, and over its load.
#[derive(Drop)]
pub struct Sweep<'a> {
    /// The keys and their values; the last one is the fastest.
    pub axes: Vec<Axis<'a>>,
    /// How many seeds each point is run with.
    pub seeds: u64,
    /// What stands in place of the file's keys.
    pub overrides: Overrides,
    /// The requests of the files that the queues of the file replay. A sweep reads no other files.
    pub listings: Listings,
    /// The file's text.
    pub text: &'a str,
    /// The class whose commands a picture shows. `None`: with several keys those of all queues, else those of each class.
    pub drawn: Option<Class>,
}

/// At which points more commands come than the device can run.
#[derive(Drop)]
pub struct Overloads {
    /// At how many.
    pub points: usize,
    /// The values of the first of them, empty where there is none, or no key.
    pub first: String,
}

impl Overloads {
    // At none.
    fn new(alloc: Global) -> Overloads {
        Overloads {
            points: 0,
            first: String::new(alloc),
        }
    }

    // At one more, whose values are told.
    fn add(&mut self, values: String) {
        if self.points == 0 {
            self.first = values;
        }
        self.points = self.points.saturating_add(1);
    }
}

/// What is told of a point.
#[derive(Drop)]
pub struct Point<'a> {
    /// The value of each key, in the order of the keys.
    pub values: Vec<&'a str>,
    /// The first of its seeds.
    pub seed: u64,
    pub rows: Vec<SweepRow>,
}

impl<'a> Sweep<'a> {
    /// How many points it has.
    pub fn points(&self, alloc: Global) -> Result<usize, AllocError> {
        Ok(points_of(&lengths_of(alloc, &self.axes)?).unwrap_or(0))
    }

    /// How many runs each point has: one for each seed, and at least one.
    pub fn runs_of_each(&self) -> usize
        ensures { result ≡ max self.now.seeds 1 }
    {
        (self.seeds as usize).max(1)
    }

    /// The value of each key at a point, in the order of the keys.
    pub fn values_at(&self, alloc: Global, point: usize) -> Result<Vec<&'a str>, AllocError>
        ensures { point < count_of (lengths_of self.now.axes.items) → IfOk result (λ values. values.items ≡ values_at self.now.axes.items point) }
    {
        let Some(choices) = choices_at(alloc, &lengths_of(alloc, &self.axes)?, point)? else {
            return Ok(Vec::new(alloc));
        };
        self.values_by(alloc, &choices)
    }

    // The value of each key, where the choice of the last key comes first.
    fn values_by(&self, alloc: Global, choices: &[usize]) -> Result<Vec<&'a str>, AllocError>
        ensures { IfOk result (λ values. values.items ≡ values_by self.now.axes.items choices.now) }
    {
        (0..self.axes.len())
            .filter_map(|key| self.chosen(choices, key))
            .collect(alloc)
    }

    // The value of the key at an index, where the choice of the last key comes first.
    fn chosen(&self, choices: &[usize], key: usize) -> Option<&'a str>
        ensures { result ≡ chosen self.now.axes.items choices.now key }
    {
        let axis = self.axes.get(key)?;
        let choice = choices.get(self.axes.len() - 1 - key)?;
        axis.values.get(*choice).copied()
    }

    /// The name of a point: its keys and values, or the first of them.
    pub fn name_of(&self, alloc: Global, values: &[&str]) -> Result<String, AllocError> {
        let mut name = String::new(alloc);
        for (axis, value) in self.axes.iter().zip(values) {
            if !name.is_empty() {
                name.push_str(" ")?;
            }
            name.push_str(axis.key)?;
            name.push_str("=")?;
            name.push_str(value)?;
        }
        Ok(name)
    }

    // The document of the file with these values at the keys. The load is none of them.
    fn document_at(&self, alloc: Global, values: &[&'a str]) -> Result<Table, SweepFault<'a>>
        ensures { IfOk result (λ t. IsDocumentAt self.now.text.now self.now.axes.items values.now (table_view t)) }
    {
        match document(alloc, self.text) {
            Ok(file) => put_all(alloc, file, &self.axes, values),
            Err(DocumentError::NoMemory) => Err(SweepFault::NoMemory),
            Err(DocumentError::NotToml(_)) => Err(SweepFault::NotToml),
        }
    }

    // What is told of a fault of the file at a point.
    fn fault_at(&self, alloc: Global, values: &[&str], fault: ModelFault) -> SweepFault<'a> {
        match (fault, self.name_of(alloc, values)) {
            (ModelFault::NoMemory, _) | (_, Err(_)) => SweepFault::NoMemory,
            (fault, Ok(name)) => SweepFault::Point(name, fault),
        }
    }

    // The model of a document at a point with the lists of the files that its queues replay.
    fn with_lists(
        &self,
        alloc: Global,
        values: &[&str],
        document: &Table,
        model: Model,
    ) -> Result<Model, SweepFault<'a>>
        ensures { IfOk result (IsListed model) }
    {
        if !replays(&model.queues) {
            return Ok(model);
        }
        let sources = match sources_in_document(alloc, document) {
            Ok(sources) => sources,
            Err(fault) => return Err(self.fault_at(alloc, values, fault)),
        };
        match self.listings.put_into(alloc, &sources, model) {
            Ok(model) => Ok(model),
            Err(fault) if fault.error == ReplayError::NoMemory => Err(SweepFault::NoMemory),
            Err(fault) => {
                let name = self.name_of(alloc, values)?;
                let file = String::from_str(alloc, fault.file)?;
                Err(SweepFault::Replay(name, file, fault.error))
            }
        }
    }

    // What stands in place of what the file says at a point with these values.
    fn overrides_at(&self, values: &[&str]) -> Result<Overrides, LoadFault>
        ensures { IfOk result (AreOptionsAt self.now.axes.items values.now self.now.overrides) }
    {
        let load = match load_among(&self.axes, values) {
            Some(value) => Some(Load::new(value)?),
            None => self.overrides.load,
        };
        Ok(Overrides {
            load,
            ..self.overrides
        })
    }

    // A model with what stands in place of its own at a point with these values.
    fn replaced(&self, values: &[&str], model: Model) -> Result<Model, LoadFault>
        ensures { IfOk result (λ m. (chosen : Overrides) × AreOptionsAt self.now.axes.items values.now self.now.overrides chosen × Stand chosen model m) }
    {
        self.overrides_at(values)?.applied(model)
    }

    // The model that a document says at a point, with the lists of the files that its queues replay.
    fn listed_at(
        &self,
        alloc: Global,
        values: &[&str],
        document: &Table,
    ) -> Result<Model, SweepFault<'a>>
        ensures { IfOk result (λ m. (said : Model) × Says (table_view document.now) said × IsListed said m) }
    {
        match model_in_document(alloc, document) {
            Ok(model) => self.with_lists(alloc, values, document, model),
            Err(fault) => Err(self.fault_at(alloc, values, fault)),
        }
    }

    // The model of a point with these values: that of the file's document, with the lists of the files that its queues replay,
    // and with what stands in place of what the file says.
    fn model_at(&self, alloc: Global, values: &[&'a str]) -> Result<Model, SweepFault<'a>>
        ensures { IfOk result (IsModelAt self.now.text.now self.now.axes.items self.now.overrides values.now) }
    {
        let document = self.document_at(alloc, values)?;
        let model = self.listed_at(alloc, values, &document)?;
        match self.replaced(values, model) {
            Ok(model) => Ok(model),
            Err(fault) => Err(SweepFault::Load(self.name_of(alloc, values)?, fault)),
        }
    }

    // Whether a picture shows a queue of this model.
    fn is_drawn(&self, model: &Model) -> bool {
        let mut queues = model.queues.iter();
        match self.drawn {
            Some(class) => queues.any(|queue| queue.class == class),
            None => true,
        }
    }

    /// Reads the file at each point, and runs nothing. The error is the first fault, of which an option in place of a swept key
    /// comes before all others. The answer is at which points more commands come than the device can run.
    pub fn look(&self, alloc: Global) -> Result<Overloads, SweepFault<'a>>
        ensures taken { IfOk result (λ _. overridden self.now.overrides self.now.axes.items ≡ None) }
        ensures overridden { IfSome (overridden self.now.overrides self.now.axes.items) (λ p. IsErrAnd result (TellsOverridden p)) }
    {
        if let Some((option, key)) = overridden(&self.overrides, &self.axes) {
            return Err(SweepFault::Overridden(option, key));
        }
        let (mut overloads, mut is_drawn) = (Overloads::new(alloc), false);
        for point in 0..self.points(alloc)? {
            let values = self.values_at(alloc, point)?;
            let model = self.model_at(alloc, &values)?;
            is_drawn |= self.is_drawn(&model);
            if overload_of(&model).is_some() {
                overloads.add(self.name_of(alloc, &values)?);
            }
        }
        match self.drawn {
            Some(class) if !is_drawn => Err(SweepFault::NoClass(class)),
            _ => Ok(overloads),
        }
    }

    /// Runs a point with the seed of this number, from 0 on. A terminal is told how far the run is.
    pub fn run<P: Write + Drop>(
        &self,
        alloc: Global,
        point: usize,
        number: u64,
        terminal: Option<P>,
    ) -> Result<Run, SweepFault<'a>>
        ensures { point < count_of (lengths_of self.now.axes.items) → IfOk result
            (IsRunOf self.now.text.now self.now.axes.items self.now.overrides (values_at self.now.axes.items point) number) }
    {
        let values = self.values_at(alloc, point)?;
        let mut model = self.model_at(alloc, &values)?;
        let seed = model.seed.wrapping_add(number);
        model.seed = seed;
        let progress = Progress::new(terminal, model.end);
        match measure(alloc, model, progress) {
            Ok(measured) => Ok(Run { seed, measured }),
            Err(SimulateFault::NoMemory) => Err(SweepFault::NoMemory),
            Err(fault) => Err(SweepFault::Stopped(self.name_of(alloc, &values)?, fault)),
        }
    }

    /// What is told of a point by its runs, in the order of their seeds.
    pub fn told(&self, alloc: Global, point: usize, runs: &[Run]) -> Result<Point<'a>, AllocError>
        ensures values { point < count_of (lengths_of self.now.axes.items) → IfOk result (λ p. p.values.items ≡ values_at self.now.axes.items point) }
        ensures seed { IfOk result (λ p. p.seed ≡ first_seed runs.now) }
        ensures rows { IfOk result (λ p. AreRowsOver runs.now p.rows.items) }
    {
        Ok(Point {
            values: self.values_at(alloc, point)?,
            seed: runs.first().map_or(0, |run| run.seed),
            rows: rows_of(alloc, runs)?,
        })
    }
}
