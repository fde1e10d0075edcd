// What a command line says in place of a simulation file.
ghost use Rattle.std.specs.Prelude.{◌≡◌, ◌⊎◌, ◌↔◌, ℕ, None, Some, IfErr, IfOk, IfSome, IsErrOf, IsOk, OnSome, map, option_map, unwrap_or};
ghost use Rattle.nvme_model_form.specs.Views.{asking_of, running_of};
ghost use Rattle.nvme_simulate.specs.Loads.{offered_in};
ghost use Rattle.nvme_simulate.specs.Chosen.{IsEndOf, IsLoadOf, TellsOverrideFault};
ghost use Rattle.nvme_simulate.specs.Scaling.{AreScaled, IsLongGapOf, fine_parts, offered_of, target_of};

use crate::scaling::scaled;
use crate::target::{Load, LoadFault};
use nvme_clock::{DurationFault, duration_in};
use nvme_model::{End, EndFault, Model};
use std::alloc::{AllocError, Global};
use thiserror::Error;

/// Why options are refused.
#[derive(Clone, Copy, Debug, PartialEq, Eq, Error)]
pub enum OverrideFault {
    /// No simulation has so many commands.
    #[error("--commands: {0}")]
    Commands(EndFault),
    /// The end is no duration.
    #[error("--time: {0}")]
    Time(DurationFault),
    /// Both say when a simulation ends.
    #[error("--commands and --time don't go together")]
    TwoEnds,
    /// It is no load.
    #[error("--load: {0}")]
    Load(LoadFault),
}

/// What stands in place of what a simulation file says.
#[derive(Clone, Copy, Debug, PartialEq, Eq)]
pub struct Overrides {
    /// The seed of all that is drawn.
    pub seed: Option<u64>,
    /// When no more commands come.
    pub end: Option<End>,
    /// How many of the commands that came first no number counts.
    pub warm_up: Option<u64>,
    /// What part of what the device can do the open queues ask for.
    pub load: Option<Load>,
}

// The end that options say: after so many commands, or at a time.
fn end_of(commands: Option<u64>, time: Option<&str>) -> Result<Option<End>, OverrideFault>
    ensures ok { IfOk result (IsEndOf commands (option_map (λ t. t.now) time.entry)) }
    ensures err { IfErr result (TellsOverrideFault commands (option_map (λ t. t.now) time.entry) None) }
{
    match (commands, time) {
        (None, None) => Ok(None),
        (Some(commands), None) => match End::after(commands) {
            Ok(end) => Ok(Some(end)),
            Err(fault) => Err(OverrideFault::Commands(fault)),
        },
        (None, Some(time)) => match duration_in(time) {
            Ok(time) => Ok(Some(End::at(time))),
            Err(fault) => Err(OverrideFault::Time(fault)),
        },
        (Some(_), Some(_)) => Err(OverrideFault::TwoEnds),
    }
}

// The load that an option says.
fn load_of(load: Option<&str>) -> Result<Option<Load>, OverrideFault>
    ensures ok { IfOk result (IsLoadOf (option_map (λ t. t.now) load.entry)) }
    ensures err { IfErr result (TellsOverrideFault None None (option_map (λ t. t.now) load.entry)) }
{
    let Some(text) = load else {
        return Ok(None);
    };
    match Load::new(text) {
        Ok(load) => Ok(Some(load)),
        Err(fault) => Err(OverrideFault::Load(fault)),
    }
}

// Adds an option to a text of options, with a blank between them.
fn add_option(options: &mut String, option: String) -> Result<(), AllocError> {
    if !options.is_empty() {
        options.push_str(" ")?;
    }
    options.push_str(option.as_str())
}

// The end that stands in place of a model's, as an option.
fn end_option(alloc: Global, end: &End) -> Result<String, AllocError> {
    match end.time {
        Some(time) => format!(in alloc; "--time {time}ps"),
        None => {
            let commands = end.commands;
            format!(in alloc; "--commands {commands}")
        }
    }
}

impl Overrides {
    /// The options that change what a model's file says, as they may be written. A load always does.
    pub fn changes(&self, alloc: Global, model: &Model) -> Result<String, AllocError> {
        let mut options = String::new(alloc);
        if let Some(seed) = self.seed.filter(|seed| *seed != model.seed) {
            add_option(&mut options, format!(in alloc; "--seed {seed}")?)?;
        }
        if let Some(end) = self.end.filter(|end| *end != model.end) {
            add_option(&mut options, end_option(alloc, &end)?)?;
        }
        if let Some(warm_up) = self.warm_up.filter(|it| *it != model.warm_up) {
            add_option(&mut options, format!(in alloc; "--warm-up {warm_up}")?)?;
        }
        if let Some(load) = self.load {
            add_option(&mut options, format!(in alloc; "--load {load}")?)?;
        }
        Ok(options)
    }

    /// What these options say, of which each may be left out. The time is a duration, as `30s`, and the load a decimal, as
    /// `0.7`.
    pub fn new(
        seed: Option<u64>,
        commands: Option<u64>,
        time: Option<&str>,
        warm_up: Option<u64>,
        load: Option<&str>,
    ) -> Result<Overrides, OverrideFault>
        ensures seed { IfOk result (λ o. o.seed ≡ seed) }
        ensures end { IfOk result (λ o. IsEndOf commands (option_map (λ t. t.now) time.entry) o.end) }
        ensures warm_up { IfOk result (λ o. o.warm_up ≡ warm_up) }
        ensures load { IfOk result (λ o. IsLoadOf (option_map (λ t. t.now) load.entry) o.load) }
        ensures err { IfErr result (TellsOverrideFault commands (option_map (λ t. t.now) time.entry) (option_map (λ t. t.now) load.entry)) }
    {
        let end = end_of(commands, time)?;
        let load = load_of(load)?;
        Ok(Overrides {
            seed,
            end,
            warm_up,
            load,
        })
    }

    // The model with these in place of its own, but for the load.
    fn replaced(&self, mut model: Model) -> Model
        ensures seed { result.seed ≡ unwrap_or self.now.seed model.seed }
        ensures end { result.end ≡ unwrap_or self.now.end model.end }
        ensures warm_up { result.warm_up ≡ unwrap_or self.now.warm_up model.warm_up }
        ensures mechanism { result.mechanism ≡ model.mechanism }
        ensures settings { result.settings ≡ model.settings }
        ensures device { result.device ≡ model.device }
        ensures queues { result.queues ≡ model.queues }
    {
        if let Some(seed) = self.seed {
            model.seed = seed;
        }
        if let Some(end) = self.end {
            model.end = end;
        }
        if let Some(warm_up) = self.warm_up {
            model.warm_up = warm_up;
        }
        model
    }

    /// The model with these in place of its own. Where they say a load, the gaps of its open queues are scaled to it
    /// (`scaled`), and refused where that can't be: where no queue is open, where the commands of the open queues take no
    /// time, or where the gaps of the queue of the number that is told would be too long. Without a load nothing is refused.
    pub fn applied(&self, model: Model) -> Result<Model, LoadFault>
        ensures seed { IfOk result (λ m. m.seed ≡ unwrap_or self.now.seed model.seed) }
        ensures end { IfOk result (λ m. m.end ≡ unwrap_or self.now.end model.end) }
        ensures warm_up { IfOk result (λ m. m.warm_up ≡ unwrap_or self.now.warm_up model.warm_up) }
        ensures mechanism { IfOk result (λ m. m.mechanism ≡ model.mechanism) }
        ensures settings { IfOk result (λ m. m.settings ≡ model.settings) }
        ensures device { IfOk result (λ m. m.device ≡ model.device) }
        ensures queues { self.now.load ≡ None → IfOk result (λ m. m.queues ≡ model.queues) }
        ensures scaling { IfOk result (λ m. IfSome self.now.load (λ load. AreScaled load.millionths model.device model.queues.items m.queues.items)) }
        ensures no_open_queue { OnSome self.now.load
            (IsErrOf result LoadFault.NoOpenQueue ↔ (offered_in fine_parts (map asking_of model.queues.items) ≡ None)) }
        ensures no_service { OnSome self.now.load
            (IsErrOf result LoadFault.NoService ↔ (offered_in fine_parts (map asking_of model.queues.items) ≡ Some 0)) }
        ensures taken { self.now.load ≡ None → IsOk result }
        ensures refused { IfErr result (λ e. (e ≡ LoadFault.NoOpenQueue) ⊎ ((e ≡ LoadFault.NoService) ⊎ ((number : ℕ) × (e ≡ LoadFault.LongGap number)))) }
        ensures long_gap { (number : ℕ) → IsErrOf result (LoadFault.LongGap number) → IfSome self.now.load (λ load.
            IsLongGapOf (offered_of model.queues.items) (target_of load.millionths (running_of model.device)) number (map asking_of model.queues.items)) }
    {
        let model = self.replaced(model);
        match self.load {
            Some(load) => scaled(model, load),
            None => Ok(model),
        }
    }
}
