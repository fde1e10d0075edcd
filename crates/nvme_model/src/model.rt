// All that a simulation is a function of.
ghost use Rattle.std.specs.Prelude.{◌≡◌, ◌≤◌, ◌<◌, IfErr, IfOk, length};
ghost use Rattle.nvme_model.specs.Arrivals.{ArePut};
ghost use Rattle.nvme_model.specs.Models.{TellsEndFault, TellsQueuesFault};
ghost use Rattle.nvme_model.specs.declared.model.TheConstants.{MAX_COMMANDS, MAX_QUEUES};

use crate::device::Device;
use crate::queue::Queue;
use nvme_arbiter::{Mechanism, Settings};
use nvme_load::Arrivals;
use thiserror::Error;

/// The most queues.
pub const MAX_QUEUES: usize = 64;

/// The most commands of a run: their latencies are kept, 8 bytes each.
pub const MAX_COMMANDS: u64 = 100_000_000;

/// Why a run ends at no such number of commands.
#[derive(Clone, Copy, Debug, PartialEq, Eq, Error)]
pub enum EndFault {
    /// There is none, or there are more than 100 million.
    #[error("expected 1 to 100000000 commands")]
    Commands,
}

/// When no more commands come. Those that came are finished.
#[derive(Clone, Copy, Debug, PartialEq, Eq)]
pub struct End {
    /// How many come at most.
    pub commands: u64,
    /// At this time and later none comes, in picoseconds.
    pub time: Option<u64>,
    ghost some: { 0 < commands },
    ghost at_most: { commands ≤ MAX_COMMANDS },
}

impl End {
    /// After 1 to 100 million commands.
    pub fn after(commands: u64) -> Result<End, EndFault>
        ensures commands { IfOk result (λ e. e.commands ≡ commands) }
        ensures time { IfOk result (λ e. e.time ≡ None) }
        ensures err { IfErr result (λ e. TellsEndFault commands e) }
    {
        if commands == 0 || commands > MAX_COMMANDS {
            return Err(EndFault::Commands);
        }
        Ok(End {
            commands,
            time: None,
        })
    }

    /// At a time, or after 100 million commands, whichever is first.
    pub fn at(time: u64) -> End
        ensures commands { result.commands ≡ MAX_COMMANDS }
        ensures time { result.time ≡ Some time }
    {
        End {
            commands: MAX_COMMANDS,
            time: Some(time),
        }
    }
}

/// Why a model has no such queues.
#[derive(Clone, Copy, Debug, PartialEq, Eq, Error)]
pub enum QueuesFault {
    /// It has none.
    #[error("expected 1 to 64 queues")]
    NoQueues,
    /// It has more than 64.
    #[error("expected 1 to 64 queues")]
    TooManyQueues,
}

/// What a simulation is a function of.
#[derive(Drop)]
pub struct Model {
    pub mechanism: Mechanism,
    pub settings: Settings,
    pub device: Device,
    /// The queues, of the identifiers 1, 2 and so on.
    pub queues: Vec<Queue>,
    /// The seed of all that is drawn.
    pub seed: u64,
    pub end: End,
    /// How many of the commands that came first no number counts.
    pub warm_up: u64,
    ghost some: { 0 < length queues.items },
    ghost at_most: { length queues.items ≤ MAX_QUEUES },
}

impl Model {
    /// A model of 1 to 64 queues.
    pub fn new(
        mechanism: Mechanism,
        settings: Settings,
        device: Device,
        queues: Vec<Queue>,
        seed: u64,
        end: End,
        warm_up: u64,
    ) -> Result<Model, QueuesFault>
        ensures mechanism { IfOk result (λ m. m.mechanism ≡ mechanism) }
        ensures settings { IfOk result (λ m. m.settings ≡ settings) }
        ensures device { IfOk result (λ m. m.device ≡ device) }
        ensures queues { IfOk result (λ m. m.queues.items ≡ queues.items) }
        ensures seed { IfOk result (λ m. m.seed ≡ seed) }
        ensures end { IfOk result (λ m. m.end ≡ end) }
        ensures warm_up { IfOk result (λ m. m.warm_up ≡ warm_up) }
        ensures err { IfErr result (λ e. TellsQueuesFault (length queues.items) e) }
    {
        if queues.is_empty() {
            return Err(QueuesFault::NoQueues);
        }
        if queues.len() > MAX_QUEUES {
            return Err(QueuesFault::TooManyQueues);
        }
        Ok(Model {
            mechanism,
            settings,
            device,
            queues,
            seed,
            end,
            warm_up,
        })
    }

    /// Puts arrivals in the place of those of the queue of this identifier, from 1 on. All else of that queue stays, and so
    /// do the other queues. Nothing changes where there is no such queue.
    pub fn put_arrivals(&mut self, number: usize, arrivals: Arrivals)
        ensures rest { self.new ≡ record self.old { queues = self.new.queues; some = self.new.some; at_most = self.new.at_most } }
        ensures queues { ArePut number arrivals self.old.queues.items self.new.queues.items }
    {
        let Some(place) = number.checked_sub(1) else {
            return;
        };
        if place < self.queues.len() {
            self.queues[place].arrivals = arrivals;
        }
    }
}
