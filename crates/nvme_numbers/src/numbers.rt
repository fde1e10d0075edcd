// Collects the numbers of a simulation.
ghost use Rattle.std.specs.Prelude.{◌≡◌, IfOk, OnErr, OnOk};
ghost use Rattle.nvme_numbers.specs.Collected.{Adds, Heeds, IsNew, Keeps, earlier_of};
ghost use Rattle.nvme_numbers.specs.Feeding.{Comes, Ends};
ghost use Rattle.nvme_numbers.specs.Feeds.{IsFed};

use crate::feed::{Comings, Feed, NO_FEED, NONE_CAME};
use crate::tally::Tally;
use nvme_arbiter::{Class, Mechanism, Settings};
use nvme_model::{Device, Finished, Model};
use std::alloc::{AllocError, Global};

/// What is counted of a queue.
#[derive(Drop)]
pub struct QueueTally {
    pub class: Class,
    pub tally: Tally,
    pub feed: Feed,
}

/// What an answer tells of its model.
#[derive(Clone, Copy, Debug, PartialEq, Eq)]
pub struct Asked {
    pub mechanism: Mechanism,
    pub settings: Settings,
    pub device: Device,
    pub seed: u64,
    pub warm_up: u64,
}

/// Collects the numbers of the commands of a simulation.
#[derive(Drop)]
pub struct Numbers {
    pub(crate) asked: Asked,
    pub(crate) queues: Vec<QueueTally>,
    pub(crate) comings: Comings,
    pub(crate) began: Option<u64>,
    pub(crate) alloc: Global,
}

impl Numbers {
    /// No numbers yet, of the queues of a model.
    pub fn new(alloc: Global, model: &Model) -> Result<Numbers, AllocError>
        ensures { IfOk result (IsNew model.now) }
    {
        let mut queues = Vec::new(alloc);
        for queue in &model.queues {
            queues.push(QueueTally {
                class: queue.class,
                tally: Tally::new(alloc),
                feed: NO_FEED,
            })?;
        }
        Ok(Numbers {
            asked: Asked {
                mechanism: model.mechanism,
                settings: model.settings,
                device: model.device,
                seed: model.seed,
                warm_up: model.warm_up,
            },
            queues,
            comings: NONE_CAME,
            began: None,
            alloc,
        })
    }

    /// Adds a command that is done. One of the warm-up isn't to be added: the caller knows which commands came first. Where
    /// there is no memory for it, or the model has no such queue, all stays as it was.
    pub fn add(&mut self, finished: &Finished) -> Result<(), AllocError>
        ensures ok { OnOk result (Adds finished.now self.old self.new) }
        ensures err { OnErr result (Keeps self.old self.new) }
    {
        let Some(at) = usize::from(finished.queue).checked_sub(1) else {
            return Ok(());
        };
        if at < self.queues.len() {
            self.queues[at].tally.add(finished)?;
            self.began = Some(earlier(self.began, finished.times.came));
        }
        Ok(())
    }

    /// So many commands came in all, the last of them at this time, in picoseconds. Where no more came than before, none came.
    pub fn come(&mut self, count: u64, at: u64)
        ensures { Heeds (Comes count at) self.old self.new }
    {
        self.comings = self.comings.with(self.asked.warm_up, count, at);
    }

    // A command of a queue is done.
    fn feed(&mut self, finished: &Finished)
        ensures fed { IsFed finished.now self.old self.new }
        ensures keeps { Keeps self.old self.new }
    {
        let Some(at) = usize::from(finished.queue).checked_sub(1) else {
            return;
        };
        if at < self.queues.len() && self.comings.is_behind(finished) {
            let feed = self.queues[at].feed;
            self.queues[at].feed = feed.with(self.comings.count, self.comings.last, finished);
        }
    }

    /// A command is done, one of the warm-up too. Only what is told of the time in which commands come heeds it.
    pub fn end(&mut self, finished: &Finished)
        ensures { Heeds (Ends finished.now) self.old self.new }
    {
        self.feed(finished);
    }
}

// The earlier of two times, the first of which may be missing.
fn earlier(time: Option<u64>, other: u64) -> u64
    ensures { result ≡ earlier_of time other }
{
    match time {
        Some(time) => time.min(other),
        None => other,
    }
}
