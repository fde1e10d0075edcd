// How many commands others get between two services of a queue.
use crate::histogram::Histogram;
use crate::lanes::IO_QUEUES;
use nvme_arbiter::{Pick, Seen};
use std::alloc::{AllocError, Global};

// The number of queues, the admin queue among them.
const QUEUES: usize = 1 + IO_QUEUES;

// Since when a queue waits.
#[derive(Clone, Copy)]
struct Since {
    // The latest pick at which it was ready, and the first of those in a row up to that.
    ready: u64,
    from: u64,
    // The latest pick that served it, and the commands of all queues up to that. 0 before the first.
    pick: u64,
    commands: u64,
}

const NEVER: Since = Since {
    ready: 0,
    from: 0,
    pick: 0,
    commands: 0,
};

impl Since {
    // Notes that the queue is ready at a pick.
    fn note_ready(&mut self, pick: u64) {
        if self.ready.saturating_add(1) != pick {
            self.from = pick;
        }
        self.ready = pick;
    }

    // How many commands others got, where a pick serves the queue and it was ready all the time since it was served
    // before.
    fn wait(&self, pick: u64, commands: u64) -> Option<u64> {
        if self.pick == 0 || self.ready != pick || self.from > self.pick.saturating_add(1) {
            return None;
        }
        Some(commands.saturating_sub(self.commands))
    }
}

/// The waits of each queue, over all classes: the commands that others got between two services of it, where it was
/// ready at each pick from the first of these to the second.
#[derive(Drop)]
pub struct Waits {
    // The number of picks, and of commands.
    picks: u64,
    commands: u64,
    since: [Since; QUEUES],
    histograms: Vec<Histogram>,
}

impl Waits {
    /// Waits of no pick.
    pub fn new(alloc: Global) -> Waits {
        Waits {
            picks: 0,
            commands: 0,
            since: [NEVER; QUEUES],
            histograms: Vec::new(alloc),
        }
    }

    /// Starts all waits anew.
    pub fn begin_anew(&mut self) {
        self.since = [NEVER; QUEUES];
    }

    // A histogram for each queue.
    fn make_histograms(&mut self, alloc: Global) -> Result<(), AllocError> {
        if self.histograms.is_empty() {
            for _ in 0..QUEUES {
                self.histograms.push(Histogram::new(alloc))?;
            }
        }
        Ok(())
    }

    /// Adds a pick.
    pub fn note_pick(
        &mut self,
        alloc: Global,
        seen: &[Seen],
        pick: &Pick,
    ) -> Result<(), AllocError> {
        self.make_histograms(alloc)?;
        self.picks = self.picks.saturating_add(1);
        for queue in seen {
            if queue.count > 0
                && let Some(since) = self.since.get_mut(usize::from(queue.qid))
            {
                since.note_ready(self.picks);
            }
        }
        let before = self.commands;
        self.commands = before.saturating_add(u64::from(pick.n));
        let qid = usize::from(pick.qid);
        let Some(since) = self.since.get_mut(qid) else {
            return Ok(());
        };
        let wait = since.wait(self.picks, before);
        since.pick = self.picks;
        since.commands = self.commands;
        if let Some(wait) = wait
            && let Some(histogram) = self.histograms.get_mut(qid)
        {
            histogram.add(alloc, wait)?;
        }
        Ok(())
    }

    /// The waits of a queue.
    pub fn of_queue(&self, qid: u16) -> Option<&Histogram> {
        self.histograms.get(usize::from(qid))
    }
}
