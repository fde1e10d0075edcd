// What picks are shown, for a trace.
use nvme_arbiter::Seen;
use nvme_model::Model;
use nvme_simulation::Simulation;
use std::alloc::{AllocError, Global};

/// What the last pick was shown of each queue, by ascending identifier.
#[derive(Drop)]
pub(crate) struct Watch {
    // The identifier of the last queue.
    last: u16,
    seen: Vec<Seen>,
}

impl Watch {
    // Of the queues of a model, before the first pick.
    pub(crate) fn new(alloc: Global, model: &Model) -> Watch {
        Watch {
            last: u16::try_from(model.queues.len()).unwrap_or(u16::MAX),
            seen: Vec::new(alloc),
        }
    }

    // What the next pick is shown.
    pub(crate) fn look(&mut self, simulation: &Simulation) -> Result<(), AllocError> {
        self.seen.clear();
        for qid in 0..=self.last {
            if let Some(queue) = simulation.seen(qid) {
                self.seen.push(queue)?;
            }
        }
        Ok(())
    }

    // What the last pick was shown.
    pub(crate) fn seen(&self) -> &[Seen] {
        self.seen.as_slice()
    }
}
