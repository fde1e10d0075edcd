// The latencies of the commands of a queue, or of a class.
ghost use Rattle.std.specs.Prelude.{◌≡◌, ◌++◌, IfOk, IsPermutation, OnOk, slice_get};
ghost use Rattle.nvme_latency.specs.Times.{ranked_times, times_of};
ghost use Rattle.nvme_numbers.specs.Told.{latencies_at, latencies_if, latencies_in, tallied_times};

use crate::numbers::{Numbers, QueueTally};
use nvme_arbiter::Class;
use nvme_latency::{Latencies, Ranked};
use std::alloc::{AllocError, Global};

// Adds the latencies of a queue, where it is of a class.
fn join(union: &mut Latencies, queue: &QueueTally, class: Class) -> Result<(), AllocError>
    ensures { OnOk result (times_of union.new ≡ times_of union.old ++ tallied_times (Some class) queue.now) }
{
    if class.number() == queue.class.number() {
        union.join(&queue.tally.latencies)
    } else {
        Ok(())
    }
}

// The latencies of the queues of a class, in the order of the queues.
fn union_of(alloc: Global, queues: &[QueueTally], class: Class) -> Result<Latencies, AllocError>
    ensures { IfOk result (λ union. times_of union ≡ latencies_in (Some class) queues.now) }
{
    let mut union = Latencies::new(alloc);
    for queue in queues {
        join(&mut union, queue, class)?;
    }
    Ok(union)
}

// The latencies of the queue at a place. There is none where there is no queue.
fn latencies_at(alloc: Global, queues: &[QueueTally], place: usize) -> Result<Latencies, AllocError>
    ensures { IfOk result (λ latencies. times_of latencies ≡ latencies_if (slice_get queues.now place)) }
{
    let mut latencies = Latencies::new(alloc);
    match queues.get(place) {
        Some(queue) => {
            latencies.join(&queue.tally.latencies)?;
            Ok(latencies)
        }
        None => Ok(latencies),
    }
}

impl Numbers {
    ghost use Rattle.nvme_numbers.specs.Collected.{queues_of};

    /// The latencies of the commands of a class so far, from the shortest to the longest.
    pub fn of_class(&self, class: Class) -> Result<Ranked, AllocError>
        ensures { IfOk result (λ ranked. IsPermutation (latencies_in (Some class) (queues_of self.now)) (ranked_times ranked)) }
    {
        let union = union_of(self.alloc, &self.queues, class)?;
        Ok(union.ranked())
    }

    /// The latencies of the commands of the queue of this number so far, from the shortest to the longest. There is none of
    /// a queue that the model doesn't have.
    pub fn of_queue(&self, number: usize) -> Result<Ranked, AllocError>
        ensures { IfOk result (λ ranked. IsPermutation (latencies_at number (queues_of self.now)) (ranked_times ranked)) }
    {
        let Some(place) = number.checked_sub(1) else {
            return Ok(Latencies::new(self.alloc).ranked());
        };
        let latencies = latencies_at(self.alloc, &self.queues, place)?;
        Ok(latencies.ranked())
    }
}
