// How long commands waited for arbitration, each from when it was the next one of its queue.
ghost use Rattle.std.specs.Prelude.{◌≡◌, ◌<◌, ◌∷◌, ◌++◌, IfOk, IfSome, IsPermutation, OnOk, length, position, slice_get, option_and_then};
ghost use Rattle.nvme_waits.specs.Waits.{Ends, HasNoWait, Picks, is_of, longer_of, next_of, picked_from, queue_behind, taken_in, wait_of};

use nvme_arbiter::Pick;
use nvme_model::{Finished, Model};
use std::alloc::{AllocError, Global};

// A command that the device has.
#[derive(Clone, Copy, PartialEq, Eq)]
struct Taken {
    queue: u16,
    // How many commands of its queue were picked before it.
    number: u64,
    // When the last of these was picked.
    since: u64,
}

// The commands of a queue that were picked.
#[derive(Clone, Copy)]
struct Queue {
    count: u64,
    // When the last one was picked.
    last: u64,
    // The longest wait of one that counts.
    longest: Option<u64>,
}

// A queue of which no command was picked.
const UNPICKED: Queue = Queue {
    count: 0,
    last: 0,
    longest: None,
};

/// The longest waits of the queues.
#[derive(Drop)]
pub(crate) struct Waits {
    queues: Vec<Queue>,
    taken: Vec<Taken>,
}

// Where a command stands among those that the device has.
fn place_of(taken: &[Taken], command: &Finished) -> Option<usize>
    ensures value { result ≡ position (is_of command.now) taken.now }
    ensures within { IfSome result (λ i. i < length taken.now) }
{
    taken.iter().position(|it| it.queue == command.queue && it.number == command.number)
}

// The next command of a queue is picked at a time.
fn pick_one(queue: &mut Queue, qid: u16, at: u64) -> Taken
    ensures taken { result ≡ record { queue = qid; number = queue.old.count; since = queue.old.last } }
    ensures queue { queue.new ≡ record queue.old { count = next_of queue.old.count; last = at } }
{
    let taken = Taken {
        queue: qid,
        number: queue.count,
        since: queue.last,
    };
    queue.count = queue.count.saturating_add(1);
    queue.last = at;
    taken
}

// The next commands of a queue are picked at a time, and the device has them. The second one and those behind it waited for
// no time.
fn pick_some(
    queue: &mut Queue,
    taken: &mut Vec<Taken>,
    at: u64,
    pick: &Pick,
) -> Result<(), AllocError>
    ensures taken { OnOk result (taken.new.items ≡ taken.old.items ++ picked_from at pick.now.qid pick.now.n queue.old) }
    ensures queue { OnOk result (queue.new ≡ queue_behind at pick.now.n queue.old) }
{
    for _turn in 0..pick.n {
        taken.push(pick_one(queue, pick.qid, at))?;
    }
    Ok(())
}

// How long a command waited as the next one of its queue.
fn wait_of(command: &Finished, taken: &Taken) -> u64
    ensures { result ≡ wait_of command.now taken.now }
{
    let times = &command.times;
    times
        .picked
        .saturating_sub(times.submitted.max(taken.since))
}

// The longer of two waits, the first of which may be missing.
fn longer_of(other: Option<u64>, wait: u64) -> u64
    ensures { result ≡ longer_of other wait }
{
    other.unwrap_or(0).max(wait)
}

impl Waits {
    // Of the queues of a model, of which no command was picked.
    pub(crate) fn new(alloc: Global, model: &Model) -> Result<Waits, AllocError>
        ensures { IfOk result (HasNoWait (length model.now.queues.items)) }
    {
        let mut queues = Vec::new(alloc);
        queues.resize(model.queues.len(), UNPICKED)?;
        Ok(Waits {
            queues,
            taken: Vec::new(alloc),
        })
    }

    // Commands of a queue are picked at this time.
    pub(crate) fn pick(&mut self, at: u64, pick: &Pick) -> Result<(), AllocError>
        ensures { OnOk result (Picks at pick.now self.old self.new) }
    {
        let Some(place) = usize::from(pick.qid).checked_sub(1) else {
            return Ok(());
        };
        if place < self.queues.len() {
            pick_some(&mut self.queues[place], &mut self.taken, at, pick)?;
        }
        Ok(())
    }

    // Takes a command out of those that the device has.
    fn take(&mut self, command: &Finished) -> Option<Taken>
        ensures value { result ≡ taken_in self.old command.now }
        ensures gone { IfSome result (λ t. IsPermutation self.old.taken.items (t ∷ self.new.taken.items)) }
        ensures queues { self.new.queues ≡ self.old.queues }
    {
        match place_of(&self.taken, command) {
            Some(place) => Some(self.taken.swap_remove(place)),
            None => None,
        }
    }

    // A command is done. The numbers may count it.
    pub(crate) fn finish(&mut self, command: &Finished, counts: bool)
        ensures { Ends command.now counts self.old self.new }
    {
        let Some(taken) = self.take(command) else {
            return;
        };
        let Some(place) = usize::from(command.queue).checked_sub(1) else {
            return;
        };
        if !counts {
            return;
        }
        if place < self.queues.len() {
            let longest = longer_of(self.queues[place].longest, wait_of(command, &taken));
            self.queues[place].longest = Some(longest);
        }
    }

    // The longest wait of a queue, by its place. `None` where none of its commands counts.
    pub(crate) fn longest(&self, place: usize) -> Option<u64>
        ensures { result ≡ option_and_then (λ q. q.longest) (slice_get self.now.queues.items place) }
    {
        self.queues.get(place).and_then(|queue| queue.longest)
    }
}
