// The submission queues that a caller shows, read in place.
ghost use Rattle.std.specs.Prelude.{◌≡◌, ◌↔◌, ◌==◌, IsTrue, find};
ghost use Rattle.nvme_arbiter.specs.Observation.{is_seen, can_follow, is_observation_from};
ghost use Rattle.nvme_arbiter.specs.declared.pick.Seen.{Seen};
ghost use Rattle.nvme_capi.specs.States.{seen_in, IsShown};

use crate::states::{SeenFields, seen_of_fields};
use nvme_arbiter::{Class, HIGHEST_COUNT, HIGHEST_QID, QUEUE_LIMIT, ReadyQueues, Seen};

/// The queues that are shown.
#[derive(Drop)]
pub struct Shown<'a> {
    pub queues: &'a [SeenFields],
}

// Whether a queue can be seen: the admin queue is queue 0 and the only one of its class.
fn is_seen(queue: &Seen) -> bool
    ensures { result ≡ is_seen queue.now }
{
    (queue.qid <= HIGHEST_QID)
        & (queue.count <= HIGHEST_COUNT)
        & ((queue.class == Class::Admin) == (queue.qid == 0))
}

// Whether a queue can be seen, and its identifier is at least `least`.
fn can_follow(least: u32, queue: &Seen) -> bool
    ensures { result ≡ can_follow least queue.now }
{
    (u32::from(queue.qid) >= least) & is_seen(queue)
}

// Whether each queue can be seen and its identifier is above those before it. The loop has no branch.
fn ascend(queues: &[SeenFields]) -> bool
    ensures { result ≡ is_observation_from 0 (seen_in queues.now) }
{
    let mut ascend = true;
    let mut least = 0;
    for queue in queues {
        let seen = seen_of_fields(queue);
        ascend &= can_follow(least, &seen);
        least = u32::from(seen.qid) + 1;
    }
    ascend
}

/// Whether these are an observation: valid queues by ascending identifier, no more than there can be.
pub fn are_shown(queues: &[SeenFields]) -> bool
    ensures { IsTrue result ↔ IsShown queues.now }
{
    queues.len() <= QUEUE_LIMIT && ascend(queues)
}

// The queue of an identifier.
fn queue_of(queues: &[SeenFields], qid: u16) -> Option<Seen>
    ensures { result ≡ find (λ (s : Seen). s.qid == qid) (seen_in queues.now) }
{
    queues
        .iter()
        .map(seen_of_fields)
        .find(|queue| queue.qid == qid)
}

impl<'a> ReadyQueues for Shown<'a> {
    ghost use Rattle.nvme_arbiter.specs.declared.pick.Seen.{Seen};
    ghost use Rattle.nvme_capi.specs.States.{seen_in};

    ghost seen = { λ it. seen_in it.queues.now };

    fn first(&self, class: Option<Class>) -> Option<Seen> {
        self.queues.iter().map(seen_of_fields).find(|queue| queue.count > 0
            && class.is_none_or(|class| class == queue.class))
    }

    fn first_above(&self, class: Option<Class>, last: u16) -> Option<Seen> {
        self.queues.iter().map(seen_of_fields).find(|queue| {
            queue.count > 0 && class.is_none_or(|class| class == queue.class) && queue.qid > last
        })
    }

    fn class_of(&self, qid: u16) -> Option<Class> {
        match queue_of(self.queues, qid) {
            Some(queue) => Some(queue.class),
            None => None,
        }
    }
}
