// The test of an observation, and the classes in one.
ghost use Rattle.std.specs.Prelude.{◌≡◌, ◌↔◌, IsTrue};
ghost use Rattle.nvme_arbiter.specs.Observation.{IsObservation, is_seen, can_follow, is_observation_from, class_in};

use crate::limits::{HIGHEST_COUNT, HIGHEST_QID};
use crate::pick::Seen;
use crate::settings::Class;

// Whether a queue can be seen: the admin queue is queue 0 and the only one of its class.
fn is_seen(queue: &Seen) -> bool
    ensures { result ≡ is_seen queue.now }
{
    queue.qid <= HIGHEST_QID
        && queue.count <= HIGHEST_COUNT
        && (queue.class == Class::Admin) == (queue.qid == 0)
}

// Whether a queue can be seen, and its identifier is not below the least that may come.
fn can_follow(least: u16, queue: &Seen) -> bool
    ensures { result ≡ can_follow least queue.now }
{
    queue.qid >= least && is_seen(queue)
}

// Whether each queue can be seen, above those before it.
fn ascend(seen: &[Seen]) -> bool
    ensures { result ≡ is_observation_from 0 seen.now }
{
    let mut least = 0;
    for queue in seen {
        if !can_follow(least, queue) {
            return false;
        }
        least = queue.qid + 1;
    }
    true
}

/// Whether these are submission queues by ascending identifier, none above `HIGHEST_QID`, with class `Admin` for queue
/// 0 and for no other, and no count above `HIGHEST_COUNT`: what `Arbiter::pick` and `peek` are to be shown.
pub fn is_observation(seen: &[Seen]) -> bool
    ensures { IsTrue result ↔ IsObservation seen.now }
{
    ascend(seen)
}

/// The class in which a queue is seen, by its identifier. `None` where it isn't seen.
pub fn class_in(seen: &[Seen], qid: u16) -> Option<Class>
    ensures { result ≡ class_in seen.now qid }
{
    seen.iter()
        .find(|queue| queue.qid == qid)
        .map(|queue| queue.class)
}
