// The queues that wait at a pick.
ghost use Rattle.std.specs.Prelude.{◌≡◌};
ghost use Rattle.nvme_arbiter.specs.Observation.{is_wanted};
ghost use Rattle.nvme_judge.specs.Turns.{is_ready_in};

use nvme_arbiter::{Class, Seen};

/// Whether a queue is ready, in a class where one is given.
pub fn is_ready(queue: &Seen, class: Option<Class>) -> bool
    ensures { result ≡ is_wanted class queue.now }
{
    queue.count > 0 && class.is_none_or(|class| class == queue.class)
}

/// Whether the queue of an identifier is ready, in a class where one is given.
pub fn is_ready_in(seen: &[Seen], class: Option<Class>, qid: u16) -> bool
    ensures { result ≡ is_ready_in class qid seen.now }
{
    for queue in seen {
        if queue.qid == qid && is_ready(queue, class) {
            return true;
        }
    }
    false
}
