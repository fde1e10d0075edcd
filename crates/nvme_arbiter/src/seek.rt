// Queues that are looked through.
ghost use Rattle.std.specs.Prelude.{◌≡◌};
ghost use Rattle.nvme_arbiter.specs.Observation.{is_wanted};

use crate::observation::class_in;
use crate::pick::Seen;
use crate::ready::ReadyQueues;
use crate::settings::Class;

/// Whether a queue is ready, in a class where one is given.
#[inline(always)]
pub fn is_wanted(queue: &Seen, class: Option<Class>) -> bool
    ensures { result ≡ is_wanted class queue.now }
{
    queue.count > 0 && class.is_none_or(|class| class == queue.class)
}

impl ReadyQueues for &[Seen] {
    ghost seen = { λ queues. queues.now };

    fn first(&self, class: Option<Class>) -> Option<Seen> {
        self.iter().copied().find(|queue| is_wanted(queue, class))
    }

    fn first_above(&self, class: Option<Class>, last: u16) -> Option<Seen> {
        self.iter()
            .copied()
            .find(|queue| is_wanted(queue, class) && queue.qid > last)
    }

    fn class_of(&self, qid: u16) -> Option<Class> {
        class_in(self, qid)
    }
}
