// What arbitration asks of the queues that it picks from.
ghost use Rattle.std.specs.Prelude.{◌≡◌};
ghost use Rattle.std.specs.List.{filter};
ghost use Rattle.nvme_arbiter.specs.Observation.{IsObservation, is_wanted};
ghost use Rattle.nvme_arbiter.specs.Next.{next};

use crate::pick::Seen;
use crate::settings::Class;

/// Submission queues in the form in which a caller keeps them, among which the next ready one is found. Contracts see
/// what they show, by ascending identifier. A queue is ready where a command of it waits.
pub trait ReadyQueues {
    ghost use Rattle.std.specs.Prelude.{◌≡◌, ◌&&◌, nat_lt, true, List, [], find};
    ghost use Rattle.std.specs.List.{filter};
    ghost use Rattle.nvme_arbiter.specs.declared.pick.Seen.{Seen};
    ghost use Rattle.nvme_arbiter.specs.Observation.{IsObservation, is_wanted, class_in};
    ghost use Rattle.nvme_arbiter.specs.Next.{next};

    ghost seen: { Self → List Seen };

    /// The first ready queue, in a class where one is given.
    fn first(&self, class: Option<Class>) -> Option<Seen>
        ensures { result ≡ find (is_wanted class) (seen self.now) };

    /// The first ready queue above an identifier, in a class where one is given.
    fn first_above(&self, class: Option<Class>, last: u16) -> Option<Seen>
        ensures { result ≡ find (λ s. is_wanted class s && nat_lt last s.qid) (seen self.now) };

    /// The class in which a queue is seen.
    fn class_of(&self, qid: u16) -> Option<Class>
        ensures { result ≡ class_in (seen self.now) qid };

    /// Whether it is known without a search that no queue is ready, in a class where one is given. `false` says nothing.
    fn has_none(&self, class: Option<Class>) -> bool
        ensures { result ≡ true → filter (is_wanted class) (seen self.now) ≡ [] }
    {
        let _ = class;
        false
    }
}

// (a mark on a body that stands in a trait is lost)
/// The next ready queue after the one that was served last, in a class where one is given.
#[inline(always)]
pub fn next_ready<Q: ReadyQueues>(
    queues: &Q,
    class: Option<Class>,
    last: Option<u16>,
) -> Option<Seen>
    requires { IsObservation (Q.seen queues.now) }
    ensures { result ≡ next last (filter (is_wanted class) (Q.seen queues.now)) }
{
    if queues.has_none(class) {
        None
    } else {
        search(queues, class, last)
    }
}

// What `next_ready` answers, by a search.
#[inline(always)]
fn search<Q: ReadyQueues>(queues: &Q, class: Option<Class>, last: Option<u16>) -> Option<Seen>
    requires { IsObservation (Q.seen queues.now) }
    ensures { result ≡ next last (filter (is_wanted class) (Q.seen queues.now)) }
{
    match last {
        Some(last) => match queues.first_above(class, last) {
            Some(queue) => Some(queue),
            None => queues.first(class),
        },
        None => queues.first(class),
    }
}
