// What the thread of a feeder does.
ghost use Rattle.nvme_threads.specs.Hosts.{IsSameFeeder};

use crate::flags::Flags;
use crate::pauses::HostPause;
use crate::tasks::{Shared, Task};
use nvme_entry::Sqe;
use nvme_lane::{Feed, Feeder};
use std::sync::Wait;

/// A feeder comes back with its script, as the same end of the same ring.
impl Task for Feeder<Sqe> {
    ghost can_run = { λ _ _. Unit {0} };

    ghost ran = { IsSameFeeder };

    fn run<R: Wait>(self, rt: &R, shared: &Shared, place: usize) -> Feeder<Sqe> {
        feed(rt, self, place, &shared.flags)
    }
}

/// Submits a script, until it is submitted or the feeder is told to end.
pub fn feed<R: Wait>(rt: &R, feeder: Feeder<Sqe>, region: usize, flags: &Flags) -> Feeder<Sqe>
    ensures { IsSameFeeder feeder result }
{
    let mut feeder = feeder;
    let bell = flags.bells().feeder(region);
    let mut pause = HostPause::new();
    for _ in rt.forever() {
        match feeder.step() {
            Feed::Done => break,
            Feed::Put => pause.moved_one(bell),
            Feed::Full => {
                if flags.is_unfed(region) {
                    break;
                }
                pause.rest_full(rt, flags, bell);
            }
        }
    }
    flags.tell_fed(region);
    feeder
}
