// What the thread of a drainer does.
ghost use Rattle.nvme_threads.specs.Hosts.{IsSameDrainer};

use crate::flags::Flags;
use crate::pauses::HostPause;
use crate::tasks::{Shared, Task};
use nvme_entry::Cqe;
use nvme_lane::Drainer;
use std::sync::Wait;

/// A drainer comes back as the same end of the same ring.
impl Task for Drainer<Cqe> {
    ghost can_run = { λ _ _. Unit {0} };

    ghost ran = { IsSameDrainer };

    fn run<R: Wait>(self, rt: &R, shared: &Shared, place: usize) -> Drainer<Cqe> {
        drain(rt, self, place, &shared.flags)
    }
}

// Collects what is posted until all is over, or memory is refused.
fn drain<R: Wait>(rt: &R, drainer: Drainer<Cqe>, region: usize, flags: &Flags) -> Drainer<Cqe>
    ensures { IsSameDrainer drainer result }
{
    let mut drainer = drainer;
    let bell = flags.bells().drainer(region);
    let mut pause = HostPause::new();
    for _ in rt.forever() {
        match drainer.take() {
            Ok(true) => pause.moved_one(bell),
            Ok(false) => {
                if flags.is_over() {
                    break;
                }
                pause.rest_empty(rt, flags, bell);
            }
            Err(_) => {
                flags.tell_starved();
                break;
            }
        }
    }
    drainer
}
