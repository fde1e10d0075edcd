//! Rings whose scripts are submitted before a front has them.
ghost use Rattle.std.specs.Prelude.{◌≡◌, true, map, IfOk};
ghost use Rattle.std.specs.List.{AllZip};
ghost use Rattle.nvme_threads.specs.Hosts.{ends_seen};
ghost use Rattle.nvme_threads.specs.inside.Drives.{CameBack};

use crate::bells::Bells;
use crate::feeder::feed;
use crate::flags::Flags;
use crate::join::{Joined, join_all};
use crate::start::{Started, start_all};
use crate::tasks::{Shared, Task};
use nvme_entry::Sqe;
use nvme_lane::{Feeder, GetEnd};
use nvme_pool::Lanes;
use std::alloc::{AllocError, Global};
use std::sync::Wait;
use std::thread;
use std::thread::Threads;

/// Both ends of the ring of a submission region.
#[derive(Drop)]
pub struct SqEnds {
    /// The host's end, with its script.
    pub feeder: Feeder<Sqe>,
    /// The end that a front is given.
    pub get: GetEnd<Sqe>,
}

/// A feeder submits its script, and both ends come back, with the other as it was.
impl Task for SqEnds {
    ghost can_run = { λ _ _. Unit {0} };

    ghost ran = { λ old new. ends_seen new ≡ ends_seen old };

    fn run<R: Wait>(self, rt: &R, shared: &Shared, place: usize) -> SqEnds {
        let SqEnds { feeder, get } = self;
        let feeder = feed(rt, feeder, place, &shared.flags);
        SqEnds { feeder, get }
    }
}

// Joins threads that end by themselves. Where not all were started, they are told to end.
fn joined<R: Threads, T: Task + Drop>(rt: &R, shared: &Shared, started: Started<T>) -> Joined<T>
    ensures back { AllZip T.ran (map (λ h. h.promise.0.value) started.handles.items) result.tasks.items }
    ensures whole { result.is_whole ≡ started.is_whole }
{
    if !started.is_whole {
        shared.flags.end();
    }
    join_all(rt, started)
}

// Submits all scripts in threads of a scope, and joins the threads.
fn in_threads<R: Threads + Wait + Sync>(
    rt: &R,
    alloc: Global,
    shared: &Shared,
    rings: Vec<SqEnds>,
) -> Joined<SqEnds>
    ensures { CameBack rings.items result }
{
    thread::scope(
        thread::scope_env(),
        rt,
        move |scope| -> Joined<SqEnds>
            ensures { CameBack rings.items result }
        {
            let started = start_all(scope, rt, alloc, shared, rings);
            joined(rt, shared, started)
        },
    )
}

/// Submits the scripts of rings, each feeder on a thread of its own, and joins the threads. It never returns where a
/// script has more commands than its ring holds. The lanes, which no feeder uses, and the rings come back in order;
/// where memory is refused or a thread can't be started, all threads are joined and all is dropped.
pub fn load<R: Threads + Wait + Sync>(
    rt: &R,
    alloc: Global,
    lanes: Lanes,
    rings: Vec<SqEnds>,
) -> Result<(Lanes, Vec<SqEnds>), AllocError>
    ensures lanes { IfOk result (λ r. r.0 ≡ lanes) }
    ensures rings { IfOk result (λ r. map ends_seen r.1.items ≡ map ends_seen rings.items) }
{
    let flags = Flags::new(alloc, rings.len(), 0, Bells::of_none(alloc))?;
    let shared = Shared { lanes, flags };
    let Joined { tasks, is_whole } = in_threads(rt, alloc, &shared, rings);
    if !is_whole {
        return Err(AllocError);
    }
    let Shared { lanes, flags: _ } = shared;
    Ok((lanes, tasks))
}
