// The threads of a drive.
ghost use Rattle.std.specs.Prelude.{◌≡◌, true};
ghost use Rattle.std.specs.List.{All};
ghost use Rattle.nvme_threads.specs.inside.Drives.{AreThreadsOf, AreThreads, AreFeeders, HaveFed, HaveRun};
ghost use Rattle.nvme_threads.specs.declared.hosts.Hosts.{Hosts};

use crate::crew::Crewman;
use crate::join::{Joined, join_all};
use crate::start::{Started, start_all};
use crate::tasks::Shared;
use nvme_entry::{Cqe, Sqe};
use nvme_lane::{Drainer, Feeder, Mode};
use nvme_pool::Gate;
use std::alloc::Global;
use std::sync::Wait;
use std::thread::{Scope, Threads};

/// What runs beside the front: the hosts, and the workers with a gate each.
#[derive(Drop)]
pub struct Hosts<G: Gate + Drop> {
    pub feeders: Vec<Feeder<Sqe>>,
    pub drainers: Vec<Drainer<Cqe>>,
    pub crew: Vec<Crewman<G>>,
}

/// The threads of feeders.
pub enum Feeders {
    /// They submit.
    AtWork(Started<Feeder<Sqe>>),
    /// They had submitted before, and have no threads.
    Ended(Vec<Feeder<Sqe>>),
}

/// The threads of what runs beside the front. It can't be dropped, so that each way out of a drive leads through
/// `finish`.
pub struct Running<G: Gate + Drop> {
    feeders: Feeders,
    drainers: Started<Drainer<Cqe>>,
    crew: Started<Crewman<G>>,
}

// Starts a thread for each feeder. With `Mode::Loaded` there is nothing left for them to do.
fn start_feeders<'s, E: 's, R: Threads + Wait + Sync + 's>(
    scope: &Scope<'s, E>,
    rt: &'s R,
    alloc: Global,
    shared: &'s Shared,
    feeders: Vec<Feeder<Sqe>>,
    mode: Mode,
) -> Feeders
    ensures { AreFeeders feeders.items result }
{
    match mode {
        Mode::Loaded => {
            shared.flags.tell_all_fed();
            Feeders::Ended(feeders)
        }
        Mode::Live => { Feeders::AtWork(start_all(scope, rt, alloc, shared, feeders)) }
    }
}

/// Starts a thread for each host and each worker, but with `Mode::Loaded` none for a feeder.
pub fn start<'s, E: 's, G: Gate + Send + Drop + 's, R: Threads + Wait + Sync + 's>(
    scope: &Scope<'s, E>,
    rt: &'s R,
    alloc: Global,
    shared: &'s Shared,
    hosts: Hosts<G>,
    mode: Mode,
) -> Running<G>
    requires { All (λ c. c.worker.lane ≡ shared.now.lanes) hosts.crew.items }
    ensures { AreThreadsOf hosts result }
{
    let Hosts {
        feeders,
        drainers,
        crew,
    } = hosts;
    Running {
        feeders: start_feeders(scope, rt, alloc, shared, feeders, mode),
        drainers: start_all(scope, rt, alloc, shared, drainers),
        crew: start_all(scope, rt, alloc, shared, crew),
    }
}

// Joins the threads of feeders, where they have some.
fn join_feeders<R: Threads>(rt: &R, feeders: Feeders) -> Joined<Feeder<Sqe>>
    ensures { (tasks : _) → AreFeeders tasks feeders → HaveFed tasks result }
{
    match feeders {
        Feeders::AtWork(started) => join_all(rt, started),
        Feeders::Ended(tasks) => Joined {
            tasks,
            is_whole: true,
        },
    }
}

// Whether all three are so.
fn are_all(first: bool, second: bool, third: bool) -> bool
    ensures { result ≡ true → (first ≡ true) × (second ≡ true) × (third ≡ true) }
{
    first && second && third
}

/// Tells all threads to end, joins them, and gives what comes back, and whether all had been started.
pub fn finish<G: Gate + Drop, R: Threads>(
    rt: &R,
    shared: &Shared,
    running: Running<G>,
) -> (Hosts<G>, bool)
    ensures { (hosts : Hosts _) → AreThreadsOf hosts running → result.1 ≡ true → HaveRun (λ view ticket. G.left (G.entered view ticket) ticket) hosts result.0 }
{
    shared.flags.end();
    let Running {
        feeders,
        drainers,
        crew,
    } = running;
    let feeders = join_feeders(rt, feeders);
    let drainers = join_all(rt, drainers);
    let crew = join_all(rt, crew);
    let is_whole = are_all(feeders.is_whole, drainers.is_whole, crew.is_whole);
    let hosts = Hosts {
        feeders: feeders.tasks,
        drainers: drainers.tasks,
        crew: crew.tasks,
    };
    (hosts, is_whole)
}
