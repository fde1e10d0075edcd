//! A drive: a front, its hosts and its workers on threads, from the first turn to the last.
ghost use Rattle.std.specs.Prelude.{◌≡◌, ◌≢◌, ◌<◌, ◌⊎◌, Ok, Err, true, length, map, vec_len, IfOk, IfErr};
ghost use Rattle.nvme_pool.specs.Pool.{IsPool};
ghost use Rattle.nvme_front.specs.View.{GoesOn};
ghost use Rattle.nvme_threads.specs.inside.Drives.{CanDrive, Drove, ArePartsOf};
ghost use Rattle.nvme_threads.specs.Faults.{IsDriveFault, fault_of};
ghost use Rattle.nvme_threads.specs.Loaded.{StaysLoaded};
ghost use Rattle.nvme_threads.specs.declared.drives.DriveError.TheVariants as drive_is;
ghost use Rattle.nvme_threads.specs.Hosts.{feeder_seen, drainer_seen};
ghost use Rattle.nvme_threads.specs.Runs.{AllRan};

use crate::bells::Bells;
use crate::crew::{Crewman, apart, together};
use crate::flags::Flags;
use crate::hosts::{Hosts, finish, start};
use crate::tasks::Shared;
use crate::turns::serve;
use nvme_front::{Front, FrontError, Parts};
use nvme_lane::Mode;
use nvme_pool::{Gate, Worker};
use std::alloc::{AllocError, Global};
use std::sync::Wait;
use std::thread;
use std::thread::{Scope, Threads};
use thiserror::Error;

/// Why a drive failed. All threads are joined, and all that was driven is dropped.
#[derive(Clone, Copy, Debug, PartialEq, Eq, Error)]
pub enum DriveError {
    /// Memory was refused, or a thread couldn't be started.
    #[error("out of memory")]
    NoMemory,
    /// A turn of the front failed so, and memory wasn't the reason.
    #[error("front: {0}")]
    Front(FrontError),
}

impl From<FrontError> for DriveError {
    ghost from_gives = { λ f e. e ≡ fault_of f };

    fn from(error: FrontError) -> DriveError {
        match error {
            FrontError::NoMemory => DriveError::NoMemory,
            error => DriveError::Front(error),
        }
    }
}

impl From<AllocError> for DriveError {
    ghost from_gives = { λ _ e. e ≡ drive_is.NoMemory };

    fn from(_error: AllocError) -> DriveError {
        DriveError::NoMemory
    }
}

/// A front, and what runs beside it.
#[derive(Drop)]
pub struct Driven<G: Gate + Drop> {
    /// The front.
    pub front: Front,
    /// The hosts, and the workers with their gates.
    pub hosts: Hosts<G>,
}

// How a drive ended: as the turns of its front did, unless a thread couldn't be started.
fn outcome(served: Result<(), DriveError>, is_whole: bool) -> Result<(), DriveError>
    ensures ok { IfOk result (λ _. is_whole ≡ true) }
    ensures fault { IfErr result (λ e. (served ≡ Err e) ⊎ (e ≡ drive_is.NoMemory)) }
    ensures whole { IfErr result (λ e. e ≢ drive_is.NoMemory → is_whole ≡ true) }
{
    if !is_whole {
        return Err(DriveError::NoMemory);
    }
    served
}

// Starts all threads of a scope, makes the front's turns, and joins the threads. What was driven comes back however it
// ended.
fn within<'s, E: 's, G: Gate + Send + Drop + 's, R: Threads + Wait + Sync + 's>(
    scope: &Scope<'s, E>,
    rt: &'s R,
    alloc: Global,
    shared: &'s Shared,
    driven: Driven<G>,
    mode: Mode,
    patience: u32,
) -> (Driven<G>, Result<(), DriveError>)
    requires { CanDrive shared.now driven }
    ensures { Drove (λ view ticket. G.left (G.entered view ticket) ticket) driven result.0 result.1 }
{
    let Driven { mut front, hosts } = driven;
    let running = start(scope, rt, alloc, shared, hosts, mode);
    let served = serve(rt, &mut front, shared, patience);
    let (hosts, is_whole) = finish(rt, shared, running);
    (Driven { front, hosts }, outcome(served, is_whole))
}

// Drives all in threads of a scope, which borrow what they share.
pub(crate) fn in_threads<G: Gate + Send + Drop, R: Threads + Wait + Sync>(
    rt: &R,
    alloc: Global,
    shared: &Shared,
    driven: Driven<G>,
    mode: Mode,
    patience: u32,
) -> (Driven<G>, Result<(), DriveError>)
    requires { CanDrive shared.now driven }
    ensures { Drove (λ view ticket. G.left (G.entered view ticket) ticket) driven result.0 result.1 }
{
    thread::scope(
        thread::scope_env(),
        rt,
        move |scope| -> (Driven<G>, Result<(), DriveError>)
            requires { CanDrive shared.now driven }
            ensures { Drove (λ view ticket. G.left (G.entered view ticket) ticket) driven result.0 result.1 }
        { within(scope, rt, alloc, shared, driven, mode, patience) },
    )
}

// The flags of a drive, and its crew.
fn prepared<G: Gate + Drop>(
    alloc: Global,
    front: &Front,
    feeders: usize,
    workers: Vec<Worker>,
    gates: Vec<G>,
) -> Result<(Flags, Vec<Crewman<G>>), AllocError>
    requires { vec_len workers ≡ vec_len gates }
    ensures workers { IfOk result (λ r. map (λ c. c.worker) r.1.items ≡ workers.items) }
    ensures gates { IfOk result (λ r. map (λ c. c.gate) r.1.items ≡ gates.items) }
{
    let bells = Bells::of(alloc, front)?;
    let flags = Flags::new(alloc, feeders, workers.len(), bells)?;
    let crew = together(alloc, workers, gates)?;
    Ok((flags, crew))
}

// What is driven, of parts and gates.
pub(crate) fn driven_of<G: Gate + Drop>(
    alloc: Global,
    parts: Parts,
    gates: Vec<G>,
) -> Result<(Shared, Driven<G>), AllocError>
    requires { vec_len parts.workers ≡ vec_len gates }
    ensures { IfOk result (λ r. ArePartsOf r.0 r.1 parts gates.items) }
{
    let Parts {
        front,
        feeders,
        drainers,
        lanes,
        workers,
    } = parts;
    let Ok((flags, crew)) = prepared(alloc, &front, feeders.len(), workers, gates) else {
        drop(front);
        return Err(AllocError);
    };
    let hosts = Hosts {
        feeders,
        drainers,
        crew,
    };
    Ok((Shared { lanes, flags }, Driven { front, hosts }))
}

// The parts and the gates of what was driven.
pub(crate) fn put_together<G: Gate + Drop>(
    alloc: Global,
    shared: Shared,
    driven: Driven<G>,
) -> Result<(Parts, Vec<G>), AllocError>
    ensures { IfOk result (λ r. ArePartsOf shared driven r.0 r.1.items) }
{
    let Driven { front, hosts } = driven;
    let Hosts {
        feeders,
        drainers,
        crew,
    } = hosts;
    let Ok((workers, gates)) = apart(alloc, crew) else {
        drop(front);
        return Err(AllocError);
    };
    let parts = Parts {
        front,
        feeders,
        drainers,
        lanes: shared.lanes,
        workers,
    };
    Ok((parts, gates))
}

// The parts and the gates of what was driven, unless the drive failed.
fn given_back<G: Gate + Drop>(
    alloc: Global,
    shared: Shared,
    driven: Driven<G>,
    ended: Result<(), DriveError>,
) -> Result<(Parts, Vec<G>), DriveError>
    ensures ended { IfOk result (λ _. (done : _) × (ended ≡ Ok done)) }
    ensures parts { IfOk result (λ r. ArePartsOf shared driven r.0 r.1.items) }
    ensures fault { IfErr result (λ e. (ended ≡ Err e) ⊎ (e ≡ drive_is.NoMemory)) }
{
    if let Err(error) = ended {
        drop(driven);
        return Err(error);
    }
    match put_together(alloc, shared, driven) {
        Ok(back) => Ok(back),
        Err(_) => Err(DriveError::NoMemory),
    }
}

/// Drives a front with its hosts and its workers: each feeder, each drainer and each worker on a thread of its own,
/// each worker with the gate at its place, and the front's turns on the calling thread. With `Mode::Loaded`, where
/// `load` has submitted the scripts, no feeder has a thread, and none submits.
///
/// It stops after an idle turn that began when all feeders had ended, if the front is clear; or after `patience` idle
/// turns in a row; or where a turn failed or memory was refused. All threads are joined before it answers. A front that
/// began with the whole scripts in its rings, and knew it, stays such a front. It may wait for another thread.
pub fn drive<G: Gate + Send + Drop, R: Threads + Wait + Sync>(
    rt: &R,
    alloc: Global,
    parts: Parts,
    gates: Vec<G>,
    mode: Mode,
    patience: u32,
) -> Result<(Parts, Vec<G>), DriveError>
    requires admin_sq { 0 < length parts.front.gets }
    requires admin_cq { 0 < length parts.front.puts }
    requires pool { IsPool parts.lanes parts.front.hands.seat parts.workers.items }
    requires number { vec_len parts.workers ≡ vec_len gates }
    ensures lanes { IfOk result (λ r. r.0.lanes ≡ parts.lanes) }
    ensures front { IfOk result (λ r. GoesOn parts.front r.0.front) }
    ensures loaded { IfOk result (λ r. StaysLoaded parts.front r.0.front) }
    ensures feeders { IfOk result (λ r. map feeder_seen r.0.feeders.items ≡ map feeder_seen parts.feeders.items) }
    ensures drainers { IfOk result (λ r. map drainer_seen r.0.drainers.items ≡ map drainer_seen parts.drainers.items) }
    ensures workers { IfOk result (λ r. AllRan (λ view ticket. G.left (G.entered view ticket) ticket) parts.workers.items gates.items r.0.workers.items r.1.items) }
    ensures fault { IfErr result (IsDriveFault parts.front) }
{
    let (shared, driven) = driven_of(alloc, parts, gates)?;
    let (driven, ended) = in_threads(rt, alloc, &shared, driven, mode, patience);
    given_back(alloc, shared, driven, ended)
}
