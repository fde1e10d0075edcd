//! Drives a front with the feeders of its rings.
ghost use Rattle.std.specs.Prelude.{◌≡◌, ◌≢◌, ◌<◌, ℕ, length, map, vec_len, IfOk, IfErr};
ghost use mathlib.Core.List.{IsPrefix};
ghost use Rattle.nvme_pool.specs.Pool.{IsPool};
ghost use Rattle.nvme_front.specs.Hosts.{IsFedBy, submitted_at};
ghost use Rattle.nvme_front.specs.View.{GoesOn, got_in};
ghost use Rattle.nvme_threads.specs.Fed.{IsFedFault};
ghost use Rattle.nvme_threads.specs.Loaded.{StaysLoaded};
ghost use Rattle.nvme_threads.specs.declared.drives.DriveError.TheVariants as drive_is;
ghost use Rattle.nvme_threads.specs.Hosts.{feeder_seen, drainer_seen};
ghost use Rattle.nvme_threads.specs.Runs.{AllRan};

use crate::drives::{DriveError, Driven, driven_of, in_threads, put_together};
use crate::hosts::Hosts;
use nvme_front::{Parts, drop_beside};
use nvme_lane::Mode;
use nvme_pool::Gate;
use std::alloc::Global;
use std::sync::Wait;
use std::thread::Threads;

// Drops what was driven. Where a turn failed, it first looks at both ends of each submission ring.
fn given_up<G: Gate + Drop>(driven: Driven<G>, error: DriveError)
    requires { error ≢ drive_is.NoMemory → IsFedBy driven.front driven.hosts.feeders.items }
    ensures { error ≢ drive_is.NoMemory → (r : ℕ) → IsPrefix (got_in driven.front r) (submitted_at driven.hosts.feeders.items r) }
{
    if error == DriveError::NoMemory {
        drop(driven);
        return;
    }
    let Driven { front, hosts } = driven;
    let Hosts {
        feeders,
        drainers: _,
        crew: _,
    } = hosts;
    drop_beside(front, feeders);
}

/// Drives a front as `drive` does, where each feeder is the other end of the submission ring at its place. If a turn
/// failed, what the front had got from each region is the beginning of its feeder's script. It may wait for another
/// thread.
pub fn drive_fed<G: Gate + Send + Drop, R: Threads + Wait + Sync>(
    rt: &R,
    alloc: Global,
    parts: Parts,
    gates: Vec<G>,
    mode: Mode,
    patience: u32,
) -> Result<(Parts, Vec<G>), DriveError>
    requires admin_sq { 0 < length parts.front.gets }
    requires admin_cq { 0 < length parts.front.puts }
    requires pool { IsPool parts.lanes parts.front.hands.seat parts.workers.items }
    requires number { vec_len parts.workers ≡ vec_len gates }
    requires fed { IsFedBy parts.front parts.feeders.items }
    ensures lanes { IfOk result (λ r. r.0.lanes ≡ parts.lanes) }
    ensures front { IfOk result (λ r. GoesOn parts.front r.0.front) }
    ensures loaded { IfOk result (λ r. StaysLoaded parts.front r.0.front) }
    ensures feeders { IfOk result (λ r. map feeder_seen r.0.feeders.items ≡ map feeder_seen parts.feeders.items) }
    ensures drainers { IfOk result (λ r. map drainer_seen r.0.drainers.items ≡ map drainer_seen parts.drainers.items) }
    ensures workers { IfOk result (λ r. AllRan (λ view ticket. G.left (G.entered view ticket) ticket) parts.workers.items gates.items r.0.workers.items r.1.items) }
    ensures fault { IfErr result (IsFedFault parts.front parts.feeders.items) }
{
    let (shared, driven) = driven_of(alloc, parts, gates)?;
    let (driven, ended) = in_threads(rt, alloc, &shared, driven, mode, patience);
    match ended {
        Ok(()) => {
            let back = put_together(alloc, shared, driven)?;
            Ok(back)
        }
        Err(error) => {
            given_up(driven, error);
            Err(error)
        }
    }
}
