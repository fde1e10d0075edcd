//! How a pool is made.
ghost use Rattle.std.specs.Prelude.{◌≡◌, ◌↔◌, IfOk, map, vec_len};
ghost use Rattle.std.specs.List.{All};
ghost use Rattle.nvme_lane.specs.Limits.{IsOutside};
ghost use Rattle.nvme_lane.specs.Passes.{AreBlank};
ghost use Rattle.nvme_pool.specs.Limits.{job_capacity, max_workers};
ghost use Rattle.nvme_pool.specs.Pool.{IsPool, IsBlank, IsFreshEnd, HavePlaces, rings_of};
ghost use Rattle.nvme_pool.specs.Seat.{rings_at};
ghost use Rattle.nvme_pool.specs.Worker.{IsFresh};
ghost use Rattle.nvme_pool.specs.Passes.{passes_of};

use crate::jobs::{Finished, Job};
use crate::limits::{JOB_CAPACITY, MAX_WORKERS, RESULT_SLOTS};
use crate::seat::FrontSeat;
use crate::worker::{Lanes, Worker};
use nvme_lane::{GetEnd, LaneError, PopPass, lane, ring};
use std::alloc::Global;
use thiserror::Error;

/// Why a pool wasn't made, or wasn't closed.
#[derive(Clone, Copy, PartialEq, Eq, Debug, Error)]
pub enum PoolError {
    /// The number of workers is outside 1 to `MAX_WORKERS`. Nothing was made.
    #[error("number of workers outside 1 to 8")]
    Workers,
    /// An allocation was refused. Nothing was made or closed.
    #[error("out of memory")]
    NoMemory,
}

/// The lanes, the front's seat and the workers of a pool, whose lane holds `JOB_CAPACITY` jobs. `Workers`
/// exactly where their number is outside 1 to `MAX_WORKERS`; `NoMemory` where an allocation was refused.
pub fn pool(alloc: Global, workers: u8) -> Result<(Lanes, FrontSeat, Vec<Worker>), PoolError>
    ensures workers { (result ≡ Err PoolError.Workers) ↔ IsOutside workers 1 max_workers }
    ensures count { IfOk result (λ r. vec_len r.2 ≡ workers) }
    ensures capacity { IfOk result (λ r. r.0.capacity ≡ job_capacity) }
    ensures pool { IfOk result (λ r. IsPool r.0 r.1 r.2.items) }
    ensures blank { IfOk result (λ r. IsBlank r.1 r.2.items) }
{
    if workers == 0 || workers > MAX_WORKERS {
        return Err(PoolError::Workers);
    }
    let Ok((jobs, mut pushes, pops)) = lane::<Job>(alloc, JOB_CAPACITY, 1, workers) else {
        return Err(PoolError::NoMemory);
    };
    let Some(push) = pushes.pop() else {
        unreachable!()
    };
    let Ok((made, ends)) = with_rings(alloc, pops) else {
        return Err(PoolError::NoMemory);
    };
    let seat = FrontSeat {
        jobs: push,
        results: ends,
    };
    Ok((Lanes { jobs }, seat, made))
}

// A worker for each pass, with a ring of its own whose address is the worker's place.
fn with_rings(
    alloc: Global,
    pops: Vec<PopPass<Job>>,
) -> Result<(Vec<Worker>, Vec<GetEnd<Finished>>), LaneError>
    requires { AreBlank pops.items }
    ensures count { IfOk result (λ r. vec_len r.0 ≡ vec_len pops) }
    ensures passes { IfOk result (λ r. pops.items ≡ passes_of r.0.items) }
    ensures rings { IfOk result (λ r. rings_of r.0.items ≡ rings_at r.1.items) }
    ensures workers { IfOk result (λ r. All IsFresh r.0.items) }
    ensures ends { IfOk result (λ r. All IsFreshEnd r.1.items) }
    ensures addresses { IfOk result (λ r. HavePlaces r.1.items) }
{
    let Ok(mut made) = Vec::with_capacity(alloc, pops.len()) else {
        return Err(LaneError::NoMemory);
    };
    let Ok(mut ends) = Vec::with_capacity(alloc, pops.len()) else {
        return Err(LaneError::NoMemory);
    };
    for jobs in pops {
        let (results, end) = ring::<Finished>(alloc, made.len() as u64, RESULT_SLOTS)?;
        made.push_reserved(Worker {
            jobs,
            results,
            kept: None,
        });
        ends.push_reserved(end);
    }
    Ok((made, ends))
}
