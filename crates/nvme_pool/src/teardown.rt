//! How a pool is closed.
ghost use Rattle.std.specs.Prelude.{◌≡◌, ◌≤◌, IfOk, IfErr, length, vec_len, vec_capacity};
ghost use Rattle.std.specs.List.{All};
ghost use Rattle.nvme_pool.specs.Closing.{SharesJobs, SharesResults};
ghost use Rattle.nvme_pool.specs.Limits.{max_workers};
ghost use Rattle.nvme_pool.specs.Passes.{passes_of};
ghost use Rattle.nvme_pool.specs.Pool.{IsPool, rings_of};
ghost use Rattle.nvme_pool.specs.Seat.{rings_at};
ghost use Rattle.nvme_pool.specs.Worker.{Accounts};

use crate::construction::PoolError;
use crate::jobs::{Finished, Job};
use crate::seat::FrontSeat;
use crate::worker::{Lanes, Worker};
use nvme_lane::{GetEnd, PopPass, beside, gather};
use std::alloc::Global;
use std::sync::Wait;

/// Closes a pool, drops the jobs and the results that are left, and answers how many of each there are, at
/// most its lane's capacity of jobs. `NoMemory` hands all back, unchanged, before anything is joined. It may
/// wait for another thread.
pub fn close<R: Wait>(
    rt: &R,
    alloc: Global,
    lanes: Lanes,
    seat: FrontSeat,
    workers: Vec<Worker>,
) -> Result<(u16, u16), (PoolError, Lanes, FrontSeat, Vec<Worker>)>
    requires { IsPool lanes seat workers.items }
    ensures jobs { IfOk result (λ left. SharesJobs seat.handed workers.items left.0) }
    ensures results { IfOk result (λ left. SharesResults seat.ends workers.items left.1) }
    ensures few { IfOk result (λ left. left.0 ≤ lanes.capacity) }
    ensures accounts { IfOk result (λ _. All Accounts workers.items) }
    ensures no_memory { IfErr result (λ e. e.0 ≡ PoolError.NoMemory) }
    ensures handed_back { IfErr result (λ e. (e.1 ≡ lanes) × (e.2 ≡ seat) × (e.3.items ≡ workers.items)) }
{
    let Ok(mut pushes) = Vec::with_capacity(alloc, 1) else {
        return Err((PoolError::NoMemory, lanes, seat, workers));
    };
    let Ok(pops) = Vec::with_capacity(alloc, workers.len()) else {
        return Err((PoolError::NoMemory, lanes, seat, workers));
    };
    let Lanes { jobs: lane } = lanes;
    let FrontSeat { jobs, results } = seat;
    pushes.push_reserved(jobs);
    let (pops, rest) = retire(workers, results, pops);
    let left = gather(rt, lane, pushes, pops);
    Ok((left, rest))
}

// Takes the workers apart. The answer has their passes, and the number of results that rest in their rings.
fn retire(
    workers: Vec<Worker>,
    ends: Vec<GetEnd<Finished>>,
    mut pops: Vec<PopPass<Job>>,
) -> (Vec<PopPass<Job>>, u16)
    requires few { length workers.items ≤ max_workers }
    requires rings { rings_of workers.items ≡ rings_at ends.items }
    requires room { (vec_len pops ≡ 0) × (vec_capacity pops ≡ vec_len workers) }
    ensures passes { result.0.items ≡ passes_of workers.items }
    ensures results { SharesResults ends.items workers.items result.1 }
    ensures accounts { All Accounts workers.items }
{
    let mut rest = 0;
    let mut ends = ends.into_iter();
    for worker in workers {
        let Worker {
            jobs,
            mut results,
            kept: _,
        } = worker;
        let Some(mut end) = ends.next() else {
            unreachable!()
        };
        rest += beside(&mut results, &mut end);
        pops.push_reserved(jobs);
    }
    (pops, rest)
}
