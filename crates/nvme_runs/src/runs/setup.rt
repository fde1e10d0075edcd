// Makes a front with its hosts and its workers for a workload.
ghost use Rattle.std.specs.Prelude.{◌≡◌, ◌≢◌, ℕ, ◌≤◌, ◌<◌, ◌++◌, false, [], length, map, vec_len, IfOk, IfSome, IfNone};
ghost use Rattle.std.specs.List.{All, AllPairs, AllZip};
ghost use Rattle.nvme_entry.specs.declared.submission.Sqe.{Sqe};
ghost use Rattle.nvme_lane.specs.View.{GetView};
ghost use Rattle.nvme_admin.specs.declared.bounds.TheConstants.{MAX_REGIONS};
ghost use Rattle.nvme_pool.specs.Limits.{max_workers};
ghost use Rattle.nvme_front.specs.Ends.{get_place};
ghost use Rattle.nvme_front.specs.Hosts.{feeder_place};
ghost use Rattle.nvme_front.specs.View.{is_address};
ghost use Rattle.nvme_threads.specs.declared.loaded_rings.SqEnds.{SqEnds};
ghost use Rattle.nvme_workload.specs.declared.plan.SqPlan.{SqPlan};
ghost use Rattle.nvme_workload.specs.declared.plan.CqPlan.{CqPlan};
ghost use Rattle.nvme_workload.specs.Plan.{plan_of};
ghost use Rattle.nvme_workload.specs.Sound.{IsSound, AreSlots};
ghost use Rattle.nvme_runs.specs.Runs.{IsFirstTooLong, FitsAll};
ghost use Rattle.nvme_runs.specs.inside.Prepared.{IsPrepared, StaysFresh, IsRingOf, IsFreshRing, AddsSq, AddsCq, AddsSqs, AddsCqs, AddsRegions, IsConfigOf, IsFrontOf};

use nvme_entry::{Cqe, Sqe};
use nvme_front::{AddError, Front, FrontConfig, MAX_EVENTS, Parts};
use nvme_lane::{Drainer, Feeder, LaneError, Mode, ring};
use nvme_pool::{FrontSeat, Lanes, PoolError, pool};
use nvme_threads::{SqEnds, load};
use nvme_workload::{CqPlan, SqPlan, Workload};
use std::alloc::{AllocError, Global};
use std::sync::Wait;
use std::thread::Threads;

/// The first submission region whose script has more commands than its ring holds.
pub fn first_too_long(submissions: &[SqPlan]) -> Option<u8>
    requires { length submissions.now ≤ MAX_REGIONS }
    ensures some { IfSome result (λ r. IsFirstTooLong submissions.now r) }
    ensures none { IfNone result (FitsAll submissions.now) }
{
    let mut region = 0u8;
    for plan in submissions {
        if plan.script.as_slice().len() >= usize::from(plan.slots) {
            return Some(region);
        }
        region += 1;
    }
    None
}

// The ring of a submission region, with the host's script at the host's end.
fn sq_ring(alloc: Global, plan: SqPlan) -> Result<SqEnds, AllocError>
    requires slots { AreSlots plan.slots }
    ensures { IfOk result (λ e. IsRingOf plan e) }
{
    let SqPlan {
        address,
        slots,
        script,
    } = plan;
    match ring(alloc, address, slots) {
        Ok((put, get)) => Ok(SqEnds {
            feeder: Feeder::new(script.into_vec(), put),
            get,
        }),
        Err(LaneError::NoMemory) => Err(AllocError),
        Err(LaneError::Size) => unreachable!(),
    }
}

// The rings of submission regions.
fn sq_rings(alloc: Global, plans: Vec<SqPlan>) -> Result<Vec<SqEnds>, AllocError>
    requires slots { All (λ (s : SqPlan). AreSlots s.slots) plans.items }
    ensures { IfOk result (λ es. AllZip IsRingOf plans.items es.items) }
{
    let mut rings = Vec::with_capacity(alloc, plans.len())?;
    for plan in plans {
        rings.push_reserved(sq_ring(alloc, plan)?);
    }
    Ok(rings)
}

// The rings of submission regions. With `Mode::Loaded` their scripts are submitted. The lanes come back.
fn fed_rings<R: Threads + Wait + Sync>(
    rt: &R,
    alloc: Global,
    mode: Mode,
    lanes: Lanes,
    plans: Vec<SqPlan>,
) -> Result<(Lanes, Vec<SqEnds>), AllocError>
    requires slots { All (λ (s : SqPlan). AreSlots s.slots) plans.items }
    ensures lanes { IfOk result (λ r. r.0 ≡ lanes) }
    ensures rings { IfOk result (λ r. AllZip IsRingOf plans.items r.1.items) }
{
    let rings = sq_rings(alloc, plans)?;
    match mode {
        Mode::Loaded => load(rt, alloc, lanes, rings),
        Mode::Live => Ok((lanes, rings)),
    }
}

// Adds a submission region to a front, and gives the host's end. The front's end then knows what rests in the ring.
fn add_sq(front: &mut Front, ends: SqEnds) -> Result<Feeder<Sqe>, AllocError>
    requires pair { feeder_place ends.feeder ≡ get_place ends.get }
    requires nothing_got { ends.get.got ≡ [] }
    requires apart { is_address front.old ends.get.address ≡ false }
    requires few { length front.old.gets < MAX_REGIONS }
    requires fresh { front.old.log ≡ [] }
    ensures { IfOk result (λ f. AddsSq ends f front.old front.new) }
{
    let SqEnds {
        mut feeder,
        mut get,
    } = ends;
    feeder.beside(&mut get);
    match front.add_sq_region(get) {
        Ok(_) => Ok(feeder),
        Err((AddError::NoMemory, _)) => Err(AllocError),
        Err((AddError::Used | AddError::TooMany, _)) => unreachable!(),
    }
}

// Adds a completion region to a front, and gives the host's end of its ring.
fn add_cq(alloc: Global, front: &mut Front, plan: CqPlan) -> Result<Drainer<Cqe>, AllocError>
    requires slots { AreSlots plan.slots }
    requires apart { is_address front.old plan.address ≡ false }
    requires few { length front.old.puts < MAX_REGIONS }
    requires fresh { front.old.log ≡ [] }
    ensures added { IfOk result (λ d. AddsCq plan.address plan.slots d front.old front.new) }
{
    let (put, get) = match ring(alloc, plan.address, plan.slots) {
        Ok(ends) => ends,
        Err(LaneError::NoMemory) => return Err(AllocError),
        Err(LaneError::Size) => unreachable!(),
    };
    match front.add_cq_region(put) {
        Ok(_) => Ok(Drainer::new(alloc, get)),
        Err((AddError::NoMemory, _)) => Err(AllocError),
        Err((AddError::Used | AddError::TooMany, _)) => unreachable!(),
    }
}

// Adds the submission regions of a workload, and gives their hosts.
fn add_sqs(
    alloc: Global,
    front: &mut Front,
    rings: Vec<SqEnds>,
) -> Result<Vec<Feeder<Sqe>>, AllocError>
    requires first { (front.old.gets ≡ []) × (front.old.puts ≡ []) }
    requires fresh { StaysFresh front.old front.old }
    requires rings { All IsFreshRing rings.items }
    requires apart { AllPairs (λ (a b : ℕ). a ≢ b) (map (λ (e : SqEnds). e.get.address) rings.items) }
    requires few { length rings.items ≤ MAX_REGIONS }
    ensures added { IfOk result (λ fs. AddsSqs rings.items fs.items front.old front.new) }
{
    let mut feeders = Vec::with_capacity(alloc, rings.len())?;
    for ends in rings {
        feeders.push_reserved(add_sq(front, ends)?);
    }
    Ok(feeders)
}

// Adds the completion regions of a workload after its submission regions, and gives their hosts.
fn add_cqs(
    alloc: Global,
    front: &mut Front,
    plans: Vec<CqPlan>,
) -> Result<Vec<Drainer<Cqe>>, AllocError>
    requires first { front.old.puts ≡ [] }
    requires fresh { StaysFresh front.old front.old }
    requires slots { All (λ (c : CqPlan). AreSlots c.slots) plans.items }
    requires apart { AllPairs (λ (a b : ℕ). a ≢ b) (map (λ (g : GetView Sqe). g.address) front.old.gets ++ map (λ (c : CqPlan). c.address) plans.items) }
    requires few { length plans.items ≤ MAX_REGIONS }
    ensures added { IfOk result (λ ds. AddsCqs plans.items ds.items front.old front.new) }
{
    let mut drainers = Vec::with_capacity(alloc, plans.len())?;
    for plan in plans {
        drainers.push_reserved(add_cq(alloc, front, plan)?);
    }
    Ok(drainers)
}

// Adds the regions of a workload to a front that has none, and gives their hosts.
fn add_regions(
    alloc: Global,
    front: &mut Front,
    rings: Vec<SqEnds>,
    plans: Vec<CqPlan>,
) -> Result<(Vec<Feeder<Sqe>>, Vec<Drainer<Cqe>>), AllocError>
    requires first { (front.old.gets ≡ []) × (front.old.puts ≡ []) }
    requires fresh { StaysFresh front.old front.old }
    requires rings { All IsFreshRing rings.items }
    requires slots { All (λ (c : CqPlan). AreSlots c.slots) plans.items }
    requires apart { AllPairs (λ (a b : ℕ). a ≢ b) (map (λ (e : SqEnds). e.get.address) rings.items ++ map (λ (c : CqPlan). c.address) plans.items) }
    requires few_rings { length rings.items ≤ MAX_REGIONS }
    requires few_plans { length plans.items ≤ MAX_REGIONS }
    ensures added { IfOk result (λ r. AddsRegions rings.items plans.items r.0.items r.1.items front.old front.new) }
{
    let feeders = add_sqs(alloc, front, rings)?;
    let drainers = add_cqs(alloc, front, plans)?;
    Ok((feeders, drainers))
}

// A front with the regions of a workload, and their hosts.
fn front_of(
    alloc: Global,
    config: FrontConfig,
    seat: FrontSeat,
    rings: Vec<SqEnds>,
    plans: Vec<CqPlan>,
) -> Result<(Front, Vec<Feeder<Sqe>>, Vec<Drainer<Cqe>>), AllocError>
    requires rings { All IsFreshRing rings.items }
    requires slots { All (λ (c : CqPlan). AreSlots c.slots) plans.items }
    requires apart { AllPairs (λ (a b : ℕ). a ≢ b) (map (λ (e : SqEnds). e.get.address) rings.items ++ map (λ (c : CqPlan). c.address) plans.items) }
    requires few_rings { length rings.items ≤ MAX_REGIONS }
    requires few_plans { length plans.items ≤ MAX_REGIONS }
    ensures made { IfOk result (λ r. IsFrontOf config seat rings.items plans.items r.1.items r.2.items r.0) }
{
    let mut front = Front::new(alloc, config, seat);
    let (feeders, drainers) = add_regions(alloc, &mut front, rings, plans)?;
    Ok((front, feeders, drainers))
}

// The configuration of a workload's front.
fn config_of(workload: &Workload) -> FrontConfig
    ensures { IsConfigOf (plan_of workload.now) result }
{
    FrontConfig {
        mechanism: workload.mechanism,
        settings: workload.settings,
        limits: workload.limits,
        spaces: workload.spaces,
        max_events: MAX_EVENTS,
    }
}

/// Makes the front of a workload with its hosts and this many workers, 1 to `nvme_pool::MAX_WORKERS`. With
/// `Mode::Loaded` the hosts have submitted their scripts, and their threads are joined.
pub fn prepare<R: Threads + Wait + Sync>(
    rt: &R,
    alloc: Global,
    workload: Workload,
    mode: Mode,
    workers: u8,
) -> Result<Parts, AllocError>
    requires sound { IsSound (plan_of workload) }
    requires workers { (1 ≤ workers) × (workers ≤ max_workers) }
    ensures prepared { IfOk result (λ p. IsPrepared (plan_of workload) p) }
    ensures workers { IfOk result (λ p. vec_len p.workers ≡ workers) }
{
    let (lanes, seat, workers) = match pool(alloc, workers) {
        Ok(made) => made,
        Err(PoolError::NoMemory) => return Err(AllocError),
        Err(PoolError::Workers) => unreachable!(),
    };
    let config = config_of(&workload);
    let Workload {
        submissions,
        completions,
        ..
    } = workload;
    let (lanes, rings) = fed_rings(rt, alloc, mode, lanes, submissions.into_vec())?;
    let (front, feeders, drainers) = front_of(alloc, config, seat, rings, completions.into_vec())?;
    Ok(Parts {
        front,
        feeders,
        drainers,
        lanes,
        workers,
    })
}
