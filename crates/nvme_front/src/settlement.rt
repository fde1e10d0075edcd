//! Settles a front with its hosts and workers, when all are back on one thread.
//!
//! Decided: the pool is closed last, since closing can't be undone. Where memory for it is refused, all parts come
//! back.
ghost use Rattle.std.specs.Prelude.{◌≡◌, ◌≢◌, ◌↔◌, ◌≤◌, ◌++◌, [], None, length, map, IfOk, OnOk, IfErr, IsTrue, vec_capacity, Vec};
ghost use Rattle.std.specs.Global.{Global};
ghost use mathlib.Core.List.{IsPrefix};
ghost use Rattle.nvme_lane.specs.View.{GetView, PutView, SameGet};
ghost use Rattle.nvme_lane.specs.Feeder.{put_of};
ghost use Rattle.nvme_lane.specs.Drainer.{items_of, get_of};
ghost use Rattle.nvme_lane.specs.declared.feeder.Feeder.{Feeder};
ghost use Rattle.nvme_lane.specs.declared.drainer.Drainer.{Drainer};
ghost use Rattle.nvme_entry.specs.declared.submission.Sqe.{Sqe};
ghost use Rattle.nvme_entry.specs.declared.completion.Cqe.{Cqe};
ghost use Rattle.nvme_front.specs.Hosts.{ArePaired, AreHosts, IsFedBy, IsDrainedBy, told, told_by};
ghost use Rattle.nvme_front.specs.inside.Resting.{Rests, Collects};
ghost use Rattle.nvme_jobs.specs.Executions.{ExecutesOnce};
ghost use Rattle.nvme_pool.specs.Worker.{WorkerView};
ghost use Rattle.std.specs.List.{All};
ghost use Rattle.nvme_front.specs.Settles.{IsSettled, IsSettledAccount, AnswersWereExecuted, CollectsMore, HasItsPool, AreAtRest, HandsBack, LeavesBy, settled_past};
ghost use Rattle.nvme_front.specs.declared.settled.SettleError.TheVariants.{Strangers, Outstanding, NoMemory};

use crate::front::Front;
use crate::settled::{Sent, SettleError, Settled};
use nvme_entry::{Cqe, Sqe};
use nvme_lane::{Drainer, Feeder};
use nvme_log::Event;
use nvme_pool::{Lanes, Worker};
use std::alloc::Global;
use std::sync::Wait;

/// A front with its hosts and its workers.
#[derive(Drop)]
pub struct Parts {
    /// The front.
    pub front: Front,
    /// The feeder of each submission region, by its number.
    pub feeders: Vec<Feeder<Sqe>>,
    /// The drainer of each completion region, by its number.
    pub drainers: Vec<Drainer<Cqe>>,
    /// The lanes of the front's pool.
    pub lanes: Lanes,
    /// The workers of the pool, in the order in which it made them.
    pub workers: Vec<Worker>,
}

// Whether the addresses of the feeders are those of the submission regions, in order.
fn are_feeders(front: &Front, feeders: &[Feeder<Sqe>]) -> bool
    ensures { IsTrue result ↔ (map (λ (f : Feeder Sqe). (put_of f).address) feeders.now ≡ map (λ (g : GetView Sqe). g.address) front.now.gets) }
{
    let count = front.sq_count();
    if feeders.len() != usize::from(count) {
        return false;
    }
    for r in 0..count {
        if feeders[usize::from(r)].address() != front.sq_address(r) {
            return false;
        }
    }
    true
}

// Whether the addresses of the drainers are those of the completion regions, in order.
fn are_drainers(front: &Front, drainers: &[Drainer<Cqe>]) -> bool
    ensures { IsTrue result ↔ (map (λ (d : Drainer Cqe). (get_of d).address) drainers.now ≡ map (λ (p : PutView Cqe). p.address) front.now.puts) }
{
    let count = front.cq_count();
    if drainers.len() != usize::from(count) {
        return false;
    }
    for c in 0..count {
        if drainers[usize::from(c)].address() != front.cq_address(c) {
            return false;
        }
    }
    true
}

// Whether the addresses of the hosts are those of the regions, in order.
fn are_hosts(front: &Front, feeders: &[Feeder<Sqe>], drainers: &[Drainer<Cqe>]) -> bool
    ensures { IsTrue result ↔ AreHosts front.now feeders.now drainers.now }
{
    are_feeders(front, feeders) && are_drainers(front, drainers)
}

// Looks at both ends of each submission ring. The answer is whether nothing rests in those of open and closing queues.
pub(crate) fn look(front: &mut Front, feeders: &mut Vec<Feeder<Sqe>>) -> bool
    requires { IsFedBy front.old feeders.old.items }
    ensures { Rests (length front.old.gets) result feeders.old.items feeders.new.items front.old front.new }
{
    let count = front.sq_count();
    let mut quiet = true;
    for r in 0..count {
        let feeder = &mut feeders[usize::from(r)];
        let rests = front.beside_sq(r, feeder);
        if rests > 0 && front.is_serving(r) {
            quiet = false;
        }
    }
    quiet
}

// Takes the given number of completions, all that rest in a drainer's ring. False where memory was refused; the drainer
// then has those that were taken.
fn take_all(drainer: &mut Drainer<Cqe>, rests: u16) -> bool
    requires { rests ≡ length (get_of drainer.old).known }
    ensures ring { SameGet (get_of drainer.old) (get_of drainer.new) }
    ensures grew { IsPrefix (items_of drainer.old) (items_of drainer.new) }
    ensures next { items_of drainer.new ++ (get_of drainer.new).known ≡ items_of drainer.old ++ (get_of drainer.old).known }
    ensures all { IsTrue result → (get_of drainer.new).known ≡ [] }
{
    for _ in 0..rests {
        if drainer.take().is_err() {
            return false;
        }
    }
    true
}

// Takes what rests in each completion ring. False where memory was refused; the drainers then have the completions that
// were taken.
fn collect(front: &mut Front, drainers: &mut Vec<Drainer<Cqe>>) -> bool
    requires { IsDrainedBy front.old drainers.old.items }
    ensures kept { Collects 0 drainers.old.items drainers.new.items front.old front.new }
    ensures all { IsTrue result → Collects (length front.old.puts) drainers.old.items drainers.new.items front.old front.new }
{
    let count = front.cq_count();
    for c in 0..count {
        let drainer = &mut drainers[usize::from(c)];
        let rests = front.beside_cq(c, drainer);
        if !take_all(drainer, rests) {
            return false;
        }
    }
    true
}

// Whether no worker keeps a result.
fn none_kept(workers: &[Worker]) -> bool
    ensures { IsTrue result ↔ All (λ (w : WorkerView). w.kept ≡ None) workers.now }
{
    workers.iter().all(|worker| !worker.keeps())
}

// What the feeders submitted.
fn sent_of(feeders: Vec<Feeder<Sqe>>, sent: Vec<Sent>) -> Vec<Sent>
    requires { (sent.items ≡ []) × (length feeders.items ≤ vec_capacity sent) }
    ensures { map told_by result.items ≡ map told feeders.items }
{
    let mut sent = sent;
    for feeder in feeders {
        let count = feeder.count();
        let script = feeder.into_script();
        let Ok(()) = sent.push(Sent { script, count }) else {
            unreachable!()
        };
    }
    sent
}

// What the drainers took.
fn collected_of(drainers: Vec<Drainer<Cqe>>, collected: Vec<Vec<Cqe>>) -> Vec<Vec<Cqe>>
    requires { (collected.items ≡ []) × (length drainers.items ≤ vec_capacity collected) }
    ensures { map (λ (v : Vec Cqe Global). v.items) result.items ≡ map (λ (d : Drainer Cqe). items_of d) drainers.items }
{
    let mut collected = collected;
    for drainer in drainers {
        let Ok(()) = collected.push(drainer.into_items()) else {
            unreachable!()
        };
    }
    collected
}

// What is left of the hosts and the front.
fn settled_of(
    log: Vec<Event>,
    feeders: Vec<Feeder<Sqe>>,
    sent: Vec<Sent>,
    drainers: Vec<Drainer<Cqe>>,
    collected: Vec<Vec<Cqe>>,
) -> Settled
    requires sent { (sent.items ≡ []) × (length feeders.items ≤ vec_capacity sent) }
    requires collected { (collected.items ≡ []) × (length drainers.items ≤ vec_capacity collected) }
    ensures log { result.log.items ≡ log.items }
    ensures sent { map told_by result.sent.items ≡ map told feeders.items }
    ensures collected { map (λ (v : Vec Cqe Global). v.items) result.collected.items ≡ map (λ (d : Drainer Cqe). items_of d) drainers.items }
{
    Settled {
        sent: sent_of(feeders, sent),
        collected: collected_of(drainers, collected),
        log,
    }
}

/// Takes what rests in the completion rings and closes the pool. The log then accounts for what was submitted, what the
/// workers executed and what was collected.
///
/// A refusal hands all parts back: `Strangers` exactly where the addresses of the hosts aren't those of the regions, in
/// order; otherwise `Outstanding` exactly where the front isn't clear, a command rests in the ring of an open queue, or
/// a worker keeps a result; otherwise `NoMemory` where memory was refused, and the drainers keep what they took until
/// then. It may wait for another thread.
pub fn settle<R: Wait>(rt: &R, alloc: Global, parts: Parts) -> Result<Settled, (SettleError, Parts)>
    requires hosts { ArePaired parts.front parts.feeders.items parts.drainers.items }
    requires pool { HasItsPool parts }
    ensures log { IfOk result (λ s. s.log.items ≡ parts.front.log) }
    ensures sent { IfOk result (λ s. map told_by s.sent.items ≡ map told parts.feeders.items) }
    ensures collected { IfOk result (λ s. CollectsMore parts.drainers.items s) }
    ensures account { IfOk result (λ s. IsSettledAccount parts.front s) }
    ensures settled { IfOk result (λ s. IsSettled s) }
    ensures hosts { OnOk result (AreHosts parts.front parts.feeders.items parts.drainers.items) }
    ensures at_rest { OnOk result (AreAtRest parts) }
    ensures executed { IfOk result (λ s. ExecutesOnce parts.front.rules.sizes (settled_past s) parts.front.hands.seat parts.workers.items) }
    ensures answered { IfOk result (λ s. AnswersWereExecuted parts.front.rules.sizes (settled_past s) parts.front.hands.seat parts.workers.items) }
    ensures back { IfErr result (λ e. HandsBack parts e.1) }
    ensures leaves { IfErr result (λ e. LeavesBy e.0 parts e.1) }
    ensures strangers { IfErr result (λ e. (e.0 ≡ Strangers) ↔ (AreHosts parts.front parts.feeders.items parts.drainers.items → ⊥)) }
    ensures not_strangers { IfErr result (λ e. e.0 ≢ Strangers → AreHosts parts.front parts.feeders.items parts.drainers.items) }
    ensures outstanding { IfErr result (λ e. e.0 ≡ Outstanding → AreAtRest parts → ⊥) }
    ensures no_memory { IfErr result (λ e. e.0 ≡ NoMemory → AreAtRest parts) }
{
    let mut parts = parts;
    if !are_hosts(
        &parts.front,
        parts.feeders.as_slice(),
        parts.drainers.as_slice(),
    ) {
        return Err((SettleError::Strangers, parts));
    }
    let quiet = look(&mut parts.front, &mut parts.feeders);
    if !quiet || !parts.front.is_clear() || !none_kept(parts.workers.as_slice()) {
        return Err((SettleError::Outstanding, parts));
    }
    let (Ok(sent), Ok(collected)) = (
        Vec::with_capacity(alloc, parts.feeders.len()),
        Vec::with_capacity(alloc, parts.drainers.len()),
    ) else {
        return Err((SettleError::NoMemory, parts));
    };
    if !collect(&mut parts.front, &mut parts.drainers) {
        return Err((SettleError::NoMemory, parts));
    }
    let Parts {
        front,
        feeders,
        drainers,
        lanes,
        workers,
    } = parts;
    match front.into_log(rt, alloc, lanes, workers) {
        Ok(log) => Ok(settled_of(log, feeders, sent, drainers, collected)),
        Err((front, lanes, workers)) => {
            let parts = Parts {
                front,
                feeders,
                drainers,
                lanes,
                workers,
            };
            Err((SettleError::NoMemory, parts))
        }
    }
}
