//! A device that one thread serves, as an emulator's loop does: the host submits admin commands and collects their
//! completions, the front makes its turns, and a worker executes jobs.
ghost use Rattle.std.specs.Prelude.{◌≡◌, [], ◌∷◌, false};
ghost use Rattle.nvme_front.specs.Hosts.{IsFedBy, IsDrainedBy};
ghost use Rattle.nvme_pool.specs.Pool.{IsPool};

use nvme_entry::{Cqe, Sqe};
use nvme_front::{Front, FrontConfig, FrontError, Parts, SettleError, Settled, settle};
use nvme_lane::{Drainer, Feeder, ring};
use nvme_pool::{Lanes, NoGate, Worker, pool};
use std::alloc::{AllocError, Global};
use std::sync::Wait;

/// The slots of each admin ring, which holds one entry less.
pub const SLOTS: u16 = 8;

/// A front with the two admin regions, the host's ends of their rings, and the worker of its pool. Its type keeps that
/// they belong together.
#[derive(Drop)]
pub struct Device {
    pub front: Front,
    pub feeder: Feeder<Sqe>,
    pub drainer: Drainer<Cqe>,
    pub lanes: Lanes,
    pub worker: Worker,
    pub ghost fed: { IsFedBy front (feeder ∷ []) },
    pub ghost drained: { IsDrainedBy front (drainer ∷ []) },
    pub ghost pool: { IsPool lanes front.hands.seat (worker ∷ []) },
    pub ghost none_before: { front.hands.came.handed ≡ [] },
    pub ghost in_time: { front.late ≡ false },
}

impl Device {
    ghost use Rattle.std.specs.Prelude.{◌≡◌, ◌↔◌, ◌<◌, [], ◌∷◌, IfOk, IsTrue};
    ghost use mathlib.Core.List.{IsPrefix};
    ghost use Rattle.nvme_lane.specs.Feeder.{script_of};
    ghost use Rattle.nvme_lane.specs.Drainer.{items_of};
    ghost use Rattle.nvme_jobs.specs.Executions.{ExecutesOnce};
    ghost use Rattle.nvme_log.specs.Laws.{KeepsThePromise};
    ghost use Rattle.nvme_front.specs.View.{GoesOn, AccountsForEnds};
    ghost use Rattle.nvme_front.specs.Hosts.{sent_at, collected_at};
    ghost use Rattle.nvme_front.specs.Settles.{settled_past};
    ghost use Rattle.nvme_front_uses.specs.Devices.{IsNew, IsDone};

    /// A device whose host will submit this script. Nothing was done yet.
    pub fn new(alloc: Global, config: FrontConfig, script: Vec<Sqe>) -> Result<Device, AllocError>
        ensures { IfOk result (λ device. IsNew config script.items device) }
    {
        let (Ok((lanes, seat, mut workers)), Ok((sq_put, sq_get)), Ok((cq_put, cq_get))) = (
            pool(alloc, 1),
            ring(alloc, 0x1000, SLOTS),
            ring(alloc, 0x8000, SLOTS),
        ) else {
            return Err(AllocError);
        };
        let Some(worker) = workers.pop() else {
            unreachable!()
        };
        let mut front = Front::new(alloc, config, seat);
        let Ok(_) = front.add_sq_region(sq_get) else {
            return Err(AllocError);
        };
        let Ok(_) = front.add_cq_region(cq_put) else {
            return Err(AllocError);
        };
        Ok(Device {
            front,
            feeder: Feeder::new(script, sq_put),
            drainer: Drainer::new(alloc, cq_get),
            lanes,
            worker,
        })
    }

    // The host submits a command, the front makes a turn, the worker a step, and the host collects a completion.
    fn round<R: Wait>(&mut self, rt: &R) -> Result<(), FrontError>
        ensures goes_on { GoesOn self.old.front self.new.front }
        ensures account { AccountsForEnds self.new.front }
        ensures script { script_of self.new.feeder ≡ script_of self.old.feeder }
        ensures collected { IsPrefix (items_of self.old.drainer) (items_of self.new.drainer) }
    {
        let _fed = self.feeder.step();
        self.front.turn(rt, &self.lanes)?;
        let _worked = self.worker.step(rt, &self.lanes, &mut NoGate);
        match self.drainer.take() {
            Ok(_) => Ok(()),
            Err(_) => Err(FrontError::NoMemory),
        }
    }

    // The front is clear, and the host has a completion for each command of its script.
    fn is_done(&self) -> bool
        ensures { IsTrue result ↔ IsDone self.now }
    {
        self.front.is_clear() && self.drainer.items().len() == self.feeder.script().len()
    }

    /// Makes at most `rounds` rounds, and answers true once the front is clear and all was collected. Whatever it
    /// answers, what was done stands, and a later call goes on from there. It may wait for another thread.
    pub fn serve<R: Wait>(&mut self, rt: &R, rounds: u32) -> Result<bool, FrontError>
        ensures goes_on { GoesOn self.old.front self.new.front }
        ensures account { 0 < rounds → AccountsForEnds self.new.front }
        ensures script { script_of self.new.feeder ≡ script_of self.old.feeder }
        ensures collected { IsPrefix (items_of self.old.drainer) (items_of self.new.drainer) }
        ensures done { IfOk result (λ done. IsTrue done → IsDone self.new) }
    {
        for _ in 0..rounds {
            self.round(rt)?;
            if self.is_done() {
                return Ok(true);
            }
        }
        Ok(false)
    }

    /// Ends the device. What it answers keeps the promise of a run. Where work is outstanding or memory was refused,
    /// the device is dropped. It may wait for another thread.
    pub fn settle<R: Wait>(self, rt: &R, alloc: Global) -> Result<Settled, SettleError>
        ensures log { IfOk result (λ s. s.log.items ≡ self.front.log) }
        ensures collected { IfOk result (λ s. IsPrefix (items_of self.drainer) (collected_at s.collected.items 0)) }
        ensures executed { IfOk result (λ s. ExecutesOnce self.front.rules.sizes (settled_past s) self.front.hands.seat (self.worker ∷ [])) }
        ensures promise { IfOk result (λ s. KeepsThePromise self.front.rules (sent_at s.sent.items) (settled_past s) (collected_at s.collected.items)) }
    {
        let Device {
            front,
            feeder,
            drainer,
            lanes,
            worker,
        } = self;
        let (Ok(feeders), Ok(drainers), Ok(workers)) = (
            vec![in alloc; feeder],
            vec![in alloc; drainer],
            vec![in alloc; worker],
        ) else {
            drop(front);
            return Err(SettleError::NoMemory);
        };
        let parts = Parts {
            front,
            feeders,
            drainers,
            lanes,
            workers,
        };
        match settle(rt, alloc, parts) {
            Ok(settled) => Ok(settled),
            Err((error, _)) => Err(error),
        }
    }
}
