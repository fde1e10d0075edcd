//! Workers, each of which takes jobs from the one lane and gives results to a ring of its own.
use crate::gate::Gate;
use crate::jobs::{Finished, Job};
use nvme_lane::{Full, Lane, PopPass, PutEnd};
use std::marker::Model;
use std::sync::Wait;

/// The lane of jobs, which is lent to the front and to all workers. Contracts see its
/// name and its capacity.
#[derive(Drop)]
pub struct Lanes {
    pub(crate) jobs: Lane<Job>,
}

impl Model for Lanes {
    ghost use Rattle.nvme_lane.specs.Passes.{LaneView};

    ghost Value = { LaneView };

    ghost view = { λ l. l.jobs };
}

/// A worker. Contracts see the jobs that it took, the executions that it made, the results that it gave
/// and the one that it keeps, with the lane and the ring that it is of and the places of that ring that
/// it knows to be free.
#[derive(Drop)]
pub struct Worker {
    pub(crate) jobs: PopPass<Job>,
    pub(crate) results: PutEnd<Finished>,
    pub(crate) kept: Option<Finished>,
}

impl Model for Worker {
    ghost use Rattle.std.specs.Prelude.{◌≡◌, map, ◌++◌};
    ghost use Rattle.nvme_pool.specs.Worker.{WorkerView, kept_list};
    ghost use Rattle.nvme_pool.specs.Jobs.{result_of};
    ghost use Rattle.nvme_pool.specs.Place.{put_place};

    ghost Value = { WorkerView };

    ghost view = { λ w. record { lane = w.jobs.lane; parts = w.jobs.parts; ring = put_place w.results; free = w.results.free; taken = w.jobs.items; executed = w.jobs.items; given = w.results.sent; kept = w.kept } };

    ghost invariant = { λ w. map result_of w.jobs.items ≡ w.results.sent ++ kept_list w.kept };
}

/// What a step of a worker did.
#[derive(Clone, Copy, PartialEq, Eq, Debug)]
pub enum Worked {
    /// A result was given: the kept one, or that of a job that the step took.
    Did,
    /// The ring was full, with no place known to be free, and the result is kept: the one kept before, or
    /// that of a job that the step took.
    Held,
    /// No result was kept, and no job was found.
    Nothing,
}

impl Worker {
    ghost use Rattle.std.specs.Prelude.{◌≡◌, ◌↔◌, Some, None, IsTrue, IsSome};
    ghost use Rattle.nvme_pool.specs.declared.jobs.Finished.{Finished};
    ghost use Rattle.nvme_pool.specs.Worker.{SameWorker, Accounts};
    ghost use Rattle.nvme_pool.specs.Steps.{Gives, IsIdle, Steps};

    /// Whether a result is kept, which the next step tries to give.
    pub fn keeps(&self) -> bool
        ensures kept { IsTrue result ↔ IsSome self.now.kept }
        ensures accounts { Accounts self.now }
    {
        self.kept.is_some()
    }

    /// One step. A worker that keeps a result tries to give it. Otherwise it takes a job, where one is
    /// found, enters the gate, executes the job, leaves the gate, and gives the result. It keeps the result
    /// only where no place of its ring is known to be free.
    pub fn step<G: Gate, R: Wait>(&mut self, rt: &R, lanes: &Lanes, gate: &mut G) -> Worked
        requires { self.old.lane ≡ lanes.now }
        ensures same { SameWorker self.old self.new }
        ensures steps { Steps (λ view ticket. G.left (G.entered view ticket) ticket) self.old gate.old result self.new gate.new }
        ensures accounts { Accounts self.new }
    {
        if self.kept.is_some() {
            return self.give();
        }
        let Some(job) = lanes.jobs.pop(rt, &mut self.jobs) else {
            return Worked::Nothing;
        };
        gate.enter(job.ticket);
        let done = job.execute();
        gate.leave(job.ticket);
        match self.results.put(done) {
            Ok(()) => Worked::Did,
            Err(Full(done)) => {
                self.kept = Some(done);
                Worked::Held
            }
        }
    }

    // Gives the result that is kept, or keeps it.
    fn give(&mut self) -> Worked
        requires { IsSome self.old.kept }
        ensures same { SameWorker self.old self.new }
        ensures idle { IsIdle self.old self.new }
        ensures gives { (done : Finished) → self.old.kept ≡ Some done → Gives self.old done result self.new }
        ensures accounts { Accounts self.new }
    {
        let Some(done) = self.kept else {
            unreachable!()
        };
        match self.results.put(done) {
            Ok(()) => {
                self.kept = None;
                Worked::Did
            }
            Err(Full(_)) => Worked::Held,
        }
    }
}
