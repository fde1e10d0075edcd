// What the thread of a worker does.
ghost use Rattle.std.specs.Prelude.{◌≡◌, IfOk, map, vec_len};
ghost use Rattle.nvme_pool.specs.Runs.{Ran};

use crate::flags::Flags;
use crate::pauses::CrewPause;
use crate::tasks::{Shared, Task};
use nvme_pool::{Gate, Lanes, Worked, Worker};
use std::alloc::{AllocError, Global};
use std::sync::Wait;

/// A worker with its gate.
#[derive(Drop)]
pub struct Crewman<G: Gate + Drop> {
    pub worker: Worker,
    pub gate: G,
}

/// A worker and its gate come back with just the executions of the jobs that the worker took.
impl<G: Gate + Drop> Task for Crewman<G> {
    ghost can_run = { λ c shared. c.worker.lane ≡ shared.lanes };

    ghost ran = { λ old new. Ran (λ view ticket. G.left (G.entered view ticket) ticket) old.worker old.gate new.worker new.gate };

    fn run<R: Wait>(self, rt: &R, shared: &Shared, _place: usize) -> Crewman<G> {
        let Crewman { worker, gate } = self;
        work(rt, &shared.lanes, worker, gate, &shared.flags)
    }
}

// Executes jobs until all is over and there is nothing to do.
fn work<G: Gate + Drop, R: Wait>(
    rt: &R,
    lanes: &Lanes,
    worker: Worker,
    gate: G,
    flags: &Flags,
) -> Crewman<G>
    requires { worker.lane ≡ lanes.now }
    ensures { Ran (λ view ticket. G.left (G.entered view ticket) ticket) worker gate result.worker result.gate }
{
    let mut worker = worker;
    let mut gate = gate;
    let mut pause = CrewPause::new();
    for _ in rt.forever() {
        match worker.step(rt, lanes, &mut gate) {
            Worked::Did => pause.did_one(flags),
            Worked::Held | Worked::Nothing => {
                if flags.is_over() {
                    break;
                }
                pause.rest(rt, flags);
            }
        }
    }
    Crewman { worker, gate }
}

/// Each worker with the gate at its place.
pub fn together<G: Gate + Drop>(
    alloc: Global,
    workers: Vec<Worker>,
    gates: Vec<G>,
) -> Result<Vec<Crewman<G>>, AllocError>
    requires { vec_len workers ≡ vec_len gates }
    ensures workers { IfOk result (λ crew. map (λ c. c.worker) crew.items ≡ workers.items) }
    ensures gates { IfOk result (λ crew. map (λ c. c.gate) crew.items ≡ gates.items) }
{
    let mut crew = Vec::with_capacity(alloc, workers.len())?;
    let mut gates = gates.into_iter();
    for worker in workers {
        let Some(gate) = gates.next() else {
            unreachable!()
        };
        crew.push_reserved(Crewman { worker, gate });
    }
    Ok(crew)
}

/// The workers and the gates of a crew.
pub fn apart<G: Gate + Drop>(
    alloc: Global,
    crew: Vec<Crewman<G>>,
) -> Result<(Vec<Worker>, Vec<G>), AllocError>
    ensures workers { IfOk result (λ r. r.0.items ≡ map (λ c. c.worker) crew.items) }
    ensures gates { IfOk result (λ r. r.1.items ≡ map (λ c. c.gate) crew.items) }
{
    let mut workers = Vec::with_capacity(alloc, crew.len())?;
    let mut gates = Vec::with_capacity(alloc, crew.len())?;
    for Crewman { worker, gate } in crew {
        workers.push_reserved(worker);
        gates.push_reserved(gate);
    }
    Ok((workers, gates))
}
