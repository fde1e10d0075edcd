// The loop of a device that has nothing to execute, over the calls of a controller, as tools/bench runs it over those of the C
// library and over a front by hand: the same comes out of all.
mod calls;
mod faults;
mod making;
mod refusals;
mod rounds;
mod workload;

ghost use Rattle.nvme_ctrl.specs.Standing.{IsController};

use crate::loops::making::make;
use crate::loops::refusals::refuse;
use crate::loops::rounds::counted;
use crate::loops::workload::{Case, Kept};
use anyhow::Result;
use nvme_arbiter::Mechanism;
use nvme_ctrl::{Controller, Slot};
use std::alloc::{AllocError, Global};
use std::time::{CpuClock, Duration};

// The slots of the pool.
const POOL: u16 = 4096;

// The runs of a case, of which the fastest is told.
const RUNS: u32 = 9;

// What runs of a case came to.
#[derive(Clone, Copy)]
struct Came {
    // The commands of a run.
    commands: u64,
    // The time of the fastest run.
    least: Duration,
    sum: u64,
}

// The time of the fastest of so many runs.
fn run_often<R: CpuClock>(
    rt: &R,
    ctrl: &mut Controller,
    slots: &mut [Slot],
    kept: &mut Kept,
    case: Case,
    rounds: u32,
    runs: u32,
) -> Result<Duration>
    requires front { IsController ctrl.old slots.old }
{
    let mut least = Duration::MAX;
    for _ in 0..runs {
        let begun = rt.process_cpu_time()?;
        counted(ctrl, slots, kept, case, rounds)?;
        let took = rt.process_cpu_time()?.saturating_sub(begun);
        least = least.min(took);
    }
    Ok(least)
}

// Runs of at least one round, of `count` commands.
fn run<R: CpuClock + Alloc<A = Global>>(rt: &R, case: Case, count: u32, runs: u32) -> Result<Came> {
    let mut pool = vec![in rt.alloc(); Slot::free(); usize::from(POOL)]?;
    let slots = pool.as_mut_slice();
    let mut ctrl = make(case, slots)?;
    let mut kept = Kept::new();
    let closed = case.queues.saturating_add(1);
    refuse(&mut ctrl, slots, &mut kept, closed, POOL)?;
    let in_a_round = u32::from(case.queues) * u32::from(case.batch);
    let rounds = (count / in_a_round.max(1)).max(1);
    let least = run_often(rt, &mut ctrl, slots, &mut kept, case, rounds, runs)?;
    Ok(Came {
        commands: u64::from(rounds) * u64::from(in_a_round),
        least,
        sum: kept.sum,
    })
}

// The name of a mechanism in the figures.
const fn name_of(mechanism: Mechanism) -> &'static str {
    match mechanism {
        Mechanism::RoundRobin => "round robin",
        Mechanism::Weighted => "weighted",
    }
}

// The name of a case in the figures.
fn name_in(alloc: Global, case: Case) -> Result<String, AllocError> {
    let mechanism = name_of(case.mechanism);
    let (queues, batch) = (case.queues, case.batch);
    let s = if queues == 1 { "" } else { "s" };
    format!(in alloc; "loop, {mechanism}, {queues} queue{s}, {batch} at a time")
}

// Measures a case. Its checksum goes to standard output, too.
fn measure_one<R: CpuClock + Print + Eprint + Alloc<A = Global>>(
    rt: &R,
    case: Case,
    count: u32,
) -> Result<()> {
    let name = name_in(rt.alloc(), case)?;
    let came = run(rt, case, count, RUNS)?;
    let tenths = came.least.as_nanos().saturating_mul(10) / u128::from(came.commands.max(1));
    let (whole, tenth, sum) = (tenths / 10, tenths % 10, came.sum);
    eprintln!(rt; "{name}: from Rattle {whole}.{tenth} ns, checksum {sum:016x}")?;
    println!(rt; "{name}: checksum {sum:016x}")?;
    Ok(())
}

// One run of a case, for a program that counts the instructions of `counted`.
fn count_one<R: CpuClock + Print + Alloc<A = Global>>(
    rt: &R,
    case: Case,
    count: u32,
) -> Result<()> {
    let name = name_in(rt.alloc(), case)?;
    let came = run(rt, case, count, 1)?;
    let commands = came.commands;
    println!(rt; "{name}|from Rattle|{commands}")?;
    Ok(())
}

// The cases: both mechanisms, commands one and 32 at a time, and 1 to 64 queues.
fn cases() -> [Case; 16] {
    let mut cases = [Case {
        mechanism: Mechanism::RoundRobin,
        queues: 1,
        batch: 1,
    }; 16];
    for (k, case) in cases.iter_mut().enumerate() {
        let mechanism = if k < 8 {
            Mechanism::RoundRobin
        } else {
            Mechanism::Weighted
        };
        *case = Case {
            mechanism,
            queues: [1, 4, 16, 64][k % 4],
            batch: if k / 4 % 2 == 0 { 1 } else { 32 },
        };
    }
    cases
}

/// Measures the processor time of a command in each case.
pub fn measure<R: CpuClock + Print + Eprint + Alloc<A = Global>>(rt: &R, count: u32) -> Result<()> {
    for case in cases() {
        measure_one(rt, case, count)?;
    }
    Ok(())
}

/// Runs each case once, and tells on standard output how many commands went through.
pub fn count<R: CpuClock + Print + Alloc<A = Global>>(rt: &R, count: u32) -> Result<()> {
    for case in cases() {
        count_one(rt, case, count)?;
    }
    Ok(())
}
