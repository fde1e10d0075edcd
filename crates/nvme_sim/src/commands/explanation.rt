// What the words `run` and `trace` tell of a fault beside its fixed line.
ghost use Rattle.std.specs.Prelude.{◌≡◌};
ghost use Rattle.nvme_sim.specs.Statuses.{status_of};
ghost use Rattle.nvme_sim.specs.inside.Explained.{IsExplained, IsExplainedFault};

use crate::faults::Fault;
use crate::long_script::LongScript;
use nvme_runs::RunError;
use nvme_short::Standing;
use nvme_workload::{ReadError, WorkloadError, read, read_placed};
use std::alloc::Global;

// The first fault of a workload, with its place.
fn placed(alloc: Global, text: &[u8], error: WorkloadError) -> Fault
    ensures { status_of result ≡ 1 }
{
    match read_placed(alloc, text) {
        Err(ReadError::Fault(fault)) => Fault::Placed(error, fault),
        _ => Fault::Run(RunError::Workload(error)),
    }
}

// That a run gave up, with the patience of its workload.
fn out_of_patience(alloc: Global, text: &[u8]) -> Fault
    ensures { status_of result ≡ 3 }
{
    match read(alloc, text) {
        Ok(workload) => Fault::GaveUp(workload.patience),
        Err(_) => Fault::Run(RunError::GaveUp),
    }
}

// That a script is too long for its ring, with the lengths of both.
fn too_long(alloc: Global, file: &Standing, region: u8) -> Fault
    ensures { status_of result ≡ 3 }
{
    let Ok(workload) = read(alloc, file.text.as_slice()) else {
        return Fault::Run(RunError::TooLong(region));
    };
    match workload.submissions.as_slice().get(usize::from(region)) {
        Some(plan) => Fault::TooLong(LongScript {
            region,
            commands: plan.script.as_slice().len(),
            slots: plan.slots,
            is_short: file.names.is_some(),
        }),
        None => Fault::Run(RunError::TooLong(region)),
    }
}

// A fault of a run of this file, with what is known of it.
fn explained_fault(alloc: Global, file: &Standing, fault: Fault) -> Fault
    ensures { IsExplainedFault fault result }
{
    match fault {
        Fault::Run(RunError::Workload(error)) => placed(alloc, file.text.as_slice(), error),
        Fault::Run(RunError::Front(error)) => Fault::Front(error),
        Fault::Run(RunError::TooLong(region)) => too_long(alloc, file, region),
        Fault::Run(RunError::GaveUp) => out_of_patience(alloc, file.text.as_slice()),
        fault => fault,
    }
}

/// The answer of a run of this file, where a fault tells in a second line what is known of it. It isn't inlined, so that
/// its stack isn't that of the run.
#[inline(never)]
pub(super) fn explained<T: Drop>(
    alloc: Global,
    file: &Standing,
    answer: Result<T, Fault>,
) -> Result<T, Fault>
    ensures { IsExplained answer result }
{
    match answer {
        Ok(answer) => Ok(answer),
        Err(fault) => Err(explained_fault(alloc, file, fault)),
    }
}
