// Settles the parts of a run when its threads are joined.
//
// Decided: a front that gives up is settled all the same. The run answers Ok where all was done by then, else `GaveUp`.
ghost use Rattle.std.specs.Prelude.{◌≡◌, ◌≢◌, ◌↔◌, ◌⊎◌, ◌<◌, ◌≤◌, length, map, IfOk, IfErr, IsErrOf, IsTrue, IsFalse, OnOk};
ghost use Rattle.nvme_admin.specs.declared.bounds.TheConstants.{MAX_REGIONS};
ghost use Rattle.nvme_front.specs.Hosts.{IsFedBy, IsDrainedBy, told, told_by};
ghost use Rattle.nvme_front.specs.Settles.{HasItsPool, AreAtRest, IsSettled, IsSettledAccount, AnswersWereExecuted, settled_past};
ghost use Rattle.nvme_jobs.specs.Executions.{ExecutesOnce};
ghost use Rattle.nvme_lane.specs.Feeder.{script_of, count_of};
ghost use Rattle.nvme_front.specs.declared.settled.SettleError.TheVariants as settling;
ghost use Rattle.nvme_lane.specs.declared.mode.Mode.TheVariants.{Loaded};
ghost use Rattle.nvme_runs.specs.Runs.{AllSubmitted, IsDue};
ghost use Rattle.nvme_runs.specs.declared.runs.RunError.TheVariants as fault;

use crate::runs::RunError;
use nvme_entry::Sqe;
use nvme_front::{Front, Parts, SettleError, Settled, settle};
use nvme_lane::{Feeder, Mode};
use std::alloc::Global;
use std::sync::Wait;

// Whether the script of a region is due: with `Mode::Loaded` always, otherwise where the region is served.
fn is_due(front: &Front, mode: Mode, region: u8) -> bool
    requires there { region < length front.now.gets }
    ensures { IsTrue result ↔ IsDue mode front.now region }
{
    mode == Mode::Loaded || front.is_serving(region)
}

// Whether a script is wholly submitted.
fn is_submitted(feeder: &Feeder<Sqe>) -> bool
    ensures { IsTrue result ↔ (count_of feeder.now ≡ length (script_of feeder.now)) }
{
    feeder.count() >= feeder.script().len()
}

// Whether a script is due and isn't wholly submitted.
fn is_left(front: &Front, mode: Mode, region: u8, feeder: &Feeder<Sqe>) -> bool
    requires there { region < length front.now.gets }
    ensures left { IsTrue result → IsDue mode front.now region × (count_of feeder.now ≢ length (script_of feeder.now)) }
    ensures done { IsFalse result → IsDue mode front.now region → count_of feeder.now ≡ length (script_of feeder.now) }
{
    is_due(front, mode, region) && !is_submitted(feeder)
}

// Whether each script that is due is wholly submitted.
fn all_submitted(parts: &Parts, mode: Mode) -> bool
    requires few { length parts.now.feeders.items ≤ MAX_REGIONS }
    requires fed { IsFedBy parts.now.front parts.now.feeders.items }
    ensures { IsTrue result ↔ AllSubmitted mode parts.now.front parts.now.feeders.items }
{
    let mut region = 0u8;
    for feeder in &parts.feeders {
        if is_left(&parts.front, mode, region, feeder) {
            return false;
        }
        region += 1;
    }
    true
}

/// Whether each script is wholly submitted, with `Mode::Loaded`. With `Mode::Live` it is always true.
pub fn are_loaded(parts: &Parts, mode: Mode) -> bool
    requires few { length parts.now.feeders.items ≤ MAX_REGIONS }
    requires fed { IsFedBy parts.now.front parts.now.feeders.items }
    ensures { IsTrue result → mode ≡ Loaded → AllSubmitted mode parts.now.front parts.now.feeders.items }
{
    mode == Mode::Live || all_submitted(parts, mode)
}

// The error of a run whose settling failed, where the hosts are those of the front.
fn run_error_of(error: SettleError) -> RunError
    requires hosts { error ≢ settling.Strangers }
    ensures outstanding { error ≡ settling.Outstanding → result ≡ fault.GaveUp }
    ensures no_memory { error ≡ settling.NoMemory → result ≡ fault.NoMemory }
{
    match error {
        SettleError::Outstanding => RunError::GaveUp,
        SettleError::NoMemory => RunError::NoMemory,
        SettleError::Strangers => unreachable!(),
    }
}

/// Settles the parts of a run. `GaveUp` where not all was done, `NoMemory` where memory was refused.
pub fn settle_run<R: Wait>(
    rt: &R,
    alloc: Global,
    parts: Parts,
    mode: Mode,
) -> Result<Settled, RunError>
    requires few { length parts.feeders.items ≤ MAX_REGIONS }
    requires fed { IsFedBy parts.front parts.feeders.items }
    requires drained { IsDrainedBy parts.front parts.drainers.items }
    requires pool { HasItsPool parts }
    ensures log { IfOk result (λ s. s.log.items ≡ parts.front.log) }
    ensures sent { IfOk result (λ s. map told_by s.sent.items ≡ map told parts.feeders.items) }
    ensures lists { IfOk result (λ s. length s.collected.items ≡ length parts.drainers.items) }
    ensures account { IfOk result (λ s. IsSettledAccount parts.front s) }
    ensures settled { IfOk result (λ s. IsSettled s) }
    ensures submitted { OnOk result (AllSubmitted mode parts.front parts.feeders.items) }
    ensures executed { IfOk result (λ s. ExecutesOnce parts.front.rules.sizes (settled_past s) parts.front.hands.seat parts.workers.items) }
    ensures answered { IfOk result (λ s. AnswersWereExecuted parts.front.rules.sizes (settled_past s) parts.front.hands.seat parts.workers.items) }
    ensures gave_up { IsErrOf result fault.GaveUp → AllSubmitted mode parts.front parts.feeders.items → AreAtRest parts → ⊥ }
    ensures faults { IfErr result (λ e. (e ≡ fault.GaveUp) ⊎ (e ≡ fault.NoMemory)) }
{
    if !all_submitted(&parts, mode) {
        return Err(RunError::GaveUp);
    }
    match settle(rt, alloc, parts) {
        Ok(settled) => Ok(settled),
        Err((error, _)) => Err(run_error_of(error)),
    }
}
