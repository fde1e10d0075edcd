//! Reads a workload, drives it on threads, settles and reports it.
ghost use Rattle.std.specs.Prelude.{◌≡◌, ◌↔◌, ◌≤◌, Ok, IfOk, IfErr, IsErrOf, IsTrue, vec_len};
ghost use Rattle.nvme_lane.specs.Limits.{IsOutside};
ghost use Rattle.nvme_pool.specs.Limits.{max_workers};
ghost use Rattle.nvme_log.specs.Account.{IsWholeAccount};
ghost use Rattle.nvme_log.specs.Loaded.{IsLoadedLog, without_posts};
ghost use Rattle.nvme_jobs.specs.Answers.{AnswersHaveTickets};
ghost use Rattle.nvme_front.specs.Hosts.{sent_at, collected_at};
ghost use Rattle.nvme_front.specs.Settles.{settled_past};
ghost use Rattle.nvme_workload.specs.Plan.{plan_of, workload_of};
ghost use Rattle.nvme_workload.specs.Sound.{IsSound};
ghost use Rattle.nvme_lane.specs.declared.mode.Mode.TheVariants.{Loaded};
ghost use Rattle.nvme_runs.specs.Ran.{BeginsAs, settled_in, no_bytes};
ghost use Rattle.nvme_runs.specs.Runs.{HasItsHosts, FitsAll, GatesRan, fault_of, fault_of_drive, rules_for, script_for, is_loaded};
ghost use Rattle.nvme_runs.specs.RunFaults.{IsTextFault, IsLateFault};
ghost use Rattle.nvme_runs.specs.RunMeans.{RunMeans};
ghost use Rattle.nvme_runs.specs.declared.runs.RunError.TheVariants as fault;

mod settlement;
mod setup;

use nvme_arbiter::{Mechanism, Settings};
use nvme_front::{FrontError, Settled};
use nvme_lane::Mode;
use nvme_pool::{Gate, MAX_WORKERS, NoGate};
use nvme_report::{WriteFault, report};
use nvme_threads::{DriveError, drive_fed};
use nvme_workload::{Workload, WorkloadError, read};
use settlement::{are_loaded, settle_run};
use setup::{first_too_long, prepare};
use std::alloc::{AllocError, Global};
use std::io::Write;
use std::sync::Wait;
use std::thread::Threads;
use thiserror::Error;

/// Why a run failed. All its threads are joined, and nothing was written, except with `Write`.
#[derive(Clone, Copy, Debug, PartialEq, Eq, Error)]
pub enum RunError {
    /// The number of workers is outside 1 to `nvme_pool::MAX_WORKERS`.
    #[error("workers")]
    Workers,
    /// The first fault of the workload file. It is never `WorkloadError::NoMemory`.
    #[error("workload: {0}")]
    Workload(WorkloadError),
    /// With `Mode::Loaded` only: this is the first submission region whose script has more commands than its ring
    /// holds.
    #[error("script too long for ring {0}")]
    TooLong(u8),
    /// Out of memory, or a thread couldn't be started.
    #[error("out of memory")]
    NoMemory,
    /// A turn of the front failed. The error is always `FrontError::Stray` (`laws::front_faults_are_strays`).
    #[error("front")]
    Front(FrontError),
    /// The front found nothing to do for too many turns in a row, and not all was done.
    #[error("gave up")]
    GaveUp,
    /// A write of the report failed, or took no byte. The writer has a prefix of the report.
    #[error("write failed")]
    Write,
}

/// What is left of a run that wrote no report, with the mechanism and the settings that its arbitration began with.
#[derive(Debug, Drop)]
pub struct Ran {
    /// The mechanism of the workload.
    pub mechanism: Mechanism,
    /// The settings of the workload, before any Set Features.
    pub settings: Settings,
    /// The log, and what the hosts submitted and collected.
    pub settled: Settled,
}

impl From<WorkloadError> for RunError {
    ghost from_gives = { λ w e. e ≡ fault_of w };

    fn from(error: WorkloadError) -> RunError {
        match error {
            WorkloadError::NoMemory => RunError::NoMemory,
            error => RunError::Workload(error),
        }
    }
}

impl From<DriveError> for RunError {
    ghost from_gives = { λ d e. e ≡ fault_of_drive d };

    fn from(error: DriveError) -> RunError {
        match error {
            DriveError::NoMemory => RunError::NoMemory,
            DriveError::Front(error) => RunError::Front(error),
        }
    }
}

impl From<AllocError> for RunError {
    ghost from_gives = { λ _ e. e ≡ fault.NoMemory };

    fn from(_error: AllocError) -> RunError {
        RunError::NoMemory
    }
}

// Whether a run can't have this number of workers.
fn is_outside(workers: usize) -> bool
    ensures { IsTrue result ↔ IsOutside workers 1 max_workers }
{
    workers == 0 || workers > usize::from(MAX_WORKERS)
}

// The workload of a text. With `Mode::Loaded` its scripts must fit their rings.
fn workload_for(alloc: Global, text: &[u8], mode: Mode) -> Result<Workload, RunError>
    ensures sound { IfOk result (λ w. IsSound (plan_of w)) }
    ensures read { IfOk result (λ w. workload_of text.now ≡ Ok (plan_of w)) }
    ensures fit { IfOk result (λ w. mode ≡ Loaded → FitsAll (plan_of w).submissions) }
    ensures faults { IfErr result (λ e. IsTextFault text.now mode e) }
{
    let workload = read(alloc, text)?;
    if mode == Mode::Loaded
        && let Some(region) = first_too_long(workload.submissions.as_slice())
    {
        return Err(RunError::TooLong(region));
    }
    Ok(workload)
}

// Runs a workload with one worker for each gate. Answers what is settled, and the gates.
fn settled_by<G: Gate + Send + Drop, R: Threads + Wait + Sync>(
    rt: &R,
    alloc: Global,
    workload: Workload,
    mode: Mode,
    gates: Vec<G>,
) -> Result<(Settled, Vec<G>), RunError>
    requires sound { IsSound (plan_of workload) }
    requires number { (1 ≤ vec_len gates) × (vec_len gates ≤ max_workers) }
    ensures hosts { IfOk result (λ r. HasItsHosts (plan_of workload) r.0) }
    ensures account { IfOk result (λ r. IsWholeAccount (rules_for (plan_of workload)) (is_loaded mode) (script_for (plan_of workload)) (sent_at r.0.sent.items) (settled_past r.0) (collected_at r.0.collected.items)) }
    ensures loaded { IfOk result (λ r. mode ≡ Loaded → IsLoadedLog (rules_for (plan_of workload)) (script_for (plan_of workload)) (without_posts (settled_past r.0))) }
    ensures answered { IfOk result (λ r. AnswersHaveTickets (settled_past r.0)) }
    ensures gates { IfOk result (λ r. GatesRan (λ view ticket. G.left (G.entered view ticket) ticket) gates.items r.1.items (settled_past r.0)) }
    ensures faults { IfErr result (IsLateFault (plan_of workload)) }
{
    let patience = workload.patience;
    let parts = prepare(rt, alloc, workload, mode, gates.len() as u8)?;
    if !are_loaded(&parts, mode) {
        return Err(RunError::GaveUp);
    }
    let (parts, gates) = drive_fed(rt, alloc, parts, gates, mode, patience)?;
    let settled = settle_run(rt, alloc, parts, mode)?;
    Ok((settled, gates))
}

/// Runs a workload with one worker for each gate, and writes its report. The gates come back, in order, and each was
/// told of just the executions of its worker.
///
/// Refused with `Workers` exactly where there are no gates or more than `nvme_pool::MAX_WORKERS`; otherwise with the
/// first fault of the workload; otherwise, with `Mode::Loaded`, with the first submission region whose script is too
/// long for its ring; otherwise with `NoMemory` or `Front` where they arise, and with `GaveUp` where not all was done
/// when the run ended. None of these writes anything. Last comes `Write`. It may wait for another thread.
pub fn run_with<G: Gate + Send + Drop, W: Write, R: Threads + Wait + Sync>(
    rt: &R,
    alloc: Global,
    text: &[u8],
    mode: Mode,
    gates: Vec<G>,
    writer: &mut W,
) -> Result<(Settled, Vec<G>), RunError>
    ensures means { RunMeans result (λ r. r.0) writer.old writer.new W.contents text.now mode (vec_len gates) }
    ensures gates { IfOk result (λ r. GatesRan (λ view ticket. G.left (G.entered view ticket) ticket) gates.items r.1.items (settled_past r.0)) }
{
    if is_outside(gates.len()) {
        return Err(RunError::Workers);
    }
    let workload = workload_for(alloc, text, mode)?;
    let (settled, gates) = settled_by(rt, alloc, workload, mode, gates)?;
    match report(&settled, mode, writer) {
        Ok(()) => Ok((settled, gates)),
        Err(WriteFault) => Err(RunError::Write),
    }
}

/// Runs a workload as `run_with` does, with `workers` workers, 1 to `nvme_pool::MAX_WORKERS`, and gates that do
/// nothing. It may wait for another thread.
pub fn run<W: Write, R: Threads + Wait + Sync>(
    rt: &R,
    alloc: Global,
    text: &[u8],
    mode: Mode,
    workers: u8,
    writer: &mut W,
) -> Result<Settled, RunError>
    ensures means { RunMeans result (λ s. s) writer.old writer.new W.contents text.now mode workers }
{
    if is_outside(usize::from(workers)) {
        return Err(RunError::Workers);
    }
    let gates = idle_gates(alloc, workers)?;
    let (settled, _) = run_with(rt, alloc, text, mode, gates, writer)?;
    Ok(settled)
}

/// Runs a workload as `run` does, but writes no report: it answers what is settled, and what its arbitration began
/// with. Refused as `run` is, but never with `Write`. It may wait for another thread.
pub fn settled_run<R: Threads + Wait + Sync>(
    rt: &R,
    alloc: Global,
    text: &[u8],
    mode: Mode,
    workers: u8,
) -> Result<Ran, RunError>
    ensures means { RunMeans result settled_in tt tt no_bytes text.now mode workers }
    ensures begins { IfOk result (BeginsAs text.now) }
    ensures no_write { IsErrOf result RunError.Write → ⊥ }
{
    if is_outside(usize::from(workers)) {
        return Err(RunError::Workers);
    }
    let gates = idle_gates(alloc, workers)?;
    let workload = workload_for(alloc, text, mode)?;
    let (mechanism, settings) = (workload.mechanism, workload.settings);
    let (settled, _) = settled_by(rt, alloc, workload, mode, gates)?;
    Ok(Ran {
        mechanism,
        settings,
        settled,
    })
}

// A gate that does nothing for each worker.
fn idle_gates(alloc: Global, workers: u8) -> Result<Vec<NoGate>, AllocError>
    ensures { IfOk result (λ gates. vec_len gates ≡ workers) }
{
    let mut gates = Vec::with_capacity(alloc, usize::from(workers))?;
    for _ in 0..workers {
        gates.push_reserved(NoGate);
    }
    Ok(gates)
}
