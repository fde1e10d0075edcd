// Runs of a workload.
ghost use Rattle.std.specs.Prelude.{◌≡◌, ◌⊎◌, Ok, IfErr, IfOk, IfSome, OnOk};
ghost use Rattle.nvme_sim.specs.Answers.{Appended, AppendedPart, HasReport};
ghost use Rattle.nvme_sim.specs.RunAnswers.{IsRunAnswer};
ghost use Rattle.nvme_sim.specs.Statuses.{IsBadWorkload, status_of};
ghost use Rattle.nvme_sim.specs.declared.faults.Fault.TheVariants as fault;
ghost use Rattle.nvme_sim.specs.declared.commands.Answer.TheVariants as answer;
ghost use Rattle.nvme_runs.specs.declared.runs.RunError.TheVariants as run_fault;

use super::Answer;
use crate::faults::Fault;
use crate::run_answers::{JSON_FORM, RunAnswer, mode_word};
use nvme_lane::Mode;
use nvme_report::rows_of;
use nvme_runs::{run, settled_run};
use nvme_trace::{SettingsInWords, mechanism_name};
use nvme_words::{VERSION, take_input};
use std::alloc::Global;
use std::io::{Read, Write};
use std::sync::Wait;
use std::thread::Threads;

/// Runs a workload with so many workers, and writes its report.
#[inline(never)]
pub(super) fn ran<R: Read + Drop, W: Write, T: Threads + Wait + Sync>(
    rt: &T,
    alloc: Global,
    mode: Mode,
    workers: u8,
    input: R,
    output: &mut W,
) -> Result<Answer, Fault>
    ensures no_other { (result ≡ Ok answer.Warned) ⊎ (result ≡ Ok answer.Refused) → ⊥ }
    ensures done { OnOk result (IfSome (R.remaining input) (HasReport (Appended W.contents output.old output.new) mode)) }
    ensures input { IfErr result (λ e. status_of e ≡ 1 → IfSome (R.remaining input) IsBadWorkload) }
    ensures untouched { IfErr result (λ e. (e ≡ fault.Run run_fault.Write) ⊎ (output.new ≡ output.old)) }
    ensures failed { IfErr result (λ e. (output.new ≡ output.old) ⊎ IfSome (R.remaining input) (HasReport (AppendedPart W.contents output.old output.new) mode)) }
{
    let text = take_input(alloc, input).map_err(Fault::Input)?;
    match run(rt, alloc, text.as_slice(), mode, workers, output) {
        Ok(_) => Ok(Answer::Done),
        Err(error) => Err(Fault::Run(error)),
    }
}

/// Runs a workload with so many workers, and answers what its report tells.
#[inline(never)]
pub(super) fn told<'a, T: Threads + Wait + Sync>(
    rt: &T,
    alloc: Global,
    mode: Mode,
    workers: u8,
    text: &[u8],
    digest: &'a str,
) -> Result<RunAnswer<'a>, Fault>
    ensures told { IfOk result (IsRunAnswer mode digest.now text.now) }
    ensures input { IfErr result (λ e. status_of e ≡ 1 → IsBadWorkload text.now) }
{
    let ran = match settled_run(rt, alloc, text, mode, workers) {
        Ok(ran) => ran,
        Err(error) => return Err(Fault::Run(error)),
    };
    let rows = match rows_of(alloc, &ran.settled) {
        Ok(rows) => rows,
        Err(error) => return Err(Fault::NoMemory(error)),
    };
    let (mechanism, settings) = (ran.mechanism, ran.settings);
    Ok(RunAnswer {
        form: JSON_FORM,
        version: VERSION,
        digest,
        mode: mode_word(mode),
        mechanism: mechanism_name(mechanism),
        cdw11: settings.to_cdw11(),
        rows,
        settings: SettingsInWords {
            mechanism,
            settings,
        },
    })
}
