// Traces of runs.
ghost use Rattle.std.specs.Prelude.{◌≡◌, ◌⊎◌, Ok, IfErr, IfSome, OnOk};
ghost use Rattle.nvme_sim.specs.Answers.{Appended, AppendedPart, HasTrace};
ghost use Rattle.nvme_sim.specs.Statuses.{IsBadWorkload, status_of};
ghost use Rattle.nvme_sim.specs.declared.faults.Fault.TheVariants as fault;
ghost use Rattle.nvme_sim.specs.declared.commands.Answer.TheVariants as answer;

use super::Answer;
use crate::faults::Fault;
use nvme_lane::Mode;
use nvme_runs::settled_run;
use nvme_tracer::write_trace;
use nvme_words::take_input;
use std::alloc::Global;
use std::io::{Read, Write};
use std::sync::Wait;
use std::thread::Threads;

/// Runs a workload with so many workers, and writes its trace.
#[inline(never)]
pub(super) fn traced<R: Read + Drop, W: Write, T: Threads + Wait + Sync>(
    rt: &T,
    alloc: Global,
    mode: Mode,
    workers: u8,
    input: R,
    output: &mut W,
) -> Result<Answer, Fault>
    ensures no_other { (result ≡ Ok answer.Warned) ⊎ (result ≡ Ok answer.Refused) → ⊥ }
    ensures done { OnOk result (IfSome (R.remaining input) (HasTrace (Appended W.contents output.old output.new) mode)) }
    ensures input { IfErr result (λ e. status_of e ≡ 1 → IfSome (R.remaining input) IsBadWorkload) }
    ensures untouched { IfErr result (λ e. (e ≡ fault.Write) ⊎ (output.new ≡ output.old)) }
    ensures failed { IfErr result (λ e. (output.new ≡ output.old) ⊎ IfSome (R.remaining input) (HasTrace (AppendedPart W.contents output.old output.new) mode)) }
{
    let text = take_input(alloc, input).map_err(Fault::Input)?;
    let ran = match settled_run(rt, alloc, text.as_slice(), mode, workers) {
        Ok(ran) => ran,
        Err(error) => return Err(Fault::Run(error)),
    };
    let log = ran.settled.log.as_slice();
    match write_trace(ran.mechanism, ran.settings, log, output) {
        Ok(()) => Ok(Answer::Done),
        Err(_) => Err(Fault::Write),
    }
}
