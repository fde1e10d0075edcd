// Files of either form.
ghost use Rattle.std.specs.Prelude.{◌≡◌, ◌⊎◌, Ok, IfErr, IfOk, IfSome, OnOk};
ghost use Rattle.nvme_short.specs.Expansion.{StandsFor};
ghost use Rattle.nvme_short.specs.Names.{AreNamesFor};
ghost use Rattle.nvme_sim.specs.Answers.{Appended, AppendedPart, HasReport, HasTrace, HasWorkload};
ghost use Rattle.nvme_sim.specs.Files.{IsBadFile, OfFile};
ghost use Rattle.nvme_sim.specs.Inputs.{HasNoWarning, HasWarnings};
ghost use Rattle.nvme_sim.specs.RunAnswers.{IsRunAnswer};
ghost use Rattle.nvme_sim.specs.Statuses.{status_of};
ghost use Rattle.nvme_sim.specs.declared.faults.Fault.TheVariants as fault;
ghost use Rattle.nvme_sim.specs.declared.commands.Answer.TheVariants as answer;
ghost use Rattle.nvme_runs.specs.declared.runs.RunError.TheVariants as run_fault;

use super::Answer;
use super::explanation::explained;
use super::lint::{linted, warnings_of};
use super::run::{ran, told};
use super::trace::traced;
use crate::faults::Fault;
use crate::run_answers::RunAnswer;
use nvme_lane::Mode;
use nvme_output::{WriteFault, put};
use nvme_short::{ExpandError, Standing, stood_for};
use nvme_words::take_input;
use std::alloc::{AllocError, Global};
use std::io::{Read, Write};
use std::sync::Wait;
use std::thread::Threads;

// The text of the workload file that an input stands for, with its names where it is a short file.
fn named_text_of<R: Read + Drop>(alloc: Global, input: R) -> Result<Standing, Fault>
    ensures stands { IfOk result (λ file. IfSome (R.remaining input) (λ bytes. StandsFor bytes file.text.items)) }
    ensures names { IfOk result (λ file. IfSome (R.remaining input) (λ bytes. AreNamesFor bytes file.names)) }
    ensures input { IfErr result (λ e. status_of e ≡ 1 → IfSome (R.remaining input) IsBadFile) }
{
    let bytes = take_input(alloc, input).map_err(Fault::Input)?;
    match stood_for(alloc, bytes) {
        Ok(file) => Ok(file),
        Err(ExpandError::Faults(faults)) => Err(Fault::Short(faults)),
        Err(ExpandError::NoMemory) => Err(Fault::NoMemory(AllocError)),
    }
}

/// Runs the workload of a file as `ran` does. Some faults have a second line.
#[inline(never)]
pub(super) fn ran_file<R: Read + Drop, W: Write, T: Threads + Wait + Sync>(
    rt: &T,
    alloc: Global,
    mode: Mode,
    workers: u8,
    input: R,
    output: &mut W,
) -> Result<Answer, Fault>
    ensures no_other { (result ≡ Ok answer.Warned) ⊎ (result ≡ Ok answer.Refused) → ⊥ }
    ensures done { OnOk result (IfSome (R.remaining input) (OfFile (HasReport (Appended W.contents output.old output.new) mode))) }
    ensures input { IfErr result (λ e. status_of e ≡ 1 → IfSome (R.remaining input) IsBadFile) }
    ensures untouched { IfErr result (λ e. (e ≡ fault.Run run_fault.Write) ⊎ (output.new ≡ output.old)) }
    ensures failed { IfErr result (λ e. (output.new ≡ output.old) ⊎ IfSome (R.remaining input) (OfFile (HasReport (AppendedPart W.contents output.old output.new) mode))) }
{
    let file = named_text_of(alloc, input)?;
    let answer = ran(rt, alloc, mode, workers, file.text.as_slice(), output);
    explained(alloc, &file, answer)
}

/// Runs the workload of a file, and answers what its report tells, as `told` does. Some faults have a second line.
#[inline(never)]
pub(super) fn told_file<'a, R: Read + Drop, T: Threads + Wait + Sync>(
    rt: &T,
    alloc: Global,
    mode: Mode,
    workers: u8,
    input: R,
    digest: &'a str,
) -> Result<RunAnswer<'a>, Fault>
    ensures told { IfOk result (λ answer. IfSome (R.remaining input) (OfFile (λ text. IsRunAnswer mode digest.now text answer))) }
    ensures input { IfErr result (λ e. status_of e ≡ 1 → IfSome (R.remaining input) IsBadFile) }
{
    let file = named_text_of(alloc, input)?;
    let answer = told(rt, alloc, mode, workers, file.text.as_slice(), digest);
    explained(alloc, &file, answer)
}

/// Runs the workload of a file and writes its trace, as `traced` does. Some faults have a second line.
#[inline(never)]
pub(super) fn traced_file<R: Read + Drop, W: Write, T: Threads + Wait + Sync>(
    rt: &T,
    alloc: Global,
    mode: Mode,
    workers: u8,
    input: R,
    output: &mut W,
) -> Result<Answer, Fault>
    ensures no_other { (result ≡ Ok answer.Warned) ⊎ (result ≡ Ok answer.Refused) → ⊥ }
    ensures done { OnOk result (IfSome (R.remaining input) (OfFile (HasTrace (Appended W.contents output.old output.new) mode))) }
    ensures input { IfErr result (λ e. status_of e ≡ 1 → IfSome (R.remaining input) IsBadFile) }
    ensures untouched { IfErr result (λ e. (e ≡ fault.Write) ⊎ (output.new ≡ output.old)) }
    ensures failed { IfErr result (λ e. (output.new ≡ output.old) ⊎ IfSome (R.remaining input) (OfFile (HasTrace (AppendedPart W.contents output.old output.new) mode))) }
{
    let file = named_text_of(alloc, input)?;
    let answer = traced(rt, alloc, mode, workers, file.text.as_slice(), output);
    explained(alloc, &file, answer)
}

/// Checks the workload of a file for its writer, as `linted` does by the names of the file.
#[inline(never)]
pub(super) fn linted_file<R: Read + Drop, W: Write>(
    alloc: Global,
    input: R,
    output: &mut W,
) -> Result<Answer, Fault>
    ensures no_pick { result ≡ Ok answer.Refused → ⊥ }
    ensures warned { result ≡ Ok answer.Warned → IfSome (R.remaining input) (OfFile HasWarnings) }
    ensures none { result ≡ Ok answer.Done → IfSome (R.remaining input) (OfFile HasNoWarning) }
    ensures input { IfErr result (λ e. status_of e ≡ 1 → IfSome (R.remaining input) IsBadFile) }
    ensures quiet { result ≡ Ok answer.Done → output.new ≡ output.old }
    ensures untouched { IfErr result (λ e. (e ≡ fault.Write) ⊎ (output.new ≡ output.old)) }
    ensures failed { IfErr result (λ e. (output.new ≡ output.old) ⊎ IfSome (R.remaining input) (OfFile HasWarnings)) }
{
    let file = named_text_of(alloc, input)?;
    linted(alloc, file.text.as_slice(), file.names.as_ref(), output)
}

/// Writes the text of the workload file that a file stands for. A text that is no workload is refused as `linted` does.
#[tactic(auto, using(crate::proofs::Inputs::no_workload_of_file, crate::proofs::Inputs::written_of_file, crate::proofs::Inputs::written_in_part))]
#[inline(never)]
pub(super) fn expanded<R: Read + Drop, W: Write>(
    alloc: Global,
    input: R,
    output: &mut W,
) -> Result<Answer, Fault>
    ensures no_other { (result ≡ Ok answer.Warned) ⊎ (result ≡ Ok answer.Refused) → ⊥ }
    ensures done { OnOk result (IfSome (R.remaining input) (OfFile (HasWorkload (Appended W.contents output.old output.new)))) }
    ensures input { IfErr result (λ e. status_of e ≡ 1 → IfSome (R.remaining input) IsBadFile) }
    ensures untouched { IfErr result (λ e. (e ≡ fault.Write) ⊎ (output.new ≡ output.old)) }
    ensures failed { IfErr result (λ e. (output.new ≡ output.old) ⊎ IfSome (R.remaining input) (OfFile (HasWorkload (AppendedPart W.contents output.old output.new)))) }
{
    let file = named_text_of(alloc, input)?;
    let _warnings = warnings_of(alloc, file.text.as_slice())?;
    match put(file.text.as_slice(), output) {
        Ok(()) => Ok(Answer::Done),
        Err(WriteFault) => Err(Fault::Write),
    }
}
