ghost use Rattle.std.specs.Prelude.{◌≡◌, ◌≢◌, ◌≤◌, ◌⊎◌, true, Ok, IfErr, IfOk, IfSome, codes};
ghost use Rattle.nvme_sim.specs.Answers.{Asked, Does, FailsToWrite};
ghost use Rattle.nvme_sim.specs.Files.{IsBadFile, OfFile};
ghost use Rattle.nvme_sim.specs.Inputs.{HasWarnings, IsBadInput, IsRefusedCheck, IsToldLawful};
ghost use Rattle.nvme_sim.specs.RunAnswers.{IsRunAnswer};
ghost use Rattle.nvme_words.specs.Requests.{IsAskedBy};
ghost use Rattle.nvme_sim.specs.Statuses.{status_of};
ghost use Rattle.nvme_words.specs.Words.{asks, asks_alone};
ghost use Rattle.nvme_sim.specs.declared.faults.Fault.TheVariants as fault;
ghost use Rattle.nvme_sim.specs.declared.commands.Answer.TheVariants as answer;
ghost use Rattle.nvme_runs.specs.declared.runs.RunError.TheVariants as run_fault;

mod chart;
mod check;
mod entry;
mod explanation;
mod file;
mod lint;
mod run;
mod settings;
mod stats;
mod trace;

use crate::faults::Fault;
use crate::run_answers::RunAnswer;
use chart::charted;
use check::{checked, surveyed};
use entry::answered;
use file::{expanded, linted_file, ran_file, told_file, traced_file};
use nvme_lane::Mode;
use nvme_trace::Basis;
use nvme_words::{Request, asked_of};
use run::ran;
use settings::translated;
use stats::counted;
use std::alloc::Global;
use std::io::{Read, Write};
use std::sync::Wait;
use std::thread::Threads;

// How the program ends where there is no fault.
#[derive(Clone, Copy, Debug, PartialEq, Eq)]
enum Answer {
    Done,
    // A pick of a trace isn't allowed.
    Refused,
    // A valid workload has warnings.
    Warned,
}

// Writes the text of the help, or the version.
fn helped<W: Write>(text: clap::Error, output: &mut W) -> Result<Answer, Fault>
    ensures no_other { (result ≡ Ok answer.Warned) ⊎ (result ≡ Ok answer.Refused) → ⊥ }
    ensures write { IfErr result (λ e. e ≡ fault.Write) }
{
    match write!(output, "{text}") {
        Ok(()) => Ok(Answer::Done),
        Err(_) => Err(Fault::Write),
    }
}

// Does what the words ask for. What it calls isn't inlined, so that the stack of a request isn't that of all requests.
fn done<R: Read + Drop, W: Write, T: Threads + Wait + Sync>(
    rt: &T,
    alloc: Global,
    words: &[String],
    request: Request,
    input: R,
    output: &mut W,
) -> Result<Answer, Fault>
    requires { IsAskedBy words.now request }
    ensures input { IfErr result (λ e. status_of e ≡ 1 → IfSome (R.remaining input) (IsBadInput words.now)) }
    ensures warned { result ≡ Ok answer.Warned → asks (codes "lint") words.now ≡ true }
    ensures warnings { result ≡ Ok answer.Warned → IfSome (R.remaining input) (OfFile HasWarnings) }
    ensures refused { result ≡ Ok answer.Refused → IsRefusedCheck words.now (R.remaining input) }
    ensures lawful { result ≡ Ok answer.Done → asks_alone (codes "check") words.now ≡ true → IfSome (R.remaining input) (IsToldLawful (W.contents output.old) (W.contents output.new)) }
    ensures done { result ≡ Ok answer.Done → IfSome (R.remaining input) (Does W.contents output.old output.new request) }
    ensures untouched { IfErr result (λ e. (e ≡ fault.Write) ⊎ (e ≡ fault.Run run_fault.Write) ⊎ (output.new ≡ output.old)) }
    ensures failed { IfErr result (λ e. (output.new ≡ output.old) ⊎ IfSome (R.remaining input) (FailsToWrite W.contents output.old output.new request)) }
{
    match request {
        Request::Help(text) => helped(text, output),
        Request::Once(blocks) => answered(alloc, blocks, input, output),
        Request::Run(mode, workers) => ran(rt, alloc, mode, workers, input, output),
        Request::RunFile(mode, workers) => ran_file(rt, alloc, mode, workers, input, output),
        Request::Lint => linted_file(alloc, input, output),
        Request::Expand => expanded(alloc, input, output),
        Request::Check => checked(alloc, Basis::Profile, input, output),
        Request::CheckSpec => checked(alloc, Basis::Specification, input, output),
        Request::CheckAll => surveyed(alloc, input, output),
        Request::Trace(mode, workers) => traced_file(rt, alloc, mode, workers, input, output),
        Request::Chart(drawing) => charted(alloc, drawing, input, output),
        Request::Stats(numbers) => counted(alloc, numbers, input, output),
        Request::Settings(reading) => translated(reading, output),
        Request::Unfit(fault) => Err(Fault::Options(fault)),
    }
}

// Does what the words ask for.
fn served<R: Read + Drop, W: Write, T: Threads + Wait + Sync>(
    rt: &T,
    alloc: Global,
    words: &[String],
    input: R,
    output: &mut W,
) -> Result<Answer, Fault>
    ensures input { IfErr result (λ e. status_of e ≡ 1 → IfSome (R.remaining input) (IsBadInput words.now)) }
    ensures warned { result ≡ Ok answer.Warned → asks (codes "lint") words.now ≡ true }
    ensures warnings { result ≡ Ok answer.Warned → IfSome (R.remaining input) (OfFile HasWarnings) }
    ensures refused { result ≡ Ok answer.Refused → IsRefusedCheck words.now (R.remaining input) }
    ensures lawful { result ≡ Ok answer.Done → asks_alone (codes "check") words.now ≡ true → IfSome (R.remaining input) (IsToldLawful (W.contents output.old) (W.contents output.new)) }
    ensures done { result ≡ Ok answer.Done → Asked words.now (λ asked. IfSome (R.remaining input) (Does W.contents output.old output.new asked)) }
    ensures untouched { IfErr result (λ e. (e ≡ fault.Write) ⊎ (e ≡ fault.Run run_fault.Write) ⊎ (output.new ≡ output.old)) }
    ensures failed { IfErr result (λ e. (output.new ≡ output.old) ⊎ Asked words.now (λ asked. IfSome (R.remaining input) (FailsToWrite W.contents output.old output.new asked))) }
{
    match asked_of(alloc, words) {
        Ok(request) => done(rt, alloc, words, request, input, output),
        Err(error) => Err(Fault::of_words(error)),
    }
}

/// The whole program `nvmearb`, over its words (the program's name first), its input, its output and its standard
/// error. The input is the file that the words name (`file_named`), or standard input. The answer is the exit status:
///
/// - 0: success;
/// - 1: the input is at fault, or with `check` a pick isn't allowed, which the output says;
/// - 2: the command line is at fault;
/// - 3: the run failed: a read or a write failed, memory was refused, or a workload couldn't be run to its end;
/// - 4: a valid workload has warnings.
///
/// With 0 the output has the whole answer to what the words ask for: the completion of the entry, the report or the
/// trace of a run, the text for which a file stands, nothing for a workload without warnings, or the line with the
/// number of picks that are allowed. Of a picture, of statistics, of settings in words and of the texts of `clap` the
/// clauses don't say what they are. With 2 the output is as it was. So it is with 1, except for the answer of `check`, and with 3, unless a
/// write failed: then it has a prefix of such an answer.
///
/// `simulate` isn't among its words, since it writes several files, nor is `audit`, which may read several: lines of them are
/// refused, and `simulation_asked` and `audit_asked` read them.
///
/// A fault is told on `errors` in one line, or two, or in the text of `clap`, and a write that fails there is ignored. It
/// may wait for another thread.
pub fn command<R: Read + Drop, W: Write, E: Write, T: Threads + Wait + Sync>(
    rt: &T,
    alloc: Global,
    words: &[String],
    input: R,
    output: &mut W,
    errors: &mut E,
) -> u8
    ensures status { result ≤ 4 }
    ensures warned { result ≡ 4 → asks (codes "lint") words.now ≡ true }
    ensures warnings { result ≡ 4 → IfSome (R.remaining input) (OfFile HasWarnings) }
    ensures input { result ≡ 1 → IfSome (R.remaining input) (IsBadInput words.now) }
    ensures lawful { result ≡ 0 → asks_alone (codes "check") words.now ≡ true → IfSome (R.remaining input) (IsToldLawful (W.contents output.old) (W.contents output.new)) }
    ensures done { result ≡ 0 → Asked words.now (λ asked. IfSome (R.remaining input) (Does W.contents output.old output.new asked)) }
    ensures untouched { result ≡ 1 → (output.new ≡ output.old) ⊎ IsRefusedCheck words.now (R.remaining input) }
    ensures refused { result ≡ 2 → output.new ≡ output.old }
    ensures failed { result ≡ 3 → (output.new ≡ output.old) ⊎ Asked words.now (λ asked. IfSome (R.remaining input) (FailsToWrite W.contents output.old output.new asked)) }
{
    match served(rt, alloc, words, input, output) {
        Ok(Answer::Done) => 0,
        Ok(Answer::Refused) => 1,
        Ok(Answer::Warned) => 4,
        Err(fault) => {
            let _ = fault.tell(alloc, words, errors);
            fault.status()
        }
    }
}

/// Runs the workload of a file, which the words name, as `command` does for words that ask for its report, and answers
/// what the report tells, with this digest of the file. A fault is told on `errors` as `command` tells it, and the error
/// is the exit status. It may wait for another thread.
pub fn run_answer<'a, R: Read + Drop, E: Write, T: Threads + Wait + Sync>(
    rt: &T,
    alloc: Global,
    words: &[String],
    mode: Mode,
    workers: u8,
    input: R,
    digest: &'a str,
    errors: &mut E,
) -> Result<RunAnswer<'a>, u8>
    ensures told { IfOk result (λ answer. IfSome (R.remaining input) (OfFile (λ text. IsRunAnswer mode digest.now text answer))) }
    ensures status { IfErr result (λ status. (status ≢ 0) × (status ≤ 3)) }
    ensures input { IfErr result (λ status. status ≡ 1 → IfSome (R.remaining input) IsBadFile) }
{
    match told_file(rt, alloc, mode, workers, input, digest) {
        Ok(answer) => Ok(answer),
        Err(fault) => {
            let _ = fault.tell(alloc, words, errors);
            Err(fault.status())
        }
    }
}
