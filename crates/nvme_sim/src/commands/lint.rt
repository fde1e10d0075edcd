// Checks a workload for its writer.
ghost use Rattle.std.specs.Prelude.{◌≡◌, ◌⊎◌, Ok, IfErr, IfOk, IfSome};
ghost use Rattle.nvme_lint.specs.Lints.{IsLawful};
ghost use Rattle.nvme_lint.specs.Warnings.{AreWarningsOf};
ghost use Rattle.nvme_sim.specs.Inputs.{HasNoWarning, HasWarnings};
ghost use Rattle.nvme_sim.specs.Statuses.{IsBadWorkload, IsNoWorkload, status_of};
ghost use Rattle.nvme_sim.specs.declared.faults.Fault.TheVariants as fault;
ghost use Rattle.nvme_sim.specs.declared.commands.Answer.TheVariants as answer;

use super::Answer;
use crate::faults::Fault;
use crate::named::Named;
use nvme_lint::{Warning, lint};
use nvme_short::Names;
use nvme_words::take_input;
use nvme_workload::ReadError;
use std::alloc::{AllocError, Global};
use std::io::{self, Read, Write};

// Writes a line for a warning, by the names of a short file where there are any.
fn write_warning<W: Write>(
    warning: &Warning,
    names: Option<&Names>,
    output: &mut W,
) -> io::Result<()> {
    match names {
        Some(names) => {
            let named = Named { warning, names };
            writeln!(output, "{named}")
        }
        None => writeln!(output, "{warning}"),
    }
}

// Writes a line for each warning.
fn write_warnings<W: Write>(
    warnings: &[Warning],
    names: Option<&Names>,
    output: &mut W,
) -> io::Result<()> {
    for warning in warnings {
        write_warning(warning, names, output)?;
    }
    Ok(())
}

/// The warnings of a workload file, or its first fault.
pub(super) fn warnings_of(alloc: Global, text: &[u8]) -> Result<Vec<Warning>, Fault>
    ensures lawful { IfOk result (λ _. IsLawful text.now) }
    ensures warnings { IfOk result (λ ws. AreWarningsOf text.now ws.items) }
    ensures input { IfErr result (λ e. status_of e ≡ 1 → IsNoWorkload text.now) }
{
    match lint(alloc, text) {
        Ok(warnings) => Ok(warnings),
        Err(ReadError::Fault(fault)) => Err(Fault::Workload(fault)),
        Err(ReadError::NoMemory) => Err(Fault::NoMemory(AllocError)),
    }
}

/// Refuses a faulty workload with the place of its first fault, or writes what of a valid one has no effect, by the names of
/// a short file where it stands for one.
#[tactic(auto, using(crate::proofs::Inputs::bad_file, crate::proofs::Inputs::has_warnings, crate::proofs::Inputs::has_no_warning))]
#[inline(never)]
pub(super) fn linted<R: Read + Drop, W: Write>(
    alloc: Global,
    input: R,
    names: Option<&Names>,
    output: &mut W,
) -> Result<Answer, Fault>
    ensures no_pick { result ≡ Ok answer.Refused → ⊥ }
    ensures warned { result ≡ Ok answer.Warned → IfSome (R.remaining input) HasWarnings }
    ensures none { result ≡ Ok answer.Done → IfSome (R.remaining input) HasNoWarning }
    ensures input { IfErr result (λ e. status_of e ≡ 1 → IfSome (R.remaining input) IsBadWorkload) }
    ensures quiet { result ≡ Ok answer.Done → output.new ≡ output.old }
    ensures untouched { IfErr result (λ e. (e ≡ fault.Write) ⊎ (output.new ≡ output.old)) }
    ensures failed { IfErr result (λ e. (output.new ≡ output.old) ⊎ IfSome (R.remaining input) HasWarnings) }
{
    let bytes = take_input(alloc, input).map_err(Fault::Input)?;
    let warnings = warnings_of(alloc, bytes.as_slice())?;
    if warnings.is_empty() {
        return Ok(Answer::Done);
    }
    match write_warnings(warnings.as_slice(), names, output) {
        Ok(()) => Ok(Answer::Warned),
        Err(_) => Err(Fault::Write),
    }
}
