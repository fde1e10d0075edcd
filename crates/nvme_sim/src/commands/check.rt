// Checks a trace.
ghost use Rattle.std.specs.Prelude.{◌≡◌, ◌⊎◌, Ok, IfErr, IfSome, OnOk};
ghost use Rattle.std.specs.Io.KnownBytes.{Appends};
ghost use Rattle.nvme_output.specs.Written.{AppendsPrefix};
ghost use Rattle.nvme_sim.specs.Answers.{FailsToCheck, FailsToSurvey};
ghost use Rattle.nvme_sim.specs.Inputs.{IsDiffering, IsFaultyShown, IsFaultyTrace, IsRefusedTrace, IsToldBy, lawful_ending, lawful_line};
ghost use Rattle.nvme_sim.specs.Statuses.{status_of};
ghost use Rattle.nvme_sim.specs.declared.faults.Fault.TheVariants as fault;
ghost use Rattle.nvme_sim.specs.declared.commands.Answer.TheVariants as answer;
ghost use Rattle.nvme_trace.specs.declared.basis.Basis.TheVariants.{Profile};

use super::Answer;
use crate::faults::Fault;
use nvme_output::{Piece, WriteFault, put_pieces};
use nvme_trace::{Basis, Checked, Refusal, Survey, check_all, check_by};
use std::alloc::Global;
use std::io::{self, Read, Write};

// What stands behind the number of picks.
fn lawful_ending(picks: u64) -> &'static str
    ensures { result.now ≡ lawful_ending picks }
{
    if picks == 1 { " pick\n" } else { " picks\n" }
}

// Writes that this many picks are allowed.
fn put_lawful<W: Write>(picks: u64, output: &mut W) -> Result<Answer, Fault>
    ensures done { OnOk result ((result ≡ Ok answer.Done) × Appends (W.contents output.old) (W.contents output.new) (lawful_line picks)) }
    ensures failed { IfErr result (λ e. AppendsPrefix (W.contents output.old) (W.contents output.new) (lawful_line picks)) }
    ensures write { IfErr result (λ e. e ≡ fault.Write) }
{
    let pieces = [
        Piece::Words("lawful: "),
        Piece::Number(u128::from(picks)),
        Piece::Words(lawful_ending(picks)),
    ];
    match put_pieces(&pieces, output) {
        Ok(()) => Ok(Answer::Done),
        Err(WriteFault) => Err(Fault::Write),
    }
}

// What follows of a write of picks that aren't allowed.
fn refused(written: io::Result<()>) -> Result<Answer, Fault>
    ensures refused { OnOk result (result ≡ Ok answer.Refused) }
    ensures write { IfErr result (λ e. e ≡ fault.Write) }
{
    match written {
        Ok(()) => Ok(Answer::Refused),
        Err(_) => Err(Fault::Write),
    }
}

// Writes the first pick that isn't allowed.
fn put_refusal<W: Write>(refusal: &Refusal, output: &mut W) -> Result<Answer, Fault>
    ensures refused { OnOk result (result ≡ Ok answer.Refused) }
    ensures write { IfErr result (λ e. e ≡ fault.Write) }
{
    refused(writeln!(output, "{refusal}"))
}

// Writes the picks that differ.
fn put_survey<W: Write>(survey: &Survey, output: &mut W) -> Result<Answer, Fault>
    ensures refused { OnOk result (result ≡ Ok answer.Refused) }
    ensures write { IfErr result (λ e. e ≡ fault.Write) }
{
    refused(writeln!(output, "{survey}"))
}

/// Checks a trace, and writes that each pick is allowed, or the first that isn't.
#[tactic(auto, using(crate::proofs::Inputs::faulty_trace, crate::proofs::Inputs::told_lawful, crate::proofs::Inputs::refused_trace, crate::proofs::Inputs::told_in_part, crate::proofs::Inputs::told_refused))]
#[inline(never)]
pub(super) fn checked<R: Read + Drop, W: Write>(
    alloc: Global,
    basis: Basis,
    input: R,
    output: &mut W,
) -> Result<Answer, Fault>
    ensures no_warning { result ≡ Ok answer.Warned → ⊥ }
    ensures lawful { result ≡ Ok answer.Done → IfSome (R.remaining input) (IsToldBy basis (W.contents output.old) (W.contents output.new)) }
    ensures refused { result ≡ Ok answer.Refused → IfSome (R.remaining input) (IsRefusedTrace basis) }
    ensures input { IfErr result (λ e. status_of e ≡ 1 → IfSome (R.remaining input) (IsFaultyTrace basis)) }
    ensures untouched { IfErr result (λ e. (e ≡ fault.Write) ⊎ (output.new ≡ output.old)) }
    ensures failed { IfErr result (λ e. (output.new ≡ output.old) ⊎ IfSome (R.remaining input) (FailsToCheck W.contents output.old output.new basis)) }
{
    match check_by(alloc, basis, input) {
        Ok(Checked::Lawful { picks }) => put_lawful(picks, output),
        Ok(Checked::Refused(refusal)) => put_refusal(&refusal, output),
        Err(error) => Err(Fault::Trace(error)),
    }
}

/// Checks all picks of a trace, and writes that each is allowed, or those that differ.
#[tactic(auto, using(crate::proofs::Inputs::told_lawful, crate::proofs::Inputs::told_in_part_of_all, crate::proofs::Inputs::told_differing, crate::proofs::Inputs::differing, crate::proofs::Inputs::lawful_by_survey))]
#[inline(never)]
pub(super) fn surveyed<R: Read + Drop, W: Write>(
    alloc: Global,
    input: R,
    output: &mut W,
) -> Result<Answer, Fault>
    ensures no_warning { result ≡ Ok answer.Warned → ⊥ }
    ensures lawful { result ≡ Ok answer.Done → IfSome (R.remaining input) (IsToldBy Profile (W.contents output.old) (W.contents output.new)) }
    ensures refused { result ≡ Ok answer.Refused → IfSome (R.remaining input) IsDiffering }
    ensures input { IfErr result (λ e. status_of e ≡ 1 → IfSome (R.remaining input) (IsFaultyShown Profile)) }
    ensures untouched { IfErr result (λ e. (e ≡ fault.Write) ⊎ (output.new ≡ output.old)) }
    ensures failed { IfErr result (λ e. (output.new ≡ output.old) ⊎ IfSome (R.remaining input) (FailsToSurvey W.contents output.old output.new)) }
{
    match check_all(alloc, input) {
        Ok(survey) if survey.is_lawful() => put_lawful(survey.picks, output),
        Ok(survey) => put_survey(&survey, output),
        Err(error) => Err(Fault::Trace(error)),
    }
}
