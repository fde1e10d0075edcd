// Writes statistics of a trace.
ghost use Rattle.std.specs.Prelude.{◌≡◌, ◌⊎◌, Ok, IfErr, IfSome, OnOk};
ghost use Rattle.nvme_sim.specs.Inputs.{IsFaultyShown, IsTrace};
ghost use Rattle.nvme_sim.specs.Statuses.{status_of};
ghost use Rattle.nvme_sim.specs.declared.faults.Fault.TheVariants as fault;
ghost use Rattle.nvme_sim.specs.declared.commands.Answer.TheVariants as answer;
ghost use Rattle.nvme_trace.specs.declared.basis.Basis.TheVariants.{Specification};

use super::Answer;
use crate::faults::Fault;
use nvme_stats::{Selection, stats};
use nvme_words::{Format, Numbers};
use std::alloc::Global;
use std::io::{Read, Write};

/// Writes statistics of a trace, in which `fresh` may be missing, as text, as JSON or as comma-separated values.
#[tactic(auto, using(crate::proofs::Inputs::is_trace))]
#[inline(never)]
pub(super) fn counted<R: Read + Drop, W: Write>(
    alloc: Global,
    numbers: Numbers,
    input: R,
    output: &mut W,
) -> Result<Answer, Fault>
    ensures no_other { (result ≡ Ok answer.Warned) ⊎ (result ≡ Ok answer.Refused) → ⊥ }
    ensures input { IfErr result (λ e. status_of e ≡ 1 → IfSome (R.remaining input) (IsFaultyShown Specification)) }
    ensures done { OnOk result (IfSome (R.remaining input) IsTrace) }
    ensures untouched { IfErr result (λ e. (e ≡ fault.Write) ⊎ (output.new ≡ output.old)) }
    ensures failed { IfErr result (λ e. (output.new ≡ output.old) ⊎ IfSome (R.remaining input) IsTrace) }
{
    let selection = Selection {
        first: numbers.range.first,
        last: numbers.range.last,
        backlogged: numbers.backlogged,
    };
    let window = Some(numbers.window).filter(|window| *window > 0);
    let statistics = match stats(alloc, input, selection, window) {
        Ok(statistics) => statistics,
        Err(error) => return Err(Fault::Trace(error)),
    };
    let written = match numbers.format {
        Format::Text => statistics.write_text(output),
        Format::Json => statistics.write_json(output),
        Format::Csv => statistics.write_csv(output),
    };
    match written {
        Ok(()) => Ok(Answer::Done),
        Err(_) => Err(Fault::Write),
    }
}
