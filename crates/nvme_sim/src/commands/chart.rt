// Draws a trace.
ghost use Rattle.std.specs.Prelude.{◌≡◌, ◌⊎◌, Ok, IfErr, IfSome, OnOk};
ghost use Rattle.nvme_sim.specs.Inputs.{IsFaultyShown, IsTrace};
ghost use Rattle.nvme_sim.specs.Statuses.{status_of};
ghost use Rattle.nvme_sim.specs.declared.faults.Fault.TheVariants as fault;
ghost use Rattle.nvme_sim.specs.declared.commands.Answer.TheVariants as answer;
ghost use Rattle.nvme_trace.specs.declared.basis.Basis.TheVariants.{Specification};

use super::Answer;
use crate::faults::Fault;
use nvme_chart::{Style, chart};
use nvme_stats::Selection;
use nvme_words::Drawing;
use std::alloc::Global;
use std::io::{Read, Write};

/// Writes a picture of the picks of a trace in a range, with the admin queue or without it, as SVG. `fresh` may be
/// missing.
#[tactic(auto, using(crate::proofs::Inputs::is_trace))]
#[inline(never)]
pub(super) fn charted<R: Read + Drop, W: Write>(
    alloc: Global,
    drawing: Drawing,
    input: R,
    output: &mut W,
) -> Result<Answer, Fault>
    ensures no_other { (result ≡ Ok answer.Warned) ⊎ (result ≡ Ok answer.Refused) → ⊥ }
    ensures input { IfErr result (λ e. status_of e ≡ 1 → IfSome (R.remaining input) (IsFaultyShown Specification)) }
    ensures done { OnOk result (IfSome (R.remaining input) IsTrace) }
    ensures untouched { IfErr result (λ e. (e ≡ fault.Write) ⊎ (output.new ≡ output.old)) }
    ensures failed { IfErr result (λ e. (output.new ≡ output.old) ⊎ IfSome (R.remaining input) IsTrace) }
{
    let selection = Selection {
        first: drawing.range.first,
        last: drawing.range.last,
        backlogged: false,
    };
    let style = Style {
        admin: !drawing.no_admin,
        ..Style::COMMON
    };
    let picture = match chart(alloc, input, selection, style) {
        Ok(picture) => picture,
        Err(error) => return Err(Fault::Trace(error)),
    };
    match picture.write_svg(output) {
        Ok(()) => Ok(Answer::Done),
        Err(_) => Err(Fault::Write),
    }
}
