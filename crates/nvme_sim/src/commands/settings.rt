// Translates settings.
ghost use Rattle.std.specs.Prelude.{◌≡◌, ◌⊎◌, ℕ, Ok, IfErr, OnOk};
ghost use Rattle.nvme_sim.specs.Statuses.{status_of};
ghost use Rattle.nvme_sim.specs.declared.faults.Fault.TheVariants as fault;
ghost use Rattle.nvme_sim.specs.declared.commands.Answer.TheVariants as answer;

use super::Answer;
use crate::faults::Fault;
use nvme_output::WriteFault;
use nvme_settings::{SettingsFault, put_table};
use std::io::Write;

/// Writes what the fields of settings mean, and the words that say them, or tells why the words say none.
#[inline(never)]
pub(super) fn translated<W: Write>(
    reading: Result<u32, SettingsFault>,
    output: &mut W,
) -> Result<Answer, Fault>
    ensures no_other { (result ≡ Ok answer.Warned) ⊎ (result ≡ Ok answer.Refused) → ⊥ }
    ensures no_input { IfErr result (λ e. status_of e ≡ 1 → ⊥) }
    ensures done { OnOk result ((x : ℕ) × (reading ≡ Ok x)) }
    ensures untouched { IfErr result (λ e. (e ≡ fault.Write) ⊎ (output.new ≡ output.old)) }
    ensures failed { IfErr result (λ e. (output.new ≡ output.old) ⊎ ((x : ℕ) × (reading ≡ Ok x))) }
{
    match reading {
        Ok(cdw11) => match put_table(cdw11, output) {
            Ok(()) => Ok(Answer::Done),
            Err(WriteFault) => Err(Fault::Write),
        },
        Err(fault) => Err(Fault::Settings(fault)),
    }
}
