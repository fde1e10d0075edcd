// The answer to one entry.
//
// Decided: the number of blocks is tested for 0 again, since that `clap` refuses it isn't proved.
ghost use Rattle.std.specs.Prelude.{◌≡◌, ◌≤◌, ◌⊎◌, Ok, IfOk, IfErr, IfSome, OnOk};
ghost use Rattle.std.specs.Io.KnownBytes.{Appends};
ghost use Rattle.nvme_output.specs.Written.{AppendsPrefix};
ghost use Rattle.nvme_words.specs.Once.{IsAnswer, entry_text};
ghost use Rattle.nvme_sim.specs.Answers.{Appended, AppendedPart, HasAnswer};
ghost use Rattle.nvme_sim.specs.Statuses.{IsBadEntry, status_of};
ghost use Rattle.nvme_sim.specs.declared.faults.Fault.TheVariants as fault;
ghost use Rattle.nvme_sim.specs.declared.commands.Answer.TheVariants as answer;

use super::Answer;
use crate::faults::Fault;
use nvme_output::{WriteFault, put};
use nvme_words::{once, take_input};
use std::alloc::Global;
use std::io::{Read, Write};

// The line that answers the entry of a text.
fn line_of(text: &[u8], blocks: u64) -> Result<[u8; 33], Fault>
    requires { 1 ≤ blocks }
    ensures answer { IfOk result (IsAnswer (entry_text text.now) blocks) }
    ensures input { IfErr result (λ e. status_of e ≡ 1 → IsBadEntry text.now) }
{
    match once(text, blocks) {
        Ok(line) => Ok(line),
        Err(error) => Err(Fault::Entry(error)),
    }
}

// The line that answers one entry over a namespace of so many blocks.
fn line_for<R: Read + Drop>(alloc: Global, blocks: u64, input: R) -> Result<[u8; 33], Fault>
    ensures answer { IfOk result (λ line. IfSome (R.remaining input) (λ bytes. IsAnswer (entry_text bytes) blocks line)) }
    ensures input { IfErr result (λ e. status_of e ≡ 1 → IfSome (R.remaining input) IsBadEntry) }
{
    if blocks == 0 {
        return Err(Fault::Words);
    }
    let bytes = take_input(alloc, input).map_err(Fault::Input)?;
    line_of(bytes.as_slice(), blocks)
}

// Writes the line.
fn put_line<W: Write>(line: &[u8; 33], output: &mut W) -> Result<Answer, Fault>
    ensures done { OnOk result ((result ≡ Ok answer.Done) × Appends (W.contents output.old) (W.contents output.new) line.now) }
    ensures failed { IfErr result (λ e. AppendsPrefix (W.contents output.old) (W.contents output.new) line.now) }
    ensures write { IfErr result (λ e. e ≡ fault.Write) }
{
    match put(line, output) {
        Ok(()) => Ok(Answer::Done),
        Err(WriteFault) => Err(Fault::Write),
    }
}

/// Answers one entry over a namespace of so many blocks.
#[inline(never)]
pub(super) fn answered<R: Read + Drop, W: Write>(
    alloc: Global,
    blocks: u64,
    input: R,
    output: &mut W,
) -> Result<Answer, Fault>
    ensures no_other { (result ≡ Ok answer.Warned) ⊎ (result ≡ Ok answer.Refused) → ⊥ }
    ensures input { IfErr result (λ e. status_of e ≡ 1 → IfSome (R.remaining input) IsBadEntry) }
    ensures done { OnOk result (IfSome (R.remaining input) (HasAnswer (Appended W.contents output.old output.new) blocks)) }
    ensures untouched { IfErr result (λ e. (e ≡ fault.Write) ⊎ (output.new ≡ output.old)) }
    ensures failed { IfErr result (λ e. (output.new ≡ output.old) ⊎ IfSome (R.remaining input) (HasAnswer (AppendedPart W.contents output.old output.new) blocks)) }
{
    match line_for(alloc, blocks, input) {
        Ok(line) => put_line(&line, output),
        Err(fault) => Err(fault),
    }
}
