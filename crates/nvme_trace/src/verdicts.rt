// Checks a trace.
ghost use Rattle.std.specs.Prelude.{◌≡◌, ℕ, List, Some, Ok, IfOk, IfErr, IfSome};
ghost use Rattle.nvme_lines.specs.Lines.{TakesTold};
ghost use Rattle.nvme_trace.specs.Format.{start_of_line};
ghost use Rattle.nvme_judge.specs.Starts.{CanBegin};
ghost use Rattle.nvme_trace.specs.Checks.{IsAnswer, IsFaultBy};
ghost use Rattle.nvme_trace.specs.declared.basis.Basis.TheVariants.{Profile};

use crate::basis::Basis;
use crate::fault::TraceError;
use crate::judges::{BasisJudge, Reason};
use crate::trace::Trace;
use nvme_arbiter::Kept;
use std::alloc::Global;
use std::io::Read;

/// The first pick of a trace that isn't allowed.
#[derive(Debug, Drop, PartialEq, Eq)]
pub struct Refusal {
    /// The number of its line, from 1 on.
    pub line: u64,
    /// The line.
    pub quoted: Vec<u8>,
    /// What was picked, and why it isn't allowed.
    pub reason: Reason,
}

/// The answer of a check.
#[derive(Debug, Drop, PartialEq, Eq)]
pub enum Checked {
    /// Each of the `picks` picks is allowed.
    Lawful { picks: u64 },
    /// A pick isn't allowed. It is the first such.
    Refused(Refusal),
}

/// Checks whether the picks of a trace are those that this front makes from what its head tells: `check_by` the
/// profile.
pub fn check<R: Read + Drop>(alloc: Global, reader: R) -> Result<Checked, TraceError>
    ensures answer { IfOk result (λ checked. IfSome (R.remaining reader) (λ text. IsAnswer Profile text checked)) }
    ensures fault { IfErr result (λ error. IfSome (R.remaining reader) (λ text. IsFaultBy Profile text error)) }
{
    check_by(alloc, Basis::Profile, reader)
}

/// Checks whether the picks of a trace are allowed, from what its head tells on: its settings, and what the arbiter kept
/// where the trace begins in the middle. If they aren't, the answer is the first pick that isn't. The error is of the
/// first line with a fault, if each pick before it is allowed. The trace is read as a stream.
#[tactic(auto, using(crate::proofs::CheckLemmas::head_fault))]
pub fn check_by<R: Read + Drop>(
    alloc: Global,
    basis: Basis,
    reader: R,
) -> Result<Checked, TraceError>
    ensures answer { IfOk result (λ checked. IfSome (R.remaining reader) (λ text. IsAnswer basis text checked)) }
    ensures fault { IfErr result (λ error. IfSome (R.remaining reader) (λ text. IsFaultBy basis text error)) }
{
    let mut trace = Trace::new(alloc, reader);
    match trace.start(alloc) {
        Ok(start) => judged(alloc, basis, start, &mut trace),
        Err(error) => Err(error),
    }
}

// Judges the events after a head.
fn judged<R: Read>(
    alloc: Global,
    basis: Basis,
    start: Kept,
    trace: &mut Trace<R>,
) -> Result<Checked, TraceError>
    requires { CanBegin start }
    ensures answer { IfOk result (λ checked. (text : List ℕ) → TakesTold (λ line. start_of_line line ≡ Ok start) 0 (Some text) trace.old.number trace.old.rest → IsAnswer basis text checked) }
    ensures fault { IfErr result (λ error. (text : List ℕ) → TakesTold (λ line. start_of_line line ≡ Ok start) 0 (Some text) trace.old.number trace.old.rest → IsFaultBy basis text error) }
{
    let mut judge = BasisJudge::new(basis, start);
    for _ in 1..u64::MAX {
        let Some(event) = trace.event_by(alloc, basis)? else {
            return Ok(Checked::Lawful {
                picks: judge.picks(),
            });
        };
        if let Some(reason) = judge.judge(&event) {
            return Ok(Checked::Refused(Refusal {
                line: trace.number(),
                quoted: trace.take_line(alloc),
                reason,
            }));
        }
    }
    Err(TraceError::Read)
}
