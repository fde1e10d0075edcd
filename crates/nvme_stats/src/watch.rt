// Goes through a trace, event by event.
ghost use Rattle.std.specs.Prelude.{◌≡◌, ◌+◌, List, ℕ, Some, Ok, [], ◌∷◌, IfErr, IfOk, OnOk};
ghost use Rattle.nvme_arbiter.specs.History.{History};
ghost use Rattle.nvme_trace.specs.Format.{event_view, head_by};
ghost use Rattle.nvme_lines.specs.Lines.{TakesTold};
ghost use Rattle.nvme_trace.specs.declared.basis.Basis.TheVariants.{Specification};
ghost use Rattle.nvme_trace.specs.declared.records.Head.{Head};
ghost use Rattle.nvme_trace.specs.declared.fault.TraceError.TheVariants as fault;
ghost use Rattle.nvme_stats.specs.Chosen.{IsPart, chosen, number_after};
ghost use Rattle.nvme_stats.specs.Counted.{capped};
ghost use Rattle.nvme_trace.specs.Shown.{IsShownBy, IsReadFaultBy};

use crate::selection::{Chooser, Part, Selection};
use nvme_arbiter::Mechanism;
use nvme_trace::{Basis, Trace, TraceError, TraceEvent};
use std::alloc::Global;
use std::io::Read;

/// Something that follows a trace, event by event.
pub trait Watch: Drop {
    /// These are the head and the events so far, the newest first.
    ghost stands: { Head → History → Self → Type 0 };

    /// Takes the next event. It is, or is before, the pick of this number.
    fn watch(&mut self, number: u64, event: &TraceEvent) -> Result<(), TraceError>
        ensures stands { OnOk result ((head : Head) (past : History) → stands head past self.old → stands head (event_view event.now ∷ past) self.new) }
        ensures fault { IfErr result (λ e. e ≡ fault.NoMemory) };

    /// Passes over an event that isn't looked at.
    fn pass(&mut self)
        ensures { (head : Head) (past : History) → stands head past self.old → stands head past self.new };
}

/// The sum of a count and more, at most 2^64 - 1.
pub fn more(count: u64, by: u16) -> u64
    ensures { (n : ℕ) → count ≡ capped n → result ≡ capped (n + by) }
{
    count.saturating_add(u64::from(by))
}

// Shows the next event to a watcher, where it is chosen.
fn show_one<W: Watch>(
    chooser: &mut Chooser,
    event: &TraceEvent,
    watcher: &mut W,
) -> Result<(), TraceError>
    ensures stands { OnOk result ((head : Head) (past : History) → chooser.old.next ≡ number_after past → W.stands head (chosen chooser.old.mechanism chooser.old.selection past) watcher.old → W.stands head (chosen chooser.old.mechanism chooser.old.selection (event_view event.now ∷ past)) watcher.new) }
    ensures next { OnOk result ((past : History) → chooser.old.next ≡ number_after past → chooser.new.next ≡ number_after (event_view event.now ∷ past)) }
    ensures mechanism { chooser.new.mechanism ≡ chooser.old.mechanism }
    ensures selection { chooser.new.selection ≡ chooser.old.selection }
    ensures fault { IfErr result (λ e. e ≡ fault.NoMemory) }
{
    let number = chooser.next;
    if chooser.chooses(event) {
        watcher.watch(number, event)
    } else {
        watcher.pass();
        Ok(())
    }
}

/// Shows the chosen events after the head to a watcher. The answer is the part of the trace that they are. `fresh` may
/// be missing from the line of a pick, and is false there.
pub fn show<R: Read, W: Watch>(
    alloc: Global,
    trace: &mut Trace<R>,
    mechanism: Mechanism,
    selection: Selection,
    watcher: &mut W,
) -> Result<Part, TraceError>
    ensures shown { IfOk result (λ part. (text : List ℕ) (first : Head) → TakesTold (λ line. head_by line ≡ Ok first) 0 (Some text) trace.old.number trace.old.rest → W.stands first [] watcher.old → first.mechanism ≡ mechanism → IsShownBy Specification text (λ h past. W.stands h (chosen h.mechanism selection past) watcher.new × IsPart selection past part)) }
    ensures fault { IfErr result (λ error. (text : List ℕ) (first : Head) → TakesTold (λ line. head_by line ≡ Ok first) 0 (Some text) trace.old.number trace.old.rest → W.stands first [] watcher.old → IsReadFaultBy Specification text error) }
{
    let mut chooser = Chooser {
        mechanism,
        selection,
        next: 1,
    };
    for _ in 1..u64::MAX {
        let Some(event) = trace.event_by(alloc, Basis::Specification)? else {
            return Ok(Part {
                selection,
                next: chooser.next,
            });
        };
        show_one(&mut chooser, &event, watcher)?;
    }
    Err(TraceError::Read)
}
