// Reads a trace as a stream, line by line.
ghost use Rattle.std.specs.Prelude.{◌≡◌, ◌≤◌, ℕ, List, Option, Ok, length, IfOk, IfErr, IfSome, OnOk, MatchOption};
ghost use Rattle.nvme_lines.specs.Lines.{longest_line, MatchTold, MeetsTold, TakesTold, HasNoTold};
ghost use Rattle.nvme_trace.specs.Format.{start_of_line, head_by, event_by, event_view, room_view, room_of_line};
ghost use Rattle.nvme_trace.specs.Judged.{IsObserved};
ghost use Rattle.nvme_trace.specs.Faults.{IsLineFault, IsHeadFault, IsEventFaultBy};
ghost use Rattle.nvme_trace.specs.Readings.{Fails};
ghost use Rattle.nvme_judge.specs.Starts.{CanBegin};
ghost use Rattle.nvme_trace.specs.declared.basis.Basis.{Basis};

use crate::basis::Basis;
use crate::fault::{LineFault, TraceError};
use crate::notes::{event_note, head_note};
use crate::records::{Head, TraceEvent, event_of_line, start_of_line};
use nvme_arbiter::Kept;
use nvme_lines::{NextError, NumberedLines};
use std::alloc::Global;
use std::io::Read;
use std::marker::Model;

/// A trace of which some lines were read. Contracts see the bytes that are left, where they are known, the number of
/// lines that were read, and the latest one.
#[derive(Drop)]
pub struct Trace<R: Read> {
    lines: NumberedLines<R>,
}

impl<R: Read> Model for Trace<R> {
    ghost use Rattle.nvme_lines.specs.Lines.{ToldView};

    ghost Value = { ToldView };

    ghost view = { λ t. t.lines };
}

// A fault of the line of this number, with a note.
fn fault_at(number: u64, fault: LineFault, note: String) -> TraceError
    ensures { IsLineFault result number fault }
{
    match fault {
        LineFault::NoMemory => TraceError::NoMemory,
        fault => TraceError::Line {
            line: number,
            fault,
            note,
        },
    }
}

// Why the line of this number wasn't taken.
#[tactic(auto, using(crate::proofs::TraceLemmas::head_too_long, crate::proofs::TraceLemmas::event_too_long))]
fn stop_at(alloc: Global, number: u64, error: NextError) -> TraceError
    ensures head { (m : ℕ) (rest : Option (List ℕ)) → MeetsTold error m rest number → IsHeadFault result m rest }
    ensures event { (basis : Basis) (m : ℕ) (rest : Option (List ℕ)) → MeetsTold error m rest number → IsEventFaultBy basis result m rest }
{
    match error {
        NextError::TooLong => fault_at(number, LineFault::TooLong, String::new(alloc)),
        NextError::Read => TraceError::Read,
        NextError::NoMemory => TraceError::NoMemory,
    }
}

// Reads the next line that isn't blank. The answer is false at the end of the text.
fn next_line<R: Read>(alloc: Global, lines: &mut NumberedLines<R>) -> Result<bool, TraceError>
    ensures ok { IfOk result (λ more. MatchTold more lines.new.latest lines.old.number lines.old.rest lines.new.number lines.new.rest) }
    ensures short { OnOk result (length lines.new.latest ≤ longest_line) }
    ensures head { IfErr result (λ e. IsHeadFault e lines.old.number lines.old.rest) }
    ensures event { (basis : Basis) → IfErr result (λ e. IsEventFaultBy basis e lines.old.number lines.old.rest) }
{
    match lines.next() {
        Ok(more) => Ok(more),
        Err(error) => Err(stop_at(alloc, lines.number(), error)),
    }
}

// The fault of a line that is no head, with its note.
#[tactic(auto, using(crate::proofs::TraceLemmas::head_fails))]
fn head_fault(alloc: Global, number: u64, line: &[u8], fault: LineFault) -> TraceError
    ensures { (rest : Option (List ℕ)) (m : ℕ) (new : Option (List ℕ)) → TakesTold (λ l. l ≡ line.now) m rest number new → Fails fault (start_of_line line.now) → IsHeadFault result m rest }
{
    match head_note(alloc, line, fault) {
        Ok(note) => fault_at(number, fault, note),
        Err(_) => TraceError::NoMemory,
    }
}

// The fault of a line that is no event, with its note.
#[tactic(auto, using(crate::proofs::TraceLemmas::event_fails))]
fn event_fault(alloc: Global, number: u64, line: &[u8], fault: LineFault) -> TraceError
    ensures { (basis : Basis) (rest : Option (List ℕ)) (m : ℕ) (new : Option (List ℕ)) → TakesTold (λ l. l ≡ line.now) m rest number new → Fails fault (event_by basis line.now) → IsEventFaultBy basis result m rest }
{
    match event_note(alloc, line, fault) {
        Ok(note) => fault_at(number, fault, note),
        Err(_) => TraceError::NoMemory,
    }
}

// The fault of a text with no line but blank ones.
#[tactic(auto, using(crate::proofs::TraceLemmas::no_head))]
fn no_head(alloc: Global) -> TraceError
    ensures { (m : ℕ) (rest : Option (List ℕ)) → HasNoTold m rest → IsHeadFault result m rest }
{
    match head_note(alloc, b"", LineFault::NoHead) {
        Ok(note) => fault_at(1, LineFault::NoHead, note),
        Err(_) => TraceError::NoMemory,
    }
}

impl<R: Read> Trace<R> {
    /// A trace that wasn't read yet.
    pub fn new(alloc: Global, reader: R) -> Trace<R>
        ensures rest { result.rest ≡ R.remaining reader }
        ensures number { result.number ≡ 0 }
    {
        Trace {
            lines: NumberedLines::new(alloc, reader),
        }
    }

    /// The number of lines that were read, which is that of the latest one.
    pub fn number(&self) -> u64
        ensures { result ≡ self.now.number }
    {
        self.lines.number()
    }

    /// Takes the latest line that isn't blank.
    pub fn take_line(&mut self, alloc: Global) -> Vec<u8>
        ensures latest { result.items ≡ self.old.latest }
        ensures rest { self.new.rest ≡ self.old.rest }
        ensures number { self.new.number ≡ self.old.number }
    {
        self.lines.take(alloc)
    }

    /// Reads the head, the first line that isn't blank: what the arbiter kept then.
    pub fn start(&mut self, alloc: Global) -> Result<Kept, TraceError>
        requires { self.old.number ≡ 0 }
        ensures ok { IfOk result (λ start. TakesTold (λ line. start_of_line line ≡ Ok start) 0 self.old.rest self.new.number self.new.rest) }
        ensures fits { IfOk result CanBegin }
        ensures err { IfErr result (λ e. IsHeadFault e 0 self.old.rest) }
    {
        if !next_line(alloc, &mut self.lines)? {
            return Err(no_head(alloc));
        }
        match start_of_line(alloc, self.lines.latest()) {
            Ok(start) => Ok(start),
            Err(fault) => Err(head_fault(alloc, self.lines.number(), self.lines.latest(), fault)),
        }
    }

    /// Reads the head, without what the arbiter kept.
    #[tactic(auto, using(crate::proofs::TraceLemmas::takes_head))]
    pub fn head(&mut self, alloc: Global) -> Result<Head, TraceError>
        requires { self.old.number ≡ 0 }
        ensures ok { IfOk result (λ head. TakesTold (λ line. head_by line ≡ Ok head) 0 self.old.rest self.new.number self.new.rest) }
        ensures err { IfErr result (λ e. IsHeadFault e 0 self.old.rest) }
    {
        match self.start(alloc) {
            Ok(start) => Ok(Head::of(&start)),
            Err(error) => Err(error),
        }
    }

    /// Reads the next line after the head that isn't blank. `None` at the end of the trace.
    pub fn event_by(
        &mut self,
        alloc: Global,
        basis: Basis,
    ) -> Result<Option<TraceEvent>, TraceError>
        ensures ok { IfOk result (λ o. MatchOption o (HasNoTold self.old.number self.old.rest) (λ e. TakesTold (λ line. event_by basis line ≡ Ok (event_view e)) self.old.number self.old.rest self.new.number self.new.rest)) }
        ensures latest { IfOk result (λ o. IfSome o (λ _. TakesTold (λ line. line ≡ self.new.latest) self.old.number self.old.rest self.new.number self.new.rest)) }
        ensures room { IfOk result (λ o. IfSome o (λ e. room_view e ≡ room_of_line self.new.latest)) }
        ensures observed { IfOk result (λ o. IfSome o (λ e. IsObserved (event_view e))) }
        ensures err { IfErr result (λ e. IsEventFaultBy basis e self.old.number self.old.rest) }
    {
        if !next_line(alloc, &mut self.lines)? {
            return Ok(None);
        }
        match event_of_line(alloc, basis, self.lines.latest()) {
            Ok(event) => Ok(Some(event)),
            Err(fault) => Err(event_fault(alloc, self.lines.number(), self.lines.latest(), fault)),
        }
    }
}
