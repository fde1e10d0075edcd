// The lines that say something, with their numbers.
ghost use Rattle.std.specs.Prelude.{◌≡◌, ◌≤◌, length, IfOk, IfErr, OnOk};
ghost use Rattle.std.specs.List.{list_all};
ghost use Rattle.nvme_lines.specs.Lines.{unread, longest_line, is_blank, is_space, MatchTold, MeetsTold};

use crate::lines::{Lines, NextError};
use std::alloc::Global;
use std::io::Read;
use std::marker::Model;
use std::mem;

/// The lines of a text that aren't blank, in turn. Contracts see the bytes that are left, where they are known, the
/// number of lines that were read, and the latest one.
#[derive(Drop)]
pub struct NumberedLines<R: Read> {
    lines: Lines<R>,
    line: Vec<u8>,
    number: u64,
}

impl<R: Read> Model for NumberedLines<R> {
    ghost use Rattle.nvme_lines.specs.Lines.{ToldView, unread};

    ghost Value = { ToldView };

    ghost view = { λ t. record { rest = unread R.remaining t.lines; number = t.number; latest = t.line.items } };
}

// Whether a byte is white space within a line.
fn is_space(byte: u8) -> bool
    ensures { result ≡ is_space byte }
{
    byte == b' ' || byte == b'\t' || byte == b'\r'
}

// Whether a line has only white space.
fn has_only_space(line: &[u8]) -> bool
    ensures { result ≡ list_all is_space line.now }
{
    line.iter().all(|byte| is_space(*byte))
}

// Whether a line is blank.
#[tactic(auto, using(crate::proofs::ToldLemmas::short_blank))]
fn is_blank(line: &[u8]) -> bool
    requires { length line.now ≤ longest_line }
    ensures { result ≡ is_blank line.now }
{
    has_only_space(line)
}

// Reads the next line that isn't blank, after the first `number` lines, and counts the lines. The answer is false at the
// end of the text.
#[tactic(auto, using(crate::proofs::ToldLemmas::meets_passed))]
fn line_after<R: Read>(
    number: &mut u64,
    lines: &mut Lines<R>,
    line: &mut Vec<u8>,
) -> Result<bool, NextError>
    ensures ok { IfOk result (λ more. MatchTold more line.new.items number.old (unread R.remaining lines.old) number.new (unread R.remaining lines.new)) }
    ensures short { OnOk result (length line.new.items ≤ longest_line) }
    ensures err { IfErr result (λ e. MeetsTold e number.old (unread R.remaining lines.old) number.new) }
{
    for _ in *number..u64::MAX {
        match lines.next_line(line) {
            Ok(false) => return Ok(false),
            Ok(true) => *number += 1,
            Err(error) => {
                *number += 1;
                return Err(error);
            }
        }
        if !is_blank(line) {
            return Ok(true);
        }
    }
    Err(NextError::Read)
}

impl<R: Read> NumberedLines<R> {
    /// The lines of a text that wasn't read yet.
    pub fn new(alloc: Global, reader: R) -> NumberedLines<R>
        ensures rest { result.rest ≡ R.remaining reader }
        ensures number { result.number ≡ 0 }
    {
        NumberedLines {
            lines: Lines::new(reader),
            line: Vec::new(alloc),
            number: 0,
        }
    }

    /// The number of lines that were read, which is that of the latest one.
    pub fn number(&self) -> u64
        ensures { result ≡ self.now.number }
    {
        self.number
    }

    /// The latest line, without its newline.
    pub fn latest(&self) -> &[u8]
        ensures { result.now ≡ self.now.latest }
    {
        &self.line
    }

    /// Takes the latest line, without its newline.
    pub fn take(&mut self, alloc: Global) -> Vec<u8>
        ensures latest { result.items ≡ self.old.latest }
        ensures rest { self.new.rest ≡ self.old.rest }
        ensures number { self.new.number ≡ self.old.number }
    {
        mem::replace(&mut self.line, Vec::new(alloc))
    }

    /// Reads the next line that isn't blank. The answer is false at the end of the text. After an error nothing more is
    /// to be read; a line that is too long is counted.
    pub fn next(&mut self) -> Result<bool, NextError>
        ensures ok { IfOk result (λ more. MatchTold more self.new.latest self.old.number self.old.rest self.new.number self.new.rest) }
        ensures short { OnOk result (length self.new.latest ≤ longest_line) }
        ensures err { IfErr result (λ e. MeetsTold e self.old.number self.old.rest self.new.number) }
    {
        line_after(&mut self.number, &mut self.lines, &mut self.line)
    }
}
