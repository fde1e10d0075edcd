// Reads the lines of a text as a stream.
ghost use Rattle.std.specs.Prelude.{◌≤◌};

use std::alloc::AllocFailed;
use std::io::{self, ErrorKind, Read};

// The number of bytes that one read asks for.
const CHUNK: usize = 16_384;

// How often a read is made that is interrupted each time.
const MAX_READS: u32 = 67_108_864;

// The most bytes of a line, not counting its newline.
const LONGEST_LINE: usize = 4_096;

// One byte more shows that a line is longer.
const TRIES: usize = LONGEST_LINE + 1;

/// Why there is no next line.
#[derive(Clone, Copy, Debug, PartialEq, Eq)]
pub enum NextError {
    /// It has too many bytes.
    TooLong,
    /// A read failed.
    Read,
    /// Memory was refused.
    NoMemory,
}

impl From<AllocFailed<u8>> for NextError {
    ghost use Rattle.std.specs.Prelude.{◌≡◌};
    ghost use Rattle.nvme_lines.specs.declared.lines.NextError.TheVariants as error;

    ghost from_gives = { λ _ e. e ≡ error.NoMemory };

    fn from(_error: AllocFailed<u8>) -> NextError {
        NextError::NoMemory
    }
}

/// The lines of a reader. It keeps one line, and what was read after it.
#[derive(Drop)]
pub struct Lines<R> {
    reader: R,
    chunk: [u8; CHUNK],
    // The part of the chunk that isn't taken yet.
    start: usize,
    end: usize,
    ghost ordered: { start ≤ end },
    ghost within: { end ≤ 16384 },
}

impl<R: Read> Lines<R> {
    ghost use Rattle.std.specs.Prelude.{◌≡◌, ◌<◌, ◌∷◌, [], length, IfOk, IfErr, OnOk, MatchOption};
    ghost use Rattle.std.specs.Io.KnownBytes.{Consumes, Keeps, IsAtEnd};
    ghost use Rattle.nvme_lines.specs.Lines.{unread, MatchLine, MeetsError};
    ghost use Rattle.nvme_lines.specs.Lines.{longest_line};
    ghost use Rattle.nvme_lines.specs.declared.lines.NextError.TheVariants as error;

    /// The lines of a reader that wasn't read yet.
    pub fn new(reader: R) -> Lines<R>
        ensures { unread R.remaining result ≡ R.remaining reader }
    {
        Lines {
            reader,
            chunk: [0; CHUNK],
            start: 0,
            end: 0,
        }
    }

    // Reads a chunk where none is left, by one read. If it is empty afterwards, the text is at its end.
    fn read_chunk(&mut self) -> io::Result<()>
        requires { self.old.start ≡ self.old.end }
        ensures kept { Keeps (unread R.remaining self.old) (unread R.remaining self.new) }
        ensures end { OnOk result (self.new.start ≡ self.new.end → IsAtEnd (unread R.remaining self.new)) }
        ensures none { IfErr result (λ e. self.new.start ≡ self.new.end) }
    {
        self.start = 0;
        self.end = 0;
        self.end = self.reader.read(&mut self.chunk)?;
        Ok(())
    }

    // Reads a chunk where none is left. If it is empty afterwards, the text is at its end. A read that a signal interrupts is
    // made again.
    #[tactic(auto, using(crate::proofs::LineLemmas::keeps_keeps))]
    fn fill(&mut self) -> Result<(), NextError>
        requires { self.old.start ≡ self.old.end }
        ensures kept { Keeps (unread R.remaining self.old) (unread R.remaining self.new) }
        ensures end { OnOk result (self.new.start ≡ self.new.end → IsAtEnd (unread R.remaining self.new)) }
        ensures err { IfErr result (λ e. e ≡ error.Read) }
    {
        for _ in 0..MAX_READS {
            match self.read_chunk() {
                Ok(()) => return Ok(()),
                Err(error) if error.kind() == ErrorKind::Interrupted => {}
                Err(_) => return Err(NextError::Read),
            }
        }
        Err(NextError::Read)
    }

    // Takes the first byte that isn't taken yet.
    fn take(&mut self) -> u8
        requires { self.old.start < self.old.end }
        ensures { Consumes (unread R.remaining self.old) (unread R.remaining self.new) (result ∷ []) }
    {
        let byte = self.chunk[self.start];
        self.start += 1;
        byte
    }

    // The next byte, or `None` at the end.
    #[tactic(auto, using(crate::proofs::LineLemmas::keeps_consumes))]
    fn byte(&mut self) -> Result<Option<u8>, NextError>
        ensures ok { IfOk result (λ o. MatchOption o (IsAtEnd (unread R.remaining self.old) × Keeps (unread R.remaining self.old) (unread R.remaining self.new)) (λ b. Consumes (unread R.remaining self.old) (unread R.remaining self.new) (b ∷ []))) }
        ensures err { IfErr result (λ e. e ≡ error.Read) }
    {
        if self.start < self.end {
            return Ok(Some(self.take()));
        }
        self.fill()?;
        if self.start == self.end {
            return Ok(None);
        }
        Ok(Some(self.take()))
    }

    /// Puts the next line into `line`, without its newline. The answer is false at the end of the text.
    pub fn next_line(&mut self, line: &mut Vec<u8>) -> Result<bool, NextError>
        ensures ok { IfOk result (λ more. MatchLine more line.new.items (unread R.remaining self.old) (unread R.remaining self.new)) }
        ensures short { OnOk result (length line.new.items ≤ longest_line) }
        ensures err { IfErr result (λ e. MeetsError e (unread R.remaining self.old)) }
    {
        line.clear();
        for _ in 0..TRIES {
            match self.byte()? {
                None => return Ok(!line.is_empty()),
                Some(b'\n') => return Ok(true),
                Some(byte) => line.push(byte)?,
            }
        }
        Err(NextError::TooLong)
    }
}
