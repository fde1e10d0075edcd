// A reader that counts what is read of it.
ghost use Rattle.std.specs.Prelude.{◌≡◌, ◌≢◌, ◌<◌, ◌≤◌, ◌+◌, ◌^◌, ◌⊎◌, true, false, length, take, IfOk, IfErr, IfSome, IfNone, None, Some};
ghost use Rattle.std.specs.Io.KnownBytes.{Consumes, IsAtEnd, Keeps};
ghost use Rattle.std.specs.IoError.{error_kind};

use super::{MAX_INPUT, MAX_READS};
use std::io::{self, ErrorKind, Read};

/// A reader that is read through this alone.
#[derive(Drop)]
pub struct Counted<R> {
    reader: R,
    // How many reads were made, and how many bytes they gave.
    reads: u32,
    given: usize,
    // How many of them a signal interrupted.
    interruptions: u32,
    // One of them failed, and wasn't interrupted by a signal.
    failed: bool,
}

impl<R: Read> Counted<R> {
    /// A reader that wasn't read yet.
    pub fn new(reader: R) -> Counted<R>
        ensures reader { result.reader ≡ reader }
        ensures reads { result.reads ≡ 0 }
        ensures given { result.given ≡ 0 }
        ensures interruptions { result.interruptions ≡ 0 }
        ensures failed { result.failed ≡ false }
    {
        Counted {
            reader,
            reads: 0,
            given: 0,
            interruptions: 0,
            failed: false,
        }
    }

    // Counts one more read by its answer. The answer is how many bytes it gave.
    fn count(&mut self, answer: io::Result<usize>) -> Option<usize>
        requires few { self.old.reads < MAX_READS }
        requires interruptions { self.old.interruptions ≤ self.old.reads }
        requires room { IfOk answer (λ n. self.old.given + n < 2 ^ 64) }
        ensures reader { self.new.reader ≡ self.old.reader }
        ensures reads { self.new.reads ≡ self.old.reads + 1 }
        ensures interruptions_of_reads { self.new.interruptions ≤ self.new.reads }
        ensures bytes { IfOk answer (λ n. result ≡ Some n) }
        ensures given { IfOk answer (λ n. self.new.given ≡ self.old.given + n) }
        ensures unchanged { IfOk answer (λ n. (self.new.failed ≡ self.old.failed) × (self.new.interruptions ≡ self.old.interruptions)) }
        ensures none { IfErr answer (λ e. (result ≡ None) × (self.new.given ≡ self.old.given)) }
        ensures failure { IfErr answer (λ e. error_kind e ≢ ErrorKind.Interrupted → (self.new.failed ≡ true) × (self.new.interruptions ≡ self.old.interruptions)) }
        ensures interruption { IfErr answer (λ e. error_kind e ≡ ErrorKind.Interrupted → (self.new.failed ≡ self.old.failed) × (self.new.interruptions ≡ self.old.interruptions + 1)) }
    {
        self.reads += 1;
        match answer {
            Ok(count) => {
                self.given += count;
                Some(count)
            }
            Err(error) => {
                if error.kind() == ErrorKind::Interrupted {
                    self.interruptions += 1;
                } else {
                    self.failed = true;
                }
                None
            }
        }
    }

    /// One read more: how many bytes it gave, or `None` where it failed, or a signal interrupted it.
    pub fn read(&mut self, chunk: &mut [u8]) -> Option<usize>
        requires few { self.old.reads < MAX_READS }
        requires interruptions { self.old.interruptions ≤ self.old.reads }
        requires short { self.old.given ≤ MAX_INPUT }
        requires room { length chunk.old < 2 ^ 32 }
        ensures reads { self.new.reads ≡ self.old.reads + 1 }
        ensures interruptions_of_reads { self.new.interruptions ≤ self.new.reads }
        ensures within { IfSome result (λ n. n ≤ length chunk.new) }
        ensures given { IfSome result (λ n. self.new.given ≡ self.old.given + n) }
        ensures unchanged { IfSome result (λ n. (self.new.failed ≡ self.old.failed) × (self.new.interruptions ≡ self.old.interruptions)) }
        ensures bytes { IfSome result (λ n. Consumes (R.remaining self.old.reader) (R.remaining self.new.reader) (take n chunk.new)) }
        ensures end { IfSome result (λ n. n ≡ 0 → 0 < length chunk.new → IsAtEnd (R.remaining self.new.reader)) }
        ensures none { IfNone result (self.new.given ≡ self.old.given) }
        ensures cause { IfNone result (((self.new.failed ≡ true) × (self.new.interruptions ≡ self.old.interruptions)) ⊎ ((self.new.failed ≡ self.old.failed) × (self.new.interruptions ≡ self.old.interruptions + 1))) }
        ensures kept { IfNone result (Keeps (R.remaining self.old.reader) (R.remaining self.new.reader)) }
    {
        let answer = self.reader.read(chunk);
        self.count(answer)
    }

    /// A read failed, and no signal was the cause.
    pub fn has_failed(&self) -> bool
        ensures { result ≡ self.now.failed }
    {
        self.failed
    }
}
