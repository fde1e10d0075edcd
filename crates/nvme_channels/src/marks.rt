// Marks of places from 0 on, a bit each in words of 64 bits.
ghost use Rattle.std.specs.Prelude.{◌≡◌, ◌≤◌, ◌<◌, ◌*◌, ◌+◌, ◌==◌, not, IfOk, IfSome, length, position, replicate, slice_set, true, vec_len};
ghost use Rattle.nvme_channels.specs.declared.channels.TheConstants.{MAX_CHANNELS};
ghost use Rattle.nvme_channels.specs.inside.Words.{IsLowest, SetsBit};

use crate::channels::MAX_CHANNELS;
use std::alloc::{AllocError, Global};

/// Which places of so many are marked.
#[derive(Drop)]
pub struct Marks {
    words: Vec<u64>,
    count: usize,
    ghost covered: { count ≤ 64 * vec_len words },
    ghost few: { 64 * vec_len words < count + 64 },
    ghost fit: { count ≤ MAX_CHANNELS },
}

impl Marks {
    ghost use Rattle.nvme_channels.specs.inside.Marks.{marks_of};

    /// All places are marked.
    pub fn new(alloc: Global, count: usize) -> Result<Marks, AllocError>
        requires few { count ≤ MAX_CHANNELS }
        ensures { IfOk result (λ m. marks_of m ≡ replicate count true) }
    {
        let words = vec![in alloc; u64::MAX; count.div_ceil(64)]?;
        Ok(Marks { words, count })
    }

    /// A place is marked, or isn't.
    pub fn put(&mut self, place: usize, on: bool)
        requires within { place < length (marks_of self.old) }
        ensures { marks_of self.new ≡ slice_set (marks_of self.old) place on }
    {
        let word = self.words[place / 64];
        self.words[place / 64] = with_bit(word, place % 64, on);
    }

    /// The first place that is marked.
    pub fn first(&self) -> Option<usize>
        ensures { result ≡ position (λ b. b) (marks_of self.now) }
    {
        let word = first_some(&self.words)?;
        let place = 64 * word + lowest(self.words[word]);
        if place < self.count {
            Some(place)
        } else {
            None
        }
    }
}

// The place of the first word with a bit set.
fn first_some(words: &[u64]) -> Option<usize>
    ensures value { result ≡ position (λ w. not (w == 0)) words.now }
    ensures within { IfSome result (λ i. i < length words.now) }
{
    words.iter().position(|w| *w != 0)
}

// The lowest bit that is set, and 64 where none is.
fn lowest(word: u64) -> usize
    ensures some { 0 < word → IsLowest word result }
    ensures within { result ≤ 64 }
{
    word.trailing_zeros() as usize
}

// A word with one bit set or cleared.
fn with_bit(word: u64, bit: usize, on: bool) -> u64
    requires { bit < 64 }
    ensures { SetsBit word bit on result }
{
    if on {
        word | (1 << bit)
    } else {
        word & !(1 << bit)
    }
}
