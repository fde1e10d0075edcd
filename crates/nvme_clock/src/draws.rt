// Draws from a stream, with neither a float nor a logarithm. Each loop is bounded, so each draw ends for any stream.
ghost use Rattle.std.specs.Prelude.{◌≡◌, ◌≤◌, ◌<◌, ◌*◌, ◌^◌, nat_lt};
ghost use Rattle.nvme_clock.specs.Draws.{accepted_below, exponential, one_of_two, part_of, run_behind, uniform};

use rand_core::Rng;

// The most words that a draw rejects, words of a run behind its first, and runs of an exponential time.
const TURNS: u64 = 64;

/// The greatest mean of an exponential time, in picoseconds: 3.3 days.
pub const MAX_MEAN: u64 = 0x03ff_ffff_ffff_ffff;

// This part of a whole, where a word counts 2^64ths.
pub(crate) fn part(word: u64, whole: u64) -> u64
    ensures value { result ≡ part_of word whole }
    ensures within { result ≤ whole }
{
    ((u128::from(word) * u128::from(whole)) / 0x1_0000_0000_0000_0000) as u64
}

// Whether a word is below the greatest multiple of a bound up to 2^64 - 1. That of most words is told without the remainder.
fn is_accepted(word: u64, bound: u64) -> bool
    requires some { 0 < bound }
    ensures { result ≡ nat_lt word (accepted_below bound) }
{
    word <= u64::MAX - bound || word < u64::MAX - u64::MAX % bound
}

/// A number below `bound`, each equally likely: the remainder of the first word that is below the greatest multiple of
/// `bound` up to 2^64 - 1. Where 64 words were not, which has a probability of 2^-64 at most, it is the next one's.
pub fn uniform<R: Rng>(rng: &mut R, bound: u64) -> u64
    requires some { 0 < bound }
    ensures value { (result, R.stream rng.new) ≡ uniform bound (R.stream rng.old) }
    ensures below { result < bound }
{
    for _turn in 0..TURNS {
        let word = rng.next_u64();
        if is_accepted(word, bound) {
            return word % bound;
        }
    }
    rng.next_u64() % bound
}

// Whether the falling run of words that begins with this one is odd.
fn run<R: Rng>(rng: &mut R, first: u64) -> bool
    ensures { (result, R.stream rng.new) ≡ run_behind first (R.stream rng.old) }
{
    let mut last = first;
    let mut odd = true;
    for _turn in 0..TURNS {
        let word = rng.next_u64();
        if word >= last {
            return odd;
        }
        last = word;
        odd = !odd;
    }
    odd
}

/// An exponential time of this mean, by von Neumann's comparisons.
///
/// Where the first word of a falling run is the fraction x of 2^64, the run has more than n words with probability
/// x^n / n!, so it is odd with 1 - x + x^2 / 2! - .. = e^-x. The first word of an odd run so has the density e^-x on 0 to
/// 1, but for a constant, and a run is even with probability e^-1. So the even runs before the first odd one count the
/// whole means of an exponential time, and the first word of that one is its part of a mean. Each time is rounded down.
/// A run is cut after 65 words, which has a probability of 1 / 65!. 64 even runs answer 64 means, with one of e^-64.
pub fn exponential<R: Rng>(rng: &mut R, mean: u64) -> u64
    requires in_range { mean ≤ MAX_MEAN }
    ensures value { (result, R.stream rng.new) ≡ exponential mean (R.stream rng.old) }
    ensures bound { result ≤ 64 * mean }
{
    for turn in 0..TURNS {
        let first = rng.next_u64();
        if run(rng, first) {
            return turn * mean + part(first, mean);
        }
    }
    TURNS * mean
}

/// `rare` with a probability of `times` / `out_of`, and `usual` else.
#[derive(Clone, Copy, Debug, PartialEq, Eq)]
pub struct TwoPoints {
    pub usual: u64,
    pub rare: u64,
    pub times: u64,
    pub out_of: u64,
    ghost some: { 0 < out_of },
}

impl TwoPoints {
    /// One of the two. Where `times` is `out_of` or more, it is `rare`.
    pub fn draw<R: Rng>(&self, rng: &mut R) -> u64
        ensures { (result, R.stream rng.new)
            ≡ one_of_two self.now.usual self.now.rare self.now.times self.now.out_of (R.stream rng.old) }
    {
        if uniform(rng, self.out_of) < self.times {
            self.rare
        } else {
            self.usual
        }
    }
}
