// On and off phases, which follow one another from time 0. The first one is on.
ghost use Rattle.std.specs.Prelude.{◌≡◌, ◌≤◌, ◌<◌, ◌+◌, ◌^◌, IfErr, IfOk, IfSome};

use crate::mean::Mean;
use rand_core::Rng;
use thiserror::Error;

/// Why phases are refused.
#[derive(Clone, Copy, Debug, PartialEq, Eq, Error)]
pub enum PhasesFault {
    /// The on phases have no length.
    #[error("expected on phases longer than 0")]
    NoOn,
    /// An on phase and an off phase have 2^64 picoseconds or more.
    #[error("expected an on and an off phase of less than 2^64 picoseconds together, which are 213 days")]
    TooLong,
}

/// On and off phases of fixed lengths, and the mean of the exponential times between commands while it is on.
#[derive(Clone, Copy, Debug, PartialEq, Eq)]
pub struct Phases {
    pub mean: Mean,
    pub on: u64,
    pub off: u64,
    ghost some: { 0 < on },
    ghost fits: { on + off < 2 ^ 64 },
}

impl Phases {
    ghost use Rattle.nvme_load.specs.Arrivals.{after_on_time};
    ghost use Rattle.nvme_load.specs.Phases.{TellsPhasesFault, on_before, when_on};
    ghost use Rattle.nvme_load.specs.Times.{fitting};

    /// Phases of these lengths, of which those that are on are longer than 0.
    pub fn new(mean: Mean, on: u64, off: u64) -> Result<Phases, PhasesFault>
        ensures mean { IfOk result (λ p. p.mean ≡ mean) }
        ensures on { IfOk result (λ p. p.on ≡ on) }
        ensures off { IfOk result (λ p. p.off ≡ off) }
        ensures err { IfErr result (λ e. TellsPhasesFault on off e) }
    {
        if on == 0 {
            return Err(PhasesFault::NoOn);
        }
        match on.checked_add(off) {
            Some(_) => Ok(Phases { mean, on, off }),
            None => Err(PhasesFault::TooLong),
        }
    }

    // The picoseconds before a time that lie in on phases.
    fn on_before(&self, time: u64) -> u64
        ensures { result ≡ on_before self.now.on self.now.off time }
    {
        let cycle = self.on + self.off;
        time / cycle * self.on + (time % cycle).min(self.on)
    }

    // The time before which it was on for so long, and at which it is on.
    fn when_on(&self, length: u64) -> Option<u64>
        ensures { result ≡ fitting (when_on self.now.on self.now.off length) }
    {
        let cycles = length / self.on;
        let Some(before) = cycles.checked_mul(self.on + self.off) else {
            return None;
        };
        before.checked_add(length % self.on)
    }

    // The time that is so much later, by the time in on phases alone.
    fn later(&self, time: u64, gap: u64) -> Option<u64>
        ensures value { result ≡ fitting (when_on self.now.on self.now.off (on_before self.now.on self.now.off time + gap)) }
        ensures forward { IfSome result (λ at. time ≤ at) }
    {
        let Some(length) = self.on_before(time).checked_add(gap) else {
            return None;
        };
        self.when_on(length)
    }

    /// When a command comes behind one that came at this time: an exponential time later, which passes in on phases alone.
    pub fn next_after<R: Rng>(&self, time: u64, rng: &mut R) -> Option<u64>
        ensures value { (result, R.stream rng.new)
            ≡ after_on_time self.now.mean.picoseconds self.now.on self.now.off time (R.stream rng.old) }
        ensures forward { IfSome result (λ at. time ≤ at) }
    {
        let gap = self.mean.draw(rng);
        self.later(time, gap)
    }
}
