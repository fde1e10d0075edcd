// When the commands of a queue come.
ghost use Rattle.std.specs.Prelude.{◌≡◌, ◌≤◌, ◌<◌, IfErr, IfOk, IfSome, OnErr};

use crate::mean::Mean;
use crate::phases::Phases;
use crate::replay::{Replay, Request};
use rand_core::Rng;
use thiserror::Error;

/// Why a gap or a depth is refused.
#[derive(Clone, Copy, Debug, PartialEq, Eq, Error)]
pub enum ArrivalsFault {
    /// No time passes between commands.
    #[error("expected a gap above 0")]
    NoGap,
    /// No command may be out.
    #[error("expected a depth above 0")]
    NoDepth,
}

/// The time between commands that come regularly.
#[derive(Clone, Copy, Debug, PartialEq, Eq)]
pub struct Gap {
    pub picoseconds: u64,
    ghost some: { 0 < picoseconds },
}

impl Gap {
    /// A gap of so many picoseconds, which are above 0.
    pub fn new(picoseconds: u64) -> Result<Gap, ArrivalsFault>
        ensures ok { IfOk result (λ g. g.picoseconds ≡ picoseconds) }
        ensures err { IfErr result (λ e. e ≡ ArrivalsFault.NoGap) }
        ensures no_gap { OnErr result (picoseconds ≡ 0) }
    {
        if picoseconds == 0 {
            return Err(ArrivalsFault::NoGap);
        }
        Ok(Gap { picoseconds })
    }
}

/// A host that has so many commands out, and thinks so long between a completion and its next command.
#[derive(Clone, Copy, Debug, PartialEq, Eq)]
pub struct Closed {
    pub depth: u32,
    pub think: u64,
    ghost some: { 0 < depth },
}

impl Closed {
    /// A host of this depth, which is above 0.
    pub fn new(depth: u32, think: u64) -> Result<Closed, ArrivalsFault>
        ensures depth { IfOk result (λ c. c.depth ≡ depth) }
        ensures think { IfOk result (λ c. c.think ≡ think) }
        ensures err { IfErr result (λ e. e ≡ ArrivalsFault.NoDepth) }
        ensures no_depth { OnErr result (depth ≡ 0) }
    {
        if depth == 0 {
            return Err(ArrivalsFault::NoDepth);
        }
        Ok(Closed { depth, think })
    }
}

/// When the commands of a queue come.
#[derive(Drop)]
pub enum Arrivals {
    /// At exponential times one after another.
    Poisson(Mean),
    /// At equal times one after another.
    Regular(Gap),
    /// At exponential times one after another, which pass in on phases alone.
    OnOff(Phases),
    /// So many at time 0, and one behind each completion.
    Closed(Closed),
    /// Those of a list, at the times that it says.
    Replay(Replay),
}

impl Arrivals {
    ghost use Rattle.nvme_load.specs.Arrivals.{at_start, ends_at, next_after, request_at};

    /// How many commands come at time 0 at once. Where none does, the first one comes `next_after` time 0.
    pub fn at_start(&self) -> u32
        ensures { result ≡ at_start self.now }
    {
        match self {
            Arrivals::Closed(host) => host.depth,
            _ => 0,
        }
    }

    /// The command of a number, which counts those of its queue before it, where a list says what it is. None where that is
    /// drawn, and behind the end of a list.
    pub fn request(&self, number: u64) -> Option<Request>
        ensures { result ≡ request_at self.now number }
    {
        match self {
            Arrivals::Replay(list) => list.request(number),
            _ => None,
        }
    }

    /// Whether no command of this number comes, nor one behind it: a list has ended.
    pub fn ends_at(&self, number: u64) -> bool
        ensures { result ≡ ends_at self.now number }
    {
        match self {
            Arrivals::Replay(list) => list.ends_at(number),
            _ => false,
        }
    }

    /// When the command of a number comes, which counts those of its queue before it: behind one that came at this time, or of
    /// a closed host behind a completion at this time. One of a list comes at its own time. None where it is 2^64 picoseconds
    /// or later, or where the list has ended.
    pub fn next_after<R: Rng>(&self, number: u64, time: u64, rng: &mut R) -> Option<u64>
        ensures value { (result, R.stream rng.new) ≡ next_after self.now number time (R.stream rng.old) }
        ensures forward { IfSome result (λ at. time ≤ at) }
    {
        match self {
            Arrivals::Poisson(mean) => time.checked_add(mean.draw(rng)),
            Arrivals::Regular(gap) => time.checked_add(gap.picoseconds),
            Arrivals::OnOff(phases) => phases.next_after(time, rng),
            Arrivals::Closed(host) => time.checked_add(host.think),
            Arrivals::Replay(list) => list.next_after(number, time),
        }
    }
}
