//! The front's seat at a pool.
ghost use Rattle.std.specs.Prelude.{◌≡◌, [], IfSome, IfNone};
ghost use Rattle.std.specs.List.{All};

use crate::jobs::{Finished, Job};
use crate::worker::Lanes;
use nvme_lane::{Full, GetEnd, PushPass};
use std::marker::Model;
use std::sync::Wait;

/// The front's seat. Contracts see the jobs that it handed, and by its get ends, in the order of the
/// workers, the results that it gained, with the lane and the rings that it is of.
#[derive(Drop)]
pub struct FrontSeat {
    pub(crate) jobs: PushPass<Job>,
    pub(crate) results: Vec<GetEnd<Finished>>,
}

impl Model for FrontSeat {
    ghost use Rattle.nvme_pool.specs.Seat.{SeatView};

    ghost Value = { SeatView };

    ghost view = { λ s. record { lane = s.jobs.lane; parts = s.jobs.parts; handed = s.jobs.items; ends = s.results.items } };
}

impl FrontSeat {
    ghost use Rattle.std.specs.Prelude.{◌≡◌, [], ◌∷◌, ◌++◌, OnOk, OnErr, IfErr, IfSome, IfNone, IsSome};
    ghost use Rattle.std.specs.List.{All};
    ghost use Rattle.nvme_pool.specs.Seat.{SameSeat, IsUnknown, OneGained};

    /// Hands a job to the workers. `Full`, which changes nothing, hands it back where the lane was found full.
    /// It may wait for another thread.
    pub fn hand<R: Wait>(&mut self, rt: &R, lanes: &Lanes, job: Job) -> Result<(), Full<Job>>
        requires { self.old.lane ≡ lanes.now }
        ensures same { SameSeat self.old self.new }
        ensures ends { self.new.ends ≡ self.old.ends }
        ensures handed { OnOk result (self.new.handed ≡ self.old.handed ++ job ∷ []) }
        ensures full { IfErr result (λ e. e.0 ≡ job) }
        ensures unchanged { OnErr result (self.new ≡ self.old) }
    {
        lanes.jobs.push(rt, &mut self.jobs, job)
    }

    /// Gains a result from the first worker whose ring gives one. `None`, which changes nothing, where no ring
    /// gives one: never while an end knows a result.
    pub fn gain(&mut self, _lanes: &Lanes) -> Option<Finished>
        requires { self.old.lane ≡ _lanes.now }
        ensures same { SameSeat self.old self.new }
        ensures handed { self.new.handed ≡ self.old.handed }
        ensures gained { IfSome result (OneGained self.old.ends self.new.ends) }
        ensures none_known { IfNone result (All IsUnknown self.old.ends) }
        ensures unchanged { IfNone result (self.new ≡ self.old) }
        ensures some_known { ¬ All IsUnknown self.old.ends → IsSome result }
    {
        first_of(self.results.as_mut_slice())
    }
}

ghost use Rattle.nvme_pool.specs.Seat.{IsUnknown, OneGained};

// The item of the first end that gives one.
fn first_of(ends: &mut [GetEnd<Finished>]) -> Option<Finished>
    ensures gained { IfSome result (OneGained ends.old ends.new) }
    ensures none_known { IfNone result (All IsUnknown ends.old) }
    ensures unchanged { IfNone result (ends.new ≡ ends.old) }
{
    for end in ends.iter_mut() {
        if !end.is_empty() {
            return Some(end.get_known());
        }
    }
    None
}
