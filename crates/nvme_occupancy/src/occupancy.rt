// How many commands are in the system, over time.
ghost use Rattle.std.specs.Prelude.{◌≡◌, ◌≤◌, ◌<◌, ◌+◌, ◌-◌, ◌*◌, ◌^◌, IfErr, OnErr, OnOk};

use thiserror::Error;

/// Why a command doesn't come or leave. All stays as it was.
#[derive(Clone, Copy, Debug, PartialEq, Eq, Error)]
pub enum OccupancyFault {
    /// The time is before the last one.
    #[error("the last command came or left later")]
    Early,
    /// No command is there.
    #[error("no command is in the system")]
    Empty,
    /// 2^64 commands came.
    #[error("2^64 commands came")]
    Full,
}

/// How many commands came and left so far, and the area under the number of those that are in the system: the sum of this
/// number over all picoseconds until now.
#[derive(Clone, Copy, Debug, PartialEq, Eq)]
pub struct Occupancy {
    /// How many came.
    pub came: u64,
    /// How many left.
    pub left: u64,
    /// When the last one came or left, in picoseconds.
    pub until: u64,
    /// The area until then, in picoseconds.
    pub area: u128,
    /// The sum of the times at which they came.
    pub came_times: u128,
    /// The sum of the times at which they left.
    pub left_times: u128,
    ghost no_more_left: { left ≤ came },
    ghost came_before: { came_times ≤ came * until },
    ghost left_before: { left_times ≤ left * until },
    ghost balanced: { area + came_times + left * until ≡ came * until + left_times },
}

impl Occupancy {
    ghost use Rattle.nvme_occupancy.specs.Occupancies.{Comes, IsEmpty, Leaves, TellsFault, area_at};

    /// No command yet, at time 0.
    pub fn new() -> Occupancy
        ensures { IsEmpty result }
    {
        Occupancy {
            came: 0,
            left: 0,
            until: 0,
            area: 0,
            came_times: 0,
            left_times: 0,
        }
    }

    /// How many are in the system.
    pub fn count(&self) -> u64
        ensures { result ≡ self.now.came - self.now.left }
    {
        self.came - self.left
    }

    // The area until a time at which none came or left since.
    fn area_at(&self, at: u64) -> u128
        requires { self.now.until ≤ at }
        ensures value { result ≡ area_at self.now at }
        ensures fits { result < 2 ^ 128 - 2 ^ 64 }
    {
        self.area + u128::from(self.came - self.left) * u128::from(at - self.until)
    }

    /// A command comes.
    pub fn comes(&mut self, at: u64) -> Result<(), OccupancyFault>
        ensures ok { OnOk result (Comes at self.old self.new) }
        ensures err { OnErr result (self.new ≡ self.old) }
        ensures fault { IfErr result (λ e. TellsFault at self.old e) }
    {
        if at < self.until {
            return Err(OccupancyFault::Early);
        }
        if self.came == u64::MAX {
            return Err(OccupancyFault::Full);
        }
        *self = Occupancy {
            came: self.came + 1,
            left: self.left,
            until: at,
            area: self.area_at(at),
            came_times: self.came_times + u128::from(at),
            left_times: self.left_times,
        };
        Ok(())
    }

    /// A command leaves.
    pub fn leaves(&mut self, at: u64) -> Result<(), OccupancyFault>
        ensures ok { OnOk result (Leaves at self.old self.new) }
        ensures err { OnErr result (self.new ≡ self.old) }
        ensures fault { IfErr result (λ e. TellsFault at self.old e) }
    {
        if at < self.until {
            return Err(OccupancyFault::Early);
        }
        if self.came == self.left {
            return Err(OccupancyFault::Empty);
        }
        *self = Occupancy {
            came: self.came,
            left: self.left + 1,
            until: at,
            area: self.area_at(at),
            came_times: self.came_times,
            left_times: self.left_times + u128::from(at),
        };
        Ok(())
    }
}
