// The jobs of picked I/O commands: which were handed to the workers, and which wait for their result.
ghost use Rattle.std.specs.Prelude.{◌≡◌};
ghost use Rattle.nvme_jobs.specs.Hands.{job_in};

use crate::dispatched::Dispatched;
use crate::fifo::Fifo;
use crate::running::Running;
use nvme_entry::{Namespaces, Sqe, Status};
use nvme_log::{MAX_OUTSTANDING, Place};
use nvme_pool::{FrontSeat, Job, Lanes, Worker, close};
use std::alloc::Global;
use std::marker::Model;
use std::snapshot::Snapshot;
use std::sync::Wait;

/// The front's seat at its workers, the picked commands whose job isn't handed over yet, oldest first, and those whose
/// job was handed over and whose result isn't gained yet, in any order. Tickets count the picked commands from 0.
#[derive(Drop)]
pub struct Jobs {
    seat: FrontSeat,
    // The seat as it was given to the front.
    came: Snapshot<FrontSeat>,
    tickets: u32,
    unhanded: Fifo<Dispatched>,
    running: Running,
}

impl Model for Jobs {
    ghost use Rattle.std.specs.Prelude.{◌≤◌};
    ghost use Rattle.nvme_jobs.specs.inside.Jobs.{JobsView};

    ghost Value = { JobsView };

    ghost view = { λ j. record { hands = record { came = j.came.value; seat = j.seat; unhanded = j.unhanded.items; running = j.running.items }; tickets = j.tickets; room = j.unhanded.room } };

    ghost invariant = { λ j. j.unhanded.room ≤ j.running.room };
}

/// What a look for a result found.
#[derive(Clone, Copy, Debug, PartialEq, Eq)]
pub enum Gained {
    /// No result.
    Nothing,
    /// The result of a picked command, which no longer waits for it: the command, and its status.
    Result(Dispatched, Status),
    /// A result with this ticket that belongs to no command which waits for one. It was dropped.
    Stray(u32),
}

// The job of a picked command.
fn job_for(dispatched: &Dispatched, spaces: &Namespaces) -> Job
    ensures { result ≡ job_in spaces.now dispatched.now }
{
    Job {
        ticket: dispatched.ticket,
        entry: dispatched.entry,
        spaces: *spaces,
    }
}

impl Jobs {
    ghost use Rattle.std.specs.Prelude.{◌≡◌, ◌⊎◌, ◌+◌, ◌^◌, ◌<◌, ◌≤◌, [], ◌∷◌, ◌++◌, length, true, false, OnOk, IfErr};
    ghost use Rattle.nvme_pool.specs.Pool.{IsPool};
    ghost use Rattle.nvme_log.specs.Limits.{max_outstanding};
    ghost use Rattle.nvme_jobs.specs.inside.Jobs.{with_job, next_job, HandsOne, IsClosed};
    ghost use Rattle.nvme_jobs.specs.inside.Gains.{GainsBy};

    /// Jobs of a seat that has handed over nothing since, without room for commands yet.
    pub fn new(alloc: Global, seat: FrontSeat) -> Jobs
        ensures { result ≡ record { hands = record { came = seat; seat = seat; unhanded = []; running = [] }; tickets = 0; room = 0 } }
    {
        let came = Snapshot::of(&seat);
        Jobs {
            seat,
            came,
            tickets: 0,
            unhanded: Fifo::empty(alloc),
            running: Running::empty(alloc),
        }
    }

    /// Makes room for as many commands of each kind as may be outstanding. False where memory was refused.
    pub fn make_room(&mut self, alloc: Global) -> bool
        requires { (self.old.room ≡ max_outstanding) ⊎ (self.old.hands.unhanded ≡ []) }
        ensures same { self.new ≡ record self.old { room = self.new.room } }
        ensures room { result ≡ true → self.new.room ≡ max_outstanding }
        ensures kept { self.old.room ≡ max_outstanding → self.new.room ≡ max_outstanding }
    {
        let room = usize::from(MAX_OUTSTANDING);
        if self.unhanded.room() == room {
            return true;
        }
        if self.running.reserve(room).is_err() {
            return false;
        }
        let Some(unhanded) = Fifo::new(alloc, room) else {
            return false;
        };
        self.unhanded = unhanded;
        true
    }

    /// Adds a picked command, which has this tag at its controller. It gets the next ticket, and its job is to be handed
    /// over.
    pub fn add(&mut self, tag: u16, place: Place, entry: Sqe)
        requires room { length self.old.hands.unhanded < self.old.room }
        requires few { self.old.tickets + 1 < 2 ^ 32 }
        ensures { self.new ≡ with_job self.old (next_job self.old tag place entry) }
    {
        self.unhanded.push(Dispatched {
            ticket: self.tickets,
            tag,
            place,
            entry,
        });
        self.tickets += 1;
    }

    /// Hands over the job of the oldest picked command whose job isn't handed over yet. False, which changes nothing,
    /// where there is none or the lane is full.
    pub fn hand<R: Wait>(&mut self, rt: &R, lanes: &Lanes, spaces: &Namespaces) -> bool
        requires seat { self.old.hands.seat.lane ≡ lanes.now }
        requires room { length self.old.hands.running + length self.old.hands.unhanded ≤ self.old.room }
        ensures none { result ≡ false → self.new ≡ self.old }
        ensures one { result ≡ true → HandsOne spaces.now self.old self.new }
    {
        let Some(dispatched) = self.unhanded.front() else {
            return false;
        };
        let job = job_for(&dispatched, spaces);
        if self.seat.hand(rt, lanes, job).is_err() {
            return false;
        }
        let _handed = self.unhanded.pop();
        self.running.push(dispatched);
        true
    }

    /// Closes the pool of the seat. Where memory was refused all comes back, unchanged.
    pub fn close<R: Wait>(
        self,
        rt: &R,
        alloc: Global,
        lanes: Lanes,
        workers: Vec<Worker>,
    ) -> Result<(), (Jobs, Lanes, Vec<Worker>)>
        requires { IsPool lanes self.hands.seat workers.items }
        ensures closed { OnOk result (IsClosed self.hands.seat workers.items) }
        ensures back { IfErr result (λ e. (e.0 ≡ self) × (e.1 ≡ lanes) × (e.2.items ≡ workers.items)) }
    {
        let Jobs {
            seat,
            came,
            tickets,
            unhanded,
            running,
        } = self;
        let Err((_, lanes, seat, workers)) = close(rt, alloc, lanes, seat, workers) else {
            return Ok(());
        };
        let jobs = Jobs {
            seat,
            came,
            tickets,
            unhanded,
            running,
        };
        Err((jobs, lanes, workers))
    }

    /// Gains a result, where there is one, and finds the command that waits for it.
    pub fn gain(&mut self, lanes: &Lanes, spaces: &Namespaces) -> Gained
        requires seat { self.old.hands.seat.lane ≡ lanes.now }
        ensures { GainsBy spaces.now self.old self.new result }
    {
        let Some(finished) = self.seat.gain(lanes) else {
            return Gained::Nothing;
        };
        let Some(dispatched) = self.running.take(&finished, spaces) else {
            return Gained::Stray(finished.ticket());
        };
        Gained::Result(dispatched, finished.status())
    }
}
