// The commands of a queue, from when they come until they are done.
ghost use Rattle.std.specs.Prelude.{◌≡◌, ◌≤◌, ◌<◌, ◌+◌, ℕ, length, nat_le};
ghost use Rattle.nvme_simulation.specs.Waiting.{waits_at};

use nvme_load::Operation;
use nvme_model::{Finished, Times};
use std::alloc::{AllocError, Global};
use std::collections::VecDeque;

/// How far a command is.
#[derive(Clone, Copy, Debug, PartialEq, Eq)]
pub enum Stage {
    /// It waits in its host for a slot of the ring.
    Came,
    /// It is in the ring, and its host rang the doorbell.
    Submitted,
    /// The controller has read it.
    Fetched,
    /// Arbitration picked it, and the device has it.
    Picked,
    /// It runs on a channel.
    Started,
    /// It is done.
    Done,
}

// What a command asks for.
#[derive(Clone, Copy, Drop)]
pub(crate) struct Request {
    pub(crate) operation: Operation,
    pub(crate) block: u64,
    pub(crate) blocks: u32,
    // How long it runs, in picoseconds.
    pub(crate) service: u64,
    // Whether numbers count it.
    pub(crate) counts: bool,
}

// A command with the times at which it came to its stages, 0 where it didn't yet.
#[derive(Clone, Copy, Drop)]
pub(crate) struct Flight {
    pub(crate) request: Request,
    pub(crate) stage: Stage,
    pub(crate) came: u64,
    pub(crate) submitted: u64,
    pub(crate) picked: u64,
    pub(crate) started: u64,
}

// The commands of a queue, by their numbers, which count from 0 in the order in which they came. They are submitted in this order.
#[derive(Drop)]
pub(crate) struct Flights {
    // The number of the first one that is kept: those before it are done.
    first: u64,
    kept: VecDeque<Flight>,
    // The number of the next one to be submitted. Those from it on wait, and those before it don't.
    next: u64,
    ghost behind: { first ≤ next },
    ghost within: { next ≤ first + length kept.items },
    ghost ordered: { (k : ℕ) → k < length kept.items → waits_at kept.items k ≡ nat_le next (first + k) },
}

impl Flights {
    ghost use Rattle.std.specs.Prelude.{◌≢◌, ◌-◌, None, Some, IfOk, IfSome, OnErr, OnOk, true, false};
    ghost use Rattle.std.specs.VecDeque.{deque_len};
    ghost use Rattle.nvme_simulation.specs.Rings.{NoneWaits, submitted_in};
    ghost use Rattle.nvme_simulation.specs.Stages.{AllDone, HasCome, Moves, MovesOne, MovesWith, Stays, next_in, none_came};
    ghost use Rattle.nvme_simulation.specs.declared.flight.Stage.TheVariants as stage;

    pub(crate) fn new(alloc: Global) -> Flights
        ensures { none_came result }
    {
        Flights {
            first: 0,
            kept: VecDeque::new(alloc),
            next: 0,
        }
    }

    // The place of a number among those that are kept.
    fn place(&self, number: u64) -> Option<usize>
        ensures within { IfSome result (λ place. place < deque_len self.now.kept) }
        ensures from { IfSome result (λ place. (self.now.first ≤ number) × (place ≡ number - self.now.first)) }
    {
        let place = number.checked_sub(self.first)?;
        if place < self.kept.len() as u64 {
            Some(place as usize)
        } else {
            None
        }
    }

    // How many came: the number of the next one.
    pub(crate) fn came(&self) -> u64
        ensures { result ≡ next_in self.now }
    {
        self.first.saturating_add(self.kept.len() as u64)
    }

    // Whether all that came are done.
    pub(crate) fn are_done(&self) -> bool
        ensures { result ≡ true → AllDone self.now }
    {
        self.kept.is_empty()
    }

    // How many were submitted.
    pub(crate) fn submitted(&self) -> u64
        ensures { result ≡ submitted_in self.now }
    {
        self.next
    }

    // Whether one waits for a slot of the ring.
    pub(crate) fn wait(&self) -> bool
        ensures { result ≡ false → NoneWaits self.now }
    {
        self.next - self.first < self.kept.len() as u64
    }

    // A command comes.
    pub(crate) fn come(&mut self, now: u64, request: Request) -> Result<(), AllocError>
        ensures ok { OnOk result (HasCome now request self.old self.new) }
        ensures err { OnErr result (Stays self.old self.new) }
    {
        let flight = Flight {
            request,
            stage: Stage::Came,
            came: now,
            submitted: 0,
            picked: 0,
            started: 0,
        };
        match self.kept.push_back(flight) {
            Ok(()) => Ok(()),
            Err(_) => Err(AllocError),
        }
    }

    // The command of a number that was submitted goes on from a stage to the next one. None where it isn't at that stage.
    fn go_on(&mut self, now: u64, number: u64, from: Stage) -> Option<Flight>
        requires later { from ≢ stage.Came }
        ensures moves { IfSome result (λ flight. Moves number from now flight self.old self.new) }
        ensures none { result ≡ None → self.new ≡ self.old }
    {
        let place = self.place(number)?;
        if self.kept[place].stage != from {
            return None;
        }
        let flight = &mut self.kept[place];
        flight.go_on(now);
        Some(*flight)
    }

    // The next command is submitted, if one waits for that.
    pub(crate) fn submit(&mut self, now: u64) -> Option<u64>
        ensures moves { IfSome result (λ number. MovesOne number stage.Came now self.old self.new) }
        ensures none { result ≡ None → self.new ≡ self.old }
    {
        let number = self.next;
        let next = number.checked_add(1)?;
        let place = self.place(number)?;
        let flight = &mut self.kept[place];
        flight.go_on(now);
        self.next = next;
        Some(number)
    }

    // A command that is submitted is read.
    pub(crate) fn fetch(&mut self, number: u64) -> Option<Request>
        ensures moves { IfSome result (λ request. MovesWith request number stage.Submitted 0 self.old self.new) }
        ensures none { result ≡ None → self.new ≡ self.old }
    {
        let flight = self.go_on(0, number, Stage::Submitted)?;
        Some(flight.request)
    }

    // A command that was read is picked.
    pub(crate) fn pick(&mut self, now: u64, number: u64) -> Option<Request>
        ensures moves { IfSome result (λ request. MovesWith request number stage.Fetched now self.old self.new) }
        ensures none { result ≡ None → self.new ≡ self.old }
    {
        let flight = self.go_on(now, number, Stage::Fetched)?;
        Some(flight.request)
    }

    // A command that is picked starts. False where there is none of this number.
    pub(crate) fn start(&mut self, now: u64, number: u64) -> bool
        ensures moves { result ≡ true → MovesOne number stage.Picked now self.old self.new }
        ensures none { result ≡ false → self.new ≡ self.old }
    {
        self.go_on(now, number, Stage::Picked).is_some()
    }

    // A command that runs is done.
    pub(crate) fn finish(&mut self, number: u64) -> Option<Flight>
        ensures moves { IfSome result (λ flight. Moves number stage.Started 0 flight self.old self.new) }
        ensures none { result ≡ None → self.new ≡ self.old }
    {
        let flight = self.go_on(0, number, Stage::Started)?;
        self.forget();
        Some(flight)
    }

    // The first one that is kept is forgotten, if it is done.
    fn forget_one(&mut self) -> bool
        ensures { Stays self.old self.new }
    {
        let Some(flight) = self.kept.front() else {
            return false;
        };
        if flight.stage != Stage::Done || self.first == u64::MAX {
            return false;
        }
        self.kept.pop_front();
        self.first += 1;
        true
    }

    // Those that are done and come before all others are forgotten.
    fn forget(&mut self)
        ensures { Stays self.old self.new }
    {
        for _turn in 0..self.kept.len() {
            if !self.forget_one() {
                return;
            }
        }
    }
}

impl Flight {
    ghost use Rattle.std.specs.Prelude.{◌≡◌, IfSome};
    ghost use Rattle.nvme_simulation.specs.Marks.{IsToldOf, gone_on};
    ghost use Rattle.nvme_simulation.specs.Ranks.{next_stage};

    // The command comes to its next stage now.
    fn go_on(&mut self, now: u64)
        ensures stage { self.new.stage ≡ next_stage self.old.stage }
        ensures value { self.new ≡ gone_on now self.old }
    {
        match self.stage {
            Stage::Came => {
                self.stage = Stage::Submitted;
                self.submitted = now;
            }
            Stage::Submitted => self.stage = Stage::Fetched,
            Stage::Fetched => {
                self.stage = Stage::Picked;
                self.picked = now;
            }
            Stage::Picked => {
                self.stage = Stage::Started;
                self.started = now;
            }
            _ => self.stage = Stage::Done,
        }
    }

    // What is told of it where it is done. None where its times don't follow one another, or it didn't run for its service.
    pub(crate) fn told(
        &self,
        queue: u16,
        number: u64,
        channel: usize,
        done: u64,
    ) -> Option<Finished>
        ensures told { IfSome result (λ f. IsToldOf self.now done f self.now.request.counts) }
        ensures queue { IfSome result (λ f. f.queue ≡ queue) }
        ensures number { IfSome result (λ f. f.number ≡ number) }
        ensures channel { IfSome result (λ f. f.channel ≡ channel) }
    {
        if self.started.checked_add(self.request.service)? != done {
            return None;
        }
        let times = Times::new(self.came, self.submitted, self.picked, self.started, done)?;
        Some(Finished {
            queue,
            number,
            operation: self.request.operation,
            block: self.request.block,
            blocks: self.request.blocks,
            channel,
            times,
        })
    }
}
