// The events to come.
use crate::fault::{Broken, SimulationFault};
use nvme_clock::{EventQueue, PushFault};
use std::alloc::Global;

// What comes at a time.
#[derive(Clone, Copy, Drop)]
pub(crate) enum Event {
    // A command of a queue.
    Arrival(u16),
    // The end of the command that runs on a channel.
    End(usize),
    // The beginning of a pause of a channel, and its end.
    Pause(usize),
    Resume(usize),
}

#[derive(Drop)]
pub(crate) struct Agenda {
    events: EventQueue<Event>,
}

impl Agenda {
    ghost use Rattle.std.specs.Prelude.{◌≡◌, ◌≤◌, ◌<◌, ◌+◌, Some, None, IfSome, IsErr, OnOk, option_map};
    ghost use Rattle.nvme_clock.specs.Held.{nothing, popped, pushed};
    ghost use Rattle.nvme_simulation.specs.Plans.{Follows, events_of};
    ghost use Rattle.nvme_simulation.specs.Steps.{cost, cost_at, cost_in};
    ghost use Rattle.nvme_simulation.specs.Times.{now_of};

    // No event, at time 0.
    pub(crate) fn new(alloc: Global) -> Agenda
        ensures { events_of result ≡ nothing }
    {
        Agenda {
            events: EventQueue::new(alloc),
        }
    }

    // The time of the last event that came, or 0.
    pub(crate) fn now(&self) -> u64
        ensures value { result ≡ now_of self.now }
        ensures below { now_of self.now < 0x1_0000_0000_0000_0000 }
    {
        self.events.time()
    }

    // An event comes at a time, if that is below 2^64 picoseconds.
    #[tactic(auto, using(crate::proofs::Plans::follows_same, crate::proofs::Plans::follows_self, crate::proofs::Plans::follows_pushed))]
    pub(crate) fn plan(&mut self, at: Option<u64>, event: Event) -> Result<(), SimulationFault>
        ensures follows { Follows (events_of self.old) (events_of self.new) }
        ensures cost { cost_in self.new ≤ cost_in self.old + cost_at at event }
        ensures some { at ≡ None → IsErr result }
        ensures plans { OnOk result (IfSome at (λ time. events_of self.new ≡ pushed time event (events_of self.old))) }
    {
        let Some(at) = at else {
            return Err(SimulationFault::TooLong);
        };
        match self.events.push(at, event) {
            Ok(()) => Ok(()),
            Err(PushFault::Past) => Err(SimulationFault::Broken(Broken::Time)),
            Err(PushFault::Numbers) => Err(SimulationFault::TooLong),
            Err(PushFault::Memory) => Err(SimulationFault::Memory),
        }
    }

    // The next event, whose time it is then.
    pub(crate) fn pop(&mut self) -> Option<Event>
        ensures value { (option_map (λ e. e.what) (popped (events_of self.old)).0) ≡ result }
        ensures rest { events_of self.new ≡ (popped (events_of self.old)).1 }
        ensures forward { now_of self.old ≤ now_of self.new }
        ensures cost { (event : Event) → result ≡ Some event → cost_in self.old ≡ cost_in self.new + cost (now_of self.new) event }
    {
        let event = self.events.pop()?;
        Some(event.what)
    }
}
