// The steps of a simulation.
use crate::agenda::{Agenda, Event};
use crate::beginning::{begin_pauses, begin_queues};
use crate::channels::Runs;
use crate::fault::{Broken, SimulationFault};
use crate::flight::Flight;
use crate::front::{Front, Taken};
use crate::happening::Happening;
use crate::hosts::Hosts;
use crate::machine::Machine;
use nvme_arbiter::Seen;
use nvme_channels::Channel;
use nvme_model::{End, Finished, Model, Pauses};
use nvme_occupancy::Occupancy;
use std::alloc::Global;

/// Hosts, a controller and a device in virtual time.
#[derive(Drop)]
pub struct Simulation {
    machine: Machine,
    occupancy: Occupancy,
    end: End,
    pauses: Option<Pauses>,
    warm_up: u64,
    // Whether commands may be to be picked.
    picks: bool,
}

impl Simulation {
    ghost use Rattle.std.specs.Prelude.{◌≡◌, ◌≤◌, ◌+◌, ◌-◌, ◌*◌, ◌&&◌, Bool, true, false, IfOk, OnOk};
    ghost use Rattle.nvme_log.specs.Rules.{FrontRules};
    ghost use Rattle.nvme_ctrl_log.specs.Notes.{Notes};
    ghost use Rattle.nvme_ctrl_log.specs.Observation.{seen_in};
    ghost use Rattle.nvme_occupancy.specs.Occupancies.{Comes, Leaves};
    ghost use Rattle.nvme_simulation.specs.Beginnings.{IsNewOf};
    ghost use Rattle.nvme_simulation.specs.Counts.{may_come};
    ghost use Rattle.nvme_simulation.specs.Following.{PlansIf, closed_in};
    ghost use Rattle.nvme_simulation.specs.Fronts.{IsFront};
    ghost use Rattle.nvme_simulation.specs.Handling.{Handles, IsOver, Stays};
    ghost use Rattle.nvme_simulation.specs.Machines.{Goes};
    ghost use Rattle.nvme_simulation.specs.Marks.{IsToldOf};
    ghost use Rattle.nvme_simulation.specs.Pausing.{NextPause, is_over};
    ghost use Rattle.nvme_simulation.specs.Picks.{IsLawful};
    ghost use Rattle.nvme_simulation.specs.Plans.{events_of};
    ghost use Rattle.nvme_simulation.specs.Simulations.{IsSameModel, IsSimulation, StandsAt, channels_of, may_come_to, occupancy_of, picks_of, room_at, time_of};
    ghost use Rattle.nvme_simulation.specs.Stepping.{GoesOn, HasStepped};
    ghost use Rattle.nvme_simulation.specs.Steps.{cost_with};
    ghost use Rattle.nvme_simulation.specs.declared.agenda.Event.TheVariants as event;

    /// A simulation of a model, at time 0. Its queues are created, and no command came.
    pub fn new(alloc: Global, model: Model) -> Result<Simulation, SimulationFault>
        ensures stands { IfOk result IsSimulation }
        ensures begins { IfOk result (IsNewOf model) }
    {
        let mut front = Front::new(alloc, model.mechanism, model.settings)?;
        let device = Runs::new(alloc, &model.device)?;
        let mut hosts = Hosts::new(alloc, &mut front, model.seed, model.queues)?;
        let mut agenda = Agenda::new(alloc);
        begin_queues(&mut agenda, &mut hosts)?;
        begin_pauses(&mut agenda, &model.device)?;
        Ok(Simulation {
            machine: Machine {
                front,
                device,
                hosts,
                agenda,
            },
            occupancy: Occupancy::new(),
            end: model.end,
            pauses: model.device.pauses,
            warm_up: model.warm_up,
            picks: false,
        })
    }

    /// What the next pick is shown of a queue: its class, and how many of its commands wait. None where there is no such
    /// queue. 0 is the admin queue.
    pub fn seen(&self, qid: u16) -> Option<Seen>
        ensures { (rules : FrontRules) (late : Bool) (notes : Notes) → StandsAt rules late notes self.now → result ≡ seen_in notes qid }
    {
        self.machine.front.seen(qid)
    }

    /// Whether the next step is a pick, or tells that there is none.
    pub fn picks(&self) -> bool
        ensures { result ≡ picks_of self.now }
    {
        self.picks
    }

    /// The time of what happened last, in picoseconds.
    pub fn time(&self) -> u64
        ensures { result ≡ time_of self.now }
    {
        self.machine.agenda.now()
    }

    /// How many commands came, how many of them are done, and the area under the number between. Once all are done, it is
    /// the sum of the times at which they were done, less that of the times at which they came: Little's law.
    pub fn occupancy(&self) -> Occupancy
        ensures { result ≡ occupancy_of self.now }
    {
        self.occupancy
    }

    /// The channels of the device.
    pub fn channels(&self) -> &[Channel]
        ensures { result.now ≡ channels_of self.now }
    {
        self.machine.device.channels()
    }

    // Whether one more command may come now.
    fn may_come(&self) -> bool
        ensures { result ≡ may_come self.now.end (time_of self.now) self.now.occupancy }
    {
        let in_time = match self.end.time {
            Some(end) => self.machine.agenda.now() < end,
            None => true,
        };
        in_time && self.occupancy.came < self.end.commands
    }

    // A command more is in the system now.
    fn count_one_more(&mut self) -> Result<(), SimulationFault>
        ensures rest { self.new ≡ record self.old { occupancy = self.new.occupancy } }
        ensures comes { OnOk result (Comes (time_of self.old) self.old.occupancy self.new.occupancy) }
    {
        match self.occupancy.comes(self.machine.agenda.now()) {
            Ok(()) => Ok(()),
            Err(_) => Err(SimulationFault::Broken(Broken::Time)),
        }
    }

    // A command less is in the system now.
    fn count_one_less(&mut self) -> Result<(), SimulationFault>
        ensures rest { self.new ≡ record self.old { occupancy = self.new.occupancy } }
        ensures leaves { OnOk result (Leaves (time_of self.old) self.old.occupancy self.new.occupancy) }
    {
        match self.occupancy.leaves(self.machine.agenda.now()) {
            Ok(()) => Ok(()),
            Err(_) => Err(SimulationFault::Broken(Broken::Time)),
        }
    }

    // A command comes to a host, if one may.
    fn arrive(&mut self, qid: u16) -> Result<Happening, SimulationFault>
        requires front { IsFront self.old.machine.front }
        ensures stays { Stays self.old self.new }
        ensures handles { IfOk result (Handles (event.Arrival qid) self.old self.new) }
    {
        if !self.may_come() {
            return Ok(Happening::Came { queue: qid });
        }
        let counts = self.occupancy.came >= self.warm_up;
        self.count_one_more()?;
        let more = self.may_come();
        self.machine.come(qid, counts, more)?;
        Ok(Happening::Came { queue: qid })
    }

    // What is told of a command that is done.
    fn tell(
        &mut self,
        taken: Taken,
        channel: usize,
        flight: &Flight,
    ) -> Result<Finished, SimulationFault>
        ensures rest { self.new ≡ record self.old { occupancy = self.new.occupancy } }
        ensures channel { IfOk result (λ f. f.channel ≡ channel) }
        ensures told { IfOk result (λ f. IsToldOf flight.now (time_of self.old) f flight.now.request.counts) }
        ensures leaves { IfOk result (λ f. Leaves (time_of self.old) self.old.occupancy self.new.occupancy) }
        ensures queue { IfOk result (λ f. f.queue ≡ taken.qid) }
        ensures number { IfOk result (λ f. f.number ≡ taken.number) }
    {
        let number = u64::from(taken.number);
        match flight.told(taken.qid, number, channel, self.machine.agenda.now()) {
            Some(finished) => {
                self.count_one_less()?;
                Ok(finished)
            }
            None => Err(SimulationFault::Broken(Broken::Time)),
        }
    }

    // Whether the host of a queue thinks after a completion, and then has one more command: it is closed, and more may come.
    fn thinks(&self, qid: u16) -> bool
        ensures { result ≡ (closed_in self.now.machine.hosts qid && may_come_to self.now (time_of self.now)) }
    {
        self.machine.hosts.is_closed(qid) && self.may_come()
    }

    // A closed host has a completion: its next command comes when it thought, if one may come.
    fn think(&mut self, qid: u16) -> Result<(), SimulationFault>
        requires front { IsFront self.old.machine.front }
        ensures goes { Goes self.old.machine self.new.machine }
        ensures rest { self.new ≡ record self.old { machine = self.new.machine } }
        ensures cost { cost_with self.new.machine ≤ cost_with self.old.machine + 2 }
        ensures device { self.new.machine.device ≡ self.old.machine.device }
        ensures plans { OnOk result (PlansIf (closed_in self.old.machine.hosts qid && may_come_to self.old (time_of self.old)) qid (time_of self.old) self.old.machine self.new.machine) }
    {
        if !self.thinks(qid) {
            return Ok(());
        }
        let now = self.machine.agenda.now();
        self.machine.follow(qid, now)
    }

    // The command that runs on a channel ends. Its host submits what waited for a slot, and where it is closed, its next
    // command comes when it thought.
    fn finish(&mut self, channel: usize) -> Result<Happening, SimulationFault>
        requires front { IsFront self.old.machine.front }
        ensures stays { Stays self.old self.new }
        ensures handles { IfOk result (Handles (event.End channel) self.old self.new) }
    {
        let (taken, flight) = self.machine.finish(channel)?;
        let command = self.tell(taken, channel, &flight)?;
        self.think(taken.qid)?;
        self.machine.submit(taken.qid)?;
        Ok(Happening::Finished {
            command,
            counts: flight.request.counts,
        })
    }

    // Whether all commands came and are done.
    fn is_over(&self) -> bool
        ensures { result ≡ is_over self.now }
    {
        let more = self.may_come() && !self.machine.hosts.are_at_end();
        self.occupancy.count() == 0 && !more
    }

    // A channel pauses.
    fn pause(&mut self, channel: usize) -> Result<Happening, SimulationFault>
        requires front { IsFront self.old.machine.front }
        ensures stays { Stays self.old self.new }
        ensures handles { IfOk result (Handles (event.Pause channel) self.old self.new) }
    {
        let Some(pauses) = self.pauses else {
            return Err(SimulationFault::Broken(Broken::Device));
        };
        self.machine.pause(channel, pauses.length)?;
        Ok(Happening::Paused { channel })
    }

    // The next pause of a channel that goes on now is planned, unless all is over.
    fn plan_pause(&mut self, channel: usize) -> Result<(), SimulationFault>
        requires front { IsFront self.old.machine.front }
        ensures goes { Goes self.old.machine self.new.machine }
        ensures rest { self.new ≡ record self.old { machine = self.new.machine } }
        ensures cost { OnOk result (cost_with self.new.machine ≤ cost_with self.old.machine + 4 * (0x1_0000_0000_0000_0000 - (time_of self.old + 1))) }
        ensures agenda { self.new.machine ≡ record self.old.machine { agenda = self.new.machine.agenda } }
        ensures plans { OnOk result (NextPause self.old.pauses (is_over self.old) channel (time_of self.old) (events_of self.old.machine.agenda) (events_of self.new.machine.agenda)) }
    {
        let Some(pauses) = self.pauses else {
            return Ok(());
        };
        if self.is_over() {
            return Ok(());
        }
        let rest = pauses.every - pauses.length;
        let next = self.machine.agenda.now().checked_add(rest);
        self.machine.agenda.plan(next, Event::Pause(channel))
    }

    // A channel goes on. Its next pause comes, unless all is over.
    fn resume(&mut self, channel: usize) -> Result<Happening, SimulationFault>
        requires front { IsFront self.old.machine.front }
        ensures stays { Stays self.old self.new }
        ensures handles { IfOk result (Handles (event.Resume channel) self.old self.new) }
    {
        self.machine.resume(channel)?;
        self.plan_pause(channel)?;
        Ok(Happening::Resumed { channel })
    }

    // The end, where no event is to come: all that came is done.
    fn over(&self) -> Result<Happening, SimulationFault>
        ensures { IfOk result (IsOver self.now) }
    {
        if self.occupancy.count() == 0 && self.machine.hosts.are_done() {
            Ok(Happening::Over)
        } else {
            Err(SimulationFault::Broken(Broken::Command))
        }
    }

    // An event comes.
    fn come(&mut self, event: Event) -> Result<Happening, SimulationFault>
        requires front { IsFront self.old.machine.front }
        ensures stays { Stays self.old self.new }
        ensures handles { IfOk result (Handles event self.old self.new) }
    {
        match event {
            Event::Arrival(qid) => self.arrive(qid),
            Event::End(channel) => self.finish(channel),
            Event::Pause(channel) => self.pause(channel),
            Event::Resume(channel) => self.resume(channel),
        }
    }

    // The next event comes.
    fn advance(&mut self) -> Result<Happening, SimulationFault>
        requires front { IsFront self.old.machine.front }
        requires no_picks { picks_of self.old ≡ false }
        ensures same { IsSameModel self.old self.new }
        ensures forward { time_of self.old ≤ time_of self.new }
        ensures steps { IfOk result (HasStepped self.old self.new) }
        ensures lawful { (rules : FrontRules) (late : Bool) (notes : Notes) → StandsAt rules late notes self.old → IfOk result (IsLawful rules notes (room_at self.old)) }
    {
        let Some(event) = self.machine.agenda.pop() else {
            return self.over();
        };
        self.picks = true;
        self.come(event)
    }

    // The next pick, or none.
    fn pick(&mut self) -> Result<Happening, SimulationFault>
        requires front { IsFront self.old.machine.front }
        requires picks { picks_of self.old ≡ true }
        ensures same { IsSameModel self.old self.new }
        ensures forward { time_of self.old ≤ time_of self.new }
        ensures steps { IfOk result (HasStepped self.old self.new) }
        ensures lawful { (rules : FrontRules) (late : Bool) (notes : Notes) → StandsAt rules late notes self.old → IfOk result (IsLawful rules notes (room_at self.old)) }
    {
        let happening = self.machine.pick()?;
        self.picks = happening.is_pick();
        Ok(happening)
    }

    /// What happens next, behind a step that tells that no command can be picked, if that is the next one. After a fault the
    /// simulation is of no use.
    pub fn go_on(&mut self) -> Result<Happening, SimulationFault>
        requires stands { IsSimulation self.old }
        ensures stands { IsSimulation self.new }
        ensures forward { time_of self.old ≤ time_of self.new }
        ensures goes { IfOk result (GoesOn self.old self.new) }
    {
        if !self.picks {
            return self.advance();
        }
        let happening = self.pick()?;
        if self.picks {
            return Ok(happening);
        }
        self.advance()
    }

    /// What happens next, in the order of time. After a fault the simulation is of no use.
    pub fn step(&mut self) -> Result<Happening, SimulationFault>
        requires stands { IsSimulation self.old }
        ensures stands { IsSimulation self.new }
        ensures same { IsSameModel self.old self.new }
        ensures forward { time_of self.old ≤ time_of self.new }
        ensures steps { IfOk result (HasStepped self.old self.new) }
        ensures lawful { (rules : FrontRules) (late : Bool) (notes : Notes) → StandsAt rules late notes self.old → IfOk result (IsLawful rules notes (room_at self.old)) }
    {
        if self.picks {
            self.pick()
        } else {
            self.advance()
        }
    }
}
