// The controller, its hosts and its device.
use crate::agenda::{Agenda, Event};
use crate::channels::{Runs, Started};
use crate::fault::{Broken, SimulationFault};
use crate::flight::Flight;
use crate::front::{Front, Taken};
use crate::happening::{Happening, Picked};
use crate::hosts::Hosts;
use nvme_arbiter::Pick;
use nvme_ctrl::{Post, Step};

// The controller, its hosts and its device, and the events to come.
#[derive(Drop)]
pub(crate) struct Machine {
    pub(crate) front: Front,
    pub(crate) device: Runs,
    pub(crate) hosts: Hosts,
    pub(crate) agenda: Agenda,
}

// What is told where the controller, a host or the device has no such command.
const NO_COMMAND: SimulationFault = SimulationFault::Broken(Broken::Command);

impl Machine {
    ghost use Rattle.std.specs.Prelude.{◌≡◌, ◌≤◌, ◌<◌, ◌+◌, ◌-◌, ◌*◌, ◌&&◌, ℕ, Bool, true, false, IfOk, OnOk};
    ghost use Rattle.nvme_log.specs.Rules.{FrontRules};
    ghost use Rattle.nvme_ctrl_log.specs.Notes.{Notes};
    ghost use Rattle.nvme_simulation.specs.Picks.{IsLawful, IsTimed};
    ghost use Rattle.nvme_model.specs.declared.model.End.{End};
    ghost use Rattle.nvme_occupancy.specs.declared.occupancy.Occupancy.{Occupancy};
    ghost use Rattle.nvme_simulation.specs.Counts.{Counts};
    ghost use Rattle.nvme_simulation.specs.Devices.{room_in};
    ghost use Rattle.nvme_simulation.specs.Following.{ComesAndFollows, PlansNext, goes_on};
    ghost use Rattle.nvme_simulation.specs.Fronts.{IsCompletionOf, IsFront, StandsBy};
    ghost use Rattle.nvme_simulation.specs.Machines.{Completes, EndsAndStarts, Goes, TakesPicked, Works, Acts};
    ghost use Rattle.nvme_simulation.specs.Passing.{Passes};
    ghost use Rattle.nvme_simulation.specs.Moving.{StartsIn};
    ghost use Rattle.nvme_simulation.specs.Pausing.{GoesOn, PausesFor};
    ghost use Rattle.nvme_simulation.specs.Plans.{IsOfPicks, events_of};
    ghost use Rattle.nvme_simulation.specs.Progress.{OneComes, OneEnds};
    ghost use Rattle.nvme_simulation.specs.Quiet.{NotesAs};
    ghost use Rattle.nvme_simulation.specs.Reading.{HasRead};
    ghost use Rattle.nvme_simulation.specs.Resting.{AllRest};
    ghost use Rattle.nvme_simulation.specs.Rings.{HasSubmitted};
    ghost use Rattle.nvme_simulation.specs.Starts.{PlansEnd};
    ghost use Rattle.nvme_simulation.specs.Steps.{cost_with, picked_in};
    ghost use Rattle.nvme_simulation.specs.Taking.{PicksAsTold, TakesAll};
    ghost use Rattle.nvme_simulation.specs.Times.{now_of};

    // A host submits all commands that its ring has room for, and the controller reads what it may.
    #[tactic(auto, using(crate::proofs::Resting::all_rest, crate::proofs::Resting::all_rest_then))]
    pub(crate) fn submit(&mut self, qid: u16) -> Result<(), SimulationFault>
        requires front { IsFront self.old.front }
        ensures goes { Goes self.old self.new }
        ensures cost { cost_with self.new ≡ cost_with self.old }
        ensures agenda { self.new.agenda ≡ self.old.agenda }
        ensures device { self.new.device ≡ self.old.device }
        ensures rests { AllRest self.old.hosts self.new.hosts }
        ensures submits { OnOk result (HasSubmitted qid self.new.hosts) }
        ensures all { OnOk result (HasRead qid self.new.front) }
    {
        self.ring(qid)?;
        self.fetch(qid)?;
        if self.hosts.has_submitted(qid) {
            Ok(())
        } else {
            Err(SimulationFault::Broken(Broken::Slot))
        }
    }

    // A host puts all commands into its ring that it has room for, and rings the doorbell where it did.
    #[tactic(auto, using(crate::proofs::Resting::all_rest, crate::proofs::Resting::all_rest_then))]
    fn ring(&mut self, qid: u16) -> Result<(), SimulationFault>
        requires front { IsFront self.old.front }
        ensures goes { Goes self.old self.new }
        ensures cost { cost_with self.new ≡ cost_with self.old }
        ensures agenda { self.new.agenda ≡ self.old.agenda }
        ensures device { self.new.device ≡ self.old.device }
        ensures rests { AllRest self.old.hosts self.new.hosts }
    {
        let Some(tail) = self.hosts.submit(self.agenda.now(), qid) else {
            return Ok(());
        };
        if self.front.submit(qid, tail) {
            Ok(())
        } else {
            Err(SimulationFault::Broken(Broken::Doorbell))
        }
    }

    // The controller reads a command of a queue, if it may. Whether it did.
    #[tactic(auto, using(crate::proofs::Resting::all_rest, crate::proofs::Resting::all_rest_then))]
    fn fetch_one(&mut self, qid: u16) -> Result<bool, SimulationFault>
        requires front { IsFront self.old.front }
        ensures goes { Goes self.old self.new }
        ensures cost { cost_with self.new ≡ cost_with self.old }
        ensures agenda { self.new.agenda ≡ self.old.agenda }
        ensures device { self.new.device ≡ self.old.device }
        ensures rests { AllRest self.old.hosts self.new.hosts }
        ensures all { IfOk result (λ more. more ≡ false → HasRead qid self.new.front) }
    {
        let Some(slot) = self.front.next_slot(qid) else {
            return Ok(false);
        };
        let (number, entry) = self.hosts.fetch(qid, slot)?;
        if self.front.fetched(qid, &entry, number) {
            Ok(true)
        } else {
            Err(SimulationFault::Broken(Broken::Slot))
        }
    }

    // The controller reads all commands of a queue that it may.
    #[tactic(auto, using(crate::proofs::Resting::all_rest, crate::proofs::Resting::all_rest_then))]
    fn fetch(&mut self, qid: u16) -> Result<(), SimulationFault>
        requires front { IsFront self.old.front }
        ensures goes { Goes self.old self.new }
        ensures cost { cost_with self.new ≡ cost_with self.old }
        ensures agenda { self.new.agenda ≡ self.old.agenda }
        ensures device { self.new.device ≡ self.old.device }
        ensures rests { AllRest self.old.hosts self.new.hosts }
        ensures all { OnOk result (HasRead qid self.new.front) }
    {
        for _turn in 0..u16::MAX {
            if !self.fetch_one(qid)? {
                return Ok(());
            }
        }
        Err(SimulationFault::Broken(Broken::Slot))
    }

    // A command starts on a channel, if one does.
    fn start(&mut self, started: Option<Started>) -> Result<(), SimulationFault>
        requires front { IsFront self.old.front }
        ensures goes { Goes self.old self.new }
        ensures device { self.new.device ≡ self.old.device }
        ensures plans { OnOk result (PlansEnd started (events_of self.old.agenda) (events_of self.new.agenda)) }
        ensures starts { OnOk result (StartsIn started (now_of self.old.agenda) self.old.hosts self.new.hosts) }
        ensures cost { cost_with self.new ≤ cost_with self.old + 2 }
    {
        let Some(started) = started else {
            return Ok(());
        };
        let now = self.agenda.now();
        let command = started.command;
        self.hosts.start(now, command.qid, command.number)?;
        self.agenda
            .plan(Some(started.ends), Event::End(started.channel))
    }

    // The device takes a command of a queue that is picked.
    fn take(&mut self, qid: u16) -> Result<(), SimulationFault>
        requires front { IsFront self.old.front }
        ensures goes { Goes self.old self.new }
        ensures cost { OnOk result (cost_with self.new + 1 ≤ cost_with self.old) }
        ensures takes { OnOk result (TakesPicked qid self.old self.new) }
    {
        let now = self.agenda.now();
        let Some(taken) = self.front.take(qid) else {
            return Err(NO_COMMAND);
        };
        let request = self.hosts.pick(now, qid, taken.number)?;
        let started = self
            .device
            .take(now, taken, request.block, request.service)?;
        self.start(started)
    }

    // The device takes the commands of a pick.
    fn take_all(&mut self, pick: &Pick) -> Result<(), SimulationFault>
        requires front { IsFront self.old.front }
        ensures goes { Goes self.old self.new }
        ensures cost { OnOk result (cost_with self.new + pick.now.n ≤ cost_with self.old) }
        ensures takes { OnOk result (TakesAll pick.now.n pick.now.qid self.old self.new) }
    {
        for _turn in 0..pick.n {
            self.take(pick.qid)?;
        }
        Ok(())
    }

    // The next pick, whose commands the device takes. Then the controller reads what its window has room for. Or that no
    // command can be picked: none waits, or the device has no room.
    pub(crate) fn pick(&mut self) -> Result<Happening, SimulationFault>
        requires front { IsFront self.old.front }
        ensures goes { Acts self.old self.new }
        ensures cost { IfOk result (λ h. cost_with self.new + picked_in h ≤ cost_with self.old) }
        ensures of_picks { IfOk result IsOfPicks }
        ensures timed { IfOk result (IsTimed (now_of self.old.agenda)) }
        ensures counts { (end : End) (now : ℕ) (occupancy : Occupancy) → IfOk result (Counts end now occupancy occupancy) }
        ensures lawful { (rules : FrontRules) (late : Bool) (notes : Notes) → StandsBy rules late notes self.old.front → IfOk result (IsLawful rules notes (room_in self.old.device)) }
        ensures notes { IfOk result (λ h. NotesAs h self.old.front self.new.front) }
        ensures passes { (may counts : Bool) → IfOk result (Passes may counts (now_of self.old.agenda) self.old.hosts self.new.hosts) }
        ensures picks { IfOk result (PicksAsTold self.old self.new) }
    {
        let room = self.device.room();
        if room == 0 {
            return Ok(Happening::Settled);
        }
        match self.front.pick(room) {
            Step::Picked(pick) if pick.n > 0 => {
                let at = self.agenda.now();
                self.take_all(&pick)?;
                self.fetch(pick.qid)?;
                Ok(Happening::Picked(Picked { at, room, pick }))
            }
            Step::Idle => Ok(Happening::Settled),
            _ => Err(SimulationFault::Broken(Broken::Device)),
        }
    }

    // Whether a completion is that of a command, in the slot where its host looks for the next one.
    fn is_completion(&self, post: &Post, taken: Taken) -> bool
        ensures { result ≡ true → IsCompletionOf taken post.now }
    {
        match self.hosts.host(taken.qid) {
            Some(host) => {
                post.cookie == taken.number
                    && post.tag == taken.tag
                    && post.slot == host.next_completion()
                    && post.cqe.sqid == taken.qid
            }
            None => false,
        }
    }

    // The device answers a command, and its completion comes to its host, which reads it.
    fn collect(&mut self, taken: Taken) -> Result<(), SimulationFault>
        requires front { IsFront self.old.front }
        ensures goes { Goes self.old self.new }
        ensures agenda { self.new.agenda ≡ self.old.agenda }
        ensures device { self.new.device ≡ self.old.device }
        ensures cost { cost_with self.new ≡ cost_with self.old }
        ensures completes { OnOk result (Completes taken self.old.front self.old.hosts self.new.hosts) }
    {
        if !self.front.complete(taken.tag) {
            return Err(NO_COMMAND);
        }
        let Some(post) = self.front.post(taken.qid) else {
            return Err(SimulationFault::Broken(Broken::Completion));
        };
        if !self.is_completion(&post, taken) {
            return Err(SimulationFault::Broken(Broken::Completion));
        }
        let Some(head) = self.hosts.completed(taken.qid, post.cqe.sqhd) else {
            return Err(SimulationFault::Broken(Broken::Completion));
        };
        if self.front.read(taken.qid, head) {
            Ok(())
        } else {
            Err(SimulationFault::Broken(Broken::Doorbell))
        }
    }

    // The command that runs on a channel ends, another one may start there, and the host has the completion.
    fn end(&mut self, channel: usize) -> Result<Taken, SimulationFault>
        requires front { IsFront self.old.front }
        ensures goes { Goes self.old self.new }
        ensures cost { OnOk result (cost_with self.new ≤ cost_with self.old + 5) }
        ensures plans { IfOk result (λ taken. EndsAndStarts channel taken self.old self.new) }
    {
        let (taken, started) = self.device.finish(self.agenda.now(), channel)?;
        self.start(started)?;
        self.collect(taken)?;
        Ok(taken)
    }

    // The command that runs on a channel is done.
    pub(crate) fn finish(&mut self, channel: usize) -> Result<(Taken, Flight), SimulationFault>
        requires front { IsFront self.old.front }
        ensures works { Works self.old self.new }
        ensures cost { OnOk result (cost_with self.new ≤ cost_with self.old + 5) }
        ensures plans { IfOk result (λ done. EndsAndStarts channel done.0 self.old self.new) }
        ensures ends { IfOk result (λ done. OneEnds done.0.qid done.0.number (now_of self.old.agenda) done.1 self.old.hosts self.new.hosts) }
    {
        let taken = self.end(channel)?;
        let flight = self.hosts.finish(taken.qid, taken.number)?;
        Ok((taken, flight))
    }

    // No command starts on a channel until it goes on, after this time.
    pub(crate) fn pause(&mut self, channel: usize, length: u64) -> Result<(), SimulationFault>
        requires front { IsFront self.old.front }
        ensures goes { Goes self.old self.new }
        ensures below { now_of self.old.agenda < 0x1_0000_0000_0000_0000 }
        ensures cost { OnOk result (cost_with self.new ≤ cost_with self.old + 4 * (0x1_0000_0000_0000_0000 - (now_of self.old.agenda + length))) }
        ensures pauses { OnOk result (PausesFor channel length self.old self.new) }
    {
        let end = self.agenda.now().checked_add(length);
        self.device.pause(channel)?;
        self.agenda.plan(end, Event::Resume(channel))
    }

    // A channel goes on, and a command may start there.
    pub(crate) fn resume(&mut self, channel: usize) -> Result<(), SimulationFault>
        requires front { IsFront self.old.front }
        ensures goes { Goes self.old self.new }
        ensures below { now_of self.old.agenda < 0x1_0000_0000_0000_0000 }
        ensures cost { cost_with self.new ≤ cost_with self.old + 2 }
        ensures resumes { OnOk result (GoesOn channel self.old self.new) }
    {
        let started = self.device.resume(self.agenda.now(), channel)?;
        self.start(started)
    }

    // The next command of a queue comes behind this time.
    pub(crate) fn follow(&mut self, qid: u16, time: u64) -> Result<(), SimulationFault>
        requires front { IsFront self.old.front }
        ensures goes { Goes self.old self.new }
        ensures cost { cost_with self.new ≤ cost_with self.old + 2 }
        ensures plans { OnOk result (PlansNext qid time self.old self.new) }
        ensures device { self.new.device ≡ self.old.device }
    {
        let next = self.hosts.next_after(qid, time);
        self.agenda.plan(next, Event::Arrival(qid))
    }

    // Whether a command of a queue is followed by one that waits for no completion, where more may come.
    fn is_followed(&self, qid: u16, more: bool) -> bool
        ensures { result ≡ (more && goes_on self.now.hosts qid) }
    {
        more && self.hosts.goes_on(qid)
    }

    // A command of a queue comes, and where more come the next one behind it, but where that waits for a completion.
    pub(crate) fn come(&mut self, qid: u16, counts: bool, more: bool) -> Result<(), SimulationFault>
        requires front { IsFront self.old.front }
        ensures works { Works self.old self.new }
        ensures comes { OnOk result (OneComes qid (now_of self.old.agenda) counts self.old.hosts self.new.hosts) }
        ensures follows { OnOk result (ComesAndFollows qid counts more self.old self.new) }
        ensures cost { cost_with self.new ≤ cost_with self.old + 2 }
    {
        let now = self.agenda.now();
        self.hosts.come(now, qid, counts)?;
        if !self.is_followed(qid, more) {
            return self.submit(qid);
        }
        self.follow(qid, now)?;
        self.submit(qid)
    }
}
