// The hosts of all queues, by the identifiers of their queues.
ghost use Rattle.std.specs.Prelude.{◌≡◌, ◌≢◌, ◌≤◌, ◌<◌, ◌+◌, ◌-◌, ◌%◌, ℕ, None, length, IfOk, IfSome, OnOk, OnSome, map, option_map, slice_get, true, vec_len};
ghost use Rattle.nvme_arbiter.specs.declared.settings.Class.TheVariants.{Admin};
ghost use Rattle.nvme_simulation.specs.Beginnings.{Shows};
ghost use Rattle.nvme_simulation.specs.Fronts.{IsFront, StaysFront};

use crate::creates::AdminHost;
use crate::fault::{Broken, SimulationFault};
use crate::flight::{Flight, Request};
use crate::front::Front;
use crate::host::Host;
use nvme_arbiter::{Class, HIGHEST_QID, Seen};
use nvme_entry::Sqe;
use nvme_model::Queue;
use std::alloc::Global;

#[derive(Drop)]
pub(crate) struct Hosts {
    all: Vec<Host>,
}

// What is told where there is no such command, or it isn't at the stage before.
const NO_COMMAND: SimulationFault = SimulationFault::Broken(Broken::Command);

// Whether the controller shows the admin queue with no command that waits.
fn shows_admin(front: &Front) -> bool
    ensures { result ≡ true → Shows front.now 0 Admin }
{
    let idle = Seen {
        qid: 0,
        class: Class::Admin,
        count: 0,
    };
    front.seen(0) == Some(idle)
}

impl Hosts {
    ghost use Rattle.nvme_simulation.specs.Beginnings.{AreHostsOf, DrawTheirStreams, ShowsAll, ShowsNoOther, ShowsNone, StayUnused, qid_at};
    ghost use Rattle.nvme_simulation.specs.Creating.{Does, creates_from};
    ghost use Rattle.nvme_simulation.specs.First.{starting};
    ghost use Rattle.nvme_simulation.specs.Following.{IsNextOf, closed_in, goes_on, host_of};
    ghost use Rattle.nvme_simulation.specs.Loads.{load_of};
    ghost use Rattle.nvme_simulation.specs.Moving.{OneMoves};
    ghost use Rattle.nvme_simulation.specs.Pausing.{at_end};
    ghost use Rattle.nvme_simulation.specs.Progress.{AllGoOn, AreDone, AsksFor, OneComes, OneEnds};
    ghost use Rattle.nvme_simulation.specs.Resting.{AllRest};
    ghost use Rattle.nvme_simulation.specs.Rings.{HasSubmitted, OneHears};
    ghost use Rattle.nvme_simulation.specs.declared.flight.Stage.TheVariants as stage;

    // The hosts of queues, of the identifiers 1, 2 and so on, which are created.
    pub(crate) fn new(
        alloc: Global,
        front: &mut Front,
        seed: u64,
        queues: Vec<Queue>,
    ) -> Result<Hosts, SimulationFault>
        requires front { IsFront front.old }
        ensures front { StaysFront front.old front.new }
        ensures hosts { IfOk result (λ h. AreHostsOf queues.items h.all.items) }
        ensures streams { IfOk result (λ h. DrawTheirStreams seed h.all.items) }
        ensures shows { IfOk result (λ h. ShowsAll front.new h.all.items) }
        ensures alone { IfOk result (λ h. ShowsNoOther front.new (length h.all.items)) }
        ensures creates { IfOk result (λ h. length h.all.items ≤ 65_535 → Does (creates_from 1 (map load_of h.all.items)) front.old front.new) }
    {
        let mut all = Vec::new(alloc);
        let mut admin = AdminHost::new();
        for queue in queues {
            let qid = (all.len() % 65_535) as u16 + 1;
            admin.create(front, qid, queue.slots, queue.class)?;
            let host = Host::new(alloc, seed, qid, queue)?;
            let Ok(()) = all.push(host) else {
                return Err(SimulationFault::Memory);
            };
        }
        let hosts = Hosts { all };
        if !hosts.are_shown(front) {
            return Err(SimulationFault::Broken(Broken::Create));
        }
        if !hosts.are_alone(front) {
            return Err(SimulationFault::Broken(Broken::Create));
        }
        Ok(hosts)
    }

    // Whether the controller shows the queue of a host in its class, with no command that waits.
    fn is_shown(&self, front: &Front, place: usize) -> bool
        ensures { result ≡ true → IfSome (slice_get self.now.all.items place) (λ h. Shows front.now (qid_at place) h.class) }
    {
        if place >= self.all.len() {
            return false;
        }
        let qid = (place % 65_535) as u16 + 1;
        let new = Seen {
            qid,
            class: self.all[place].class(),
            count: 0,
        };
        front.seen(qid) == Some(new)
    }

    // Whether it shows them all so.
    fn are_shown(&self, front: &Front) -> bool
        ensures { result ≡ true → ShowsAll front.now self.now.all.items }
    {
        for place in 0..self.all.len() {
            if !self.is_shown(front, place) {
                return false;
            }
        }
        true
    }

    // Whether arbitration is shown no queue of this identifier, where it is behind those of the hosts.
    fn is_left_out(&self, front: &Front, qid: u16) -> bool
        ensures { result ≡ true → length self.now.all.items < qid → ShowsNone front.now qid }
    {
        usize::from(qid) <= self.all.len() || front.seen(qid).is_none()
    }

    // Whether it is shown no other queue, but the admin queue with no command that waits.
    fn are_alone(&self, front: &Front) -> bool
        ensures { result ≡ true → ShowsNoOther front.now (length self.now.all.items) }
    {
        if !shows_admin(front) {
            return false;
        }
        for qid in 0..HIGHEST_QID + 1 {
            if !self.is_left_out(front, qid) {
                return false;
            }
        }
        true
    }

    // How many there are.
    pub(crate) fn count(&self) -> u16
        ensures { result ≡ length self.now.all.items % 65_536 }
    {
        (self.all.len() % 65_536) as u16
    }

    // The place of the host of a queue.
    fn place(&self, qid: u16) -> Option<usize>
        ensures within { IfSome result (λ place. place < vec_len self.now.all) }
        ensures behind { IfSome result (λ place. qid ≡ place + 1) }
        ensures none { result ≡ None → host_of self.now qid ≡ None }
    {
        let place = usize::from(qid).checked_sub(1)?;
        if place < self.all.len() {
            Some(place)
        } else {
            None
        }
    }

    // The host of a queue.
    pub(crate) fn host(&self, qid: u16) -> Option<&Host>
        ensures { option_map (λ h. h.now) result ≡ host_of self.now qid }
    {
        let place = self.place(qid)?;
        Some(&self.all[place])
    }

    // Whether all commands that came are done.
    pub(crate) fn are_done(&self) -> bool
        ensures { result ≡ true → AreDone self.now }
    {
        self.all.iter().all(|host| host.is_done())
    }

    // Whether no command comes any more, whatever is done: all are those of lists, which have ended.
    pub(crate) fn are_at_end(&self) -> bool
        ensures { result ≡ at_end self.now }
    {
        self.all.iter().all(|host| host.is_at_end())
    }

    // Whether a command of a queue follows those that came, and waits for no completion.
    pub(crate) fn goes_on(&self, qid: u16) -> bool
        ensures { result ≡ goes_on self.now qid }
    {
        match self.host(qid) {
            Some(host) => !host.is_closed() && !host.is_at_end(),
            None => false,
        }
    }

    // Whether the next command of a queue waits for a completion.
    pub(crate) fn is_closed(&self, qid: u16) -> bool
        ensures { result ≡ closed_in self.now qid }
    {
        match self.host(qid) {
            Some(host) => host.is_closed(),
            None => false,
        }
    }

    // How many commands of a queue come at time 0.
    pub(crate) fn at_start(&self, qid: u16) -> u32
        ensures { result ≡ starting self.now qid }
    {
        match self.host(qid) {
            Some(host) => host.at_start(),
            None => 0,
        }
    }

    // When a command of a queue comes behind this time.
    pub(crate) fn next_after(&mut self, qid: u16, time: u64) -> Option<u64>
        ensures goes { (now : ℕ) → AllGoOn now self.old self.new }
        ensures unused { StayUnused self.old self.new }
        ensures next { OnSome result (IsNextOf qid time result self.old self.new) }
    {
        let place = self.place(qid)?;
        self.all[place].next_after(time)
    }

    // A command of a queue comes.
    pub(crate) fn come(&mut self, now: u64, qid: u16, counts: bool) -> Result<(), SimulationFault>
        ensures comes { OnOk result (OneComes qid now counts self.old self.new) }
        ensures rests { OnOk result (AllRest self.old self.new) }
    {
        let Some(place) = self.place(qid) else {
            return Err(NO_COMMAND);
        };
        self.all[place].come(now, counts)
    }

    // The host of a queue submits what its ring has room for. The answer is the new tail, if it moved.
    pub(crate) fn submit(&mut self, now: u64, qid: u16) -> Option<u16>
        ensures goes { AllGoOn now self.old self.new }
        ensures rests { AllRest self.old self.new }
    {
        let place = self.place(qid)?;
        self.all[place].submit(now)
    }

    // Whether the host of a queue has submitted all that its ring has room for.
    pub(crate) fn has_submitted(&self, qid: u16) -> bool
        ensures { result ≡ true → HasSubmitted qid self.now }
    {
        match self.place(qid) {
            Some(place) => self.all[place].has_submitted(),
            None => false,
        }
    }

    // The controller reads the command in a slot of the ring of a queue: its number and its entry.
    pub(crate) fn fetch(&mut self, qid: u16, slot: u16) -> Result<(u32, Sqe), SimulationFault>
        ensures goes { (now : ℕ) → AllGoOn now self.old self.new }
        ensures rests { AllRest self.old self.new }
        ensures io { OnOk result (qid ≢ 0) }
    {
        let Some(place) = self.place(qid) else {
            return Err(NO_COMMAND);
        };
        self.all[place].fetch(slot)
    }

    // A command is picked: what it asks for.
    pub(crate) fn pick(
        &mut self,
        now: u64,
        qid: u16,
        number: u32,
    ) -> Result<Request, SimulationFault>
        ensures goes { AllGoOn now self.old self.new }
        ensures asks { IfOk result (AsksFor qid number self.old) }
        ensures moves { OnOk result (OneMoves qid number stage.Fetched now self.old self.new) }
    {
        let Some(place) = self.place(qid) else {
            return Err(NO_COMMAND);
        };
        match self.all[place].pick(now, number) {
            Some(request) => Ok(request),
            None => Err(NO_COMMAND),
        }
    }

    // A command starts.
    pub(crate) fn start(&mut self, now: u64, qid: u16, number: u32) -> Result<(), SimulationFault>
        ensures goes { AllGoOn now self.old self.new }
        ensures moves { OnOk result (OneMoves qid number stage.Picked now self.old self.new) }
    {
        let Some(place) = self.place(qid) else {
            return Err(NO_COMMAND);
        };
        if self.all[place].start(now, number) {
            Ok(())
        } else {
            Err(NO_COMMAND)
        }
    }

    // A command is done.
    pub(crate) fn finish(&mut self, qid: u16, number: u32) -> Result<Flight, SimulationFault>
        ensures ends { (now : ℕ) → IfOk result (λ flight. OneEnds qid number now flight self.old self.new) }
        ensures rests { OnOk result (AllRest self.old self.new) }
    {
        let Some(place) = self.place(qid) else {
            return Err(NO_COMMAND);
        };
        match self.all[place].finish(number) {
            Some(flight) => Ok(flight),
            None => Err(NO_COMMAND),
        }
    }

    // A completion of a queue comes, which tells how far the controller has read. The answer is the new head of its ring.
    pub(crate) fn completed(&mut self, qid: u16, sqhd: u16) -> Option<u16>
        ensures goes { (now : ℕ) → AllGoOn now self.old self.new }
        ensures hears { OnSome result (OneHears qid sqhd self.old self.new) }
    {
        let place = self.place(qid)?;
        Some(self.all[place].completed(sqhd))
    }
}
