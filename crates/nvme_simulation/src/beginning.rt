// The first events.
ghost use Rattle.std.specs.Prelude.{◌≡◌, ◌≤◌, ◌<◌, ◌+◌, ◌*◌, ◌/◌, ◌%◌, OnOk, length};
ghost use Rattle.nvme_simulation.specs.Beginnings.{StayUnused};
ghost use Rattle.nvme_simulation.specs.First.{BeginsPauses, BeginsQueue, BeginsQueues};
ghost use Rattle.nvme_simulation.specs.Plans.{events_of};
ghost use Rattle.nvme_simulation.specs.Times.{now_of};

use crate::agenda::{Agenda, Event};
use crate::fault::SimulationFault;
use crate::hosts::Hosts;
use nvme_model::{Device, Pauses};

// The first commands of a queue.
#[tactic(auto, using(crate::proofs::Plans::follows_time, crate::proofs::Beginnings::unused_self))]
fn begin_queue(agenda: &mut Agenda, hosts: &mut Hosts, qid: u16) -> Result<(), SimulationFault>
    ensures time { now_of agenda.new ≡ now_of agenda.old }
    ensures hosts { StayUnused hosts.old hosts.new }
    ensures begins { OnOk result (BeginsQueue qid hosts.old hosts.new (events_of agenda.old) (events_of agenda.new)) }
{
    for _command in 0..hosts.at_start(qid) {
        agenda.plan(Some(0), Event::Arrival(qid))?;
    }
    if !hosts.goes_on(qid) {
        return Ok(());
    }
    let first = hosts.next_after(qid, 0);
    agenda.plan(first, Event::Arrival(qid))
}

// The first commands of all queues.
#[tactic(auto, using(crate::proofs::Beginnings::unused_self, crate::proofs::Beginnings::unused_then))]
pub(crate) fn begin_queues(agenda: &mut Agenda, hosts: &mut Hosts) -> Result<(), SimulationFault>
    ensures time { now_of agenda.new ≡ now_of agenda.old }
    ensures hosts { StayUnused hosts.old hosts.new }
    ensures begins { OnOk result (BeginsQueues (length hosts.old.all.items % 65_536) hosts.old hosts.new (events_of agenda.old) (events_of agenda.new)) }
{
    for place in 0..hosts.count() {
        begin_queue(agenda, hosts, place + 1)?;
    }
    Ok(())
}

// The first pause of a channel of so many: they are spread over the time from one to the next.
fn first_pause(pauses: &Pauses, channel: usize, count: usize) -> u64
    requires within { channel < count }
    ensures { result ≡ pauses.now.every * (channel + 1) / count }
{
    ((u128::from(pauses.every) * (channel as u128 + 1)) / count as u128) as u64
}

// The first pauses of the channels of a device, if they have any.
#[tactic(auto, using(crate::proofs::Plans::follows_time))]
pub(crate) fn begin_pauses(agenda: &mut Agenda, device: &Device) -> Result<(), SimulationFault>
    ensures time { now_of agenda.new ≡ now_of agenda.old }
    ensures begins { OnOk result (BeginsPauses device.now.pauses device.now.channels (events_of agenda.old) (events_of agenda.new)) }
{
    let Some(pauses) = device.pauses else {
        return Ok(());
    };
    for channel in 0..device.channels {
        let first = first_pause(&pauses, channel, device.channels);
        agenda.plan(Some(first), Event::Pause(channel))?;
    }
    Ok(())
}
