// The device, and which command runs on each of its channels.
ghost use Rattle.std.specs.Prelude.{◌≡◌};
ghost use Rattle.nvme_simulation.specs.Starts.{number_in};

use crate::fault::{Broken, SimulationFault};
use crate::front::Taken;
use nvme_channels::{Channel, Channels, ChannelsFault, Start, StepFault};
use nvme_model::Device;
use std::alloc::Global;

// A command that starts on a channel, and when it ends.
#[derive(Clone, Copy)]
pub(crate) struct Started {
    pub(crate) command: Taken,
    pub(crate) channel: usize,
    pub(crate) ends: u64,
}

#[derive(Drop)]
pub(crate) struct Runs {
    channels: Channels,
    // The command that started last on each channel.
    running: Vec<Option<Taken>>,
}

// What a refusal of the device means.
fn fault_of(fault: StepFault) -> SimulationFault {
    match fault {
        StepFault::TooLate => SimulationFault::TooLong,
        _ => SimulationFault::Broken(Broken::Device),
    }
}

// The number of a command in the device: its tag, its queue and its number there.
fn number_of(taken: Taken) -> u64
    ensures { result ≡ number_in taken }
{
    u64::from(taken.tag) * 0x1_0000_0000_0000
        + u64::from(taken.qid) * 0x1_0000_0000
        + u64::from(taken.number)
}

// The command of a number.
fn taken_of(number: u64) -> Taken
    ensures { number_in result ≡ number }
{
    Taken {
        tag: (number / 0x1_0000_0000_0000) as u16,
        qid: (number / 0x1_0000_0000 % 65_536) as u16,
        number: (number % 0x1_0000_0000) as u32,
    }
}

impl Runs {
    ghost use Rattle.std.specs.Prelude.{◌≤◌, ◌+◌, IfOk, None, OnOk, Some, replicate, slice_get};
    ghost use Rattle.nvme_channels.specs.Devices.{new_device};
    ghost use Rattle.nvme_channels.specs.Steps.{finish_of, pause_of, resume_of, take_of};
    ghost use Rattle.nvme_simulation.specs.Devices.{IsBehind, device_in, room_in};
    ghost use Rattle.nvme_simulation.specs.Starts.{AnswersAs, StartsAs, StartsOn, started_in};

    // A device whose channels are idle.
    pub(crate) fn new(alloc: Global, device: &Device) -> Result<Runs, SimulationFault>
        ensures device { IfOk result (λ r. device_in r ≡ new_device device.now.placement device.now.depth device.now.channels) }
        ensures started { IfOk result (λ r. started_in r ≡ replicate device.now.channels None) }
    {
        let channels = match Channels::new(alloc, device.channels, device.placement, device.depth) {
            Ok(channels) => channels,
            Err(ChannelsFault::Memory) => return Err(SimulationFault::Memory),
            Err(_) => return Err(SimulationFault::Broken(Broken::Device)),
        };
        let mut running = Vec::new(alloc);
        if running.resize(device.channels, None).is_err() {
            return Err(SimulationFault::Memory);
        }
        Ok(Runs { channels, running })
    }

    // How many commands more it takes now.
    pub(crate) fn room(&self) -> u16
        ensures { result ≡ room_in self.now }
    {
        self.channels.room()
    }

    // Its channels.
    pub(crate) fn channels(&self) -> &[Channel]
        ensures { result.now ≡ self.now.channels.channels.items }
    {
        self.channels.channels()
    }

    // A command starts, if one does.
    fn note(&mut self, start: Option<Start>) -> Option<Started>
        ensures same { self.new.channels ≡ self.old.channels }
        ensures starts { StartsAs start result }
        ensures on { StartsOn result self.old self.new }
    {
        let start = start?;
        let taken = taken_of(start.number);
        if start.channel < self.running.len() {
            self.running[start.channel] = Some(taken);
        }
        Some(Started {
            command: taken,
            channel: start.channel,
            ends: start.ends,
        })
    }

    // Takes a command, which starts at once or later.
    pub(crate) fn take(
        &mut self,
        now: u64,
        taken: Taken,
        block: u64,
        service: u64,
    ) -> Result<Option<Started>, SimulationFault>
        ensures behind { IsBehind (device_in self.old) (device_in self.new) }
        ensures room { OnOk result (room_in self.new + 1 ≡ room_in self.old) }
        ensures takes { device_in self.new ≡ (take_of now (number_in taken) block service (device_in self.old)).1 }
        ensures starts { IfOk result (AnswersAs (take_of now (number_in taken) block service (device_in self.old)).0) }
        ensures on { IfOk result (λ s. StartsOn s self.old self.new) }
    {
        match self.channels.take(now, number_of(taken), block, service) {
            Ok(start) => Ok(self.note(start)),
            Err(fault) => Err(fault_of(fault)),
        }
    }

    // The command of a channel ends, and another one may start there.
    pub(crate) fn finish(
        &mut self,
        now: u64,
        channel: usize,
    ) -> Result<(Taken, Option<Started>), SimulationFault>
        ensures behind { IsBehind (device_in self.old) (device_in self.new) }
        ensures room { room_in self.new ≤ room_in self.old + 1 }
        ensures ends { OnOk result (device_in self.new ≡ (finish_of now channel (device_in self.old)).1) }
        ensures starts { IfOk result (λ done. AnswersAs (finish_of now channel (device_in self.old)).0 done.1) }
        ensures ran { IfOk result (λ done. slice_get (started_in self.old) channel ≡ Some (Some done.0)) }
        ensures on { IfOk result (λ done. StartsOn done.1 self.old self.new) }
    {
        let Some(Some(taken)) = self.running.get(channel).copied() else {
            return Err(SimulationFault::Broken(Broken::Command));
        };
        match self.channels.finish(now, channel) {
            Ok(start) => Ok((taken, self.note(start))),
            Err(fault) => Err(fault_of(fault)),
        }
    }

    // No command starts on a channel until it is resumed.
    pub(crate) fn pause(&mut self, channel: usize) -> Result<(), SimulationFault>
        ensures behind { IsBehind (device_in self.old) (device_in self.new) }
        ensures room { room_in self.new ≤ room_in self.old }
        ensures pauses { device_in self.new ≡ (pause_of channel (device_in self.old)).1 }
        ensures same { started_in self.new ≡ started_in self.old }
    {
        match self.channels.pause(channel) {
            Ok(()) => Ok(()),
            Err(fault) => Err(fault_of(fault)),
        }
    }

    // Commands may start on a channel again, and one may start now.
    pub(crate) fn resume(
        &mut self,
        now: u64,
        channel: usize,
    ) -> Result<Option<Started>, SimulationFault>
        ensures behind { IsBehind (device_in self.old) (device_in self.new) }
        ensures room { room_in self.new ≤ room_in self.old }
        ensures resumes { OnOk result (device_in self.new ≡ (resume_of now channel (device_in self.old)).1) }
        ensures starts { IfOk result (AnswersAs (resume_of now channel (device_in self.old)).0) }
        ensures on { IfOk result (λ s. StartsOn s self.old self.new) }
    {
        match self.channels.resume(now, channel) {
            Ok(start) => Ok(self.note(start)),
            Err(fault) => Err(fault_of(fault)),
        }
    }
}
