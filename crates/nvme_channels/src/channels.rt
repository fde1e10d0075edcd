// The channels of a device, and the commands that it has.
ghost use Rattle.std.specs.Prelude.{◌≡◌, ◌≤◌, ◌<◌, [], ◌∷◌, ◌++◌, All, IfErr, IfOk, IfSome, OnOk, count_by, length, map, position, slice_set, vec_len};
ghost use Rattle.std.specs.VecDeque.{deque_capacity};
ghost use Rattle.nvme_channels.specs.Channel.{begun, is_idle};
ghost use Rattle.nvme_channels.specs.declared.channels.TheConstants.{MAX_CHANNELS};
ghost use Rattle.nvme_channels.specs.inside.Marks.{marks_of};

use crate::channel::{Channel, StepFault};
use crate::marks::Marks;
use crate::placement::{Placement, Reach};
use std::alloc::Global;
use std::collections::VecDeque;
use thiserror::Error;

/// The most channels of a device.
pub const MAX_CHANNELS: usize = 65_535;

/// Why there is no such device.
#[derive(Clone, Copy, Debug, PartialEq, Eq, Error)]
pub enum ChannelsFault {
    /// It has no channel.
    #[error("expected 1 to 65,535 channels")]
    NoChannels,
    /// It has more than 65,535 channels.
    #[error("expected 1 to 65,535 channels")]
    TooManyChannels,
    /// It has no command at a time.
    #[error("expected a depth above 0")]
    NoDepth,
    /// There is no memory.
    #[error("out of memory")]
    Memory,
}

/// A command that waits for a channel.
#[derive(Clone, Copy, Debug, PartialEq, Eq)]
pub struct Waiting {
    /// The number that its caller gave it.
    pub number: u64,
    /// How long it takes, in picoseconds.
    pub service: u64,
    pub reach: Reach,
}

/// A command that starts.
#[derive(Clone, Copy, Debug, PartialEq, Eq)]
pub struct Start {
    /// The number that its caller gave it.
    pub number: u64,
    pub channel: usize,
    /// When it ends, in picoseconds.
    pub ends: u64,
}

// The place of the first idle one.
fn first_idle(channels: &[Channel]) -> Option<usize>
    ensures value { result ≡ position is_idle channels.now }
    ensures within { IfSome result (λ i. i < length channels.now) }
{
    channels.iter().position(|c| c.is_idle())
}

/// The channels of a device, and the commands that wait in it for one, in the order in which they came.
#[derive(Drop)]
pub struct Channels {
    placement: Placement,
    depth: u16,
    channels: Vec<Channel>,
    waiting: VecDeque<Waiting>,
    // Which channels are idle.
    idle: Marks,
    // How many channels run a command.
    running: usize,
    ghost some: { 0 < vec_len channels },
    ghost worked: { All (λ c. c.busy ≤ c.ends) channels.items },
    ghost counted: { running ≡ count_by (λ c. c.running) channels.items },
    ghost marked: { marks_of idle ≡ map is_idle channels.items },
    ghost reserved: { depth ≤ deque_capacity waiting },
}

impl Channels {
    ghost use Rattle.nvme_channels.specs.Devices.{MakesDevice, TellsChannelsFault, channel_at, device_of, first_for, idle_in, new_device, room_of};
    ghost use Rattle.nvme_channels.specs.Steps.{finish_of, next_for, pause_of, refill_of, resume_of, start_of, take_of, with_content};

    /// A device of so many channels, 1 to `MAX_CHANNELS`, which has up to `depth` commands at a time, 1 or more. Nothing runs,
    /// and no channel is paused.
    pub fn new(
        alloc: Global,
        count: usize,
        placement: Placement,
        depth: u16,
    ) -> Result<Channels, ChannelsFault>
        ensures ok { IfOk result (λ c. device_of c ≡ new_device placement depth count) }
        ensures taken { OnOk result (MakesDevice count depth) }
        ensures err { IfErr result (λ e. TellsChannelsFault count depth e) }
    {
        if count == 0 {
            return Err(ChannelsFault::NoChannels);
        }
        if count > MAX_CHANNELS {
            return Err(ChannelsFault::TooManyChannels);
        }
        if depth == 0 {
            return Err(ChannelsFault::NoDepth);
        }
        let idle = Channel {
            running: false,
            paused: false,
            ends: 0,
            busy: 0,
        };
        let Ok(channels) = vec![in alloc; idle; count] else {
            return Err(ChannelsFault::Memory);
        };
        let Ok(idle) = Marks::new(alloc, count) else {
            return Err(ChannelsFault::Memory);
        };
        match VecDeque::with_capacity(alloc, usize::from(depth)) {
            Ok(waiting) => Ok(Channels {
                placement,
                depth,
                channels,
                waiting,
                idle,
                running: 0,
            }),
            Err(_) => Err(ChannelsFault::Memory),
        }
    }

    /// The channels, by their numbers from 0.
    pub fn channels(&self) -> &[Channel]
        ensures { result.now ≡ (device_of self.now).channels }
    {
        &self.channels
    }

    /// The commands that wait, in the order in which they came.
    pub fn waiting(&self) -> &VecDeque<Waiting>
        ensures { result.now.items ≡ (device_of self.now).waiting }
    {
        &self.waiting
    }

    /// How many commands more the device can take now.
    pub fn room(&self) -> u16
        ensures { result ≡ room_of (device_of self.now) }
    {
        let free = usize::from(self.depth).saturating_sub(self.running);
        free.saturating_sub(self.waiting.len()) as u16
    }

    // The first idle channel of these.
    fn idle_in(&self, reach: Reach) -> Option<usize>
        requires ordered { reach.first ≤ reach.end }
        requires within { reach.end ≤ length (device_of self.now).channels }
        ensures value { result ≡ idle_in (device_of self.now).channels reach }
        ensures within { IfSome result (λ k. k < length (device_of self.now).channels) }
    {
        if reach.first == 0 && reach.end == self.channels.len() {
            return self.idle.first();
        }
        match first_idle(&self.channels[reach.first..reach.end]) {
            Some(place) => Some(reach.first + place),
            None => None,
        }
    }

    // The place of the first waiting command that may run on a channel.
    fn first_for(&self, channel: usize) -> Option<usize>
        ensures value { result ≡ first_for (device_of self.now).waiting channel }
        ensures within { IfSome result (λ i. i < length (device_of self.now).waiting) }
    {
        self.waiting.iter().position(|w| w.reach.has(channel))
    }

    // The place of the waiting command that starts on a channel that is this.
    fn next_for(&self, channel: usize, becomes: &Channel) -> Option<usize>
        ensures value { result ≡ next_for channel becomes.now (device_of self.now) }
        ensures within { IfSome result (λ i. i < length (device_of self.now).waiting) }
    {
        if becomes.is_idle() {
            self.first_for(channel)
        } else {
            None
        }
    }

    // A channel becomes this.
    fn put(&mut self, channel: usize, becomes: Channel)
        requires within { channel < length (device_of self.old).channels }
        requires worked { becomes.busy ≤ becomes.ends }
        ensures { device_of self.new ≡ with_content (device_of self.old) (slice_set (device_of self.old).channels channel becomes) (device_of self.old).waiting }
    {
        let others = self.running - self.channels[channel].running as usize;
        self.running = others + becomes.running as usize;
        self.idle.put(channel, becomes.is_idle());
        self.channels[channel] = becomes;
    }

    // A channel becomes this, and where it is idle then, the first waiting command that may run on it starts.
    fn refill(
        &mut self,
        channel: usize,
        becomes: Channel,
        now: u64,
    ) -> Result<Option<Start>, StepFault>
        requires within { channel < length (device_of self.old).channels }
        requires worked { becomes.busy ≤ becomes.ends }
        ensures { (result, device_of self.new) ≡ refill_of now channel becomes (device_of self.old) }
    {
        let Some(place) = self.next_for(channel, &becomes) else {
            self.put(channel, becomes);
            return Ok(None);
        };
        let first = self.waiting[place];
        let begun = becomes.begun(now, first.service)?;
        self.waiting.remove(place);
        self.put(channel, begun);
        Ok(Some(Start {
            number: first.number,
            channel,
            ends: begun.ends,
        }))
    }

    // A command with room starts on a channel.
    fn start(
        &mut self,
        channel: usize,
        number: u64,
        service: u64,
        now: u64,
    ) -> Result<Option<Start>, StepFault>
        requires within { channel < length (device_of self.old).channels }
        ensures { (result, device_of self.new) ≡ start_of number channel (device_of self.old).waiting (device_of self.old)
            (begun now service (channel_at (device_of self.old) channel)) }
    {
        let begun = self.channels[channel].begun(now, service)?;
        self.put(channel, begun);
        Ok(Some(Start {
            number,
            channel,
            ends: begun.ends,
        }))
    }

    // A command with room waits behind the others.
    fn wait(&mut self, command: Waiting)
        requires room { 0 < room_of (device_of self.old) }
        ensures { device_of self.new ≡ with_content (device_of self.old) (device_of self.old).channels ((device_of self.old).waiting ++ command ∷ []) }
    {
        self.waiting.push_back_reserved(command);
    }

    /// Takes a command that begins at this block and runs so many picoseconds. It starts now, on the first idle channel of
    /// those on which it may run, and is answered; or it waits, and the answer is None.
    pub fn take(
        &mut self,
        now: u64,
        number: u64,
        block: u64,
        service: u64,
    ) -> Result<Option<Start>, StepFault>
        ensures { (result, device_of self.new) ≡ take_of now number block service (device_of self.old) }
    {
        if self.room() == 0 {
            return Err(StepFault::NoRoom);
        }
        let reach = self.placement.reach(self.channels.len(), block);
        match self.idle_in(reach) {
            Some(channel) => self.start(channel, number, service, now),
            None => {
                self.wait(Waiting {
                    number,
                    service,
                    reach,
                });
                Ok(None)
            }
        }
    }

    /// The command of a channel ends. Where the channel isn't paused, the first waiting command that may run on it starts
    /// now, and is answered.
    pub fn finish(&mut self, now: u64, channel: usize) -> Result<Option<Start>, StepFault>
        ensures { (result, device_of self.new) ≡ finish_of now channel (device_of self.old) }
    {
        if channel >= self.channels.len() {
            return Err(StepFault::NoChannel);
        }
        let ending = self.channels[channel];
        if !ending.running {
            return Err(StepFault::NoCommand);
        }
        if now < ending.ends {
            return Err(StepFault::Early);
        }
        self.refill(channel, ending.freed(), now)
    }

    /// No command starts on a channel until it is resumed. A command that runs goes on.
    pub fn pause(&mut self, channel: usize) -> Result<(), StepFault>
        ensures { (result, device_of self.new) ≡ pause_of channel (device_of self.old) }
    {
        if channel >= self.channels.len() {
            return Err(StepFault::NoChannel);
        }
        let paused = self.channels[channel].paused();
        self.put(channel, paused);
        Ok(())
    }

    /// Commands may start on a channel again. Where none runs there, the first waiting command that may starts now, and is
    /// answered.
    pub fn resume(&mut self, now: u64, channel: usize) -> Result<Option<Start>, StepFault>
        ensures { (result, device_of self.new) ≡ resume_of now channel (device_of self.old) }
    {
        if channel >= self.channels.len() {
            return Err(StepFault::NoChannel);
        }
        let resumed = self.channels[channel].resumed();
        self.refill(channel, resumed, now)
    }
}
