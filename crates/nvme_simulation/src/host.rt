// The host of a queue.
ghost use Rattle.std.specs.Prelude.{◌≡◌, ◌<◌, ◌+◌, ◌*◌, ◌/◌, ◌%◌, ◌^◌};
ghost use Rattle.nvme_simulation.specs.Entries.{IsEntryOf};

use crate::creates::entry;
use crate::fault::{Broken, SimulationFault};
use crate::flight::{Flight, Flights, Request};
use nvme_arbiter::Class;
use nvme_clock::{Purpose, stream};
use nvme_entry::Sqe;
use nvme_load::{Arrivals, Mix, Operation, Places, Services};
use nvme_model::Queue;
use rand_xoshiro::Xoshiro256PlusPlus;
use std::alloc::Global;

// The streams of a queue.
#[derive(Drop)]
struct Streams {
    arrivals: Xoshiro256PlusPlus,
    services: Xoshiro256PlusPlus,
    operations: Xoshiro256PlusPlus,
    offsets: Xoshiro256PlusPlus,
}

// What a command does, its first block and how many it has.
#[derive(Clone, Copy, Drop)]
struct Asked {
    operation: Operation,
    block: u64,
    blocks: u32,
}

// The slot of a number in a ring, whose slots are filled in order.
fn slot_of(number: u64, slots: u16) -> u16
    requires some { 0 < slots }
    ensures { result ≡ number % slots }
{
    (number % u64::from(slots)) as u16
}

// The slot behind one in a ring.
fn slot_behind(slot: u16, slots: u16) -> u16 {
    if slot >= slots.saturating_sub(1) {
        0
    } else {
        slot + 1
    }
}

#[derive(Drop)]
pub(crate) struct Host {
    // The class of its queue, and how many slots each of its rings has.
    class: Class,
    slots: u16,
    arrivals: Arrivals,
    mix: Mix,
    places: Places,
    services: Services,
    streams: Streams,
    flights: Flights,
    // The numbers of the commands in the slots of the submission ring.
    ring: Vec<u32>,
    // The first slot of it that the controller hasn't read, as far as the host knows.
    head: u16,
    // The next slot of the completion ring to be read.
    read: u16,
}

impl Host {
    ghost use Rattle.std.specs.Prelude.{ℕ, None, IfOk, IfSome, OnOk, OnSome, nat_lt, true};
    ghost use Rattle.nvme_clock.specs.Streams.{stream_state};
    ghost use Rattle.nvme_clock.specs.declared.streams.Purpose.TheVariants as purpose;
    ghost use Rattle.nvme_load.specs.Arrivals.{at_start, ends_at, next_after, request_at};
    ghost use Rattle.nvme_simulation.specs.Asking.{Draws, IsAsked, IsPlaced, SameAsking, asking_of, words};
    ghost use Rattle.nvme_simulation.specs.Beginnings.{HasStreams, IsUnused};
    ghost use Rattle.nvme_simulation.specs.Loads.{load_in, load_of};
    ghost use Rattle.nvme_simulation.specs.Progress.{HasAsked, HostComesOne, HostEndsOne, HostGoesOn};
    ghost use Rattle.nvme_simulation.specs.Moving.{HostMoves};
    ghost use Rattle.nvme_simulation.specs.Resting.{HostRests};
    ghost use Rattle.nvme_simulation.specs.Rings.{Hears, IsFull, SubmitsAll};
    ghost use Rattle.nvme_simulation.specs.Stages.{AllDone, next_in};
    ghost use Rattle.nvme_simulation.specs.declared.flight.Stage.TheVariants as stage;

    // The host of a queue, which begins at time 0.
    pub(crate) fn new(
        alloc: Global,
        seed: u64,
        qid: u16,
        queue: Queue,
    ) -> Result<Host, SimulationFault>
        ensures load { IfOk result (λ h. load_of h ≡ load_in queue) }
        ensures none { IfOk result IsUnused }
        ensures streams { IfOk result (HasStreams seed qid) }
    {
        let Queue {
            class,
            slots,
            arrivals,
            mix,
            places,
            services,
        } = queue;
        let mut ring = Vec::new(alloc);
        if ring.resize(usize::from(slots), 0).is_err() {
            return Err(SimulationFault::Memory);
        }
        Ok(Host {
            class,
            slots,
            arrivals,
            mix,
            places,
            services,
            streams: Streams {
                arrivals: stream(seed, qid, Purpose::Arrivals),
                services: stream(seed, qid, Purpose::Services),
                operations: stream(seed, qid, Purpose::Sizes),
                offsets: stream(seed, qid, Purpose::Offsets),
            },
            flights: Flights::new(alloc),
            ring,
            head: 0,
            read: 0,
        })
    }

    // The class of its queue.
    pub(crate) fn class(&self) -> Class
        ensures { result ≡ self.now.class }
    {
        self.class
    }

    // Whether all its commands that came are done.
    pub(crate) fn is_done(&self) -> bool
        ensures { result ≡ true → AllDone self.now.flights }
    {
        self.flights.are_done()
    }

    // How many commands come at time 0.
    pub(crate) fn at_start(&self) -> u32
        ensures { result ≡ at_start self.now.arrivals }
    {
        self.arrivals.at_start()
    }

    // Whether its next command waits for a completion.
    pub(crate) fn is_closed(&self) -> bool
        ensures { result ≡ nat_lt 0 (at_start self.now.arrivals) }
    {
        self.at_start() > 0
    }

    // Whether no command comes any more: its list has ended.
    pub(crate) fn is_at_end(&self) -> bool
        ensures { result ≡ ends_at self.now.arrivals (next_in self.now.flights) }
    {
        self.arrivals.ends_at(self.flights.came())
    }

    // The next slot of the submission ring to be filled: each command is put into the slot behind the one before it.
    fn tail(&self) -> u16 {
        if self.slots == 0 {
            return 0;
        }
        slot_of(self.flights.submitted(), self.slots)
    }

    // Whether the submission ring has no free slot, as far as the host knows.
    fn is_full(&self) -> bool
        ensures { result ≡ true → IsFull self.now }
    {
        let submitted = self.flights.submitted();
        if self.slots == 0 || submitted == u64::MAX {
            return false;
        }
        slot_of(submitted + 1, self.slots) == self.head
    }

    // Whether all commands are submitted that the ring has room for.
    pub(crate) fn has_submitted(&self) -> bool
        ensures { result ≡ true → SubmitsAll self.now }
    {
        !self.flights.wait() || self.is_full()
    }

    // When the next command comes behind one that came at this time, or behind a completion at this time.
    pub(crate) fn next_after(&mut self, time: u64) -> Option<u64>
        ensures value { (result, words self.new.streams.arrivals) ≡ next_after self.old.arrivals (next_in self.old.flights) time (words self.old.streams.arrivals) }
        ensures flights { self.new.flights ≡ self.old.flights }
        ensures asking { asking_of self.new ≡ asking_of self.old }
        ensures rest { self.new ≡ record self.old { streams = record self.old.streams { arrivals = self.new.streams.arrivals } } }
    {
        let number = self.flights.came();
        self.arrivals
            .next_after(number, time, &mut self.streams.arrivals)
    }

    // Where a command lies that is drawn, and how many blocks it has.
    fn place(&mut self, operation: Operation) -> (u64, u32)
        ensures placed { IsPlaced (asking_of self.old) (asking_of self.new) operation result.0 result.1 }
        ensures same { SameAsking (asking_of self.old) (asking_of self.new) }
        ensures operations { self.new.streams.operations ≡ self.old.streams.operations }
        ensures services { self.new.streams.services ≡ self.old.streams.services }
        ensures flights { self.new.flights ≡ self.old.flights }
        ensures times { self.new.streams.arrivals ≡ self.old.streams.arrivals }
        ensures head { self.new.head ≡ self.old.head }
    {
        if operation == Operation::Flush {
            return (0, 0);
        }
        let blocks = self.places.extent.blocks;
        (self.places.draw(&mut self.streams.offsets), blocks)
    }

    // What the next command does, where it lies and how many blocks it has: as its list says, or as is drawn.
    fn ask(&mut self) -> Asked
        ensures asked { IsAsked (request_at self.old.arrivals (next_in self.old.flights)) (asking_of self.old) (asking_of self.new) result }
        ensures same { SameAsking (asking_of self.old) (asking_of self.new) }
        ensures services { self.new.streams.services ≡ self.old.streams.services }
        ensures flights { self.new.flights ≡ self.old.flights }
        ensures times { self.new.streams.arrivals ≡ self.old.streams.arrivals }
        ensures head { self.new.head ≡ self.old.head }
    {
        if let Some(listed) = self.arrivals.request(self.flights.came()) {
            return Asked {
                operation: listed.operation,
                block: listed.block,
                blocks: listed.blocks,
            };
        }
        let operation = self.mix.draw(&mut self.streams.operations);
        let (block, blocks) = self.place(operation);
        Asked {
            operation,
            block,
            blocks,
        }
    }

    // What the next command asks for. None where it would run for 2^64 picoseconds or longer.
    fn draw(&mut self, counts: bool) -> Option<Request>
        ensures draws { IfSome result (Draws (next_in self.old.flights) (asking_of self.old) (asking_of self.new)) }
        ensures counts { IfSome result (λ request. request.counts ≡ counts) }
        ensures flights { self.new.flights ≡ self.old.flights }
        ensures times { self.new.streams.arrivals ≡ self.old.streams.arrivals }
        ensures head { self.new.head ≡ self.old.head }
    {
        let Asked {
            operation,
            block,
            blocks,
        } = self.ask();
        let service = self
            .services
            .draw(&mut self.streams.services, operation, blocks)?;
        Some(Request {
            operation,
            block,
            blocks,
            service,
            counts,
        })
    }

    // A command comes, and waits for a slot of the ring.
    pub(crate) fn come(&mut self, now: u64, counts: bool) -> Result<(), SimulationFault>
        ensures comes { OnOk result (HostComesOne now counts self.old self.new) }
        ensures rests { OnOk result (HostRests self.old self.new) }
    {
        let Some(request) = self.draw(counts) else {
            return Err(SimulationFault::TooLong);
        };
        match self.flights.come(now, request) {
            Ok(()) => Ok(()),
            Err(_) => Err(SimulationFault::Memory),
        }
    }

    // Puts the next command that waits into the ring, where the host knows a free slot. Whether it did.
    fn submit_one(&mut self, now: u64) -> bool
        ensures goes { HostGoesOn now self.old self.new }
        ensures rests { HostRests self.old self.new }
    {
        let tail = usize::from(self.tail());
        if self.is_full() || tail >= self.ring.len() {
            return false;
        }
        let Some(number) = self.flights.submit(now) else {
            return false;
        };
        self.ring[tail] = (number % 0x1_0000_0000) as u32;
        true
    }

    // Puts all commands that wait into the ring, as far as it has free slots. The answer is the new tail, if it moved.
    #[tactic(auto, using(crate::proofs::Progress::host_stays, crate::proofs::Progress::host_then, crate::proofs::Resting::host_rests, crate::proofs::Resting::rests_then))]
    pub(crate) fn submit(&mut self, now: u64) -> Option<u16>
        ensures goes { HostGoesOn now self.old self.new }
        ensures rests { HostRests self.old self.new }
    {
        let mut rings = false;
        for _turn in 0..self.ring.len() {
            if !self.submit_one(now) {
                break;
            }
            rings = true;
        }
        if rings { Some(self.tail()) } else { None }
    }

    // The controller reads the command in a slot of the ring: its number and its entry.
    pub(crate) fn fetch(&mut self, slot: u16) -> Result<(u32, Sqe), SimulationFault>
        ensures goes { (now : ℕ) → HostGoesOn now self.old self.new }
        ensures rests { HostRests self.old self.new }
    {
        let Some(number) = self.ring.get(usize::from(slot)).copied() else {
            return Err(SimulationFault::Broken(Broken::Slot));
        };
        match self.flights.fetch(u64::from(number)) {
            Some(request) => Ok((number, entry_of(number, &request))),
            None => Err(SimulationFault::Broken(Broken::Slot)),
        }
    }

    // A command is picked: what it asks for.
    pub(crate) fn pick(&mut self, now: u64, number: u32) -> Option<Request>
        ensures goes { HostGoesOn now self.old self.new }
        ensures asks { IfSome result (HasAsked number self.old.flights) }
        ensures moves { OnSome result (HostMoves number stage.Fetched now self.old self.new) }
    {
        self.flights.pick(now, u64::from(number))
    }

    // A command starts on a channel. False where it isn't picked, or runs.
    pub(crate) fn start(&mut self, now: u64, number: u32) -> bool
        ensures goes { HostGoesOn now self.old self.new }
        ensures moves { result ≡ true → HostMoves number stage.Picked now self.old self.new }
    {
        self.flights.start(now, u64::from(number))
    }

    // A command is done.
    pub(crate) fn finish(&mut self, number: u32) -> Option<Flight>
        ensures ends { (now : ℕ) → IfSome result (λ flight. HostEndsOne number now flight self.old self.new) }
        ensures none { result ≡ None → (now : ℕ) → HostGoesOn now self.old self.new }
        ensures rests { HostRests self.old self.new }
    {
        self.flights.finish(u64::from(number))
    }

    // The slot of the completion ring that the next completion comes into.
    pub(crate) fn next_completion(&self) -> u16 {
        self.read
    }

    // A completion comes, which tells how far the controller has read. The answer is the new head of its ring.
    pub(crate) fn completed(&mut self, sqhd: u16) -> u16
        ensures goes { (now : ℕ) → HostGoesOn now self.old self.new }
        ensures hears { Hears sqhd self.old self.new }
    {
        self.head = sqhd;
        self.read = slot_behind(self.read, self.slots);
        self.read
    }
}

// Bits 31:00 of a block's number, and bits 63:32.
fn low_half(block: u64) -> u32
    ensures { result ≡ block % 2 ^ 32 }
{
    (block % 0x1_0000_0000) as u32
}

fn high_half(block: u64) -> u32
    ensures { result ≡ block / 2 ^ 32 }
{
    (block / 0x1_0000_0000) as u32
}

// The entry of a command of namespace 1. Its identifier is its number, modulo 2^16. (NVM Command Set Specification, Flush,
// Write, Read)
fn entry_of(number: u32, request: &Request) -> Sqe
    ensures { IsEntryOf number request.now result }
{
    let cid = (number % 65_536) as u16;
    let low = low_half(request.block);
    let high = high_half(request.block);
    let nlb = request.blocks.saturating_sub(1);
    match request.operation {
        Operation::Flush => entry(0x00, cid, 1, 0, [0, 0, 0]),
        Operation::Write => entry(0x01, cid, 1, 0, [low, high, nlb]),
        Operation::Read => entry(0x02, cid, 1, 0, [low, high, nlb]),
    }
}
