// How long commands of a model may wait for arbitration.
ghost use Rattle.std.specs.Prelude.{◌≡◌, ◌≤◌, if◌then◌else◌, IfOk, OnOk, length, map};
ghost use Rattle.nvme_bounds.specs.Before.{most_before};
ghost use Rattle.nvme_arbiter.specs.ByClass.{of_class};
ghost use Rattle.nvme_waits.specs.Bounds.{count_in, counts_in, is_in, time_of, unbounded};
ghost use Rattle.nvme_waits.specs.Texts.{reason_name, reason_words};
ghost use Rattle.nvme_waits.specs.Longest.{longest_drawn, longest_drawn_of, longest_in, longest_listed, longest_of, share_of};

use crate::texts::{put_key, put_table};
use crate::waits::Waits;
use nvme_arbiter::{ByClass, Class, Pick};
use nvme_bounds::{Queues, time_behind};
use nvme_channels::Placement;
use nvme_load::{Arrivals, Operation, Request, Services};
use nvme_model::{Device, Finished, Model, Queue};
use nvme_output::WriteFault;
use std::alloc::{AllocError, Global};
use std::io::Write;

// Once a device is full, each command that ends makes room for one.
const AT_A_TIME: u16 = 1;

/// Why there is no bound in time.
#[derive(Clone, Copy, Debug, PartialEq, Eq)]
pub enum NoBound {
    /// Nor is there one in commands: urgent ones may come without end.
    Urgent,
    /// Commands may wait for a stripe while other channels are idle.
    Striped,
    /// Channels may pause while commands wait.
    Pauses,
}

impl NoBound {
    /// Its name for tools.
    pub(crate) fn name(&self) -> &'static str
        ensures { result.now ≡ reason_name self.now }
    {
        match self {
            NoBound::Urgent => "urgent",
            NoBound::Striped => "striped",
            NoBound::Pauses => "pauses",
        }
    }

    /// The same for people.
    pub(crate) fn words(&self) -> &'static str
        ensures { result.now ≡ reason_words self.now }
    {
        match self {
            NoBound::Urgent => "urgent commands may come without end",
            NoBound::Striped => "none is told of striped devices",
            NoBound::Pauses => "none is told of devices that pause",
        }
    }
}

/// How long the commands of a queue may wait. Times are in picoseconds.
#[derive(Clone, Copy, Debug, PartialEq, Eq)]
pub struct Bound {
    pub class: Class,
    /// How many commands of others come before one at most. `None` where there is no bound.
    pub before: Option<u64>,
    /// The longest that a command may wait.
    pub time: Result<u128, NoBound>,
}

/// How long commands of the queues of a model may wait, and what is seen of them.
#[derive(Drop)]
pub struct Bounds {
    /// Those of the queues, of the identifiers 1, 2 and so on.
    pub queues: Vec<Bound>,
    /// The longest service of any command, in picoseconds.
    pub service: u64,
    pub(crate) waits: Waits,
}

// The share that an operation has of the commands of a queue that are drawn.
fn share_of(queue: &Queue, operation: Operation) -> u32
    ensures { result ≡ share_of queue.now.mix operation }
{
    match operation {
        Operation::Read => queue.mix.read,
        Operation::Write => queue.mix.write,
        Operation::Flush => queue.mix.flush,
    }
}

// The longest service of the commands of an operation that are drawn, and 0 where it has no share.
fn longest_drawn_of(queue: &Queue, operation: Operation) -> u64
    ensures { result ≡ longest_drawn_of queue.now operation }
{
    if share_of(queue, operation) == 0 {
        0
    } else {
        let blocks = queue.places.extent.blocks;
        queue.services.longest(operation, blocks)
    }
}

// The longest service of the commands of a queue that are drawn, whose operations have a share.
fn longest_drawn(queue: &Queue) -> u64
    ensures { result ≡ longest_drawn queue.now }
{
    let read = longest_drawn_of(queue, Operation::Read);
    let write = longest_drawn_of(queue, Operation::Write);
    let flush = longest_drawn_of(queue, Operation::Flush);
    read.max(write).max(flush)
}

// The longest service of the commands of a list.
fn longest_listed(services: &Services, requests: &[Request]) -> u64
    ensures { result ≡ longest_listed services.now requests.now }
{
    let mut longest = 0u64;
    for request in requests {
        longest = longest.max(services.longest(request.operation, request.blocks));
    }
    longest
}

// The longest service of the commands of a queue.
fn longest_in(queue: &Queue) -> u64
    ensures { result ≡ longest_in queue.now }
{
    match &queue.arrivals {
        Arrivals::Replay(list) => longest_listed(&queue.services, &list.requests),
        Arrivals::Poisson(_) | Arrivals::Regular(_) | Arrivals::OnOff(_) | Arrivals::Closed(_) =>
            longest_drawn(queue),
    }
}

// The longest service of the commands of queues.
fn longest_of_all(queues: &[Queue]) -> u64
    ensures { result ≡ longest_of queues.now }
{
    let mut longest = 0u64;
    for queue in queues {
        longest = longest.max(longest_in(queue));
    }
    longest
}

// Whether a queue is of a class, as a number.
fn one_if(queue: &Queue, class: Class) -> u16
    ensures value { result ≡ (if is_in class queue.now then 1 else 0) }
    ensures few { result ≤ 1 }
{
    if queue.class.number() == class.number() {
        1
    } else {
        0
    }
}

// How many queues a class has.
fn count_in(queues: &[Queue], class: Class) -> u16
    requires few { length queues.now ≤ 64 }
    ensures { result ≡ count_in queues.now class }
{
    let mut count = 0u16;
    for queue in queues {
        count += one_if(queue, class);
    }
    count
}

// How many queues each class has.
fn counts_in(queues: &[Queue]) -> ByClass<u16>
    requires few { length queues.now ≤ 64 }
    ensures { result ≡ counts_in queues.now }
{
    ByClass {
        admin: count_in(queues, Class::Admin),
        urgent: count_in(queues, Class::Urgent),
        high: count_in(queues, Class::High),
        medium: count_in(queues, Class::Medium),
        low: count_in(queues, Class::Low),
    }
}

// Why a device has no bound in time, if it has none.
fn unbounded(device: &Device) -> Option<NoBound>
    ensures { result ≡ unbounded device.now.placement device.now.pauses }
{
    match (device.placement, device.pauses) {
        (Placement::Striped(_), _) => Some(NoBound::Striped),
        (Placement::Pool, Some(_)) => Some(NoBound::Pauses),
        (Placement::Pool, None) => None,
    }
}

// How long it takes until so many commands and one more have ended.
fn time_of(device: &Device, before: Option<u64>, service: u64) -> Result<u128, NoBound>
    ensures { result ≡ time_of device.now before service }
{
    let Some(before) = before else {
        return Err(NoBound::Urgent);
    };
    if let Some(reason) = unbounded(device) {
        return Err(reason);
    }
    let least = (device.channels as u64).min(u64::from(device.depth));
    Ok(time_behind(before, least, service))
}

// The bound of a class.
fn bound_of(all: &Queues, device: &Device, service: u64, class: Class) -> Bound
    ensures { let before = most_before all.now.mechanism all.now.settings (of_class all.now.counts) 1 class in
        result ≡ record { class = class; before = before; time = time_of device.now before service } }
{
    let before = all.most_before(AT_A_TIME, class);
    Bound {
        class,
        before,
        time: time_of(device, before, service),
    }
}

impl Bounds {
    ghost use Rattle.nvme_waits.specs.Bounds.{bound_of, waits_in};
    ghost use Rattle.nvme_waits.specs.Longest.{longest_of};
    ghost use Rattle.nvme_output.specs.Written.{Writes};
    ghost use Rattle.nvme_waits.specs.Texts.{bounds_json, bounds_text};
    ghost use Rattle.nvme_waits.specs.Waits.{Ends, HasNoWait, Picks, longest_seen};

    /// Those of a model, of which no wait was seen.
    pub fn of(alloc: Global, model: &Model) -> Result<Bounds, AllocError>
        ensures queues { IfOk result (λ b. b.queues.items ≡ map (bound_of model.now) model.now.queues.items) }
        ensures service { IfOk result (λ b. b.service ≡ longest_of model.now.queues.items) }
        ensures waits { IfOk result (λ b. HasNoWait (length model.now.queues.items) (waits_in b)) }
    {
        let all = Queues {
            mechanism: model.mechanism,
            settings: model.settings,
            counts: counts_in(&model.queues),
        };
        let service = longest_of_all(&model.queues);
        let mut queues = Vec::new(alloc);
        for queue in &model.queues {
            queues.push(bound_of(&all, &model.device, service, queue.class))?;
        }
        Ok(Bounds {
            queues,
            service,
            waits: Waits::new(alloc, model)?,
        })
    }

    /// Commands of a queue are picked at this time, in picoseconds.
    pub fn pick(&mut self, at: u64, pick: &Pick) -> Result<(), AllocError>
        ensures waits { OnOk result (Picks at pick.now (waits_in self.old) (waits_in self.new)) }
        ensures queues { self.new.queues ≡ self.old.queues }
        ensures service { self.new.service ≡ self.old.service }
    {
        self.waits.pick(at, pick)
    }

    /// A command is done. Its wait is one of those that are told where numbers count it.
    pub fn finish(&mut self, command: &Finished, counts: bool)
        ensures waits { Ends command.now counts (waits_in self.old) (waits_in self.new) }
        ensures queues { self.new.queues ≡ self.old.queues }
        ensures service { self.new.service ≡ self.old.service }
    {
        self.waits.finish(command, counts);
    }

    /// The longest wait that was seen of a queue, by its identifier. `None` where none of its commands counts.
    pub fn longest(&self, queue: usize) -> Option<u64>
        ensures { result ≡ longest_seen (waits_in self.now) queue }
    {
        self.waits.longest(queue.checked_sub(1)?)
    }

    /// Writes a table for people: for each queue the longest wait, its bound, and how many commands come before one at most.
    /// Times are in microseconds. `WriteFault` where a write failed.
    pub fn write_text<W: Write>(&self, writer: &mut W) -> Result<(), WriteFault>
        ensures { Writes (W.contents writer.old) (W.contents writer.new) result (bounds_text self.now) }
    {
        put_table(self, writer)
    }

    /// Writes the same as a key of an object that is still open, and ends the object and the line. `WriteFault` where a write
    /// failed.
    pub fn write_json<W: Write>(&self, writer: &mut W) -> Result<(), WriteFault>
        ensures { Writes (W.contents writer.old) (W.contents writer.new) result (bounds_json self.now) }
    {
        put_key(self, writer)
    }
}
