// What open queues ask for and what a device can do, in parts of a channel, rounded down; whether more commands come than it
// can run.
ghost use Rattle.std.specs.Prelude.{◌≡◌, ◌+◌, ◌*◌, ◌^◌, ◌<◌, ◌↔◌, Some, IsSome, IfSome, map, unwrap_or};
ghost use Rattle.nvme_clock.specs.Quantiles.{values_of};
ghost use Rattle.nvme_model_form.specs.Views.{OneOfTwo, asking_of, running_of, spread_of, taking_of};
ghost use Rattle.nvme_simulate.specs.Loads.{capacity_of, mean_between, mean_of, mean_service, mean_taken, offered_by, offered_in, part_of};

use nvme_clock::{Quantiles, TwoPoints};
use nvme_load::{Arrivals, Distribution, Mix, Service};
use nvme_model::{Device, Model, Queue};
use std::fmt;

// The millionths of a load of 1, or of a channel.
pub(crate) const MILLIONTHS: u128 = 1_000_000;

// Millionths in a thousandth.
const PER_THOUSANDTH: u128 = 1_000;

/// More commands come of open queues, whose hosts wait for no completion, than the channels of a device can run.
#[derive(Clone, Copy)]
pub struct Overload<'a> {
    model: &'a Model,
    /// The sum over the open queues of their commands in a time, times the mean time that each runs, in millionths of a
    /// channel.
    pub offered: u128,
    /// What the channels can do, less their pauses, in millionths of a channel.
    pub capacity: u128,
}

// A part of a sum of parts of a number.
pub(crate) fn part(number: u128, part: u128, whole: u128) -> u128
    ensures { result ≡ part_of number part whole }
{
    let product = number.saturating_mul(part);
    product.checked_div(whole).unwrap_or(0)
}

// The mean of one of two times.
fn mean_of_two(points: &TwoPoints) -> u128
    ensures value { result ≡ mean_of (OneOfTwo points.now.usual points.now.rare points.now.times points.now.out_of) }
    ensures below { result < 2 ^ 64 }
{
    let rare = points.times.min(points.out_of);
    let usual = points.out_of.saturating_sub(rare);
    let sum = u128::from(points.usual)
        .saturating_mul(u128::from(usual))
        .saturating_add(u128::from(points.rare).saturating_mul(u128::from(rare)));
    part(sum, 1, u128::from(points.out_of))
}

// The mean of times between quantiles: each step counts with the mean of its two ends.
fn mean_of_table(table: &Quantiles) -> u128
    ensures value { result ≡ mean_between (values_of table.now) }
    ensures below { result < 2 ^ 64 }
{
    let values = table.values();
    let mut twice = 0u128;
    for value in values {
        twice = twice.saturating_add(u128::from(*value).saturating_mul(2));
    }
    let first = values.first().copied().unwrap_or(0);
    let last = values.last().copied().unwrap_or(0);
    let inner = twice.saturating_sub(u128::from(first).saturating_add(u128::from(last)));
    let steps = values.len().saturating_sub(1) as u128;
    part(inner, 1, steps.saturating_mul(2))
}

// The mean of a distribution.
fn mean_of(distribution: &Distribution) -> u128
    ensures value { result ≡ mean_of (spread_of distribution.now) }
    ensures below { result < 2 ^ 64 }
{
    match distribution {
        Distribution::Fixed(time) => u128::from(*time),
        Distribution::Exponential(mean) => u128::from(mean.picoseconds),
        Distribution::TwoPoints(points) => mean_of_two(points),
        Distribution::Quantiles(table) => mean_of_table(table),
    }
}

// The mean time of a command with so many blocks.
fn service_of(service: &Service, blocks: u32) -> u128
    ensures value { result ≡ mean_taken (taking_of service.now) blocks }
    ensures below { result < 2 ^ 64 * (blocks + 1) }
{
    let of_blocks = u128::from(service.per_block).saturating_mul(u128::from(blocks));
    mean_of(&service.time).saturating_add(of_blocks)
}

// The mean time of a queue's commands.
pub(crate) fn mean_service(queue: &Queue) -> u128
    ensures { result ≡ mean_service (asking_of queue.now) }
{
    let Mix { read, write, flush } = queue.mix;
    let (read, write, flush) = (u128::from(read), u128::from(write), u128::from(flush));
    let blocks = queue.places.extent.blocks;
    let services = &queue.services;
    let reads = service_of(&services.read, blocks).saturating_mul(read);
    let writes = service_of(&services.write, blocks).saturating_mul(write);
    let flushes = mean_of(&services.flush).saturating_mul(flush);
    let sum = reads.saturating_add(writes).saturating_add(flushes);
    part(sum, 1, read.saturating_add(write).saturating_add(flush))
}

// The load of commands that run so long, of which one comes in each gap, in so many parts of a channel.
fn load(service: u128, gap: u64, parts: u128) -> u128
    ensures { result ≡ part_of service parts gap }
{
    part(service, parts, u128::from(gap))
}

// What an open queue asks for, in so many parts of a channel. None of a closed host, which waits for completions, and of a
// list, which ends.
fn offered_by(queue: &Queue, parts: u128) -> Option<u128>
    ensures { result ≡ offered_by parts (asking_of queue.now) }
{
    let service = mean_service(queue);
    match &queue.arrivals {
        Arrivals::Poisson(mean) => Some(load(service, mean.picoseconds, parts)),
        Arrivals::Regular(gap) => Some(load(service, gap.picoseconds, parts)),
        Arrivals::OnOff(phases) => {
            let cycle = u128::from(phases.on).saturating_add(u128::from(phases.off));
            let busy = load(service, phases.mean.picoseconds, parts);
            Some(part(busy, u128::from(phases.on), cycle))
        }
        Arrivals::Closed(_) | Arrivals::Replay(_) => None,
    }
}

// What all open queues ask for, in so many parts of a channel. None where no queue is open.
pub(crate) fn offered_to(model: &Model, parts: u128) -> Option<u128>
    ensures { result ≡ offered_in parts (map asking_of model.now.queues.items) }
{
    let mut sum: Option<u128> = None;
    for queue in &model.queues {
        if let Some(offered) = offered_by(queue, parts) {
            sum = Some(sum.unwrap_or(0).saturating_add(offered));
        }
    }
    sum
}

// What the channels can do, less their pauses, in so many parts of a channel.
pub(crate) fn capacity_of(device: &Device, parts: u128) -> u128
    ensures { result ≡ capacity_of parts (running_of device.now) }
{
    let whole = (device.channels as u128).saturating_mul(parts);
    match device.pauses {
        Some(pauses) => {
            let runs = pauses.every.saturating_sub(pauses.length);
            part(whole, u128::from(runs), u128::from(pauses.every))
        }
        None => whole,
    }
}

/// Whether more commands come of a model's open queues than its device can run, so that ever more wait as time goes on.
pub fn overload_of(model: &Model) -> Option<Overload<'_>>
    ensures told { IsSome result
        ↔ (capacity_of 1_000_000 (running_of model.now.device) < unwrap_or (offered_in 1_000_000 (map asking_of model.now.queues.items)) 0) }
    ensures offered { IfSome result (λ o. offered_in 1_000_000 (map asking_of model.now.queues.items) ≡ Some o.offered) }
    ensures capacity { IfSome result (λ o. o.capacity ≡ capacity_of 1_000_000 (running_of model.now.device)) }
{
    let offered = offered_to(model, MILLIONTHS).unwrap_or(0);
    let capacity = capacity_of(&model.device, MILLIONTHS);
    if offered > capacity {
        Some(Overload {
            model,
            offered,
            capacity,
        })
    } else {
        None
    }
}

// Millionths, told in thousandths.
#[derive(Clone, Copy)]
struct Thousandths(u128);

impl fmt::Display for Thousandths {
    fn fmt<W: fmt::Write>(&self, f: &mut fmt::Formatter<W>) -> fmt::Result {
        let thousandths = self.0 / PER_THOUSANDTH;
        let (whole, rest) = (thousandths / 1_000, thousandths % 1_000);
        write!(f, "{whole}.{rest:03}")
    }
}

impl Overload<'_> {
    // Writes the numbers of the open queues.
    fn write_queues<W: fmt::Write>(&self, f: &mut fmt::Formatter<W>) -> fmt::Result {
        let mut before = "queues ";
        for (index, queue) in self.model.queues.iter().enumerate() {
            if offered_by(queue, MILLIONTHS).is_some() {
                let number = index.saturating_add(1);
                write!(f, "{before}{number}")?;
                before = ", ";
            }
        }
        Ok(())
    }
}

impl fmt::Display for Overload<'_> {
    fn fmt<W: fmt::Write>(&self, f: &mut fmt::Formatter<W>) -> fmt::Result {
        self.write_queues(f)?;
        let (offered, capacity) = (Thousandths(self.offered), Thousandths(self.capacity));
        write!(
            f,
            ": the offered load is {offered} channels, and the device can do {capacity}: ever more commands wait"
        )
    }
}
