// Scales the gaps of open queues, so that these ask for a part of what a device can do.
//
// Decided: a load is an option and a value of a sweep, and no key of the file, which says gaps. It depends on all
// services, channels and pauses, which a sweep may change too. Replays are no part of it: `speed` changes their times.
ghost use Rattle.std.specs.Prelude.{◌≡◌, ◌⊎◌, ◌↔◌, ℕ, None, Some, IfErr, IfNone, IfOk, IfSome, IsErrOf, OnOk, OnSome, map};
ghost use Rattle.nvme_clock.specs.declared.draws.TheConstants.{MAX_MEAN};
ghost use Rattle.nvme_model_form.specs.Views.{Replayed, asking_of, coming_of, running_of};
ghost use Rattle.nvme_simulate.specs.Loads.{offered_in};
ghost use Rattle.nvme_simulate.specs.Scaling.{AreScaled, HasLongGap, IsLongGapOf, IsTooLong, fine_parts, offered_of, scaled_asking, scaled_coming, scaled_gap, target_of};

use crate::loads::{MILLIONTHS, capacity_of, offered_to, part};
use crate::target::{Load, LoadFault};
use nvme_load::{Arrivals, Gap, Mean, Phases};
use nvme_model::{Model, Queue};

// The parts of a channel in which loads are told here.
const PARTS: u128 = 1_000_000_000_000_000;

// By what gaps are multiplied: what open queues ask for, divided by what they are to ask for, in parts of a channel.
#[derive(Clone, Copy)]
struct Ratio {
    offered: u128,
    target: u128,
}

// The ratio by which a model comes to a load. It is refused only where there is nothing to scale.
fn ratio_of(model: &Model, load: Load) -> Result<Ratio, LoadFault>
    ensures offered { IfOk result (λ r. r.offered ≡ offered_of model.now.queues.items) }
    ensures target { IfOk result (λ r. r.target ≡ target_of load.millionths (running_of model.now.device)) }
    ensures no_open_queue { IsErrOf result LoadFault.NoOpenQueue ↔ (offered_in fine_parts (map asking_of model.now.queues.items) ≡ None) }
    ensures no_service { IsErrOf result LoadFault.NoService ↔ (offered_in fine_parts (map asking_of model.now.queues.items) ≡ Some 0) }
    ensures refused { IfErr result (λ e. (e ≡ LoadFault.NoOpenQueue) ⊎ (e ≡ LoadFault.NoService)) }
{
    match offered_to(model, PARTS) {
        None => Err(LoadFault::NoOpenQueue),
        Some(0) => Err(LoadFault::NoService),
        Some(offered) => {
            let capacity = capacity_of(&model.device, PARTS);
            let target = part(capacity, u128::from(load.millionths), MILLIONTHS);
            Ok(Ratio { offered, target })
        }
    }
}

impl Ratio {
    // A gap times the ratio, rounded to the nearest picosecond, and at least 1. `None` only where it would be 2^64 picoseconds or
    // longer, where no load is to be reached, or where its reckoning has more than 128 bits. (No gap has that which would be
    // below 2^62 picoseconds.)
    fn gap(self, gap: u64) -> Option<u64>
        ensures some { IfSome result (λ g. g ≡ scaled_gap self.offered self.target gap) }
        ensures none { IfNone result (IsTooLong self.offered self.target 0xffff_ffff_ffff_ffff gap) }
    {
        let product = u128::from(gap).checked_mul(self.offered)?;
        let twice = product.checked_mul(2)?.checked_add(self.target)?;
        let nearest = twice.checked_div(self.target.checked_mul(2)?)?;
        match u64::try_from(nearest) {
            Ok(nearest) => Some(nearest.max(1)),
            Err(_) => None,
        }
    }

    // The mean of exponential gaps times the ratio. `None` only where it would be above `MAX_MEAN`, or where the ratio's gap is
    // refused.
    fn mean(self, mean: Mean) -> Option<Mean>
        ensures some { IfSome result (λ m. m.picoseconds ≡ scaled_gap self.offered self.target mean.picoseconds) }
        ensures none { IfNone result (IsTooLong self.offered self.target MAX_MEAN mean.picoseconds) }
    {
        match Mean::new(self.gap(mean.picoseconds)?) {
            Ok(mean) => Some(mean),
            Err(_) => None,
        }
    }

    // Arrivals with their gaps times the ratio. On and off phases stay, and so do closed hosts. `None` only where a gap would be
    // too long, and of a list, which has none.
    fn arrivals(self, arrivals: &Arrivals) -> Option<Arrivals>
        ensures some { IfSome result (λ a. coming_of a ≡ scaled_coming self.offered self.target (coming_of arrivals.now)) }
        ensures none { IfNone result ((coming_of arrivals.now ≡ Replayed) ⊎ HasLongGap self.offered self.target (coming_of arrivals.now)) }
    {
        match arrivals {
            Arrivals::Poisson(mean) => Some(Arrivals::Poisson(self.mean(*mean)?)),
            Arrivals::Regular(gap) => match Gap::new(self.gap(gap.picoseconds)?) {
                Ok(gap) => Some(Arrivals::Regular(gap)),
                Err(_) => None,
            },
            Arrivals::OnOff(phases) => {
                match Phases::new(self.mean(phases.mean)?, phases.on, phases.off) {
                    Ok(phases) => Some(Arrivals::OnOff(phases)),
                    Err(_) => None,
                }
            }
            Arrivals::Closed(host) => Some(Arrivals::Closed(*host)),
            Arrivals::Replay(_) => None,
        }
    }
}

// Scales the gaps of a queue. The times of a list stay. `None` only where gaps would be too long, and the queue stays as it is.
fn scale_one(queue: &mut Queue, ratio: Ratio) -> Option<()>
    ensures some { OnSome result (asking_of queue.new ≡ scaled_asking ratio.offered ratio.target (asking_of queue.old)) }
    ensures none { IfNone result (HasLongGap ratio.offered ratio.target (coming_of queue.old.arrivals)) }
{
    if let Arrivals::Replay(_) = &queue.arrivals {
        return Some(());
    }
    queue.arrivals = ratio.arrivals(&queue.arrivals)?;
    Some(())
}

// Scales the gaps of queues. An error tells the number of one whose gaps would be too long. After it some of them are scaled.
fn scale(queues: &mut [Queue], ratio: Ratio) -> Result<(), LoadFault>
    ensures ok { OnOk result (map asking_of queues.new ≡ map (scaled_asking ratio.offered ratio.target) (map asking_of queues.old)) }
    ensures err { IfErr result (λ e. (number : ℕ) × (e ≡ LoadFault.LongGap number)
        × IsLongGapOf ratio.offered ratio.target number (map asking_of queues.old)) }
{
    for (place, queue) in queues.iter_mut().enumerate() {
        if scale_one(queue, ratio).is_none() {
            return Err(LoadFault::LongGap(place + 1));
        }
    }
    Ok(())
}

/// The model with the gaps of its open queues multiplied by one ratio, so that what these ask for is this part of what its
/// device can do, as `overload_of` reckons both. So the rates keep their proportions. Closed hosts and lists stay.
///
/// What a queue asks for is reckoned down to 10^-15 of a channel, and each gap is then rounded to the nearest picosecond. So
/// the load is this part but for half a picosecond in each gap, which is one in 20 million of a gap of 10 microseconds. A gap
/// is at least a picosecond.
///
/// It is refused only where no queue is open, where the commands of the open queues take no time, or where the gaps of the
/// queue of the number that is told would be too long.
pub(crate) fn scaled(model: Model, load: Load) -> Result<Model, LoadFault>
    ensures mechanism { IfOk result (λ m. m.mechanism ≡ model.mechanism) }
    ensures settings { IfOk result (λ m. m.settings ≡ model.settings) }
    ensures device { IfOk result (λ m. m.device ≡ model.device) }
    ensures queues { IfOk result (λ m. AreScaled load.millionths model.device model.queues.items m.queues.items) }
    ensures seed { IfOk result (λ m. m.seed ≡ model.seed) }
    ensures end { IfOk result (λ m. m.end ≡ model.end) }
    ensures warm_up { IfOk result (λ m. m.warm_up ≡ model.warm_up) }
    ensures no_open_queue { IsErrOf result LoadFault.NoOpenQueue ↔ (offered_in fine_parts (map asking_of model.queues.items) ≡ None) }
    ensures no_service { IsErrOf result LoadFault.NoService ↔ (offered_in fine_parts (map asking_of model.queues.items) ≡ Some 0) }
    ensures refused { IfErr result (λ e. (e ≡ LoadFault.NoOpenQueue) ⊎ ((e ≡ LoadFault.NoService) ⊎ ((number : ℕ) × (e ≡ LoadFault.LongGap number)
        × IsLongGapOf (offered_of model.queues.items) (target_of load.millionths (running_of model.device)) number (map asking_of model.queues.items)))) }
{
    let ratio = ratio_of(&model, load)?;
    let mut model = model;
    scale(model.queues.as_mut_slice(), ratio)?;
    Ok(model)
}
