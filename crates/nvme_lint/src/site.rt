// Where the region is that a Create names.
ghost use Rattle.std.specs.Prelude.{◌≡◌, ◌==◌, slice_get};
ghost use Rattle.std.specs.List.{position};
ghost use Rattle.nvme_lint.specs.Warnings.{cq_site_at, cq_slots, site_of, sq_site_at, sq_slots};

use nvme_entry::Sqe;
use nvme_workload::{CqPlan, SqPlan};

/// A region of a workload, by its number among those of its kind.
#[derive(Clone, Copy, Debug, PartialEq, Eq)]
pub struct Site {
    /// The number, counted from 0.
    pub number: usize,
    /// How many slots its ring has.
    pub slots: u16,
}

// The number of the submission region with this address.
fn sq_number_at(plans: &[SqPlan], address: u64) -> Option<usize>
    ensures { result ≡ position (λ r. r.address == address) plans.now }
{
    plans.iter().position(|plan| plan.address == address)
}

// The number of the completion region with this address.
fn cq_number_at(plans: &[CqPlan], address: u64) -> Option<usize>
    ensures { result ≡ position (λ r. r.address == address) plans.now }
{
    plans.iter().position(|plan| plan.address == address)
}

// The slots of a submission region, or 0 where there is none of this number.
fn sq_slots_at(plans: &[SqPlan], number: usize) -> u16
    ensures { result ≡ sq_slots (slice_get plans.now number) }
{
    match plans.get(number) {
        Some(plan) => plan.slots,
        None => 0,
    }
}

// The slots of a completion region, or 0 where there is none of this number.
fn cq_slots_at(plans: &[CqPlan], number: usize) -> u16
    ensures { result ≡ cq_slots (slice_get plans.now number) }
{
    match plans.get(number) {
        Some(plan) => plan.slots,
        None => 0,
    }
}

// The submission region with this address.
fn sq_site_at(plans: &[SqPlan], address: u64) -> Option<Site>
    ensures { result ≡ sq_site_at plans.now address }
{
    match sq_number_at(plans, address) {
        Some(number) => {
            let slots = sq_slots_at(plans, number);
            Some(Site { number, slots })
        }
        None => None,
    }
}

// The completion region with this address.
fn cq_site_at(plans: &[CqPlan], address: u64) -> Option<Site>
    ensures { result ≡ cq_site_at plans.now address }
{
    match cq_number_at(plans, address) {
        Some(number) => {
            let slots = cq_slots_at(plans, number);
            Some(Site { number, slots })
        }
        None => None,
    }
}

/// The region that a Create names by PRP1.
pub(crate) fn site_of(sqs: &[SqPlan], cqs: &[CqPlan], entry: &Sqe) -> Option<Site>
    ensures { result ≡ site_of sqs.now cqs.now entry.now }
{
    match entry.opcode {
        0x01 => sq_site_at(sqs, entry.prp1),
        0x05 => cq_site_at(cqs, entry.prp1),
        _ => None,
    }
}
