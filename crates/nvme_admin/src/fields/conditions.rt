ghost use Rattle.std.specs.Prelude.{◌≡◌, ◌==◌, ◌||◌, ◌+◌, ◌<◌, ◌≤◌, not, nat_lt, length, is_some, IfSome, Some};
ghost use Rattle.std.specs.List.{list_any};
ghost use Rattle.nvme_admin.specs.QueueTable.{region_number, nsqr_of, ncqr_of};
ghost use Rattle.nvme_admin.specs.Checks.{is_free, is_fit, attaches};
ghost use Rattle.nvme_admin.specs.Standing.{used_at};
ghost use Rattle.nvme_admin.specs.Layout.{flags_in, sq_of_place};
ghost use Rattle.nvme_admin.specs.declared.layout.SqPlace.{SqPlace};

use crate::bounds::{MAX_QSIZE, MAX_REGIONS};
use crate::layout::{Flag, SqPlace};
use crate::region::Region;

// The number of the region at an address.
fn number_of(regions: &[Region], address: u64) -> Option<usize>
    ensures { result ≡ region_number regions.now address }
{
    regions.iter().position(|r| r.address == address)
}

// Whether one of these regions has the address.
pub(super) fn is_address(regions: &[Region], address: u64) -> bool
    ensures { result ≡ is_some (region_number regions.now address) }
{
    number_of(regions, address).is_some()
}

// Whether a region has the given number of slots and is unused.
fn is_fit_at(regions: &[Region], used: &[Flag], number: usize, slots: u16) -> bool
    requires there { number < length regions.now }
    requires covered { length regions.now ≤ length used.now }
    ensures { result ≡ is_fit regions.now (used_at (flags_in used.now)) slots (Some number) }
{
    regions[number].slots == slots && !used[number].is_up()
}

// The number of the unused region at an address, where it has the given number of slots.
pub(super) fn free_region(regions: &[Region], used: &[Flag], address: u64, slots: u16) -> Option<u8>
    requires covered { length regions.now ≤ length used.now }
    requires few { length used.now ≤ MAX_REGIONS }
    ensures free { is_some result ≡ is_free regions.now (used_at (flags_in used.now)) address slots }
    ensures number { IfSome result (λ k. region_number regions.now address ≡ Some k) }
    ensures bound { IfSome result (λ k. k < length regions.now) }
{
    let number = number_of(regions, address)?;
    if is_fit_at(regions, used, number, slots) {
        Some(number as u8)
    } else {
        None
    }
}

// Whether the queue of a place is attached to a completion queue.
fn attaches_to(place: &SqPlace, cqid: u16) -> bool
    ensures { result ≡ attaches cqid (sq_of_place place.now) }
{
    match place.get() {
        Some(queue) => queue.cqid == cqid,
        None => false,
    }
}

// Whether a queue of one of these places is attached to a completion queue.
pub(super) fn any_attached(places: &[SqPlace], cqid: u16) -> bool
    ensures { result ≡ list_any (λ (place : SqPlace). attaches cqid (sq_of_place place)) places.now }
{
    places.iter().any(|place| attaches_to(place, cqid))
}

// Whether a QSIZE is 0 or above the largest.
pub(super) fn is_bad_size(qsize: u16) -> bool
    ensures { result ≡ (qsize == 0 || nat_lt MAX_QSIZE qsize) }
{
    qsize == 0 || qsize > MAX_QSIZE
}

// Whether a request for Number of Queues has FFFFh in NSQR or NCQR.
pub(super) fn is_bad_request(cdw11: u32) -> bool
    ensures { result ≡ (nsqr_of cdw11 == 0xffff || ncqr_of cdw11 == 0xffff) }
{
    cdw11 % 0x1_0000 == 0xffff || cdw11 / 0x1_0000 == 0xffff
}
