//! How a ring is made.
ghost use Rattle.std.specs.Prelude.{◌≡◌, ◌↔◌, ◌+◌, [], IfOk};
ghost use Rattle.nvme_lane.specs.Limits.{min_slots, max_slots, IsOutside};
ghost use Rattle.nvme_lane.specs.View.{IsPair};

use crate::errors::LaneError;
use crate::get_end::GetEnd;
use crate::limits::{MAX_SLOTS, MIN_SLOTS, is_outside};
use crate::put_end::PutEnd;
use rtrb::RingBuffer;
use std::alloc::Global;

/// A ring at an address with the given number of slots: it holds one item less. `Size` exactly where the number of
/// slots is outside `MIN_SLOTS` to `MAX_SLOTS`; `NoMemory` where an allocation was refused.
pub fn ring<T: Copy>(
    alloc: Global,
    address: u64,
    slots: u16,
) -> Result<(PutEnd<T>, GetEnd<T>), LaneError>
    ensures size { (result ≡ Err LaneError.Size) ↔ IsOutside slots min_slots max_slots }
    ensures pair { IfOk result (λ r. IsPair r.0 r.1) }
    ensures address { IfOk result (λ r. r.0.address ≡ address) }
    ensures slots { IfOk result (λ r. r.0.slots ≡ slots) }
    ensures nothing_sent { IfOk result (λ r. r.0.sent ≡ []) }
    ensures all_free { IfOk result (λ r. r.0.free + 1 ≡ slots) }
    ensures nothing_got { IfOk result (λ r. r.1.got ≡ []) }
    ensures nothing_known { IfOk result (λ r. r.1.known ≡ []) }
{
    if is_outside(slots, MIN_SLOTS, MAX_SLOTS) {
        return Err(LaneError::Size);
    }
    let Ok((producer, consumer)) = RingBuffer::new(alloc, usize::from(slots - 1)) else {
        return Err(LaneError::NoMemory);
    };
    let put_end = PutEnd {
        producer,
        address,
        slots,
        free: slots - 1,
    };
    let get_end = GetEnd {
        consumer,
        address,
        slots,
    };
    Ok((put_end, get_end))
}
