//! What rests in a ring, for a thread that holds both of its ends.
ghost use Rattle.std.specs.Prelude.{◌≡◌, ◌+◌, ◌<◌, ◌≤◌, ◌++◌, length};
ghost use mathlib.Core.List.{IsPrefix};
ghost use Rattle.nvme_lane.specs.Limits.{max_slots};
ghost use Rattle.nvme_lane.specs.View.{IsPair, SamePut, SameGet};

use crate::get_end::GetEnd;
use crate::put_end::PutEnd;

/// The number of items that were put into a ring and not got. Afterwards the get end knows them, and gets just
/// these next, in order, and the put end knows how many places are free, no fewer than before.
pub fn beside<T: Copy>(put: &mut PutEnd<T>, get: &mut GetEnd<T>) -> u16
    requires { IsPair put.old get.old }
    ensures put_ring { SamePut put.old put.new }
    ensures sent { put.new.sent ≡ put.old.sent }
    ensures get_ring { SameGet get.old get.new }
    ensures got { get.new.got ≡ get.old.got }
    ensures known { IsPrefix get.old.known get.new.known }
    ensures rest { get.new.got ++ get.new.known ≡ put.new.sent }
    ensures count { result ≡ length get.new.known }
    ensures few { result < max_slots }
    ensures free { put.new.free + result + 1 ≡ put.new.slots }
    ensures no_smaller { put.old.free ≤ put.new.free }
{
    put.producer.slots_beside(&mut get.consumer);
    let resting = get.consumer.slots_beside(&mut put.producer) as u16;
    put.free = put.slots - 1 - resting;
    resting
}
