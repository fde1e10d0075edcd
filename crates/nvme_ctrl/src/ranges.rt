// The ranges of the numbers of a controller and its slots, as they lie in memory.
ghost use Rattle.std.specs.Prelude.{◌≡◌};
ghost use Rattle.std.specs.List.{list_all};
ghost use Rattle.nvme_ctrl.specs.Ranges.{is_item, is_placed, is_link, is_chain, is_ring, is_attached, is_deletion, is_sq, is_cq};

use crate::state::{Controller, CqState, SqState};
use nvme_admin::MAX_REGIONS;
use nvme_slots::chain::Chain;
use nvme_slots::ring::Ring;
use nvme_slots::slot::{ANSWERED, DELETING, DROPPED, FREE, OUT, Slot, WAITING, slot_at};

impl Controller {
    ghost use Rattle.std.specs.Prelude.{◌≡◌, true};
    ghost use Rattle.nvme_ctrl.specs.Standing.{IsController};
    ghost use Rattle.nvme_ctrl.specs.Ranges.{has_counts, has_numbers, has_queues, is_in_range};

    /// Whether the numbers of the controller and of these slots are within their ranges: counts and limits, the head and
    /// tail of each ring, the identifiers of queues, and the chains, each as long as it says, linked within the pool, of
    /// slots that are used for it. Each controller with the slots that its calls were given is so; one that something
    /// else wrote into need not be. It looks at each slot, and is there to find faults. (profile)
    pub fn is_in_range(&self, slots: &[Slot]) -> bool
        ensures value { result ≡ is_in_range self.now slots.now }
        ensures kept { IsController self.now slots.now → result ≡ true }
    {
        self.has_ranges(slots)
    }

    // Whether all numbers are within their ranges.
    fn has_ranges(&self, slots: &[Slot]) -> bool
        ensures { result ≡ is_in_range self.now slots.now }
    {
        self.has_numbers(slots) && self.has_queues(slots) && are_placed(slots)
    }

    // Whether its own numbers are.
    fn has_numbers(&self, slots: &[Slot]) -> bool
        ensures { result ≡ has_numbers self.now slots.now }
    {
        self.board.arbiter.is_arbiter()
            && self.has_counts(slots)
            && is_chain(&self.free, slots, FREE, FREE)
    }

    // Whether those of its queues are.
    fn has_queues(&self, slots: &[Slot]) -> bool
        ensures { result ≡ has_queues self.now slots.now }
    {
        are_sqs(&self.sqs, slots) && are_cqs(&self.cqs, slots)
    }

    // Whether the counts are within their limits.
    fn has_counts(&self, slots: &[Slot]) -> bool
        ensures { result ≡ has_counts self.now slots.now }
    {
        usize::from(self.outstanding) <= slots.len()
            && self.picked <= self.sq(self.picked_qid).window.len
    }
}

// Whether a slot is one of the pool, and used as one of these states says.
fn is_item(slots: &[Slot], x: u16, lowest: u8, highest: u8) -> bool
    ensures { result ≡ is_item lowest highest slots.now x }
{
    if usize::from(x) >= slots.len() {
        return false;
    }
    let it = slot_at(slots, x);
    lowest <= it.state
        && it.state <= highest
        && (it.state == FREE || usize::from(it.sqid) < MAX_REGIONS)
        && (it.state < ANSWERED || it.sct < 8)
}

// Whether a command that the device has is of a queue.
fn is_placed(slot: &Slot) -> bool
    ensures { result ≡ is_placed slot.now }
{
    slot.state != OUT || usize::from(slot.sqid) < MAX_REGIONS
}

// Whether a slot can be the next one of a chain, with so many behind it.
fn is_link(chain: &Chain, slots: &[Slot], x: u16, behind: u16, lowest: u8, highest: u8) -> bool
    ensures { result ≡ is_link lowest highest slots.now chain.now.last x behind }
{
    is_item(slots, x, lowest, highest) && (behind > 0 || x == chain.last)
}

// Whether the commands that the device has are of queues.
fn are_placed(slots: &[Slot]) -> bool
    ensures { result ≡ list_all is_placed slots.now }
{
    slots.iter().all(|slot| is_placed(slot))
}

// Whether a chain is as long as it says, of slots that are used as one of these states says.
fn is_chain(chain: &Chain, slots: &[Slot], lowest: u8, highest: u8) -> bool
    ensures { result ≡ is_chain lowest highest slots.now chain.now }
{
    if usize::from(chain.len) > slots.len() {
        return false;
    }
    let mut x = chain.first;
    let mut left = chain.len;
    while left > 0 {
        left -= 1;
        if !is_link(chain, slots, x, left, lowest, highest) {
            return false;
        }
        x = slot_at(slots, x).next;
    }
    true
}

// Whether head and tail are slots of a ring.
fn is_ring(ring: &Ring) -> bool
    ensures { result ≡ is_ring ring.now }
{
    ring.slots == 0 || (ring.head < ring.slots && ring.tail < ring.slots)
}

// Whether the completions of a queue that has a ring go to a queue.
fn is_attached(sq: &SqState) -> bool
    ensures { result ≡ is_attached sq.now }
{
    sq.ring.slots == 0 || usize::from(sq.cqid) < MAX_REGIONS
}

// Whether a submission queue that is closing has the slot of a Delete.
fn is_deletion(sq: &SqState, slots: &[Slot]) -> bool
    ensures { result ≡ is_deletion slots.now sq.now }
{
    sq.closing == 0
        || (usize::from(sq.tag) < slots.len() && slot_at(slots, sq.tag).state == DELETING)
}

// Whether a submission queue is within its ranges, with commands that wait.
fn is_sq(sq: &SqState, slots: &[Slot]) -> bool
    ensures { result ≡ is_sq slots.now sq.now }
{
    is_ring(&sq.ring)
        && is_attached(sq)
        && is_deletion(sq, slots)
        && is_chain(&sq.window, slots, WAITING, WAITING)
}

// Whether a completion queue is within its ranges, with commands that ended.
fn is_cq(cq: &CqState, slots: &[Slot]) -> bool
    ensures { result ≡ is_cq slots.now cq.now }
{
    is_ring(&cq.ring) && is_chain(&cq.ready, slots, ANSWERED, DROPPED)
}

// Whether all submission queues are.
fn are_sqs(sqs: &[SqState], slots: &[Slot]) -> bool
    ensures { result ≡ list_all (is_sq slots.now) sqs.now }
{
    sqs.iter().all(|sq| is_sq(sq, slots))
}

// Whether all completion queues are.
fn are_cqs(cqs: &[CqState], slots: &[Slot]) -> bool
    ensures { result ≡ list_all (is_cq slots.now) cqs.now }
{
    cqs.iter().all(|cq| is_cq(cq, slots))
}
