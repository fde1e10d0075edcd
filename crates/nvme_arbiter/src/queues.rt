// The open queues as they lie in memory, with the masks in which the next ready one is found: queue q is at place q.
ghost use Rattle.std.specs.Prelude.{◌≡◌, option_map};
ghost use Rattle.nvme_arbiter.specs.Layout.{class_under};
ghost use Rattle.nvme_arbiter.specs.inside.Masks.{is_io};

use crate::bits::{from_bit, has_bit, lowest, with_bit};
use crate::limits::{HIGHEST_COUNT, HIGHEST_QID, QUEUE_LIMIT};
use crate::pick::{OpenQueue, Seen};
use crate::ready::ReadyQueues;
use crate::seek::is_wanted;
use crate::settings::Class;
use arrayvec::ArrayVec;

/// A queue of a board: 0 where it is closed, otherwise its class plus 1, and how many of its commands wait.
#[repr(C)]
#[derive(Clone, Copy, Debug, Drop)]
pub struct QueueFields {
    pub class: u16,
    pub count: u16,
}

/// The queues of a board, with a mask of the ready I/O queues of each class, from urgent to low: bit q - 1 is for queue
/// q. Any numbers are the queues of some board. No command waits in an I/O queue whose bit isn't set in the mask of its
/// class. A number that isn't a class of the identifier means that the queue is closed.
#[repr(C)]
#[derive(Clone, Copy, Debug, Drop)]
pub struct QueuesFields {
    pub ready: [u64; 4],
    pub places: [QueueFields; QUEUE_LIMIT],
}

// The class with this number, where the queue of this identifier can have it.
#[inline(always)]
fn class_under(qid: u16, number: u16) -> Option<Class>
    ensures { result ≡ class_under qid number }
{
    if qid == 0 {
        return if number == 1 {
            Some(Class::Admin)
        } else {
            None
        };
    }
    match number {
        2 => Some(Class::Urgent),
        3 => Some(Class::High),
        4 => Some(Class::Medium),
        5 => Some(Class::Low),
        _ => None,
    }
}

// Whether this is the class of I/O queues.
#[inline(always)]
fn is_io(class: Option<Class>) -> bool
    ensures { result ≡ is_io class }
{
    match class {
        Some(Class::Urgent | Class::High | Class::Medium | Class::Low) => true,
        Some(Class::Admin) | None => false,
    }
}

/// The class of a queue, where it is open.
#[inline(always)]
pub fn class_of(found: Option<OpenQueue>) -> Option<Class>
    ensures { result ≡ option_map (λ o. o.class) found }
{
    match found {
        Some(queue) => Some(queue.class),
        None => None,
    }
}

impl QueuesFields {
    ghost use Rattle.std.specs.Prelude.{◌≡◌, ◌≤◌, IfNone, IfSome, IsSome, IsSomeAnd, MatchOption, Some, None, length, replicate, slice_set, option_map, false};
    ghost use Rattle.nvme_arbiter.specs.Limits.{highest_qid, queue_limit};
    ghost use Rattle.nvme_arbiter.specs.Observation.{IsObservation, IsSeen, class_in, is_wanted};
    ghost use Rattle.nvme_arbiter.specs.Queues.{seen_of, seen_as, queue_at, fewer, FitsUnder};
    ghost use Rattle.nvme_arbiter.specs.Layout.{class_under, mask_in, is_marked, slot_in, slots_in};
    ghost use Rattle.nvme_arbiter.specs.inside.Masks.{IsFirstFrom, IsWantedAt, NoneFrom, mask_for, marked_with, passes, with_mask};

    /// No queue is open.
    pub fn new() -> QueuesFields
        ensures { slots_in result ≡ replicate queue_limit None }
    {
        QueuesFields {
            ready: [0; 4],
            places: [QueueFields { class: 0, count: 0 }; QUEUE_LIMIT],
        }
    }

    /// Law: any numbers are an observation, with a place for each identifier.
    pub fn are_observed(&self)
        ensures observed { IsObservation (seen_of (slots_in self.now)) }
        ensures size { length (slots_in self.now) ≡ queue_limit }
    {}

    /// Law: a queue is seen in the class in which it is open.
    pub fn seen_class(&self, qid: u16, found: Option<OpenQueue>)
        requires { found ≡ queue_at (slots_in self.now) qid }
        ensures { class_in (seen_of (slots_in self.now)) qid ≡ option_map (λ o. o.class) found }
    {}

    /// The open queues by ascending identifier, as they are seen.
    pub fn seen(&self) -> ArrayVec<Seen, QUEUE_LIMIT>
        ensures { result.items ≡ seen_of (slots_in self.now) }
    {
        let mut seen = ArrayVec::new();
        for qid in 0..HIGHEST_QID + 1 {
            if let Some(queue) = self.queue(qid) {
                seen.push(Seen {
                    qid,
                    class: queue.class,
                    count: queue.count,
                });
            }
        }
        seen
    }

    // The mask of a class.
    #[inline(always)]
    fn mask_of(&self, class: Class) -> u64
        ensures { result ≡ mask_in self.now class }
    {
        match class {
            Class::Admin => 0,
            Class::Urgent | Class::High | Class::Medium | Class::Low => {
                self.ready[usize::from(class.number()) - 1]
            }
        }
    }

    // The mask of a class, or of all.
    #[inline(always)]
    fn mask_for(&self, class: Option<Class>) -> u64
        ensures { result ≡ mask_for self.now class }
    {
        match class {
            Some(class) => self.mask_of(class),
            None => self.ready[0] | self.ready[1] | self.ready[2] | self.ready[3],
        }
    }

    // Changes the mask of a class.
    #[inline(always)]
    fn put_mask(&mut self, class: Class, mask: u64)
        ensures { self.new ≡ with_mask self.old class mask }
    {
        match class {
            Class::Admin => {}
            Class::Urgent | Class::High | Class::Medium | Class::Low => {
                self.ready[usize::from(class.number()) - 1] = mask;
            }
        }
    }

    // Sets or clears the bit of a queue in the mask of a class.
    #[inline(always)]
    fn mark(&mut self, qid: u16, class: Class, on: bool)
        requires { qid ≤ highest_qid }
        ensures { self.new ≡ marked_with self.old qid class on }
    {
        if qid > 0 {
            let mask = with_bit(self.mask_of(class), qid - 1, on);
            self.put_mask(class, mask);
        }
    }

    // Sets or clears the bit of a queue in the mask of the class that has this number at its place.
    #[inline(always)]
    fn mark_number(&mut self, qid: u16, number: u16, on: bool)
        requires few { qid ≤ highest_qid }
        requires class { IsSome (class_under qid number) }
        ensures { IfSome (class_under qid number) (λ class. self.new ≡ marked_with self.old qid class on) }
    {
        if qid > 0 {
            let place = usize::from(number) - 2;
            self.ready[place] = with_bit(self.ready[place], qid - 1, on);
        }
    }

    // Whether a command may wait in an open queue.
    #[inline(always)]
    fn is_marked(&self, qid: u16, class: Class) -> bool
        requires { qid ≤ highest_qid }
        ensures { result ≡ is_marked self.now qid class }
    {
        match class {
            Class::Admin => true,
            Class::Urgent | Class::High | Class::Medium | Class::Low => {
                has_bit(self.mask_of(class), qid.saturating_sub(1))
            }
        }
    }

    // The queue at a place, where it is open with a class of its identifier.
    #[inline(always)]
    fn slot(&self, qid: u16, place: &QueueFields) -> Option<OpenQueue>
        requires { qid ≤ highest_qid }
        ensures { result ≡ slot_in self.now qid place.now }
    {
        let class = class_under(qid, place.class)?;
        let count = if self.is_marked(qid, class) {
            place.count.min(HIGHEST_COUNT)
        } else {
            0
        };
        Some(OpenQueue { class, count })
    }

    /// The queue of an identifier, where it is open.
    #[inline(always)]
    pub fn queue(&self, qid: u16) -> Option<OpenQueue>
        ensures is_there { result ≡ queue_at (slots_in self.now) qid }
        ensures fits { FitsUnder qid result }
    {
        if qid > HIGHEST_QID {
            None
        } else {
            self.slot(qid, &self.places[usize::from(qid)])
        }
    }

    /// Puts an open queue under an identifier.
    #[inline(always)]
    pub fn put(&mut self, qid: u16, queue: OpenQueue)
        requires { IsSeen (seen_as qid queue) }
        ensures is_put { slots_in self.new ≡ slice_set (slots_in self.old) qid (Some queue) }
        ensures observed { IsObservation (seen_of (slots_in self.new)) }
        ensures size { length (slots_in self.new) ≡ queue_limit }
    {
        self.places[usize::from(qid)] = QueueFields {
            class: queue.class.number() + 1,
            count: queue.count,
        };
        self.mark(qid, queue.class, queue.count > 0);
        self.are_observed();
    }

    /// Puts how many commands of an open queue wait. It keeps the number of its class.
    #[inline(always)]
    pub fn put_count(&mut self, qid: u16, queue: OpenQueue)
        requires there { IsSomeAnd (queue_at (slots_in self.old) qid) (λ there. there.class ≡ queue.class) }
        requires seen { IsSeen (seen_as qid queue) }
        ensures is_put { slots_in self.new ≡ slice_set (slots_in self.old) qid (Some queue) }
        ensures observed { IsObservation (seen_of (slots_in self.new)) }
        ensures size { length (slots_in self.new) ≡ queue_limit }
    {
        let number = self.places[usize::from(qid)].class;
        self.places[usize::from(qid)] = QueueFields {
            class: number,
            count: queue.count,
        };
        self.mark_number(qid, number, queue.count > 0);
        self.are_observed();
    }

    /// Closes the queue of an identifier, of this class where it is open.
    pub fn close(&mut self, qid: u16, class: Class)
        requires { qid ≤ highest_qid }
        ensures closed { slots_in self.new ≡ slice_set (slots_in self.old) qid None }
        ensures observed { IsObservation (seen_of (slots_in self.new)) }
        ensures size { length (slots_in self.new) ≡ queue_limit }
    {
        self.places[usize::from(qid)] = QueueFields { class: 0, count: 0 };
        self.mark(qid, class, false);
        self.are_observed();
    }

    /// Takes commands from the queue of an identifier, where it is open.
    #[inline(always)]
    pub fn take(&mut self, qid: u16, n: u16)
        ensures taken { slots_in self.new ≡ slice_set (slots_in self.old) qid (option_map (fewer n) (queue_at (slots_in self.old) qid)) }
        ensures observed { IsObservation (seen_of (slots_in self.new)) }
        ensures size { length (slots_in self.new) ≡ queue_limit }
    {
        let found = self.queue(qid);
        self.take_from(qid, found, n);
    }

    /// What `take` does, where the queue of the identifier is known already.
    #[inline(always)]
    pub fn take_from(&mut self, qid: u16, found: Option<OpenQueue>, n: u16)
        requires is_there { found ≡ queue_at (slots_in self.old) qid }
        requires fits { FitsUnder qid found }
        ensures taken { slots_in self.new ≡ slice_set (slots_in self.old) qid (option_map (fewer n) (queue_at (slots_in self.old) qid)) }
        ensures observed { IsObservation (seen_of (slots_in self.new)) }
        ensures size { length (slots_in self.new) ≡ queue_limit }
    {
        self.are_observed();
        if let Some(queue) = found {
            let queue = OpenQueue {
                class: queue.class,
                count: queue.count.saturating_sub(n),
            };
            self.put_count(qid, queue);
        }
    }

    // The queue of an identifier as it is seen, where it is ready and of a wanted class.
    #[inline(always)]
    fn wanted_at(&self, qid: u16, class: Option<Class>) -> Option<Seen>
        ensures some { IfSome result (λ seen. IsWantedAt (slots_in self.now) class qid seen) }
        ensures none { IfNone result (passes (is_wanted class) qid (queue_at (slots_in self.now) qid) ≡ false) }
    {
        let open = self.queue(qid)?;
        let seen = Seen {
            qid,
            class: open.class,
            count: open.count,
        };
        if is_wanted(&seen, class) {
            Some(seen)
        } else {
            None
        }
    }

    // The first wanted queue from an identifier on, by looking at one after another.
    fn scan(&self, class: Option<Class>, least: u16) -> Option<Seen>
        requires { least ≤ queue_limit }
        ensures { MatchOption result (NoneFrom (slots_in self.now) class least) (IsFirstFrom (slots_in self.now) class least) }
    {
        for qid in least..HIGHEST_QID + 1 {
            if let Some(seen) = self.wanted_at(qid, class) {
                return Some(seen);
            }
        }
        None
    }

    // The first wanted I/O queue from an identifier on. It is the first of the mask, unless the queue of that bit isn't
    // ready, which no call leaves behind.
    #[inline(always)]
    fn first_from(&self, class: Option<Class>, least: u16) -> Option<Seen>
        requires some { 1 ≤ least }
        requires few { least ≤ queue_limit }
        ensures { MatchOption result (NoneFrom (slots_in self.now) class least) (IsFirstFrom (slots_in self.now) class least) }
    {
        let Some(bit) = lowest(from_bit(self.mask_for(class), least - 1)) else {
            return None;
        };
        match self.wanted_at(bit + 1, class) {
            Some(seen) => Some(seen),
            None => self.scan(class, least),
        }
    }
}

impl ReadyQueues for QueuesFields {
    ghost use Rattle.nvme_arbiter.specs.Queues.{seen_of};
    ghost use Rattle.nvme_arbiter.specs.Layout.{slots_in};

    ghost seen = { λ b. seen_of (slots_in b) };

    #[inline(always)]
    fn first(&self, class: Option<Class>) -> Option<Seen> {
        if is_io(class) {
            return self.first_from(class, 1);
        }
        match self.wanted_at(0, class) {
            Some(seen) => Some(seen),
            None => self.first_from(class, 1),
        }
    }

    // No class has a ready queue whose mask has no bit, nor has the admin queue's where nothing waits in it.
    #[inline(always)]
    fn has_none(&self, class: Option<Class>) -> bool {
        if is_io(class) {
            self.mask_for(class) == 0
        } else {
            class.is_some() && self.places[0].count == 0
        }
    }

    #[inline(always)]
    fn first_above(&self, class: Option<Class>, last: u16) -> Option<Seen> {
        if last >= HIGHEST_QID {
            None
        } else {
            self.first_from(class, last + 1)
        }
    }

    #[inline(always)]
    fn class_of(&self, qid: u16) -> Option<Class> {
        class_of(self.queue(qid))
    }
}
