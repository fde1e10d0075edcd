//! Drives the put end of a ring from a script.
ghost use Rattle.std.specs.Prelude.{◌≡◌, ◌≤◌, length, take};

use crate::contents::beside;
use crate::errors::Full;
use crate::get_end::GetEnd;
use crate::put_end::PutEnd;

/// What a feeder's step did.
#[derive(Clone, Copy, PartialEq, Eq, Debug)]
pub enum Feed {
    /// The next item of the script was put.
    Put,
    /// The ring had no free place for the next item.
    Full,
    /// The whole script was put before.
    Done,
}

/// A put end, with the script that it sends. Its type keeps that what was sent is the first
/// `count` items of the script, wherever the feeder comes from.
#[derive(Drop)]
pub struct Feeder<T: Copy> {
    script: Vec<T>,
    end: PutEnd<T>,
    count: usize,
    pub ghost in_script: { count ≤ length script.items },
    pub ghost accounted: { end.sent ≡ take count script.items },
}

impl<T: Copy> Feeder<T> {
    ghost use Rattle.std.specs.Prelude.{◌≡◌, ◌≢◌, ◌↔◌, ◌+◌, ◌-◌, ◌<◌, ◌≤◌, [], ◌++◌, length};
    ghost use mathlib.Core.List.{IsPrefix};
    ghost use Rattle.nvme_lane.specs.Limits.{max_slots};
    ghost use Rattle.nvme_lane.specs.View.{IsPair, SamePut, SameGet};
    ghost use Rattle.nvme_lane.specs.Feeder.{script_of, count_of, put_of};

    /// A feeder that has sent nothing.
    pub fn new(script: Vec<T>, end: PutEnd<T>) -> Feeder<T>
        requires { end.sent ≡ [] }
        ensures script { script_of result ≡ script.items }
        ensures count { count_of result ≡ 0 }
        ensures put { put_of result ≡ end }
    {
        Feeder {
            script,
            end,
            count: 0,
        }
    }

    /// Puts the next item of the script, where there is one and the ring takes it. `Full`, which never
    /// happens while `free` is above 0, and `Done`, exactly where the whole script was sent, change nothing.
    pub fn step(&mut self) -> Feed
        ensures script { script_of self.new ≡ script_of self.old }
        ensures ring { SamePut (put_of self.old) (put_of self.new) }
        ensures put { result ≡ Feed.Put → count_of self.new ≡ count_of self.old + 1 }
        ensures free { result ≡ Feed.Put → (put_of self.new).free ≡ (put_of self.old).free - 1 }
        ensures unchanged { result ≢ Feed.Put → (count_of self.new ≡ count_of self.old) × (put_of self.new ≡ put_of self.old) }
        ensures full { result ≡ Feed.Full → (put_of self.old).free ≡ 0 }
        ensures done { (result ≡ Feed.Done) ↔ (count_of self.old ≡ length (script_of self.old)) }
    {
        if self.count == self.script.len() {
            return Feed::Done;
        }
        match self.end.put(self.script[self.count]) {
            Ok(()) => {
                self.count += 1;
                Feed::Put
            }
            Err(Full(_)) => Feed::Full,
        }
    }

    /// How many items of the script were sent.
    pub fn count(&self) -> usize
        ensures { result ≡ count_of self.now }
    {
        self.count
    }

    /// The whole script, sent or not.
    pub fn script(&self) -> &[T]
        ensures { result.now ≡ script_of self.now }
    {
        self.script.as_slice()
    }

    /// The whole script, sent or not. The end is dropped.
    pub fn into_script(self) -> Vec<T>
        ensures { result.items ≡ script_of self }
    {
        let Feeder {
            script,
            end: _,
            count: _,
        } = self;
        script
    }

    /// The address of the ring.
    pub fn address(&self) -> u64
        ensures { result ≡ (put_of self.now).address }
    {
        self.end.address()
    }

    /// The number of items that rest in the ring, by `beside` of the feeder's end and this one.
    pub fn beside(&mut self, get: &mut GetEnd<T>) -> u16
        requires { IsPair (put_of self.old) get.old }
        ensures script { script_of self.new ≡ script_of self.old }
        ensures script_count { count_of self.new ≡ count_of self.old }
        ensures put_ring { SamePut (put_of self.old) (put_of self.new) }
        ensures sent { (put_of self.new).sent ≡ (put_of self.old).sent }
        ensures get_ring { SameGet get.old get.new }
        ensures got { get.new.got ≡ get.old.got }
        ensures known { IsPrefix get.old.known get.new.known }
        ensures rest { get.new.got ++ get.new.known ≡ (put_of self.new).sent }
        ensures count { result ≡ length get.new.known }
        ensures few { result < max_slots }
        ensures free { (put_of self.new).free + result + 1 ≡ (put_of self.new).slots }
        ensures no_smaller { (put_of self.old).free ≤ (put_of self.new).free }
    {
        beside(&mut self.end, get)
    }
}
