// Posts ready completions. (Base Specification, Completion Queue Entry)
ghost use Rattle.std.specs.Prelude.{◌≡◌, ◌<◌, [], ◌∷◌, ◌++◌, IfSome, IfNone};
ghost use Rattle.nvme_lane.specs.View.{SamePut};

use crate::front::FrontError;
use crate::log::{make_room, note};
use crate::state::FrontState;
use nvme_entry::Cqe;
use nvme_lane::PutEnd;
use nvme_log::Event;

// Puts a completion into a ring. The answer is the number of the ring's slots; none, which changes nothing, where it is
// full.
fn put(end: &mut PutEnd<Cqe>, cqe: &Cqe) -> Option<u16>
    ensures ring { SamePut end.old end.new }
    ensures slots { IfSome result (λ slots. (slots ≡ end.new.slots) × (0 < slots)) }
    ensures sent { IfSome result (λ slots. end.new.sent ≡ end.old.sent ++ cqe.now ∷ []) }
    ensures full { IfNone result ((end.new ≡ end.old) × (end.old.free ≡ 0)) }
{
    if end.put(*cqe).is_err() {
        return None;
    }
    Some(end.slots())
}

impl FrontState {
    ghost use Rattle.std.specs.Prelude.{◌≡◌, ◌≢◌, ℕ, ◌+◌, ◌<◌, length, Some, OnOk, true, false, ◌⊎◌, IfErr};
    ghost use Rattle.nvme_front.specs.inside.Room.{IsConsistent};
    ghost use Rattle.nvme_front.specs.inside.Goes.{Goes, IsSame, HasAdmin, IsDrained};
    ghost use Rattle.nvme_front.specs.inside.Loads.{PostsOnly};
    ghost use Rattle.nvme_front.specs.inside.State.{past_of, view_of};
    ghost use Rattle.nvme_front.specs.View.{NoneCanBePosted};
    ghost use Rattle.nvme_log.specs.Queues.{open_cq};
    ghost use Rattle.nvme_log.specs.Histories.{picks_in};
    ghost use Rattle.nvme_front.specs.declared.front.FrontError.TheVariants.{NoMemory, LogFull};

    // Posts the completion that became ready first in the completion queue on a region, if there is one and the ring takes
    // it.
    fn post_one(&mut self, cqid: u16, c: u8) -> Result<bool, FrontError>
        requires consistent { IsConsistent self.old }
        requires admin { HasAdmin self.old }
        requires is_open { open_cq (past_of self.old) cqid ≡ Some c }
        ensures consistent { IsConsistent self.new }
        ensures goes { Goes self.old self.new }
        ensures jobs { self.new.jobs ≡ self.old.jobs }
        ensures picks { picks_in self.new.log.items ≡ picks_in self.old.log.items }
        ensures posts { PostsOnly self.old self.new }
        ensures is_open { open_cq (past_of self.new) cqid ≡ Some c }
        ensures more { result ≡ Ok true → length self.new.log.items ≡ length self.old.log.items + 1 }
        ensures others { (x : ℕ) → x ≢ c → IsDrained self.old x → IsDrained self.new x }
        ensures still { result ≡ Ok false → IsSame self.old self.new × IsDrained self.old c }
        ensures full { result ≡ Err LogFull → self.new.config.max_events < length self.new.log.items + 1 }
        ensures no_stray { IfErr result (λ e. (e ≡ LogFull) ⊎ (e ≡ NoMemory)) }
    {
        let Some(cqe) = self.engine.next_post(cqid) else {
            return Ok(false);
        };
        make_room(&mut self.log, self.config.max_events, 1)?;
        let Some(slots) = put(&mut self.cqs[usize::from(c)], &cqe) else {
            return Ok(false);
        };
        let Some(place) = self.engine.post(cqid, slots) else {
            unreachable!()
        };
        note(
            &mut self.log,
            Event::Post {
                cq_region: c,
                region: place.region,
                index: place.index,
                cqe,
            },
        );
        Ok(true)
    }

    // Posts the ready completions of the completion queue on a region until its ring is full.
    fn post_region(&mut self, cqid: u16, c: u8) -> Result<bool, FrontError>
        requires consistent { IsConsistent self.old }
        requires admin { HasAdmin self.old }
        requires is_open { open_cq (past_of self.old) cqid ≡ Some c }
        ensures consistent { IsConsistent self.new }
        ensures goes { Goes self.old self.new }
        ensures jobs { self.new.jobs ≡ self.old.jobs }
        ensures picks { picks_in self.new.log.items ≡ picks_in self.old.log.items }
        ensures posts { PostsOnly self.old self.new }
        ensures more { result ≡ Ok true → length self.old.log.items < length self.new.log.items }
        ensures others { (x : ℕ) → x ≢ c → IsDrained self.old x → IsDrained self.new x }
        ensures drained { OnOk result (IsDrained self.new c) }
        ensures still { result ≡ Ok false → IsSame self.old self.new }
        ensures full { result ≡ Err LogFull → self.new.config.max_events < length self.new.log.items + 1 }
        ensures no_stray { IfErr result (λ e. (e ≡ LogFull) ⊎ (e ≡ NoMemory)) }
    {
        let mut posted = false;
        while self.post_one(cqid, c)? {
            posted = true;
        }
        Ok(posted)
    }

    // Posts the ready completions of a completion queue, if it is open.
    fn post_queue(&mut self, cqid: u16) -> Result<bool, FrontError>
        requires consistent { IsConsistent self.old }
        requires admin { HasAdmin self.old }
        ensures consistent { IsConsistent self.new }
        ensures goes { Goes self.old self.new }
        ensures jobs { self.new.jobs ≡ self.old.jobs }
        ensures picks { picks_in self.new.log.items ≡ picks_in self.old.log.items }
        ensures posts { PostsOnly self.old self.new }
        ensures more { result ≡ Ok true → length self.old.log.items < length self.new.log.items }
        ensures others { (x : ℕ) → IsDrained self.old x → OnOk result (IsDrained self.new x) }
        ensures drained { OnOk result ((x : ℕ) → open_cq (past_of self.new) cqid ≡ Some x → IsDrained self.new x) }
        ensures still { result ≡ Ok false → IsSame self.old self.new }
        ensures full { result ≡ Err LogFull → self.new.config.max_events < length self.new.log.items + 1 }
        ensures no_stray { IfErr result (λ e. (e ≡ LogFull) ⊎ (e ≡ NoMemory)) }
    {
        let Some(c) = self.engine.cq_region(cqid) else {
            return Ok(false);
        };
        self.post_region(cqid, c)
    }

    /// Posts the ready completions of each completion queue until its ring is full. The answer is whether any was posted.
    pub fn post(&mut self) -> Result<bool, FrontError>
        requires consistent { IsConsistent self.old }
        requires admin { HasAdmin self.old }
        ensures consistent { IsConsistent self.new }
        ensures goes { Goes self.old self.new }
        ensures jobs { self.new.jobs ≡ self.old.jobs }
        ensures picks { picks_in self.new.log.items ≡ picks_in self.old.log.items }
        ensures posts { PostsOnly self.old self.new }
        ensures more { result ≡ Ok true → length self.old.log.items < length self.new.log.items }
        ensures drained { OnOk result (NoneCanBePosted (view_of self.new)) }
        ensures still { result ≡ Ok false → IsSame self.old self.new }
        ensures full { result ≡ Err LogFull → self.new.config.max_events < length self.new.log.items + 1 }
        ensures no_stray { IfErr result (λ e. (e ≡ LogFull) ⊎ (e ≡ NoMemory)) }
    {
        if !self.engine.has_ready() {
            return Ok(false);
        }
        let mut posted = false;
        for cqid in 0..self.engine.queues() {
            if self.post_queue(cqid)? {
                posted = true;
            }
        }
        Ok(posted)
    }
}
