// The scan of the submission rings.
//
// Decided: room for the event is asked for before a get that the window has room for, so a turn on a full log answers
// `LogFull` wherever it would try a get.
//
// Decided: the front gets one entry at a time, since each has an event of its own. `put_some` and `get_some` are for an
// embedder who moves entries in batches.
ghost use Rattle.std.specs.Prelude.{◌+◌, ◌^◌, ◌<◌, length, vec_capacity};
ghost use Rattle.nvme_engine.specs.Standing.{IsEngine};
ghost use Rattle.nvme_front.specs.inside.Fetching.{FetchesOne};

use crate::front::FrontError;
use crate::log::{make_room, note};
use crate::region::SqRegion;
use crate::state::FrontState;
use nvme_engine::Engine;
use nvme_log::{Event, window_of};

// Fetches the next command of a region, which is known to come, for the queue on it. (A function of its own, so that
// where nothing comes no place is made for an entry.)
fn fetch(sq: &mut SqRegion, engine: &mut Engine, log: &mut Vec<Event>, qid: u16, region: u8)
    requires known { 0 < length sq.old.end.known }
    requires few { sq.old.fetched + 1 < 2 ^ 32 }
    requires engine { IsEngine engine.old }
    requires room { length log.old.items < vec_capacity log.old }
    ensures { FetchesOne qid region sq.old sq.new engine.old engine.new log.old.items log.new.items }
{
    let slots = sq.end.slots();
    let got = sq.get();
    engine.fetched(qid, slots, got.index, &got.entry);
    note(
        log,
        Event::Fetch {
            region,
            index: got.index,
            entry: got.entry,
        },
    );
}

impl FrontState {
    ghost use Rattle.std.specs.Prelude.{◌≡◌, ◌≢◌, ℕ, ◌+◌, ◌<◌, ◌≤◌, length, Option, Some, None, OnOk, IfErr, true, false, ◌⊎◌};
    ghost use Rattle.nvme_front.specs.inside.Room.{IsConsistent};
    ghost use Rattle.nvme_front.specs.inside.Goes.{Goes, IsSame, HasAdmin, IsScanned, AllScanned};
    ghost use Rattle.nvme_front.specs.inside.Loads.{Loads};
    ghost use Rattle.nvme_front.specs.inside.State.{past_of, view_of};
    ghost use Rattle.nvme_front.specs.View.{NoneCanBePosted};
    ghost use Rattle.nvme_log.specs.Queues.{pending};
    ghost use Rattle.nvme_log.specs.Histories.{picks_in};
    ghost use Rattle.nvme_front.specs.declared.front.FrontError.TheVariants.{NoMemory, LogFull};

    // Fetches one command of a queue, if the queue is open, its window has room and its ring gives one.
    fn fetch_one(&mut self, qid: u16) -> Result<bool, FrontError>
        requires consistent { IsConsistent self.old }
        requires admin { HasAdmin self.old }
        requires none_pending { pending (past_of self.old) ≡ None }
        ensures consistent { IsConsistent self.new }
        ensures goes { Goes self.old self.new }
        ensures loads { ((q : ℕ) → q < qid → IsScanned self.old q) → Loads self.old self.new }
        ensures cqs { self.new.cqs.items ≡ self.old.cqs.items }
        ensures jobs { self.new.jobs ≡ self.old.jobs }
        ensures picks { picks_in self.new.log.items ≡ picks_in self.old.log.items }
        ensures none_pending { pending (past_of self.new) ≡ None }
        ensures posted { NoneCanBePosted (view_of self.old) → NoneCanBePosted (view_of self.new) }
        ensures more { result ≡ Ok true → length self.new.log.items ≡ length self.old.log.items + 1 }
        ensures others { (q : ℕ) → q ≢ qid → IsScanned self.old q → IsScanned self.new q }
        ensures still { result ≡ Ok false → IsSame self.old self.new × IsScanned self.old qid }
        ensures full { result ≡ Err LogFull → self.new.config.max_events < length self.new.log.items + 1 }
        ensures no_stray { IfErr result (λ e. (e ≡ LogFull) ⊎ (e ≡ NoMemory)) }
    {
        let Some(region) = self.engine.sq_region(qid) else {
            return Ok(false);
        };
        let r = usize::from(region);
        let slots = self.sqs[r].end.slots();
        if self.engine.waiting(qid) >= window_of(slots) {
            return Ok(false);
        }
        make_room(&mut self.log, self.config.max_events, 1)?;
        let sq = &mut self.sqs[r];
        if sq.end.is_empty() {
            return Ok(false);
        }
        fetch(sq, &mut self.engine, &mut self.log, qid, region);
        Ok(true)
    }

    // Fetches from a queue until its window is full or its ring gives nothing.
    fn scan_queue(&mut self, qid: u16) -> Result<bool, FrontError>
        requires consistent { IsConsistent self.old }
        requires admin { HasAdmin self.old }
        requires none_pending { pending (past_of self.old) ≡ None }
        ensures consistent { IsConsistent self.new }
        ensures goes { Goes self.old self.new }
        ensures loads { ((q : ℕ) → q < qid → IsScanned self.old q) → Loads self.old self.new }
        ensures cqs { self.new.cqs.items ≡ self.old.cqs.items }
        ensures jobs { self.new.jobs ≡ self.old.jobs }
        ensures picks { picks_in self.new.log.items ≡ picks_in self.old.log.items }
        ensures none_pending { pending (past_of self.new) ≡ None }
        ensures posted { NoneCanBePosted (view_of self.old) → NoneCanBePosted (view_of self.new) }
        ensures more { result ≡ Ok true → length self.old.log.items < length self.new.log.items }
        ensures others { (q : ℕ) → q ≢ qid → IsScanned self.old q → IsScanned self.new q }
        ensures scanned { OnOk result (IsScanned self.new qid) }
        ensures still { result ≡ Ok false → IsSame self.old self.new }
        ensures full { result ≡ Err LogFull → self.new.config.max_events < length self.new.log.items + 1 }
        ensures no_stray { IfErr result (λ e. (e ≡ LogFull) ⊎ (e ≡ NoMemory)) }
    {
        let mut fetched = false;
        while self.fetch_one(qid)? {
            fetched = true;
        }
        Ok(fetched)
    }

    /// Fetches from each open queue by ascending identifier. The answer is whether anything was fetched.
    pub fn scan(&mut self) -> Result<bool, FrontError>
        requires consistent { IsConsistent self.old }
        requires admin { HasAdmin self.old }
        requires none_pending { pending (past_of self.old) ≡ None }
        ensures consistent { IsConsistent self.new }
        ensures goes { Goes self.old self.new }
        ensures loads { Loads self.old self.new }
        ensures cqs { self.new.cqs.items ≡ self.old.cqs.items }
        ensures jobs { self.new.jobs ≡ self.old.jobs }
        ensures picks { picks_in self.new.log.items ≡ picks_in self.old.log.items }
        ensures none_pending { pending (past_of self.new) ≡ None }
        ensures posted { NoneCanBePosted (view_of self.old) → NoneCanBePosted (view_of self.new) }
        ensures more { result ≡ Ok true → length self.old.log.items < length self.new.log.items }
        ensures scanned { OnOk result (AllScanned self.new) }
        ensures still { result ≡ Ok false → IsSame self.old self.new }
        ensures full { result ≡ Err LogFull → self.new.config.max_events < length self.new.log.items + 1 }
        ensures no_stray { IfErr result (λ e. (e ≡ LogFull) ⊎ (e ≡ NoMemory)) }
    {
        let mut fetched = false;
        for qid in 0..self.engine.queues() {
            if self.scan_queue(qid)? {
                fetched = true;
            }
        }
        Ok(fetched)
    }
}
