// A front's ends, for a thread that also holds its hosts.
use crate::front::Front;
use crate::state::FrontState;
use nvme_entry::{Cqe, Sqe};
use nvme_lane::{Drainer, Feeder};
use nvme_log::Event;
use nvme_pool::{Lanes, Worker};
use std::alloc::Global;
use std::sync::Wait;

impl FrontState {
    ghost use Rattle.std.specs.Prelude.{◌≡◌, ℕ, ◌<◌, length, slice_index_or, IfOk, OnOk, IfErr};
    ghost use Rattle.nvme_pool.specs.Pool.{IsPool};
    ghost use Rattle.nvme_jobs.specs.inside.Jobs.{IsClosed};
    ghost use Rattle.nvme_lane.specs.View.{GetView, PutView, IsPair};
    ghost use Rattle.nvme_lane.specs.Feeder.{put_of};
    ghost use Rattle.nvme_lane.specs.Drainer.{get_of};
    ghost use Rattle.nvme_entry.specs.declared.submission.Sqe.{Sqe};
    ghost use Rattle.nvme_entry.specs.declared.completion.Cqe.{Cqe};
    ghost use Rattle.nvme_front.specs.inside.Room.{IsConsistent};
    ghost use Rattle.nvme_front.specs.inside.State.{gets_of};
    ghost use Rattle.nvme_front.specs.inside.State.{view_of};
    ghost use Rattle.nvme_front.specs.inside.Looks.{LooksAtSq, LooksAtCq};

    /// The number of commands that rest in a submission ring, by a look at both of its ends.
    pub fn beside_sq(&mut self, r: u8, feeder: &mut Feeder<Sqe>) -> u16
        requires consistent { IsConsistent self.old }
        requires there { r < length self.old.sqs.items }
        requires pair { (g : GetView Sqe) → IsPair (put_of feeder.old) (slice_index_or (gets_of self.old.sqs.items) r g) }
        ensures consistent { IsConsistent self.new }
        ensures looks { LooksAtSq r feeder.old feeder.new (view_of self.old) (view_of self.new) result }
    {
        let region = &mut self.sqs[usize::from(r)];
        feeder.beside(&mut region.end)
    }

    /// The number of completions that rest in a completion ring, by a look at both of its ends.
    pub fn beside_cq(&mut self, c: u8, drainer: &mut Drainer<Cqe>) -> u16
        requires consistent { IsConsistent self.old }
        requires there { c < length self.old.cqs.items }
        requires pair { (p : PutView Cqe) → IsPair (slice_index_or self.old.cqs.items c p) (get_of drainer.old) }
        ensures consistent { IsConsistent self.new }
        ensures looks { LooksAtCq c drainer.old drainer.new (view_of self.old) (view_of self.new) result }
    {
        drainer.beside(&mut self.cqs[usize::from(c)])
    }

    /// Closes the pool of the front's seat, and gives the log. Where memory was refused all comes back, unchanged.
    pub fn into_log<R: Wait>(
        self,
        rt: &R,
        alloc: Global,
        lanes: Lanes,
        workers: Vec<Worker>,
    ) -> Result<Vec<Event>, (FrontState, Lanes, Vec<Worker>)>
        requires { IsPool lanes self.jobs.hands.seat workers.items }
        ensures log { IfOk result (λ log. log.items ≡ self.log.items) }
        ensures closed { OnOk result (IsClosed self.jobs.hands.seat workers.items) }
        ensures back { IfErr result (λ e. (e.0 ≡ self) × (e.1 ≡ lanes) × (e.2.items ≡ workers.items)) }
    {
        let FrontState {
            alloc: heap,
            config,
            engine,
            sqs,
            cqs,
            jobs,
            late,
            log,
        } = self;
        let Err((jobs, lanes, workers)) = jobs.close(rt, alloc, lanes, workers) else {
            return Ok(log);
        };
        let state = FrontState {
            alloc: heap,
            config,
            engine,
            sqs,
            cqs,
            jobs,
            late,
            log,
        };
        Err((state, lanes, workers))
    }
}

impl Front {
    ghost use Rattle.std.specs.Prelude.{◌≡◌, ◌↔◌, ℕ, ◌<◌, ◌≤◌, false, [], length, slice_index_or, None, IfSome, IfOk, OnOk, IfErr};
    ghost use Rattle.nvme_pool.specs.Pool.{IsPool};
    ghost use Rattle.nvme_jobs.specs.Answers.{AnswersHaveTickets};
    ghost use Rattle.nvme_jobs.specs.JobAccount.{AccountsForJobs};
    ghost use Rattle.nvme_jobs.specs.inside.Jobs.{IsClosed};
    ghost use Rattle.nvme_jobs.specs.Hands.{in_hand};
    ghost use Rattle.nvme_admin.specs.declared.bounds.TheConstants.{MAX_REGIONS};
    ghost use Rattle.nvme_lane.specs.View.{GetView, PutView, IsPair};
    ghost use Rattle.nvme_lane.specs.Feeder.{put_of};
    ghost use Rattle.nvme_lane.specs.Drainer.{get_of};
    ghost use Rattle.nvme_entry.specs.declared.submission.Sqe.{Sqe};
    ghost use Rattle.nvme_entry.specs.declared.completion.Cqe.{Cqe};
    ghost use Rattle.nvme_log.specs.Places.{fetched};
    ghost use Rattle.nvme_log.specs.Completions.{posted_to};
    ghost use Rattle.nvme_front.specs.View.{AccountsForEnds, past_in, got_in, sent_in};
    ghost use Rattle.nvme_log.specs.Account.{IsClear};
    ghost use Rattle.nvme_front.specs.inside.Looks.{LooksAtSq, LooksAtCq};

    /// The number of submission regions.
    pub(crate) fn sq_count(&self) -> u8
        ensures count { result ≡ length self.now.gets }
        ensures few { length self.now.gets ≤ MAX_REGIONS }
    {
        self.state.sqs.len() as u8
    }

    /// The number of completion regions.
    pub(crate) fn cq_count(&self) -> u8
        ensures count { result ≡ length self.now.puts }
        ensures few { length self.now.puts ≤ MAX_REGIONS }
    {
        self.state.cqs.len() as u8
    }

    /// The number of slots of a submission region's ring. None where the front has no region of this number.
    pub fn sq_slots(&self, r: u8) -> Option<u16>
        ensures slots { IfSome result (λ slots. (g : GetView Sqe) → slots ≡ (slice_index_or self.now.gets r g).slots) }
        ensures there { (result ≡ None) ↔ (length self.now.gets ≤ r) }
    {
        if usize::from(r) >= self.state.sqs.len() {
            return None;
        }
        Some(self.state.sqs[usize::from(r)].end.slots())
    }

    /// The number of slots of a completion region's ring. None where the front has no region of this number.
    pub fn cq_slots(&self, c: u8) -> Option<u16>
        ensures slots { IfSome result (λ slots. (p : PutView Cqe) → slots ≡ (slice_index_or self.now.puts c p).slots) }
        ensures there { (result ≡ None) ↔ (length self.now.puts ≤ c) }
    {
        if usize::from(c) >= self.state.cqs.len() {
            return None;
        }
        Some(self.state.cqs[usize::from(c)].slots())
    }

    /// The address of a submission region.
    pub(crate) fn sq_address(&self, r: u8) -> u64
        requires { r < length self.now.gets }
        ensures { (g : GetView Sqe) → result ≡ (slice_index_or self.now.gets r g).address }
    {
        self.state.sqs[usize::from(r)].end.address()
    }

    /// The address of a completion region.
    pub(crate) fn cq_address(&self, c: u8) -> u64
        requires { c < length self.now.puts }
        ensures { (p : PutView Cqe) → result ≡ (slice_index_or self.now.puts c p).address }
    {
        self.state.cqs[usize::from(c)].address()
    }

    /// The number of commands that rest in a submission ring, by a look at both of its ends.
    pub(crate) fn beside_sq(&mut self, r: u8, feeder: &mut Feeder<Sqe>) -> u16
        requires there { r < length self.old.gets }
        requires pair { (g : GetView Sqe) → IsPair (put_of feeder.old) (slice_index_or self.old.gets r g) }
        ensures { LooksAtSq r feeder.old feeder.new self.old self.new result }
    {
        self.state.beside_sq(r, feeder)
    }

    /// The number of completions that rest in a completion ring, by a look at both of its ends.
    pub(crate) fn beside_cq(&mut self, c: u8, drainer: &mut Drainer<Cqe>) -> u16
        requires there { c < length self.old.puts }
        requires pair { (p : PutView Cqe) → IsPair (slice_index_or self.old.puts c p) (get_of drainer.old) }
        ensures { LooksAtCq c drainer.old drainer.new self.old self.new result }
    {
        self.state.beside_cq(c, drainer)
    }

    /// Closes the front's pool, and gives the log, the oldest event first. The log has a fetch for all that the front
    /// got, and a post for all that it put. Where memory was refused all comes back, unchanged.
    pub(crate) fn into_log<R: Wait>(
        self,
        rt: &R,
        alloc: Global,
        lanes: Lanes,
        workers: Vec<Worker>,
    ) -> Result<Vec<Event>, (Front, Lanes, Vec<Worker>)>
        requires { IsPool lanes self.hands.seat workers.items }
        ensures log { IfOk result (λ log. log.items ≡ self.log) }
        ensures closed { OnOk result (IsClosed self.hands.seat workers.items) }
        ensures account { 0 < length self.gets → 0 < length self.puts → self.late ≡ false → AccountsForEnds self }
        ensures jobs { AccountsForJobs self.rules.sizes (past_in self) self.hands }
        ensures none_in_hand { IsClear (past_in self) → in_hand self.hands ≡ [] }
        ensures tickets { AnswersHaveTickets (past_in self) }
        ensures fetched { (r : ℕ) → fetched (past_in self) r ≡ got_in self r }
        ensures posted { (c : ℕ) → posted_to (past_in self) c ≡ sent_in self c }
        ensures back { IfErr result (λ e. (e.0 ≡ self) × (e.1 ≡ lanes) × (e.2.items ≡ workers.items)) }
    {
        let Front { state } = self;
        match state.into_log(rt, alloc, lanes, workers) {
            Ok(log) => Ok(log),
            Err((state, lanes, workers)) => Err((Front { state }, lanes, workers)),
        }
    }
}
