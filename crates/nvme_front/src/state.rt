// Decided: the steps of a turn see what no caller's clause names. So they are methods of a state with seen fields,
// which `Front` keeps consistent.
ghost use Rattle.std.specs.Prelude.{◌≡◌};
ghost use Rattle.nvme_front.specs.inside.Turn.{told_after};

use crate::front::{FrontConfig, FrontError, Step};
use crate::region::SqRegion;
use nvme_engine::Engine;
use nvme_entry::Cqe;
use nvme_jobs::Jobs;
use nvme_lane::PutEnd;
use nvme_log::Event;
use nvme_pool::Lanes;
use std::alloc::Global;
use std::sync::Wait;

/// All that a front keeps. It never reads its log.
#[derive(Drop)]
pub struct FrontState {
    pub alloc: Global,
    pub config: FrontConfig,
    // It begins when both admin regions are there.
    pub engine: Engine,
    pub sqs: Vec<SqRegion>,
    pub cqs: Vec<PutEnd<Cqe>>,
    pub jobs: Jobs,
    // Whether a region was added after the first event.
    pub late: bool,
    pub log: Vec<Event>,
}

impl FrontState {
    ghost use Rattle.std.specs.Prelude.{◌≡◌, ◌↔◌, length, None, IfOk, OnOk, IfErr, IsTrue, ◌&&◌, nat_lt};
    ghost use Rattle.nvme_front.specs.inside.Room.{IsConsistent};
    ghost use Rattle.nvme_front.specs.inside.State.{past_of};
    ghost use Rattle.nvme_front.specs.inside.Goes.{Goes, HasAdmin};
    ghost use Rattle.nvme_front.specs.inside.State.{view_of};
    ghost use Rattle.nvme_front.specs.View.{HasNoPickMore, NoneCanBePosted, GoesToEnd, StepMeans, ErrorMeans};
    ghost use Rattle.std.specs.List.{All};
    ghost use Rattle.nvme_pool.specs.Seat.{IsUnknown};
    ghost use Rattle.nvme_front.specs.inside.Turn.{HasDone, Proceeds, Balanced};
    ghost use Rattle.nvme_front.specs.inside.Loads.{PostsOnly, Loads};
    ghost use Rattle.nvme_log.specs.Account.{IsClear};
    ghost use Rattle.nvme_log.specs.Queues.{is_serving, pending};

    /// Makes one turn, as `Front::turn` says.
    pub fn turn<R: Wait>(&mut self, rt: &R, lanes: &Lanes) -> Result<Step, FrontError>
        requires consistent { IsConsistent self.old }
        requires admin { HasAdmin self.old }
        requires seat { self.old.jobs.hands.seat.lane ≡ lanes.now }
        ensures consistent { IsConsistent self.new }
        ensures goes { Goes self.old self.new }
        ensures loads { Loads self.old self.new }
        ensures step { IfOk result (λ step. StepMeans step (view_of self.old) (view_of self.new)) }
        ensures to_end { IfOk result (λ step. GoesToEnd step (view_of self.old) (view_of self.new)) }
        ensures balanced { OnOk result (Balanced self.old self.new) }
        ensures none_known { OnOk result (All IsUnknown self.new.jobs.hands.seat.ends) }
        ensures error { IfErr result (λ error. ErrorMeans error (view_of self.old) (view_of self.new)) }
    {
        let moved = self.catch_up(rt, lanes)?;
        let step = self.proceed(rt, lanes)?;
        Ok(step_after(moved, step))
    }

    // Hands over the jobs that were kept, gains results and posts the ready completions. The answer is whether it did
    // any of these.
    fn catch_up<R: Wait>(&mut self, rt: &R, lanes: &Lanes) -> Result<bool, FrontError>
        requires consistent { IsConsistent self.old }
        requires admin { HasAdmin self.old }
        requires seat { self.old.jobs.hands.seat.lane ≡ lanes.now }
        ensures consistent { IsConsistent self.new }
        ensures goes { Goes self.old self.new }
        ensures posts { PostsOnly self.old self.new }
        ensures drained { OnOk result (NoneCanBePosted (view_of self.new)) }
        ensures picks { HasNoPickMore (view_of self.old) (view_of self.new) }
        ensures done { IfOk result (λ moved. HasDone moved self.old self.new) }
        ensures deletion { pending (past_of self.new) ≡ pending (past_of self.old) }
        ensures balanced { OnOk result (Balanced self.old self.new) }
        ensures none_known { OnOk result (All IsUnknown self.new.jobs.hands.seat.ends) }
        ensures error { IfErr result (λ error. ErrorMeans error (view_of self.old) (view_of self.new)) }
    {
        let handed = self.hand(rt, lanes);
        let gained = self.gain(lanes)?;
        let posted = self.post()?;
        Ok(handed | gained | posted)
    }

    // Finishes the pending deletion, or serves the queues where none is pending.
    fn proceed<R: Wait>(&mut self, rt: &R, lanes: &Lanes) -> Result<Step, FrontError>
        requires consistent { IsConsistent self.old }
        requires admin { HasAdmin self.old }
        requires seat { self.old.jobs.hands.seat.lane ≡ lanes.now }
        requires drained { NoneCanBePosted (view_of self.old) }
        ensures consistent { IsConsistent self.new }
        ensures goes { Goes self.old self.new }
        ensures loads { Loads self.old self.new }
        ensures step { IfOk result (λ step. Proceeds step self.old self.new) }
        ensures to_end { IfOk result (λ step. GoesToEnd step (view_of self.old) (view_of self.new)) }
        ensures balanced { Balanced self.old self.new }
        ensures ends { self.new.jobs.hands.seat.ends ≡ self.old.jobs.hands.seat.ends }
        ensures error { IfErr result (λ error. ErrorMeans error (view_of self.old) (view_of self.new)) }
    {
        if !self.engine.is_deleting() {
            return self.serve(rt, lanes);
        }
        let finished = self.finish()?;
        Ok(step_after(finished, Step::Idle))
    }

    // Fetches what has come, makes the next pick, and hands over the jobs of what was picked.
    fn serve<R: Wait>(&mut self, rt: &R, lanes: &Lanes) -> Result<Step, FrontError>
        requires consistent { IsConsistent self.old }
        requires admin { HasAdmin self.old }
        requires seat { self.old.jobs.hands.seat.lane ≡ lanes.now }
        requires drained { NoneCanBePosted (view_of self.old) }
        requires none_pending { pending (past_of self.old) ≡ None }
        ensures consistent { IsConsistent self.new }
        ensures goes { Goes self.old self.new }
        ensures loads { Loads self.old self.new }
        ensures step { IfOk result (λ step. Proceeds step self.old self.new) }
        ensures to_end { IfOk result (λ step. GoesToEnd step (view_of self.old) (view_of self.new)) }
        ensures balanced { Balanced self.old self.new }
        ensures ends { self.new.jobs.hands.seat.ends ≡ self.old.jobs.hands.seat.ends }
        ensures error { IfErr result (λ error. ErrorMeans error (view_of self.old) (view_of self.new)) }
    {
        let fetched = self.scan()?;
        let picked = self.pick()?;
        match picked {
            Step::Picked => {
                self.hand(rt, lanes);
                Ok(Step::Picked)
            }
            _ => Ok(step_after(fetched, picked)),
        }
    }

    /// Whether no candidate waits, every fetched command has its completion posted, and no deletion is pending.
    pub fn is_clear(&self) -> bool
        requires consistent { IsConsistent self.now }
        ensures { IsTrue result ↔ IsClear (past_of self.now) }
    {
        self.sqs.is_empty() || self.cqs.is_empty() || self.engine.is_clear()
    }

    /// Whether the queue of this submission region is open or closing.
    pub fn is_serving(&self, region: u8) -> bool
        requires consistent { IsConsistent self.now }
        ensures { result ≡ (nat_lt region (length self.now.sqs.items) && is_serving (past_of self.now) region) }
    {
        if usize::from(region) >= self.sqs.len() {
            return false;
        }
        if self.cqs.is_empty() {
            return region == 0;
        }
        self.engine.is_serving(region)
    }
}

// The answer of a turn: a step without a pick is `Moved` where something was done before it, and a pick stays a pick.
fn step_after(moved: bool, step: Step) -> Step
    ensures { result ≡ told_after moved step }
{
    match step {
        Step::Picked => step,
        _ if moved => Step::Moved,
        _ => step,
    }
}
