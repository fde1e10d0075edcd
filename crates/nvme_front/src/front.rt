ghost use Rattle.std.specs.Prelude.{◌≤◌};
ghost use Rattle.nvme_log.specs.Limits.{most_events};

use crate::state::FrontState;
use nvme_admin::Limits;
use nvme_arbiter::{Mechanism, Settings};
use nvme_entry::{Cqe, Namespaces, Sqe};
use nvme_lane::{GetEnd, PutEnd};
use nvme_log::Event;
use nvme_pool::{FrontSeat, Lanes};
use std::alloc::Global;
use std::marker::Model;
use std::sync::Wait;
use thiserror::Error;

/// What a front is made with.
#[derive(Clone, Copy, Debug, PartialEq, Eq)]
pub struct FrontConfig {
    /// The arbitration mechanism, which never changes.
    pub mechanism: Mechanism,
    /// The first settings of the Arbitration feature.
    pub settings: Settings,
    /// The most I/O queues of each kind, 1 to 64.
    pub limits: Limits,
    /// The namespaces of the I/O commands.
    pub spaces: Namespaces,
    /// The most events of the log, at most `crate::MAX_EVENTS`.
    pub max_events: u32,
    ghost few_events: { max_events ≤ most_events },
}

/// What a turn did, the first that applies.
#[derive(Clone, Copy, Debug, PartialEq, Eq)]
pub enum Step {
    /// Candidates were picked.
    Picked,
    /// Nothing was picked, but something was gained, posted, fetched, handed over or closed.
    Moved,
    /// Nothing could be done.
    Idle,
    /// A pick waits for outstanding places to become free: one for each command, and for an Abort command a second one,
    /// for the command that it aborts.
    Stalled,
}

/// Why a region wasn't added to a front. The end comes back, and nothing changed.
#[derive(Clone, Copy, Debug, PartialEq, Eq, Error)]
pub enum AddError {
    /// The address is that of a region of either kind.
    #[error("address already used")]
    Used,
    /// `MAX_REGIONS` regions of this kind exist.
    #[error("too many regions")]
    TooMany,
    /// Out of memory.
    #[error("out of memory")]
    NoMemory,
}

/// Why a turn stopped. What it did before stays done, and a later turn goes on from there.
#[derive(Clone, Copy, Debug, PartialEq, Eq, Error)]
pub enum FrontError {
    /// Out of memory for the log.
    #[error("out of memory")]
    NoMemory,
    /// The log, at most `max_events` long, has no room for the next step.
    #[error("log full")]
    LogFull,
    /// A worker returned a result with this ticket that belongs to no job which waits for one. It was dropped.
    #[error("stray result with ticket {0}")]
    Stray(u32),
}

/// The front of a controller. It fetches commands from the submission rings of its regions, picks them by arbitration,
/// executes admin commands, hands over I/O commands to workers and gains their results, and posts completions.
/// Contracts see its rules, its log, its ends, its seat at the workers and the commands that have no result yet. At any
/// time its log accounts for its jobs, and also for its ends if no region was added after the first event.
#[derive(Drop)]
pub struct Front {
    pub(crate) state: FrontState,
}

impl Model for Front {
    ghost use Rattle.nvme_front.specs.View.{FrontView};
    ghost use Rattle.nvme_front.specs.inside.State.{view_of};
    ghost use Rattle.nvme_front.specs.inside.Room.{IsConsistent};

    ghost Value = { FrontView };

    ghost view = { λ f. view_of f.state };

    ghost invariant = { λ f. IsConsistent f.state };
}

impl Front {
    ghost use Rattle.std.specs.Prelude.{◌≡◌, ◌≢◌, ◌↔◌, ℕ, ◌<◌, ◌≤◌, List, [], ◌∷◌, ◌++◌, true, false, length, IfOk, OnOk, IfErr, OnErr, IsTrue, ◌==◌, ◌&&◌, nat_lt};
    ghost use Rattle.nvme_entry.specs.declared.submission.Sqe.{Sqe};
    ghost use Rattle.nvme_front.specs.Adding.{IsAdded, IsNotAdded, submissions, completions};
    ghost use Rattle.nvme_front.specs.LoadedFront.{IsLoadedFront, GotWithin};
    ghost use Rattle.nvme_admin.specs.declared.bounds.TheConstants.{MAX_REGIONS};
    ghost use Rattle.nvme_jobs.specs.Answers.{AnswersHaveResults};
    ghost use Rattle.nvme_jobs.specs.JobAccount.{AccountsForJobs};
    ghost use Rattle.std.specs.List.{All};
    ghost use Rattle.nvme_pool.specs.Seat.{IsUnknown};
    ghost use Rattle.nvme_front.specs.View.{AccountsForEnds, GoesOn, HasItsRegions, HasNoStray, NoneInHandPosted, GoesToEnd, StepMeans, ErrorMeans, is_address, past_in};
    ghost use Rattle.nvme_log.specs.Account.{IsClear};
    ghost use Rattle.nvme_log.specs.Queues.{is_serving};
    ghost use Rattle.nvme_front.specs.declared.front.AddError.TheVariants.{Used, TooMany, NoMemory};

    /// A front with no region and an empty log. It hands over its jobs and gains their results through this seat.
    pub fn new(alloc: Global, config: FrontConfig, seat: FrontSeat) -> Front
        ensures mechanism { result.rules.mechanism ≡ config.mechanism }
        ensures start { result.rules.start ≡ record { nsq = config.limits.nsq; ncq = config.limits.ncq; settings = config.settings } }
        ensures sizes { result.rules.sizes ≡ config.spaces }
        ensures limit { result.limit ≡ config.max_events }
        ensures log { result.log ≡ [] }
        ensures gets { result.gets ≡ [] }
        ensures puts { result.puts ≡ [] }
        ensures hands { result.hands ≡ record { came = seat; seat = seat; unhanded = []; running = [] } }
        ensures not_late { result.late ≡ false }
        ensures regions { HasItsRegions result }
    {
        Front {
            state: FrontState::new(alloc, config, seat),
        }
    }

    /// Adds a submission region, and answers its number, which counts from 0 in the order of adding. Region 0 is the
    /// admin queue's. Refused with `Used` exactly where the address is that of a region of either kind; otherwise with
    /// `TooMany` exactly where `MAX_REGIONS` submission regions exist; otherwise with `NoMemory` where memory was
    /// refused. A refusal hands the end back, and changes nothing. (profile)
    pub fn add_sq_region(&mut self, end: GetEnd<Sqe>) -> Result<u8, (AddError, GetEnd<Sqe>)>
        requires nothing_got { end.got ≡ [] }
        ensures added { IfOk result (λ r. IsAdded submissions end r self.old self.new) }
        ensures refused { IfErr result (λ e. (e.1 ≡ end) × IsNotAdded submissions end e.0 self.old self.new) }
        ensures regions { HasItsRegions self.new }
    {
        self.state.add_sq(end)
    }

    /// Adds a completion region, as `add_sq_region` adds a submission region, with the same refusals.
    pub fn add_cq_region(&mut self, end: PutEnd<Cqe>) -> Result<u8, (AddError, PutEnd<Cqe>)>
        requires nothing_sent { end.sent ≡ [] }
        ensures added { IfOk result (λ c. IsAdded completions end c self.old self.new) }
        ensures refused { IfErr result (λ e. (e.1 ≡ end) × IsNotAdded completions end e.0 self.old self.new) }
        ensures regions { HasItsRegions self.new }
    {
        self.state.add_cq(end)
    }

    /// Makes one turn. It hands over the jobs that were kept, gains results and posts the ready completions. If a
    /// deletion is pending, it then finishes it if it can, and the turn ends there. Otherwise it fetches what has come,
    /// makes the next pick of arbitration, executes a picked admin command, and hands over the jobs of picked I/O
    /// commands.
    ///
    /// Afterwards no command without a result has a completion. Whatever the turn answers, the log says what it did,
    /// and a later turn goes on from there. If the hosts submitted their whole scripts before the first turn, the log
    /// stays that of such a workload. It may wait for another thread.
    pub fn turn<R: Wait>(&mut self, rt: &R, lanes: &Lanes) -> Result<Step, FrontError>
        requires admin_sq { 0 < length self.old.gets }
        requires admin_cq { 0 < length self.old.puts }
        requires seat { self.old.hands.seat.lane ≡ lanes.now }
        ensures goes_on { GoesOn self.old self.new }
        ensures account { self.new.late ≡ false → AccountsForEnds self.new }
        ensures jobs { AccountsForJobs self.new.rules.sizes (past_in self.new) self.new.hands }
        ensures executed { NoneInHandPosted self.new }
        ensures results { AnswersHaveResults self.new.rules.sizes (past_in self.new) self.new.hands }
        ensures loaded { (scripts : ℕ → List Sqe) → GotWithin scripts self.new → IsLoadedFront scripts self.old → IsLoadedFront scripts self.new }
        ensures step { IfOk result (λ step. StepMeans step self.old self.new) }
        ensures to_end { IfOk result (λ step. GoesToEnd step self.old self.new) }
        ensures no_stray { OnOk result (HasNoStray self.old self.new) }
        ensures none_known { OnOk result (All IsUnknown self.new.hands.seat.ends) }
        ensures within { length self.new.log ≤ self.new.limit }
        ensures error { IfErr result (λ error. ErrorMeans error self.old self.new) }
    {
        self.state.turn(rt, lanes)
    }

    /// The log: what the front did so far, the oldest event first.
    pub fn log(&self) -> &[Event]
        ensures log { result.now ≡ self.now.log }
        ensures account { 0 < length self.now.gets → 0 < length self.now.puts → self.now.late ≡ false → AccountsForEnds self.now }
    {
        self.state.log.as_slice()
    }

    /// Whether no candidate waits, every fetched command has its completion posted, and no deletion is pending.
    pub fn is_clear(&self) -> bool
        ensures { IsTrue result ↔ IsClear (past_in self.now) }
    {
        self.state.is_clear()
    }

    /// Whether the queue of this submission region is open or closing. The admin queue is open once region 0 is added.
    pub fn is_serving(&self, region: u8) -> bool
        ensures { result ≡ (nat_lt region (length self.now.gets) && is_serving (past_in self.now) region) }
    {
        self.state.is_serving(region)
    }
}
