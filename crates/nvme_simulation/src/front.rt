// The controller with the slots of its commands.
use crate::fault::{Broken, SimulationFault};
use nvme_admin::{Limits, Region};
use nvme_arbiter::{HIGHEST_COUNT, Mechanism, Seen, Settings};
use nvme_ctrl::{Answer, Controller, Post, Slot, StatusFlags, Step};
use nvme_entry::{Sqe, Status};
use nvme_model::MAX_DEPTH;
use nvme_placing::Placement;
use std::alloc::Global;

// The most commands of a queue that hold a slot: as many as arbitration counts, and as many as the device may have.
const DEPTH: u16 = HIGHEST_COUNT + MAX_DEPTH;

// As many slots as commands may wait, of 64 I/O queues and the admin queue, and as many as the device may have.
const POOL: usize = 65 * HIGHEST_COUNT as usize + MAX_DEPTH as usize;

/// The slots of each admin ring, which the Creates of all queues fit into.
pub(crate) const ADMIN_SLOTS: u16 = 256;

// How the device answers.
const DONE: Answer = Answer {
    status: Status::SUCCESS,
    dw0: 0,
    flags: StatusFlags::NONE,
};

// A command that the device took.
#[derive(Clone, Copy)]
pub(crate) struct Taken {
    pub(crate) tag: u16,
    pub(crate) qid: u16,
    pub(crate) number: u32,
}

#[derive(Drop)]
pub(crate) struct Front {
    controller: Controller,
    pool: Vec<Slot>,
}

impl Front {
    ghost use Rattle.std.specs.Prelude.{◌≡◌, ◌≢◌, [], ◌∷◌, Bool, IfOk, IfSome, None, Some, true};
    ghost use Rattle.nvme_admin.specs.declared.effect.Effect.{Effect};
    ghost use Rattle.nvme_entry.specs.AdminCommand.{admin_command_of};
    ghost use Rattle.nvme_entry.specs.declared.submission.Sqe.{Sqe};
    ghost use Rattle.nvme_simulation.specs.Creating.{Does, HasDone, KeepsDone, opens};
    ghost use Rattle.nvme_arbiter.specs.declared.pick.Pick.{Pick};
    ghost use Rattle.nvme_log.specs.Rules.{FrontRules};
    ghost use Rattle.nvme_ctrl_log.specs.Notes.{Notes};
    ghost use Rattle.nvme_ctrl_log.specs.Observation.{seen_in};
    ghost use Rattle.nvme_ctrl_log.specs.Steps.{IsNextPick, IsNextWithin, picked_notes};
    ghost use Rattle.nvme_ctrl.specs.Posts.{next_post_of};
    ghost use Rattle.nvme_ctrl.specs.declared.picks.Step.TheVariants as step;
    ghost use Rattle.nvme_simulation.specs.Quiet.{Quietly};
    ghost use Rattle.nvme_simulation.specs.Reading.{HasRead};
    ghost use Rattle.nvme_simulation.specs.Fronts.{HasDepths, IsFront, IsFrontOf, StandsBy, StaysFront};

    // A controller with its admin queues alone.
    pub(crate) fn new(
        alloc: Global,
        mechanism: Mechanism,
        settings: Settings,
    ) -> Result<Front, SimulationFault>
        ensures front { IfOk result (IsFrontOf mechanism settings) }
        ensures depths { IfOk result HasDepths }
        ensures done { IfOk result (HasDone mechanism settings []) }
    {
        let mut pool = Vec::new(alloc);
        if pool.resize(POOL, Slot::free()).is_err() {
            return Err(SimulationFault::Memory);
        }
        let limits = Limits { nsq: 64, ncq: 64 };
        let placement = Placement {
            page: 4_096,
            mqes: 4_095,
            vectors: 1,
        };
        let ring = Region {
            address: 0,
            slots: ADMIN_SLOTS,
        };
        match Controller::anywhere(
            mechanism, settings, limits, placement, DEPTH, ring, ring, &mut pool,
        ) {
            Ok(controller) => Ok(Front { controller, pool }),
            Err(_) => Err(SimulationFault::Broken(Broken::Create)),
        }
    }

    // The host rings a submission doorbell. False where the controller refuses it.
    pub(crate) fn submit(&mut self, qid: u16, tail: u16) -> bool
        requires front { IsFront self.old }
        ensures keeps { KeepsDone self.old self.new }
        ensures front { StaysFront self.old self.new }
        ensures quiet { Quietly self.old self.new }
    {
        self.controller.sq_tail(qid, tail)
    }

    // The slot of a ring that is read next.
    pub(crate) fn next_slot(&self, qid: u16) -> Option<u16>
        ensures { result ≡ None → HasRead qid self.now }
    {
        self.controller.fetch(qid)
    }

    // That slot was read.
    pub(crate) fn fetched(&mut self, qid: u16, entry: &Sqe, cookie: u32) -> bool
        requires front { IsFront self.old }
        ensures keeps { KeepsDone self.old self.new }
        ensures front { StaysFront self.old self.new }
        ensures quiet { qid ≢ 0 → Quietly self.old self.new }
    {
        self.controller.fetched(&mut self.pool, qid, entry, cookie)
    }

    // What the next pick is shown of a queue.
    pub(crate) fn seen(&self, qid: u16) -> Option<Seen>
        ensures { (rules : FrontRules) (late : Bool) (notes : Notes) → StandsBy rules late notes self.now → result ≡ seen_in notes qid }
    {
        self.controller.seen(qid)
    }

    // The next pick, where the device has room for so many commands.
    pub(crate) fn pick(&mut self, room: u16) -> Step
        requires front { IsFront self.old }
        ensures done { (effect : Effect) (entry : Sqe) → result ≡ step.Done effect entry → opens effect ≡ true → Does (admin_command_of entry ∷ []) self.old self.new }
        ensures front { StaysFront self.old self.new }
        ensures idle { result ≡ step.Idle → (rules : FrontRules) (late : Bool) (notes : Notes) → StandsBy rules late notes self.old → IsNextPick rules notes None }
        ensures picked { (pick : Pick) → result ≡ step.Picked pick → (rules : FrontRules) (late : Bool) (notes : Notes) → StandsBy rules late notes self.old → IsNextWithin rules notes room (Some pick) }
        ensures still { result ≡ step.Idle → Quietly self.old self.new }
        ensures noted { (pick : Pick) → result ≡ step.Picked pick → (rules : FrontRules) (late : Bool) (notes : Notes) → StandsBy rules late notes self.old → StandsBy rules late (picked_notes notes pick) self.new }
    {
        self.controller.pick(&mut self.pool, room)
    }

    // The device takes the next command that is picked, which is of this queue.
    pub(crate) fn take(&mut self, qid: u16) -> Option<Taken>
        requires front { IsFront self.old }
        ensures front { StaysFront self.old self.new }
        ensures quiet { Quietly self.old self.new }
        ensures queue { IfSome result (λ taken. taken.qid ≡ qid) }
    {
        let tag = self.controller.take(&mut self.pool)?;
        let number = self.controller.cookie(&self.pool, tag);
        Some(Taken { tag, qid, number })
    }

    // The device answers a command. False where it has no such command.
    pub(crate) fn complete(&mut self, tag: u16) -> bool
        requires front { IsFront self.old }
        ensures front { StaysFront self.old self.new }
        ensures quiet { Quietly self.old self.new }
    {
        self.controller.complete(&mut self.pool, tag, DONE)
    }

    // The next completion of a completion queue is posted.
    pub(crate) fn post(&mut self, cqid: u16) -> Option<Post>
        requires front { IsFront self.old }
        ensures keeps { KeepsDone self.old self.new }
        ensures front { StaysFront self.old self.new }
        ensures value { result ≡ next_post_of self.old.controller self.old.pool.items cqid }
        ensures quiet { Quietly self.old self.new }
    {
        self.controller.post(&mut self.pool, cqid)
    }

    // The host rings a completion doorbell. False where the controller refuses it.
    pub(crate) fn read(&mut self, cqid: u16, head: u16) -> bool
        requires front { IsFront self.old }
        ensures keeps { KeepsDone self.old self.new }
        ensures front { StaysFront self.old self.new }
        ensures quiet { Quietly self.old self.new }
    {
        self.controller.cq_head(cqid, head)
    }
}
