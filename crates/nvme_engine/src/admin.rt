// The picks of the admin queue, and what its commands make. (Base Specification, Admin Command Set)
ghost use Rattle.std.specs.Prelude.{◌≡◌, ℕ, ◌+◌, ◌≤◌, ◌++◌, length, map, min, vec_capacity};
ghost use Rattle.nvme_log.specs.declared.event.Event.TheVariants.{Abort};
ghost use Rattle.nvme_engine.specs.Making.{made_in, above_opened};

use crate::engine::Engine;
use arrayvec::ArrayVec;
use nvme_admin::Effect;
use nvme_arbiter::HIGHEST_COUNT;
use nvme_ctrl::Step;
use nvme_entry::{AdminCommand, admin_of};
use nvme_log::Event;

// As many commands of a queue wait at most.
const MOST: usize = HIGHEST_COUNT as usize;

/// The commands that the next admin command ends, if it is a Delete or an Abort that takes effect.
#[derive(Drop)]
pub enum Ending {
    /// None.
    Nothing,
    /// Those that wait in the queue that it deletes, by their indexes, the oldest first.
    Dropped(ArrayVec<u32, MOST>),
    /// The one that it aborts: its region and its index.
    Aborted(u8, u32),
}

// Logs that the commands with these indexes are aborted with their queue, whose deletion began.
fn log_dropped(log: &mut Vec<Event>, region: u8, indexes: &[u32])
    requires room { length log.old.items + length indexes.now ≤ vec_capacity log.old }
    ensures { log.new.items ≡ log.old.items ++ map (λ (i : ℕ). Abort region i) indexes.now }
{
    for &index in indexes {
        log.push_reserved(Event::Abort { region, index });
    }
}

// Logs what an admin command made, which ended these commands.
fn log_effect(log: &mut Vec<Event>, effect: &Effect, ending: &Ending)
    requires room { length log.old.items + 257 ≤ vec_capacity log.old }
    ensures { log.new.items ≡ log.old.items ++ made_in effect.now ending.now }
{
    match *effect {
        Effect::Done(..) => {}
        Effect::OpenSq {
            qid,
            region,
            cqid,
            class,
            ..
        } => log.push_reserved(Event::OpenSq {
            qid,
            region,
            cqid,
            class,
        }),
        Effect::OpenCq { qid, region } => log.push_reserved(Event::OpenCq { qid, region }),
        Effect::BeginDelete { qid, region } => {
            log.push_reserved(Event::Closing { qid, region });
            if let Ending::Dropped(indexes) = ending {
                log_dropped(log, region, indexes.as_slice());
            }
        }
        Effect::CloseCq { qid, region } => log.push_reserved(Event::ClosedCq { qid, region }),
        Effect::Abort { .. } => {
            if let Ending::Aborted(region, index) = *ending {
                log.push_reserved(Event::Abort { region, index });
            }
        }
        Effect::SetArbitration(settings) => {
            log.push_reserved(Event::SetArbitration { settings });
        }
    }
}

// One more than the identifier of the queue that an admin command opened, or 65535; 0 where it opened none.
fn bound_of(effect: &Effect) -> u16
    ensures { result ≡ min (above_opened effect.now) 65535 }
{
    match *effect {
        Effect::OpenSq { qid, .. } | Effect::OpenCq { qid, .. } => qid.saturating_add(1),
        _ => 0,
    }
}

impl Engine {
    ghost use Rattle.std.specs.Prelude.{◌≡◌, ◌≢◌, ℕ, ◌+◌, ◌≤◌, Bool, Option, Some, None, length, slice_get, vec_capacity};
    ghost use Rattle.nvme_arbiter.specs.declared.pick.Pick.{Pick};
    ghost use Rattle.nvme_log.specs.Rules.{FrontRules};
    ghost use Rattle.nvme_log.specs.Queues.{Queue, open_sq};
    ghost use Rattle.nvme_log.specs.Places.{waiting, entry_at};
    ghost use Rattle.nvme_log.specs.Effects.{named, abort_of};
    ghost use Rattle.nvme_entry.specs.AdminCommand.{admin_command_of};
    ghost use Rattle.nvme_entry.specs.declared.submission.Sqe.{Sqe};
    ghost use Rattle.nvme_ctrl_log.specs.Notes.{Notes, logged};
    ghost use Rattle.nvme_engine.specs.Standing.{StandsAt, IsEngine};
    ghost use Rattle.nvme_engine.specs.Calls.{MayPick, HasCarriedOut};
    ghost use Rattle.nvme_engine.specs.Making.{aborted_in, IsEnding};

    // The indexes of the commands that wait in an open submission queue, the oldest first.
    fn waiting_in(&self, qid: u16) -> ArrayVec<u32, MOST>
        ensures { (rules : FrontRules) (late : Bool) (notes : Notes) → StandsAt rules late notes self.now → (queue : Queue) → open_sq (logged notes) qid ≡ Some queue → result.items ≡ waiting (logged notes) queue.region }
    {
        let mut indexes = ArrayVec::new();
        for n in 0..self.controller.waiting(qid) {
            if let Some(command) = self.controller.waits(self.slots.as_slice(), qid, n) {
                let _fits = indexes.try_push(command.cookie);
            }
        }
        indexes
    }

    // The index of the oldest command with a command identifier that waits in an open submission queue.
    fn named_in(&self, qid: u16, cid: u16) -> Option<u32>
        ensures { (rules : FrontRules) (late : Bool) (notes : Notes) → StandsAt rules late notes self.now → (queue : Queue) → open_sq (logged notes) qid ≡ Some queue → result ≡ slice_get (named (logged notes) queue.region cid) 0 }
    {
        for n in 0..self.controller.waiting(qid) {
            if let Some(command) = self.controller.waits(self.slots.as_slice(), qid, n) {
                if command.entry.cid == cid {
                    return Some(command.cookie);
                }
            }
        }
        None
    }

    // The command that an Abort ends: the oldest one with this identifier that waits in the I/O queue. (Abort)
    fn aborted_by(&self, sqid: u16, cid: u16) -> Ending
        ensures { (rules : FrontRules) (late : Bool) (notes : Notes) → StandsAt rules late notes self.now → aborted_in result ≡ abort_of (logged notes) sqid cid }
    {
        if sqid == 0 {
            return Ending::Nothing;
        }
        let Some(region) = self.sq_region(sqid) else {
            return Ending::Nothing;
        };
        match self.named_in(sqid, cid) {
            Some(index) => Ending::Aborted(region, index),
            None => Ending::Nothing,
        }
    }

    // The commands that the next admin command ends, if it takes effect.
    fn ending(&self) -> Ending
        ensures { (rules : FrontRules) (late : Bool) (notes : Notes) (index : ℕ) (entry : Sqe) → StandsAt rules late notes self.now → slice_get (waiting (logged notes) 0) 0 ≡ Some index → entry_at (logged notes) 0 index ≡ Some entry → IsEnding (logged notes) (admin_command_of entry) result }
    {
        let Some(command) = self.controller.waits(self.slots.as_slice(), 0, 0) else {
            return Ending::Nothing;
        };
        match admin_of(&command.entry) {
            AdminCommand::DeleteSq { qid } => Ending::Dropped(self.waiting_in(qid)),
            AdminCommand::Abort { sqid, cid } => self.aborted_by(sqid, cid),
            _ => Ending::Nothing,
        }
    }

    /// Makes the next pick, which is of the admin queue and has its places. Its command is carried out, and what it makes
    /// is logged behind the pick: at most 257 events, for which the log has room.
    pub fn pick_admin(&mut self, log: &mut Vec<Event>)
        requires engine { IsEngine self.old }
        requires room { length log.old.items + 257 ≤ vec_capacity log.old }
        ensures stands { (rules : FrontRules) (late : Bool) (notes : Notes) (pick : Pick) → StandsAt rules late notes self.old → MayPick rules notes pick → pick.qid ≡ 0 → HasCarriedOut rules late notes pick log.old.items log.new.items self.new }
    {
        let ending = self.ending();
        let Step::Done(effect, _) = self.controller.pick(&mut self.slots, HIGHEST_COUNT) else {
            return;
        };
        log_effect(log, &effect, &ending);
        self.queues = self.queues.max(bound_of(&effect));
    }
}
