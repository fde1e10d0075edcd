// Makes the picks of arbitration.
ghost use Rattle.std.specs.Prelude.{◌≡◌, IfOk, IfErr};
ghost use Rattle.nvme_front.specs.declared.front.FrontError.TheVariants.{NoMemory};

use crate::dispatches::dispatch;
use crate::front::{FrontError, Step};
use crate::log::{make_room, note};
use crate::state::FrontState;
use nvme_arbiter::{HIGHEST_COUNT, Pick, Seen};
use nvme_log::{Event, Listed};
use std::alloc::Global;

// The most events of an admin pick: the pick, the beginning of a deletion and one for each candidate that it aborts.
const ADMIN_EVENTS: u32 = 2 + HIGHEST_COUNT as u32;

// A copy of what arbitration sees.
fn listed(alloc: Global, seen: &[Seen]) -> Result<Listed<Seen>, FrontError>
    ensures seen { IfOk result (λ o. o ≡ seen.now) }
    ensures no_memory { IfErr result (λ e. e ≡ NoMemory) }
{
    match Listed::of(alloc, seen) {
        Ok(seen) => Ok(seen),
        Err(_) => Err(FrontError::NoMemory),
    }
}

impl FrontState {
    ghost use Rattle.std.specs.Prelude.{◌≡◌, ◌≢◌, ◌⊎◌, ◌+◌, ◌<◌, ◌≤◌, length, Some, None, OnOk, IfErr, OnErr};
    ghost use Rattle.nvme_log.specs.Limits.{max_outstanding, admin_events};
    ghost use Rattle.nvme_log.specs.Queues.{pending};
    ghost use Rattle.nvme_front.specs.inside.Room.{IsConsistent};
    ghost use Rattle.nvme_front.specs.inside.Goes.{Goes, IsSame, HasAdmin};
    ghost use Rattle.nvme_front.specs.inside.State.{past_of, rules_of, view_of};
    ghost use Rattle.nvme_front.specs.View.{next_lawful, HasPlaces};
    ghost use Rattle.nvme_front.specs.inside.Turn.{IsPickOf, NeedsPlaces, LacksAdminEvents};
    ghost use Rattle.nvme_log.specs.Histories.{picks_in};
    ghost use Rattle.nvme_front.specs.declared.front.FrontError.TheVariants.{NoMemory, LogFull};
    ghost use Rattle.nvme_front.specs.declared.front.Step.TheVariants as step;
    ghost use Rattle.nvme_arbiter.specs.declared.pick.Pick.{Pick};

    // Makes the next pick, which is of an I/O queue. The jobs of the picked commands are then to be handed over.
    fn pick_io(&mut self, pick: Pick) -> Result<(), FrontError>
        requires consistent { IsConsistent self.old }
        requires admin { HasAdmin self.old }
        requires none_pending { pending (past_of self.old) ≡ None }
        requires next { next_lawful (view_of self.old) ≡ Some pick }
        requires io { pick.qid ≢ 0 }
        requires places { HasPlaces (rules_of self.old) (past_of self.old) pick }
        ensures consistent { IsConsistent self.new }
        ensures goes { Goes self.old self.new }
        ensures seat { self.new.jobs.hands.seat ≡ self.old.jobs.hands.seat }
        ensures running { self.new.jobs.hands.running ≡ self.old.jobs.hands.running }
        ensures sqs { self.new.sqs.items ≡ self.old.sqs.items }
        ensures cqs { self.new.cqs.items ≡ self.old.cqs.items }
        ensures picks_of { OnOk result (IsPickOf self.old self.new) }
        ensures picked { OnOk result (picks_in self.new.log.items ≡ picks_in self.old.log.items + 1) }
        ensures full { result ≡ Err LogFull → self.new.config.max_events < length self.new.log.items + 1 }
        ensures none_picked { OnErr result (picks_in self.new.log.items ≡ picks_in self.old.log.items) }
        ensures unpicked { OnErr result (self.new.log.items ≡ self.old.log.items) }
        ensures no_stray { IfErr result (λ e. (e ≡ LogFull) ⊎ (e ≡ NoMemory)) }
    {
        make_room(&mut self.log, self.config.max_events, 1)?;
        let seen = listed(self.alloc, self.engine.observed().as_slice())?;
        let Some(region) = self.engine.sq_region(pick.qid) else {
            unreachable!()
        };
        self.engine.pick_io();
        dispatch(&mut self.engine, &mut self.jobs, region, pick.n);
        note(&mut self.log, Event::Pick { seen, pick });
        Ok(())
    }

    // Makes the next pick, which is of the admin queue, and carries the command out at once.
    fn pick_admin(&mut self, pick: Pick) -> Result<(), FrontError>
        requires consistent { IsConsistent self.old }
        requires admin { HasAdmin self.old }
        requires none_pending { pending (past_of self.old) ≡ None }
        requires next { next_lawful (view_of self.old) ≡ Some pick }
        requires of_admin { pick.qid ≡ 0 }
        requires places { HasPlaces (rules_of self.old) (past_of self.old) pick }
        ensures consistent { IsConsistent self.new }
        ensures goes { Goes self.old self.new }
        ensures jobs { self.new.jobs ≡ self.old.jobs }
        ensures sqs { self.new.sqs.items ≡ self.old.sqs.items }
        ensures cqs { self.new.cqs.items ≡ self.old.cqs.items }
        ensures picks_of { OnOk result (IsPickOf self.old self.new) }
        ensures picked { OnOk result (picks_in self.new.log.items ≡ picks_in self.old.log.items + 1) }
        ensures full { result ≡ Err LogFull → IsSame self.old self.new × (self.new.config.max_events < length self.new.log.items + admin_events) }
        ensures none_picked { OnErr result (picks_in self.new.log.items ≡ picks_in self.old.log.items) }
        ensures unpicked { OnErr result (self.new.log.items ≡ self.old.log.items) }
        ensures no_stray { IfErr result (λ e. (e ≡ LogFull) ⊎ (e ≡ NoMemory)) }
    {
        make_room(&mut self.log, self.config.max_events, ADMIN_EVENTS)?;
        let seen = listed(self.alloc, self.engine.observed().as_slice())?;
        note(&mut self.log, Event::Pick { seen, pick });
        self.engine.pick_admin(&mut self.log);
        Ok(())
    }

    // Makes the next pick, whose places are free.
    fn pick_next(&mut self, pick: Pick) -> Result<(), FrontError>
        requires consistent { IsConsistent self.old }
        requires admin { HasAdmin self.old }
        requires none_pending { pending (past_of self.old) ≡ None }
        requires next { next_lawful (view_of self.old) ≡ Some pick }
        requires places { HasPlaces (rules_of self.old) (past_of self.old) pick }
        ensures consistent { IsConsistent self.new }
        ensures goes { Goes self.old self.new }
        ensures seat { self.new.jobs.hands.seat ≡ self.old.jobs.hands.seat }
        ensures running { self.new.jobs.hands.running ≡ self.old.jobs.hands.running }
        ensures sqs { self.new.sqs.items ≡ self.old.sqs.items }
        ensures cqs { self.new.cqs.items ≡ self.old.cqs.items }
        ensures picks_of { OnOk result (IsPickOf self.old self.new) }
        ensures picked { OnOk result (picks_in self.new.log.items ≡ picks_in self.old.log.items + 1) }
        ensures full { result ≡ Err LogFull → (self.new.config.max_events < length self.new.log.items + 1)
            ⊎ (IsSame self.old self.new × LacksAdminEvents self.old) }
        ensures none_picked { OnErr result (picks_in self.new.log.items ≡ picks_in self.old.log.items) }
        ensures unpicked { OnErr result (self.new.log.items ≡ self.old.log.items) }
        ensures no_stray { IfErr result (λ e. (e ≡ LogFull) ⊎ (e ≡ NoMemory)) }
    {
        if pick.qid == 0 {
            self.pick_admin(pick)
        } else {
            self.pick_io(pick)
        }
    }

    /// Makes the next pick of arbitration, if there is one and its places are free.
    pub fn pick(&mut self) -> Result<Step, FrontError>
        requires consistent { IsConsistent self.old }
        requires admin { HasAdmin self.old }
        requires none_pending { pending (past_of self.old) ≡ None }
        ensures consistent { IsConsistent self.new }
        ensures goes { Goes self.old self.new }
        ensures seat { self.new.jobs.hands.seat ≡ self.old.jobs.hands.seat }
        ensures running { self.new.jobs.hands.running ≡ self.old.jobs.hands.running }
        ensures sqs { self.new.sqs.items ≡ self.old.sqs.items }
        ensures cqs { self.new.cqs.items ≡ self.old.cqs.items }
        ensures picks_of { result ≡ Ok step.Picked → IsPickOf self.old self.new }
        ensures never_moved { result ≡ Ok step.Moved → ⊥ }
        ensures picked { result ≡ Ok step.Picked → picks_in self.new.log.items ≡ picks_in self.old.log.items + 1 }
        ensures idle { result ≡ Ok step.Idle → IsSame self.old self.new × (next_lawful (view_of self.old) ≡ None) }
        ensures stalled { result ≡ Ok step.Stalled → IsSame self.old self.new × NeedsPlaces self.old }
        ensures full { result ≡ Err LogFull → (self.new.config.max_events < length self.new.log.items + 1)
            ⊎ (IsSame self.old self.new × LacksAdminEvents self.old) }
        ensures none_picked { OnErr result (picks_in self.new.log.items ≡ picks_in self.old.log.items) }
        ensures unpicked { OnErr result (self.new.log.items ≡ self.old.log.items) }
        ensures no_stray { IfErr result (λ e. (e ≡ LogFull) ⊎ (e ≡ NoMemory)) }
    {
        let Some(pick) = self.engine.next_pick() else {
            return Ok(Step::Idle);
        };
        if self.engine.lacks_places(pick) {
            return Ok(Step::Stalled);
        }
        self.pick_next(pick)?;
        Ok(Step::Picked)
    }
}
