// The turns of the front, while its hosts and workers run.
ghost use Rattle.std.specs.Prelude.{◌≡◌, ◌<◌, length, IfErr};
ghost use Rattle.nvme_front.specs.View.{GoesOn};
ghost use Rattle.nvme_threads.specs.Faults.{Accounts, IsDriveFault};
ghost use Rattle.nvme_threads.specs.Loaded.{StaysLoaded};
ghost use Rattle.nvme_threads.specs.inside.Drives.{IsFaultAt};
ghost use Rattle.nvme_threads.specs.declared.drives.DriveError.TheVariants as drive_is;

use crate::drives::DriveError;
use crate::flags::Flags;
use crate::pauses::FrontPause;
use crate::tasks::Shared;
use crate::watch::Watch;
use nvme_admin::MAX_REGIONS;
use nvme_front::{Front, Step};
use std::sync::Wait;

// Which feeders had ended before a turn.
#[derive(Clone, Copy)]
struct Fed {
    is_admin: bool,
    are_all: bool,
}

// How many turns in a row could do nothing, of how many at most.
#[derive(Drop)]
struct Quiet {
    turns: u32,
    patience: u32,
    pause: FrontPause,
    watch: Watch,
}

impl Quiet {
    // No turn was made yet.
    fn new(front: &Front, patience: u32) -> Quiet {
        Quiet {
            turns: 0,
            patience,
            pause: FrontPause::new(),
            watch: Watch::new(front),
        }
    }

    // After an idle turn: whether it was the last. If not, it pauses.
    fn is_last<R: Wait>(
        &mut self,
        rt: &R,
        front: &Front,
        is_clear: bool,
        fed: Fed,
        flags: &Flags,
    ) -> bool {
        self.turns = self.turns.saturating_add(1);
        if (is_clear && fed.are_all) || self.turns >= self.patience {
            return true;
        }
        if is_clear && fed.is_admin {
            stop_unserved(front, flags);
        }
        self.pause.rest(rt, flags, &mut self.watch);
        false
    }

    // After a turn that did this: whether it was the last.
    fn ends<R: Wait>(
        &mut self,
        rt: &R,
        front: &Front,
        step: Step,
        fed: Fed,
        flags: &Flags,
    ) -> bool {
        self.watch.look(front, flags);
        if step == Step::Picked || step == Step::Moved {
            self.turns = 0;
            self.pause.reset(flags);
            return false;
        }
        let is_clear = step == Step::Idle && front.is_clear();
        self.is_last(rt, front, is_clear, fed, flags)
    }
}

// Tells the feeders of regions that are not served to end. No admin command is left to come, so that none will be.
fn stop_unserved(front: &Front, flags: &Flags) {
    for region in 0..MAX_REGIONS as u8 {
        if !front.is_serving(region) {
            flags.stop_feeding(usize::from(region));
        }
    }
}

// Refused where a thread was refused memory.
fn refuse_starved(flags: &Flags) -> Result<(), DriveError>
    ensures { IfErr result (λ e. e ≡ drive_is.NoMemory) }
{
    if flags.is_starved() {
        return Err(DriveError::NoMemory);
    }
    Ok(())
}

// One turn of the front: whether it was the last. Refused where it fails, or a thread was refused memory.
fn turn<R: Wait>(
    rt: &R,
    front: &mut Front,
    shared: &Shared,
    quiet: &mut Quiet,
) -> Result<bool, DriveError>
    requires admin_sq { 0 < length front.old.gets }
    requires admin_cq { 0 < length front.old.puts }
    requires seat { front.old.hands.seat.lane ≡ shared.now.lanes }
    ensures goes_on { GoesOn front.old front.new }
    ensures loaded { StaysLoaded front.old front.new }
    ensures accounts { Accounts front.new }
    ensures fault { IfErr result (IsDriveFault front.old) }
    ensures fault_at { IfErr result (IsFaultAt front.old front.new) }
{
    let fed = Fed {
        is_admin: shared.flags.is_admin_fed(),
        are_all: shared.flags.are_all_fed(),
    };
    let step = match front.turn(rt, &shared.lanes) {
        Ok(step) => step,
        Err(error) => return Err(DriveError::from(error)),
    };
    refuse_starved(&shared.flags)?;
    Ok(quiet.ends(rt, front, step, fed, &shared.flags))
}

/// Makes turns of the front until an idle turn that began when all feeders had ended leaves the front clear, or
/// `patience` turns in a row were idle, or a turn fails, or a thread was refused memory. If one was refused memory
/// before, it makes none.
pub fn serve<R: Wait>(
    rt: &R,
    front: &mut Front,
    shared: &Shared,
    patience: u32,
) -> Result<(), DriveError>
    requires admin_sq { 0 < length front.old.gets }
    requires admin_cq { 0 < length front.old.puts }
    requires seat { front.old.hands.seat.lane ≡ shared.now.lanes }
    ensures goes_on { GoesOn front.old front.new }
    ensures loaded { StaysLoaded front.old front.new }
    ensures fault { IfErr result (IsDriveFault front.old) }
    ensures fault_at { IfErr result (IsFaultAt front.old front.new) }
{
    refuse_starved(&shared.flags)?;
    let mut quiet = Quiet::new(front, patience);
    for _ in rt.forever() {
        match turn(rt, front, shared, &mut quiet) {
            Ok(false) => {}
            Ok(true) => return Ok(()),
            Err(error) => return Err(error),
        }
    }
    unreachable!()
}
