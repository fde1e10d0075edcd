// Finds what of a valid workload has no effect. The admin commands are applied in order: a front begins none before the
// deletion of an earlier one is finished, so their answers depend on nothing else.
//
// Decided: an Abort is warned of where there is no such command; whether one still waits depends on the run. A script
// is warned of where no command succeeds: a few that fail may be meant.
ghost use Rattle.std.specs.Prelude.{◌≡◌, ℕ, ◌≤◌, ◌++◌, [], length, map, reverse, slice_get, ◌%◌, IfOk, OnOk};
ghost use Rattle.std.specs.List.{All};
ghost use Rattle.nvme_admin.specs.Checks.{is_success};
ghost use Rattle.nvme_admin.specs.declared.bounds.TheConstants.{MAX_REGIONS};
ghost use Rattle.nvme_admin.specs.History.{Start, TableHistory};
ghost use Rattle.nvme_admin.specs.Accepted.{status_of};
ghost use Rattle.nvme_admin.specs.Standing.{StandsAt, sq_of, used_at};
ghost use Rattle.nvme_workload.specs.Plan.{plan_of};
ghost use Rattle.nvme_workload.specs.Sound.{IsSound, AreSlots, AreSubmissions, AreApart, IsRegionCount};
ghost use Rattle.nvme_lint.specs.Warnings.{start_of, with_sqs, with_cqs, first_history, aborts_none, commands_of, has_cid, history_after, history_of, of_command, of_commands, script_length, told_of, unused_sqs, unused_cqs, warning_unless, warnings_of};
ghost use Rattle.nvme_lint.specs.inside.Regions.{sq_site, cq_site};

use crate::heed::push_unheeded;
use crate::room::{Room, room_of};
use crate::scripts::push_scripts;
use crate::site::{Site, site_of};
use crate::warning::{Kind, Warning};
use nvme_admin::{Table, Verdict};
use nvme_entry::{Sqe, Status};
use nvme_workload::{CqPlan, SqPlan, Workload};
use std::alloc::{AllocError, Global};

// Adds the submission regions of a workload to a table without regions.
fn add_sqs(table: &mut Table, plans: &[SqPlan])
    requires first { (table.old.sq_regions ≡ []) × (table.old.cq_regions ≡ []) }
    requires regions { AreSubmissions plans.now }
    requires few { IsRegionCount (length plans.now) }
    ensures stands { (start : Start) (h : TableHistory) → StandsAt start table.old h → StandsAt start table.new (with_sqs h plans.now) }
    ensures sqs { table.new.sq_regions ≡ map sq_site plans.now }
    ensures cqs { table.new.cq_regions ≡ [] }
{
    for plan in plans {
        match table.add_sq_region(plan.address, plan.slots) {
            Ok(_) => {}
            Err(_) => unreachable!(),
        }
    }
}

// Adds the completion regions of a workload after its submission regions.
fn add_cqs(table: &mut Table, sqs: &[SqPlan], plans: &[CqPlan])
    requires first { (table.old.sq_regions ≡ map sq_site sqs.now) × (table.old.cq_regions ≡ []) }
    requires slots { All (λ (c : CqPlan). AreSlots c.slots) plans.now }
    requires apart { AreApart sqs.now plans.now }
    requires few { IsRegionCount (length plans.now) }
    ensures stands { (start : Start) (h : TableHistory) → StandsAt start table.old h → StandsAt start table.new (with_cqs h plans.now) }
{
    for plan in plans {
        match table.add_cq_region(plan.address, plan.slots) {
            Ok(_) => {}
            Err(_) => unreachable!(),
        }
    }
}

// The queue table before the first admin command.
fn first_table(workload: &Workload) -> Table
    requires sound { IsSound (plan_of workload.now) }
    ensures stands { StandsAt (start_of (plan_of workload.now)) result (first_history (plan_of workload.now)) }
{
    let mut table = Table::new(workload.limits, workload.settings);
    add_sqs(&mut table, workload.submissions.as_slice());
    add_cqs(
        &mut table,
        workload.submissions.as_slice(),
        workload.completions.as_slice(),
    );
    table
}

// Applies one more command, and gives its status.
fn play(table: &mut Table, entry: &Sqe) -> Status
    requires stands { (start : Start) × (h : TableHistory) × StandsAt start table.old h }
    ensures status { (start : Start) (h : TableHistory) → StandsAt start table.old h → result ≡ status_of start h entry.now }
    ensures stands { (start : Start) (h : TableHistory) → StandsAt start table.old h → StandsAt start table.new (history_after start h entry.now) }
{
    match table.apply(entry) {
        Verdict::Done(status, _) => status,
        Verdict::BeginDelete { qid } => {
            table.finish_delete(qid);
            Status::SUCCESS
        }
        _ => Status::SUCCESS,
    }
}

// Whether a command was accepted.
fn is_success(status: Status) -> bool
    ensures { result ≡ is_success status }
{
    status == Status::SUCCESS
}

/// Appends a warning, unless all is well.
pub(crate) fn push_unless(
    warnings: &mut Vec<Warning>,
    is_well: bool,
    warning: Warning,
) -> Result<(), AllocError>
    ensures told { OnOk result (warnings.new.items ≡ warnings.old.items ++ warning_unless is_well warning) }
{
    if !is_well {
        warnings.push(warning)?;
    }
    Ok(())
}

// Whether a CID is that of one of so many commands.
fn has_cid(commands: Option<usize>, cid: u32) -> bool
    ensures { result ≡ has_cid commands cid }
{
    match commands {
        Some(commands) => u64::from(cid) < commands as u64,
        None => false,
    }
}

// Whether a command is an Abort that aborts nothing: of the admin queue, or of a command that its queue, which has so many,
// doesn't have.
fn aborts_none(commands: Option<usize>, entry: &Sqe) -> bool
    ensures { result ≡ aborts_none commands entry.now }
{
    entry.opcode == 0x08
        && (entry.cdw10 % 0x1_0000 == 0 || !has_cid(commands, entry.cdw10 / 0x1_0000))
}

// How many commands the script of a region has, or 0 where there is no such region.
fn script_length(sqs: &[SqPlan], region: usize) -> usize
    ensures { result ≡ script_length (slice_get sqs.now region) }
{
    match sqs.get(region) {
        Some(plan) => plan.script.as_slice().len(),
        None => 0,
    }
}

// How many commands the queue has that an Abort names, where it is open.
fn commands_at(table: &Table, sqs: &[SqPlan], entry: &Sqe) -> Option<usize>
    ensures { result ≡ commands_of sqs.now (sq_of table.now (entry.now.cdw10 % 65536)) }
{
    match table.sq((entry.cdw10 % 0x1_0000) as u16) {
        Some(queue) => Some(script_length(sqs, usize::from(queue.region))),
        None => None,
    }
}

// Appends the warning of an admin command, if there is one.
fn push_command(
    warnings: &mut Vec<Warning>,
    command: usize,
    entry: &Sqe,
    status: Status,
    site: Option<Site>,
    room: Room,
    commands: Option<usize>,
) -> Result<(), AllocError>
    ensures told { OnOk result (warnings.new.items ≡ warnings.old.items ++ of_command command entry.now status site room commands) }
{
    let entry = *entry;
    if !is_success(status) {
        let refused = Warning::Refused {
            command,
            entry,
            status,
            site,
            room,
        };
        return push_unless(warnings, false, refused);
    }
    let no_target = Warning::NoTarget {
        command,
        entry,
        commands,
    };
    push_unless(warnings, !aborts_none(commands, &entry), no_target)
}

// Applies the admin commands, and appends the warning of each.
fn push_commands(
    warnings: &mut Vec<Warning>,
    table: &mut Table,
    sqs: &[SqPlan],
    cqs: &[CqPlan],
    script: &[Sqe],
) -> Result<(), AllocError>
    requires stands { (start : Start) × (h : TableHistory) × StandsAt start table.old h }
    ensures told { OnOk result ((start : Start) (h : TableHistory) → StandsAt start table.old h → warnings.new.items ≡ warnings.old.items ++ of_commands (told_of sqs.now cqs.now) start h (reverse script.now)) }
    ensures stands { OnOk result ((start : Start) (h : TableHistory) → StandsAt start table.old h → StandsAt start table.new (history_of start h (reverse script.now))) }
{
    for (command, entry) in script.iter().enumerate() {
        let commands = commands_at(table, sqs, entry);
        let room = room_of(table, entry);
        let status = play(table, entry);
        let site = site_of(sqs, cqs, entry);
        push_command(warnings, command, entry, status, site, room, commands)?;
    }
    Ok(())
}

// Appends a warning for each submission region that no queue was created on.
fn push_unused_sqs(
    warnings: &mut Vec<Warning>,
    table: &Table,
    plans: &[SqPlan],
) -> Result<(), AllocError>
    requires few { length plans.now ≤ MAX_REGIONS }
    ensures told { OnOk result (warnings.new.items ≡ warnings.old.items ++ unused_sqs (used_at table.now.sq_used) (reverse plans.now)) }
{
    for (region, plan) in plans.iter().enumerate() {
        let unused = Warning::Unused {
            kind: Kind::Submission,
            region,
            commands: plan.script.as_slice().len(),
        };
        push_unless(warnings, table.is_sq_region_used(region), unused)?;
    }
    Ok(())
}

// Appends a warning for each completion region that no queue was created on.
fn push_unused_cqs(
    warnings: &mut Vec<Warning>,
    table: &Table,
    plans: &[CqPlan],
) -> Result<(), AllocError>
    requires few { length plans.now ≤ MAX_REGIONS }
    ensures told { OnOk result (warnings.new.items ≡ warnings.old.items ++ unused_cqs (used_at table.now.cq_used) (reverse plans.now)) }
{
    for (region, _) in plans.iter().enumerate() {
        let unused = Warning::Unused {
            kind: Kind::Completion,
            region,
            commands: 0,
        };
        push_unless(warnings, table.is_cq_region_used(region), unused)?;
    }
    Ok(())
}

/// What of a workload has no effect: first the admin commands that are refused or abort a command that there isn't, in
/// order, then the regions that no queue is created on, submission regions first, then the scripts that are too long for
/// their rings or come to nothing, then weights and classes that the mechanism doesn't heed.
pub(crate) fn warnings_of(alloc: Global, workload: &Workload) -> Result<Vec<Warning>, AllocError>
    requires sound { IsSound (plan_of workload.now) }
    ensures told { IfOk result (λ ws. ws.items ≡ warnings_of (plan_of workload.now)) }
{
    let submissions = workload.submissions.as_slice();
    let completions = workload.completions.as_slice();
    let mut warnings = Vec::new(alloc);
    let mut table = first_table(workload);
    let script = submissions[0].script.as_slice();
    push_commands(&mut warnings, &mut table, submissions, completions, script)?;
    push_unused_sqs(&mut warnings, &table, submissions)?;
    push_unused_cqs(&mut warnings, &table, completions)?;
    push_scripts(&mut warnings, &table, submissions, &workload.spaces)?;
    push_unheeded(
        &mut warnings,
        workload.mechanism,
        &workload.settings,
        script,
    )?;
    Ok(warnings)
}
