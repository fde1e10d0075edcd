// Finds the scripts of a workload that are too long for their rings, or come to nothing.
ghost use Rattle.std.specs.Prelude.{◌≡◌, ◌≤◌, ◌++◌, length, reverse, OnOk};
ghost use Rattle.nvme_admin.specs.Standing.{used_at};
ghost use Rattle.nvme_admin.specs.declared.bounds.TheConstants.{MAX_REGIONS};
ghost use Rattle.nvme_lint.specs.Warnings.{count_of, failing, of_script, of_scripts};

use crate::warning::Warning;
use crate::warnings::push_unless;
use nvme_admin::Table;
use nvme_entry::{Namespaces, Sqe, Status, outcome};
use nvme_workload::SqPlan;
use std::alloc::AllocError;

// How many commands of a script are answered with this status.
fn count_of(script: &[Sqe], spaces: &Namespaces, status: Status) -> usize
    ensures { result ≡ count_of spaces.now status script.now }
{
    let mut count = 0usize;
    for entry in script {
        if outcome(entry, spaces) == status {
            count += 1;
        }
    }
    count
}

// Appends a warning for a script without a command that is answered with success.
fn push_failing(
    warnings: &mut Vec<Warning>,
    region: usize,
    script: &[Sqe],
    spaces: &Namespaces,
) -> Result<(), AllocError>
    ensures told { OnOk result (warnings.new.items ≡ warnings.old.items ++ failing spaces.now region script.now) }
{
    let [first, ..] = script else {
        return Ok(());
    };
    let status = outcome(first, spaces);
    let failing = Warning::Failing {
        region,
        failing: count_of(script, spaces, status),
        commands: script.len(),
        status,
    };
    push_unless(
        warnings,
        0 < count_of(script, spaces, Status::SUCCESS),
        failing,
    )
}

// Appends the warnings of the script of a submission region.
fn push_script(
    warnings: &mut Vec<Warning>,
    region: usize,
    plan: &SqPlan,
    spaces: &Namespaces,
    is_used: bool,
) -> Result<(), AllocError>
    ensures told { OnOk result (warnings.new.items ≡ warnings.old.items ++ of_script spaces.now is_used region plan.now) }
{
    let script = plan.script.as_slice();
    let too_long = Warning::TooLong {
        region,
        commands: script.len(),
        slots: plan.slots,
    };
    push_unless(warnings, script.len() < usize::from(plan.slots), too_long)?;
    if region == 0 || !is_used {
        return Ok(());
    }
    push_failing(warnings, region, script, spaces)
}

/// Appends the warnings of the scripts of all submission regions.
pub(crate) fn push_scripts(
    warnings: &mut Vec<Warning>,
    table: &Table,
    plans: &[SqPlan],
    spaces: &Namespaces,
) -> Result<(), AllocError>
    requires few { length plans.now ≤ MAX_REGIONS }
    ensures told { OnOk result (warnings.new.items ≡ warnings.old.items ++ of_scripts spaces.now (used_at table.now.sq_used) (reverse plans.now)) }
{
    for (region, plan) in plans.iter().enumerate() {
        push_script(
            warnings,
            region,
            plan,
            spaces,
            table.is_sq_region_used(region),
        )?;
    }
    Ok(())
}
