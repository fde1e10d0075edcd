ghost use Rattle.std.specs.Prelude.{◌≡◌, ◌==◌, ◌+◌, ◌≤◌, false, [], length, vec_len, Ok, IfOk, IfErr, OnOk};
ghost use Rattle.std.specs.List.{list_any};
ghost use Rattle.toml.specs.View.{view, array_view, table_view};
ghost use Rattle.nvme_workload.specs.Readings.{FailsAt, GivesAt, seen};
ghost use Rattle.nvme_workload.specs.Scripts.{most_commands};
ghost use Rattle.nvme_workload.specs.Regions.{has_address, address_in, slots_in, command_count, submission_of, completion_of, regions_of, with_submission, with_completion, submissions_of, completions_of};
ghost use Rattle.nvme_workload.specs.Sound.{IsNumbered, AreSlots, AreApart, AreSubmissions, AreCompletions, IsRegionCount};

use crate::flaw::{Flaw, PlanError};
use crate::key::{COMPLETION_KEYS, Key, SUBMISSION_KEYS};
use crate::place::Spot;
use crate::plan::{CqPlan, Sequence, SqPlan};
use crate::ranges::{ADDRESS, SLOTS};
use crate::scripts::script_of;
use crate::values::{array_of, number_at, only_keys, table_of, value_at};
use nvme_admin::MAX_REGIONS;
use std::alloc::Global;
use toml::value::Array;
use toml::{Table, Value};

// Whether a submission region of these has the address.
fn submission_has(regions: &[SqPlan], address: u64) -> bool
    ensures { result ≡ list_any (λ p. p.address == address) regions.now }
{
    regions.iter().any(|region| region.address == address)
}

// Whether a completion region of these has the address.
fn completion_has(regions: &[CqPlan], address: u64) -> bool
    ensures { result ≡ list_any (λ p. p.address == address) regions.now }
{
    regions.iter().any(|region| region.address == address)
}

// The address of a region, which no region read before has.
#[tactic(auto, unfolding(crate::specs::Regions::address_in))]
fn address_in(
    spot: Spot,
    submissions: &[SqPlan],
    completions: &[CqPlan],
    table: &Table,
) -> Result<u64, PlanError>
    ensures value { result ≡ address_in spot submissions.now completions.now (table_view table.now) }
    ensures fresh { IfOk result (λ a. has_address submissions.now completions.now a ≡ false) }
{
    let address = number_at(spot, table, Key::Address, ADDRESS)?;
    if submission_has(submissions, address) || completion_has(completions, address) {
        return Err(PlanError::At(spot, Flaw::Repeated));
    }
    Ok(address)
}

// The slots of a region.
#[tactic(auto, unfolding(crate::specs::Regions::slots_in))]
fn slots_in(spot: Spot, table: &Table) -> Result<u16, PlanError>
    ensures value { result ≡ slots_in spot (table_view table.now) }
    ensures in_range { IfOk result AreSlots }
{
    let slots = number_at(spot, table, Key::Slots, SLOTS)?;
    Ok(slots as u16)
}

// A submission region, after those before it, whose scripts have the given number of commands.
#[tactic(auto, unfolding(crate::specs::Regions::submission_of))]
fn submission_of(
    alloc: Global,
    before: &[SqPlan],
    commands: usize,
    item: &Value,
) -> Result<SqPlan, PlanError>
    requires all { commands ≡ command_count before.now }
    requires fit { commands ≤ most_commands }
    ensures value { GivesAt result (submission_of before.now (view item.now)) }
    ensures fits { IfOk result (λ p. commands + length p.script ≤ most_commands) }
    ensures slots { IfOk result (λ p. AreSlots p.slots) }
    ensures fresh { IfOk result (λ p. has_address before.now [] p.address ≡ false) }
    ensures numbered { IfOk result (λ p. IsNumbered p.script) }
{
    let spot = Spot::Submission(before.len());
    let table = table_of(spot, item, Key::Submission)?;
    only_keys(spot, &SUBMISSION_KEYS, table)?;
    let address = address_in(spot, before, &[], table)?;
    let slots = slots_in(spot, table)?;
    let script = value_at(spot, table, Key::Script)?;
    let script = script_of(alloc, script, before.len(), commands)?;
    Ok(SqPlan {
        address,
        slots,
        script,
    })
}

// A completion region, after the regions before it.
#[tactic(auto, unfolding(crate::specs::Regions::completion_of))]
fn completion_of(
    submissions: &[SqPlan],
    before: &[CqPlan],
    item: &Value,
) -> Result<CqPlan, PlanError>
    ensures value { result ≡ completion_of submissions.now before.now (view item.now) }
    ensures slots { IfOk result (λ p. AreSlots p.slots) }
    ensures fresh { IfOk result (λ p. has_address submissions.now before.now p.address ≡ false) }
{
    let spot = Spot::Completion(before.len());
    let table = table_of(spot, item, Key::Completion)?;
    only_keys(spot, &COMPLETION_KEYS, table)?;
    let address = address_in(spot, submissions, before, table)?;
    let slots = slots_in(spot, table)?;
    Ok(CqPlan { address, slots })
}

// The items of the array of a kind's regions.
#[tactic(auto, using(crate::proofs::Turns::item_count_view), unfolding(crate::specs::Regions::regions_of))]
fn regions_of(value: &Value, key: Key) -> Result<&Array, PlanError>
    ensures value { seen (λ v. array_view v.now) result ≡ regions_of key (view value.now) }
    ensures count { IfOk result (λ v. IsRegionCount (vec_len v.now)) }
{
    let items = array_of(Spot::Top, value, key)?;
    if items.is_empty() {
        return Err(PlanError::At(Spot::Top, Flaw::Bad(key)));
    }
    if MAX_REGIONS < items.len() {
        return Err(PlanError::At(Spot::Top, Flaw::Most(key)));
    }
    Ok(items)
}

// Appends one more submission region. The scripts of those before it have the given number of commands.
#[tactic(auto, unfolding(crate::specs::Regions::with_submission))]
fn push_submission(
    alloc: Global,
    regions: &mut Vec<SqPlan>,
    commands: usize,
    item: &Value,
) -> Result<usize, PlanError>
    requires all { commands ≡ command_count regions.old.items }
    requires fit { commands ≤ most_commands }
    ensures ok { OnOk result (with_submission regions.old.items (view item.now) ≡ Ok regions.new.items) }
    ensures err { IfErr result (λ e. FailsAt e (with_submission regions.old.items (view item.now))) }
    ensures commands { IfOk result (λ n. (n ≡ command_count regions.new.items) × (n ≤ most_commands)) }
    ensures one { OnOk result (vec_len regions.new ≡ vec_len regions.old + 1) }
    ensures sound { OnOk result (AreSubmissions regions.old.items → AreSubmissions regions.new.items) }
{
    let region = submission_of(alloc, regions, commands, item)?;
    let commands = commands + region.script.len();
    regions.push(region)?;
    Ok(commands)
}

// Appends one more completion region.
#[tactic(auto, using(crate::proofs::SoundLemmas::completions_push), unfolding(crate::specs::Regions::with_completion))]
fn push_completion(
    submissions: &[SqPlan],
    regions: &mut Vec<CqPlan>,
    item: &Value,
) -> Result<(), PlanError>
    ensures ok { OnOk result (with_completion submissions.now regions.old.items (view item.now) ≡ Ok regions.new.items) }
    ensures err { IfErr result (λ e. FailsAt e (with_completion submissions.now regions.old.items (view item.now))) }
    ensures one { OnOk result (vec_len regions.new ≡ vec_len regions.old + 1) }
    ensures sound { OnOk result (AreCompletions submissions.now regions.old.items → AreCompletions submissions.now regions.new.items) }
{
    let region = completion_of(submissions, regions, item)?;
    regions.push(region)?;
    Ok(())
}

// The submission regions.
#[tactic(auto, using(crate::proofs::SoundLemmas::submissions_none), unfolding(crate::specs::Regions::submissions_of))]
pub(crate) fn submissions_of(alloc: Global, value: &Value) -> Result<Sequence<SqPlan>, PlanError>
    ensures value { GivesAt result (submissions_of (view value.now)) }
    ensures count { IfOk result (λ s. IsRegionCount (length s)) }
    ensures sound { IfOk result AreSubmissions }
{
    let items = regions_of(value, Key::Submission)?;
    let mut regions = Vec::new(alloc);
    let mut commands = 0;
    for item in items {
        commands = push_submission(alloc, &mut regions, commands, item)?;
    }
    Ok(Sequence::new(regions))
}

// The completion regions, after the submission regions.
#[tactic(auto, using(crate::proofs::SoundLemmas::completions_none), unfolding(crate::specs::Regions::completions_of))]
pub(crate) fn completions_of(
    alloc: Global,
    submissions: &[SqPlan],
    value: &Value,
) -> Result<Sequence<CqPlan>, PlanError>
    requires { AreApart submissions.now [] }
    ensures value { GivesAt result (completions_of submissions.now (view value.now)) }
    ensures count { IfOk result (λ s. IsRegionCount (length s)) }
    ensures sound { IfOk result (AreCompletions submissions.now) }
{
    let items = regions_of(value, Key::Completion)?;
    let mut regions = Vec::new(alloc);
    for item in items {
        push_completion(submissions, &mut regions, item)?;
    }
    Ok(Sequence::new(regions))
}
