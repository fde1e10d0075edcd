ghost use Rattle.std.specs.Prelude.{◌≡◌, ◌+◌, ◌≤◌, ◌++◌, length, Ok, IfOk, IfErr, OnOk};
ghost use Rattle.toml.specs.View.{view, items_view};
ghost use Rattle.nvme_workload.specs.Readings.{FailsAt, GivesAt, in_turn};
ghost use Rattle.nvme_workload.specs.Scripts.{most_commands, command_of, copies_of, with_item, script_of};
ghost use Rattle.nvme_workload.specs.Sound.{IsNumbered};

use crate::flaw::{Flaw, PlanError};
use crate::key::{COMMAND_KEYS, Key};
use crate::place::Spot;
use crate::plan::Sequence;
use crate::ranges::{ADDRESS, BYTE, COPIES, DWORD};
use crate::values::{array_of, number_at, number_or, only_keys, table_of};
use nvme_entry::Sqe;
use std::alloc::{AllocError, Global};
use toml::Value;

/// The most commands of all scripts of a file together. (profile)
pub const MAX_COMMANDS: usize = 65_536;

// An item of a script, after the given number of commands of all scripts: the command, and how often it stands there.
#[tactic(auto, unfolding(crate::specs::Scripts::command_of))]
fn command_of(spot: Spot, item: &Value, before: usize) -> Result<(Sqe, usize), PlanError>
    requires { before ≤ most_commands }
    ensures value { result ≡ command_of spot before (view item.now) }
    ensures fits { IfOk result (λ c. before + c.1 ≤ most_commands) }
{
    let table = table_of(spot, item, Key::Script)?;
    only_keys(spot, &COMMAND_KEYS, table)?;
    let op = number_at(spot, table, Key::Op, BYTE)?;
    let flags = number_or(spot, table, Key::Flags, 0, BYTE)?;
    let nsid = number_or(spot, table, Key::Nsid, 0, DWORD)?;
    let prp1 = number_or(spot, table, Key::Prp1, 0, ADDRESS)?;
    let cdw10 = number_or(spot, table, Key::Cdw10, 0, DWORD)?;
    let cdw11 = number_or(spot, table, Key::Cdw11, 0, DWORD)?;
    let cdw12 = number_or(spot, table, Key::Cdw12, 0, DWORD)?;
    let count = number_or(spot, table, Key::Count, 1, COPIES)? as usize;
    if MAX_COMMANDS < before + count {
        return Err(PlanError::At(spot, Flaw::Most(Key::Count)));
    }
    let command = Sqe {
        opcode: op as u8,
        flags: flags as u8,
        nsid: nsid as u32,
        prp1,
        cdw10: cdw10 as u32,
        cdw11: cdw11 as u32,
        cdw12: cdw12 as u32,
        ..Sqe::default()
    };
    Ok((command, count))
}

// Appends n equal commands: the CID of each is its index in the script.
fn push_copies(script: &mut Vec<Sqe>, command: Sqe, n: usize) -> Result<(), AllocError>
    requires { length script.old.items + n ≤ most_commands }
    ensures ok { OnOk result (script.new.items ≡ script.old.items ++ copies_of command (length script.old.items) n) }
    ensures numbered { OnOk result (IsNumbered script.old.items → IsNumbered script.new.items) }
{
    let first = script.len();
    for index in first..first + n {
        script.push(Sqe {
            cid: index as u16,
            ..command
        })?;
    }
    Ok(())
}

// Appends the commands of one more item of a script.
#[tactic(auto, unfolding(crate::specs::Scripts::with_item))]
fn push_item(
    script: &mut Vec<Sqe>,
    region: usize,
    index: usize,
    earlier: usize,
    item: &Value,
) -> Result<(), PlanError>
    requires { earlier + length script.old.items ≤ most_commands }
    ensures ok { OnOk result (with_item region earlier index script.old.items (view item.now) ≡ Ok script.new.items) }
    ensures err { IfErr result (λ e. FailsAt e (with_item region earlier index script.old.items (view item.now))) }
    ensures fits { OnOk result (earlier + length script.new.items ≤ most_commands) }
    ensures numbered { OnOk result (IsNumbered script.old.items → IsNumbered script.new.items) }
{
    let spot = Spot::Item {
        region,
        item: index,
    };
    let (command, count) = command_of(spot, item, earlier + script.len())?;
    push_copies(script, command, count)?;
    Ok(())
}

// Appends the commands of the items of a script.
fn push_items(
    script: &mut Vec<Sqe>,
    region: usize,
    earlier: usize,
    items: &[Value],
) -> Result<(), PlanError>
    requires { earlier + length script.old.items ≤ most_commands }
    ensures ok { OnOk result (in_turn (with_item region earlier) 0 script.old.items (items_view items.now) ≡ Ok script.new.items) }
    ensures err { IfErr result (λ e. FailsAt e (in_turn (with_item region earlier) 0 script.old.items (items_view items.now))) }
    ensures fits { OnOk result (earlier + length script.new.items ≤ most_commands) }
    ensures numbered { OnOk result (IsNumbered script.old.items → IsNumbered script.new.items) }
{
    for (index, item) in items.iter().enumerate() {
        push_item(script, region, index, earlier, item)?;
    }
    Ok(())
}

// The script of this region, after the given number of commands in the scripts before it.
#[tactic(auto, unfolding(crate::specs::Scripts::script_of))]
pub(crate) fn script_of(
    alloc: Global,
    value: &Value,
    region: usize,
    earlier: usize,
) -> Result<Sequence<Sqe>, PlanError>
    requires { earlier ≤ most_commands }
    ensures value { GivesAt result (script_of region earlier (view value.now)) }
    ensures fits { IfOk result (λ s. earlier + length s ≤ most_commands) }
    ensures numbered { IfOk result IsNumbered }
{
    let items = array_of(Spot::Submission(region), value, Key::Script)?;
    let mut script = Vec::new(alloc);
    push_items(&mut script, region, earlier, items)?;
    Ok(Sequence::new(script))
}
