ghost use Rattle.std.specs.Prelude.{◌≡◌, ◌+◌, ◌≤◌, Ok, Some, IfOk, IfErr, OnOk, IsErrOf, length, vec_len, IsUtf8};
ghost use Rattle.toml.specs.Parse.{parse_document};
ghost use Rattle.toml.specs.View.{view, table_view};
ghost use Rattle.nvme_workload.specs.Readings.{FailsAt, Gives, GivesAt, seen, number_at};
ghost use Rattle.nvme_workload.specs.Plan.{plan_of, mechanism_of, with_size, sizes_of, reading_of, plan_in, plan_of_text, workload_of};
ghost use Rattle.nvme_workload.specs.declared.place.Spot.TheVariants.{Top};
ghost use Rattle.nvme_admin.specs.declared.bounds.TheConstants.{MAX_IO_QUEUES};
ghost use Rattle.nvme_workload.specs.Documents.{IsFaultOf};
ghost use Rattle.nvme_workload.specs.Sound.{IsLimit, AreSizes, IsSound};

use crate::error::WorkloadError;
use crate::flaw::{Flaw, PlanError};
use crate::key::{FILE_KEYS, Key};
use crate::memory::is_enough_for;
use crate::place::Spot;
use crate::plan::Workload;
use crate::ranges::{BLOCKS, DWORD, QUEUES, TURNS};
use crate::regions::{completions_of, submissions_of};
use crate::values::{array_of, number_at, only_keys, value_at, whole};
use nvme_admin::Limits;
use nvme_arbiter::{Mechanism, Settings};
use nvme_entry::{MAX_NAMESPACES, Namespaces, SpaceError};
use std::alloc::Global;
use toml::{Table, Value};

// The mechanism.
fn mechanism_of(value: &Value) -> Result<Mechanism, PlanError>
    ensures { result ≡ mechanism_of (view value.now) }
{
    match value.as_str() {
        Some("round-robin") => Ok(Mechanism::RoundRobin),
        Some("weighted") => Ok(Mechanism::Weighted),
        _ => Err(PlanError::At(Spot::Top, Flaw::Bad(Key::Mechanism))),
    }
}

// Appends the size of one more namespace.
#[tactic(auto, unfolding(crate::specs::Plan::with_size))]
fn push_size(sizes: &mut Vec<u64>, item: &Value) -> Result<(), PlanError>
    ensures ok { OnOk result (with_size sizes.old.items (view item.now) ≡ Ok sizes.new.items) }
    ensures err { IfErr result (λ e. FailsAt e (with_size sizes.old.items (view item.now))) }
    ensures one { OnOk result (vec_len sizes.new ≡ vec_len sizes.old + 1) }
    ensures sound { OnOk result (AreSizes sizes.old.items → AreSizes sizes.new.items) }
{
    let size = whole(Spot::Top, item, Key::Namespaces, BLOCKS)?;
    sizes.push(size)?;
    Ok(())
}

// The namespaces.
#[tactic(auto, using(crate::proofs::Turns::item_count_view), unfolding(crate::specs::Plan::sizes_of))]
fn spaces_of(alloc: Global, value: &Value) -> Result<Namespaces, PlanError>
    ensures value { GivesAt result (sizes_of (view value.now)) }
    ensures few { IfOk result (λ sizes. length sizes ≤ MAX_NAMESPACES) }
    ensures sound { IfOk result AreSizes }
{
    let items = array_of(Spot::Top, value, Key::Namespaces)?;
    if MAX_NAMESPACES < items.len() {
        return Err(PlanError::At(Spot::Top, Flaw::Most(Key::Namespaces)));
    }
    let mut sizes = Vec::new(alloc);
    for item in items {
        push_size(&mut sizes, item)?;
    }
    match Namespaces::new(&sizes) {
        Ok(spaces) => Ok(spaces),
        Err(SpaceError::TooMany) => Err(PlanError::At(Spot::Top, Flaw::Most(Key::Namespaces))),
        Err(SpaceError::Empty) => Err(PlanError::At(Spot::Top, Flaw::Bad(Key::Namespaces))),
    }
}

// The limit on the queues of a kind.
fn limit_at(table: &Table, key: Key) -> Result<u16, PlanError>
    ensures value { result ≡ number_at Top key 1 MAX_IO_QUEUES (table_view table.now) }
    ensures in_range { IfOk result IsLimit }
{
    let limit = number_at(Spot::Top, table, key, QUEUES)?;
    Ok(limit as u16)
}

/// The workload of a document, or its first flaw and the table where it is.
#[tactic(auto, unfolding(crate::specs::Plan::reading_of))]
pub(crate) fn reading_of(alloc: Global, table: &Table) -> Result<Workload, PlanError>
    ensures value { GivesAt (seen plan_of result) (reading_of (table_view table.now)) }
    ensures sound { IfOk result (λ w. IsSound (plan_of w)) }
{
    only_keys(Spot::Top, &FILE_KEYS, table)?;
    let mechanism = mechanism_of(value_at(Spot::Top, table, Key::Mechanism)?)?;
    let arbitration = number_at(Spot::Top, table, Key::Arbitration, DWORD)?;
    let nsq = limit_at(table, Key::SqLimit)?;
    let ncq = limit_at(table, Key::CqLimit)?;
    let patience = number_at(Spot::Top, table, Key::Patience, TURNS)?;
    let spaces = spaces_of(alloc, value_at(Spot::Top, table, Key::Namespaces)?)?;
    let submissions = submissions_of(alloc, value_at(Spot::Top, table, Key::Submission)?)?;
    let completions = completions_of(
        alloc,
        submissions.as_slice(),
        value_at(Spot::Top, table, Key::Completion)?,
    )?;
    Ok(Workload {
        mechanism,
        settings: Settings::from_cdw11(arbitration as u32),
        limits: Limits { nsq, ncq },
        spaces,
        patience: patience as u32,
        submissions,
        completions,
    })
}

/// Reads a workload of the document of a file: what it says, or its first fault, as `read` does.
pub fn read_document(alloc: Global, table: &Table) -> Result<Workload, WorkloadError>
    ensures value { Gives (seen plan_of result) (plan_in (table_view table.now)) }
    ensures sound { IfOk result (λ w. IsSound (plan_of w)) }
{
    match reading_of(alloc, table) {
        Ok(workload) => Ok(workload),
        Err(PlanError::At(_, flaw)) => Err(flaw.fault()),
        Err(PlanError::NoMemory) => Err(WorkloadError::NoMemory),
    }
}

/// Why a text gives no document.
#[derive(Debug, Drop)]
pub enum DocumentError {
    /// The text is not a TOML document.
    NotToml(toml::de::Error),
    /// Memory was refused, or `MAX_MEMORY` may not be enough.
    NoMemory,
}

/// The document of a text. A text that may take more than `MAX_MEMORY` isn't read.
pub fn document(alloc: Global, text: &str) -> Result<Table, DocumentError>
    ensures value { IfOk result (λ t. parse_document text.now ≡ Some (table_view t)) }
    ensures not_toml { IfErr result (IsFaultOf text.now) }
{
    if !is_enough_for(text.as_bytes()) {
        return Err(DocumentError::NoMemory);
    }
    match toml::table_from_str(alloc, text) {
        Ok(table) => Ok(table),
        Err(fault) if fault.is_memory() => Err(DocumentError::NoMemory),
        Err(fault) => Err(DocumentError::NotToml(fault)),
    }
}

// The workload of a text.
#[tactic(auto, unfolding(crate::specs::Plan::plan_of_text))]
fn workload_of_text(alloc: Global, text: &str) -> Result<Workload, WorkloadError>
    ensures value { Gives (seen plan_of result) (plan_of_text text.now) }
    ensures sound { IfOk result (λ w. IsSound (plan_of w)) }
{
    match document(alloc, text) {
        Ok(table) => read_document(alloc, &table),
        Err(DocumentError::NoMemory) => Err(WorkloadError::NoMemory),
        Err(DocumentError::NotToml(_)) => Err(WorkloadError::NotToml),
    }
}

/// Reads a workload file: what it says, or its first fault. The bytes have to be UTF-8, and the text a
/// TOML document. In each table the keys that it may not have are looked for first, then each of its
/// keys in the order of `Key`, and an array item by item, but its length before its items. All of
/// `submission`, scripts included, comes before `completion`.
///
/// `NoMemory` comes in a fault's place only where memory was refused before that fault was found, or where `MAX_MEMORY`
/// may not be enough for the text. On a fault nothing is kept.
#[tactic(auto, unfolding(crate::specs::Plan::workload_of))]
pub fn read(alloc: Global, bytes: &[u8]) -> Result<Workload, WorkloadError>
    ensures value { Gives (seen plan_of result) (workload_of bytes.now) }
    ensures sound { IfOk result (λ w. IsSound (plan_of w)) }

    // Bytes that are no text are told from others without memory.
    ensures not_utf8 { ¬ IsUtf8 bytes.now → IsErrOf result WorkloadError.NotUtf8 }
{
    match std::str::from_utf8(bytes) {
        Ok(text) => workload_of_text(alloc, text),
        Err(_) => Err(WorkloadError::NotUtf8),
    }
}
