// Reads a workload file for its writer, who is told where its first fault is.
ghost use Rattle.std.specs.Prelude.{◌≡◌, Ok, IfOk, IfErr};
ghost use Rattle.toml.specs.Errors.{IsWithin};
ghost use Rattle.toml.specs.View.{table_view};
ghost use Rattle.nvme_workload.specs.Places.{IsToldOf, keys_in, TellsFault, TellsPlace};
ghost use Rattle.nvme_workload.specs.Plan.{plan_of, reading_of, workload_of};
ghost use Rattle.nvme_workload.specs.Sound.{IsSound};
ghost use Rattle.nvme_workload.specs.declared.error.WorkloadError.TheVariants as why;
ghost use Rattle.nvme_workload.specs.inside.Telling.{IsToldAs, IsToldIn, IsToldOfBytes, IsToldOfSyntax, IsToldOfTable};

use crate::error::WorkloadError;
use crate::fault::{Fault, ReadError, Why};
use crate::file::{DocumentError, document, reading_of};
use crate::flaw::{Flaw, PlanError};
use crate::found::{Found, beginning_of, found_at, table_at};
use crate::key::{COMMAND_KEYS, COMPLETION_KEYS, FILE_KEYS, Key, SUBMISSION_KEYS};
use crate::place::{Place, Spot, behind};
use crate::plan::Workload;
use crate::values::unknown_key;
use std::alloc::{AllocError, Global};
use toml::Table;

// The fault of bytes that aren't UTF-8. `valid` are those before the fault.
fn in_bytes(valid: &[u8]) -> ReadError
    ensures fault { IsToldAs why.NotUtf8 result }
    ensures place { IsToldOfBytes valid.now result }
{
    ReadError::Fault(Fault {
        error: WorkloadError::NotUtf8,
        place: behind(valid),
        found: Found::Untold,
        why: Why::NotUtf8,
    })
}

// The fault of a text that isn't a TOML document.
fn in_text(text: &str, error: toml::de::Error) -> ReadError
    requires within { IsWithin text.now error }
    ensures fault { IsToldAs why.NotToml result }
    ensures place { IsToldOfSyntax text.now error result }
{
    let Some(span) = error.span() else {
        return ReadError::NoMemory;
    };
    ReadError::Fault(Fault {
        error: WorkloadError::NotToml,
        place: behind(&text.as_bytes()[..span.start]),
        found: Found::Untold,
        why: Why::Syntax(error),
    })
}

// The keys that a table may have.
fn known_in(spot: Spot) -> &'static [Key]
    ensures { result.now ≡ keys_in spot }
{
    match spot {
        Spot::Top => &FILE_KEYS,
        Spot::Submission(_) => &SUBMISSION_KEYS,
        Spot::Item { .. } => &COMMAND_KEYS,
        Spot::Completion(_) => &COMPLETION_KEYS,
    }
}

// The unknown key of a table.
fn unknown_in(alloc: Global, table: &Table, spot: Spot) -> Result<String, AllocError> {
    let key = match table_at(table, spot) {
        Some(found) => unknown_key(known_in(spot), found).unwrap_or(""),
        None => "",
    };
    beginning_of(alloc, key)
}

// What was expected in place of a flaw.
fn why_of(alloc: Global, table: &Table, spot: Spot, flaw: Flaw) -> Result<Why, AllocError>
    ensures { IfOk result (IsToldOf spot flaw) }
{
    let why = match flaw {
        Flaw::Missing(key) | Flaw::Bad(key) => Why::Value(key),
        Flaw::Unknown => Why::Unknown {
            key: unknown_in(alloc, table, spot)?,
            known: known_in(spot),
        },
        Flaw::Most(key) => Why::Most(key),
        Flaw::Repeated => Why::Repeated,
    };
    Ok(why)
}

// The flaw of a table, with what stands there.
fn in_table(alloc: Global, table: &Table, spot: Spot, flaw: Flaw) -> ReadError
    ensures { IsToldIn spot flaw result }
{
    let Ok(why) = why_of(alloc, table, spot, flaw) else {
        return ReadError::NoMemory;
    };
    let Ok(found) = found_at(alloc, table, spot, flaw) else {
        return ReadError::NoMemory;
    };
    ReadError::Fault(Fault {
        error: flaw.fault(),
        place: Place::Table(spot),
        found,
        why,
    })
}

// The workload of a document, or its first flaw.
fn in_document(alloc: Global, table: &Table) -> Result<Workload, ReadError>
    ensures value { IfOk result (λ w. reading_of (table_view table.now) ≡ Ok (plan_of w)) }
    ensures sound { IfOk result (λ w. IsSound (plan_of w)) }
    ensures fault { IfErr result (IsToldOfTable (table_view table.now)) }
{
    match reading_of(alloc, table) {
        Ok(workload) => Ok(workload),
        Err(PlanError::At(spot, flaw)) => Err(in_table(alloc, table, spot, flaw)),
        Err(PlanError::NoMemory) => Err(ReadError::NoMemory),
    }
}

/// Reads a workload file as `read` does, and answers of its first fault where it is, what stands there and what was
/// expected. `NoMemory` comes where memory was refused, or where `MAX_MEMORY` may not be enough for the text.
pub fn read_placed(alloc: Global, bytes: &[u8]) -> Result<Workload, ReadError>
    ensures value { IfOk result (λ w. workload_of bytes.now ≡ Ok (plan_of w)) }
    ensures sound { IfOk result (λ w. IsSound (plan_of w)) }
    ensures fault { IfErr result (TellsFault bytes.now) }
    ensures place { IfErr result (TellsPlace bytes.now) }
{
    let text = match std::str::from_utf8(bytes) {
        Ok(text) => text,
        Err(fault) => return Err(in_bytes(&bytes[..fault.valid_up_to()])),
    };
    match document(alloc, text) {
        Ok(table) => in_document(alloc, &table),
        Err(DocumentError::NoMemory) => Err(ReadError::NoMemory),
        Err(DocumentError::NotToml(error)) => Err(in_text(text, error)),
    }
}
