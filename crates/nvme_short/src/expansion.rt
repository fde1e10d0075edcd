// What files of either form stand for.
ghost use Rattle.std.specs.Prelude.{◌≡◌, ◌≤◌, Err, Some, IfOk, IfErr, string_bytes, option_map};
ghost use Rattle.toml.specs.Data.{members_depth};
ghost use Rattle.toml.specs.View.{table_view};
ghost use Rattle.nvme_workload.specs.Plan.{plan_of, plan_in};
ghost use Rattle.nvme_workload.specs.Sound.{IsSound};
ghost use Rattle.nvme_short_form.specs.Readings.{Fails, Gives, seen};
ghost use Rattle.nvme_short.specs.Expansion.{expansion_of, told, plan_of_short, short_in, AreFaultsIn, Reads, StandsFor, TellsFaultsOf, TellsShortFaults};
ghost use Rattle.nvme_short.specs.Names.{AreNamesBy, AreNamesFor, AreNamesIn};
ghost use Rattle.nvme_short.specs.declared.expansion.ExpandError.TheVariants as told_error;

use crate::document::document_of;
use crate::faults::{ShortFaults, told_of};
use crate::names::{Names, names_of};
use nvme_short_form::{Fault, Place, ShortError, flaws_of, form_of, is_short};
use nvme_workload::{DocumentError, Workload, WorkloadError, document, read_document};
use std::alloc::{AllocError, Global};
use thiserror::Error;
use toml::Table;

// The table of today's form that a short table is written out to.
#[tactic(auto, using(crate::proofs::Members::shallow), unfolding(crate::specs::Expansion::expansion_of))]
fn expansion_of(alloc: Global, table: &Table) -> Result<Table, ShortError>
    ensures value { Gives (seen (λ t. table_view t) result) (expansion_of (table_view table.now)) }
    ensures shallow { IfOk result (λ t. members_depth (table_view t) ≤ 80) }
{
    let form = form_of(alloc, table)?;
    Ok(document_of(alloc, &form)?)
}

// The workload of a table that a short table is written out to.
fn read_expansion(alloc: Global, table: &Table) -> Result<Workload, ShortError>
    ensures value { Gives (seen plan_of result) (told (plan_in (table_view table.now))) }
    ensures sound { IfOk result (λ w. IsSound (plan_of w)) }
{
    match read_document(alloc, table) {
        Ok(workload) => Ok(workload),
        Err(WorkloadError::NoMemory) => Err(ShortError::NoMemory),
        Err(error) => Err(ShortError::At(Place::Top, Fault::Written(error))),
    }
}

/// The workload of the table of a short file, or its first fault. `NoMemory` comes in a fault's place only where memory
/// was refused before that fault was found.
#[tactic(auto, unfolding(crate::specs::Expansion::plan_of_short))]
pub fn read_short(alloc: Global, table: &Table) -> Result<Workload, ShortError>
    ensures value { Gives (seen plan_of result) (plan_of_short (table_view table.now)) }
    ensures sound { IfOk result (λ w. IsSound (plan_of w)) }
{
    let written = expansion_of(alloc, table)?;
    read_expansion(alloc, &written)
}

/// The table of a short file as a text of today's form, which reads as the workload of that table; or its first fault.
/// `NoMemory` comes in a fault's place only where memory was refused before that fault was found.
#[tactic(auto, unfolding(crate::specs::Expansion::plan_of_short))]
pub fn expand(alloc: Global, table: &Table) -> Result<String, ShortError>
    ensures ok { IfOk result (λ s. Reads (table_view table.now) (string_bytes s)) }
    ensures err { IfErr result (λ e. Fails e (plan_of_short (table_view table.now))) }
{
    let written = expansion_of(alloc, table)?;
    let _workload = read_expansion(alloc, &written)?;
    match toml::table_to_string(alloc, &written) {
        Ok(text) => Ok(text),
        Err(_) => Err(ShortError::NoMemory),
    }
}

/// The document of the bytes of a file, where it is the table of a short file: it has the key `version`.
pub fn short_in(alloc: Global, bytes: &[u8]) -> Result<Option<Table>, AllocError>
    ensures { IfOk result (λ found. option_map table_view found ≡ short_in bytes.now) }
{
    let Ok(text) = std::str::from_utf8(bytes) else {
        return Ok(None);
    };
    match document(alloc, text) {
        Ok(table) if is_short(&table) => Ok(Some(table)),
        Ok(_) | Err(DocumentError::NotToml(_)) => Ok(None),
        Err(DocumentError::NoMemory) => Err(AllocError),
    }
}

/// Why a short file stands for no text.
#[derive(Debug, Drop, Error)]
pub enum ExpandError {
    /// Its faults.
    #[error("{0}")]
    Faults(ShortFaults),
    /// Out of memory.
    #[error("out of memory")]
    NoMemory,
}

impl From<AllocError> for ExpandError {
    ghost from_gives = { λ _ e. e ≡ told_error.NoMemory };

    fn from(_error: AllocError) -> ExpandError {
        ExpandError::NoMemory
    }
}

// The faults of a short table, which was read from the bytes, of which this is the first.
fn faults_in(
    alloc: Global,
    bytes: &[u8],
    table: &Table,
    first: ShortError,
) -> Result<ShortFaults, AllocError>
    requires { plan_of_short (table_view table.now) ≡ Err first }
    ensures { IfOk result (AreFaultsIn (table_view table.now)) }
{
    let flaws = flaws_of(alloc, table, first)?;
    told_of(alloc, bytes, table, &flaws)
}

// What is told of the faults of a short table, which was read from the bytes.
fn expand_error_of(alloc: Global, bytes: &[u8], table: &Table, error: ShortError) -> ExpandError
    requires { Fails error (plan_of_short (table_view table.now)) }
    ensures { TellsFaultsOf (table_view table.now) result }
{
    let ShortError::At(..) = error else {
        return ExpandError::NoMemory;
    };
    match faults_in(alloc, bytes, table, error) {
        Ok(faults) => ExpandError::Faults(faults),
        Err(_) => ExpandError::NoMemory,
    }
}

// The text of today's form that a short table, which was read from the bytes, is written out to.
fn expanded(alloc: Global, bytes: &[u8], table: &Table) -> Result<String, ExpandError>
    ensures ok { IfOk result (λ s. Reads (table_view table.now) (string_bytes s)) }
    ensures err { IfErr result (TellsFaultsOf (table_view table.now)) }
{
    match expand(alloc, table) {
        Ok(text) => Ok(text),
        Err(error) => Err(expand_error_of(alloc, bytes, table, error)),
    }
}

// The names of a short table that stands for a workload.
fn names_in(alloc: Global, table: &Table) -> Result<Names, ExpandError>
    ensures names { IfOk result (AreNamesIn (table_view table.now)) }
    ensures no_fault { IfErr result (λ e. e ≡ told_error.NoMemory) }
{
    match form_of(alloc, table) {
        Ok(form) => Ok(names_of(alloc, &form)?),
        Err(_) => Err(ExpandError::NoMemory),
    }
}

/// What the bytes of a file stand for.
#[derive(Debug, Drop)]
pub struct Standing {
    /// The text of today's form: what a short file is written out to, and else the bytes themselves.
    pub text: Vec<u8>,
    /// What its parts are in the file, where that is a short one.
    pub names: Option<Names>,
}

// What a short table, which was read from the bytes, stands for.
fn short_standing(alloc: Global, bytes: &[u8], table: &Table) -> Result<Standing, ExpandError>
    ensures text { IfOk result (λ s. Reads (table_view table.now) s.text.items) }
    ensures names { IfOk result (λ s. AreNamesBy (Some (table_view table.now)) s.names) }
    ensures err { IfErr result (TellsFaultsOf (table_view table.now)) }
{
    let text = expanded(alloc, bytes, table)?.into_bytes();
    let names = names_in(alloc, table)?;
    Ok(Standing {
        text,
        names: Some(names),
    })
}

/// What the bytes of a file stand for, or the faults of a short file.
#[tactic(auto, using(crate::proofs::ReadBack::told_of_bytes))]
pub fn stood_for(alloc: Global, bytes: Vec<u8>) -> Result<Standing, ExpandError>
    ensures stands { IfOk result (λ s. StandsFor bytes.items s.text.items) }
    ensures names { IfOk result (λ s. AreNamesFor bytes.items s.names) }
    ensures fault { IfErr result (TellsShortFaults bytes.items) }
{
    match short_in(alloc, &bytes)? {
        Some(table) => short_standing(alloc, &bytes, &table),
        None => Ok(Standing {
            text: bytes,
            names: None,
        }),
    }
}
