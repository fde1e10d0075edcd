// What the bytes of a simulation file say.
ghost use Rattle.std.specs.Prelude.{◌≡◌, IfOk};
ghost use Rattle.toml.specs.View.{table_view};
ghost use Rattle.nvme_model_form.specs.Models.{Says};
ghost use Rattle.nvme_model_file.specs.Documents.{SaysIn, is_simulation_text};

use crate::fault::ModelFault;
use crate::faults::{bad_bytes, bad_text, fault_in};
use nvme_model::Model;
use nvme_model_form::{Source, is_simulation, model_of, sources_of};
use nvme_workload::{DocumentError, document};
use std::alloc::{AllocError, Global};
use toml::Table;

/// Whether the bytes of a file are a TOML document with the key `device` or `simulation`. The error is that memory was
/// refused.
pub fn simulation_in(alloc: Global, bytes: &[u8]) -> Result<bool, AllocError>
    ensures { IfOk result (λ b. b ≡ is_simulation_text bytes.now) }
{
    let Ok(text) = std::str::from_utf8(bytes) else {
        return Ok(false);
    };
    match document(alloc, text) {
        Ok(table) => Ok(is_simulation(&table)),
        Err(DocumentError::NotToml(_)) => Ok(false),
        Err(DocumentError::NoMemory) => Err(AllocError),
    }
}

/// The model that the bytes of a simulation file say, or its first fault with what is told of it. `NoMemory` comes in a
/// fault's place where memory was refused, or where `nvme_workload::MAX_MEMORY` may not be enough for the text.
pub fn model_in(alloc: Global, bytes: &[u8]) -> Result<Model, ModelFault>
    ensures { IfOk result (SaysIn bytes.now) }
{
    let text = match std::str::from_utf8(bytes) {
        Ok(text) => text,
        Err(fault) => return Err(bad_bytes(&bytes[..fault.valid_up_to()])),
    };
    let table = match document(alloc, text) {
        Ok(table) => table,
        Err(DocumentError::NoMemory) => return Err(ModelFault::NoMemory),
        Err(DocumentError::NotToml(error)) => return Err(bad_text(text, error)),
    };
    model_at(alloc, bytes, &table)
}

// The model that a document says, or its first fault, with its place in the text from which the document was read.
fn model_at(alloc: Global, text: &[u8], document: &Table) -> Result<Model, ModelFault>
    ensures { IfOk result (Says (table_view document.now)) }
{
    match model_of(alloc, document) {
        Ok(model) => Ok(model),
        Err(error) => Err(fault_in(alloc, text, document, error)),
    }
}

/// The model that the document of a simulation file says, or its first fault with what is told of it, but for its place: no
/// text is at hand. `NoMemory` comes in a fault's place where memory was refused.
pub fn model_in_document(alloc: Global, document: &Table) -> Result<Model, ModelFault>
    ensures { IfOk result (Says (table_view document.now)) }
{
    model_at(alloc, b"", document)
}

/// The files that the queues of a simulation file replay, in the order of the queues, or the first fault of what is said of
/// them. `model_in` tells the other faults: a text that is no TOML document has no such file.
pub fn sources_in(alloc: Global, bytes: &[u8]) -> Result<Vec<Source>, ModelFault> {
    let Ok(text) = std::str::from_utf8(bytes) else {
        return Ok(Vec::new(alloc));
    };
    let table = match document(alloc, text) {
        Ok(table) => table,
        Err(DocumentError::NoMemory) => return Err(ModelFault::NoMemory),
        Err(DocumentError::NotToml(_)) => return Ok(Vec::new(alloc)),
    };
    sources_at(alloc, bytes, &table)
}

// The files that the queues of a document replay, or the first fault, with its place in the text from which it was read.
fn sources_at(alloc: Global, text: &[u8], document: &Table) -> Result<Vec<Source>, ModelFault> {
    match sources_of(alloc, document) {
        Ok(sources) => Ok(sources),
        Err(error) => Err(fault_in(alloc, text, document, error)),
    }
}

/// The files that the queues of a simulation file's document replay, as `sources_in` tells them, but for a fault's place.
pub fn sources_in_document(alloc: Global, document: &Table) -> Result<Vec<Source>, ModelFault> {
    sources_at(alloc, b"", document)
}
