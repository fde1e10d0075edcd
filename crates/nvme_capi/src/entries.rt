// Submission and completion entries and their bytes.
ghost use Rattle.std.specs.Prelude.{◌≡◌, ◌≢◌, ◌<◌, ◌≤◌, ◌⊎◌, ◌↔◌};
ghost use Rattle.nvme_entry.specs.Bits.{bits_of, dword};
ghost use Rattle.nvme_entry.specs.Submission.{IsSubmissionEntry};
ghost use Rattle.nvme_entry.specs.Completion.{IsCompletionEntry};
ghost use Rattle.nvme_capi.specs.Controllers.{flags_by, IsFlaggedEntry};
ghost use Rattle.nvme_capi.specs.Fields.{completion_of, FitsCompletion};

use crate::ctrl::status_flags::{flags_in, unflagged};
use crate::fields::{CompletionFields, completion_of, fields_of_completion};
use crate::results::{BAD_ARGUMENT, OK};
use nvme_entry::{Cqe, Sqe};

/// Reads the fields of a submission entry from its 64 bytes.
#[unsafe(no_mangle)]
pub extern "C" fn nvmearb_sqe_decode(bytes: &[u8; 64], fields: &mut Sqe)
    ensures layout { IsSubmissionEntry bytes.now fields.new }
{
    *fields = Sqe::from_bytes(bytes);
}

/// Writes the 64 bytes of a submission entry.
#[unsafe(no_mangle)]
pub extern "C" fn nvmearb_sqe_encode(fields: &Sqe, bytes: &mut [u8; 64])
    ensures layout { IsSubmissionEntry bytes.new fields.now }
{
    *bytes = fields.to_bytes();
}

/// Reads the fields of a completion entry from its 16 bytes. Refused exactly where reserved bits are set.
#[unsafe(no_mangle)]
pub extern "C" fn nvmearb_cqe_decode(bytes: &[u8; 16], fields: &mut CompletionFields) -> u32
    ensures answer { (result ≡ OK) ⊎ (result ≡ BAD_ARGUMENT) }
    ensures refused { (result ≡ BAD_ARGUMENT) ↔ ((dword 1 bytes.now ≢ 0) ⊎ (bits_of 31 28 (dword 3 bytes.now) ≢ 0)) }
    ensures unchanged { result ≡ BAD_ARGUMENT → fields.new ≡ fields.old }
    ensures layout { result ≡ OK → IsCompletionEntry bytes.now (completion_of fields.new) }
    ensures fits { result ≡ OK → FitsCompletion fields.new }
{
    match Cqe::from_bytes(bytes) {
        Some(entry) => {
            *fields = fields_of_completion(&entry);
            OK
        }
        None => BAD_ARGUMENT,
    }
}

/// Writes the 16 bytes of a completion entry. Refused exactly where the phase tag or the status code type doesn't fit.
#[unsafe(no_mangle)]
pub extern "C" fn nvmearb_cqe_encode(fields: &CompletionFields, bytes: &mut [u8; 16]) -> u32
    ensures answer { (result ≡ OK) ⊎ (result ≡ BAD_ARGUMENT) }
    ensures refused { (result ≡ BAD_ARGUMENT) ↔ ((1 < fields.now.phase) ⊎ (7 < fields.now.status.sct)) }
    ensures unchanged { result ≡ BAD_ARGUMENT → bytes.new ≡ bytes.old }
    ensures layout { result ≡ OK → IsCompletionEntry bytes.new (completion_of fields.now) }
{
    match completion_of(fields) {
        Some(entry) => {
            *bytes = entry.to_bytes();
            OK
        }
        None => BAD_ARGUMENT,
    }
}

/// Reads the fields and the flags of a completion entry from its 16 bytes. Refused exactly where reserved bits, or those of
/// CRD, are set.
#[unsafe(no_mangle)]
pub extern "C" fn nvmearb_cqe_decode_with(
    bytes: &[u8; 16],
    fields: &mut CompletionFields,
    flags: &mut u8,
) -> u32
    ensures answer { (result ≡ OK) ⊎ (result ≡ BAD_ARGUMENT) }
    ensures refused { (result ≡ BAD_ARGUMENT) ↔ ((dword 1 bytes.now ≢ 0) ⊎ (bits_of 29 28 (dword 3 bytes.now) ≢ 0)) }
    ensures unchanged { result ≡ BAD_ARGUMENT → (fields.new ≡ fields.old) × (flags.new ≡ flags.old) }
    ensures layout { result ≡ OK → IsFlaggedEntry bytes.now (completion_of fields.new) (flags_by flags.new) }
    ensures fits { result ≡ OK → FitsCompletion fields.new }
    ensures few { result ≡ OK → flags.new ≤ 3 }
{
    match Cqe::from_bytes(&unflagged(*bytes)) {
        Some(entry) => {
            *fields = fields_of_completion(&entry);
            *flags = flags_in(bytes);
            OK
        }
        None => BAD_ARGUMENT,
    }
}
