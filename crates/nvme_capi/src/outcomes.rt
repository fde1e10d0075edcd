// The outcome of an I/O command.
ghost use Rattle.std.specs.Prelude.{◌≡◌, ◌<◌, ◌⊎◌, ◌↔◌, length, Contains};
ghost use Rattle.nvme_entry.specs.Outcome.{outcome_of};
ghost use Rattle.nvme_entry.specs.declared.namespaces.TheConstants.{MAX_NAMESPACES};
ghost use Rattle.nvme_capi.specs.Fields.{code_of};

use crate::fields::{StatusFields, fields_of_status};
use crate::results::{BAD_ARGUMENT, OK};
use nvme_entry::{Namespaces, Sqe, outcome};

/// Writes the status of an I/O command over namespaces of these sizes, in logical blocks. The first namespace has
/// identifier 1. Refused exactly where there are more than 16 sizes or one of them is 0.
#[unsafe(no_mangle)]
pub extern "C" fn nvmearb_outcome(entry: &Sqe, sizes: &[u64], status: &mut StatusFields) -> u32
    ensures answer { (result ≡ OK) ⊎ (result ≡ BAD_ARGUMENT) }
    ensures refused { (result ≡ BAD_ARGUMENT) ↔ ((MAX_NAMESPACES < length sizes.now) ⊎ Contains sizes.now 0) }
    ensures unchanged { result ≡ BAD_ARGUMENT → status.new ≡ status.old }
    ensures outcome { result ≡ OK → code_of status.new ≡ outcome_of entry.now sizes.now }
{
    match Namespaces::new(sizes) {
        Ok(spaces) => {
            *status = fields_of_status(outcome(entry, &spaces));
            OK
        }
        Err(_) => BAD_ARGUMENT,
    }
}
