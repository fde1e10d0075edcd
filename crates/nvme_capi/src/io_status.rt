// The checks of I/O commands for a device over real rings.
ghost use Rattle.std.specs.Prelude.{◌≡◌};
ghost use Rattle.nvme_checks.specs.Status.{check_of, range_of};
ghost use Rattle.nvme_capi.specs.Fields.{code_of};

use crate::fields::{StatusFields, fields_of_status};
use nvme_checks::{check, range};
use nvme_entry::Sqe;

/// Writes the status of an I/O command over namespaces of these sizes, in logical blocks. The first namespace has
/// identifier 1, and a size of 0 says that an identifier is inactive.
#[unsafe(no_mangle)]
pub extern "C" fn nvmearb_check(entry: &Sqe, sizes: &[u64], status: &mut StatusFields)
    ensures status { code_of status.new ≡ check_of entry.now sizes.now }
{
    *status = fields_of_status(check(entry, sizes));
}

/// The same of a command that names logical blocks, by NSID, SLBA and NLB alone.
#[unsafe(no_mangle)]
pub extern "C" fn nvmearb_range(entry: &Sqe, sizes: &[u64], status: &mut StatusFields)
    ensures status { code_of status.new ≡ range_of entry.now sizes.now }
{
    *status = fields_of_status(range(entry, sizes));
}
