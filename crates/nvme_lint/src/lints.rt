ghost use Rattle.std.specs.Prelude.{IfOk, IfErr};
ghost use Rattle.nvme_workload.specs.Places.{TellsFault, TellsPlace};
ghost use Rattle.nvme_lint.specs.Lints.{IsLawful};
ghost use Rattle.nvme_lint.specs.Warnings.{AreWarningsOf};

use crate::warning::Warning;
use crate::warnings::warnings_of;
use nvme_workload::{ReadError, read_placed};
use std::alloc::Global;

/// Checks a workload file. The answer for a valid workload is what of it has no effect. `ReadError::Fault` has the
/// first fault, which is that of `nvme_workload::read`, with its place and what was expected there. It reads the file
/// once, as `read` does.
pub fn lint(alloc: Global, bytes: &[u8]) -> Result<Vec<Warning>, ReadError>
    ensures lawful { IfOk result (λ _. IsLawful bytes.now) }
    ensures warnings { IfOk result (λ ws. AreWarningsOf bytes.now ws.items) }
    ensures fault { IfErr result (TellsFault bytes.now) }
    ensures place { IfErr result (TellsPlace bytes.now) }
{
    let workload = read_placed(alloc, bytes)?;
    Ok(warnings_of(alloc, &workload)?)
}
