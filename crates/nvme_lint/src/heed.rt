// Finds weights and classes that round robin doesn't heed.
ghost use Rattle.std.specs.Prelude.{◌≡◌, ◌++◌, OnOk};
ghost use Rattle.nvme_lint.specs.Warnings.{creates_class, has_class, has_classes, has_weights, unheeded};

use crate::warning::Warning;
use crate::warnings::push_unless;
use nvme_arbiter::{Class, Mechanism, Settings};
use nvme_entry::Sqe;
use std::alloc::AllocError;

// Whether a command creates a submission queue with this QPRIO.
fn creates_class(qprio: u32, entry: &Sqe) -> bool
    ensures { result ≡ creates_class qprio entry.now }
{
    entry.opcode == 0x01 && entry.cdw11 / 2 % 4 == qprio
}

// Whether a script creates one.
fn has_class(script: &[Sqe], qprio: u32) -> bool
    ensures { result ≡ has_class script.now qprio }
{
    script.iter().any(|entry| creates_class(qprio, entry))
}

// Whether a script creates submission queues of two classes or more.
fn has_classes(script: &[Sqe]) -> bool
    ensures { result ≡ has_classes script.now }
{
    let urgent = has_class(script, 0);
    let high = has_class(script, 1);
    let medium = has_class(script, 2);
    let low = has_class(script, 3);
    (urgent && (high || medium || low)) || (high && (medium || low)) || (medium && low)
}

// Whether some level has another weight than 1.
fn has_weights(settings: &Settings) -> bool
    ensures { result ≡ has_weights settings.now }
{
    1 < settings.weight(Class::High)
        || 1 < settings.weight(Class::Medium)
        || 1 < settings.weight(Class::Low)
}

/// Appends the warnings of weights and classes that the mechanism doesn't heed.
pub(crate) fn push_unheeded(
    warnings: &mut Vec<Warning>,
    mechanism: Mechanism,
    settings: &Settings,
    script: &[Sqe],
) -> Result<(), AllocError>
    ensures told { OnOk result (warnings.new.items ≡ warnings.old.items ++ unheeded mechanism settings.now script.now) }
{
    match mechanism {
        Mechanism::Weighted => Ok(()),
        Mechanism::RoundRobin => {
            push_unless(warnings, !has_weights(settings), Warning::WeightsUnheeded)?;
            push_unless(warnings, !has_classes(script), Warning::ClassesUnheeded)
        }
    }
}
