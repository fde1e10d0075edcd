// The faults of a short workload file, as they are told.
ghost use Rattle.std.specs.Prelude.{◌≡◌, ◌++◌, ◌∷◌, [], IfOk, OnOk, map};
ghost use Rattle.nvme_short.specs.Faults.{AreTold, error_of, shown};

use crate::short_fault::{ShortFault, fault_in};
use nvme_short_form::Flaw;
use std::alloc::{AllocError, Global};
use std::fmt;
use toml::Table;

/// How many faults of a file are told. The others are counted.
pub const MOST_TOLD: usize = 20;

/// The faults of a short workload file.
#[derive(Debug, Drop)]
pub struct ShortFaults {
    /// The first 20 of them.
    pub told: Vec<ShortFault>,
    /// How many more there are.
    pub more: usize,
}

// Appends what is told of a fault of a short table, which was read from the text.
fn push_fault(
    alloc: Global,
    text: &[u8],
    document: &Table,
    told: &mut Vec<ShortFault>,
    flaw: Flaw,
) -> Result<(), AllocError>
    ensures { OnOk result (map shown told.new.items ≡ map shown told.old.items ++ flaw.error ∷ []) }
{
    let Some(fault) = fault_in(alloc, text, document, flaw) else {
        return Err(AllocError);
    };
    told.push(fault)?;
    Ok(())
}

// Appends what is told of faults of a short table, which was read from the text.
fn push_faults(
    alloc: Global,
    text: &[u8],
    document: &Table,
    told: &mut Vec<ShortFault>,
    flaws: &[Flaw],
) -> Result<(), AllocError>
    ensures { OnOk result (map shown told.new.items ≡ map shown told.old.items ++ map error_of flaws.now) }
{
    for flaw in flaws {
        push_fault(alloc, text, document, told, *flaw)?;
    }
    Ok(())
}

/// Faults of a short table, which was read from the text, with what is told of them.
pub(crate) fn told_of(
    alloc: Global,
    text: &[u8],
    document: &Table,
    flaws: &[Flaw],
) -> Result<ShortFaults, AllocError>
    ensures { IfOk result (AreTold flaws.now) }
{
    let count = flaws.len().min(MOST_TOLD);
    let mut told = Vec::new(alloc);
    push_faults(alloc, text, document, &mut told, &flaws[..count])?;
    Ok(ShortFaults {
        told,
        more: flaws.len() - count,
    })
}

/// The faults, a line for each.
impl fmt::Display for ShortFaults {
    fn fmt<W: fmt::Write>(&self, f: &mut fmt::Formatter<W>) -> fmt::Result {
        let mut before = "";
        for fault in &self.told {
            write!(f, "{before}{fault}")?;
            before = "\n";
        }
        match self.more {
            0 => Ok(()),
            more => write!(f, "{before}and {more} more"),
        }
    }
}
