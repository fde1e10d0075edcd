// The names of classes, mechanisms and operations, and of settings.
ghost use Rattle.std.specs.Prelude.{◌≡◌};
ghost use Rattle.nvme_numbers.specs.Names.{class_text, mechanism_text, operation_text};

use nvme_arbiter::{Class, Mechanism, Settings};
use nvme_load::Operation;
use std::fmt;

/// The name of a class.
pub fn class_name(class: Class) -> &'static str
    ensures { result.now ≡ class_text class }
{
    match class {
        Class::Admin => "admin",
        Class::Urgent => "urgent",
        Class::High => "high",
        Class::Medium => "medium",
        Class::Low => "low",
    }
}

/// The name of a mechanism.
pub fn mechanism_name(mechanism: Mechanism) -> &'static str
    ensures { result.now ≡ mechanism_text mechanism }
{
    match mechanism {
        Mechanism::RoundRobin => "round-robin",
        Mechanism::Weighted => "weighted",
    }
}

/// The name of an operation.
pub fn operation_name(operation: Operation) -> &'static str
    ensures { result.now ≡ operation_text operation }
{
    match operation {
        Operation::Read => "read",
        Operation::Write => "write",
        Operation::Flush => "flush",
    }
}

/// How commands are picked, in words: the mechanism, the most commands of a pick, and the weights under weighted round robin.
#[derive(Clone, Copy, Debug, PartialEq, Eq)]
pub struct PickingWords {
    pub mechanism: Mechanism,
    pub settings: Settings,
}

impl fmt::Display for PickingWords {
    fn fmt<W: fmt::Write>(&self, f: &mut fmt::Formatter<W>) -> fmt::Result {
        f.write_str(mechanism_name(self.mechanism))?;
        match self.settings.burst() {
            Some(burst) => write!(f, ", burst {burst}")?,
            None => f.write_str(", no limit of bursts")?,
        }
        if self.mechanism == Mechanism::Weighted {
            let high = self.settings.weight(Class::High);
            let medium = self.settings.weight(Class::Medium);
            let low = self.settings.weight(Class::Low);
            write!(f, ", high {high}, medium {medium}, low {low}")?;
        }
        Ok(())
    }
}
