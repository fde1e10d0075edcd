// The names of classes and mechanisms.
ghost use Rattle.std.specs.Prelude.{◌≡◌};
ghost use Rattle.nvme_terms.specs.Names.{class_text, mechanism_text};

use nvme_arbiter::{Class, Mechanism};

/// The classes, each before those that it outranks.
pub const CLASSES: [Class; 5] = [
    Class::Admin,
    Class::Urgent,
    Class::High,
    Class::Medium,
    Class::Low,
];

/// The name of a class.
pub fn class_name(class: Class) -> &'static str
    ensures { result.now ≡ class_text class }
{
    match class {
        Class::Admin => "admin",
        Class::Urgent => "urgent",
        Class::High => "high",
        Class::Medium => "medium",
        Class::Low => "low",
    }
}

/// The name of a mechanism.
pub fn mechanism_name(mechanism: Mechanism) -> &'static str
    ensures { result.now ≡ mechanism_text mechanism }
{
    match mechanism {
        Mechanism::RoundRobin => "round-robin",
        Mechanism::Weighted => "weighted",
    }
}
