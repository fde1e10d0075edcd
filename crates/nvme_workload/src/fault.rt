ghost use Rattle.std.specs.Prelude.{◌≡◌};
ghost use Rattle.nvme_workload.specs.declared.fault.ReadError.TheVariants as told;

use crate::error::WorkloadError;
use crate::found::Found;
use crate::key::Key;
use crate::place::Place;
use crate::ranges::{ADDRESS, BLOCKS, BYTE, COPIES, DWORD, QUEUES, Range, SLOTS, TURNS};
use crate::scripts::MAX_COMMANDS;
use nvme_admin::MAX_REGIONS;
use nvme_entry::MAX_NAMESPACES;
use std::alloc::AllocError;
use std::fmt;
use thiserror::Error;

/// What was expected where a workload file is at fault.
#[derive(Debug, Drop)]
pub enum Why {
    /// Text in UTF-8.
    NotUtf8,
    /// A TOML document. The error says what isn't TOML.
    Syntax(toml::de::Error),
    /// This key, with a value of its kind and within its range.
    Value(Key),
    /// One of the keys `known`, and not `key`, of which at most the first 100 characters are kept.
    Unknown { key: String, known: &'static [Key] },
    /// At most as many as this key may have. At `Key::Count` the commands of all scripts are too many.
    Most(Key),
    /// An address that no earlier region has.
    Repeated,
}

// The range of the number at a key, or of each item of its array.
fn range_of(key: Key) -> Range {
    match key {
        Key::SqLimit | Key::CqLimit => QUEUES,
        Key::Patience => TURNS,
        Key::Namespaces => BLOCKS,
        Key::Address | Key::Prp1 => ADDRESS,
        Key::Slots => SLOTS,
        Key::Op | Key::Flags => BYTE,
        Key::Count => COPIES,
        _ => DWORD,
    }
}

// Writes what the value of a key must be.
fn write_value<W: fmt::Write>(key: Key, f: &mut fmt::Formatter<W>) -> fmt::Result {
    let Range { low, high } = range_of(key);
    match key {
        Key::Mechanism => f.write_str("\"round-robin\" or \"weighted\""),
        Key::Submission | Key::Completion => write!(f, "an array of 1 to {MAX_REGIONS} tables"),
        Key::Script => f.write_str("an array of tables"),
        Key::Namespaces => write!(f, "an array of whole numbers from {low} to {high}"),
        _ => write!(f, "a whole number from {low} to {high}"),
    }
}

// Writes the most that a key may have.
fn write_most<W: fmt::Write>(key: Key, f: &mut fmt::Formatter<W>) -> fmt::Result {
    match key {
        Key::Namespaces => write!(f, "{MAX_NAMESPACES} namespaces"),
        Key::Submission => write!(f, "{MAX_REGIONS} submission regions"),
        Key::Completion => write!(f, "{MAX_REGIONS} completion regions"),
        _ => write!(f, "{MAX_COMMANDS} commands in all scripts"),
    }
}

impl fmt::Display for Why {
    fn fmt<W: fmt::Write>(&self, f: &mut fmt::Formatter<W>) -> fmt::Result {
        match self {
            Why::NotUtf8 => write!(f, "expected UTF-8"),
            Why::Syntax(error) => f.write_str(error.message()),
            Why::Value(key) => {
                f.write_str("expected ")?;
                write_value(*key, f)
            }
            Why::Unknown { key, known } => {
                write!(f, "{key:?}, expected one of")?;
                for other in known.iter() {
                    write!(f, " {name}", name = other.name())?;
                }
                Ok(())
            }
            Why::Most(key) => {
                f.write_str("expected at most ")?;
                write_most(*key, f)
            }
            Why::Repeated => write!(f, "expected an address that no region before has"),
        }
    }
}

/// The first fault of a workload file: where it is, and what was expected there.
#[derive(Debug, Drop)]
pub struct Fault {
    /// The fault, as a run reports it.
    pub error: WorkloadError,
    /// Where it is.
    pub place: Place,
    /// What stands there.
    pub found: Found,
    /// What was expected there.
    pub why: Why,
}

impl fmt::Display for Fault {
    fn fmt<W: fmt::Write>(&self, f: &mut fmt::Formatter<W>) -> fmt::Result {
        let error = self.error;
        write!(f, "{error}: ")?;
        Details(self).fmt(f)
    }
}

/// Of a fault: where it is, what stands there, and what was expected.
#[derive(Debug, Drop)]
pub struct Details<'a>(pub &'a Fault);

impl fmt::Display for Details<'_> {
    fn fmt<W: fmt::Write>(&self, f: &mut fmt::Formatter<W>) -> fmt::Result {
        let place = self.0.place;
        write!(f, "{place}: ")?;
        self.0.found.fmt(f)?;
        self.0.why.fmt(f)
    }
}

/// Why a file has no workload.
#[derive(Debug, Drop, Error)]
pub enum ReadError {
    /// Its first fault.
    #[error("{0}")]
    Fault(Fault),
    /// Out of memory.
    #[error("out of memory")]
    NoMemory,
}

impl From<AllocError> for ReadError {
    ghost from_gives = { λ _ e. e ≡ told.NoMemory };

    fn from(_error: AllocError) -> ReadError {
        ReadError::NoMemory
    }
}
