use crate::key::Key;
use thiserror::Error;

/// The first fault of a workload file, or that memory was refused. Nothing is read after it, and nothing is
/// kept of what was read before.
#[derive(Clone, Copy, Debug, PartialEq, Eq, Error)]
pub enum WorkloadError {
    /// The bytes aren't UTF-8.
    #[error("W1 not UTF-8")]
    NotUtf8,
    /// The text isn't a TOML document.
    #[error("W2 not TOML")]
    NotToml,
    /// A key that a table must have is missing.
    #[error("W3 missing {name}", name = .0.name())]
    Missing(Key),
    /// The value of a key, or an item of its array, is of the wrong kind or out of range.
    #[error("W4 bad {name}", name = .0.name())]
    Bad(Key),
    /// A table has a key that it may not have.
    #[error("W5 unknown key")]
    Unknown,
    /// More than 16 namespaces, 65 regions of a kind, or 65,536 commands.
    #[error("W6 over a limit")]
    Limit,
    /// Two regions have one address.
    #[error("W7 repeated address")]
    Repeated,
    /// Out of memory, before a fault was found.
    #[error("out of memory")]
    NoMemory,
}
