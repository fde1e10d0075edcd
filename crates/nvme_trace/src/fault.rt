// Why a trace is refused.
ghost use Rattle.std.specs.Prelude.{◌≡◌};
ghost use Rattle.nvme_trace.specs.declared.fault.TraceError.TheVariants as fault;

use std::alloc::{AllocError, AllocFailed};
use thiserror::Error;

/// A field of a line, in the order in which the fields of a line are checked.
#[derive(Clone, Copy, Debug, PartialEq, Eq)]
pub enum Field {
    /// `version` of the head: 1.
    Version,
    /// `mechanism` of the head: the arbitration mechanism.
    Mechanism,
    /// `cdw11` of the head: Command Dword 11 of the Arbitration feature.
    Cdw11,
    /// `last` of the head: the identifiers that were served last, by class, or of all under round robin.
    Last,
    /// `used` of the head: how many commands of each level were picked in the round.
    Used,
    /// `set` of a change: its Command Dword 11.
    Set,
    /// `pick` of a pick: the identifier of the submission queue.
    Pick,
    /// `n` of a pick: the number of commands that it takes.
    N,
    /// `room` of a pick: for how many commands the device had room, where that was a limit.
    Room,
    /// `fresh` of a pick: whether it starts a new round.
    Fresh,
    /// `seen` of a pick: the open queues, each as an array of identifier, class and count.
    Seen,
}

impl Field {
    ghost use Rattle.nvme_trace.specs.Fields.{text_of};

    /// The name of the field in a line.
    pub fn name(&self) -> &'static str
        ensures text { result.now ≡ text_of self.now }
    {
        match self {
            Field::Version => "version",
            Field::Mechanism => "mechanism",
            Field::Cdw11 => "cdw11",
            Field::Last => "last",
            Field::Used => "used",
            Field::Set => "set",
            Field::Pick => "pick",
            Field::N => "n",
            Field::Room => "room",
            Field::Fresh => "fresh",
            Field::Seen => "seen",
        }
    }
}

/// The first fault of a line, or out of memory.
#[derive(Clone, Copy, Debug, PartialEq, Eq, Error)]
pub enum LineFault {
    /// The text has no line.
    #[error("no head")]
    NoHead,
    /// The line has more than 4,096 bytes, not counting its newline.
    #[error("more than 4096 bytes")]
    TooLong,
    /// Its bytes aren't UTF-8.
    #[error("not UTF-8")]
    NotUtf8,
    /// It isn't one JSON value.
    #[error("not JSON")]
    NotJson,
    /// Its value is no object.
    #[error("no object")]
    NotObject,
    /// A field that the line must have is missing.
    #[error("missing {name}", name = .0.name())]
    Missing(Field),
    /// The value of a field is of the wrong kind or out of range.
    #[error("bad {name}", name = .0.name())]
    Bad(Field),
    /// The line has a field that such a line doesn't have.
    #[error("unknown field")]
    Unknown,
    /// What a pick saw isn't an observation: an identifier above 64, a count above 256, identifiers that don't ascend,
    /// or a class that the queue can't have.
    #[error("seen is no observation")]
    NotObservation,
    /// Out of memory, before a fault was found.
    #[error("out of memory")]
    NoMemory,
}

/// Why a trace wasn't read to its end.
#[derive(Debug, Drop, PartialEq, Eq, Error)]
pub enum TraceError {
    /// The first fault of the text, and the number of its line, from 1. The note says what was found in the line and
    /// what was wanted; it begins with a colon, unless there is nothing to say.
    #[error("trace: line {line}: {fault}{note}")]
    Line {
        line: u64,
        fault: LineFault,
        note: String,
    },
    /// A read failed.
    #[error("read failed")]
    Read,
    /// Out of memory.
    #[error("out of memory")]
    NoMemory,
}

impl<T: Drop> From<AllocFailed<T>> for TraceError {
    ghost from_gives = { λ _ e. e ≡ fault.NoMemory };

    fn from(_error: AllocFailed<T>) -> TraceError {
        TraceError::NoMemory
    }
}

impl From<AllocError> for TraceError {
    ghost from_gives = { λ _ e. e ≡ fault.NoMemory };

    fn from(_error: AllocError) -> TraceError {
        TraceError::NoMemory
    }
}
