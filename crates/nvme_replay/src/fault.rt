// Why a file can't be replayed.
use std::alloc::{AllocError, AllocFailed};
use std::fmt;
use thiserror::Error;

/// What is wrong with a line.
#[derive(Clone, Copy, Debug, PartialEq, Eq, Error)]
pub enum LineFault {
    /// The field of this name is no whole number below 2^64, or is missing.
    #[error("expected a whole number below 2^64 as {0}")]
    Number(&'static str),
    /// The operation is none of these.
    #[error("expected {0}")]
    Operation(&'static str),
    /// The time has no such form.
    #[error("expected seconds, a point and nine digits as the time")]
    Seconds,
    /// An offset or a size has a part of a block.
    #[error("expected an offset and a size of whole blocks, 512 bytes each")]
    PartOfBlock,
    /// A request has no block, or more than 65,536.
    #[error("expected 1 to 65536 blocks, 512 bytes each")]
    Blocks,
    /// It comes before the request in front of it.
    #[error("expected no time before that of the request in front of it")]
    TooEarly,
    /// It comes too late.
    #[error("expected less than 2^64 picoseconds, which are 213 days, from the first request on")]
    TooLate,
    /// There is no column of this name.
    #[error("expected a column {0}")]
    NoColumn(&'static str),
    /// An I/O log of fio doesn't begin so.
    #[error("expected fio version 3 iolog")]
    NotFio,
    /// An I/O log of fio has no times.
    #[error("expected fio version 3 iolog: version 2 has no times")]
    NoTimes,
    /// It ends behind the namespace, which has so many blocks.
    #[error("expected blocks within the namespace, whose size is {0}")]
    Outside(u64),
    /// Neither the queue of this number nor the device says how long this operation takes.
    #[error("{0} is missing, expected how long it takes, of queue {1} or of the device")]
    NoService(&'static str, usize),
}

/// Why a file can't be replayed: its first fault, or that memory was refused.
#[derive(Clone, Copy, Debug, PartialEq, Eq)]
pub enum ReplayError {
    /// A fault of a line, which counts from 1.
    At(u64, LineFault),
    /// There is no request.
    NoRequest,
    /// Another file is wanted than the simulation file names.
    Unread,
    /// Out of memory, before a fault was found.
    NoMemory,
}

/// An answer of a line, whose fault is told with its number.
pub(crate) fn on_line<T>(line: u64, answer: Result<T, LineFault>) -> Result<T, ReplayError> {
    match answer {
        Ok(answer) => Ok(answer),
        Err(fault) => Err(ReplayError::At(line, fault)),
    }
}

impl From<AllocError> for ReplayError {
    fn from(_error: AllocError) -> ReplayError {
        ReplayError::NoMemory
    }
}

impl<T: Drop> From<AllocFailed<T>> for ReplayError {
    fn from(_error: AllocFailed<T>) -> ReplayError {
        ReplayError::NoMemory
    }
}

/// Why the file of a name can't be replayed. It is told as `FILE:LINE: ` and what is wrong with the line; without the line
/// where the fault is none of a line.
#[derive(Clone, Copy, Debug, PartialEq, Eq)]
pub struct FileFault<'a> {
    /// The file's name.
    pub file: &'a str,
    pub error: ReplayError,
}

impl fmt::Display for FileFault<'_> {
    fn fmt<W: fmt::Write>(&self, f: &mut fmt::Formatter<W>) -> fmt::Result {
        let file = self.file;
        match self.error {
            ReplayError::At(line, fault) => write!(f, "{file}:{line}: {fault}"),
            ReplayError::NoRequest => write!(f, "{file}: expected a request to replay"),
            ReplayError::Unread => write!(
                f,
                "{file}: expected the file, the form and the queue that the simulation file says"
            ),
            ReplayError::NoMemory => f.write_str("out of memory"),
        }
    }
}
