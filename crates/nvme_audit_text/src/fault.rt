// Why a log isn't read.
ghost use Rattle.std.specs.Prelude.{◌≡◌};
ghost use Rattle.nvme_audit_text.specs.declared.fault.LogError.TheVariants as fault;

use std::alloc::{AllocError, AllocFailed};
use thiserror::Error;

/// A kind of line, by its first field.
#[derive(Clone, Copy, Debug, PartialEq, Eq)]
pub enum Kind {
    /// The host wrote a tail doorbell.
    Tail,
    /// The host wrote a head doorbell.
    Head,
    /// The controller fetched an entry.
    Fetch,
    /// The controller wrote a completion.
    Post,
    /// The host took a completion.
    Complete,
    /// The controller began a command. No rule reads it.
    Start,
    /// The controller ended a command. No rule reads it.
    Done,
    /// Arbitration picked a queue. The fields are those of a trace's pick.
    Pick,
    /// The settings of arbitration changed, as in a trace.
    Set,
}

impl Kind {
    ghost use Rattle.nvme_audit_text.specs.Fields.{kind_text};

    /// The name of the kind in a line.
    pub fn name(&self) -> &'static str
        ensures text { result.now ≡ kind_text self.now }
    {
        match self {
            Kind::Tail => "tail",
            Kind::Head => "head",
            Kind::Fetch => "fetch",
            Kind::Post => "post",
            Kind::Complete => "complete",
            Kind::Start => "start",
            Kind::Done => "done",
            Kind::Pick => "pick",
            Kind::Set => "set",
        }
    }
}

/// A field of a line.
#[derive(Clone, Copy, Debug, PartialEq, Eq)]
pub enum Field {
    /// `log` of the head: 1.
    Log,
    /// `tells` of the head: the kinds of which all are told.
    Tells,
    /// `asq` of the head: how many slots the admin submission queue has.
    Asq,
    /// `acq` of the head: how many slots the admin completion queue has.
    Acq,
    /// `by` of the head: who made the log.
    By,
    /// `end` of the head: how the log ended.
    End,
    /// `queues` of the head: how many I/O queues of each sort there may be.
    Queues,
    /// `mqes` of the head: how many slots a queue may have.
    Mqes,
    /// `mechanism` of the head: the arbitration mechanism, told with `cdw11`.
    Mechanism,
    /// `cdw11` of the head: Command Dword 11 of the Arbitration feature, told with `mechanism`.
    Settings,
    /// The kind of an event, whose value is the identifier of its queue.
    Of(Kind),
    Slot,
    /// `sqe` of a fetch: the bytes of the entry.
    Sqe,
    Cid,
    /// `op` of a fetch: the opcode.
    Op,
    Cdw10,
    Cdw11,
    /// `cqe` of a completion: the bytes of the entry.
    Cqe,
    /// `sq` of a completion: SQID.
    Sq,
    /// `status` of a completion: bits 31:17 of Dword 3.
    Status,
    Sqhd,
    Phase,
    Dw0,
}

impl Field {
    ghost use Rattle.nvme_audit_text.specs.Fields.{text_of};

    /// The name of the field in a line.
    pub fn name(&self) -> &'static str
        ensures text { result.now ≡ text_of self.now }
    {
        match self {
            Field::Log => "log",
            Field::Tells => "tells",
            Field::Asq => "asq",
            Field::Acq => "acq",
            Field::By => "by",
            Field::End => "end",
            Field::Queues => "queues",
            Field::Mqes => "mqes",
            Field::Mechanism => "mechanism",
            Field::Settings => "cdw11",
            Field::Of(kind) => kind.name(),
            Field::Slot => "slot",
            Field::Sqe => "sqe",
            Field::Cid => "cid",
            Field::Op => "op",
            Field::Cdw10 => "cdw10",
            Field::Cdw11 => "cdw11",
            Field::Cqe => "cqe",
            Field::Sq => "sq",
            Field::Status => "status",
            Field::Sqhd => "sqhd",
            Field::Phase => "phase",
            Field::Dw0 => "dw0",
        }
    }
}

/// The first fault of a line, or out of memory.
#[derive(Clone, Copy, Debug, PartialEq, Eq, Error)]
pub enum LineFault {
    /// The text has no line.
    #[error("no head")]
    NoHead,
    /// The line has more than 4,096 bytes, not counting its newline.
    #[error("more than 4096 bytes")]
    TooLong,
    /// Its bytes aren't UTF-8.
    #[error("not UTF-8")]
    NotUtf8,
    /// It isn't one JSON value.
    #[error("not JSON")]
    NotJson,
    /// Its value is no object.
    #[error("no object")]
    NotObject,
    /// A field that the line must have is missing.
    #[error("missing {name}", name = .0.name())]
    Missing(Field),
    /// The value of a field is of the wrong kind or out of range.
    #[error("bad {name}", name = .0.name())]
    Bad(Field),
    /// The line has a field that such a line doesn't have.
    #[error("unknown field")]
    Unknown,
    /// The line is of no kind that is known.
    #[error("unknown kind")]
    NoKind,
    /// The head doesn't tell a kind that is wanted.
    #[error("tells has no {name}", name = .0.name())]
    Untold(Kind),
    /// The line is of a kind that can't be there, since the head doesn't tell it.
    #[error("{name} in a log whose tells has none", name = .0.name())]
    NotTold(Kind),
    /// The line tells a pick or a change of the settings, and the head no mechanism.
    #[error("{name} in a log whose head has no mechanism", name = .0.name())]
    NoMechanism(Kind),
    /// The line of a pick or a change of the settings has a fault of a line of a trace.
    #[error("{0}")]
    Arbitration(nvme_trace::LineFault),
    /// Out of memory, before a fault was found.
    #[error("out of memory")]
    NoMemory,
}

/// Why a log wasn't judged to its end.
#[derive(Debug, Drop, PartialEq, Eq, Error)]
pub enum LogError {
    /// The first fault of the text, and the number of its line, from 1. The note says what was found in the line and
    /// what was wanted; it begins with a colon, unless there is nothing to say.
    #[error("log: line {line}: {fault}{note}")]
    Line {
        line: u64,
        fault: LineFault,
        note: String,
    },
    /// A read failed.
    #[error("read failed")]
    Read,
    /// A count of the log has more than 64 bits.
    #[error("a count of the log has more than 64 bits")]
    TooLong,
    /// Out of memory.
    #[error("out of memory")]
    NoMemory,
}

impl<T: Drop> From<AllocFailed<T>> for LogError {
    ghost from_gives = { λ _ e. e ≡ fault.NoMemory };

    fn from(_error: AllocFailed<T>) -> LogError {
        LogError::NoMemory
    }
}

impl From<AllocError> for LogError {
    ghost from_gives = { λ _ e. e ≡ fault.NoMemory };

    fn from(_error: AllocError) -> LogError {
        LogError::NoMemory
    }
}
