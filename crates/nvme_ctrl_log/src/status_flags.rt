// The flags of a completion. (Base Specification, Completion Queue Entry: Status Field)
ghost use Rattle.std.specs.Prelude.{◌≡◌};
ghost use Rattle.nvme_ctrl_log.specs.StatusFlags.{is_status, is_final, own_flags};

use nvme_entry::Status;
use nvme_placing::{INVALID_INTERRUPT_VECTOR, PRP_OFFSET_INVALID};

/// What the status field of a completion says beside its status.
#[derive(Clone, Copy, Debug, PartialEq, Eq)]
pub struct StatusFlags {
    /// More (M): the Error Information log page has more of this command.
    pub more: bool,
    /// Do Not Retry (DNR): the same command would fail again.
    pub do_not_retry: bool,
}

// Whether two statuses are the same.
fn is_status(one: Status, other: Status) -> bool
    ensures { result ≡ is_status one other }
{
    one.sct == other.sct && one.sc == other.sc
}

// Whether no retry changes a status that the controller answers itself.
fn is_final(status: Status) -> bool
    ensures { result ≡ is_final status }
{
    is_status(status, Status::INVALID_OPCODE)
        || is_status(status, Status::INVALID_FIELD)
        || is_status(status, Status::SEQUENCE_ERROR)
        || is_status(status, Status::COMPLETION_QUEUE_INVALID)
        || is_status(status, Status::INVALID_QUEUE_IDENTIFIER)
        || is_status(status, Status::INVALID_QUEUE_SIZE)
        || is_status(status, Status::FEATURE_NOT_SAVEABLE)
        || is_status(status, PRP_OFFSET_INVALID)
        || is_status(status, INVALID_INTERRUPT_VECTOR)
}

impl StatusFlags {
    /// Neither mark.
    pub const NONE: StatusFlags = StatusFlags {
        more: false,
        do_not_retry: false,
    };

    /// The flags of what the controller answers itself, by its status: Do Not Retry where no retry changes it, and never
    /// More.
    pub fn of(status: Status) -> StatusFlags
        ensures { result ≡ own_flags status }
    {
        StatusFlags {
            more: false,
            do_not_retry: is_final(status),
        }
    }
}
