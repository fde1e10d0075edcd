ghost use Rattle.std.specs.Prelude.{◌≡◌, ℕ, ◌<◌, ◌≤◌, ◌↔◌, IsNone, IfSome};
ghost use Rattle.nvme_entry.specs.Status.{StatusCode, code};

use std::marker::Model;

/// The status of a completed command: a status code type and a status code.
/// (Base Specification, Completion Queue Entry, Status Field)
#[derive(Clone, Copy, Debug, PartialEq, Eq)]
pub struct Status {
    /// The status code type, 0 to 7.
    pub sct: u8,
    /// The status code.
    pub sc: u8,
}

impl Model for Status {
    ghost use Rattle.std.specs.Prelude.{◌≤◌};
    ghost use Rattle.nvme_entry.specs.Status.{StatusCode};

    ghost Value = { StatusCode };

    ghost view = { λ s. record { sct = s.sct; sc = s.sc } };

    ghost invariant = { λ s. s.sct ≤ 7 };

    ghost inverse = { λ v. record { sct = v.sct; sc = v.sc } };
}

impl Status {
    /// Successful Completion.
    pub const SUCCESS: Status = Status { sct: 0, sc: 0x00 };
    /// Invalid Command Opcode.
    pub const INVALID_OPCODE: Status = Status { sct: 0, sc: 0x01 };
    /// Invalid Field in Command.
    pub const INVALID_FIELD: Status = Status { sct: 0, sc: 0x02 };
    /// Command Abort Requested.
    pub const ABORT_REQUESTED: Status = Status { sct: 0, sc: 0x07 };
    /// Command Aborted due to SQ Deletion.
    pub const ABORTED_BY_DELETION: Status = Status { sct: 0, sc: 0x08 };
    /// Invalid Namespace or Format.
    pub const INVALID_NAMESPACE: Status = Status { sct: 0, sc: 0x0b };
    /// Command Sequence Error.
    pub const SEQUENCE_ERROR: Status = Status { sct: 0, sc: 0x0c };
    /// LBA Out of Range.
    pub const LBA_OUT_OF_RANGE: Status = Status { sct: 0, sc: 0x80 };
    /// Completion Queue Invalid.
    pub const COMPLETION_QUEUE_INVALID: Status = Status { sct: 1, sc: 0x00 };
    /// Invalid Queue Identifier.
    pub const INVALID_QUEUE_IDENTIFIER: Status = Status { sct: 1, sc: 0x01 };
    /// Invalid Queue Size.
    pub const INVALID_QUEUE_SIZE: Status = Status { sct: 1, sc: 0x02 };
    /// Invalid Queue Deletion.
    pub const INVALID_QUEUE_DELETION: Status = Status { sct: 1, sc: 0x0c };
    /// Feature Identifier Not Saveable.
    pub const FEATURE_NOT_SAVEABLE: Status = Status { sct: 1, sc: 0x0d };

    /// A status of a status code type, 0 to 7, and a status code. `None` exactly for a type above 7,
    /// which has no place in a completion entry.
    pub fn new(sct: u8, sc: u8) -> Option<Status>
        ensures none { IsNone result ↔ (7 < sct) }
        ensures some { IfSome result (λ s. s ≡ code sct sc) }
    {
        if sct <= 7 {
            Some(Status { sct, sc })
        } else {
            None
        }
    }

    /// The status code type, 0 to 7.
    pub fn sct(&self) -> u8
        ensures value { result ≡ self.now.sct }
        ensures range { result ≤ 7 }
    {
        self.sct
    }

    /// The status code.
    pub fn sc(&self) -> u8
        ensures { result ≡ self.now.sc }
    {
        self.sc
    }
}
