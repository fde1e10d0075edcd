// What a log tells.
use nvme_entry::{AdminCommand, Status};

/// The fields of a completion entry. What the observer can't see is `None`.
/// (Base Specification, Completion Queue Entry)
#[derive(Clone, Copy, Debug, PartialEq, Eq)]
pub struct Completion {
    /// SQID.
    pub sq: u16,
    /// CID.
    pub cid: u16,
    /// SQHD.
    pub sqhd: Option<u16>,
    /// The phase tag.
    pub phase: Option<bool>,
    /// Status Code Type and Status Code.
    pub status: Status,
    /// Dword 0.
    pub dw0: Option<u32>,
}

/// One event of a log. A slot that the observer can't see is `None`.
#[derive(Clone, Copy, Debug, PartialEq, Eq)]
pub enum Event {
    /// The host wrote the tail doorbell of a submission queue.
    Tail {
        sq: u16,
        slot: u16,
    },
    /// The host wrote the head doorbell of a completion queue.
    Head {
        cq: u16,
        slot: u16,
    },
    /// The controller fetched an entry. `command` is what the entry asks as an admin command; outside the admin queue
    /// it means nothing.
    Fetch {
        sq: u16,
        slot: Option<u16>,
        cid: u16,
        command: AdminCommand,
    },
    /// The controller wrote an entry into a completion queue, or the host read it: `Tells` says which.
    Post {
        cq: u16,
        slot: Option<u16>,
        completion: Completion,
    },
}
