use nvme_arbiter::{Class, Settings};
use nvme_entry::Status;

/// A submission queue that is open or closing.
#[derive(Clone, Copy, Debug, PartialEq, Eq)]
pub struct SqEntry {
    /// The number of its region.
    pub region: u8,
    /// The completion queue that it is attached to.
    pub cqid: u16,
    /// Its priority class: that of QPRIO under either arbitration mechanism, since the table doesn't
    /// know the mechanism, and round robin arbitration doesn't look at the class of an I/O queue.
    pub class: Class,
    /// Its deletion was accepted and isn't finished.
    pub closing: bool,
}

/// The verdict on an admin command. All but `Done` mean success, and all but `Done` and `Abort` mean 0 as DW0.
#[derive(Clone, Copy, Debug, PartialEq, Eq)]
pub enum Verdict {
    /// Answer at once with this status and this DW0.
    Done(Status, u32),
    /// A submission queue was created on a submission region.
    OpenSq {
        qid: u16,
        region: u8,
        cqid: u16,
        class: Class,
    },
    /// A completion queue was created on a completion region.
    OpenCq {
        qid: u16,
        region: u8,
    },
    /// The submission queue is closing. Its deletion is to be finished.
    BeginDelete {
        qid: u16,
    },
    /// The completion queue was deleted.
    CloseCq {
        qid: u16,
    },
    /// The oldest waiting command of the submission queue with this command identifier is to be aborted. DW0 of the
    /// Abort is 0 where there was one and 1 otherwise, which the table can't know.
    Abort {
        sqid: u16,
        cid: u16,
    },
    /// The settings of the Arbitration feature were set.
    SetArbitration(Settings),
}
