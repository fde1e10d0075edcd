use crate::listed::Listed;
use nvme_arbiter::{Class, Pick, Seen, Settings};
use nvme_entry::{Cqe, Sqe};

/// One step of a front. A log lists them in the order in which the front did them. A `region` with an `index` is a
/// `Place`.
#[derive(Debug, Drop, PartialEq, Eq)]
pub enum Event {
    /// An entry was fetched from a submission region's ring into its queue's window.
    Fetch {
        region: u8,
        index: u32,
        entry: Sqe,
    },
    /// Arbitration picked the `n` oldest candidates of a queue. `seen` is what it saw: the open queues, each with its
    /// number of candidates. (Base Specification, Command Arbitration)
    Pick {
        seen: Listed<Seen>,
        pick: Pick,
    },
    /// The settings of the Arbitration feature were set.
    SetArbitration {
        settings: Settings,
    },
    /// A submission queue was created on a region.
    OpenSq {
        qid: u16,
        region: u8,
        cqid: u16,
        class: Class,
    },
    /// A completion queue was created on a region.
    OpenCq {
        qid: u16,
        region: u8,
    },
    /// The deletion of a submission queue began.
    Closing {
        qid: u16,
        region: u8,
    },
    /// A candidate was aborted: by the Abort command that was picked just before, or with its submission queue, whose
    /// deletion began.
    Abort {
        region: u8,
        index: u32,
    },
    /// The completion of a place was put into a completion region's ring.
    Post {
        cq_region: u8,
        region: u8,
        index: u32,
        cqe: Cqe,
    },
    /// The deletion of a submission queue was finished.
    ClosedSq {
        qid: u16,
        region: u8,
    },
    /// A completion queue was deleted.
    ClosedCq {
        qid: u16,
        region: u8,
    },
}
