ghost use Rattle.std.specs.Prelude.{◌≡◌};
ghost use Rattle.nvme_admin.specs.Effects.{verdict_in};

use crate::verdict::Verdict;
use nvme_arbiter::{Class, Settings};
use nvme_entry::Status;

/// The effect of an admin command: its verdict, and the regions of the queues that it is about.
#[derive(Clone, Copy, Debug, PartialEq, Eq)]
pub enum Effect {
    /// Answer at once with this status and this DW0.
    Done(Status, u32),
    /// A submission queue was created on a submission region. Its completion queue is open on `cq_region`.
    OpenSq {
        qid: u16,
        region: u8,
        cqid: u16,
        cq_region: u8,
        class: Class,
    },
    /// A completion queue was created on a completion region.
    OpenCq {
        qid: u16,
        region: u8,
    },
    /// The submission queue on this region is closing. Its deletion is to be finished.
    BeginDelete {
        qid: u16,
        region: u8,
    },
    /// The completion queue on this region was deleted.
    CloseCq {
        qid: u16,
        region: u8,
    },
    /// The oldest waiting command of the submission queue with this command identifier is to be aborted. DW0 of the
    /// Abort is 0 where there was one and 1 otherwise, which the table can't know.
    Abort {
        sqid: u16,
        cid: u16,
    },
    /// The settings of the Arbitration feature were set.
    SetArbitration(Settings),
}

impl Effect {
    /// The verdict in the effect.
    pub fn verdict(self) -> Verdict
        ensures { result ≡ verdict_in self }
    {
        match self {
            Effect::Done(status, dw0) => Verdict::Done(status, dw0),
            Effect::OpenSq {
                qid,
                region,
                cqid,
                class,
                ..
            } => Verdict::OpenSq {
                qid,
                region,
                cqid,
                class,
            },
            Effect::OpenCq { qid, region } => Verdict::OpenCq { qid, region },
            Effect::BeginDelete { qid, .. } => Verdict::BeginDelete { qid },
            Effect::CloseCq { qid, .. } => Verdict::CloseCq { qid },
            Effect::Abort { sqid, cid } => Verdict::Abort { sqid, cid },
            Effect::SetArbitration(settings) => Verdict::SetArbitration(settings),
        }
    }
}
