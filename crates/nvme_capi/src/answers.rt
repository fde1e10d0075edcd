// The answers of the queue table, as C sees them.
ghost use Rattle.std.specs.Prelude.{◌≡◌};
ghost use Rattle.nvme_capi.specs.Tables.{plain_answer, answer_of, queue_answer_of, status_fields_of};

use crate::fields::StatusFields;
use nvme_admin::{SqEntry, Verdict};
use nvme_entry::Status;

/// `nvmearb_answer`: the effect of an admin command. The verdicts are 0 done, 1 a submission queue was created, 2 a
/// completion queue was created, 3 the submission queue is closing, 4 the completion queue was deleted, 5 the settings
/// were set, 6 a waiting command of the submission queue is to be aborted. Fields that a verdict doesn't have are 0.
#[repr(C)]
#[derive(Clone, Copy, Drop)]
pub struct AnswerFields {
    pub verdict: u32,
    pub dw0: u32,
    pub cdw11: u32,
    pub qid: u16,
    pub region: u16,
    pub cqid: u16,
    pub priority: u16,
    pub status: StatusFields,
    pub cid: u16,
}

/// `nvmearb_queue`: a submission queue that is open or closing.
#[repr(C)]
#[derive(Clone, Copy, Drop)]
pub struct QueueAnswer {
    pub region: u16,
    pub cqid: u16,
    pub priority: u16,
    pub closing: u16,
}

// The fields of a status.
fn status_fields_of(status: Status) -> StatusFields
    ensures { result ≡ status_fields_of status }
{
    StatusFields {
        sct: status.sct(),
        sc: status.sc(),
    }
}

/// The answer with this verdict and success, and 0 in all other fields.
pub const fn plain_answer(verdict: u32) -> AnswerFields
    ensures { result ≡ plain_answer verdict }
{
    AnswerFields {
        verdict,
        dw0: 0,
        cdw11: 0,
        qid: 0,
        region: 0,
        cqid: 0,
        priority: 0,
        status: StatusFields { sct: 0, sc: 0 },
        cid: 0,
    }
}

/// The answer of a verdict.
pub fn answer_of(verdict: Verdict) -> AnswerFields
    ensures { result ≡ answer_of verdict }
{
    match verdict {
        Verdict::Done(status, dw0) => AnswerFields {
            status: status_fields_of(status),
            dw0,
            ..plain_answer(0)
        },
        Verdict::OpenSq {
            qid,
            region,
            cqid,
            class,
        } => AnswerFields {
            qid,
            region: u16::from(region),
            cqid,
            priority: class.number(),
            ..plain_answer(1)
        },
        Verdict::OpenCq { qid, region } => AnswerFields {
            qid,
            region: u16::from(region),
            ..plain_answer(2)
        },
        Verdict::BeginDelete { qid } => AnswerFields {
            qid,
            ..plain_answer(3)
        },
        Verdict::CloseCq { qid } => AnswerFields {
            qid,
            ..plain_answer(4)
        },
        Verdict::SetArbitration(settings) => AnswerFields {
            cdw11: settings.to_cdw11(),
            ..plain_answer(5)
        },
        Verdict::Abort { sqid, cid } => AnswerFields {
            qid: sqid,
            cid,
            ..plain_answer(6)
        },
    }
}

/// The answer about a submission queue.
pub fn queue_answer_of(queue: SqEntry) -> QueueAnswer
    ensures { result ≡ queue_answer_of queue }
{
    QueueAnswer {
        region: u16::from(queue.region),
        cqid: queue.cqid,
        priority: queue.class.number(),
        closing: u16::from(queue.closing),
    }
}
