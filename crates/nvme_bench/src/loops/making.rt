// The controller of the loop.
ghost use Rattle.std.specs.Prelude.{IfOk, length, ◌<◌, ◌^◌};
ghost use Rattle.nvme_ctrl.specs.Standing.{IsController};

use crate::loops::calls::{NO_LIMIT, cq_head, fetched, pick, post, sq_tail};
use crate::loops::faults::{Fault, check};
use crate::loops::workload::{Case, RING};
use nvme_admin::{Limits, Region};
use nvme_arbiter::Settings;
use nvme_ctrl::{Controller, Slot, Step};
use nvme_entry::{Cqe, Sqe, Status};

// Where the rings of each kind would lie: that of queue `qid` so many times `BETWEEN` behind the admin queue's.
const SQS: u64 = 0x10_0000;

const CQS: u64 = 0x20_0000;

const BETWEEN: u64 = 0x1000;

// The most commands of a queue that hold a slot: as many as arbitration counts, and as many as may be outstanding.
const DEPTH: u16 = 512;

// The weights 4, 2 and 1, and a burst of 8.
const CDW11: u32 = 0x0301_0003;

// The entry of a Create of a queue.
fn create(opcode: u8, prp1: u64, qid: u16, cdw11: u32) -> Sqe {
    Sqe {
        opcode,
        prp1,
        cdw10: u32::from(RING - 1) << 16 | u32::from(qid),
        cdw11,
        ..Sqe::default()
    }
}

// Whether a completion tells success.
fn is_success(bytes: &[u8; 16]) -> bool {
    Cqe::from_bytes(bytes).is_some_and(|cqe| cqe.status == Status::SUCCESS)
}

// The regions of a queue pair.
fn add_regions(ctrl: &mut Controller, slots: &[Slot], sq: u64, cq: u64) -> Result<(), Fault>
    requires front { IsController ctrl.old slots.now }
    ensures front { IsController ctrl.new slots.now }
{
    let added = ctrl.add_sq_region(sq, RING).is_ok();
    check(added)?;
    let added = ctrl.add_cq_region(cq, RING).is_ok();
    check(added)
}

// The host submits an admin command, with the tail behind it, and its completion is posted.
fn submit(ctrl: &mut Controller, slots: &mut [Slot], entry: &Sqe, tail: u16) -> Result<(), Fault>
    requires front { IsController ctrl.old slots.old }
    ensures front { IsController ctrl.new slots.new }
{
    let rung = sq_tail(ctrl, slots, 0, tail);
    check(rung)?;
    let is_read = fetched(ctrl, slots, 0, &entry.to_bytes(), 0);
    check(is_read)?;
    let step = pick(ctrl, slots, NO_LIMIT);
    check(matches!(step, Step::Done(..)))?;
    let posted = post(ctrl, slots, 0);
    check(posted.is_some_and(|post| is_success(&post.bytes)))?;
    let rung = cq_head(ctrl, slots, 0, tail);
    check(rung)
}

// The host creates a queue pair. Its priority is that of its identifier, by turns.
fn open(ctrl: &mut Controller, slots: &mut [Slot], qid: u16) -> Result<(), Fault>
    requires front { IsController ctrl.old slots.old }
    ensures front { IsController ctrl.new slots.new }
{
    let sq = SQS + BETWEEN * u64::from(qid);
    let cq = CQS + BETWEEN * u64::from(qid);
    add_regions(ctrl, slots, sq, cq)?;
    // (two Creates of each queue pair go through the admin queue)
    let tail = 2 * (qid % (RING / 2));
    let create_cq = create(0x05, cq, qid, 1);
    submit(ctrl, slots, &create_cq, (tail + RING - 1) % RING)?;
    let create_sq = create(
        0x01,
        sq,
        qid,
        u32::from(qid) << 16 | u32::from(qid % 4) << 1 | 1,
    );
    submit(ctrl, slots, &create_sq, tail)
}

// It creates all queue pairs of a case.
fn open_all(ctrl: &mut Controller, slots: &mut [Slot], queues: u16) -> Result<(), Fault>
    requires front { IsController ctrl.old slots.old }
    ensures front { IsController ctrl.new slots.new }
{
    for qid in 1..=queues {
        open(ctrl, slots, qid)?;
    }
    Ok(())
}

/// A controller whose I/O queues have the four classes in turn.
pub fn make(case: Case, slots: &mut [Slot]) -> Result<Controller, Fault>
    requires few { length slots.old < 2 ^ 16 }
    ensures front { IfOk result (λ c. IsController c slots.new) }
{
    let sq = Region {
        address: SQS,
        slots: RING,
    };
    let cq = Region {
        address: CQS,
        slots: RING,
    };
    let Ok(mut ctrl) = Controller::new(
        case.mechanism,
        Settings::from_cdw11(CDW11),
        Limits { nsq: 64, ncq: 64 },
        DEPTH,
        sq,
        cq,
        slots,
    ) else {
        return Err(Fault::Refused);
    };
    open_all(&mut ctrl, slots, case.queues)?;
    Ok(ctrl)
}
