// The rows of a trace: one for each queue in each class.
ghost use Rattle.std.specs.Prelude.{◌≡◌, ◌<◌, ◌+◌, ◌*◌, ℕ, None, IfSome};
ghost use Rattle.nvme_arbiter.specs.declared.settings.Class.TheVariants.{Admin};
ghost use Rattle.nvme_stats.specs.Rows.{IsIoQueue, IsRow};

use nvme_arbiter::{Class, QUEUE_LIMIT, Seen};

/// The most I/O queues.
pub const IO_QUEUES: usize = QUEUE_LIMIT - 1;

/// The number of rows: the admin queue, and each I/O queue in each other class.
pub const LANES: usize = 1 + 4 * IO_QUEUES;

// The number of I/O classes before a class.
fn rank(class: Class) -> Option<usize>
    ensures some { IfSome result (λ rank. (rank < 4) × ((qid : ℕ) → IsIoQueue qid → IsRow class qid (rank * 64 + qid))) }
    ensures none { result ≡ None → class ≡ Admin }
{
    match class {
        Class::Admin => None,
        Class::Urgent => Some(0),
        Class::High => Some(1),
        Class::Medium => Some(2),
        Class::Low => Some(3),
    }
}

/// The row of a queue in its class. A queue whose identifier isn't one of an I/O queue has none in an I/O class.
pub fn lane_of(queue: &Seen) -> Option<usize>
    ensures range { IfSome result (λ lane. lane < LANES) }
    ensures some { IfSome result (λ lane. IsRow queue.now.class queue.now.qid lane) }
    ensures none { result ≡ None → (lane : ℕ) → IsRow queue.now.class queue.now.qid lane → ⊥ }
{
    let Some(rank) = rank(queue.class) else {
        return Some(0);
    };
    let qid = usize::from(queue.qid);
    if qid == 0 || qid > IO_QUEUES {
        return None;
    }
    Some(rank * IO_QUEUES + qid)
}

/// The queue of a row, with its class.
pub fn queue_of_lane(lane: usize) -> Seen
    ensures row { lane < LANES → IsRow result.class result.qid lane }
    ensures count { result.count ≡ 0 }
{
    if lane == 0 || lane >= LANES {
        return Seen::default();
    }
    let class = match (lane - 1) / IO_QUEUES {
        0 => Class::Urgent,
        1 => Class::High,
        2 => Class::Medium,
        _ => Class::Low,
    };
    let qid = (lane - 1) % IO_QUEUES + 1;
    Seen {
        qid: qid as u16,
        class,
        count: 0,
    }
}

/// The rows of a queue, one for each class: those of an I/O queue are as many rows apart as there are I/O queues. Rows
/// from `LANES` on are none.
pub fn lanes_of_queue(qid: u16) -> [usize; 4] {
    let first = usize::from(qid);
    if first == 0 || first > IO_QUEUES {
        return [first.min(1) * LANES, LANES, LANES, LANES];
    }
    [
        first,
        first + IO_QUEUES,
        first + 2 * IO_QUEUES,
        first + 3 * IO_QUEUES,
    ]
}

/// The class of a row.
pub fn class_of_lane(lane: usize) -> Class
    ensures { lane < LANES → (qid : ℕ) × IsRow result qid lane }
{
    queue_of_lane(lane).class
}

/// The row of the queue that a pick names, where it was seen.
pub fn lane_of_pick(seen: &[Seen], qid: u16) -> Option<usize>
    ensures { IfSome result (λ lane. lane < LANES) }
{
    let queue = seen.iter().find(|queue| queue.qid == qid)?;
    lane_of(queue)
}
