// The rows of a picture.
use nvme_arbiter::{Mechanism, Seen};
use nvme_stats::{IO_QUEUES, lane_of};

/// The row of a queue in a picture. Round robin has no classes: there the rows are those of the first I/O class.
pub fn row_of(mechanism: Mechanism, queue: &Seen) -> Option<usize> {
    let qid = usize::from(queue.qid);
    match mechanism {
        Mechanism::Weighted => lane_of(queue),
        Mechanism::RoundRobin if qid <= IO_QUEUES => Some(qid),
        Mechanism::RoundRobin => None,
    }
}

/// The row in a picture of the queue that a pick names, where it was seen.
pub fn row_of_pick(mechanism: Mechanism, seen: &[Seen], qid: u16) -> Option<usize> {
    let queue = seen.iter().find(|queue| queue.qid == qid)?;
    row_of(mechanism, queue)
}
