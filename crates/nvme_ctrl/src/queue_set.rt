// Sets of I/O queues, as masks: bit q - 1 is that of the queue of identifier q.
ghost use Rattle.std.specs.Prelude.{◌≡◌, ◌≤◌, MatchOption};
ghost use Rattle.nvme_ctrl.specs.kept.QueueSets.{has_queue, with_queue, HasNoneAbove, IsFirstAbove};

use nvme_arbiter::HIGHEST_QID;

/// Whether a queue is in a set. The admin queue is in each.
pub fn has_queue(set: u64, qid: u16) -> bool
    ensures { result ≡ has_queue set qid }
{
    if qid == 0 {
        return true;
    }
    qid <= HIGHEST_QID && (set >> (qid - 1)) % 2 == 1
}

/// A set with a queue or without it. Of the admin queue, and of an identifier above 64, it stays.
pub fn with_queue(set: u64, qid: u16, on: bool) -> u64
    ensures { result ≡ with_queue set qid on }
{
    if qid == 0 || qid > HIGHEST_QID {
        return set;
    }
    if on {
        set | (1 << (qid - 1))
    } else {
        set & !(1 << (qid - 1))
    }
}

/// The first queue of a set above an identifier.
pub fn first_above(set: u64, qid: u16) -> Option<u16>
    ensures { MatchOption result (HasNoneAbove set qid) (IsFirstAbove set qid) }
{
    if qid >= HIGHEST_QID {
        return None;
    }
    let rest = set >> qid;
    if rest == 0 {
        return None;
    }
    Some(qid + 1 + rest.trailing_zeros() as u16)
}
