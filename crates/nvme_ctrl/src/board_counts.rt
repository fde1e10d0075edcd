// The counts on the board of a controller. A queue that is held has a count of 0. (profile)
ghost use Rattle.std.specs.Prelude.{◌≡◌, None, ◌↔◌, ◌+◌, ◌-◌, ◌<◌, ◌≤◌, false, if◌then◌else◌, Some, IsSome, IsSomeAnd, IfSome, slice_set};
ghost use Rattle.nvme_arbiter.specs.Limits.{highest_qid, highest_count};
ghost use Rattle.nvme_arbiter.specs.Settings.{ArbitrationFields};
ghost use Rattle.nvme_arbiter.specs.History.{History};
ghost use Rattle.nvme_arbiter.specs.Board.{BoardStandsAt};
ghost use Rattle.nvme_arbiter.specs.Layout.{board_of};
ghost use Rattle.nvme_arbiter.specs.Queues.{queue_at};
ghost use Rattle.nvme_arbiter.specs.declared.settings.Mechanism.{Mechanism};
ghost use Rattle.nvme_arbiter.specs.declared.settings.Class.TheVariants.{Admin};

use nvme_arbiter::{BoardFields, Class, HIGHEST_COUNT, QUEUE_LIMIT};

// Counts one more waiting command in an open queue, unless it is held. A count at its highest stays.
pub(crate) fn came(board: &mut BoardFields, qid: u16, held: bool)
    ensures came { IsSomeAnd (queue_at (board_of board.old).queues qid) (λ queue. queue.count < highest_count) → IfSome (queue_at (board_of board.old).queues qid) (λ queue. board_of board.new ≡ record (board_of board.old) { queues = slice_set (board_of board.old).queues qid (Some (record queue { count = if held then queue.count else queue.count + 1 })) }) }
    ensures arbiter { board.new.arbiter ≡ board.old.arbiter }
{
    if held {
        return;
    }
    if let Some(queue) = board.queue(qid) {
        if queue.count < HIGHEST_COUNT {
            board.came(qid);
        }
    }
}

// Counts one waiting command less in an open queue, unless it is held. A count of 0 stays.
pub(crate) fn went(board: &mut BoardFields, qid: u16, held: bool)
    ensures went { (held ≡ false → IsSomeAnd (queue_at (board_of board.old).queues qid) (λ queue. 0 < queue.count)) → IfSome (queue_at (board_of board.old).queues qid) (λ queue. board_of board.new ≡ record (board_of board.old) { queues = slice_set (board_of board.old).queues qid (Some (record queue { count = if held then queue.count else queue.count - 1 })) }) }
    ensures stands { (mechanism : Mechanism) (first : ArbitrationFields) (past : History) → BoardStandsAt mechanism first past (board_of board.old) → BoardStandsAt mechanism first past (board_of board.new) }
    ensures arbiter { board.new.arbiter ≡ board.old.arbiter }
{
    if held {
        return;
    }
    if let Some(queue) = board.queue(qid) {
        if queue.count > 0 {
            board.went(qid);
        }
    }
}

// Shows a queue that wasn't open, in a class of its identifier, in which no command waits.
pub(crate) fn show_empty(board: &mut BoardFields, qid: u16, class: Class)
    ensures opened { qid ≤ highest_qid → queue_at (board_of board.old).queues qid ≡ None → ((class ≡ Admin) ↔ (qid ≡ 0)) → board_of board.new ≡ record (board_of board.old) { queues = slice_set (board_of board.old).queues qid (Some (record { class = class; count = 0 })) } }
    ensures there { qid ≤ highest_qid → queue_at (board_of board.old).queues qid ≡ None → ((class ≡ Admin) ↔ (qid ≡ 0)) → queue_at (board_of board.new).queues qid ≡ Some (record { class = class; count = 0 }) }
    ensures stands { (mechanism : Mechanism) (first : ArbitrationFields) (past : History) → BoardStandsAt mechanism first past (board_of board.old) → BoardStandsAt mechanism first past (board_of board.new) }
    ensures arbiter { board.new.arbiter ≡ board.old.arbiter }
{
    if usize::from(qid) >= QUEUE_LIMIT || matches!(class, Class::Admin) != (qid == 0) {
        return;
    }
    if board.queue(qid).is_none() {
        board.open(qid, class);
    }
}

// Shows a queue no longer.
pub(crate) fn hide(board: &mut BoardFields, qid: u16)
    ensures closed { IsSome (queue_at (board_of board.old).queues qid) → board_of board.new ≡ record (board_of board.old) { queues = slice_set (board_of board.old).queues qid None } }
    ensures stands { (mechanism : Mechanism) (first : ArbitrationFields) (past : History) → BoardStandsAt mechanism first past (board_of board.old) → BoardStandsAt mechanism first past (board_of board.new) }
    ensures arbiter { board.new.arbiter ≡ board.old.arbiter }
{
    if board.queue(qid).is_some() {
        board.close(qid);
    }
}

// Shows an open queue in a class and with a count. What was served last and used in the round stays.
pub(crate) fn show(board: &mut BoardFields, qid: u16, class: Class, count: u16)
    requires there { IsSome (queue_at (board_of board.old).queues qid) }
    requires within { qid ≤ highest_qid }
    requires admin { (class ≡ Admin) ↔ (qid ≡ 0) }
    requires few { count ≤ highest_count }
    ensures shown { board_of board.new ≡ record (board_of board.old) { queues = slice_set (board_of board.old).queues qid (Some (record { class = class; count = count })) } }
    ensures stands { (mechanism : Mechanism) (first : ArbitrationFields) (past : History) → BoardStandsAt mechanism first past (board_of board.old) → BoardStandsAt mechanism first past (board_of board.new) }
    ensures arbiter { board.new.arbiter ≡ board.old.arbiter }
{
    board.close(qid);
    board.open(qid, class);
    board.came_n(qid, count);
}
