//! An emulator's loop over a board: doorbell writes tell of new commands, and arbitration says which are taken next.
ghost use Rattle.std.specs.Prelude.{◌≡◌, ◌<◌, ◌⊎◌, ℕ, ◌+◌, ◌==◌, if◌then◌else◌, [], List, length, IfSome, IsTrue, IsFalse, OnOk};
ghost use Rattle.nvme_arbiter.specs.Limits.{highest_count};
ghost use Rattle.nvme_arbiter.specs.Observation.{IsIdle};
ghost use Rattle.nvme_arbiter.specs.Queues.{queue_at, seen_of};
ghost use Rattle.nvme_arbiter.specs.Settings.{ArbitrationFields};
ghost use Rattle.nvme_arbiter.specs.declared.settings.Mechanism.{Mechanism};
ghost use Rattle.nvme_arbiter.specs.declared.settings.Mechanism.TheVariants.{Weighted};
ghost use Rattle.nvme_arbiter.specs.declared.pick.Pick.{Pick};
ghost use Rattle.nvme_uses.specs.Served.{HasServed};

use nvme_arbiter::{Board, Class, HIGHEST_COUNT, Mechanism, Pick, Settings};
use std::alloc::AllocError;

/// A board with the admin queue, an urgent queue 1 and a low queue 2. It served nothing yet.
pub fn opened(settings: Settings) -> Board
    ensures { HasServed Weighted settings (λ q. 0) [] result }
{
    let mut board = Board::new(Mechanism::Weighted, settings);
    board.open(0, Class::Admin);
    board.open(1, Class::Urgent);
    board.open(2, Class::Low);
    board
}

/// A doorbell write: there are `new` more commands in a queue. It is refused, and nothing changes, where the queue
/// isn't open or would have too many.
pub fn doorbell(board: &mut Board, qid: u16, new: u16) -> bool
    ensures came { IsTrue result → (mechanism : Mechanism) (first : ArbitrationFields) (came : ℕ → ℕ) (picks : List Pick) → HasServed mechanism first came picks board.old → HasServed mechanism first (λ q. came q + (if q == qid then new else 0)) picks board.new }
    ensures refused { IsFalse result → board.new ≡ board.old }
    ensures cause { IsFalse result → IfSome (queue_at board.old.queues qid) (λ queue. highest_count < queue.count + new) }
{
    let Some(queue) = board.queue(qid) else {
        return false;
    };
    if new > HIGHEST_COUNT - queue.count {
        return false;
    }
    for _ in 0..new {
        board.came(qid);
    }
    true
}

/// Takes commands until none waits, in at most `most` picks, and appends the picks. What came of each queue was taken
/// or still waits, and each pick is the lawful one of what waited. Where memory is refused, nothing is lost.
pub fn serve(board: &mut Board, most: u32, picks: &mut Vec<Pick>) -> Result<(), AllocError>
    ensures served { (mechanism : Mechanism) (first : ArbitrationFields) (came : ℕ → ℕ) → HasServed mechanism first came picks.old.items board.old → HasServed mechanism first came picks.new.items board.new }
    ensures to_end { OnOk result (IsIdle (seen_of board.new.queues) ⊎ (length picks.new.items ≡ length picks.old.items + most)) }
{
    for _ in 0..most {
        picks.reserve(1)?;
        let Some(pick) = board.pick() else {
            return Ok(());
        };
        picks.push_reserved(pick);
    }
    Ok(())
}
