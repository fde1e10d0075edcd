// The board, over a state that the caller owns.
ghost use Rattle.std.specs.Prelude.{◌≡◌, ◌≢◌, ◌+◌, ◌-◌, ◌<◌, ◌≤◌, ◌⊎◌, ◌↔◌, [], ◌∷◌, Some, None, IsTrue, IsFalse, IsSome, IfSome, option_map, slice_set, replicate};
ghost use Rattle.nvme_arbiter.specs.Limits.{highest_count, queue_limit};
ghost use Rattle.nvme_arbiter.specs.Settings.{ArbitrationFields, settings_of, class_of_number};
ghost use Rattle.nvme_arbiter.specs.Observation.{IsIdle, IsSeen, class_in};
ghost use Rattle.nvme_arbiter.specs.History.{History, Picked, Changed};
ghost use Rattle.nvme_arbiter.specs.Lawful.{IsLawfulPick, limited_pick, cut};
ghost use Rattle.nvme_arbiter.specs.Standing.{pick_of, first_kept, kept_after, nothing_used};
ghost use Rattle.nvme_arbiter.specs.Queues.{seen_of, queue_at, seen_as};
ghost use Rattle.nvme_arbiter.specs.Board.{BoardStandsAt, queues_after};
ghost use Rattle.nvme_arbiter.specs.Layout.{kept_of, mechanism_of, board_of, slots_in};
ghost use Rattle.nvme_arbiter.specs.declared.settings.Mechanism.{Mechanism};
ghost use Rattle.nvme_capi.specs.States.{is_board, pick_of_fields};

use crate::arbiter::mechanism_with;
use crate::results::{BAD_ARGUMENT, BAD_STATE, NOTHING, OK};
use crate::states::{PickFields, fields_of_pick};
use crate::version::{BOARD_BYTES, INTERFACE};
use nvme_arbiter::{BoardFields, Class, HIGHEST_COUNT, Seen, Settings, is_observation};

// What `nvmearb_board_init` of this interface writes before a board, and nothing else does.
const MARK: u64 = 0x6e76_6d65_6200_0000 + INTERFACE;

/// `nvmearb_board`: a mark, and a board: the open queues, and an arbiter. Any content of the queues is that of some
/// board, so only mark and arbiter are checked.
#[repr(C)]
#[derive(Clone, Copy, Drop)]
pub struct BoardState {
    pub mark: u64,
    pub board: BoardFields,
}

const _: () = prove!(size_of::<BoardState>() == BOARD_BYTES as usize);

// Whether a board was made here.
fn is_board(state: &BoardState) -> bool
    ensures { result ≡ is_board state.now }
{
    state.mark == MARK && state.board.arbiter.is_arbiter()
}

// Whether a queue of a class can be open under an identifier.
fn can_open(qid: u16, class: Class) -> bool
    ensures { IsTrue result ↔ IsSeen (seen_as qid (record { class = class; count = 0 })) }
{
    is_observation(&[Seen {
        qid,
        class,
        count: 0,
    }])
}

/// Makes a board with no open queue that has picked nothing yet. The mechanism is 1, round robin, or 2, weighted round
/// robin with urgent priority class.
#[unsafe(no_mangle)]
pub extern "C" fn nvmearb_board_init(state: &mut BoardState, mechanism: u32, cdw11: u32) -> u32
    ensures refused { (result ≡ BAD_ARGUMENT) ↔ ((mechanism ≢ 1) × (mechanism ≢ 2)) }
    ensures answer { (result ≡ OK) ⊎ (result ≡ BAD_ARGUMENT) }
    ensures stands { result ≡ OK → BoardStandsAt (mechanism_of mechanism) (settings_of cdw11) [] (board_of state.new.board) }
    ensures keeps { result ≡ OK → kept_of state.new.board.arbiter ≡ first_kept (mechanism_of mechanism) (settings_of cdw11) }
    ensures closed { result ≡ OK → slots_in state.new.board.queues ≡ replicate queue_limit None }
    ensures board { result ≡ OK → IsTrue (is_board state.new) }
    ensures unchanged { result ≢ OK → state.new ≡ state.old }
{
    let Some(mechanism) = mechanism_with(mechanism) else {
        return BAD_ARGUMENT;
    };
    *state = BoardState {
        mark: MARK,
        board: BoardFields::new(mechanism, Settings::from_cdw11(cdw11)),
    };
    OK
}

/// Opens a queue in which no command waits. The classes are 0 admin, 1 urgent, 2 high, 3 medium and 4 low.
#[unsafe(no_mangle)]
pub extern "C" fn nvmearb_board_open(state: &mut BoardState, qid: u16, class: u16) -> u32
    ensures bad_state { (result ≡ BAD_STATE) ↔ IsFalse (is_board state.old) }
    ensures answer { (result ≡ OK) ⊎ ((result ≡ BAD_ARGUMENT) ⊎ (result ≡ BAD_STATE)) }
    ensures was_closed { result ≡ OK → queue_at (slots_in state.old.board.queues) qid ≡ None }
    ensures class { result ≡ OK → IsSome (class_of_number class) }
    ensures seen { result ≡ OK → IfSome (class_of_number class) (λ it. IsSeen (seen_as qid (record { class = it; count = 0 }))) }
    ensures opened { result ≡ OK → IfSome (class_of_number class) (λ it. board_of state.new.board ≡ record (board_of state.old.board) { queues = slice_set (slots_in state.old.board.queues) qid (Some (record { class = it; count = 0 })) }) }
    ensures stands { result ≡ OK → (mechanism : Mechanism) (first : ArbitrationFields) (past : History) → BoardStandsAt mechanism first past (board_of state.old.board) → BoardStandsAt mechanism first past (board_of state.new.board) }
    ensures board { result ≡ OK → IsTrue (is_board state.new) }
    ensures refused { result ≡ BAD_ARGUMENT → IfSome (class_of_number class) (λ it. queue_at (slots_in state.old.board.queues) qid ≡ None → IsSeen (seen_as qid (record { class = it; count = 0 })) → ⊥) }
    ensures unchanged { result ≢ OK → state.new ≡ state.old }
{
    if !is_board(state) {
        return BAD_STATE;
    }
    let Some(class) = Class::of_number(class) else {
        return BAD_ARGUMENT;
    };
    if state.board.queue(qid).is_some() || !can_open(qid, class) {
        return BAD_ARGUMENT;
    }
    state.board.open(qid, class);
    OK
}

/// Closes a queue and drops its count. The board still knows which queues it served last.
#[unsafe(no_mangle)]
pub extern "C" fn nvmearb_board_close(state: &mut BoardState, qid: u16) -> u32
    ensures bad_state { (result ≡ BAD_STATE) ↔ IsFalse (is_board state.old) }
    ensures answer { (result ≡ OK) ⊎ ((result ≡ BAD_ARGUMENT) ⊎ (result ≡ BAD_STATE)) }
    ensures was_open { result ≡ OK → IsSome (queue_at (slots_in state.old.board.queues) qid) }
    ensures closed { result ≡ OK → board_of state.new.board ≡ record (board_of state.old.board) { queues = slice_set (slots_in state.old.board.queues) qid None } }
    ensures stands { result ≡ OK → (mechanism : Mechanism) (first : ArbitrationFields) (past : History) → BoardStandsAt mechanism first past (board_of state.old.board) → BoardStandsAt mechanism first past (board_of state.new.board) }
    ensures board { result ≡ OK → IsTrue (is_board state.new) }
    ensures refused { result ≡ BAD_ARGUMENT → queue_at (slots_in state.old.board.queues) qid ≡ None }
    ensures unchanged { result ≢ OK → state.new ≡ state.old }
{
    if !is_board(state) {
        return BAD_STATE;
    }
    if state.board.queue(qid).is_none() {
        return BAD_ARGUMENT;
    }
    state.board.close(qid);
    OK
}

/// Counts one more waiting command in an open queue, at most 256.
#[unsafe(no_mangle)]
pub extern "C" fn nvmearb_board_came(state: &mut BoardState, qid: u16) -> u32
    ensures bad_state { (result ≡ BAD_STATE) ↔ IsFalse (is_board state.old) }
    ensures answer { (result ≡ OK) ⊎ ((result ≡ BAD_ARGUMENT) ⊎ (result ≡ BAD_STATE)) }
    ensures was_open { result ≡ OK → IsSome (queue_at (slots_in state.old.board.queues) qid) }
    ensures room { result ≡ OK → IfSome (queue_at (slots_in state.old.board.queues) qid) (λ it. it.count < highest_count) }
    ensures came { result ≡ OK → IfSome (queue_at (slots_in state.old.board.queues) qid) (λ it. board_of state.new.board ≡ record (board_of state.old.board) { queues = slice_set (slots_in state.old.board.queues) qid (Some (record it { count = it.count + 1 })) }) }
    ensures stands { result ≡ OK → (mechanism : Mechanism) (first : ArbitrationFields) (past : History) → BoardStandsAt mechanism first past (board_of state.old.board) → BoardStandsAt mechanism first past (board_of state.new.board) }
    ensures board { result ≡ OK → IsTrue (is_board state.new) }
    ensures refused { result ≡ BAD_ARGUMENT → IfSome (queue_at (slots_in state.old.board.queues) qid) (λ it. highest_count ≤ it.count) }
    ensures unchanged { result ≢ OK → state.new ≡ state.old }
{
    nvmearb_board_came_n(state, qid, 1)
}

/// Counts `n` more waiting commands in an open queue, of which at most 256 wait then.
#[unsafe(no_mangle)]
pub extern "C" fn nvmearb_board_came_n(state: &mut BoardState, qid: u16, n: u16) -> u32
    ensures bad_state { (result ≡ BAD_STATE) ↔ IsFalse (is_board state.old) }
    ensures answer { (result ≡ OK) ⊎ ((result ≡ BAD_ARGUMENT) ⊎ (result ≡ BAD_STATE)) }
    ensures was_open { result ≡ OK → IsSome (queue_at (slots_in state.old.board.queues) qid) }
    ensures room { result ≡ OK → IfSome (queue_at (slots_in state.old.board.queues) qid) (λ it. it.count + n ≤ highest_count) }
    ensures came { result ≡ OK → IfSome (queue_at (slots_in state.old.board.queues) qid) (λ it. board_of state.new.board ≡ record (board_of state.old.board) { queues = slice_set (slots_in state.old.board.queues) qid (Some (record it { count = it.count + n })) }) }
    ensures stands { result ≡ OK → (mechanism : Mechanism) (first : ArbitrationFields) (past : History) → BoardStandsAt mechanism first past (board_of state.old.board) → BoardStandsAt mechanism first past (board_of state.new.board) }
    ensures board { result ≡ OK → IsTrue (is_board state.new) }
    ensures refused { result ≡ BAD_ARGUMENT → IfSome (queue_at (slots_in state.old.board.queues) qid) (λ it. highest_count < it.count + n) }
    ensures unchanged { result ≢ OK → state.new ≡ state.old }
{
    if !is_board(state) {
        return BAD_STATE;
    }
    let Some(queue) = state.board.queue(qid) else {
        return BAD_ARGUMENT;
    };
    if n > HIGHEST_COUNT - queue.count {
        return BAD_ARGUMENT;
    }
    state.board.came_n(qid, n);
    OK
}

/// Counts one waiting command less in an open queue: it left without being picked.
#[unsafe(no_mangle)]
pub extern "C" fn nvmearb_board_went(state: &mut BoardState, qid: u16) -> u32
    ensures bad_state { (result ≡ BAD_STATE) ↔ IsFalse (is_board state.old) }
    ensures answer { (result ≡ OK) ⊎ ((result ≡ BAD_ARGUMENT) ⊎ (result ≡ BAD_STATE)) }
    ensures was_open { result ≡ OK → IsSome (queue_at (slots_in state.old.board.queues) qid) }
    ensures some { result ≡ OK → IfSome (queue_at (slots_in state.old.board.queues) qid) (λ it. 0 < it.count) }
    ensures went { result ≡ OK → IfSome (queue_at (slots_in state.old.board.queues) qid) (λ it. board_of state.new.board ≡ record (board_of state.old.board) { queues = slice_set (slots_in state.old.board.queues) qid (Some (record it { count = it.count - 1 })) }) }
    ensures stands { result ≡ OK → (mechanism : Mechanism) (first : ArbitrationFields) (past : History) → BoardStandsAt mechanism first past (board_of state.old.board) → BoardStandsAt mechanism first past (board_of state.new.board) }
    ensures board { result ≡ OK → IsTrue (is_board state.new) }
    ensures refused { result ≡ BAD_ARGUMENT → IfSome (queue_at (slots_in state.old.board.queues) qid) (λ it. it.count ≡ 0) }
    ensures unchanged { result ≢ OK → state.new ≡ state.old }
{
    if !is_board(state) {
        return BAD_STATE;
    }
    let Some(queue) = state.board.queue(qid) else {
        return BAD_ARGUMENT;
    };
    if queue.count == 0 {
        return BAD_ARGUMENT;
    }
    state.board.went(qid);
    OK
}

/// Writes what `nvmearb_board_pick` would pick. The board stays as it was.
#[unsafe(no_mangle)]
pub extern "C" fn nvmearb_board_peek(state: &BoardState, pick: &mut PickFields) -> u32
    ensures bad_state { (result ≡ BAD_STATE) ↔ IsFalse (is_board state.now) }
    ensures answer { (result ≡ OK) ⊎ ((result ≡ NOTHING) ⊎ (result ≡ BAD_STATE)) }
    ensures nothing { result ≡ NOTHING → pick_of (kept_of state.now.board.arbiter) (seen_of (slots_in state.now.board.queues)) ≡ None }
    ensures idle { result ≡ NOTHING → IsIdle (seen_of (slots_in state.now.board.queues)) }
    ensures waits { result ≡ OK → IsIdle (seen_of (slots_in state.now.board.queues)) → ⊥ }
    ensures picked { result ≡ OK → pick_of (kept_of state.now.board.arbiter) (seen_of (slots_in state.now.board.queues)) ≡ Some (pick_of_fields pick.new) }
    ensures fits { result ≡ OK → pick.new.fresh ≤ 1 }
    ensures lawful { result ≡ OK → (mechanism : Mechanism) (first : ArbitrationFields) (past : History) → BoardStandsAt mechanism first past (board_of state.now.board) → IsLawfulPick mechanism first past (seen_of (slots_in state.now.board.queues)) (pick_of_fields pick.new) }
    ensures unchanged { result ≢ OK → pick.new ≡ pick.old }
{
    if !is_board(state) {
        return BAD_STATE;
    }
    match state.board.peek() {
        Some(it) => {
            *pick = fields_of_pick(it);
            OK
        }
        None => NOTHING,
    }
}

/// Picks: writes the next queue, and how many of its commands are taken. Its count falls by that number.
#[unsafe(no_mangle)]
pub extern "C" fn nvmearb_board_pick(state: &mut BoardState, pick: &mut PickFields) -> u32
    ensures bad_state { (result ≡ BAD_STATE) ↔ IsFalse (is_board state.old) }
    ensures answer { (result ≡ OK) ⊎ ((result ≡ NOTHING) ⊎ (result ≡ BAD_STATE)) }
    ensures nothing { result ≡ NOTHING → pick_of (kept_of state.old.board.arbiter) (seen_of (slots_in state.old.board.queues)) ≡ None }
    ensures idle { result ≡ NOTHING → IsIdle (seen_of (slots_in state.old.board.queues)) }
    ensures waits { result ≡ OK → IsIdle (seen_of (slots_in state.old.board.queues)) → ⊥ }
    ensures picked { result ≡ OK → pick_of (kept_of state.old.board.arbiter) (seen_of (slots_in state.old.board.queues)) ≡ Some (pick_of_fields pick.new) }
    ensures fits { result ≡ OK → pick.new.fresh ≤ 1 }
    ensures lawful { result ≡ OK → (mechanism : Mechanism) (first : ArbitrationFields) (past : History) → BoardStandsAt mechanism first past (board_of state.old.board) → IsLawfulPick mechanism first past (seen_of (slots_in state.old.board.queues)) (pick_of_fields pick.new) }
    ensures stands { result ≡ OK → (mechanism : Mechanism) (first : ArbitrationFields) (past : History) → BoardStandsAt mechanism first past (board_of state.old.board) → BoardStandsAt mechanism first (Picked (seen_of (slots_in state.old.board.queues)) (pick_of_fields pick.new) ∷ past) (board_of state.new.board) }
    ensures keeps { result ≡ OK → kept_of state.new.board.arbiter ≡ kept_after (kept_of state.old.board.arbiter).mechanism (kept_of state.old.board.arbiter) (class_in (seen_of (slots_in state.old.board.queues)) pick.new.qid) (pick_of_fields pick.new) }
    ensures queues { result ≡ OK → slots_in state.new.board.queues ≡ queues_after (slots_in state.old.board.queues) (pick_of_fields pick.new) }
    ensures board { result ≡ OK → IsTrue (is_board state.new) }
    ensures unchanged { result ≢ OK → (state.new ≡ state.old) × (pick.new ≡ pick.old) }
{
    if !is_board(state) {
        return BAD_STATE;
    }
    match state.board.pick() {
        Some(it) => {
            *pick = fields_of_pick(it);
            OK
        }
        None => NOTHING,
    }
}

/// Picks at most `limit` commands: as `nvmearb_board_pick`, but where the pick has more, the first `limit` of them. The
/// count of the queue falls by as many as are taken.
#[unsafe(no_mangle)]
pub extern "C" fn nvmearb_board_pick_up_to(
    state: &mut BoardState,
    limit: u16,
    pick: &mut PickFields,
) -> u32
    ensures bad_state { (result ≡ BAD_STATE) ↔ IsFalse (is_board state.old) }
    ensures bad_argument { (result ≡ BAD_ARGUMENT) ↔ (IsTrue (is_board state.old) × (limit ≡ 0)) }
    ensures answer { (result ≡ OK) ⊎ ((result ≡ NOTHING) ⊎ ((result ≡ BAD_ARGUMENT) ⊎ (result ≡ BAD_STATE))) }
    ensures nothing { result ≡ NOTHING → pick_of (kept_of state.old.board.arbiter) (seen_of (slots_in state.old.board.queues)) ≡ None }
    ensures idle { result ≡ NOTHING → IsIdle (seen_of (slots_in state.old.board.queues)) }
    ensures waits { result ≡ OK → IsIdle (seen_of (slots_in state.old.board.queues)) → ⊥ }
    ensures picked { result ≡ OK → option_map (cut limit) (pick_of (kept_of state.old.board.arbiter) (seen_of (slots_in state.old.board.queues))) ≡ Some (pick_of_fields pick.new) }
    ensures fits { result ≡ OK → pick.new.fresh ≤ 1 }
    ensures lawful { result ≡ OK → (mechanism : Mechanism) (first : ArbitrationFields) (past : History) → BoardStandsAt mechanism first past (board_of state.old.board) → limited_pick limit mechanism first past (seen_of (slots_in state.old.board.queues)) ≡ Some (pick_of_fields pick.new) }
    ensures stands { result ≡ OK → (mechanism : Mechanism) (first : ArbitrationFields) (past : History) → BoardStandsAt mechanism first past (board_of state.old.board) → BoardStandsAt mechanism first (Picked (seen_of (slots_in state.old.board.queues)) (pick_of_fields pick.new) ∷ past) (board_of state.new.board) }
    ensures keeps { result ≡ OK → kept_of state.new.board.arbiter ≡ kept_after (kept_of state.old.board.arbiter).mechanism (kept_of state.old.board.arbiter) (class_in (seen_of (slots_in state.old.board.queues)) pick.new.qid) (pick_of_fields pick.new) }
    ensures queues { result ≡ OK → slots_in state.new.board.queues ≡ queues_after (slots_in state.old.board.queues) (pick_of_fields pick.new) }
    ensures board { result ≡ OK → IsTrue (is_board state.new) }
    ensures unchanged { result ≢ OK → (state.new ≡ state.old) × (pick.new ≡ pick.old) }
{
    if !is_board(state) {
        return BAD_STATE;
    }
    if limit == 0 {
        return BAD_ARGUMENT;
    }
    match state.board.pick_up_to(limit) {
        Some(it) => {
            *pick = fields_of_pick(it);
            OK
        }
        None => NOTHING,
    }
}

/// Sets the settings from a CDW11 of the Arbitration feature. A new round starts. The queues stay as they were, and the
/// board still knows which it served last.
#[unsafe(no_mangle)]
pub extern "C" fn nvmearb_board_set(state: &mut BoardState, cdw11: u32) -> u32
    ensures bad_state { (result ≡ BAD_STATE) ↔ IsFalse (is_board state.old) }
    ensures answer { (result ≡ OK) ⊎ (result ≡ BAD_STATE) }
    ensures stands { result ≡ OK → (mechanism : Mechanism) (first : ArbitrationFields) (past : History) → BoardStandsAt mechanism first past (board_of state.old.board) → BoardStandsAt mechanism first (Changed (settings_of cdw11) ∷ past) (board_of state.new.board) }
    ensures keeps { result ≡ OK → kept_of state.new.board.arbiter ≡ record (kept_of state.old.board.arbiter) { settings = settings_of cdw11; used = nothing_used } }
    ensures queues { result ≡ OK → state.new.board.queues ≡ state.old.board.queues }
    ensures board { result ≡ OK → IsTrue (is_board state.new) }
    ensures unchanged { result ≢ OK → state.new ≡ state.old }
{
    if !is_board(state) {
        return BAD_STATE;
    }
    state.board.set(Settings::from_cdw11(cdw11));
    OK
}
