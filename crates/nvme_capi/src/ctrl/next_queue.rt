// The next queue of a controller of C that has work.
ghost use Rattle.std.specs.Prelude.{◌≡◌, ◌≢◌, ◌⊎◌, ◌↔◌, ℕ, Bool, List, length, min, None, IsTrue, IsFalse};
ghost use Rattle.nvme_log.specs.Rules.{FrontRules};
ghost use Rattle.nvme_ctrl_log.specs.Notes.{Notes};
ghost use Rattle.nvme_ctrl.specs.Standing.{Stands};
ghost use Rattle.nvme_ctrl.specs.Calls.{depth_of};
ghost use Rattle.nvme_ctrl_log.specs.Calls.{MayFetch};
ghost use Rattle.nvme_ctrl.specs.Posts.{next_post_of};
ghost use Rattle.nvme_ctrl.specs.NextQueue.{IsNextWith, HasFetch, HasPost};
ghost use Rattle.nvme_slots.specs.declared.slot.Slot.{Slot};
ghost use Rattle.nvme_capi.specs.Controllers.{is_ctrl, has_slots};

use crate::ctrl::state::{CtrlState, has_slots, is_ctrl};
use crate::results::{BAD_ARGUMENT, BAD_STATE, NOTHING, OK};
use nvme_ctrl::Slot;

/// Writes the next submission queue of which an entry may be fetched, and the slot of its ring that is to be read. Queues
/// take turns by ascending identifier, beginning behind the one that `qid` has; 0 comes behind 64, and any above is as 64.
/// The state stays as it was.
#[unsafe(no_mangle)]
pub extern "C" fn nvmearb_ctrl_next_fetch(state: &CtrlState, qid: &mut u16, slot: &mut u16) -> u32
    ensures bad_state { (result ≡ BAD_STATE) ↔ IsFalse (is_ctrl state.now) }
    ensures answer { (result ≡ OK) ⊎ ((result ≡ NOTHING) ⊎ (result ≡ BAD_STATE)) }
    ensures next { (rules : FrontRules) (late : Bool) (notes : Notes) (slots : List Slot) → Stands rules late notes state.now.ctrl slots → result ≡ OK → IsNextWith (HasFetch rules notes state.now.ctrl slots) (min qid.old 64) qid.new }
    ensures may { (rules : FrontRules) (late : Bool) (notes : Notes) (slots : List Slot) → Stands rules late notes state.now.ctrl slots → result ≡ OK → MayFetch rules notes (depth_of state.now.ctrl qid.new) (length slots) qid.new slot.new }
    ensures nothing { (rules : FrontRules) (late : Bool) (notes : Notes) (slots : List Slot) → Stands rules late notes state.now.ctrl slots → result ≡ NOTHING → (q : ℕ) → HasFetch rules notes state.now.ctrl slots q → ⊥ }
    ensures unchanged { result ≢ OK → (qid.new ≡ qid.old) × (slot.new ≡ slot.old) }
{
    if !is_ctrl(state) {
        return BAD_STATE;
    }
    match state.ctrl.next_fetch(*qid) {
        Some(it) => {
            *qid = it.0;
            *slot = it.1;
            OK
        }
        None => NOTHING,
    }
}

/// Writes the next completion queue to which a completion may be posted, as `nvmearb_ctrl_post` posts it. Queues take turns
/// as those of `nvmearb_ctrl_next_fetch`, beginning behind the one that `cqid` has. The state stays as it was.
#[unsafe(no_mangle)]
pub extern "C" fn nvmearb_ctrl_next_to_post(
    state: &CtrlState,
    slots: &[Slot],
    cqid: &mut u16,
) -> u32
    ensures bad_state { (result ≡ BAD_STATE) ↔ IsFalse (is_ctrl state.now) }
    ensures bad_argument { (result ≡ BAD_ARGUMENT) ↔ (IsTrue (is_ctrl state.now) × IsFalse (has_slots state.now slots.now)) }
    ensures answer { (result ≡ OK) ⊎ ((result ≡ NOTHING) ⊎ ((result ≡ BAD_ARGUMENT) ⊎ (result ≡ BAD_STATE))) }
    ensures next { result ≡ OK → IsNextWith (HasPost state.now.ctrl slots.now) (min cqid.old 64) cqid.new }
    ensures nothing { result ≡ NOTHING → (q : ℕ) → next_post_of state.now.ctrl slots.now q ≡ None }
    ensures unchanged { result ≢ OK → cqid.new ≡ cqid.old }
{
    if !is_ctrl(state) {
        return BAD_STATE;
    }
    if !has_slots(state, slots) {
        return BAD_ARGUMENT;
    }
    match state.ctrl.next_to_post(slots, *cqid) {
        Some(it) => {
            *cqid = it;
            OK
        }
        None => NOTHING,
    }
}
