// The depths of queues, those that a device holds, and the classes that it sets.
ghost use Rattle.std.specs.Prelude.{◌≡◌, ◌≢◌, ◌<◌, ◌==◌, ◌⊎◌, ◌↔◌, Bool, List, ◌∷◌, slice_set, None, Some, IsTrue, IsFalse};
ghost use Rattle.nvme_arbiter.specs.declared.settings.Class.{Class};
ghost use Rattle.nvme_log.specs.Rules.{FrontRules};
ghost use Rattle.nvme_ctrl.specs.Own.{own_of};
ghost use Rattle.nvme_ctrl_log.specs.Notes.{Notes, Held, Classed};
ghost use Rattle.nvme_ctrl_log.specs.Account.{MayBeHeld, MayBeClassed};
ghost use Rattle.nvme_ctrl.specs.Standing.{Stands};
ghost use Rattle.nvme_ctrl.specs.Calls.{depths_of};
ghost use Rattle.nvme_slots.specs.declared.slot.Slot.{Slot};
ghost use Rattle.nvme_capi.specs.Controllers.{is_ctrl, has_depth, io_class_of, IsKept, StaysMade};

use crate::ctrl::state::{CtrlState, is_ctrl, is_depth};
use crate::results::{BAD_ARGUMENT, BAD_STATE, NOTHING, OK};
use nvme_admin::MAX_IO_QUEUES;
use nvme_arbiter::Class;

// Whether a number can be the depth of the submission queue of an identifier.
fn has_depth(qid: u16, depth: u16) -> bool
    ensures { result ≡ has_depth qid depth }
{
    qid <= MAX_IO_QUEUES && is_depth(depth)
}

/// From now on at most `depth` commands of a submission queue hold a slot, each from its fetch to the posting of its
/// completion. The queue needn't be open. BAD_ARGUMENT where the identifier is above 64, or the depth isn't 1 to
/// `MAX_DEPTH`.
#[unsafe(no_mangle)]
pub extern "C" fn nvmearb_ctrl_set_depth(state: &mut CtrlState, qid: u16, depth: u16) -> u32
    ensures bad_state { (result ≡ BAD_STATE) ↔ IsFalse (is_ctrl state.old) }
    ensures bad_argument { (result ≡ BAD_ARGUMENT) ↔ (IsTrue (is_ctrl state.old) × IsFalse (has_depth qid depth)) }
    ensures answer { (result ≡ OK) ⊎ ((result ≡ BAD_ARGUMENT) ⊎ (result ≡ BAD_STATE)) }
    ensures depths { result ≡ OK → depths_of state.new.ctrl ≡ slice_set (depths_of state.old.ctrl) qid depth }
    ensures stands { (rules : FrontRules) (late : Bool) (notes : Notes) (slots : List Slot) → Stands rules late notes state.old.ctrl slots → Stands rules late notes state.new.ctrl slots }
    ensures left { own_of state.new.ctrl ≡ own_of state.old.ctrl }
    ensures same { StaysMade state.old state.new }
    ensures kept { (slots : List Slot) → IsKept state.old slots → IsKept state.new slots }
    ensures unchanged { result ≢ OK → state.new ≡ state.old }
{
    if !is_ctrl(state) {
        return BAD_STATE;
    }
    if !has_depth(qid, depth) {
        return BAD_ARGUMENT;
    }
    state.ctrl.set_depth(qid, depth);
    OK
}

/// From now on no command of a submission queue is picked (`on` is 1), or they are again (0). NOTHING where the queue
/// isn't open, BAD_ARGUMENT where `on` is above 1.
#[unsafe(no_mangle)]
pub extern "C" fn nvmearb_ctrl_hold(state: &mut CtrlState, qid: u16, on: u8) -> u32
    ensures bad_state { (result ≡ BAD_STATE) ↔ IsFalse (is_ctrl state.old) }
    ensures bad_argument { (result ≡ BAD_ARGUMENT) ↔ (IsTrue (is_ctrl state.old) × (1 < on)) }
    ensures answer { (result ≡ OK) ⊎ ((result ≡ NOTHING) ⊎ ((result ≡ BAD_ARGUMENT) ⊎ (result ≡ BAD_STATE))) }
    ensures nothing { (rules : FrontRules) (late : Bool) (notes : Notes) (slots : List Slot) → Stands rules late notes state.old.ctrl slots → result ≡ NOTHING → MayBeHeld notes qid → ⊥ }
    ensures may { (rules : FrontRules) (late : Bool) (notes : Notes) (slots : List Slot) → Stands rules late notes state.old.ctrl slots → result ≡ OK → MayBeHeld notes qid }
    ensures stands { (rules : FrontRules) (late : Bool) (notes : Notes) (slots : List Slot) → Stands rules late notes state.old.ctrl slots → result ≡ OK → Stands rules late (Held qid (on == 1) ∷ notes) state.new.ctrl slots }
    ensures depths { depths_of state.new.ctrl ≡ depths_of state.old.ctrl }
    ensures left { own_of state.new.ctrl ≡ own_of state.old.ctrl }
    ensures same { StaysMade state.old state.new }
    ensures kept { (slots : List Slot) → IsKept state.old slots → IsKept state.new slots }
    ensures unchanged { result ≢ OK → state.new ≡ state.old }
{
    if !is_ctrl(state) {
        return BAD_STATE;
    }
    if on > 1 {
        return BAD_ARGUMENT;
    }
    if state.ctrl.hold(qid, on == 1) {
        OK
    } else {
        NOTHING
    }
}

// The class of an I/O queue by its number. None where it is another.
fn io_class(priority: u16) -> Option<Class>
    ensures { result ≡ io_class_of priority }
{
    if priority == 0 {
        None
    } else {
        Class::of_number(priority)
    }
}

/// From now on a submission queue has this priority class, 1 urgent to 4 low, whatever its Create asked for. NOTHING
/// where it is the admin queue or isn't open, BAD_ARGUMENT where the class is none of an I/O queue.
#[unsafe(no_mangle)]
pub extern "C" fn nvmearb_ctrl_set_class(state: &mut CtrlState, qid: u16, priority: u16) -> u32
    ensures bad_state { (result ≡ BAD_STATE) ↔ IsFalse (is_ctrl state.old) }
    ensures bad_argument { (result ≡ BAD_ARGUMENT) ↔ (IsTrue (is_ctrl state.old) × (io_class_of priority ≡ None)) }
    ensures answer { (result ≡ OK) ⊎ ((result ≡ NOTHING) ⊎ ((result ≡ BAD_ARGUMENT) ⊎ (result ≡ BAD_STATE))) }
    ensures nothing { (rules : FrontRules) (late : Bool) (notes : Notes) (slots : List Slot) → Stands rules late notes state.old.ctrl slots → result ≡ NOTHING → (class : Class) → io_class_of priority ≡ Some class → MayBeClassed notes qid class → ⊥ }
    ensures may { (rules : FrontRules) (late : Bool) (notes : Notes) (slots : List Slot) → Stands rules late notes state.old.ctrl slots → result ≡ OK → (class : Class) → io_class_of priority ≡ Some class → MayBeClassed notes qid class }
    ensures stands { (rules : FrontRules) (late : Bool) (notes : Notes) (slots : List Slot) → Stands rules late notes state.old.ctrl slots → result ≡ OK → (class : Class) → io_class_of priority ≡ Some class → Stands rules late (Classed qid class ∷ notes) state.new.ctrl slots }
    ensures depths { depths_of state.new.ctrl ≡ depths_of state.old.ctrl }
    ensures left { own_of state.new.ctrl ≡ own_of state.old.ctrl }
    ensures same { StaysMade state.old state.new }
    ensures kept { (slots : List Slot) → IsKept state.old slots → IsKept state.new slots }
    ensures unchanged { result ≢ OK → state.new ≡ state.old }
{
    if !is_ctrl(state) {
        return BAD_STATE;
    }
    let Some(class) = io_class(priority) else {
        return BAD_ARGUMENT;
    };
    if state.ctrl.set_class(qid, class) {
        OK
    } else {
        NOTHING
    }
}
