// The rings of a controller of C: doorbells and fetches.
ghost use Rattle.std.specs.Prelude.{◌≡◌, ◌≢◌, ◌⊎◌, ◌↔◌, ℕ, Bool, List, length, None, IsTrue, IsFalse};
ghost use Rattle.nvme_entry.specs.Submission.{IsSubmissionEntry};
ghost use Rattle.nvme_entry.specs.declared.submission.Sqe.{Sqe};
ghost use Rattle.nvme_log.specs.Rules.{FrontRules};
ghost use Rattle.nvme_log.specs.Queues.{open_sq, open_cq};
ghost use Rattle.nvme_slots.specs.Generations.{SameGenerations};
ghost use Rattle.nvme_ctrl.specs.Own.{own_of};
ghost use Rattle.nvme_ctrl_log.specs.Notes.{Notes, logged};
ghost use Rattle.nvme_ctrl.specs.Standing.{Stands, IsController};
ghost use Rattle.nvme_ctrl.specs.Calls.{depths_of, depth_of, TailRung, HeadRung, HasFetched};
ghost use Rattle.nvme_ctrl_log.specs.Calls.{IsTailOf, IsHeadOf, MayFetch};
ghost use Rattle.nvme_slots.specs.declared.slot.Slot.{Slot};
ghost use Rattle.nvme_capi.specs.Batches.{FetchesOne, NoneToFetch, IsToFetch, IsOtherToFetch, with_slots};
ghost use Rattle.nvme_capi.specs.Controllers.{is_ctrl, has_slots, IsKept, StaysMade};

use crate::ctrl::state::{CtrlState, has_slots, is_ctrl};
use crate::results::{BAD_ARGUMENT, BAD_STATE, NOTHING, OK, OTHER_SLOT};
use nvme_ctrl::{Controller, Slot};
use nvme_entry::{Sqe, submission_layout_is_exact};

/// The host wrote the tail doorbell of a submission queue. NOTHING where the queue isn't open, BAD_ARGUMENT where the
/// value is invalid.
#[unsafe(no_mangle)]
pub extern "C" fn nvmearb_ctrl_sq_tail(state: &mut CtrlState, qid: u16, tail: u16) -> u32
    ensures bad_state { (result ≡ BAD_STATE) ↔ IsFalse (is_ctrl state.old) }
    ensures answer { (result ≡ OK) ⊎ ((result ≡ NOTHING) ⊎ ((result ≡ BAD_ARGUMENT) ⊎ (result ≡ BAD_STATE))) }
    ensures nothing { (rules : FrontRules) (late : Bool) (notes : Notes) (slots : List Slot) → Stands rules late notes state.old.ctrl slots → result ≡ NOTHING → open_sq (logged notes) qid ≡ None }
    ensures is_open { (rules : FrontRules) (late : Bool) (notes : Notes) (slots : List Slot) → Stands rules late notes state.old.ctrl slots → result ≡ BAD_ARGUMENT → open_sq (logged notes) qid ≢ None }
    ensures invalid { (rules : FrontRules) (late : Bool) (notes : Notes) (slots : List Slot) → Stands rules late notes state.old.ctrl slots → result ≡ BAD_ARGUMENT → IsTailOf rules notes qid tail → ⊥ }
    ensures valid { (rules : FrontRules) (late : Bool) (notes : Notes) (slots : List Slot) → Stands rules late notes state.old.ctrl slots → result ≡ OK → IsTailOf rules notes qid tail }
    ensures stands { (rules : FrontRules) (late : Bool) (notes : Notes) (slots : List Slot) → Stands rules late notes state.old.ctrl slots → result ≡ OK → TailRung rules late notes qid tail state.new.ctrl slots }
    ensures depths { depths_of state.new.ctrl ≡ depths_of state.old.ctrl }
    ensures same { StaysMade state.old state.new }
    ensures kept { (slots : List Slot) → IsKept state.old slots → IsKept state.new slots }
    ensures left { own_of state.new.ctrl ≡ own_of state.old.ctrl }
    ensures unchanged { result ≢ OK → state.new ≡ state.old }
{
    if !is_ctrl(state) {
        return BAD_STATE;
    }
    if state.ctrl.sq_region(qid).is_none() {
        return NOTHING;
    }
    if state.ctrl.sq_tail(qid, tail) {
        OK
    } else {
        BAD_ARGUMENT
    }
}

/// The host wrote the head doorbell of a completion queue. NOTHING where the queue isn't open, BAD_ARGUMENT where the
/// value is invalid.
#[unsafe(no_mangle)]
pub extern "C" fn nvmearb_ctrl_cq_head(state: &mut CtrlState, cqid: u16, head: u16) -> u32
    ensures bad_state { (result ≡ BAD_STATE) ↔ IsFalse (is_ctrl state.old) }
    ensures answer { (result ≡ OK) ⊎ ((result ≡ NOTHING) ⊎ ((result ≡ BAD_ARGUMENT) ⊎ (result ≡ BAD_STATE))) }
    ensures nothing { (rules : FrontRules) (late : Bool) (notes : Notes) (slots : List Slot) → Stands rules late notes state.old.ctrl slots → result ≡ NOTHING → open_cq (logged notes) cqid ≡ None }
    ensures is_open { (rules : FrontRules) (late : Bool) (notes : Notes) (slots : List Slot) → Stands rules late notes state.old.ctrl slots → result ≡ BAD_ARGUMENT → open_cq (logged notes) cqid ≢ None }
    ensures invalid { (rules : FrontRules) (late : Bool) (notes : Notes) (slots : List Slot) → Stands rules late notes state.old.ctrl slots → result ≡ BAD_ARGUMENT → IsHeadOf rules notes cqid head → ⊥ }
    ensures valid { (rules : FrontRules) (late : Bool) (notes : Notes) (slots : List Slot) → Stands rules late notes state.old.ctrl slots → result ≡ OK → IsHeadOf rules notes cqid head }
    ensures stands { (rules : FrontRules) (late : Bool) (notes : Notes) (slots : List Slot) → Stands rules late notes state.old.ctrl slots → result ≡ OK → HeadRung rules late notes cqid head state.new.ctrl slots }
    ensures depths { depths_of state.new.ctrl ≡ depths_of state.old.ctrl }
    ensures same { StaysMade state.old state.new }
    ensures kept { (slots : List Slot) → IsKept state.old slots → IsKept state.new slots }
    ensures left { own_of state.new.ctrl ≡ own_of state.old.ctrl }
    ensures unchanged { result ≢ OK → state.new ≡ state.old }
{
    if !is_ctrl(state) {
        return BAD_STATE;
    }
    if state.ctrl.cq_region(cqid).is_none() {
        return NOTHING;
    }
    if state.ctrl.cq_head(cqid, head) {
        OK
    } else {
        BAD_ARGUMENT
    }
}

/// Writes the slot of the ring of a submission queue whose entry is to be read next. The state stays as it was.
#[unsafe(no_mangle)]
pub extern "C" fn nvmearb_ctrl_fetch(state: &CtrlState, qid: u16, slot: &mut u16) -> u32
    ensures bad_state { (result ≡ BAD_STATE) ↔ IsFalse (is_ctrl state.now) }
    ensures answer { (result ≡ OK) ⊎ ((result ≡ NOTHING) ⊎ (result ≡ BAD_STATE)) }
    ensures may { (rules : FrontRules) (late : Bool) (notes : Notes) (slots : List Slot) → Stands rules late notes state.now.ctrl slots → result ≡ OK → MayFetch rules notes (depth_of state.now.ctrl qid) (length slots) qid slot.new }
    ensures nothing { (rules : FrontRules) (late : Bool) (notes : Notes) (slots : List Slot) → Stands rules late notes state.now.ctrl slots → result ≡ NOTHING → (it : ℕ) → MayFetch rules notes (depth_of state.now.ctrl qid) (length slots) qid it → ⊥ }
    ensures unchanged { result ≢ OK → slot.new ≡ slot.old }
{
    if !is_ctrl(state) {
        return BAD_STATE;
    }
    match state.ctrl.fetch(qid) {
        Some(it) => {
            *slot = it;
            OK
        }
        None => NOTHING,
    }
}

/// The entry was read that is to be fetched next. NOTHING where none is.
pub fn fetch_one(
    ctrl: &mut Controller,
    slots: &mut [Slot],
    qid: u16,
    bytes: &[u8; 64],
    cookie: u32,
) -> u32
    ensures front { IsController ctrl.old slots.old → IsController ctrl.new slots.new }
    ensures depths { depths_of ctrl.new ≡ depths_of ctrl.old }
    ensures own { own_of ctrl.new ≡ own_of ctrl.old }
    ensures answer { (result ≡ OK) ⊎ (result ≡ NOTHING) }
    ensures fetched { result ≡ OK → FetchesOne qid (with_slots ctrl.old slots.old) (bytes.now, cookie) (with_slots ctrl.new slots.new) }
    ensures none { result ≢ OK → NoneToFetch qid (with_slots ctrl.old slots.old) }
    ensures generations { SameGenerations slots.old slots.new }
    ensures unchanged { result ≢ OK → (ctrl.new ≡ ctrl.old) × (slots.new ≡ slots.old) }
{
    submission_layout_is_exact();
    if ctrl.fetched(slots, qid, &Sqe::from_bytes(bytes), cookie) {
        OK
    } else {
        NOTHING
    }
}

/// The entry was read that `nvmearb_ctrl_fetch` told. Its command waits then, and the cookie is kept with it.
#[unsafe(no_mangle)]
pub extern "C" fn nvmearb_ctrl_fetched(
    state: &mut CtrlState,
    slots: &mut [Slot],
    qid: u16,
    bytes: &[u8; 64],
    cookie: u32,
) -> u32
    ensures kept { IsKept state.old slots.old → IsKept state.new slots.new }
    ensures same { StaysMade state.old state.new }
    ensures bad_state { (result ≡ BAD_STATE) ↔ IsFalse (is_ctrl state.old) }
    ensures bad_argument { (result ≡ BAD_ARGUMENT) ↔ (IsTrue (is_ctrl state.old) × IsFalse (has_slots state.old slots.old)) }
    ensures answer { (result ≡ OK) ⊎ ((result ≡ NOTHING) ⊎ ((result ≡ BAD_ARGUMENT) ⊎ (result ≡ BAD_STATE))) }
    ensures nothing { (rules : FrontRules) (late : Bool) (notes : Notes) → Stands rules late notes state.old.ctrl slots.old → result ≡ NOTHING → (slot : ℕ) → MayFetch rules notes (depth_of state.old.ctrl qid) (length slots.old) qid slot → ⊥ }
    ensures stands { (rules : FrontRules) (late : Bool) (notes : Notes) → Stands rules late notes state.old.ctrl slots.old → result ≡ OK → (entry : Sqe) → IsSubmissionEntry bytes.now entry → HasFetched rules late notes qid entry cookie state.new.ctrl slots.new }
    ensures depths { depths_of state.new.ctrl ≡ depths_of state.old.ctrl }
    ensures generations { SameGenerations slots.old slots.new }
    ensures left { own_of state.new.ctrl ≡ own_of state.old.ctrl }
    ensures unchanged { result ≢ OK → (state.new ≡ state.old) × (slots.new ≡ slots.old) }
{
    if !is_ctrl(state) {
        return BAD_STATE;
    }
    if !has_slots(state, slots) {
        return BAD_ARGUMENT;
    }
    fetch_one(&mut state.ctrl, slots, qid, bytes, cookie)
}

/// Whether the entry of a slot of the ring of a submission queue is to be fetched next. NOTHING where none is.
pub fn next_is(ctrl: &Controller, qid: u16, slot: u16) -> u32
    ensures answer { (result ≡ OK) ⊎ ((result ≡ NOTHING) ⊎ (result ≡ OTHER_SLOT)) }
    ensures this { (slots : List Slot) → result ≡ OK → IsToFetch qid slot (with_slots ctrl.now slots) }
    ensures other { (slots : List Slot) → result ≡ OTHER_SLOT → IsOtherToFetch qid slot (with_slots ctrl.now slots) }
    ensures none { (slots : List Slot) → result ≡ NOTHING → NoneToFetch qid (with_slots ctrl.now slots) }
{
    match ctrl.fetch(qid) {
        Some(it) => { if it == slot { OK } else { OTHER_SLOT } }
        None => NOTHING,
    }
}

// The entry of a slot was read, which is fetched where it is the next one. NOTHING where none is.
fn fetch_at(
    ctrl: &mut Controller,
    slots: &mut [Slot],
    qid: u16,
    slot: u16,
    bytes: &[u8; 64],
    cookie: u32,
) -> u32
    ensures front { IsController ctrl.old slots.old → IsController ctrl.new slots.new }
    ensures depths { depths_of ctrl.new ≡ depths_of ctrl.old }
    ensures own { own_of ctrl.new ≡ own_of ctrl.old }
    ensures answer { (result ≡ OK) ⊎ ((result ≡ NOTHING) ⊎ (result ≡ OTHER_SLOT)) }
    ensures fetched { result ≡ OK → FetchesOne qid (with_slots ctrl.old slots.old) (bytes.now, cookie) (with_slots ctrl.new slots.new) }
    ensures this { result ≡ OK → IsToFetch qid slot (with_slots ctrl.old slots.old) }
    ensures other { result ≡ OTHER_SLOT → IsOtherToFetch qid slot (with_slots ctrl.old slots.old) }
    ensures none { result ≡ NOTHING → NoneToFetch qid (with_slots ctrl.old slots.old) }
    ensures generations { SameGenerations slots.old slots.new }
    ensures unchanged { result ≢ OK → (ctrl.new ≡ ctrl.old) × (slots.new ≡ slots.old) }
{
    let next = next_is(ctrl, qid, slot);
    if next != OK {
        return next;
    }
    fetch_one(ctrl, slots, qid, bytes, cookie)
}

/// The entry in this slot of the ring was read. Its command waits then, and the cookie is kept with it. OTHER_SLOT, which
/// changes nothing, where `nvmearb_ctrl_fetch` tells another slot.
#[unsafe(no_mangle)]
pub extern "C" fn nvmearb_ctrl_fetched_at(
    state: &mut CtrlState,
    slots: &mut [Slot],
    qid: u16,
    slot: u16,
    bytes: &[u8; 64],
    cookie: u32,
) -> u32
    ensures kept { IsKept state.old slots.old → IsKept state.new slots.new }
    ensures same { StaysMade state.old state.new }
    ensures bad_state { (result ≡ BAD_STATE) ↔ IsFalse (is_ctrl state.old) }
    ensures bad_argument { (result ≡ BAD_ARGUMENT) ↔ (IsTrue (is_ctrl state.old) × IsFalse (has_slots state.old slots.old)) }
    ensures answer { (result ≡ OK) ⊎ ((result ≡ NOTHING) ⊎ ((result ≡ OTHER_SLOT) ⊎ ((result ≡ BAD_ARGUMENT) ⊎ (result ≡ BAD_STATE)))) }
    ensures nothing { result ≡ NOTHING → NoneToFetch qid (with_slots state.old.ctrl slots.old) }
    ensures this { result ≡ OK → IsToFetch qid slot (with_slots state.old.ctrl slots.old) }
    ensures other { result ≡ OTHER_SLOT → IsOtherToFetch qid slot (with_slots state.old.ctrl slots.old) }
    ensures stands { result ≡ OK → FetchesOne qid (with_slots state.old.ctrl slots.old) (bytes.now, cookie) (with_slots state.new.ctrl slots.new) }
    ensures depths { depths_of state.new.ctrl ≡ depths_of state.old.ctrl }
    ensures generations { SameGenerations slots.old slots.new }
    ensures left { own_of state.new.ctrl ≡ own_of state.old.ctrl }
    ensures unchanged { result ≢ OK → (state.new ≡ state.old) × (slots.new ≡ slots.old) }
{
    if !is_ctrl(state) {
        return BAD_STATE;
    }
    if !has_slots(state, slots) {
        return BAD_ARGUMENT;
    }
    fetch_at(&mut state.ctrl, slots, qid, slot, bytes, cookie)
}
