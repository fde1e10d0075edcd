// What is seen of a controller of C.
ghost use Rattle.std.specs.Prelude.{◌≡◌, ◌≢◌, ◌≤◌, ◌⊎◌, ◌↔◌, ℕ, Bool, true, false, List, length, None, Some, IsTrue, IsFalse, IsSomeAnd, is_some};
ghost use Rattle.nvme_ctrl_log.specs.Making.{placing_in};
ghost use Rattle.nvme_ctrl_log.specs.Steps.{IsIdentifier};
ghost use Rattle.nvme_log.specs.Rules.{FrontRules};
ghost use Rattle.nvme_log.specs.Queues.{Queue, open_sq, open_cq};
ghost use Rattle.nvme_log.specs.Places.{entry_at, waiting};
ghost use Rattle.nvme_log.specs.declared.place.Place.{Place};
ghost use Rattle.nvme_ctrl_log.specs.Notes.{Notes, logged};
ghost use Rattle.nvme_ctrl.specs.Standing.{Stands};
ghost use Rattle.nvme_ctrl_log.specs.Calls.{IsTagOf};
ghost use Rattle.nvme_ctrl_log.specs.Observation.{seen_in};
ghost use Rattle.nvme_ctrl_log.specs.Waits.{WaitsAt};
ghost use Rattle.nvme_ctrl_log.specs.Tags.{holder, cookie_of};
ghost use Rattle.nvme_slots.specs.Generations.{tag_of, tag_at};
ghost use Rattle.nvme_slots.specs.declared.slot.Slot.{Slot};
ghost use Rattle.nvme_capi.specs.Controllers.{is_ctrl, has_slots, IsOutUnder, IsCommandIn};
ghost use Rattle.nvme_capi.specs.States.{seen_of_fields};

use crate::ctrl::state::{CommandFields, CtrlState, has_slots, is_ctrl};
use crate::results::{BAD_ARGUMENT, BAD_STATE, NOTHING, OK};
use crate::states::{SeenFields, fields_of_seen};
use nvme_ctrl::{Slot, Tag};
use nvme_entry::Sqe;

/// Writes the command of a tag, where the device has one.
#[unsafe(no_mangle)]
pub extern "C" fn nvmearb_ctrl_command(
    state: &CtrlState,
    slots: &[Slot],
    tag: u32,
    command: &mut CommandFields,
) -> u32
    ensures bad_state { (result ≡ BAD_STATE) ↔ IsFalse (is_ctrl state.now) }
    ensures bad_argument { (result ≡ BAD_ARGUMENT) ↔ (IsTrue (is_ctrl state.now) × IsFalse (has_slots state.now slots.now)) }
    ensures answer { (result ≡ OK) ⊎ ((result ≡ NOTHING) ⊎ ((result ≡ BAD_ARGUMENT) ⊎ (result ≡ BAD_STATE))) }
    ensures nothing { (rules : FrontRules) (late : Bool) (notes : Notes) → Stands rules late notes state.now.ctrl slots.now → result ≡ NOTHING → IsOutUnder notes slots.now tag → ⊥ }
    ensures out { (rules : FrontRules) (late : Bool) (notes : Notes) → Stands rules late notes state.now.ctrl slots.now → result ≡ OK → IsOutUnder notes slots.now tag }
    ensures entry { (rules : FrontRules) (late : Bool) (notes : Notes) → Stands rules late notes state.now.ctrl slots.now → result ≡ OK → (place : Place) → holder notes (tag_of tag).slot ≡ Some place → entry_at (logged notes) place.region place.index ≡ Some command.new.entry }
    ensures cookie { (rules : FrontRules) (late : Bool) (notes : Notes) → Stands rules late notes state.now.ctrl slots.now → result ≡ OK → (place : Place) → holder notes (tag_of tag).slot ≡ Some place → cookie_of notes place.region place.index ≡ Some command.new.cookie }
    ensures command { result ≡ OK → IsCommandIn slots.now (tag_of tag).slot command.new }
    ensures unchanged { result ≢ OK → command.new ≡ command.old }
{
    if !is_ctrl(state) {
        return BAD_STATE;
    }
    if !has_slots(state, slots) {
        return BAD_ARGUMENT;
    }
    let Some(slot) = Tag::of_number(tag).slot_in(slots) else {
        return NOTHING;
    };
    if !state.ctrl.is_out(slots, slot) {
        return NOTHING;
    }
    *command = CommandFields {
        entry: state.ctrl.entry(slots, slot),
        cookie: state.ctrl.cookie(slots, slot),
        tag,
    };
    OK
}

/// Writes the tag of the command with this identifier, of the submission queue with this one, where the device has one.
#[unsafe(no_mangle)]
pub extern "C" fn nvmearb_ctrl_named(
    state: &CtrlState,
    slots: &[Slot],
    qid: u16,
    cid: u16,
    tag: &mut u32,
) -> u32
    ensures bad_state { (result ≡ BAD_STATE) ↔ IsFalse (is_ctrl state.now) }
    ensures bad_argument { (result ≡ BAD_ARGUMENT) ↔ (IsTrue (is_ctrl state.now) × IsFalse (has_slots state.now slots.now)) }
    ensures answer { (result ≡ OK) ⊎ ((result ≡ NOTHING) ⊎ ((result ≡ BAD_ARGUMENT) ⊎ (result ≡ BAD_STATE))) }
    ensures found { (rules : FrontRules) (late : Bool) (notes : Notes) → Stands rules late notes state.now.ctrl slots.now → result ≡ OK → IsTagOf notes qid cid (tag_of tag.new).slot }
    ensures current { result ≡ OK → tag_of tag.new ≡ tag_at slots.now (tag_of tag.new).slot }
    ensures nothing { (rules : FrontRules) (late : Bool) (notes : Notes) → Stands rules late notes state.now.ctrl slots.now → result ≡ NOTHING → (it : ℕ) → IsTagOf notes qid cid it → ⊥ }
    ensures unchanged { result ≢ OK → tag.new ≡ tag.old }
{
    if !is_ctrl(state) {
        return BAD_STATE;
    }
    if !has_slots(state, slots) {
        return BAD_ARGUMENT;
    }
    match state.ctrl.named(slots, qid, cid) {
        Some(it) => {
            *tag = Tag::at(slots, it).number();
            OK
        }
        None => NOTHING,
    }
}

/// Writes the number of the region of a submission queue, where it is open. Where queues may lie anywhere, it is the
/// identifier.
#[unsafe(no_mangle)]
pub extern "C" fn nvmearb_ctrl_sq(state: &CtrlState, qid: u16, region: &mut u16) -> u32
    ensures bad_state { (result ≡ BAD_STATE) ↔ IsFalse (is_ctrl state.now) }
    ensures answer { (result ≡ OK) ⊎ ((result ≡ NOTHING) ⊎ (result ≡ BAD_STATE)) }
    ensures nothing { (rules : FrontRules) (late : Bool) (notes : Notes) (slots : List Slot) → Stands rules late notes state.now.ctrl slots → result ≡ NOTHING → open_sq (logged notes) qid ≡ None }
    ensures found { (rules : FrontRules) (late : Bool) (notes : Notes) (slots : List Slot) → Stands rules late notes state.now.ctrl slots → result ≡ OK → is_some (open_sq (logged notes) qid) ≡ true }
    ensures on_regions { (rules : FrontRules) (late : Bool) (notes : Notes) (slots : List Slot) → Stands rules late notes state.now.ctrl slots → placing_in rules ≡ None → result ≡ OK → IsSomeAnd (open_sq (logged notes) qid) (λ queue. region.new ≡ queue.region) }
    ensures anywhere { (rules : FrontRules) (late : Bool) (notes : Notes) (slots : List Slot) → Stands rules late notes state.now.ctrl slots → is_some (placing_in rules) ≡ true → result ≡ OK → IsIdentifier qid region.new }
    ensures unchanged { result ≢ OK → region.new ≡ region.old }
{
    if !is_ctrl(state) {
        return BAD_STATE;
    }
    match state.ctrl.sq_region(qid) {
        Some(it) => {
            *region = u16::from(it);
            OK
        }
        None => NOTHING,
    }
}

/// Writes the number of the region of a completion queue, where it is open, as `nvmearb_ctrl_sq`.
#[unsafe(no_mangle)]
pub extern "C" fn nvmearb_ctrl_cq(state: &CtrlState, cqid: u16, region: &mut u16) -> u32
    ensures bad_state { (result ≡ BAD_STATE) ↔ IsFalse (is_ctrl state.now) }
    ensures answer { (result ≡ OK) ⊎ ((result ≡ NOTHING) ⊎ (result ≡ BAD_STATE)) }
    ensures nothing { (rules : FrontRules) (late : Bool) (notes : Notes) (slots : List Slot) → Stands rules late notes state.now.ctrl slots → result ≡ NOTHING → open_cq (logged notes) cqid ≡ None }
    ensures found { (rules : FrontRules) (late : Bool) (notes : Notes) (slots : List Slot) → Stands rules late notes state.now.ctrl slots → result ≡ OK → is_some (open_cq (logged notes) cqid) ≡ true }
    ensures on_regions { (rules : FrontRules) (late : Bool) (notes : Notes) (slots : List Slot) → Stands rules late notes state.now.ctrl slots → placing_in rules ≡ None → result ≡ OK → open_cq (logged notes) cqid ≡ Some region.new }
    ensures anywhere { (rules : FrontRules) (late : Bool) (notes : Notes) (slots : List Slot) → Stands rules late notes state.now.ctrl slots → is_some (placing_in rules) ≡ true → result ≡ OK → IsIdentifier cqid region.new }
    ensures unchanged { result ≢ OK → region.new ≡ region.old }
{
    if !is_ctrl(state) {
        return BAD_STATE;
    }
    match state.ctrl.cq_region(cqid) {
        Some(it) => {
            *region = u16::from(it);
            OK
        }
        None => NOTHING,
    }
}

/// Writes how many commands of a submission queue were fetched and wait to be picked, where it is open.
#[unsafe(no_mangle)]
pub extern "C" fn nvmearb_ctrl_waiting(state: &CtrlState, qid: u16, count: &mut u16) -> u32
    ensures bad_state { (result ≡ BAD_STATE) ↔ IsFalse (is_ctrl state.now) }
    ensures answer { (result ≡ OK) ⊎ ((result ≡ NOTHING) ⊎ (result ≡ BAD_STATE)) }
    ensures nothing { (rules : FrontRules) (late : Bool) (notes : Notes) (slots : List Slot) → Stands rules late notes state.now.ctrl slots → result ≡ NOTHING → open_sq (logged notes) qid ≡ None }
    ensures waits { (rules : FrontRules) (late : Bool) (notes : Notes) (slots : List Slot) → Stands rules late notes state.now.ctrl slots → result ≡ OK → IsSomeAnd (open_sq (logged notes) qid) (λ queue. count.new ≡ length (waiting (logged notes) queue.region)) }
    ensures unchanged { result ≢ OK → count.new ≡ count.old }
{
    if !is_ctrl(state) {
        return BAD_STATE;
    }
    if state.ctrl.sq_region(qid).is_none() {
        return NOTHING;
    }
    *count = state.ctrl.waiting(qid);
    OK
}

/// Writes what the next pick is shown of a submission queue, where it is open: its class, and how many of its commands
/// wait, 0 where it is held.
#[unsafe(no_mangle)]
pub extern "C" fn nvmearb_ctrl_seen(state: &CtrlState, qid: u16, seen: &mut SeenFields) -> u32
    ensures bad_state { (result ≡ BAD_STATE) ↔ IsFalse (is_ctrl state.now) }
    ensures answer { (result ≡ OK) ⊎ ((result ≡ NOTHING) ⊎ (result ≡ BAD_STATE)) }
    ensures nothing { (rules : FrontRules) (late : Bool) (notes : Notes) (slots : List Slot) → Stands rules late notes state.now.ctrl slots → result ≡ NOTHING → open_sq (logged notes) qid ≡ None }
    ensures found { (rules : FrontRules) (late : Bool) (notes : Notes) (slots : List Slot) → Stands rules late notes state.now.ctrl slots → result ≡ OK → seen_in notes qid ≡ Some (seen_of_fields seen.new) }
    ensures unchanged { result ≢ OK → seen.new ≡ seen.old }
{
    if !is_ctrl(state) {
        return BAD_STATE;
    }
    match state.ctrl.seen(qid) {
        Some(it) => {
            *seen = fields_of_seen(it);
            OK
        }
        None => NOTHING,
    }
}

/// Writes the command that waits as the nth in a submission queue, the oldest as the 0th, with what the caller keeps with
/// it. NOTHING where at most `n` wait in it, and where it isn't open or is closing.
#[unsafe(no_mangle)]
pub extern "C" fn nvmearb_ctrl_waits(
    state: &CtrlState,
    slots: &[Slot],
    qid: u16,
    n: u16,
    entry: &mut Sqe,
    cookie: &mut u32,
) -> u32
    ensures bad_state { (result ≡ BAD_STATE) ↔ IsFalse (is_ctrl state.now) }
    ensures bad_argument { (result ≡ BAD_ARGUMENT) ↔ (IsTrue (is_ctrl state.now) × IsFalse (has_slots state.now slots.now)) }
    ensures answer { (result ≡ OK) ⊎ ((result ≡ NOTHING) ⊎ ((result ≡ BAD_ARGUMENT) ⊎ (result ≡ BAD_STATE))) }
    ensures found { (rules : FrontRules) (late : Bool) (notes : Notes) → Stands rules late notes state.now.ctrl slots.now → result ≡ OK → WaitsAt notes qid n entry.new cookie.new }
    ensures nothing { (rules : FrontRules) (late : Bool) (notes : Notes) → Stands rules late notes state.now.ctrl slots.now → result ≡ NOTHING
        → (queue : Queue) → open_sq (logged notes) qid ≡ Some queue → length (waiting (logged notes) queue.region) ≤ n }
    ensures unchanged { result ≢ OK → (entry.new ≡ entry.old) × (cookie.new ≡ cookie.old) }
{
    if !is_ctrl(state) {
        return BAD_STATE;
    }
    if !has_slots(state, slots) {
        return BAD_ARGUMENT;
    }
    match state.ctrl.waits(slots, qid, n) {
        Some(it) => {
            *entry = it.entry;
            *cookie = it.cookie;
            OK
        }
        None => NOTHING,
    }
}
