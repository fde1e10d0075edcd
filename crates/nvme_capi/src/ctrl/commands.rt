// The commands of a controller of C: picks, what the device takes and answers, and completions.
ghost use Rattle.std.specs.Prelude.{◌≡◌, ◌≢◌, ◌<◌, ◌≤◌, ◌⊎◌, ◌↔◌, ℕ, Bool, true, false, None, Some, IfSome, IsSomeAnd, IsTrue, IsFalse};
ghost use Rattle.nvme_entry.specs.Bits.{bits_of};
ghost use Rattle.nvme_admin.specs.Placing.{interrupts_of};
ghost use Rattle.nvme_log.specs.Rules.{FrontRules};
ghost use Rattle.nvme_log.specs.Places.{entry_at};
ghost use Rattle.nvme_log.specs.Queues.{open_cq};
ghost use Rattle.nvme_log.specs.declared.place.Place.{Place};
ghost use Rattle.nvme_ctrl.specs.Own.{own_of, oldest_is_own};
ghost use Rattle.nvme_ctrl_log.specs.Notes.{Notes, logged};
ghost use Rattle.nvme_ctrl.specs.Standing.{Stands, IsController};
ghost use Rattle.nvme_ctrl_log.specs.Tags.{handed, is_out, holder, taken, cookie_of};
ghost use Rattle.nvme_slots.specs.Generations.{SameGenerations, IsNextGeneration, tag_of};
ghost use Rattle.nvme_slots.specs.declared.tag.Tag.{Tag};
ghost use Rattle.nvme_ctrl.specs.Calls.{depths_of, HasTaken, HasAnswered};
ghost use Rattle.nvme_ctrl_log.specs.Steps.{IsNextPick, IsBusy, IsFinishableAt, NoneFinishable};
ghost use Rattle.nvme_ctrl.specs.Steps.{HasStepped, HasFinished};
ghost use Rattle.nvme_ctrl_log.specs.Posts.{NonePostable};
ghost use Rattle.nvme_ctrl.specs.Posts.{next_post_of};
ghost use Rattle.nvme_ctrl.specs.NextQueue.{HasPost};
ghost use Rattle.nvme_ctrl.specs.declared.picks.Step.TheVariants as made;
ghost use Rattle.nvme_capi.specs.States.{pick_of_fields};
ghost use Rattle.nvme_capi.specs.Tables.{plain_answer};
ghost use Rattle.nvme_capi.specs.Batches.{TakesOne, PostsOne, NoneToTake, NoneToPost, with_slots};
ghost use Rattle.nvme_capi.specs.Controllers.{is_ctrl, is_intact, has_slots, IsKept, IsOutUnder, StaysMade, HasToldWhat, no_pick, nothing_asked, asked_in, IsCommandIn, device_answer, flags_by, IsFlaggedEntry, HasPostedBytes, IsPostIn};

use crate::answers::{answer_of, plain_answer};
use crate::ctrl::state::{
    AskedFields, CommandFields, CtrlState, PostFields, StepFields, has_slots, is_ctrl, is_intact,
};
use crate::ctrl::status_flags::{flagged, flags_by};
use crate::fields::StatusFields;
use crate::results::{BAD_ARGUMENT, BAD_STATE, BUSY, NOROOM, NOTHING, OK};
use crate::states::{PickFields, fields_of_pick};
use nvme_admin::Effect;
use nvme_ctrl::{Answer, Controller, Post, Slot, StatusFlags, Step, Tag};
use nvme_entry::{Sqe, Status};

// The kinds of a step.
const PICKED: u32 = 1;

const CARRIED_OUT: u32 = 2;

const PASSED: u32 = 3;

/// Writes the pick that `nvmearb_ctrl_pick` makes next of the commands that wait now. The state stays as it was.
#[unsafe(no_mangle)]
pub extern "C" fn nvmearb_ctrl_peek(state: &CtrlState, slots: &[Slot], pick: &mut PickFields) -> u32
    ensures bad_state { (result ≡ BAD_STATE) ↔ IsFalse (is_intact state.now) }
    ensures bad_argument { (result ≡ BAD_ARGUMENT) ↔ (IsTrue (is_intact state.now) × IsFalse (has_slots state.now slots.now)) }
    ensures answer { (result ≡ OK) ⊎ ((result ≡ NOTHING) ⊎ ((result ≡ BAD_ARGUMENT) ⊎ (result ≡ BAD_STATE))) }
    ensures nothing { (rules : FrontRules) (late : Bool) (notes : Notes) → Stands rules late notes state.now.ctrl slots.now → result ≡ NOTHING → IsNextPick rules notes None }
    ensures picked { (rules : FrontRules) (late : Bool) (notes : Notes) → Stands rules late notes state.now.ctrl slots.now → result ≡ OK → IsNextPick rules notes (Some (pick_of_fields pick.new)) }
    ensures fits { result ≡ OK → pick.new.fresh ≤ 1 }
    ensures unchanged { result ≢ OK → pick.new ≡ pick.old }
{
    if !is_intact(state) {
        return BAD_STATE;
    }
    if !has_slots(state, slots) {
        return BAD_ARGUMENT;
    }
    match state.ctrl.next_pick(slots) {
        Some(it) => {
            *pick = fields_of_pick(it);
            OK
        }
        None => NOTHING,
    }
}

// Nothing is asked for but by a Create.
fn nothing_asked() -> AskedFields
    ensures { result ≡ nothing_asked }
{
    AskedFields {
        address: 0,
        qsize: 0,
        vector: 0,
        interrupts: 0,
    }
}

// Bits 31:16 of a command dword.
fn high_half(dword: u32) -> u16
    ensures { result ≡ bits_of 31 16 dword }
{
    (dword / 0x1_0000) as u16
}

// Whether a Create asks for interrupts.
fn has_interrupts(entry: &Sqe) -> bool
    ensures { result ≡ interrupts_of entry.now }
{
    entry.cdw11 / 2 % 2 == 1
}

// What a command that was carried out asked for, if it made a queue.
fn asked_by(effect: &Effect, entry: &Sqe) -> AskedFields
    ensures { result ≡ asked_in effect.now entry.now }
{
    match effect {
        Effect::OpenSq { .. } => AskedFields {
            address: entry.prp1,
            qsize: high_half(entry.cdw10),
            vector: 0,
            interrupts: 0,
        },
        Effect::OpenCq { .. } => AskedFields {
            address: entry.prp1,
            qsize: high_half(entry.cdw10),
            vector: high_half(entry.cdw11),
            interrupts: u16::from(has_interrupts(entry)),
        },
        _ => nothing_asked(),
    }
}

/// Makes the next pick of arbitration, of at most `room` commands, and writes what it did. An admin command that is picked
/// is carried out, or passed on to the device.
#[unsafe(no_mangle)]
pub extern "C" fn nvmearb_ctrl_pick(
    state: &mut CtrlState,
    slots: &mut [Slot],
    room: u16,
    step: &mut StepFields,
) -> u32
    ensures kept { IsKept state.old slots.old → IsKept state.new slots.new }
    ensures same { StaysMade state.old state.new }
    ensures depths { depths_of state.new.ctrl ≡ depths_of state.old.ctrl }
    ensures bad_state { (result ≡ BAD_STATE) ↔ IsFalse (is_intact state.old) }
    ensures bad_argument { (result ≡ BAD_ARGUMENT) ↔ (IsTrue (is_intact state.old) × IsFalse (has_slots state.old slots.old)) }
    ensures taken { (rules : FrontRules) (late : Bool) (notes : Notes) → Stands rules late notes state.old.ctrl slots.old → IsBusy notes → (result ≡ BUSY) ⊎ ((result ≡ BAD_ARGUMENT) ⊎ (result ≡ BAD_STATE)) }
    ensures needs_room { room ≡ 0 → result ≢ OK }
    ensures io { result ≡ OK → step.new.kind ≡ PICKED → step.new.pick.qid ≢ 0 }
    ensures fits { result ≡ OK → step.new.pick.fresh ≤ 1 }
    ensures idle { (rules : FrontRules) (late : Bool) (notes : Notes) → Stands rules late notes state.old.ctrl slots.old → result ≡ NOTHING → HasStepped rules late notes room made.Idle state.new.ctrl slots.new }
    ensures busy { (rules : FrontRules) (late : Bool) (notes : Notes) → Stands rules late notes state.old.ctrl slots.old → result ≡ BUSY → HasStepped rules late notes room made.Busy state.new.ctrl slots.new }
    ensures no_room { (rules : FrontRules) (late : Bool) (notes : Notes) → Stands rules late notes state.old.ctrl slots.old → result ≡ NOROOM → HasStepped rules late notes room made.NoRoom state.new.ctrl slots.new }
    ensures picked { (rules : FrontRules) (late : Bool) (notes : Notes) → Stands rules late notes state.old.ctrl slots.old → result ≡ OK → step.new.kind ≡ PICKED → HasStepped rules late notes room (made.Picked (pick_of_fields step.new.pick)) state.new.ctrl slots.new }
    ensures carried_out { (rules : FrontRules) (late : Bool) (notes : Notes) → Stands rules late notes state.old.ctrl slots.old → result ≡ OK → step.new.kind ≡ CARRIED_OUT → HasToldWhat rules late notes step.new.answer step.new.asked state.new.ctrl slots.new }
    ensures passed { (rules : FrontRules) (late : Bool) (notes : Notes) → Stands rules late notes state.old.ctrl slots.old → result ≡ OK → step.new.kind ≡ PASSED → HasStepped rules late notes room (made.Passed (pick_of_fields step.new.pick)) state.new.ctrl slots.new }
    ensures own { (rules : FrontRules) (late : Bool) (notes : Notes) → Stands rules late notes state.old.ctrl slots.old → result ≡ OK → step.new.kind ≡ PASSED → oldest_is_own (own_of state.old.ctrl) notes ≡ Some true }
    ensures not_own { (rules : FrontRules) (late : Bool) (notes : Notes) → Stands rules late notes state.old.ctrl slots.old → result ≡ OK → step.new.kind ≡ CARRIED_OUT → oldest_is_own (own_of state.old.ctrl) notes ≡ Some false }
    ensures no_pick { result ≡ OK → step.new.kind ≡ CARRIED_OUT → step.new.pick ≡ no_pick }
    ensures no_answer { result ≡ OK → step.new.kind ≢ CARRIED_OUT → (step.new.answer ≡ plain_answer 0) × (step.new.asked ≡ nothing_asked) }
    ensures generations { SameGenerations slots.old slots.new }
    ensures left { own_of state.new.ctrl ≡ own_of state.old.ctrl }
    ensures kinds { result ≡ OK → (step.new.kind ≡ PICKED) ⊎ ((step.new.kind ≡ CARRIED_OUT) ⊎ (step.new.kind ≡ PASSED)) }
    ensures answer { (result ≡ OK) ⊎ ((result ≡ NOTHING) ⊎ ((result ≡ BUSY) ⊎ ((result ≡ NOROOM) ⊎ ((result ≡ BAD_ARGUMENT) ⊎ (result ≡ BAD_STATE))))) }
    ensures unchanged { result ≢ OK → (state.new ≡ state.old) × ((slots.new ≡ slots.old) × (step.new ≡ step.old)) }
{
    if !is_intact(state) {
        return BAD_STATE;
    }
    if !has_slots(state, slots) {
        return BAD_ARGUMENT;
    }
    match state.ctrl.pick(slots, room) {
        Step::Idle => NOTHING,
        Step::Busy => BUSY,
        Step::NoRoom => NOROOM,
        Step::Picked(pick) => {
            *step = StepFields {
                kind: PICKED,
                answer: plain_answer(0),
                pick: fields_of_pick(pick),
                asked: nothing_asked(),
            };
            OK
        }
        Step::Passed(pick) => {
            *step = StepFields {
                kind: PASSED,
                answer: plain_answer(0),
                pick: fields_of_pick(pick),
                asked: nothing_asked(),
            };
            OK
        }
        Step::Done(effect, entry) => {
            *step = StepFields {
                kind: CARRIED_OUT,
                answer: answer_of(effect.verdict()),
                pick: PickFields {
                    qid: 0,
                    n: 0,
                    fresh: 0,
                },
                asked: asked_by(&effect, &entry),
            };
            OK
        }
    }
}

/// The device takes the next picked command, which is written. NOTHING where all are taken.
pub fn take_one(ctrl: &mut Controller, slots: &mut [Slot], command: &mut CommandFields) -> u32
    ensures front { IsController ctrl.old slots.old → IsController ctrl.new slots.new }
    ensures depths { depths_of ctrl.new ≡ depths_of ctrl.old }
    ensures own { own_of ctrl.new ≡ own_of ctrl.old }
    ensures answer { (result ≡ OK) ⊎ (result ≡ NOTHING) }
    ensures taken { result ≡ OK → TakesOne (with_slots ctrl.old slots.old) command.new (with_slots ctrl.new slots.new) }
    ensures none { result ≢ OK → NoneToTake (with_slots ctrl.old slots.old) }
    ensures unchanged { result ≢ OK → (ctrl.new ≡ ctrl.old) × ((slots.new ≡ slots.old) × (command.new ≡ command.old)) }
{
    match ctrl.take(slots) {
        Some(slot) => {
            *command = CommandFields {
                entry: ctrl.entry(slots, slot),
                cookie: ctrl.cookie(slots, slot),
                tag: Tag::at(slots, slot).number(),
            };
            OK
        }
        None => NOTHING,
    }
}

/// The device takes the next picked command, and its tag, entry and cookie are written.
#[unsafe(no_mangle)]
pub extern "C" fn nvmearb_ctrl_take(
    state: &mut CtrlState,
    slots: &mut [Slot],
    command: &mut CommandFields,
) -> u32
    ensures kept { IsKept state.old slots.old → IsKept state.new slots.new }
    ensures same { StaysMade state.old state.new }
    ensures depths { depths_of state.new.ctrl ≡ depths_of state.old.ctrl }
    ensures bad_state { (result ≡ BAD_STATE) ↔ IsFalse (is_ctrl state.old) }
    ensures bad_argument { (result ≡ BAD_ARGUMENT) ↔ (IsTrue (is_ctrl state.old) × IsFalse (has_slots state.old slots.old)) }
    ensures answer { (result ≡ OK) ⊎ ((result ≡ NOTHING) ⊎ ((result ≡ BAD_ARGUMENT) ⊎ (result ≡ BAD_STATE))) }
    ensures nothing { (rules : FrontRules) (late : Bool) (notes : Notes) → Stands rules late notes state.old.ctrl slots.old → result ≡ NOTHING → handed notes ≡ taken notes }
    ensures stands { (rules : FrontRules) (late : Bool) (notes : Notes) → Stands rules late notes state.old.ctrl slots.old → result ≡ OK → HasTaken rules late notes (tag_of command.new.tag).slot state.new.ctrl slots.new }
    ensures command { result ≡ OK → IsCommandIn slots.new (tag_of command.new.tag).slot command.new }
    ensures cookie { result ≡ OK → (rules : FrontRules) (late : Bool) (notes : Notes) → Stands rules late notes state.new.ctrl slots.new → (place : Place) → holder notes (tag_of command.new.tag).slot ≡ Some place → is_out notes (tag_of command.new.tag).slot ≡ true → cookie_of notes place.region place.index ≡ Some command.new.cookie }
    ensures entry { result ≡ OK → (rules : FrontRules) (late : Bool) (notes : Notes) → Stands rules late notes state.new.ctrl slots.new → (place : Place) → holder notes (tag_of command.new.tag).slot ≡ Some place → is_out notes (tag_of command.new.tag).slot ≡ true → entry_at (logged notes) place.region place.index ≡ Some command.new.entry }
    ensures generation { (rules : FrontRules) (late : Bool) (notes : Notes) → Stands rules late notes state.old.ctrl slots.old → result ≡ OK → IsNextGeneration slots.old slots.new (tag_of command.new.tag).slot }
    ensures left { own_of state.new.ctrl ≡ own_of state.old.ctrl }
    ensures unchanged { result ≢ OK → (state.new ≡ state.old) × ((slots.new ≡ slots.old) × (command.new ≡ command.old)) }
{
    if !is_ctrl(state) {
        return BAD_STATE;
    }
    if !has_slots(state, slots) {
        return BAD_ARGUMENT;
    }
    take_one(&mut state.ctrl, slots, command)
}

// The device answers the command of a tag with flags.
fn complete_flagged(
    state: &mut CtrlState,
    slots: &mut [Slot],
    tag: u32,
    status: &StatusFields,
    dw0: u32,
    flags: StatusFlags,
) -> u32
    ensures kept { IsKept state.old slots.old → IsKept state.new slots.new }
    ensures same { StaysMade state.old state.new }
    ensures depths { depths_of state.new.ctrl ≡ depths_of state.old.ctrl }
    ensures generations { SameGenerations slots.old slots.new }
    ensures left { own_of state.new.ctrl ≡ own_of state.old.ctrl }
    ensures bad_state { (result ≡ BAD_STATE) ↔ IsFalse (is_ctrl state.old) }
    ensures bad_argument { (result ≡ BAD_ARGUMENT) ↔ (IsTrue (is_ctrl state.old) × (IsFalse (has_slots state.old slots.old) ⊎ (7 < status.now.sct))) }
    ensures answer { (result ≡ OK) ⊎ ((result ≡ NOTHING) ⊎ ((result ≡ BAD_ARGUMENT) ⊎ (result ≡ BAD_STATE))) }
    ensures nothing { (rules : FrontRules) (late : Bool) (notes : Notes) → Stands rules late notes state.old.ctrl slots.old → result ≡ NOTHING → IsOutUnder notes slots.old tag → ⊥ }
    ensures was_out { (rules : FrontRules) (late : Bool) (notes : Notes) → Stands rules late notes state.old.ctrl slots.old → result ≡ OK → IsOutUnder notes slots.old tag }
    ensures stands { (rules : FrontRules) (late : Bool) (notes : Notes) → Stands rules late notes state.old.ctrl slots.old → result ≡ OK → HasAnswered rules late notes (tag_of tag).slot (device_answer status.now dw0) flags state.new.ctrl slots.new }
    ensures unchanged { result ≢ OK → (state.new ≡ state.old) × (slots.new ≡ slots.old) }
{
    if !is_ctrl(state) {
        return BAD_STATE;
    }
    if !has_slots(state, slots) {
        return BAD_ARGUMENT;
    }
    let Some(status) = Status::new(status.sct, status.sc) else {
        return BAD_ARGUMENT;
    };
    let Some(slot) = Tag::of_number(tag).slot_in(slots) else {
        return NOTHING;
    };
    if state
        .ctrl
        .complete(slots, slot, Answer { status, dw0, flags })
    {
        OK
    } else {
        NOTHING
    }
}

/// The device answers the command of a tag, whose completion is ready then, with neither mark. BAD_ARGUMENT where the
/// status code type is above 7, and NOTHING where the device has no command of this tag.
#[unsafe(no_mangle)]
pub extern "C" fn nvmearb_ctrl_complete(
    state: &mut CtrlState,
    slots: &mut [Slot],
    tag: u32,
    status: &StatusFields,
    dw0: u32,
) -> u32
    ensures kept { IsKept state.old slots.old → IsKept state.new slots.new }
    ensures same { StaysMade state.old state.new }
    ensures depths { depths_of state.new.ctrl ≡ depths_of state.old.ctrl }
    ensures bad_state { (result ≡ BAD_STATE) ↔ IsFalse (is_ctrl state.old) }
    ensures bad_argument { (result ≡ BAD_ARGUMENT) ↔ (IsTrue (is_ctrl state.old) × (IsFalse (has_slots state.old slots.old) ⊎ (7 < status.now.sct))) }
    ensures answer { (result ≡ OK) ⊎ ((result ≡ NOTHING) ⊎ ((result ≡ BAD_ARGUMENT) ⊎ (result ≡ BAD_STATE))) }
    ensures nothing { (rules : FrontRules) (late : Bool) (notes : Notes) → Stands rules late notes state.old.ctrl slots.old → result ≡ NOTHING → IsOutUnder notes slots.old tag → ⊥ }
    ensures was_out { (rules : FrontRules) (late : Bool) (notes : Notes) → Stands rules late notes state.old.ctrl slots.old → result ≡ OK → IsOutUnder notes slots.old tag }
    ensures stands { (rules : FrontRules) (late : Bool) (notes : Notes) → Stands rules late notes state.old.ctrl slots.old → result ≡ OK → HasAnswered rules late notes (tag_of tag).slot (device_answer status.now dw0) (flags_by 0) state.new.ctrl slots.new }
    ensures generations { SameGenerations slots.old slots.new }
    ensures left { own_of state.new.ctrl ≡ own_of state.old.ctrl }
    ensures unchanged { result ≢ OK → (state.new ≡ state.old) × (slots.new ≡ slots.old) }
{
    complete_flagged(state, slots, tag, status, dw0, StatusFlags::NONE)
}

/// The device answers the command of a tag with flags, NVMEARB_DNR and NVMEARB_MORE. BAD_ARGUMENT where they have another
/// bit too; otherwise as `nvmearb_ctrl_complete`.
#[unsafe(no_mangle)]
pub extern "C" fn nvmearb_ctrl_complete_with(
    state: &mut CtrlState,
    slots: &mut [Slot],
    tag: u32,
    status: &StatusFields,
    dw0: u32,
    flags: u8,
) -> u32
    ensures kept { IsKept state.old slots.old → IsKept state.new slots.new }
    ensures same { StaysMade state.old state.new }
    ensures depths { depths_of state.new.ctrl ≡ depths_of state.old.ctrl }
    ensures bad_state { (result ≡ BAD_STATE) ↔ IsFalse (is_ctrl state.old) }
    ensures bad_argument { (result ≡ BAD_ARGUMENT) ↔ (IsTrue (is_ctrl state.old) × (IsFalse (has_slots state.old slots.old) ⊎ ((7 < status.now.sct) ⊎ (3 < flags)))) }
    ensures answer { (result ≡ OK) ⊎ ((result ≡ NOTHING) ⊎ ((result ≡ BAD_ARGUMENT) ⊎ (result ≡ BAD_STATE))) }
    ensures nothing { (rules : FrontRules) (late : Bool) (notes : Notes) → Stands rules late notes state.old.ctrl slots.old → result ≡ NOTHING → IsOutUnder notes slots.old tag → ⊥ }
    ensures was_out { (rules : FrontRules) (late : Bool) (notes : Notes) → Stands rules late notes state.old.ctrl slots.old → result ≡ OK → IsOutUnder notes slots.old tag }
    ensures stands { (rules : FrontRules) (late : Bool) (notes : Notes) → Stands rules late notes state.old.ctrl slots.old → result ≡ OK → HasAnswered rules late notes (tag_of tag).slot (device_answer status.now dw0) (flags_by flags) state.new.ctrl slots.new }
    ensures generations { SameGenerations slots.old slots.new }
    ensures left { own_of state.new.ctrl ≡ own_of state.old.ctrl }
    ensures unchanged { result ≢ OK → (state.new ≡ state.old) × (slots.new ≡ slots.old) }
{
    if !is_ctrl(state) {
        return BAD_STATE;
    }
    let Some(flags) = flags_by(flags) else {
        return BAD_ARGUMENT;
    };
    complete_flagged(state, slots, tag, status, dw0, flags)
}

// What is told of a completion.
fn fields_of_post(it: &Post, tag: Tag) -> PostFields
    ensures layout { IsFlaggedEntry result.bytes it.now.cqe it.now.flags }
    ensures cookie { result.cookie ≡ it.now.cookie }
    ensures tag { tag_of result.tag ≡ tag }
    ensures slot { result.slot ≡ it.now.slot }
{
    PostFields {
        bytes: flagged(it.cqe.to_bytes(), it.flags),
        cookie: it.cookie,
        tag: tag.number(),
        slot: it.slot,
    }
}

/// Writes the completion that became ready first in an open completion queue. NOTHING where none may be posted.
pub fn post_one(ctrl: &mut Controller, slots: &mut [Slot], cqid: u16, post: &mut PostFields) -> u32
    ensures front { IsController ctrl.old slots.old → IsController ctrl.new slots.new }
    ensures depths { depths_of ctrl.new ≡ depths_of ctrl.old }
    ensures own { own_of ctrl.new ≡ own_of ctrl.old }
    ensures answer { (result ≡ OK) ⊎ (result ≡ NOTHING) }
    ensures posted { result ≡ OK → PostsOne cqid (with_slots ctrl.old slots.old) post.new (with_slots ctrl.new slots.new) }
    ensures none { result ≢ OK → NoneToPost cqid (with_slots ctrl.old slots.old) }
    ensures generations { SameGenerations slots.old slots.new }
    ensures unchanged { result ≢ OK → (ctrl.new ≡ ctrl.old) × ((slots.new ≡ slots.old) × (post.new ≡ post.old)) }
{
    match ctrl.post(slots, cqid) {
        Some(it) => {
            // (a slot that is freed keeps its generation)
            *post = fields_of_post(&it, Tag::at(slots, it.tag));
            OK
        }
        None => NOTHING,
    }
}

/// Writes the completion that became ready first in an open completion queue, with the slot of its ring. The command's
/// slot is free then.
#[unsafe(no_mangle)]
pub extern "C" fn nvmearb_ctrl_post(
    state: &mut CtrlState,
    slots: &mut [Slot],
    cqid: u16,
    post: &mut PostFields,
) -> u32
    ensures kept { IsKept state.old slots.old → IsKept state.new slots.new }
    ensures same { StaysMade state.old state.new }
    ensures depths { depths_of state.new.ctrl ≡ depths_of state.old.ctrl }
    ensures bad_state { (result ≡ BAD_STATE) ↔ IsFalse (is_ctrl state.old) }
    ensures bad_argument { (result ≡ BAD_ARGUMENT) ↔ (IsTrue (is_ctrl state.old) × IsFalse (has_slots state.old slots.old)) }
    ensures answer { (result ≡ OK) ⊎ ((result ≡ NOTHING) ⊎ ((result ≡ BAD_ARGUMENT) ⊎ (result ≡ BAD_STATE))) }
    ensures nothing { (rules : FrontRules) (late : Bool) (notes : Notes) → Stands rules late notes state.old.ctrl slots.old → result ≡ NOTHING → (x : ℕ) → open_cq (logged notes) cqid ≡ Some x → NonePostable rules notes x }
    ensures due { result ≡ OK → HasPost state.old.ctrl slots.old cqid }
    ensures none_due { result ≡ NOTHING → next_post_of state.old.ctrl slots.old cqid ≡ None }
    ensures stands { (rules : FrontRules) (late : Bool) (notes : Notes) → Stands rules late notes state.old.ctrl slots.old → result ≡ OK → HasPostedBytes rules late notes cqid post.new state.new.ctrl slots.new }
    ensures command { result ≡ OK → IsPostIn slots.old post.new }
    ensures tag { result ≡ OK → IsSomeAnd (next_post_of state.old.ctrl slots.old cqid) (λ p. (tag_of post.new.tag).slot ≡ p.tag) }
    ensures generations { SameGenerations slots.old slots.new }
    ensures left { own_of state.new.ctrl ≡ own_of state.old.ctrl }
    ensures unchanged { result ≢ OK → (state.new ≡ state.old) × ((slots.new ≡ slots.old) × (post.new ≡ post.old)) }
{
    if !is_ctrl(state) {
        return BAD_STATE;
    }
    if !has_slots(state, slots) {
        return BAD_ARGUMENT;
    }
    post_one(&mut state.ctrl, slots, cqid, post)
}

/// Finishes a deletion, if all completions of its queue are posted, and writes the identifier of the queue. Of several
/// the first queue's is finished.
#[unsafe(no_mangle)]
pub extern "C" fn nvmearb_ctrl_finish(
    state: &mut CtrlState,
    slots: &mut [Slot],
    qid: &mut u16,
) -> u32
    ensures kept { IsKept state.old slots.old → IsKept state.new slots.new }
    ensures same { StaysMade state.old state.new }
    ensures depths { depths_of state.new.ctrl ≡ depths_of state.old.ctrl }
    ensures bad_state { (result ≡ BAD_STATE) ↔ IsFalse (is_ctrl state.old) }
    ensures bad_argument { (result ≡ BAD_ARGUMENT) ↔ (IsTrue (is_ctrl state.old) × IsFalse (has_slots state.old slots.old)) }
    ensures answer { (result ≡ OK) ⊎ ((result ≡ NOTHING) ⊎ ((result ≡ BAD_ARGUMENT) ⊎ (result ≡ BAD_STATE))) }
    ensures nothing { (rules : FrontRules) (late : Bool) (notes : Notes) → Stands rules late notes state.old.ctrl slots.old → result ≡ NOTHING → NoneFinishable notes }
    ensures first { (rules : FrontRules) (late : Bool) (notes : Notes) → Stands rules late notes state.old.ctrl slots.old → result ≡ OK → (q : ℕ) → q < qid.new → IsFinishableAt notes q → ⊥ }
    ensures stands { (rules : FrontRules) (late : Bool) (notes : Notes) → Stands rules late notes state.old.ctrl slots.old → result ≡ OK → HasFinished rules late notes qid.new state.new.ctrl slots.new }
    ensures generations { SameGenerations slots.old slots.new }
    ensures left { own_of state.new.ctrl ≡ own_of state.old.ctrl }
    ensures unchanged { result ≢ OK → (state.new ≡ state.old) × ((slots.new ≡ slots.old) × (qid.new ≡ qid.old)) }
{
    if !is_ctrl(state) {
        return BAD_STATE;
    }
    if !has_slots(state, slots) {
        return BAD_ARGUMENT;
    }
    match state.ctrl.finish(slots) {
        Some(it) => {
            *qid = it;
            OK
        }
        None => NOTHING,
    }
}
