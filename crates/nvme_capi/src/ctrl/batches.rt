// The calls of a controller of C over arrays of the caller: each is its single call, for one item after the other.
ghost use Rattle.std.specs.Prelude.{◌≡◌, ◌≢◌, ◌*◌, ◌<◌, ◌≤◌, ◌⊎◌, ◌↔◌, length, take, drop, zip, IfSome, IsSome, IsTrue, IsFalse};
ghost use Rattle.std.specs.Simd.{first_chunks};
ghost use Rattle.nvme_ctrl.specs.Own.{own_of};
ghost use Rattle.nvme_ctrl.specs.Standing.{IsController};
ghost use Rattle.nvme_slots.specs.Generations.{SameGenerations};
ghost use Rattle.nvme_ctrl.specs.Calls.{depths_of};
ghost use Rattle.nvme_capi.specs.Controllers.{is_ctrl, has_slots, IsKept, StaysMade};
ghost use Rattle.nvme_capi.specs.Batches.{Each, FetchesOne, TakesOne, PostsOne, NoneToFetch, NoneToTake, NoneToPost, IsToFetch, IsOtherToFetch, with_slots, entries_in};

use crate::ctrl::commands::{post_one, take_one};
use crate::ctrl::rings::{fetch_one, next_is};
use crate::ctrl::state::{CommandFields, CtrlState, PostFields, has_slots, is_ctrl};
use crate::results::{BAD_ARGUMENT, BAD_STATE, NOTHING, OK, OTHER_SLOT};
use nvme_ctrl::{Controller, Slot};

// Writes how many calls did something.
fn put_count(done: usize, n: &mut usize) -> u32
    ensures count { n.new ≡ done }
    ensures answer { (result ≡ OK) ⊎ (result ≡ NOTHING) }
    ensures some { result ≡ OK → 0 < done }
    ensures none { result ≢ OK → done ≡ 0 }
{
    *n = done;
    if done > 0 { OK } else { NOTHING }
}

// The entries in these bytes, where they are those of as many.
fn entries_of(bytes: &[u8], count: usize) -> Option<&[[u8; 64]]>
    ensures whole { IsSome result ↔ (length bytes.now ≡ 64 * count) }
    ensures value { IfSome result (λ it. it.now ≡ first_chunks 64 count bytes.now) }
    ensures many { IfSome result (λ it. length it.now ≡ count) }
{
    let (entries, rest) = bytes.as_chunks::<64>();
    if entries.len() == count && rest.is_empty() {
        Some(entries)
    } else {
        None
    }
}

// Entries are fetched until none may be, or all are. Answers how many were.
fn fetch_all(
    ctrl: &mut Controller,
    slots: &mut [Slot],
    qid: u16,
    entries: &[[u8; 64]],
    cookies: &[u32],
) -> usize
    ensures front { IsController ctrl.old slots.old → IsController ctrl.new slots.new }
    ensures depths { depths_of ctrl.new ≡ depths_of ctrl.old }
    ensures own { own_of ctrl.new ≡ own_of ctrl.old }
    ensures few { result ≤ length (zip entries.now cookies.now) }
    ensures each { Each (FetchesOne qid) (take result (zip entries.now cookies.now)) (with_slots ctrl.old slots.old) (with_slots ctrl.new slots.new) }
    ensures all { result < length (zip entries.now cookies.now) → NoneToFetch qid (with_slots ctrl.new slots.new) }
    ensures generations { SameGenerations slots.old slots.new }
{
    let mut done = 0;
    for (entry, cookie) in entries.iter().zip(cookies) {
        if fetch_one(ctrl, slots, qid, entry, *cookie) != OK {
            break;
        }
        done += 1;
    }
    done
}

/// The entries were read that `nvmearb_ctrl_fetch` tells one after the other, of 64 bytes each and each with its cookie,
/// until it tells none. `n` is how many were fetched. BAD_ARGUMENT too where the bytes aren't those of as many entries as
/// there are cookies.
#[unsafe(no_mangle)]
pub extern "C" fn nvmearb_ctrl_fetched_n(
    state: &mut CtrlState,
    slots: &mut [Slot],
    qid: u16,
    entries: &[u8],
    cookies: &[u32],
    n: &mut usize,
) -> u32
    ensures kept { IsKept state.old slots.old → IsKept state.new slots.new }
    ensures same { StaysMade state.old state.new }
    ensures depths { depths_of state.new.ctrl ≡ depths_of state.old.ctrl }
    ensures left { own_of state.new.ctrl ≡ own_of state.old.ctrl }
    ensures generations { SameGenerations slots.old slots.new }
    ensures bad_state { (result ≡ BAD_STATE) ↔ IsFalse (is_ctrl state.old) }
    ensures bad_argument { (result ≡ BAD_ARGUMENT) ↔ (IsTrue (is_ctrl state.old) × (IsFalse (has_slots state.old slots.old) ⊎ (length entries.now ≢ 64 * length cookies.now))) }
    ensures answer { (result ≡ OK) ⊎ ((result ≡ NOTHING) ⊎ ((result ≡ BAD_ARGUMENT) ⊎ (result ≡ BAD_STATE))) }
    ensures each { result ≡ OK → Each (FetchesOne qid) (take n.new (entries_in entries.now cookies.now)) (with_slots state.old.ctrl slots.old) (with_slots state.new.ctrl slots.new) }
    ensures some { result ≡ OK → 0 < n.new }
    ensures few { result ≡ OK → n.new ≤ length cookies.now }
    ensures all { result ≡ OK → n.new < length cookies.now → NoneToFetch qid (with_slots state.new.ctrl slots.new) }
    ensures nothing { result ≡ NOTHING → 0 < length cookies.now → NoneToFetch qid (with_slots state.old.ctrl slots.old) }
    ensures none { result ≡ NOTHING → n.new ≡ 0 }
    ensures unchanged { result ≢ OK → (state.new ≡ state.old) × (slots.new ≡ slots.old) }
    ensures refused { (result ≡ BAD_ARGUMENT) ⊎ (result ≡ BAD_STATE) → n.new ≡ n.old }
{
    if !is_ctrl(state) {
        return BAD_STATE;
    }
    if !has_slots(state, slots) {
        return BAD_ARGUMENT;
    }
    let Some(entries) = entries_of(entries, cookies.len()) else {
        return BAD_ARGUMENT;
    };
    put_count(fetch_all(&mut state.ctrl, slots, qid, entries, cookies), n)
}

/// The entries were read from this slot of the ring on, as `nvmearb_ctrl_fetched_n` fetches them. OTHER_SLOT, which changes
/// nothing, where `nvmearb_ctrl_fetch` tells another slot.
#[unsafe(no_mangle)]
pub extern "C" fn nvmearb_ctrl_fetched_n_at(
    state: &mut CtrlState,
    slots: &mut [Slot],
    qid: u16,
    slot: u16,
    entries: &[u8],
    cookies: &[u32],
    n: &mut usize,
) -> u32
    ensures kept { IsKept state.old slots.old → IsKept state.new slots.new }
    ensures same { StaysMade state.old state.new }
    ensures depths { depths_of state.new.ctrl ≡ depths_of state.old.ctrl }
    ensures left { own_of state.new.ctrl ≡ own_of state.old.ctrl }
    ensures generations { SameGenerations slots.old slots.new }
    ensures bad_state { (result ≡ BAD_STATE) ↔ IsFalse (is_ctrl state.old) }
    ensures bad_argument { (result ≡ BAD_ARGUMENT) ↔ (IsTrue (is_ctrl state.old) × (IsFalse (has_slots state.old slots.old) ⊎ (length entries.now ≢ 64 * length cookies.now))) }
    ensures answer { (result ≡ OK) ⊎ ((result ≡ NOTHING) ⊎ ((result ≡ OTHER_SLOT) ⊎ ((result ≡ BAD_ARGUMENT) ⊎ (result ≡ BAD_STATE)))) }
    ensures this { result ≡ OK → IsToFetch qid slot (with_slots state.old.ctrl slots.old) }
    ensures other { result ≡ OTHER_SLOT → IsOtherToFetch qid slot (with_slots state.old.ctrl slots.old) }
    ensures each { result ≡ OK → Each (FetchesOne qid) (take n.new (entries_in entries.now cookies.now)) (with_slots state.old.ctrl slots.old) (with_slots state.new.ctrl slots.new) }
    ensures some { result ≡ OK → 0 < n.new }
    ensures few { result ≡ OK → n.new ≤ length cookies.now }
    ensures all { result ≡ OK → n.new < length cookies.now → NoneToFetch qid (with_slots state.new.ctrl slots.new) }
    ensures nothing { result ≡ NOTHING → 0 < length cookies.now → NoneToFetch qid (with_slots state.old.ctrl slots.old) }
    ensures none { result ≡ NOTHING → n.new ≡ 0 }
    ensures unchanged { result ≢ OK → (state.new ≡ state.old) × (slots.new ≡ slots.old) }
    ensures refused { (result ≡ BAD_ARGUMENT) ⊎ ((result ≡ BAD_STATE) ⊎ (result ≡ OTHER_SLOT)) → n.new ≡ n.old }
{
    if !is_ctrl(state) {
        return BAD_STATE;
    }
    if !has_slots(state, slots) {
        return BAD_ARGUMENT;
    }
    let Some(entries) = entries_of(entries, cookies.len()) else {
        return BAD_ARGUMENT;
    };
    let next = next_is(&state.ctrl, qid, slot);
    if next == OTHER_SLOT {
        return OTHER_SLOT;
    }
    if next == NOTHING {
        *n = 0;
        return NOTHING;
    }
    put_count(fetch_all(&mut state.ctrl, slots, qid, entries, cookies), n)
}

// Commands are taken until all are, or the array is full. Answers how many were.
fn take_all(ctrl: &mut Controller, slots: &mut [Slot], commands: &mut [CommandFields]) -> usize
    ensures front { IsController ctrl.old slots.old → IsController ctrl.new slots.new }
    ensures depths { depths_of ctrl.new ≡ depths_of ctrl.old }
    ensures own { own_of ctrl.new ≡ own_of ctrl.old }
    ensures few { result ≤ length commands.old }
    ensures each { Each TakesOne (take result commands.new) (with_slots ctrl.old slots.old) (with_slots ctrl.new slots.new) }
    ensures rest { drop result commands.new ≡ drop result commands.old }
    ensures all { result < length commands.old → NoneToTake (with_slots ctrl.new slots.new) }
{
    for (k, command) in commands.iter_mut().enumerate() {
        if take_one(ctrl, slots, command) != OK {
            return k;
        }
    }
    commands.len()
}

/// The device takes picked commands, until all are taken or the array is full. `n` is how many it took.
#[unsafe(no_mangle)]
pub extern "C" fn nvmearb_ctrl_take_n(
    state: &mut CtrlState,
    slots: &mut [Slot],
    commands: &mut [CommandFields],
    n: &mut usize,
) -> u32
    ensures kept { IsKept state.old slots.old → IsKept state.new slots.new }
    ensures same { StaysMade state.old state.new }
    ensures depths { depths_of state.new.ctrl ≡ depths_of state.old.ctrl }
    ensures left { own_of state.new.ctrl ≡ own_of state.old.ctrl }
    ensures bad_state { (result ≡ BAD_STATE) ↔ IsFalse (is_ctrl state.old) }
    ensures bad_argument { (result ≡ BAD_ARGUMENT) ↔ (IsTrue (is_ctrl state.old) × IsFalse (has_slots state.old slots.old)) }
    ensures answer { (result ≡ OK) ⊎ ((result ≡ NOTHING) ⊎ ((result ≡ BAD_ARGUMENT) ⊎ (result ≡ BAD_STATE))) }
    ensures each { result ≡ OK → Each TakesOne (take n.new commands.new) (with_slots state.old.ctrl slots.old) (with_slots state.new.ctrl slots.new) }
    ensures some { result ≡ OK → 0 < n.new }
    ensures few { result ≡ OK → n.new ≤ length commands.old }
    ensures rest { result ≡ OK → drop n.new commands.new ≡ drop n.new commands.old }
    ensures all { result ≡ OK → n.new < length commands.old → NoneToTake (with_slots state.new.ctrl slots.new) }
    ensures nothing { result ≡ NOTHING → 0 < length commands.old → NoneToTake (with_slots state.old.ctrl slots.old) }
    ensures none { result ≡ NOTHING → n.new ≡ 0 }
    ensures unchanged { result ≢ OK → (state.new ≡ state.old) × ((slots.new ≡ slots.old) × (commands.new ≡ commands.old)) }
    ensures refused { (result ≡ BAD_ARGUMENT) ⊎ (result ≡ BAD_STATE) → n.new ≡ n.old }
{
    if !is_ctrl(state) {
        return BAD_STATE;
    }
    if !has_slots(state, slots) {
        return BAD_ARGUMENT;
    }
    put_count(take_all(&mut state.ctrl, slots, commands), n)
}

// Completions are posted until none may be, or the array is full. Answers how many were.
fn post_all(ctrl: &mut Controller, slots: &mut [Slot], cqid: u16, posts: &mut [PostFields]) -> usize
    ensures front { IsController ctrl.old slots.old → IsController ctrl.new slots.new }
    ensures depths { depths_of ctrl.new ≡ depths_of ctrl.old }
    ensures own { own_of ctrl.new ≡ own_of ctrl.old }
    ensures few { result ≤ length posts.old }
    ensures each { Each (PostsOne cqid) (take result posts.new) (with_slots ctrl.old slots.old) (with_slots ctrl.new slots.new) }
    ensures rest { drop result posts.new ≡ drop result posts.old }
    ensures all { result < length posts.old → NoneToPost cqid (with_slots ctrl.new slots.new) }
    ensures generations { SameGenerations slots.old slots.new }
{
    for (k, post) in posts.iter_mut().enumerate() {
        if post_one(ctrl, slots, cqid, post) != OK {
            return k;
        }
    }
    posts.len()
}

/// Writes the completions that became ready first in an open completion queue, until none may be posted or the array is
/// full. `n` is how many it wrote.
#[unsafe(no_mangle)]
pub extern "C" fn nvmearb_ctrl_post_n(
    state: &mut CtrlState,
    slots: &mut [Slot],
    cqid: u16,
    posts: &mut [PostFields],
    n: &mut usize,
) -> u32
    ensures kept { IsKept state.old slots.old → IsKept state.new slots.new }
    ensures same { StaysMade state.old state.new }
    ensures depths { depths_of state.new.ctrl ≡ depths_of state.old.ctrl }
    ensures left { own_of state.new.ctrl ≡ own_of state.old.ctrl }
    ensures generations { SameGenerations slots.old slots.new }
    ensures bad_state { (result ≡ BAD_STATE) ↔ IsFalse (is_ctrl state.old) }
    ensures bad_argument { (result ≡ BAD_ARGUMENT) ↔ (IsTrue (is_ctrl state.old) × IsFalse (has_slots state.old slots.old)) }
    ensures answer { (result ≡ OK) ⊎ ((result ≡ NOTHING) ⊎ ((result ≡ BAD_ARGUMENT) ⊎ (result ≡ BAD_STATE))) }
    ensures each { result ≡ OK → Each (PostsOne cqid) (take n.new posts.new) (with_slots state.old.ctrl slots.old) (with_slots state.new.ctrl slots.new) }
    ensures some { result ≡ OK → 0 < n.new }
    ensures few { result ≡ OK → n.new ≤ length posts.old }
    ensures rest { result ≡ OK → drop n.new posts.new ≡ drop n.new posts.old }
    ensures all { result ≡ OK → n.new < length posts.old → NoneToPost cqid (with_slots state.new.ctrl slots.new) }
    ensures nothing { result ≡ NOTHING → 0 < length posts.old → NoneToPost cqid (with_slots state.old.ctrl slots.old) }
    ensures none { result ≡ NOTHING → n.new ≡ 0 }
    ensures unchanged { result ≢ OK → (state.new ≡ state.old) × ((slots.new ≡ slots.old) × (posts.new ≡ posts.old)) }
    ensures refused { (result ≡ BAD_ARGUMENT) ⊎ (result ≡ BAD_STATE) → n.new ≡ n.old }
{
    if !is_ctrl(state) {
        return BAD_STATE;
    }
    if !has_slots(state, slots) {
        return BAD_ARGUMENT;
    }
    put_count(post_all(&mut state.ctrl, slots, cqid, posts), n)
}
