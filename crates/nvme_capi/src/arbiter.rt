// The arbiter, over a state that the caller owns.
//
// Decided: a state is a struct of integers that the caller owns. A board and a table begin with a mark, which each call
// looks at. The numbers of an arbiter are few, so each call looks at all.
ghost use Rattle.std.specs.Prelude.{◌≡◌, ◌≢◌, ◌≤◌, ◌⊎◌, ◌↔◌, [], ◌∷◌, length, Some, None, IsTrue, IsFalse, IsNone, IfSome, option_map};
ghost use Rattle.nvme_arbiter.specs.Settings.{ArbitrationFields, settings_of};
ghost use Rattle.nvme_arbiter.specs.Observation.{IsIdle, class_in};
ghost use Rattle.nvme_arbiter.specs.History.{History, Picked, Changed};
ghost use Rattle.nvme_arbiter.specs.Lawful.{IsLawfulPick, lawful_pick, limited_pick, cut};
ghost use Rattle.nvme_arbiter.specs.Standing.{StandsAt, pick_of, first_kept, kept_after, nothing_used};
ghost use Rattle.nvme_arbiter.specs.declared.settings.Mechanism.{Mechanism};
ghost use Rattle.nvme_arbiter.specs.Layout.{is_arbiter, kept_of, mechanism_of};
ghost use Rattle.nvme_capi.specs.States.{seen_in, pick_of_fields, IsShown};

use crate::results::{BAD_ARGUMENT, BAD_STATE, NOTHING, OK};
use crate::shown::{Shown, are_shown};
use crate::states::{PickFields, SeenFields, fields_of_pick};
use crate::version::ARBITER_BYTES;
use nvme_arbiter::{ArbiterFields, Mechanism, Pick, Settings};

const _: () = prove!(size_of::<ArbiterFields>() == ARBITER_BYTES as usize);

// What the arbiter picks of these queues. All of arbitration is inlined here, so that it stands once for several calls.
#[inline(never)]
fn peeked(state: &ArbiterFields, queues: &[SeenFields]) -> Option<Pick>
    requires shown { IsShown queues.now }
    requires is_arbiter { IsTrue (is_arbiter state.now) }
    ensures by_what_is_kept { result ≡ pick_of (kept_of state.now) (seen_in queues.now) }
    ensures lawful { (mechanism : Mechanism) (first : ArbitrationFields) (past : History) → StandsAt mechanism first past (kept_of state.now) → result ≡ lawful_pick mechanism first past (seen_in queues.now) }
    ensures none_where_idle { IsNone result ↔ IsIdle (seen_in queues.now) }
{
    state.peek(&Shown { queues })
}

/// Writes what `nvmearb_arbiter_pick` would pick. The state stays as it was.
#[unsafe(no_mangle)]
pub extern "C" fn nvmearb_arbiter_peek(
    state: &ArbiterFields,
    queues: &[SeenFields],
    pick: &mut PickFields,
) -> u32
    ensures bad_state { (result ≡ BAD_STATE) ↔ IsFalse (is_arbiter state.now) }
    ensures answer { (result ≡ OK) ⊎ ((result ≡ NOTHING) ⊎ ((result ≡ BAD_ARGUMENT) ⊎ (result ≡ BAD_STATE))) }
    ensures bad_argument { result ≡ BAD_ARGUMENT → IsShown queues.now → ⊥ }
    ensures nothing { result ≡ NOTHING → IsShown queues.now × (pick_of (kept_of state.now) (seen_in queues.now) ≡ None) }
    ensures idle { result ≡ NOTHING → IsIdle (seen_in queues.now) }
    ensures waits { result ≡ OK → IsIdle (seen_in queues.now) → ⊥ }
    ensures picked { result ≡ OK → IsShown queues.now × (pick_of (kept_of state.now) (seen_in queues.now) ≡ Some (pick_of_fields pick.new)) }
    ensures fits { result ≡ OK → pick.new.fresh ≤ 1 }
    ensures lawful { result ≡ OK → (mechanism : Mechanism) (first : ArbitrationFields) (past : History) → StandsAt mechanism first past (kept_of state.now) → IsLawfulPick mechanism first past (seen_in queues.now) (pick_of_fields pick.new) }
    ensures unchanged { result ≢ OK → pick.new ≡ pick.old }
{
    if !state.is_arbiter() {
        return BAD_STATE;
    }
    if !are_shown(queues) {
        return BAD_ARGUMENT;
    }
    match peeked(state, queues) {
        Some(it) => {
            *pick = fields_of_pick(it);
            OK
        }
        None => NOTHING,
    }
}

/// Picks: writes the next queue, and how many of its commands are taken, and records the pick in the state.
#[unsafe(no_mangle)]
pub extern "C" fn nvmearb_arbiter_pick(
    state: &mut ArbiterFields,
    queues: &[SeenFields],
    pick: &mut PickFields,
) -> u32
    ensures bad_state { (result ≡ BAD_STATE) ↔ IsFalse (is_arbiter state.old) }
    ensures answer { (result ≡ OK) ⊎ ((result ≡ NOTHING) ⊎ ((result ≡ BAD_ARGUMENT) ⊎ (result ≡ BAD_STATE))) }
    ensures bad_argument { result ≡ BAD_ARGUMENT → IsShown queues.now → ⊥ }
    ensures nothing { result ≡ NOTHING → IsShown queues.now × (pick_of (kept_of state.old) (seen_in queues.now) ≡ None) }
    ensures idle { result ≡ NOTHING → IsIdle (seen_in queues.now) }
    ensures waits { result ≡ OK → IsIdle (seen_in queues.now) → ⊥ }
    ensures picked { result ≡ OK → IsShown queues.now × (pick_of (kept_of state.old) (seen_in queues.now) ≡ Some (pick_of_fields pick.new)) }
    ensures fits { result ≡ OK → pick.new.fresh ≤ 1 }
    ensures lawful { result ≡ OK → (mechanism : Mechanism) (first : ArbitrationFields) (past : History) → StandsAt mechanism first past (kept_of state.old) → IsLawfulPick mechanism first past (seen_in queues.now) (pick_of_fields pick.new) }
    ensures stands { result ≡ OK → (mechanism : Mechanism) (first : ArbitrationFields) (past : History) → StandsAt mechanism first past (kept_of state.old) → StandsAt mechanism first (Picked (seen_in queues.now) (pick_of_fields pick.new) ∷ past) (kept_of state.new) }
    ensures keeps { result ≡ OK → kept_of state.new ≡ kept_after (kept_of state.old).mechanism (kept_of state.old) (class_in (seen_in queues.now) pick.new.qid) (pick_of_fields pick.new) }
    ensures kept { result ≡ OK → IsTrue (is_arbiter state.new) }
    ensures unchanged { result ≢ OK → (state.new ≡ state.old) × (pick.new ≡ pick.old) }
{
    if !state.is_arbiter() {
        return BAD_STATE;
    }
    if !are_shown(queues) {
        return BAD_ARGUMENT;
    }
    match peeked(state, queues) {
        Some(it) => {
            state.keep(&Shown { queues }, it);
            *pick = fields_of_pick(it);
            OK
        }
        None => NOTHING,
    }
}

/// Picks at most `limit` commands: as `nvmearb_arbiter_pick`, but where the pick has more, the first `limit` of them.
#[unsafe(no_mangle)]
pub extern "C" fn nvmearb_arbiter_pick_up_to(
    state: &mut ArbiterFields,
    queues: &[SeenFields],
    limit: u16,
    pick: &mut PickFields,
) -> u32
    ensures bad_state { (result ≡ BAD_STATE) ↔ IsFalse (is_arbiter state.old) }
    ensures answer { (result ≡ OK) ⊎ ((result ≡ NOTHING) ⊎ ((result ≡ BAD_ARGUMENT) ⊎ (result ≡ BAD_STATE))) }
    ensures bad_argument { result ≡ BAD_ARGUMENT → IsShown queues.now → limit ≡ 0 }
    ensures limit { (result ≡ OK) ⊎ (result ≡ NOTHING) → 1 ≤ limit }
    ensures nothing { result ≡ NOTHING → IsShown queues.now × (pick_of (kept_of state.old) (seen_in queues.now) ≡ None) }
    ensures idle { result ≡ NOTHING → IsIdle (seen_in queues.now) }
    ensures waits { result ≡ OK → IsIdle (seen_in queues.now) → ⊥ }
    ensures picked { result ≡ OK → IsShown queues.now × (option_map (cut limit) (pick_of (kept_of state.old) (seen_in queues.now)) ≡ Some (pick_of_fields pick.new)) }
    ensures fits { result ≡ OK → pick.new.fresh ≤ 1 }
    ensures lawful { result ≡ OK → (mechanism : Mechanism) (first : ArbitrationFields) (past : History) → StandsAt mechanism first past (kept_of state.old) → limited_pick limit mechanism first past (seen_in queues.now) ≡ Some (pick_of_fields pick.new) }
    ensures stands { result ≡ OK → (mechanism : Mechanism) (first : ArbitrationFields) (past : History) → StandsAt mechanism first past (kept_of state.old) → StandsAt mechanism first (Picked (seen_in queues.now) (pick_of_fields pick.new) ∷ past) (kept_of state.new) }
    ensures keeps { result ≡ OK → kept_of state.new ≡ kept_after (kept_of state.old).mechanism (kept_of state.old) (class_in (seen_in queues.now) pick.new.qid) (pick_of_fields pick.new) }
    ensures kept { result ≡ OK → IsTrue (is_arbiter state.new) }
    ensures unchanged { result ≢ OK → (state.new ≡ state.old) × (pick.new ≡ pick.old) }
{
    if !state.is_arbiter() {
        return BAD_STATE;
    }
    if limit == 0 {
        return BAD_ARGUMENT;
    }
    if !are_shown(queues) {
        return BAD_ARGUMENT;
    }
    match state.pick_up_to(&Shown { queues }, limit) {
        Some(it) => {
            *pick = fields_of_pick(it);
            OK
        }
        None => NOTHING,
    }
}

/// The mechanism with this number: 1 is round robin, 2 is weighted round robin with urgent priority class.
pub fn mechanism_with(number: u32) -> Option<Mechanism>
    ensures none { IsNone result ↔ ((number ≢ 1) × (number ≢ 2)) }
    ensures some { IfSome result (λ mechanism. mechanism ≡ mechanism_of number) }
{
    match number {
        1 => Some(Mechanism::RoundRobin),
        2 => Some(Mechanism::Weighted),
        _ => None,
    }
}

/// Makes an arbiter that has picked nothing yet, at the start of a round. The mechanism is 1, round robin, or 2,
/// weighted round robin with urgent priority class.
#[unsafe(no_mangle)]
pub extern "C" fn nvmearb_arbiter_init(state: &mut ArbiterFields, mechanism: u32, cdw11: u32) -> u32
    ensures refused { (result ≡ BAD_ARGUMENT) ↔ ((mechanism ≢ 1) × (mechanism ≢ 2)) }
    ensures answer { (result ≡ OK) ⊎ (result ≡ BAD_ARGUMENT) }
    ensures stands { result ≡ OK → StandsAt (mechanism_of mechanism) (settings_of cdw11) [] (kept_of state.new) }
    ensures keeps { result ≡ OK → kept_of state.new ≡ first_kept (mechanism_of mechanism) (settings_of cdw11) }
    ensures kept { result ≡ OK → IsTrue (is_arbiter state.new) }
    ensures unchanged { result ≢ OK → state.new ≡ state.old }
{
    let Some(mechanism) = mechanism_with(mechanism) else {
        return BAD_ARGUMENT;
    };
    *state = ArbiterFields::new(mechanism, Settings::from_cdw11(cdw11));
    OK
}

/// Sets the settings from a CDW11 of the Arbitration feature. A new round starts. The arbiter still knows which queues
/// it served last.
#[unsafe(no_mangle)]
pub extern "C" fn nvmearb_arbiter_set(state: &mut ArbiterFields, cdw11: u32) -> u32
    ensures bad_state { (result ≡ BAD_STATE) ↔ IsFalse (is_arbiter state.old) }
    ensures answer { (result ≡ OK) ⊎ (result ≡ BAD_STATE) }
    ensures stands { result ≡ OK → (mechanism : Mechanism) (first : ArbitrationFields) (past : History) → StandsAt mechanism first past (kept_of state.old) → StandsAt mechanism first (Changed (settings_of cdw11) ∷ past) (kept_of state.new) }
    ensures keeps { result ≡ OK → kept_of state.new ≡ record (kept_of state.old) { settings = settings_of cdw11; used = nothing_used } }
    ensures kept { result ≡ OK → IsTrue (is_arbiter state.new) }
    ensures unchanged { result ≢ OK → state.new ≡ state.old }
{
    if !state.is_arbiter() {
        return BAD_STATE;
    }
    state.set(Settings::from_cdw11(cdw11));
    OK
}
