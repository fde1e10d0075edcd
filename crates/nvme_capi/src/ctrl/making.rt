// The making of a controller of C, and its regions.
ghost use Rattle.std.specs.Prelude.{◌≡◌, ◌≢◌, ◌⊎◌, ◌↔◌, ◌&&◌, ℕ, Bool, true, false, List, length, slice_set, Some, None, IsNone, IfSome, IsTrue, IsFalse};
ghost use Rattle.nvme_admin.specs.History.{Submission, Completion};
ghost use Rattle.nvme_admin.specs.declared.region.AdminError.TheVariants.{Used, TooMany, Size};
ghost use Rattle.nvme_log.specs.Rules.{FrontRules, sq_regions_of, cq_regions_of};
ghost use Rattle.nvme_slots.specs.Generations.{SameGenerations};
ghost use Rattle.nvme_ctrl.specs.Own.{own_of, no_own, with_opcode, with_feature};
ghost use Rattle.nvme_ctrl_log.specs.Notes.{Notes};
ghost use Rattle.nvme_ctrl.specs.Standing.{Stands, IsController};
ghost use Rattle.nvme_ctrl.specs.Calls.{depths_of};
ghost use Rattle.nvme_ctrl_log.specs.Calls.{equal_depths};
ghost use Rattle.nvme_ctrl_log.specs.Making.{admin_fault, adding_fault, with_region, is_late};
ghost use Rattle.nvme_slots.specs.declared.slot.Slot.{Slot};
ghost use Rattle.nvme_capi.specs.Controllers.{is_ctrl, has_depths, is_config, is_placement, IsMadeOf, IsMadeAnywhereOf, IsKept, StaysMade};
ghost use Rattle.nvme_placing.specs.Telling.{is_ring_size};

use crate::arbiter::mechanism_with;
use crate::ctrl::state::{ConfigFields, CtrlState, MARK, PlacementFields, is_ctrl, is_depth};
use crate::results::{BAD_ARGUMENT, BAD_SIZE, BAD_STATE, OK, TOO_MANY, USED};
use crate::table::{is_limit, refusal};
use nvme_admin::{Limits, MAX_QSIZE};
use nvme_arbiter::Settings;
use nvme_ctrl::{Controller, Slot};
use nvme_placing::Placement;

// Whether the depths of a configuration are in their ranges.
fn has_depths(config: &ConfigFields) -> bool
    ensures { result ≡ has_depths config.now }
{
    is_depth(config.depth) && is_depth(config.admin_depth)
}

// Whether the numbers of a configuration are in their ranges, and so many slots can be a pool.
fn is_config(config: &ConfigFields, count: usize) -> bool
    ensures { result ≡ is_config config.now count }
{
    is_limit(config.nsq)
        && is_limit(config.ncq)
        && has_depths(config)
        && count > 0
        && count < 65_536
}

/// Makes a controller with its admin regions alone, whose queues are open, and frees all slots.
#[unsafe(no_mangle)]
pub extern "C" fn nvmearb_ctrl_init(
    state: &mut CtrlState,
    slots: &mut [Slot],
    config: &ConfigFields,
) -> u32
    ensures refused { (result ≡ BAD_ARGUMENT) ↔ (IsFalse (is_config config.now (length slots.old)) ⊎ ((config.now.mechanism ≢ 1) × (config.now.mechanism ≢ 2))) }
    ensures answer { (result ≡ OK) ⊎ ((result ≡ BAD_ARGUMENT) ⊎ ((result ≡ USED) ⊎ ((result ≡ TOO_MANY) ⊎ (result ≡ BAD_SIZE)))) }
    ensures used { result ≡ USED → admin_fault config.now.asq config.now.acq ≡ Some Used }
    ensures too_many { result ≡ TOO_MANY → admin_fault config.now.asq config.now.acq ≡ Some TooMany }
    ensures size { result ≡ BAD_SIZE → admin_fault config.now.asq config.now.acq ≡ Some Size }
    ensures made { result ≡ OK → admin_fault config.now.asq config.now.acq ≡ None }
    ensures stands { result ≡ OK → (sizes : List ℕ) → IsMadeOf config.now sizes state.new.ctrl slots.new }
    ensures depths { result ≡ OK → depths_of state.new.ctrl ≡ slice_set (equal_depths config.now.depth) 0 config.now.admin_depth }
    ensures own { result ≡ OK → own_of state.new.ctrl ≡ no_own }
    ensures front { result ≡ OK → IsController state.new.ctrl slots.new }
    ensures ctrl { result ≡ OK → IsTrue (is_ctrl state.new) }
    ensures count { result ≡ OK → state.new.count ≡ length slots.new }
    ensures generations { SameGenerations slots.old slots.new }
    ensures unchanged { result ≢ OK → (state.new ≡ state.old) × (slots.new ≡ slots.old) }
{
    let Some(mechanism) = mechanism_with(config.mechanism) else {
        return BAD_ARGUMENT;
    };
    let count = slots.len();
    if !is_config(config, count) {
        return BAD_ARGUMENT;
    }
    let limits = Limits {
        nsq: config.nsq,
        ncq: config.ncq,
    };
    match Controller::new(
        mechanism,
        Settings::from_cdw11(config.cdw11),
        limits,
        config.depth,
        config.asq,
        config.acq,
        slots,
    ) {
        Ok(mut ctrl) => {
            ctrl.set_depth(0, config.admin_depth);
            *state = CtrlState {
                mark: MARK,
                count,
                ctrl,
            };
            OK
        }
        Err(error) => refusal(error),
    }
}

// Whether what a Create may ask for is in its ranges.
fn is_placement(placement: &PlacementFields) -> bool
    ensures { result ≡ is_placement placement.now }
{
    placement.page.is_power_of_two()
        && placement.mqes >= 1
        && placement.mqes <= MAX_QSIZE
        && placement.vectors >= 1
}

// What a Create may ask for, where that is in its ranges.
fn placement_of(placement: &PlacementFields) -> Option<Placement>
    ensures some { IfSome result (λ p. (p.page ≡ placement.now.page) × ((p.mqes ≡ placement.now.mqes) × (p.vectors ≡ placement.now.vectors))) }
    ensures none { IsNone result ↔ IsFalse (is_placement placement.now) }
{
    if !is_placement(placement) {
        return None;
    }
    Some(Placement {
        page: placement.page,
        mqes: placement.mqes,
        vectors: placement.vectors,
    })
}

/// Makes a controller as `nvmearb_ctrl_init` makes one, but whose queues may lie anywhere in memory.
#[unsafe(no_mangle)]
pub extern "C" fn nvmearb_ctrl_init_anywhere(
    state: &mut CtrlState,
    slots: &mut [Slot],
    config: &ConfigFields,
    placement: &PlacementFields,
) -> u32
    ensures refused { (result ≡ BAD_ARGUMENT) ↔ (IsFalse (is_config config.now (length slots.old)) ⊎ (((config.now.mechanism ≢ 1) × (config.now.mechanism ≢ 2)) ⊎ IsFalse (is_placement placement.now))) }
    ensures answer { (result ≡ OK) ⊎ ((result ≡ BAD_ARGUMENT) ⊎ (result ≡ BAD_SIZE)) }
    ensures size { result ≡ BAD_SIZE → (is_ring_size config.now.asq.slots && is_ring_size config.now.acq.slots) ≡ false }
    ensures made { result ≡ OK → (is_ring_size config.now.asq.slots && is_ring_size config.now.acq.slots) ≡ true }
    ensures stands { result ≡ OK → (sizes : List ℕ) → IsMadeAnywhereOf config.now placement.now sizes state.new.ctrl slots.new }
    ensures depths { result ≡ OK → depths_of state.new.ctrl ≡ slice_set (equal_depths config.now.depth) 0 config.now.admin_depth }
    ensures own { result ≡ OK → own_of state.new.ctrl ≡ no_own }
    ensures front { result ≡ OK → IsController state.new.ctrl slots.new }
    ensures ctrl { result ≡ OK → IsTrue (is_ctrl state.new) }
    ensures count { result ≡ OK → state.new.count ≡ length slots.new }
    ensures generations { SameGenerations slots.old slots.new }
    ensures unchanged { result ≢ OK → (state.new ≡ state.old) × (slots.new ≡ slots.old) }
{
    let Some(mechanism) = mechanism_with(config.mechanism) else {
        return BAD_ARGUMENT;
    };
    let Some(placement) = placement_of(placement) else {
        return BAD_ARGUMENT;
    };
    let count = slots.len();
    if !is_config(config, count) {
        return BAD_ARGUMENT;
    }
    let limits = Limits {
        nsq: config.nsq,
        ncq: config.ncq,
    };
    match Controller::anywhere(
        mechanism,
        Settings::from_cdw11(config.cdw11),
        limits,
        placement,
        config.depth,
        config.asq,
        config.acq,
        slots,
    ) {
        Ok(mut ctrl) => {
            ctrl.set_depth(0, config.admin_depth);
            *state = CtrlState {
                mark: MARK,
                count,
                ctrl,
            };
            OK
        }
        Err(_) => BAD_SIZE,
    }
}

/// Adds a submission region, and writes its number, which counts from 0. Region 0 is the admin queue's. It may be added at
/// any time: the log stays an account, where no Create that was picked before named the address. Refused as
/// `nvmearb_table_add_sq_region` refuses, and as too many where queues may lie anywhere.
#[unsafe(no_mangle)]
pub extern "C" fn nvmearb_ctrl_add_sq_region(
    state: &mut CtrlState,
    address: u64,
    slots: u16,
    number: &mut u16,
) -> u32
    ensures bad_state { (result ≡ BAD_STATE) ↔ IsFalse (is_ctrl state.old) }
    ensures answer { (result ≡ OK) ⊎ ((result ≡ BAD_STATE) ⊎ ((result ≡ USED) ⊎ ((result ≡ TOO_MANY) ⊎ (result ≡ BAD_SIZE)))) }
    ensures used { (rules : FrontRules) (late : Bool) (notes : Notes) (pool : List Slot) → Stands rules late notes state.old.ctrl pool → result ≡ USED → adding_fault Submission address slots rules ≡ Some Used }
    ensures too_many { (rules : FrontRules) (late : Bool) (notes : Notes) (pool : List Slot) → Stands rules late notes state.old.ctrl pool → result ≡ TOO_MANY → adding_fault Submission address slots rules ≡ Some TooMany }
    ensures size { (rules : FrontRules) (late : Bool) (notes : Notes) (pool : List Slot) → Stands rules late notes state.old.ctrl pool → result ≡ BAD_SIZE → adding_fault Submission address slots rules ≡ Some Size }
    ensures added { (rules : FrontRules) (late : Bool) (notes : Notes) (pool : List Slot) → Stands rules late notes state.old.ctrl pool → result ≡ OK → adding_fault Submission address slots rules ≡ None }
    ensures number { (rules : FrontRules) (late : Bool) (notes : Notes) (pool : List Slot) → Stands rules late notes state.old.ctrl pool → result ≡ OK → number.new ≡ length (sq_regions_of rules) }
    ensures stands { (rules : FrontRules) (late : Bool) (notes : Notes) (pool : List Slot) → Stands rules late notes state.old.ctrl pool → result ≡ OK → Stands (with_region Submission address slots rules) (is_late rules late notes address) notes state.new.ctrl pool }
    ensures depths { depths_of state.new.ctrl ≡ depths_of state.old.ctrl }
    ensures own { own_of state.new.ctrl ≡ own_of state.old.ctrl }
    ensures same { StaysMade state.old state.new }
    ensures kept { (pool : List Slot) → IsKept state.old pool → IsKept state.new pool }
    ensures unchanged { result ≢ OK → (state.new ≡ state.old) × (number.new ≡ number.old) }
{
    if !is_ctrl(state) {
        return BAD_STATE;
    }
    match state.ctrl.add_sq_region(address, slots) {
        Ok(added) => {
            *number = u16::from(added);
            OK
        }
        Err(error) => refusal(error),
    }
}

/// Adds a completion region, as `nvmearb_ctrl_add_sq_region` adds a submission region.
#[unsafe(no_mangle)]
pub extern "C" fn nvmearb_ctrl_add_cq_region(
    state: &mut CtrlState,
    address: u64,
    slots: u16,
    number: &mut u16,
) -> u32
    ensures bad_state { (result ≡ BAD_STATE) ↔ IsFalse (is_ctrl state.old) }
    ensures answer { (result ≡ OK) ⊎ ((result ≡ BAD_STATE) ⊎ ((result ≡ USED) ⊎ ((result ≡ TOO_MANY) ⊎ (result ≡ BAD_SIZE)))) }
    ensures used { (rules : FrontRules) (late : Bool) (notes : Notes) (pool : List Slot) → Stands rules late notes state.old.ctrl pool → result ≡ USED → adding_fault Completion address slots rules ≡ Some Used }
    ensures too_many { (rules : FrontRules) (late : Bool) (notes : Notes) (pool : List Slot) → Stands rules late notes state.old.ctrl pool → result ≡ TOO_MANY → adding_fault Completion address slots rules ≡ Some TooMany }
    ensures size { (rules : FrontRules) (late : Bool) (notes : Notes) (pool : List Slot) → Stands rules late notes state.old.ctrl pool → result ≡ BAD_SIZE → adding_fault Completion address slots rules ≡ Some Size }
    ensures added { (rules : FrontRules) (late : Bool) (notes : Notes) (pool : List Slot) → Stands rules late notes state.old.ctrl pool → result ≡ OK → adding_fault Completion address slots rules ≡ None }
    ensures number { (rules : FrontRules) (late : Bool) (notes : Notes) (pool : List Slot) → Stands rules late notes state.old.ctrl pool → result ≡ OK → number.new ≡ length (cq_regions_of rules) }
    ensures stands { (rules : FrontRules) (late : Bool) (notes : Notes) (pool : List Slot) → Stands rules late notes state.old.ctrl pool → result ≡ OK → Stands (with_region Completion address slots rules) (is_late rules late notes address) notes state.new.ctrl pool }
    ensures depths { depths_of state.new.ctrl ≡ depths_of state.old.ctrl }
    ensures own { own_of state.new.ctrl ≡ own_of state.old.ctrl }
    ensures same { StaysMade state.old state.new }
    ensures kept { (pool : List Slot) → IsKept state.old pool → IsKept state.new pool }
    ensures unchanged { result ≢ OK → (state.new ≡ state.old) × (number.new ≡ number.old) }
{
    if !is_ctrl(state) {
        return BAD_STATE;
    }
    match state.ctrl.add_cq_region(address, slots) {
        Ok(added) => {
            *number = u16::from(added);
            OK
        }
        Err(error) => refusal(error),
    }
}

/// From now on the admin commands of an opcode are the device's, but for fused ones and those of the controller's own
/// opcodes. Of Aborts (08h) those are that name no command that waits.
#[unsafe(no_mangle)]
pub extern "C" fn nvmearb_ctrl_own_opcode(state: &mut CtrlState, opcode: u8) -> u32
    ensures bad_state { (result ≡ BAD_STATE) ↔ IsFalse (is_ctrl state.old) }
    ensures answer { (result ≡ OK) ⊎ (result ≡ BAD_STATE) }
    ensures own { result ≡ OK → own_of state.new.ctrl ≡ with_opcode opcode (own_of state.old.ctrl) }
    ensures stands { (rules : FrontRules) (late : Bool) (notes : Notes) (pool : List Slot) → Stands rules late notes state.old.ctrl pool → Stands rules late notes state.new.ctrl pool }
    ensures depths { depths_of state.new.ctrl ≡ depths_of state.old.ctrl }
    ensures same { StaysMade state.old state.new }
    ensures kept { (pool : List Slot) → IsKept state.old pool → IsKept state.new pool }
    ensures unchanged { result ≢ OK → state.new ≡ state.old }
{
    if !is_ctrl(state) {
        return BAD_STATE;
    }
    state.ctrl.own_opcode(opcode);
    OK
}

/// From now on Set Features and Get Features of a feature identifier are the device's, but for fused ones. Of the
/// controller's own features just a Get Features is that selects another value than the current one.
#[unsafe(no_mangle)]
pub extern "C" fn nvmearb_ctrl_own_feature(state: &mut CtrlState, fid: u8) -> u32
    ensures bad_state { (result ≡ BAD_STATE) ↔ IsFalse (is_ctrl state.old) }
    ensures answer { (result ≡ OK) ⊎ (result ≡ BAD_STATE) }
    ensures own { result ≡ OK → own_of state.new.ctrl ≡ with_feature fid (own_of state.old.ctrl) }
    ensures stands { (rules : FrontRules) (late : Bool) (notes : Notes) (pool : List Slot) → Stands rules late notes state.old.ctrl pool → Stands rules late notes state.new.ctrl pool }
    ensures depths { depths_of state.new.ctrl ≡ depths_of state.old.ctrl }
    ensures same { StaysMade state.old state.new }
    ensures kept { (pool : List Slot) → IsKept state.old pool → IsKept state.new pool }
    ensures unchanged { result ≢ OK → state.new ≡ state.old }
{
    if !is_ctrl(state) {
        return BAD_STATE;
    }
    state.ctrl.own_feature(fid);
    OK
}
