// The making of an engine, and its regions.
use nvme_admin::{AdminError, Limits, MAX_REGIONS, Region};
use nvme_arbiter::{HIGHEST_COUNT, Mechanism, Settings};
use nvme_ctrl::{Controller, Slot};
use nvme_log::MAX_OUTSTANDING;
use std::alloc::Global;

// As many slots for each submission region as commands of its queue may wait, and one for each place that may be
// outstanding: then one is free wherever a command may be fetched.
const POOL_SIZE: usize = MAX_REGIONS * HIGHEST_COUNT as usize + MAX_OUTSTANDING as usize;

// The depth of each queue, for which no fetch waits: fewer commands of the queue wait then than arbitration counts, and no
// more are unposted than may be outstanding.
const QUEUE_DEPTH: u16 = HIGHEST_COUNT + MAX_OUTSTANDING;

// The regions of a controller that waits for its own.
const NO_SQ: Region = Region {
    address: 0,
    slots: 2,
};

const NO_CQ: Region = Region {
    address: 1,
    slots: 2,
};

/// A controller with the slots of its commands.
#[derive(Drop)]
pub struct Engine {
    pub(crate) controller: Controller,
    pub(crate) slots: Vec<Slot>,
    // Each open queue of either kind has an identifier below it.
    pub(crate) queues: u16,
}

impl Engine {
    ghost use Rattle.std.specs.Prelude.{◌≡◌, ◌≢◌, ℕ, ◌+◌, ◌<◌, ◌≤◌, ◌==◌, true, false, Bool, List, [], length, OnOk, IfOk, OnErr, IfErr, None, Some};
    ghost use Rattle.nvme_admin.specs.History.{Submission, Completion};
    ghost use Rattle.nvme_log.specs.Rules.{FrontRules, sq_regions_of, cq_regions_of};
    ghost use Rattle.nvme_ctrl_log.specs.Notes.{Notes, logged};
    ghost use Rattle.nvme_ctrl_log.specs.Making.{first_rules, with_region, admin_fault, adding_fault};
    ghost use Rattle.nvme_engine.specs.Standing.{StandsAt, IsEngine, HasPool};

    /// A controller that waits for its admin regions, without slots.
    pub fn new(alloc: Global, mechanism: Mechanism, settings: Settings, limits: Limits) -> Engine
        ensures { result.slots.items ≡ [] }
    {
        let Ok(controller) = Controller::new(
            mechanism,
            settings,
            limits,
            QUEUE_DEPTH,
            NO_SQ,
            NO_CQ,
            &mut [],
        ) else {
            unreachable!()
        };
        Engine {
            controller,
            slots: Vec::new(alloc),
            queues: 1,
        }
    }

    /// Makes the slots, where there are none yet. False where memory was refused; then nothing changed.
    pub fn make_room(&mut self, alloc: Global) -> bool
        ensures room { result ≡ true → HasPool self.new }
        ensures few { length self.old.slots.items < 65536 → length self.new.slots.items < 65536 }
        ensures same { HasPool self.old → (result ≡ true) × (self.new ≡ self.old) }
        ensures refused { result ≡ false → self.new ≡ self.old }
    {
        if self.slots.len() >= POOL_SIZE {
            return true;
        }
        let mut slots = Vec::new(alloc);
        if slots.resize(POOL_SIZE, Slot::free()).is_err() {
            return false;
        }
        self.slots = slots;
        true
    }

    /// Begins with the admin regions, region 0 of each kind, which have different addresses and numbers of slots within
    /// their limits. The admin queues are open then, and nothing happened yet.
    pub fn start(
        &mut self,
        mechanism: Mechanism,
        settings: Settings,
        limits: Limits,
        sq: Region,
        cq: Region,
    )
        requires room { HasPool self.old }
        requires few { length self.old.slots.items < 65536 }
        requires fit { admin_fault sq cq ≡ None }
        ensures stands { (sizes : List ℕ) → StandsAt (first_rules mechanism settings limits sq cq sizes) false [] self.new }
    {
        let Ok(controller) = Controller::new(
            mechanism,
            settings,
            limits,
            QUEUE_DEPTH,
            sq,
            cq,
            &mut self.slots,
        ) else {
            unreachable!()
        };
        self.controller = controller;
        self.queues = 1;
    }

    /// Adds a submission region, and answers its number, as `Controller::add_sq_region` does, with its refusals. A refusal
    /// changes nothing. Where an event came before, the region is late.
    pub fn add_sq(&mut self, address: u64, slots: u16) -> Result<u8, AdminError>
        ensures unchanged { OnErr result (self.new ≡ self.old) }
        ensures refused { (rules : FrontRules) (late : Bool) (notes : Notes) → StandsAt rules late notes self.old → IfErr result (λ e. adding_fault Submission address slots rules ≡ Some e) }
        ensures added { (rules : FrontRules) (late : Bool) (notes : Notes) → StandsAt rules late notes self.old → OnOk result (adding_fault Submission address slots rules ≡ None) }
        ensures number { (rules : FrontRules) (late : Bool) (notes : Notes) → StandsAt rules late notes self.old → IfOk result (λ r. r ≡ length (sq_regions_of rules)) }
        ensures in_time { (rules : FrontRules) (late : Bool) → StandsAt rules late [] self.old → OnOk result (StandsAt (with_region Submission address slots rules) late [] self.new) }
        ensures late { (rules : FrontRules) (late : Bool) (notes : Notes) → StandsAt rules late notes self.old → OnOk result (StandsAt (with_region Submission address slots rules) true notes self.new) }
    {
        self.controller.add_sq_region(address, slots)
    }

    /// Adds a completion region, as `add_sq` adds a submission region.
    pub fn add_cq(&mut self, address: u64, slots: u16) -> Result<u8, AdminError>
        ensures unchanged { OnErr result (self.new ≡ self.old) }
        ensures refused { (rules : FrontRules) (late : Bool) (notes : Notes) → StandsAt rules late notes self.old → IfErr result (λ e. adding_fault Completion address slots rules ≡ Some e) }
        ensures added { (rules : FrontRules) (late : Bool) (notes : Notes) → StandsAt rules late notes self.old → OnOk result (adding_fault Completion address slots rules ≡ None) }
        ensures number { (rules : FrontRules) (late : Bool) (notes : Notes) → StandsAt rules late notes self.old → IfOk result (λ c. c ≡ length (cq_regions_of rules)) }
        ensures in_time { (rules : FrontRules) (late : Bool) → StandsAt rules late [] self.old → OnOk result (StandsAt (with_region Completion address slots rules) late [] self.new) }
        ensures late { (rules : FrontRules) (late : Bool) (notes : Notes) → StandsAt rules late notes self.old → OnOk result (StandsAt (with_region Completion address slots rules) true notes self.new) }
    {
        self.controller.add_cq_region(address, slots)
    }
}
