// The making of a controller, and its regions.
//
// Decided: ring memory is taken at any time, since hosts may come at any time. Only where a Create named it before
// nothing is said of the account (`late`).
ghost use Rattle.std.specs.Prelude.{◌≡◌, ℕ, ◌<◌, ◌^◌, length, false, List, OnOk, IfOk, IfErr, slice_set, replicate, Some, None, [], IsTrue};
ghost use Rattle.nvme_arbiter.specs.Limits.{queue_limit};
ghost use Rattle.nvme_arbiter.specs.Board.{BoardStandsAt};
ghost use Rattle.nvme_arbiter.specs.Layout.{is_arbiter, board_of};
ghost use Rattle.nvme_arbiter.specs.declared.settings.Class.TheVariants.{Admin};
ghost use Rattle.nvme_admin.specs.Accepted.{queue_table};
ghost use Rattle.nvme_placing.specs.Telling.{Tells};
ghost use Rattle.nvme_log.specs.Rules.{FrontRules, upto};
ghost use Rattle.nvme_ctrl.specs.Standing.{Stands};
ghost use Rattle.nvme_ctrl.specs.Calls.{depths_of};
ghost use Rattle.nvme_ctrl_log.specs.Calls.{equal_depths};
ghost use Rattle.nvme_slots.specs.Generations.{SameGenerations};
ghost use Rattle.nvme_ctrl.specs.Own.{no_own, own_of};
ghost use Rattle.nvme_ctrl_log.specs.First.{IsFirst};
ghost use Rattle.nvme_ctrl_log.specs.Making.{first_regions, admin_fault};
ghost use Rattle.nvme_slots.specs.Pool.{IsChain, slot_at};
ghost use Rattle.nvme_slots.specs.Rings.{first_ring};
ghost use Rattle.nvme_ctrl.specs.kept.State.{no_sq_state, no_cq_state};

use crate::own::OwnCommands;
use crate::state::{Controller, CqState, SqState};
use nvme_admin::{AdminError, Limits, MAX_REGIONS, Region};
use nvme_arbiter::{BoardFields, Class, Mechanism, Settings};
use nvme_placing::{PlacedTable, Placement};
use nvme_slots::chain::Chain;
use nvme_slots::ring::Ring;
use nvme_slots::slot::{Slot, put_item, slot_at};

impl Controller {
    ghost use Rattle.std.specs.Prelude.{◌≡◌, ℕ, ◌<◌, ◌^◌, ◌&&◌, true, false, Bool, List, [], ◌∷◌, length, OnOk, IfOk, OnErr, IfErr, Some, None};
    ghost use Rattle.nvme_admin.specs.History.{Submission, Completion};
    ghost use Rattle.nvme_log.specs.Rules.{FrontRules, sq_regions_of, cq_regions_of};
    ghost use Rattle.nvme_ctrl_log.specs.Notes.{Notes};
    ghost use Rattle.nvme_ctrl.specs.Standing.{Stands, IsController};
    ghost use Rattle.nvme_ctrl.specs.Calls.{depths_of};
    ghost use Rattle.nvme_ctrl_log.specs.Calls.{equal_depths};
    ghost use Rattle.nvme_slots.specs.Generations.{SameGenerations};
    ghost use Rattle.nvme_ctrl.specs.Own.{no_own, own_of, with_opcode, with_feature};
    ghost use Rattle.nvme_placing.specs.Telling.{placing_by, is_ring_size};
    ghost use Rattle.nvme_admin.specs.declared.region.AdminError.TheVariants.{Size};
    ghost use Rattle.nvme_ctrl_log.specs.Making.{first_rules, anywhere_rules, with_region, is_late, admin_fault, adding_fault};
    ghost use Rattle.nvme_slots.specs.declared.slot.Slot.{Slot};

    /// A controller with its admin regions alone, region 0 of each kind, and with all slots of the pool free. The admin
    /// queues are open then. At most `depth` commands of each submission queue hold a slot (`set_depth`). Refused where both
    /// regions have one address, or one has a number of slots outside its limits. The pool is left then. (Base Specification,
    /// Controller Initialization: the admin queues are there before the controller is enabled)
    pub fn new(
        mechanism: Mechanism,
        settings: Settings,
        limits: Limits,
        depth: u16,
        sq: Region,
        cq: Region,
        slots: &mut [Slot],
    ) -> Result<Controller, AdminError>
        requires few { length slots.old < 2 ^ 16 }
        ensures refused { IfErr result (λ e. admin_fault sq cq ≡ Some e) }
        ensures made { OnOk result (admin_fault sq cq ≡ None) }
        ensures unchanged { OnErr result (slots.new ≡ slots.old) }
        ensures front { IfOk result (λ c. IsController c slots.new) }
        ensures stands { (sizes : List ℕ) → IfOk result (λ c. Stands (first_rules mechanism settings limits sq cq sizes) false [] c slots.new) }
        ensures depths { IfOk result (λ c. depths_of c ≡ equal_depths depth) }
        ensures own { IfOk result (λ c. own_of c ≡ no_own) }
        ensures size { length slots.new ≡ length slots.old }
        ensures generations { SameGenerations slots.old slots.new }
    {
        let table = first_table(settings, limits, sq, cq)?;
        Ok(first_controller(table, mechanism, settings, depth, sq.slots, cq.slots, slots))
    }

    /// A controller whose queues may lie anywhere in memory, as `new` makes one whose queues lie on regions: a Create names
    /// any address that is a multiple of the page, and the memory of a queue may be used again after its deletion. A Create
    /// is refused whose QSIZE is above MQES (1/02), whose PRP1 isn't a multiple of the page (0/13), and of a completion
    /// queue whose interrupt vector isn't below their number (1/08), in this order and before all other checks but that of
    /// FUSE. Refused where a number of slots of the admin queues is outside its limits. The pool is left then. (Base
    /// Specification, Controller Capabilities, MQES, Create I/O Completion Queue, Create I/O Submission Queue; profile)
    pub fn anywhere(
        mechanism: Mechanism,
        settings: Settings,
        limits: Limits,
        placement: Placement,
        depth: u16,
        sq: Region,
        cq: Region,
        slots: &mut [Slot],
    ) -> Result<Controller, AdminError>
        requires few { length slots.old < 2 ^ 16 }
        ensures refused { IfErr result (λ e. (e ≡ Size) × ((is_ring_size sq.slots && is_ring_size cq.slots) ≡ false)) }
        ensures made { OnOk result ((is_ring_size sq.slots && is_ring_size cq.slots) ≡ true) }
        ensures unchanged { OnErr result (slots.new ≡ slots.old) }
        ensures front { IfOk result (λ c. IsController c slots.new) }
        ensures stands { (sizes : List ℕ) → IfOk result (λ c. Stands (anywhere_rules mechanism settings limits (placing_by placement) sq cq sizes) false [] c slots.new) }
        ensures depths { IfOk result (λ c. depths_of c ≡ equal_depths depth) }
        ensures own { IfOk result (λ c. own_of c ≡ no_own) }
        ensures size { length slots.new ≡ length slots.old }
        ensures generations { SameGenerations slots.old slots.new }
    {
        let table = PlacedTable::anywhere(limits, settings, placement, sq.slots, cq.slots)?;
        Ok(first_controller(table, mechanism, settings, depth, sq.slots, cq.slots, slots))
    }

    /// Makes the controller anew, as `new` does, with all slots of the pool free: nothing is left of its queues and commands.
    /// Refused as `new` refuses. A refusal changes nothing. (Base Specification, Controller Reset)
    pub fn reset(
        &mut self,
        mechanism: Mechanism,
        settings: Settings,
        limits: Limits,
        depth: u16,
        sq: Region,
        cq: Region,
        slots: &mut [Slot],
    ) -> Result<(), AdminError>
        requires few { length slots.old < 2 ^ 16 }
        ensures refused { IfErr result (λ e. admin_fault sq cq ≡ Some e) }
        ensures made { OnOk result (admin_fault sq cq ≡ None) }
        ensures unchanged { OnErr result ((self.new ≡ self.old) × (slots.new ≡ slots.old)) }
        ensures front { OnOk result (IsController self.new slots.new) }
        ensures stands { (sizes : List ℕ) → OnOk result (Stands (first_rules mechanism settings limits sq cq sizes) false [] self.new slots.new) }
        ensures depths { OnOk result (depths_of self.new ≡ equal_depths depth) }
        ensures own { OnOk result (own_of self.new ≡ no_own) }
        ensures size { length slots.new ≡ length slots.old }
        ensures generations { SameGenerations slots.old slots.new }
    {
        *self = Controller::new(mechanism, settings, limits, depth, sq, cq, slots)?;
        Ok(())
    }

    /// From now on the admin commands of an opcode are the device's: they are picked in their turn, and the device takes
    /// and answers them as it does commands of I/O queues, at any later time. A fused one isn't, and an opcode of the
    /// controller's own stays the controller's, but for Abort (08h): of those the device's are all that name no command
    /// that waits. It finds the tag of a command by `named`, and answers with bit 0 of Dword 0 clear where it
    /// aborted the command, or with Abort Command Limit Exceeded (1/03). The device checks PSDT itself. (Base
    /// Specification, Opcodes for Admin Commands, Abort)
    pub fn own_opcode(&mut self, opcode: u8)
        ensures own { own_of self.new ≡ with_opcode opcode (own_of self.old) }
        ensures depths { depths_of self.new ≡ depths_of self.old }
        ensures front { (pool : List Slot) → IsController self.old pool → IsController self.new pool }
        ensures stands { (rules : FrontRules) (late : Bool) (notes : Notes) (pool : List Slot) → Stands rules late notes self.old pool → Stands rules late notes self.new pool }
    {
        self.own.add_opcode(opcode);
    }

    /// From now on Set Features and Get Features of a feature identifier are the device's, as those of an opcode are by
    /// `own_opcode`. Of Arbitration and Number of Queues just a Get Features is that selects another value than the
    /// current one. (Base Specification, Set Features, Get Features, Select)
    pub fn own_feature(&mut self, fid: u8)
        ensures own { own_of self.new ≡ with_feature fid (own_of self.old) }
        ensures depths { depths_of self.new ≡ depths_of self.old }
        ensures front { (pool : List Slot) → IsController self.old pool → IsController self.new pool }
        ensures stands { (rules : FrontRules) (late : Bool) (notes : Notes) (pool : List Slot) → Stands rules late notes self.old pool → Stands rules late notes self.new pool }
    {
        self.own.add_feature(fid);
    }

    /// Adds a submission region of `slots` slots, and answers its number, which counts from 0 in the order of adding. It may
    /// be added at any time, as when the Create that names its address is fetched: the log stays an account, where no Create
    /// that was picked before named the address. Refused where its address is that of another region, where there are
    /// `MAX_REGIONS` of its kind, and where the number of slots is outside its limits, in this order. A refusal changes
    /// nothing. Where queues may lie anywhere, all are refused with `TooMany`. (profile)
    pub fn add_sq_region(&mut self, address: u64, slots: u16) -> Result<u8, AdminError>
        ensures unchanged { OnErr result (self.new ≡ self.old) }
        ensures depths { depths_of self.new ≡ depths_of self.old }
        ensures own { own_of self.new ≡ own_of self.old }
        ensures front { (pool : List Slot) → IsController self.old pool → IsController self.new pool }
        ensures refused { (rules : FrontRules) (late : Bool) (notes : Notes) (pool : List Slot) → Stands rules late notes self.old pool → IfErr result (λ e. adding_fault Submission address slots rules ≡ Some e) }
        ensures added { (rules : FrontRules) (late : Bool) (notes : Notes) (pool : List Slot) → Stands rules late notes self.old pool → OnOk result (adding_fault Submission address slots rules ≡ None) }
        ensures number { (rules : FrontRules) (late : Bool) (notes : Notes) (pool : List Slot) → Stands rules late notes self.old pool → IfOk result (λ r. r ≡ length (sq_regions_of rules)) }
        ensures stands { (rules : FrontRules) (late : Bool) (notes : Notes) (pool : List Slot) → Stands rules late notes self.old pool → IfOk result (λ r. Stands (with_region Submission address slots rules) (is_late rules late notes address) notes self.new pool) }
    {
        self.table.add_sq_region(address, slots)
    }

    /// Adds a completion region, as `add_sq_region` adds a submission region: at any time, with the same refusals. The log
    /// stays an account under the same condition.
    pub fn add_cq_region(&mut self, address: u64, slots: u16) -> Result<u8, AdminError>
        ensures unchanged { OnErr result (self.new ≡ self.old) }
        ensures depths { depths_of self.new ≡ depths_of self.old }
        ensures own { own_of self.new ≡ own_of self.old }
        ensures front { (pool : List Slot) → IsController self.old pool → IsController self.new pool }
        ensures refused { (rules : FrontRules) (late : Bool) (notes : Notes) (pool : List Slot) → Stands rules late notes self.old pool → IfErr result (λ e. adding_fault Completion address slots rules ≡ Some e) }
        ensures added { (rules : FrontRules) (late : Bool) (notes : Notes) (pool : List Slot) → Stands rules late notes self.old pool → OnOk result (adding_fault Completion address slots rules ≡ None) }
        ensures number { (rules : FrontRules) (late : Bool) (notes : Notes) (pool : List Slot) → Stands rules late notes self.old pool → IfOk result (λ r. r ≡ length (cq_regions_of rules)) }
        ensures stands { (rules : FrontRules) (late : Bool) (notes : Notes) (pool : List Slot) → Stands rules late notes self.old pool → IfOk result (λ r. Stands (with_region Completion address slots rules) (is_late rules late notes address) notes self.new pool) }
    {
        self.table.add_cq_region(address, slots)
    }
}

// A controller with this table, in which the admin queues of these numbers of slots are open and no other. All slots are
// free.
fn first_controller(
    table: PlacedTable,
    mechanism: Mechanism,
    settings: Settings,
    depth: u16,
    sq_slots: u16,
    cq_slots: u16,
    slots: &mut [Slot],
) -> Controller
    requires few { length slots.old < 2 ^ 16 }
    requires some_sq { 0 < sq_slots }
    requires some_cq { 0 < cq_slots }
    ensures stands { (rules : FrontRules) → IsFirst rules mechanism settings table sq_slots cq_slots → Stands rules false [] result slots.new }
    ensures depths { depths_of result ≡ equal_depths depth }
    ensures own { own_of result ≡ no_own }
    ensures size { length slots.new ≡ length slots.old }
    ensures generations { SameGenerations slots.old slots.new }
{
    Controller {
        table,
        board: first_board(mechanism, settings),
        sqs: first_sqs(sq_slots),
        cqs: first_cqs(cq_slots),
        free: all_free(slots),
        depths: [depth; MAX_REGIONS],
        outstanding: 0,
        picked: 0,
        picked_qid: 0,
        pending_deletions: 0,
        own: OwnCommands::none(),
        rung: 0,
        readied: 0,
    }
}

// The table with the admin regions, on which queues are to lie.
fn first_table(
    settings: Settings,
    limits: Limits,
    sq: Region,
    cq: Region,
) -> Result<PlacedTable, AdminError>
    ensures refused { IfErr result (λ e. admin_fault sq cq ≡ Some e) }
    ensures made { OnOk result (admin_fault sq cq ≡ None) }
    ensures tells { IfOk result (λ t. Tells t (queue_table (record { nsq = limits.nsq; ncq = limits.ncq; settings = settings }) (first_regions sq cq))) }
{
    let mut table = PlacedTable::on_regions(limits, settings);
    table.add_sq_region(sq.address, sq.slots)?;
    table.add_cq_region(cq.address, cq.slots)?;
    Ok(table)
}

// The board on which the admin queue is open.
fn first_board(mechanism: Mechanism, settings: Settings) -> BoardFields
    ensures stands { BoardStandsAt mechanism settings [] (board_of result) }
    ensures queues { (board_of result).queues ≡ slice_set (replicate queue_limit None) 0 (Some (record { class = Admin; count = 0 })) }
    ensures is_arbiter { IsTrue (is_arbiter result.arbiter) }
{
    let mut board = BoardFields::new(mechanism, settings);
    board.open(0, Class::Admin);
    board
}

// The states of the submission queues, of which the admin queue is open.
fn first_sqs(slots: u16) -> [SqState; MAX_REGIONS]
    requires { 0 < slots }
    ensures { result ≡ slice_set (replicate 65 no_sq_state) 0 (record no_sq_state { ring = first_ring slots }) }
{
    let mut sqs = [SqState::none(); MAX_REGIONS];
    sqs[0].ring = Ring::new(slots);
    sqs
}

// The states of the completion queues, of which the admin queue is open.
fn first_cqs(slots: u16) -> [CqState; MAX_REGIONS]
    requires { 0 < slots }
    ensures { result ≡ slice_set (replicate 65 no_cq_state) 0 (record no_cq_state { ring = first_ring slots }) }
{
    let mut cqs = [CqState::none(); MAX_REGIONS];
    cqs[0].ring = Ring::new(slots);
    cqs
}

// Makes all slots free, and a chain of them. Their generations go on.
fn all_free(slots: &mut [Slot]) -> Chain
    requires few { length slots.old < 2 ^ 16 }
    ensures chain { IsChain slots.new result (upto (length slots.old)) }
    ensures free { (x : ℕ) → (slot_at slots.new x).state ≡ 0 }
    ensures size { length slots.new ≡ length slots.old }
    ensures generations { SameGenerations slots.old slots.new }
{
    let mut free = Chain::new();
    for x in 0..slots.len() {
        let generation = slot_at(slots, x as u16).generation;
        put_item(
            slots,
            x as u16,
            Slot {
                generation,
                ..Slot::free()
            },
        );
        free.push(slots, x as u16);
    }
    free
}
