// A controller of C, and what its calls are given and write.
ghost use Rattle.std.specs.Prelude.{◌≡◌};
ghost use Rattle.nvme_capi.specs.Controllers.{is_ctrl, is_intact, is_depth, has_slots};

use crate::answers::AnswerFields;
use crate::states::PickFields;
use crate::version::{CTRL_BYTES, INTERFACE, SLOT_BYTES};
use nvme_admin::Region;
use nvme_ctrl::{Controller, Slot};
use nvme_entry::Sqe;

/// What `nvmearb_ctrl_init` and `nvmearb_ctrl_init_anywhere` of this interface write before a controller, and nothing else
/// does.
pub const MARK: u64 = 0x6e76_6d65_6300_0000 + INTERFACE;

/// The highest depth of a submission queue.
pub const MAX_DEPTH: u16 = 4_095;

/// `nvmearb_ctrl`: a mark, and a controller with the number of its slots.
#[repr(C)]
#[derive(Drop)]
pub struct CtrlState {
    pub mark: u64,
    /// How many slots its commands are in.
    pub count: usize,
    pub ctrl: Controller,
}

const _: () = prove!(size_of::<CtrlState>() == CTRL_BYTES as usize);

const _: () = prove!(size_of::<Slot>() == SLOT_BYTES as usize);

/// `nvmearb_config`: what a controller is made with.
#[repr(C)]
#[derive(Clone, Copy, Drop)]
pub struct ConfigFields {
    /// The rings of the admin queues.
    pub asq: Region,
    pub acq: Region,
    /// 1, round robin, or 2, weighted round robin with urgent priority class.
    pub mechanism: u32,
    /// The first settings of the Arbitration feature.
    pub cdw11: u32,
    /// How many I/O queues of each kind can be allotted, 1 to 64.
    pub nsq: u16,
    pub ncq: u16,
    /// The depth of each I/O submission queue, and that of the admin queue, 1 to `MAX_DEPTH`: the most commands of a queue
    /// that hold a slot.
    pub depth: u16,
    pub admin_depth: u16,
}

/// `nvmearb_placement`: what a Create may ask for where queues may lie anywhere in memory.
#[repr(C)]
#[derive(Clone, Copy, Drop)]
pub struct PlacementFields {
    /// The memory page in bytes.
    pub page: u32,
    /// The largest QSIZE.
    pub mqes: u16,
    /// The number of interrupt vectors.
    pub vectors: u16,
}

/// `nvmearb_asked`: the memory that a Create asks for, and the interrupts of a completion queue.
#[repr(C)]
#[derive(Clone, Copy, Drop)]
pub struct AskedFields {
    pub address: u64,
    /// The number of slots less 1.
    pub qsize: u16,
    pub vector: u16,
    /// 1 or 0.
    pub interrupts: u16,
}

/// `nvmearb_step`: what a pick did. The kind is 1 where commands of an I/O queue were picked, 2 where an admin command
/// was picked and carried out, and 3 where one was passed on to the device. What a step of its kind doesn't have is 0.
#[repr(C)]
#[derive(Clone, Copy, Drop)]
pub struct StepFields {
    pub kind: u32,
    pub answer: AnswerFields,
    pub pick: PickFields,
    /// What the command asks for, if it is a Create.
    pub asked: AskedFields,
}

/// `nvmearb_command`: a command that the device has.
#[repr(C)]
#[derive(Clone, Copy, Drop)]
pub struct CommandFields {
    pub entry: Sqe,
    pub cookie: u32,
    pub tag: u32,
}

/// `nvmearb_post`: the bytes of a completion queue entry, and the slot of the ring that they go into.
#[repr(C)]
#[derive(Clone, Copy, Drop)]
pub struct PostFields {
    pub bytes: [u8; 16],
    pub cookie: u32,
    pub tag: u32,
    pub slot: u16,
}

/// Whether a controller was made here.
pub fn is_ctrl(state: &CtrlState) -> bool
    ensures { result ≡ is_ctrl state.now }
{
    state.mark == MARK
}

/// Whether a controller was made here, and what its arbitration keeps is in its ranges: all that a pick asks of it.
pub fn is_intact(state: &CtrlState) -> bool
    ensures { result ≡ is_intact state.now }
{
    is_ctrl(state) && state.ctrl.has_arbiter()
}

/// Whether a number can be the depth of a submission queue.
pub fn is_depth(depth: u16) -> bool
    ensures { result ≡ is_depth depth }
{
    depth > 0 && depth <= MAX_DEPTH
}

/// Whether these are as many slots as the controller was made with.
pub fn has_slots(state: &CtrlState, slots: &[Slot]) -> bool
    ensures { result ≡ has_slots state.now slots.now }
{
    slots.len() == state.count
}
