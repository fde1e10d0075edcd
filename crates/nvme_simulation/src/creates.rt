// The Creates of the queues. (Base Specification, Create I/O Completion Queue, Create I/O Submission Queue)
ghost use Rattle.std.specs.Prelude.{◌≡◌, ◌≤◌, ◌<◌, ◌+◌, ◌-◌, ◌*◌, ◌^◌, [], ◌∷◌, OnOk, slice_index, true};
ghost use Rattle.nvme_admin.specs.QueueTable.{class_of};
ghost use Rattle.nvme_entry.specs.AdminCommand.{admin_command_of};
ghost use Rattle.nvme_entry.specs.declared.admin.AdminCommand.TheVariants.{CreateCq, CreateSq};
ghost use Rattle.nvme_simulation.specs.Creating.{Does, KeepsDone, creates_of, opens};
ghost use Rattle.nvme_simulation.specs.Entries.{asked_class, priority_of};
ghost use Rattle.nvme_simulation.specs.Fronts.{IsFront, StaysFront};

use crate::fault::{Broken, SimulationFault};
use crate::front::{ADMIN_SLOTS, Front};
use nvme_admin::Effect;
use nvme_arbiter::Class;
use nvme_ctrl::Step;
use nvme_entry::{Sqe, Status};

// An entry of zeros but for these fields.
pub(crate) fn entry(opcode: u8, cid: u16, nsid: u32, prp1: u64, cdws: [u32; 3]) -> Sqe
    ensures head { (result.opcode ≡ opcode) × ((result.cid ≡ cid) × (result.nsid ≡ nsid)) }
    ensures address { result.prp1 ≡ prp1 }
    ensures dwords { (result.cdw10 ≡ slice_index cdws 0) × ((result.cdw11 ≡ slice_index cdws 1) × (result.cdw12 ≡ slice_index cdws 2)) }
{
    Sqe {
        opcode,
        flags: 0,
        cid,
        nsid,
        cdw2: 0,
        cdw3: 0,
        mptr: 0,
        prp1,
        prp2: 0,
        cdw10: cdws[0],
        cdw11: cdws[1],
        cdw12: cdws[2],
        cdw13: 0,
        cdw14: 0,
        cdw15: 0,
    }
}

// QPRIO of a class.
fn qprio(class: Class) -> u32
    ensures below { result ≤ 3 }
    ensures class { class_of result ≡ asked_class class }
    ensures value { result ≡ priority_of class }
{
    match class {
        Class::High => 1,
        Class::Medium => 2,
        Class::Low => 3,
        _ => 0,
    }
}

// QSIZE and QID, of a queue of so many slots.
fn size_and_id(qid: u16, slots: u16) -> u32
    ensures { result ≡ (slots - 1) * 65_536 + qid }
{
    u32::from(slots.saturating_sub(1)) * 0x1_0000 + u32::from(qid)
}

// The entry that creates the completion queue of an identifier, where PC is set.
fn completion_queue(qid: u16, slots: u16) -> Sqe
    ensures { admin_command_of result ≡ CreateCq qid (slots - 1) (2 * qid * 4_096) true }
{
    let address = 2 * u64::from(qid) * 4_096;
    entry(0x05, qid, 0, address, [size_and_id(qid, slots), 1, 0])
}

// The entry that creates the submission queue of an identifier, whose completion queue has the same one.
fn submission_queue(qid: u16, slots: u16, class: Class) -> Sqe
    ensures { admin_command_of result ≡ CreateSq qid (slots - 1) ((2 * qid + 1) * 4_096) qid (priority_of class) true }
{
    let address = (2 * u64::from(qid) + 1) * 4_096;
    let attached = u32::from(qid) * 0x1_0000 + qprio(class) * 2 + 1;
    entry(
        0x01,
        qid,
        0,
        address,
        [size_and_id(qid, slots), attached, 0],
    )
}

// Whether an admin command opened a queue.
fn opens(effect: &Effect) -> bool
    ensures { result ≡ opens effect.now }
{
    matches!(effect, Effect::OpenCq { .. } | Effect::OpenSq { .. })
}

// Whether the command that was picked is this one, and opened a queue.
fn is_created(effect: &Effect, picked: &Sqe, command: &Sqe) -> bool
    ensures { result ≡ true → (opens effect.now ≡ true) × (picked.now ≡ command.now) }
{
    opens(effect) && *picked == *command
}

// The host of the admin queue.
#[derive(Drop)]
pub(crate) struct AdminHost {
    // How many commands it has submitted. Their slots are reused: each is completed before the next one.
    slot: u16,
}

impl AdminHost {
    pub(crate) fn new() -> AdminHost {
        AdminHost { slot: 0 }
    }

    // The admin queue has a command: the controller reads it.
    fn submit(&mut self, front: &mut Front, command: &Sqe) -> Result<(), SimulationFault>
        requires front { IsFront front.old }
        ensures front { StaysFront front.old front.new }
        ensures keeps { KeepsDone front.old front.new }
    {
        let next = if self.slot >= ADMIN_SLOTS - 1 {
            0
        } else {
            self.slot + 1
        };
        if !front.submit(0, next) {
            return Err(SimulationFault::Broken(Broken::Doorbell));
        }
        if front.next_slot(0) != Some(self.slot) {
            return Err(SimulationFault::Broken(Broken::Slot));
        }
        if !front.fetched(0, command, 0) {
            return Err(SimulationFault::Broken(Broken::Slot));
        }
        self.slot = next;
        Ok(())
    }

    // Its completion comes, which tells success.
    fn collect(&mut self, front: &mut Front) -> Result<(), SimulationFault>
        requires front { IsFront front.old }
        ensures front { StaysFront front.old front.new }
        ensures keeps { KeepsDone front.old front.new }
    {
        let Some(post) = front.post(0) else {
            return Err(SimulationFault::Broken(Broken::Completion));
        };
        if post.cqe.status != Status::SUCCESS {
            return Err(SimulationFault::Broken(Broken::Create));
        }
        if !front.read(0, self.slot) {
            return Err(SimulationFault::Broken(Broken::Doorbell));
        }
        Ok(())
    }

    // A Create is carried out.
    fn carry_out(&mut self, front: &mut Front, command: &Sqe) -> Result<(), SimulationFault>
        requires front { IsFront front.old }
        ensures front { StaysFront front.old front.new }
        ensures done { OnOk result (Does (admin_command_of command.now ∷ []) front.old front.new) }
    {
        self.submit(front, command)?;
        let Step::Done(effect, entry) = front.pick(1) else {
            return Err(SimulationFault::Broken(Broken::Create));
        };
        if !is_created(&effect, &entry, command) {
            return Err(SimulationFault::Broken(Broken::Create));
        }
        self.collect(front)
    }

    // Creates a completion queue and a submission queue of one identifier.
    pub(crate) fn create(
        &mut self,
        front: &mut Front,
        qid: u16,
        slots: u16,
        class: Class,
    ) -> Result<(), SimulationFault>
        requires front { IsFront front.old }
        ensures front { StaysFront front.old front.new }
        ensures done { OnOk result (Does (creates_of qid slots class) front.old front.new) }
    {
        self.carry_out(front, &completion_queue(qid, slots))?;
        self.carry_out(front, &submission_queue(qid, slots, class))
    }
}
