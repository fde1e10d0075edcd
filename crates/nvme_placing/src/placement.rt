ghost use Rattle.std.specs.Prelude.{◌≡◌, ◌≤◌, ◌++◌, ◌==◌, false, List, IfSome, None};
ghost use Rattle.nvme_entry.specs.Checks.{Check, first_failed};
ghost use Rattle.nvme_entry.specs.AdminCommand.{admin_command_of};
ghost use Rattle.nvme_admin.specs.Checks.{is_success, placing_rows_of};
ghost use Rattle.nvme_admin.specs.Placing.{vector_of, is_aligned};

use nvme_entry::{AdminCommand, Sqe, Status, admin_of};

/// What a Create may ask for where queues may lie anywhere in memory. (Base Specification, Controller Capabilities,
/// MQES; pages and vectors: profile)
#[derive(Clone, Copy, Debug, PartialEq, Eq)]
pub struct Placement {
    /// The memory page in bytes. PRP1 is a multiple of it.
    pub page: u32,
    /// MQES: the largest QSIZE, which is zero based.
    pub mqes: u16,
    /// The number of interrupt vectors.
    pub vectors: u16,
    pub ghost page_not_zero: { 1 ≤ page },
}

/// Generic Command Status, PRP Offset Invalid.
pub const PRP_OFFSET_INVALID: Status = Status { sct: 0, sc: 0x13 };

/// Command Specific Status, Invalid Interrupt Vector.
pub const INVALID_INTERRUPT_VECTOR: Status = Status { sct: 1, sc: 0x08 };

// The interrupt vector of a completion queue.
fn vector(entry: &Sqe) -> u16
    ensures { result ≡ vector_of entry.now }
{
    (entry.cdw11 / 0x1_0000) as u16
}

impl Placement {
    ghost use Rattle.std.specs.Prelude.{ℕ, Bool, if◌then◌else◌, not, nat_lt, ◌||◌, Some};
    ghost use Rattle.nvme_entry.specs.Status.{StatusCode, invalid_queue_size};
    ghost use Rattle.nvme_admin.specs.Placing.{prp_offset_invalid, invalid_interrupt_vector};
    ghost use Rattle.nvme_placing.specs.Telling.{placing_by};

    // Whether an address is a multiple of the page.
    fn is_page(self, address: u64) -> bool
        ensures { result ≡ is_aligned self.page address }
    {
        address % u64::from(self.page) == 0
    }

    // The status that refuses a ring of QSIZE at an address, where one does.
    fn check_ring(self, qsize: u16, prp1: u64) -> Option<Status>
        ensures { result ≡ (if nat_lt self.mqes qsize then Some invalid_queue_size else (if not (is_aligned self.page prp1) then Some prp_offset_invalid else None)) }
    {
        if qsize > self.mqes {
            return Some(Status::INVALID_QUEUE_SIZE);
        }
        if !self.is_page(prp1) {
            return Some(PRP_OFFSET_INVALID);
        }
        None
    }

    // The status that refuses an entry for where its queue is to lie, where one does.
    pub(crate) fn check(self, entry: &Sqe) -> Option<Status>
        ensures refused { IfSome result (λ s. (rows : List Check)
            → first_failed (placing_rows_of (placing_by self) entry.now (admin_command_of entry.now) ++ rows) ≡ s) }
        ensures passed { result ≡ None → (rows : List Check)
            → first_failed (placing_rows_of (placing_by self) entry.now (admin_command_of entry.now) ++ rows) ≡ first_failed rows }
        ensures failure { IfSome result (λ s. is_success s ≡ false) }
    {
        match admin_of(entry) {
            AdminCommand::CreateSq { qsize, prp1, .. } => self.check_ring(qsize, prp1),
            AdminCommand::CreateCq { qsize, prp1, .. } => {
                if let Some(status) = self.check_ring(qsize, prp1) {
                    return Some(status);
                }
                if vector(entry) >= self.vectors {
                    return Some(INVALID_INTERRUPT_VECTOR);
                }
                None
            }
            _ => None,
        }
    }
}
