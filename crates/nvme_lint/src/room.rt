// What room there is for a queue that is created.
ghost use Rattle.std.specs.Prelude.{◌≡◌, ◌==◌, ◌%◌};
ghost use Rattle.nvme_admin.specs.Standing.{cq_of, sq_of};
ghost use Rattle.nvme_lint.specs.Warnings.{is_open, room_of};

use nvme_admin::Table;
use nvme_entry::Sqe;

/// What room there is for the queue that a Create names, before it.
#[derive(Clone, Copy, Debug, PartialEq, Eq)]
pub struct Room {
    /// Whether a queue of its kind is open under its identifier.
    pub is_open: bool,
    /// The allotted numbers of I/O submission and completion queues.
    pub nsq: u16,
    pub ncq: u16,
}

// Whether a queue is open under the identifier that a Create names.
fn is_open(table: &Table, entry: &Sqe) -> bool
    ensures { result ≡ is_open (entry.now.opcode == 5) (sq_of table.now (entry.now.cdw10 % 65536)) (cq_of table.now (entry.now.cdw10 % 65536)) }
{
    let qid = (entry.cdw10 % 0x1_0000) as u16;
    if entry.opcode == 0x05 {
        table.cq(qid).is_some()
    } else {
        table.sq(qid).is_some()
    }
}

/// What room there is for the queue that a Create names.
pub(crate) fn room_of(table: &Table, entry: &Sqe) -> Room
    ensures { result ≡ room_of (sq_of table.now (entry.now.cdw10 % 65536)) (cq_of table.now (entry.now.cdw10 % 65536)) table.now.nsq table.now.ncq entry.now }
{
    let allotted = table.allotted();
    Room {
        is_open: is_open(table, entry),
        nsq: allotted.nsq,
        ncq: allotted.ncq,
    }
}
