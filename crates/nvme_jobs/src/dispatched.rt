use nvme_entry::Sqe;
use nvme_log::Place;

/// A picked I/O command that has no result yet: the ticket of its job, the tag of the command at its controller, its
/// place and its entry.
#[derive(Clone, Copy, Debug, PartialEq, Eq)]
pub struct Dispatched {
    pub ticket: u32,
    pub tag: u16,
    pub place: Place,
    pub entry: Sqe,
}
