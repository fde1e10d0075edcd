// Which check refuses an admin command, as far as its entry, its status and the region that it names tell.
use crate::room::Room;
use crate::site::Site;
use nvme_entry::{Sqe, Status};
use std::fmt;

/// A refused command, its status, the region that it names, and the room for the queue that it names.
#[derive(Clone, Copy)]
pub(crate) struct Cause<'a> {
    pub(crate) entry: &'a Sqe,
    pub(crate) status: Status,
    pub(crate) site: Option<Site>,
    pub(crate) room: Room,
}

// Whether the identifier of an I/O queue is allotted, where so many are.
fn is_allotted(qid: u32, allotted: u16) -> bool {
    qid <= u32::from(allotted)
}

impl Cause<'_> {
    // Of a Create: that its region isn't an unused one of this size.
    fn write_region<W: fmt::Write>(&self, f: &mut fmt::Formatter<W>) -> fmt::Result {
        let asked = self.entry.cdw10 / 0x1_0000 + 1;
        match self.site {
            None => {
                let address = self.entry.prp1;
                write!(f, ": no such region has the address 0x{address:x} (PRP1)")
            }
            Some(Site { number, slots }) if u32::from(slots) != asked => {
                write!(
                    f,
                    ": QSIZE asks for {asked} slots, region {number} has {slots}"
                )
            }
            Some(Site { number, .. }) => write!(f, ": region {number} is used already"),
        }
    }

    // Of a Create.
    fn write_create<W: fmt::Write>(&self, f: &mut fmt::Formatter<W>) -> fmt::Result {
        let (qid, qsize) = (self.entry.cdw10 % 0x1_0000, self.entry.cdw10 / 0x1_0000);
        let cqid = self.entry.cdw11 / 0x1_0000;
        let names_cq = self.entry.opcode == 0x01;
        match self.status {
            Status::INVALID_FIELD if self.entry.cdw11 % 2 == 0 => f.write_str(": PC is 0"),
            Status::INVALID_FIELD => self.write_region(f),
            Status::INVALID_QUEUE_SIZE => {
                write!(
                    f,
                    ": QSIZE is {qsize}, expected 1 to 4095, a slot less than the ring has"
                )
            }
            Status::COMPLETION_QUEUE_INVALID => {
                write!(f, ": there is no completion queue {cqid} (CQID)")
            }
            Status::INVALID_QUEUE_IDENTIFIER if qid == 0 => {
                f.write_str(": 0 is the admin queue's")
            }
            Status::INVALID_QUEUE_IDENTIFIER if self.room.is_open => {
                write!(f, ": {qid} is in use")
            }
            Status::INVALID_QUEUE_IDENTIFIER if names_cq && is_allotted(qid, self.room.nsq) => {
                write!(f, ": CQID {cqid} isn't allotted")
            }
            Status::INVALID_QUEUE_IDENTIFIER => write!(f, ": {qid} isn't allotted"),
            _ => Ok(()),
        }
    }

    // Of a Set Features.
    fn write_set<W: fmt::Write>(&self, f: &mut fmt::Formatter<W>) -> fmt::Result {
        let feature = self.entry.cdw10 % 0x100;
        match self.status {
            Status::INVALID_FIELD if feature == 0x07 => f.write_str(": NSQR or NCQR is FFFFh"),
            Status::INVALID_FIELD => write!(f, ": feature {feature:02x}h isn't supported"),
            Status::FEATURE_NOT_SAVEABLE => f.write_str(": SV is 1"),
            Status::SEQUENCE_ERROR => f.write_str(": a queue was created before"),
            _ => Ok(()),
        }
    }

    // Of a Delete.
    fn write_delete<W: fmt::Write>(&self, f: &mut fmt::Formatter<W>) -> fmt::Result {
        match self.status {
            Status::INVALID_QUEUE_IDENTIFIER => f.write_str(": no such queue is open"),
            Status::INVALID_QUEUE_DELETION => {
                f.write_str(": a submission queue is attached to it")
            }
            _ => Ok(()),
        }
    }
}

impl fmt::Display for Cause<'_> {
    fn fmt<W: fmt::Write>(&self, f: &mut fmt::Formatter<W>) -> fmt::Result {
        if self.entry.fuse() != 0 {
            return f.write_str(": FUSE isn't 0");
        }
        match self.entry.opcode {
            0x00 | 0x04 => self.write_delete(f),
            0x01 | 0x05 => self.write_create(f),
            0x09 => self.write_set(f),
            0x0a => {
                let feature = self.entry.cdw10 % 0x100;
                write!(f, ": feature {feature:02x}h isn't supported")
            }
            _ => Ok(()),
        }
    }
}
