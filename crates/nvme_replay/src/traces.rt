// Block traces of comma-separated values: those of Microsoft Research Cambridge and of Alibaba.
use crate::fault::{LineFault, ReplayError, on_line};
use crate::fields::{Ordered, Raw, blocks_of, number_of};
use crate::records::Records;
use nvme_load::Operation;
use std::alloc::Global;

/// Whose trace it is.
#[derive(Clone, Copy)]
pub(crate) enum Trace {
    /// Timestamp, Hostname, DiskNumber, Type, Offset, Size and ResponseTime.
    Msr,
    /// device_id, opcode, offset, length and timestamp.
    Alibaba,
}

// A record of Microsoft Research Cambridge.
fn msr_request(record: &Records) -> Result<Raw, LineFault> {
    let time = number_of(record.field(0), "Timestamp")?;
    let operation = if record.is_word(3, "Read") {
        Operation::Read
    } else if record.is_word(3, "Write") {
        Operation::Write
    } else {
        return Err(LineFault::Operation("Read or Write as Type"));
    };
    let offset = number_of(record.field(4), "Offset")?;
    let size = number_of(record.field(5), "Size")?;
    let (block, blocks) = blocks_of(offset, size)?;
    Ok(Raw {
        time,
        operation,
        block,
        blocks,
    })
}

// A record of Alibaba.
fn alibaba_request(record: &Records) -> Result<Raw, LineFault> {
    let operation = if record.is_word(1, "R") {
        Operation::Read
    } else if record.is_word(1, "W") {
        Operation::Write
    } else {
        return Err(LineFault::Operation("R or W as opcode"));
    };
    let offset = number_of(record.field(2), "offset")?;
    let length = number_of(record.field(3), "length")?;
    let time = number_of(record.field(4), "timestamp")?;
    let (block, blocks) = blocks_of(offset, length)?;
    Ok(Raw {
        time,
        operation,
        block,
        blocks,
    })
}

impl Trace {
    // Whether the first record has the names of the fields.
    fn is_head(self, record: &Records) -> bool {
        match self {
            Trace::Msr => record.is_word(0, "Timestamp"),
            Trace::Alibaba => record.is_word(0, "device_id"),
        }
    }

    // The request of a record.
    fn request_of(self, record: &Records) -> Result<Raw, LineFault> {
        match self {
            Trace::Msr => msr_request(record),
            Trace::Alibaba => alibaba_request(record),
        }
    }
}

/// The requests of a trace, in the order of its lines. A first line may have the names of the fields.
pub(crate) fn requests_of(
    alloc: Global,
    trace: Trace,
    text: &[u8],
) -> Result<Vec<Ordered>, ReplayError> {
    let mut records = Records::new(alloc, text);
    let mut requests = Vec::new(alloc);
    let mut is_first = true;
    for _ in 0..u64::MAX {
        let Some(line) = records.read()? else {
            break;
        };
        if !is_first || !trace.is_head(&records) {
            let raw = on_line(line, trace.request_of(&records))?;
            let order = line;
            requests.push(Ordered { raw, order, line })?;
        }
        is_first = false;
    }
    Ok(requests)
}
