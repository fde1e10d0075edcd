// The log of a simulation: comma-separated values below a line of names.
use crate::fault::{LineFault, ReplayError, on_line};
use crate::fields::{Ordered, Raw, count_of, number_of};
use crate::records::Records;
use nvme_load::Operation;
use std::alloc::Global;

// The places of the columns that are read. There may be others.
#[derive(Clone, Copy)]
struct Columns {
    queue: usize,
    number: usize,
    operation: usize,
    block: usize,
    blocks: usize,
    came: usize,
}

// The place of the column of a name.
fn place_of(names: &Records, name: &'static str) -> Result<usize, LineFault> {
    for place in 0..names.count() {
        if names.field(place) == name.as_bytes() {
            return Ok(place);
        }
    }
    Err(LineFault::NoColumn(name))
}

impl Columns {
    // The columns of these names.
    fn named(names: &Records) -> Result<Columns, LineFault> {
        Ok(Columns {
            queue: place_of(names, "queue")?,
            number: place_of(names, "number")?,
            operation: place_of(names, "operation")?,
            block: place_of(names, "block")?,
            blocks: place_of(names, "blocks")?,
            came: place_of(names, "came_ps")?,
        })
    }

    // The operation of a record.
    fn operation_of(self, record: &Records) -> Result<Operation, LineFault> {
        match record.field(self.operation) {
            b"read" => Ok(Operation::Read),
            b"write" => Ok(Operation::Write),
            b"flush" => Ok(Operation::Flush),
            _ => Err(LineFault::Operation("read, write or flush as operation")),
        }
    }

    // Where a record lies, and how many blocks it has: none where it is a flush.
    fn blocks_of(self, record: &Records, operation: Operation) -> Result<(u64, u32), LineFault> {
        if operation == Operation::Flush {
            return Ok((0, 0));
        }
        let block = number_of(record.field(self.block), "block")?;
        let blocks = number_of(record.field(self.blocks), "blocks")?;
        Ok((block, count_of(blocks)?))
    }

    // The request of a record on a line. None where it is of another queue.
    fn request_of(
        self,
        record: &Records,
        queue: u64,
        line: u64,
    ) -> Result<Option<Ordered>, LineFault> {
        if number_of(record.field(self.queue), "queue")? != queue {
            return Ok(None);
        }
        let order = number_of(record.field(self.number), "number")?;
        let time = number_of(record.field(self.came), "came_ps")?;
        let operation = self.operation_of(record)?;
        let (block, blocks) = self.blocks_of(record, operation)?;
        let raw = Raw {
            time,
            operation,
            block,
            blocks,
        };
        Ok(Some(Ordered { raw, order, line }))
    }
}

/// The requests of a queue, in the order of the lines. Their numbers order those of one time.
pub(crate) fn requests_of(
    alloc: Global,
    queue: u64,
    text: &[u8],
) -> Result<Vec<Ordered>, ReplayError> {
    let mut records = Records::new(alloc, text);
    let mut requests = Vec::new(alloc);
    let Some(head) = records.read()? else {
        return Ok(requests);
    };
    let columns = on_line(head, Columns::named(&records))?;
    for _ in 0..u64::MAX {
        let Some(line) = records.read()? else {
            break;
        };
        if let Some(request) = on_line(line, columns.request_of(&records, queue, line))? {
            requests.push(request)?;
        }
    }
    Ok(requests)
}
