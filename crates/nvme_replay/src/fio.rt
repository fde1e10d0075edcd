// An I/O log of fio, of version 3: below its first line a time in microseconds, a file, an action, and of some an offset and a
// length.
use crate::fault::LineFault;
use crate::fields::{Raw, blocks_of, number_of};
use crate::words::Words;
use nvme_load::Operation;

/// That the words are those of the first line.
pub(crate) fn check_head(words: &Words) -> Result<Option<Raw>, LineFault> {
    match (words[0], words[1], words[2], words[3]) {
        (b"fio", b"version", b"3", b"iolog") => Ok(None),
        (b"fio", b"version", b"2", b"iolog") => Err(LineFault::NoTimes),
        _ => Err(LineFault::NotFio),
    }
}

/// The request of a line. None of a blank one, and of an action that neither reads nor writes.
pub(crate) fn request_of(words: &Words) -> Result<Option<Raw>, LineFault> {
    let (time, offset, length) = (words[0], words[3], words[4]);
    let operation = match words[2] {
        b"read" => Operation::Read,
        b"write" => Operation::Write,
        b"add" | b"open" | b"close" | b"sync" | b"datasync" | b"trim" => return Ok(None),
        b"" if time.is_empty() => return Ok(None),
        _ => {
            return Err(LineFault::Operation(
                "add, open, close, read, write, sync, datasync or trim as the action",
            ));
        }
    };
    let time = number_of(time, "the time")?;
    let offset = number_of(offset, "the offset")?;
    let length = number_of(length, "the length")?;
    let (block, blocks) = blocks_of(offset, length)?;
    Ok(Some(Raw {
        time,
        operation,
        block,
        blocks,
    }))
}
