// Files whose lines are words with blanks between them.
use crate::fault::{LineFault, ReplayError, on_line};
use crate::fields::{Ordered, Raw};
use crate::words::{Words, words_of};
use crate::{blkparse, fio};
use std::alloc::Global;

/// Which program wrote a file.
#[derive(Clone, Copy)]
pub(crate) enum Writer {
    Blkparse,
    Fio,
}

impl Writer {
    // The request of a line, which counts from 1. None where it asks for nothing.
    fn request_of(self, words: &Words, line: u64) -> Result<Option<Raw>, LineFault> {
        match self {
            Writer::Blkparse => blkparse::request_of(words),
            Writer::Fio if line == 1 => fio::check_head(words),
            Writer::Fio => fio::request_of(words),
        }
    }
}

/// The requests of a file, in the order of its lines.
pub(crate) fn requests_of(
    alloc: Global,
    writer: Writer,
    text: &[u8],
) -> Result<Vec<Ordered>, ReplayError> {
    let mut requests = Vec::new(alloc);
    let mut line: u64 = 0;
    for bytes in text.split(|byte| *byte == b'\n') {
        line = line.saturating_add(1);
        if let Some(raw) = on_line(line, writer.request_of(&words_of(bytes), line))? {
            let order = line;
            requests.push(Ordered { raw, order, line })?;
        }
    }
    Ok(requests)
}
