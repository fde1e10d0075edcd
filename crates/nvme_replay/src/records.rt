// The records of comma-separated values, with their lines.
use crate::fault::ReplayError;
use csv::{ByteRecord, Reader, ReaderBuilder};
use std::alloc::Global;

// The lines of a text, as it is passed.
#[derive(Drop)]
struct Lines<'a> {
    // What is left of the text, how many bytes stand before that, and its line.
    rest: &'a [u8],
    before: u64,
    line: u64,
}

// Whether a line ends there.
fn is_line_end(byte: u8) -> bool {
    matches!(byte, b'\r' | b'\n')
}

impl Lines<'_> {
    // Passes so many bytes.
    fn pass(&mut self, count: usize) {
        let text = self.rest;
        let (passed, rest) = text.split_at(count.min(text.len()));
        let ends = passed.iter().filter(|byte| **byte == b'\n').count();
        self.line = self.line.saturating_add(ends as u64);
        self.before = self.before.saturating_add(passed.len() as u64);
        self.rest = rest;
    }

    // The line of a record that begins behind so many bytes, and behind the ends of lines that follow these.
    fn line_behind(&mut self, byte: u64) -> u64 {
        self.pass(byte.saturating_sub(self.before) as usize);
        let ends = self.rest.iter().position(|byte| !is_line_end(*byte));
        self.pass(ends.unwrap_or(0));
        self.line
    }
}

/// The records of a text, one after another.
#[derive(Drop)]
pub(crate) struct Records<'a> {
    reader: Reader<&'a [u8]>,
    row: ByteRecord,
    lines: Lines<'a>,
}

impl<'a> Records<'a> {
    /// Those of a text, before the first one.
    pub(crate) fn new(alloc: Global, text: &'a [u8]) -> Records<'a> {
        let reader = ReaderBuilder::new()
            .has_headers(false)
            .flexible(true)
            .from_reader(alloc, text);
        Records {
            reader,
            row: ByteRecord::new(alloc),
            lines: Lines {
                rest: text,
                before: 0,
                line: 1,
            },
        }
    }

    /// Reads the next record. The answer is its line, from 1, or that there is none.
    pub(crate) fn read(&mut self) -> Result<Option<u64>, ReplayError> {
        match self.reader.read_byte_record(&mut self.row) {
            Ok(true) => {
                let byte = match self.row.position() {
                    Some(position) => position.byte,
                    None => self.lines.before,
                };
                Ok(Some(self.lines.line_behind(byte)))
            }
            Ok(false) => Ok(None),
            // (a text in memory is read whole)
            Err(_) => Err(ReplayError::NoMemory),
        }
    }

    /// How many fields the record has.
    pub(crate) fn count(&self) -> usize {
        self.row.len()
    }

    /// The field of the record at a place, empty where it has fewer.
    pub(crate) fn field(&self, place: usize) -> &[u8] {
        match self.row.get(place) {
            Some(field) => field,
            None => b"",
        }
    }

    /// Whether the field at a place is this word, in small letters or capitals.
    pub(crate) fn is_word(&self, place: usize, word: &str) -> bool {
        let field = self.field(place).trim_ascii();
        field.eq_ignore_ascii_case(word.as_bytes())
    }
}
