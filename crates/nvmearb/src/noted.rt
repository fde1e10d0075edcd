// What is noted of the streams, for faults that are told at the end.
use std::cell::Cell;
use std::io::{Error, ErrorKind, Read, Result, Write};

/// What a text looks like, by its first bytes that say something.
#[derive(Clone, Copy, Debug, PartialEq, Eq)]
pub(crate) enum Look {
    /// Nothing was read but blanks and line ends.
    Blank,
    /// An object of JSON begins.
    Trace,
    /// A key, a header or a comment of TOML begins.
    Workload,
    /// It does, and a table `simulation` or `device` too.
    Simulation,
    /// The names of the columns of a simulation's log begin.
    Log,
    Other,
}

// What of a text says nothing: blanks, line ends and the bytes of a byte order mark.
fn says_nothing(byte: u8) -> bool {
    matches!(byte, b' ' | b'\t' | b'\r' | b'\n' | 0xef | 0xbb | 0xbf)
}

impl Look {
    // By the first bytes that say something.
    fn of_text(text: &[u8]) -> Look {
        match text {
            [] => Look::Blank,
            [b'{', ..] => Look::Trace,
            [b'q', b'u', b'e', b'u', b'e', b',', ..] => Look::Log,
            [b'#' | b'a'..=b'z' | b'A'..=b'Z', ..] => Look::Workload,
            [b'[', b'[' | b'a'..=b'z', ..] => Look::Workload,
            _ => Look::Other,
        }
    }

    // By these bytes, where those before them said nothing.
    fn of(bytes: &[u8]) -> Look {
        match bytes.iter().position(|byte| !says_nothing(*byte)) {
            Some(at) => Look::of_text(bytes.get(at..).unwrap_or(&[])),
            None => Look::Blank,
        }
    }
}

// A table that simulation files have alone.
#[derive(Clone, Copy)]
enum Table {
    Simulation,
    Device,
}

impl Table {
    // Its name.
    fn letters(self) -> &'static [u8] {
        match self {
            Table::Simulation => b"simulation",
            Table::Device => b"device",
        }
    }

    // With a byte more behind so many letters of its name.
    fn then(self, read: usize, byte: u8) -> Header {
        match self.letters().get(read) {
            Some(letter) if *letter == byte => Header::Named(self, read.saturating_add(1)),
            None if matches!(byte, b' ' | b'\t' | b'.' | b']') => Header::Whole,
            _ => Header::Other,
        }
    }
}

// How far a line is read as the header of such a table.
#[derive(Clone, Copy)]
enum Header {
    // Nothing came but blanks.
    Begins,
    // A bracket opened it.
    Opened,
    // So many letters of the name came.
    Named(Table, usize),
    // It is one.
    Whole,
    // It is none.
    Other,
}

impl Header {
    // Behind blanks at the beginning of a line.
    fn begun(byte: u8) -> Header {
        match byte {
            b' ' | b'\t' => Header::Begins,
            b'[' => Header::Opened,
            _ => Header::Other,
        }
    }

    // Behind the bracket.
    fn opened(byte: u8) -> Header {
        match byte {
            b' ' | b'\t' => Header::Opened,
            b's' => Header::Named(Table::Simulation, 1),
            b'd' => Header::Named(Table::Device, 1),
            _ => Header::Other,
        }
    }

    // With a byte more.
    fn then(self, byte: u8) -> Header {
        if byte == b'\n' {
            return Header::Begins;
        }
        match self {
            Header::Begins => Header::begun(byte),
            Header::Opened => Header::opened(byte),
            Header::Named(table, read) => table.then(read, byte),
            Header::Whole | Header::Other => Header::Other,
        }
    }

    // With these bytes more, up to a whole one.
    fn after(self, bytes: &[u8]) -> Header {
        let mut header = self;
        for byte in bytes {
            header = header.then(*byte);
            if matches!(header, Header::Whole) {
                break;
            }
        }
        header
    }
}

/// What is noted of the streams: how the input begins, and the errors with which a read and a write failed.
#[derive(Drop)]
pub(crate) struct Notes {
    look: Cell<Look>,
    header: Cell<Header>,
    read: Cell<Option<Error>>,
    write: Cell<Option<Error>>,
}

impl Notes {
    /// Of streams that weren't used yet.
    pub(crate) fn new() -> Notes {
        Notes {
            look: Cell::new(Look::Blank),
            header: Cell::new(Header::Begins),
            read: Cell::new(None),
            write: Cell::new(None),
        }
    }

    /// How the input begins.
    pub(crate) fn look(&self) -> Look {
        self.look.get()
    }

    // Notes more of the input.
    fn add(&self, bytes: &[u8]) {
        if self.look.get() == Look::Blank {
            self.look.set(Look::of(bytes));
        }
        if self.look.get() == Look::Workload {
            let header = self.header.get().after(bytes);
            self.header.set(header);
            if matches!(header, Header::Whole) {
                self.look.set(Look::Simulation);
            }
        }
    }

    /// The error with which a read failed.
    pub(crate) fn read(&self) -> Option<Error> {
        self.read.get()
    }

    /// The error with which a write failed.
    pub(crate) fn write(&self) -> Option<Error> {
        self.write.get()
    }
}

// Notes an error, unless a signal was the cause.
fn note(cell: &Cell<Option<Error>>, error: &Error) {
    if error.kind() != ErrorKind::Interrupted {
        cell.set(Some(*error));
    }
}

/// A stream of which is noted what becomes of it.
#[derive(Drop)]
pub(crate) struct Noted<'a, S> {
    stream: S,
    notes: &'a Notes,
}

impl<'a, S> Noted<'a, S> {
    /// This stream, which wasn't used yet.
    pub(crate) fn new(stream: S, notes: &'a Notes) -> Noted<'a, S> {
        Noted { stream, notes }
    }
}

impl<R: Read> Read for Noted<'_, R> {
    fn read(&mut self, buf: &mut [u8]) -> Result<usize> {
        let result = self.stream.read(buf);
        match &result {
            Ok(count) => self.notes.add(&buf[..*count]),
            Err(error) => note(&self.notes.read, error),
        }
        result
    }
}

impl<W: Write> Write for Noted<'_, W> {
    fn write(&mut self, buf: &[u8]) -> Result<usize> {
        let result = self.stream.write(buf);
        if let Err(error) = &result {
            note(&self.notes.write, error);
        }
        result
    }

    fn flush(&mut self) -> Result<()> {
        self.stream.flush()
    }
}
