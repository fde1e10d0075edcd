// Finds where a key or an item of a TOML document stands in its text, which was read as TOML before. One walk over the
// bytes keeps how many steps of the path to what is looked for lead to each table and array that is open.
use std::alloc::{AllocError, Global};

/// A step of the path to what is looked for.
#[derive(Clone, Copy, Debug, PartialEq, Eq)]
pub enum Step<'a> {
    /// The value at a key of a table.
    At(&'a str),
    /// An item of an array, from 0.
    Item(usize),
}

// How many steps lead here. `None` where another path does.
type Depth = Option<usize>;

// What is open in brackets or braces.
#[derive(Clone, Copy)]
enum Frame {
    Table(Depth),
    // With the index of the item that comes next.
    Array(Depth, usize),
}

// What the next byte belongs to.
#[derive(Clone, Copy)]
enum Mode {
    // What comes before a key or a header, or ends an inline table.
    Key,
    // A key without quotes that began there.
    Bare(usize),
    // A key in such quotes that began there; whether a backslash comes before the byte.
    Quoted(usize, u8, bool),
    BehindKey,
    // What comes before a value, or ends an array.
    Value,
    // A value without quotes and brackets.
    Word,
    // So many quotes, which begin a text.
    Quotes(u8, usize),
    // A text in one such quote at each end; whether a backslash comes before the byte.
    Text(u8, bool),
    // A text in three such quotes at each end, behind so many quotes.
    Long(u8, usize, bool),
    // What follows a value or a header.
    Behind,
}

/// A walk over a text.
#[derive(Drop)]
struct Scan<'a> {
    text: &'a [u8],
    path: &'a [Step<'a>],
    mode: Mode,
    is_comment: bool,
    // How many brackets a header has that is open, and where it begins.
    brackets: usize,
    header_at: usize,
    // Whether the next key is that of the table at the key before.
    is_dotted: bool,
    // How far the last header and the last key lead.
    table: Depth,
    key: Depth,
    frames: Vec<Frame>,
    // How many headers began an item of the array that so many steps lead to.
    items: Vec<usize>,
    // The most steps that a place was found for, and that place.
    steps: usize,
    found: Option<usize>,
    is_value_wanted: bool,
}

// Whether a key without quotes may have the byte.
fn is_bare(byte: u8) -> bool {
    byte.is_ascii_alphanumeric() || byte == b'_' || byte == b'-'
}

impl<'a> Scan<'a> {
    // Keeps a place that so many steps lead to, where no more led to the one before.
    fn keep(&mut self, depth: usize, at: usize) {
        if self.steps < depth {
            self.steps = depth;
            self.found = Some(at);
        }
    }

    // How many steps lead to an item of the array that so many lead to.
    fn item(&self, array: Depth, index: usize) -> Depth {
        let depth = array?;
        match self.path.get(depth) {
            Some(Step::Item(wanted)) if *wanted == index => Some(depth.saturating_add(1)),
            _ => None,
        }
    }

    // How many headers began an item of the array that so many steps lead to.
    fn count(&self, array: Depth) -> usize {
        match array {
            Some(depth) => self.items.get(depth).copied().unwrap_or(0),
            None => 0,
        }
    }

    // Ends a key whose text began and ended there.
    fn end_key(&mut self, start: usize, end: usize) {
        if !self.is_dotted {
            self.key = match self.frames.last() {
                Some(Frame::Table(depth)) => *depth,
                Some(Frame::Array(..)) => None,
                None => self.table,
            };
        }
        self.is_dotted = false;
        self.mode = Mode::BehindKey;
        let Some(depth) = self.key else {
            return;
        };
        self.key = match (self.path.get(depth), self.text.get(start..end)) {
            (Some(Step::At(name)), Some(bytes)) if name.as_bytes() == bytes => {
                self.keep(depth.saturating_add(1), start);
                Some(depth.saturating_add(1))
            }
            _ => None,
        };
    }

    // Takes a byte before a key.
    fn before_key(&mut self, at: usize, byte: u8) {
        match byte {
            b'[' => {
                if self.brackets == 0 {
                    self.header_at = at;
                }
                self.brackets = self.brackets.saturating_add(1);
                self.key = Some(0);
                self.is_dotted = true;
            }
            b'}' => {
                drop(self.frames.pop());
                self.mode = Mode::Behind;
            }
            b'"' | b'\'' => self.mode = Mode::Quoted(at.saturating_add(1), byte, false),
            byte if is_bare(byte) => self.mode = Mode::Bare(at),
            _ => {}
        }
    }

    // Ends a header.
    fn end_header(&mut self) {
        self.table = self.key;
        if 1 < self.brackets {
            let index = self.count(self.key);
            if let Some(depth) = self.key
                && let Some(count) = self.items.get_mut(depth)
            {
                *count = index.saturating_add(1);
            }
            self.table = self.item(self.key, index);
        }
        if let Some(depth) = self.table {
            self.keep(depth, self.header_at);
        }
        self.brackets = 0;
        self.mode = Mode::Behind;
    }

    // Takes a byte behind a key.
    fn behind_key(&mut self, byte: u8) {
        match byte {
            b'.' => {
                let count = self.count(self.key);
                if 0 < self.brackets && 0 < count {
                    self.key = self.item(self.key, count - 1);
                }
                self.is_dotted = true;
                self.mode = Mode::Key;
            }
            b'=' => self.mode = Mode::Value,
            b']' => self.end_header(),
            _ => {}
        }
    }

    // How many steps lead to a value that begins there.
    fn begin_value(&mut self, at: usize) -> Result<Depth, AllocError> {
        let Some(Frame::Array(array, index)) = self.frames.last().copied() else {
            if let Some(depth) = self.key
                && depth == self.path.len()
                && self.is_value_wanted
            {
                self.found = Some(at);
            }
            return Ok(self.key);
        };
        drop(self.frames.pop());
        self.frames
            .push(Frame::Array(array, index.saturating_add(1)))?;
        let item = self.item(array, index);
        if let Some(depth) = item {
            self.keep(depth, at);
        }
        Ok(item)
    }

    // Takes a byte before a value.
    fn before_value(&mut self, at: usize, byte: u8) -> Result<(), AllocError> {
        match byte {
            b' ' | b'\t' | b'\r' | b'\n' => {}
            b']' => {
                drop(self.frames.pop());
                self.mode = Mode::Behind;
            }
            b'{' => {
                let depth = self.begin_value(at)?;
                self.frames.push(Frame::Table(depth))?;
                self.mode = Mode::Key;
            }
            b'[' => {
                let depth = self.begin_value(at)?;
                self.frames.push(Frame::Array(depth, 0))?;
            }
            _ => {
                let _depth = self.begin_value(at)?;
                self.mode = match byte {
                    b'"' | b'\'' => Mode::Quotes(byte, 1),
                    _ => Mode::Word,
                };
            }
        }
        Ok(())
    }

    // Takes a byte behind a value.
    fn behind(&mut self, byte: u8) {
        match byte {
            b',' => {
                self.mode = match self.frames.last() {
                    Some(Frame::Array(..)) => Mode::Value,
                    _ => Mode::Key,
                };
            }
            b']' | b'}' => drop(self.frames.pop()),
            b'\n' if self.frames.is_empty() => self.mode = Mode::Key,
            b'#' => self.is_comment = true,
            _ => self.mode = Mode::Behind,
        }
    }

    // Takes a byte of a text in quotes.
    fn within_text(&mut self, byte: u8) {
        match self.mode {
            Mode::Quotes(quote, 2) if byte == quote => self.mode = Mode::Long(quote, 0, false),
            Mode::Quotes(quote, count) if byte == quote => {
                self.mode = Mode::Quotes(quote, count.saturating_add(1));
            }
            Mode::Quotes(quote, 1) => self.mode = Mode::Text(quote, is_escape(quote, byte)),
            Mode::Text(quote, false) if byte == quote => self.mode = Mode::Behind,
            Mode::Text(quote, false) => self.mode = Mode::Text(quote, is_escape(quote, byte)),
            Mode::Text(quote, true) => self.mode = Mode::Text(quote, false),
            Mode::Long(quote, _, true) => self.mode = Mode::Long(quote, 0, false),
            Mode::Long(quote, count, false) if byte == quote => {
                self.mode = Mode::Long(quote, count.saturating_add(1), false);
            }
            Mode::Long(quote, count, false) if count < 3 => {
                self.mode = Mode::Long(quote, 0, is_escape(quote, byte));
            }
            _ => {
                self.mode = Mode::Behind;
                self.behind(byte);
            }
        }
    }

    // Takes a byte of a key in quotes.
    fn within_key(&mut self, at: usize, byte: u8) {
        let Mode::Quoted(start, quote, is_escaped) = self.mode else {
            return;
        };
        if !is_escaped && byte == quote {
            self.end_key(start, at);
        } else {
            let is_escaped = !is_escaped && is_escape(quote, byte);
            self.mode = Mode::Quoted(start, quote, is_escaped);
        }
    }

    // Takes the next byte, which isn't one of a comment.
    fn take(&mut self, at: usize, byte: u8) -> Result<(), AllocError> {
        match self.mode {
            Mode::Key | Mode::Value if byte == b'#' => self.is_comment = true,
            Mode::Key => self.before_key(at, byte),
            Mode::Bare(_) if is_bare(byte) => {}
            Mode::Bare(start) => {
                self.end_key(start, at);
                self.behind_key(byte);
            }
            Mode::Quoted(..) => self.within_key(at, byte),
            Mode::BehindKey => self.behind_key(byte),
            Mode::Value => self.before_value(at, byte)?,
            Mode::Word => {
                if matches!(byte, b',' | b']' | b'}' | b'\n' | b'#') {
                    self.mode = Mode::Behind;
                    self.behind(byte);
                }
            }
            Mode::Quotes(..) | Mode::Text(..) | Mode::Long(..) => self.within_text(byte),
            Mode::Behind => self.behind(byte),
        }
        Ok(())
    }

    // Takes the next byte.
    fn step(&mut self, at: usize, byte: u8) -> Result<(), AllocError> {
        if self.is_comment && byte != b'\n' {
            return Ok(());
        }
        self.is_comment = false;
        self.take(at, byte)
    }
}

// Whether the byte is a backslash that stands for what comes behind it, in such quotes.
fn is_escape(quote: u8, byte: u8) -> bool {
    quote == b'"' && byte == b'\\'
}

/// Where in the text the longest part of the path leads that leads somewhere: to a key, to its value where that is
/// wanted and the whole path leads there, or to an item. `None` where no step does.
pub fn offset_of(
    alloc: Global,
    text: &[u8],
    path: &[Step],
    is_value_wanted: bool,
) -> Result<Option<usize>, AllocError> {
    let mut items = Vec::new(alloc);
    items.resize(path.len().saturating_add(1), 0)?;
    let mut scan = Scan {
        text,
        path,
        mode: Mode::Key,
        is_comment: false,
        brackets: 0,
        header_at: 0,
        is_dotted: false,
        table: Some(0),
        key: Some(0),
        frames: Vec::new(alloc),
        items,
        steps: 0,
        found: None,
        is_value_wanted,
    };
    for (at, byte) in text.iter().enumerate() {
        scan.step(at, *byte)?;
    }
    Ok(scan.found)
}
