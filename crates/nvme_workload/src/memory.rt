// Bounds the memory that reading a text takes, before the text is read.
//
// Decided: a look at the text bounds the memory first, since the `toml` crate takes up to 600 bytes for a byte of text,
// from the common allocator.

/// The most memory that reading a workload file may take, in bytes. A text for which this may not be enough is refused
/// with `NoMemory` before it is read. (profile)
pub const MAX_MEMORY: u64 = 0x2000_0000;

// The most bytes of memory that each byte of a text takes, in copies of it and as a part of a string. Then the most
// that each mark takes which makes a part of a document: an item of an array, an array or a header, a further member of
// a table, the first member of a table, and a table that a dot makes. Measured, with a margin.
const BYTE: u64 = 8;

const ITEM: u64 = 64;

const BRACKET: u64 = 250;

const MEMBER: u64 = 220;

const FIRST_MEMBER: u64 = 1_300;

const DOT: u64 = 1_300;

// Deeper than the `toml` crate reads: it stops at 80 nested arrays and inline tables, and at a key of 80 parts.
const DEEP: u64 = 256;

// Where a byte of a text is.
#[derive(Clone, Copy)]
enum Within {
    // Outside of strings and comments.
    Plain,
    Comment,
    // Behind one or two such quotes, with which a string begins.
    Opening { quote: u8, is_second: bool },
    // In a string of one line, which such a quote ends.
    Line { quote: u8 },
    // In a string of several lines, behind this many quotes in a row. It ends behind the last of three to five.
    Lines { quote: u8, count: u8 },
    // Behind a backslash in a string.
    Escape { is_lines: bool },
}

// Where the text is behind a byte outside of strings and comments.
fn behind_plain(byte: u8) -> Within {
    match byte {
        b'#' => Within::Comment,
        b'"' | b'\'' => Within::Opening {
            quote: byte,
            is_second: false,
        },
        _ => Within::Plain,
    }
}

// Where the text is behind a byte of a string of one line.
fn behind_line(quote: u8, byte: u8) -> Within {
    if byte == quote || byte == b'\n' {
        Within::Plain
    } else if byte == b'\\' && quote == b'"' {
        Within::Escape { is_lines: false }
    } else {
        Within::Line { quote }
    }
}

// Where the text is behind a byte of a string of several lines.
fn behind_lines(quote: u8, count: u8, byte: u8) -> Within {
    if byte == quote {
        Within::Lines {
            quote,
            count: count.saturating_add(1),
        }
    } else if byte == b'\\' && quote == b'"' {
        Within::Escape { is_lines: true }
    } else {
        Within::Lines { quote, count: 0 }
    }
}

impl Within {
    // Whether the next byte, which is this one, is outside of strings and comments. A string ends behind its last
    // quote.
    fn is_plain(self, byte: u8) -> bool {
        match self {
            Within::Plain => true,
            Within::Opening { quote, is_second } => is_second && byte != quote,
            Within::Lines { quote, count } => count >= 3 && byte != quote,
            _ => false,
        }
    }

    // Where the text is behind the next byte, which is in a string or a comment.
    fn behind(self, byte: u8) -> Within {
        match self {
            Within::Comment if byte != b'\n' => Within::Comment,
            Within::Opening { quote, is_second } if byte == quote => {
                if is_second {
                    Within::Lines { quote, count: 0 }
                } else {
                    Within::Opening {
                        quote,
                        is_second: true,
                    }
                }
            }
            Within::Opening { quote, .. } | Within::Line { quote } => behind_line(quote, byte),
            Within::Lines { quote, count } => behind_lines(quote, count, byte),
            Within::Escape { is_lines: false } => Within::Line { quote: b'"' },
            Within::Escape { is_lines: true } => Within::Lines {
                quote: b'"',
                count: 0,
            },
            _ => Within::Plain,
        }
    }
}

// What was seen of a text.
#[derive(Clone, Copy)]
struct Look {
    within: Within,
    // The memory of all marks so far.
    memory: u64,
    // Whether the next member is the first of a table.
    is_first: bool,
    // How many brackets and braces are open, and how many dots the key has so far.
    open: u64,
    dots: u64,
}

impl Look {
    // Takes a byte outside of strings and comments.
    fn take_plain(&mut self, byte: u8) {
        let memory = match byte {
            b'[' => BRACKET,
            b'.' => DOT,
            b',' => ITEM,
            b'=' if self.is_first => FIRST_MEMBER,
            b'=' => MEMBER,
            _ => 0,
        };
        self.memory = self.memory.saturating_add(memory);
        match byte {
            b'[' | b'{' => {
                self.is_first = true;
                self.open = self.open.saturating_add(1);
                self.dots = 0;
            }
            b']' | b'}' => self.open = self.open.saturating_sub(1),
            b'=' => {
                self.is_first = false;
                self.dots = 0;
            }
            b',' | b'\n' => self.dots = 0,
            b'.' => self.dots = self.dots.saturating_add(1),
            _ => {}
        }
    }

    // Takes the next byte.
    fn take(&mut self, byte: u8) {
        if self.within.is_plain(byte) {
            self.take_plain(byte);
            self.within = behind_plain(byte);
        } else {
            self.within = self.within.behind(byte);
        }
    }

    // No more of the text is read.
    fn is_deep(&self) -> bool {
        self.open > DEEP || self.dots > DEEP
    }
}

/// Whether `MAX_MEMORY` is enough to read a text. It is enough for every workload, whether its script items are inline
/// tables or have headers of their own.
pub(crate) fn is_enough_for(text: &[u8]) -> bool {
    let mut look = Look {
        within: Within::Plain,
        memory: BYTE.saturating_mul(text.len() as u64),
        is_first: true,
        open: 0,
        dots: 0,
    };
    for byte in text {
        look.take(*byte);
        if look.memory > MAX_MEMORY {
            return false;
        }
        if look.is_deep() {
            return true;
        }
    }
    true
}
