// The second line of a fault of a workload.
use nvme_short::is_short_key;
use nvme_words::file_named;
use nvme_workload::{Details, Fault, Place, Spot, Why};
use std::alloc::Global;
use std::io::{Result, Write};

/// What the second line tells, in this order. Where it is nothing, there is no such line.
#[derive(Drop)]
pub(crate) struct SecondLine<'a> {
    // The file that the workload was read from.
    file: Option<&'a str>,
    // A fault whose place isn't told in the first line.
    fault: Option<&'a Fault>,
    // A key of short files, in one that lacks `version`.
    key: Option<&'a str>,
    // Whether a key or a header stands twice.
    is_twice: bool,
}

// The words of the TOML crate for a key or a header that stands twice.
const TWICE: &str = "duplicate key";

/// The file that the words name. `None` too where memory was refused.
pub(crate) fn file_in<'a>(alloc: Global, words: &'a [String]) -> Option<&'a str> {
    match file_named(alloc, words) {
        Ok(name) => name,
        Err(_) => None,
    }
}

// The unknown key of a file, where it is one of short files.
fn short_key(fault: &Fault) -> Option<&str> {
    match (&fault.place, &fault.why) {
        (Place::Table(Spot::Top), Why::Unknown { key, .. }) if is_short_key(key.as_str()) => {
            Some(key.as_str())
        }
        _ => None,
    }
}

// Whether a key or a header stands twice in a text.
fn is_twice(fault: &Fault) -> bool {
    match &fault.why {
        Why::Syntax(error) => error.message() == TWICE,
        _ => false,
    }
}

impl<'a> SecondLine<'a> {
    /// Of a fault whose place the first line tells.
    pub(crate) fn of_workload(
        alloc: Global,
        words: &'a [String],
        fault: &'a Fault,
    ) -> SecondLine<'a> {
        SecondLine {
            file: file_in(alloc, words),
            fault: None,
            key: short_key(fault),
            is_twice: is_twice(fault),
        }
    }

    /// Of a fault whose place the first line doesn't tell.
    pub(crate) fn of_placed(
        alloc: Global,
        words: &'a [String],
        fault: &'a Fault,
    ) -> SecondLine<'a> {
        SecondLine {
            file: file_in(alloc, words),
            fault: Some(fault),
            key: short_key(fault),
            is_twice: is_twice(fault),
        }
    }

    // Whether it tells nothing.
    fn is_empty(&self) -> bool {
        self.file.is_none() && self.fault.is_none() && self.key.is_none() && !self.is_twice
    }

    /// Writes the line, with a newline at its end.
    pub(crate) fn write<E: Write>(&self, errors: &mut E) -> Result<()> {
        let mut before = "nvmearb: ";
        if let Some(file) = self.file {
            write!(errors, "{before}in {file:?}")?;
            before = ": ";
        }
        if let Some(fault) = self.fault {
            let details = Details(fault);
            write!(errors, "{before}{details}")?;
            before = "; ";
        }
        if let Some(key) = self.key {
            write!(
                errors,
                "{before}{key:?} is a key of short workload files: version = 1 is missing"
            )?;
            before = "; ";
        }
        if self.is_twice {
            write!(
                errors,
                "{before}several queues are written [[queue]], each with two brackets"
            )?;
        }
        if self.is_empty() {
            return Ok(());
        }
        writeln!(errors)
    }
}
