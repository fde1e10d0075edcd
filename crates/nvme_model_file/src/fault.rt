// The first fault of a simulation file, as it is told.
use nvme_model_form::{Fault, Key, Kind, Place, Target};
use nvme_short::{ShortDetails, ShortFault, Spot};
use nvme_workload::Found;
use std::fmt;

/// A fault of the table of a simulation file, with what is told of it.
#[derive(Debug, Drop)]
pub struct Flaw {
    /// The table at fault.
    pub place: Place,
    /// What of it is at fault.
    pub target: Target,
    /// The fault.
    pub fault: Fault,
    /// Where in the text it is, as far as it was found there.
    pub spot: Option<Spot>,
    /// The unknown key, of which at most the first 100 characters are kept; empty with another fault.
    pub key: String,
    /// The keys that may stand there, where a key is unknown.
    pub known: &'static [Key],
    /// What stands there. Of a text at most the first 40 characters are kept.
    pub found: Found,
    /// The key or the word that may have been meant.
    pub meant: Option<&'static str>,
}

/// Why a file has no model.
#[derive(Debug, Drop)]
pub enum ModelFault {
    /// It isn't UTF-8 from this place on.
    NotUtf8(Spot),
    /// It isn't a TOML document. The error says why, at this place.
    NotToml(Spot, toml::de::Error),
    /// The first fault of its table.
    At(Flaw),
    /// The first fault of its table, at `mechanism`, `burst`, `weights` or a `class`, as the short workload file has it.
    Settings(ShortFault),
    /// Out of memory.
    NoMemory,
}

impl ModelFault {
    /// Where in the text the fault is, as far as it was found there.
    pub fn spot(&self) -> Option<Spot> {
        match self {
            ModelFault::NotUtf8(spot) | ModelFault::NotToml(spot, _) => Some(*spot),
            ModelFault::At(flaw) => flaw.spot,
            ModelFault::Settings(fault) => fault.spot,
            ModelFault::NoMemory => None,
        }
    }
}

// What a value of a kind is, as text.
fn text_of(kind: Kind) -> &'static str {
    match kind {
        Kind::Table => "a table",
        Kind::Queues => "an array of 1 to 64 tables: queues are written [[queue]]",
        Kind::Duration => "a duration such as \"80us\"",
        Kind::Durations => "an array of durations such as \"80us\"",
        Kind::Gap => "commands a second as a whole number, or a duration such as \"80us\"",
        Kind::Service => "a duration such as \"80us\", or a table",
        Kind::Placing => "\"pool\" or \"striped\"",
        Kind::Offsets => "\"uniform\" or \"sequential\"",
        Kind::File => "the name of a file",
        Kind::Form => "\"csv\", \"msr\", \"alibaba\", \"blkparse\" or \"fio\"",
        Kind::Speed => "a number above 0, as 2 or \"0.5\"",
    }
}

// What is expected at a key that is missing.
fn expected_at(key: Key) -> &'static str {
    match key {
        Key::Version => "1",
        Key::Device => "a table [device]",
        Key::Queue => "an array of 1 to 64 tables: queues are written [[queue]]",
        Key::Arrivals => "a table of poisson, every, closed, bursts or replay",
        Key::Form => "\"csv\", \"msr\", \"alibaba\", \"blkparse\" or \"fio\"",
        Key::Read | Key::Write | Key::Flush => "how long it takes, of the queue or of the device",
        Key::Poisson => "commands a second as a whole number, or a duration such as \"80us\"",
        Key::OneIn => "a whole number from 1 to 9223372036854775807",
        _ => "a duration such as \"80us\"",
    }
}

impl Flaw {
    // An unknown key, and those that may stand there.
    fn write_unknown<W: fmt::Write>(&self, f: &mut fmt::Formatter<W>) -> fmt::Result {
        write!(f, "unknown key {key:?}, expected one of", key = self.key)?;
        for other in self.known.iter() {
            write!(f, " {name}", name = other.name())?;
        }
        Ok(())
    }

    // What is wrong.
    fn write_fault<W: fmt::Write>(&self, f: &mut fmt::Formatter<W>) -> fmt::Result {
        match self.fault {
            Fault::Missing(key) => {
                let (name, text) = (key.name(), expected_at(key));
                write!(f, "{name} is missing, expected {text}")
            }
            Fault::Unknown => self.write_unknown(f),
            Fault::Bad(kind) => {
                write!(
                    f,
                    "{found}expected {text}",
                    found = self.found,
                    text = text_of(kind)
                )
            }
            Fault::Range(low, high) if low == high => {
                write!(f, "{found}expected {low}", found = self.found)
            }
            Fault::Range(low, high) => {
                write!(
                    f,
                    "{found}expected a whole number from {low} to {high}",
                    found = self.found
                )
            }
            Fault::Refused(refusal) => write!(f, "{found}{refusal}", found = self.found),
            Fault::Beside(key) => write!(f, "can't stand beside {name}", name = key.name()),
            Fault::NotStriped => f.write_str("has no effect without placing = \"striped\""),
            Fault::NotCsv => f.write_str("has no effect without form = \"csv\""),
            Fault::NoService => f.write_str(
                "expected one of fixed, exponential, usual (with rare and one_in) and quantiles",
            ),
            Fault::NoArrivals => f.write_str(
                "expected one of poisson, every, closed (with think), bursts and replay",
            )
        }
    }
}

impl fmt::Display for Flaw {
    fn fmt<W: fmt::Write>(&self, f: &mut fmt::Formatter<W>) -> fmt::Result {
        let (place, target) = (self.place, self.target);
        write!(f, "{place}{target}: ")?;
        self.write_fault(f)?;
        match self.meant {
            Some(meant) => write!(f, "; did you mean `{meant}`?"),
            None => Ok(()),
        }
    }
}

// A fault of the settings, with the key at which it is.
fn write_settings<W: fmt::Write>(fault: &ShortFault, f: &mut fmt::Formatter<W>) -> fmt::Result {
    let place = fault.place;
    let details = ShortDetails(fault);
    match fault.fault {
        nvme_short_form::Fault::Bad(key) => {
            write!(f, "{place}, {name}: {details}", name = key.name())
        }
        nvme_short_form::Fault::Unknown => write!(f, "{place}: unknown key {details}"),
        _ => write!(f, "{place}: {details}"),
    }
}

/// Where the fault is, what stands there and what was expected, without its place in the text.
impl fmt::Display for ModelFault {
    fn fmt<W: fmt::Write>(&self, f: &mut fmt::Formatter<W>) -> fmt::Result {
        match self {
            ModelFault::NotUtf8(_) => f.write_str("expected UTF-8"),
            ModelFault::NotToml(_, error) => f.write_str(error.message()),
            ModelFault::At(flaw) => flaw.fmt(f),
            ModelFault::Settings(fault) => write_settings(fault, f),
            ModelFault::NoMemory => f.write_str("out of memory"),
        }
    }
}

/// A fault of the file of a name, as `FILE:LINE:COLUMN: ` and what is told of it; without the line and the column, where
/// nothing of it was found in the text.
#[derive(Debug, Drop)]
pub struct Told<'a> {
    /// The file's name.
    pub file: &'a str,
    /// Its fault.
    pub fault: &'a ModelFault,
}

impl fmt::Display for Told<'_> {
    fn fmt<W: fmt::Write>(&self, f: &mut fmt::Formatter<W>) -> fmt::Result {
        write!(f, "{file}:", file = self.file)?;
        if let Some(spot) = self.fault.spot() {
            write!(
                f,
                "{line}:{column}:",
                line = spot.line,
                column = spot.column
            )?;
        }
        f.write_str(" ")?;
        self.fault.fmt(f)
    }
}
