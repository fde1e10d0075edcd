// Why there is no sweep.
ghost use Rattle.std.specs.Prelude.{◌≡◌, ◌∷◌, ◌++◌, [], OnOk};
ghost use Rattle.nvme_points.specs.declared.fault.SweepFault.TheVariants.{NoMemory};

use nvme_arbiter::Class;
use nvme_model_file::ModelFault;
use nvme_numbers::class_name;
use nvme_plot::LINES;
use nvme_simulate::{FileFault, LoadFault, ReplayError, SimulateFault};
use std::alloc::AllocError;
use std::fmt;

/// Why the words of a sweep are refused, or why it has no answer.
#[derive(Debug, Drop)]
pub enum SweepFault<'a> {
    /// These words are no key and its values.
    NoValues(&'a str),
    /// This value is empty, or has a character that none has.
    BadValue(&'a str),
    /// This key is there twice.
    Twice(&'a str),
    /// This key has this value twice.
    SameValue(&'a str, &'a str),
    /// There are more than `MAX_POINTS` combinations.
    TooManyPoints,
    /// A picture would have so many lines, which are more than it tells apart.
    TooManyLines(usize),
    /// A picture is to be of this class, and there is none of this name.
    NotAClass(&'a str),
    /// A picture is to be of this class, and at no point a queue has it.
    NoClass(Class),
    /// The tables of the file have no such key.
    NoKey(&'a str),
    /// The value of a key isn't one that it takes, as three weights.
    Unfit(&'a str, &'a str),
    /// The file isn't a TOML document.
    NotToml,
    /// At this point, whose values are told, the file has this fault.
    Point(String, ModelFault),
    /// At this point, whose values are told, the file of this name can't be replayed.
    Replay(String, String, ReplayError),
    /// At this point, whose values are told, the load is none, or its open queues can't be scaled to it.
    Load(String, LoadFault),
    /// This option would stand in place of this key, which is swept.
    Overridden(&'static str, &'a str),
    /// The simulation of this point, whose values are told, has no answer.
    Stopped(String, SimulateFault),
    /// A write failed.
    Write,
    /// Out of memory.
    NoMemory,
}

impl From<AllocError> for SweepFault<'_> {
    ghost from_gives = { λ _ e. e ≡ NoMemory };

    fn from(_error: AllocError) -> Self {
        SweepFault::NoMemory
    }
}

/// Adds an item to a list.
pub fn add<T: Drop>(list: &mut Vec<T>, item: T) -> Result<(), AllocError>
    ensures { OnOk result (list.new.items ≡ list.old.items ++ item ∷ []) }
{
    list.push(item)?;
    Ok(())
}

impl fmt::Display for SweepFault<'_> {
    fn fmt<W: fmt::Write>(&self, f: &mut fmt::Formatter<W>) -> fmt::Result {
        match self {
            SweepFault::NoValues(words) => {
                write!(
                    f,
                    "--sweep {words:?}: expected a key and its values, as burst=1,8"
                )
            }
            SweepFault::BadValue(words) => {
                write!(
                    f,
                    "--sweep {words:?}: expected values of letters, digits and . _ - : +"
                )
            }
            SweepFault::Twice(key) => write!(f, "--sweep {key}: the key is swept twice"),
            SweepFault::SameValue(key, value) => {
                write!(f, "--sweep {key}: the value {value} is there twice")
            }
            SweepFault::TooManyPoints => f.write_str("--sweep: expected at most 100000 points"),
            SweepFault::TooManyLines(lines) => {
                let (lines, most) = (*lines, LINES);
                write!(
                    f,
                    "--chart: expected at most {most} combinations of the keys before the last one, found {lines}"
                )
            }
            SweepFault::NotAClass(name) => {
                write!(f, "--class {name:?}: expected urgent, high, medium or low")
            }
            SweepFault::NoClass(class) => {
                let name = class_name(*class);
                write!(f, "--class {name}: no queue is of this class")
            }
            SweepFault::NoKey(key) => {
                write!(f, "--sweep {key}: the file has no table for such a key")
            }
            SweepFault::Unfit(key, value) => {
                write!(
                    f,
                    "--sweep {key}={value}: expected three weights, as 8:4:2, or a number of 63 bits"
                )
            }
            SweepFault::NotToml => f.write_str("expected a TOML document"),
            SweepFault::Point(point, fault) => write!(f, "{point}: {fault}"),
            SweepFault::Replay(point, file, error) => {
                let fault = FileFault {
                    file: file.as_str(),
                    error: *error,
                };
                write!(f, "{point}: {fault}")
            }
            SweepFault::Load(point, fault) if point.is_empty() => write!(f, "--load: {fault}"),
            SweepFault::Load(point, fault) => write!(f, "--sweep {point}: {fault}"),
            SweepFault::Overridden(option, key) => {
                write!(f, "{option} and --sweep {key} don't go together")
            }
            SweepFault::Stopped(point, fault) => write!(f, "simulation: {point}: {fault}"),
            SweepFault::Write => f.write_str("write failed"),
            SweepFault::NoMemory => f.write_str("out of memory"),
        }
    }
}
