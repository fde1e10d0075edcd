// The parts of a workload of which there are warnings.
use std::fmt;

/// A part of a workload. Regions of a kind and commands of a script count from 0.
#[derive(Clone, Copy, Debug, PartialEq, Eq)]
pub enum Part {
    /// A command of the admin script.
    Command(usize),
    /// A submission region.
    Submission(usize),
    /// A completion region.
    Completion(usize),
    /// The whole of it.
    Whole,
}

impl fmt::Display for Part {
    fn fmt<W: fmt::Write>(&self, f: &mut fmt::Formatter<W>) -> fmt::Result {
        match self {
            Part::Command(command) => write!(f, "command 0.{command}"),
            Part::Submission(region) => write!(f, "submission {region}"),
            Part::Completion(region) => write!(f, "completion {region}"),
            Part::Whole => f.write_str("workload"),
        }
    }
}
