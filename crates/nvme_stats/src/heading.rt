// The words at the head of statistics and pictures.
use nvme_arbiter::Mechanism;
use nvme_terms::{count_of, mechanism_name};
use std::fmt;

/// The mechanism of a trace, and how many picks and commands it has: `weighted: 3 picks, 14 commands`.
#[derive(Clone, Copy, Debug, PartialEq, Eq)]
pub struct Heading {
    pub mechanism: Mechanism,
    pub picks: u64,
    pub commands: u64,
}

impl fmt::Display for Heading {
    fn fmt<W: fmt::Write>(&self, f: &mut fmt::Formatter<W>) -> fmt::Result {
        let mechanism = mechanism_name(self.mechanism);
        let picks = count_of(self.picks, "pick");
        let commands = count_of(self.commands, "command");
        write!(f, "{mechanism}: {picks}, {commands}")
    }
}
