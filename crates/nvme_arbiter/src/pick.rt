// What arbitration sees, and what it answers.
use crate::settings::Class;

/// A submission queue as arbitration sees it: its identifier (0 is the admin queue), its priority class, and how
/// many of its commands wait to be picked.
#[derive(Clone, Copy, Debug, Default, PartialEq, Eq)]
pub struct Seen {
    /// The identifier of the submission queue.
    pub qid: u16,
    /// Its priority class. It is `Admin` for queue 0 and for no other.
    pub class: Class,
    /// How many of its commands wait.
    pub count: u16,
}

/// A pick of arbitration: the next `n` commands of a submission queue.
#[derive(Clone, Copy, Debug, Default, PartialEq, Eq)]
pub struct Pick {
    /// The identifier of the submission queue.
    pub qid: u16,
    /// How many commands are taken from it, at least 1.
    pub n: u16,
    /// Whether the pick starts a new round of the weighted levels.
    pub fresh: bool,
}

impl Pick {
    ghost use Rattle.std.specs.Prelude.{◌≡◌};
    ghost use Rattle.nvme_arbiter.specs.Lawful.{cut};

    /// The same pick, of at most so many commands.
    pub fn up_to(self, limit: u16) -> Pick
        ensures { result ≡ cut limit self }
    {
        Pick {
            n: self.n.min(limit),
            ..self
        }
    }
}

/// An open submission queue of a board.
#[derive(Clone, Copy, Debug, PartialEq, Eq)]
pub struct OpenQueue {
    /// Its priority class.
    pub class: Class,
    /// How many of its commands wait to be picked.
    pub count: u16,
}
