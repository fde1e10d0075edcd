// What happens in a simulation.
use nvme_arbiter::Pick;
use nvme_model::Finished;

/// A pick of commands that the device took.
#[derive(Clone, Copy, Debug, PartialEq, Eq)]
pub struct Picked {
    /// When, in picoseconds.
    pub at: u64,
    /// How many commands the device had room for.
    pub room: u16,
    pub pick: Pick,
}

/// What happens in a simulation.
#[derive(Clone, Copy, Debug, PartialEq, Eq)]
pub enum Happening {
    /// A command of a queue came, or none comes there any more.
    Came { queue: u16 },
    /// Commands were picked, which the device took.
    Picked(Picked),
    /// No command can be picked: none waits, or the device has no room.
    Settled,
    /// A command is done. The numbers count it where it isn't of those that came first, to warm up.
    Finished { command: Finished, counts: bool },
    /// No command starts on a channel until it goes on.
    Paused { channel: usize },
    /// Commands start on a channel again.
    Resumed { channel: usize },
    /// All commands that came are done, and no more come.
    Over,
}

impl Happening {
    ghost use Rattle.std.specs.Prelude.{◌≡◌};
    ghost use Rattle.nvme_simulation.specs.Plans.{is_pick};

    // Whether commands were picked.
    pub(crate) fn is_pick(&self) -> bool
        ensures { result ≡ is_pick self.now }
    {
        matches!(self, Happening::Picked(_))
    }
}
