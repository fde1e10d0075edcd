// Rules, and what is said of an event.

/// A rule for the controller.
#[derive(Clone, Copy, Debug, PartialEq, Eq)]
pub enum Rule {
    /// A command is fetched from an open submission queue.
    FetchClosed,
    /// No command is fetched that the tail doorbell didn't announce.
    FetchBeyondTail,
    /// Commands are fetched slot by slot.
    FetchSlot,
    /// A completion is written into an open completion queue, and for a submission queue that isn't deleted.
    PostClosed,
    /// Completions are written slot by slot.
    Slot,
    /// The phase tag turns with each pass of the ring.
    Phase,
    /// No completion is written into a full queue.
    CqFull,
    /// A completion is written into the completion queue of its submission queue.
    CqWrong,
    /// A completion names an outstanding command: one that was fetched and isn't answered.
    Life,
    /// The head is after the command's own entry, and no further than what was fetched.
    Sqhd,
    /// A command is aborted by the deletion of its queue only where a Delete named that.
    SqdelUnasked,
    /// A command is aborted only where an Abort named it.
    AbortUnasked,
    /// A command that an Abort says was aborted is outstanding, and ends so.
    AbortUntrue,
    /// A command specific status is one of the command.
    StatusForeign,
    /// The status of a Create is true of some moment between fetch and completion.
    StatusCreate,
    /// That of a Delete is.
    StatusDelete,
    /// Set Features of Number of Queues tells possible numbers, the same each time, and before the first I/O queue.
    Features,
}

/// A rule for the host.
#[derive(Clone, Copy, Debug, PartialEq, Eq)]
pub enum Breach {
    /// A tail is a slot of an open submission queue.
    TailRange,
    /// A tail announces no more commands than the queue has room for.
    TailFull,
    /// A head is a slot of an open completion queue, and no further than its completions.
    HeadRange,
    /// An identifier is that of no outstanding command of its queue.
    CidReused,
}

/// What is said of an event.
#[derive(Clone, Copy, Debug, PartialEq, Eq)]
pub enum Verdict {
    /// It breaks no rule, or the host broke one of its queue before.
    Kept,
    /// The host broke a rule. Nothing more is asked of that queue until it is created again.
    Host(Breach),
    /// The controller broke a rule.
    Broken(Rule),
}

impl Verdict {
    ghost use Rattle.std.specs.Prelude.{◌≡◌};
    ghost use Rattle.nvme_audit.specs.Host.{is_kept};
    ghost use Rattle.nvme_audit.specs.Lawful.{is_broken};

    /// Whether no rule is broken.
    pub fn is_kept(&self) -> bool
        ensures { result ≡ is_kept self.now }
    {
        matches!(self, Verdict::Kept)
    }

    /// Whether the controller broke a rule.
    pub fn is_broken(&self) -> bool
        ensures { result ≡ is_broken self.now }
    {
        matches!(self, Verdict::Broken(_))
    }
}
