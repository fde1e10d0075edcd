// What the rules read of the events so far.
use nvme_entry::AdminCommand;

/// What the observer writes down. That a kind is missing counts against the controller only where the observer tells
/// all of it. Fetches and completions are always told.
#[derive(Clone, Copy, Debug, PartialEq, Eq)]
pub struct Tells {
    /// Each write of a tail doorbell.
    pub tails: bool,
    /// Each write of a head doorbell.
    pub heads: bool,
    /// Completions are told where the controller writes them. Otherwise they are told where the host reads them,
    /// which may be later.
    pub posts: bool,
}

/// Where a log starts.
#[derive(Clone, Copy, Debug, PartialEq, Eq)]
pub struct Start {
    pub tells: Tells,
    /// ASQS, the size of the admin submission queue, zero based.
    pub asqs: u16,
    /// ACQS, the size of the admin completion queue, zero based.
    pub acqs: u16,
}

/// What the latest Create of a submission queue asked: QSIZE, zero based, and CQID.
#[derive(Clone, Copy)]
pub struct Ring {
    pub qsize: u16,
    pub cqid: u16,
}

/// The facts of a submission queue. The counts are those since it was created.
#[derive(Clone, Copy)]
pub struct Sq {
    /// `None` where the queue isn't open.
    pub ring: Option<Ring>,
    /// How many commands the tail doorbell announced.
    pub submitted: u64,
    /// How many commands were fetched.
    pub fetched: u64,
    /// Whether a queue with this identifier was ever deleted.
    pub deleted: bool,
    /// Whether the host broke a rule of the queue.
    pub excused: bool,
    /// How many Creates and Deletes of the queue were fetched, since the start.
    pub asked: u64,
    /// How many of them were answered.
    pub answered: u64,
    /// Whether a Delete of the queue was ever fetched.
    pub doomed: bool,
    /// How often a command of the queue was aborted, or all ended with their queue.
    pub stirred: u64,
}

/// The facts of a completion queue. The counts are those since it was created.
#[derive(Clone, Copy)]
pub struct Cq {
    /// QSIZE, zero based. `None` where the queue isn't open.
    pub qsize: Option<u16>,
    /// How many completions were told.
    pub posted: u64,
    /// How many completions the head doorbell released.
    pub consumed: u64,
    /// Whether the host broke a rule of the queue.
    pub excused: bool,
    /// How many Creates and Deletes of the queue were fetched, since the start.
    pub asked: u64,
    /// How many of them were answered.
    pub answered: u64,
    /// How many submission queues were created onto it, since the start.
    pub joined: u64,
    /// How many of those were deleted, or created anew.
    pub parted: u64,
    /// Whether a completion came before the host was told that the queue is open. How many came since it was created nobody
    /// knows then.
    pub early: bool,
}

/// The facts of the admin commands.
#[derive(Clone, Copy)]
pub struct Admin {
    /// How many Creates and Deletes of submission queues were fetched.
    pub asked: u64,
    /// How many of them were answered.
    pub answered: u64,
    /// Whether two Creates or Deletes of one queue were ever outstanding at once.
    pub met: bool,
    /// Whether an I/O queue was ever created.
    pub created: bool,
    /// What the first Set Features of Number of Queues was answered.
    pub numbers: Option<u32>,
    /// How many Aborts were fetched.
    pub aborts_asked: u64,
    /// How many of them were answered.
    pub aborts_answered: u64,
}

/// An outstanding command.
#[derive(Clone, Copy)]
pub struct Command {
    /// How many commands of its queue were fetched before it.
    pub number: u64,
    /// What it asks, where it is of the admin queue.
    pub command: AdminCommand,
    /// Of the commands on which its status depends, how many were answered when it was fetched.
    pub mark: u64,
    /// Whether an Abort named it, or may have.
    pub named: bool,
    /// Whether an Abort says that it was aborted.
    pub owed: bool,
}

impl Sq {
    ghost use Rattle.std.specs.Prelude.{◌≡◌, []};
    ghost use Rattle.nvme_audit.specs.Facts.{sq_after};

    /// The facts before the first event. The admin queue is open.
    pub fn first(start: &Start, q: u16) -> Sq
        ensures { result ≡ sq_after start.now [] q }
    {
        let ring = if q == 0 {
            Some(Ring {
                qsize: start.asqs,
                cqid: 0,
            })
        } else {
            None
        };
        Sq {
            ring,
            submitted: 0,
            fetched: 0,
            deleted: false,
            excused: false,
            asked: 0,
            answered: 0,
            doomed: false,
            stirred: 0,
        }
    }
}

impl Cq {
    ghost use Rattle.std.specs.Prelude.{◌≡◌, []};
    ghost use Rattle.nvme_audit.specs.Facts.{cq_after};

    /// The facts before the first event. The admin queue is open.
    pub fn first(start: &Start, q: u16) -> Cq
        ensures { result ≡ cq_after start.now [] q }
    {
        let qsize = if q == 0 { Some(start.acqs) } else { None };
        Cq {
            qsize,
            posted: 0,
            consumed: 0,
            excused: false,
            asked: 0,
            answered: 0,
            joined: 0,
            parted: 0,
            early: false,
        }
    }
}

impl Admin {
    ghost use Rattle.std.specs.Prelude.{◌≡◌, []};
    ghost use Rattle.nvme_audit.specs.Facts.{admin_after};

    /// The facts before the first event.
    pub fn first() -> Admin
        ensures { result ≡ admin_after [] }
    {
        Admin {
            asked: 0,
            answered: 0,
            met: false,
            created: false,
            numbers: None,
            aborts_asked: 0,
            aborts_answered: 0,
        }
    }
}
