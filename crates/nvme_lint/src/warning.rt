ghost use Rattle.std.specs.Prelude.{◌≡◌};
ghost use Rattle.nvme_lint.specs.Parts.{part_of};

use crate::cause::Cause;
use crate::named::Named;
use crate::part::Part;
use crate::room::Room;
use crate::site::Site;
use nvme_entry::{Sqe, Status};
use std::fmt;

/// The two kinds of region.
#[derive(Clone, Copy, Debug, PartialEq, Eq)]
pub enum Kind {
    Submission,
    Completion,
}

/// What of a valid workload has no effect. Regions of a kind and commands of a script count from 0.
#[derive(Clone, Copy, Debug, PartialEq, Eq)]
pub enum Warning {
    /// A command of the admin script is answered with a status that isn't success. A Create names the region at `site`,
    /// and a queue for which there is this room.
    Refused {
        command: usize,
        entry: Sqe,
        status: Status,
        site: Option<Site>,
        room: Room,
    },
    /// An Abort of the admin script aborts nothing: it names the admin queue, none of whose commands is aborted, or a command
    /// that its queue doesn't have. Either the queue isn't open there, or it has so many `commands`, by the script of its
    /// region.
    NoTarget {
        command: usize,
        entry: Sqe,
        commands: Option<usize>,
    },
    /// No queue is created on a region. If it is a submission region, none of the `commands` of its script is fetched.
    Unused {
        kind: Kind,
        region: usize,
        commands: usize,
    },
    /// A script has more commands than its ring holds, one less than it has slots. So a run is refused in which the
    /// hosts submit all before the front begins.
    TooLong {
        region: usize,
        commands: usize,
        slots: u16,
    },
    /// No command of a script is answered with success, and `failing` of them are answered with this status, as the
    /// first one is. A deletion or an Abort may take some before.
    Failing {
        region: usize,
        failing: usize,
        commands: usize,
        status: Status,
    },
    /// The mechanism is round robin, and some level has another weight than 1.
    WeightsUnheeded,
    /// The mechanism is round robin, and the admin script creates submission queues of two classes or more.
    ClassesUnheeded,
}

// The name of the command with an admin opcode.
fn name_of(opcode: u8) -> &'static str {
    match opcode {
        0x00 => "Delete I/O Submission Queue",
        0x01 => "Create I/O Submission Queue",
        0x04 => "Delete I/O Completion Queue",
        0x05 => "Create I/O Completion Queue",
        0x08 => "Abort",
        0x09 => "Set Features",
        0x0a => "Get Features",
        _ => "opcode",
    }
}

// Writes that a command is refused.
fn write_refused<W: fmt::Write>(cause: &Cause, f: &mut fmt::Formatter<W>) -> fmt::Result {
    let (name, status) = (name_of(cause.entry.opcode), Named(cause.status));
    let qid = cause.entry.cdw10 % 0x1_0000;
    write!(f, "{name}")?;
    match cause.entry.opcode {
        0x00 | 0x01 | 0x04 | 0x05 => write!(f, " {qid}")?,
        0x08 | 0x09 | 0x0a => {}
        other => write!(f, " {other:02x}h")?,
    }
    write!(f, " is refused with {status}{cause}")
}

// Writes that an Abort names a command that its queue doesn't have.
fn write_no_target<W: fmt::Write>(
    entry: &Sqe,
    commands: Option<usize>,
    f: &mut fmt::Formatter<W>,
) -> fmt::Result {
    let (qid, cid) = (entry.cdw10 % 0x1_0000, entry.cdw10 / 0x1_0000);
    write!(f, "Abort of command {cid} of queue {qid} aborts nothing: ")?;
    match commands {
        _ if qid == 0 => f.write_str("no command of the admin queue is aborted"),
        None => f.write_str("no such queue is open"),
        Some(0) => f.write_str("its script has no command"),
        Some(1) => f.write_str("its script has command 0 alone"),
        Some(commands) => write!(f, "its script has commands 0 to {}", commands - 1),
    }
}

// Writes that a submission region isn't used.
fn write_unused<W: fmt::Write>(commands: usize, f: &mut fmt::Formatter<W>) -> fmt::Result {
    f.write_str("no queue is created here")?;
    match commands {
        0 => Ok(()),
        1 => write!(f, ", and its command is never fetched"),
        commands => write!(f, ", and its {commands} commands are never fetched"),
    }
}

impl Warning {
    /// Of what part of the workload it is.
    pub fn part(&self) -> Part
        ensures { result ≡ part_of self.now }
    {
        match *self {
            Warning::Refused { command, .. } | Warning::NoTarget { command, .. } => {
                Part::Command(command)
            }
            Warning::Unused {
                kind: Kind::Completion,
                region,
                ..
            } => Part::Completion(region),
            Warning::Unused { region, .. }
            | Warning::TooLong { region, .. }
            | Warning::Failing { region, .. } => Part::Submission(region),
            Warning::WeightsUnheeded | Warning::ClassesUnheeded => Part::Whole,
        }
    }
}

// Writes that a script is longer than its ring holds.
fn write_too_long<W: fmt::Write>(
    commands: usize,
    slots: u16,
    f: &mut fmt::Formatter<W>,
) -> fmt::Result {
    let most = slots.saturating_sub(1);
    write!(
        f,
        "{commands} commands, of which its ring of {slots} slots holds {most} at once: a run is refused without --live"
    )
}

// Writes that the commands of a script come to nothing.
fn write_failing<W: fmt::Write>(
    failing: usize,
    commands: usize,
    status: Status,
    f: &mut fmt::Formatter<W>,
) -> fmt::Result {
    let status = Named(status);
    let answered = if commands == 1 {
        "command is answered"
    } else {
        "commands are answered"
    };
    write!(f, "{failing} of {commands} {answered} {status}")?;
    if failing == commands {
        return Ok(());
    }
    f.write_str(", and the others with other errors")
}

/// Of a warning: what has no effect, without the part of the workload.
#[derive(Clone, Copy)]
pub struct WarningDetails<'a>(pub &'a Warning);

impl fmt::Display for WarningDetails<'_> {
    fn fmt<W: fmt::Write>(&self, f: &mut fmt::Formatter<W>) -> fmt::Result {
        match *self.0 {
            Warning::Refused {
                entry,
                status,
                site,
                room,
                ..
            } => {
                let entry = &entry;
                let cause = Cause {
                    entry,
                    status,
                    site,
                    room,
                };
                write_refused(&cause, f)
            }
            Warning::NoTarget {
                entry,
                commands,
                ..
            } => write_no_target(&entry, commands, f),
            Warning::Unused { commands, .. } => write_unused(commands, f),
            Warning::TooLong {
                commands,
                slots,
                ..
            } => write_too_long(commands, slots, f),
            Warning::Failing {
                failing,
                commands,
                status,
                ..
            } => write_failing(failing, commands, status, f),
            Warning::WeightsUnheeded => f.write_str(
                "weights have no effect under round robin: mechanism isn't \"weighted\"",
            ),
            Warning::ClassesUnheeded => f.write_str(
                "classes have no effect under round robin: mechanism isn't \"weighted\"",
            ),
        }
    }
}

impl fmt::Display for Warning {
    fn fmt<W: fmt::Write>(&self, f: &mut fmt::Formatter<W>) -> fmt::Result {
        match self.part() {
            Part::Whole => {}
            part => write!(f, "{part}: ")?,
        }
        WarningDetails(self).fmt(f)
    }
}
