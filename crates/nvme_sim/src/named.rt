// Warnings of a workload, by the places of the file that stands for it.
use nvme_lint::{Part, Warning, WarningDetails};
use nvme_short::Names;
use std::fmt;

/// A warning of a workload for which a short file stands, by the names of that file.
#[derive(Clone, Copy)]
pub(crate) struct Named<'a> {
    pub(crate) warning: &'a Warning,
    pub(crate) names: &'a Names,
}

impl Named<'_> {
    // Writes the place of a command of the admin script.
    fn write_command<W: fmt::Write>(
        &self,
        command: usize,
        f: &mut fmt::Formatter<W>,
    ) -> fmt::Result {
        match self.names.commands.get(command) {
            Some(place) => write!(f, "{place} (command 0.{command}): "),
            None => write!(f, "command 0.{command}: "),
        }
    }

    // Writes the queue of a completion region.
    fn write_completion<W: fmt::Write>(
        &self,
        region: usize,
        f: &mut fmt::Formatter<W>,
    ) -> fmt::Result {
        match self.names.completions.get(region.wrapping_sub(1)) {
            Some(queue) => write!(f, "queue {queue}, completion queue: "),
            None => write!(f, "completion {region}: "),
        }
    }
}

impl fmt::Display for Named<'_> {
    fn fmt<W: fmt::Write>(&self, f: &mut fmt::Formatter<W>) -> fmt::Result {
        match self.warning.part() {
            Part::Command(command) => self.write_command(command, f)?,
            Part::Submission(0) => f.write_str("admin: ")?,
            Part::Submission(queue) => write!(f, "queue {queue}: ")?,
            Part::Completion(region) => self.write_completion(region, f)?,
            Part::Whole => {}
        }
        WarningDetails(self.warning).fmt(f)
    }
}
