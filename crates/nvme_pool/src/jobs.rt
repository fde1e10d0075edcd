//! Jobs and their results.
ghost use Rattle.std.specs.Prelude.{◌≡◌};
ghost use Rattle.nvme_entry.specs.Outcome.{outcome_of};

use nvme_entry::{Namespaces, Sqe, Status, outcome};

/// All that a worker needs to execute an I/O command.
#[derive(Clone, Copy, Debug, PartialEq, Eq)]
pub struct Job {
    /// Which job it is. The front counts them from 0.
    pub ticket: u32,
    /// The command.
    pub entry: Sqe,
    /// The namespaces that it is checked against.
    pub spaces: Namespaces,
}

/// The result of a job. Its type keeps that the status is the outcome of the entry over the namespaces.
#[derive(Clone, Copy, Debug, PartialEq, Eq)]
pub struct Finished {
    ticket: u32,
    entry: Sqe,
    spaces: Namespaces,
    status: Status,
    pub ghost right: { status ≡ outcome_of entry spaces },
}

impl Job {
    ghost use Rattle.std.specs.Prelude.{◌≡◌};
    ghost use Rattle.nvme_pool.specs.Jobs.{result_of};

    // Executes the command.
    pub(crate) fn execute(&self) -> Finished
        ensures { result ≡ result_of self.now }
    {
        Finished {
            ticket: self.ticket,
            entry: self.entry,
            spaces: self.spaces,
            status: outcome(&self.entry, &self.spaces),
        }
    }
}

impl Finished {
    ghost use Rattle.std.specs.Prelude.{◌≡◌};
    ghost use Rattle.nvme_entry.specs.Outcome.{outcome_of};
    ghost use Rattle.nvme_pool.specs.Jobs.{job_of, status_of};

    /// The ticket of the job.
    pub fn ticket(&self) -> u32
        ensures { result ≡ (job_of self.now).ticket }
    {
        self.ticket
    }

    /// The job's command.
    pub fn entry(&self) -> Sqe
        ensures { result ≡ (job_of self.now).entry }
    {
        self.entry
    }

    /// The namespaces that the command was checked against.
    pub fn spaces(&self) -> Namespaces
        ensures { result ≡ (job_of self.now).spaces }
    {
        self.spaces
    }

    /// The status of the command: its outcome over the namespaces.
    pub fn status(&self) -> Status
        ensures value { result ≡ status_of self.now }
        ensures outcome { result ≡ outcome_of (job_of self.now).entry (job_of self.now).spaces }
    {
        self.status
    }
}
