// The outstanding commands by their names.
ghost use Rattle.std.specs.Prelude.{◌≡◌, ℕ, ◌==◌, ◌&&◌, None, Some, OnOk, OnErr, if◌then◌else◌};

use crate::facts::Command;
use crate::judge::AuditError;
use std::alloc::Global;
use std::collections::HashMap;

/// The outstanding commands, by SQID and CID.
#[derive(Drop)]
pub struct Commands {
    pub by_name: HashMap<(u16, u16), Command>,
}

impl Commands {
    ghost use Rattle.nvme_audit.specs.Standing.{command_at};
    ghost use Rattle.nvme_audit.specs.inside.Steps.{flagged};

    /// No command.
    pub fn new(alloc: Global) -> Commands
        ensures { (q c : ℕ) → command_at result q c ≡ None }
    {
        Commands {
            by_name: HashMap::new(alloc),
        }
    }

    /// The command of a name.
    pub fn get(&self, sq: u16, cid: u16) -> Option<Command>
        ensures { result ≡ command_at self.now sq cid }
    {
        self.by_name.get(&(sq, cid)).copied()
    }

    /// Takes a command under a name.
    pub fn insert(&mut self, sq: u16, cid: u16, command: Command) -> Result<(), AuditError>
        ensures inserts { OnOk result ((q c : ℕ) → command_at self.new q c ≡ (if (sq == q) && (cid == c) then Some command else command_at self.old q c)) }
        ensures absent { OnErr result (command_at self.old sq cid ≡ None) }
    {
        match self.by_name.insert((sq, cid), command) {
            Ok(_) => Ok(()),
            Err(_) => Err(AuditError::NoMemory),
        }
    }

    /// Notes of the command of a name that an Abort names it, or says that it was aborted.
    pub fn flag(&mut self, sq: u16, cid: u16, named: bool, owed: bool) -> Result<(), AuditError>
        ensures { OnOk result ((q c : ℕ) → command_at self.new q c ≡ (if (sq == q) && (cid == c) then flagged named owed (command_at self.old q c) else command_at self.old q c)) }
    {
        match self.get(sq, cid) {
            Some(command) => self.insert(
                sq,
                cid,
                Command {
                    named: named || command.named,
                    owed: owed || command.owed,
                    ..command
                },
            ),
            None => Ok(()),
        }
    }

    /// Gives up the command of a name.
    pub fn remove(&mut self, sq: u16, cid: u16)
        ensures { (q c : ℕ) → command_at self.new q c ≡ (if (sq == q) && (cid == c) then None else command_at self.old q c) }
    {
        let _ = self.by_name.remove(&(sq, cid));
    }

    /// Gives up the commands of a submission queue.
    pub fn remove_queue(&mut self, sq: u16)
        ensures { (q c : ℕ) → command_at self.new q c ≡ (if sq == q then None else command_at self.old q c) }
    {
        self.by_name.retain(|name, _| name.0 != sq);
    }
}
