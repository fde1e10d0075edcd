// The admin commands that are the device's. (Base Specification, Opcodes for Admin Commands, Set Features and Get Features,
// Feature Identifiers)
//
// Decided: an Abort that names no waiting command is the device's, where it announced Abort: it may have the command,
// and knows how many Aborts it has at a time.
ghost use Rattle.std.specs.Prelude.{◌≡◌, slice_set};
ghost use Rattle.nvme_ctrl.specs.Own.{no_numbers};
ghost use Rattle.nvme_ctrl_log.specs.Own.{is_core_feature, selects};

use nvme_entry::{AdminCommand, Sqe, admin_of};

/// The features whose Set and Get the controller carries out itself: Arbitration and Number of Queues.
const ARBITRATION: u8 = 0x01;

const NUMBER_OF_QUEUES: u8 = 0x07;

/// The admin commands that are the device's: those of the opcodes, and the Set Features and Get Features of the feature
/// identifiers, whose numbers aren't 0.
#[repr(C)]
#[derive(Clone, Copy, Drop)]
pub struct OwnCommands {
    pub opcodes: [u8; 256],
    pub features: [u8; 256],
}

// No number is set.
fn no_numbers() -> [u8; 256]
    ensures { result ≡ no_numbers }
{
    [0; 256]
}

impl OwnCommands {
    ghost use Rattle.std.specs.Prelude.{◌≡◌, slice_set};
    ghost use Rattle.nvme_ctrl.specs.Own.{no_own, kind_is_own, with_opcode, with_feature};

    /// No command is the device's.
    pub fn none() -> OwnCommands
        ensures { result ≡ no_own }
    {
        OwnCommands {
            opcodes: no_numbers(),
            features: no_numbers(),
        }
    }

    /// The commands of an opcode are the device's too. Those of the controller's own opcodes stay the controller's, but for
    /// Aborts that name no command that waits.
    pub fn add_opcode(&mut self, opcode: u8)
        ensures { self.new ≡ with_opcode opcode self.old }
    {
        self.opcodes[usize::from(opcode)] = 1;
    }

    /// The Set Features and Get Features of a feature identifier are the device's too.
    pub fn add_feature(&mut self, fid: u8)
        ensures { self.new ≡ with_feature fid self.old }
    {
        self.features[usize::from(fid)] = 1;
    }

    /// Whether an entry of the admin queue is of a kind that is the device's. An Abort of such a kind is the device's where
    /// it names no command that waits.
    pub fn has(&self, entry: &Sqe) -> bool
        ensures { result ≡ kind_is_own self.now entry.now }
    {
        if entry.fuse() != 0 {
            return false;
        }
        match admin_of(entry) {
            AdminCommand::Other | AdminCommand::Abort { .. } => {
                self.opcodes[usize::from(entry.opcode)] != 0
            }
            AdminCommand::SetFeatures { fid, .. } => {
                self.features[usize::from(fid)] != 0 && !is_core_feature(fid)
            }
            AdminCommand::GetFeatures { fid } => {
                self.features[usize::from(fid)] != 0 && (!is_core_feature(fid) || selects(entry))
            }
            _ => false,
        }
    }
}

// Whether a feature is one of the controller's.
fn is_core_feature(fid: u8) -> bool
    ensures { result ≡ is_core_feature fid }
{
    fid == ARBITRATION || fid == NUMBER_OF_QUEUES
}

// Whether a Get Features asks for another value than the current one.
fn selects(entry: &Sqe) -> bool
    ensures { result ≡ selects entry.now }
{
    entry.cdw10 / 0x100 % 8 != 0
}
