// Statuses by their names. (Base Specification, Status Field; NVM Command Set Specification, Status Field)
use nvme_entry::Status;
use std::fmt;

/// A status with its name and its codes.
#[derive(Clone, Copy)]
pub(crate) struct Named(pub(crate) Status);

/// The name of a status code, by its type, where the front answers with this status.
pub fn status_name(sct: u8, sc: u8) -> Option<&'static str> {
    let name = match (sct, sc) {
        (0, 0x00) => "Successful Completion",
        (0, 0x01) => "Invalid Command Opcode",
        (0, 0x02) => "Invalid Field in Command",
        (0, 0x07) => "Command Abort Requested",
        (0, 0x08) => "Command Aborted due to SQ Deletion",
        (0, 0x0b) => "Invalid Namespace or Format",
        (0, 0x0c) => "Command Sequence Error",
        (0, 0x80) => "LBA Out of Range",
        (1, 0x00) => "Completion Queue Invalid",
        (1, 0x01) => "Invalid Queue Identifier",
        (1, 0x02) => "Invalid Queue Size",
        (1, 0x0c) => "Invalid Queue Deletion",
        (1, 0x0d) => "Feature Identifier Not Saveable",
        _ => return None,
    };
    Some(name)
}

impl fmt::Display for Named {
    fn fmt<W: fmt::Write>(&self, f: &mut fmt::Formatter<W>) -> fmt::Result {
        let (sct, sc) = (self.0.sct(), self.0.sc());
        match status_name(sct, sc) {
            Some(name) => write!(f, "{name} ({sct}/{sc:02x})"),
            None => write!(f, "{sct}/{sc:02x}"),
        }
    }
}
