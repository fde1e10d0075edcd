// Scripts that are longer than their rings hold.
use nvme_admin::MAX_SLOTS;
use std::fmt;

/// The script of a submission region, which has as many commands as its ring has slots, or more.
#[derive(Clone, Copy, Debug, PartialEq, Eq)]
pub(crate) struct LongScript {
    /// The region, counted from 0. In what a short file is written out to, it is that of the queue of this number.
    pub(crate) region: u8,
    /// How many commands the script has.
    pub(crate) commands: usize,
    /// How many slots the ring has.
    pub(crate) slots: u16,
    /// Whether the workload is that of a short file.
    pub(crate) is_short: bool,
}

impl fmt::Display for LongScript {
    fn fmt<W: fmt::Write>(&self, f: &mut fmt::Formatter<W>) -> fmt::Result {
        match (self.is_short, self.region) {
            (false, _) => {}
            (true, 0) => f.write_str("admin: ")?,
            (true, queue) => write!(f, "queue {queue}: ")?,
        }
        let (commands, slots) = (self.commands, self.slots);
        let held = slots.saturating_sub(1);
        write!(
            f,
            "its script has {commands} commands, and its ring of {slots} slots holds {held}: take --live"
        )?;
        let most = MAX_SLOTS;
        if self.is_short && commands < usize::from(most) {
            write!(f, ", or a greater depth, up to {most}")?;
        }
        Ok(())
    }
}
