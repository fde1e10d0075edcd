// A row of windows, each of the same number of picks.
ghost use Rattle.std.specs.Prelude.{◌≡◌, IfErr};
ghost use Rattle.nvme_trace.specs.declared.fault.TraceError.TheVariants as fault;

use crate::lanes::{LANES, lanes_of_queue};
use nvme_arbiter::Pick;
use nvme_trace::TraceError;
use std::alloc::Global;

/// What was picked in a window, from each row.
#[derive(Clone, Copy)]
pub struct Window {
    /// The commands of each row.
    pub rows: [u64; LANES],
    /// All commands, those of queues that aren't seen among them.
    pub commands: u64,
    /// The number of its first pick.
    pub first: u64,
    /// The number of its last pick.
    pub last: u64,
    /// Whether a round starts in it.
    pub fresh: bool,
    /// The number of its first pick before which settings change.
    pub change: Option<u64>,
}

const EMPTY: Window = Window {
    rows: [0; LANES],
    commands: 0,
    first: 0,
    last: 0,
    fresh: false,
    change: None,
};

impl Window {
    /// The commands of a queue, over all classes.
    pub fn of_queue(&self, qid: u16) -> u64 {
        let mut sum = 0u64;
        for row in lanes_of_queue(qid) {
            sum = sum.saturating_add(self.rows.get(row).copied().unwrap_or(0));
        }
        sum
    }

    // Adds a later window to this one.
    fn add(&mut self, other: &Window) {
        for (commands, more) in self.rows.iter_mut().zip(&other.rows) {
            *commands = commands.saturating_add(*more);
        }
        self.commands = self.commands.saturating_add(other.commands);
        self.last = other.last;
        self.fresh |= other.fresh;
        self.change = self.change.or(other.change);
    }
}

/// Windows in a row. Beyond the most that there may be, each sums up 2, 4, 8 or more, so that their memory doesn't grow
/// with the picks.
#[derive(Drop)]
pub struct Series {
    /// The windows.
    pub all: Vec<Window>,
    /// How many picks a window has.
    pub step: u64,
    // How many picks the last window has so far, and the most windows.
    filled: u64,
    most: usize,
}

impl Series {
    /// No window yet: each will have so many picks.
    pub fn new(alloc: Global, step: u64, most: usize) -> Series {
        Series {
            all: Vec::new(alloc),
            step,
            filled: 0,
            most,
        }
    }

    // Sums up the windows in pairs. The last of an odd number stays as it is.
    fn halve(&mut self) {
        let half = self.all.len() / 2;
        let last = self.all.last().copied();
        for at in 0..half {
            let mut sum = self.all[2 * at];
            sum.add(&self.all[2 * at + 1]);
            self.all[at] = sum;
        }
        if self.all.len() % 2 == 0 {
            self.filled = self.filled.saturating_add(self.step);
            self.all.truncate(half);
        } else {
            self.all.truncate(half + 1);
            if let (Some(window), Some(last)) = (self.all.last_mut(), last) {
                *window = last;
            }
        }
        self.step = self.step.saturating_mul(2);
    }

    /// Sums up windows until there are at most so many, at least 1.
    pub fn fit(&mut self, most: u64) {
        for _ in 0..32 {
            if self.all.len() as u64 <= most.max(1) {
                return;
            }
            self.halve();
        }
    }

    /// Adds the last window to the one before where it has less than half of its picks.
    pub fn join_rest(&mut self) {
        if self.filled >= self.step / 2 || self.all.len() < 2 {
            return;
        }
        let last = self.all.pop();
        if let (Some(window), Some(last)) = (self.all.last_mut(), last) {
            window.add(&last);
        }
    }

    // Makes room for one pick in the last window.
    fn make_room(&mut self, number: u64) -> Result<(), TraceError>
        ensures { IfErr result (λ e. e ≡ fault.NoMemory) }
    {
        if !self.all.is_empty() && self.filled < self.step {
            return Ok(());
        }
        if self.all.len() >= self.most {
            self.halve();
            if self.filled < self.step {
                return Ok(());
            }
        }
        let mut window = EMPTY;
        window.first = number;
        self.all.push(window)?;
        self.filled = 0;
        Ok(())
    }

    /// Adds a pick of a row, or of none, by its number. The settings changed before it or not.
    pub fn note_pick(
        &mut self,
        number: u64,
        row: Option<usize>,
        pick: &Pick,
        set: bool,
    ) -> Result<(), TraceError>
        ensures { IfErr result (λ e. e ≡ fault.NoMemory) }
    {
        self.make_room(number)?;
        self.filled = self.filled.saturating_add(1);
        if let Some(window) = self.all.last_mut() {
            window.last = number;
            window.fresh |= pick.fresh;
            if set && window.change.is_none() {
                window.change = Some(number);
            }
            window.commands = window.commands.saturating_add(u64::from(pick.n));
            if let Some(commands) = row.and_then(|row| window.rows.get_mut(row)) {
                *commands = commands.saturating_add(u64::from(pick.n));
            }
        }
        Ok(())
    }
}
