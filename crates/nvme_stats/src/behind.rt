// How long the low level waits behind the levels above it.
use nvme_arbiter::{Class, Mechanism, Seen, Settings};

/// The commands of High and Medium that are picked in a row while a low queue is ready and no admin or urgent one is.
/// Any other pick ends the row.
#[derive(Clone, Copy)]
pub struct Behind {
    commands: u64,
    /// The most such commands.
    pub longest: u64,
    /// The bound by the settings then.
    pub bound: u64,
}

/// No such command.
pub const NOT_BEHIND: Behind = Behind {
    commands: 0,
    longest: 0,
    bound: 0,
};

// Whether a class has a ready queue.
fn is_ready(seen: &[Seen], class: Class) -> bool {
    seen.iter()
        .any(|queue| queue.class == class && queue.count > 0)
}

// Twice the weights of High and Medium.
fn low_bound(settings: &Settings) -> u64 {
    let high = settings.weight(Class::High);
    let medium = settings.weight(Class::Medium);
    2 * (u64::from(high) + u64::from(medium))
}

impl Behind {
    /// Counts the waiting of the low level behind a pick of High or Medium, under the weighted mechanism.
    pub fn wait(
        &mut self,
        mechanism: Mechanism,
        settings: &Settings,
        seen: &[Seen],
        class: Option<Class>,
        n: u16,
    ) {
        let waits = mechanism == Mechanism::Weighted
            && !is_ready(seen, Class::Admin)
            && !is_ready(seen, Class::Urgent)
            && is_ready(seen, Class::Low);
        if !waits || !matches!(class, Some(Class::High | Class::Medium)) {
            self.commands = 0;
            return;
        }
        self.commands = self.commands.saturating_add(u64::from(n));
        if self.commands > self.longest {
            self.longest = self.commands;
            self.bound = low_bound(settings);
        }
    }

    /// Ends the row.
    pub fn begin_anew(&mut self) {
        self.commands = 0;
    }
}
