// The stretches of a trace over which the weights say the shares of the levels.
use nvme_arbiter::{Class, Seen, Settings};

/// The weights of the levels that wait at a pick, each 0 where no queue of its level does.
#[derive(Clone, Copy, Debug, PartialEq, Eq)]
pub struct Weights {
    high: u64,
    medium: u64,
    low: u64,
}

// No level waits.
const NO_WEIGHTS: Weights = Weights {
    high: 0,
    medium: 0,
    low: 0,
};

impl Weights {
    // Those of an observation. There are none where the admin queue or an urgent one waits, which outranks the levels.
    fn waiting(seen: &[Seen], settings: &Settings) -> Weights {
        let mut weights = NO_WEIGHTS;
        for queue in seen {
            if queue.count == 0 {
                continue;
            }
            match queue.class {
                Class::Admin | Class::Urgent => return NO_WEIGHTS,
                Class::High => weights.high = u64::from(settings.weight(Class::High)),
                Class::Medium => weights.medium = u64::from(settings.weight(Class::Medium)),
                Class::Low => weights.low = u64::from(settings.weight(Class::Low)),
            }
        }
        weights
    }

    /// The weight of a class: 0 where it doesn't wait, or is no level.
    pub fn of_class(&self, class: Class) -> u64 {
        match class {
            Class::Admin | Class::Urgent => 0,
            Class::High => self.high,
            Class::Medium => self.medium,
            Class::Low => self.low,
        }
    }

    /// The weights of all levels that wait together.
    pub fn total(&self) -> u64 {
        self.high
            .saturating_add(self.medium)
            .saturating_add(self.low)
    }
}

/// A stretch of picks at each of which the same levels wait with the same weights, and nothing that outranks them.
#[derive(Clone, Copy)]
pub struct Stretch {
    /// The weights of the levels that wait.
    pub weights: Weights,
    /// The number of its first pick.
    pub first: u64,
    /// The number of its last pick.
    pub last: u64,
}

// A stretch before the first pick, at which nothing waits.
const NO_STRETCH: Stretch = Stretch {
    weights: NO_WEIGHTS,
    first: 0,
    last: 0,
};

impl Stretch {
    /// The number of its picks. 0 where fewer than two levels wait: one alone gets all commands, whatever its weight.
    pub fn picks(&self) -> u64 {
        let (total, weights) = (self.weights.total(), self.weights);
        if total == weights.high || total == weights.medium || total == weights.low {
            return 0;
        }
        self.last.saturating_sub(self.first).saturating_add(1)
    }
}

/// The stretches up to a pick.
#[derive(Clone, Copy)]
pub struct Backlog {
    /// The first of those with the most picks.
    pub longest: Stretch,
    // The one that goes on.
    current: Stretch,
}

/// No pick yet.
pub const NO_BACKLOG: Backlog = Backlog {
    longest: NO_STRETCH,
    current: NO_STRETCH,
};

impl Backlog {
    /// Adds a pick of this number, which saw these queues under these settings.
    pub fn note_pick(&mut self, number: u64, seen: &[Seen], settings: &Settings) {
        let weights = Weights::waiting(seen, settings);
        if weights != self.current.weights {
            self.current.weights = weights;
            self.current.first = number;
        }
        self.current.last = number;
        if self.current.picks() > self.longest.picks() {
            self.longest = self.current;
        }
    }
}
