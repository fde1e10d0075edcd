// What arbitration chooses among.
ghost use Rattle.std.specs.Prelude.{◌≡◌, ◌≤◌, IfSome};
ghost use Rattle.nvme_arbiter.specs.ByClass.{of_class};
ghost use Rattle.nvme_arbiter.specs.Rules.{within_burst};
ghost use Rattle.nvme_arbiter.specs.Settings.{IsLevel, burst_of, weight_of};
ghost use Rattle.nvme_bounds.specs.Before.{above, all_of, before_level, before_urgent, before_weighted, below, most_before, own, rounds, share};

use nvme_arbiter::{ByClass, Class, Mechanism, Settings};

/// The mechanism, its settings, and how many queues of each class may have commands.
#[derive(Clone, Copy, Debug, PartialEq, Eq)]
pub struct Queues {
    pub mechanism: Mechanism,
    pub settings: Settings,
    pub counts: ByClass<u16>,
}

impl Queues {
    // The weight of a level that has a queue.
    fn share(&self, level: Class) -> u64
        requires { IsLevel level }
        ensures value { result ≡ share self.now.settings (of_class self.now.counts) level }
        ensures within { result ≤ 65535 }
    {
        if self.counts.get(level) == 0 {
            0
        } else {
            u64::from(self.settings.weight(level))
        }
    }

    // The weights of the levels that go before a level in a round.
    fn above(&self, level: Class) -> u64
        ensures value { result ≡ above self.now.settings (of_class self.now.counts) level }
        ensures within { result ≤ 131070 }
    {
        match level {
            Class::Medium => self.share(Class::High),
            Class::Low => self.share(Class::High) + self.share(Class::Medium),
            Class::Admin | Class::Urgent | Class::High => 0,
        }
    }

    // The weights of those that go behind it.
    fn below(&self, level: Class) -> u64
        ensures value { result ≡ below self.now.settings (of_class self.now.counts) level }
        ensures within { result ≤ 131070 }
    {
        match level {
            Class::High => self.share(Class::Medium) + self.share(Class::Low),
            Class::Medium => self.share(Class::Low),
            Class::Admin | Class::Urgent | Class::Low => 0,
        }
    }

    // How many commands a pick takes, where there is room for so many.
    fn each(&self, most: u16) -> u64
        ensures value { result ≡ within_burst (burst_of self.now.settings) most }
        ensures within { result ≤ most }
    {
        match self.settings.burst() {
            Some(burst) => u64::from(burst.min(most)),
            None => u64::from(most),
        }
    }

    // How many commands are picked before one of a level, where no queue is admin or urgent.
    fn before_level(&self, each: u64, level: Class) -> u64
        requires level { IsLevel level }
        requires few { each ≤ 65535 }
        ensures { result ≡ before_level self.now.settings (of_class self.now.counts) each level }
    {
        let weight = u64::from(self.settings.weight(level));
        let first = own(self.counts.get(level).into(), each.min(weight));
        let others = self.above(level) + self.below(level);
        first + (first / weight + 1) * others + self.above(level)
    }

    // How many queues there are.
    fn count(&self) -> u64
        ensures value { result ≡ all_of (of_class self.now.counts) }
        ensures within { result ≤ 327675 }
    {
        let ByClass {
            admin,
            urgent,
            high,
            medium,
            low,
        } = self.counts;
        u64::from(admin) + u64::from(urgent) + u64::from(high) + u64::from(medium) + u64::from(low)
    }

    // Before one of an urgent queue.
    fn before_urgent(&self, each: u64) -> Option<u64>
        requires few { each ≤ 65535 }
        ensures { result ≡ before_urgent (of_class self.now.counts) each }
    {
        if self.counts.admin == 0 {
            Some(own(self.counts.urgent.into(), each))
        } else {
            None
        }
    }

    // Before one of a level.
    fn before_weighted(&self, each: u64, level: Class) -> Option<u64>
        requires level { IsLevel level }
        requires few { each ≤ 65535 }
        ensures { result ≡ before_weighted self.now.settings (of_class self.now.counts) each level }
    {
        if self.counts.admin == 0 && self.counts.urgent == 0 {
            Some(self.before_level(each, level))
        } else {
            None
        }
    }

    /// The most commands of other queues that are picked while a queue of this class has commands, where a pick takes so many at most. `None` where there is
    /// no bound: of a level beside an urgent queue, or beside the admin queue, and of an urgent queue beside that one. None is told of the admin queue itself
    /// under the weighted mechanism. `laws::few_come_before` says that it is a bound.
    pub fn most_before(&self, most: u16, class: Class) -> Option<u64>
        ensures { result ≡ most_before self.now.mechanism self.now.settings (of_class self.now.counts) most class }
    {
        let each = self.each(most);
        match (self.mechanism, class) {
            (Mechanism::RoundRobin, _) => Some(own(self.count(), each)),
            (Mechanism::Weighted, Class::Admin) => None,
            (Mechanism::Weighted, Class::Urgent) => self.before_urgent(each),
            (Mechanism::Weighted, Class::High) => self.before_weighted(each, Class::High),
            (Mechanism::Weighted, Class::Medium) => self.before_weighted(each, Class::Medium),
            (Mechanism::Weighted, Class::Low) => self.before_weighted(each, Class::Low),
        }
    }
}

// How many commands the others of so many queues have picked in a turn each.
fn own(queues: u64, each: u64) -> u64
    requires few { queues ≤ 327675 }
    requires short { each ≤ 65535 }
    ensures { result ≡ own queues each }
{
    queues.saturating_sub(1) * each
}
