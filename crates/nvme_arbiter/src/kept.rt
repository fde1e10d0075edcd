// What arbitration keeps between two picks.
ghost use Rattle.std.specs.Prelude.{◌≡◌, ◌-◌, if◌then◌else◌};

use crate::by_class::ByClass;
use crate::settings::{Class, Mechanism, Settings};

/// The identifiers that were served last: of all queues, and of each class.
#[derive(Clone, Copy, Debug, Default, PartialEq, Eq)]
pub struct Last {
    pub all: Option<u16>,
    pub by_class: ByClass<Option<u16>>,
}

/// How many commands of each level were picked in this round.
#[derive(Clone, Copy, Debug, Default, PartialEq, Eq)]
pub struct Used {
    pub high: u16,
    pub medium: u16,
    pub low: u16,
}

impl Used {
    ghost use Rattle.std.specs.Prelude.{◌≡◌};
    ghost use Rattle.nvme_arbiter.specs.Standing.{nothing_used};

    /// Nothing is used in a new round.
    const fn none() -> Used
        ensures { result ≡ nothing_used }
    {
        Used {
            high: 0,
            medium: 0,
            low: 0,
        }
    }
}

/// What is left of a weight of which so much is used: in a new round all.
#[inline(always)]
pub fn left_of(weight: u16, used: u16, fresh: bool) -> u16
    ensures { result ≡ (if fresh then weight else weight - used) }
{
    if fresh {
        weight
    } else {
        weight.saturating_sub(used)
    }
}

/// What arbitration keeps. Round robin keeps the identifier served last of all; the weighted mechanism keeps the
/// others, and the commands used.
#[derive(Clone, Copy, Debug, PartialEq, Eq)]
pub struct Kept {
    pub mechanism: Mechanism,
    pub settings: Settings,
    pub last: Last,
    pub used: Used,
}

impl Kept {
    ghost use Rattle.std.specs.Prelude.{◌≡◌};
    ghost use Rattle.nvme_arbiter.specs.Settings.{IsLevel};
    ghost use Rattle.nvme_arbiter.specs.Rules.{credit};
    ghost use Rattle.nvme_arbiter.specs.Standing.{used_of, first_kept, nothing_used};

    /// Nothing was served yet.
    pub fn new(mechanism: Mechanism, settings: Settings) -> Kept
        ensures { result ≡ first_kept mechanism settings }
    {
        Kept {
            mechanism,
            settings,
            last: Last {
                all: None,
                by_class: ByClass::same(None),
            },
            used: Used::none(),
        }
    }

    /// How many commands of a level may be picked, in this round or in a new one.
    pub fn credit(&self, level: Class, fresh: bool) -> u16
        requires { IsLevel level }
        ensures { result ≡ credit self.now.settings (used_of self.now.used) fresh level }
    {
        let used = match level {
            Class::High => self.used.high,
            Class::Medium => self.used.medium,
            Class::Low => self.used.low,
            Class::Admin | Class::Urgent => 0,
        };
        left_of(self.settings.weight(level), used, fresh)
    }

    /// Takes new settings, which start a new round. The identifiers served last stay.
    pub fn set(&mut self, settings: Settings)
        ensures { self.new ≡ record self.old { settings = settings; used = nothing_used } }
    {
        self.settings = settings;
        self.used = Used::none();
    }
}
