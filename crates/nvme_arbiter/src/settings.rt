// The settings of Command Arbitration (Base Specification, Arbitration feature).
use std::marker::Model;

/// A priority class of submission queues (Base Specification, Command Arbitration).
#[derive(Clone, Copy, Debug, Default, PartialEq, Eq)]
pub enum Class {
    /// The admin submission queue.
    #[default]
    Admin,
    /// The urgent priority class, which is served before all levels.
    Urgent,
    /// The high weighted priority level.
    High,
    /// The medium weighted priority level.
    Medium,
    /// The low weighted priority level.
    Low,
}

impl Class {
    ghost use Rattle.std.specs.Prelude.{◌≡◌, Some};
    ghost use Rattle.nvme_arbiter.specs.Settings.{class_of_number, number_of_class};

    /// The class of a number (profile): 0 for `Admin`, 1 for `Urgent`, then 2 to 4 for the levels from `High` down.
    pub fn of_number(number: u16) -> Option<Class>
        ensures { result ≡ class_of_number number }
    {
        match number {
            0 => Some(Class::Admin),
            1 => Some(Class::Urgent),
            2 => Some(Class::High),
            3 => Some(Class::Medium),
            4 => Some(Class::Low),
            _ => None,
        }
    }

    /// The number of the class, as `of_number` reads it.
    #[inline(always)]
    pub fn number(self) -> u16
        ensures number { result ≡ number_of_class self }
        ensures reads_back { class_of_number result ≡ Some self }
    {
        match self {
            Class::Admin => 0,
            Class::Urgent => 1,
            Class::High => 2,
            Class::Medium => 3,
            Class::Low => 4,
        }
    }
}

/// An arbitration mechanism (Base Specification, Command Arbitration).
#[derive(Clone, Copy, Debug, PartialEq, Eq)]
pub enum Mechanism {
    /// Round robin arbitration.
    RoundRobin,
    /// Weighted round robin with urgent priority class arbitration.
    Weighted,
}

/// The settings of the Arbitration feature. Contracts see the fields of CDW11 as they are encoded.
#[derive(Clone, Copy, Debug, PartialEq, Eq)]
pub struct Settings {
    burst_code: u8,
    low: u8,
    medium: u8,
    high: u8,
}

impl Model for Settings {
    ghost use Rattle.nvme_arbiter.specs.Settings.{ArbitrationFields};

    ghost Value = { ArbitrationFields };

    ghost view = { λ s. record { burst_code = s.burst_code; low = s.low; medium = s.medium; high = s.high } };

    ghost use Rattle.std.specs.Prelude.{◌<◌};

    ghost invariant = { λ s. s.burst_code < 8 };

    ghost inverse = { λ v. record { burst_code = v.burst_code; low = v.low; medium = v.medium; high = v.high } };
}

impl Settings {
    ghost use Rattle.std.specs.Prelude.{◌≡◌};
    ghost use Rattle.nvme_arbiter.specs.Settings.{settings_of, cdw11_of, burst_of, weight_of, IsLevel};

    /// The settings of a CDW11 of the Arbitration feature. Bits 07:03 are ignored (profile).
    #[inline(always)]
    pub fn from_cdw11(cdw11: u32) -> Settings
        ensures { result ≡ settings_of cdw11 }
    {
        Settings {
            burst_code: (cdw11 % 8) as u8,
            low: ((cdw11 >> 8) % 0x100) as u8,
            medium: ((cdw11 >> 16) % 0x100) as u8,
            high: (cdw11 >> 24) as u8,
        }
    }

    /// The CDW11 of these settings, as Get Features answers it. Bits 07:03 are 0 (profile).
    pub fn to_cdw11(&self) -> u32
        ensures encoded { result ≡ cdw11_of self.now }
        ensures reads_back { settings_of result ≡ self.now }
    {
        u32::from(self.burst_code)
            + 0x100 * u32::from(self.low)
            + 0x1_0000 * u32::from(self.medium)
            + 0x100_0000 * u32::from(self.high)
    }

    /// The most commands that one pick may take: 2 to the power of the field, `None` for no limit (111b).
    #[inline(always)]
    pub fn burst(&self) -> Option<u16>
        ensures { result ≡ burst_of self.now }
    {
        if self.burst_code == 7 {
            None
        } else {
            Some(1 << self.burst_code)
        }
    }

    /// The weight of a level, 1 to 256: how many of its commands may be taken in a round.
    #[inline(always)]
    pub fn weight(&self, level: Class) -> u16
        requires { IsLevel level }
        ensures { result ≡ weight_of self.now level }
    {
        match level {
            Class::High => u16::from(self.high) + 1,
            Class::Medium => u16::from(self.medium) + 1,
            Class::Low => u16::from(self.low) + 1,
            Class::Admin | Class::Urgent => 0,
        }
    }
}
