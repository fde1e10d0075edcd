// Settings in words.
use crate::names::mechanism_name;
use nvme_arbiter::{Class, Mechanism, Settings};
use std::fmt;

/// Settings in words: the burst, and under the weighted mechanism the weights.
#[derive(Clone, Copy, Debug, PartialEq, Eq)]
pub struct SettingsInWords {
    /// The arbitration mechanism.
    pub mechanism: Mechanism,
    /// The settings.
    pub settings: Settings,
}

/// How commands are picked, in words: the mechanism, the most commands of a pick, and under the weighted mechanism the weights.
#[derive(Clone, Copy, Debug, PartialEq, Eq)]
pub struct PickingWords {
    pub mechanism: Mechanism,
    pub settings: Settings,
}

// Writes a burst, or what says that there is none, and under the weighted mechanism the weights.
fn put_settings<W: fmt::Write>(
    mechanism: Mechanism,
    settings: &Settings,
    no_burst: &str,
    f: &mut fmt::Formatter<W>,
) -> fmt::Result {
    match settings.burst() {
        Some(burst) => write!(f, "burst {burst}")?,
        None => f.write_str(no_burst)?,
    }
    if mechanism == Mechanism::RoundRobin {
        return Ok(());
    }
    let high = settings.weight(Class::High);
    let medium = settings.weight(Class::Medium);
    let low = settings.weight(Class::Low);
    write!(f, ", high {high}, medium {medium}, low {low}")
}

impl fmt::Display for SettingsInWords {
    fn fmt<W: fmt::Write>(&self, f: &mut fmt::Formatter<W>) -> fmt::Result {
        put_settings(self.mechanism, &self.settings, "no burst limit", f)
    }
}

impl fmt::Display for PickingWords {
    fn fmt<W: fmt::Write>(&self, f: &mut fmt::Formatter<W>) -> fmt::Result {
        let mechanism = mechanism_name(self.mechanism);
        write!(f, "{mechanism}, ")?;
        put_settings(self.mechanism, &self.settings, "no limit of bursts", f)
    }
}
