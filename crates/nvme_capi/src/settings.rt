// The settings of the Arbitration feature.
ghost use Rattle.std.specs.Prelude.{◌≡◌};
ghost use Rattle.nvme_arbiter.specs.Settings.{settings_of};
ghost use Rattle.nvme_capi.specs.Fields.{settings_fields_of};

use crate::fields::SettingsFields;
use nvme_arbiter::{Class, Settings};

/// Reads the fields of a CDW11 of the Arbitration feature.
#[unsafe(no_mangle)]
pub extern "C" fn nvmearb_settings_of(cdw11: u32, fields: &mut SettingsFields)
    ensures { fields.new ≡ settings_fields_of (settings_of cdw11) }
{
    let settings = Settings::from_cdw11(cdw11);
    *fields = SettingsFields {
        cdw11: settings.to_cdw11(),
        burst: settings.burst().unwrap_or(0),
        high: settings.weight(Class::High),
        medium: settings.weight(Class::Medium),
        low: settings.weight(Class::Low),
    };
}
