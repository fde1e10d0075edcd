// The limits of this profile. A later profile raises them here and in specs/Limits.antt.
ghost use Rattle.std.specs.Prelude.{◌≡◌};
ghost use Rattle.nvme_log.specs.Limits.{window_of};

use nvme_arbiter::HIGHEST_COUNT;

/// The most places that were picked, or that an Abort command aborted, and whose completion isn't posted yet.
pub const MAX_OUTSTANDING: u16 = 256;

/// The most events that a front's log may be allowed to hold.
pub const MAX_EVENTS: u32 = 1_048_576;

/// The most candidates of a queue with this many slots. A ring of S slots holds S - 1 entries, and so does its window,
/// but at most 256, as many as arbitration counts.
pub fn window_of(slots: u16) -> u16
    ensures { result ≡ window_of slots }
{
    slots.saturating_sub(1).min(HIGHEST_COUNT)
}
