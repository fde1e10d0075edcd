//! The sizes that rings and lanes may have (profile).
ghost use Rattle.std.specs.Prelude.{◌↔◌, IsTrue};
ghost use Rattle.nvme_lane.specs.Limits.{IsOutside};

/// The fewest slots of a ring. A ring holds one item less than it has slots.
pub const MIN_SLOTS: u16 = 2;

/// The most slots of a ring.
pub const MAX_SLOTS: u16 = 4096;

/// The most items that a lane may hold. The fewest is 1.
pub const MAX_CAPACITY: u16 = 256;

/// The most producers of a lane, and the most consumers. The fewest of each is 1.
pub const MAX_PASSES: u16 = 8;

// Whether a number is below or above what is allowed.
pub(crate) fn is_outside(n: u16, low: u16, high: u16) -> bool
    ensures { IsTrue result ↔ IsOutside n low high }
{
    n < low || n > high
}
