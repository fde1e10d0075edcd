// Bits of a mask of queues. A mask has room for 64 of them.
ghost use Rattle.std.specs.Prelude.{◌≡◌, ◌==◌, ◌<◌, MatchOption};
ghost use Rattle.std.specs.Int.{bit_at};
ghost use Rattle.nvme_arbiter.specs.inside.Masks.{HasNoBit, IsLowest, KeepsFrom, with_bit};

/// Whether a bit is set.
#[inline(always)]
pub fn has_bit(mask: u64, bit: u16) -> bool
    requires { bit < 64 }
    ensures { result ≡ (bit_at mask bit == 1) }
{
    (mask >> bit) % 2 == 1
}

/// The lowest bit that is set.
#[inline(always)]
pub fn lowest(mask: u64) -> Option<u16>
    ensures { MatchOption result (HasNoBit mask) (IsLowest mask) }
{
    if mask == 0 {
        None
    } else {
        Some(mask.trailing_zeros() as u16)
    }
}

/// The mask without the bits below this one.
#[inline(always)]
pub fn from_bit(mask: u64, bit: u16) -> u64
    ensures { KeepsFrom mask bit result }
{
    if bit >= 64 { 0 } else { mask >> bit << bit }
}

/// The mask with one bit set or cleared.
#[inline(always)]
pub fn with_bit(mask: u64, bit: u16, on: bool) -> u64
    requires { bit < 64 }
    ensures { result ≡ with_bit mask bit on }
{
    if on {
        mask | (1 << bit)
    } else {
        mask & !(1 << bit)
    }
}
