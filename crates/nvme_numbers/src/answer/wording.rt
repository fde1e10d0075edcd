// Times in microseconds, and commas.
ghost use Rattle.std.specs.Prelude.{◌≡◌};
ghost use Rattle.nvme_cells.specs.Values.{value_of};
ghost use Rattle.nvme_numbers.specs.Objects.{comma_before};
ghost use Rattle.nvme_numbers.specs.Quotients.{rounded};
ghost use Rattle.nvme_numbers.specs.Tables.{micros};

use nvme_cells::{Cell, Places};

// Picoseconds as nanoseconds.
fn nanos_of(time: u128) -> u128
    ensures { result ≡ rounded time 1_000 }
{
    time / 1_000 + (time % 1_000 + 500) / 1_000
}

/// A time in picoseconds as microseconds with three digits behind the point, rounded.
pub fn micros<'a>(time: u128) -> Cell<'a>
    ensures { value_of result ≡ micros time }
{
    Cell::Decimal(nanos_of(time), Places::Three)
}

/// What stands before the element of a list at a place.
pub fn comma_before(place: usize) -> &'static str
    ensures { result.now ≡ comma_before place }
{
    if place == 0 { "" } else { "," }
}
