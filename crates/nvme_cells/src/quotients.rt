// Shares, rates and Jain's index of fairness, in whole numbers.
ghost use Rattle.std.specs.Prelude.{◌≡◌, ◌≤◌, ◌+◌, ◌*◌, ◌^◌, MatchOption, length, sum};
ghost use Rattle.nvme_cells.specs.Quotients.{IsJain, IsQuotient, squares_of};

/// A part of a whole in so many units, rounded to the nearest one, and half a unit up. `None` of nothing, or where the numbers
/// don't fit.
pub fn quotient(part: u128, units: u128, whole: u128) -> Option<u128>
    ensures { IsQuotient part units whole result }
{
    let above = part.checked_mul(units)?.checked_add(whole / 2)?;
    above.checked_div(whole)
}

// The sum of parts. `None` where it doesn't fit.
fn sum_of(parts: &[u128]) -> Option<u128>
    ensures { MatchOption result (2 ^ 128 ≤ sum parts.now) (λ s. s ≡ sum parts.now) }
{
    let mut sum = 0u128;
    for part in parts {
        match sum.checked_add(*part) {
            Some(more) => sum = more,
            None => return None,
        }
    }
    Some(sum)
}

// A sum with the square of a part. `None` where it doesn't fit.
fn with_square(sum: u128, part: u128) -> Option<u128>
    ensures { MatchOption result (2 ^ 128 ≤ sum + part * part) (λ s. s ≡ sum + part * part) }
{
    sum.checked_add(part.checked_mul(part)?)
}

// The sum of the squares of parts. `None` where it doesn't fit.
fn squares_of(parts: &[u128]) -> Option<u128>
    ensures { MatchOption result (2 ^ 128 ≤ squares_of parts.now) (λ s. s ≡ squares_of parts.now) }
{
    let mut sum = 0u128;
    for part in parts {
        match with_square(sum, *part) {
            Some(more) => sum = more,
            None => return None,
        }
    }
    Some(sum)
}

// The square of the sum of parts, in ten thousandths. `None` where it doesn't fit.
fn above_of(parts: &[u128]) -> Option<u128>
    ensures { MatchOption result (2 ^ 128 ≤ sum parts.now * sum parts.now * 10_000) (λ a. a ≡ sum parts.now * sum parts.now * 10_000) }
{
    match sum_of(parts) {
        Some(sum) => sum.checked_mul(sum)?.checked_mul(10_000),
        None => None,
    }
}

// The sum of the squares of parts times their number. `None` where it doesn't fit.
fn below_of(parts: &[u128]) -> Option<u128>
    ensures { MatchOption result (2 ^ 128 ≤ squares_of parts.now * length parts.now) (λ b. b ≡ squares_of parts.now * length parts.now) }
{
    match squares_of(parts) {
        Some(squares) => squares.checked_mul(parts.len() as u128),
        None => None,
    }
}

/// Jain's index of parts in ten thousandths, cut off: the square of their sum, divided by their number times the sum of their
/// squares. `None` where none is above 0, or where the numbers don't fit.
pub fn jain(parts: &[u128]) -> Option<u128>
    ensures { IsJain parts.now result }
{
    let above = above_of(parts)?;
    let below = below_of(parts)?;
    above.checked_div(below)
}
