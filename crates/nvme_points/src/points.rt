// The points of a sweep.
ghost use Rattle.std.specs.Prelude.{◌≡◌, ◌≤◌, ◌⊎◌, IfNone, IfOk, IfSome};
ghost use Rattle.nvme_points.specs.Points.{choices_of, count_of};

use std::alloc::{AllocError, Global};

/// How many points keys of so many values have: one for each combination. `None` only where there is none, or where there
/// are more than fit.
#[tactic(auto, using(crate::proofs::Combinations::next_count, crate::proofs::Combinations::too_many))]
pub fn points_of(lengths: &[usize]) -> Option<usize>
    ensures count { IfSome result (λ n. n ≡ count_of lengths.now) }
    ensures none { IfNone result ((count_of lengths.now ≡ 0) ⊎ (0x1_0000_0000_0000_0000 ≤ count_of lengths.now)) }
{
    let mut count = 1usize;
    for length in lengths {
        count = count.checked_mul(*length)?;
    }
    Some(count)
}

/// Which value of each key a point has. Both lists begin with the key that is fastest: the next point has its next value.
/// `None` only where a key has no value, so that there is no point.
pub fn choices_at(
    alloc: Global,
    lengths: &[usize],
    point: usize,
) -> Result<Option<Vec<usize>>, AllocError>
    ensures choices { IfOk result (λ found. IfSome found (λ c. c.items ≡ choices_of lengths.now point)) }
    ensures none { IfOk result (λ found. IfNone found (count_of lengths.now ≡ 0)) }
{
    let mut choices = Vec::new(alloc);
    let mut left = point;
    for length in lengths {
        if *length == 0 {
            return Ok(None);
        }
        choices.push(left % *length)?;
        left /= *length;
    }
    Ok(Some(choices))
}
