// Means over seeds, and how far they may be off.
ghost use Rattle.std.specs.Prelude.{◌≡◌, ◌<◌, ◌⊎◌, IfNone, IfSome, length, sum};
ghost use Rattle.nvme_points.specs.Estimates.{IsEstimate, IsInterval, IsMean, IsQuantile, IsStandardError, IsTooLarge, IsTooSpread, LacksInterval, LacksMean, differences_from, pair_differences};

// The 97.5 % quantiles of Student's t in millionths, of 1, 2 and so on degrees of freedom.
const QUANTILES: [u128; 100] = [
    12_706_205, 4_302_653, 3_182_446, 2_776_445, 2_570_582, 2_446_912, 2_364_624, 2_306_004,
    2_262_157, 2_228_139, 2_200_985, 2_178_813, 2_160_369, 2_144_787, 2_131_450, 2_119_905,
    2_109_816, 2_100_922, 2_093_024, 2_085_963, 2_079_614, 2_073_873, 2_068_658, 2_063_899,
    2_059_539, 2_055_529, 2_051_831, 2_048_407, 2_045_230, 2_042_272, 2_039_513, 2_036_933,
    2_034_515, 2_032_245, 2_030_108, 2_028_094, 2_026_192, 2_024_394, 2_022_691, 2_021_075,
    2_019_541, 2_018_082, 2_016_692, 2_015_368, 2_014_103, 2_012_896, 2_011_741, 2_010_635,
    2_009_575, 2_008_559, 2_007_584, 2_006_647, 2_005_746, 2_004_879, 2_004_045, 2_003_241,
    2_002_465, 2_001_717, 2_000_995, 2_000_298, 1_999_624, 1_998_972, 1_998_341, 1_997_730,
    1_997_138, 1_996_564, 1_996_008, 1_995_469, 1_994_945, 1_994_437, 1_993_943, 1_993_464,
    1_992_997, 1_992_543, 1_992_102, 1_991_673, 1_991_254, 1_990_847, 1_990_450, 1_990_063,
    1_989_686, 1_989_319, 1_988_960, 1_988_610, 1_988_268, 1_987_934, 1_987_608, 1_987_290,
    1_986_979, 1_986_675, 1_986_377, 1_986_086, 1_985_802, 1_985_523, 1_985_251, 1_984_984,
    1_984_723, 1_984_467, 1_984_217, 1_983_972,
];

/// A mean over seeds.
#[derive(Clone, Copy, Debug, PartialEq, Eq)]
pub struct Estimate {
    /// The mean, rounded down. `None` where a seed has no such number.
    pub mean: Option<u128>,
    /// Half the width of the interval of 95 % around the mean, rounded down. `None` of one seed.
    pub half: Option<u128>,
}

// The sum of values. `None` where it doesn't fit.
fn sum_of(values: &[u128]) -> Option<u128>
    ensures sum { IfSome result (λ s. s ≡ sum values.now) }
    ensures none { IfNone result (IsTooLarge (sum values.now)) }
{
    let mut sum = 0u128;
    for value in values {
        sum = sum.checked_add(*value)?;
    }
    Some(sum)
}

/// The mean of values, rounded down. `None` of no value, or where their sum doesn't fit.
pub fn mean(values: &[u128]) -> Option<u128>
    ensures mean { IfSome result (IsMean values.now) }
    ensures none { IfNone result (LacksMean values.now) }
{
    sum_of(values)?.checked_div(values.len() as u128)
}

// The sum of the squared differences between a value and values. `None` where it doesn't fit.
#[tactic(auto, unfolding(crate::specs::Estimates::differences_from))]
fn differences(value: u128, values: &[u128]) -> Option<u128>
    ensures sum { IfSome result (λ s. s ≡ differences_from value values.now) }
    ensures none { IfNone result (IsTooLarge (differences_from value values.now)) }
{
    let mut sum = 0u128;
    for other in values {
        let difference = value.abs_diff(*other);
        sum = sum.checked_add(difference.checked_mul(difference)?)?;
    }
    Some(sum)
}

// The sum of the squared differences between all pairs of values, each pair in both orders. `None` where it doesn't fit.
fn differences_of_pairs(values: &[u128]) -> Option<u128>
    ensures sum { IfSome result (λ s. s ≡ pair_differences values.now values.now) }
    ensures none { IfNone result (IsTooLarge (pair_differences values.now values.now)) }
{
    let mut sum = 0u128;
    for value in values {
        sum = sum.checked_add(differences(*value, values)?)?;
    }
    Some(sum)
}

// The quantile for so many values, in millionths: one degree of freedom less. Above 100 degrees it is that of 100, which is
// at most 1.3 % too wide. `None` of fewer than two values.
fn quantile(count: usize) -> Option<u128>
    ensures quantile { IfSome result (IsQuantile count) }
    ensures none { IfNone result (count < 2) }
{
    let index = count.checked_sub(2)?.min(99);
    Some(QUANTILES[index])
}

// The standard error of the mean in thousandths, rounded down. `None` of fewer than two values, or where the numbers don't fit.
fn standard_error(values: &[u128]) -> Option<u128>
    ensures error { IfSome result (IsStandardError values.now) }
    ensures none { IfNone result ((length values.now < 2) ⊎ IsTooSpread values.now) }
{
    let count = values.len() as u128;
    let above = differences_of_pairs(values)?.checked_mul(1_000_000)?;
    let freedom = count.checked_sub(1)?;
    let below = count
        .checked_mul(count)?
        .checked_mul(freedom)?
        .checked_mul(2)?;
    Some(above.checked_div(below)?.isqrt())
}

/// Half the width of the interval of 95 % around the mean of values that are drawn independently, by Student's t, rounded down:
/// the quantile times the standard error of the mean. `None` of fewer than two values, or where the numbers don't fit.
pub fn half_width(values: &[u128]) -> Option<u128>
    ensures interval { IfSome result (IsInterval values.now) }
    ensures none { IfNone result (LacksInterval values.now) }
{
    let product = quantile(values.len())?.checked_mul(standard_error(values)?)?;
    Some(product / 1_000_000_000)
}

/// The mean of the values of seeds, of which a seed may have none, and half the width of its interval.
pub fn estimate_of(values: &[u128], seeds: usize) -> Estimate
    ensures estimate { IsEstimate values.now seeds result }
{
    if values.len() != seeds {
        return Estimate {
            mean: None,
            half: None,
        };
    }
    Estimate {
        mean: mean(values),
        half: half_width(values),
    }
}
