// Logarithms in whole numbers.

// How many binary digits there are behind the point.
const DIGITS: u32 = 32;

// What a mantissa of 64 bits has to reach to be 1.
const ONE: u64 = 1 << 63;

// The square of a mantissa, which is from 1 to below 2: whether it reaches 2, and it or its half, which is a mantissa again.
fn squared(mantissa: u64) -> (bool, u64) {
    let square = u128::from(mantissa) * u128::from(mantissa);
    let half = u64::try_from(square >> 64).unwrap_or(u64::MAX);
    if half >= ONE {
        return (true, half);
    }
    (false, u64::try_from(square >> 63).unwrap_or(u64::MAX))
}

/// The logarithm of a number to the base 2, in parts of 2^-32, cut off; 0 of 0.
///
/// It is never above the exact one, and less than 2^-31 of a unit below. Each of the 32 squares is cut off by less than 2^-63
/// of it, which counts half as much from one to the next, so that all together they take less than 2^-62. Cutting off behind
/// the last digit takes less than 2^-32.
pub fn log2(number: u64) -> u64 {
    let Some(whole) = number.checked_ilog2() else {
        return 0;
    };
    let mut mantissa = number.wrapping_shl(63u32.saturating_sub(whole));
    let mut digits = u64::from(whole);
    for _ in 0..DIGITS {
        let (reaches, next) = squared(mantissa);
        let digit = if reaches { 1u64 } else { 0 };
        digits = digits.saturating_mul(2).saturating_add(digit);
        mantissa = next;
    }
    digits
}
