// Round numbers: 1, 2 and 5 times a power of ten.

// How many of them have 64 bits: up to 10^19.
const COUNT: u32 = 58;

// The round number at a place: 1, 2, 5, 10, 20, 50, 100 and so on.
fn round_at(place: u32) -> u64 {
    let times = match place % 3 {
        0 => 1u64,
        1 => 2,
        _ => 5,
    };
    10u64.saturating_pow(place / 3).saturating_mul(times)
}

/// The greatest round number that isn't above a number, and 1 where there is none.
pub fn round_below(number: u64) -> u64 {
    let mut found = 1u64;
    for place in 0..COUNT {
        let next = round_at(place);
        if next <= number {
            found = next;
        }
    }
    found
}

/// The least round number that isn't below a number, and the greatest number where there is none.
pub fn round_above(number: u64) -> u64 {
    for place in 0..COUNT {
        let next = round_at(place);
        if next >= number {
            return next;
        }
    }
    u64::MAX
}

/// The least round number that is in a number at most so many times.
pub fn stride_of(number: u64, most: u64) -> u64 {
    for place in 0..COUNT {
        let stride = round_at(place).max(1);
        if number / stride <= most {
            return stride;
        }
    }
    u64::MAX
}
