// Where values stand along an axis.
use crate::logarithm::log2;

/// How values lie between the ends of an axis.
#[derive(Clone, Copy, Debug, PartialEq, Eq)]
pub enum Scale {
    /// As far apart as they differ.
    Linear,
    /// As far apart as their logarithms differ. 0 stands where 1 does.
    Logarithmic,
}

/// The values of an axis.
#[derive(Clone, Copy, Debug, PartialEq, Eq)]
pub struct Range {
    pub scale: Scale,
    /// The value at the left or lower end.
    pub low: u64,
    /// The value at the other end, above `low`.
    pub high: u64,
}

impl Range {
    /// Values as far apart as they differ.
    pub fn linear(low: u64, high: u64) -> Range {
        let scale = Scale::Linear;
        Range { scale, low, high }
    }

    /// Values as far apart as their logarithms differ.
    pub fn logarithmic(low: u64, high: u64) -> Range {
        let scale = Scale::Logarithmic;
        Range { scale, low, high }
    }

    // How far a value is from the lower end, and the upper end is.
    fn parts(&self, value: u64) -> (u64, u64) {
        let (low, high) = (self.low, self.high);
        match self.scale {
            Scale::Linear => (value.saturating_sub(low), high.saturating_sub(low)),
            Scale::Logarithmic => {
                let start = log2(low);
                (
                    log2(value).saturating_sub(start),
                    log2(high).saturating_sub(start),
                )
            }
        }
    }

    /// How far a value stands from the lower end of an axis of this length, rounded to the nearest whole number; the length is
    /// in hundredths of a pixel, and so is the answer. A value outside the range stands at its end.
    ///
    /// On a linear scale that is exact. On a logarithmic one whose ends differ by a factor of 2 and more, and which has at most
    /// 100,000 hundredths, it is less than 0.5001 of a hundredth from the exact place: logarithms are less than 2^-31 too small,
    /// which is less than 0.0001 of 100,000, and the rest is rounding.
    pub fn place(&self, value: u64, length: u64) -> u64 {
        let (part, whole) = self.parts(value.max(self.low).min(self.high));
        let twice = u128::from(part)
            .saturating_mul(u128::from(length))
            .saturating_mul(2)
            .saturating_add(u128::from(whole));
        let place = twice.checked_div(u128::from(whole).saturating_mul(2));
        u64::try_from(place.unwrap_or(0))
            .unwrap_or(length)
            .min(length)
    }
}
