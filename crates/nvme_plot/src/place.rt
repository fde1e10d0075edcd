// Where the values of a panel stand.
use crate::pixels::{Frame, HEIGHT, HUNDREDTHS, Pixels};
use crate::scale::Range;

/// Where the values of a panel stand in a picture.
#[derive(Clone, Copy, Debug)]
pub struct Place {
    /// Where the panel lies.
    pub frame: Frame,
    /// The values of the horizontal axis.
    pub across: Range,
    /// The values of the vertical axis.
    pub up: Range,
}

impl Place {
    /// Where a value of the horizontal axis is.
    pub fn x(&self, value: u64) -> Pixels {
        let length = self.frame.width.saturating_mul(HUNDREDTHS);
        let left = self.frame.left.saturating_mul(HUNDREDTHS);
        Pixels(left.saturating_add(self.across.place(value, length)))
    }

    /// Where a value of the vertical axis is.
    pub fn y(&self, value: u64) -> Pixels {
        let bottom = self.frame.bottom().saturating_mul(HUNDREDTHS);
        let place = self.up.place(value, HEIGHT.saturating_mul(HUNDREDTHS));
        Pixels(bottom.saturating_sub(place))
    }
}
