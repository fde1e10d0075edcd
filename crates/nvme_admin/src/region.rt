use crate::bounds::{MAX_REGIONS, MAX_SLOTS, MIN_SLOTS};
use thiserror::Error;

/// A region: the place of one ring.
#[repr(C)]
#[derive(Clone, Copy, Debug, Default, PartialEq, Eq)]
pub struct Region {
    /// The address, by which PRP1 of a Create command names it.
    pub address: u64,
    /// The number of slots of the ring.
    pub slots: u16,
}

/// Why a region can't be added.
#[derive(Clone, Copy, Debug, PartialEq, Eq, Error)]
pub enum AdminError {
    /// The address is that of a region of either kind.
    #[error("the address is that of another region")]
    Used,
    /// `MAX_REGIONS` regions of this kind exist.
    #[error("{max} regions of this kind are there", max = MAX_REGIONS)]
    TooMany,
    /// The number of slots is outside `MIN_SLOTS` to `MAX_SLOTS`.
    #[error("the number of slots is outside {min} to {max}", min = MIN_SLOTS, max = MAX_SLOTS)]
    Size,
}
