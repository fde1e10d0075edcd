//! The refusals of rings and lanes.
use thiserror::Error;

/// Why no ring or lane was made.
#[derive(Clone, Copy, PartialEq, Eq, Debug, Error)]
pub enum LaneError {
    /// A size is outside its limits. Nothing was made.
    #[error("size outside its limits")]
    Size,
    /// An allocation was refused. Nothing was made.
    #[error("out of memory")]
    NoMemory,
}

/// There was no free place, and the item comes back. Nothing changed.
#[derive(Clone, Copy, PartialEq, Eq, Debug)]
pub struct Full<T>(pub T);

/// An allocation was refused. Nothing changed.
#[derive(Clone, Copy, PartialEq, Eq, Debug, Error)]
#[error("out of memory")]
pub struct NoMemory;
