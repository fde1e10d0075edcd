//! A controller, over a state and slots that the caller owns.
//!
//! Other than a board or a table, a controller isn't made by any numbers. Its calls are safe over all of them, but what they
//! do is said of a state that these calls made with these slots (`IsKept`), which all keep so.
//!
//! Decided: what stands after a controller's mark needn't be a controller: a test of its linked slots would cost more
//! than the call. So its exports say what they do where they alone wrote. A pick looks at the arbiter's few numbers.
mod batches;
mod commands;
mod holds;
mod lookups;
mod making;
mod next_queue;
mod rings;
mod state;
pub mod status_flags;
mod verify;
