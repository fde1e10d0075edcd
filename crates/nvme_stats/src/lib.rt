//! Statistics of a trace of arbitration, and what a picture of one shares with them: the picks that are looked at, the
//! rows, the windows and the words at the head.
#![tactic(auto)]

mod behind;
mod heading;
mod histogram;
mod lanes;
mod selection;
mod series;
mod shares;
mod statistics;
mod tally;
mod waits;
mod watch;

pub use heading::Heading;
pub use lanes::{IO_QUEUES, LANES, class_of_lane, lane_of, queue_of_lane};
pub use selection::{Part, Selection};
pub use series::{Series, Window};
pub use shares::{millionths, share};
pub use statistics::{Statistics, stats};
pub use watch::{Watch, more, show};
