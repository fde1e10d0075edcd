//! Queues between threads: rings with a put end and a get end, through which hosts and the controller
//! exchange entries; feeders and drainers, which drive a host's ends; and lanes with several producers
//! and several consumers, from which workers take their jobs. `Mode` says when hosts submit.
#![tactic(auto)]

mod construction;
mod contents;
mod drainer;
mod errors;
mod feeder;
mod get_end;
mod lanes;
mod limits;
mod mode;
mod passes;
mod put_end;
mod rings;
mod rule;
mod teardown;

pub use construction::lane;
pub use contents::beside;
pub use drainer::Drainer;
pub use errors::{Full, LaneError, NoMemory};
pub use feeder::{Feed, Feeder};
pub use get_end::GetEnd;
pub use lanes::Lane;
pub use limits::{MAX_CAPACITY, MAX_PASSES, MAX_SLOTS, MIN_SLOTS};
pub use mode::Mode;
pub use passes::{PopPass, PushPass};
pub use put_end::PutEnd;
pub use rings::ring;
pub use teardown::gather;
