//! The word `simulate` over streams: it runs a model to its end, writes the log of the finished commands, the trace of the
//! picks, the answer and a picture of the latencies, says of a model whether more commands come than its device can run, and
//! scales it to a load. Files that queues replay are read from their bytes.
#![tactic(auto)]

mod cuts;
mod digest;
mod distributions;
mod fault;
mod groups;
pub mod laws;
mod lengths;
mod loads;
mod origin;
mod overrides;
mod progress;
mod replays;
mod runs;
mod scaling;
mod streams;
mod tails;
mod target;
mod trace;
mod watch;

pub use cuts::{Cut, cut_of};
pub use digest::Digest;
pub use fault::{SimulateFault, Stream};
pub use groups::style_of;
pub use loads::{Overload, overload_of};
pub use nvme_model::Model;
pub use nvme_model_file::{ModelFault, Source, Told, model_in, simulation_in, sources_in};
pub use nvme_replay::{FileFault, ReplayError};
pub use origin::Origin;
pub use overrides::{OverrideFault, Overrides};
pub use progress::Progress;
pub use replays::Listings;
pub use runs::{Form, Measured, measure, simulate, simulate_bounded};
pub use streams::Streams;
pub use target::{Load, LoadFault, MAX_LOAD};
pub use trace::{put_pick, put_trace_head};
