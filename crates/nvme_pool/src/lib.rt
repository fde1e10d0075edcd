//! The workers that execute I/O commands. The front hands over jobs on one lane. Each worker takes jobs from
//! it, executes them, and gives their results to a ring of its own, from which the front gains them.
#![tactic(auto)]

mod construction;
mod gate;
mod jobs;
mod laws;
mod limits;
mod seat;
mod teardown;
mod worker;

pub use construction::{PoolError, pool};
pub use gate::{Gate, NoGate};
pub use jobs::{Finished, Job};
pub use laws::{nothing_left_means_all_done, steps_are_a_run};
pub use limits::{JOB_CAPACITY, MAX_WORKERS, RESULT_SLOTS};
pub use seat::FrontSeat;
pub use teardown::close;
pub use worker::{Lanes, Worked, Worker};
