//! The judge of what the specification asks of each pick of an arbiter, whatever that chooses where the specification
//! leaves a choice.
#![tactic(auto)]

mod judge;
mod ready;
mod round;
mod starts;
mod turns;

pub use judge::{RuleJudge, count_in};
pub use starts::{last_fits, starts_have_priors, states_can_begin, used_fits};
