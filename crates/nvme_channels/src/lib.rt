//! The channels of a device in virtual time: which commands run, which wait and how many more the device can take. Times are
//! whole picoseconds. There are no events: a caller says when a command ends, and gets the one that starts then.
#![tactic(auto)]

mod channel;
mod channels;
pub mod laws;
mod marks;
mod placement;

pub use channel::{Channel, StepFault};
pub use channels::{Channels, ChannelsFault, MAX_CHANNELS, Start, Waiting};
pub use placement::{Placement, Reach, Stripe, StripeFault};
