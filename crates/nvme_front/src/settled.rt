use nvme_entry::{Cqe, Sqe};
use nvme_log::Event;
use thiserror::Error;

/// What a host submitted of its script: the first `count` commands.
#[derive(Debug, Drop)]
pub struct Sent {
    /// The whole script of the host.
    pub script: Vec<Sqe>,
    /// How many of its commands were submitted, at most all.
    pub count: usize,
}

/// What is left of a front and its hosts when all is settled.
#[derive(Debug, Drop)]
pub struct Settled {
    /// The log of the front, the oldest event first.
    pub log: Vec<Event>,
    /// What each host submitted, by the number of its submission region.
    pub sent: Vec<Sent>,
    /// What each host collected, by the number of its completion region, the oldest completion first.
    pub collected: Vec<Vec<Cqe>>,
}

/// Why a front and its hosts weren't settled. All parts come back.
#[derive(Clone, Copy, Debug, PartialEq, Eq, Error)]
pub enum SettleError {
    /// The addresses of the feeders or of the drainers aren't those of the front's regions, in region order.
    #[error("hosts of other regions")]
    Strangers,
    /// The front isn't clear, a worker keeps a result, or the ring of an open queue holds entries.
    #[error("work is outstanding")]
    Outstanding,
    /// Out of memory.
    #[error("out of memory")]
    NoMemory,
}
