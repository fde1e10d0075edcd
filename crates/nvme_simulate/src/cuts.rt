// Replays that end before their files do.
use nvme_load::Arrivals;
use nvme_model::{End, Model};
use std::fmt;

/// A replay that ends before its files do: fewer commands come than these have.
#[derive(Clone, Copy, Debug, PartialEq, Eq)]
pub struct Cut {
    /// How many commands come.
    pub commands: u64,
    /// How many the files have.
    pub listed: u64,
    /// Whether other queues take some of those that come, so that more are left.
    pub is_shared: bool,
}

/// Whether a number of commands ends the replays of a model before their files do: that of `end`, and without it the model's.
/// `None` too where a time ends it.
pub fn cut_of(model: &Model, end: Option<End>) -> Option<Cut> {
    let End { commands, time } = end.unwrap_or(model.end);
    if time.is_some() {
        return None;
    }
    let (mut listed, mut is_shared) = (0u64, false);
    for queue in &model.queues {
        match &queue.arrivals {
            Arrivals::Replay(list) => {
                listed = listed.saturating_add(list.requests.len() as u64);
            }
            _ => is_shared = true,
        }
    }
    if listed > commands {
        Some(Cut {
            commands,
            listed,
            is_shared,
        })
    } else {
        None
    }
}

impl fmt::Display for Cut {
    fn fmt<W: fmt::Write>(&self, f: &mut fmt::Formatter<W>) -> fmt::Result {
        let (commands, listed) = (self.commands, self.listed);
        let left = listed.saturating_sub(commands);
        let least = if self.is_shared { "at least " } else { "" };
        write!(
            f,
            "the simulation ends after {commands} commands: {least}{left} of the {listed} in the replayed files are left out"
        )
    }
}
