// What is counted of a queue in a class.
use crate::lanes::{LANES, class_of_lane, lane_of};
use nvme_arbiter::{Mechanism, Seen};

/// The counts of a queue in a class.
#[derive(Clone, Copy, Default)]
pub struct Tally {
    /// Whether it was seen.
    pub seen: bool,
    /// The picks of it.
    pub picks: u64,
    /// The commands of these.
    pub commands: u64,
    // For how many picks in a row it is now ready and not picked.
    waits: u64,
    /// The most such picks.
    pub longest: u64,
}

/// Counts of nothing.
pub const NO_TALLY: Tally = Tally {
    seen: false,
    picks: 0,
    commands: 0,
    waits: 0,
    longest: 0,
};

impl Tally {
    /// Adds what was counted of another queue, or in another class.
    pub fn add(&mut self, other: &Tally) {
        self.seen |= other.seen;
        self.picks = self.picks.saturating_add(other.picks);
        self.commands = self.commands.saturating_add(other.commands);
        self.longest = self.longest.max(other.longest);
    }
}

// Which rows are ready.
fn ready_lanes(seen: &[Seen]) -> [bool; LANES] {
    let mut ready = [false; LANES];
    for queue in seen {
        if queue.count > 0
            && let Some(lane) = lane_of(queue)
        {
            ready[lane] = true;
        }
    }
    ready
}

/// Counts what a pick takes from its row.
pub fn count_pick(tallies: &mut [Tally; LANES], lane: usize, n: u16) {
    if let Some(tally) = tallies.get_mut(lane) {
        tally.picks = tally.picks.saturating_add(1);
        tally.commands = tally.commands.saturating_add(u64::from(n));
    }
}

/// Notes which rows were seen.
pub fn note_seen(tallies: &mut [Tally; LANES], seen: &[Seen]) {
    for queue in seen {
        if let Some(lane) = lane_of(queue)
            && let Some(tally) = tallies.get_mut(lane)
        {
            tally.seen = true;
        }
    }
}

/// Counts one more pick of waiting for the ready rows that compete with a pick: all rows under round robin, otherwise
/// those of its class. A pick of a queue that isn't seen has no row, and no class.
pub fn wait(
    tallies: &mut [Tally; LANES],
    mechanism: Mechanism,
    seen: &[Seen],
    picked: Option<usize>,
) {
    let class = picked.map(class_of_lane);
    let ready = ready_lanes(seen);
    for (lane, tally) in tallies.iter_mut().enumerate() {
        if mechanism == Mechanism::Weighted && class != Some(class_of_lane(lane)) {
            continue;
        }
        if picked == Some(lane) || ready.get(lane) != Some(&true) {
            tally.waits = 0;
        } else {
            tally.waits = tally.waits.saturating_add(1);
            tally.longest = tally.longest.max(tally.waits);
        }
    }
}

/// Starts the waiting of all rows from 0 again.
pub fn wait_anew(tallies: &mut [Tally; LANES]) {
    for tally in tallies.iter_mut() {
        tally.waits = 0;
    }
}
