// The latencies that are drawn of commands, chosen by their ranks.
use nvme_latency::{PARTS, Ranked};
use std::alloc::{AllocError, Global};

// From one latency to the next a twentieth of the commands that took as long or longer is passed.
const STEP: usize = 20;

// More than are drawn, however many commands there are.
const MOST: usize = 2_000;

/// A percentile.
#[derive(Clone, Copy, Debug, PartialEq, Eq)]
pub(crate) struct Level {
    pub(crate) name: &'static str,
    /// How many of `PARTS` of the commands took no longer.
    pub(crate) parts: u32,
}

/// The percentiles that are marked.
pub(crate) const LEVELS: [Level; 3] = [
    Level {
        name: "p50",
        parts: 50_000,
    },
    Level {
        name: "p99",
        parts: 99_000,
    },
    Level {
        name: "p99.9",
        parts: 99_900,
    },
];

impl Level {
    /// Its latency. None where there is no command.
    pub(crate) fn time(&self, ranked: &Ranked) -> Option<u64> {
        ranked.quantile(self.parts.max(1).min(PARTS))
    }

    /// How many of `PARTS` of the commands took longer.
    pub(crate) fn beyond(&self) -> u32 {
        PARTS.saturating_sub(self.parts)
    }

    // How many commands took as long or longer. None where that level isn't marked: not one command is beyond it.
    fn count(&self, ranked: &Ranked) -> Option<usize> {
        let all = ranked.count();
        if all == 0 || all.saturating_mul(self.beyond() as usize) < PARTS as usize {
            return None;
        }
        let rank = ranked.rank(self.parts.max(1).min(PARTS));
        Some(all.saturating_sub(rank).saturating_add(1))
    }
}

/// A percentile of commands, and its latency in picoseconds.
#[derive(Clone, Copy, Debug, PartialEq, Eq)]
pub(crate) struct Percentile {
    pub(crate) level: Level,
    pub(crate) time: u64,
    // How many commands took as long or longer.
    count: usize,
}

/// The percentiles of commands that are marked: those beyond which there is a command.
pub(crate) fn percentiles_of(
    alloc: Global,
    ranked: &Ranked,
) -> Result<Vec<Percentile>, AllocError> {
    let mut percentiles = Vec::new(alloc);
    for level in LEVELS {
        if let Some(time) = level.time(ranked)
            && let Some(count) = level.count(ranked)
        {
            percentiles.push(Percentile { level, time, count })?;
        }
    }
    Ok(percentiles)
}

/// A latency in picoseconds, and how many commands took as long or longer.
#[derive(Clone, Copy, Debug, PartialEq, Eq)]
pub(crate) struct Reached {
    pub(crate) time: u64,
    pub(crate) count: usize,
}

// How many commands the next latency has behind one that has so many, 0 behind the longest. No percentile is left out.
fn next_count(count: usize, percentiles: &[Percentile]) -> usize {
    let mut next = count.saturating_sub((count / STEP).max(1));
    for percentile in percentiles {
        if percentile.count < count {
            next = next.max(percentile.count);
        }
    }
    next
}

/// The latencies that are drawn, from the shortest to the longest: these two, the percentiles, each of the last 38, and so many
/// between that one has at most a twentieth fewer commands beyond it than the one before.
pub(crate) fn tail_of(
    alloc: Global,
    ranked: &Ranked,
    percentiles: &[Percentile],
) -> Result<Vec<Reached>, AllocError> {
    let all = ranked.count();
    let mut tail = Vec::new(alloc);
    let mut count = all;
    for _ in 0..MOST {
        let rank = all.saturating_sub(count).saturating_add(1);
        let Some(time) = ranked.at(rank) else {
            break;
        };
        tail.push(Reached { time, count })?;
        count = next_count(count, percentiles);
    }
    Ok(tail)
}
