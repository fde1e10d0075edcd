// The numbers of a queue, of a class or of all.
ghost use Rattle.std.specs.Prelude.{◌≡◌, ◌≤◌, ◌<◌, [], MatchOption, length};
ghost use Rattle.nvme_latency.specs.declared.ranked.TheConstants.{PARTS};
ghost use Rattle.nvme_latency.specs.Times.{ranked_times};
ghost use Rattle.nvme_numbers.specs.Rows.{IsFedRow, IsRow, IsSpread, above};

use crate::feed::Amount;
use crate::quotient::quotient;
use crate::tally::RankedTally;
use nvme_latency::Ranked;

/// How many picoseconds a second has.
const SECOND: u128 = 1_000_000_000_000;

// Shares are told in millionths.
const MILLION: u128 = 1_000_000;

/// How long commands took, in picoseconds. Quantiles are by nearest rank, and exact; means are rounded down.
#[derive(Clone, Copy, Debug, PartialEq, Eq)]
pub struct Spread {
    /// The mean of the latencies.
    pub mean: u64,
    /// The median.
    pub p50: u64,
    /// The 95th percentile.
    pub p95: u64,
    /// The 99th percentile.
    pub p99: u64,
    /// The 99.9th percentile.
    pub p999: u64,
    /// The longest latency.
    pub longest: u64,
    /// The mean of the times in their hosts.
    pub host: u128,
    /// The mean of the times in their rings and in arbitration.
    pub arbitration: u128,
    /// The mean of the times in the device, before they ran.
    pub device: u128,
    /// The mean of the times on a channel.
    pub service: u128,
    /// How many commands lie above the median: all but those of its rank and below.
    pub above_p50: usize,
    /// How many lie above the 95th percentile.
    pub above_p95: usize,
    /// How many lie above the 99th percentile.
    pub above_p99: usize,
    /// How many lie above the 99.9th percentile.
    pub above_p999: usize,
}

/// What was done while commands came: behind the coming of the first one that counts, and no later than the last coming.
/// Commands of the warm-up that end in this time are among them.
#[derive(Clone, Copy, Debug, PartialEq, Eq)]
pub struct Fed {
    /// How many were done in a second while commands came, rounded. `None` where no time passed.
    pub iops: Option<u128>,
    /// How many bytes these read and wrote in a second, rounded. `None` where no time passed.
    pub bytes_per_second: Option<u128>,
    /// How long commands came, from the first one that counts to the last one, in picoseconds.
    pub time: u64,
}

/// The numbers of the commands of a queue, of a class or of all.
#[derive(Clone, Copy, Debug, PartialEq, Eq)]
pub struct Row {
    /// How many commands they are.
    pub commands: usize,
    /// Their share of all commands in millionths, rounded. `None` where there is no command.
    pub share: Option<u128>,
    /// How many were done in a second, rounded. `None` where no time passed.
    pub iops: Option<u128>,
    /// How many bytes they read and wrote in a second, rounded. `None` where no time passed.
    pub bytes_per_second: Option<u128>,
    /// How long they took. `None` where there is none.
    pub spread: Option<Spread>,
    /// What was done while commands came.
    pub fed: Fed,
}

// How many latencies lie above a quantile of so many of `PARTS` parts.
fn above(latencies: &Ranked, parts: u32) -> usize
    requires some { 0 < parts }
    requires whole { parts ≤ PARTS }
    requires not_empty { 0 < length (ranked_times latencies.now) }
    ensures { result ≡ above parts (length (ranked_times latencies.now)) }
{
    latencies.count() - latencies.rank(parts)
}

// How long commands took. `None` where there is none.
fn spread_of(tally: &RankedTally) -> Option<Spread>
    ensures { MatchOption result (ranked_times tally.now.latencies ≡ [])
        (IsSpread (ranked_times tally.now.latencies) tally.now.sums) }
{
    let latencies = &tally.latencies;
    let count = latencies.count() as u128;
    let sums = &tally.sums;
    Some(Spread {
        mean: latencies.mean()?,
        p50: latencies.quantile(50_000)?,
        p95: latencies.quantile(95_000)?,
        p99: latencies.quantile(99_000)?,
        p999: latencies.quantile(99_900)?,
        longest: latencies.longest()?,
        host: sums.host.checked_div(count)?,
        arbitration: sums.arbitration.checked_div(count)?,
        device: sums.device.checked_div(count)?,
        service: sums.service.checked_div(count)?,
        above_p50: above(latencies, 50_000),
        above_p95: above(latencies, 95_000),
        above_p99: above(latencies, 99_000),
        above_p999: above(latencies, 99_900),
    })
}

/// What was done in so many picoseconds while commands came.
pub fn fed_of(done: Amount, time: u64) -> Fed
    ensures { IsFedRow time done result }
{
    Fed {
        iops: quotient(done.commands, SECOND, u128::from(time)),
        bytes_per_second: quotient(done.bytes, SECOND, u128::from(time)),
        time,
    }
}

/// The row of commands that were done in so many picoseconds, out of so many commands in all, with what was done while
/// commands came.
pub fn row_of(tally: &RankedTally, span: u64, whole: usize, fed: Fed) -> Row
    ensures row { IsRow span whole (ranked_times tally.now.latencies) tally.now.sums result }
    ensures fed { result.fed ≡ fed }
{
    let commands = tally.latencies.count();
    let time = u128::from(span);
    Row {
        commands,
        share: quotient(commands as u128, MILLION, whole as u128),
        iops: quotient(commands as u128, SECOND, time),
        bytes_per_second: quotient(tally.sums.bytes, SECOND, time),
        spread: spread_of(tally),
        fed,
    }
}
