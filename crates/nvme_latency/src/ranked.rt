// Latencies by their rank.
ghost use Rattle.std.specs.Prelude.{◌≡◌, ◌≤◌, ◌<◌, ◌⊎◌, ◌+◌, ◌-◌, ◌*◌, ◌/◌, [], IfNone, IfSome, MatchOption, OnSome, get_or, length, sum};
ghost use Rattle.std.specs.List.Sorted.{IsNonDecreasing, IsSorted};
ghost use Rattle.std.specs.Ordering.{nat_cmp};
ghost use Rattle.nvme_latency.specs.declared.ranked.TheConstants.{PARTS};

/// A quantile is told in so many parts of all latencies: the median by 50,000, and the 99.9th percentile by 99,900.
pub const PARTS: u32 = 100_000;

// The mean of so many times with this sum, none of which is longer than the longest.
fn mean_of(sum: u128, count: usize, longest: u64) -> u64
    requires some { 0 < count }
    requires most { sum ≤ count * longest }
    ensures { result ≡ sum / count }
{
    (sum / count as u128) as u64
}

/// Latencies in picoseconds, from the shortest to the longest.
#[derive(Drop)]
pub struct Ranked {
    times: Vec<u64>,
    ghost ordered: { IsNonDecreasing times.items },
}

impl Ranked {
    ghost use Rattle.nvme_latency.specs.Quantiles.{IsLongest, IsQuantile, rank_of};
    ghost use Rattle.nvme_latency.specs.Times.{ranked_times};

    // Of times that are sorted.
    pub(crate) fn of_sorted(times: Vec<u64>) -> Ranked
        requires { IsSorted nat_cmp times.items }
        ensures { ranked_times result ≡ times.items }
    {
        Ranked { times }
    }

    // All of them.
    pub(crate) fn times(&self) -> &[u64]
        ensures { result.now ≡ ranked_times self.now }
    {
        self.times.as_slice()
    }

    /// How many there are.
    pub fn count(&self) -> usize
        ensures { result ≡ length (ranked_times self.now) }
    {
        self.times.len()
    }

    /// The sum of all.
    pub fn sum(&self) -> u128
        ensures { result ≡ sum (ranked_times self.now) }
    {
        self.times.iter().map(|&time| u128::from(time)).sum()
    }

    /// The mean, rounded down to a whole picosecond. None where there is none.
    pub fn mean(&self) -> Option<u64>
        ensures value { MatchOption result (ranked_times self.now ≡ [])
            (λ m. m ≡ sum (ranked_times self.now) / length (ranked_times self.now)) }
        ensures some { OnSome result (0 < length (ranked_times self.now)) }
    {
        match self.longest() {
            Some(longest) => Some(mean_of(self.sum(), self.times.len(), longest)),
            None => None,
        }
    }

    /// The longest one. None where there is none.
    pub fn longest(&self) -> Option<u64>
        ensures { MatchOption result (ranked_times self.now ≡ []) (λ m. IsLongest (ranked_times self.now) m) }
    {
        if self.times.is_empty() {
            return None;
        }
        Some(self.times[self.times.len() - 1])
    }

    /// The latency of a rank, which is 1 for the shortest one. None where no latency has it.
    pub fn at(&self, rank: usize) -> Option<u64>
        ensures some { IfSome result (λ t. t ≡ get_or (ranked_times self.now) (rank - 1) 0) }
        ensures none { IfNone result ((rank ≡ 0) ⊎ (length (ranked_times self.now) < rank)) }
    {
        if rank == 0 || rank > self.times.len() {
            return None;
        }
        Some(self.times[rank - 1])
    }

    /// The rank of a quantile of so many of `PARTS` parts: how many latencies it has to reach.
    pub fn rank(&self, parts: u32) -> usize
        requires some { 0 < parts }
        requires whole { parts ≤ PARTS }
        requires not_empty { 0 < length (ranked_times self.now) }
        ensures value { result ≡ rank_of parts (length (ranked_times self.now)) }
        ensures above { 0 < result }
        ensures within { result ≤ length (ranked_times self.now) }
    {
        let product = u128::from(parts) * self.times.len() as u128;
        ((product + u128::from(PARTS - 1)) / u128::from(PARTS)) as usize
    }

    /// The quantile of so many of `PARTS` parts: the shortest time that so large a part of the latencies doesn't exceed.
    /// None where there is no latency.
    pub fn quantile(&self, parts: u32) -> Option<u64>
        requires some { 0 < parts }
        requires whole { parts ≤ PARTS }
        ensures value { MatchOption result (ranked_times self.now ≡ []) (λ q. IsQuantile parts (ranked_times self.now) q) }
        ensures some { OnSome result (0 < length (ranked_times self.now)) }
    {
        if self.times.is_empty() {
            return None;
        }
        Some(self.times[self.rank(parts) - 1])
    }
}
