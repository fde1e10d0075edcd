// Counts of waits, in fixed buckets: one for each wait below 1,024, and from there on 16 for each power of two. So a
// bucket is at most a sixteenth as wide as what it counts.
use std::alloc::{AllocError, Global};

// Waits below this have buckets of their own.
const EXACT: u64 = 1_024;

// The number of buckets for waits from a power of two to the next.
const PARTS: u64 = 16;

// The powers of two up to the first that has several buckets, and up to the last.
const FIRST_POWER: u32 = 10;

const LAST_POWER: u32 = 63;

const BUCKETS: usize = 1_024 + 16 * 54;

/// How many waits there were of each length.
#[derive(Drop)]
pub struct Histogram {
    buckets: Vec<u64>,
    count: u64,
    sum: u128,
    most: u64,
}

// The bucket of a wait.
fn bucket_of(wait: u64) -> usize {
    if wait < EXACT {
        return wait as usize;
    }
    let power = LAST_POWER.saturating_sub(wait.leading_zeros());
    let shift = power.saturating_sub(4).min(59);
    let part = (wait >> shift) % PARTS;
    let before = PARTS * u64::from(power.saturating_sub(FIRST_POWER));
    (EXACT + before + part) as usize
}

// The longest wait of a bucket.
fn longest_of(bucket: u64) -> u64 {
    if bucket < EXACT {
        return bucket;
    }
    let above = bucket - EXACT;
    let (power, part) = ((above / PARTS).min(53), above % PARTS);
    let width = 1u128 << (power + 6);
    let longest = (u128::from(part) + 17) * width - 1;
    u64::try_from(longest).unwrap_or(u64::MAX)
}

impl Histogram {
    /// A histogram of no wait.
    pub fn new(alloc: Global) -> Histogram {
        Histogram {
            buckets: Vec::new(alloc),
            count: 0,
            sum: 0,
            most: 0,
        }
    }

    /// Adds a wait. The first one takes the memory for all.
    pub fn add(&mut self, alloc: Global, wait: u64) -> Result<(), AllocError> {
        if self.buckets.is_empty() {
            self.buckets = vec![in alloc; 0; BUCKETS]?;
        }
        if let Some(bucket) = self.buckets.get_mut(bucket_of(wait)) {
            *bucket = bucket.saturating_add(1);
        }
        self.count = self.count.saturating_add(1);
        self.sum = self.sum.saturating_add(u128::from(wait));
        self.most = self.most.max(wait);
        Ok(())
    }

    /// The number of waits.
    pub fn count(&self) -> u64 {
        self.count
    }

    /// The longest wait, exactly. 0 where there is none.
    pub fn most(&self) -> u64 {
        self.most
    }

    /// The mean wait, in hundredths, rounded. 0 where there is none.
    pub fn mean(&self) -> u128 {
        let count = u128::from(self.count);
        if count == 0 {
            return 0;
        }
        self.sum.saturating_mul(100).saturating_add(count / 2) / count
    }

    /// The wait that so many of a hundred waits don't exceed: the longest of its bucket, or the longest wait of all
    /// where that is less. 0 where there is none.
    pub fn percentile(&self, percent: u64) -> u64 {
        let rank = u128::from(self.count) * u128::from(percent);
        let mut sum = 0u128;
        for (at, count) in self.buckets.iter().enumerate() {
            sum = sum.saturating_add(u128::from(*count));
            if *count > 0 && sum.saturating_mul(100) >= rank {
                return longest_of(at as u64).min(self.most);
            }
        }
        self.most
    }
}
