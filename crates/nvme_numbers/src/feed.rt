// What is done while commands come.
ghost use Rattle.std.specs.Prelude.{◌≡◌};
ghost use Rattle.nvme_numbers.specs.Feeding.{amount_plus, amount_with, is_behind};
ghost use Rattle.nvme_numbers.specs.Feeds.{feed_with, settled, with_coming};

use crate::sums::BLOCK_BYTES;
use nvme_model::Finished;

/// How many commands were done, and how many bytes they read and wrote. No more than 2^128 - 1 are told.
#[derive(Clone, Copy, Debug, PartialEq, Eq)]
pub struct Amount {
    pub commands: u128,
    pub bytes: u128,
}

/// No command.
pub const NONE_DONE: Amount = Amount {
    commands: 0,
    bytes: 0,
};

impl Amount {
    /// With a command.
    pub fn with(self, finished: &Finished) -> Amount
        ensures { result ≡ amount_with self finished.now }
    {
        let bytes = BLOCK_BYTES * u64::from(finished.blocks);
        Amount {
            commands: self.commands.saturating_add(1),
            bytes: self.bytes.saturating_add(u128::from(bytes)),
        }
    }

    /// With others.
    pub fn plus(self, others: Amount) -> Amount
        ensures { result ≡ amount_plus self others }
    {
        Amount {
            commands: self.commands.saturating_add(others.commands),
            bytes: self.bytes.saturating_add(others.bytes),
        }
    }
}

/// How commands came so far.
#[derive(Clone, Copy, Debug, PartialEq, Eq)]
pub struct Comings {
    /// How many came.
    pub count: u64,
    /// When the last one came, in picoseconds, and 0 where none did.
    pub last: u64,
    /// When the first one came that counts.
    pub first: Option<u64>,
}

/// No command came.
pub const NONE_CAME: Comings = Comings {
    count: 0,
    last: 0,
    first: None,
};

impl Comings {
    /// So many came, the last of them at this time. So many of the first ones warm up.
    pub fn with(self, warm_up: u64, count: u64, at: u64) -> Comings
        ensures { result ≡ with_coming warm_up count at self }
    {
        if count <= self.count {
            return self;
        }
        let is_first = self.count <= warm_up && warm_up < count;
        Comings {
            count,
            last: at,
            first: if is_first { Some(at) } else { self.first },
        }
    }

    /// Whether a command is done behind the coming of the first one that counts.
    pub fn is_behind(&self, finished: &Finished) -> bool
        ensures { result ≡ is_behind self.now.first finished.now }
    {
        match self.first {
            Some(first) => first < finished.times.done,
            None => false,
        }
    }
}

/// What is done of a queue, behind the coming of the first command that counts.
#[derive(Clone, Copy, Debug, PartialEq, Eq)]
pub struct Feed {
    /// No later than the last coming.
    fed: Amount,
    /// Behind it.
    since: Amount,
    /// How many commands had come then.
    count: u64,
}

/// No command.
pub const NO_FEED: Feed = Feed {
    fed: NONE_DONE,
    since: NONE_DONE,
    count: 0,
};

impl Feed {
    /// What was done no later than the last coming, where so many commands came.
    pub fn settled(self, count: u64) -> Amount
        ensures { result ≡ settled count self }
    {
        if self.count == count {
            self.fed
        } else {
            self.fed.plus(self.since)
        }
    }

    /// With a command that is done, where so many commands came, the last of them at this time.
    pub fn with(self, count: u64, last: u64, finished: &Finished) -> Feed
        ensures { result ≡ feed_with count last finished.now self }
    {
        let fed = self.settled(count);
        let since = if self.count == count {
            self.since
        } else {
            NONE_DONE
        };
        if finished.times.done <= last {
            Feed {
                fed: fed.with(finished),
                since,
                count,
            }
        } else {
            Feed {
                fed,
                since: since.with(finished),
                count,
            }
        }
    }
}
