// The keys that each kind of table may have.
use crate::key::Key;

/// The keys of the file's own table.
pub const FILE_KEYS: [Key; 7] = [
    Key::Version,
    Key::Mechanism,
    Key::Burst,
    Key::Weights,
    Key::Simulation,
    Key::Device,
    Key::Queue,
];

/// The keys of `simulation`.
pub const SIMULATION_KEYS: [Key; 4] = [Key::Seed, Key::Commands, Key::Time, Key::WarmUp];

/// The keys of `device`.
pub const DEVICE_KEYS: [Key; 9] = [
    Key::Channels,
    Key::Depth,
    Key::Placing,
    Key::Stripe,
    Key::Size,
    Key::Read,
    Key::Write,
    Key::Flush,
    Key::Pauses,
];

/// The keys of `pauses`.
pub const PAUSE_KEYS: [Key; 2] = [Key::Every, Key::For];

/// The keys of a queue.
pub const QUEUE_KEYS: [Key; 9] = [
    Key::Class,
    Key::Slots,
    Key::Arrivals,
    Key::Mix,
    Key::Blocks,
    Key::Offsets,
    Key::Read,
    Key::Write,
    Key::Flush,
];

/// The keys of `mix`.
pub const MIX_KEYS: [Key; 3] = [Key::Read, Key::Write, Key::Flush];

/// The keys of `arrivals`.
pub const ARRIVAL_KEYS: [Key; 6] = [
    Key::Poisson,
    Key::Every,
    Key::Closed,
    Key::Think,
    Key::Bursts,
    Key::Replay,
];

/// The keys of `arrivals` that replay a file.
pub const REPLAY_KEYS: [Key; 4] = [Key::Replay, Key::Form, Key::Speed, Key::Queue];

/// The keys of `bursts`.
pub const BURST_KEYS: [Key; 3] = [Key::Poisson, Key::On, Key::Off];

/// The keys of the service of reads or writes.
pub const SERVICE_KEYS: [Key; 7] = [
    Key::Fixed,
    Key::Exponential,
    Key::Usual,
    Key::Rare,
    Key::OneIn,
    Key::Quantiles,
    Key::PerBlock,
];

/// The keys of the service of flushes.
pub const FLUSH_KEYS: [Key; 6] = [
    Key::Fixed,
    Key::Exponential,
    Key::Usual,
    Key::Rare,
    Key::OneIn,
    Key::Quantiles,
];
