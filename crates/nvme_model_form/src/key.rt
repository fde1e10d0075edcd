ghost use Rattle.std.specs.Prelude.{◌≡◌};

/// A key of a simulation file.
#[derive(Clone, Copy, Debug, PartialEq, Eq)]
pub enum Key {
    /// `version` of the file: 1.
    Version,
    /// `mechanism` of the file, as the short workload file has it.
    Mechanism,
    /// `burst` of the file, as the short workload file has it.
    Burst,
    /// `weights` of the file, as the short workload file has them.
    Weights,
    /// `simulation` of the file: how long it goes, and the seed.
    Simulation,
    /// `device` of the file: the device.
    Device,
    /// `queue` of the file: the queues, which count from 1. Of arrivals: the queue whose lines of a log are replayed.
    Queue,
    /// `seed` of the simulation: of all that is drawn.
    Seed,
    /// `commands` of the simulation: how many come in all.
    Commands,
    /// `time` of the simulation: then and later none comes.
    Time,
    /// `warm_up` of the simulation: how many of those that came first no number counts.
    WarmUp,
    /// `channels` of the device: how many it has.
    Channels,
    /// `depth` of the device: how many commands it has at a time.
    Depth,
    /// `placing` of the device: on which channels a command may run.
    Placing,
    /// `stripe` of the device: how many blocks lie on a channel before those of the next one.
    Stripe,
    /// `size` of the device: the blocks of its namespace.
    Size,
    /// `pauses` of the device: those of each channel.
    Pauses,
    /// `read` of the device or of a queue: the service of reads. Of a mix: their share.
    Read,
    /// `write` of the device or of a queue: the service of writes. Of a mix: their share.
    Write,
    /// `flush` of the device or of a queue: the service of flushes. Of a mix: their share.
    Flush,
    /// `every` of the pauses: from the beginning of one to that of the next. Of arrivals: regular ones.
    Every,
    /// `for` of the pauses: how long each takes.
    For,
    /// `class` of a queue, as the short workload file has it.
    Class,
    /// `slots` of a queue: of each of its rings.
    Slots,
    /// `arrivals` of a queue: when its commands come.
    Arrivals,
    /// `mix` of a queue: the shares of reads, writes and flushes.
    Mix,
    /// `blocks` of a queue: of each of its reads and writes.
    Blocks,
    /// `offsets` of a queue: where its commands lie.
    Offsets,
    /// `fixed` of a service: the time of each command.
    Fixed,
    /// `exponential` of a service: the mean of exponential times.
    Exponential,
    /// `usual` of a service: the time but for rare ones.
    Usual,
    /// `rare` of a service: the rare time.
    Rare,
    /// `one_in` of a service: in how many commands the rare time comes once.
    OneIn,
    /// `quantiles` of a service: times at equal steps of probability.
    Quantiles,
    /// `per_block` of a service: what each block adds.
    PerBlock,
    /// `poisson` of arrivals or of bursts: a rate, or the mean of exponential gaps.
    Poisson,
    /// `closed` of arrivals: how many commands the host has out.
    Closed,
    /// `think` of arrivals: from a completion to the next command of a closed host.
    Think,
    /// `bursts` of arrivals: on and off phases.
    Bursts,
    /// `on` of bursts: how long each on phase is.
    On,
    /// `off` of bursts: how long each off phase is.
    Off,
    /// `replay` of arrivals: the name of a file.
    Replay,
    /// `form` of arrivals: that of the file.
    Form,
    /// `speed` of arrivals: how many times as fast as in the file commands come.
    Speed,
}

impl Key {
    ghost use Rattle.nvme_model_form.specs.Keys.{text_of};

    /// The name of the key in a file.
    pub fn name(&self) -> &'static str
        ensures text { result.now ≡ text_of self.now }
    {
        match self {
            Key::Version => "version",
            Key::Mechanism => "mechanism",
            Key::Burst => "burst",
            Key::Weights => "weights",
            Key::Simulation => "simulation",
            Key::Device => "device",
            Key::Queue => "queue",
            Key::Seed => "seed",
            Key::Commands => "commands",
            Key::Time => "time",
            Key::WarmUp => "warm_up",
            Key::Channels => "channels",
            Key::Depth => "depth",
            Key::Placing => "placing",
            Key::Stripe => "stripe",
            Key::Size => "size",
            Key::Pauses => "pauses",
            Key::Read => "read",
            Key::Write => "write",
            Key::Flush => "flush",
            Key::Every => "every",
            Key::For => "for",
            Key::Class => "class",
            Key::Slots => "slots",
            Key::Arrivals => "arrivals",
            Key::Mix => "mix",
            Key::Blocks => "blocks",
            Key::Offsets => "offsets",
            Key::Fixed => "fixed",
            Key::Exponential => "exponential",
            Key::Usual => "usual",
            Key::Rare => "rare",
            Key::OneIn => "one_in",
            Key::Quantiles => "quantiles",
            Key::PerBlock => "per_block",
            Key::Poisson => "poisson",
            Key::Closed => "closed",
            Key::Think => "think",
            Key::Bursts => "bursts",
            Key::On => "on",
            Key::Off => "off",
            Key::Replay => "replay",
            Key::Form => "form",
            Key::Speed => "speed",
        }
    }
}
