ghost use Rattle.std.specs.Prelude.{◌≡◌};

/// A key of a short workload file.
#[derive(Clone, Copy, Debug, PartialEq, Eq)]
pub enum Key {
    /// `version` of the file: 1. A file with this key is a short one.
    Version,
    /// `mechanism` of the file: the arbitration mechanism.
    Mechanism,
    /// `burst` of the file, or of an item that sets the arbitration: the most commands of a pick.
    Burst,
    /// `weights` of the file, or of an item that sets the arbitration.
    Weights,
    /// `high` of the weights.
    High,
    /// `medium` of the weights.
    Medium,
    /// `low` of the weights.
    Low,
    /// `namespaces` of the file: the sizes of the namespaces, in blocks.
    Namespaces,
    /// `patience` of the file: the turns without a step after which a run gives up.
    Patience,
    /// `admin_depth` of the file: the slots of the admin submission queue.
    AdminDepth,
    /// `admin_cq_depth` of the file: the slots of the admin completion queue.
    AdminCqDepth,
    /// `admin` of the file: the admin commands beside the Creates.
    Admin,
    /// `queue` of the file: the I/O queues, which count from 1.
    Queue,
    /// `class` of a queue: its priority class.
    Class,
    /// `depth` of a queue: the slots of its submission queue.
    Depth,
    /// `cq` of a queue: the queue whose completion queue it shares.
    Cq,
    /// `cq_depth` of a queue: the slots of its own completion queue.
    CqDepth,
    /// `script` of a queue or of an item that repeats it: commands.
    Script,
    /// `repeat` of an item: how often its script stands there.
    Repeat,
    /// `op` of an item: the name of a command, or an opcode.
    Op,
    /// `slba` of an item: the first block.
    Slba,
    /// `blocks` of an item: how many blocks.
    Blocks,
    /// `spread` of an item: whether its commands go on from block to block.
    Spread,
    /// `queue` of an item: the number of a queue.
    Number,
    /// `queue` of an Abort: the identifier of a submission queue.
    Target,
    /// `cid` of an Abort: the command identifier.
    Cid,
    /// `feature` of an item: the name of a feature.
    Feature,
    /// `flags` of an item: byte 1 of the entry.
    Flags,
    /// `nsid` of an item: the namespace identifier.
    Nsid,
    /// `prp1` of an item: PRP entry 1.
    Prp1,
    /// `cdw10` of an item: Command Dword 10.
    Cdw10,
    /// `cdw11` of an item: Command Dword 11.
    Cdw11,
    /// `cdw12` of an item: Command Dword 12.
    Cdw12,
    /// `count` of an item: how many commands it stands for.
    Count,
}

impl Key {
    ghost use Rattle.nvme_short_form.specs.Keys.{text_of};

    /// The name of the key in a file.
    pub fn name(&self) -> &'static str
        ensures text { result.now ≡ text_of self.now }
    {
        match self {
            Key::Version => "version",
            Key::Mechanism => "mechanism",
            Key::Burst => "burst",
            Key::Weights => "weights",
            Key::High => "high",
            Key::Medium => "medium",
            Key::Low => "low",
            Key::Namespaces => "namespaces",
            Key::Patience => "patience",
            Key::AdminDepth => "admin_depth",
            Key::AdminCqDepth => "admin_cq_depth",
            Key::Admin => "admin",
            Key::Queue | Key::Number | Key::Target => "queue",
            Key::Class => "class",
            Key::Depth => "depth",
            Key::Cq => "cq",
            Key::CqDepth => "cq_depth",
            Key::Script => "script",
            Key::Repeat => "repeat",
            Key::Op => "op",
            Key::Slba => "slba",
            Key::Blocks => "blocks",
            Key::Spread => "spread",
            Key::Cid => "cid",
            Key::Feature => "feature",
            Key::Flags => "flags",
            Key::Nsid => "nsid",
            Key::Prp1 => "prp1",
            Key::Cdw10 => "cdw10",
            Key::Cdw11 => "cdw11",
            Key::Cdw12 => "cdw12",
            Key::Count => "count",
        }
    }
}
