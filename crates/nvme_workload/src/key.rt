ghost use Rattle.std.specs.Prelude.{◌≡◌};

/// A key of a workload file, in the order in which each table's keys are checked.
#[derive(Clone, Copy, Debug, PartialEq, Eq)]
pub enum Key {
    /// `mechanism` of the file: the arbitration mechanism.
    Mechanism,
    /// `arbitration` of the file: Command Dword 11 of the Arbitration feature.
    Arbitration,
    /// `sq_limit` of the file: the number of I/O submission queues that may be allotted.
    SqLimit,
    /// `cq_limit` of the file: the number of I/O completion queues that may be allotted.
    CqLimit,
    /// `patience` of the file: the turns without a step after which a run gives up.
    Patience,
    /// `namespaces` of the file: the sizes of the namespaces, in blocks.
    Namespaces,
    /// `submission` of the file: the submission regions.
    Submission,
    /// `completion` of the file: the completion regions.
    Completion,
    /// `address` of a region.
    Address,
    /// `slots` of a region.
    Slots,
    /// `script` of a submission region: the commands that its host submits.
    Script,
    /// `op` of a script's item: the opcode.
    Op,
    /// `flags` of a script's item: byte 1 of the entry.
    Flags,
    /// `nsid` of a script's item: the namespace identifier.
    Nsid,
    /// `prp1` of a script's item: PRP entry 1.
    Prp1,
    /// `cdw10` of a script's item: Command Dword 10.
    Cdw10,
    /// `cdw11` of a script's item: Command Dword 11.
    Cdw11,
    /// `cdw12` of a script's item: Command Dword 12.
    Cdw12,
    /// `count` of a script's item: how many equal commands it stands for.
    Count,
}

impl Key {
    ghost use Rattle.nvme_workload.specs.Keys.{text_of};

    /// The name of the key in a file.
    pub fn name(&self) -> &'static str
        ensures text { result.now ≡ text_of self.now }
    {
        match self {
            Key::Mechanism => "mechanism",
            Key::Arbitration => "arbitration",
            Key::SqLimit => "sq_limit",
            Key::CqLimit => "cq_limit",
            Key::Patience => "patience",
            Key::Namespaces => "namespaces",
            Key::Submission => "submission",
            Key::Completion => "completion",
            Key::Address => "address",
            Key::Slots => "slots",
            Key::Script => "script",
            Key::Op => "op",
            Key::Flags => "flags",
            Key::Nsid => "nsid",
            Key::Prp1 => "prp1",
            Key::Cdw10 => "cdw10",
            Key::Cdw11 => "cdw11",
            Key::Cdw12 => "cdw12",
            Key::Count => "count",
        }
    }
}

/// The keys of the file's own table.
pub(crate) const FILE_KEYS: [Key; 8] = [
    Key::Mechanism,
    Key::Arbitration,
    Key::SqLimit,
    Key::CqLimit,
    Key::Patience,
    Key::Namespaces,
    Key::Submission,
    Key::Completion,
];

/// The keys of a table of `submission`.
pub(crate) const SUBMISSION_KEYS: [Key; 3] = [Key::Address, Key::Slots, Key::Script];

/// The keys of a table of `completion`.
pub(crate) const COMPLETION_KEYS: [Key; 2] = [Key::Address, Key::Slots];

/// The keys of a table of `script`.
pub(crate) const COMMAND_KEYS: [Key; 8] = [
    Key::Op,
    Key::Flags,
    Key::Nsid,
    Key::Prp1,
    Key::Cdw10,
    Key::Cdw11,
    Key::Cdw12,
    Key::Count,
];
