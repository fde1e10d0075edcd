ghost use Rattle.std.specs.Prelude.{◌≤◌};
ghost use Rattle.nvme_admin.specs.declared.bounds.TheConstants.{MAX_IO_QUEUES};

/// How many I/O queues of each kind the controller can allot, each 1 to `MAX_IO_QUEUES`.
/// (Base Specification, Number of Queues feature)
#[derive(Clone, Copy, Debug, PartialEq, Eq)]
pub struct Limits {
    /// The number of I/O submission queues.
    pub nsq: u16,
    /// The number of I/O completion queues.
    pub ncq: u16,
    pub ghost nsq_not_zero: { 1 ≤ nsq },
    pub ghost nsq_in_range: { nsq ≤ MAX_IO_QUEUES },
    pub ghost ncq_not_zero: { 1 ≤ ncq },
    pub ghost ncq_in_range: { ncq ≤ MAX_IO_QUEUES },
}
