//! A law of what the notes of an engine show. Its function does nothing: its contract is the law.
ghost use Rattle.nvme_front_log.specs.Laws.{FrontsLogsAreLawful};

/// A front breaks no rule of the judge at any event that its controller's notes show: doorbells, fetches and completions
/// (`shown`). No region was added after the first event. The host keeps its duties (`KeepsDuties`) and turns a completion
/// queue too by one command at a time (`TurnsCqsAlone`). At least one queue of each kind is allotted, and at most 64 submission
/// queues. Nothing is asked of a device: a front answers each I/O command with its outcome, and passes no admin command on.
pub fn fronts_logs_are_lawful()
    ensures { FrontsLogsAreLawful }
{}
