//! Laws of the statuses that the notes of a controller show, over the definitions alone. Each function does nothing: its
//! contract is the law.
ghost use Rattle.std.specs.Prelude.{◌≡◌, Some, None};
ghost use Rattle.nvme_entry.specs.Status.{success};
ghost use Rattle.nvme_log.specs.Examples.{one_deletion};
ghost use Rattle.nvme_log.specs.Laws.{StartsWithAdmin};
ghost use Rattle.nvme_ctrl_log.specs.Account.{IsAccount};
ghost use Rattle.nvme_ctrl_log.specs.Making.{placing_in};
ghost use Rattle.nvme_audit.specs.declared.event.Event.TheVariants.{Post};
ghost use Rattle.nvme_audit.specs.declared.verdict.Rule.TheVariants.{StatusDelete};
ghost use Rattle.nvme_audit.specs.declared.verdict.Verdict.TheVariants.{Broken};
ghost use Rattle.nvme_audit.specs.Lawful.{verdict};
ghost use Rattle.nvme_own_log.specs.Shown.{completion_of, shown, start_of};
ghost use Rattle.nvme_own_log.specs.Duties.{KeepsDuties, TurnsCqsAlone, KnowsHeads};
ghost use Rattle.nvme_own_statuses.specs.Statuses.{IsAnswerKept, DeviceKeeps, DeviceTakesOwn};
ghost use Rattle.nvme_own_statuses.specs.Examples.{answer, refused, refused_told};
ghost use Rattle.nvme_own_statuses.specs.Laws.{SqdelsAreAsked, AbortsAreAsked, AbortedAreAsTold, AbortsAreTrue, StatusesAreOfCommands, FeaturesAreTrue, DeletesAreTrue, SqCreatesAreTrue, CqCreatesAreTrue, CqDeletesAreTrue, LogsAreLawful, LogsAreFaultless, IoLogsAreLawful};

/// A completion says that its command was aborted with its queue only where a Delete of that was fetched. Of the statuses
/// that the device gave the device keeps that (`DeviceKeeps`); so it is in the laws below.
pub fn sqdels_are_asked()
    ensures { SqdelsAreAsked }
{}

/// A completion says that an Abort command aborted its command only where an Abort named it: one that was fetched after
/// the command, or was outstanding at its fetch.
pub fn aborts_are_asked()
    ensures { AbortsAreAsked }
{}

/// A command that an Abort says was aborted ends with Command Abort Requested. The device says so only of commands that it
/// has (`DeviceTakesOwn`).
pub fn aborted_are_as_told()
    ensures { AbortedAreAsTold }
{}

/// An Abort says that a command was aborted only where one of that name is outstanding or has ended so.
pub fn aborts_are_true()
    ensures { AbortsAreTrue }
{}

/// No completion has the specific status of another command.
pub fn statuses_are_of_commands()
    ensures { StatusesAreOfCommands }
{}

/// Set Features of Number of Queues succeeds only before an I/O queue is created, and tells the same numbers each time, none
/// of them FFFFh. The device answers no such command.
pub fn features_are_true()
    ensures { FeaturesAreTrue }
{}

/// A Delete of an I/O submission queue succeeds only where that is open, and is refused with Invalid Queue Identifier only
/// where it isn't. The device answers no such command.
pub fn deletes_are_true()
    ensures { DeletesAreTrue }
{}

/// A Create of an I/O completion queue succeeds only where no queue is open under its identifier, and with two slots at
/// least. It is refused with Invalid Queue Identifier only where one is, or the identifier isn't within the numbers that were
/// told. At least one completion queue is allotted.
pub fn cq_creates_are_true()
    ensures { CqCreatesAreTrue }
{}

/// A Create of an I/O submission queue succeeds only where no queue is open under its identifier, with two slots at least and
/// onto a completion queue that is open. It is refused with Completion Queue Invalid only where that isn't, and with Invalid
/// Queue Identifier only where its own identifier is in use, or one of the two isn't within the numbers that were told. Whether
/// the completion queue is open is judged where no Create or Delete of it was outstanding since the fetch. At least one
/// queue of each kind is allotted, and at most 64 submission queues.
pub fn sq_creates_are_true()
    ensures { SqCreatesAreTrue }
{}

/// A Delete of an I/O completion queue succeeds only where that is open and no submission queue is attached to it. It is
/// refused with Invalid Queue Identifier only where it isn't open, and with Invalid Queue Deletion only where one is attached.
/// Whether one is attached is judged where no Create or Delete of a submission queue was outstanding since the fetch. At most
/// 64 submission queues are allotted. The device answers no such command.
pub fn cq_deletes_are_true()
    ensures { CqDeletesAreTrue }
{}

/// The controller breaks no rule at any event of the log that an account shows: fetches and completions keep the rules of rings
/// and of names (`nvme_own_log`), and statuses those of the laws above. The host keeps its duties (`KeepsDuties`) and turns a
/// completion queue too by one command at a time (`TurnsCqsAlone`). The statuses that the device gives break no rule either
/// (`DeviceKeeps`), and it says only of commands which it has that it aborted them (`DeviceTakesOwn`).
pub fn logs_are_lawful()
    ensures { LogsAreLawful }
{}

/// Nor does the host break one, by the judge's rules of hosts: it accuses nobody at any event of the log. For that the host
/// writes heads only of completion queues that it was told are there, and to which no completion came before that (`KnowsHeads`).
pub fn logs_are_faultless()
    ensures { LogsAreFaultless }
{}

/// Worked: a log that meets the premises of `logs_are_faultless`, in which the Delete of a completion queue is refused, since a
/// submission queue is attached to it. The judge would blame a controller that let it succeed.
pub fn worked_refusal()
    ensures starts { StartsWithAdmin one_deletion }
    ensures by_regions { placing_in one_deletion ≡ None }
    ensures account { IsAccount one_deletion refused_told }
    ensures duties { KeepsDuties (start_of one_deletion) (shown one_deletion refused_told) }
    ensures turns { TurnsCqsAlone (shown one_deletion refused_told) }
    ensures heads { KnowsHeads (start_of one_deletion) (shown one_deletion refused_told) }
    ensures own { DeviceTakesOwn refused_told }
    ensures device { DeviceKeeps one_deletion (IsAnswerKept (start_of one_deletion)) refused_told }
    ensures judged { verdict (start_of one_deletion) (shown one_deletion refused) (Post 0 (Some 2) (completion_of (answer 0 2 3 success))) ≡ Broken StatusDelete }
{}

/// The controller breaks none either where no admin command was passed on, and the device says by no status that a command was
/// aborted: the other statuses that it gives I/O commands break no rule.
pub fn io_logs_are_lawful()
    ensures { IoLogsAreLawful }
{}
