//! Laws of what the notes of a controller show, over the definitions alone. Each function does nothing: its contract is the
//! law.
ghost use Rattle.std.specs.Prelude.{◌≡◌, Some};
ghost use Rattle.nvme_log.specs.Examples.{one_deletion, two_slots};
ghost use Rattle.nvme_ctrl_log.specs.Examples.{deletion_noted, two_passes};
ghost use Rattle.nvme_ctrl_log.specs.Account.{IsAccount};
ghost use Rattle.nvme_audit.specs.declared.event.Event.TheVariants.{Post};
ghost use Rattle.nvme_audit.specs.declared.verdict.Rule.TheVariants.{PostClosed};
ghost use Rattle.nvme_audit.specs.declared.verdict.Verdict.TheVariants.{Broken};
ghost use Rattle.nvme_audit.specs.Lawful.{IsFaultlessLog, verdict};
ghost use Rattle.nvme_own_log.specs.Shown.{completion_of, shown, start_of};
ghost use Rattle.nvme_own_log.specs.Duties.{KeepsDuties};
ghost use Rattle.nvme_own_log.specs.Examples.{deletion_shown, passes_shown};
ghost use Rattle.nvme_own_log.specs.TurnExamples.{answer, read_answered, read_told, two_rings};
ghost use Rattle.nvme_own_log.specs.Laws.{AdminQueuesAreLawful, CompletionsAreLawful, DoorbellsAreLawful, FetchesAreLawful};

/// Worked: what two logs of a controller show, and that the judge finds no fault with them.
pub fn worked_logs_are_shown()
    ensures deletion { shown one_deletion deletion_noted ≡ deletion_shown }
    ensures two_passes { shown two_slots two_passes ≡ passes_shown }
    ensures deletion_faultless { IsFaultlessLog (start_of one_deletion) deletion_shown }
    ensures passes_faultless { IsFaultlessLog (start_of two_slots) passes_shown }
{}

/// What an account shows of the admin queues keeps all rules of rings and of names: commands are fetched that were
/// submitted, slot by slot; completions are written slot by slot, with the phase tag of their pass, into a slot that is
/// free; and each is of an outstanding command, with a head after it. The host keeps the identifiers of outstanding
/// commands apart.
pub fn admin_queues_are_lawful()
    ensures { AdminQueuesAreLawful }
{}

/// What an account shows of fetches, from any queue, keeps the rules of fetches: the queue is open, the tail doorbell
/// announced the command, and its slot is the next. Queues lie on regions that were added, just the admin queues are there at
/// the start, and the host waits for completions (`KeepsDuties`).
pub fn fetches_are_lawful()
    ensures { FetchesAreLawful }
{}

/// What an account shows of completions, of any queue and into any completion queue, keeps all rules of rings and of names:
/// completions are written slot by slot, with the phase tag of their pass, into a slot that is free of a completion queue
/// that is open; and each is of an outstanding command of an open queue that posts there, with a head after it. A host may
/// use a completion queue before its Create is answered, but then the judge doesn't know its slots. It is so under the
/// premises of `FetchesAreLawful`, where the host turns a completion queue too by one command at a time (`TurnsCqsAlone`).
pub fn completions_are_lawful()
    ensures { CompletionsAreLawful }
{}

/// The judge blames the host for no doorbell that an account shows: a tail is a slot, no further on than where the ring is full,
/// and a head is a slot, no further on than the completions. It is so under the premises of `CompletionsAreLawful`, where the
/// host writes heads only of completion queues that it was told are there, and to which no completion came before that
/// (`KnowsHeads`).
pub fn doorbells_are_lawful()
    ensures { DoorbellsAreLawful }
{}

/// Worked: why the host turns a completion queue by one command at a time. An account in which a Create of a completion
/// queue is answered before the Delete that took effect before it: all other duties are kept, and the judge takes the queue
/// as deleted, so that it blames the controller for the next completion.
pub fn worked_turns()
    ensures account { IsAccount two_rings read_told }
    ensures duties { KeepsDuties (start_of two_rings) (shown two_rings read_told) }
    ensures judged { verdict (start_of two_rings) (shown two_rings read_answered) (Post 1 (Some 0) (completion_of (answer 1 0 1))) ≡ Broken PostClosed }
{}
