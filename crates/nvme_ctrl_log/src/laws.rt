//! Laws of the log of a controller, over the definitions alone. Each function does nothing: its contract is the law.
ghost use Rattle.std.specs.Prelude.{◌≡◌, ◌∷◌, [], true, false, Some, None};
ghost use Rattle.nvme_entry.specs.Status.{invalid_opcode, code, success, abort_requested, lba_out_of_range};
ghost use Rattle.nvme_log.specs.declared.event.Event.TheVariants.{Fetch, OpenCq, Post, ClosedSq, OpenSq};
ghost use Rattle.nvme_log.specs.Examples.{two_slots, one_deletion, get_arbitration, admin_picked, admin_posted, read, done, admin_seen, reads_seen, picked_of};
ghost use Rattle.nvme_ctrl_log.specs.Notes.{Logged, Tail, Head, Kept, Passed, Taken, Answered, Flagged, logged, Held, Classed};
ghost use Rattle.nvme_arbiter.specs.declared.settings.Class.TheVariants.{Admin, Urgent, Low};
ghost use Rattle.nvme_ctrl_log.specs.Observation.{is_held, class_set};
ghost use Rattle.nvme_ctrl_log.specs.Steps.{IsNextPick};
ghost use Rattle.nvme_ctrl_log.specs.StatusFlags.{own_flags};
ghost use Rattle.nvme_ctrl_log.specs.Tags.{cookie_of, flags_of, all_fetches};
ghost use Rattle.nvme_ctrl_log.specs.Making.{is_named};
ghost use Rattle.nvme_ctrl_log.specs.Account.{IsLawful, IsAccount};
ghost use Rattle.nvme_ctrl_log.specs.Examples.{identify_fetched, identify_picked, identify_passed, identify_taken, identify_answered, identified, told, three_of_four, four_fetched, first_picked, first_answered, first_posted, third_answered, two_passes, succeeded, out_of_range, without_region, with_late_region, creates_fetched, create_picked, create_refused, reads_submitted, reads_waiting, read_picked, read_taken, delete_begun, aborted_done, aborts_posted, read_answered, reads_posted, deletion_noted, unflagged, not_retried, more_told, abort_picked, abort_passed, abort_taken, aborted_read, read_aborted, abort_answered, abort_done, held_and_deleted, classed_and_picked, weighted_rules, two_waiting, pick_of, two_deletions, two_closing, third_served, second_gone, both_gone};
ghost use Rattle.nvme_ctrl_log.specs.StepCounts.{StepsAreFew, steps};
ghost use Rattle.nvme_ctrl_log.specs.Progress.{IsWithDevice, WaitsForHost, WaitsForQueue};
ghost use Rattle.nvme_ctrl_log.specs.Laws.{RegionsLeaveAccounts, EventsAreAccounted, SlotsAreFetchedInOrder, CompletionsFollowAnswers, OneCompletionEach, SlotsAreFree, ReadyArePostedInTurn, CompletionsTellTheHead, DeletesAreAnsweredLast, NoneFetchedAfterDeletion, NonePickedAfterDeletion, PicksAreLawful, TagsAreApart, ObservedAsInTheLog, HeldQueuesWait, HeldQueuesWaitUntilTold};

/// An account stays one at the rules with a region more, where no Create that was picked named the region's address.
pub fn regions_leave_accounts()
    ensures { RegionsLeaveAccounts }
{}

/// The events of a controller's log in which no admin command was passed on, no queue was held and no class was set, each
/// pick was made without a limit, deletions keep the order of a front's, and each pick and abort left at most
/// `MAX_OUTSTANDING` places outstanding, are those of an accounted log in which the device answers the I/O commands. So
/// every law of such logs holds of it.
pub fn events_are_accounted()
    ensures { EventsAreAccounted }
{}

/// Each submitted slot is fetched once, in order, and never before its doorbell. The host can't have written there
/// again.
pub fn slots_are_fetched_in_order()
    ensures { SlotsAreFetchedInOrder }
{}

/// A completion is posted after the answer of its command or its abort. That of a command of the device's has the answer.
pub fn completions_follow_answers()
    ensures { CompletionsFollowAnswers }
{}

/// A command has at most one completion.
pub fn each_command_has_one_completion()
    ensures { OneCompletionEach }
{}

/// No completion is written onto one that the host hasn't consumed.
pub fn slots_are_free()
    ensures { SlotsAreFree }
{}

/// The completions of a queue are posted in the order in which they became ready: one that is ready is posted within as many
/// posts of its queue as were to come before it, and its own. So a host that reads its completion queue gets each.
pub fn completions_take_turns()
    ensures { ReadyArePostedInTurn }
{}

/// The submission queue head pointer and the phase tag of a completion are those of the specification.
pub fn completions_tell_the_head()
    ensures { CompletionsTellTheHead }
{}

/// A command that deletes a queue is answered after all commands that were fetched from the queue.
pub fn deletes_are_answered_last()
    ensures { DeletesAreAnsweredLast }
{}

/// Nothing is fetched from a queue after its deletion began, and no command of it is picked.
pub fn nothing_is_served_after_deletion()
    ensures fetched { NoneFetchedAfterDeletion }
    ensures picked { NonePickedAfterDeletion }
{}

/// Each pick is the lawful one on the open queues, with exactly their numbers of candidates, but for queues that are
/// held, of which none is seen, and with the classes that were set.
pub fn picks_are_lawful()
    ensures { PicksAreLawful }
{}

/// Where no queue was held and no class was set, arbitration sees the open queues with exactly their numbers of
/// candidates, in the classes that their Creates asked for.
pub fn unarranged_queues_are_seen()
    ensures { ObservedAsInTheLog }
{}

/// No command of a queue is picked while it is held, whatever its class and whatever waits. It is held from the note that
/// says so until one says that it isn't, or another queue is opened under its identifier.
pub fn held_queues_wait()
    ensures held { HeldQueuesWait }
    ensures until_told { HeldQueuesWaitUntilTold }
{}

/// A tag stands for one command at a time, and a command has one tag.
pub fn tags_are_apart()
    ensures { TagsAreApart }
{}

/// Worked: a read that the device has, until it answers it; a completion queue of two slots, which is full until its host
/// reads it; and a Delete that waits for a command of its queue, until that has its completion.
pub fn worked_commands_wait_for_others()
    ensures device { IsWithDevice read_taken 1 0 }
    ensures answered { IsWithDevice read_answered 1 0 → ⊥ }
    ensures host { WaitsForHost two_slots first_posted 0 }
    ensures host_read { WaitsForHost two_slots third_answered 0 → ⊥ }
    ensures queue { WaitsForQueue delete_begun 0 2 }
    ensures queue_done { WaitsForQueue reads_posted 0 2 → ⊥ }
{}

/// Worked: four completions through a completion queue of two slots, and a queue that is deleted while the device has
/// one of its commands. A device may answer otherwise than by the outcome of a command.
pub fn worked_logs_are_accounted()
    ensures two_passes { IsAccount two_slots two_passes }
    ensures deletion { IsAccount one_deletion deletion_noted }
    ensures other_answer { IsLawful one_deletion (Answered 1 0 out_of_range ∷ aborts_posted) (Logged (Post 1 1 0 (done 1 0 lba_out_of_range))) }
{}

/// Worked: a region is added when the Create that names it is fetched. The log that goes on with the Create's completion
/// queue is an account at the rules with the region. Where the Create was picked before and refused, it named the address,
/// and the refusal is no answer at the rules with the region.
pub fn regions_come_before_their_creates()
    ensures unnamed { is_named without_region creates_fetched 0x9000 ≡ false }
    ensures account { IsAccount with_late_region deletion_noted }
    ensures named { is_named without_region create_picked 0x9000 ≡ true }
    ensures refused { IsLawful without_region create_picked (Answered 0 0 create_refused) }
    ensures refused_late { IsLawful with_late_region create_picked (Answered 0 0 create_refused) → ⊥ }
{}

/// Worked: two queues are deleted at once, while a third goes on. The device has a command of the first, so the deletion
/// of the second is finished before. Until the command has its completion, the deletion of the first isn't finished,
/// and its Delete isn't answered. No command of a closing queue is fetched, and a deletion is finished for its own
/// queue.
pub fn deletions_are_apart()
    ensures account { IsAccount two_deletions both_gone }
    ensures answered_early { IsLawful two_deletions second_gone (Answered 0 4 succeeded) → ⊥ }
    ensures fetched_closing { IsLawful two_deletions two_closing (Logged (Fetch 1 1 (read 1))) → ⊥ }
    ensures finished_early { IsLawful two_deletions third_served (Logged (ClosedSq 1 1)) → ⊥ }
    ensures finished_other { IsLawful two_deletions third_served (Logged (ClosedSq 1 2)) → ⊥ }
{}

/// What the caller keeps with a command is told of its place alone. It is kept once, and with a command that was
/// fetched.
pub fn cookies_are_kept_once()
    ensures told { cookie_of (Kept 0 1 8 ∷ Kept 0 0 7 ∷ four_fetched) 0 0 ≡ Some 7 }
    ensures other_index { cookie_of (Kept 0 1 8 ∷ Kept 0 0 7 ∷ four_fetched) 0 2 ≡ None }
    ensures other_region { cookie_of (Kept 0 1 8 ∷ Kept 0 0 7 ∷ four_fetched) 1 0 ≡ None }
    ensures kept { IsLawful two_slots four_fetched (Kept 0 3 7) }
    ensures kept_twice { IsLawful two_slots (Kept 0 0 7 ∷ four_fetched) (Kept 0 0 8) → ⊥ }
    ensures kept_unfetched { IsLawful two_slots four_fetched (Kept 0 4 7) → ⊥ }
{}

/// A slot is fetched twice, or past the doorbell. A tail goes past the slots that the host may fill, and a head past
/// what was posted.
pub fn wrong_doorbells_are_refused()
    ensures fetched_twice { IsLawful two_slots three_of_four (Logged (Fetch 0 2 (get_arbitration 2))) → ⊥ }
    ensures fetched_past { IsLawful two_slots four_fetched (Logged (Fetch 0 4 (get_arbitration 4))) → ⊥ }
    ensures tail_full { IsLawful one_deletion reads_submitted (Tail 1 0) → ⊥ }
    ensures tail_past { IsLawful one_deletion reads_submitted (Tail 1 2) → ⊥ }
    ensures tail_no_slot { IsLawful one_deletion reads_submitted (Tail 1 8) → ⊥ }
    ensures tail_closing { IsLawful one_deletion delete_begun (Tail 1 4) → ⊥ }
    ensures head_past { IsLawful two_slots first_answered (Head 0 1) → ⊥ }
    ensures head_no_slot { IsLawful two_slots first_posted (Head 0 2) → ⊥ }
    ensures head_no_queue { IsLawful two_slots first_posted (Head 1 0) → ⊥ }
{}

/// A completion goes into a slot that isn't free, its phase tag doesn't turn, it comes before the answer, has another
/// status, or goes before one of its queue that became ready earlier.
pub fn wrong_completions_are_refused()
    ensures slot_not_free { IsLawful two_slots (Answered 0 1 told ∷ Logged (admin_picked 3) ∷ first_posted) (Logged (admin_posted 1 true)) → ⊥ }
    ensures phase_stays { IsLawful two_slots third_answered (Logged (admin_posted 2 true)) → ⊥ }
    ensures unanswered_admin { IsLawful two_slots first_picked (Logged (admin_posted 0 true)) → ⊥ }
    ensures unanswered { IsLawful one_deletion aborts_posted (Logged (Post 1 1 0 (done 1 0 success))) → ⊥ }
    ensures other_status { IsLawful one_deletion read_answered (Logged (Post 1 1 0 (done 1 0 lba_out_of_range))) → ⊥ }
    ensures out_of_turn { IsLawful one_deletion delete_begun (Logged (Post 1 1 2 (aborted_done 2))) → ⊥ }
{}

/// A command is taken out of turn or under a tag in use, is answered before it is picked or taken, twice, with another
/// answer than its own or before all that it makes is there, or is picked on other counts. A deletion is finished or
/// answered while a command of its queue has no completion.
pub fn wrong_answers_are_refused()
    ensures taken_out_of_turn { IsLawful one_deletion read_picked (Taken 7 1 1) → ⊥ }
    ensures taken_twice { IsLawful one_deletion read_taken (Taken 8 1 0) → ⊥ }
    ensures tag_in_use { IsLawful one_deletion (Logged (picked_of (admin_seen 1 ∷ reads_seen 2 ∷ []) 1) ∷ read_taken) (Taken 7 1 1) → ⊥ }
    ensures untaken { IsLawful one_deletion read_picked (Answered 1 0 succeeded) → ⊥ }
    ensures answered_twice { IsLawful one_deletion read_answered (Answered 1 0 succeeded) → ⊥ }
    ensures unpicked { IsLawful two_slots four_fetched (Answered 0 0 told) → ⊥ }
    ensures other_dw0 { IsLawful two_slots first_picked (Answered 0 0 succeeded) → ⊥ }
    ensures other_status { IsLawful one_deletion (Logged (OpenCq 1 1) ∷ create_picked) (Answered 0 0 out_of_range) → ⊥ }
    ensures unfinished { IsLawful one_deletion create_picked (Answered 0 0 succeeded) → ⊥ }
    ensures other_counts { IsLawful one_deletion reads_waiting (Logged (picked_of (admin_seen 1 ∷ reads_seen 2 ∷ []) 1)) → ⊥ }
    ensures closed_early { IsLawful one_deletion read_answered (Logged (ClosedSq 1 1)) → ⊥ }
    ensures told_early { IsLawful one_deletion reads_posted (Answered 0 2 succeeded) → ⊥ }
{}

/// StatusFlags are told of their place alone. The device gives them once, to a command that it has and answered.
pub fn flags_are_given_once()
    ensures told { flags_of (Flagged 1 1 more_told ∷ Flagged 1 0 not_retried ∷ read_answered) 1 0 ≡ Some not_retried }
    ensures other_index { flags_of (Flagged 1 1 more_told ∷ Flagged 1 0 not_retried ∷ read_answered) 1 2 ≡ None }
    ensures other_region { flags_of (Flagged 1 1 more_told ∷ Flagged 1 0 not_retried ∷ read_answered) 0 0 ≡ None }
    ensures flagged { IsLawful one_deletion read_answered (Flagged 1 0 not_retried) }
    ensures flagged_twice { IsLawful one_deletion (Flagged 1 0 not_retried ∷ read_answered) (Flagged 1 0 more_told) → ⊥ }
    ensures flagged_unanswered { IsLawful one_deletion read_taken (Flagged 1 0 not_retried) → ⊥ }
    ensures flagged_own { IsLawful two_slots first_answered (Flagged 0 0 not_retried) → ⊥ }
    ensures flagged_posted { IsLawful one_deletion reads_posted (Flagged 1 0 not_retried) → ⊥ }
{}

/// Worked: what the controller answers itself is flagged Do Not Retry where no retry changes it. Neither More nor Do Not
/// Retry is set for success, for a command that was aborted, for a queue that has submission queues yet, and for any
/// other status.
pub fn own_answers_are_flagged()
    ensures invalid_opcode { own_flags (code 0 0x01) ≡ not_retried }
    ensures invalid_field { own_flags (code 0 0x02) ≡ not_retried }
    ensures sequence_error { own_flags (code 0 0x0c) ≡ not_retried }
    ensures completion_queue_invalid { own_flags (code 1 0x00) ≡ not_retried }
    ensures invalid_queue_identifier { own_flags (code 1 0x01) ≡ not_retried }
    ensures invalid_queue_size { own_flags (code 1 0x02) ≡ not_retried }
    ensures feature_not_saveable { own_flags (code 1 0x0d) ≡ not_retried }
    ensures prp_offset_invalid { own_flags (code 0 0x13) ≡ not_retried }
    ensures invalid_interrupt_vector { own_flags (code 1 0x08) ≡ not_retried }
    ensures success { own_flags (code 0 0x00) ≡ unflagged }
    ensures abort_requested { own_flags (code 0 0x07) ≡ unflagged }
    ensures aborted_by_deletion { own_flags (code 0 0x08) ≡ unflagged }
    ensures invalid_queue_deletion { own_flags (code 1 0x0c) ≡ unflagged }
    ensures other { own_flags (code 2 0x01) ≡ unflagged }
{}

/// An admin command that is the device's is passed on at once when it was picked, and once, where the controller has no
/// part in it. The device takes it, and answers it as it does commands of I/O queues.
pub fn device_commands_are_passed_on()
    ensures passed { IsLawful two_slots identify_picked (Passed 0) }
    ensures taken { IsLawful two_slots identify_passed (Taken 7 0 0) }
    ensures answered { IsLawful two_slots identify_taken (Answered 0 0 succeeded) }
    ensures posted { IsLawful two_slots identify_answered (Logged (Post 0 0 0 (identified success))) }
    ensures passed_twice { IsLawful two_slots identify_passed (Passed 0) → ⊥ }
    ensures passed_unpicked { IsLawful two_slots identify_fetched (Passed 0) → ⊥ }
    ensures passed_core { IsLawful two_slots first_picked (Passed 0) → ⊥ }
    ensures taken_unpassed { IsLawful two_slots identify_picked (Taken 7 0 0) → ⊥ }
    ensures answered_untaken { IsLawful two_slots identify_passed (Answered 0 0 succeeded) → ⊥ }
    ensures posted_refused { IsLawful two_slots identify_answered (Logged (Post 0 0 0 (identified invalid_opcode))) → ⊥ }
{}

/// An Abort of a command that the device has is passed on to it. The device ends that command, and answers the Abort, which
/// is posted with its Dword 0. An Abort of a command that waits isn't passed on. (Abort)
pub fn aborts_are_passed_on()
    ensures passed { IsLawful one_deletion (abort_picked 0) (Passed 2) }
    ensures taken { IsLawful one_deletion abort_passed (Taken 8 0 2) }
    ensures ended { IsLawful one_deletion abort_taken (Answered 1 0 aborted_read) }
    ensures answered { IsLawful one_deletion read_aborted (Answered 0 2 succeeded) }
    ensures posted { IsLawful one_deletion abort_answered (Logged (Post 0 0 2 (abort_done 0))) }
    ensures read_posted { IsLawful one_deletion abort_answered (Logged (Post 1 1 0 (done 1 0 abort_requested))) }
    ensures passed_waiting { IsLawful one_deletion (abort_picked 1) (Passed 2) → ⊥ }
    ensures posted_unaborted { IsLawful one_deletion abort_answered (Logged (Post 0 0 2 (abort_done 1))) → ⊥ }
{}

/// Worked: of two ready queues the urgent one is held, and the other is picked; once it isn't held any more, it is picked
/// again. With the class low it gets no more commands than that weight. The deletion of a queue that is held aborts what
/// waits in it. A queue that is opened isn't held, and has the class of its Create.
pub fn arranged_queues_are_picked_so()
    ensures urgent_first { IsNextPick weighted_rules two_waiting (Some (pick_of 1 2)) }
    ensures urgent_held { IsNextPick weighted_rules (Held 1 true ∷ two_waiting) (Some (pick_of 2 1)) }
    ensures both_held { IsNextPick weighted_rules (Held 2 true ∷ Held 1 true ∷ two_waiting) None }
    ensures held_no_longer { IsNextPick weighted_rules (Held 1 false ∷ Held 1 true ∷ two_waiting) (Some (pick_of 1 2)) }
    ensures classed_low { IsNextPick weighted_rules (Classed 1 Low ∷ two_waiting) (Some (pick_of 1 1)) }
    ensures deletion { IsAccount one_deletion held_and_deleted }
    ensures picked_low { IsAccount one_deletion classed_and_picked }
    ensures opened_again { is_held (Logged (OpenSq 1 3 1 Urgent) ∷ Held 1 true ∷ two_waiting) 1 ≡ false }
    ensures own_class_again { class_set (Logged (OpenSq 1 3 1 Urgent) ∷ Classed 1 Low ∷ two_waiting) 1 ≡ None }
    ensures other_queue { is_held (Held 1 true ∷ two_waiting) 2 ≡ false }
{}

/// A queue is picked that is held, or in the class that it had before. A queue is held or gets a class that isn't open, the
/// admin queue gets a class, or an I/O queue gets that of the admin queue.
pub fn wrong_arrangements_are_refused()
    ensures held_picked { IsLawful one_deletion (Held 1 true ∷ reads_waiting) (Logged (picked_of (admin_seen 1 ∷ reads_seen 3 ∷ []) 1)) → ⊥ }
    ensures old_class { IsLawful one_deletion (Classed 1 Low ∷ reads_waiting) (Logged (picked_of (admin_seen 1 ∷ reads_seen 3 ∷ []) 1)) → ⊥ }
    ensures held_unopened { IsLawful one_deletion reads_waiting (Held 2 true) → ⊥ }
    ensures classed_unopened { IsLawful one_deletion reads_waiting (Classed 2 Low) → ⊥ }
    ensures admin_classed { IsLawful one_deletion reads_waiting (Classed 0 Low) → ⊥ }
    ensures classed_as_admin { IsLawful one_deletion reads_waiting (Classed 1 Admin) → ⊥ }
{}

/// At most six calls do something for each command that was fetched: with no doorbell more, calls come to an end that do
/// something. (profile)
pub fn steps_are_few()
    ensures { StepsAreFew }
{}

/// Worked: a log of six commands, of which one is a Delete, and one goes to the device, has 18 notes of calls that do
/// something. A note of the device's flags is one, too.
pub fn worked_steps()
    ensures all { steps deletion_noted ≡ 18 }
    ensures answered { steps (Flagged 1 0 not_retried ∷ read_answered) ≡ 16 }
    ensures fetched { all_fetches (logged deletion_noted) ≡ 6 }
{}
