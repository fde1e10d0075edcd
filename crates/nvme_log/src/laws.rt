//! Laws of logs, over the definitions alone. Each function does nothing: its contract is the law.
ghost use Rattle.nvme_log.specs.Account.{Deletes, IndexCounts, IsAccount, LeavesPlaces, Observed, PostsOwn, ServedWhileOpen, IsWholeAccount, IsClear, deleting_place, latest_admin_place};
ghost use Rattle.nvme_arbiter.specs.Limits.{highest_count};
ghost use Rattle.nvme_log.specs.Limits.{max_outstanding, most_events, admin_events, max_ready};
ghost use Rattle.nvme_log.specs.declared.limits.TheConstants.{MAX_OUTSTANDING, MAX_EVENTS};
ghost use Rattle.nvme_log.specs.Effects.{EffectsAtOnce, effects_since, made_last};
ghost use Rattle.nvme_log.specs.Completions.{outstanding, posted_to, posts_of, unposted_of};
ghost use Rattle.nvme_log.specs.Histories.{arbitration_of, picks_in};
ghost use Rattle.nvme_log.specs.Places.{fetched, waiting, is_served};
ghost use Rattle.nvme_log.specs.Examples.{admin_posted, arbitration_told, at_admin, four_commands, four_completions, last_picked, two_slots, two_slots_past};
ghost use Rattle.nvme_log.specs.Examples.{at_two, one_deletion, admin_script, reads, read, delete_sq, done, admin_done, reads_done, admin_seen, reads_seen, picked_of, admin_fetched, reads_fetched, one_picked, delete_picked, closing, aborted_posted, all_posted, deleted, queue_created, closed, read_done, window_filled};
ghost use Rattle.nvme_log.specs.Dispatches.{dispatched, place_at};
ghost use Rattle.nvme_log.specs.Queues.{is_serving, pending};
ghost use Rattle.nvme_log.specs.FourNumbers.{four_numbers, admin_five, four_reads, at_zero_and_two, five_told, four_told, four_done, all_closed};
ghost use Rattle.nvme_log.specs.FourNumbers.{seen_4, two_picked, three_fetched, burst_set, one_more_picked, delete_4_picked, closing_4, posted_4, closed_4, last_unposted, four_told_first, five_told_first};
ghost use Rattle.nvme_log.specs.Aborts.{is_aborted_with_queue, places_for};
ghost use Rattle.nvme_log.specs.AbortExamples.{abort, abort_1_1, fused_abort, two_aborts, reads_and, told, two_aborts_told, reads_told, two_waiting, abort_picked, one_aborted, abort_posted, second_picked, both_told, one_of, two_of};
ghost use Rattle.nvme_log.specs.AbortExamples.{abort_and_delete, six_reads, six_done, abort_and_delete_told, six_told, abort_4_picked, one_aborted_4, delete_after_abort, both_aborted, both_posted, abort_and_deleted};
ghost use Rattle.nvme_log.specs.declared.event.Event.TheVariants.{Fetch, OpenSq, Closing, Abort, Post, ClosedSq};
ghost use Rattle.nvme_arbiter.specs.Lawful.{IsLawfulRun};
ghost use Rattle.nvme_arbiter.specs.declared.settings.Class.TheVariants.{Urgent};
ghost use Rattle.nvme_entry.specs.Status.{success, abort_requested, aborted_by_deletion, invalid_field};
ghost use mathlib.Core.List.{IsPrefix};
ghost use Rattle.nvme_log.specs.Rules.{Each, FrontRules, Past, slots_at, sq_regions_of};
ghost use Rattle.std.specs.Prelude.{◌≡◌, ℕ, ◌+◌, [], ◌∷◌, ◌++◌, Some, None, true, false};
ghost use Rattle.nvme_log.specs.AbortLaws.{AbortedAreNotDispatched, AdminIsNotAborted, AbortedAreTold, AbortsTakeTheOldest, AbortsAreTold};
ghost use Rattle.nvme_log.specs.Loaded.{IsNoPost, without_posts, are_filled, FilledBefore, FetchesLast, ClosedAtOnce, NothingAfterClosed, NoneWaits, IsLoadedLog};
ghost use Rattle.nvme_log.specs.LoadedExamples.{no_scripts, small_windows, small_script, create_picked, small_opened, small_delete_fetched, small_fetched, small_picked, small_refilled, small_delete_picked, small_aborted, small_closed, crosswise};
ghost use Rattle.nvme_log.specs.LoadedLaws.{LoadedStepIsOne, LoadedLogIsOne};
ghost use Rattle.nvme_log.specs.Foreseen.{AnswersAreForeseen};
ghost use Rattle.nvme_log.specs.Bounds.{LogsAreShort};
ghost use Rattle.nvme_log.specs.PromiseExamples.{one_read, one_read_done, unclosed_answered, unclosed, one_too_many, unasked_set, unasked, unasked_done, abort_missing, answered_early, aborted_late};
ghost use Rattle.nvme_log.specs.Answers.{by_answers};
ghost use Rattle.nvme_log.specs.Account.{IsAccountBy, PostsOwnBy};
ghost use Rattle.nvme_log.specs.AnswerLaws.{IsAnsweredPick, AccountsAnswerAlike, AccountsAnswerByOutcome, AnswersByOutcomeAreAccounted, AccountsKeepTheLaws, PrefixesAreAccountedBy, WholeAccountsAnswerBy, WholeAccountsKeepThePromiseBy, PromisesServeOnceBy};
ghost use Rattle.nvme_log.specs.AnswerExamples.{faulty, failed, read_failed, creates_done, failed_told};
ghost use Rattle.nvme_log.specs.Laws.{KeepsThePromise, NoneAfterDelete, PickedOnce, AbortedUnpicked, CompletedAfter, PromisesServeOnce};
ghost use Rattle.nvme_log.specs.Laws.{QueuesAreTheTables, StartsWithAdmin, OneFateEach, PlacesAreTaken, PrefixesAreAccounted, OnePostEach, WholeAccountsAnswer, WholeAccountsKeepThePromise};

/// Each fetched place has exactly one fate: it waits, was picked or was aborted.
pub fn each_place_has_one_fate()
    ensures { OneFateEach }
{}

/// Every prefix of an accounted log is accounted, but for two clauses: that all effects of the latest picked command
/// are there, and that what was collected was posted.
pub fn prefixes_are_accounted()
    ensures { PrefixesAreAccounted }
{}

/// No place of an accounted log has two completions.
pub fn each_place_has_one_post()
    ensures { OnePostEach }
{}

/// In a whole account the commands fetched from each region are the first that were submitted to it, in order, and
/// every fetched command has exactly one collected completion, its own.
pub fn whole_accounts_answer()
    ensures { WholeAccountsAnswer }
{}

/// What a run promises, sentence by sentence, from the whole account alone. The commands fetched from each submission
/// queue are a prefix of those submitted to it, in order, each once, none after its deletion began. Every fetched
/// command has exactly one collected completion, its own. The picks are a lawful run of the configured arbitration over
/// the candidate counts that the arbiter observed.
pub fn whole_accounts_keep_the_promise()
    ensures { WholeAccountsKeepThePromise }
{}

/// By the promise alone, each fetched command was picked once, or was aborted and never picked. Its completion comes
/// afterwards.
pub fn promises_serve_once()
    ensures { PromisesServeOnce }
{}

/// The worked log of a deletion keeps the promise.
pub fn deletion_keeps_the_promise()
    ensures { KeepsThePromise one_deletion (at_two admin_script reads) deleted (at_two admin_done reads_done) }
{}

/// No log picks a place twice.
pub fn no_place_is_picked_twice()
    ensures { (past : Past) → PickedOnce past }
{}

/// Logs that break a sentence of the promise, each with the field that refuses it. A Delete is answered while its queue
/// stays open, and a command is fetched from it; a completion is collected that was never posted; the settings change
/// without a command; a Delete has only a part of its effects; a command is answered before it is picked; and one is
/// aborted after it was picked.
pub fn broken_promises_are_refused()
    ensures unclosed { KeepsThePromise one_deletion (at_two admin_script one_read) unclosed (at_two admin_done (one_read_done ∷ [])) → ⊥ }
    ensures fetched_after_answer { NoneAfterDelete one_deletion unclosed → ⊥ }
    ensures answered_unclosed { Each (EffectsAtOnce one_deletion) unclosed_answered → ⊥ }
    ensures collected_too_many { KeepsThePromise one_deletion (at_two admin_script reads) deleted (at_two one_too_many reads_done) → ⊥ }
    ensures unasked { KeepsThePromise one_deletion (at_two admin_script reads) unasked (at_two admin_done unasked_done) → ⊥ }
    ensures set_by_no_command { Each (EffectsAtOnce one_deletion) unasked_set → ⊥ }
    ensures lawful_then { IsLawfulRun one_deletion.mechanism one_deletion.start.settings (arbitration_of unasked) }
    ensures observed_then { Each Observed unasked }
    ensures one_abort_missing { KeepsThePromise one_deletion (at_two admin_script reads) abort_missing (at_two admin_done reads_done) → ⊥ }
    ensures answered_early { CompletedAfter answered_early → ⊥ }
    ensures aborted_late { AbortedUnpicked aborted_late → ⊥ }
{}

/// An accounted log has at most five events for each command that was submitted: its fetch, its pick or its abort, its
/// completion, its effect on queues or settings, and the end of the deletion that it begins.
pub fn logs_are_short()
    ensures { LogsAreShort }
{}

/// The completion of an admin command says the status that the commands submitted before it let foresee: no command
/// begins before the deletion that the one before it began is finished.
pub fn answers_are_foreseen()
    ensures { AnswersAreForeseen }
{}

/// A log is the account of a front that executes commands by itself exactly where it is accounted by their outcomes. So
/// it is where the answers are the outcomes of the picked I/O commands whose completions were posted, whatever they are
/// elsewhere: an account takes no answer from anywhere else.
pub fn accounts_answer_by_outcome()
    ensures exactly { AccountsAnswerByOutcome }
    ensures agreeing { AnswersByOutcomeAreAccounted }
    ensures alike { AccountsAnswerAlike }
{}

/// Whatever executes the I/O commands, and whatever it answers: the laws of accounts hold, prefixes are accounted, a
/// whole account answers each command and keeps the promise of a run, and the promise serves each command once.
pub fn laws_hold_whatever_executes()
    ensures accounts { AccountsKeepTheLaws }
    ensures prefixes { PrefixesAreAccountedBy }
    ensures whole { WholeAccountsAnswerBy }
    ensures promise { WholeAccountsKeepThePromiseBy }
    ensures served { PromisesServeOnceBy }
{}

/// Worked: a device answers the Read that is picked with an error and a Dword 0. The log is accounted by its
/// answers, and isn't the account of a front that executes by itself. Another status and another Dword 0 than
/// the device's are refused. An admin command is told what its checks say, and an aborted one who aborted it, whatever
/// the device has for their places.
pub fn devices_answer_otherwise()
    ensures accounted { IsAccountBy one_deletion (by_answers faulty) (at_two admin_script reads) read_failed (at_two creates_done failed_told) }
    ensures not_by_outcome { IsAccount one_deletion (at_two admin_script reads) read_failed (at_two creates_done failed_told) → ⊥ }
    ensures other_status { PostsOwnBy one_deletion (by_answers faulty) one_picked (Post 1 1 0 (record (failed read_done) { status = success })) → ⊥ }
    ensures other_dw0 { PostsOwnBy one_deletion (by_answers faulty) one_picked (Post 1 1 0 (record (failed read_done) { dw0 = 0 })) → ⊥ }
    ensures aborted { PostsOwnBy one_deletion (by_answers faulty) closing (Post 1 1 1 (done 1 1 aborted_by_deletion)) }
{}

/// Worked: answers matter for a picked I/O command whose completion was posted, as the Read of that log. They don't for
/// an admin command, for a command that was aborted and for one without a completion.
pub fn answered_picks_are_told_apart()
    ensures read { IsAnsweredPick read_failed 1 0 }
    ensures admin { IsAnsweredPick read_failed 0 0 → ⊥ }
    ensures aborted { IsAnsweredPick aborted_posted 1 1 → ⊥ }
    ensures unposted { IsAnsweredPick one_picked 1 0 → ⊥ }
{}

/// The queues that an accounted log opens and closes are those of its table history. Each opening is an accepted
/// Create.
pub fn queues_are_those_of_the_table()
    ensures { QueuesAreTheTables }
{}

/// Worked: four completions through a ring of two slots have the phase tags 1, 1, 0, 0. The log is accounted. With the
/// phase tag of the first completion on the last it isn't.
pub fn phase_wraps_in_two_slots()
    ensures accounted { IsAccount two_slots (at_admin four_commands) (two_slots_past (admin_posted 3 false)) (at_admin four_completions) }
    ensures phase_must_turn { Each (PostsOwn two_slots) (two_slots_past (admin_posted 3 true)) → ⊥ }
{}

/// Worked: a submission queue is deleted while one of its commands runs and two wait. The two are aborted, and the
/// Delete is answered after the last post of the queue. The log is accounted.
pub fn delete_with_three_waiting()
    ensures accounted { IsAccount one_deletion (at_two admin_script reads) deleted (at_two admin_done reads_done) }
    ensures starts { StartsWithAdmin one_deletion }
{}

/// One small change of that log for each clause of the account, which the clause refuses.
pub fn changed_logs_are_refused()
    ensures fetched_in_another_order { IsPrefix (fetched deleted 1) (read 1 ∷ read 0 ∷ read 2 ∷ []) → ⊥ }
    ensures fetched_index_skipped { IndexCounts reads_fetched (Fetch 1 4 (read 3)) → ⊥ }
    ensures fetched_after_closing { ServedWhileOpen one_deletion closing (Fetch 1 3 (read 3)) → ⊥ }
    ensures picked_after_closing { ServedWhileOpen one_deletion closing (picked_of (reads_seen 2 ∷ []) 1) → ⊥ }
    ensures counts_invented { Observed reads_fetched (picked_of (admin_seen 1 ∷ reads_seen 2 ∷ []) 1) → ⊥ }
    ensures aborted_out_of_turn { EffectsAtOnce one_deletion (Closing 1 1 ∷ delete_picked) (Abort 1 2) → ⊥ }
    ensures opened_without_a_command { EffectsAtOnce one_deletion one_picked (OpenSq 2 1 1 Urgent) → ⊥ }
    ensures one_abort_missing { effects_since (Abort 1 1 ∷ Closing 1 1 ∷ delete_picked) ≡ made_last one_deletion (Abort 1 1 ∷ Closing 1 1 ∷ delete_picked) → ⊥ }
    ensures closed_while_a_command_runs { Deletes aborted_posted (ClosedSq 1 1) → ⊥ }
    ensures answered_before_closed { Deletes all_posted (Post 0 0 2 (done 0 2 success)) → ⊥ }
    ensures fetched_while_pending { Deletes closing (Fetch 0 3 delete_sq) → ⊥ }
    ensures aborted_posted_with_success { PostsOwn one_deletion closing (Post 1 1 1 (done 1 1 success)) → ⊥ }
    ensures posted_twice { PostsOwn one_deletion all_posted (Post 1 1 0 (done 1 0 success)) → ⊥ }
    ensures posted_to_another_region { PostsOwn one_deletion aborted_posted (Post 0 1 0 (done 1 0 success)) → ⊥ }
    ensures one_place_too_many { (past : Past) → outstanding one_deletion (picked_of (admin_seen 1 ∷ []) 0 ∷ past) ≡ max_outstanding + 1 → LeavesPlaces one_deletion past (picked_of (admin_seen 1 ∷ []) 0) → ⊥ }
    ensures picked_out_of_turn { IsLawfulRun one_deletion.mechanism one_deletion.start.settings (arbitration_of (picked_of (admin_seen 1 ∷ reads_seen 3 ∷ []) 0 ∷ reads_fetched)) → ⊥ }
    ensures collected_in_another_order { IsPrefix (done 1 0 success ∷ done 1 1 aborted_by_deletion ∷ []) (posted_to deleted 1) → ⊥ }
{}

/// The own completion of a place has its queue, its command's identifier, its status, its Dword 0, the number
/// of commands fetched so far and the phase tag of its turn. One that differs in a field is refused. (Base
/// Specification, Completion Queue Entry)
pub fn each_field_of_a_completion_is_its_own()
    ensures own { PostsOwn one_deletion aborted_posted (Post 1 1 0 read_done) }
    ensures sqid { PostsOwn one_deletion aborted_posted (Post 1 1 0 (record read_done { sqid = 2 })) → ⊥ }
    ensures cid { PostsOwn one_deletion aborted_posted (Post 1 1 0 (record read_done { cid = 1 })) → ⊥ }
    ensures status { PostsOwn one_deletion aborted_posted (Post 1 1 0 (record read_done { status = aborted_by_deletion })) → ⊥ }
    ensures dw0 { PostsOwn one_deletion aborted_posted (Post 1 1 0 (record read_done { dw0 = 1 })) → ⊥ }
    ensures sqhd { PostsOwn one_deletion aborted_posted (Post 1 1 0 (record read_done { sqhd = 1 })) → ⊥ }
    ensures phase { PostsOwn one_deletion aborted_posted (Post 1 1 0 (record read_done { phase = false })) → ⊥ }
    ensures dw0_of_a_feature { PostsOwn two_slots last_picked (Post 0 0 3 (record (arbitration_told 3 false) { dw0 = 0 })) → ⊥ }
    ensures status_of_a_create { PostsOwn one_deletion queue_created (Post 0 0 1 (done 0 1 invalid_field)) → ⊥ }
{}

/// Worked: a completion is posted after its place was picked or aborted, and before its queue's deletion is finished.
pub fn completions_are_posted_in_their_time()
    ensures while_it_waits { PostsOwn one_deletion reads_fetched (Post 1 1 0 read_done) → ⊥ }
    ensures after_its_queue_was_closed { Deletes closed (Post 1 1 0 read_done) → ⊥ }
{}

/// Worked: a window of seven takes the seventh candidate and not the eighth.
pub fn window_holds_seven()
    ensures seventh { Each (ServedWhileOpen one_deletion) window_filled }
    ensures eighth { ServedWhileOpen one_deletion window_filled (Fetch 1 7 (read 7)) → ⊥ }
{}

/// Worked: where two places were picked and aren't posted, and two were aborted with their queue, two are outstanding.
pub fn aborted_places_are_not_outstanding()
    ensures { outstanding one_deletion closing ≡ 2 }
{}

/// Worked: a queue, its region, its completion queue and that queue's region have four different numbers. Two of its
/// commands are picked at once, the settings change, and both queues are deleted. The log is accounted.
pub fn four_numbers_are_told_apart()
    ensures accounted { IsAccount four_numbers (at_zero_and_two admin_five four_reads) all_closed (at_two five_told four_told) }
{}

/// What a deletion forbids, one by one: a pick while it is pending, the end of another queue's deletion or of another
/// region's, and a fetch, an abort or a post after it.
pub fn deletions_forbid()
    ensures picked_while_pending { Deletes closing_4 (picked_of (admin_seen 1 ∷ []) 0) → ⊥ }
    ensures end_of_another_queue { Deletes posted_4 (ClosedSq 2 2) → ⊥ }
    ensures end_of_another_region { Deletes posted_4 (ClosedSq 4 1) → ⊥ }
    ensures fetched_after_closed { Deletes closed_4 (Fetch 2 4 (read 14)) → ⊥ }
    ensures aborted_after_closed { Deletes closed_4 (Abort 2 3) → ⊥ }
    ensures posted_after_closed { Deletes closed_4 (Post 1 2 0 (four_done 10 true success)) → ⊥ }
{}

/// Worked steps of that log: the places that workers get, in order; how many commands were picked, are
/// outstanding and have no post; which command deletes; which regions and places are served; and that a region that
/// doesn't exist has no slots.
pub fn worked_steps_are_counted()
    ensures dispatched { dispatched all_closed ≡ place_at 2 0 ∷ place_at 2 1 ∷ place_at 2 2 ∷ [] }
    ensures picks { picks_in all_closed ≡ 7 }
    ensures posts { posts_of all_closed 2 3 ≡ 1 }
    ensures unposted { unposted_of closing_4 2 ≡ 4 }
    ensures none_unposted { unposted_of one_more_picked 0 ≡ 0 }
    ensures outstanding { outstanding four_numbers closing_4 ≡ 4 }
    ensures latest { latest_admin_place one_more_picked ≡ Some 2 }
    ensures deleting { deleting_place closing_4 ≡ Some 3 }
    ensures none_deleting { deleting_place closed_4 ≡ None }
    ensures open { is_serving three_fetched 2 ≡ true }
    ensures closing { is_serving closing_4 2 ≡ true }
    ensures closed { is_serving closed_4 2 ≡ false }
    ensures aborted { is_served closing_4 2 3 ≡ true }
    ensures waiting { is_served burst_set 2 2 ≡ false }
    ensures unfetched { is_served closing_4 2 4 ≡ false }
    ensures no_region { slots_at (sq_regions_of four_numbers) 3 ≡ 0 }
{}

/// A log is no whole account where one thing is missing: a post, a collected completion, the fetch of a command, the
/// submission of one, its submission before the first turn, or a script that begins with what was submitted.
pub fn whole_accounts_have_all()
    ensures post { IsWholeAccount four_numbers false (at_zero_and_two admin_five four_reads) (at_zero_and_two admin_five four_reads) last_unposted (at_two five_told_first four_told) → ⊥ }
    ensures collected { IsWholeAccount four_numbers false (at_zero_and_two admin_five four_reads) (at_zero_and_two admin_five four_reads) all_closed (at_two five_told four_told_first) → ⊥ }
    ensures fetched { IsWholeAccount four_numbers false (at_zero_and_two (admin_five ++ delete_sq ∷ []) four_reads) (at_zero_and_two (admin_five ++ delete_sq ∷ []) four_reads) all_closed (at_two five_told four_told) → ⊥ }
    ensures submitted { IsWholeAccount four_numbers false (at_zero_and_two (admin_five ++ delete_sq ∷ []) four_reads) (at_zero_and_two admin_five four_reads) all_closed (at_two five_told four_told) → ⊥ }
    ensures loaded { IsWholeAccount four_numbers true (at_zero_and_two admin_five (four_reads ++ read 14 ∷ [])) (at_zero_and_two admin_five four_reads) all_closed (at_two five_told four_told) → ⊥ }
    ensures in_order { IsWholeAccount four_numbers false (at_zero_and_two admin_five (read 14 ∷ [])) (at_zero_and_two admin_five four_reads) all_closed (at_two five_told four_told) → ⊥ }
{}

/// What keeps a log from being clear, one by one: a command that waits, one whose completion isn't posted, and a
/// deletion that is pending.
pub fn clear_logs_have_nothing_left()
    ensures waiting { IsClear (Post 0 0 0 (done 0 0 success) ∷ Fetch 0 0 delete_sq ∷ []) → ⊥ }
    ensures unposted { IsClear last_unposted → ⊥ }
    ensures pending { IsClear (Closing 1 1 ∷ []) → ⊥ }
{}

/// Worked: an Abort command is picked while two commands of the queue that it names wait. It takes the older one with
/// its identifier, whatever identifier the third command has. A second Abort command finds nothing. The log is
/// accounted.
pub fn abort_with_two_waiting()
    ensures accounted { (third : ℕ) → IsAccount one_deletion (at_two two_aborts (reads_and third)) (both_told third) (at_two two_aborts_told (reads_told third)) }
{}

/// Worked: an Abort command takes the second of three waiting commands, and then their queue is deleted while one
/// waits. The log is accounted.
pub fn abort_and_delete_in_one_log()
    ensures accounted { IsAccount four_numbers (at_zero_and_two abort_and_delete six_reads) abort_and_deleted (at_two abort_and_delete_told six_told) }
{}

/// Changed logs that the account refuses. An Abort command aborts the older of two commands with its identifier, at
/// once, and nothing else; one that a deletion aborted counts for the deletion. Nothing is aborted where no command has
/// the identifier, where the queue isn't open or is the admin queue, and where the Abort command has FUSE.
pub fn changed_aborts_are_refused()
    ensures older { EffectsAtOnce one_deletion (abort_picked abort_1_1 1) (Abort 1 1) }
    ensures newer_of_two { EffectsAtOnce one_deletion (abort_picked abort_1_1 1) (Abort 1 2) → ⊥ }
    ensures both_of_two { EffectsAtOnce one_deletion (one_aborted 1) (Abort 1 2) → ⊥ }
    ensures not_at_once { EffectsAtOnce one_deletion (abort_picked abort_1_1 2) (Post 1 1 0 read_done) → ⊥ }
    ensures not_at_all { effects_since (abort_picked abort_1_1 2) ≡ made_last one_deletion (abort_picked abort_1_1 2) → ⊥ }
    ensures of_another_identifier { EffectsAtOnce one_deletion (abort_picked (abort 2 1 5) 2) (Abort 1 1) → ⊥ }
    ensures picked_before { EffectsAtOnce one_deletion (abort_picked (abort 2 1 0) 2) (Abort 1 0) → ⊥ }
    ensures nothing_left { EffectsAtOnce one_deletion (second_picked 2) (Abort 1 1) → ⊥ }
    ensures of_no_queue { EffectsAtOnce one_deletion (abort_picked (abort 2 9 1) 2) (Abort 1 1) → ⊥ }
    ensures of_admin_queue { EffectsAtOnce one_deletion (abort_picked (abort 2 0 3) 2) (Abort 0 3) → ⊥ }
    ensures by_a_fused_command { EffectsAtOnce one_deletion (abort_picked fused_abort 2) (Abort 1 1) → ⊥ }
    ensures region_for_queue { EffectsAtOnce four_numbers abort_4_picked (Abort 4 3) → ⊥ }
    ensures oldest_of_all { EffectsAtOnce four_numbers abort_4_picked (Abort 2 2) → ⊥ }
    ensures counted_after { Observed (one_aborted 2) (picked_of (admin_seen 1 ∷ reads_seen 2 ∷ []) 1) → ⊥ }
    ensures one_place_too_many { (past : Past) → outstanding one_deletion (Abort 1 1 ∷ past) ≡ max_outstanding + 1 → LeavesPlaces one_deletion past (Abort 1 1) → ⊥ }
{}

/// The status of an aborted command tells whether an Abort command aborted it or the deletion of its queue. Command
/// Dword 0 of an Abort command is 0 where it aborted a command or was refused, and 1 otherwise.
pub fn aborts_are_told()
    ensures aborted { PostsOwn one_deletion (one_aborted 2) (Post 1 1 1 (done 1 1 abort_requested)) }
    ensures aborted_told_deleted { PostsOwn one_deletion (one_aborted 2) (Post 1 1 1 (done 1 1 aborted_by_deletion)) → ⊥ }
    ensures aborted_told_done { PostsOwn one_deletion (one_aborted 2) (Post 1 1 1 (done 1 1 success)) → ⊥ }
    ensures aborted_told_dw0 { PostsOwn one_deletion (one_aborted 2) (Post 1 1 1 (record (done 1 1 abort_requested) { dw0 = 1 })) → ⊥ }
    ensures deleted_told_aborted { PostsOwn one_deletion closing (Post 1 1 1 (done 1 1 abort_requested)) → ⊥ }
    ensures deleted_after_abort { PostsOwn four_numbers both_aborted (Post 1 2 5 (six_done 15 true aborted_by_deletion)) }
    ensures deleted_after_abort_told_aborted { PostsOwn four_numbers both_aborted (Post 1 2 5 (six_done 15 true abort_requested)) → ⊥ }
    ensures aborted_before_delete { PostsOwn four_numbers both_aborted (Post 1 2 3 (six_done 13 true abort_requested)) }
    ensures aborted_before_delete_told_deleted { PostsOwn four_numbers both_aborted (Post 1 2 3 (six_done 13 true aborted_by_deletion)) → ⊥ }
    ensures found { PostsOwn one_deletion (one_aborted 2) (Post 0 0 2 (told 2 0 success)) }
    ensures found_told_none { PostsOwn one_deletion (one_aborted 2) (Post 0 0 2 (told 2 1 success)) → ⊥ }
    ensures none { PostsOwn one_deletion (second_picked 2) (Post 0 0 3 (told 3 1 success)) }
    ensures none_told_found { PostsOwn one_deletion (second_picked 2) (Post 0 0 3 (told 3 0 success)) → ⊥ }
    ensures of_no_queue { PostsOwn one_deletion (abort_picked (abort 2 9 1) 2) (Post 0 0 2 (told 2 1 success)) }
    ensures of_admin_queue { PostsOwn one_deletion (abort_picked (abort 2 0 3) 2) (Post 0 0 2 (told 2 1 success)) }
    ensures fused { PostsOwn one_deletion (abort_picked fused_abort 2) (Post 0 0 2 (told 2 0 invalid_field)) }
    ensures fused_told_none { PostsOwn one_deletion (abort_picked fused_abort 2) (Post 0 0 2 (told 2 1 invalid_field)) → ⊥ }
    ensures delete { PostsOwn four_numbers both_posted (Post 0 0 3 (told 23 0 success)) }
{}

/// Worked steps of these logs: a place that an Abort command aborted is outstanding until its completion is posted, and
/// no worker gets it. A place that was aborted with its queue isn't outstanding. A pick of an Abort command needs two
/// places.
pub fn aborted_places_are_counted()
    ensures picked { outstanding one_deletion (abort_picked abort_1_1 2) ≡ 2 }
    ensures aborted { outstanding one_deletion (one_aborted 2) ≡ 3 }
    ensures posted { outstanding one_deletion (abort_posted 2) ≡ 2 }
    ensures before_delete { outstanding four_numbers delete_after_abort ≡ 7 }
    ensures after_delete { outstanding four_numbers both_aborted ≡ 7 }
    ensures dispatched { dispatched (both_told 2) ≡ place_at 1 0 ∷ place_at 1 2 ∷ [] }
    ensures dispatched_two { dispatched abort_and_deleted ≡ place_at 2 0 ∷ place_at 2 1 ∷ place_at 2 2 ∷ place_at 2 4 ∷ [] }
    ensures waits { waiting (one_aborted 2) 1 ≡ 2 ∷ [] }
    ensures waits_around { waiting one_aborted_4 2 ≡ 2 ∷ 4 ∷ [] }
    ensures unposted { unposted_of both_aborted 2 ≡ 6 }
    ensures with_queue { is_aborted_with_queue both_aborted 2 5 ≡ true }
    ensures by_command { is_aborted_with_queue both_aborted 2 3 ≡ false }
    ensures not_aborted { is_aborted_with_queue both_aborted 2 2 ≡ false }
    ensures for_abort { places_for (two_waiting abort_1_1 2) (one_of 0) ≡ 2 }
    ensures for_read { places_for (two_waiting abort_1_1 2) (one_of 1) ≡ 1 }
    ensures for_delete { places_for reads_fetched (one_of 0) ≡ 1 }
    ensures for_two_reads { places_for three_fetched (two_of 4) ≡ 2 }
{}

/// No worker ever gets a place that was aborted, and no command of the admin queue is aborted.
pub fn aborted_places_are_not_served()
    ensures dispatched { AbortedAreNotDispatched }
    ensures admin { AdminIsNotAborted }
{}

/// A place is aborted by an Abort command or with its queue. The status of its completion tells which: Command Abort
/// Requested, or Command Aborted due to SQ Deletion. Its Dword 0 is 0.
pub fn aborted_places_are_told()
    ensures { AbortedAreTold }
{}

/// An Abort command aborts, at once, the oldest waiting command with its identifier in the I/O queue that it names,
/// where there is one. It has no other effect.
pub fn aborts_take_the_oldest()
    ensures { AbortsTakeTheOldest }
{}

/// The completion of an Abort command says success. Its Dword 0 is 0 where an abort followed its pick at once,
/// and 1 otherwise.
pub fn aborts_say_what_they_found()
    ensures { AbortsAreTold }
{}

/// Where two loaded logs of one workload begin with the same events, both end there or both go on with the same event.
pub fn loaded_step_is_one()
    ensures { LoadedStepIsOne }
{}

/// The log of a front whose hosts submitted their whole scripts before its first turn is, posts left out, a function of
/// its workload: two such logs of the same rules and scripts are equal.
pub fn loaded_log_is_one()
    ensures { LoadedLogIsOne }
{}

/// Worked loaded logs: a queue is deleted while two of its commands wait; an Abort command takes one of two commands
/// and a second finds nothing, whatever identifier the third Read has; and the windows are smaller than their scripts.
pub fn worked_logs_are_loaded()
    ensures deletion { IsLoadedLog one_deletion (at_two admin_script reads) (without_posts deleted) }
    ensures aborts { (third : ℕ) → IsLoadedLog one_deletion (at_two two_aborts (reads_and third)) (without_posts (both_told third)) }
    ensures windows { IsLoadedLog small_windows (at_two small_script reads) small_closed }
{}

/// Where nothing is submitted the loaded log is empty. So it is where commands are submitted only to a region on which
/// no queue is ever opened.
pub fn loaded_logs_can_be_empty()
    ensures nothing_submitted { (rules : FrontRules) → IsLoadedLog rules no_scripts [] }
    ensures never_opened { IsLoadedLog one_deletion (at_two [] reads) [] }
{}

/// One small change of a worked loaded log for each clause of `LoadedSoFar`, which the clause refuses.
pub fn changed_loaded_logs_are_refused()
    ensures with_a_post { Each IsNoPost deleted → ⊥ }
    ensures fetched_in_another_order { IsPrefix (fetched small_closed 1) (read 1 ∷ read 0 ∷ read 2 ∷ []) → ⊥ }
    ensures fetched_index_skipped { IndexCounts small_picked (Fetch 1 3 (read 2)) → ⊥ }
    ensures fetched_before_opened { ServedWhileOpen small_windows create_picked (Fetch 1 0 (read 0)) → ⊥ }
    ensures fetched_above_window { ServedWhileOpen small_windows small_fetched (Fetch 1 2 (read 2)) → ⊥ }
    ensures counts_invented { Observed small_fetched (picked_of (admin_seen 1 ∷ reads_seen 3 ∷ []) 1) → ⊥ }
    ensures aborted_out_of_turn { EffectsAtOnce small_windows (Closing 1 1 ∷ small_delete_picked) (Abort 1 2) → ⊥ }
    ensures fetched_before_the_effect { EffectsAtOnce small_windows create_picked (Fetch 0 2 delete_sq) → ⊥ }
    ensures picked_out_of_turn { IsLawfulRun small_windows.mechanism small_windows.start.settings (arbitration_of (picked_of (admin_seen 1 ∷ reads_seen 2 ∷ []) 0 ∷ small_fetched)) → ⊥ }
    ensures picked_before_the_first_fetch { FilledBefore small_windows (at_two small_script reads) small_delete_fetched (picked_of (admin_seen 1 ∷ reads_seen 0 ∷ []) 0) → ⊥ }
    ensures picked_before_refilled { FilledBefore small_windows (at_two small_script reads) small_picked (picked_of (admin_seen 1 ∷ reads_seen 1 ∷ []) 0) → ⊥ }
    ensures fetched_a_pick_too_late { FilledBefore four_numbers (at_zero_and_two admin_five four_reads) (without_posts two_picked) (picked_of (admin_seen 3 ∷ seen_4 1 ∷ []) 0) → ⊥ }
    ensures higher_queue_first { FetchesLast (Fetch 1 0 (read 0) ∷ small_opened) (Fetch 0 2 delete_sq) → ⊥ }
    ensures by_identifier { FetchesLast (Fetch 2 0 (read 0) ∷ crosswise) (Fetch 1 0 (read 1)) }
    ensures by_region { FetchesLast (Fetch 1 0 (read 0) ∷ crosswise) (Fetch 2 0 (read 1)) → ⊥ }
    ensures effect_after_a_fetch { FetchesLast (Fetch 0 2 delete_sq ∷ create_picked) (OpenSq 1 1 1 Urgent) → ⊥ }
    ensures picked_while_pending { ClosedAtOnce small_aborted (picked_of (admin_seen 0 ∷ []) 0) → ⊥ }
    ensures fetched_while_pending { ClosedAtOnce small_aborted (Fetch 0 3 delete_sq) → ⊥ }
    ensures end_of_another_queue { ClosedAtOnce closing_4 (ClosedSq 2 2) → ⊥ }
    ensures end_of_another_region { ClosedAtOnce closing_4 (ClosedSq 4 4) → ⊥ }
    ensures end_of_none { ClosedAtOnce small_closed (ClosedSq 1 1) → ⊥ }
    ensures fetched_after_closed { NothingAfterClosed small_closed (Fetch 1 3 (read 3)) → ⊥ }
    ensures aborted_after_closed { NothingAfterClosed small_closed (Abort 1 2) → ⊥ }
{}

/// One loaded log that ends too early for each clause of `LoadedAtEnd`: an abort is missing, a command that its window
/// has room for isn't fetched, a deletion isn't finished, and candidates are left.
pub fn loaded_logs_that_end_early_are_refused()
    ensures abort_missing { effects_since (Abort 1 1 ∷ Closing 1 1 ∷ small_delete_picked) ≡ made_last small_windows (Abort 1 1 ∷ Closing 1 1 ∷ small_delete_picked) → ⊥ }
    ensures unfetched { are_filled small_windows (at_two small_script reads) small_picked ≡ true → ⊥ }
    ensures unfinished { pending small_aborted ≡ None → ⊥ }
    ensures candidates_left { NoneWaits small_refilled → ⊥ }
{}

/// A pick and an abort may take the last place that may be outstanding, and none beyond it.
pub fn last_place_may_be_taken()
    ensures { (rules : FrontRules) (past : Past) → PlacesAreTaken rules past }
{}

/// The limits are the constants. An admin pick logs at most two events and one for each candidate of a full window. At
/// most as many completions are ready for a region as places may be outstanding and candidates aborted with their
/// queue.
pub fn limits_fit_together()
    ensures outstanding { max_outstanding ≡ MAX_OUTSTANDING }
    ensures events { most_events ≡ MAX_EVENTS }
    ensures admin { admin_events ≡ 2 + highest_count }
    ensures ready { max_ready ≡ max_outstanding + highest_count }
{}
