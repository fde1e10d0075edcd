// Laws over the definitions.
ghost use Rattle.std.specs.Prelude.{◌≡◌, ℕ, ◌+◌, [], ◌∷◌, Some, None};
ghost use Rattle.nvme_arbiter.specs.Settings.{WritesBack, ReadsBack, FitsFields, OnlyLevelsHaveWeights, settings_of};
ghost use Rattle.nvme_arbiter.specs.Limits.{highest_qid, queue_limit};
ghost use Rattle.nvme_arbiter.specs.Observation.{IsObservation};
ghost use Rattle.nvme_arbiter.specs.Next.{next};
ghost use Rattle.nvme_arbiter.specs.Queues.{seen_of, queue_at};
ghost use Rattle.nvme_arbiter.specs.Board.{queues_after};
ghost use Rattle.nvme_arbiter.specs.Laws.{OneLawfulPick, LawfulPicksAreMeasured, FreshWhereDue, PrefixesAreLawful, UsedIsWithinWeight, NoneWhereIdle, LimitedPicksAreMeasured, LimitsArePicks, PicksAreOfLimits, LawfulRunsAreLimited, WideLimitsCutNothing, LimitedPrefixes};
ghost use Rattle.nvme_arbiter.specs.Lawful.{IsLawfulRun, IsLimitedRun};
ghost use Rattle.nvme_arbiter.specs.Examples.{EndsWith, played, q, fresh, four_queues, four_queues_picks, four_queues_restarted, full_queue, two_rounds, two_rounds_picks, two_rounds_not_fresh, next_up_to, before_urgent, with_urgent, with_urgent_picks, urgent_behind_a_level, before_change, after_change, after_change_picks, credit_outlives_change, four_queues_before_change, four_queues_after_change, four_queues_after_change_picks, last_served_forgotten, two_admin, two_admin_at_once, queue, at_limits, in_no_order, on_board};
ghost use Rattle.nvme_arbiter.specs.declared.settings.Mechanism.TheVariants.{RoundRobin, Weighted};
ghost use Rattle.nvme_arbiter.specs.declared.settings.Class.TheVariants.{Admin, Urgent, Low};

/// A CDW11 that is read and written back has bits 07:03 as 0 and every other bit as it was, and settings that are
/// written and read back are the same. The fields of every CDW11 fit their bits, and only levels
/// have weights.
pub fn settings_and_cdw11()
    ensures writes_back { WritesBack }
    ensures reads_back { ReadsBack }
    ensures fits { (x : ℕ) → FitsFields (settings_of x) }
    ensures only_levels { OnlyLevelsHaveWeights }
{}

/// The lawful pick after a history is the only one.
pub fn one_lawful_pick()
    ensures { OneLawfulPick }
{}

/// A lawful pick takes at least one command, and no more than the count, the burst and, of a level, the weight.
pub fn lawful_picks_are_measured()
    ensures { LawfulPicksAreMeasured }
{}

/// A lawful weighted pick starts a new round exactly where some level is ready, admin and urgent are not, and no
/// ready level has credit.
pub fn fresh_where_due()
    ensures { FreshWhereDue }
{}

/// The events of a lawful run up to any of them are a lawful run.
pub fn prefixes_are_lawful()
    ensures { PrefixesAreLawful }
{}

/// In a lawful weighted run no more commands of a level were picked in this round than its weight.
pub fn used_is_within_weight()
    ensures { UsedIsWithinWeight }
{}

/// A pick with a limit of at least 1 takes no more than the limit, and is measured as one without. It is lawful for some
/// limit, and each such pick is the one with its own number as the limit. A limit of as many commands as may wait in a
/// queue cuts nothing. A lawful run is one with limits, and the events of one with limits up to any of them are one.
pub fn limits_are_kept()
    ensures measured { LimitedPicksAreMeasured }
    ensures limits { LimitsArePicks }
    ensures own { PicksAreOfLimits }
    ensures wide { WideLimitsCutNothing }
    ensures runs { LawfulRunsAreLimited }
    ensures prefixes { LimitedPrefixes }
{}

/// Nothing is picked exactly where every count is 0.
pub fn nothing_picked_where_idle()
    ensures { NoneWhereIdle }
{}

/// Round robin with burst 1: q0 with 2, q1 with 5, q2 with 0, q3 with 1.
pub fn round_robin_four_queues()
    ensures lawful { EndsWith RoundRobin (settings_of 0) [] four_queues four_queues_picks }
    ensures other { IsLawfulRun RoundRobin (settings_of 0) (played [] four_queues four_queues_restarted) → ⊥ }
{}

/// No burst limit: round robin takes all of a queue, the weighted mechanism one a round at weight 1.
pub fn no_burst_limit()
    ensures round_robin { EndsWith RoundRobin (settings_of 7) [] full_queue (q 1 256 ∷ []) }
    ensures weighted { IsLawfulRun Weighted (settings_of 7) (played [] full_queue (q 1 1 ∷ fresh 1 1 ∷ fresh 1 1 ∷ [])) }
    ensures other { IsLawfulRun RoundRobin (settings_of 7) (played [] full_queue (q 1 128 ∷ [])) → ⊥ }
{}

/// Weighted, burst 2, High 4, Medium 2, Low 1: q1 and q2 High, q3 Medium, q4 Low, 5 each.
pub fn weighted_two_rounds()
    ensures lawful { EndsWith Weighted (settings_of 0x0301_0001) [] two_rounds two_rounds_picks }
    ensures other { IsLawfulRun Weighted (settings_of 0x0301_0001) (played [] two_rounds two_rounds_not_fresh) → ⊥ }
{}

/// The same with limits. A queue whose rest there was no room for waits until its turn comes again. What wasn't taken
/// stays of the credit, and the next level follows when the credit is used up. A pick of more than the burst, of none and
/// of another queue is lawful for no limit.
pub fn weighted_with_limits()
    ensures one { next_up_to 1 [] ≡ Some (q 1 1) }
    ensures next { next_up_to 3 (q 1 1 ∷ []) ≡ Some (q 2 2) }
    ensures rest { next_up_to 256 (q 1 1 ∷ q 2 2 ∷ []) ≡ Some (q 1 1) }
    ensures over { next_up_to 256 (q 1 1 ∷ q 2 1 ∷ q 1 1 ∷ q 2 1 ∷ []) ≡ Some (q 3 2) }
    ensures lawful { IsLimitedRun Weighted (settings_of 0x0301_0001) (played [] two_rounds (q 1 1 ∷ q 2 2 ∷ q 1 1 ∷ q 3 1 ∷ [])) }
    ensures past_burst { IsLimitedRun Weighted (settings_of 0x0301_0001) (played [] two_rounds (q 1 3 ∷ [])) → ⊥ }
    ensures of_none { IsLimitedRun Weighted (settings_of 0x0301_0001) (played [] two_rounds (q 1 0 ∷ [])) → ⊥ }
    ensures other { IsLimitedRun Weighted (settings_of 0x0301_0001) (played [] two_rounds (q 2 1 ∷ [])) → ⊥ }
{}

/// The same, but after two picks an urgent q5 has 3.
pub fn urgent_cuts_in()
    ensures lawful { IsLawfulRun Weighted (settings_of 0x0301_0001) (played before_urgent with_urgent with_urgent_picks) }
    ensures other { IsLawfulRun Weighted (settings_of 0x0301_0001) (played before_urgent with_urgent urgent_behind_a_level) → ⊥ }
{}

/// Picks over a change of the settings. The new settings hold, a round starts with all of its credit, and what was
/// served last stays.
pub fn settings_change()
    ensures weighted { IsLawfulRun Weighted (settings_of 0x0301_0001) (played before_change after_change after_change_picks) }
    ensures no_old_credit { IsLawfulRun Weighted (settings_of 0x0301_0001) (played before_change after_change credit_outlives_change) → ⊥ }
    ensures round_robin { EndsWith RoundRobin (settings_of 0) four_queues_before_change four_queues_after_change four_queues_after_change_picks }
    ensures no_restart { IsLawfulRun RoundRobin (settings_of 0) (played four_queues_before_change four_queues_after_change last_served_forgotten) → ⊥ }
{}

/// Burst 4, High 3: two admin commands wait, and a pick takes one of them under either mechanism. Under the weighted
/// one both come before an urgent queue.
pub fn two_admin_commands()
    ensures round_robin { EndsWith RoundRobin (settings_of 0x0200_0002) [] two_admin (q 0 1 ∷ q 1 3 ∷ q 2 1 ∷ q 0 1 ∷ []) }
    ensures not_by_burst { IsLawfulRun RoundRobin (settings_of 0x0200_0002) (played [] two_admin two_admin_at_once) → ⊥ }
    ensures weighted { EndsWith Weighted (settings_of 0x0200_0002) [] two_admin (q 0 1 ∷ q 0 1 ∷ q 2 1 ∷ q 1 3 ∷ []) }
    ensures not_by_burst_weighted { IsLawfulRun Weighted (settings_of 0x0200_0002) (played [] two_admin two_admin_at_once) → ⊥ }
{}

/// An observation at its limits, and lists that aren't one: an identifier above 64, a count above 256, another class
/// for queue 0, class Admin for another queue, an identifier twice, and identifiers that descend.
pub fn limits_of_observations()
    ensures at_limits { IsObservation at_limits }
    ensures limits { queue_limit ≡ highest_qid + 1 }
    ensures qid_too_high { IsObservation (queue 65 Low 1 ∷ []) → ⊥ }
    ensures count_too_high { IsObservation (queue 1 Low 257 ∷ []) → ⊥ }
    ensures admin_of_a_level { IsObservation (queue 0 Low 1 ∷ []) → ⊥ }
    ensures other_admin { IsObservation (queue 1 Admin 1 ∷ []) → ⊥ }
    ensures twice { IsObservation (queue 1 Low 1 ∷ queue 1 Urgent 1 ∷ []) → ⊥ }
    ensures descending { IsObservation (queue 2 Low 1 ∷ queue 1 Low 1 ∷ []) → ⊥ }
{}

/// The next of q3, q1 and q2, which are in no order.
pub fn next_by_identifier()
    ensures least { next None in_no_order ≡ Some (queue 1 Low 1) }
    ensures after { next (Some 1) in_no_order ≡ Some (queue 2 Low 1) }
    ensures around { next (Some 3) in_no_order ≡ Some (queue 1 Low 1) }
    ensures none { next (Some 1) [] ≡ None }
{}

/// A board on which q0 and q2 are open; a pick takes three commands of q2.
pub fn queues_of_a_board()
    ensures seen { seen_of (on_board 5) ≡ queue 0 Admin 2 ∷ queue 2 Low 5 ∷ [] }
    ensures closed { queue_at (on_board 5) 1 ≡ None }
    ensures there { queue_at (on_board 5) 2 ≡ Some (record { class = Low; count = 5 }) }
    ensures taken { queues_after (on_board 5) (q 2 3) ≡ on_board 2 }
{}
