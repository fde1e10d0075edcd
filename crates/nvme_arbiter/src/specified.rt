//! What the specification asks of an arbiter, whatever it chooses where the specification leaves a choice.
ghost use Rattle.std.specs.Prelude.{◌∷◌, []};
ghost use Rattle.nvme_arbiter.specs.Settings.{settings_of};
ghost use Rattle.nvme_arbiter.specs.History.{Picked, Changed};
ghost use Rattle.nvme_arbiter.specs.Specified.{IsSpecifiedRun, LawfulRunsAreSpecified, LimitedRunsAreSpecified};
ghost use Rattle.nvme_arbiter.specs.Examples.{queue, q, played, left, four_queues, two_rounds, two_admin};
ghost use Rattle.nvme_arbiter.specs.SpecifiedExamples.{BreaksAlone, IsOtherChoice, no_admin, high_spent, high_nearly_spent, one_low, urgent_between, then_low, over_change, two_urgent, two_high, urgent_within, newcomer, before_newcomer, levels_in_turn, after_nothing};
ghost use Rattle.nvme_arbiter.specs.declared.settings.Mechanism.TheVariants.{RoundRobin, Weighted};
ghost use Rattle.nvme_arbiter.specs.declared.settings.Class.TheVariants.{Low};
ghost use Rattle.nvme_arbiter.specs.declared.specified.Rule.TheVariants as rule;

/// A rule of the specification that each pick keeps (Base Specification, Command Arbitration).
#[derive(Clone, Copy, Debug, PartialEq, Eq)]
pub enum Rule {
    /// A pick takes at least one command, and only such as wait in its queue.
    Candidates,
    /// It takes no more commands than the Arbitration Burst.
    Burst,
    /// Under the weighted mechanism no queue of a higher strict priority class is ready: the admin queue comes before
    /// the urgent class, and that before the weighted levels.
    Priority,
    /// Under the weighted mechanism no more commands of a level are picked in a round than its weight.
    Credit,
    /// No queue is picked twice while another was ready throughout: among all queues under round robin, within a
    /// class or level under the weighted mechanism.
    Turn,
}

/// Every run that is lawful by the profile is one that the specification allows.
pub fn lawful_runs_are_specified()
    ensures lawful { LawfulRunsAreSpecified }
    ensures limited { LimitedRunsAreSpecified }
{}

/// A pick takes no command, more than wait, one of a queue with none, or one of a queue that isn't seen.
pub fn candidates_are_taken()
    ensures none { BreaksAlone rule.Candidates RoundRobin (settings_of 0) [] four_queues (q 1 0) }
    ensures too_many { BreaksAlone rule.Candidates RoundRobin (settings_of 7) [] four_queues (q 3 2) }
    ensures empty { BreaksAlone rule.Candidates RoundRobin (settings_of 0) [] four_queues (q 2 1) }
    ensures unseen { BreaksAlone rule.Candidates RoundRobin (settings_of 0) [] four_queues (q 9 1) }
{}

/// Burst 2, and a pick of three commands.
pub fn bursts_end()
    ensures round_robin { BreaksAlone rule.Burst RoundRobin (settings_of 1) [] four_queues (q 1 3) }
    ensures weighted { BreaksAlone rule.Burst Weighted (settings_of 0x0301_0001) [] two_rounds (q 1 3) }
{}

/// An urgent queue before the admin queue, and a level before an urgent queue.
pub fn priority_is_strict()
    ensures admin { BreaksAlone rule.Priority Weighted (settings_of 0x0200_0002) [] two_admin (q 2 1) }
    ensures urgent { BreaksAlone rule.Priority Weighted (settings_of 0x0200_0002) (played [] two_admin no_admin) (left two_admin no_admin) (q 1 1) }
{}

/// High 4, Medium 2, Low 1: a fifth command of High while Medium and Low have credit, the fifth in a pick of two, and
/// two commands of Low in a new round. With weights 1 a round doesn't start with an urgent pick.
pub fn credit_lasts_a_round()
    ensures spent { BreaksAlone rule.Credit Weighted (settings_of 0x0301_0001) (played [] two_rounds high_spent) (left two_rounds high_spent) (q 1 1) }
    ensures nearly_spent { BreaksAlone rule.Credit Weighted (settings_of 0x0301_0001) (played [] two_rounds high_nearly_spent) (left two_rounds high_nearly_spent) (q 1 2) }
    ensures new_round { BreaksAlone rule.Credit Weighted (settings_of 0x0301_0001) (played [] one_low (q 4 1 ∷ [])) (left one_low (q 4 1 ∷ [])) (q 4 2) }
    ensures urgent { BreaksAlone rule.Credit Weighted (settings_of 1) urgent_between then_low (q 1 1) }
{}

/// A queue is picked twice while another is ready: in a row, over a change of the settings, in the urgent class, and
/// in a level with an urgent pick between. A queue that was ready at the first of two picks of another comes before
/// the second.
pub fn turns_are_taken()
    ensures round_robin { BreaksAlone rule.Turn RoundRobin (settings_of 0) (played [] four_queues (q 1 1 ∷ [])) (left four_queues (q 1 1 ∷ [])) (q 1 1) }
    ensures changed { BreaksAlone rule.Turn RoundRobin (settings_of 0) over_change (left four_queues (q 1 1 ∷ [])) (q 1 1) }
    ensures urgent { BreaksAlone rule.Turn Weighted (settings_of 0) (played [] two_urgent (q 1 1 ∷ [])) (left two_urgent (q 1 1 ∷ [])) (q 1 1) }
    ensures level { BreaksAlone rule.Turn Weighted (settings_of 0x0301_0001) urgent_within two_high (q 1 1) }
    ensures late { BreaksAlone rule.Turn RoundRobin (settings_of 0) (played before_newcomer newcomer (q 1 1 ∷ [])) (left newcomer (q 1 1 ∷ [])) (q 1 1) }
{}

/// Choices of other arbiters: the levels in turn, a command at a time; two admin commands in a pick under round robin;
/// and a queue that got its first commands after a pick of another waits for one more.
pub fn other_choices_are_specified()
    ensures levels { IsOtherChoice Weighted (settings_of 0x0301_0001) (played [] two_rounds levels_in_turn) }
    ensures admin { IsOtherChoice RoundRobin (settings_of 0x0200_0002) (played [] two_admin (q 0 2 ∷ q 1 3 ∷ q 2 1 ∷ [])) }
    ensures late { IsOtherChoice RoundRobin (settings_of 0) (played before_newcomer newcomer (q 1 1 ∷ [])) }
{}

/// Each pick of a run counts, and each was made on an observation.
pub fn each_pick_counts()
    ensures earlier { IsSpecifiedRun RoundRobin (settings_of 0) after_nothing → ⊥ }
    ensures before_change { IsSpecifiedRun RoundRobin (settings_of 0) (Changed (settings_of 0) ∷ after_nothing) → ⊥ }
    ensures observed { IsSpecifiedRun RoundRobin (settings_of 0) (Picked (queue 1 Low 257 ∷ []) (q 1 1) ∷ []) → ⊥ }
{}
