// Judges a history by the profile or by the specification.
ghost use Rattle.std.specs.Prelude.{◌≡◌, ◌+◌, ◌-◌, ◌^◌, ◌<◌, [], ◌∷◌, ◌++◌, MatchOption, IfSome, IfNone};
ghost use Rattle.nvme_arbiter.specs.History.{History};
ghost use Rattle.nvme_trace.specs.Format.{event_view, room_view, head_of_kept};
ghost use Rattle.nvme_trace.specs.Judged.{IsObserved, picks_of};
ghost use Rattle.nvme_trace.specs.Bases.{IsAllowedBy, IsBreach, IsReasonBy, StandsBy, picks_by};
ghost use Rattle.nvme_judge.specs.Standing.{JudgeStandsAt, IsQuiet};
ghost use Rattle.nvme_judge.specs.Starts.{IsPrior};
ghost use Rattle.nvme_trace.specs.declared.basis.Basis.{Basis};
ghost use Rattle.nvme_trace.specs.declared.basis.Basis.TheVariants as basis;
ghost use Rattle.nvme_trace.specs.declared.records.Head.{Head};

use crate::basis::Basis;
use crate::judge::{Finding, Judge};
use crate::records::TraceEvent;
use nvme_arbiter::specified::Rule;
use nvme_arbiter::{Kept, Mechanism, Pick, Settings};
use nvme_judge::{RuleJudge, count_in};

/// A pick that the specification doesn't allow.
#[derive(Clone, Copy, Debug, PartialEq, Eq)]
pub struct Breach {
    /// The pick that was made.
    pub picked: Pick,
    /// The arbitration mechanism.
    pub mechanism: Mechanism,
    /// The settings in force at it.
    pub settings: Settings,
    /// How many commands wait in its queue, where that is seen.
    pub waiting: Option<u16>,
    /// How many commands of its level are left in its round, where it is of one.
    pub left: Option<u16>,
    /// The first rule that it breaks.
    pub rule: Rule,
}

/// Why a pick is refused.
#[derive(Clone, Copy, Debug, PartialEq, Eq)]
pub enum Reason {
    /// It isn't the pick that this front makes.
    Differs(Finding),
    /// The specification doesn't allow it.
    Breaks(Breach),
}

/// A judge, by what it judges.
#[derive(Drop)]
pub enum BasisJudge {
    Profile(Judge),
    Specification(RuleJudge),
}

/// Judges the next event by the rules. `None` where it is allowed after the events so far; it then counts among them.
pub fn judge_by_rules(judge: &mut RuleJudge, event: &TraceEvent) -> Option<Breach>
    requires observed { IsObserved (event_view event.now) }
    requires few { judge.old.picks < 2 ^ 64 - 1 }
    ensures allowed { (head : Head) (prior past : History) → JudgeStandsAt head.mechanism head.settings prior past judge.old → MatchOption result (IsAllowedBy basis.Specification head (past ++ prior) (room_view event.now) (event_view event.now)) (IsBreach head (past ++ prior) (event_view event.now)) }
    ensures stands { (head : Head) (prior past : History) → JudgeStandsAt head.mechanism head.settings prior past judge.old → IfNone result (JudgeStandsAt head.mechanism head.settings prior (event_view event.now ∷ past) judge.new) }
    ensures picks { IfNone result (judge.new.picks ≡ judge.old.picks + picks_of (event_view event.now)) }
{
    match event {
        TraceEvent::Pick { seen, pick, .. } => match judge.judge(seen, pick) {
            Some(rule) => Some(Breach {
                picked: *pick,
                mechanism: judge.mechanism(),
                settings: judge.settings(),
                waiting: count_in(seen, pick.qid),
                left: judge.left(seen, pick),
                rule,
            }),
            None => None,
        },
        TraceEvent::Set { settings } => {
            judge.set(*settings);
            None
        }
    }
}

impl BasisJudge {
    /// A judge of the events that follow where an arbiter keeps this.
    #[tactic(auto, using(crate::proofs::CheckLemmas::settings_stay))]
    pub fn new(basis: Basis, start: Kept) -> BasisJudge
        ensures stands { (prior : History) → IsPrior start prior → IsQuiet prior → StandsBy basis (head_of_kept start) prior [] result }
        ensures picks { picks_by result ≡ 0 }
    {
        match basis {
            Basis::Profile => BasisJudge::Profile(Judge::new(start)),
            Basis::Specification => BasisJudge::Specification(RuleJudge::new(
                start.mechanism,
                start.settings,
                start.used,
            )),
        }
    }

    /// The number of picks so far.
    pub fn picks(&self) -> u64
        ensures { result ≡ picks_by self.now }
    {
        match self {
            BasisJudge::Profile(judge) => judge.picks(),
            BasisJudge::Specification(judge) => judge.picks(),
        }
    }

    /// Judges the next event. `None` where it is allowed after the events so far; it then counts among them.
    pub fn judge(&mut self, event: &TraceEvent) -> Option<Reason>
        requires observed { IsObserved (event_view event.now) }
        requires few { picks_by self.old < 2 ^ 64 - 1 }
        ensures allowed { (basis : Basis) (head : Head) (prior past : History) → StandsBy basis head prior past self.old → MatchOption result (IsAllowedBy basis head (past ++ prior) (room_view event.now) (event_view event.now)) (IsReasonBy basis head (past ++ prior) (room_view event.now) (event_view event.now)) }
        ensures stands { (basis : Basis) (head : Head) (prior past : History) → StandsBy basis head prior past self.old → IfNone result (StandsBy basis head prior (event_view event.now ∷ past) self.new) }
        ensures picks { IfNone result (picks_by self.new ≡ picks_by self.old + picks_of (event_view event.now)) }
    {
        match self {
            BasisJudge::Profile(judge) => match judge.judge(event) {
                Some(finding) => Some(Reason::Differs(finding)),
                None => None,
            },
            BasisJudge::Specification(judge) => match judge_by_rules(judge, event) {
                Some(breach) => Some(Reason::Breaks(breach)),
                None => None,
            },
        }
    }
}
