// Judges the picks of a log, as the specification asks.
ghost use Rattle.std.specs.Prelude.{◌≡◌, ◌+◌, ◌-◌, ◌^◌, ◌<◌, ℕ, List, [], ◌∷◌, ◌++◌, Some, false, IfOk, IfErr, OnOk, MatchOption};
ghost use Rattle.nvme_arbiter.specs.History.{History};
ghost use Rattle.nvme_arbiter.specs.declared.settings.Mechanism.{Mechanism};
ghost use Rattle.nvme_judge.specs.Standing.{JudgeStandsAt};
ghost use Rattle.nvme_judge.specs.Turns.{picks_in};
ghost use Rattle.nvme_trace.specs.Bases.{IsBreach};
ghost use Rattle.nvme_trace.specs.Format.{event_view};
ghost use Rattle.nvme_trace.specs.Judged.{IsObserved};
ghost use Rattle.nvme_trace.specs.declared.records.Head.{Head as Arbitration};
ghost use Rattle.nvme_audit_text.specs.declared.picks.PickFinding.{PickFinding};
ghost use Rattle.nvme_audit_text.specs.Format.{heard_of, arbitration_heard};
ghost use Rattle.nvme_audit_text.specs.Picks.{arbitration_of, WasObserved, joined, PicksSaid, nothing_said, span_after, AreToldPicks};
ghost use Rattle.nvme_audit_text.specs.inside.Steps.{IsOther, PicksAt, IsKeptEvent, IsPickFinding, IsUnlawful, PicksGoOn, GoesOnWith, IsPick};

use crate::audit::one_more;
use crate::events::Said;
use crate::fault::LogError;
use crate::head::Head;
use nvme_arbiter::{Mechanism, Settings, Used};
use nvme_judge::RuleJudge;
use nvme_trace::{Breach, Head as Arbitration, TraceEvent, judge_by_rules};
use std::alloc::Global;

// How many picks that break a rule are told.
const MOST_UNLAWFUL: usize = 1000;

/// A line whose pick breaks a rule of arbitration.
#[derive(Clone, Copy)]
pub struct PickFinding {
    /// The number of the line, from 1 on.
    pub line: u64,
    /// What was picked, what stood before it, and the first rule that it breaks.
    pub breach: Breach,
}

/// Picks that break a rule.
#[derive(Drop)]
pub struct ToldPicks {
    /// The first of them.
    pub first: Vec<PickFinding>,
    /// How many there are.
    pub count: u64,
}

/// By what the picks of a log are judged. Where the head tells no mechanism no line tells a pick, and it is that after a
/// reset.
pub(crate) fn arbitration_of(head: &Head) -> Arbitration
    ensures { result ≡ arbitration_of head.now }
{
    match head.arbitration {
        Some(arbitration) => arbitration,
        None => Arbitration {
            mechanism: Mechanism::RoundRobin,
            settings: Settings::from_cdw11(0),
        },
    }
}

// A judge of what follows these settings.
fn judge_from(mechanism: Mechanism, settings: Settings) -> RuleJudge
    ensures stands { JudgeStandsAt mechanism settings [] [] result }
    ensures picks { result.picks ≡ 0 }
{
    let used = Used {
        high: 0,
        medium: 0,
        low: 0,
    };
    RuleJudge::new(mechanism, settings, used)
}

// Judges the next event. `None` where it keeps the rules.
fn judged(judge: &mut RuleJudge, event: &TraceEvent) -> Result<Option<Breach>, LogError>
    requires { IsObserved (event_view event.now) }
    ensures few { OnOk result (judge.old.picks + 1 < 2 ^ 64) }
    ensures kept { (arbitration : Arbitration) (past : History) → JudgeStandsAt arbitration.mechanism arbitration.settings [] past judge.old → IfOk result (λ o. MatchOption o (IsKeptEvent arbitration past (event_view event.now) judge.new) (IsBreach arbitration past (event_view event.now))) }
    ensures other { IfErr result IsOther }
{
    if judge.picks() >= u64::MAX - 1 {
        return Err(LogError::TooLong);
    }
    Ok(judge_by_rules(judge, event))
}

/// A judge of the picks, and how many it judged.
#[derive(Drop)]
pub(crate) struct PickAuditor {
    judge: RuleJudge,
    judged: u64,
}

impl PickAuditor {
    /// Nothing was read yet but the head.
    pub(crate) fn new(arbitration: Arbitration) -> PickAuditor
        ensures { PicksAt arbitration [] result }
    {
        PickAuditor {
            judge: judge_from(arbitration.mechanism, arbitration.settings),
            judged: 0,
        }
    }

    /// How many picks were judged.
    pub(crate) fn judged(&self) -> u64
        ensures { result ≡ self.now.judged }
    {
        self.judged
    }

    // Takes an event, which the line of this number tells. The answer is a pick that breaks a rule.
    fn take(&mut self, line: u64, event: &TraceEvent) -> Result<Option<PickFinding>, LogError>
        requires { IsObserved (event_view event.now) }
        ensures taken { (arbitration : Arbitration) (past : History) → PicksAt arbitration past self.old → IfOk result (λ o. MatchOption o (PicksAt arbitration (event_view event.now ∷ past) self.new) (λ finding. IsPickFinding arbitration past line (event_view event.now) finding × (self.new.judged ≡ picks_in past + 1))) }
        ensures other { IfErr result IsOther }
    {
        let before = self.judge.picks();
        match judged(&mut self.judge, event)? {
            None => {
                self.judged = self.judge.picks();
                Ok(None)
            }
            Some(breach) => {
                self.judged = before + 1;
                Ok(Some(PickFinding { line, breach }))
            }
        }
    }

    /// Takes what the line of this number tells.
    pub(crate) fn note(&mut self, line: u64, said: &Said) -> Result<Option<PickFinding>, LogError>
        requires { WasObserved (heard_of said.now) }
        ensures taken { (arbitration : Arbitration) (past : History) → PicksAt arbitration past self.old → IfOk result (λ o. MatchOption o (PicksAt arbitration (joined (arbitration_heard (heard_of said.now)) past) self.new) (λ finding. IsUnlawful arbitration past line (heard_of said.now) finding × (self.new.judged ≡ picks_in past + 1))) }
        ensures other { IfErr result IsOther }
    {
        match said {
            Said::OfArbitration(event) => self.take(line, event),
            _ => Ok(None),
        }
    }
}

impl ToldPicks {
    // Nothing.
    #[tactic(auto, using(crate::proofs::PickLemmas::none_told))]
    fn none(alloc: Global) -> ToldPicks
        ensures { (most : ℕ) → AreToldPicks most [] result }
    {
        ToldPicks {
            first: Vec::new(alloc),
            count: 0,
        }
    }

    // One more, which is kept where fewer than these are.
    #[tactic(auto, using(crate::proofs::PickLemmas::one_more_kept, crate::proofs::PickLemmas::one_more_counted))]
    fn add(&mut self, most: usize, finding: PickFinding) -> Result<(), LogError>
        ensures more { OnOk result ((found : List PickFinding) → AreToldPicks most found self.old → AreToldPicks most (found ++ finding ∷ []) self.new) }
        ensures other { IfErr result IsOther }
    {
        self.count = one_more(self.count)?;
        if self.first.len() < most {
            self.first.push(finding)?;
        }
        Ok(())
    }
}

/// A judge of the picks of a whole log. A pick that breaks a rule lets the picks go: nothing is said of them until the
/// settings change.
#[derive(Drop)]
pub(crate) struct WholePicks {
    mechanism: Mechanism,
    judge: RuleJudge,
    is_let_go: bool,
    /// The picks that broke a rule.
    pub(crate) unlawful: ToldPicks,
    /// How many picks were judged.
    pub(crate) judged: u64,
}

impl WholePicks {
    /// Nothing was read yet but the head.
    pub(crate) fn new(alloc: Global, arbitration: Arbitration) -> WholePicks
        ensures { PicksGoOn arbitration.mechanism (nothing_said arbitration.settings) result }
    {
        WholePicks {
            mechanism: arbitration.mechanism,
            judge: judge_from(arbitration.mechanism, arbitration.settings),
            is_let_go: false,
            unlawful: ToldPicks::none(alloc),
            judged: 0,
        }
    }

    // Takes new settings. Picks are judged again.
    fn set(&mut self, settings: Settings)
        ensures { (mechanism : Mechanism) (said : PicksSaid) → PicksGoOn mechanism said self.old → PicksGoOn mechanism (record said { span = Some (span_after settings said.span) }) self.new }
    {
        if self.is_let_go {
            self.judge = judge_from(self.mechanism, settings);
            self.is_let_go = false;
        } else {
            self.judge.set(settings);
        }
    }

    // Judges a pick, which the line of this number tells.
    fn judge_pick(&mut self, line: u64, event: &TraceEvent) -> Result<(), LogError>
        requires observed { IsObserved (event_view event.now) }
        requires pick { IsPick (event_view event.now) }
        requires judges { self.old.is_let_go ≡ false }
        ensures taken { OnOk result ((mechanism : Mechanism) (said : PicksSaid) → PicksGoOn mechanism said self.old → GoesOnWith mechanism line (Some (event_view event.now)) said self.new) }
        ensures other { IfErr result IsOther }
    {
        self.judged = one_more(self.judged)?;
        match judged(&mut self.judge, event)? {
            None => Ok(()),
            Some(breach) => {
                self.is_let_go = true;
                self.unlawful
                    .add(MOST_UNLAWFUL, PickFinding { line, breach })
            }
        }
    }

    // Takes an event, which the line of this number tells.
    fn take(&mut self, line: u64, event: &TraceEvent) -> Result<(), LogError>
        requires { IsObserved (event_view event.now) }
        ensures taken { OnOk result ((mechanism : Mechanism) (said : PicksSaid) → PicksGoOn mechanism said self.old → GoesOnWith mechanism line (Some (event_view event.now)) said self.new) }
        ensures other { IfErr result IsOther }
    {
        match event {
            TraceEvent::Set { settings } => {
                self.set(*settings);
                Ok(())
            }
            TraceEvent::Pick { .. } if self.is_let_go => Ok(()),
            TraceEvent::Pick { .. } => self.judge_pick(line, event),
        }
    }

    /// Takes what the line of this number tells.
    pub(crate) fn note(&mut self, line: u64, said: &Said) -> Result<(), LogError>
        requires { WasObserved (heard_of said.now) }
        ensures taken { OnOk result ((mechanism : Mechanism) (told : PicksSaid) → PicksGoOn mechanism told self.old → GoesOnWith mechanism line (arbitration_heard (heard_of said.now)) told self.new) }
        ensures other { IfErr result IsOther }
    {
        match said {
            Said::OfArbitration(event) => self.take(line, event),
            _ => Ok(()),
        }
    }
}
