//! Laws of audits, over the definitions alone. Each function does nothing: its contract is the law.
ghost use Rattle.nvme_audit_text.specs.Laws.{BreachesAreFirst, EachRuleStands, EachPickRuleStands, PicksWantMechanism, ObserversSeeNoPicks};

/// The breach that an audit tells is the first of the events that the log tells, in their order.
pub fn breaches_are_first()
    ensures { BreachesAreFirst }
{}

/// Each rule for the controller is among those that have a name and are counted.
pub fn each_rule_stands()
    ensures queues { EachRuleStands }
    ensures picks { EachPickRuleStands }
{}

/// Of a log whose head tells no mechanism no line tells a pick, and none does to an observer: no rule of arbitration is
/// judged.
pub fn picks_are_told_with_a_mechanism()
    ensures mechanism { PicksWantMechanism }
    ensures observers { ObserversSeeNoPicks }
{}
