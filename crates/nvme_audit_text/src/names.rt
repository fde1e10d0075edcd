// The names of rules, and the sections of the Base Specification that they come from.
ghost use Rattle.std.specs.Prelude.{◌≡◌, ◌≢◌, None, IfSome, []};
ghost use Rattle.std.specs.List.{All};
ghost use Rattle.nvme_audit.specs.declared.facts.Start.{Start};
ghost use Rattle.nvme_audit_text.specs.Names.{rule_text, all_rules, pick_rule_text, all_pick_rules, breach_text};
ghost use Rattle.nvme_audit_text.specs.Audits.{asked_in};

use nvme_audit::{Breach, Count, Rule};
use nvme_trace::Rule as PickRule;

// How many rules for the controller there are.
pub(crate) const RULE_COUNT: usize = 17;

// The rules for the controller, in the order in which they are told.
const RULES: &[Rule] = &[
    Rule::FetchClosed,
    Rule::FetchBeyondTail,
    Rule::FetchSlot,
    Rule::PostClosed,
    Rule::Slot,
    Rule::Phase,
    Rule::CqFull,
    Rule::CqWrong,
    Rule::Life,
    Rule::Sqhd,
    Rule::SqdelUnasked,
    Rule::AbortUnasked,
    Rule::AbortUntrue,
    Rule::StatusForeign,
    Rule::StatusCreate,
    Rule::StatusDelete,
    Rule::Features,
];

/// The name of a rule for the controller.
pub fn rule_name(rule: Rule) -> &'static str
    ensures { result.now ≡ rule_text rule }
{
    match rule {
        Rule::FetchClosed => "fetch-closed",
        Rule::FetchBeyondTail => "fetch-beyond-tail",
        Rule::FetchSlot => "fetch-slot",
        Rule::PostClosed => "post-closed",
        Rule::Slot => "slot",
        Rule::Phase => "phase",
        Rule::CqFull => "cq-full",
        Rule::CqWrong => "cq-wrong",
        Rule::Life => "life",
        Rule::Sqhd => "sqhd",
        Rule::SqdelUnasked => "sqdel-unasked",
        Rule::AbortUnasked => "abort-unasked",
        Rule::AbortUntrue => "abort-untrue",
        Rule::StatusForeign => "status-foreign",
        Rule::StatusCreate => "status-create",
        Rule::StatusDelete => "status-delete",
        Rule::Features => "features",
    }
}

/// The rule for the controller with this name.
pub fn rule_named(name: &str) -> Option<Rule>
    ensures some { IfSome result (λ rule. rule_text rule ≡ name.now) }
    ensures none { result ≡ None → All (λ rule. rule_text rule ≢ name.now) all_rules }
{
    for rule in RULES {
        if rule_name(*rule) == name {
            return Some(*rule);
        }
    }
    None
}

/// The rules for the controller.
pub fn rules() -> &'static [Rule]
    ensures { result.now ≡ all_rules }
{
    RULES
}

// The count of a rule before the first event.
fn none(rule: Rule) -> Count
    ensures { result ≡ record { rule = rule; times = 0 } }
{
    Count { rule, times: 0 }
}

/// The counts of the rules before the first event.
pub(crate) fn none_asked() -> [Count; RULE_COUNT]
    ensures { (start : Start) → result ≡ asked_in start [] }
{
    [
        none(Rule::FetchClosed),
        none(Rule::FetchBeyondTail),
        none(Rule::FetchSlot),
        none(Rule::PostClosed),
        none(Rule::Slot),
        none(Rule::Phase),
        none(Rule::CqFull),
        none(Rule::CqWrong),
        none(Rule::Life),
        none(Rule::Sqhd),
        none(Rule::SqdelUnasked),
        none(Rule::AbortUnasked),
        none(Rule::AbortUntrue),
        none(Rule::StatusForeign),
        none(Rule::StatusCreate),
        none(Rule::StatusDelete),
        none(Rule::Features),
    ]
}

/// The section of a rule for the controller.
pub(crate) fn section_of(rule: Rule) -> &'static str {
    match rule {
        Rule::FetchClosed => "Create I/O Submission Queue, Delete I/O Submission Queue",
        Rule::FetchBeyondTail => "Submission Queue y Tail Doorbell",
        Rule::FetchSlot => "Submission Queue",
        Rule::PostClosed => "Delete I/O Submission Queue, Delete I/O Completion Queue",
        Rule::Slot => "Completion Queue",
        Rule::Phase => "Phase Tag",
        Rule::CqFull => "Full Queue",
        Rule::CqWrong => "Create I/O Submission Queue",
        Rule::Life => "Completion Queue Entry",
        Rule::Sqhd => "SQ Head Pointer",
        Rule::SqdelUnasked => "Delete I/O Submission Queue",
        Rule::AbortUnasked | Rule::AbortUntrue => "Abort",
        Rule::StatusForeign => "Status Field",
        Rule::StatusCreate => "Create I/O Submission Queue, Create I/O Completion Queue",
        Rule::StatusDelete => "Delete I/O Submission Queue, Delete I/O Completion Queue",
        Rule::Features => "Number of Queues",
    }
}

// The rules of arbitration, in the order in which they are told.
const PICK_RULES: &[PickRule] = &[
    PickRule::Candidates,
    PickRule::Burst,
    PickRule::Priority,
    PickRule::Credit,
    PickRule::Turn,
];

/// The name of a rule of arbitration.
pub fn pick_rule_name(rule: PickRule) -> &'static str
    ensures { result.now ≡ pick_rule_text rule }
{
    match rule {
        PickRule::Candidates => "pick-candidates",
        PickRule::Burst => "pick-burst",
        PickRule::Priority => "pick-priority",
        PickRule::Credit => "pick-credit",
        PickRule::Turn => "pick-turn",
    }
}

/// The rules of arbitration.
pub fn pick_rules() -> &'static [PickRule]
    ensures { result.now ≡ all_pick_rules }
{
    PICK_RULES
}

/// The section of a rule of arbitration.
pub(crate) fn section_of_pick(rule: PickRule) -> &'static str {
    match rule {
        PickRule::Candidates | PickRule::Turn => "Command Arbitration",
        PickRule::Burst => "Command Arbitration, Arbitration feature",
        PickRule::Priority | PickRule::Credit => {
            "Weighted Round Robin with Urgent Priority Class Arbitration"
        }
    }
}

/// The name of a rule for the host.
pub fn breach_name(breach: Breach) -> &'static str
    ensures { result.now ≡ breach_text breach }
{
    match breach {
        Breach::TailRange => "tail-range",
        Breach::TailFull => "tail-full",
        Breach::HeadRange => "head-range",
        Breach::CidReused => "cid-reused",
    }
}

/// The section of a rule for the host.
pub(crate) fn section_of_breach(breach: Breach) -> &'static str {
    match breach {
        Breach::TailRange => "Submission Queue y Tail Doorbell",
        Breach::TailFull => "Full Queue",
        Breach::HeadRange => "Completion Queue y Head Doorbell",
        Breach::CidReused => "Command Identifier",
    }
}
