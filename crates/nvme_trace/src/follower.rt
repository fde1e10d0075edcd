// Follows the picks of a trace, whatever they are.
ghost use Rattle.std.specs.Prelude.{◌≡◌, ◌∷◌, Some, MatchOption};
ghost use Rattle.nvme_arbiter.specs.Settings.{ArbitrationFields};
ghost use Rattle.nvme_arbiter.specs.History.{History, Picked};
ghost use Rattle.nvme_arbiter.specs.Lawful.{lawful_pick};
ghost use Rattle.nvme_trace.specs.Taken.{pick_within, IsTakenPick};
ghost use Rattle.nvme_arbiter.specs.Observation.{IsObservation, class_in};
ghost use Rattle.nvme_arbiter.specs.Standing.{last_with, used_before};
ghost use Rattle.nvme_arbiter.specs.declared.settings.Mechanism.{Mechanism};
ghost use Rattle.nvme_trace.specs.Surveys.{Follows, IsDifferent};
ghost use Rattle.nvme_trace.specs.inside.Steps.{used_plus, followed, WeightsFit};
ghost use Rattle.nvme_trace.specs.declared.records.Head.{Head};

use crate::judge::Finding;
use crate::taken::{as_written, within_room};
use nvme_arbiter::{Arbiter, Class, Kept, Last, Pick, Seen, Settings, Used, class_in};
use nvme_judge::count_in;

// What is used before a pick: nothing where it starts a round.
fn used_before(fresh: bool, used: Used) -> Used
    ensures { result ≡ used_before fresh used }
{
    if fresh {
        Used {
            high: 0,
            medium: 0,
            low: 0,
        }
    } else {
        used
    }
}

// What is used with the commands of a pick. They are counted up to 65,535, which no weight exceeds.
fn used_plus(used: Used, class: Option<Class>, n: u16) -> Used
    ensures { result ≡ used_plus used class n }
{
    match class {
        Some(Class::High) => Used {
            high: used.high.saturating_add(n),
            ..used
        },
        Some(Class::Medium) => Used {
            medium: used.medium.saturating_add(n),
            ..used
        },
        Some(Class::Low) => Used {
            low: used.low.saturating_add(n),
            ..used
        },
        Some(Class::Admin | Class::Urgent) | None => used,
    }
}

// The queues that were served last, after a pick of a class.
fn last_after(last: Last, class: Option<Class>, qid: u16) -> Last
    ensures { result ≡ record (last_with last class qid) { all = Some qid } }
{
    let mut last = last;
    last.all = Some(qid);
    if let Some(class) = class {
        last.by_class.set(class, Some(qid));
    }
    last
}

/// What is kept after a pick, lawful or not.
#[tactic(auto, using(crate::proofs::FollowLemmas::follows_picked))]
pub fn follow(kept: &Kept, seen: &[Seen], picked: Pick) -> Kept
    ensures followed { result ≡ followed kept.now (class_in seen.now picked.qid) picked }
    ensures follows { (mechanism : Mechanism) (first : ArbitrationFields) (past : History) → Follows mechanism first past kept.now → Follows mechanism first (Picked seen.now picked ∷ past) result }
{
    let class = class_in(seen, picked.qid);
    Kept {
        mechanism: kept.mechanism,
        settings: kept.settings,
        last: last_after(kept.last, class, picked.qid),
        used: used_plus(used_before(picked.fresh, kept.used), class, picked.n),
    }
}

// The greatest weight: as a number of 16 bits it isn't above what is counted.
fn greatest_weight(settings: &Settings) -> u16
    ensures { WeightsFit settings.now }
{
    let high = settings.weight(Class::High);
    let medium = settings.weight(Class::Medium);
    let low = settings.weight(Class::Low);
    high.max(medium).max(low)
}

// The lawful pick after the picks that were made.
fn lawful_after(kept: &Kept, seen: &[Seen]) -> Option<Pick>
    requires observed { IsObservation seen.now }
    ensures { (mechanism : Mechanism) (first : ArbitrationFields) (past : History) → Follows mechanism first past kept.now → result ≡ lawful_pick mechanism first past seen.now }
{
    let kept = *kept;
    let _ = greatest_weight(&kept.settings);
    Arbiter::from_parts(kept).peek(seen)
}

// The pick of this front after the picks that were made, in the room that is told.
fn within_after(kept: &Kept, room: Option<u16>, seen: &[Seen]) -> Option<Pick>
    requires observed { IsObservation seen.now }
    ensures { (mechanism : Mechanism) (first : ArbitrationFields) (past : History) → Follows mechanism first past kept.now → result ≡ pick_within room mechanism first past seen.now }
{
    let pick = lawful_after(kept, seen)?;
    Some(within_room(room, pick))
}

/// What is told of a pick that isn't the lawful one after the picks that were made, in the room that is told. `None` where
/// it is.
pub fn difference(kept: &Kept, seen: &[Seen], picked: Pick, room: Option<u16>) -> Option<Finding>
    requires observed { IsObservation seen.now }
    ensures { (head : Head) (past : History) → Follows head.mechanism head.settings past kept.now → MatchOption result (IsTakenPick head.mechanism head.settings past room seen.now picked) (IsDifferent head past room seen.now picked) }
{
    let lawful = within_after(kept, room, seen);
    if lawful == Some(as_written(kept, picked)) {
        return None;
    }
    Some(Finding {
        picked,
        lawful,
        class: lawful.and_then(|pick| class_in(seen, pick.qid)),
        waiting: lawful.and_then(|pick| count_in(seen, pick.qid)),
        room,
        kept: *kept,
    })
}
