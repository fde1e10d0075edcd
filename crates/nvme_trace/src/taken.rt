// A pick as this front writes it.
ghost use Rattle.std.specs.Prelude.{◌≡◌, ◌∷◌, MatchOption};
ghost use Rattle.nvme_arbiter.specs.Settings.{ArbitrationFields};
ghost use Rattle.nvme_arbiter.specs.History.{History, Picked};
ghost use Rattle.nvme_arbiter.specs.Observation.{IsObservation};
ghost use Rattle.nvme_arbiter.specs.Standing.{StandsAt};
ghost use Rattle.nvme_arbiter.specs.declared.settings.Mechanism.{Mechanism};
ghost use Rattle.nvme_trace.specs.Surveys.{Follows};
ghost use Rattle.nvme_trace.specs.Taken.{as_written, pick_within};
ghost use Rattle.nvme_trace.specs.inside.Steps.{unused_by, within_room};

use nvme_arbiter::{Arbiter, Kept, Mechanism, Pick, Seen};

// Whether nothing was picked of a level in the round. Round robin has no rounds.
fn is_unused(kept: &Kept) -> bool
    ensures { result ≡ unused_by kept.now.mechanism kept.now.used }
{
    match kept.mechanism {
        Mechanism::RoundRobin => false,
        Mechanism::Weighted => {
            kept.used.high == 0 && kept.used.medium == 0 && kept.used.low == 0
        }
    }
}

/// A pick as this front writes it: while nothing is used in the round, it isn't fresh.
#[tactic(auto, using(crate::proofs::TakenLemmas::written_stands, crate::proofs::TakenLemmas::written_follows))]
pub fn as_written(kept: &Kept, pick: Pick) -> Pick
    ensures stands { (mechanism : Mechanism) (first : ArbitrationFields) (past : History) → StandsAt mechanism first past kept.now → result ≡ as_written mechanism past pick }
    ensures follows { (mechanism : Mechanism) (first : ArbitrationFields) (past : History) → Follows mechanism first past kept.now → result ≡ as_written mechanism past pick }
{
    Pick {
        fresh: pick.fresh && !is_unused(kept),
        ..pick
    }
}

/// A pick that takes no more commands than there is room for, where that is told.
pub fn within_room(room: Option<u16>, pick: Pick) -> Pick
    ensures { result ≡ within_room room pick }
{
    match room {
        Some(room) => pick.up_to(room),
        None => pick,
    }
}

/// Makes the pick of this front in the room that is told.
pub fn pick_within(arbiter: &mut Arbiter, room: Option<u16>, seen: &[Seen]) -> Option<Pick>
    requires observed { IsObservation seen.now }
    ensures lawful { (mechanism : Mechanism) (first : ArbitrationFields) (past : History) → StandsAt mechanism first past arbiter.old → result ≡ pick_within room mechanism first past seen.now }
    ensures stands { (mechanism : Mechanism) (first : ArbitrationFields) (past : History) → StandsAt mechanism first past arbiter.old → MatchOption result (arbiter.new ≡ arbiter.old) (λ pick. StandsAt mechanism first (Picked seen.now pick ∷ past) arbiter.new) }
{
    let pick = within_room(room, arbiter.peek(seen)?);
    arbiter.keep(seen, pick);
    Some(pick)
}
