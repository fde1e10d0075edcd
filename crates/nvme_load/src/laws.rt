//! Laws over the definitions alone, worked examples among them. Each function does nothing: its contract is the law.
ghost use Rattle.std.specs.Prelude.{◌≤◌, ◌<◌, ◌+◌, ℕ};
ghost use Rattle.nvme_load.specs.Phases.{ComesWhereOn};
ghost use Rattle.nvme_load.specs.Places.{GoesRound};
ghost use Rattle.nvme_load.specs.Shares.{HasItsShares};
ghost use Rattle.nvme_load.specs.Examples.{ArrivalExamples, MixExamples, PlaceExamples, ServiceExamples};

/// Operations that streams of given words draw.
pub fn worked_mixes()
    ensures { MixExamples }
{}

/// Of the words that a draw accepts, each operation has just its share.
pub fn mixes_have_their_shares()
    ensures { (read write flush : ℕ) → 0 < read + write + flush → HasItsShares read write flush }
{}

/// Service times that streams of given words draw.
pub fn worked_services()
    ensures { ServiceExamples }
{}

/// When commands come, by streams of given words.
pub fn worked_arrivals()
    ensures { ArrivalExamples }
{}

/// Where times pass in on phases alone, a command comes where it is on, and just so long it was on before.
pub fn commands_come_where_it_is_on()
    ensures { (on off length : ℕ) → 0 < on → ComesWhereOn on off length }
{}

/// Places that streams of given words draw, and places behind others.
pub fn worked_places()
    ensures { PlaceExamples }
{}

/// Sequential commands go round the namespace.
pub fn sequential_commands_go_round()
    ensures { (size blocks : ℕ) → 0 < blocks → blocks ≤ size → GoesRound size blocks }
{}
