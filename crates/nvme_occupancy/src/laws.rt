//! Laws over the definitions alone, worked examples among them. Each function does nothing: its contract is the law.
ghost use Rattle.std.specs.Prelude.{ℕ, List};
ghost use Rattle.nvme_occupancy.specs.Balances.{TellsArea};
ghost use Rattle.nvme_occupancy.specs.Examples.{StayExamples};
ghost use Rattle.nvme_occupancy.specs.Stays.{IsLittle, Stay};
ghost use Rattle.nvme_occupancy.specs.declared.occupancy.Occupancy.{Occupancy};

/// Little's law: the area under the number of commands in the system, until all are done, is the sum of their sojourns.
pub fn area_is_sum_of_sojourns()
    ensures { (time : ℕ) (stays : List Stay) → IsLittle time stays }
{}

/// The area of an occupancy is the one under the number of those that are in the system, where those that came left.
pub fn occupancy_tells_area()
    ensures { (stays : List Stay) (occupancy : Occupancy) → TellsArea stays occupancy }
{}

/// How many are in the system, and for how long.
pub fn worked_stays()
    ensures { StayExamples }
{}
