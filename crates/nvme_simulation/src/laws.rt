//! Laws over the definitions alone. Each function does nothing: its contract is the law.
ghost use Rattle.nvme_simulation.specs.Examples.{FirstEventsArePlanned, StagesAreTimed};
ghost use Rattle.nvme_simulation.specs.Runs.{TimesAreOfSteps};
ghost use Rattle.nvme_simulation.specs.Telling.{PicksAreTold};
ghost use Rattle.nvme_simulation.specs.Waits.{OneIsPickedBehindAnEnd, PicksHaveRoom, SettledIsFull};
ghost use Rattle.nvme_simulation.specs.declared.flight.Request.{Request};

/// The times that are told of a command are those of the steps of its run at which it came, was submitted, was picked, started and
/// was done. So the parts of its latency are the times that it spent between them.
pub fn times_are_those_of_steps()
    ensures { TimesAreOfSteps }
{}

/// A command is picked only in a step that tells a pick of its queue. So the time at which it was picked is that of such a step.
pub fn picks_are_told()
    ensures { PicksAreTold }
{}

/// While commands of a queue wait for arbitration, a step tells that none can be picked only where the device is full.
pub fn settled_devices_are_full()
    ensures { SettledIsFull }
{}

/// A pick takes no more commands than the device has room for.
pub fn picks_have_room()
    ensures { PicksHaveRoom }
{}

/// A pick behind the end of a command in a full device takes one command.
pub fn one_is_picked_behind_an_end()
    ensures { OneIsPickedBehindAnEnd }
{}

/// The worked times of a command's stages.
pub fn worked_stages()
    ensures { (r : Request) → StagesAreTimed r }
{}

/// The worked first events of a queue and of a device that pauses.
pub fn worked_first_events()
    ensures { FirstEventsArePlanned }
{}
