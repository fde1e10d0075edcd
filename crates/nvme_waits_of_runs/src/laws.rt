//! Laws over the definitions alone. Each function does nothing: its contract is the law.
ghost use Rattle.nvme_waits_of_runs.specs.Models.{IdsAreCounted, NoneRunsLonger, OnlyQueuesAreReady, SettingsStay, WaitsAreAsTold};
ghost use Rattle.nvme_waits_of_runs.specs.Waits.{WaitsOfRunsAreShort};

/// While a queue waits for arbitration in a run of a simulation, from a step on that told that none can be picked, the time until the event behind which it
/// is picked is at most `time_behind` of `Queues::most_before`, with one command a pick. The device is a pool that doesn't pause.
pub fn waits_of_runs_are_short()
    ensures { WaitsOfRunsAreShort }
{}

/// In each run of a model its settings are in force.
pub fn settings_stay_in_force()
    ensures { SettingsStay }
{}

/// In each run of a model arbitration sees only the model's queues ready, each in its class.
pub fn only_queues_are_ready()
    ensures { OnlyQueuesAreReady }
{}

/// In each run of a model no command runs longer than the longest service that `Bounds::of` tells.
pub fn none_runs_longer()
    ensures { NoneRunsLonger }
{}

/// While a queue waits for arbitration in a run of a model, from a step on that told that none can be picked, the time until the event behind which it is
/// picked is at most the bound that `Bounds::of` tells of it, where it tells one.
pub fn waits_are_as_told()
    ensures { WaitsAreAsTold }
{}

/// The worked identifiers of the queues of a class.
pub fn worked_identifiers()
    ensures { IdsAreCounted }
{}
