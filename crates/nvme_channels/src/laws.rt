//! Laws over the definitions alone, worked examples among them. Each function does nothing: its contract is the law.
ghost use Rattle.std.specs.Prelude.{◌<◌, ℕ, List};
ghost use Rattle.nvme_channels.specs.declared.placement.Placement.{Placement};
ghost use Rattle.nvme_channels.specs.Devices.{new_device};
ghost use Rattle.nvme_channels.specs.Examples.{PauseExamples, PoolExamples, StripeExamples};
ghost use Rattle.nvme_channels.specs.Laws.{RunsOneByOne, StartsInOrder, StaysSteady};
ghost use Rattle.nvme_channels.specs.Runs.{Step, device_after};

/// No channel idles while a command that may run on it waits in the device, and the room, the commands that run and those
/// that wait are the depth.
pub fn devices_are_steady()
    ensures { (placement : Placement) (depth count : ℕ) → 0 < count → (past : List Step) → StaysSteady placement depth count past }
{}

/// A channel runs one command at a time. Its busy time is that of all commands that started there, and no longer than the
/// time until the last one ends.
pub fn commands_run_one_by_one()
    ensures { (placement : Placement) (depth count : ℕ) → 0 < count → (past : List Step) (channel : ℕ)
        → RunsOneByOne (new_device placement depth count) past channel }
{}

/// Commands start on a channel in the order in which they came.
pub fn commands_start_in_order()
    ensures { (placement : Placement) (depth count : ℕ) → 0 < count → (past : List Step)
        → StartsInOrder (device_after (new_device placement depth count) past) }
{}

/// Commands of a pool.
pub fn worked_pools()
    ensures { PoolExamples }
{}

/// Channels that are paused and resumed.
pub fn worked_pauses()
    ensures { PauseExamples }
{}

/// Commands of a striped device.
pub fn worked_stripes()
    ensures { StripeExamples }
{}
