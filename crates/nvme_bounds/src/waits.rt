// How long a wait may be.
ghost use Rattle.std.specs.Prelude.{◌≡◌, ◌<◌};
ghost use Rattle.nvme_bounds.specs.Runs.{time_behind};

/// How long it takes in picoseconds until so many commands and one more have ended, where at least so many run all the time and none takes longer than the
/// longest. `laws::ends_come_in_time` says that it takes no longer.
pub fn time_behind(commands: u64, least: u64, longest: u64) -> u128
    requires some { 0 < least }
    ensures { result ≡ time_behind commands least longest }
{
    (u128::from(commands / least) + 1) * u128::from(longest)
}
