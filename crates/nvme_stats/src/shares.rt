// Shares of commands.
ghost use Rattle.std.specs.Prelude.{◌≡◌, ◌<◌};
ghost use Rattle.nvme_stats.specs.Rows.{share_of};

use nvme_cells::quotient;

/// The share of a part in a whole, in hundredths of a percent, rounded. 0 of nothing.
pub fn share(part: u64, whole: u64) -> u128
    ensures some { 0 < whole → result ≡ share_of 10000 part whole }
    ensures none { whole ≡ 0 → result ≡ 0 }
{
    quotient(u128::from(part), 10_000, u128::from(whole)).unwrap_or(0)
}

/// The share of a part in a whole, in millionths, rounded. 0 of nothing.
pub fn millionths(part: u64, whole: u64) -> u128
    ensures some { 0 < whole → result ≡ share_of 1000000 part whole }
    ensures none { whole ≡ 0 → result ≡ 0 }
{
    quotient(u128::from(part), 1_000_000, u128::from(whole)).unwrap_or(0)
}
