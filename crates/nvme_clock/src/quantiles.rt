// Draws from a table of quantiles.
ghost use Rattle.std.specs.Prelude.{◌≡◌, ◌≤◌, ◌<◌, ◌+◌, ◌-◌, ◌*◌, ◌/◌, length, IfErr, IfOk, MatchOption, OnOk, slice_index};
ghost use Rattle.nvme_clock.specs.Tables.{FallsAt, IsTable, Rises, TellsFault};
ghost use Rattle.nvme_clock.specs.Draws.{drawn_from};

use crate::draws::part;
use rand_core::Rng;
use thiserror::Error;

/// Why values are no table of quantiles.
#[derive(Clone, Copy, Debug, PartialEq, Eq, Error)]
pub enum TableFault {
    /// There are fewer than two.
    #[error("expected two quantiles or more")]
    Short,
    /// A value is below the one before it.
    #[error("expected quantiles that don't fall: number {at}, counted from 0, is below the one before it")]
    Falls { at: usize },
}

// Where a value is first below the one before it.
fn first_fall(values: &[u64]) -> Option<usize>
    ensures { MatchOption result (Rises values.now (length values.now)) (λ at. FallsAt values.now at) }
{
    for at in 1..values.len() {
        if values[at] < values[at - 1] {
            return Some(at);
        }
    }
    None
}

// The step of so many equal ones in which a word lies, where it counts 2^64ths.
fn step(word: u64, steps: usize) -> usize
    requires some { 0 < steps }
    ensures value { result ≡ word * steps / 0x1_0000_0000_0000_0000 }
    ensures below { result < steps }
{
    ((u128::from(word) * steps as u128) / 0x1_0000_0000_0000_0000) as usize
}

/// A table of quantiles at equal steps of the probability: of n + 1 values, number k is the quantile of k / n.
#[derive(Drop)]
pub struct Quantiles {
    values: Vec<u64>,
    ghost table: { IsTable values.items },
}

impl Quantiles {
    ghost use Rattle.nvme_clock.specs.Quantiles.{values_of};

    /// A table of these values, which are two or more and don't fall.
    pub fn new(values: Vec<u64>) -> Result<Quantiles, TableFault>
        ensures ok { IfOk result (λ q. values_of q ≡ values.items) }
        ensures table { OnOk result (IsTable values.items) }
        ensures err { IfErr result (λ e. TellsFault values.items e) }
    {
        if values.len() < 2 {
            return Err(TableFault::Short);
        }
        match first_fall(&values) {
            Some(at) => Err(TableFault::Falls { at }),
            None => Ok(Quantiles { values }),
        }
    }

    /// Its values, which don't fall.
    pub fn values(&self) -> &[u64]
        ensures value { result.now ≡ values_of self.now }
        ensures table { IsTable result.now }
    {
        self.values.as_slice()
    }

    /// The quantile of a word, which counts 2^64ths: between its two neighbours in the table by equal steps, rounded down.
    pub fn draw<R: Rng>(&self, rng: &mut R) -> u64
        ensures value { (result, R.stream rng.new) ≡ drawn_from (values_of self.now) (R.stream rng.old) }
        ensures at_least { slice_index (values_of self.now) 0 ≤ result }
        ensures at_most { result ≤ slice_index (values_of self.now) (length (values_of self.now) - 1) }
    {
        let word = rng.next_u64();
        let steps = self.values.len() - 1;
        let at = step(word, steps);
        let place = u128::from(word) * steps as u128 % 0x1_0000_0000_0000_0000;
        let low = self.values[at];
        low + part(place as u64, self.values[at + 1] - low)
    }
}
