// Counts of things.
ghost use Rattle.std.specs.Prelude.{◌≡◌, ◌≢◌, codes};

use std::fmt;

/// The ending of a noun behind a number.
pub fn plural(number: u128) -> &'static str
    ensures one { number ≡ 1 → result.now ≡ codes "" }
    ensures more { number ≢ 1 → result.now ≡ codes "s" }
{
    if number == 1 { "" } else { "s" }
}

/// So many things of this name: `1 pick`, `2 picks`.
#[derive(Clone, Copy, Debug, PartialEq, Eq)]
pub struct Counted<'a> {
    pub number: u128,
    pub name: &'a str,
}

/// So many things of this name.
pub fn count_of(number: u64, name: &str) -> Counted<'_>
    ensures number { result.number ≡ number }
    ensures name { result.name.now ≡ name.now }
{
    Counted {
        number: u128::from(number),
        name,
    }
}

impl fmt::Display for Counted<'_> {
    ghost use Rattle.std.specs.Prelude.{Some};
    ghost use Rattle.nvme_terms.specs.Counts.{counted_text};

    ghost output = { λ counted. Some (counted_text counted.number counted.name.now) };

    fn fmt<W: fmt::Write>(&self, f: &mut fmt::Formatter<W>) -> fmt::Result {
        let (number, name, plural) = (self.number, self.name, plural(self.number));
        write!(f, "{number} {name}{plural}")
    }
}
