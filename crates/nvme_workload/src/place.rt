ghost use Rattle.std.specs.Prelude.{◌≡◌};
ghost use Rattle.nvme_workload.specs.Places.{begins_character, place_behind};

use std::fmt;

/// A table of a workload file. Regions of a kind and items of a script count from 0.
#[derive(Clone, Copy, Debug, PartialEq, Eq)]
pub enum Spot {
    /// The file's own table.
    Top,
    /// The table of a submission region.
    Submission(usize),
    /// An item of the script of a submission region.
    Item { region: usize, item: usize },
    /// The table of a completion region.
    Completion(usize),
}

impl fmt::Display for Spot {
    fn fmt<W: fmt::Write>(&self, f: &mut fmt::Formatter<W>) -> fmt::Result {
        match self {
            Spot::Top => write!(f, "top"),
            Spot::Submission(region) => write!(f, "submission {region}"),
            Spot::Item { region, item } => write!(f, "submission {region}, item {item}"),
            Spot::Completion(region) => write!(f, "completion {region}"),
        }
    }
}

/// Where a fault of a workload file is.
#[derive(Clone, Copy, Debug, PartialEq, Eq)]
pub enum Place {
    /// A place in the text. Lines and columns count from 1, and columns count characters.
    Text { line: usize, column: usize },
    /// A table, or an item where a table belongs.
    Table(Spot),
}

impl fmt::Display for Place {
    fn fmt<W: fmt::Write>(&self, f: &mut fmt::Formatter<W>) -> fmt::Result {
        match self {
            Place::Text { line, column } => write!(f, "line {line}, column {column}"),
            Place::Table(spot) => spot.fmt(f),
        }
    }
}

// Whether a byte begins a character, rather than continuing one.
fn begins_character(byte: u8) -> bool
    ensures { result ≡ begins_character byte }
{
    byte < 0x80 || 0xc0 <= byte
}

/// The place in the text right behind these bytes.
pub(crate) fn behind(bytes: &[u8]) -> Place
    ensures { result ≡ place_behind bytes.now }
{
    let mut line = 1usize;
    let mut column = 1usize;
    for byte in bytes {
        if *byte == b'\n' {
            line += 1;
            column = 1;
        } else if begins_character(*byte) {
            column += 1;
        }
    }
    Place::Text { line, column }
}
