// The columns of a row: the name of each, and what it says.
ghost use Rattle.std.specs.Prelude.{◌≡◌, map};
ghost use Rattle.nvme_cells.specs.Rows.{named_of};
ghost use Rattle.nvme_cells.specs.Values.{value_of};
ghost use Rattle.nvme_numbers.specs.Columns.{aboves, column, commands, feeds, latencies, measure_of, measured, parts, rates};

use crate::row::{Fed, Row, Spread};
use nvme_cells::{Cell, Field, Places};

/// What is told of how long commands took: times in picoseconds, and how many commands lie above percentiles.
#[derive(Clone, Copy)]
pub enum Measure {
    Mean,
    P50,
    P95,
    P99,
    P999,
    Longest,
    Host,
    Arbitration,
    Device,
    Service,
    AboveP50,
    AboveP95,
    AboveP99,
    AboveP999,
}

/// What a measure is.
pub fn measured(measure: Measure, spread: &Spread) -> u128
    ensures { result ≡ measured measure spread.now }
{
    match measure {
        Measure::Mean => u128::from(spread.mean),
        Measure::P50 => u128::from(spread.p50),
        Measure::P95 => u128::from(spread.p95),
        Measure::P99 => u128::from(spread.p99),
        Measure::P999 => u128::from(spread.p999),
        Measure::Longest => u128::from(spread.longest),
        Measure::Host => spread.host,
        Measure::Arbitration => spread.arbitration,
        Measure::Device => spread.device,
        Measure::Service => spread.service,
        Measure::AboveP50 => spread.above_p50 as u128,
        Measure::AboveP95 => spread.above_p95 as u128,
        Measure::AboveP99 => spread.above_p99 as u128,
        Measure::AboveP999 => spread.above_p999 as u128,
    }
}

/// A column.
pub fn column<'a>(name: &'a str, cell: Cell<'a>) -> Field<'a>
    ensures { named_of result ≡ column name.now (value_of cell.entry) }
{
    Field { name, cell }
}

// A column of a measure, which says nothing of no command.
fn of_measure<'a>(name: &'a str, measure: Measure, spread: &Option<Spread>) -> Field<'a>
    ensures { named_of result ≡ column name.now (measure_of measure spread.now) }
{
    let cell = match spread {
        Some(spread) => Cell::Number(measured(measure, spread)),
        None => Cell::Empty,
    };
    Field { name, cell }
}

/// How many commands.
pub fn commands<'a>(row: &Row) -> Field<'a>
    ensures { named_of result ≡ commands row.now }
{
    column("commands", Cell::Number(row.commands as u128))
}

/// Their share of all, and how many and how many bytes a second.
pub fn rates<'a>(row: &Row) -> [Field<'a>; 3]
    ensures { map named_of result ≡ rates row.now }
{
    [
        column("share", Cell::decimal(row.share, Places::Six)),
        column("iops", Cell::number(row.iops)),
        column("bytes_per_second", Cell::number(row.bytes_per_second)),
    ]
}

/// How long they took.
pub fn latencies<'a>(spread: &Option<Spread>) -> [Field<'a>; 6]
    ensures { map named_of result ≡ latencies spread.now }
{
    [
        of_measure("latency_mean_ps", Measure::Mean, spread),
        of_measure("latency_p50_ps", Measure::P50, spread),
        of_measure("latency_p95_ps", Measure::P95, spread),
        of_measure("latency_p99_ps", Measure::P99, spread),
        of_measure("latency_p999_ps", Measure::P999, spread),
        of_measure("latency_max_ps", Measure::Longest, spread),
    ]
}

/// The means of the parts of that.
pub fn parts<'a>(spread: &Option<Spread>) -> [Field<'a>; 4]
    ensures { map named_of result ≡ parts spread.now }
{
    [
        of_measure("host_mean_ps", Measure::Host, spread),
        of_measure("arbitration_mean_ps", Measure::Arbitration, spread),
        of_measure("device_mean_ps", Measure::Device, spread),
        of_measure("service_mean_ps", Measure::Service, spread),
    ]
}

/// What was done a second while commands came, and how long that was.
pub fn feeds<'a>(fed: &Fed) -> [Field<'a>; 3]
    ensures { map named_of result ≡ feeds fed.now }
{
    [
        column("iops_fed", Cell::number(fed.iops)),
        column("bytes_per_second_fed", Cell::number(fed.bytes_per_second)),
        column("fed_ps", Cell::Number(u128::from(fed.time))),
    ]
}

/// How many commands lie above percentiles.
pub fn aboves<'a>(spread: &Option<Spread>) -> [Field<'a>; 4]
    ensures { map named_of result ≡ aboves spread.now }
{
    [
        of_measure("above_p50", Measure::AboveP50, spread),
        of_measure("above_p95", Measure::AboveP95, spread),
        of_measure("above_p99", Measure::AboveP99, spread),
        of_measure("above_p999", Measure::AboveP999, spread),
    ]
}
