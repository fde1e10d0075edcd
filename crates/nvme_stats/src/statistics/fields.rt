// What statistics tell, as fields, which their sheets, objects and tables have in common.
use super::Statistics;
use crate::histogram::Histogram;
use crate::selection::Selection;
use crate::shares::millionths;
use crate::tally::Tally;
use nvme_cells::{Cell, Field, Places};

/// A number of this name.
pub fn number(name: &str, number: u64) -> Field<'_> {
    Field::of(name, Cell::Number(u128::from(number)))
}

/// A share in a whole, in millionths.
pub fn share<'a>(part: u64, whole: u64) -> Field<'a> {
    Field::of("share", Cell::Decimal(millionths(part, whole), Places::Six))
}

/// What was picked of a queue or a class.
pub fn picked<'a>(counted: &Statistics, tally: &Tally) -> [Field<'a>; 3] {
    [
        number("picks", tally.picks),
        number("commands", tally.commands),
        share(tally.commands, counted.commands),
    ]
}

/// How long it was passed over, and the bound of that.
pub fn passed_over<'a>(counted: &Statistics, tally: &Tally) -> [Field<'a>; 2] {
    [
        number("wait", tally.longest),
        number("below", counted.bound() as u64),
    ]
}

/// The waits of a queue.
pub fn waited<'a>(waits: &Histogram) -> [Field<'a>; 6] {
    let count = number("waits", waits.count());
    if waits.count() == 0 {
        let none = ["mean", "p50", "p95", "p99", "max"];
        let [mean, p50, p95, p99, most] = none.map(|name| Field::of(name, Cell::Empty));
        return [count, mean, p50, p95, p99, most];
    }
    [
        count,
        Field::of("mean", Cell::Decimal(waits.mean(), Places::Two)),
        number("p50", waits.percentile(50)),
        number("p95", waits.percentile(95)),
        number("p99", waits.percentile(99)),
        number("max", waits.most()),
    ]
}

/// Which picks were looked at.
pub fn looked_at<'a>(selection: &Selection) -> [Field<'a>; 3] {
    let last = if selection.is_open() {
        Cell::Empty
    } else {
        Cell::Number(u128::from(selection.last))
    };
    [
        number("from", selection.first),
        Field::of("to", last),
        Field::of("backlogged", Cell::Flag(selection.backlogged)),
    ]
}
