// The lines of a picture of a sweep: what stands at the values of its last key.
use nvme_arbiter::Class;
use nvme_numbers::class_name;
use nvme_plot::LINES;
use nvme_points::{COUNT, Estimate, MEAN, P99, Point, Scope, Sweep, SweepFault, SweepRow, add};
use nvme_simulate::style_of;
use std::alloc::{AllocError, Global};

// The classes of I/O queues.
const CLASSES: [Class; 4] = [Class::Urgent, Class::High, Class::Medium, Class::Low];

/// What a line has at a value of the last key.
#[derive(Clone, Copy, Debug, PartialEq, Eq)]
pub(crate) struct Spot {
    /// The index of the value.
    pub(crate) place: u64,
    /// The mean of the latencies, in picoseconds.
    pub(crate) mean: Estimate,
    /// Their 99th percentile, in picoseconds.
    pub(crate) p99: Estimate,
}

/// The class of a name, where there is one: one that I/O queues have.
pub fn drawn_class<'a>(name: Option<&'a str>) -> Result<Option<Class>, SweepFault<'a>> {
    let Some(name) = name else {
        return Ok(None);
    };
    let class = CLASSES.into_iter().find(|class| class_name(*class) == name);
    match class {
        Some(class) => Ok(Some(class)),
        None => Err(SweepFault::NotAClass(name)),
    }
}

/// A line: a class, or values of the keys before the last one.
#[derive(Debug, Drop)]
pub(crate) struct Line {
    pub(crate) name: String,
    pub(crate) style: usize,
    pub(crate) spots: Vec<Spot>,
}

impl Line {
    // A line without a spot.
    fn new(alloc: Global, name: String, style: usize) -> Line {
        Line {
            name,
            style,
            spots: Vec::new(alloc),
        }
    }

    // Adds the numbers of a row at a value.
    fn note(&mut self, place: usize, numbers: &[Estimate; COUNT]) -> Result<(), AllocError> {
        self.spots.push(Spot {
            place: place as u64,
            mean: numbers[MEAN],
            p99: numbers[P99],
        })?;
        Ok(())
    }
}

// Adds the numbers of a class to its line, which is made where there is none.
fn note_class(
    alloc: Global,
    lines: &mut Vec<Line>,
    place: usize,
    class: Class,
    numbers: &[Estimate; COUNT],
) -> Result<(), AllocError> {
    let style = style_of(class);
    for line in lines.iter_mut() {
        if line.style == style {
            return line.note(place, numbers);
        }
    }
    let name = String::from_str(alloc, class_name(class))?;
    let mut line = Line::new(alloc, name, style);
    line.note(place, numbers)?;
    add(lines, line)
}

// The numbers of a scope in the rows of a point.
fn numbers_of(rows: &[SweepRow], scope: Scope) -> Option<&[Estimate; COUNT]> {
    for row in rows {
        if row.scope == scope {
            return Some(&row.numbers);
        }
    }
    None
}

// How many values the last key has, 1 where there is no key.
fn last_values(sweep: &Sweep) -> usize {
    match sweep.axes.last() {
        Some(axis) => axis.values.len().max(1),
        None => 1,
    }
}

/// Whether a picture of a sweep tells its lines apart: with several keys, one for each combination of those before the last one.
pub fn look_at_lines<'a>(alloc: Global, sweep: &Sweep<'a>) -> Result<(), SweepFault<'a>> {
    let lines = sweep.points(alloc)? / last_values(sweep).max(1);
    if lines > LINES {
        return Err(SweepFault::TooManyLines(lines));
    }
    Ok(())
}

// Adds the classes of a point to their lines.
fn note_classes(
    alloc: Global,
    lines: &mut Vec<Line>,
    place: usize,
    point: &Point,
) -> Result<(), AllocError> {
    for row in &point.rows {
        if let Scope::Class(class) = row.scope {
            note_class(alloc, lines, place, class, &row.numbers)?;
        }
    }
    Ok(())
}

/// Whether a picture has a line for each class, and not one for each combination of the keys before the last one.
pub(crate) fn has_lines_of_classes(sweep: &Sweep) -> bool {
    sweep.axes.len() < 2 && sweep.drawn.is_none()
}

// The name of a line for these values of the keys before the last one. Without such a key it is the class that is drawn.
fn line_name(alloc: Global, sweep: &Sweep, before: &[&str]) -> Result<String, AllocError> {
    match sweep.drawn {
        Some(class) if before.is_empty() => String::from_str(alloc, class_name(class)),
        _ => sweep.name_of(alloc, before),
    }
}

// Adds a point to the line of its combination, which begins with the first value of the last key.
fn note_combination(
    alloc: Global,
    sweep: &Sweep,
    lines: &mut Vec<Line>,
    place: usize,
    point: &Point,
) -> Result<(), AllocError> {
    if place == 0 {
        let keys = point.values.len().saturating_sub(1);
        let before = point.values.get(..keys).unwrap_or(&[]);
        let name = line_name(alloc, sweep, before)?;
        let style = lines.len();
        add(lines, Line::new(alloc, name, style))?;
    }
    let scope = match sweep.drawn {
        Some(class) => Scope::Class(class),
        None => Scope::All,
    };
    if let Some(numbers) = numbers_of(&point.rows, scope)
        && let Some(line) = lines.last_mut()
    {
        line.note(place, numbers)?;
    }
    Ok(())
}

/// Adds a point of this number to the lines. Points come in their order.
pub(crate) fn note_point(
    alloc: Global,
    sweep: &Sweep,
    lines: &mut Vec<Line>,
    number: usize,
    point: &Point,
) -> Result<(), AllocError> {
    let place = number % last_values(sweep).max(1);
    if has_lines_of_classes(sweep) {
        note_classes(alloc, lines, place, point)
    } else {
        note_combination(alloc, sweep, lines, place, point)
    }
}
