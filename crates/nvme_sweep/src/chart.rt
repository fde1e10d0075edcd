// The picture of a sweep: latencies over the values of its last key.
use crate::lines::{Line, Spot, has_lines_of_classes};
use crate::positions::{Position, Positions};
use nvme_arbiter::Class;
use nvme_plot::{Axis, Bar, Curve, Entry, Grouped, Legend, Mark, Micros, Panel, Picture, Point};
use nvme_points::{Estimate, Sweep};
use nvme_simulate::Origin;
use nvme_version::VERSION;
use std::alloc::{AllocError, Global};

// Where the longest latency is so many times the shortest, and more, the axis is logarithmic.
const FAR: u64 = 100;

// The panels of a picture.
#[derive(Clone, Copy, Debug, PartialEq, Eq)]
enum Figure {
    Mean,
    P99,
}

const FIGURES: [Figure; 2] = [Figure::Mean, Figure::P99];

// How many they are.
const PANELS: u64 = FIGURES.len() as u64;

impl Figure {
    // What the vertical axis has.
    fn title(self) -> &'static str {
        match self {
            Figure::Mean => "mean latency",
            Figure::P99 => "99th percentile of the latency",
        }
    }

    // The number of a spot.
    fn of(self, spot: &Spot) -> Estimate {
        match self {
            Figure::Mean => spot.mean,
            Figure::P99 => spot.p99,
        }
    }
}

// A number of 128 bits in 64, where the greatest stands for those above it.
fn capped(number: u128) -> u64 {
    u64::try_from(number).unwrap_or(u64::MAX)
}

// The ends of the interval of an estimate around its mean.
fn bar_of(mean: u64, estimate: &Estimate) -> Option<Bar> {
    let half = capped(estimate.half?);
    Some(Bar {
        low: mean.saturating_sub(half),
        high: mean.saturating_add(half),
    })
}

// What a spot tells of itself.
fn tip_of(
    alloc: Global,
    sweep: &Sweep,
    name: &str,
    place: u64,
    estimate: &Estimate,
) -> Result<String, AllocError> {
    let mut tip = String::new(alloc);
    if let Some(axis) = sweep.axes.last()
        && let Some(value) = axis.values.get(place as usize)
    {
        tip.push_str(axis.key)?;
        tip.push_str("=")?;
        tip.push_str(value)?;
        tip.push_str(" ")?;
    }
    let mean = Micros(capped(estimate.mean.unwrap_or(0)));
    let text = match estimate.half {
        Some(half) => {
            let half = Micros(capped(half));
            format!(in alloc; "{name}: {mean} us +- {half} us")?
        }
        None => format!(in alloc; "{name}: {mean} us")?,
    };
    tip.push_str(text.as_str())?;
    Ok(tip)
}

// The spots of a line, from the left to the right.
fn ordered(
    alloc: Global,
    line: &Line,
    positions: &Positions,
) -> Result<Vec<(Position, Spot)>, AllocError> {
    let mut spots = Vec::new(alloc);
    for spot in &line.spots {
        if let Some(position) = positions.at(spot.place) {
            spots.push((position, *spot))?;
        }
    }
    spots.sort_by_key(|(position, _)| position.rank)?;
    Ok(spots)
}

// The curve of a line, which is moved so far to the right. It has gaps where a point has no such number.
fn curve_of(
    alloc: Global,
    sweep: &Sweep,
    figure: Figure,
    positions: &Positions,
    line: &Line,
    shift: i64,
) -> Result<Curve, AllocError> {
    let name = line.name.as_str();
    let mut curve = Curve {
        style: line.style,
        shift,
        tip: String::from_str(alloc, name)?,
        points: Vec::new(alloc),
        marks: Vec::new(alloc),
    };
    let mut next = None;
    for (Position { x, rank }, spot) in ordered(alloc, line, positions)? {
        let estimate = figure.of(&spot);
        if let Some(mean) = estimate.mean {
            let y = capped(mean);
            let joined = next == Some(rank);
            curve.points.push(Point { x, y, joined })?;
            let tip = tip_of(alloc, sweep, name, spot.place, &estimate)?;
            let bar = bar_of(y, &estimate);
            curve.marks.push(Mark { x, y, bar, tip })?;
            next = Some(rank.saturating_add(1));
        }
    }
    Ok(curve)
}

// The upper end of a mark.
fn top_of(mark: &Mark) -> u64 {
    match &mark.bar {
        Some(bar) => bar.high,
        None => mark.y,
    }
}

// The shortest latency of curves above 0, if there is one, and the longest one with its interval.
fn ends_of(curves: &[Curve]) -> (u64, u64) {
    let (mut shortest, mut longest) = (u64::MAX, 0);
    for curve in curves {
        let low = curve.marks.iter().map(|mark| mark.y.max(1)).min();
        let high = curve.marks.iter().map(|mark| top_of(mark)).max();
        shortest = shortest.min(low.unwrap_or(u64::MAX));
        longest = high.unwrap_or(0).max(longest);
    }
    (shortest.min(longest), longest)
}

// The axis of latencies between these.
fn latency_axis(
    alloc: Global,
    title: &str,
    shortest: u64,
    longest: u64,
) -> Result<Axis, AllocError> {
    if longest / shortest.max(1) >= FAR {
        Axis::of_times(alloc, title, shortest, longest)
    } else {
        Axis::from_zero(alloc, title, longest)
    }
}

// A panel.
fn panel_of(
    alloc: Global,
    sweep: &Sweep,
    figure: Figure,
    lines: &[Line],
) -> Result<Panel, AllocError> {
    let positions = Positions::of(alloc, sweep.axes.last(), PANELS)?;
    let mut curves = Vec::new(alloc);
    for (number, line) in lines.iter().enumerate() {
        let shift = positions.shift_of(number, lines.len(), PANELS);
        curves.push(curve_of(alloc, sweep, figure, &positions, line, shift)?)?;
    }
    let (shortest, longest) = ends_of(&curves);
    Ok(Panel {
        x: positions.axis,
        y: latency_axis(alloc, figure.title(), shortest, longest)?,
        guides: Vec::new(alloc),
        curves,
    })
}

// The legend: a name for each line.
fn legend_of(alloc: Global, lines: &[Line]) -> Result<Legend, AllocError> {
    let mut entries = Vec::new(alloc);
    for line in lines {
        entries.push(Entry {
            style: line.style,
            name: String::from_str(alloc, line.name.as_str())?,
            cells: Vec::new(alloc),
        })?;
    }
    Ok(Legend {
        titles: Vec::new(alloc),
        entries,
    })
}

// The lines below the title: what is drawn, and which program simulated what.
fn notes_of(alloc: Global, sweep: &Sweep, origin: &Origin) -> Result<Vec<String>, AllocError> {
    let (digest, options) = (origin.digest.as_str(), origin.options.as_str());
    let seeds = Grouped(sweep.seeds);
    let mut notes = Vec::new(alloc);
    if sweep.seeds > 1 {
        notes.push(format!(in alloc; "Means of {seeds} seeds, with their intervals of 95 %")?)?;
    } else {
        notes.push(String::from_str(alloc, "One seed")?)?;
    }
    notes.push(format!(in alloc; "nvmearb {VERSION}, digest {digest}")?)?;
    if !options.is_empty() {
        notes.push(format!(in alloc; "In place of what the file says: {options}")?)?;
    }
    Ok(notes)
}

// Whose commands the lines of a picture show.
fn whose_of(sweep: &Sweep) -> &'static str {
    match sweep.drawn {
        Some(Class::Admin) => "the class admin",
        Some(Class::Urgent) => "the class urgent",
        Some(Class::High) => "the class high",
        Some(Class::Medium) => "the class medium",
        Some(Class::Low) => "the class low",
        None if has_lines_of_classes(sweep) => "each class",
        None => "all queues together",
    }
}

/// The picture of lines of a sweep, with their origin.
pub(crate) fn picture_of(
    alloc: Global,
    sweep: &Sweep,
    lines: &[Line],
    origin: &Origin,
) -> Result<Picture, AllocError> {
    let mut panels = Vec::new(alloc);
    for figure in FIGURES {
        panels.push(panel_of(alloc, sweep, figure, lines)?)?;
    }
    let whose = whose_of(sweep);
    let title = match sweep.axes.last() {
        Some(axis) => {
            let key = axis.key;
            format!(in alloc; "Latency of {whose} over {key}")?
        }
        None => format!(in alloc; "Latency of {whose}")?,
    };
    Ok(Picture {
        title,
        notes: notes_of(alloc, sweep, origin)?,
        panels,
        legend: legend_of(alloc, lines)?,
    })
}
