// The picture of a simulation: of each class, or queue, which share of the commands took longer than each latency.
use crate::groups::{Group, groups_of};
use crate::origin::Origin;
use crate::tails::{LEVELS, Level, Percentile, Reached, percentiles_of, tail_of};
use nvme_latency::{PARTS, Ranked};
use nvme_model::Model;
use nvme_numbers::{Numbers, PickingWords};
use nvme_plot::{
    Axis, Curve, Entry, Grouped, Guide, Legend, Mark, Micros, Panel, Picture, Point, WHOLE,
};
use nvme_version::VERSION;
use std::alloc::{AllocError, Global};

// Where the axis of latencies begins and ends where there is none, in picoseconds.
const NOTHING: u64 = 1_000_000;

/// What a picture tells of a model, beside the latencies.
#[derive(Drop)]
pub(crate) struct Subject {
    groups: Vec<Group>,
    picking: PickingWords,
    seed: u64,
}

// A curve, and what the legend tells of it.
#[derive(Drop)]
struct Drawn {
    curve: Curve,
    entry: Entry,
    commands: usize,
}

// The part of so many commands that some of them are, in parts of `WHOLE`.
fn share_of(count: usize, all: usize) -> u64 {
    let parts = (count as u128).saturating_mul(u128::from(WHOLE));
    let share = parts.checked_div(all as u128).unwrap_or(0);
    u64::try_from(share).unwrap_or(WHOLE)
}

// The share of the commands beyond a percentile, in parts of `WHOLE`.
fn share_beyond(level: &Level) -> u64 {
    (WHOLE / u64::from(PARTS)).saturating_mul(u64::from(level.beyond()))
}

// The corners of a curve: at each latency it falls from the share of the commands that took as long or longer to the share of
// those that took longer. The last one ends the curve, behind which no command is left.
fn points_of(alloc: Global, tail: &[Reached], all: usize) -> Result<Vec<Point>, AllocError> {
    let mut points = Vec::new(alloc);
    for reached in tail {
        let (x, longer) = (reached.time, reached.count.saturating_sub(1));
        let joined = !points.is_empty();
        let y = share_of(reached.count, all);
        points.push(Point { x, y, joined })?;
        if longer > 0 {
            let y = share_of(longer, all);
            points.push(Point { x, y, joined: true })?;
        }
    }
    Ok(points)
}

// The marks of a curve.
fn marks_of(
    alloc: Global,
    name: &str,
    percentiles: &[Percentile],
) -> Result<Vec<Mark>, AllocError> {
    let mut marks = Vec::new(alloc);
    for percentile in percentiles {
        let (level, time) = (percentile.level.name, Micros(percentile.time));
        let tip = format!(in alloc; "{name} {level}: {time} us")?;
        marks.push(Mark {
            x: percentile.time,
            y: share_beyond(&percentile.level),
            bar: None,
            tip,
        })?;
    }
    Ok(marks)
}

// A time in microseconds, or what stands for none.
fn cell_of(alloc: Global, time: Option<u64>) -> Result<String, AllocError> {
    match time {
        Some(time) => {
            let time = Micros(time);
            format!(in alloc; "{time}")
        }
        None => String::from_str(alloc, "-"),
    }
}

// What the legend tells of commands: how many they are, their percentiles, and the longest latency.
fn cells_of(alloc: Global, ranked: &Ranked) -> Result<Vec<String>, AllocError> {
    let mut cells = Vec::new(alloc);
    let commands = Grouped(ranked.count() as u64);
    cells.push(format!(in alloc; "{commands}")?)?;
    for level in LEVELS {
        cells.push(cell_of(alloc, level.time(ranked))?)?;
    }
    cells.push(cell_of(alloc, ranked.longest())?)?;
    Ok(cells)
}

// The curve of some commands.
fn curve_of(alloc: Global, group: &Group, ranked: &Ranked) -> Result<Drawn, AllocError> {
    let (name, style, commands) = (group.name(alloc)?, group.style(), ranked.count());
    let percentiles = percentiles_of(alloc, ranked)?;
    let tail = tail_of(alloc, ranked, &percentiles)?;
    let curve = Curve {
        style,
        shift: 0,
        tip: group.name(alloc)?,
        points: points_of(alloc, &tail, commands)?,
        marks: marks_of(alloc, name.as_str(), &percentiles)?,
    };
    let entry = Entry {
        style,
        name,
        cells: cells_of(alloc, ranked)?,
    };
    Ok(Drawn {
        curve,
        entry,
        commands,
    })
}

// The shortest latency above 0 of a curve.
fn shortest_of(curve: &Curve) -> Option<u64> {
    let mut latencies = curve.points.iter().map(|point| point.x);
    latencies.find(|latency| *latency > 0)
}

// The shortest latency above 0 and the longest one of curves.
fn ends_of(curves: &[Curve]) -> (u64, u64) {
    let mut ends = None;
    for curve in curves {
        if let Some(shortest) = shortest_of(curve)
            && let Some(last) = curve.points.last()
        {
            let (low, high) = ends.unwrap_or((shortest, last.x));
            ends = Some((low.min(shortest), high.max(last.x)));
        }
    }
    ends.unwrap_or((NOTHING, NOTHING))
}

// The percentiles that a curve has a mark for, which lines show, where the largest group has so many commands.
fn guides_of(alloc: Global, most: usize) -> Result<Vec<Guide>, AllocError> {
    let mut guides = Vec::new(alloc);
    for level in LEVELS {
        let at = share_beyond(&level);
        if at >= share_of(1, most) && most > 0 {
            guides.push(Guide {
                at,
                label: level.name,
            })?;
        }
    }
    Ok(guides)
}

// An empty legend, with what stands above its columns.
fn legend_of(alloc: Global) -> Result<Legend, AllocError> {
    let mut titles = Vec::new(alloc);
    for title in ["commands", "p50, us", "p99, us", "p99.9, us", "max, us"] {
        titles.push(title)?;
    }
    Ok(Legend {
        titles,
        entries: Vec::new(alloc),
    })
}

// The lines below the title: how commands were picked, and which program simulated what.
fn notes_of(alloc: Global, subject: &Subject, origin: &Origin) -> Result<Vec<String>, AllocError> {
    let (picking, seed) = (subject.picking, subject.seed);
    let (digest, options) = (origin.digest.as_str(), origin.options.as_str());
    let mut notes = Vec::new(alloc);
    notes.push(format!(in alloc; "{picking}")?)?;
    notes.push(format!(in alloc; "nvmearb {VERSION}, seed {seed}, digest {digest}")?)?;
    if !options.is_empty() {
        notes.push(format!(in alloc; "In place of what the file says: {options}")?)?;
    }
    Ok(notes)
}

// The curves between their axes, where the largest group has so many commands.
fn panel_of(alloc: Global, curves: Vec<Curve>, most: usize) -> Result<Panel, AllocError> {
    let (shortest, longest) = ends_of(&curves);
    let shares = "share of commands that took longer";
    Ok(Panel {
        x: Axis::of_times(alloc, "latency", shortest, longest)?,
        y: Axis::of_shares(alloc, shares, most as u64)?,
        guides: guides_of(alloc, most)?,
        curves,
    })
}

impl Subject {
    /// What a picture tells of a model.
    pub(crate) fn of(alloc: Global, model: &Model) -> Result<Subject, AllocError> {
        Ok(Subject {
            groups: groups_of(alloc, model)?,
            picking: PickingWords {
                mechanism: model.mechanism,
                settings: model.settings,
            },
            seed: model.seed,
        })
    }

    /// The picture of the numbers of a run of that model, with their origin.
    pub(crate) fn picture(
        &self,
        alloc: Global,
        numbers: &Numbers,
        origin: &Origin,
    ) -> Result<Picture, AllocError> {
        let (mut curves, mut legend) = (Vec::new(alloc), legend_of(alloc)?);
        let (mut most, mut all) = (0usize, 0usize);
        for group in &self.groups {
            let ranked = group.ranked(numbers)?;
            let Drawn {
                curve,
                entry,
                commands,
            } = curve_of(alloc, group, &ranked)?;
            curves.push(curve)?;
            legend.entries.push(entry)?;
            most = most.max(commands);
            all = all.saturating_add(commands);
        }
        let (commands, plural) = (Grouped(all as u64), if all == 1 { "" } else { "s" });
        let mut panels = Vec::new(alloc);
        panels.push(panel_of(alloc, curves, most)?)?;
        Ok(Picture {
            title: format!(in alloc; "Latency of {commands} command{plural}")?,
            notes: notes_of(alloc, self, origin)?,
            panels,
            legend,
        })
    }
}
