// Draws a trace.
ghost use Rattle.std.specs.Prelude.{◌≡◌, [], ◌∷◌, OnOk, IfOk, IfErr, IfSome};
ghost use Rattle.nvme_arbiter.specs.History.{History, Picked, Changed};
ghost use Rattle.nvme_trace.specs.declared.basis.Basis.TheVariants.{Specification};
ghost use Rattle.nvme_trace.specs.declared.records.Head.{Head};
ghost use Rattle.nvme_trace.specs.declared.fault.TraceError.TheVariants as fault;
ghost use Rattle.nvme_stats.specs.Chosen.{last_before};
ghost use Rattle.nvme_stats.specs.declared.selection.Selection.{Selection};
ghost use Rattle.nvme_trace.specs.Shown.{IsShownBy, IsReadFaultBy};
ghost use Rattle.nvme_chart.specs.Pictured.{IsPictured, IsPicturedPart};

mod backlog;
mod bars;
mod colours;
mod curve;
mod curves;
mod frame;
mod heights;
mod names;
mod plane;

use crate::rows::{row_of, row_of_pick};
use backlog::{Backlog, NO_BACKLOG};
use bars::put_bars_picture;
use colours::{colour_of_class, colour_of_queue};
use curves::put_curves_picture;
use names::Name;
use nvme_arbiter::{Class, Mechanism, Pick, Seen, Settings};
use nvme_output::WriteFault;
use nvme_stats::{LANES, Part, Selection, Series, Watch, class_of_lane, more, queue_of_lane, show};
use nvme_trace::{Head, Trace, TraceError, TraceEvent};
use std::alloc::Global;
use std::io::{Read, Write};

// The most windows of a picture while its trace is read: no fewer than the bars that it may have.
const WINDOWS: usize = 512;

// From so many picks on a picture has curves: each of fewer bars has 4 pixels of its width.
const LONG: u64 = 300;

// The most windows of curves.
const POINTS: usize = 64;

// How many picks a window has at least where there are more than this many windows: shares of fewer picks are jagged.
const STEP: u64 = 32;

const FEW_POINTS: u64 = 20;

// The most places for bars in all rows.
const BARS: u64 = 65_536;

/// What stands for the picks of a picture.
#[derive(Clone, Copy, Debug, PartialEq, Eq)]
pub enum Form {
    /// Bars below 300 picks, and curves from there on.
    ByLength,
    /// Curves.
    Curves,
}

/// How a picture is drawn.
#[derive(Clone, Copy, Debug, PartialEq, Eq)]
pub struct Style {
    /// What stands for the picks.
    pub form: Form,
    /// Whether the picks of the admin queue are drawn.
    pub admin: bool,
}

impl Style {
    /// Bars or curves by the number of picks, with those of the admin queue.
    pub const COMMON: Style = Style {
        form: Form::ByLength,
        admin: true,
    };

    // Whether a queue is drawn.
    fn draws(&self, qid: u16) -> bool {
        qid > 0 || self.admin
    }
}

// What was seen of a row. It lives at a pick that takes from it, or at which it has waiting commands.
#[derive(Clone, Copy)]
struct Row {
    seen: bool,
    // The numbers of the first and of the last pick at which it lives. 0 for none.
    begin: u64,
    end: u64,
}

const UNSEEN: Row = Row {
    seen: false,
    begin: 0,
    end: 0,
};

/// A picture of a trace. With bars it has a row for each queue and class, and a bar for each pick from left to right;
/// with curves it has one of the share of each, window by window. Neither its memory nor its text grows with the trace.
#[derive(Drop)]
pub struct Picture {
    mechanism: Mechanism,
    picks: u64,
    commands: u64,
    // How many of the picks are drawn.
    drawn: u64,
    // The settings at the first pick, and at the next one.
    begun: Settings,
    settings: Settings,
    series: Series,
    rows: [Row; LANES],
    backlog: Backlog,
    style: Style,
    // Whether the settings changed after the latest pick.
    set: bool,
    // Which part of the trace is drawn.
    part: Part,
}

// Notes which rows were seen at a pick of this number, and which of them was picked or had waiting commands.
fn note_rows(
    rows: &mut [Row; LANES],
    mechanism: Mechanism,
    style: Style,
    number: u64,
    seen: &[Seen],
    picked: u16,
) {
    for queue in seen {
        if style.draws(queue.qid)
            && let Some(row) = row_of(mechanism, queue)
            && let Some(row) = rows.get_mut(row)
        {
            row.seen = true;
            if queue.count > 0 || queue.qid == picked {
                row.begin = if row.begin == 0 { number } else { row.begin };
                row.end = number;
            }
        }
    }
}

// Sums up windows until the bars of so many rows have room, or the points of curves.
fn fit(series: &mut Series, curves: bool, rows: u64) {
    if curves {
        let picks = (series.all.len() as u64).saturating_mul(series.step);
        let points = picks.saturating_add(STEP - 1) / STEP;
        series.fit(points.max(FEW_POINTS).min(POINTS as u64));
        series.join_rest();
    } else {
        series.fit(BARS / rows.max(1));
    }
}

impl Picture {
    // A picture with no pick.
    fn new(alloc: Global, head: Head, style: Style) -> Picture
        ensures { IsPictured head [] result }
    {
        Picture {
            mechanism: head.mechanism,
            picks: 0,
            commands: 0,
            drawn: 0,
            begun: head.settings,
            settings: head.settings,
            series: Series::new(alloc, 1, WINDOWS),
            rows: [UNSEEN; LANES],
            backlog: NO_BACKLOG,
            style,
            set: false,
            part: Part {
                selection: Selection::ALL,
                next: 1,
            },
        }
    }

    // Whether the picture has curves.
    fn has_curves(&self) -> bool {
        self.style.form == Form::Curves || self.drawn >= LONG
    }

    // Draws a pick of this number, where its queue is drawn.
    fn draw(&mut self, number: u64, seen: &[Seen], pick: &Pick) -> Result<(), TraceError>
        ensures mechanism { OnOk result (self.new.mechanism ≡ self.old.mechanism) }
        ensures picks { OnOk result (self.new.picks ≡ self.old.picks) }
        ensures commands { OnOk result (self.new.commands ≡ self.old.commands) }
        ensures fault { IfErr result (λ e. e ≡ fault.NoMemory) }
    {
        if !self.style.draws(pick.qid) {
            return Ok(());
        }
        let row = row_of_pick(self.mechanism, seen, pick.qid);
        self.series.note_pick(number, row, pick, self.set)?;
        self.drawn = more(self.drawn, 1);
        self.set = false;
        Ok(())
    }

    // Adds a pick of this number.
    fn note_pick(&mut self, number: u64, seen: &[Seen], pick: &Pick) -> Result<(), TraceError>
        ensures stands { OnOk result ((head : Head) (past : History) → IsPictured head past self.old → IsPictured head (Picked seen.now pick.now ∷ past) self.new) }
        ensures fault { IfErr result (λ e. e ≡ fault.NoMemory) }
    {
        self.draw(number, seen, pick)?;
        let (mechanism, style) = (self.mechanism, self.style);
        note_rows(&mut self.rows, mechanism, style, number, seen, pick.qid);
        let settings = self.settings;
        self.backlog.note_pick(number, seen, &settings);
        self.picks = more(self.picks, 1);
        self.commands = more(self.commands, pick.n);
        Ok(())
    }

    // Takes new settings. Where nothing is drawn yet, the picture begins with them.
    fn note_set(&mut self, settings: Settings)
        ensures { (head : Head) (past : History) → IsPictured head past self.old → IsPictured head (Changed settings ∷ past) self.new }
    {
        self.settings = settings;
        if self.series.all.is_empty() {
            self.begun = settings;
        } else {
            self.set = true;
        }
    }

    // Notes which part of the trace is drawn.
    fn note_part(&mut self, part: Part)
        ensures pictured { (head : Head) (past : History) → IsPictured head past self.old → IsPictured head past self.new }
        ensures part { self.new.part ≡ part }
    {
        self.part = part;
    }

    /// The number of the last pick of the trace, where the first one that was to be drawn is behind it.
    pub fn last_before(&self) -> Option<u64>
        ensures { (selection : Selection) (head : Head) (past : History) → IsPicturedPart selection head past self.now → result ≡ last_before selection past }
    {
        self.part.last_before()
    }

    // The number of rows that were seen.
    fn row_count(&self) -> u64 {
        let mut rows = 0u64;
        for row in &self.rows {
            if row.seen {
                rows = rows.saturating_add(1);
            }
        }
        rows
    }

    // The numbers of the first and the last pick that are drawn, or 0.
    fn ends(&self) -> (u64, u64) {
        match (self.series.all.first(), self.series.all.last()) {
            (Some(first), Some(last)) => (first.first, last.last),
            _ => (0, 0),
        }
    }

    // Whether settings change where the picture shows it.
    fn has_change(&self) -> bool {
        self.set || self.series.all.iter().any(|window| window.change.is_some())
    }

    // Whether a class was seen. Round robin has no classes.
    fn has_class(&self, class: Class) -> bool {
        for (at, row) in self.rows.iter().enumerate() {
            if row.seen && queue_of_lane(at).class == class {
                return self.mechanism == Mechanism::Weighted;
            }
        }
        false
    }

    // The colour of a row, which is the nth of its class: that of the class, or under round robin one of its own.
    fn colour_of(&self, row: usize, nth: usize) -> &'static str {
        match self.mechanism {
            Mechanism::RoundRobin if row > 0 => colour_of_queue(nth),
            _ => colour_of_class(class_of_lane(row)),
        }
    }

    // The name of a row. Under round robin an I/O queue has no class.
    fn name_of(&self, row: usize) -> Name {
        let queue = queue_of_lane(row);
        match self.mechanism {
            Mechanism::RoundRobin if row > 0 => Name::Queue(queue.qid),
            _ => Name::QueueOfClass(queue.qid, queue.class),
        }
    }

    /// Writes the picture as SVG. `WriteFault` where a write failed.
    pub fn write_svg<W: Write>(&self, writer: &mut W) -> Result<(), WriteFault> {
        let written = if self.has_curves() {
            put_curves_picture(self, writer)
        } else {
            put_bars_picture(self, writer)
        };
        written.or(Err(WriteFault))
    }
}

impl Watch for Picture {
    ghost stands = { λ head past picture. IsPictured head past picture };

    fn watch(&mut self, number: u64, event: &TraceEvent) -> Result<(), TraceError> {
        match event {
            TraceEvent::Pick { seen, pick, .. } => self.note_pick(number, seen, pick),
            TraceEvent::Set { settings } => {
                self.note_set(*settings);
                Ok(())
            }
        }
    }

    fn pass(&mut self) {}
}

/// Draws the picks of a selection of a trace. It is read as a stream, and its picks aren't judged. `fresh` may be
/// missing: no round is marked at such a pick. Refused with the first faulty line, a failed read or no memory, as
/// `nvme_trace::check_by` is where the specification alone judges.
pub fn chart<R: Read + Drop>(
    alloc: Global,
    reader: R,
    selection: Selection,
    style: Style,
) -> Result<Picture, TraceError>
    ensures pictured { IfOk result (λ picture. IfSome (R.remaining reader) (λ text. IsShownBy Specification text (λ head past. IsPicturedPart selection head past picture))) }
    ensures fault { IfErr result (λ error. IfSome (R.remaining reader) (λ text. IsReadFaultBy Specification text error)) }
{
    let mut trace = Trace::new(alloc, reader);
    let head = trace.head(alloc)?;
    let mechanism = head.mechanism;
    let mut picture = Picture::new(alloc, head, style);
    let part = show(alloc, &mut trace, mechanism, selection, &mut picture)?;
    picture.note_part(part);
    let (curves, rows) = (picture.has_curves(), picture.row_count());
    fit(&mut picture.series, curves, rows);
    Ok(picture)
}
