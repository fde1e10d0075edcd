// The picture of a short trace: a bar for each pick.
use super::Picture;
use super::colours::{INK, ROUND};
use super::frame::{
    numbers_in, put_change, put_change_mark, put_colours, put_mark, put_meaning, put_nothing,
    put_title, width_of,
};
use super::names::Picks;
use nvme_plot::{
    Grouped, Stand, put_begin, put_end, put_path_line, put_text, put_text_line, stride_of,
};
use nvme_terms::count_of;
use std::io::{self, Write};

// Measures of the picture, in pixels.
const LEFT: u64 = 120;

const TOP: u64 = 96;

const COLUMNS: u64 = 1_200;

const WIDE: u64 = 24;

const LEAST: u64 = 800;

// The least width from one mark of a round to the next.
const APART: u64 = 12;

// The measures of a row, in pixels.
#[derive(Clone, Copy)]
struct Measures {
    // From a row to the next.
    row: u64,
    // The highest bar.
    bar: u64,
    // Whether the row has room for a scale.
    scale: bool,
}

// The measures of so many rows. Many are lower.
fn measures_of(rows: u64) -> Measures {
    let (row, bar, scale) = match rows {
        0..=17 => (44, 36, true),
        18..=33 => (26, 22, false),
        _ => (18, 15, false),
    };
    Measures { row, bar, scale }
}

// Chooses marks, or numbers, from left to right: those that are far enough from the last one.
#[derive(Clone, Copy)]
struct Chooser {
    // The least from one to the next, in pixels.
    apart: u64,
    // Where the last one is, in pixels.
    last: Option<u64>,
}

impl Chooser {
    // Chooses those that are so far apart.
    fn of(apart: u64) -> Chooser {
        Chooser { apart, last: None }
    }

    // Whether the next one, at x, is chosen.
    fn takes(&mut self, x: u64) -> bool {
        let apart = self.apart;
        let takes = self.last.is_none_or(|last| x >= last.saturating_add(apart));
        if takes {
            self.last = Some(x);
        }
        takes
    }
}

// Which starts of rounds have a mark.
#[derive(Clone, Copy, Debug, PartialEq, Eq)]
enum Rounds {
    // There are none.
    Absent,
    All,
    // All but some that would be too close, at most half of them.
    Most,
    // None, since more would be too close.
    TooMany,
}

// The most commands of a bar, at least 1.
fn most_of(picture: &Picture) -> u64 {
    let mut most = 1;
    for window in &picture.series.all {
        for commands in &window.rows {
            most = most.max(*commands);
        }
    }
    most
}

// A picture with its measures, in pixels.
#[derive(Clone, Copy)]
struct Bars<'a> {
    picture: &'a Picture,
    // Those of a row.
    row: Measures,
    // The width of a column.
    column: u64,
    // The right edge of the columns, and the lower edge of the rows.
    right: u64,
    bottom: u64,
    // The most commands of a bar, at least 1.
    most: u64,
}

impl<'a> Bars<'a> {
    // The bars of a picture.
    fn of(picture: &'a Picture) -> Bars<'a> {
        let (columns, rows) = (picture.series.all.len() as u64, picture.row_count());
        let column = (COLUMNS / columns.max(1)).max(1).min(WIDE);
        let row = measures_of(rows);
        Bars {
            picture,
            row,
            column,
            right: LEFT.saturating_add(column.saturating_mul(columns)),
            bottom: TOP.saturating_add(row.row.saturating_mul(rows)),
            most: most_of(picture),
        }
    }

    // The left edge of a column.
    fn left_of(&self, at: usize) -> u64 {
        LEFT.saturating_add(self.column.saturating_mul(at as u64))
    }

    // Which starts of rounds have a mark.
    fn rounds(&self) -> Rounds {
        let (mut rounds, mut marks) = (0u64, 0u64);
        let mut chooser = Chooser::of(APART);
        for (at, window) in self.picture.series.all.iter().enumerate() {
            if window.fresh {
                rounds = rounds.saturating_add(1);
                if chooser.takes(self.left_of(at)) {
                    marks = marks.saturating_add(1);
                }
            }
        }
        if rounds == 0 {
            Rounds::Absent
        } else if marks == rounds {
            Rounds::All
        } else if marks.saturating_mul(2) >= rounds {
            Rounds::Most
        } else {
            Rounds::TooMany
        }
    }

    // Writes the bars of a row, which ends at y.
    fn put_bars<W: Write>(&self, row: usize, y: u64, writer: &mut W) -> io::Result<()> {
        let (width, name) = (self.column, self.picture.name_of(row));
        let bar = if width > 2 { width - 1 } else { width };
        for (at, window) in self.picture.series.all.iter().enumerate() {
            let commands = window.rows.get(row).copied().unwrap_or(0);
            if commands > 0 {
                let high = commands.saturating_mul(self.row.bar) / self.most.max(1);
                let (x, high) = (self.left_of(at), high.max(2));
                let top = y.saturating_sub(high);
                let (picks, commands) = (Picks::of(window), count_of(commands, "command"));
                writeln!(
                    writer,
                    "<rect x=\"{x}\" y=\"{top}\" width=\"{bar}\" height=\"{high}\"><title>{picks}: {name}, {commands}</title></rect>"
                )?;
            }
        }
        Ok(())
    }

    // Writes the scale of a row, which ends at y.
    fn put_scale<W: Write>(&self, y: u64, writer: &mut W) -> io::Result<()> {
        let (x, high) = (LEFT - 6, y.saturating_sub(self.row.bar.saturating_sub(8)));
        writer.write_all(b"<g font-size=\"9\" text-anchor=\"end\">")?;
        put_text(x, high, Stand::Begins, self.most, writer)?;
        put_text(x, y, Stand::Begins, 0, writer)?;
        writer.write_all(b"</g>\n")
    }

    // Writes a row, which ends at y and is the nth of its class.
    fn put_row<W: Write>(&self, row: usize, nth: usize, y: u64, writer: &mut W) -> io::Result<()> {
        let (fill, right) = (self.picture.colour_of(row, nth), self.right);
        let text = y.saturating_sub(self.row.bar.saturating_sub(9) / 2);
        put_text_line(8, text, Stand::Begins, self.picture.name_of(row), writer)?;
        write!(writer, "<g fill=\"{fill}\">")?;
        let steps = format_args!("M{LEFT} {y}H{right}");
        put_path_line(steps, "stroke=\"#cccccc\"", writer)?;
        self.put_bars(row, y, writer)?;
        writer.write_all(b"</g>\n")?;
        if self.row.scale {
            self.put_scale(y, writer)?;
        }
        Ok(())
    }

    // Writes the rows.
    fn put_rows<W: Write>(&self, writer: &mut W) -> io::Result<()> {
        let (mut y, mut nth) = (TOP, 0usize);
        for (at, row) in self.picture.rows.iter().enumerate() {
            if row.seen {
                y = y.saturating_add(self.row.row);
                self.put_row(at, nth, y, writer)?;
                // (the admin queue has a class of its own)
                nth = if at == 0 { 0 } else { nth.saturating_add(1) };
            }
        }
        Ok(())
    }

    // Writes the marks: where a round starts, and where settings change. A change after the last pick is at the end.
    fn put_marks<W: Write>(&self, rounds: Rounds, writer: &mut W) -> io::Result<()> {
        let (mut chooser, bottom) = (Chooser::of(APART), self.bottom);
        for (at, window) in self.picture.series.all.iter().enumerate() {
            let x = self.left_of(at);
            if window.fresh && rounds != Rounds::TooMany && chooser.takes(x) {
                put_path_line(format_args!("M{x} 84V{bottom}"), ROUND, writer)?;
            }
            if window.change.is_some() {
                put_change(x, bottom, writer)?;
            }
        }
        if self.picture.set {
            put_change(self.right, bottom, writer)?;
        }
        Ok(())
    }

    // Writes round numbers of picks below their columns, and what they are.
    fn put_numbers<W: Write>(&self, writer: &mut W) -> io::Result<()> {
        let (first, last) = self.picture.ends();
        let most = numbers_in(self.right.saturating_sub(LEFT), last);
        let stride = stride_of(last.saturating_sub(first), most).max(1);
        let mut chooser = Chooser::of(width_of(last));
        let y = self.bottom.saturating_add(16);
        for (at, window) in self.picture.series.all.iter().enumerate() {
            let number = (window.last / stride).saturating_mul(stride);
            let x = self.left_of(at).saturating_add(self.column / 2);
            if number >= window.first.max(1) && chooser.takes(x) {
                put_text_line(x, y, Stand::Centred, Grouped(number), writer)?;
            }
        }
        put_text_line(LEFT, y.saturating_add(18), Stand::Begins, "picks", writer)?;
        put_text_line(LEFT, 88, Stand::Ends, "commands", writer)
    }

    // Writes what a bar is.
    fn put_meaning<W: Write>(&self, writer: &mut W) -> io::Result<()> {
        let (picture, most) = (self.picture, self.most);
        let step = picture.series.step;
        if picture.series.all.is_empty() {
            return put_nothing(picture, writer);
        }
        if step == 1 {
            let meaning = format_args!(
                "A bar is one pick, as high as its number of commands; the highest has {most}."
            );
            return put_meaning(picture, meaning, writer);
        }
        let meaning = format_args!(
            "A bar sums up {step} picks in a row, as high as their number of commands of its queue; the highest has {most}."
        );
        put_meaning(picture, meaning, writer)
    }

    // Writes the legend: the colours of the classes and the marks that occur.
    fn put_legend<W: Write>(&self, rounds: Rounds, writer: &mut W) -> io::Result<()> {
        let x = put_colours(self.picture, writer)?;
        let x = put_change_mark(x, self.picture, writer)?;
        let text = match rounds {
            Rounds::Absent => return Ok(()),
            Rounds::All => "a round starts",
            Rounds::Most => "a round starts (some left out)",
            Rounds::TooMany => "rounds are too close to mark",
        };
        put_mark(x, ROUND, text, writer)?;
        Ok(())
    }
}

/// Writes the picture of a short trace.
pub fn put_bars_picture<W: Write>(picture: &Picture, writer: &mut W) -> io::Result<()> {
    let (bars, (_, last)) = (Bars::of(picture), picture.ends());
    let margin = (width_of(last) / 2).saturating_add(8).max(40);
    let width = bars.right.saturating_add(margin).max(LEAST);
    let height = bars.bottom.saturating_add(46);
    let rounds = bars.rounds();
    put_begin(width, height, Some(INK), writer)?;
    put_title(picture, writer)?;
    bars.put_meaning(writer)?;
    bars.put_legend(rounds, writer)?;
    bars.put_marks(rounds, writer)?;
    bars.put_rows(writer)?;
    bars.put_numbers(writer)?;
    put_end(writer)
}
