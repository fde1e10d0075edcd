// The picture of a long trace: a curve of the share of each queue, or where they are many of each class, window by
// window.
use super::Picture;
use super::colours::{INK, darker_of_class};
use super::curve::{Curve, curves_of};
use super::frame::{LEGEND, put_change, put_change_mark, put_meaning, put_nothing, put_title};
use super::names::{Picks, Share};
use super::plane::{BOTTOM, LEFT, Plane, TOP, WIDTH};
use nvme_arbiter::{Class, Mechanism};
use nvme_plot::{
    Stand, Tenths, put_begin, put_dot, put_end, put_path, put_path_line, put_text, put_text_line,
    put_tip,
};
use nvme_stats::share;
use nvme_terms::count_of;
use std::fmt::Display;
use std::io::{self, Write};

// Where the shares of all commands stand, to the right of the plane, in pixels.
const SIDE: u64 = LEFT + WIDTH + 20;

// The strokes of the lines of shares that the weights say.
const BY_WEIGHT: &str = "stroke-width=\"1\" stroke-dasharray=\"5 5\"";

// How many windows a stretch has at least, for which the weights' shares are drawn.
const STRETCH: u64 = 8;

// The measures of an entry beside the plane, in pixels from its left edge: the length of its line, where its name begins, and
// where its share ends. The line lies so far above the letters' lower edge.
#[derive(Clone, Copy)]
struct Entry {
    line: u64,
    name: u64,
    share: u64,
    above: u64,
}

const LARGE: Entry = Entry {
    line: 32,
    name: 40,
    share: 190,
    above: 4,
};

const SMALL: Entry = Entry {
    line: 20,
    name: 24,
    share: 96,
    above: 3,
};

// Writes an entry beside the plane.
fn put_entry<S: Display + Drop, N: Display + Drop, W: Write>(
    entry: &Entry,
    (x, y): (u64, u64),
    strokes: S,
    name: N,
    share: Share,
    writer: &mut W,
) -> io::Result<()> {
    let (up, long) = (y.saturating_sub(entry.above), entry.line);
    put_path(format_args!("M{x} {up}h{long}"), strokes, writer)?;
    put_text(x.saturating_add(entry.name), y, Stand::Begins, name, writer)?;
    put_text(x.saturating_add(entry.share), y, Stand::Ends, share, writer)
}

// Where the entry of the nth of many curves is: two stand side by side, from top to bottom.
fn place_of_many(nth: u64) -> (u64, u64) {
    let (column, line) = ((nth / 33).min(1) * 105, nth % 33 * 11);
    (SIDE + column, TOP + 10 + line)
}

// The curves of a picture on their plane.
#[derive(Drop)]
struct Drawn<'a> {
    picture: &'a Picture,
    curves: &'a [Curve],
    plane: Plane,
}

impl Drawn<'_> {
    // Writes the entry of a curve.
    fn put_entry_of<W: Write>(
        &self,
        curve: &Curve,
        entry: &Entry,
        at: (u64, u64),
        writer: &mut W,
    ) -> io::Result<()> {
        let (stroke, name) = (curve.stroke(self.picture), curve.name(self.picture));
        let share = curve.share_in_all(self.picture);
        put_entry(entry, at, stroke, name, share, writer)?;
        writer.write_all(b"\n")
    }

    // Writes a curve, from the window in which it begins to the one in which it ends.
    fn put_line<W: Write>(&self, curve: &Curve, writer: &mut W) -> io::Result<()> {
        let stroke = curve.stroke(self.picture);
        write!(writer, "<polyline fill=\"none\" {stroke} points=\"")?;
        for (at, window) in self.picture.series.all.iter().enumerate() {
            if curve.goes_through(window) {
                let (x, y) = self.plane.point(at, window, curve.nth);
                write!(writer, "{x},{y} ")?;
            }
        }
        let (name, share) = (curve.name(self.picture), curve.share_in_all(self.picture));
        writeln!(writer, "\"><title>{name} {share}</title></polyline>")
    }

    // Writes the points of a curve, which aren't seen. They tell of its windows.
    fn put_points<W: Write>(&self, curve: &Curve, writer: &mut W) -> io::Result<()> {
        let name = curve.name(self.picture);
        for (at, window) in self.picture.series.all.iter().enumerate() {
            if curve.goes_through(window) {
                let (x, y) = self.plane.point(at, window, curve.nth);
                let (part, whole) = (curve.commands(window), window.commands);
                let (picks, share) = (Picks::of(window), Share { part, whole });
                let tip = format_args!("{picks}: {name} {share}");
                put_tip(x, y, "r=\"5\" fill-opacity=\"0\"", tip, writer)?;
            }
        }
        Ok(())
    }

    // Whether a curve ends before the picture does.
    fn ends(&self, curve: &Curve) -> bool {
        let last = self.picture.series.all.last();
        curve.begin > 0 && !last.is_some_and(|window| curve.goes_through(window))
    }

    // Writes a dot where a curve ends before the picture does, or has one point alone.
    fn put_last<W: Write>(&self, curve: &Curve, writer: &mut W) -> io::Result<()> {
        let (mut last, mut points) = (None, 0u64);
        for (at, window) in self.picture.series.all.iter().enumerate() {
            if curve.goes_through(window) {
                last = Some(self.plane.point(at, window, curve.nth));
                points = points.saturating_add(1);
            }
        }
        let Some((x, y)) = last else {
            return Ok(());
        };
        if points > 1 && !self.ends(curve) {
            return Ok(());
        }
        let radius = if curve.is_thin { 2 } else { 4 };
        put_dot(x, y, radius, curve.colour(self.picture), writer)?;
        writer.write_all(b"\n")
    }

    // The part that the weights give the level of a curve, and of how much: none unless it is the only curve of the level,
    // and the level waits beside others over a long stretch.
    fn part_by_weight(&self, curve: &Curve) -> Option<Share> {
        let (picture, class) = (self.picture, curve.class);
        let stretch = &picture.backlog.longest;
        let alike = self.curves.iter().filter(|other| other.class == class);
        let (alike, part) = (alike.count(), stretch.weights.of_class(class));
        let is_long = stretch.picks() >= STRETCH.saturating_mul(picture.series.step);
        if picture.mechanism == Mechanism::Weighted && is_long && part > 0 && alike == 1 {
            let whole = stretch.weights.total();
            Some(Share { part, whole })
        } else {
            None
        }
    }

    // Writes a line at the share that the weights give a class, and at y its entry beside the plane.
    fn put_by_weight<W: Write>(
        &self,
        class: Class,
        by_weight: Share,
        y: u64,
        writer: &mut W,
    ) -> io::Result<()> {
        let (plane, stretch) = (&self.plane, &self.picture.backlog.longest);
        let (left, right) = (
            plane.x_of(stretch.first),
            plane.x_of(stretch.last.saturating_add(1)),
        );
        let share = share(by_weight.part, by_weight.whole).min(10_000) as u64;
        let (down, stroke) = (Tenths(plane.down(share)), darker_of_class(class));
        let strokes = format_args!("stroke=\"{stroke}\" {BY_WEIGHT}");
        put_path_line(format_args!("M{left} {down}H{right}"), strokes, writer)?;
        writer.write_all(b"<g font-size=\"10\">")?;
        let (entry, at) = (Entry { above: 3, ..LARGE }, (SIDE, y));
        let strokes = format_args!("stroke=\"{stroke}\" {BY_WEIGHT}");
        put_entry(&entry, at, strokes, "by weight", by_weight, writer)?;
        writer.write_all(b"</g>\n")
    }

    // Writes curves with their points, and beside the plane their shares.
    fn put_few<W: Write>(&self, writer: &mut W) -> io::Result<()> {
        let mut y = TOP + 10;
        for curve in self.curves {
            self.put_line(curve, writer)?;
            self.put_last(curve, writer)?;
            self.put_points(curve, writer)?;
            self.put_entry_of(curve, &LARGE, (SIDE, y), writer)?;
            if let Some(share) = self.part_by_weight(curve) {
                y = y.saturating_add(14);
                self.put_by_weight(curve.class, share, y, writer)?;
            }
            y = y.saturating_add(20);
        }
        Ok(())
    }

    // Writes a thin curve of each of many queues, and beside the plane their shares.
    fn put_many<W: Write>(&self, writer: &mut W) -> io::Result<()> {
        writer.write_all(b"<g font-size=\"10\">\n")?;
        for curve in self.curves {
            self.put_line(curve, writer)?;
            self.put_last(curve, writer)?;
            let at = place_of_many(curve.nth as u64);
            self.put_entry_of(curve, &SMALL, at, writer)?;
        }
        writer.write_all(b"</g>\n")
    }

    // Writes the marks where settings change. A change after the last pick is at the end.
    fn put_changes<W: Write>(&self, writer: &mut W) -> io::Result<()> {
        for window in &self.picture.series.all {
            if let Some(number) = window.change {
                put_change(self.plane.x_of(number), BOTTOM, writer)?;
            }
        }
        if self.picture.set {
            put_change(LEFT + WIDTH, BOTTOM, writer)?;
        }
        Ok(())
    }

    // Writes what a curve is.
    fn put_meaning<W: Write>(&self, writer: &mut W) -> io::Result<()> {
        let picture = self.picture;
        if picture.series.all.is_empty() {
            return put_nothing(picture, writer);
        }
        let picks = count_of(picture.series.step, "pick");
        let meaning = format_args!(
            "A curve is the share of the commands of a window of {picks}. Close curves lie side by side."
        );
        put_meaning(picture, meaning, writer)
    }

    // Writes what a dot means, in the line of the legend, at x, where a curve ends before the picture does.
    fn put_end_mark<W: Write>(&self, x: u64, writer: &mut W) -> io::Result<()> {
        if !self.curves.iter().any(|curve| self.ends(curve)) {
            return Ok(());
        }
        let (middle, text, y) = (x.saturating_add(4), x.saturating_add(12), LEGEND - 4);
        put_dot(middle, y, 4, INK, writer)?;
        put_text_line(text, LEGEND, Stand::Begins, "no more commands", writer)
    }
}

/// Writes the picture of a long trace.
pub fn put_curves_picture<W: Write>(picture: &Picture, writer: &mut W) -> io::Result<()> {
    let curves = curves_of(picture);
    let curves = curves.as_slice();
    let plane = Plane::of(picture, curves);
    let drawn = Drawn {
        picture,
        curves,
        plane,
    };
    put_begin(SIDE + 210, BOTTOM + 56, Some(INK), writer)?;
    put_title(picture, writer)?;
    drawn.put_meaning(writer)?;
    let x = put_change_mark(8, picture, writer)?;
    drawn.put_end_mark(x, writer)?;
    drawn.plane.put_shares(writer)?;
    drawn.plane.put_picks(writer)?;
    drawn.put_changes(writer)?;
    if curves.iter().any(|curve| curve.is_thin) {
        drawn.put_many(writer)?;
    } else {
        drawn.put_few(writer)?;
    }
    put_end(writer)
}
