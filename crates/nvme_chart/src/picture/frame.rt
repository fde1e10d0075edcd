// What stands around bars and curves.
use super::Picture;
use super::colours::{CHANGE, colour_of_class};
use nvme_plot::{Stand, put_path, put_text_line};
use nvme_stats::Heading;
use nvme_terms::{CLASSES, SettingsInWords, class_name};
use std::fmt::Display;
use std::io::{self, Write};

// The most that a character of a number, and one of another text, has of the width, in pixels.
const DIGIT: u64 = 8;

const LETTER: u64 = 7;

// The least from one number of an axis to the next, in pixels.
const GAP: u64 = 12;

/// The most that a number with its commas has of the width, in pixels.
pub fn width_of(number: u64) -> u64 {
    let behind = u64::from(number.checked_ilog10().unwrap_or(0));
    let characters = behind.saturating_add(behind / 3).saturating_add(1);
    characters.saturating_mul(DIGIT)
}

/// How many numbers up to the last one have room along an axis of this width in pixels, at least 1.
pub fn numbers_in(width: u64, last: u64) -> u64 {
    (width / width_of(last).saturating_add(GAP).max(1)).max(1)
}

// Writes the line of what a picture means.
fn put_meaning_line<T: Display + Drop, W: Write>(meaning: T, writer: &mut W) -> io::Result<()> {
    put_text_line(8, 40, Stand::Begins, meaning, writer)
}

/// Writes what a picture means, and what it leaves out.
pub fn put_meaning<T: Display + Drop, W: Write>(
    picture: &Picture,
    meaning: T,
    writer: &mut W,
) -> io::Result<()> {
    if picture.style.admin {
        return put_meaning_line(meaning, writer);
    }
    put_meaning_line(
        format_args!("{meaning} The admin queue is left out."),
        writer,
    )
}

/// Writes why a picture has no pick, in place of what it means.
pub fn put_nothing<W: Write>(picture: &Picture, writer: &mut W) -> io::Result<()> {
    let Some(last) = picture.last_before() else {
        return put_meaning_line("There is no pick to draw.", writer);
    };
    let first = picture.part.selection.first;
    put_meaning_line(
        format_args!("--from {first} is behind the last pick, {last}"),
        writer,
    )
}

/// Writes the title: how many picks and commands there are, and under which settings.
pub fn put_title<W: Write>(picture: &Picture, writer: &mut W) -> io::Result<()> {
    let heading = Heading {
        mechanism: picture.mechanism,
        picks: picture.picks,
        commands: picture.commands,
    };
    let settings = SettingsInWords {
        mechanism: picture.mechanism,
        settings: picture.begun,
    };
    let when = if picture.has_change() {
        "at first "
    } else {
        ""
    };
    let title = format_args!("{heading}; {when}{settings}");
    put_text_line(8, 22, Stand::Sized(14), title, writer)
}

/// The line of the legend.
pub const LEGEND: u64 = 60;

/// Writes the colours of the classes that occur, in the line of the legend. The answer is where its next entry begins.
pub fn put_colours<W: Write>(picture: &Picture, writer: &mut W) -> io::Result<u64> {
    let (mut x, top) = (8u64, LEGEND - 10);
    for class in CLASSES {
        if picture.has_class(class) {
            let fill = colour_of_class(class);
            write!(
                writer,
                "<rect x=\"{x}\" y=\"{top}\" width=\"12\" height=\"12\" fill=\"{fill}\"/>"
            )?;
            let (text, name) = (x.saturating_add(16), class_name(class));
            put_text_line(text, LEGEND, Stand::Begins, name, writer)?;
            x = x.saturating_add(80);
        }
    }
    Ok(x)
}

/// Writes what a vertical mark of these strokes means, in the line of the legend, at x. The answer is where its next
/// entry begins.
pub fn put_mark<W: Write>(x: u64, strokes: &str, text: &str, writer: &mut W) -> io::Result<u64> {
    let (mark, left) = (x.saturating_add(4), x.saturating_add(12));
    let (top, low) = (LEGEND - 12, LEGEND + 4);
    put_path(format_args!("M{mark} {top}V{low}"), strokes, writer)?;
    put_text_line(left, LEGEND, Stand::Begins, text, writer)?;
    let width = LETTER.saturating_mul(text.len() as u64);
    Ok(left.saturating_add(width).saturating_add(16))
}

/// Writes what the mark of a change means, in the line of the legend, at x, where the picture has one. The answer is
/// where its next entry begins.
pub fn put_change_mark<W: Write>(x: u64, picture: &Picture, writer: &mut W) -> io::Result<u64> {
    if picture.has_change() {
        put_mark(x, CHANGE, "settings change", writer)
    } else {
        Ok(x)
    }
}

/// Writes the mark of a change of the settings at x, down to a lower edge.
pub fn put_change<W: Write>(x: u64, bottom: u64, writer: &mut W) -> io::Result<()> {
    writeln!(
        writer,
        "<path d=\"M{x} 72V{bottom}\" {CHANGE}><title>settings change</title></path>"
    )
}
