// Colours of Okabe and Ito, which colour-blind readers tell apart, and the strokes of curves.
use crate::svg::Stroke;

pub const BLACK: &str = "#000000";

pub const BLUE: &str = "#0072b2";

pub const GREEN: &str = "#009e73";

pub const ORANGE: &str = "#e69f00";

pub const PURPLE: &str = "#cc79a7";

pub const SKY: &str = "#56b4e9";

pub const VERMILION: &str = "#d55e00";

/// In place of their yellow, which is pale on white.
pub const GREY: &str = "#7f7f7f";

/// How many curves differ by their colours and dashes.
pub const LINES: usize = 8;

// The colours of curves, and their dashes, by which they differ without colours.
const LOOKS: [(&str, &str); LINES] = [
    (BLUE, "none"),
    (VERMILION, "9 4"),
    (GREEN, "2 3"),
    (BLACK, "9 3 2 3"),
    (PURPLE, "16 4"),
    (SKY, "5 2"),
    (ORANGE, "9 3 2 3 2 3"),
    (GREY, "1 4"),
];

/// The stroke of a curve of this style.
pub fn stroke_of(style: usize) -> Stroke {
    let (colour, dashes) = LOOKS[style % LINES];
    Stroke {
        colour,
        width: 2,
        dashes,
    }
}
