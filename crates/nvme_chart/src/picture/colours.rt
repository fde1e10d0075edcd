// The colours of classes and queues. Dashes are a second sign.
use nvme_arbiter::Class;
use nvme_plot::{BLACK, BLUE, GREEN, ORANGE, SKY, VERMILION};

/// The colour of texts, on a white ground.
pub const INK: &str = "#222222";

/// The strokes of the marks where settings change.
pub const CHANGE: &str = "stroke=\"#cc79a7\" stroke-width=\"2\"";

/// The strokes of the marks where a round starts.
pub const ROUND: &str = "stroke=\"#999999\" stroke-dasharray=\"2 3\"";

/// How many curves of a class differ by their dashes. Those behind them are darker too.
pub const DASHES: usize = 5;

/// The colour of a class.
pub fn colour_of_class(class: Class) -> &'static str {
    match class {
        Class::Admin => "#555555",
        Class::Urgent => VERMILION,
        Class::High => ORANGE,
        Class::Medium => GREEN,
        Class::Low => BLUE,
    }
}

/// The darker colour of a class.
pub fn darker_of_class(class: Class) -> &'static str {
    match class {
        Class::Admin => "#222222",
        Class::Urgent => "#8a3d00",
        Class::High => "#946600",
        Class::Medium => "#005a41",
        Class::Low => "#003f63",
    }
}

/// The colour of the nth I/O queue, from 0 on, under round robin, which has no classes.
pub fn colour_of_queue(nth: usize) -> &'static str {
    match nth % 6 {
        0 => BLUE,
        1 => ORANGE,
        2 => GREEN,
        3 => VERMILION,
        4 => SKY,
        _ => BLACK,
    }
}

/// The dashes of the nth curve, from 0 on.
pub fn dashes_of(nth: usize) -> &'static str {
    match nth % DASHES {
        0 => "none",
        1 => "8 4",
        2 => "2 3",
        3 => "9 3 2 3",
        _ => "9 3 2 3 2 3",
    }
}
