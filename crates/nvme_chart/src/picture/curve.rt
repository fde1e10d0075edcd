// The curves of a picture: what each is of, and how it looks.
use super::Picture;
use super::colours::{DASHES, colour_of_class, darker_of_class, dashes_of};
use super::names::{Name, Share};
use arrayvec::ArrayVec;
use nvme_arbiter::{Class, Mechanism};
use nvme_plot::Stroke;
use nvme_stats::{IO_QUEUES, Window, class_of_lane, queue_of_lane, share};
use nvme_terms::CLASSES;

/// The most curves: one of each queue.
pub const CURVES: usize = 1 + IO_QUEUES;

// The most rows of I/O queues that have curves of their own beside classes.
const ROWS: u64 = 8;

/// A curve of a row, or of all rows of a class.
#[derive(Clone, Copy, Default)]
pub struct Curve {
    // The row, where it is of one.
    row: Option<usize>,
    /// The class.
    pub class: Class,
    /// Which of the picture's curves it is, from 0 on.
    pub nth: usize,
    // Which of those of its class it is, from 0 on.
    nth_of_class: usize,
    /// Whether it is a thin one of many queues.
    pub is_thin: bool,
    /// The number of the first pick at which a row of it lives, or 0.
    pub begin: u64,
    // The number of the last such pick, or 0.
    end: u64,
}

/// The curves of a picture, in the order in which they are drawn.
pub type Curves = ArrayVec<Curve, CURVES>;

impl Curve {
    // The nth curve of a picture, of all rows of a class.
    fn of_class(picture: &Picture, class: Class, nth: usize) -> Curve {
        let (mut begin, mut end) = (u64::MAX, 0u64);
        for (at, row) in picture.rows.iter().enumerate() {
            if row.begin > 0 && class_of_lane(at) == class {
                begin = begin.min(row.begin);
                end = end.max(row.end);
            }
        }
        Curve {
            class,
            nth,
            begin: if end == 0 { 0 } else { begin },
            end,
            ..Curve::default()
        }
    }

    /// Whether it goes through a window: it lives at a pick of it, or at one before and one behind it.
    pub fn goes_through(&self, window: &Window) -> bool {
        self.begin > 0 && window.first <= self.end && self.begin <= window.last
    }

    /// Its commands in a window.
    pub fn commands(&self, window: &Window) -> u64 {
        if let Some(row) = self.row {
            return window.rows.get(row).copied().unwrap_or(0);
        }
        let mut sum = 0u64;
        for (row, commands) in window.rows.iter().enumerate() {
            if class_of_lane(row) == self.class {
                sum = sum.saturating_add(*commands);
            }
        }
        sum
    }

    /// Its share of the commands of a window, in hundredths of a percent.
    pub fn share(&self, window: &Window) -> u64 {
        share(self.commands(window), window.commands).min(10_000) as u64
    }

    /// Its share in the commands of all windows.
    pub fn share_in_all(&self, picture: &Picture) -> Share {
        let (mut part, mut whole) = (0u64, 0u64);
        for window in &picture.series.all {
            part = part.saturating_add(self.commands(window));
            whole = whole.saturating_add(window.commands);
        }
        Share { part, whole }
    }

    /// The colour.
    pub fn colour(&self, picture: &Picture) -> &'static str {
        let is_darker = picture.mechanism == Mechanism::Weighted && self.nth_of_class >= DASHES;
        match self.row {
            Some(row) if !is_darker => picture.colour_of(row, self.nth_of_class),
            Some(_) => darker_of_class(self.class),
            None => colour_of_class(self.class),
        }
    }

    /// The stroke.
    pub fn stroke(&self, picture: &Picture) -> Stroke {
        Stroke {
            colour: self.colour(picture),
            width: if self.is_thin { 1 } else { 2 },
            dashes: dashes_of(self.nth),
        }
    }

    /// The name.
    pub fn name(&self, picture: &Picture) -> Name {
        match self.row {
            Some(row) if self.is_thin => Name::Queue(queue_of_lane(row).qid),
            Some(row) => picture.name_of(row),
            None => Name::Class(self.class),
        }
    }
}

// A curve for each class that was seen.
fn curves_of_classes(picture: &Picture) -> Curves {
    let mut curves = ArrayVec::new();
    for class in CLASSES {
        if picture.has_class(class) {
            let curve = Curve::of_class(picture, class, curves.len());
            let _fits = curves.try_push(curve);
        }
    }
    curves
}

// A curve for each row that was seen, thin or not.
fn curves_of_rows(picture: &Picture, is_thin: bool) -> Curves {
    let mut curves = ArrayVec::new();
    let (mut class, mut nth_of_class) = (Class::Admin, 0usize);
    for (at, row) in picture.rows.iter().enumerate() {
        if !row.seen {
            continue;
        }
        if class_of_lane(at) != class {
            class = class_of_lane(at);
            nth_of_class = 0;
        }
        let curve = Curve {
            row: Some(at),
            class,
            nth: curves.len(),
            nth_of_class,
            is_thin,
            begin: row.begin,
            end: row.end,
        };
        let _fits = curves.try_push(curve);
        nth_of_class = nth_of_class.saturating_add(1);
    }
    curves
}

/// The curves of a picture. Where the rows of I/O queues are few, there is one of each. Where they are many, there is one
/// of each class, or under round robin a thin one of each row.
pub fn curves_of(picture: &Picture) -> Curves {
    let of_admin = picture.rows.first().is_some_and(|row| row.seen);
    let most = if of_admin { ROWS + 1 } else { ROWS };
    let are_many = picture.row_count() > most;
    match picture.mechanism {
        Mechanism::Weighted if are_many => curves_of_classes(picture),
        _ => curves_of_rows(picture, are_many),
    }
}
