// What pictures tell of picks and commands in words.
use nvme_arbiter::Class;
use nvme_stats::{Window, share};
use nvme_terms::class_name;
use std::fmt;

/// The name of a row, or of all rows of a class: `high`, `q1`, or `q1 high`.
#[derive(Clone, Copy, Debug, PartialEq, Eq)]
pub enum Name {
    Class(Class),
    Queue(u16),
    QueueOfClass(u16, Class),
}

impl fmt::Display for Name {
    fn fmt<W: fmt::Write>(&self, f: &mut fmt::Formatter<W>) -> fmt::Result {
        match self {
            Name::Class(class) => f.write_str(class_name(*class)),
            Name::Queue(qid) => write!(f, "q{qid}"),
            Name::QueueOfClass(qid, class) => {
                let class = class_name(*class);
                write!(f, "q{qid} {class}")
            }
        }
    }
}

/// The picks of a window: `pick 3`, or `picks 3 to 5`.
#[derive(Clone, Copy, Debug, PartialEq, Eq)]
pub struct Picks {
    first: u64,
    last: u64,
}

impl Picks {
    /// Those of a window.
    pub fn of(window: &Window) -> Picks {
        Picks {
            first: window.first,
            last: window.last,
        }
    }
}

impl fmt::Display for Picks {
    fn fmt<W: fmt::Write>(&self, f: &mut fmt::Formatter<W>) -> fmt::Result {
        let (first, last) = (self.first, self.last);
        if first == last {
            write!(f, "pick {first}")
        } else {
            write!(f, "picks {first} to {last}")
        }
    }
}

/// The share of a part in a whole: `12.34 %`.
#[derive(Clone, Copy, Debug, PartialEq, Eq)]
pub struct Share {
    pub part: u64,
    pub whole: u64,
}

impl fmt::Display for Share {
    fn fmt<W: fmt::Write>(&self, f: &mut fmt::Formatter<W>) -> fmt::Result {
        let share = share(self.part, self.whole);
        let (whole, part) = (share / 100, share % 100);
        write!(f, "{whole}.{part:02} %")
    }
}
