use std::fmt;

/// Where a fault of a short workload file is. Queues count from 1, as their identifiers do, and items from 0. As text items
/// count from 1 too.
#[derive(Clone, Copy, Debug, PartialEq, Eq)]
pub enum Place {
    /// The file's own table.
    Top,
    /// The table of a queue.
    Queue(usize),
    /// An item of the script of a queue, with what it repeats.
    Item { queue: usize, item: usize },
    /// An item of `admin`.
    Admin(usize),
    /// The table of `weights` of the file's own table.
    Weights,
    /// The table of `weights` of an item of `admin`.
    AdminWeights(usize),
}

impl fmt::Display for Place {
    fn fmt<W: fmt::Write>(&self, f: &mut fmt::Formatter<W>) -> fmt::Result {
        match self {
            Place::Top => write!(f, "top"),
            Place::Queue(queue) => write!(f, "queue {queue}"),
            Place::Item { queue, item } => {
                let item = item.saturating_add(1);
                write!(f, "queue {queue}, item {item}")
            },
            Place::Admin(item) => write!(f, "admin, item {item}", item = item.saturating_add(1)),
            Place::Weights => write!(f, "top, weights"),
            Place::AdminWeights(item) => {
                write!(
                    f,
                    "admin, item {item}, weights",
                    item = item.saturating_add(1)
                )
            }
        }
    }
}
