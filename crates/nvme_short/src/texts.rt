// What is expected of the keys of a short file, as texts.
use nvme_short_form::{Fault, Key, Place};
use nvme_workload::WorkloadError;

// What the value of a key must be, as text.
fn value_of(key: Key, place: Place) -> &'static str {
    match key {
        Key::Version => "1",
        Key::Mechanism => "\"round-robin\" or \"weighted\"",
        Key::Burst => "1, 2, 4, 8, 16, 32, 64 or \"none\"",
        Key::Weights => "a table of high, medium and low",
        Key::High | Key::Medium | Key::Low => "a whole number from 1 to 256",
        Key::Namespaces => "an array of whole numbers from 1 to 9223372036854775807",
        Key::Patience => "a whole number from 1 to 4294967295",
        Key::AdminDepth | Key::AdminCqDepth | Key::Depth | Key::CqDepth => {
            "a whole number from 2 to 4096"
        }
        Key::Queue => "an array of tables: queues are written [[queue]]",
        Key::Admin | Key::Script => "an array of tables",
        Key::Class => "\"urgent\", \"high\", \"medium\" or \"low\"",
        Key::Cq => "the number of an earlier queue that has a completion queue of its own",
        Key::Repeat | Key::Blocks | Key::Count => "a whole number from 1 to 65536",
        Key::Op => match place {
            Place::Admin(_) => {
                "\"create\", \"delete\", \"abort\", \"set-arbitration\", \"get-features\" or a whole number from 0 to 255"
            }
            _ => "\"read\", \"write\", \"flush\" or a whole number from 0 to 255",
        },
        Key::Slba | Key::Prp1 => "a whole number from 0 to 9223372036854775807",
        Key::Spread => "\"same\" or \"sequential\"",
        Key::Number => "the number of a queue",
        Key::Target | Key::Cid => "a whole number from 0 to 65535",
        Key::Feature => "\"arbitration\" or \"number-of-queues\"",
        Key::Flags => "a whole number from 0 to 255",
        Key::Nsid | Key::Cdw10 | Key::Cdw11 | Key::Cdw12 => "a whole number from 0 to 4294967295",
    }
}

// The most that a key may have, as text.
fn most_of(key: Key) -> &'static str {
    match key {
        Key::Namespaces => "at most 16 namespaces",
        Key::Queue => "at most 64 queues",
        _ => "at most 65536 commands in all scripts",
    }
}

/// What is expected at a place.
pub(crate) fn expected(fault: Fault, place: Place) -> &'static str {
    match fault {
        Fault::Missing(key) | Fault::Bad(key) => value_of(key, place),
        Fault::Limit(key) => most_of(key),
        Fault::Written(WorkloadError::Limit) => most_of(Key::Script),
        Fault::Written(_) | Fault::Unknown => "another file",
    }
}

/// The words that the value of a key may be.
pub(crate) fn words_of(key: Key, place: Place) -> &'static [&'static str] {
    match (key, place) {
        (Key::Mechanism, _) => &["round-robin", "weighted"],
        (Key::Burst, _) => &["none"],
        (Key::Class, _) => &["urgent", "high", "medium", "low"],
        (Key::Op, Place::Admin(_)) => &[
            "create",
            "delete",
            "abort",
            "set-arbitration",
            "get-features",
        ],
        (Key::Op, _) => &["read", "write", "flush"],
        (Key::Spread, _) => &["same", "sequential"],
        (Key::Feature, _) => &["arbitration", "number-of-queues"],
        _ => &[],
    }
}
