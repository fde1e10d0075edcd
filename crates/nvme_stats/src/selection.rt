// The picks of a trace that are looked at.
ghost use Rattle.std.specs.Prelude.{◌≡◌, ◌∷◌, ◌-◌, ◌≤◌};
ghost use Rattle.nvme_arbiter.specs.History.{History};
ghost use Rattle.nvme_arbiter.specs.declared.settings.Mechanism.{Mechanism};
ghost use Rattle.nvme_stats.specs.Chosen.{IsPart, chooses, has_backlog, is_backlogged, is_outranked, is_urgent, last_before, number_after};
ghost use Rattle.nvme_trace.specs.Format.{event_view};

use crate::watch::more;
use nvme_arbiter::{Class, Mechanism, Seen, class_in};
use nvme_trace::TraceEvent;

// More picks than a trace has.
const ENDLESS: u64 = 9_223_372_036_854_775_807;

/// Which picks of a trace are looked at. They are numbered from 1.
#[derive(Clone, Copy, Debug, PartialEq, Eq)]
pub struct Selection {
    /// The number of the first of them.
    pub first: u64,
    /// The number of the last of them.
    pub last: u64,
    /// Whether they are only those at which each I/O queue of the observation has waiting commands. Under the weighted
    /// mechanism an urgent queue needs none at a pick of a level, which it outranks.
    pub backlogged: bool,
}

impl Selection {
    /// All picks.
    pub const ALL: Selection = Selection {
        first: 1,
        last: u64::MAX,
        backlogged: false,
    };

    /// Whether it goes on to the end of any trace: so many picks have none.
    pub fn is_open(&self) -> bool {
        self.last >= ENDLESS
    }
}

/// The part of a trace that was looked at.
#[derive(Clone, Copy, Debug, PartialEq, Eq)]
pub struct Part {
    /// Which picks were to be looked at.
    pub selection: Selection,
    /// The number of the pick that would follow the last one of the trace.
    pub next: u64,
}

impl Part {
    /// The number of the last pick of the trace, where the first one that was to be looked at is behind it.
    pub fn last_before(&self) -> Option<u64>
        ensures { (selection : Selection) (past : History) → IsPart selection past self.now → result ≡ last_before selection past }
    {
        if self.selection.first > 1 && self.next <= self.selection.first {
            return Some(self.next.saturating_sub(1));
        }
        None
    }
}

// Whether a class is the urgent one.
fn is_urgent(class: Class) -> bool
    ensures { result ≡ is_urgent class }
{
    matches!(class, Class::Urgent)
}

// Whether urgent queues outrank a pick: it is of a level, under the weighted mechanism.
fn is_outranked(mechanism: Mechanism, seen: &[Seen], qid: u16) -> bool
    ensures { result ≡ is_outranked mechanism seen.now qid }
{
    match mechanism {
        Mechanism::RoundRobin => false,
        Mechanism::Weighted => matches!(
            class_in(seen, qid),
            Some(Class::High | Class::Medium | Class::Low)
        ),
    }
}

// Whether a queue has waiting commands, or needs none at a pick that is outranked or not.
fn has_backlog(outranked: bool, queue: &Seen) -> bool
    ensures { result ≡ has_backlog outranked queue.now }
{
    queue.qid == 0 || queue.count > 0 || (outranked && is_urgent(queue.class))
}

// Whether each I/O queue of an observation has waiting commands, but those that outrank the pick.
fn is_backlogged(mechanism: Mechanism, seen: &[Seen], qid: u16) -> bool
    ensures { result ≡ is_backlogged mechanism seen.now qid }
{
    let outranked = is_outranked(mechanism, seen, qid);
    seen.iter().all(|queue| has_backlog(outranked, queue))
}

/// Goes through the events of a trace, and chooses those that are looked at.
#[derive(Clone, Copy)]
pub struct Chooser {
    /// The mechanism of the trace.
    pub mechanism: Mechanism,
    /// What is chosen.
    pub selection: Selection,
    /// The number of the next pick.
    pub next: u64,
}

impl Chooser {
    /// Whether the next event is chosen.
    pub fn chooses(&mut self, event: &TraceEvent) -> bool
        ensures chosen { (past : History) → self.old.next ≡ number_after past → result ≡ chooses self.old.mechanism self.old.selection past (event_view event.now) }
        ensures next { (past : History) → self.old.next ≡ number_after past → self.new.next ≡ number_after (event_view event.now ∷ past) }
        ensures mechanism { self.new.mechanism ≡ self.old.mechanism }
        ensures selection { self.new.selection ≡ self.old.selection }
    {
        let number = self.next;
        let reached = number <= self.selection.last;
        match event {
            TraceEvent::Pick { seen, pick, .. } => {
                self.next = more(number, 1);
                reached
                    && self.selection.first <= number
                    && (!self.selection.backlogged || is_backlogged(self.mechanism, seen, pick.qid))
            }
            TraceEvent::Set { .. } => reached,
        }
    }
}
