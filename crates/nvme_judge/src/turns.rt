// Whose turn it is: when each queue was picked last, and since when it waits.
use crate::ready::{is_ready, is_ready_in};
use nvme_arbiter::{ByClass, Class, HIGHEST_QID, QUEUE_LIMIT, Seen};

/// What is kept of a queue, among all picks or among those of a class. The first pick is number 1.
#[derive(Clone, Copy, Debug, PartialEq, Eq)]
pub struct Turn {
    /// The number of its latest pick.
    pub latest: Option<u64>,
    /// The number of the pick since which it was ready at each and not picked.
    pub since: Option<u64>,
}

impl Turn {
    ghost use Rattle.std.specs.Prelude.{◌≡◌};
    ghost use Rattle.nvme_judge.specs.Turns.{no_turn, is_since};
    ghost use Rattle.nvme_judge.specs.inside.Steps.{turn_with};

    const fn none() -> Turn
        ensures { result ≡ no_turn }
    {
        Turn {
            latest: None,
            since: None,
        }
    }

    // After the pick of this number, of this queue or of another.
    fn after(self, number: u64, picked: bool, ready: bool) -> Turn
        ensures { result ≡ turn_with number picked ready self }
    {
        if picked {
            Turn {
                latest: Some(number),
                since: None,
            }
        } else if ready {
            Turn {
                latest: self.latest,
                since: Some(self.since.unwrap_or(number)),
            }
        } else {
            Turn {
                latest: self.latest,
                since: None,
            }
        }
    }

    // Whether the queue waits since the latest pick of another, or longer.
    fn has_waited_for(&self, other: &Turn) -> bool
        ensures { result ≡ is_since self.now.since other.now.latest }
    {
        match (self.since, other.latest) {
            (Some(since), Some(latest)) => since <= latest,
            _ => false,
        }
    }
}

/// The turns of all queues, by identifier.
#[derive(Clone, Copy)]
pub struct Queues {
    pub turns: [Turn; QUEUE_LIMIT],
}

impl Queues {
    ghost use Rattle.std.specs.Prelude.{◌≡◌, ◌==◌, ◌<◌, ◌↔◌, ℕ, All, IsTrue, IsFalse, length};
    ghost use Rattle.nvme_arbiter.specs.Limits.{queue_limit};
    ghost use Rattle.nvme_arbiter.specs.Specified.{ready_in};
    ghost use Rattle.nvme_judge.specs.Turns.{no_turn, turn_in, is_since, is_ready_in};
    ghost use Rattle.nvme_judge.specs.inside.Steps.{turn_with, some_has_waited};

    fn new() -> Queues
        ensures { (qid : ℕ) → turn_in result.turns qid ≡ no_turn }
    {
        Queues {
            turns: [Turn::none(); QUEUE_LIMIT],
        }
    }

    // The turn of a queue.
    fn turn(&self, qid: u16) -> Turn
        ensures { result ≡ turn_in self.now.turns qid }
    {
        match self.turns.get(usize::from(qid)) {
            Some(turn) => *turn,
            None => Turn::none(),
        }
    }

    // Whether a ready queue waits since the latest pick of this one, or longer.
    fn some_has_waited(&self, class: Option<Class>, seen: &[Seen], picked: u16) -> bool
        ensures { result ≡ some_has_waited class self.now.turns picked seen.now }
    {
        let turn = self.turn(picked);
        for queue in seen {
            if is_ready(queue, class) && self.turn(queue.qid).has_waited_for(&turn) {
                return true;
            }
        }
        false
    }

    // Keeps the pick of this number.
    fn note(&mut self, class: Option<Class>, seen: &[Seen], picked: u16, number: u64)
        ensures { (qid : ℕ) → qid < queue_limit → turn_in self.new.turns qid ≡ turn_with number (picked == qid) (is_ready_in class qid seen.now) (turn_in self.old.turns qid) }
    {
        for qid in 0..HIGHEST_QID + 1 {
            let turn = self.turn(qid);
            self.turns[usize::from(qid)] = turn.after(
                number,
                picked == qid,
                is_ready_in(seen, class, qid),
            );
        }
    }
}

/// The turns among all picks, as round robin counts them, and among those of each class, as the weighted mechanism does.
#[derive(Clone, Copy)]
pub struct Turns {
    pub all: Queues,
    pub by_class: ByClass<Queues>,
}

impl Turns {
    ghost use Rattle.std.specs.Prelude.{◌≡◌, ◌≢◌, ◌==◌, ◌<◌, ℕ, Option};
    ghost use Rattle.nvme_arbiter.specs.Limits.{queue_limit};
    ghost use Rattle.nvme_arbiter.specs.declared.settings.Class.{Class};
    ghost use Rattle.nvme_judge.specs.Turns.{no_turn, turn_in, turns_of, is_ready_in};
    ghost use Rattle.nvme_judge.specs.inside.Steps.{turn_with, some_has_waited};

    /// Nothing was picked yet.
    pub fn new() -> Turns
        ensures { (class : Option Class) (qid : ℕ) → turn_in (turns_of result class) qid ≡ no_turn }
    {
        Turns {
            all: Queues::new(),
            by_class: ByClass::same(Queues::new()),
        }
    }

    // The turns that count.
    fn of(&self, class: Option<Class>) -> &Queues
        ensures { result.now.turns ≡ turns_of self.now class }
    {
        match class {
            None => &self.all,
            Some(Class::Admin) => &self.by_class.admin,
            Some(Class::Urgent) => &self.by_class.urgent,
            Some(Class::High) => &self.by_class.high,
            Some(Class::Medium) => &self.by_class.medium,
            Some(Class::Low) => &self.by_class.low,
        }
    }

    /// Whether a ready queue, of a class where one is given, waits since the latest pick of this one, or longer.
    pub fn some_has_waited(&self, class: Option<Class>, seen: &[Seen], picked: u16) -> bool
        ensures { result ≡ some_has_waited class (turns_of self.now class) picked seen.now }
    {
        self.of(class).some_has_waited(class, seen, picked)
    }

    /// Keeps the pick of this number.
    pub fn note(&mut self, class: Option<Class>, seen: &[Seen], picked: u16, number: u64)
        ensures noted { (qid : ℕ) → qid < queue_limit → turn_in (turns_of self.new class) qid ≡ turn_with number (picked == qid) (is_ready_in class qid seen.now) (turn_in (turns_of self.old class) qid) }
        ensures others { (other : Option Class) → other ≢ class → turns_of self.new other ≡ turns_of self.old other }
    {
        match class {
            None => self.all.note(class, seen, picked, number),
            Some(Class::Admin) => self.by_class.admin.note(class, seen, picked, number),
            Some(Class::Urgent) => self.by_class.urgent.note(class, seen, picked, number),
            Some(Class::High) => self.by_class.high.note(class, seen, picked, number),
            Some(Class::Medium) => self.by_class.medium.note(class, seen, picked, number),
            Some(Class::Low) => self.by_class.low.note(class, seen, picked, number),
        }
    }
}
