// Decided: lists are of `Sequence`, since a clause sees the capacity of a `Vec` too, so that two workloads of one text
// would differ.
ghost use Rattle.std.specs.Prelude.{◌≡◌};

use nvme_admin::Limits;
use nvme_arbiter::{Mechanism, Settings};
use nvme_entry::{Namespaces, Sqe};
use std::marker::Model;
use std::ops::Index;
use std::slice;

/// What a workload file says.
#[derive(Debug, Drop)]
pub struct Workload {
    /// How the front chooses among the submission queues.
    pub mechanism: Mechanism,
    /// The settings of the arbitration at the start.
    pub settings: Settings,
    /// How many I/O queues of each kind can be allotted.
    pub limits: Limits,
    /// The namespaces.
    pub spaces: Namespaces,
    /// How many turns in a row may find nothing to do before a run gives up. At least 1.
    pub patience: u32,
    /// The submission regions, 1 to 65, that of the admin queue first.
    pub submissions: Sequence<SqPlan>,
    /// The completion regions, 1 to 65, that of the admin queue first.
    pub completions: Sequence<CqPlan>,
}

/// A submission region: a ring of `slots` slots at `address`, and what its host submits.
#[derive(Debug, Drop)]
pub struct SqPlan {
    /// The address, at most 2^63 - 1, that of no other region of either kind.
    pub address: u64,
    /// 2 to 4,096.
    pub slots: u16,
    /// What the host submits.
    pub script: Sequence<Sqe>,
}

/// A completion region: a ring of `slots` slots at `address`.
#[derive(Clone, Copy, Debug, PartialEq, Eq)]
pub struct CqPlan {
    /// The address, at most 2^63 - 1, that of no other region of either kind.
    pub address: u64,
    /// 2 to 4,096.
    pub slots: u16,
}

/// A list: its length, its items by index, all of them in order, and as a slice. Contracts see it as its items.
#[derive(Debug, Drop)]
pub struct Sequence<T> {
    items: Vec<T>,
}

impl<T> Model for Sequence<T> {
    ghost use Rattle.std.specs.Prelude.{List};

    ghost Value = { List T };

    ghost view = { λ s. s.items.items };
}

impl<T> Sequence<T> {
    ghost use Rattle.std.specs.Prelude.{◌≡◌, ◌↔◌, [], length, IsTrue};

    /// The list of these items. It takes no memory.
    pub fn new(items: Vec<T>) -> Sequence<T>
        ensures items { result ≡ items.items }
    {
        Sequence { items }
    }

    /// How many items it has.
    pub fn len(&self) -> usize
        ensures { result ≡ length self.now }
    {
        self.items.len()
    }

    /// It has no item.
    pub fn is_empty(&self) -> bool
        ensures { IsTrue result ↔ (self.now ≡ []) }
    {
        self.items.is_empty()
    }

    /// The items, in order.
    pub fn as_slice(&self) -> &[T]
        ensures items { result.now ≡ self.now }
    {
        self.items.as_slice()
    }

    /// Gives the items back. It takes no memory.
    pub fn into_vec(self) -> Vec<T>
        ensures items { result.items ≡ self }
    {
        let Sequence { items } = self;
        items
    }
}

impl<T> Index<usize> for Sequence<T> {
    type Output = T;

    ghost use Rattle.std.specs.Prelude.{◌≡◌, ◌<◌, length, Some, slice_get};

    ghost can_index = { λ sequence i. i < length sequence };

    ghost index_gives = { λ sequence i item. slice_get sequence i ≡ Some item };

    fn index(&self, index: usize) -> &T {
        &self.items[index]
    }
}

impl<'a, T> IntoIterator for &'a Sequence<T> {
    type Item = &'a T;

    type IntoIter = slice::Iter<'a, T>;

    ghost use Rattle.std.specs.Prelude.{◌≡◌, ◌^◌, ◌<◌, length};
    ghost use Rattle.std.specs.Iterator.Runs.{EveryRun, ItemsMapTo};
    ghost use Rattle.std.specs.Slice.Iter.{iter_rest, iter_steps};

    ghost into_iter_gives = { λ sequence it. (iter_rest it ≡ sequence.now) × (length (iter_rest it) < 2 ^ 64)
        × EveryRun (iter_steps {A = T}) (λ p. ItemsMapTo p (λ x. x.now) (iter_rest p.from)) };

    fn into_iter(self) -> slice::Iter<'a, T> {
        self.items.iter()
    }
}
