//! The rule of a lane: what each pass has done, and what each step of a pass tells it.
ghost use Rattle.std.specs.Prelude.{◌≡◌, ◌+◌, ◌-◌, ℕ, List, [], ◌∷◌, ◌++◌, sum_by};

use crossbeam_queue::protocol::{Join, Lesson, Outcome, Protocol, Split};
use std::collections::LinkedList;

/// What a pass has pushed and popped, and its parts of the right to know the whole. No value of it is made.
pub struct Hand<T> {
    pub parts: u64,
    pub put: LinkedList<T>,
    pub taken: LinkedList<T>,
}

/// Nothing is lost, and nothing comes out that was not pushed.
pub struct Fair;

impl<T> Protocol<T, Hand<T>> for Fair {
    ghost use Rattle.std.specs.Prelude.{[]};
    ghost use Rattle.nvme_lane.specs.Hands.{hand};
    ghost use Rattle.nvme_lane.specs.Passes.{whole};
    ghost use Rattle.nvme_lane.specs.Balance.{Balanced};

    ghost holds = { Balanced };

    ghost first = { hand whole [] [] };
}

/// A new pass is cut off, or one is joined to another.
pub struct Cut;

impl<T> Split<Hand<T>> for Cut {
    ghost use Rattle.std.specs.Prelude.{[], ◌-◌};
    ghost use Rattle.nvme_lane.specs.Hands.{hand};

    ghost left = { λ v. hand (v.parts - 1) v.put v.taken };

    ghost right = { λ v. hand 1 [] [] };
}

impl<T> Join<Hand<T>> for Cut {
    ghost use Rattle.std.specs.Prelude.{[], ◌+◌, ◌++◌};
    ghost use Rattle.nvme_lane.specs.Hands.{hand};

    ghost both = { λ v w. hand (v.parts + w.parts) (v.put ++ w.put) (v.taken ++ w.taken) };

    ghost spent = { hand 0 [] [] };
}

/// A push adds the item to what the pass has put.
pub struct Puts;

impl<T> Outcome<T, Hand<T>> for Puts {
    ghost use Rattle.std.specs.Prelude.{◌≡◌, [], ◌∷◌, ◌++◌};
    ghost use Rattle.nvme_lane.specs.Hands.{hand};

    ghost then = { λ v x w. w ≡ hand v.parts (v.put ++ x ∷ []) v.taken };
}

impl<T> Lesson<T, Hand<T>> for Puts {
    ghost use Rattle.std.specs.Prelude.{⊤};

    ghost fact = { λ v items. ⊤ };
}

/// A pop adds the item to what the pass has taken.
pub struct Takes;

impl<T> Outcome<T, Hand<T>> for Takes {
    ghost use Rattle.std.specs.Prelude.{◌≡◌, [], ◌∷◌, ◌++◌};
    ghost use Rattle.nvme_lane.specs.Hands.{hand};

    ghost then = { λ v x w. w ≡ hand v.parts v.put (v.taken ++ x ∷ []) };
}

impl<T> Lesson<T, Hand<T>> for Takes {
    ghost use Rattle.std.specs.Prelude.{⊤};

    ghost fact = { λ v items. ⊤ };
}

/// What a pass with every part learns of what the lane holds.
pub struct Total;

impl<T> Lesson<T, Hand<T>> for Total {
    ghost use Rattle.std.specs.Prelude.{◌≡◌, ℕ, ◌+◌, sum_by};

    ghost fact = { λ v items. (h : T → ℕ) → sum_by h v.put ≡ sum_by h v.taken + sum_by h items };
}
