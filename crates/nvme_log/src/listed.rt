// A list that owns its memory, which contracts see as its items.
use nvme_arbiter::Seen;
use std::alloc::{AllocError, Global};
use std::marker::Model;

/// Items on the heap, so that what holds them stays small. Contracts see the list of the items.
#[derive(Debug, Drop)]
pub struct Listed<T: Copy> {
    items: Vec<T>,
}

impl<T: Copy> Model for Listed<T> {
    ghost use Rattle.std.specs.Prelude.{List};

    ghost Value = { List T };

    ghost view = { λ l. l.items.items };
}

impl Listed<Seen> {
    ghost use Rattle.std.specs.Prelude.{◌≡◌, IfOk};

    /// A copy of what is seen. `AllocError` where memory was refused.
    pub fn of(alloc: Global, seen: &[Seen]) -> Result<Listed<Seen>, AllocError>
        ensures { IfOk result (λ l. l ≡ seen.now) }
    {
        let items = seen.to_vec(alloc)?;
        Ok(Listed { items })
    }
}

impl<T: Copy> Listed<T> {
    ghost use Rattle.std.specs.Prelude.{◌≡◌};

    /// The items.
    pub fn as_slice(&self) -> &[T]
        ensures { result.now ≡ self.now }
    {
        self.items.as_slice()
    }
}

impl<T: Copy + PartialEq> PartialEq for Listed<T> {
    ghost use Rattle.std.specs.Cmp.Lexicographic.{pointwise, lists_per};

    ghost eq = { λ v w. pointwise T.eq v w };

    ghost laws = { lists_per T.laws };

    fn eq(&self, other: &Self) -> bool {
        self.as_slice() == other.as_slice()
    }
}

impl<T: Copy + Eq> Eq for Listed<T> {
    ghost use Rattle.std.specs.Cmp.Lexicographic.{lists_equiv};

    ghost laws = { lists_equiv T.Eq.laws };
}
