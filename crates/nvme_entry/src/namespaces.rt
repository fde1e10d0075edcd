ghost use Rattle.std.specs.Prelude.{◌≡◌, ℕ, ◌<◌, ◌≤◌, ◌↔◌, length, Contains, IsErrOf, IfOk, IfSome};
ghost use Rattle.nvme_entry.specs.Namespaces.{size_at};

use std::marker::Model;
use thiserror::Error;

/// The most namespaces that there can be.
pub const MAX_NAMESPACES: usize = 16;

/// The sizes of the namespaces in logical blocks, each at least 1: the first is that of namespace identifier 1.
/// Contracts see the list of the sizes. (Base Specification, Namespaces; their number: profile)
#[derive(Clone, Copy, Debug, PartialEq, Eq)]
pub struct Namespaces {
    // those from `count` on are 0
    sizes: [u64; MAX_NAMESPACES],
    count: usize,
}

impl Model for Namespaces {
    ghost use Rattle.std.specs.Prelude.{ℕ, List, take, length};
    ghost use Rattle.nvme_entry.specs.Namespaces.{IsPadded, padded, take-padded, length-take-padded};

    ghost Value = { List ℕ };

    ghost view = { λ n. take n.count n.sizes };

    ghost invariant = { λ n. IsPadded n.sizes n.count };

    ghost inverse = { λ sizes. record { sizes = padded sizes; count = length sizes } };

    ghost inverse_ok = { λ n h i. record { sizes = take-padded n.sizes n.count h i; count = length-take-padded n.sizes n.count h i } };
}

/// Why sizes are no sizes of namespaces.
#[derive(Clone, Copy, Debug, PartialEq, Eq, Error)]
pub enum SpaceError {
    /// There are more than `MAX_NAMESPACES` sizes.
    #[error("more than {max} namespaces", max = MAX_NAMESPACES)]
    TooMany,
    /// A size is 0.
    #[error("a namespace of size 0")]
    Empty,
}

impl Namespaces {
    /// Namespaces of these sizes in logical blocks, the first with identifier 1. `TooMany` is found
    /// before `Empty`.
    pub fn new(sizes: &[u64]) -> Result<Namespaces, SpaceError>
        ensures too_many { IsErrOf result SpaceError.TooMany ↔ (MAX_NAMESPACES < length sizes.now) }
        ensures empty { IsErrOf result SpaceError.Empty ↔ ((length sizes.now ≤ MAX_NAMESPACES) × Contains sizes.now 0) }
        ensures ok { IfOk result (λ n. n ≡ sizes.now) }
    {
        if sizes.len() > MAX_NAMESPACES {
            return Err(SpaceError::TooMany);
        }
        if sizes.contains(&0) {
            return Err(SpaceError::Empty);
        }
        let mut padded = [0; MAX_NAMESPACES];
        padded[..sizes.len()].copy_from_slice(sizes);
        Ok(Namespaces {
            sizes: padded,
            count: sizes.len(),
        })
    }

    /// The size of a namespace in logical blocks, or `None` where its identifier names none.
    pub fn size(&self, nsid: u32) -> Option<u64>
        ensures value { result ≡ size_at self.now nsid }
        ensures not_zero { IfSome result (λ size. 1 ≤ size) }
    {
        let index = (nsid as usize).checked_sub(1)?;
        self.sizes[..self.count].get(index).copied()
    }
}
