//! A look at the submission rings of a front that goes no further.
ghost use Rattle.std.specs.Prelude.{ℕ};
ghost use mathlib.Core.List.{IsPrefix};
ghost use Rattle.nvme_front.specs.Hosts.{IsFedBy, submitted_at};
ghost use Rattle.nvme_front.specs.View.{got_in};

use crate::front::Front;
use crate::settlement::look;
use nvme_entry::Sqe;
use nvme_lane::Feeder;

/// Looks at both ends of each submission ring, and drops them. What the front got from a region is what was submitted
/// to it first.
pub fn drop_beside(front: Front, feeders: Vec<Feeder<Sqe>>)
    requires { IsFedBy front feeders.items }
    ensures { (r : ℕ) → IsPrefix (got_in front r) (submitted_at feeders.items r) }
{
    let mut front = front;
    let mut feeders = feeders;
    look(&mut front, &mut feeders);
}
