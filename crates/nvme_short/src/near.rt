// Which of some names may have been meant by another.
use std::alloc::{AllocError, Global};
use strsim::osa_distance;

// The most edits that a name may be away from the one that was meant.
const MOST_EDITS: usize = 2;

/// The first of the names that the fewest edits lead to, where they are at most two, and fewer than it has letters.
pub fn nearest(
    alloc: Global,
    name: &str,
    names: &[&'static str],
) -> Result<Option<&'static str>, AllocError> {
    let mut found = None;
    let mut fewest = MOST_EDITS + 1;
    for other in names {
        let edits = osa_distance(alloc, name, other)?;
        if edits < fewest && edits < other.len() {
            fewest = edits;
            found = Some(*other);
        }
    }
    Ok(found)
}
