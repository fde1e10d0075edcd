// A fault among all those of a file, and how they are gathered.
ghost use Rattle.std.specs.Prelude.{◌≡◌, ◌++◌, ◌-◌, ◌≤◌, ◌∷◌, [], vec_len, None, Some, OnOk};
ghost use Rattle.toml.specs.View.{table_view};
ghost use Rattle.nvme_short_form.specs.declared.error.ShortError.TheVariants.{At};
ghost use Rattle.nvme_short_form.specs.Flaws.{given, one_given, one_unknown, unknown};

use crate::error::{Fault, ShortError};
use crate::key::Key;
use crate::place::Place;
use crate::values::is_known;
use std::alloc::AllocError;
use toml::Table;

/// A fault among all those of a short workload file.
#[derive(Clone, Copy, Debug, PartialEq, Eq)]
pub struct Flaw {
    /// The fault, with its place. It is never that memory was refused.
    pub error: ShortError,
    /// The index of the item with the fault within one that repeats it, where it is of such an item.
    pub inner: Option<usize>,
    /// Which of the unknown keys of its table it is, in the order of bytes, from 0. It is 0 with another fault.
    pub nth: usize,
}

/// The place of a table, with the index of an item within one that repeats it.
#[derive(Clone, Copy, Debug, PartialEq, Eq)]
pub(crate) struct Site {
    pub(crate) place: Place,
    pub(crate) inner: Option<usize>,
}

impl Site {
    /// Of a table that isn't within an item that repeats it.
    pub(crate) fn of(place: Place) -> Site
        ensures place { result.place ≡ place }
        ensures inner { result.inner ≡ None }
    {
        Site { place, inner: None }
    }
}

/// Appends a fault, if there is one.
pub(crate) fn push_one(
    flaws: &mut Vec<Flaw>,
    inner: Option<usize>,
    error: Option<ShortError>,
) -> Result<(), AllocError>
    ensures { OnOk result (flaws.new.items ≡ flaws.old.items ++ one_given inner error) }
{
    if let Some(error) = error {
        flaws.push(Flaw {
            error,
            inner,
            nth: 0,
        })?;
    }
    Ok(())
}

/// Appends the faults that there are among these.
pub(crate) fn push_given(
    flaws: &mut Vec<Flaw>,
    inner: Option<usize>,
    errors: &[Option<ShortError>],
) -> Result<(), AllocError>
    ensures { OnOk result (flaws.new.items ≡ flaws.old.items ++ given inner errors.now) }
{
    for error in errors {
        push_one(flaws, inner, *error)?;
    }
    Ok(())
}

/// Appends a fault at a site.
pub(crate) fn push_fault(flaws: &mut Vec<Flaw>, site: Site, fault: Fault) -> Result<(), AllocError>
    ensures { OnOk result (flaws.new.items ≡ flaws.old.items ++ given site.inner (Some (At site.place fault) ∷ [])) }
{
    push_one(flaws, site.inner, Some(ShortError::At(site.place, fault)))
}

// Appends a fault for a key, unless it is one of these. So many faults were there before those of its table.
fn push_unless_known(
    flaws: &mut Vec<Flaw>,
    before: usize,
    site: Site,
    keys: &[Key],
    name: &str,
) -> Result<(), AllocError>
    requires { before ≤ vec_len flaws.old }
    ensures { OnOk result (flaws.new.items ≡ flaws.old.items ++ one_unknown site.place site.inner keys.now (vec_len flaws.old - before) name.now) }
{
    if is_known(keys, name) {
        return Ok(());
    }
    let nth = flaws.len() - before;
    flaws.push(Flaw {
        error: ShortError::At(site.place, Fault::Unknown),
        inner: site.inner,
        nth,
    })?;
    Ok(())
}

/// Appends a fault for each key of a table that isn't one of these.
pub(crate) fn push_unknown(
    flaws: &mut Vec<Flaw>,
    site: Site,
    keys: &[Key],
    table: &Table,
) -> Result<(), AllocError>
    ensures { OnOk result (flaws.new.items ≡ flaws.old.items ++ unknown site.place site.inner keys.now (table_view table.now)) }
{
    let before = flaws.len();
    for (name, _value) in table.iter() {
        push_unless_known(flaws, before, site, keys, name.as_str())?;
    }
    Ok(())
}
