//! The version of nvmearb, which the program prints and the C library returns. `capi/nvmearb.h` has the same numbers,
//! and the newest heading of `CHANGELOG.md` the same text: `tests/capi` and `tests/words` compare them.
#![tactic(auto)]

ghost use Rattle.std.specs.Prelude.{◌≡◌, ◌++◌, codes, decimal};
ghost use Rattle.nvme_version.specs.declared.TheConstants.{MAJOR, MINOR, PATCH, VERSION};

/// Increases with a change that breaks callers.
pub const MAJOR: u32 = 0;

/// Increases with new features, and before version 1 with each change of a struct or a call of the C library.
pub const MINOR: u32 = 2;

/// Increases with fixes.
pub const PATCH: u32 = 0;

/// The version as a text.
pub const VERSION: &str = "0.2.0";

/// Law: the text is the three numbers with dots between them.
pub fn version_is_its_numbers()
    ensures { VERSION.now ≡ decimal MAJOR ++ codes "." ++ decimal MINOR ++ codes "." ++ decimal PATCH }
{}
