// By what picks are judged.

/// By what the picks of a trace are judged.
#[derive(Clone, Copy, Debug, PartialEq, Eq)]
pub enum Basis {
    /// By the profile: each pick is the one that this front makes.
    Profile,
    /// By what the specification alone asks. `fresh` may be missing from a pick's line: it is no matter, and read as
    /// false.
    Specification,
}
