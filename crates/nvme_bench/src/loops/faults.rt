use thiserror::Error;

/// Why the loop ends early.
#[derive(Clone, Copy, Debug, PartialEq, Eq, Error)]
pub enum Fault {
    #[error("loop: a call was refused")]
    Refused,
    #[error("loop: a call wasn't refused")]
    NotRefused,
}

/// A fault where a call was refused.
pub fn check(done: bool) -> Result<(), Fault> {
    if done { Ok(()) } else { Err(Fault::Refused) }
}
