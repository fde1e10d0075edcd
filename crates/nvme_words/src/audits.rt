// What a line of `audit` says.
use crate::program::program;
use crate::words::asks;
use clap::error::ErrorKind;
use std::alloc::{AllocError, Global};

/// What a line of `audit` says of one log. An option that is left out is `None`.
#[derive(Clone, Copy, Debug, PartialEq, Eq)]
pub struct AuditWords<'a> {
    /// The name of the log. `None` for standard input.
    pub file: Option<&'a str>,
    /// The observer, as it stands there.
    pub observer: Option<&'a str>,
    /// The rules to judge by, as they stand there.
    pub only: Option<&'a str>,
    /// The rules to leave out, as they stand there.
    pub without: Option<&'a str>,
    /// Whether all breaches of the controller are told, not only the first.
    pub all: bool,
    /// Whether it is told how often each rule asked something.
    pub coverage: bool,
}

/// What a line of `audit` says. `None` where the words, of which the first is the program's name, are another line,
/// are refused or ask for help.
pub fn audit_asked<'a>(
    alloc: Global,
    words: &'a [String],
) -> Result<Option<AuditWords<'a>>, AllocError> {
    if !asks(words, "audit") {
        return Ok(None);
    }
    match program(alloc)?.try_get_matches_from(words) {
        Ok(matches) => match matches.subcommand() {
            Some(("audit", asked)) => Ok(Some(AuditWords {
                file: asked.get_str("file").filter(|name| *name != "-"),
                observer: asked.get_str("observer"),
                only: asked.get_str("only"),
                without: asked.get_str("without"),
                all: asked.get_flag("all"),
                coverage: asked.get_flag("coverage"),
            })),
            _ => Ok(None),
        },
        Err(error) if error.kind() == ErrorKind::OutOfMemory => Err(AllocError),
        Err(_) => Ok(None),
    }
}
