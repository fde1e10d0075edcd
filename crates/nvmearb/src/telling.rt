// What is told of a fault, on standard error.
ghost use Rattle.std.specs.Prelude.{◌≡◌, ◌≤◌};

use crate::kept::Kept;
use crate::noted::{Look, Notes};
use nvme_sim::{InputError, MAX_INPUT, file_named};
use std::alloc::Global;
use std::io::{Error, ErrorKind, Result, Write};

// The exit statuses of a fault of the input, of the command line and at run time.
const INPUT: u8 = 1;

const RUN: u8 = 3;

/// Writes that memory was refused. The answer is the exit status.
pub(crate) fn no_memory<E: Write>(errors: &mut E) -> u8
    ensures { result ≡ 3 }
{
    let _ = writeln!(errors, "nvmearb: out of memory");
    RUN
}

/// Writes that a file can't be opened, read or written. The answer is the exit status.
pub(crate) fn failed<E: Write>(what: &str, name: &str, error: &Error, errors: &mut E) -> u8
    ensures { result ≡ 3 }
{
    if error.kind() == ErrorKind::OutOfMemory {
        return no_memory(errors);
    }
    let _ = writeln!(errors, "nvmearb: {what} failed: {name:?}: {error}");
    RUN
}

/// Writes that a write failed. The answer is the exit status.
pub(crate) fn unwritten<E: Write>(errors: &mut E) -> u8
    ensures { result ≡ 3 }
{
    let _ = writeln!(errors, "nvmearb: write failed");
    RUN
}

/// Writes why an input has no bytes. The answer is the exit status.
pub(crate) fn tell_input<E: Write>(error: InputError, errors: &mut E) -> u8
    ensures { result ≤ 4 }
{
    match error {
        InputError::Read => {
            let _ = writeln!(errors, "nvmearb: {error}");
            RUN
        }
        InputError::TooLong => {
            let _ = writeln!(errors, "nvmearb: {error}: above {MAX_INPUT} bytes");
            INPUT
        }
        InputError::NoMemory => no_memory(errors),
    }
}

// Writes that a read failed, with the name of the file where the words have one.
fn tell_read<E: Write>(
    alloc: Global,
    words: &[String],
    error: &Error,
    errors: &mut E,
) -> Result<()> {
    if error.kind() == ErrorKind::OutOfMemory {
        return writeln!(errors, "nvmearb: out of memory");
    }
    match file_named(alloc, words) {
        Ok(Some(name)) => writeln!(errors, "nvmearb: read failed: {name:?}: {error}"),
        _ => writeln!(errors, "nvmearb: read failed: {error}"),
    }
}

/// The word after the program's name.
pub(crate) fn subcommand(words: &[String]) -> &str {
    match words {
        [_, word, ..] => word.as_str(),
        _ => "",
    }
}

// Whether the subcommand is one for people, whose faults are told in more words. The others and the help have one fixed
// line for each fault.
fn is_for_people(words: &[String]) -> bool {
    let names = "run trace simulate lint expand check audit stats chart settings demo";
    names.split(' ').any(|name| name == subcommand(words))
}

// What the input looks like, where it is empty or the subcommand is one for others.
fn mistaken(words: &[String], look: Look) -> Option<&'static str> {
    match (subcommand(words), look) {
        ("run" | "trace" | "expand", Look::Simulation) => {
            Some(
                "this looks like a simulation file (it has a table device or simulation): take simulate",
            )
        }
        ("run" | "trace" | "lint" | "expand", Look::Blank) => {
            Some("the file is empty: a short workload begins with version = 1")
        }
        ("simulate", Look::Workload) => {
            Some("this looks like a workload (it has no table device or simulation): take run")
        }
        ("run" | "trace" | "simulate" | "lint" | "expand", Look::Trace) => {
            Some("this looks like a trace (JSON lines): take check, stats or chart")
        }
        ("audit", Look::Simulation | Look::Workload) => {
            Some("this looks like a workload or a simulation file (TOML): audit reads logs")
        }
        ("check" | "stats" | "chart", Look::Simulation) => {
            Some("this looks like a simulation file (TOML): take simulate FILE --trace TRACE")
        }
        ("check" | "stats" | "chart", Look::Workload) => {
            Some("this looks like a workload (TOML): take trace FILE | stats, or check or chart")
        }
        (
            "run" | "trace" | "simulate" | "lint" | "expand" | "check" | "stats" | "chart",
            Look::Log,
        ) => Some(
            "this looks like the log of a simulation (CSV): take simulate FILE, where a queue of FILE replays it with form = \"csv\"",
        ),
        _ => None,
    }
}

// Writes the faults that were told, with what the notes add to them.
fn write_told<E: Write>(
    alloc: Global,
    words: &[String],
    told: &[u8],
    notes: &Notes,
    status: u8,
    errors: &mut E,
) -> Result<()> {
    match (status, notes.read(), notes.write()) {
        (RUN, Some(error), _) => return tell_read(alloc, words, &error, errors),
        (RUN, None, Some(error)) => {
            return writeln!(errors, "nvmearb: write failed: {error}");
        }
        _ => errors.write_all(told)?,
    }
    match mistaken(words, notes.look()) {
        Some(line) if status == INPUT && !told.is_empty() => writeln!(errors, "nvmearb: {line}"),
        _ => Ok(()),
    }
}

/// Writes the faults that were told, with what the notes add to them where the subcommand is one for people. The answer
/// is the exit status.
pub(crate) fn tell<E: Write>(
    alloc: Global,
    words: &[String],
    told: &Kept,
    notes: &Notes,
    status: u8,
    errors: &mut E,
) -> u8 {
    let Some(told) = told.answer() else {
        return no_memory(errors);
    };
    let _ = if is_for_people(words) {
        write_told(alloc, words, told, notes, status, errors)
    } else {
        errors.write_all(told)
    };
    status
}
