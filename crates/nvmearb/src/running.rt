// `nvmearb run` whose report is summarised, or written as JSON.
ghost use Rattle.std.specs.Prelude.{◌≤◌, IfErr, IfSome};

use crate::files::read_input;
use crate::noted::Notes;
use crate::telling::{no_memory, unwritten};
use nvme_sim::{Mode, file_named, run_answer};
use nvme_simulate::Digest;
use std::alloc::Global;
use std::io::{ErrorKind, Write};
use std::rt::Files;
use std::sync::Wait;
use std::thread::Threads;

// The exit status of a fault of the command line.
const BAD_LINE: u8 = 2;

// How the report is written.
#[derive(Clone, Copy, Debug, PartialEq, Eq)]
enum Form {
    Summary,
    Json,
}

// What the words behind `run` say of the form of the report.
#[derive(Drop)]
struct Said<'a> {
    is_summary: bool,
    format: Option<&'a str>,
}

// Reads the words behind `run`. Those that it doesn't know are left to the command line.
fn said_in(words: &[String]) -> Said<'_> {
    let (mut is_summary, mut format, mut is_format) = (false, None, false);
    for word in words {
        let word = word.as_str();
        if is_format {
            format = Some(word);
            is_format = false;
        } else if let Some(name) = word.strip_prefix("--format=") {
            format = Some(name);
        } else {
            match word {
                "--" => break,
                "--summary" => is_summary = true,
                "--format" => is_format = true,
                _ => {}
            }
        }
    }
    Said { is_summary, format }
}

// The form that the words ask for. `None` where it is the report as it stands. What is wrong with them is told, and the
// error is the exit status.
fn form_of<E: Write>(words: &Said, errors: &mut E) -> Result<Option<Form>, u8>
    ensures { IfErr result (λ status. status ≤ 4) }
{
    match (words.is_summary, words.format) {
        (true, None | Some("text")) => return Ok(Some(Form::Summary)),
        (false, None | Some("text")) => return Ok(None),
        (false, Some("json")) => return Ok(Some(Form::Json)),
        _ => {}
    }
    let _ = match words.format {
        Some(name) if name != "json" => {
            writeln!(errors, "nvmearb: --format {name:?}: expected text or json")
        }
        _ => writeln!(
            errors,
            "nvmearb: --summary and --format json don't go together"
        ),
    };
    Err(BAD_LINE)
}

// Runs the workload of a file, and writes its report in a form. The answer is the exit status.
fn reported<R, W: Write, E: Write>(
    rt: &R,
    words: &[String],
    mode: Mode,
    workers: u8,
    form: Form,
    notes: &Notes,
    output: &mut W,
    errors: &mut E,
) -> u8
where
    R: AllocGlobal + Files + Input + Threads + Wait + Sync,
    ensures { result ≤ 4 }
{
    let alloc = rt.alloc();
    let Ok(file) = file_named(alloc, words) else {
        return no_memory(errors);
    };
    let text = match read_input(rt, file, notes, errors) {
        Ok(text) => text,
        Err(status) => return status,
    };
    let (text, digest) = (text.as_slice(), Digest::of(text.as_slice()));
    let digest = digest.as_str();
    let answer = match run_answer(rt, alloc, words, mode, workers, text, digest, errors) {
        Ok(answer) => answer,
        Err(status) => return status,
    };
    let written = match form {
        Form::Summary => answer.put_summary(alloc, output),
        Form::Json => answer.put_json(alloc, output),
    };
    match written {
        Ok(()) => 0,
        Err(error) if error.kind() == ErrorKind::OutOfMemory => no_memory(errors),
        Err(_) => unwritten(errors),
    }
}

/// Does what a line of `run` asks for whose report is summarised, or written as JSON. The answer is the exit status.
/// `None` where the report is written as it stands.
#[inline(never)]
pub(crate) fn ran_otherwise<R, W: Write, E: Write>(
    rt: &R,
    words: &[String],
    mode: Mode,
    workers: u8,
    notes: &Notes,
    output: &mut W,
    errors: &mut E,
) -> Option<u8>
where
    R: AllocGlobal + Files + Input + Threads + Wait + Sync,
    ensures { IfSome result (λ status. status ≤ 4) }
{
    match form_of(&said_in(words), errors) {
        Ok(Some(form)) => Some(reported(rt, words, mode, workers, form, notes, output, errors)),
        Ok(None) => None,
        Err(status) => Some(status),
    }
}
