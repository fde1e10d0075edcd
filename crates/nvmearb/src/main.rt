//! The program `nvmearb`: it calls `nvme_sim::command` with its command line, file and streams, and tells what
//! these met. Around that it does what reads or writes several files, or files of several kinds, and shows `demo` and
//! the help on files.
//!
//! Decided: FILE is opened here, so that the clauses of `command` speak of a file's bytes as of standard input's.
//!
//! Decided: reads and writes that a signal interrupts are made again. A library's call takes an interrupted write for a
//! failed one, so it is given a buffer, which is flushed once, at the end. A flush that fails is a failed write.
//!
//! Decided: a file size limit ends the program by its signal, since the toolchain lets no program ignore that. Where
//! whoever starts the program ignores it, it is a failed write.
#![tactic(auto)]

ghost use Rattle.std.specs.Prelude.{◌≡◌, ◌≤◌, ◌↔◌, All, IfSome};
ghost use Rattle.nvmearb.specs.declared.file_verdicts.Judged.{Judged};

mod auditing;
mod demo;
mod file_verdicts;
mod files;
mod kept;
mod linting;
mod noted;
mod running;
mod simulating;
mod sweeping;
mod telling;
mod topics;
mod watched;

use auditing::{AuditOutcome, audited};
use file_verdicts::{Checks, Form, Judged, Task, asked, put_json, put_junit, put_named};
use files::{is_svg, not_svg, put_away};
use kept::Kept;
use linting::linted;
use noted::{Noted, Notes};
use nvme_sim::{
    Errors, Output, Request, WordsError, asked_of, audit_asked, command, file_named, flushed,
    output_named, simulation_asked,
};
use running::ran_otherwise;
use simulating::simulated;
use std::alloc::{AllocError, Global};
use std::cell::Cell;
use std::io::{BufWriter, ErrorKind, IsTerminal, Stderr, Write};
use std::process::ExitCode;
use std::rt::Files;
use std::sync::Wait;
use std::thread::Threads;
use std::{env, fs, io};
use telling::{failed, no_memory, subcommand, tell};
use topics::topic;
use watched::Watched;

// The exit status where nobody reads the output any more: that of a program which the signal of a closed pipe ended, as
// shells tell it.
const UNREAD: u8 = 141;

// The exit status of a fault of the command line.
const BAD_LINE: u8 = 2;

// The words of the command line, the program's name first.
fn words_of(rt: &HostRuntime) -> io::Result<Vec<String>> {
    Ok(env::args(rt)?.collect(rt.alloc())?)
}

// Whether the options of the words don't go together, so that no file is opened.
fn is_unfit(alloc: Global, words: &[String]) -> bool {
    matches!(asked_of(alloc, words), Ok(Request::Unfit(_)))
}

// The terminal, where the words ask for what goes through a whole trace.
fn terminal_for<P: Drop>(words: &[String], terminal: Option<P>) -> Option<P> {
    match subcommand(words) {
        "check" | "stats" | "chart" => terminal,
        _ => None,
    }
}

// Does what the words ask for. The input is the file that they name, or standard input. A terminal is told how much of a
// trace is read. The answer is the exit status.
fn served<R, P: Write + Drop, W: Write, E: Write>(
    rt: &R,
    words: &[String],
    terminal: Option<P>,
    notes: &Notes,
    output: &mut W,
    errors: &mut E,
) -> u8
where
    R: AllocGlobal + Files + Input + Threads + Wait + Sync,
    ensures { result ≤ 4 }
{
    let alloc = rt.alloc();
    let terminal = terminal_for(words, terminal);
    match file_named(alloc, words) {
        Ok(Some(name)) if !is_unfit(alloc, words) => match fs::open(rt, name) {
            Ok(file) => {
                let input = Watched::new(Noted::new(file, notes), terminal);
                command(rt, alloc, words, input, output, errors)
            }
            Err(error) => failed("open", name, &error, errors),
        },
        Ok(_) => {
            let input = Watched::new(Noted::new(rt.reader(), notes), terminal);
            command(rt, alloc, words, input, output, errors)
        }
        Err(_) => no_memory(errors),
    }
}

// Does what the words ask for, and then writes the answer to a file. The answer is the exit status. Where it isn't 0
// there is no answer, and the file isn't touched. It isn't inlined, so that its stack isn't that of every run.
#[inline(never)]
fn saved<R, P: Write + Drop, E: Write>(
    rt: &R,
    words: &[String],
    terminal: Option<P>,
    notes: &Notes,
    name: &str,
    errors: &mut E,
) -> u8
where
    R: AllocGlobal + Files + Input + Threads + Wait + Sync,
    ensures { result ≤ 4 }
{
    if file_named(rt.alloc(), words) == Ok(Some(name)) {
        let _ = writeln!(
            errors,
            "nvmearb: --output {name:?} is the file that is read"
        );
        return BAD_LINE;
    }
    if subcommand(words) == "chart" && !is_svg(name) {
        return not_svg("--output", name, errors);
    }
    let mut kept = Kept::new(rt.alloc());
    let status = served(rt, words, terminal, notes, &mut kept, errors);
    if status != 0 {
        return status;
    }
    put_away(rt, name, &kept, errors)
}

// Audits a log, where the words are a line of `audit`, and tells any others as a fault.
fn audited_by<R: AllocGlobal + Files + Input + Threads + Wait + Sync>(
    rt: &R,
    words: &[String],
    notes: &Notes,
    output: &mut Kept,
    errors: &mut Kept,
) -> Result<AuditOutcome, AllocError> {
    match audit_asked(rt.alloc(), words)? {
        Some(line) => Ok(audited(rt, &line, notes, output, errors)),
        None => Ok(checked_by(rt, words, notes, output, errors)),
    }
}

// Checks a trace, or tells the fault of the words.
fn checked_by<R: AllocGlobal + Files + Input + Threads + Wait + Sync>(
    rt: &R,
    words: &[String],
    notes: &Notes,
    output: &mut Kept,
    errors: &mut Kept,
) -> AuditOutcome {
    AuditOutcome {
        status: served(rt, words, None::<Kept>, notes, output, errors),
        whole: None,
    }
}

// Checks or audits one file. Standard input is `-`.
fn judged<R: AllocGlobal + Files + Input + Threads + Wait + Sync>(
    rt: &R,
    checks: &Checks,
    file: &str,
) -> Result<Judged, AllocError> {
    let alloc = rt.alloc();
    let words = checks.words_for(alloc, file)?;
    let notes = Notes::new();
    let (mut answer, mut first, mut told) = (Kept::new(alloc), Kept::new(alloc), Kept::new(alloc));
    let words = words.as_slice();
    let AuditOutcome { status, whole } = match checks.task {
        Task::Check => checked_by(rt, words, &notes, &mut answer, &mut first),
        Task::Audit => audited_by(rt, words, &notes, &mut answer, &mut first)?,
    };
    let status = tell(alloc, words, &first, &notes, status, &mut told);
    if answer.answer().is_none() || told.answer().is_none() {
        return Err(AllocError);
    }
    Ok(Judged {
        task: checks.task,
        tells_all: checks.tell_all(),
        file: String::from_str(alloc, file)?,
        status,
        answer,
        told,
        whole,
    })
}

// Checks or audits each file. A line that isn't one of the program's ends with its first file.
fn all_judged<R: AllocGlobal + Files + Input + Threads + Wait + Sync>(
    rt: &R,
    checks: &Checks,
) -> Result<Vec<Judged>, AllocError> {
    let mut answers = Vec::new(rt.alloc());
    for file in &checks.files {
        let answer = judged(rt, checks, file.as_str())?;
        let is_bad = answer.status == BAD_LINE;
        answers.push(answer)?;
        if is_bad {
            break;
        }
    }
    Ok(answers)
}

// Writes the answers as text, each line behind the name of its file where there are several, and the faults.
fn put_texts<W: Write, E: Write>(
    answers: &[Judged],
    output: &mut W,
    errors: &mut E,
) -> io::Result<()> {
    if let [it] = answers {
        let _ = errors.write_all(it.told.answer().unwrap_or(b""));
        return output.write_all(it.answer.answer().unwrap_or(b""));
    }
    for it in answers {
        let (answer, told) = (it.answer.answer(), it.told.answer());
        put_named(it.file.as_str(), answer.unwrap_or(b""), output)?;
        let _ = put_named(it.file.as_str(), told.unwrap_or(b""), errors);
    }
    Ok(())
}

// Writes the faults of checks whose answers aren't written, each line behind the name of its file where there are several.
fn put_faults<E: Write>(answers: &[Judged], errors: &mut E) {
    for it in answers {
        let told = it.told.answer().unwrap_or(b"");
        let _ = match answers {
            [_] => errors.write_all(told),
            _ => put_named(it.file.as_str(), told, errors),
        };
    }
}

// The worst status of some answers: 0 exactly where that of each is. A breach of the host alone is the least.
fn worst(answers: &[Judged]) -> u8
    ensures none { result ≡ 0 ↔ All (λ (it : Judged). it.status ≡ 0) answers.now }
    ensures range { result ≤ 4 }
{
    if answers.iter().all(|it| it.status == 0) {
        return 0;
    }
    let statuses = answers.iter().map(|it| it.status);
    match statuses.filter(|status| *status != 4).max() {
        Some(status @ 1..=3) => status,
        _ => 4,
    }
}

// Writes the answers. The answer is the worst status.
fn put_answers<W: Write, E: Write>(
    checks: &Checks,
    answers: &[Judged],
    output: &mut W,
    errors: &mut E,
) -> u8
    ensures none { result ≡ 0 → All (λ (it : Judged). it.status ≡ 0) answers.now }
    ensures range { result ≤ 4 }
{
    let status = worst(answers);
    if answers.iter().any(|it| it.status == BAD_LINE) {
        put_faults(answers, errors);
        return BAD_LINE;
    }
    let written = match checks.form {
        Form::Text => put_texts(answers, output, errors),
        Form::Json => put_json(answers, output),
        Form::Junit => put_junit(checks.task, answers, output),
        Form::Quiet => {
            put_faults(answers, errors);
            Ok(())
        }
    };
    // (at a status of 3 nothing else writes what is left)
    if written.is_err() || output.flush().is_err() {
        let _ = writeln!(errors, "nvmearb: write failed");
        return 3;
    }
    status
}

// Checks several files, or one whose answer is wanted in another form, or audits logs. The answer is the worst status.
#[inline(never)]
fn checked<R: AllocGlobal + Files + Input + Threads + Wait + Sync, W: Write, E: Write>(
    rt: &R,
    checks: &Checks,
    output: &mut W,
    errors: &mut E,
) -> u8
    ensures { result ≤ 4 }
{
    if let Some(name) = &checks.unknown {
        let name = name.as_str();
        let _ = writeln!(
            errors,
            "nvmearb: --format {name:?}: expected text, json or junit"
        );
        return BAD_LINE;
    }
    if checks.files.iter().filter(|it| it.as_str() == "-").count() > 1 {
        let word = checks.task.word();
        let _ = writeln!(errors, "nvmearb: {word}: standard input is named twice");
        return BAD_LINE;
    }
    match all_judged(rt, checks) {
        Ok(answers) => put_answers(checks, answers.as_slice(), output, errors),
        Err(_) => no_memory(errors),
    }
}

// Writes a text of the help. The answer is the exit status.
fn helped<W: Write, E: Write>(text: &str, output: &mut W, errors: &mut E) -> u8
    ensures { result ≤ 4 }
{
    match output.write_all(text.as_bytes()) {
        Ok(()) => 0,
        Err(_) => {
            let _ = writeln!(errors, "nvmearb: write failed");
            3
        }
    }
}

// Does what the words ask for that read or write several files, or files of several kinds. The answer is the exit
// status. None where they are other words.
fn done_around<R, P: Write + Drop + Send, W: Write, E: Write>(
    rt: &R,
    words: &[String],
    terminal: &mut Option<P>,
    notes: &Notes,
    output: &mut W,
    errors: &mut E,
) -> Option<u8>
where
    R: AllocGlobal + Files + Input + Threads + Wait + Sync,
    ensures { IfSome result (λ status. status ≤ 4) }
{
    let alloc = rt.alloc();
    match asked_of(alloc, words) {
        Ok(Request::Lint) => return Some(linted(rt, words, notes, output, errors)),
        Ok(Request::RunFile(mode, workers)) => {
            return ran_otherwise(rt, words, mode, workers, notes, output, errors);
        }
        Err(WordsError::NoMemory(_)) => return Some(no_memory(errors)),
        _ => {}
    }
    match simulation_asked(alloc, words) {
        Ok(Some(line)) => {
            let terminal = terminal.take();
            return Some(simulated(rt, &line, terminal, notes, output, errors));
        }
        Ok(None) => {}
        Err(_) => return Some(no_memory(errors)),
    }
    match asked(alloc, words) {
        Ok(Some(checks)) if checks.are_more() => Some(checked(rt, &checks, output, errors)),
        Ok(_) => None,
        Err(_) => Some(no_memory(errors)),
    }
}

// Whether the words ask for JSON of a subcommand that has none.
fn has_no_json(words: &[String]) -> bool {
    let names = "trace lint expand chart settings demo";
    let is_one = names.split(' ').any(|name| name == subcommand(words));
    is_one && words.iter().any(|word| word.as_str() == "--json")
}

// Does what the words ask for. The answer is the exit status.
fn done<R, P: Write + Drop + Send, W: Write, E: Write>(
    rt: &R,
    words: &[String],
    mut terminal: Option<P>,
    notes: &Notes,
    output: &mut W,
    errors: &mut E,
) -> u8
where
    R: AllocGlobal + Files + Input + Threads + Wait + Sync,
    ensures { result ≤ 4 }
{
    let alloc = rt.alloc();
    if let Some(text) = topic(words) {
        return helped(text, output, errors);
    }
    if has_no_json(words) {
        let _ = writeln!(
            errors,
            "nvmearb: --json: expected run, check, audit, stats or simulate"
        );
        return BAD_LINE;
    }
    if demo::is_asked(words) {
        return demo::show(rt, alloc, output, errors);
    }
    if let Some(status) = done_around(rt, words, &mut terminal, notes, output, errors) {
        return status;
    }
    match output_named(alloc, words) {
        Ok(None) => served(rt, words, terminal, notes, output, errors),
        Ok(Some(name)) => saved(rt, words, terminal, notes, name, errors),
        Err(_) => no_memory(errors),
    }
}

// Does what the words ask for, over standard output and standard error. The answer is the exit status. Where nobody
// reads the output any more nothing is told. A terminal is told how far a simulation is, and how much of a trace is read.
fn answered<R, P: Write + Drop + Send, W: Write + Drop, E: Write + Drop>(
    rt: &R,
    words: &[String],
    terminal: Option<P>,
    output: W,
    errors: E,
) -> u8
where
    R: AllocGlobal + Files + Input + Threads + Wait + Sync,
{
    let alloc = rt.alloc();
    let is_unread = Cell::new(false);
    let notes = Notes::new();
    let mut errors = Errors::new(errors, &is_unread);
    let output = Output::new(Noted::new(output, &notes), &is_unread);
    let Ok(mut output) = BufWriter::new(alloc, output) else {
        return no_memory(&mut errors);
    };
    let mut told = Kept::new(alloc);
    let status = done(rt, words, terminal, &notes, &mut output, &mut told);
    let status = flushed(status, &mut output, &mut told);
    // After a failed write the rest isn't written.
    let _ = output.into_parts();
    let status = tell(alloc, words, &told, &notes, status, &mut errors);
    if is_unread.get() { UNREAD } else { status }
}

// The words, in which `--json` of `run`, `stats`, `check`, `audit` and `simulate` stands for `--format=json`.
fn written_out(alloc: Global, mut words: Vec<String>) -> Result<Vec<String>, AllocError> {
    let name = subcommand(words.as_slice());
    let takes_format = matches!(name, "run" | "stats" | "check" | "audit" | "simulate");
    if !takes_format {
        return Ok(words);
    }
    for word in words.iter_mut() {
        if word.as_str() == "--json" {
            *word = String::from_str(alloc, "--format=json")?;
        }
    }
    Ok(words)
}

// Standard error, where it is a terminal.
fn terminal_of(rt: &HostRuntime) -> Option<Stderr> {
    let errors = rt.stderr();
    if errors.is_terminal() {
        Some(errors)
    } else {
        None
    }
}

fn main(rt: HostRuntime) -> ExitCode {
    match words_of(&rt) {
        Ok(words) => match written_out(rt.alloc(), words) {
            Ok(words) => {
                let (words, output) = (words.as_slice(), io::writer(&rt));
                let status = answered(&rt, words, terminal_of(&rt), output, rt.stderr());
                ExitCode::from(status)
            }
            Err(_) => ExitCode::from(no_memory(&mut rt.stderr())),
        },
        // Words that aren't text are a fault of the command line.
        Err(error) => {
            let no_memory = error.kind() == ErrorKind::OutOfMemory;
            let line = if no_memory {
                "out of memory"
            } else {
                "command line"
            };
            let _ = eprintln!(rt; "nvmearb: {line}");
            ExitCode::from(if no_memory { 3 } else { 2 })
        }
    }
}
