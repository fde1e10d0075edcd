// Checks of several traces, audits of several logs, and their answers for other programs.
use crate::kept::Kept;
use crate::telling::subcommand;
use nvme_audit_text::{Broken, Place, Told, Verdict, WholeAudit, pick_rule_name, rule_name};
use std::alloc::{AllocError, Global};
use std::io::{self, Write};

// The version of the form of the JSON answer.
const JSON_FORM: u8 = 1;

/// How the answers are written.
#[derive(Clone, Copy, Debug, PartialEq, Eq)]
pub(crate) enum Form {
    Text,
    Json,
    Junit,
    /// Nothing is written.
    Quiet,
}

/// What each file is asked for.
#[derive(Clone, Copy, Debug, PartialEq, Eq)]
pub(crate) enum Task {
    /// Whether the picks of a trace are allowed.
    Check,
    /// Whether the controller of a log keeps the rules.
    Audit,
}

impl Task {
    /// Its word on the command line.
    pub(crate) fn word(self) -> &'static str {
        match self {
            Task::Check => "check",
            Task::Audit => "audit",
        }
    }

    // The task of a line.
    fn of(words: &[String]) -> Option<Task> {
        match subcommand(words) {
            "check" => Some(Task::Check),
            "audit" => Some(Task::Audit),
            _ => None,
        }
    }
}

/// What a line that asks for checks or audits says: how the answers are written, and the words for each file.
#[derive(Drop)]
pub(crate) struct Checks {
    pub(crate) task: Task,
    pub(crate) form: Form,
    pub(crate) files: Vec<String>,
    // The name of a format that there isn't.
    pub(crate) unknown: Option<String>,
    options: Vec<String>,
}

impl Checks {
    // A line before its first option and file.
    fn new(alloc: Global, task: Task) -> Checks {
        Checks {
            task,
            form: Form::Text,
            files: Vec::new(alloc),
            unknown: None,
            options: Vec::new(alloc),
        }
    }

    // Whether the words ask for the help.
    fn ask_for_help(&self) -> bool {
        let mut options = self.options.iter();
        options.any(|it| it.as_str() == "--help" || it.as_str() == "-h")
    }

    /// Whether the answer isn't that of one check as it stands. That of an audit never is.
    pub(crate) fn are_more(&self) -> bool {
        if self.ask_for_help() {
            return false;
        }
        self.task == Task::Audit
            || self.form != Form::Text
            || self.files.len() > 1
            || self.unknown.is_some()
    }

    /// Whether all breaches of a log are told.
    pub(crate) fn tell_all(&self) -> bool {
        let mut options = self.options.iter();
        self.task == Task::Audit && options.any(|it| it.as_str() == "--all")
    }

    /// The words for this file.
    pub(crate) fn words_for(&self, alloc: Global, file: &str) -> Result<Vec<String>, AllocError> {
        let mut words = Vec::new(alloc);
        for word in ["nvmearb", self.task.word()] {
            words.push(String::from_str(alloc, word)?)?;
        }
        for word in &self.options {
            words.push(String::from_str(alloc, word.as_str())?)?;
        }
        for word in ["--", file] {
            words.push(String::from_str(alloc, word)?)?;
        }
        Ok(words)
    }
}

// The form of this name.
fn form_named(name: &str) -> Option<Form> {
    match name {
        "text" => Some(Form::Text),
        "json" => Some(Form::Json),
        "junit" => Some(Form::Junit),
        _ => None,
    }
}

// Whether an option of this name has its value in the next word.
fn takes_value(word: &str) -> bool {
    matches!(word, "--observer" | "--only" | "--without")
}

// What the words behind the task say. What it takes for an option that isn't its own is left to the command line.
fn read(alloc: Global, task: Task, words: &[String]) -> Result<Checks, AllocError> {
    let mut checks = Checks::new(alloc, task);
    let (mut is_quiet, mut ended) = (false, false);
    let (mut is_format, mut is_value) = (false, false);
    for word in words {
        let word = word.as_str();
        let named = word.strip_prefix("--format=");
        if is_format || (!ended && named.is_some()) {
            let name = named.filter(|_| !is_format).unwrap_or(word);
            match form_named(name) {
                Some(form) => checks.form = form,
                None => checks.unknown = Some(String::from_str(alloc, name)?),
            }
            is_format = false;
        } else if is_value {
            checks.options.push(String::from_str(alloc, word)?)?;
            is_value = false;
        } else if ended || word == "-" || !word.starts_with('-') {
            checks.files.push(String::from_str(alloc, word)?)?;
        } else {
            match word {
                "--" => ended = true,
                "--quiet" => is_quiet = true,
                "--format" => is_format = true,
                _ => {
                    checks.options.push(String::from_str(alloc, word)?)?;
                    is_value = takes_value(word);
                }
            }
        }
    }
    if is_quiet && checks.form == Form::Text {
        checks.form = Form::Quiet;
    }
    if checks.files.is_empty() {
        checks.files.push(String::from_str(alloc, "-")?)?;
    }
    Ok(checks)
}

/// What a line of `check` or `audit` asks for. `None` where it is another line.
pub(crate) fn asked(alloc: Global, words: &[String]) -> Result<Option<Checks>, AllocError> {
    let Some(task) = Task::of(words) else {
        return Ok(None);
    };
    match words {
        [_, _, rest @ ..] => Ok(Some(read(alloc, task, rest)?)),
        _ => Ok(None),
    }
}

/// The answer to one file.
#[derive(Drop)]
pub(crate) struct Judged {
    pub(crate) task: Task,
    // Whether all breaches of a log are told.
    pub(crate) tells_all: bool,
    pub(crate) file: String,
    pub(crate) status: u8,
    pub(crate) answer: Kept,
    pub(crate) told: Kept,
    // All breaches of a log, where it could be judged.
    pub(crate) whole: Option<WholeAudit>,
}

impl Judged {
    // What was written of it, the answer or a fault.
    fn text(&self) -> &[u8] {
        match (self.answer.answer(), self.told.answer()) {
            (Some(answer), _) if !answer.is_empty() => answer,
            (_, Some(told)) => told,
            _ => b"nvmearb: out of memory\n",
        }
    }

    // A fault was told, and there is no answer.
    fn is_fault(&self) -> bool {
        !matches!(self.answer.answer(), Some(answer) if !answer.is_empty())
    }

    // The answer in a word.
    fn result(&self) -> &'static str {
        match self.status {
            0 => "lawful",
            1 if self.is_fault() => "faulty",
            1 if self.task == Task::Audit => "broken",
            1 if self.text().starts_with(b"unlawful") => "unlawful",
            1 => "differs",
            4 => "host",
            _ => "failed",
        }
    }
}

// The lines of a text.
fn lines(text: &[u8]) -> &[u8] {
    match text {
        [text @ .., b'\n'] => text,
        _ => text,
    }
}

/// Writes each line of a text behind the name of a file.
pub(crate) fn put_named<W: Write>(file: &str, text: &[u8], output: &mut W) -> io::Result<()> {
    if text.is_empty() {
        return Ok(());
    }
    for line in lines(text).split(|byte| *byte == b'\n') {
        output.write_all(file.as_bytes())?;
        output.write_all(b": ")?;
        output.write_all(line)?;
        output.write_all(b"\n")?;
    }
    Ok(())
}

// Writes a text as a string of JSON.
fn put_string<W: Write>(text: &[u8], output: &mut W) -> io::Result<()> {
    output.write_all(b"\"")?;
    for byte in text {
        match byte {
            b'"' => output.write_all(b"\\\"")?,
            b'\\' => output.write_all(b"\\\\")?,
            0..=0x1f => write!(output, "\\u{byte:04x}")?,
            _ => output.write_all(&[*byte])?,
        }
    }
    output.write_all(b"\"")
}

// Writes the lines of a text as an array of JSON.
fn put_lines<W: Write>(text: &[u8], output: &mut W) -> io::Result<()> {
    let mut before: &[u8] = b"[";
    for line in lines(text).split(|byte| *byte == b'\n') {
        output.write_all(before)?;
        put_string(line, output)?;
        before = b",";
    }
    output.write_all(b"]")
}

// Writes a breach of the controller as an object of JSON, behind this text. The answer stands before the next one.
fn put_breach<W: Write>(
    broken: &Broken,
    before: &'static [u8],
    output: &mut W,
) -> io::Result<&'static [u8]> {
    let name = match broken {
        Broken::OfQueues(finding) => {
            let Verdict::Broken(rule) = finding.said else {
                return Ok(before);
            };
            rule_name(rule)
        }
        Broken::OfArbitration(finding) => pick_rule_name(finding.breach.rule),
    };
    let line = broken.line();
    output.write_all(before)?;
    write!(output, "{{\"line\":{line},\"rule\":\"{name}\"}}")?;
    Ok(b",")
}

// Writes the breaches of the controller as an array of JSON.
fn put_breaches<W: Write>(whole: &Option<WholeAudit>, output: &mut W) -> io::Result<()> {
    let mut before: &'static [u8] = b"";
    output.write_all(b",\"breaches\":[")?;
    if let Some(whole) = whole {
        let mut at = Place::first();
        for _ in 0..whole.told() {
            let Some(broken) = whole.broken_at(at) else {
                break;
            };
            before = put_breach(&broken, before, output)?;
            at = at.behind(&broken);
        }
    }
    output.write_all(b"]")
}

/// Writes the answers as an object of JSON.
pub(crate) fn put_json<W: Write>(answers: &[Judged], output: &mut W) -> io::Result<()> {
    write!(output, "{{\"form\":{JSON_FORM},\"files\":[")?;
    let mut before = "";
    for judged in answers {
        write!(output, "{before}{{\"file\":")?;
        put_string(judged.file.as_bytes(), output)?;
        let (status, result) = (judged.status, judged.result());
        write!(
            output,
            ",\"status\":{status},\"result\":\"{result}\",\"lines\":"
        )?;
        put_lines(judged.text(), output)?;
        if judged.tells_all {
            put_breaches(&judged.whole, output)?;
        }
        output.write_all(b"}")?;
        before = ",";
    }
    output.write_all(b"]}\n")
}

// Whether U+FFFE or U+FFFF, which no XML may have, begins a text.
fn begins_with_none(text: Option<&[u8]>) -> bool {
    matches!(text, Some([0xef, 0xbf, 0xbe | 0xbf, ..]))
}

// What stands in XML for a byte, and nothing where it is itself. A question mark stands for what no XML may have.
fn xml_of(byte: u8, breaks: [&'static [u8]; 2]) -> &'static [u8] {
    match byte {
        b'&' => b"&amp;",
        b'<' => b"&lt;",
        b'>' => b"&gt;",
        b'"' => b"&quot;",
        b'\t' => breaks[0],
        b'\n' => breaks[1],
        0..=0x1f => b"?",
        _ => b"",
    }
}

// Writes a text of XML, in which these stand for tabs and line breaks.
fn put_xml<W: Write>(text: &[u8], breaks: [&'static [u8]; 2], output: &mut W) -> io::Result<()> {
    for (at, byte) in text.iter().enumerate() {
        let shown = xml_of(*byte, breaks);
        if begins_with_none(text.get(at..)) {
            output.write_all(b"?")?;
        } else if (1..3).any(|back| begins_with_none(
            at.checked_sub(back).and_then(|from| text.get(from..)),
        )) {
            continue;
        } else if shown.is_empty() {
            output.write_all(&[*byte])?;
        } else {
            output.write_all(shown)?;
        }
    }
    Ok(())
}

// Tabs and line breaks between tags, and in an attribute, where a reader would take them for blanks.
const BETWEEN: [&[u8]; 2] = [b"\t", b"\n"];

const IN_ATTRIBUTE: [&[u8]; 2] = [b"&#9;", b"&#10;"];

// A writer of XML, which stands between tags.
#[derive(Drop)]
struct Escaped<'a, W> {
    output: &'a mut W,
}

impl<W: Write> Write for Escaped<'_, W> {
    fn write(&mut self, buf: &[u8]) -> io::Result<usize> {
        put_xml(buf, BETWEEN, self.output)?;
        Ok(buf.len())
    }

    fn flush(&mut self) -> io::Result<()> {
        self.output.flush()
    }
}

// Writes a breach as a failure, which isn't ended.
fn put_failure<W: Write>(kind: &str, breach: &Broken, output: &mut W) -> io::Result<()> {
    write!(output, "<failure message=\"{kind}\">")?;
    let mut escaped = Escaped { output };
    write!(escaped, "{breach}")
}

// Ends the last failure of a kind, behind how many more there are.
fn end_failures<W: Write>(kind: &str, more: u64, end: &str, output: &mut W) -> io::Result<()> {
    if more > 0 {
        write!(output, "\n{kind}: and {more} more")?;
    }
    output.write_all(end.as_bytes())
}

// Writes each breach of the controller as a failure.
fn put_broken_failures<W: Write>(whole: &WholeAudit, output: &mut W) -> io::Result<()> {
    let (mut end, mut at) = ("", Place::first());
    for _ in 0..whole.told() {
        let Some(broken) = whole.broken_at(at) else {
            break;
        };
        output.write_all(end.as_bytes())?;
        put_failure("broken", &broken, output)?;
        (end, at) = ("</failure>", at.behind(&broken));
    }
    end_failures("broken", whole.untold(), end, output)
}

// Writes each breach of the host that is told as a failure.
fn put_host_failures<W: Write>(hosts: &Told, output: &mut W) -> io::Result<()> {
    let mut end = "";
    for finding in &hosts.first {
        output.write_all(end.as_bytes())?;
        put_failure("host", &Broken::OfQueues(*finding), output)?;
        end = "</failure>";
    }
    let more = hosts.count.saturating_sub(hosts.first.len() as u64);
    end_failures("host", more, end, output)
}

// Writes the answer to one file as a test case.
fn put_case<W: Write>(judged: &Judged, output: &mut W) -> io::Result<()> {
    let word = judged.task.word();
    write!(output, "<testcase classname=\"nvmearb {word}\" name=\"")?;
    put_xml(judged.file.as_bytes(), IN_ATTRIBUTE, output)?;
    if judged.status == 0 {
        return output.write_all(b"\"/>\n");
    }
    if let Some(whole) = &judged.whole {
        output.write_all(b"\">")?;
        put_broken_failures(whole, output)?;
        put_host_failures(&whole.host, output)?;
        return output.write_all(b"</testcase>\n");
    }
    let kind = if judged.is_fault() {
        "error"
    } else {
        "failure"
    };
    write!(output, "\"><{kind} message=\"{}\">", judged.result())?;
    put_xml(lines(judged.text()), BETWEEN, output)?;
    write!(output, "</{kind}></testcase>\n")
}

/// Writes the answers as test cases of JUnit.
pub(crate) fn put_junit<W: Write>(
    task: Task,
    answers: &[Judged],
    output: &mut W,
) -> io::Result<()> {
    let word = task.word();
    let faults = answers.iter().filter(|it| it.is_fault()).count();
    let refused = answers
        .iter()
        .filter(|it| it.status != 0 && !it.is_fault())
        .count();
    let tests = answers.len();
    writeln!(output, "<?xml version=\"1.0\" encoding=\"UTF-8\"?>")?;
    writeln!(
        output,
        "<testsuite name=\"nvmearb {word}\" tests=\"{tests}\" failures=\"{refused}\" errors=\"{faults}\">"
    )?;
    for judged in answers {
        put_case(judged, output)?;
    }
    writeln!(output, "</testsuite>")
}
