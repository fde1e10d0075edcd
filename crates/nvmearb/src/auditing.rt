// `nvmearb audit`, of one log.
ghost use Rattle.std.specs.Prelude.{◌≡◌, ◌≤◌, IfErr};

use crate::noted::{Noted, Notes};
use crate::telling::{failed, no_memory, unwritten};
use nvme_audit_text::{
    Audit, Count, LogError, Observer, Rule, View, WholeAudit, audit_log, audit_whole_log,
    pick_rule_name, pick_rules, rule_name, rule_named, rules,
};
use nvme_sim::AuditWords;
use std::alloc::Global;
use std::fs;
use std::io::{self, Read, Write};
use std::rt::Files;

// The exit statuses of a rule that the controller breaks, or of a faulty log, of a fault of the command line, of one at
// run time, and where only the host breaks rules.
const BROKEN: u8 = 1;

const BAD_LINE: u8 = 2;

const RUN: u8 = 3;

const HOST: u8 = 4;

// An option that names rules.
#[derive(Clone, Copy)]
enum Choice {
    Only,
    Without,
}

impl Choice {
    // Its word on the command line.
    fn word(self) -> &'static str {
        match self {
            Choice::Only => "--only",
            Choice::Without => "--without",
        }
    }

    // Whether it may name a rule. Those that are always judged can't be left out.
    fn may_name(self, rule: Rule) -> bool {
        let mut without = View::whole();
        without.leave_out(rule);
        matches!(self, Choice::Only) || without != View::whole()
    }

    // Whether it may have this name of a rule. Those of arbitration can't be left out.
    fn may_have(self, name: &str) -> bool {
        match rule_named(name) {
            Some(rule) => self.may_name(rule),
            None => matches!(self, Choice::Only) && is_pick_rule(name),
        }
    }
}

// Whether a name is that of a rule of arbitration.
fn is_pick_rule(name: &str) -> bool {
    pick_rules()
        .iter()
        .any(|rule| pick_rule_name(*rule) == name)
}

// Whether a rule is among these names.
fn is_among(rule: Rule, names: &str) -> bool {
    names.split(',').any(|name| rule_named(name) == Some(rule))
}

// The first of these names that is none of a rule which the option may name.
fn unfit_in(choice: Choice, names: &str) -> Option<&str> {
    names.split(',').find(|name| !choice.may_have(name))
}

// Writes that an option has another value. The answer is the exit status.
fn unfit<E: Write>(option: &str, value: &str, wanted: &str, errors: &mut E) -> u8
    ensures { result ≤ 4 }
{
    let _ = writeln!(errors, "nvmearb: {option} {value:?}: expected {wanted}");
    BAD_LINE
}

// Writes the name of a rule behind this text, where an option may have it. The answer stands before the next name.
fn put_rule<E: Write>(
    choice: Choice,
    name: &str,
    before: &'static str,
    errors: &mut E,
) -> &'static str {
    if !choice.may_have(name) {
        return before;
    }
    let _ = write!(errors, "{before}{name}");
    ", "
}

// Writes that a name is that of no rule which an option may name. The answer is the exit status.
fn no_rule<E: Write>(choice: Choice, name: &str, errors: &mut E) -> u8
    ensures { result ≤ 4 }
{
    let option = choice.word();
    let _ = write!(errors, "nvmearb: {option} {name:?}: expected rules of");
    let mut before = " ";
    for rule in rules() {
        before = put_rule(choice, rule_name(*rule), before, errors);
    }
    for rule in pick_rules() {
        before = put_rule(choice, pick_rule_name(*rule), before, errors);
    }
    let _ = writeln!(errors);
    BAD_LINE
}

// What a line looks at. Where it says something else, that is told, and the error is the exit status.
fn view_of<E: Write>(line: &AuditWords, errors: &mut E) -> Result<View, u8>
    ensures { IfErr result (λ status. status ≤ 4) }
{
    let mut view = match line.observer {
        None => View::whole(),
        Some("bus") => View::of(Observer::Bus),
        Some("host") => View::of(Observer::Host),
        Some(other) => return Err(unfit("--observer", other, "bus or host", errors)),
    };
    for (choice, names) in [(Choice::Only, line.only), (Choice::Without, line.without)] {
        if let Some(names) = names
            && let Some(name) = unfit_in(choice, names)
        {
            return Err(no_rule(choice, name, errors));
        }
    }
    for rule in rules() {
        let is_out = line.without.is_some_and(|names| is_among(*rule, names));
        if is_out || line.only.is_some_and(|names| !is_among(*rule, names)) {
            view.leave_out(*rule);
        }
    }
    Ok(view)
}

// Writes how often the rule of a name asked something.
fn put_times<W: Write>(name: &str, times: u64, output: &mut W) -> io::Result<()> {
    match times {
        0 => writeln!(output, "coverage: {name}: never"),
        _ => writeln!(output, "coverage: {name}: {times}"),
    }
}

// Writes how often each rule asked something, where that is wanted: those of arbitration of each pick that was judged.
fn put_counts<W: Write>(
    counts: &[Count],
    picks: u64,
    coverage: bool,
    output: &mut W,
) -> io::Result<()> {
    if !coverage {
        return Ok(());
    }
    for count in counts {
        put_times(rule_name(count.rule), count.times, output)?;
    }
    for rule in pick_rules() {
        put_times(pick_rule_name(*rule), picks, output)?;
    }
    Ok(())
}

// Writes what was found.
fn put_audit<W: Write>(audit: &Audit, coverage: bool, output: &mut W) -> io::Result<()> {
    writeln!(output, "{audit}")?;
    put_counts(&audit.asked, audit.picks, coverage, output)
}

// Writes what was found where all breaches are told.
fn put_whole_audit<W: Write>(audit: &WholeAudit, coverage: bool, output: &mut W) -> io::Result<()> {
    writeln!(output, "{audit}")?;
    put_counts(&audit.asked, audit.picks, coverage, output)
}

// The exit status of an answer that was written, or not.
fn status_of<E: Write>(
    written: io::Result<()>,
    is_broken: bool,
    host_breaches: u64,
    errors: &mut E,
) -> u8
    ensures { result ≤ 4 }
{
    match written {
        Err(_) => unwritten(errors),
        Ok(()) if is_broken => BROKEN,
        Ok(()) if host_breaches > 0 => HOST,
        Ok(()) => 0,
    }
}

// Writes why a log isn't judged. The answer is the exit status.
fn put_fault<E: Write>(error: &LogError, errors: &mut E) -> u8
    ensures { result ≤ 4 }
{
    let _ = writeln!(errors, "nvmearb: {error}");
    match error {
        LogError::Line { .. } => BROKEN,
        _ => RUN,
    }
}

// Writes why there is no answer. The answer is the exit status.
fn put_error<E: Write>(error: LogError, errors: &mut E) -> u8
    ensures { result ≤ 4 }
{
    match error {
        LogError::NoMemory => no_memory(errors),
        error => put_fault(&error, errors),
    }
}

/// What came of an audit.
#[derive(Drop)]
pub(crate) struct AuditOutcome {
    /// The exit status.
    pub(crate) status: u8,
    /// All breaches, where they were asked for and the log could be judged.
    pub(crate) whole: Option<WholeAudit>,
}

impl AuditOutcome {
    // The breaches aren't told one by one.
    fn without(status: u8) -> AuditOutcome
        ensures { result.status ≡ status }
    {
        AuditOutcome {
            status,
            whole: None,
        }
    }
}

// Audits what is read, to the first breach of the controller. The answer is the exit status.
fn audited_from<R: Read + Drop, W: Write, E: Write>(
    alloc: Global,
    view: &View,
    coverage: bool,
    input: R,
    output: &mut W,
    errors: &mut E,
) -> u8
    ensures { result ≤ 4 }
{
    match audit_log(alloc, view, input) {
        Ok(audit) => {
            let written = put_audit(&audit, coverage, output);
            status_of(written, audit.broken.is_some(), audit.host_breaches, errors)
        }
        Err(error) => put_error(error, errors),
    }
}

// Audits all that is read.
fn all_audited_from<R: Read + Drop, W: Write, E: Write>(
    alloc: Global,
    view: &View,
    coverage: bool,
    input: R,
    output: &mut W,
    errors: &mut E,
) -> AuditOutcome
    ensures { result.status ≤ 4 }
{
    match audit_whole_log(alloc, view, input) {
        Ok(audit) => {
            let written = put_whole_audit(&audit, coverage, output);
            let is_broken = audit.broken.count > 0 || audit.unlawful.count > 0;
            AuditOutcome {
                status: status_of(written, is_broken, audit.host.count, errors),
                whole: Some(audit),
            }
        }
        Err(error) => AuditOutcome::without(put_error(error, errors)),
    }
}

// Audits what is read, as a line asks for it.
fn audited_as<R: Read + Drop, W: Write, E: Write>(
    alloc: Global,
    view: &View,
    line: &AuditWords,
    input: R,
    output: &mut W,
    errors: &mut E,
) -> AuditOutcome
    ensures { result.status ≤ 4 }
{
    let coverage = line.coverage;
    if line.all {
        all_audited_from(alloc, view, coverage, input, output, errors)
    } else {
        AuditOutcome::without(audited_from(alloc, view, coverage, input, output, errors))
    }
}

/// Audits a log.
#[inline(never)]
pub(crate) fn audited<R: AllocGlobal + Files + Input, W: Write, E: Write>(
    rt: &R,
    line: &AuditWords,
    notes: &Notes,
    output: &mut W,
    errors: &mut E,
) -> AuditOutcome
    ensures { result.status ≤ 4 }
{
    let view = match view_of(line, errors) {
        Ok(view) => view,
        Err(status) => return AuditOutcome::without(status),
    };
    let alloc = rt.alloc();
    match line.file {
        Some(name) => match fs::open(rt, name) {
            Ok(file) => {
                let input = Noted::new(file, notes);
                audited_as(alloc, &view, line, input, output, errors)
            }
            Err(error) => AuditOutcome::without(failed("open", name, &error, errors)),
        },
        None => {
            let input = Noted::new(rt.reader(), notes);
            audited_as(alloc, &view, line, input, output, errors)
        }
    }
}
