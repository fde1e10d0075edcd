ghost use Rattle.std.specs.Prelude.{◌≡◌, ◌≢◌, ◌≤◌, ◌⊎◌};
ghost use Rattle.nvme_sim.specs.Statuses.{fault_of_words, status_of};
ghost use Rattle.nvme_sim.specs.declared.faults.Fault.TheVariants as fault;
ghost use Rattle.nvme_runs.specs.declared.runs.RunError.TheVariants as run_fault;

use crate::long_script::LongScript;
use crate::second_line::{SecondLine, file_in};
use nvme_front::FrontError;
use nvme_runs::RunError;
use nvme_settings::SettingsFault;
use nvme_short::{ShortDetails, ShortFault, ShortFaults, Spot};
use nvme_trace::TraceError;
use nvme_words::{InputError, MAX_INPUT, OnceError, OptionsFault, WordsError, reads_input_alone};
use nvme_workload::WorkloadError;
use std::alloc::{AllocError, Global};
use std::io::Write;
use thiserror::Error;

/// Why the program doesn't answer. Each fault is told in one line, except one of the command line, whose text may have
/// several, a short workload file, which has a line for each of its faults, and those that have a second line: of a
/// workload, and with the words `run` and `trace` others too.
#[derive(Debug, Drop, Error)]
pub(crate) enum Fault {
    #[error("{0}")]
    CommandLine(clap::Error),
    #[error("nvmearb: command line")]
    Words,
    #[error("nvmearb: {0}")]
    Entry(OnceError),
    #[error("nvmearb: {0}")]
    Input(InputError),
    #[error("nvmearb: out of memory")]
    NoMemory(AllocError),
    #[error("nvmearb: write failed")]
    Write,
    #[error("nvmearb: {0}")]
    Run(RunError),
    #[error("nvmearb: workload: {0}")]
    Workload(nvme_workload::Fault),
    #[error("nvmearb: workload: {0}")]
    Short(ShortFaults),
    #[error("nvmearb: {0}")]
    Trace(TraceError),
    #[error("nvmearb: settings: {0}")]
    Settings(SettingsFault),
    #[error("nvmearb: {0}")]
    Options(OptionsFault),
    // The second line tells the place of the fault, what stands there, and what was expected.
    #[error("nvmearb: workload: {0}")]
    Placed(WorkloadError, nvme_workload::Fault),
    // The second line tells how many commands the script has, and how many its ring holds.
    #[error("nvmearb: script too long for ring {region}", region = .0.region)]
    TooLong(LongScript),
    #[error("nvmearb: front\nnvmearb: {0}")]
    Front(FrontError),
    // With the patience of the workload, which the second line tells.
    #[error("nvmearb: gave up")]
    GaveUp(u32),
}

// Writes a fault of a short file, behind its place in the file of this name.
fn tell_at<E: Write>(file: &str, fault: &ShortFault, errors: &mut E) -> std::io::Result<()> {
    write!(errors, "nvmearb: {file}:")?;
    if let Some(Spot { line, column }) = fault.spot {
        write!(errors, "{line}:{column}:")?;
    }
    let (what, place, details) = (fault.fault, fault.place, ShortDetails(fault));
    writeln!(errors, " {what}: {place}: {details}")
}

// Writes a line for each fault of a short file that is told, and one for those that aren't.
fn tell_short<E: Write>(
    faults: &ShortFaults,
    file: Option<&str>,
    errors: &mut E,
) -> std::io::Result<()> {
    for fault in &faults.told {
        match file {
            Some(file) => tell_at(file, fault, errors)?,
            None => writeln!(errors, "nvmearb: workload: {fault}")?,
        }
    }
    match (faults.more, file) {
        (0, _) => Ok(()),
        (more, Some(file)) => writeln!(errors, "nvmearb: {file}: and {more} more"),
        (more, None) => writeln!(errors, "nvmearb: workload: and {more} more"),
    }
}

impl Fault {
    /// The fault of words that ask for nothing.
    pub(crate) fn of_words(error: WordsError) -> Fault
        ensures fault { result ≡ fault_of_words error }
        ensures no_input { status_of result ≢ 1 }
    {
        match error {
            WordsError::CommandLine(error) => Fault::CommandLine(error),
            WordsError::OtherWord => Fault::Words,
            WordsError::NoMemory(error) => Fault::NoMemory(error),
        }
    }

    /// The program's exit status: 1 for a fault of the input, 2 for one of the command line, 3 for one at run time.
    pub(crate) fn status(&self) -> u8
        ensures table { result ≡ status_of self.now }
        ensures range { (result ≢ 0) × (result ≤ 3) }
        ensures write { (self.now ≡ fault.Write) ⊎ (self.now ≡ fault.Run run_fault.Write) → result ≡ 3 }
    {
        match self {
            Fault::Entry(_) | Fault::Input(InputError::TooLong) => 1,
            Fault::Run(RunError::Workload(_)) => 1,
            Fault::Workload(_) | Fault::Placed(..) | Fault::Short(_) => 1,
            Fault::Trace(TraceError::Line { .. }) => 1,
            Fault::CommandLine(_) | Fault::Words | Fault::Settings(_) | Fault::Options(_) => 2,
            Fault::Run(RunError::Workers) => 2,
            Fault::Input(_) | Fault::NoMemory(_) | Fault::Write => 3,
            Fault::Run(_) | Fault::Front(_) | Fault::GaveUp(_) | Fault::TooLong(_) => 3,
            Fault::Trace(_) => 3,
        }
    }

    /// Writes the text, with a newline at its end. A fault of a workload names the file that the words name.
    pub(crate) fn tell<E: Write>(
        &self,
        alloc: Global,
        words: &[String],
        errors: &mut E,
    ) -> std::io::Result<()> {
        match self {
            Fault::CommandLine(error) => write!(errors, "{error}"),
            Fault::Placed(_, fault) => {
                writeln!(errors, "{self}")?;
                SecondLine::of_placed(alloc, words, fault).write(errors)
            }
            Fault::Workload(fault) => {
                writeln!(errors, "{self}")?;
                SecondLine::of_workload(alloc, words, fault).write(errors)
            }
            Fault::Short(faults) => tell_short(faults, file_in(alloc, words), errors),
            Fault::TooLong(script) => writeln!(errors, "{self}\nnvmearb: {script}"),
            Fault::Input(InputError::TooLong) if !reads_input_alone(words) => {
                writeln!(errors, "{self}: above {MAX_INPUT} bytes")
            }
            Fault::GaveUp(patience) => {
                let turns = if *patience == 1 { "turn" } else { "turns" };
                let why = "in a row (patience), and not all was done";
                writeln!(
                    errors,
                    "{self}\nnvmearb: the front found nothing to do for {patience} {turns} {why}"
                )
            }
            fault => writeln!(errors, "{fault}"),
        }
    }
}
