// What the words of the command line ask for.
ghost use Rattle.std.specs.Prelude.{◌≡◌, List, IfOk, IfNone, IfSome, codes};
ghost use Rattle.clap.specs.Words.{Row, found_of, kind_of, rows_of, subcommand_rows_of};
ghost use Rattle.nvme_words.specs.CommandLine.{OnCommandLine};
ghost use Rattle.nvme_words.specs.Requests.{AreNumbers, IsAnswerTo, IsAskedBy, IsFlag, IsFormat, IsRange, IsRequestOf, IsSaid, SubmitsBy, settings_given};
ghost use Rattle.nvme_words.specs.inside.Found.{IsNumberIfAny, IsOneIfAny, IsRequestIfAny, IsRequestOfIfAny, IsTextFor};

use crate::program::program;
use crate::words::{asks, asks_alone};
use clap::ArgMatches;
use clap::error::ErrorKind;
use nvme_lane::Mode;
use nvme_settings::{SettingsFault, settings_in};
use std::alloc::{AllocError, Global};
use thiserror::Error;

/// Which picks of a trace are looked at: from the first to the last, both included, counted from 1.
#[derive(Clone, Copy, Debug, PartialEq, Eq)]
pub struct Range {
    /// The number of the first pick.
    pub first: u64,
    /// The number of the last pick.
    pub last: u64,
}

/// Which picks of a trace a picture draws.
#[derive(Clone, Copy, Debug, PartialEq, Eq)]
pub struct Drawing {
    /// The picks that are looked at.
    pub range: Range,
    /// Whether the admin queue is left out.
    pub no_admin: bool,
}

/// Which numbers of a trace statistics tell.
#[derive(Clone, Copy, Debug, PartialEq, Eq)]
pub struct Numbers {
    /// The picks that are looked at.
    pub range: Range,
    /// How many picks a window has, whose shares are told. 0 for no windows.
    pub window: u64,
    /// Whether only picks count at which each I/O queue has waiting commands.
    pub backlogged: bool,
    /// How they are written.
    pub format: Format,
}

/// How statistics, or the numbers of a simulation, are written.
#[derive(Clone, Copy, Debug, PartialEq, Eq)]
pub enum Format {
    /// A table for people.
    Text,
    /// One JSON object.
    Json,
    /// Comma-separated values.
    Csv,
}

impl Format {
    /// The name of the form on a command line.
    pub fn name(self) -> &'static str {
        match self {
            Format::Text => "text",
            Format::Json => "json",
            Format::Csv => "csv",
        }
    }
}

/// Which options of a subcommand don't go together.
#[derive(Clone, Copy, Debug, PartialEq, Eq, Error)]
pub enum OptionsFault {
    /// `check` is given `--spec` and `--all`. Which picks differ is asked of the profile alone.
    #[error("--all and --spec don't go together")]
    AllOfSpec,
    /// The first pick that is to be looked at is behind the last one.
    #[error("--from {first} is behind --to {last}", first = .0.first, last = .0.last)]
    Behind(Range),
}

/// What the words ask for.
#[derive(Drop)]
pub enum Request {
    /// The completion of one entry over a namespace of this many logical blocks, 1 to 2^63 - 1.
    Once(u64),
    /// The report of a run of a workload in this mode, with this many workers, 1 to 8.
    Run(Mode, u8),
    /// The report of a run of the workload that a file of either form stands for, in this mode, with this many
    /// workers, 1 to 8.
    RunFile(Mode, u8),
    /// The first fault of a workload, of a short file each, or what in a valid one has no effect.
    Lint,
    /// The workload file that a short one stands for.
    Expand,
    /// Whether each pick of a trace is the one that this front makes.
    Check,
    /// Whether the specification allows each pick of a trace.
    CheckSpec,
    /// All picks of a trace that aren't those that this front makes.
    CheckAll,
    /// The trace of a run of a workload in this mode, with this many workers, 1 to 8.
    Trace(Mode, u8),
    /// A picture of a trace, as SVG. The range doesn't end before it begins.
    Chart(Drawing),
    /// Statistics of a trace. The range doesn't end before it begins.
    Stats(Numbers),
    /// The settings of the Arbitration feature that a dword or words say, as Command Dword 11 of Set Features, or why
    /// they say none.
    Settings(Result<u32, SettingsFault>),
    /// Nothing: their options don't go together.
    Unfit(OptionsFault),
    /// The text of the help, or the version.
    Help(clap::Error),
}

/// Why the words ask for nothing. Nothing was done.
#[derive(Debug, Drop, Error)]
pub enum WordsError {
    /// They aren't a command line of the program. The text, which may have several lines, says why.
    #[error("{0}")]
    CommandLine(clap::Error),
    /// The subcommand isn't the first word after the program's name, or it is `simulate` or `audit`, of which
    /// `simulation_asked` and `audit_asked` tell.
    #[error("command line")]
    OtherWord,
    /// Out of memory. The same words may be asked again.
    #[error("out of memory")]
    NoMemory(AllocError),
}

// The mode of a run: live with the flag `--live`, otherwise loaded.
fn mode_of(matches: &ArgMatches) -> Mode
    ensures { SubmitsBy (rows_of (found_of matches.now)) result }
{
    if matches.get_flag("live") {
        Mode::Live
    } else {
        Mode::Loaded
    }
}

/// How statistics, or the numbers of a simulation, are to be written.
pub(crate) fn format_of(matches: &ArgMatches) -> Format
    ensures { IsFormat (rows_of (found_of matches.now)) result }
{
    match matches.get_str("format") {
        Some("json") => Format::Json,
        Some("csv") => Format::Csv,
        _ => Format::Text,
    }
}

// The number of logical blocks.
fn blocks_of(matches: &ArgMatches) -> Option<u64>
    ensures { IsNumberIfAny 64 (codes "blocks") (rows_of (found_of matches.now)) result }
{
    matches.get_one::<u64>("blocks")
}

// The number of workers.
fn workers_of(matches: &ArgMatches) -> Option<u8>
    ensures { IsNumberIfAny 8 (codes "workers") (rows_of (found_of matches.now)) result }
{
    matches.get_one::<u8>("workers")
}

// Whether only picks count at which each I/O queue has waiting commands.
fn backlogged_of(matches: &ArgMatches) -> bool
    ensures { IsFlag (codes "backlogged") (rows_of (found_of matches.now)) result }
{
    match matches.get_str("backlogged") {
        Some("true") => true,
        _ => false,
    }
}

// Whether the admin queue is left out of a picture.
fn no_admin_of(matches: &ArgMatches) -> bool
    ensures { IsFlag (codes "no-admin") (rows_of (found_of matches.now)) result }
{
    match matches.get_str("no-admin") {
        Some("true") => true,
        _ => false,
    }
}

// Whether a trace is judged by the specification alone.
fn spec_of(matches: &ArgMatches) -> bool
    ensures { IsFlag (codes "spec") (rows_of (found_of matches.now)) result }
{
    match matches.get_str("spec") {
        Some("true") => true,
        _ => false,
    }
}

// Whether all picks that differ are told.
fn all_of(matches: &ArgMatches) -> bool
    ensures { IsFlag (codes "all") (rows_of (found_of matches.now)) result }
{
    match matches.get_str("all") {
        Some("true") => true,
        _ => false,
    }
}

// The number of the first pick that is looked at.
fn first_of(matches: &ArgMatches) -> Option<u64>
    ensures { IsNumberIfAny 64 (codes "from") (rows_of (found_of matches.now)) result }
{
    matches.get_one::<u64>("from")
}

// The number of the last pick that is looked at.
fn last_of(matches: &ArgMatches) -> Option<u64>
    ensures { IsNumberIfAny 64 (codes "to") (rows_of (found_of matches.now)) result }
{
    matches.get_one::<u64>("to")
}

// How many picks a window has.
fn window_of(matches: &ArgMatches) -> Option<u64>
    ensures { IsNumberIfAny 64 (codes "window") (rows_of (found_of matches.now)) result }
{
    matches.get_one::<u64>("window")
}

// The picks that are looked at.
fn range_of(matches: &ArgMatches) -> Option<Range>
    ensures { IsOneIfAny (IsRange (rows_of (found_of matches.now))) result }
{
    let first = first_of(matches)?;
    let last = last_of(matches)?;
    Some(Range { first, last })
}

// The numbers that are told.
fn numbers_of(matches: &ArgMatches) -> Option<Numbers>
    ensures { IsOneIfAny (AreNumbers (rows_of (found_of matches.now))) result }
{
    let range = range_of(matches)?;
    let window = window_of(matches)?;
    Some(Numbers {
        range,
        window,
        backlogged: backlogged_of(matches),
        format: format_of(matches),
    })
}

// Which check is asked for.
fn check_of(matches: &ArgMatches) -> Request
    ensures { IsRequestOf (codes "check", rows_of (found_of matches.now)) result }
{
    match (spec_of(matches), all_of(matches)) {
        (false, false) => Request::Check,
        (true, false) => Request::CheckSpec,
        (false, true) => Request::CheckAll,
        (true, true) => Request::Unfit(OptionsFault::AllOfSpec),
    }
}

// What a picture of the picks in a range, with the admin queue or without it, is asked for by: a range that ends before
// it begins asks for none.
fn chart_of(range: Range, no_admin: bool) -> Request
    ensures { (rows : List Row) → IsRange rows range → IsFlag (codes "no-admin") rows no_admin → IsRequestOf (codes "chart", rows) result }
{
    if range.last < range.first {
        Request::Unfit(OptionsFault::Behind(range))
    } else {
        Request::Chart(Drawing { range, no_admin })
    }
}

// What statistics with these numbers are asked for by: a range that ends before it begins asks for none.
fn stats_of(numbers: Numbers) -> Request
    ensures { (rows : List Row) → AreNumbers rows numbers → IsRequestOf (codes "stats", rows) result }
{
    if numbers.range.last < numbers.range.first {
        Request::Unfit(OptionsFault::Behind(numbers.range))
    } else {
        Request::Stats(numbers)
    }
}

// The settings that are to be translated.
fn settings_of(matches: &ArgMatches) -> Result<u32, SettingsFault>
    ensures { result ≡ settings_given (rows_of (found_of matches.now)) }
{
    settings_in(
        matches.get_str("dword"),
        matches.get_str("burst"),
        matches.get_str("weights"),
    )
}

// What a subcommand and its values ask for: none where there is no such subcommand, or a number is missing.
fn request_of(name: &str, matches: &ArgMatches) -> Option<Request>
    ensures { IsRequestOfIfAny (name.now, rows_of (found_of matches.now)) result }
{
    match name {
        "once" => Some(Request::Once(blocks_of(matches)?)),
        "loaded" => Some(Request::Run(Mode::Loaded, workers_of(matches)?)),
        "live" => Some(Request::Run(Mode::Live, workers_of(matches)?)),
        "run" => Some(Request::RunFile(mode_of(matches), workers_of(matches)?)),
        "lint" => Some(Request::Lint),
        "expand" => Some(Request::Expand),
        "check" => Some(check_of(matches)),
        "trace" => Some(Request::Trace(mode_of(matches), workers_of(matches)?)),
        "chart" => Some(chart_of(range_of(matches)?, no_admin_of(matches))),
        "stats" => Some(stats_of(numbers_of(matches)?)),
        "settings" => Some(Request::Settings(settings_of(matches))),
        _ => None,
    }
}

// The request where the words say it: words that ask for a check alone don't ask for one with an option.
fn said(words: &[String], request: Request) -> Option<Request>
    ensures some { IfSome result (λ said. (said ≡ request) × IsSaid words.now request) }
    ensures none { IfNone result (IsSaid words.now request → ⊥) }
{
    let has_option = matches!(
        &request,
        Request::CheckSpec | Request::CheckAll | Request::Unfit(OptionsFault::AllOfSpec)
    );
    if has_option && asks_alone(words, "check") {
        None
    } else {
        Some(request)
    }
}

// What the subcommand asks for: none where it isn't the word after the program's name.
fn asked_in(words: &[String], matches: &ArgMatches) -> Option<Request>
    ensures asked { IfSome result (IsAskedBy words.now) }
    ensures given { IsRequestIfAny words.now (subcommand_rows_of matches.now) result }
{
    let (name, asked) = matches.subcommand()?;
    if asks(words, name) {
        said(words, request_of(name, asked)?)
    } else {
        None
    }
}

/// What the words ask for. The first word is the program's name.
pub fn asked_of(alloc: Global, words: &[String]) -> Result<Request, WordsError>
    ensures asked { IfOk result (IsAskedBy words.now) }
    ensures answer { OnCommandLine (λ app. IsAnswerTo app words.now result) }
{
    let Ok(program) = program(alloc) else {
        return Err(WordsError::NoMemory(AllocError));
    };
    match program.try_get_matches_from(words) {
        Ok(matches) => match asked_in(words, &matches) {
            Some(request) => Ok(request),
            None => Err(WordsError::OtherWord),
        },
        Err(error) => refused(words, error),
    }
}

// What `clap` gives instead of matches: a request for help or for the version, out of memory, or a fault of the
// words. Words that ask for a check alone don't ask for help.
fn refused(words: &[String], error: clap::Error) -> Result<Request, WordsError>
    ensures asked { IfOk result (IsAskedBy words.now) }
    ensures answer { IsTextFor words.now (kind_of error) result }
{
    if error.kind() == ErrorKind::OutOfMemory {
        Err(WordsError::NoMemory(AllocError))
    } else if error.use_stderr() || asks_alone(words, "check") {
        Err(WordsError::CommandLine(error))
    } else {
        Ok(Request::Help(error))
    }
}
