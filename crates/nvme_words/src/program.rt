// The command line of the program, by `clap`.
ghost use Rattle.std.specs.Prelude.{◌≡◌, IfOk, codes};
ghost use Rattle.clap.specs.Words.{App, app_of};
ghost use Rattle.nvme_words.specs.CommandLine.{OnCommandLine, all, audit, backlogged, blocks, bounded, bounds, chart, check, coverage, dword, expand, file, first, format, jobs, last, lint, mode, no_admin, no_head, number, once, points, option, ranged, reported, run, output, quiet, settings, simulate, stats, text_option, trace, traced, window, with_file, with_input, with_run, with_trace, workers, seeds, sweep, swept, viewed};
ghost use Rattle.nvme_words.specs.inside.Built.{AddsIfMade, HasApp, HasRule};

use clap::builder::ValueParser;
use clap::{Arg, ArgAction, Command, value_parser};
use nvme_pool::MAX_WORKERS;
use nvme_version::VERSION;
use std::alloc::{AllocError, Global};

/// The most threads of a sweep.
pub const MAX_JOBS: u8 = 64;

const FORMATS: &[&str] = &["text", "json", "csv"];

// What stands in the help for a file, and for one or several.
const FILE: &str = "FILE";

const FILES: &str = "FILE..";

// The text below the help.
const AFTER_HELP: &str = "\
First steps, without a file:
  nvmearb demo           a workload, what arbitration makes of it, and how to go on
  nvmearb help workload  the keys of a workload file: type, default, range, example
  nvmearb help simulation, nvmearb help trace
                         the keys of a simulation file, the fields of a trace

Input:
  FILE            a file, or - for standard input; without FILE simulate, check,
                  stats, chart and audit read standard input
  run, trace, lint, expand
                  a workload file: TOML, at most 16777216 bytes
  simulate, lint  a simulation file: TOML, with a table device
  check, stats, chart
                  a trace: JSON, a line of at most 4096 bytes for each event
  audit           a log of a controller: JSON, a line of at most 4096 bytes for each event
  settings        none
  once            a submission entry: 128 hexadecimal digits
  loaded, live    a workload file as expand writes it, from standard input

Ranges:
  N               of --workers 1 to 8; of --commands 1 to 100000000; of --jobs 1 to 64
  B               1 to 9223372036854775807 logical blocks
  FIRST, LAST     numbers of picks, counted from 1, both included, FIRST at most LAST
  TIME            a number with a unit: ps, ns, us, ms, s, as 1.5ms
  LOAD            above 0 and at most 4, with at most six digits behind the point, as 0.7
  DWORD           a number of 32 bits, in hexadecimal as 0x07030103 or in decimal
  BURST           1, 2, 4, 8, 16, 32, 64, or none for no limit
  WEIGHTS         of high, medium and low, each 1 to 256, as 8:4:2

Exit status:
  0  done; with lint there is nothing to say, with check each pick is the one that
     this front makes, or with --spec one that the specification allows; with audit
     nobody breaks a rule
  1  the input is at fault; with check also: a pick is another one; with audit also:
     the controller breaks a rule
  2  the command line is at fault
  3  the run failed: a file wasn't opened, read or written, memory was refused, or not all
     was done
  4  with lint: the file is lawful, and there are warnings; with audit: only the host
     breaks rules
  141  nobody reads the output any more, as after | head; nothing is told

Example:
  nvmearb lint examples/five-queues.toml
  nvmearb run examples/five-queues.toml --workers 2
  nvmearb trace examples/five-queues.toml | nvmearb check
  nvmearb simulate examples/sim/three-classes.toml --time 1s
  nvmearb settings --burst 8 --weights 8:4:2

Manual pages: nvmearb(1), and nvmearb(5) for files, traces and reports";

// What ends the help of a subcommand whose statuses mean more than those of the others.
const LINT_STATUSES: &str = "\
Exit status:
  0  there is nothing to say
  1  the input is at fault
  4  the file is lawful, and there are warnings
  2, 3 and 141 are those of nvmearb --help";

const CHECK_STATUSES: &str = "\
Exit status:
  0  each pick is the one that this front makes, or with --spec one that the
     specification allows
  1  the input is at fault, or a pick is another one
  2, 3 and 141 are those of nvmearb --help";

const AUDIT_STATUSES: &str = "\
Exit status:
  0  nobody breaks a rule
  1  the input is at fault, or the controller breaks a rule
  4  only the host breaks rules
  2, 3 and 141 are those of nvmearb --help";

// An option with one value.
fn option_arg<'a>(
    alloc: Global,
    name: &'a str,
    value: &'a str,
    help: &'a str,
    parser: ValueParser<'a>,
) -> Arg<'a>
    ensures { HasRule (option name.now parser.entry) result }
{
    Arg::new(alloc, name)
        .long(name)
        .value_name(value)
        .help(help)
        .action(ArgAction::Set)
        .value_parser(parser)
}

// The number of workers.
fn workers_arg<'a>(alloc: Global) -> Arg<'a>
    ensures { HasRule workers result }
{
    let range = value_parser!(u8).range(1..=i64::from(MAX_WORKERS));
    option_arg(
        alloc,
        "workers",
        "N",
        "The number of workers, 1 to 8",
        range,
    )
}

// The name of the input's file. What stands in its place in the help is `FILES` where several may be named.
fn file_arg<'a>(alloc: Global, value: &'a str, help: &'a str) -> Arg<'a>
    ensures { HasRule file result }
{
    Arg::new(alloc, "file")
        .value_name(value)
        .help(help)
        .action(ArgAction::Set)
}

// The size of the namespace.
fn blocks_arg<'a>(alloc: Global) -> Arg<'a>
    ensures { HasRule blocks result }
{
    let range = value_parser!(u64).range(1..=i64::MAX);
    option_arg(
        alloc,
        "blocks",
        "B",
        "The size of namespace 1 in logical blocks",
        range,
    )
}

// The subcommand that answers one entry.
fn once_command<'a>(alloc: Global) -> Result<Command<'a>, AllocError>
    ensures { IfOk result (HasApp once) }
{
    Command::new(alloc, "once")
        .about("Answers a submission entry, read in hexadecimal, by its completion entry")
        .arg(blocks_arg(alloc).required(true))
}

// A subcommand that runs a workload of standard input.
fn mode_command<'a>(alloc: Global, name: &'a str, about: &'a str) -> Result<Command<'a>, AllocError>
    ensures { IfOk result (HasApp (mode name.now)) }
{
    Command::new(alloc, name)
        .about(about)
        .arg(workers_arg(alloc).required(true))
}

// A subcommand that runs the workload of a file.
fn run_command<'a>(alloc: Global, name: &'a str, about: &'a str) -> Result<Command<'a>, AllocError>
    ensures { IfOk result (HasApp (run name.now)) }
{
    let file = file_arg(alloc, FILE, "The workload file, or - for standard input");
    let live = Arg::new(alloc, "live")
        .long("live")
        .help("Let the hosts submit while the front works")
        .action(ArgAction::SetTrue);
    Command::new(alloc, name)
        .about(about)
        .arg(file.required(true))?
        .arg(live)?
        .arg(workers_arg(alloc).default_value("1"))
}

// The file that an answer is written to.
fn output_arg<'a>(alloc: Global) -> Arg<'a>
    ensures { HasRule output result }
{
    Arg::new(alloc, "output")
        .short('o')
        .long("output")
        .value_name("FILE")
        .help("The file that is written; standard output where it is - or is left out")
        .action(ArgAction::Set)
}

// The subcommand that prints the report of a run.
fn reported_command<'a>(alloc: Global) -> Result<Command<'a>, AllocError>
    ensures { IfOk result (HasApp reported) }
{
    let summary = Arg::new(alloc, "summary")
        .long("summary")
        .help("Print settings, picks and shares of queues, and completions by status alone")
        .action(ArgAction::SetTrue);
    let format =
        "How the report is written: text or json; without it text; --json stands for --format json";
    let about = "Runs the workload of a file, and prints its report";
    run_command(alloc, "run", about)?
        .arg(summary)?
        .arg(text_arg(alloc, "format", "FORMAT", format))
}

// The subcommand that writes the trace of a run.
fn traced_command<'a>(alloc: Global) -> Result<Command<'a>, AllocError>
    ensures { IfOk result (HasApp traced) }
{
    let about = "Runs the workload of a file, and prints its trace, or writes it to a file";
    run_command(alloc, "trace", about)?.arg(output_arg(alloc))
}

// The subcommand that looks for faults of a file.
fn lint_command<'a>(alloc: Global) -> Result<Command<'a>, AllocError>
    ensures { IfOk result (HasApp lint) }
{
    let file = file_arg(
        alloc,
        FILE,
        "The workload or simulation file, or - for standard input",
    );
    Command::new(alloc, "lint")
        .about(
            "Tells where a workload or simulation file is at fault, or what of it comes to nothing",
        )
        .after_help(LINT_STATUSES)
        .arg(file.required(true))
}

// The subcommand that writes the workload of a file out.
fn expand_command<'a>(alloc: Global) -> Result<Command<'a>, AllocError>
    ensures { IfOk result (HasApp expand) }
{
    let file = file_arg(alloc, FILE, "The workload file, or - for standard input");
    Command::new(alloc, "expand")
        .about("Writes a short workload file out, entry by entry")
        .arg(file.required(true))
}

// A subcommand that reads one trace.
fn trace_command<'a>(
    alloc: Global,
    name: &'a str,
    about: &'a str,
) -> Result<Command<'a>, AllocError>
    ensures { IfOk result (HasApp (trace name.now)) }
{
    let file = file_arg(
        alloc,
        FILE,
        "The trace; standard input where it is - or is left out",
    );
    Command::new(alloc, name).about(about).arg(file)
}

// What `--all` says of picks, and of breaches.
const ALL_PICKS: &str =
    "Go on after a pick that differs: tell the first ten, and how many there are; not with --spec";

const ALL_BREACHES: &str = "\
Go on after a breach of the controller, with the queues that it doesn't touch: tell the first 1000";

// Whether all picks that differ are told, or all breaches.
fn all_arg<'a>(alloc: Global, help: &'a str) -> Arg<'a>
    ensures { HasRule all result }
{
    Arg::new(alloc, "all")
        .long("all")
        .help(help)
        .action(ArgAction::SetTrue)
}

// How an answer on traces or logs is written.
const VERDICT_FORMAT: &str = "\
How the answer is written: text, json or junit; without it text; --json stands for --format json";

// Whether only the status tells the answer.
fn quiet_arg<'a>(alloc: Global) -> Arg<'a>
    ensures { HasRule quiet result }
{
    Arg::new(alloc, "quiet")
        .long("quiet")
        .help("Tell nothing but the status; faults stay")
        .action(ArgAction::SetTrue)
}

// The subcommand that judges a trace.
fn check_command<'a>(alloc: Global) -> Result<Command<'a>, AllocError>
    ensures { IfOk result (HasApp check) }
{
    let spec = Arg::new(alloc, "spec")
        .long("spec")
        .help("Judge by what the NVM Express Base Specification alone asks of a pick")
        .action(ArgAction::SetTrue);
    let about =
        "Tells whether each pick of a trace, or of several, is the one that this front makes";
    let help = "A trace, or several; standard input where it is - or is left out";
    Command::new(alloc, "check")
        .about(about)
        .after_help(CHECK_STATUSES)
        .arg(file_arg(alloc, FILES, help))?
        .arg(spec)?
        .arg(all_arg(alloc, ALL_PICKS))?
        .arg(quiet_arg(alloc))?
        .arg(text_arg(alloc, "format", "FORMAT", VERDICT_FORMAT))
}

// From which pick of a trace on it is looked at.
fn first_arg<'a>(alloc: Global) -> Arg<'a>
    ensures { HasRule first result }
{
    let range = value_parser!(u64).range(1..=i64::MAX);
    let help = "The number of the first pick to look at";
    option_arg(alloc, "from", "FIRST", help, range).default_value("1")
}

// Up to which pick of a trace it is looked at.
fn last_arg<'a>(alloc: Global) -> Arg<'a>
    ensures { HasRule last result }
{
    let range = value_parser!(u64).range(1..=i64::MAX);
    let help = "The number of the last pick to look at";
    option_arg(alloc, "to", "LAST", help, range)
        .default_value("9223372036854775807")
        .hide_default_value(true)
}

// How many picks a window has.
fn window_arg<'a>(alloc: Global) -> Arg<'a>
    ensures { HasRule window result }
{
    let range = value_parser!(u64).range(0..=i64::MAX);
    let help = "Tell shares by windows of N picks, in at most 4096 rows";
    option_arg(alloc, "window", "N", help, range)
        .default_value("0")
        .hide_default_value(true)
}

// Whether only picks count at which each I/O queue has waiting commands.
fn backlogged_arg<'a>(alloc: Global) -> Arg<'a>
    ensures { HasRule backlogged result }
{
    Arg::new(alloc, "backlogged")
        .long("backlogged")
        .help("Count only picks at which each I/O queue has waiting commands")
        .action(ArgAction::SetTrue)
}

// A subcommand that shows a part of a trace.
fn ranged_command<'a>(
    alloc: Global,
    name: &'a str,
    about: &'a str,
) -> Result<Command<'a>, AllocError>
    ensures { IfOk result (HasApp (ranged name.now)) }
{
    trace_command(alloc, name, about)?
        .arg(first_arg(alloc))?
        .arg(last_arg(alloc))
}

// Whether the admin queue is left out of a picture.
fn no_admin_arg<'a>(alloc: Global) -> Arg<'a>
    ensures { HasRule no_admin result }
{
    Arg::new(alloc, "no-admin")
        .long("no-admin")
        .help("Leave the admin queue out, with its picks")
        .action(ArgAction::SetTrue)
}

// The subcommand that draws a trace.
fn chart_command<'a>(alloc: Global) -> Result<Command<'a>, AllocError>
    ensures { IfOk result (HasApp chart) }
{
    let about = "Prints a picture of a trace as SVG, or writes it to a file";
    ranged_command(alloc, "chart", about)?
        .arg(no_admin_arg(alloc))?
        .arg(output_arg(alloc))
}

// Whether it is told how often each rule asked something.
fn coverage_arg<'a>(alloc: Global) -> Arg<'a>
    ensures { HasRule coverage result }
{
    Arg::new(alloc, "coverage")
        .long("coverage")
        .help("Tell of each rule of how many events it asked something, too")
        .action(ArgAction::SetTrue)
}

// The subcommand that audits a log, with the options that say what is looked at.
fn viewed_command<'a>(alloc: Global) -> Result<Command<'a>, AllocError>
    ensures { IfOk result (HasApp viewed) }
{
    let observer = "Judge as if only that were told: bus or host";
    let only = "Judge by these rules, and by those on which all others rest, alone";
    let without = "Judge without these: fetch-beyond-tail, fetch-slot, slot, phase, cq-full, sqhd";
    let help = "A log, or several; standard input where it is - or is left out";
    Command::new(alloc, "audit")
        .about("Tells whether a controller keeps the rules of NVM Express in a log, or in several")
        .after_help(AUDIT_STATUSES)
        .arg(file_arg(alloc, FILES, help))?
        .arg(text_arg(alloc, "observer", "OBSERVER", observer))?
        .arg(text_arg(alloc, "only", "RULE,..", only))?
        .arg(text_arg(alloc, "without", "RULE,..", without))
}

// The subcommand that audits a log.
fn audit_command<'a>(alloc: Global) -> Result<Command<'a>, AllocError>
    ensures { IfOk result (HasApp audit) }
{
    viewed_command(alloc)?
        .arg(all_arg(alloc, ALL_BREACHES))?
        .arg(coverage_arg(alloc))?
        .arg(quiet_arg(alloc))?
        .arg(text_arg(alloc, "format", "FORMAT", VERDICT_FORMAT))
}

// How numbers are written.
fn format_arg<'a>(alloc: Global, formats: &'a [&'a str]) -> Arg<'a>
    ensures { HasRule (format formats.entry) result }
{
    let help =
        "Tables for people, one JSON object, or comma-separated values; --json stands for --format json";
    let names = ValueParser::Names(formats);
    option_arg(alloc, "format", "FORMAT", help, names).default_value("text")
}

// The subcommand that tells what a trace shows in numbers.
fn stats_command<'a>(alloc: Global, formats: &'a [&'a str]) -> Result<Command<'a>, AllocError>
    ensures { IfOk result (HasApp (stats formats.entry)) }
{
    let about = "Prints picks, shares and waits of each queue of a trace";
    ranged_command(alloc, "stats", about)?
        .arg(backlogged_arg(alloc))?
        .arg(window_arg(alloc))?
        .arg(format_arg(alloc, formats))
}

// An option whose value is a number of at most 63 bits.
fn number_arg<'a>(alloc: Global, name: &'a str, help: &'a str) -> Arg<'a>
    ensures { HasRule (number name.now) result }
{
    let range = value_parser!(u64).range(0..=i64::MAX);
    option_arg(alloc, name, "N", help, range)
}

// The subcommand that simulates, with the options that stand in place of what the file says.
fn bounded_command<'a>(alloc: Global) -> Result<Command<'a>, AllocError>
    ensures { IfOk result (HasApp bounded) }
{
    let help = "The simulation file; standard input where it is - or is left out";
    let seed = "The seed of all that is drawn, in place of the file's";
    let commands = "How many commands come, in place of the file's";
    let time = "From when on none comes, in place of the file's; not with --commands";
    let warm_up = "How many of the first commands no number counts, in place of the file's";
    let load = "What part of what the device can do comes of open queues: their gaps are scaled";
    Command::new(alloc, "simulate")
        .about("Simulates a device and its hosts, and prints latencies, throughput and shares")
        .arg(file_arg(alloc, FILE, help))?
        .arg(number_arg(alloc, "seed", seed))?
        .arg(number_arg(alloc, "commands", commands))?
        .arg(text_arg(alloc, "time", "TIME", time))?
        .arg(number_arg(alloc, "warm-up", warm_up))?
        .arg(text_arg(alloc, "load", "LOAD", load))
}

// The values of a key in a sweep.
fn sweep_arg<'a>(alloc: Global) -> Arg<'a>
    ensures { HasRule sweep result }
{
    let help =
        "A key of the file, or load, and its values, which all are simulated; with several, all combinations";
    Arg::new(alloc, "sweep")
        .long("sweep")
        .value_name("KEY=A,B,..")
        .help(help)
        .action(ArgAction::Append)
}

// How many seeds each point of a sweep is run with.
fn seeds_arg<'a>(alloc: Global) -> Arg<'a>
    ensures { HasRule seeds result }
{
    let help = "How many seeds each is run with, 1 to 1000: means and their intervals of 95 %";
    let range = value_parser!(u64).range(1..=1_000);
    option_arg(alloc, "seeds", "N", help, range)
}

// On how many threads a sweep runs.
fn jobs_arg<'a>(alloc: Global) -> Arg<'a>
    ensures { HasRule jobs result }
{
    let help = "On how many threads a sweep runs, 1 to 64; without it on all processors";
    let range = value_parser!(u64).range(1..=i64::from(MAX_JOBS));
    option_arg(alloc, "jobs", "N", help, range)
}

// Whether the points of a sweep are printed, and not simulated.
fn points_arg<'a>(alloc: Global) -> Arg<'a>
    ensures { HasRule points result }
{
    Arg::new(alloc, "points")
        .long("points")
        .help("Print a command for each point of a sweep, and simulate none")
        .action(ArgAction::SetTrue)
}

// Whether the line of names is left out.
fn no_head_arg<'a>(alloc: Global) -> Arg<'a>
    ensures { HasRule no_head result }
{
    Arg::new(alloc, "no-head")
        .long("no-head")
        .help("Leave the line of names of a sweep out")
        .action(ArgAction::SetTrue)
}

// The subcommand that simulates, with the options of a sweep.
fn swept_command<'a>(alloc: Global) -> Result<Command<'a>, AllocError>
    ensures { IfOk result (HasApp swept) }
{
    let class =
        "The class whose latencies the picture of a sweep shows: urgent, high, medium or low";
    bounded_command(alloc)?
        .arg(sweep_arg(alloc))?
        .arg(seeds_arg(alloc))?
        .arg(jobs_arg(alloc))?
        .arg(points_arg(alloc))?
        .arg(no_head_arg(alloc))?
        .arg(text_arg(alloc, "class", "CLASS", class))
}

// What is proved about waits is told beside the longest ones.
fn bounds_arg<'a>(alloc: Global) -> Arg<'a>
    ensures { HasRule bounds result }
{
    Arg::new(alloc, "bounds")
        .long("bounds")
        .help("Tell how long a command waits for arbitration, beside the longest time that it may")
        .action(ArgAction::SetTrue)
}

// The subcommand that simulates.
fn simulate_command<'a>(alloc: Global, formats: &'a [&'a str]) -> Result<Command<'a>, AllocError>
    ensures { IfOk result (HasApp (simulate formats.entry)) }
{
    let log = "A file that gets a line of comma-separated values for each finished command";
    let trace = "A file that gets the trace of the picks";
    let chart = "A file that gets a picture of the latencies as SVG";
    swept_command(alloc)?
        .arg(format_arg(alloc, formats))?
        .arg(bounds_arg(alloc))?
        .arg(text_arg(alloc, "log", "FILE", log))?
        .arg(text_arg(alloc, "trace", "FILE", trace))?
        .arg(text_arg(alloc, "chart", "FILE", chart))?
        .arg(output_arg(alloc))
}

// A program with one more subcommand. It takes and propagates `AllocError`, so that the caller has one exit.
fn with<'a>(
    program: Result<Command<'a>, AllocError>,
    subcommand: Result<Command<'a>, AllocError>,
) -> Result<Command<'a>, AllocError>
    ensures { AddsIfMade program.entry subcommand.entry result }
{
    program?.subcommand(subcommand?)
}

// The subcommands that read standard input alone.
fn with_input<'a>(alloc: Global, program: Command<'a>) -> Result<Command<'a>, AllocError>
    ensures { (app : App) → HasApp app program.entry → IfOk result (HasApp (with_input app)) }
{
    let loaded = "Runs a workload of standard input, in the form that expand writes, as run does";
    let live = "Runs a workload of standard input, in that form, as run --live does";
    let program = with(Ok(program), once_command(alloc));
    let program = with(program, mode_command(alloc, "loaded", loaded));
    with(program, mode_command(alloc, "live", live))
}

// The subcommands that run the workload of a file, or simulate.
fn with_run<'a>(
    alloc: Global,
    formats: &'a [&'a str],
    program: Command<'a>,
) -> Result<Command<'a>, AllocError>
    ensures { (app : App) → HasApp app program.entry → IfOk result (HasApp (with_run formats.entry app)) }
{
    let program = with(Ok(program), reported_command(alloc));
    let program = with(program, traced_command(alloc));
    with(program, simulate_command(alloc, formats))
}

// The other subcommands that read a workload file.
fn with_file<'a>(alloc: Global, program: Command<'a>) -> Result<Command<'a>, AllocError>
    ensures { (app : App) → HasApp app program.entry → IfOk result (HasApp (with_file app)) }
{
    let program = with(Ok(program), lint_command(alloc));
    with(program, expand_command(alloc))
}

// The subcommands that read a trace or a log.
fn with_trace<'a>(
    alloc: Global,
    formats: &'a [&'a str],
    program: Command<'a>,
) -> Result<Command<'a>, AllocError>
    ensures { (app : App) → HasApp app program.entry → IfOk result (HasApp (with_trace formats.entry app)) }
{
    let program = with(Ok(program), check_command(alloc));
    let program = with(program, stats_command(alloc, formats));
    let program = with(program, chart_command(alloc));
    with(program, audit_command(alloc))
}

// An option with one value, which is any text.
fn text_arg<'a>(alloc: Global, name: &'a str, value: &'a str, help: &'a str) -> Arg<'a>
    ensures { HasRule (text_option name.now) result }
{
    Arg::new(alloc, name)
        .long(name)
        .value_name(value)
        .help(help)
        .action(ArgAction::Set)
}

// A dword.
fn dword_arg<'a>(alloc: Global) -> Arg<'a>
    ensures { HasRule dword result }
{
    Arg::new(alloc, "dword")
        .value_name("DWORD")
        .help("Command Dword 11 of Set Features, Arbitration")
        .action(ArgAction::Set)
}

// The subcommand that translates settings.
fn settings_command<'a>(alloc: Global) -> Result<Command<'a>, AllocError>
    ensures { IfOk result (HasApp settings) }
{
    let burst = "The most commands of a pick; 1 where it is left out";
    let weights = "The weights of high, medium and low; 1:1:1 where they are left out";
    Command::new(alloc, "settings")
        .about("Translates settings of the Arbitration feature, from a dword to words and back")
        .arg(dword_arg(alloc))?
        .arg(text_arg(alloc, "burst", "BURST", burst))?
        .arg(text_arg(alloc, "weights", "WEIGHTS", weights))
}

/// The command line of the program.
pub(crate) fn program<'a>(alloc: Global) -> Result<Command<'a>, AllocError>
    ensures { IfOk result (λ command. OnCommandLine (λ app. app_of command ≡ app)) }
{
    let program = Command::new(alloc, "nvmearb")
        .version(VERSION)
        .about("The command-fetching and arbitration front of an NVMe controller")
        .after_help(AFTER_HELP)
        .subcommand_required(true);
    let formats = FORMATS;
    let shown = with_trace(alloc, formats, with_run(alloc, formats, program)?)?;
    let set = with(with_file(alloc, shown), settings_command(alloc))?;
    with_input(alloc, set)
}
