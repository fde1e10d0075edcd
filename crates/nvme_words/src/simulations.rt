// What a line of `simulate` says.
use crate::program::program;
use crate::requests::{Format, format_of};
use crate::words::asks;
use clap::ArgMatches;
use clap::error::ErrorKind;
use std::alloc::{AllocError, Global};

/// What a line of `simulate` says. An option that is left out is `None`.
#[derive(Debug, Drop)]
pub struct SimulationWords<'a> {
    /// The name of the simulation file. `None` for standard input.
    pub file: Option<&'a str>,
    pub seed: Option<u64>,
    pub commands: Option<u64>,
    /// A duration, as it stands there.
    pub time: Option<&'a str>,
    pub warm_up: Option<u64>,
    /// A decimal, as it stands there.
    pub load: Option<&'a str>,
    /// The keys of a sweep with their values, as `KEY=A,B`.
    pub sweeps: Vec<&'a str>,
    /// How many seeds each point is run with, 1 to 1000.
    pub seeds: Option<u64>,
    /// On how many threads a sweep runs, 1 to `MAX_JOBS`.
    pub jobs: Option<u64>,
    /// The points are printed, and not simulated.
    pub points: bool,
    /// The line of names is left out.
    pub no_head: bool,
    /// The name of the class that the picture of a sweep shows.
    pub class: Option<&'a str>,
    /// How the answer is written.
    pub format: Format,
    /// What is proved about waits is told.
    pub bounds: bool,
    /// The name of the file that gets the finished commands.
    pub log: Option<&'a str>,
    /// The name of the file that gets the picks.
    pub trace: Option<&'a str>,
    /// The name of the file that gets the picture.
    pub chart: Option<&'a str>,
    /// The name of the file that gets the answer. `None` for standard output.
    pub output: Option<&'a str>,
}

// A name, unless it is that of a standard stream.
fn name_of(name: Option<&str>) -> Option<&str> {
    name.filter(|name| *name != "-")
}

impl SimulationWords<'_> {
    /// Whether they ask for a sweep, or for several seeds.
    pub fn is_sweep(&self) -> bool {
        self.seeds.is_some() || !self.sweeps.is_empty()
    }

    // Whether an option is there that goes with a sweep alone.
    fn has_sweep_option(&self) -> bool {
        self.points || self.no_head || self.jobs.is_some()
    }

    /// What of them doesn't go with a sweep, or without one.
    pub fn unfit_for_sweep(&self) -> Option<&'static str> {
        if self.class.is_some() && !(self.is_sweep() && self.chart.is_some()) {
            return Some("--class goes with --chart beside --sweep or --seeds");
        }
        if !self.is_sweep() {
            return match self.has_sweep_option() {
                true => Some("--jobs, --points and --no-head go with --sweep or --seeds"),
                false => None,
            };
        }
        if self.log.is_some() || self.trace.is_some() {
            return Some("--log and --trace don't go with --sweep and --seeds");
        }
        if self.points && self.chart.is_some() {
            return Some("--chart doesn't go with --points");
        }
        if self.points && self.file.is_none() {
            return Some("--points wants the name of a file");
        }
        None
    }
}

// The values of an option that may come several times.
fn all_of<'a>(
    alloc: Global,
    matches: &ArgMatches<'a>,
    option: &str,
) -> Result<Vec<&'a str>, AllocError> {
    let mut values = Vec::new(alloc);
    for value in matches.get_strs(option).unwrap_or(&[]) {
        values.push(*value)?;
    }
    Ok(values)
}

// What the values of `simulate` say.
fn words_of<'a>(
    alloc: Global,
    matches: &ArgMatches<'a>,
) -> Result<SimulationWords<'a>, AllocError> {
    Ok(SimulationWords {
        file: name_of(matches.get_str("file")),
        seed: matches.get_one::<u64>("seed"),
        commands: matches.get_one::<u64>("commands"),
        time: matches.get_str("time"),
        warm_up: matches.get_one::<u64>("warm-up"),
        load: matches.get_str("load"),
        sweeps: all_of(alloc, matches, "sweep")?,
        seeds: matches.get_one::<u64>("seeds"),
        jobs: matches.get_one::<u64>("jobs"),
        points: matches.get_flag("points"),
        no_head: matches.get_flag("no-head"),
        class: matches.get_str("class"),
        format: format_of(matches),
        bounds: matches.get_flag("bounds"),
        log: matches.get_str("log"),
        trace: matches.get_str("trace"),
        chart: matches.get_str("chart"),
        output: name_of(matches.get_str("output")),
    })
}

impl SimulationWords<'_> {
    /// What of them doesn't go with `--bounds`.
    pub fn unfit_for_bounds(&self) -> Option<&'static str> {
        if !self.bounds {
            None
        } else if self.is_sweep() {
            Some("--bounds doesn't go with --sweep and --seeds")
        } else if self.format == Format::Csv {
            Some("--bounds doesn't go with --format csv")
        } else {
            None
        }
    }
}

/// What a line of `simulate` says. `None` where the words, of which the first is the program's name, are another line,
/// are refused or ask for help.
pub fn simulation_asked<'a>(
    alloc: Global,
    words: &'a [String],
) -> Result<Option<SimulationWords<'a>>, AllocError> {
    if !asks(words, "simulate") {
        return Ok(None);
    }
    match program(alloc)?.try_get_matches_from(words) {
        Ok(matches) => match matches.subcommand() {
            Some(("simulate", asked)) => Ok(Some(words_of(alloc, asked)?)),
            _ => Ok(None),
        },
        Err(error) if error.kind() == ErrorKind::OutOfMemory => Err(AllocError),
        Err(_) => Ok(None),
    }
}
