// A run as values, and its forms beside the report: a summary, and an object of JSON.
ghost use Rattle.std.specs.Prelude.{◌≡◌, sum_by, IfOk};
ghost use Rattle.nvme_sim.specs.RunAnswers.{code_of, mode_word, share_of, shares_of, taken_by, tallies_of, tally_of};

use nvme_arbiter::QUEUE_LIMIT;
use nvme_lane::Mode;
use nvme_lint::status_name;
use nvme_report::{CommandRow, PickRow, Rows};
use nvme_trace::SettingsInWords;
use nvme_words::VERSION;
use serde::Serialize;
use std::alloc::{AllocError, Global};
use std::io::{self, Write};

/// The version of the form of the JSON answer.
pub(crate) const JSON_FORM: u8 = 1;

// One more than the highest status code type, and the number of status codes of a type.
const TYPES: u16 = 8;

const CODES: u16 = 256;

/// What a run of a workload file answers. Its object of JSON has these members, those of the rows in their place, but
/// not the last.
#[derive(Debug, Drop, Serialize)]
pub struct RunAnswer<'a> {
    /// The version of the form of the object.
    pub form: u8,
    /// That of the program.
    pub version: &'static str,
    /// The SHA-256 digest of the file, in hexadecimal.
    pub digest: &'a str,
    /// How the commands were submitted, `loaded` or `live`.
    pub mode: &'static str,
    /// The name of the mechanism.
    pub mechanism: &'static str,
    /// The settings before any Set Features, as Command Dword 11.
    pub cdw11: u32,
    /// What the lines of the report tell.
    #[serde(flatten)]
    pub rows: Rows,
    /// The mechanism and the settings again.
    #[serde(skip)]
    pub settings: SettingsInWords,
}

/// What a queue got.
#[derive(Clone, Copy, Debug, PartialEq, Eq)]
pub(crate) struct Share {
    queue: u16,
    picks: usize,
    commands: u128,
}

/// How many commands were answered with a status.
#[derive(Clone, Copy, Debug, PartialEq, Eq)]
pub(crate) struct Tally {
    sct: u8,
    sc: u8,
    commands: usize,
}

/// The word of a mode.
pub(crate) fn mode_word(mode: Mode) -> &'static str
    ensures { result.now ≡ mode_word mode }
{
    match mode {
        Mode::Loaded => "loaded",
        Mode::Live => "live",
    }
}

// How many commands a queue got by a pick.
fn taken_by(pick: &PickRow, queue: u16) -> u16
    ensures { result ≡ taken_by queue pick.now }
{
    if pick.queue == queue { pick.n } else { 0 }
}

// How many commands a queue got.
fn commands_of(picks: &[PickRow], queue: u16) -> u128
    ensures { result ≡ sum_by (taken_by queue) picks.now }
{
    let mut commands = 0u128;
    for pick in picks {
        commands += u128::from(taken_by(pick, queue));
    }
    commands
}

// What a queue got, where it was picked.
fn share_of(picks: &[PickRow], queue: u16) -> Option<Share>
    ensures { result ≡ share_of picks.now queue }
{
    let number = picks.iter().filter(|pick| pick.queue == queue).count();
    if number == 0 {
        return None;
    }
    Some(Share {
        queue,
        picks: number,
        commands: commands_of(picks, queue),
    })
}

// What each queue got that was picked, by ascending identifier.
fn shares_of(alloc: Global, picks: &[PickRow]) -> Result<Vec<Share>, AllocError>
    ensures { IfOk result (λ shares. shares.items ≡ shares_of picks.now) }
{
    let queues = 0..QUEUE_LIMIT as u16;
    queues
        .filter_map(|queue| share_of(picks, queue))
        .collect(alloc)
}

// A status as one number.
fn code_of(row: &CommandRow) -> u16
    ensures { result ≡ code_of row.now }
{
    u16::from(row.status.sct()) * CODES + u16::from(row.status.sc())
}

// How many commands were answered with a status, where some were.
fn tally_of(codes: &[u16], code: u16) -> Option<Tally>
    ensures { result ≡ tally_of codes.now code }
{
    let commands = codes.iter().filter(|it| **it == code).count();
    if commands == 0 {
        return None;
    }
    Some(Tally {
        sct: (code / CODES) as u8,
        sc: (code % CODES) as u8,
        commands,
    })
}

// How many commands were answered with each status, by ascending codes.
fn tallies_of(alloc: Global, commands: &[CommandRow]) -> Result<Vec<Tally>, AllocError>
    ensures { IfOk result (λ tallies. tallies.items ≡ tallies_of commands.now) }
{
    let codes: Vec<u16> = commands.iter().map(code_of).collect(alloc)?;
    let codes = codes.as_slice();
    (0..TYPES * CODES)
        .filter_map(|code| tally_of(codes, code))
        .collect(alloc)
}

// The part of all commands in ten thousandths of a percent, rounded.
fn part_of(commands: u128, all: u128) -> u128 {
    commands.saturating_mul(1_000_000).saturating_add(all / 2) / all.max(1)
}

// Writes the row of a queue.
fn put_share<W: Write>(share: &Share, all: u128, output: &mut W) -> io::Result<()> {
    let Share {
        queue,
        picks,
        commands,
    } = *share;
    let part = part_of(commands, all);
    let (whole, rest) = (part / 10_000, part % 10_000);
    writeln!(
        output,
        "q{queue:<5}{picks:>10}{commands:>10}{whole:>4}.{rest:04}%"
    )
}

// Writes the row of a status.
fn put_tally<W: Write>(tally: &Tally, output: &mut W) -> io::Result<()> {
    let Tally { sct, sc, commands } = *tally;
    let name = status_name(sct, sc).unwrap_or("");
    writeln!(output, "{sct}/{sc:02x}  {commands:>10}  {name}")
}

impl RunAnswer<'_> {
    /// Writes the run in short: the program and the workload, the settings, what each queue got, and how many commands
    /// were answered with each status.
    pub fn put_summary<W: Write>(&self, alloc: Global, output: &mut W) -> io::Result<()> {
        let shares = shares_of(alloc, self.rows.picks.as_slice())?;
        let tallies = tallies_of(alloc, self.rows.commands.as_slice())?;
        let (version, digest) = (self.version, self.digest);
        let (mode, mechanism, settings) = (self.mode, self.mechanism, self.settings);
        writeln!(output, "nvmearb {version}, digest {digest}")?;
        writeln!(output, "{mode}, {mechanism}: {settings}")?;
        writeln!(output, "queue      picks  commands     share")?;
        let all = shares
            .iter()
            .fold(0u128, |all, it| all.saturating_add(it.commands));
        for share in &shares {
            put_share(share, all, output)?;
        }
        writeln!(output, "status  commands")?;
        for tally in &tallies {
            put_tally(tally, output)?;
        }
        Ok(())
    }

    /// Writes the run as an object of JSON.
    pub fn put_json<W: Write>(&self, alloc: Global, output: &mut W) -> io::Result<()> {
        let Ok(text) = serde_json::to_vec(alloc, self) else {
            return Err(AllocError.into());
        };
        output.write_all(text.as_slice())?;
        output.write_all(b"\n")
    }
}
