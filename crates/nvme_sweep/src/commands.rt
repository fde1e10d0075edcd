// A command line for each point of a sweep.
use nvme_points::{Sweep, SweepFault};
use std::alloc::Global;
use std::io::{self, Write};

/// What a command line says beside the keys of a point.
#[derive(Clone, Copy, Debug, PartialEq, Eq)]
pub struct CommandWords<'a> {
    /// The name of the simulation file.
    pub file: &'a str,
    pub seed: Option<u64>,
    pub commands: Option<u64>,
    pub time: Option<&'a str>,
    pub warm_up: Option<u64>,
    pub load: Option<&'a str>,
    pub seeds: Option<u64>,
    pub jobs: Option<u64>,
    /// The name of the form.
    pub format: &'a str,
    /// Whether the first command writes the line of names, which no other does.
    pub has_head: bool,
}

// Whether a shell takes a byte as it is.
fn is_plain(byte: u8) -> bool {
    byte.is_ascii_alphanumeric() || matches!(byte, b'/' | b'.' | b'_' | b'-' | b'+' | b':')
}

// Writes a word so that a shell takes it as it is.
fn put_word<W: Write>(word: &str, writer: &mut W) -> io::Result<()> {
    if !word.is_empty() && word.as_bytes().iter().all(|byte| is_plain(*byte)) {
        return writer.write_all(word.as_bytes());
    }
    writer.write_all(b"'")?;
    for byte in word.as_bytes() {
        match byte {
            b'\'' => writer.write_all(b"'\\''")?,
            _ => writer.write_all(&[*byte])?,
        }
    }
    writer.write_all(b"'")
}

// Writes an option with a number, if there is one.
fn put_option<W: Write>(name: &str, number: Option<u64>, writer: &mut W) -> io::Result<()> {
    match number {
        Some(number) => write!(writer, " --{name} {number}"),
        None => Ok(()),
    }
}

// Writes an option with a text, if there is one.
fn put_text<W: Write>(name: &str, text: Option<&str>, writer: &mut W) -> io::Result<()> {
    match text {
        Some(text) => {
            write!(writer, " --{name} ")?;
            put_word(text, writer)
        }
        None => Ok(()),
    }
}

// Writes what each command says.
fn put_words<W: Write>(words: &CommandWords, writer: &mut W) -> io::Result<()> {
    put_option("seed", words.seed, writer)?;
    put_option("seeds", words.seeds, writer)?;
    put_option("commands", words.commands, writer)?;
    put_text("time", words.time, writer)?;
    put_option("warm-up", words.warm_up, writer)?;
    put_text("load", words.load, writer)?;
    put_option("jobs", words.jobs, writer)?;
    let format = words.format;
    write!(writer, " --format {format}")
}

// Writes the command of a point, which begins with its name and its file.
fn put_command<W: Write>(
    sweep: &Sweep,
    words: &CommandWords,
    values: &[&str],
    has_head: bool,
    writer: &mut W,
) -> io::Result<()> {
    writer.write_all(b"nvmearb simulate ")?;
    put_word(words.file, writer)?;
    for (axis, value) in sweep.axes.iter().zip(values) {
        let key = axis.key;
        write!(writer, " --sweep {key}={value}")?;
    }
    put_words(words, writer)?;
    if !has_head {
        writer.write_all(b" --no-head")?;
    }
    writer.write_all(b"\n")
}

/// Writes a command line for each point, for a shell. What they write, one behind the other, is the answer of the sweep as
/// text or as comma-separated values.
pub fn put_commands<'a, W: Write>(
    alloc: Global,
    sweep: &Sweep<'a>,
    words: &CommandWords,
    writer: &mut W,
) -> Result<(), SweepFault<'a>> {
    for number in 0..sweep.points(alloc)? {
        let values = sweep.values_at(alloc, number)?;
        let has_head = words.has_head && number == 0;
        if put_command(sweep, words, &values, has_head, writer).is_err() {
            return Err(SweepFault::Write);
        }
    }
    Ok(())
}
