// Whole files: inputs that are read to their end, and answers that are written at once.
ghost use Rattle.std.specs.Prelude.{◌≤◌, IfErr};

use crate::kept::Kept;
use crate::noted::{Noted, Notes};
use crate::telling::{failed, no_memory, tell_input};
use nvme_sim::take_input;
use std::fs;
use std::io::{self, Read, Write};
use std::rt::Files;

// The exit status of a fault of the input.
const INPUT: u8 = 1;

// The exit status of a fault of the command line.
const BAD_LINE: u8 = 2;

/// Where a simulation or a sweep writes its answer, and its picture where one is wanted.
pub(crate) struct Answers<'a, W> {
    pub(crate) output: &'a mut W,
    pub(crate) chart: &'a mut Option<Kept>,
}

/// All of a file, or of standard input. Where it can't be read that is told, and the error is the exit status.
pub(crate) fn read_input<R: AllocGlobal + Files + Input, E: Write>(
    rt: &R,
    name: Option<&str>,
    notes: &Notes,
    errors: &mut E,
) -> Result<Vec<u8>, u8>
    ensures { IfErr result (λ status. status ≤ 4) }
{
    let alloc = rt.alloc();
    let bytes = match name {
        Some(name) => match fs::open(rt, name) {
            Ok(file) => take_input(alloc, Noted::new(file, notes)),
            Err(error) => return Err(failed("open", name, &error, errors)),
        },
        None => take_input(alloc, Noted::new(rt.reader(), notes)),
    };
    match bytes {
        Ok(bytes) => Ok(bytes),
        Err(error) => Err(tell_input(error, errors)),
    }
}

/// All of a named file of at most so many bytes, beside the input. Where it can't be read that is told, and the error is the
/// exit status.
pub(crate) fn read_file<R: AllocGlobal + Files, E: Write>(
    rt: &R,
    name: &str,
    most: u64,
    errors: &mut E,
) -> Result<Vec<u8>, u8>
    ensures { IfErr result (λ status. status ≤ 4) }
{
    let file = match fs::open(rt, name) {
        Ok(file) => file,
        Err(error) => return Err(failed("open", name, &error, errors)),
    };
    let mut bytes = Vec::new(rt.alloc());
    let mut beginning = file.take(most.saturating_add(1));
    if let Err(error) = beginning.read_to_end(&mut bytes) {
        return Err(failed("read", name, &error, errors));
    }
    if bytes.len() as u64 > most {
        let _ = writeln!(
            errors,
            "nvmearb: input too long: {name:?}: above {most} bytes"
        );
        return Err(INPUT);
    }
    Ok(bytes)
}

/// Whether a name is that of an SVG file.
pub(crate) fn is_svg(name: &str) -> bool {
    name.ends_with(".svg")
}

/// Writes that a file of this name gets no picture. The answer is the exit status.
pub(crate) fn not_svg<E: Write>(option: &str, name: &str, errors: &mut E) -> u8
    ensures { result ≤ 4 }
{
    let _ = writeln!(
        errors,
        "nvmearb: {option} {name:?}: a picture is an SVG file: expected a name that ends with .svg"
    );
    BAD_LINE
}

// Writes a whole answer to a file. A file of this name is replaced.
fn write_to<R: Files>(rt: &R, name: &str, answer: &[u8]) -> io::Result<()> {
    let mut file = fs::create(rt, name)?;
    file.write_all(answer)
}

/// Writes an answer to a file. The answer is the exit status.
pub(crate) fn put_away<R: Files, E: Write>(rt: &R, name: &str, kept: &Kept, errors: &mut E) -> u8
    ensures { result ≤ 4 }
{
    let Some(answer) = kept.answer() else {
        return no_memory(errors);
    };
    match write_to(rt, name, answer) {
        Ok(()) => 0,
        Err(error) => failed("write", name, &error, errors),
    }
}
