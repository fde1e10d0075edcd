// `nvmearb lint`, of a workload or of a simulation file.
ghost use Rattle.std.specs.Prelude.{◌≤◌};

use crate::files::read_input;
use crate::noted::{Look, Notes};
use crate::simulating::model_of;
use crate::telling::{no_memory, unwritten};
use nvme_sim::{command, file_named};
use nvme_simulate::{overload_of, simulation_in};
use std::io::Write;
use std::rt::Files;
use std::sync::Wait;
use std::thread::Threads;

// The exit status of warnings.
const WARNED: u8 = 4;

// Tells the first fault of a simulation file, or what of it can't go well. The answer is the exit status.
fn linted_model<R: AllocGlobal + Files, W: Write, E: Write>(
    rt: &R,
    file: Option<&str>,
    text: &[u8],
    output: &mut W,
    errors: &mut E,
) -> u8
    ensures { result ≤ 4 }
{
    let (model, _listings) = match model_of(rt, file, text, errors) {
        Ok(read) => read,
        Err(status) => return status,
    };
    let Some(overload) = overload_of(&model) else {
        return 0;
    };
    match writeln!(output, "{overload}") {
        Ok(()) => WARNED,
        Err(_) => unwritten(errors),
    }
}

/// Looks for faults of a file of either kind. The answer is the exit status.
#[inline(never)]
pub(crate) fn linted<R, W: Write, E: Write>(
    rt: &R,
    words: &[String],
    notes: &Notes,
    output: &mut W,
    errors: &mut E,
) -> u8
where
    R: AllocGlobal + Files + Input + Threads + Wait + Sync,
    ensures { result ≤ 4 }
{
    let alloc = rt.alloc();
    let Ok(file) = file_named(alloc, words) else {
        return no_memory(errors);
    };
    let text = match read_input(rt, file, notes, errors) {
        Ok(text) => text,
        Err(status) => return status,
    };
    let Ok(is_simulation) = simulation_in(alloc, text.as_slice()) else {
        return no_memory(errors);
    };
    if is_simulation || notes.look() == Look::Simulation {
        linted_model(rt, file, text.as_slice(), output, errors)
    } else {
        command(rt, alloc, words, text.as_slice(), output, errors)
    }
}
