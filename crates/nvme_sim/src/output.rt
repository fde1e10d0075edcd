// Ends the program's output.
ghost use Rattle.std.specs.Prelude.{◌≡◌, ◌≢◌, ◌⊎◌, ◌↔◌, [], IsTrue};
ghost use Rattle.std.specs.Io.KnownBytes.{Keeps};
ghost use Rattle.std.specs.Io.Buffered.{writer_buffer, writer_contents};

use std::io::{BufWriter, Write};

// The exit status where the input is at fault, or a pick of a trace isn't the lawful one.
const AT_FAULT: u8 = 1;

// The exit status where a valid workload has warnings.
const WARNED: u8 = 4;

// Whether a program that ends with this status may have an answer: it succeeded, or says something of its input.
fn has_answer(status: u8) -> bool
    ensures { IsTrue result ↔ ((status ≡ 0) ⊎ (status ≡ AT_FAULT) ⊎ (status ≡ WARNED)) }
{
    status == 0 || status == AT_FAULT || status == WARNED
}

/// Writes what `command` left in the buffer of the output, if it answered a status with which the program may have an
/// answer: 0, 1 or 4. With any other status the output stays as it is. The answer is the exit status of the program:
/// that of `command`, or 3 where this write fails. It then writes one line to `errors`, and ignores a write that fails
/// there.
pub fn flushed<W: Write + Drop, E: Write>(
    status: u8,
    output: &mut BufWriter<W>,
    errors: &mut E,
) -> u8
    ensures status { (result ≡ status) ⊎ (((status ≡ 0) ⊎ (status ≡ AT_FAULT) ⊎ (status ≡ WARNED)) × (result ≡ 3)) }
    ensures written { (result ≡ 0) ⊎ (result ≡ AT_FAULT) ⊎ (result ≡ WARNED) → writer_buffer output.new ≡ [] }
    ensures unchanged { (status ≢ 0) × (status ≢ AT_FAULT) × (status ≢ WARNED) → output.new ≡ output.old }
    ensures bytes { Keeps (writer_contents W.contents output.old) (writer_contents W.contents output.new) }
{
    if has_answer(status) && output.flush().is_err() {
        let _ = writeln!(errors, "nvmearb: write failed");
        return 3;
    }
    status
}
