ghost use Rattle.std.specs.Prelude.{◌≡◌, ◌<◌, ◌≤◌, ◌↔◌, ◌⊎◌, true, false, length, IfOk, IfSome, IsErrOf};

mod counted;

use counted::Counted;
use std::alloc::Global;
use std::io::Read;
use thiserror::Error;

/// The most bytes that an input may have: 16 MiB.
pub const MAX_INPUT: usize = 16_777_216;

/// The most reads that are made of an input.
pub const MAX_READS: u32 = 67_108_864;

// How many bytes one read asks for.
const CHUNK: usize = 16_384;

/// Why an input was refused.
#[derive(Clone, Copy, Debug, PartialEq, Eq, Error)]
pub enum InputError {
    /// A read failed, or `MAX_READS` reads were made without an end.
    #[error("read failed")]
    Read,
    /// The input has more than `MAX_INPUT` bytes.
    #[error("input too long")]
    TooLong,
    /// Memory for the bytes was refused.
    #[error("out of memory")]
    NoMemory,
}

/// All bytes of the reader up to its end. At each read a failure is found first, then a length over
/// `MAX_INPUT`, then refused memory. A read that a signal interrupts is made again. It ends after at most
/// `MAX_READS` reads.
pub fn take_input<R: Read + Drop>(alloc: Global, reader: R) -> Result<Vec<u8>, InputError>
    ensures whole { IfOk result (λ bytes. IfSome (R.remaining reader) (λ rest. bytes.items ≡ rest)) }
    ensures within { IfOk result (λ bytes. length bytes.items ≤ MAX_INPUT) }
    ensures too_long { IsErrOf result InputError.TooLong → IfSome (R.remaining reader) (λ rest. MAX_INPUT < length rest) }
    ensures longer { IfSome (R.remaining reader) (λ rest. MAX_INPUT < length rest → IsErrOf result InputError.TooLong ⊎ IsErrOf result InputError.Read ⊎ IsErrOf result InputError.NoMemory) }
{
    read_all(alloc, &mut Counted::new(reader))
}

// All bytes of a reader that wasn't read yet, up to its end.
fn read_all<R: Read>(alloc: Global, reader: &mut Counted<R>) -> Result<Vec<u8>, InputError>
    requires reads { reader.old.reads ≡ 0 }
    requires given { reader.old.given ≡ 0 }
    requires interruptions { reader.old.interruptions ≡ 0 }
    requires failed { reader.old.failed ≡ false }
    ensures reads { reader.new.reads ≤ MAX_READS }
    ensures whole { IfOk result (λ bytes. IfSome (R.remaining reader.old.reader) (λ rest. bytes.items ≡ rest)) }
    ensures within { IfOk result (λ bytes. length bytes.items ≤ MAX_INPUT) }
    ensures too_long { IsErrOf result InputError.TooLong ↔ (MAX_INPUT < reader.new.given) }
    ensures given { IfSome (R.remaining reader.old.reader) (λ rest. reader.new.given ≤ length rest) }
    ensures failed { reader.new.failed ≡ true → IsErrOf result InputError.Read }
    ensures read { IsErrOf result InputError.Read → (reader.new.failed ≡ true) ⊎ (reader.new.reads ≡ MAX_READS) }
    ensures no_memory { IsErrOf result InputError.NoMemory → 0 < reader.new.given }
{
    let mut bytes = Vec::new(alloc);
    let mut chunk = [0; CHUNK];
    for _ in 0..MAX_READS {
        let Some(count) = reader.read(&mut chunk) else {
            if reader.has_failed() {
                return Err(InputError::Read);
            }
            continue;
        };
        if count == 0 {
            return Ok(bytes);
        }
        if count > MAX_INPUT - bytes.len() {
            return Err(InputError::TooLong);
        }
        if bytes.extend_from_slice(&chunk[..count]).is_err() {
            return Err(InputError::NoMemory);
        }
    }
    Err(InputError::Read)
}
