ghost use Rattle.std.specs.Prelude.{◌≡◌, ◌≢◌, ◌≤◌, ◌↔◌, [], ◌∷◌, ◌++◌, length, IsErrOf, IfOk, IfSome, IsSome};
ghost use Rattle.std.specs.List.{AllPass};
ghost use Rattle.hex.specs.Hex.{decode_of, encode_lower, is_hex_digit};
ghost use Rattle.nvme_words.specs.Once.{HasCompletion, IsAnswer, entry_text};

use nvme_entry::{Namespaces, Sqe, complete, outcome};
use thiserror::Error;

/// Why a text is no submission entry.
#[derive(Clone, Copy, Debug, PartialEq, Eq, Error)]
pub enum OnceError {
    /// It doesn't have 128 bytes, a final newline aside.
    #[error("entry: not 128 digits")]
    Length,
    /// One of its 128 bytes is no hexadecimal digit.
    #[error("entry: not hexadecimal")]
    Digit,
}

// How many hexadecimal digits an entry of 64 bytes has.
const DIGITS: usize = 128;

/// The completion entry of one I/O command, as 32 lower case hexadecimal digits and a newline. The input,
/// less one final newline where there is one, is a submission entry as 128 hexadecimal digits in
/// either case. It is taken as the first command of submission queue 1, of 256 slots, over one namespace
/// of `blocks` logical blocks. `Length` is found before `Digit`.
pub fn once(input: &[u8], blocks: u64) -> Result<[u8; 33], OnceError>
    requires { 1 ≤ blocks }
    ensures answer { IfOk result (IsAnswer (entry_text input.now) blocks) }
    ensures length { IsErrOf result OnceError.Length ↔ (length (entry_text input.now) ≢ DIGITS) }
    ensures digit { IsErrOf result OnceError.Digit ↔ ((length (entry_text input.now) ≡ DIGITS) × ¬ AllPass is_hex_digit (entry_text input.now)) }
{
    let text = less_newline(input);
    if text.len() != DIGITS {
        return Err(OnceError::Length);
    }
    let Some(bytes) = decoded(text) else {
        return Err(OnceError::Digit);
    };
    Ok(line_of(answer_of(&bytes, blocks)))
}

// The input less one final newline.
fn less_newline(input: &[u8]) -> &[u8]
    ensures { result.now ≡ entry_text input.now }
{
    match input {
        [text @ .., b'\n'] => text,
        _ => input,
    }
}

// The bytes of 128 hexadecimal digits, or `None` where one of them is no digit.
fn decoded(text: &[u8]) -> Option<[u8; 64]>
    requires { length text.now ≡ DIGITS }
    ensures some { IfSome result (λ bytes. decode_of text.now ≡ Ok bytes) }
    ensures digits { IsSome result ↔ AllPass is_hex_digit text.now }
{
    let mut bytes = [0; 64];
    match hex::decode_to_slice(text, &mut bytes) {
        Ok(()) => Some(bytes),
        Err(_) => None,
    }
}

// The completion entry of a submission entry.
fn answer_of(bytes: &[u8; 64], blocks: u64) -> [u8; 16]
    requires { 1 ≤ blocks }
    ensures { HasCompletion bytes.now blocks result }
{
    let entry = Sqe::from_bytes(bytes);
    let Ok(spaces) = Namespaces::new(&[blocks]) else {
        unreachable!()
    };
    complete(&entry, 1, 1, true, outcome(&entry, &spaces), 0).to_bytes()
}

// Bytes as a line of lower case hexadecimal digits.
fn line_of(answer: [u8; 16]) -> [u8; 33]
    ensures { result ≡ encode_lower answer ++ 10 ∷ [] }
{
    let mut line = [b'\n'; 33];
    let Ok(()) = hex::encode_to_slice(answer.as_slice(), &mut line[..32]) else {
        unreachable!()
    };
    line
}
