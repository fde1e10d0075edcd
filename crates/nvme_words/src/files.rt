// The files that the words name, as the input and for the output.
ghost use Rattle.std.specs.Prelude.{◌≡◌, true, false, None, IfOk, option_map};
ghost use Rattle.clap.specs.Words.{subcommand_rows_of};
ghost use Rattle.nvme_words.specs.CommandLine.{OnCommandLine};
ghost use Rattle.nvme_words.specs.Requests.{file_of, output_of, value_given};
ghost use Rattle.nvme_words.specs.Words.{reads_input, writes_file};

use crate::program::program;
use crate::words::{names_no_trace, reads_input_alone, writes_file};
use clap::ArgMatches;
use clap::error::ErrorKind;
use std::alloc::{AllocError, Global};

const STANDARD_STREAM: &str = "-";

// The file that the subcommand is given for this.
fn value_in<'a>(matches: &ArgMatches<'a>, id: &str) -> Option<&'a str>
    ensures { option_map (λ text. text.now) result ≡ value_given id.now (subcommand_rows_of matches.now) }
{
    let (_, asked) = matches.subcommand()?;
    let name = asked.get_str(id)?;
    if name == STANDARD_STREAM {
        None
    } else {
        Some(name)
    }
}

/// The name of the input's file, by the words. The first word is the program's name. `None` means standard input: with
/// `once`, `loaded` and `live`, with `-`, and with `check`, `chart` and `stats` where nothing follows them. It is
/// `None` too where the words are refused or ask for help.
pub fn file_named<'a>(alloc: Global, words: &'a [String]) -> Result<Option<&'a str>, AllocError>
    ensures named { IfOk result (λ name. OnCommandLine (λ app. option_map (λ text. text.now) name ≡ file_of app words.now)) }
    ensures standing { reads_input words.now ≡ true → IfOk result (λ name. name ≡ None) }
{
    if reads_input_alone(words) || names_no_trace(words) {
        return Ok(None);
    }
    match program(alloc)?.try_get_matches_from(words) {
        Ok(matches) => Ok(value_in(&matches, "file")),
        Err(error) if error.kind() == ErrorKind::OutOfMemory => Err(AllocError),
        Err(_) => Ok(None),
    }
}

/// The name of the output's file, by the words, which `chart` and `trace` may have. `None` means standard output: without the
/// option and with `-`. It is `None` too where the words are refused or ask for help.
pub fn output_named<'a>(alloc: Global, words: &'a [String]) -> Result<Option<&'a str>, AllocError>
    ensures named { IfOk result (λ name. OnCommandLine (λ app. option_map (λ text. text.now) name ≡ output_of app words.now)) }
    ensures others { writes_file words.now ≡ false → IfOk result (λ name. name ≡ None) }
{
    if !writes_file(words) {
        return Ok(None);
    }
    match program(alloc)?.try_get_matches_from(words) {
        Ok(matches) => Ok(value_in(&matches, "output")),
        Err(error) if error.kind() == ErrorKind::OutOfMemory => Err(AllocError),
        Err(_) => Ok(None),
    }
}
