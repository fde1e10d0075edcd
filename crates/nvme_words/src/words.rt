// Which word follows the program's name, and how many words follow that.
ghost use Rattle.std.specs.Prelude.{◌≡◌};
ghost use Rattle.nvme_words.specs.Words.{asks, asks_alone, is_option, names_no_trace, reads_input_alone, writes_file};

/// Whether the word after the program's name is this one.
pub(crate) fn asks(words: &[String], name: &str) -> bool
    ensures { result ≡ asks name.now words.now }
{
    match words {
        [_, word, ..] => word.as_str() == name,
        _ => false,
    }
}

// Whether a word begins with a dash, and isn't the dash alone.
fn is_option(word: &str) -> bool
    ensures { result ≡ is_option word.now }
{
    let bytes = word.as_bytes();
    bytes.len() > 1 && bytes[0] == b'-'
}

/// Whether the words are the program's name, this one and at most the name of a file.
pub(crate) fn asks_alone(words: &[String], name: &str) -> bool
    ensures { result ≡ asks_alone name.now words.now }
{
    match words {
        [_, word] => word.as_str() == name,
        [_, word, file] => word.as_str() == name && !is_option(file.as_str()),
        _ => false,
    }
}

/// Whether the words are of a subcommand that may write its answer to a file.
pub(crate) fn writes_file(words: &[String]) -> bool
    ensures { result ≡ writes_file words.now }
{
    asks(words, "chart") || asks(words, "trace")
}

/// Whether the words, of which the first is the program's name, are of a subcommand that reads standard input alone:
/// `once`, `loaded` or `live`.
pub fn reads_input_alone(words: &[String]) -> bool
    ensures { result ≡ reads_input_alone words.now }
{
    asks(words, "once") || asks(words, "loaded") || asks(words, "live")
}

/// Whether the words are of a subcommand that reads a trace and isn't given a file.
pub(crate) fn names_no_trace(words: &[String]) -> bool
    ensures { result ≡ names_no_trace words.now }
{
    words.len() == 2 && (asks(words, "check") || asks(words, "chart") || asks(words, "stats"))
}
