// The words of a line, with blanks between them.

/// How many words of a line are read.
pub(crate) const WORDS: usize = 10;

/// The first words of a line. Those that it hasn't are empty.
pub(crate) type Words<'a> = [&'a [u8]; WORDS];

/// The first words of a line.
pub(crate) fn words_of(line: &[u8]) -> Words<'_> {
    let none: &[u8] = b"";
    let mut words = [none; WORDS];
    let mut count = 0;
    for word in line.split(|byte| byte.is_ascii_whitespace()) {
        if !word.is_empty() && count < WORDS {
            words[count] = word;
            count += 1;
        }
    }
    words
}
