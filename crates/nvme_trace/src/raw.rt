// The text of a value as it stands in its line.
use serde_json::Value;
use std::alloc::{AllocError, Global};

// How many characters of a value are shown.
const SHOWN: usize = 40;

// Where a reading of JSON stands: within how many brackets, and whether within a string.
#[derive(Clone, Copy)]
struct Reading {
    depth: u32,
    in_string: bool,
    is_escaped: bool,
}

impl Reading {
    // Goes over a byte. The answer is true where a value ends before it.
    fn ends_at(&mut self, byte: u8, separator: u8) -> bool {
        if self.in_string {
            self.in_string = self.is_escaped || byte != b'"';
            self.is_escaped = !self.is_escaped && byte == b'\\';
            return false;
        }
        match byte {
            b'"' => self.in_string = true,
            b'[' | b'{' => self.depth = self.depth.saturating_add(1),
            b']' | b'}' if self.depth == 0 => return true,
            b']' | b'}' => self.depth = self.depth.saturating_sub(1),
            _ => return self.depth == 0 && byte == separator,
        }
        false
    }
}

// What stands before a separator or the end of the brackets, and what stands behind it.
fn split(text: &str, separator: u8) -> Option<(&str, &str)> {
    let mut reading = Reading {
        depth: 0,
        in_string: false,
        is_escaped: false,
    };
    for (index, byte) in text.bytes().enumerate() {
        if reading.ends_at(byte, separator) {
            let behind = text.get(index.saturating_add(1)..)?;
            return Some((text.get(..index)?, behind));
        }
    }
    None
}

// The text of the value behind a name, where a name has no escapes: of several the last one.
fn member<'a>(object: &'a str, name: &str) -> Option<&'a str> {
    let mut rest = object.trim().strip_prefix('{')?;
    let mut found = None;
    for _ in 0..object.len() {
        let Some((part, behind)) = split(rest, b',') else {
            return found;
        };
        let (key, value) = split(part, b':')?;
        let key = key.trim().strip_prefix('"')?.strip_suffix('"')?;
        if key.contains('\\') {
            return None;
        }
        if key == name {
            found = Some(value.trim());
        }
        rest = behind;
    }
    found
}

// The text of the item of an array at an index.
fn item(array: &str, index: usize) -> Option<&str> {
    let mut rest = array.trim().strip_prefix('[')?;
    for _ in 0..index {
        rest = split(rest, b',')?.1;
    }
    Some(split(rest, b',')?.0.trim())
}

// Adds a character, as an escape where it isn't to be seen.
fn push_shown(shown: &mut String, character: char) -> Result<(), AllocError> {
    if matches!(character, '"' | '\'' | '\\') {
        return shown.push(character);
    }
    for part in character.escape_debug() {
        shown.push(part)?;
    }
    Ok(())
}

// The first characters of a text, with escapes for those that aren't to be seen.
fn cut(alloc: Global, text: &str) -> Result<String, AllocError> {
    let mut shown = String::new(alloc);
    for (index, character) in text.chars().enumerate() {
        if index == SHOWN {
            shown.push_str("..")?;
            return Ok(shown);
        }
        push_shown(&mut shown, character)?;
    }
    Ok(shown)
}

/// A value, and its text, where that is found in the line.
#[derive(Clone, Copy)]
pub struct Found<'a> {
    pub value: &'a Value,
    text: Option<&'a str>,
}

impl<'a> Found<'a> {
    /// The value of a line.
    pub fn new(value: &'a Value, text: &'a str) -> Found<'a> {
        Found {
            value,
            text: Some(text.trim()),
        }
    }

    /// The value of a field.
    pub fn member(&self, name: &str) -> Option<Found<'a>> {
        let value = self.value.get(name)?;
        let text = match self.text {
            Some(text) => member(text, name),
            None => None,
        };
        Some(Found { value, text })
    }

    /// The item at an index.
    pub fn item(&self, index: usize) -> Option<Found<'a>> {
        let value = self.value.get(index)?;
        let text = match self.text {
            Some(text) => item(text, index),
            None => None,
        };
        Some(Found { value, text })
    }

    /// The value as it stands in the line, cut off where it is long.
    pub fn shown(&self, alloc: Global) -> Result<String, AllocError> {
        match self.text {
            Some(text) => cut(alloc, text),
            None => {
                let text = self.value.to_string(alloc)?;
                cut(alloc, text.as_str())
            }
        }
    }
}
