//! The words of a line, and bytes as text.
use std::alloc::AllocError;
use std::str;

/// Returns the first word of a text, and the rest after it.
pub fn first_word(text: &str) -> (&str, &str) {
    text.split_once(' ').unwrap_or((text, ""))
}

/// Returns a number, or 0 if the word isn't a number.
pub fn parse_number(word: &str) -> u32 {
    word.parse::<u32>().unwrap_or(0)
}

/// Writes bytes as text, or `?` if they aren't UTF-8.
pub fn write_bytes(out: &mut String, bytes: &[u8]) -> Result<(), AllocError> {
    out.push_str(str::from_utf8(bytes).unwrap_or("?"))
}
