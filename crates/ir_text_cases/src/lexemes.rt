//! Decodes the text of a line.
//!
//! A text consists of pieces that are separated by backticks. A piece `256*%a,` is 256 copies of `%a,`. Two
//! hexadecimal digits between tildes are a byte: `a~0A~b` has a line feed.
use std::alloc::{AllocError, Global};

/// Returns the first word of a text, and the text after it.
pub fn first_word(text: &str) -> (&str, &str) {
    text.split_once(' ').unwrap_or((text, ""))
}

/// Returns the byte that two digits denote, or a question mark.
fn byte_of(digits: &str) -> u8 {
    u8::from_str_radix(digits, 16).unwrap_or(b'?')
}

fn write_part(bytes: &mut Vec<u8>, part: &str, escaped: bool) -> Result<(), AllocError> {
    if escaped {
        bytes.push(byte_of(part))?;
        Ok(())
    } else {
        bytes.extend_from_slice(part.as_bytes())
    }
}

fn write_once(bytes: &mut Vec<u8>, lexeme: &str) -> Result<(), AllocError> {
    let mut escaped = false;
    for part in lexeme.split('~') {
        write_part(bytes, part, escaped)?;
        escaped = !escaped;
    }
    Ok(())
}

fn write_times(bytes: &mut Vec<u8>, times: u32, lexeme: &str) -> Result<(), AllocError> {
    for _ in 0..times {
        write_once(bytes, lexeme)?;
    }
    Ok(())
}

/// Returns the number of copies of a piece, and the piece.
fn times_of(lexeme: &str) -> (u32, &str) {
    match lexeme.split_once('*') {
        Some((times, part)) => match times.parse::<u32>() {
            Ok(times) => (times, part),
            Err(_) => (1, lexeme),
        },
        None => (1, lexeme),
    }
}

fn write_lexeme(bytes: &mut Vec<u8>, lexeme: &str) -> Result<(), AllocError> {
    let (times, lexeme) = times_of(lexeme);
    write_times(bytes, times, lexeme)
}

/// Returns the bytes of a text.
pub fn bytes_of(alloc: Global, text: &str) -> Result<Vec<u8>, AllocError> {
    let mut bytes = Vec::new(alloc);
    for lexeme in text.split('`') {
        write_lexeme(&mut bytes, lexeme)?;
    }
    Ok(bytes)
}
