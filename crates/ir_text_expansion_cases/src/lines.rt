//! Decodes a line. Two hexadecimal digits between tildes are a byte: `~0A~` is a line feed.
use std::alloc::{AllocError, Global};

/// The length limit of a text that is printed in full.
const MOST_SHOWN: usize = 400;

/// Returns the byte that two digits denote, or a question mark.
fn byte_of(digits: &str) -> u8 {
    u8::from_str_radix(digits, 16).unwrap_or(b'?')
}

fn write_part(bytes: &mut Vec<u8>, part: &str, escaped: bool) -> Result<(), AllocError> {
    if escaped {
        bytes.push(byte_of(part))?;
        Ok(())
    } else {
        bytes.extend_from_slice(part.as_bytes())
    }
}

/// Returns the bytes of a line.
pub fn bytes_of(alloc: Global, line: &str) -> Result<Vec<u8>, AllocError> {
    let mut bytes = Vec::new(alloc);
    let mut escaped = false;
    for part in line.split('~') {
        write_part(&mut bytes, part, escaped)?;
        escaped = !escaped;
    }
    Ok(bytes)
}

fn write_byte(out: &mut String, byte: u8) -> Result<(), AllocError> {
    if 32 <= byte && byte < 126 {
        out.push(char::from(byte))
    } else {
        out.push('.')
    }
}

fn write_bytes(out: &mut String, bytes: &[u8]) -> Result<(), AllocError> {
    for byte in bytes {
        write_byte(out, *byte)?;
    }
    Ok(())
}

/// Adds a number to a sum that depends on the order of its numbers.
pub fn summed(sum: u64, number: u64) -> u64 {
    sum.wrapping_mul(1_000_003).wrapping_add(number)
}

fn sum_of(bytes: &[u8]) -> u64 {
    let mut sum = 0;
    for byte in bytes {
        sum = summed(sum, u64::from(*byte));
    }
    sum
}

/// Returns a short text with a dot for each unprintable byte, or the length of a long one, and a sum of its bytes.
pub fn shown(alloc: Global, text: &[u8]) -> Result<String, AllocError> {
    let mut out = String::new(alloc);
    if text.len() <= MOST_SHOWN {
        write_bytes(&mut out, text)?;
    }
    let sum = sum_of(text);
    format!(in alloc; "{} bytes {sum:016x} {out}", text.len())
}
