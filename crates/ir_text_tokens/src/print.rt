//! Prints tokens.
ghost use Rattle.std.specs.Prelude.{◌≡◌, ◌++◌, ◌<◌, ℕ, List, IsTrue, OnOk};
ghost use Rattle.ir_text_tokens.specs.Printing.{byte_text, hex_digit, is_bare_id, key_text, raw_text, signed_text, string_text, symbol_text};

use crate::runs::{Class, is_letter, run_len};
use itoa::Buffer;
use std::alloc::AllocError;

/// Returns an uppercase hexadecimal digit.
fn hex_digit(n: u8) -> u8
    requires { n < 16 }
    ensures { result ≡ hex_digit n }
{
    if n < 10 { b'0' + n } else { b'A' + (n - 10) }
}

/// Appends the printed form of one byte of a string.
fn write_byte(out: &mut Vec<u8>, byte: u8) -> Result<(), AllocError>
    ensures { OnOk result (out.new.items ≡ out.old.items ++ byte_text byte) }
{
    if byte == b'\\' {
        out.extend_from_slice(b"\\\\")?;
    } else if b' ' <= byte && byte <= b'~' && byte != b'"' {
        out.push(byte)?;
    } else {
        out.push(b'\\')?;
        out.push(hex_digit(byte / 16))?;
        out.push(hex_digit(byte % 16))?;
    }
    Ok(())
}

/// Returns whether all bytes are word bytes, which are printed in a string without escapes.
#[tactic(auto, using(crate::proofs::Simple::plain_text))]
fn are_plain(text: &[u8]) -> bool
    ensures { IsTrue result → raw_text text.now ≡ text.now }
{
    run_len(text, Class::Word) == text.len()
}

/// Appends a string in quotes. MLIR Language Reference, "Common syntax".
pub fn print_string(out: &mut Vec<u8>, text: &[u8]) -> Result<(), AllocError>
    ensures { OnOk result (out.new.items ≡ out.old.items ++ string_text text.now) }
{
    out.push(b'"')?;
    if are_plain(text) {
        out.extend_from_slice(text)?;
        out.push(b'"')?;
        return Ok(());
    }
    'bytes: for byte in text {
        write_byte(out, *byte)?;
    }
    out.push(b'"')?;
    Ok(())
}

/// Appends a decimal number with its sign. MLIR Language Reference, "Common syntax".
pub fn print_number(out: &mut Vec<u8>, is_negative: bool, magnitude: u128) -> Result<(), AllocError>
    ensures { OnOk result (out.new.items ≡ out.old.items ++ signed_text is_negative magnitude) }
{
    if is_negative {
        out.push(b'-')?;
    }
    let mut buffer = Buffer::new();
    out.extend_from_slice(buffer.format(magnitude).as_bytes())?;
    Ok(())
}

/// Returns whether the text is a bare identifier. MLIR Language Reference, "Identifiers and keywords".
pub fn is_bare_id(text: &[u8]) -> bool
    ensures { result ≡ is_bare_id text.now }
{
    match text {
        [] => false,
        [byte, tail @ ..] => is_letter(*byte) && run_len(tail, Class::Word) == tail.len(),
    }
}

/// Appends a key or a symbol's name: bare if it is a bare identifier, otherwise as a string. MLIR Language Reference,
/// "Identifiers and keywords".
pub fn print_key(out: &mut Vec<u8>, key: &[u8]) -> Result<(), AllocError>
    ensures { OnOk result (out.new.items ≡ out.old.items ++ key_text key.now) }
{
    if is_bare_id(key) {
        out.extend_from_slice(key)?;
        return Ok(());
    }
    print_string(out, key)
}

/// Appends a symbol with its sigil `@`. MLIR Language Reference, "Identifiers and keywords".
pub fn print_symbol(out: &mut Vec<u8>, name: &[u8]) -> Result<(), AllocError>
    ensures { OnOk result (out.new.items ≡ out.old.items ++ symbol_text name.now) }
{
    out.push(b'@')?;
    print_key(out, name)
}
