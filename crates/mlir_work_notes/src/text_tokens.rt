//! Says what is found at a byte of a text: a token.
ghost use Rattle.std.specs.Prelude.{◌≡◌, ◌≤◌, ◌++◌, length, OnOk};
ghost use Rattle.mlir_work_notes.specs.TextTokens.{after_first_len, found_text, inside_len, is_arrow, is_inside, is_name, is_sigil, is_word, name_len};
ghost use Rattle.mlir_work_notes.specs.TextTokens.{quoted_token, string_len, token_at, token_len, word_len};

use std::alloc::AllocError;

/// The longest token that a message shows.
const MOST_SHOWN: usize = 60;

/// Returns whether a byte may be in a word.
pub(crate) fn is_word(byte: u8) -> bool
    ensures { result ≡ is_word byte }
{
    byte.is_ascii_alphanumeric() || byte == b'_' || byte == b'$' || byte == b'.'
}

/// Returns whether a byte may be in a name that begins with `%`, `^`, `#`, `!` or `@`.
fn is_name(byte: u8) -> bool
    ensures { result ≡ is_name byte }
{
    is_word(byte) || byte == b'-'
}

/// Returns whether a byte begins such a name.
fn is_sigil(byte: u8) -> bool
    ensures { result ≡ is_sigil byte }
{
    byte == b'%' || byte == b'^' || byte == b'#' || byte == b'!' || byte == b'@'
}

/// Returns whether a byte is printable ASCII other than a quote.
fn is_inside(byte: u8) -> bool
    ensures { result ≡ is_inside byte }
{
    byte >= 32 && byte < 127 && byte != b'"'
}

/// Returns whether a byte and the start of the text after it are `->` or `=>`.
fn is_arrow(byte: u8, rest: &[u8]) -> bool
    ensures { result ≡ is_arrow byte rest.now }
{
    (byte == b'-' || byte == b'=') && rest.starts_with(b">")
}

/// Returns how many bytes are before the next quote, line feed or byte that isn't printable.
fn inside_len(text: &[u8]) -> usize
    ensures is { result ≡ inside_len text.now }
    ensures within { result ≤ length text.now }
{
    text.iter().take_while(|byte| is_inside(**byte)).count()
}

/// Returns the length of a string without its first quote.
fn string_len(text: &[u8]) -> usize
    ensures is { result ≡ string_len text.now }
    ensures within { result ≤ length text.now }
{
    let inside = inside_len(text);
    if text[inside..].starts_with(b"\"") {
        inside + 1
    } else {
        inside
    }
}

/// Returns how many bytes at the start of a text may be in a name.
fn name_len(text: &[u8]) -> usize
    ensures is { result ≡ name_len text.now }
    ensures within { result ≤ length text.now }
{
    text.iter().take_while(|byte| is_name(**byte)).count()
}

/// Returns how many bytes at the start of a text may be in a word.
fn word_len(text: &[u8]) -> usize
    ensures is { result ≡ word_len text.now }
    ensures within { result ≤ length text.now }
{
    text.iter().take_while(|byte| is_word(**byte)).count()
}

/// Returns how many bytes of a token follow its first byte.
fn after_first_len(byte: u8, rest: &[u8]) -> usize
    ensures is { result ≡ after_first_len byte rest.now }
    ensures within { result ≤ length rest.now }
{
    if byte == b'"' {
        return string_len(rest);
    }
    if is_sigil(byte) {
        return name_len(rest);
    }
    if is_word(byte) {
        return word_len(rest);
    }
    if is_arrow(byte, rest) { 1 } else { 0 }
}

/// Returns the length of the token at the start of a text. It is 0 at the end, and at a byte that isn't printable.
pub(crate) fn token_len(text: &[u8]) -> usize
    ensures is { result ≡ token_len text.now }
    ensures within { result ≤ length text.now }
{
    let [byte, rest @ ..] = text else {
        return 0;
    };
    if *byte == b'"' || is_inside(*byte) {
        after_first_len(*byte, rest) + 1
    } else {
        0
    }
}

/// Returns the token at a byte of a text, at most 60 bytes of it. It is empty at the end of the text, and at a byte
/// that isn't printable.
pub fn token_at(text: &[u8], offset: usize) -> &[u8]
    ensures { result.now ≡ token_at text.now offset }
{
    let Some(rest) = text.get(offset..) else {
        return b"";
    };
    let len = token_len(rest);
    &rest[..len.min(MOST_SHOWN)]
}

/// Appends a token in backticks, or that the byte isn't printable if there is no token.
fn write_token(out: &mut Vec<u8>, token: &[u8]) -> Result<(), AllocError>
    ensures { OnOk result (out.new.items ≡ out.old.items ++ quoted_token token.now) }
{
    if token.is_empty() {
        return out.extend_from_slice(b"found another byte, ");
    }
    out.extend_from_slice(b"found `")?;
    out.extend_from_slice(token)?;
    out.extend_from_slice(b"`, ")
}

/// Appends what is found at a byte of a text, and a comma: "found `->`, ".
pub fn write_found(out: &mut Vec<u8>, text: &[u8], offset: usize) -> Result<(), AllocError>
    ensures { OnOk result (out.new.items ≡ out.old.items ++ found_text text.now offset) }
{
    if offset >= text.len() {
        return out.extend_from_slice(b"found the end of the text, ");
    }
    write_token(out, token_at(text, offset))
}
