//! Splits a line into its cells.
ghost use Rattle.std.specs.Prelude.{◌≡◌, ◌==◌, ◌<◌, ◌≤◌, length, position, false, is_some};
ghost use Rattle.mlir_work_json.specs.Cuts.{ends_cell, quoted_after, cell_len, cell, trailing, without_last};

use mlir_work_script_base::cuts::place_of;

/// The blank between two cells.
pub(crate) const BLANK: u8 = b' ';

/// Returns whether a text contains a byte.
pub(crate) fn has_byte(text: &[u8], byte: u8) -> bool
    ensures { result ≡ is_some (position (λ b. b == byte) text.now) }
{
    place_of(text, byte).is_some()
}

/// Returns a text without its last byte.
pub(crate) fn without_last(text: &[u8]) -> &[u8]
    ensures { result.now ≡ without_last text.now }
{
    &text[..text.len().saturating_sub(1)]
}

/// Returns whether a byte ends a cell: it is a blank outside quotes.
fn ends_cell(quoted: bool, byte: u8) -> bool
    ensures { result ≡ ends_cell quoted byte }
{
    !quoted && byte == BLANK
}

/// Returns whether the position after a byte is inside quotes.
fn quoted_after(quoted: bool, byte: u8) -> bool
    ensures { result ≡ quoted_after quoted byte }
{
    if byte == b'"' { !quoted } else { quoted }
}

/// Returns the length of the first cell of a text.
fn cell_len(text: &[u8]) -> usize
    ensures length { result ≡ cell_len false text.now }
    ensures within { result ≤ length text.now }
{
    let mut quoted = false;
    let mut len = 0;
    for byte in text {
        if ends_cell(quoted, *byte) {
            return len;
        }
        quoted = quoted_after(quoted, *byte);
        len += 1;
    }
    len
}

/// Splits a text into its first cell and the rest after the blank.
pub(crate) fn cut_cell(text: &[u8]) -> (&[u8], &[u8])
    ensures cell { result.0.now ≡ cell text.now }
    ensures trailing { result.1.now ≡ trailing text.now }
    ensures shorter { 0 < length text.now → length result.1.now < length text.now }
{
    let end = cell_len(text);
    if end < text.len() {
        (&text[..end], &text[end + 1..])
    } else {
        (text, &[])
    }
}

/// Returns the rest of a text after its first cell and the blank.
pub(crate) fn after_cell(text: &[u8]) -> &[u8]
    ensures { result.now ≡ trailing text.now }
{
    cut_cell(text).1
}
