//! Splits lines into words.
ghost use Rattle.std.specs.Prelude.{◌≡◌, position};
ghost use Rattle.std.specs.Str.{is_utf8};
ghost use Rattle.mlir_work_script_base.specs.Words.{is_blank, is_edge, trim_preceding, trim_back, trim, skip_blanks, word_of};
ghost use Rattle.mlir_work_script_base.specs.Words.{after_word};

/// Returns whether a byte is a space or a tab.
pub(crate) fn is_blank(b: u8) -> bool
    ensures { result ≡ is_blank b }
{
    b == b' ' || b == b'\t'
}

/// Returns whether a byte is a space, a tab or a carriage return.
fn is_edge(b: u8) -> bool
    ensures { result ≡ is_edge b }
{
    b == b' ' || b == b'\t' || b == b'\r'
}

fn trim_preceding(text: &[u8]) -> &[u8]
    ensures { result.now ≡ trim_preceding text.now }
{
    let mut rest = text;
    while let [first, tail @ ..] = rest {
        if !is_edge(*first) {
            break;
        }
        rest = tail;
    }
    rest
}

fn trim_back(text: &[u8]) -> &[u8]
    ensures { result.now ≡ trim_back text.now }
{
    let mut rest = text;
    while let [preceding @ .., last] = rest {
        if !is_edge(*last) {
            break;
        }
        rest = preceding;
    }
    rest
}

/// Returns a line without the spaces, tabs and carriage returns at its ends.
pub fn trim(line: &[u8]) -> &[u8]
    ensures { result.now ≡ trim line.now }
{
    trim_back(trim_preceding(line))
}

pub(crate) fn skip_blanks(text: &[u8]) -> &[u8]
    ensures { result.now ≡ skip_blanks text.now }
{
    let mut rest = text;
    while let [first, tail @ ..] = rest {
        if !is_blank(*first) {
            break;
        }
        rest = tail;
    }
    rest
}

/// Returns the index of the first blank, which ends the first word.
fn word_end(text: &[u8]) -> Option<usize>
    ensures { result ≡ position is_blank text.now }
{
    text.iter().position(|b| is_blank(*b))
}

/// Splits a text into its first word and the rest after the following blanks.
pub fn split_word(text: &[u8]) -> (&[u8], &[u8])
    ensures word { result.0.now ≡ word_of text.now }
    ensures rest { result.1.now ≡ after_word text.now }
{
    match word_end(text) {
        Some(end) => (&text[..end], skip_blanks(&text[end + 1..])),
        None => (text, &[]),
    }
}

/// Returns whether a line is UTF-8.
pub fn is_text(line: &[u8]) -> bool
    ensures { result ≡ is_utf8 line.now }
{
    str::from_utf8(line).is_ok()
}
