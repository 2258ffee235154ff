//! Runs of bytes of one class.
ghost use Rattle.std.specs.Prelude.{◌≡◌, ◌≤◌, length};
ghost use Rattle.std.specs.List.{prefix_len};
ghost use Rattle.ir_text_tokens.specs.Bytes.{class_test, is_blank, is_hex, is_letter, is_line_end, is_word};

/// A class of bytes.
#[derive(Clone, Copy)]
pub(crate) enum Class {
    Digit,
    Hexadecimal,
    Word,
    Suffix,
}

/// Each word byte is at its own index. Every other index has a comma.
static WORD_BYTES: [u8; 256] = *b"\
    ,,,,,,,,,,,,,,,,,,,,,,,,,,,,,,,,\
    ,,,,$,,,,,,,,,.,0123456789,,,,,,\
    ,ABCDEFGHIJKLMNOPQRSTUVWXYZ,,,,_\
    ,abcdefghijklmnopqrstuvwxyz,,,,,\
    ,,,,,,,,,,,,,,,,,,,,,,,,,,,,,,,,\
    ,,,,,,,,,,,,,,,,,,,,,,,,,,,,,,,,\
    ,,,,,,,,,,,,,,,,,,,,,,,,,,,,,,,,\
    ,,,,,,,,,,,,,,,,,,,,,,,,,,,,,,,,";

pub(crate) fn is_blank(byte: u8) -> bool
    ensures { result ≡ is_blank byte }
{
    matches!(byte, b' ' | b'\t' | b'\n' | b'\r')
}

pub(crate) fn is_line_end(byte: u8) -> bool
    ensures { result ≡ is_line_end byte }
{
    10 <= byte && byte <= 13
}

pub(crate) fn is_hex(byte: u8) -> bool
    ensures { result ≡ is_hex byte }
{
    byte.is_ascii_digit() || (b'a' <= byte && byte <= b'f') || (b'A' <= byte && byte <= b'F')
}

pub(crate) fn is_letter(byte: u8) -> bool
    ensures { result ≡ is_letter byte }
{
    byte.is_ascii_alphabetic() || byte == b'_'
}

/// Returns whether `byte` can continue a word. The answer is one table lookup.
#[inline(always)]
pub(crate) fn is_word(byte: u8) -> bool
    ensures { result ≡ is_word byte }
{
    WORD_BYTES[byte as usize] != b','
}

#[inline(always)]
fn is_in(class: Class, byte: u8) -> bool
    ensures { result ≡ class_test class byte }
{
    match class {
        Class::Digit => byte.is_ascii_digit(),
        Class::Hexadecimal => is_hex(byte),
        Class::Word => is_word(byte),
        Class::Suffix => is_word(byte) || byte == b'-',
    }
}

/// Returns the length of the longest prefix whose bytes are all of `class`, byte by byte.
fn short_run_len(bytes: &[u8], class: Class) -> usize
    ensures len { result ≡ prefix_len (class_test class) bytes.now }
    ensures within { result ≤ length bytes.now }
{
    bytes.iter().take_while(|b| is_in(class, **b)).count()
}

/// Returns the length of the longest prefix whose bytes are all of `class`. Compares the length of the rest once for
/// four bytes.
#[inline(always)]
#[tactic(auto, using(crate::proofs::ByteRuns::stops_at_1, crate::proofs::ByteRuns::stops_at_2, crate::proofs::ByteRuns::stops_at_3, crate::proofs::ByteRuns::stops_at_4, crate::proofs::ByteRuns::goes_on))]
pub(crate) fn run_len(bytes: &[u8], class: Class) -> usize
    ensures len { result ≡ prefix_len (class_test class) bytes.now }
    ensures within { result ≤ length bytes.now }
{
    let mut rest = bytes;
    let mut len = 0;
    'fours: while let [a, b, c, d, tail @ ..] = rest {
        if !is_in(class, *a) {
            return len;
        }
        if !is_in(class, *b) {
            return len + 1;
        }
        if !is_in(class, *c) {
            return len + 2;
        }
        if !is_in(class, *d) {
            return len + 3;
        }
        len += 4;
        rest = tail;
    }
    len + short_run_len(rest, class)
}
