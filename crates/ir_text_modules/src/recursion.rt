//! Dialect types that contain themselves through an alias.
ghost use Rattle.std.specs.Prelude.{◌≡◌, ◌∷◌, option_map};
ghost use Rattle.ir_text_tokens.specs.Bytes.{is_letter};
ghost use Rattle.ir_text_tokens.specs.Tokens.{trailing_first};
ghost use Rattle.ir_text_aliases.specs.Lexemes.{lexeme_of};
ghost use Rattle.ir_text_modules.specs.Recursion.{after_scanned, after_own, repeats_own_head, repeats_head};

use ir_text_aliases::lexemes::{after_lexeme, name_len};
use ir_text_aliases::words::is_scalar;

fn is_letter(byte: u8) -> bool
    ensures { result ≡ is_letter byte }
{
    byte.is_ascii_alphabetic() || byte == b'_'
}

/// Returns the lexeme that begins with `byte`. `rest` is the text after the lexeme.
fn lexeme_of<'a>(byte: u8, all: &'a [u8], tail: &'a [u8]) -> &'a [u8]
    requires all { all.now ≡ byte ∷ tail.now }
    ensures { result.now ≡ lexeme_of byte tail.now }
{
    let rest = after_lexeme(byte, all, tail);
    &all[..all.len() - rest.len()]
}

fn after_comma(bytes: &[u8]) -> Option<&[u8]>
    ensures { option_map (λ r. r.now) result ≡ trailing_first 44 bytes.now }
{
    match bytes {
        [b',', rest @ ..] => Some(rest),
        _ => None,
    }
}

/// Returns the rest of the text after a word or string and a comma, unless the word is a type.
fn after_own(bytes: &[u8]) -> Option<&[u8]>
    ensures { option_map (λ r. r.now) result ≡ after_own bytes.now }
{
    match bytes {
        [byte, tail @ ..] if *byte == b'"' || is_letter(*byte) => {
            if is_scalar(lexeme_of(*byte, bytes, tail)) {
                None
            } else {
                after_comma(after_lexeme(*byte, bytes, tail))
            }
        }
        _ => None,
    }
}

/// Returns the rest of the text after the head of a named dialect type: its sigil and name, an angle bracket, the
/// type's own name, and a comma.
fn after_scanned(text: &[u8]) -> Option<&[u8]>
    ensures { option_map (λ r. r.now) result ≡ after_scanned text.now }
{
    let [b'!', tail @ ..] = text else {
        return None;
    };
    match &tail[name_len(tail)..] {
        [b'<', inner @ ..] => after_own(inner),
        _ => None,
    }
}

#[tactic(auto, unfolding(crate::specs::Recursion::repeats_head))]
fn repeats_head(scanned: &[u8], bytes: &[u8]) -> bool
    ensures { result ≡ repeats_head scanned.now bytes.now }
{
    let mut rest = bytes;
    'bytes: while let [_, tail @ ..] = rest {
        if rest.starts_with(scanned) {
            return true;
        }
        rest = tail;
    }
    false
}

/// Returns whether the text begins with the head of a named dialect type and contains that head again.
pub(crate) fn repeats_own_head(text: &[u8]) -> bool
    ensures { result ≡ repeats_own_head text.now }
{
    match after_scanned(text) {
        Some(rest) => repeats_head(&text[..text.len().saturating_sub(rest.len())], rest),
        None => false,
    }
}
