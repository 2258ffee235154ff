//! Texts that are their own expansion.
ghost use Rattle.std.specs.Prelude.{◌≡◌, ◌≤◌, ◌∷◌, true, length, IfSome, IfNone};
ghost use Rattle.ir_text_modules.specs.Stays.{begins_more, has_more, stands};

use ir_text_aliases::lexemes::after_lexeme;
use ir_text_aliases::uses::begins_loc;
use ir_text_aliases::values::definition;
use memchr::memchr3;

/// Returns whether `all` begins with the word `loc` or a definition.
fn begins_more(byte: u8, all: &[u8], tail: &[u8]) -> bool
    requires all { all.now ≡ byte ∷ tail.now }
    ensures { result ≡ begins_more byte tail.now }
{
    if begins_loc(all) {
        return true;
    }
    match definition(byte, all, tail) {
        Some(_) => true,
        None => false,
    }
}

/// Returns the text from the first `l`, `#` or `!` on. The word `loc` and definitions begin with one of these bytes.
#[tactic(auto, using(crate::proofs::Denotation::quiet_up_to, crate::proofs::Denotation::all_quiet))]
fn from_sign(bytes: &[u8]) -> &[u8]
    ensures same { stands result.now ≡ stands bytes.now }
    ensures within { length result.now ≤ length bytes.now }
{
    match memchr3(b'l', b'#', b'!', bytes) {
        Some(at) => {
            let (_, rest) = bytes.split_at(at);
            rest
        }
        None => &[],
    }
}

/// Returns whether the word `loc` or a definition begins at any byte of the text.
#[tactic(auto, unfolding(crate::specs::Stays::stands))]
fn stands(bytes: &[u8]) -> bool
    ensures { result ≡ stands bytes.now }
{
    let mut rest = from_sign(bytes);
    'bytes: while let [byte, tail @ ..] = rest {
        if begins_more(*byte, rest, tail) {
            return true;
        }
        rest = from_sign(tail);
    }
    false
}

/// Returns the rest of the text after the lexeme that begins with `byte`, or `None` if the lexeme is `loc` or begins
/// a definition.
#[tactic(auto, using(crate::proofs::Denotation::after_other, crate::proofs::Denotation::found, crate::proofs::Defining::gap_shorter))]
fn after_other<'a>(byte: u8, all: &'a [u8], tail: &'a [u8]) -> Option<&'a [u8]>
    requires all { all.now ≡ byte ∷ tail.now }
    ensures on { IfSome result (λ r. has_more 0 r.now ≡ has_more 0 all.now) }
    ensures found { IfNone result (has_more 0 all.now ≡ true) }
    ensures shorter { IfSome result (λ r. length r.now ≤ length tail.now) }
{
    if begins_more(byte, all, tail) {
        return None;
    }
    Some(after_lexeme(byte, all, tail))
}

/// Returns whether a lexeme of the text is the word `loc` or begins a definition.
#[tactic(auto, unfolding(crate::specs::Stays::has_more))]
fn in_a_lexeme(bytes: &[u8]) -> bool
    ensures { result ≡ has_more 0 bytes.now }
{
    let mut rest = bytes;
    'lexemes: while let [byte, tail @ ..] = rest {
        match after_other(*byte, rest, tail) {
            Some(trailing) => rest = trailing,
            None => return true,
        }
    }
    false
}

/// Returns whether a lexeme of the text is the word `loc` or begins a definition. Otherwise the text is its own
/// expansion. A fast test of all bytes comes first, and most texts need no lexing.
#[tactic(auto, using(crate::proofs::Denotation::in_no_lexeme))]
pub fn has_more(bytes: &[u8]) -> bool
    ensures { result ≡ has_more 0 bytes.now }
{
    stands(bytes) && in_a_lexeme(bytes)
}
