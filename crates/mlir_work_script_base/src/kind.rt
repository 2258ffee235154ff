//! The kinds of analyses and their words.
ghost use Rattle.std.specs.Prelude.{◌≡◌};
ghost use Rattle.std.specs.Option.{option_map};
ghost use Rattle.mlir_work_script_base.specs.Kinds.{kind_name, kind_of, numbered_kind};

use crate::numbers::parse_number;
pub use ir_event::row::Kind;
use itoa::Buffer;

/// The kinds of the program's analyses in order.
pub const KINDS: [Kind; 7] = [
    Kind::USES,
    Kind::SYMBOLS,
    Kind::DIAGNOSTICS,
    Kind::EFFECTS,
    Kind::DEAD,
    Kind::CONSTANTS,
    Kind::UNREACHED,
];

/// Returns the name of a kind, or `None` if it has no name. The word of a kind without a name is `kind` with its
/// number.
pub fn name_of(kind: Kind) -> Option<&'static [u8]>
    ensures { option_map (λ name. name.now) result ≡ kind_name kind }
{
    match kind.number() {
        1 => Some(b"uses"),
        2 => Some(b"symbols"),
        3 => Some(b"diagnostics"),
        4 => Some(b"effects"),
        5 => Some(b"dead"),
        6 => Some(b"constants"),
        7 => Some(b"unreached"),
        _ => None,
    }
}

/// Parses `kind9`. Returns `None` if the number's kind has a name, or if the number isn't in its printed form.
fn numbered_kind(word: &[u8]) -> Option<Kind>
    ensures { result ≡ numbered_kind word.now }
{
    if !word.starts_with(b"kind") {
        return None;
    }
    let digits = &word[4..];
    let number = parse_number(digits)?;
    let number = u8::try_from(number).ok()?;
    let mut buffer = Buffer::new();
    if name_of(Kind::new(number)).is_some() || digits != buffer.format(number).as_bytes() {
        return None;
    }
    Some(Kind::new(number))
}

/// Returns the kind with this word, or `None`.
pub fn kind_named(word: &[u8]) -> Option<Kind>
    ensures { result ≡ kind_of word.now }
{
    if word == b"uses".as_slice() {
        return Some(Kind::USES);
    }
    if word == b"symbols".as_slice() {
        return Some(Kind::SYMBOLS);
    }
    if word == b"diagnostics".as_slice() {
        return Some(Kind::DIAGNOSTICS);
    }
    if word == b"effects".as_slice() {
        return Some(Kind::EFFECTS);
    }
    if word == b"dead".as_slice() {
        return Some(Kind::DEAD);
    }
    if word == b"constants".as_slice() {
        return Some(Kind::CONSTANTS);
    }
    if word == b"unreached".as_slice() {
        return Some(Kind::UNREACHED);
    }
    numbered_kind(word)
}
