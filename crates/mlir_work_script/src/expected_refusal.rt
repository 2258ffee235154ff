//! Parses `expect REFUSAL COMMAND`: lines whose command should be refused.
ghost use Rattle.std.specs.Prelude.{◌≡◌};
ghost use Rattle.mlir_work_script.specs.Expecting.{all_refusals, command_after, expected_in, line_expects, names};
ghost use Rattle.mlir_work_script.specs.Expecting.{refusal_in};

use ir_event::types::refusal::Refusal;
use mlir_work_script_base::numbers::parse_number;
use mlir_work_script_base::words::{is_text, split_word, trim};

/// All refusals in the order of their numbers.
const REFUSALS: [Refusal; 41] = [
    Refusal::BadToken,
    Refusal::Unexpected,
    Refusal::UnknownValue,
    Refusal::Redefined,
    Refusal::TypeMismatch,
    Refusal::BadWidth,
    Refusal::BadValue,
    Refusal::MultipleBlocks,
    Refusal::Successors,
    Refusal::TooDeep,
    Refusal::TooMany,
    Refusal::DuplicateKey,
    Refusal::LeftOut,
    Refusal::NotUtf8,
    Refusal::NoSuchOp,
    Refusal::NoSuchValue,
    Refusal::HasUses,
    Refusal::NotVisible,
    Refusal::TypeDiffers,
    Refusal::NoSuchIndex,
    Refusal::NoSuchKey,
    Refusal::IntoItself,
    Refusal::OtherTable,
    Refusal::IsRoot,
    Refusal::NotEmpty,
    Refusal::Full,
    Refusal::IdsExhausted,
    Refusal::TooDeepHere,
    Refusal::TooManyMarks,
    Refusal::NoMark,
    Refusal::Memory,
    Refusal::Stale,
    Refusal::NoSuchKind,
    Refusal::KindTaken,
    Refusal::BadLimit,
    Refusal::NotLegalised,
    Refusal::ChainTooDeep,
    Refusal::Unreconciled,
    Refusal::BadTarget,
    Refusal::BadCommand,
    Refusal::NotProved,
];

fn all_refusals() -> &'static [Refusal]
    ensures { result.now ≡ all_refusals }
{
    &REFUSALS
}

/// Returns whether a word is the number or the word of a refusal.
fn is_name_of(word: &[u8], refusal: Refusal) -> bool
    ensures { result ≡ names word.now refusal }
{
    if parse_number(word) == Some(refusal.number()) {
        return true;
    }
    refusal.word().as_bytes() == word
}

/// Returns the refusal with this number or word, or `None` if there is none.
fn refusal_named(word: &[u8]) -> Option<Refusal>
    ensures { result ≡ refusal_in word.now }
{
    let mut rest = all_refusals();
    while let [first, tail @ ..] = rest {
        if is_name_of(word, *first) {
            return Some(*first);
        }
        rest = tail;
    }
    None
}

/// Returns the refusal that a trimmed line expects.
pub(crate) fn expected_in(text: &[u8]) -> Option<Refusal>
    ensures { result ≡ expected_in text.now }
{
    let (name, rest) = split_word(text);
    if name != b"expect".as_slice() {
        return None;
    }
    let (word, _) = split_word(rest);
    refusal_named(word)
}

/// Returns the command of a trimmed line: the text after the expected refusal, or the whole text if none is expected.
pub(crate) fn command_after(expected: Option<Refusal>, text: &[u8]) -> &[u8]
    ensures { result.now ≡ command_after expected text.now }
{
    if expected.is_none() {
        return text;
    }
    let (_, rest) = split_word(text);
    let (_, command) = split_word(rest);
    command
}

/// Returns the refusal that a line expects, or `None`. The line `expect 22 erase #3` expects refusal 22; its word is
/// accepted in place of its number.
pub fn expected_of(line: &[u8]) -> Option<Refusal>
    ensures { result ≡ line_expects line.now }
{
    let expected = expected_in(trim(line));
    if expected.is_none() || !is_text(line) {
        return None;
    }
    expected
}
