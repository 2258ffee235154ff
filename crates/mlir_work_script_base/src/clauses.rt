//! Parses the clauses of a conversion.
ghost use Rattle.std.specs.Prelude.{◌≡◌, Some};
ghost use Rattle.std.specs.Option.{option_map};
ghost use Rattle.mlir_work_script_base.specs.Clauses.{clauses_of, mode_of, no_clauses, with_clauses, with_depth};
ghost use Rattle.mlir_work_script_base.specs.Clauses.{with_dynamic, with_illegal, with_legal, with_named, with_rules};
ghost use Rattle.mlir_work_script_base.specs.Words.{words_of};

use crate::items::{are_names, are_numbers};
use crate::numbers::parse_number;
use crate::words::{skip_blanks, split_word};

/// The clauses of a conversion. Each is optional.
#[derive(Clone, Copy)]
pub struct Clauses<'a> {
    /// `legal NAMES`: the legal operations, separated by commas.
    pub legal: Option<&'a [u8]>,
    /// `illegal NAMES`: the illegal operations, separated by commas.
    pub illegal: Option<&'a [u8]>,
    /// `dynamic NAMES`: the operations that are legal if none of their operands, results and block arguments has the
    /// type `index`.
    pub dynamic: Option<&'a [u8]>,
    /// `rules NUMBERS`: the rules to try, separated by commas.
    pub rules: Option<&'a [u8]>,
    /// `depth N`: the depth limit of nested legalizations.
    pub depth: Option<u32>,
}

fn none<'a>() -> Clauses<'a>
    ensures { clauses_of result ≡ no_clauses }
{
    Clauses {
        legal: None,
        illegal: None,
        dynamic: None,
        rules: None,
        depth: None,
    }
}

fn with_legal<'a>(clauses: &Clauses<'a>, word: &'a [u8]) -> Option<Clauses<'a>>
    ensures { option_map clauses_of result ≡ with_legal word.now (clauses_of clauses.now) }
{
    if clauses.legal.is_some() || !are_names(word) {
        return None;
    }
    Some(Clauses {
        legal: Some(word),
        ..*clauses
    })
}

fn with_illegal<'a>(clauses: &Clauses<'a>, word: &'a [u8]) -> Option<Clauses<'a>>
    ensures { option_map clauses_of result ≡ with_illegal word.now (clauses_of clauses.now) }
{
    if clauses.illegal.is_some() || !are_names(word) {
        return None;
    }
    Some(Clauses {
        illegal: Some(word),
        ..*clauses
    })
}

fn with_dynamic<'a>(clauses: &Clauses<'a>, word: &'a [u8]) -> Option<Clauses<'a>>
    ensures { option_map clauses_of result ≡ with_dynamic word.now (clauses_of clauses.now) }
{
    if clauses.dynamic.is_some() || !are_names(word) {
        return None;
    }
    Some(Clauses {
        dynamic: Some(word),
        ..*clauses
    })
}

fn with_rules<'a>(clauses: &Clauses<'a>, word: &'a [u8]) -> Option<Clauses<'a>>
    ensures { option_map clauses_of result ≡ with_rules word.now (clauses_of clauses.now) }
{
    if clauses.rules.is_some() || !are_numbers(word) {
        return None;
    }
    Some(Clauses {
        rules: Some(word),
        ..*clauses
    })
}

fn with_depth<'a>(clauses: &Clauses<'a>, word: &[u8]) -> Option<Clauses<'a>>
    ensures { option_map clauses_of result ≡ with_depth word.now (clauses_of clauses.now) }
{
    let depth = parse_number(word)?;
    if clauses.depth.is_some() {
        return None;
    }
    Some(Clauses {
        depth: Some(depth),
        ..*clauses
    })
}

/// Adds the clause of this name. Returns `None` for an unknown, malformed or repeated clause.
fn with_named<'a>(clauses: &Clauses<'a>, name: &[u8], word: &'a [u8]) -> Option<Clauses<'a>>
    ensures { option_map clauses_of result ≡ with_named name.now word.now (clauses_of clauses.now) }
{
    if name == b"legal".as_slice() {
        return with_legal(clauses, word);
    }
    if name == b"illegal".as_slice() {
        return with_illegal(clauses, word);
    }
    if name == b"dynamic".as_slice() {
        return with_dynamic(clauses, word);
    }
    if name == b"rules".as_slice() {
        return with_rules(clauses, word);
    }
    if name == b"depth".as_slice() {
        return with_depth(clauses, word);
    }
    None
}

/// Adds the clauses of a text. Returns `None` if one of them is unknown, malformed or repeated.
fn with_clauses<'a>(clauses: &Clauses<'a>, text: &'a [u8]) -> Option<Clauses<'a>>
    ensures { option_map clauses_of result ≡ with_clauses (words_of text.now) (Some (clauses_of clauses.now)) }
{
    let text = skip_blanks(text);
    if text.is_empty() {
        return Some(*clauses);
    }
    let (name, rest) = split_word(text);
    let (word, rest) = split_word(rest);
    let Some(more) = with_named(clauses, name, word) else {
        return None;
    };
    with_clauses(&more, rest)
}

/// Parses clauses such as `legal NAMES depth N`, each at most once and in any order. Returns `None` if a clause is
/// unknown, malformed or repeated.
pub fn clauses_in(text: &[u8]) -> Option<Clauses<'_>>
    ensures { option_map clauses_of result ≡ with_clauses (words_of text.now) (Some no_clauses) }
{
    with_clauses(&none(), text)
}

/// Parses the mode of a conversion: `full` is `true`, `partial` is `false`, any other word is `None`.
pub fn mode_named(word: &[u8]) -> Option<bool>
    ensures { result ≡ mode_of word.now }
{
    if word == b"partial".as_slice() {
        return Some(false);
    }
    if word == b"full".as_slice() {
        return Some(true);
    }
    None
}
