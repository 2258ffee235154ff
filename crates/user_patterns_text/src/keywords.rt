//! The words of the pattern language.
ghost use Rattle.std.specs.Prelude.{◌≡◌, ◌∷◌, [], codes, drop, take};
ghost use Rattle.user_patterns_text.specs.Heads.{flagged, folding, is_comparison, is_integer_word, is_one_of, is_type_word, is_allowed_word, may_be_requested, must_be_requested, predicates};

use ir_text_tokens::numbers::are_digits;
use ir_text_types::scalars::scalar_of;

/// Returns whether `word` names one of the first eight operations of `folding`.
#[tactic(auto, unfolding(crate::specs::Heads::folding))]
fn is_first_folding(word: &[u8]) -> bool
    ensures { result ≡ is_one_of (take 8 folding) word.now }
{
    word == b"arith.addi".as_slice()
        || word == b"arith.subi".as_slice()
        || word == b"arith.muli".as_slice()
        || word == b"arith.shli".as_slice()
        || word == b"arith.divsi".as_slice()
        || word == b"arith.divui".as_slice()
        || word == b"arith.remsi".as_slice()
        || word == b"arith.remui".as_slice()
}

/// Returns whether `word` names one of the next eight operations of `folding`.
#[tactic(auto, unfolding(crate::specs::Heads::folding))]
fn is_extra_folding(word: &[u8]) -> bool
    ensures { result ≡ is_one_of (take 8 (drop 8 folding)) word.now }
{
    word == b"arith.andi".as_slice()
        || word == b"arith.ori".as_slice()
        || word == b"arith.xori".as_slice()
        || word == b"arith.shrsi".as_slice()
        || word == b"arith.shrui".as_slice()
        || word == b"arith.maxsi".as_slice()
        || word == b"arith.maxui".as_slice()
        || word == b"arith.minsi".as_slice()
}

/// Returns whether `word` names one of the last eight operations of `folding`.
#[tactic(auto, unfolding(crate::specs::Heads::folding))]
fn is_last_folding(word: &[u8]) -> bool
    ensures { result ≡ is_one_of (drop 8 (drop 8 folding)) word.now }
{
    word == b"arith.minui".as_slice()
        || word == b"arith.cmpi".as_slice()
        || word == b"arith.select".as_slice()
        || word == b"arith.extsi".as_slice()
        || word == b"arith.extui".as_slice()
        || word == b"arith.trunci".as_slice()
        || word == b"arith.index_cast".as_slice()
        || word == b"arith.index_castui".as_slice()
}

/// Returns whether `word` names an operation that folds.
#[tactic(auto, using(crate::proofs::Lists::any_of_three))]
pub(crate) fn is_folding(word: &[u8]) -> bool
    ensures { result ≡ is_one_of folding word.now }
{
    is_first_folding(word) || is_extra_folding(word) || is_last_folding(word)
}

#[tactic(auto, unfolding(crate::specs::Heads::predicates))]
fn is_predicate(word: &[u8]) -> bool
    ensures { result ≡ is_one_of predicates word.now }
{
    word == b"eq".as_slice()
        || word == b"ne".as_slice()
        || word == b"slt".as_slice()
        || word == b"sle".as_slice()
        || word == b"sgt".as_slice()
        || word == b"sge".as_slice()
        || word == b"ult".as_slice()
        || word == b"ule".as_slice()
        || word == b"ugt".as_slice()
        || word == b"uge".as_slice()
}

/// Returns whether `word` names an operation with overflow flags.
#[tactic(auto, unfolding(crate::specs::Heads::flagged))]
fn is_flagged(word: &[u8]) -> bool
    ensures { result ≡ is_one_of flagged word.now }
{
    word == b"arith.addi".as_slice()
        || word == b"arith.subi".as_slice()
        || word == b"arith.muli".as_slice()
        || word == b"arith.shli".as_slice()
        || word == b"arith.trunci".as_slice()
}

fn is_comparison(word: &[u8]) -> bool
    ensures { result ≡ is_comparison word.now }
{
    word == b"arith.cmpi".as_slice()
}

/// Returns whether `word` is a valid constraint in angle brackets after the operation `name`: a predicate after a
/// comparison, `none` after another operation.
pub(crate) fn is_allowed_word(name: &[u8], word: &[u8]) -> bool
    ensures { result ≡ is_allowed_word name.now word.now }
{
    if is_comparison(name) {
        is_predicate(word)
    } else {
        word == b"none".as_slice()
    }
}

/// Returns whether operation `name` needs a constraint in angle brackets.
pub(crate) fn must_be_requested(name: &[u8]) -> bool
    ensures { result ≡ must_be_requested name.now }
{
    is_comparison(name)
}

/// Returns whether operation `name` may have a constraint in angle brackets on that side.
pub(crate) fn may_be_requested(left: bool, name: &[u8]) -> bool
    ensures { result ≡ may_be_requested left name.now }
{
    is_comparison(name) || (left && is_flagged(name))
}

/// Whether a word is `narrower`.
pub(crate) fn is_narrower(word: &[u8]) -> bool
    ensures { result ≡ is_one_of (codes "narrower" ∷ []) word.now }
{
    word == b"narrower".as_slice()
}

/// Whether a word is `where`.
pub(crate) fn is_where(word: &[u8]) -> bool
    ensures { result ≡ is_one_of (codes "where" ∷ []) word.now }
{
    word == b"where".as_slice()
}

/// Returns whether `word` is `i` followed by digits.
pub fn is_integer_word(word: &[u8]) -> bool
    ensures { result ≡ is_integer_word word.now }
{
    match word {
        [b'i', digits @ ..] => !digits.is_empty() && are_digits(digits),
        _ => false,
    }
}

/// Returns whether `word` is a type: `iN` of a width from 1 to 128, `index`, or the name of a type variable.
#[tactic(auto, unfolding(crate::specs::Heads::type_word, ir_text_types::specs::Scalars::scalar_of))]
pub(crate) fn is_type_word(word: &[u8]) -> bool
    ensures { result ≡ is_type_word word.now }
{
    if !is_integer_word(word) {
        return true;
    }
    scalar_of(word).is_some()
}
