//! The state of the analysis.
ghost use Rattle.std.specs.Prelude.{◌≡◌, ◌+◌, map, length, IfOk, OnOk, Ok, None, Some, option_map};
ghost use Rattle.user_patterns_text.specs.Parts.{part_view};
ghost use Rattle.user_patterns_text.specs.Refusing.{Returns};
ghost use Rattle.user_patterns_sema.specs.SemaViews.{sema_view, places_view};
ghost use Rattle.user_patterns_sema_base.specs.TypeViews.{word_view};
ghost use Rattle.user_patterns_sema.specs.Sema.{and_literal, begun, after_end, is_of, next_type, typed, typed_as, unite, unite_with, with_type, written_at};

use ir_text_tokens::refusal::TextRefusal;
use ir_types::bits::BitsKind;
use std::alloc::{AllocError, Global};
use user_patterns_data::literals::bits_with;
use user_patterns_data::pattern::{
    ConstantExpression, ExtraConstant, Literal, NewValue, PatternOp, PatternType, TypeConstraint,
};
use user_patterns_sema_base::names::Variable;
use user_patterns_sema_base::types::{
    TypeExpression, TypeTable, kind_of, type_number, type_word, unify,
};
use user_patterns_text::error::PatternError;
use user_patterns_text::parts;
use user_patterns_text::parts::Part;
use user_patterns_text::steps::refused;

/// A term: its place, the number of its type, and how many bytes of the text are left at it.
#[derive(Clone, Copy)]
pub struct TermRef {
    pub place: usize,
    pub slot: usize,
    pub left: usize,
}

/// A type that must be known in the end.
#[derive(Clone, Copy)]
pub struct RequiredType {
    pub slot: usize,
    pub left: usize,
}

/// A cast between `index` and another type.
#[derive(Clone, Copy)]
pub struct CastConstraint {
    pub from: usize,
    pub to: usize,
    pub left: usize,
}

/// A literal written in digits, and how many bytes of the text are left at it.
#[derive(Clone, Copy)]
pub struct LiteralAt {
    pub literal: Literal,
    pub left: usize,
}

/// The variables, and the first places of the extra constants, numbers and operations.
#[derive(Drop)]
pub struct ValueLayout<'a> {
    pub variables: Vec<Variable<'a>>,
    pub extra: u32,
    pub given: u32,
    pub old_begin: u32,
    pub new_begin: u32,
}

/// The analysis so far: types, the type numbers of terms, and the lists of the pattern.
#[derive(Drop)]
pub struct Sema<'a> {
    pub types: TypeTable<'a>,
    pub old_types: Vec<usize>,
    pub new_types: Vec<RequiredType>,
    pub casts: Vec<CastConstraint>,
    pub literals: Vec<LiteralAt>,
    pub type_constraints: Vec<TypeConstraint>,
    pub visited: Vec<usize>,
    pub extra: Vec<ExtraConstant>,
    pub given: Vec<ConstantExpression>,
    pub pattern_ops: Vec<PatternOp>,
    pub builds: Vec<NewValue>,
}

/// A literal as its sign and magnitude.
#[derive(Clone, Copy)]
pub(crate) struct Magnitude {
    pub negative: bool,
    pub magnitude: u128,
}

/// Unifies two types, or refuses with `TypeMismatch`.
#[tactic(auto, unfolding(crate::specs::Sema::unite))]
pub(crate) fn unite<'a>(
    alloc: Global,
    sema: &mut Sema<'a>,
    i: usize,
    j: usize,
    at: usize,
) -> Result<(), PatternError>
    ensures { Returns (λ _. sema_view sema.new) result (unite i j at (sema_view sema.old)) }
{
    let a = kind_of(i, &sema.types.value_types);
    let b = kind_of(j, &sema.types.value_types);
    unify(alloc, a, b, at, &mut sema.types.value_types)
}

/// Unifies a type with a concrete type, or refuses with `TypeMismatch`.
#[tactic(auto, unfolding(crate::specs::Sema::unite_with))]
pub(crate) fn unite_with<'a>(
    alloc: Global,
    sema: &mut Sema<'a>,
    i: usize,
    kind: BitsKind,
    at: usize,
) -> Result<(), PatternError>
    ensures { Returns (λ _. sema_view sema.new) result (unite_with i kind at (sema_view sema.old)) }
{
    let a = kind_of(i, &sema.types.value_types);
    unify(
        alloc,
        a,
        PatternType::Concrete(kind),
        at,
        &mut sema.types.value_types,
    )
}

/// Adds a type variable, and returns its number.
pub(crate) fn with_type<'a>(sema: &mut Sema<'a>) -> Result<usize, AllocError>
    ensures slot { IfOk result (λ slot. slot ≡ next_type (sema_view sema.old)) }
    ensures types { OnOk result (sema_view sema.new ≡ with_type (sema_view sema.old)) }
{
    sema.types.and_variable()
}

/// Records a term with that type.
pub(crate) fn begin<'a>(
    sema: &mut Sema<'a>,
    left: bool,
    slot: usize,
    at: usize,
) -> Result<(), AllocError>
    ensures { OnOk result (sema_view sema.new ≡ begun left slot at (sema_view sema.old)) }
{
    if left {
        match sema.old_types.push(slot) {
            Ok(()) => Ok(()),
            Err(_) => Err(AllocError),
        }
    } else {
        match sema.new_types.push(RequiredType { slot, left: at }) {
            Ok(()) => Ok(()),
            Err(_) => Err(AllocError),
        }
    }
}

/// Records a term with a new type, and returns the number of the type.
pub(crate) fn begin_new<'a>(sema: &mut Sema<'a>, left: bool, at: usize) -> Result<usize, AllocError>
    ensures slot { IfOk result (λ slot. slot ≡ next_type (sema_view sema.old)) }
    ensures begun { OnOk result (sema_view sema.new ≡ begun left (next_type (sema_view sema.old)) at (with_type (sema_view sema.old))) }
{
    let slot = match with_type(sema) {
        Ok(slot) => slot,
        Err(e) => return Err(e),
    };
    match begin(sema, left, slot, at) {
        Ok(()) => Ok(slot),
        Err(e) => Err(e),
    }
}

/// Adds a literal that must be in range of its type in the end.
pub(crate) fn and_literal<'a>(
    sema: &mut Sema<'a>,
    literal: Literal,
    at: usize,
) -> Result<(), AllocError>
    ensures { OnOk result (sema_view sema.new ≡ and_literal literal at (sema_view sema.old)) }
{
    match sema.literals.push(LiteralAt { literal, left: at }) {
        Ok(()) => Ok(()),
        Err(_) => Err(AllocError),
    }
}

/// Returns whether the literal is in range of the written type. A type variable has no range.
fn is_of(literal: Option<Magnitude>, word: TypeExpression<'_>) -> bool
    ensures { result ≡ is_of (option_map (λ s. (s.negative, s.magnitude)) literal) (word_view word.entry) }
{
    match literal {
        Some(size) => match word {
            TypeExpression::Concrete(kind) => {
                let literal = Literal {
                    negative: size.negative,
                    magnitude: size.magnitude,
                    ty: 0,
                };
                bits_with(&[kind], &literal).is_some()
            }
            _ => true,
        },
        None => true,
    }
}

/// Returns the number of the written type.
pub(crate) fn written_at<'a>(sema: &mut Sema<'a>, word: &'a [u8]) -> Result<usize, PatternError>
    ensures { Returns (λ slot. (slot, sema_view sema.new)) result (Ok (written_at word.now (sema_view sema.old))) }
{
    type_number(&mut sema.types, word)
}

fn typed_as<'a>(
    alloc: Global,
    sema: &mut Sema<'a>,
    literal: Option<Magnitude>,
    slot: usize,
    at: usize,
    word: &'a [u8],
) -> Result<(), PatternError>
    ensures { Returns (λ _. sema_view sema.new) result (typed_as (option_map (λ s. (s.negative, s.magnitude)) literal) slot at word.now (sema_view sema.old)) }
{
    if !is_of(literal, type_word(word)) {
        return Err(refused(TextRefusal::BadValue, at));
    }
    let found = match written_at(sema, word) {
        Ok(found) => found,
        Err(e) => return Err(e),
    };
    unite(alloc, sema, slot, found, at)
}

/// Unifies the type of a term with the type that is written after it, if there is one, and returns the parts after the
/// type. Refuses a different type with `TypeMismatch`, and a literal that is out of range with `BadValue`.
#[tactic(auto, unfolding(crate::specs::Sema::typed))]
pub(crate) fn typed<'a, 'p>(
    alloc: Global,
    sema: &mut Sema<'a>,
    literal: Option<Magnitude>,
    slot: usize,
    at: usize,
    parts: &'p [Part<'a>],
) -> Result<&'p [Part<'a>], PatternError>
    ensures { Returns (λ rest. (map part_view rest.now, sema_view sema.new)) result (typed (option_map (λ s. (s.negative, s.magnitude)) literal) slot at (map part_view parts.now, sema_view sema.old)) }
{
    let [part, rest @ ..] = parts else {
        return Ok(parts);
    };
    match part.kind {
        parts::PartKind::Type(word) => match typed_as(alloc, sema, literal, slot, at, word) {
            Ok(()) => Ok(rest),
            Err(e) => Err(e),
        },
        _ => Ok(parts),
    }
}

/// Returns the parts after an end, or `None` if the next part isn't an end.
pub(crate) fn after_end<'a, 'p>(parts: &'p [Part<'a>]) -> Option<&'p [Part<'a>]>
    ensures { option_map (λ r. map part_view r.now) result ≡ after_end (map part_view parts.now) }
{
    let [part, rest @ ..] = parts else {
        return None;
    };
    match part.kind {
        parts::PartKind::End => Some(rest),
        _ => None,
    }
}
