//! The types of a pattern, and their unification.
ghost use Rattle.std.specs.Prelude.{◌≡◌, codes, length, true, false, IfOk, OnOk, Ok};
ghost use Rattle.std.specs.Str.{bytes_eq};
ghost use Rattle.user_patterns_text.specs.Heads.{after_i, is_integer_word, type_word};
ghost use Rattle.user_patterns_text.specs.Refusing.{Returns};
ghost use Rattle.user_patterns_sema_base.specs.Views.{named_views};
ghost use Rattle.user_patterns_sema_base.specs.TypeViews.{types_view, word_view};
ghost use Rattle.user_patterns_sema_base.specs.Types.{all_in_place, and_kind, and_variable, in_place, kind_of, named_from, same_bits, same_kind, slot_of, unified, united, written};

use ir_text_tokens::refusal::TextRefusal;
use ir_text_types::scalars::scalar_of;
use ir_types::bits::BitsKind;
use ir_types::node::TypeNode;
use std::alloc::{AllocError, Global};
use user_patterns_data::pattern::PatternType;
use user_patterns_text::error::PatternError;
use user_patterns_text::keywords::is_integer_word;
use user_patterns_text::steps::refused;

/// A type name, and the number of its type.
#[derive(Clone, Copy)]
pub struct NamedType<'a> {
    pub name: &'a [u8],
    pub slot: usize,
}

/// The types by number, and the names of types.
#[derive(Drop)]
pub struct TypeTable<'a> {
    pub value_types: Vec<PatternType>,
    pub named: Vec<NamedType<'a>>,
}

fn same_bits(a: BitsKind, b: BitsKind) -> bool
    ensures { result ≡ same_bits a b }
{
    match a {
        BitsKind::Int(v) => match b {
            BitsKind::Int(w) => v == w,
            BitsKind::Index => false,
        },
        BitsKind::Index => match b {
            BitsKind::Int(_) => false,
            BitsKind::Index => true,
        },
    }
}

/// Returns whether two types are equal.
pub fn same_kind(a: PatternType, b: PatternType) -> bool
    ensures { result ≡ same_kind a b }
{
    match a {
        PatternType::Concrete(k) => match b {
            PatternType::Concrete(l) => same_bits(k, l),
            PatternType::Variable(_) => false,
        },
        PatternType::Variable(i) => match b {
            PatternType::Concrete(_) => false,
            PatternType::Variable(j) => i == j,
        },
    }
}

/// Returns the type with that number.
pub fn kind_of(slot: usize, value_types: &[PatternType]) -> PatternType
    ensures { result ≡ kind_of slot value_types.now }
{
    if slot < value_types.len() {
        value_types[slot]
    } else {
        PatternType::Concrete(BitsKind::Index)
    }
}

fn in_place(variable: usize, new: PatternType, kind: PatternType) -> PatternType
    ensures { result ≡ in_place variable new kind }
{
    if same_kind(kind, PatternType::Variable(variable)) {
        new
    } else {
        kind
    }
}

/// Returns the types with a type variable replaced by `new`.
#[tactic(auto, unfolding(crate::specs::Types::all_in_place))]
fn all_in_place(
    alloc: Global,
    variable: usize,
    new: PatternType,
    value_types: &[PatternType],
) -> Result<Vec<PatternType>, AllocError>
    ensures { IfOk result (λ v. v.items ≡ all_in_place variable new value_types.now) }
{
    let mut found = Vec::with_capacity(alloc, value_types.len())?;
    let mut rest = value_types;
    'value_types: while let [kind, tail @ ..] = rest {
        found.push(in_place(variable, new, *kind))?;
        rest = tail;
    }
    Ok(found)
}

fn put_in_place(
    alloc: Global,
    variable: usize,
    new: PatternType,
    value_types: &mut Vec<PatternType>,
) -> Result<(), AllocError>
    ensures { OnOk result (value_types.new.items ≡ all_in_place variable new value_types.old.items) }
{
    let found = all_in_place(alloc, variable, new, value_types)?;
    *value_types = found;
    Ok(())
}

fn united(
    alloc: Global,
    a: PatternType,
    b: PatternType,
    at: usize,
    value_types: &mut Vec<PatternType>,
) -> Result<(), PatternError>
    ensures { Returns (λ _. value_types.new.items) result (united a b at value_types.old.items) }
{
    match a {
        PatternType::Variable(variable) => {
            put_in_place(alloc, variable, b, value_types)?;
            Ok(())
        }
        PatternType::Concrete(_) => match b {
            PatternType::Variable(variable) => {
                put_in_place(alloc, variable, a, value_types)?;
                Ok(())
            }
            PatternType::Concrete(_) => Err(refused(TextRefusal::TypeMismatch, at)),
        },
    }
}

/// Makes two types equal by replacing a variable. Refuses two different concrete types with `TypeMismatch`.
#[tactic(auto, unfolding(crate::specs::Types::unified))]
pub fn unify(
    alloc: Global,
    a: PatternType,
    b: PatternType,
    at: usize,
    value_types: &mut Vec<PatternType>,
) -> Result<(), PatternError>
    ensures { Returns (λ _. value_types.new.items) result (unified a b at value_types.old.items) }
{
    if same_kind(a, b) {
        return Ok(());
    }
    united(alloc, a, b, at, value_types)
}

/// Returns the number of the type with that name, or `None` if the name is new.
#[tactic(auto, unfolding(crate::specs::Types::slot_of))]
fn slot_of(name: &[u8], named: &[NamedType<'_>]) -> Option<usize>
    ensures { result ≡ slot_of name.now (named_views named.now) }
{
    let mut rest = named;
    'names: while let [one, tail @ ..] = rest {
        if one.name == name {
            return Some(one.slot);
        }
        rest = tail;
    }
    None
}

/// A type as its word in the text: a concrete type, the name of a type variable, or an `iN` of no valid width.
#[derive(Clone, Copy)]
pub enum TypeExpression<'a> {
    Concrete(BitsKind),
    Name(&'a [u8]),
    Inferred,
}

/// Returns the width of a word that is `i` and digits, or `None` if no type has that width.
#[tactic(auto, unfolding(ir_text_types::specs::Scalars::scalar_of))]
fn width_of(word: &[u8]) -> Option<u32>
    requires letter { is_integer_word word.now ≡ true }
    requires other { bytes_eq word.now (codes "index") ≡ false }
    ensures { result ≡ after_i word.now }
{
    match scalar_of(word) {
        Some(TypeNode::Int { width, .. }) => Some(width),
        _ => None,
    }
}

/// Returns the type of a word.
#[tactic(auto, unfolding(user_patterns_text::specs::Heads::type_word))]
pub fn type_word(word: &[u8]) -> TypeExpression<'_>
    ensures { word_view result ≡ type_word word.now }
{
    if word == b"index".as_slice() {
        return TypeExpression::Concrete(BitsKind::Index);
    }
    if !is_integer_word(word) {
        return TypeExpression::Name(word);
    }
    match width_of(word) {
        Some(width) => TypeExpression::Concrete(BitsKind::Int(width)),
        None => TypeExpression::Inferred,
    }
}

impl<'a> TypeTable<'a> {
    /// Appends a type, and returns its number.
    pub fn and_kind(&mut self, kind: PatternType) -> Result<usize, AllocError>
        ensures slot { IfOk result (λ slot. slot ≡ length self.old.value_types.items) }
        ensures value_types { OnOk result (self.new.value_types.items ≡ and_kind self.old.value_types.items kind) }
        ensures named { OnOk result (self.new.named ≡ self.old.named) }
    {
        let slot = self.value_types.len();
        self.value_types.push(kind)?;
        Ok(slot)
    }

    /// Appends a type variable, and returns its number.
    pub fn and_variable(&mut self) -> Result<usize, AllocError>
        ensures slot { IfOk result (λ slot. slot ≡ length self.old.value_types.items) }
        ensures value_types { OnOk result (self.new.value_types.items ≡ and_variable self.old.value_types.items) }
        ensures named { OnOk result (self.new.named ≡ self.old.named) }
    {
        let kind = PatternType::Variable(self.value_types.len());
        self.and_kind(kind)
    }
}

/// Returns the number of the type with that name. A new name gets a new type variable.
#[tactic(auto, using(crate::proofs::Lists::named_and))]
fn of_name<'a>(types: &mut TypeTable<'a>, name: &'a [u8]) -> Result<usize, PatternError>
    ensures { Returns (λ slot. (slot, types_view types.new)) result (Ok (named_from name.now (types_view types.old) (slot_of name.now (named_views types.old.named.items)))) }
{
    if let Some(slot) = slot_of(name, &types.named) {
        return Ok(slot);
    }
    let slot = types.and_variable()?;
    types.named.push(NamedType { name, slot })?;
    Ok(slot)
}

/// Returns the number of the type of a word.
#[tactic(auto, unfolding(crate::specs::Types::written))]
pub fn type_number<'a>(types: &mut TypeTable<'a>, word: &'a [u8]) -> Result<usize, PatternError>
    ensures { Returns (λ slot. (slot, types_view types.new)) result (Ok (written word.now (types_view types.old))) }
{
    match type_word(word) {
        TypeExpression::Concrete(kind) => Ok(types.and_kind(PatternType::Concrete(kind))?),
        TypeExpression::Name(name) => of_name(types, name),
        TypeExpression::Inferred => Ok(types.and_variable()?),
    }
}
