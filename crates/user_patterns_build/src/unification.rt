//! Gives equal types the same number.
ghost use Rattle.std.specs.Prelude.{◌≡◌, ◌≤◌, IfOk, length, map, option_map};
ghost use Rattle.user_patterns_data.specs.Shapes.{pattern_model};
ghost use Rattle.user_patterns_build.specs.Unified as united;

use crate::can_build::can_build;
use ir_types::bits::BitsKind;
use std::alloc::{AllocError, Global};
use user_patterns_data::pattern::{
    ConstantExpression, ExtraConstant, Literal, NewValue, Pattern, PatternOp, PatternType,
    TypeConstraint,
};
use user_patterns_data::well_formed::is_well_formed;

fn is_same(a: PatternType, b: PatternType) -> bool
    ensures { result ≡ united.is_same a b }
{
    match (a, b) {
        (PatternType::Concrete(BitsKind::Int(v)), PatternType::Concrete(BitsKind::Int(w))) => v
            == w,
        (PatternType::Concrete(BitsKind::Index), PatternType::Concrete(BitsKind::Index)) => true,
        (PatternType::Variable(i), PatternType::Variable(j)) => i == j,
        _ => false,
    }
}

/// Returns the number of the first type that equals `kind`, or the number of types if there is none.
fn first_same(kind: PatternType, value_types: &[PatternType]) -> usize
    ensures { result ≡ united.first_same kind value_types.now }
{
    let mut rest = value_types;
    let mut place = 0;
    'value_types: while let [one, tail @ ..] = rest {
        if is_same(kind, *one) {
            return place;
        }
        rest = tail;
        place += 1;
    }
    place
}

fn number_in(value_types: &[PatternType], number: usize) -> usize
    ensures { result ≡ united.number_in value_types.now number }
{
    if number < value_types.len() {
        first_same(value_types[number], value_types)
    } else {
        number
    }
}

fn literal_in(value_types: &[PatternType], literal: &Literal) -> Literal
    ensures { result ≡ united.literal_in value_types.now literal.now }
{
    Literal {
        negative: literal.negative,
        magnitude: literal.magnitude,
        ty: number_in(value_types, literal.ty),
    }
}

fn extra_in(value_types: &[PatternType], extra: &ExtraConstant) -> ExtraConstant
    ensures { result ≡ united.extra_in value_types.now extra.now }
{
    match extra {
        ExtraConstant::Literal(literal) => ExtraConstant::Literal(literal_in(value_types, literal)),
        ExtraConstant::SameAs(place) => ExtraConstant::SameAs(*place),
    }
}

fn requested_in(value_types: &[PatternType], type_constraints: &TypeConstraint) -> TypeConstraint
    ensures { result ≡ united.requested_in value_types.now type_constraints.now }
{
    match type_constraints {
        TypeConstraint::Narrower(narrow, wide) => {
            TypeConstraint::Narrower(
                number_in(value_types, *narrow),
                number_in(value_types, *wide),
            )
        }
        TypeConstraint::Integer(ty) => TypeConstraint::Integer(number_in(value_types, *ty)),
    }
}

fn given_in(value_types: &[PatternType], number: &ConstantExpression) -> ConstantExpression
    ensures { result ≡ united.given_in value_types.now number.now }
{
    match number {
        ConstantExpression::Literal(literal) => ConstantExpression::Literal(literal_in(
            value_types,
            literal,
        )),
        ConstantExpression::Width(ty) => ConstantExpression::Width(number_in(value_types, *ty)),
        ConstantExpression::Binary(operation, i, j) => ConstantExpression::Binary(
            *operation, *i, *j,
        ),
        ConstantExpression::Compare(predicate, i, j) => ConstantExpression::Compare(
            *predicate, *i, *j,
        ),
        ConstantExpression::Log2(i) => ConstantExpression::Log2(*i),
        ConstantExpression::Require(i) => ConstantExpression::Require(*i),
    }
}

fn pattern_op_in(value_types: &[PatternType], pattern_op: &PatternOp) -> PatternOp
    ensures { result ≡ united.pattern_op_in value_types.now pattern_op.now }
{
    PatternOp {
        form: pattern_op.form,
        bare: pattern_op.bare,
        ty: number_in(value_types, pattern_op.ty),
    }
}

fn new_in(value_types: &[PatternType], new: &NewValue) -> NewValue
    ensures { result ≡ united.new_in value_types.now new.now }
{
    match new {
        NewValue::Operation(pattern_op) => NewValue::Operation(pattern_op_in(
            value_types,
            pattern_op,
        )),
        NewValue::Constant(place, ty) => NewValue::Constant(*place, number_in(value_types, *ty)),
    }
}

fn all_values(
    alloc: Global,
    value_types: &[PatternType],
    values: &[usize],
) -> Result<Vec<usize>, AllocError>
    ensures { IfOk result (λ v. v.items ≡ map (united.number_in value_types.now) values.now) }
{
    let mut found = Vec::with_capacity(alloc, values.len())?;
    let mut rest = values;
    'values: while let [first, tail @ ..] = rest {
        found.push(number_in(value_types, *first))?;
        rest = tail;
    }
    Ok(found)
}

fn all_extra(
    alloc: Global,
    value_types: &[PatternType],
    extra: &[ExtraConstant],
) -> Result<Vec<ExtraConstant>, AllocError>
    ensures { IfOk result (λ v. v.items ≡ map (united.extra_in value_types.now) extra.now) }
{
    let mut found = Vec::with_capacity(alloc, extra.len())?;
    let mut rest = extra;
    'extra: while let [first, tail @ ..] = rest {
        found.push(extra_in(value_types, first))?;
        rest = tail;
    }
    Ok(found)
}

fn all_requested(
    alloc: Global,
    value_types: &[PatternType],
    type_constraints: &[TypeConstraint],
) -> Result<Vec<TypeConstraint>, AllocError>
    ensures { IfOk result (λ v. v.items ≡ map (united.requested_in value_types.now) type_constraints.now) }
{
    let mut found = Vec::with_capacity(alloc, type_constraints.len())?;
    let mut rest = type_constraints;
    'type_constraints: while let [first, tail @ ..] = rest {
        found.push(requested_in(value_types, first))?;
        rest = tail;
    }
    Ok(found)
}

fn all_given(
    alloc: Global,
    value_types: &[PatternType],
    numbers: &[ConstantExpression],
) -> Result<Vec<ConstantExpression>, AllocError>
    ensures { IfOk result (λ v. v.items ≡ map (united.given_in value_types.now) numbers.now) }
{
    let mut found = Vec::with_capacity(alloc, numbers.len())?;
    let mut rest = numbers;
    'numbers: while let [first, tail @ ..] = rest {
        found.push(given_in(value_types, first))?;
        rest = tail;
    }
    Ok(found)
}

fn all_old(
    alloc: Global,
    value_types: &[PatternType],
    old: &[PatternOp],
) -> Result<Vec<PatternOp>, AllocError>
    ensures { IfOk result (λ v. v.items ≡ map (united.pattern_op_in value_types.now) old.now) }
{
    let mut found = Vec::with_capacity(alloc, old.len())?;
    let mut rest = old;
    'old: while let [first, tail @ ..] = rest {
        found.push(pattern_op_in(value_types, first))?;
        rest = tail;
    }
    Ok(found)
}

fn all_new(
    alloc: Global,
    value_types: &[PatternType],
    new: &[NewValue],
) -> Result<Vec<NewValue>, AllocError>
    ensures { IfOk result (λ v. v.items ≡ map (united.new_in value_types.now) new.now) }
{
    let mut found = Vec::with_capacity(alloc, new.len())?;
    let mut rest = new;
    'new: while let [first, tail @ ..] = rest {
        found.push(new_in(value_types, first))?;
        rest = tail;
    }
    Ok(found)
}

/// Returns the pattern with the same number for equal types.
pub fn unify_types(alloc: Global, pattern: Pattern) -> Result<Pattern, AllocError>
    ensures { IfOk result (λ p. pattern_model p ≡ united.united (pattern_model pattern)) }
{
    let values = all_values(alloc, &pattern.value_types, &pattern.values)?;
    let extra = all_extra(alloc, &pattern.value_types, &pattern.extra)?;
    let type_constraints = all_requested(alloc, &pattern.value_types, &pattern.type_constraints)?;
    let given = all_given(alloc, &pattern.value_types, &pattern.given)?;
    let old = all_old(alloc, &pattern.value_types, &pattern.old)?;
    let new = all_new(alloc, &pattern.value_types, &pattern.new)?;
    Ok(Pattern {
        types: pattern.types,
        value_types: pattern.value_types,
        values,
        constants: pattern.constants,
        extra,
        type_constraints,
        given,
        old,
        root: pattern.root,
        new,
        result: pattern.result,
    })
}

fn if_ready(pattern: Pattern) -> Option<Pattern>
    ensures { option_map pattern_model result ≡ united.if_ready (pattern_model pattern) }
{
    if is_well_formed(&pattern) && can_build(&pattern) {
        Some(pattern)
    } else {
        None
    }
}

/// Returns the pattern with the same number for equal types, or `None` if it isn't well-formed or can't be built.
#[tactic(auto, unfolding(crate::specs::Unified::ready))]
pub fn prepare(alloc: Global, pattern: Pattern) -> Result<Option<Pattern>, AllocError>
    ensures { IfOk result (λ p. option_map pattern_model p ≡ united.ready (pattern_model pattern)) }
{
    let made = unify_types(alloc, pattern)?;
    Ok(if_ready(made))
}
