//! Builds the operations of the right side from the values that the left side matched.
ghost use Rattle.std.specs.Prelude.{◌≡◌, ◌+◌, ◌∷◌, ◌<◌, ◌^◌, ℕ, List, IfOk, IfSome, Option, map, option_map, true};
ghost use Rattle.std.specs.List.{list_all};
ghost use Rattle.ir_event.specs.trees.declared.value.Value.TheVariants.{Result as ResultOf};
ghost use Rattle.ir_event.specs.trees.Uses.{same_value};
ghost use Rattle.ir_event.specs.types.Things.{ContextModel};
ghost use Rattle.dialects_int.specs.Folds.{known_of};
ghost use Rattle.user_patterns_data.specs.Matching.{bound, binding_at};
ghost use Rattle.user_patterns_data.specs.Names.{operands_of};
ghost use Rattle.user_patterns_data.specs.Planning.{all_made, made_as};
ghost use Rattle.user_patterns_apply.specs.Built.{AreAllMade, AreMadeOf, IsMadeNext, as_operands, made_after, made_in};
ghost use Rattle.user_patterns_apply.specs.Built.{operand_in, operands_at, operands_in, property_for};
ghost use Rattle.user_patterns_apply.specs.declared.rewrite_plan.Operand.TheVariants.{Existing as OldOperand};
ghost use Rattle.user_patterns_data.specs.declared.pattern.NewValue.{NewValue};
ghost use Rattle.user_patterns_data.specs.declared.pattern.NewValue.TheVariants.{Operation as NewOperation};
ghost use Rattle.user_patterns_data.specs.declared.pattern.NewValue.TheVariants.{Constant as NewConstant};
ghost use Rattle.user_patterns_build.specs.CanBuild.{has_name, is_named};
ghost use Rattle.user_patterns_apply.specs.Stands.{Stands};
ghost use Rattle.user_patterns_apply.specs.Types.{AreTypesOf, TypeIsOf, type_in, types_in};

use crate::constants::value_at;
use crate::names::{predicate_number, word_of};
use crate::rewrite_plan::{NewOp, Operand, Property};
use crate::types::BoundType;
use ir_event::trees::value::Value;
use ir_event::types::bits::Bits;
use ir_event::types::context::Context;
use ir_event::types::word::Word;
use std::alloc::{AllocError, Global};
use user_patterns_data::pattern::{Expression, NewValue, PatternOp};

/// Returns the matched values as operands.
pub(crate) fn as_operands(
    alloc: Global,
    values: &[Option<Value>],
) -> Result<Vec<Option<Operand>>, AllocError>
    ensures { IfOk result (λ os. os.items ≡ as_operands values.now) }
{
    let mut operands = Vec::with_capacity(alloc, values.len())?;
    let mut rest = values;
    'values: while let [first, tail @ ..] = rest {
        operands.push(as_operand(first))?;
        rest = tail;
    }
    Ok(operands)
}

fn as_operand(value: &Option<Value>) -> Option<Operand>
    ensures { result ≡ option_map OldOperand value.now }
{
    match value {
        Some(value) => Some(Operand::Existing(*value)),
        None => None,
    }
}

/// Returns the operand bound at `place`, or `None` if no operand is bound there.
pub(crate) fn operand_at(operands: &[Option<Operand>], place: usize) -> Option<Operand>
    ensures { result ≡ binding_at place operands.now }
{
    if place < operands.len() {
        operands[place]
    } else {
        None
    }
}

/// Returns the operands bound at `places`, or `None` if one of the places is unbound.
fn operands_at(
    alloc: Global,
    places: &[usize],
    operands: &[Option<Operand>],
) -> Result<Option<Vec<Operand>>, AllocError>
    ensures { IfOk result (λ os. option_map (λ v. v.items) os ≡ operands_at places.now operands.now) }
{
    let mut found = Vec::with_capacity(alloc, places.len())?;
    let mut rest = places;
    'places: while let [first, tail @ ..] = rest {
        let Some(operand) = operand_at(operands, *first) else {
            return Ok(None);
        };
        found.push(operand)?;
        rest = tail;
    }
    Ok(Some(found))
}

/// Returns whether `operand` is the result of new operation `number`. `next` is the next free id.
fn is_result(next: u32, operand: &Operand, number: usize) -> bool
    ensures { result ≡ same_value (operand_in next operand.now) (ResultOf (next + number) 0) }
{
    match operand {
        Operand::Existing(Value::Result(op, result)) => {
            op.number() as u128 == next as u128 + number as u128 && *result == 0
        }
        Operand::Existing(Value::Arg(..)) => false,
        Operand::New(own) => *own == number,
    }
}

/// Binds the result of new operation `number` at `place`. Returns whether the place was unbound or had that operand.
fn bind_made(next: u32, place: u128, number: usize, operands: &mut [Option<Operand>]) -> bool
    ensures { Stands (bound same_value place (ResultOf (next + number) 0) (operands_in next operands.old))
        (operands_in next operands.new) result }
{
    if place >= operands.len() as u128 {
        return false;
    }
    let place = place as usize;
    match operands[place] {
        Some(there) => is_result(next, &there, number),
        None => {
            operands[place] = Some(Operand::New(number));
            true
        }
    }
}

/// Returns the type bound to type `number` of the pattern, or `None` if it is unbound.
fn type_at(types: &[Option<BoundType>], number: usize) -> Option<BoundType>
    ensures is { (c : ContextModel) → option_map (type_in c) result ≡ binding_at number (types_in c types.now) }
    ensures of { (c : ContextModel) → AreTypesOf c types.now → IfSome result (TypeIsOf c) }
{
    if number < types.len() {
        types[number]
    } else {
        None
    }
}

/// Returns the operands of `form`, or `None` if one of its places is unbound.
fn operands_for(
    alloc: Global,
    form: &Expression,
    operands: &[Option<Operand>],
) -> Result<Option<Vec<Operand>>, AllocError>
    ensures { IfOk result (λ os. option_map (λ v. v.items) os ≡ operands_at (operands_of form.now) operands.now) }
{
    match form {
        Expression::Binary(_, i, j) => operands_at(alloc, &[*i, *j], operands),
        Expression::Compare(_, i, j) => operands_at(alloc, &[*i, *j], operands),
        Expression::Select(c, i, j) => operands_at(alloc, &[*c, *i, *j], operands),
        Expression::IntegerCast(_, i) => operands_at(alloc, &[*i], operands),
        Expression::IndexCast(_, i) => operands_at(alloc, &[*i], operands),
    }
}

/// Returns the properties of a new operation that isn't a constant.
fn property_for(form: &Expression) -> Property
    ensures { result ≡ property_for form.now }
{
    match form {
        Expression::Compare(predicate, _, _) => Property::Predicate(predicate_number(*predicate)),
        _ => Property::Flags,
    }
}

/// Returns the new operation of `form`, or `None` if its type or an operand is unbound.
fn make_operation(
    alloc: Global,
    ctx: &Context,
    pattern_op: &PatternOp,
    types: &[Option<BoundType>],
    env: &[Option<Bits>],
    operands: &[Option<Operand>],
) -> Result<Option<NewOp>, AllocError>
    requires name { has_name pattern_op.now.form ≡ true }
    requires of { AreTypesOf ctx.now types.now }
    ensures made { IfOk result (λ m. (n : ℕ) → option_map (made_in ctx.now n) m
        ≡ made_as (operands_in n operands.now) (types_in ctx.now types.now) (map known_of env.now)
        (NewOperation pattern_op.now)) }
    ensures of { IfOk result (λ m. IfSome m (λ m. TypeIsOf ctx.now m.ty)) }
{
    let Some(word) = word_of(&pattern_op.form) else {
        return Ok(None);
    };
    let Some(operands) = operands_for(alloc, &pattern_op.form, operands)? else {
        return Ok(None);
    };
    let Some(ty) = type_at(types, pattern_op.ty) else {
        return Ok(None);
    };
    Ok(Some(NewOp {
        word,
        operands,
        ty,
        property: property_for(&pattern_op.form),
    }))
}

/// Returns the new constant, or `None` if its number isn't computed or its type is unbound.
fn make_constant(
    alloc: Global,
    ctx: &Context,
    place: usize,
    number: usize,
    types: &[Option<BoundType>],
    env: &[Option<Bits>],
    operands: &[Option<Operand>],
) -> Result<Option<NewOp>, AllocError>
    requires of { AreTypesOf ctx.now types.now }
    ensures made { IfOk result (λ m. (n : ℕ) → option_map (made_in ctx.now n) m
        ≡ made_as (operands_in n operands.now) (types_in ctx.now types.now) (map known_of env.now)
        (NewConstant place number)) }
    ensures of { IfOk result (λ m. IfSome m (λ m. TypeIsOf ctx.now m.ty)) }
{
    let Some(Some(known)) = value_at(env, place as u128) else {
        return Ok(None);
    };
    let Some(ty) = type_at(types, number) else {
        return Ok(None);
    };
    Ok(Some(NewOp {
        word: Word::ArithConstant,
        operands: Vec::new(alloc),
        ty,
        property: Property::Bits(known.value),
    }))
}

/// Returns the new operation or constant at one place, or `None` if something that it needs is unbound.
fn make_one(
    alloc: Global,
    ctx: &Context,
    new: &NewValue,
    types: &[Option<BoundType>],
    env: &[Option<Bits>],
    operands: &[Option<Operand>],
) -> Result<Option<NewOp>, AllocError>
    requires name { is_named new.now ≡ true }
    requires of { AreTypesOf ctx.now types.now }
    ensures made { IfOk result (λ m. (n : ℕ) → option_map (made_in ctx.now n) m
        ≡ made_as (operands_in n operands.now) (types_in ctx.now types.now) (map known_of env.now) new.now) }
    ensures of { IfOk result (λ m. IfSome m (λ m. TypeIsOf ctx.now m.ty)) }
{
    match new {
        NewValue::Operation(pattern_op) => make_operation(
            alloc, ctx, pattern_op, types, env, operands,
        ),
        NewValue::Constant(place, ty) => make_constant(
            alloc, ctx, *place, *ty, types, env, operands,
        ),
    }
}

/// Appends the new operation of one place to `made`. Returns `false` if something that the operation needs is unbound.
fn make_next(
    alloc: Global,
    ctx: &Context,
    next: u32,
    place: u128,
    new: &NewValue,
    types: &[Option<BoundType>],
    env: &[Option<Bits>],
    operands: &mut [Option<Operand>],
    made: &mut Vec<NewOp>,
) -> Result<bool, AllocError>
    requires name { is_named new.now ≡ true }
    requires of { AreTypesOf ctx.now types.now }
    requires made { AreMadeOf ctx.now made.old.items }
    ensures made { IfOk result (λ done. (ws : List NewValue) → IsMadeNext done
        (made_after ctx.now next (types_in ctx.now types.now) (map known_of env.now) place (new.now ∷ ws)
        made.old.items operands.old)
        (made_after ctx.now next (types_in ctx.now types.now) (map known_of env.now) (place + 1) ws
        made.new.items operands.new)) }
    ensures of { AreMadeOf ctx.now made.new.items }
{
    let Some(one) = make_one(alloc, ctx, new, types, env, operands)? else {
        return Ok(false);
    };
    if !bind_made(next, place, made.len(), operands) {
        return Ok(false);
    }
    made.push(one)?;
    Ok(true)
}

/// Returns all new operations, the first at the given place, or `None` if something that one of them needs is unbound.
pub(crate) fn make_all(
    alloc: Global,
    ctx: &Context,
    next: u32,
    begins: u128,
    new: &[NewValue],
    types: &[Option<BoundType>],
    env: &[Option<Bits>],
    operands: &mut [Option<Operand>],
) -> Result<Option<Vec<NewOp>>, AllocError>
    requires begins { begins < 2 ^ 100 }
    requires names { list_all is_named new.now ≡ true }
    requires of { AreTypesOf ctx.now types.now }
    ensures made { IfOk result (λ ms. AreAllMade ctx.now next
        (all_made (types_in ctx.now types.now) (map known_of env.now) next begins new.now
        (operands_in next operands.old))
        (option_map (λ v. v.items) ms) operands.new) }
    ensures of { IfOk result (λ ms. IfSome ms (λ v. AreMadeOf ctx.now v.items)) }
{
    let mut made = Vec::new(alloc);
    let mut place = begins;
    let mut rest = new;
    'new: while let [first, tail @ ..] = rest {
        if !make_next(
            alloc, ctx, next, place, first, types, env, operands, &mut made,
        )? {
            return Ok(None);
        }
        place += 1;
        rest = tail;
    }
    Ok(Some(made))
}
