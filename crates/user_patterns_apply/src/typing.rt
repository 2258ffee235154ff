//! Binds the types of the matched values.
ghost use Rattle.std.specs.Prelude.{◌≡◌, ◌≤◌, ◌<◌, ◌^◌, IfOk, IfSome, map, option_map, is_none};
ghost use Rattle.std.specs.List.{list_all};
ghost use Rattle.std.specs.Result.{result_err, result_ok};
ghost use Rattle.ir_event.specs.types.Things.{IsType};
ghost use Rattle.ir_event.specs.types.Terms.{type_term};
ghost use Rattle.ir_event.specs.types.SameTypes.{same_type};
ghost use Rattle.ir_event.specs.Modules.{module_in};
ghost use Rattle.patterns_base.specs.Looks.{is_verified};
ghost use Rattle.user_patterns_data.specs.Matching.{bound, type_at, types_at};
ghost use Rattle.user_patterns_data.specs.Planning.{is_numeric, bound_type, typed};
ghost use Rattle.user_patterns_data.specs.Shapes.{pattern_model};
ghost use Rattle.user_patterns_data.specs.declared.pattern.PatternOp.{PatternOp};
ghost use Rattle.user_patterns_apply.specs.Mismatches.{typed_tests, typed_tests_over, types_tests};
ghost use Rattle.user_patterns_apply.specs.Stands.{Stands};
ghost use Rattle.user_patterns_apply.specs.Types.{AreTypesOf, TypeIsOf, type_in, typed_over, types_in, written_of};

use crate::match_ops::old_begins;
use crate::mismatch::Mismatch;
use crate::places::binding_at;
use crate::types::{BoundType, is_same, kind_of};
use ir_event::trees::value::Value;
use ir_event::types::bits::BitsKind;
use ir_event::types::context::Context;
use ir_event::types::ids::TypeId;
use ir_event::world::World;
use std::alloc::{AllocError, Global};
use user_patterns_data::pattern::{Pattern, PatternOp, PatternType};

fn written(kind: PatternType) -> Option<BoundType>
    ensures { result ≡ written_of kind }
{
    match kind {
        PatternType::Concrete(kind) => Some(BoundType::Concrete(kind)),
        PatternType::Variable(_) => None,
    }
}

/// Returns the bound types before a match: the types that the pattern names, and unbound type variables.
fn written_types(
    alloc: Global,
    value_types: &[PatternType],
) -> Result<Vec<Option<BoundType>>, AllocError>
    ensures { IfOk result (λ types. types.items ≡ map written_of value_types.now) }
{
    let mut types = Vec::with_capacity(alloc, value_types.len())?;
    let mut rest = value_types;
    'value_types: while let [first, tail @ ..] = rest {
        types.push(written(*first))?;
        rest = tail;
    }
    Ok(types)
}

/// Binds `ty` to type `number` of the pattern. Returns `false` if another type is bound to it.
fn bind_type(ctx: &Context, number: usize, ty: TypeId, types: &mut [Option<BoundType>]) -> bool
    requires ty { IsType ctx.now ty }
    requires of { AreTypesOf ctx.now types.old }
    ensures stands { Stands (bound same_type number (type_term ctx.now ty) (types_in ctx.now types.old))
        (types_in ctx.now types.new) result }
    ensures of { AreTypesOf ctx.now types.new }
{
    if number >= types.len() {
        return false;
    }
    match types[number] {
        Some(there) => is_same(ctx, &there, ty),
        None => {
            types[number] = Some(BoundType::Matched(ty));
            true
        }
    }
}

/// Binds the type of the value at `place`. Returns whether the types agree.
fn bind_type_at(
    world: &World,
    place: u128,
    number: usize,
    values: &[Option<Value>],
    types: &mut [Option<BoundType>],
) -> bool
    requires of { AreTypesOf world.now.ctx types.old }
    ensures stands { Stands (type_at (module_in world.now).tree (is_verified (module_in world.now).tree) place number
        values.now (types_in world.now.ctx types.old)) (types_in world.now.ctx types.new) result }
    ensures of { AreTypesOf world.now.ctx types.new }
{
    let Some(value) = binding_at(values, place) else {
        return false;
    };
    let Some(ty) = world.store.value_type(value) else {
        return false;
    };
    bind_type(&world.ctx, number, ty, types)
}

/// Binds the types of the values from the first place on, one for each type number. Returns the first test that fails.
fn bind_types(
    world: &World,
    numbers: &[usize],
    values: &[Option<Value>],
    types: &mut [Option<BoundType>],
) -> Option<Mismatch>
    requires of { AreTypesOf world.now.ctx types.old }
    ensures stands { Stands (types_at (module_in world.now).tree (is_verified (module_in world.now).tree) 0 numbers.now
        values.now (types_in world.now.ctx types.old)) (types_in world.now.ctx types.new) (is_none result) }
    ensures tests { result ≡ types_tests (module_in world.now).tree (is_verified (module_in world.now).tree) 0 numbers.now
        values.now (types_in world.now.ctx types.old) }
    ensures of { AreTypesOf world.now.ctx types.new }
{
    let mut place: u128 = 0;
    let mut rest = numbers;
    'numbers: while let [first, tail @ ..] = rest {
        if !bind_type_at(world, place, *first, values, types) {
            return Some(Mismatch::Type(place));
        }
        place += 1;
        rest = tail;
    }
    None
}

/// Binds the types of the matched operations, the first at place `begins`. Returns the first test that fails.
fn bind_old_types(
    world: &World,
    begins: u128,
    old: &[PatternOp],
    values: &[Option<Value>],
    types: &mut [Option<BoundType>],
) -> Option<Mismatch>
    requires begins { begins < 2 ^ 100 }
    requires of { AreTypesOf world.now.ctx types.old }
    ensures stands { Stands (types_at (module_in world.now).tree (is_verified (module_in world.now).tree) begins
        (map PatternOp.ty old.now) values.now (types_in world.now.ctx types.old)) (types_in world.now.ctx types.new)
        (is_none result) }
    ensures tests { result ≡ types_tests (module_in world.now).tree (is_verified (module_in world.now).tree) begins
        (map PatternOp.ty old.now) values.now (types_in world.now.ctx types.old) }
    ensures of { AreTypesOf world.now.ctx types.new }
{
    let mut place = begins;
    let mut rest = old;
    'old: while let [first, tail @ ..] = rest {
        if !bind_type_at(world, place, first.ty, values, types) {
            return Some(Mismatch::Type(place));
        }
        place += 1;
        rest = tail;
    }
    None
}

/// Binds the types of all matched values. Returns the first test that fails.
fn bind_all_types(
    world: &World,
    pattern: &Pattern,
    values: &[Option<Value>],
    types: &mut [Option<BoundType>],
) -> Option<Mismatch>
    requires of { AreTypesOf world.now.ctx types.old }
    ensures stands { Stands (typed_over (module_in world.now).tree (is_verified (module_in world.now).tree)
        (pattern_model pattern.now) values.now (types_in world.now.ctx types.old)) (types_in world.now.ctx types.new)
        (is_none result) }
    ensures tests { result ≡ typed_tests_over (module_in world.now).tree (is_verified (module_in world.now).tree)
        (pattern_model pattern.now) values.now (types_in world.now.ctx types.old) }
    ensures of { AreTypesOf world.now.ctx types.new }
{
    if let Some(mismatch) = bind_types(world, &pattern.values, values, types) {
        return Some(mismatch);
    }
    bind_old_types(world, old_begins(pattern), &pattern.old, values, types)
}

/// Returns the bound types of the pattern, given the bound values, or the first test that fails: the types of two values
/// don't agree.
pub(crate) fn bound_types(
    alloc: Global,
    world: &World,
    pattern: &Pattern,
    values: &[Option<Value>],
) -> Result<Result<Vec<Option<BoundType>>, Mismatch>, AllocError>
    ensures types { IfOk result (λ types. option_map (λ ts. types_in world.now.ctx ts.items) (result_ok types)
        ≡ typed (module_in world.now).tree (is_verified (module_in world.now).tree) (module_in world.now).next
        (pattern_model pattern.now) values.now) }
    ensures tests { IfOk result (λ types. result_err types ≡ typed_tests (module_in world.now).tree
        (is_verified (module_in world.now).tree) (pattern_model pattern.now) values.now) }
    ensures of { IfOk result (λ types. IfOk types (λ ts. AreTypesOf world.now.ctx ts.items)) }
{
    let mut types = written_types(alloc, &pattern.value_types)?;
    match bind_all_types(world, pattern, values, &mut types) {
        Some(mismatch) => Ok(Err(mismatch)),
        None => Ok(Ok(types)),
    }
}

/// Returns the kind of a bound type. A type that isn't bound has a kind without values.
fn bound_type(ctx: &Context, bound: &Option<BoundType>) -> BitsKind
    requires { IfSome bound.now (λ t. TypeIsOf ctx.now t) }
    ensures { result ≡ bound_type (option_map (type_in ctx.now) bound.now) }
{
    match bound {
        Some(BoundType::Matched(ty)) => match kind_of(ctx, *ty) {
            Some(kind) => kind,
            None => BitsKind::Int(0),
        },
        Some(BoundType::Concrete(kind)) => *kind,
        None => BitsKind::Int(0),
    }
}

/// Returns whether a bound type is a signless integer type or `index`. A type that isn't bound passes.
#[tactic(auto, using(crate::proofs::Widths::written_numeric))]
fn is_numeric(ctx: &Context, bound: &Option<BoundType>) -> bool
    requires { IfSome bound.now (λ t. TypeIsOf ctx.now t) }
    ensures { result ≡ is_numeric (option_map (type_in ctx.now) bound.now) }
{
    match bound {
        Some(BoundType::Matched(ty)) => kind_of(ctx, *ty).is_some(),
        Some(BoundType::Concrete(_)) => true,
        None => true,
    }
}

/// Returns whether the bound types are signless integer types or `index`. A type that isn't bound passes.
pub(crate) fn all_numeric(ctx: &Context, types: &[Option<BoundType>]) -> bool
    requires { AreTypesOf ctx.now types.now }
    ensures { result ≡ list_all is_numeric (types_in ctx.now types.now) }
{
    let mut rest = types;
    'types: while let [first, tail @ ..] = rest {
        if !is_numeric(ctx, first) {
            return false;
        }
        rest = tail;
    }
    true
}

/// Returns the kinds of the bound types.
pub(crate) fn kinds_of(
    alloc: Global,
    ctx: &Context,
    types: &[Option<BoundType>],
) -> Result<Vec<BitsKind>, AllocError>
    requires { AreTypesOf ctx.now types.now }
    ensures { IfOk result (λ value_types. value_types.items ≡ map bound_type (types_in ctx.now types.now)) }
{
    let mut value_types = Vec::with_capacity(alloc, types.len())?;
    let mut rest = types;
    'types: while let [first, tail @ ..] = rest {
        value_types.push(bound_type(ctx, first))?;
        rest = tail;
    }
    Ok(value_types)
}
