//! Queries of the unrealized casts that a conversion leaves between types, and the edits that reconcile them.
ghost use Rattle.std.specs.Prelude.{◌≡◌, ◌&&◌, true, not, eqb, IfOk, IfSome, option_map};
ghost use Rattle.ir_event.specs.types.Things.{ContextModel, IsType};
ghost use Rattle.ir_event.specs.types.Terms.{type_term};
ghost use Rattle.ir_event.specs.types.SameTypes.{same_type};
ghost use Rattle.ir_event.specs.trees.Tree.{head};
ghost use Rattle.ir_event.specs.trees.Ids.{has_id};
ghost use Rattle.ir_event.specs.Modules.{NodeIsOf, module_in};
ghost use Rattle.patterns_base.specs.Lists.{AllFit, edits_meaning};
ghost use Rattle.patterns_base.specs.Looks.{is_of_type};
ghost use Rattle.patterns_base.specs.Made.{i64};
ghost use Rattle.conversion_base.specs.Reconciling.{index_edits, is_cast, takes_index};
ghost use Rattle.conversion_base.specs.Numbers.{cast_edits, ends_from, new_cast};

use crate::legal::{is_index, is_index_value};
use ir_event::store::node::Node;
use ir_event::trees::place::Place;
use ir_event::trees::tree::TreeOp;
use ir_event::trees::value::Value;
use ir_event::types::context::Context;
use ir_event::types::ids::{OpId, TypeId};
use ir_event::types::word::Word;
use ir_event::world::World;
use ir_verify_base::types::width_of;
use patterns_base::edit::Edit;
use std::alloc::{AllocError, Global};

/// Returns whether `op` is an unrealized cast of the module.
pub fn is_cast(world: &World, op: OpId) -> bool
    ensures { result ≡ is_cast op (module_in world.now).tree }
{
    let Some(node) = world.shown(op) else {
        return false;
    };
    world
        .ctx
        .is_word(node.name(), Word::BuiltinUnrealizedConversionCast)
}

/// Returns whether an operation of the module is its root.
fn is_root(world: &World, op: OpId) -> bool
    requires { has_id op world.now.store.module_of.tree ≡ true }
    ensures { result ≡ eqb (head (module_in world.now).tree).id op }
{
    world.store.place(op).is_none()
}

/// Returns whether `op` is an unrealized cast of the module, and not the root.
pub fn is_inner_cast(world: &World, op: OpId) -> bool
    ensures { result ≡ (is_cast op (module_in world.now).tree && not (eqb (head (module_in world.now).tree).id op)) }
{
    is_cast(world, op) && !is_root(world, op)
}

/// Returns whether a type is `i64`.
fn is_i64(ctx: &Context, ty: TypeId) -> bool
    requires { IsType ctx.now ty }
    ensures { result ≡ same_type (type_term ctx.now ty) i64 }
{
    match width_of(ctx, ty) {
        Some(width) => width == 64,
        None => false,
    }
}

/// Returns whether a value of the module has type `i64`.
fn is_i64_value(world: &World, value: &Value) -> bool
    ensures { result ≡ is_of_type (module_in world.now).tree i64 value.now }
{
    match world.store.value_type(*value) {
        Some(ty) => is_i64(&world.ctx, ty),
        None => false,
    }
}

/// The operand and the result type of an operation with one operand and one result.
#[derive(Clone, Copy)]
pub struct CastTypes {
    pub operand: Value,
    pub ty: TypeId,
}

/// Returns the operand and the result type of an operation, or `None` unless it has one of each.
fn ends_of(node: &Node<'_>) -> Option<CastTypes>
    ensures ends { result ≡ ends_from node.now.head.operands node.now.head.results }
    ensures of { (c : ContextModel) → NodeIsOf c node.now → IfSome result (λ e. IsType c e.ty) }
{
    let [operand] = node.operands() else {
        return None;
    };
    let [ty] = node.results() else {
        return None;
    };
    Some(CastTypes {
        operand: *operand,
        ty: *ty,
    })
}

/// Returns whether a cast is from index to i64, or from i64 to index.
fn takes_index(world: &World, ends: &CastTypes) -> bool
    requires { IsType world.now.ctx ends.now.ty }
    ensures { result ≡ takes_index (module_in world.now).tree ends.now.operand (type_term world.now.ctx ends.now.ty) }
{
    is_index_value(world, &ends.operand) && is_i64(&world.ctx, ends.ty)
        || is_i64_value(world, &ends.operand) && is_index(&world.ctx, ends.ty)
}

/// Returns an `arith.index_cast` of a value to a type.
fn index_cast(alloc: Global, ends: &CastTypes) -> Result<TreeOp, AllocError>
    ensures { IfOk result (λ o. o ≡ new_cast ends.now.operand ends.now.ty) }
{
    let operands = [ends.operand].to_vec(alloc)?;
    let results = [ends.ty].to_vec(alloc)?;
    Ok(TreeOp {
        id: OpId::new(0),
        name: Word::ArithIndexCast.id(),
        operands,
        results,
        props: Vec::new(alloc),
        attrs: Vec::new(alloc),
        regions: Vec::new(alloc),
    })
}

/// Returns the edits that replace `op` with an `arith.index_cast`. `point` is the place before `op`, and `next` is the
/// next free id.
fn cast_edits(
    alloc: Global,
    point: Place,
    next: OpId,
    op: OpId,
    ends: &CastTypes,
) -> Result<Vec<Edit>, AllocError>
    ensures { IfOk result (λ es. es.items ≡ cast_edits point next op ends.now.operand ends.now.ty) }
{
    let made = index_cast(alloc, ends)?;
    let mut edits = Vec::new(alloc);
    edits.push(Edit::Make {
        place: point,
        op: made,
    })?;
    edits.push(Edit::Replace {
        old: Value::Result(op, 0),
        new: Value::Result(next, 0),
    })?;
    edits.push(Edit::Erase { op })?;
    Ok(edits)
}

/// Returns the edits that replace `op` with an `arith.index_cast`, or `None` unless `op` has one operand and one
/// result and casts between index and i64.
pub fn index_edits(alloc: Global, world: &World, op: OpId) -> Result<Option<Vec<Edit>>, AllocError>
    ensures edits { IfOk result
        (λ p. option_map (λ es. edits_meaning world.now.ctx es.items) p ≡ index_edits (module_in world.now) op) }
    ensures fits_in { IfOk result (λ p. IfSome p (λ es. AllFit world.now.ctx es.items)) }
{
    world.ctx.sound();
    let Some(node) = world.shown(op) else {
        return Ok(None);
    };
    let Some(place) = world.store.place(op) else {
        return Ok(None);
    };
    let Some(ends) = ends_of(&node) else {
        return Ok(None);
    };
    if !takes_index(world, &ends) {
        return Ok(None);
    }
    let point = Place {
        parent: place.parent,
        region: place.region,
        before: Some(op),
    };
    let next = OpId::new(world.store.next_id());
    let edits = cast_edits(alloc, point, next, op, &ends)?;
    Ok(Some(edits))
}
