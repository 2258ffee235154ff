//! Plans of the rules on casts of casts.
ghost use Rattle.std.specs.Prelude.{◌≡◌, IfOk, ℕ};
ghost use Rattle.ir_event.specs.types.Things.{IsName, IsType};
ghost use Rattle.ir_event.specs.Modules.{NodeIsOf};
ghost use Rattle.patterns_matchers.specs.Casting.{extend_extension, cut_cast, cast_back, through_index, unrealized};
ghost use Rattle.patterns_matchers.specs.Plans.{PlanIsOf};
ghost use Rattle.patterns_plans.specs.Planned.{HasPlan, HasReason};
ghost use Rattle.patterns_plans.specs.Casts.{HasPlanOne, HasReasonOne};
ghost use Rattle.patterns_plans.specs.RuleTests.{index_tests, unrealized_tests};
ghost use Rattle.patterns_plans.specs.RuleTests as tests;

use crate::reason::Reason;
use ir_event::store::node::Node;
use ir_event::types::ids::OpId;
use ir_event::types::word::Word;
use ir_event::world::World;
use patterns_matchers::defining_ops::{
    defining_extension, defining_integer_cast, defining_op_named,
};
use patterns_matchers::op_names::{is_extension, is_index_cast, is_same_name};
use patterns_matchers::plan::RewritePlan;
use patterns_matchers::shapes::{UnaryOp, unary_op};
use patterns_matchers::types::{is_of_type, type_width};
use std::alloc::{AllocError, Global};

/// Plans `extend-extension`: an extension of an extension of the same kind, or of a zero extension, becomes one
/// extension of the inner kind.
#[inline(never)]
pub(crate) fn plan_extend_extension(
    alloc: Global,
    world: &World,
    node: &Node<'_>,
) -> Result<Result<RewritePlan, Reason>, AllocError>
    requires of { NodeIsOf world.now.ctx node.now }
    ensures edits { (x : ℕ) → IfOk result (HasPlan extend_extension world.now x node.now) }
    ensures reason { IfOk result (HasReason tests.extend_extension world.now node.now) }
    ensures fits_in { IfOk result (λ a. IfOk a (PlanIsOf world.now.ctx)) }
{
    let Some(p) = unary_op(node) else {
        return Ok(Err(Reason::WrongOperation));
    };
    if !is_extension(&world.ctx, p.name) {
        return Ok(Err(Reason::WrongOperation));
    }
    let Some(inside) = defining_extension(alloc, world, &p.first)? else {
        return Ok(Err(Reason::NoDefiningOp));
    };
    let Some(q) = unary_op(&inside) else {
        return Ok(Err(Reason::NoDefiningOp));
    };
    if !is_same_name(&world.ctx, q.name, p.name) && !world.ctx.is_word(p.name, Word::ArithExtsi) {
        return Ok(Err(Reason::NoDefiningOp));
    }
    Ok(Ok(RewritePlan::Cast {
        name: q.name,
        ty: p.ty,
        value: q.first,
    }))
}

/// Plans `cut-cast`: a truncation of a truncation becomes one; a truncation of an extension back to the source type
/// becomes the source.
#[inline(never)]
pub(crate) fn plan_cut_cast(
    alloc: Global,
    world: &World,
    op: OpId,
    node: &Node<'_>,
) -> Result<Result<RewritePlan, Reason>, AllocError>
    requires of { NodeIsOf world.now.ctx node.now }
    ensures edits { IfOk result (HasPlan cut_cast world.now op node.now) }
    ensures reason { IfOk result (HasReason tests.cut_cast world.now node.now) }
    ensures fits_in { IfOk result (λ a. IfOk a (PlanIsOf world.now.ctx)) }
{
    let Some(p) = unary_op(node) else {
        return Ok(Err(Reason::WrongOperation));
    };
    if !world.ctx.is_word(p.name, Word::ArithTrunci) {
        return Ok(Err(Reason::WrongOperation));
    }
    let Some(inside) = defining_integer_cast(alloc, world, &p.first)? else {
        return Ok(Err(Reason::NoDefiningOp));
    };
    let Some(q) = unary_op(&inside) else {
        return Ok(Err(Reason::NoDefiningOp));
    };
    if world.ctx.is_word(q.name, Word::ArithTrunci) {
        return Ok(Ok(RewritePlan::Cast {
            name: q.name,
            ty: p.ty,
            value: q.first,
        }));
    }
    if !is_of_type(world, p.ty, q.first) {
        return Ok(Err(Reason::OtherType));
    }
    Ok(Ok(RewritePlan::Give { value: q.first }))
}

/// Plans a rewrite of an unrealized cast: a cast to its operand's type becomes the operand; a cast of such a cast,
/// back to the source type, becomes the source.
fn unrealized(
    alloc: Global,
    world: &World,
    op: OpId,
    p: &UnaryOp,
) -> Result<Result<RewritePlan, Reason>, AllocError>
    requires name { IsName world.now.ctx p.now.name }
    requires ty { IsType world.now.ctx p.now.ty }
    ensures edits { IfOk result (HasPlanOne unrealized world.now op p.now) }
    ensures reason { IfOk result (HasReasonOne unrealized_tests world.now p.now) }
    ensures fits_in { IfOk result (λ a. IfOk a (PlanIsOf world.now.ctx)) }
{
    if is_of_type(world, p.ty, p.first) {
        return Ok(Ok(RewritePlan::Give { value: p.first }));
    }
    let Some(inside) = defining_op_named(alloc, world, p.name, &p.first)? else {
        return Ok(Err(Reason::NoDefiningOp));
    };
    let Some(q) = unary_op(&inside) else {
        return Ok(Err(Reason::NoDefiningOp));
    };
    if !is_of_type(world, p.ty, q.first) {
        return Ok(Err(Reason::OtherType));
    }
    Ok(Ok(RewritePlan::Give { value: q.first }))
}

/// Plans a rewrite of a cast between an integer and index, and back, to its source. The type in the middle must have
/// at least as many bits.
fn through_index(
    alloc: Global,
    world: &World,
    op: OpId,
    p: &UnaryOp,
) -> Result<Result<RewritePlan, Reason>, AllocError>
    requires name { IsName world.now.ctx p.now.name }
    requires ty { IsType world.now.ctx p.now.ty }
    ensures edits { IfOk result (HasPlanOne through_index world.now op p.now) }
    ensures reason { IfOk result (HasReasonOne index_tests world.now p.now) }
    ensures fits_in { IfOk result (λ a. IfOk a (PlanIsOf world.now.ctx)) }
{
    let Some(inside) = defining_op_named(alloc, world, p.name, &p.first)? else {
        return Ok(Err(Reason::NoDefiningOp));
    };
    let Some(q) = unary_op(&inside) else {
        return Ok(Err(Reason::NoDefiningOp));
    };
    if type_width(&world.ctx, p.ty) > type_width(&world.ctx, q.ty) {
        return Ok(Err(Reason::FewerBits));
    }
    if !is_of_type(world, p.ty, q.first) {
        return Ok(Err(Reason::OtherType));
    }
    Ok(Ok(RewritePlan::Give { value: q.first }))
}

/// Plans `cast-back`: a cast back to the original type becomes the original value.
#[inline(never)]
pub(crate) fn plan_cast_back(
    alloc: Global,
    world: &World,
    op: OpId,
    node: &Node<'_>,
) -> Result<Result<RewritePlan, Reason>, AllocError>
    requires of { NodeIsOf world.now.ctx node.now }
    ensures edits { IfOk result (HasPlan cast_back world.now op node.now) }
    ensures reason { IfOk result (HasReason tests.cast_back world.now node.now) }
    ensures fits_in { IfOk result (λ a. IfOk a (PlanIsOf world.now.ctx)) }
{
    let Some(p) = unary_op(node) else {
        return Ok(Err(Reason::WrongOperation));
    };
    if world
        .ctx
        .is_word(p.name, Word::BuiltinUnrealizedConversionCast)
    {
        return unrealized(alloc, world, op, &p);
    }
    if !is_index_cast(&world.ctx, p.name) {
        return Ok(Err(Reason::WrongOperation));
    }
    through_index(alloc, world, op, &p)
}
