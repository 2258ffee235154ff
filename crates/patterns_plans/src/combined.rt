//! Plans of the rules that make a constant and an operation on it.
ghost use Rattle.std.specs.Prelude.{◌≡◌, IfOk, ℕ};
ghost use Rattle.std.specs.Result.{result_ok};
ghost use Rattle.ir_event.specs.Modules.{NodeIsOf};
ghost use Rattle.patterns_matchers.specs.Folding.{regroup_constants, add_negative};
ghost use Rattle.patterns_matchers.specs.Plans.{PlanIsOf};
ghost use Rattle.patterns_plans.specs.Planned.{HasPlan, HasReason, IsPlanned, HasRegroupReason};
ghost use Rattle.patterns_plans.specs.RuleTests as tests;

use crate::reason::Reason;
use dialects_int::fold::fold;
use ir_event::store::node::Node;
use ir_event::types::word::Word;
use ir_event::world::World;
use patterns_matchers::constants::constant_value;
use patterns_matchers::defining_ops::defining_op_named;
use patterns_matchers::op_names::{is_associative, word_name};
use patterns_matchers::plan::{LargePlan, RewritePlan};
use patterns_matchers::shapes::binary_op;
use patterns_matchers::types::{negated_bits, type_width};
use std::alloc::{AllocError, Global};

/// Plans `regroup-constants`: a value with two constants, one after another, becomes the value with one constant.
#[inline(never)]
pub(crate) fn plan_regroup_constants(
    alloc: Global,
    world: &World,
    node: &Node<'_>,
) -> Result<Result<RewritePlan, Reason>, AllocError>
    requires of { NodeIsOf world.now.ctx node.now }
    ensures edits { (x : ℕ) → IfOk result (λ a. IsPlanned regroup_constants world.now x node.now (result_ok a)) }
    ensures reason { IfOk result (HasRegroupReason world.now node.now) }
    ensures fits_in { IfOk result (λ a. IfOk a (PlanIsOf world.now.ctx)) }
{
    let Some(p) = binary_op(node) else {
        return Ok(Err(Reason::WrongOperation));
    };
    if !is_associative(&world.ctx, p.name) {
        return Ok(Err(Reason::WrongOperation));
    }
    let Some(outer) = constant_value(alloc, world, &p.second)? else {
        return Ok(Err(Reason::SecondNotConstant));
    };
    let Some(inside) = defining_op_named(alloc, world, p.name, &p.first)? else {
        return Ok(Err(Reason::NoDefiningOp));
    };
    let Some(q) = binary_op(&inside) else {
        return Ok(Err(Reason::NoDefiningOp));
    };
    let Some(inner) = constant_value(alloc, world, &q.second)? else {
        return Ok(Err(Reason::InnerNotConstant));
    };
    match fold(
        &world.ctx,
        p.name,
        &[],
        &[Some(inner), Some(outer)],
        &[p.ty],
    ) {
        Some(bits) => {
            let plan = LargePlan::CombinedConstant {
                name: p.name,
                ty: p.ty,
                value: q.first,
                bits: bits.value,
            };
            Ok(Ok(RewritePlan::Large(Box::new(alloc, plan)?)))
        }
        None => Ok(Err(Reason::DoesNotFold)),
    }
}

/// Plans `add-negative`: a value minus a constant becomes the value plus the negated constant.
#[inline(never)]
pub(crate) fn plan_add_negative(
    alloc: Global,
    world: &World,
    node: &Node<'_>,
) -> Result<Result<RewritePlan, Reason>, AllocError>
    requires of { NodeIsOf world.now.ctx node.now }
    ensures edits { (x : ℕ) → IfOk result (HasPlan add_negative world.now x node.now) }
    ensures reason { IfOk result (HasReason tests.add_negative world.now node.now) }
    ensures fits_in { IfOk result (λ a. IfOk a (PlanIsOf world.now.ctx)) }
{
    let Some(p) = binary_op(node) else {
        return Ok(Err(Reason::WrongOperation));
    };
    if !world.ctx.is_word(p.name, Word::ArithSubi) {
        return Ok(Err(Reason::WrongOperation));
    }
    let Some(bits) = constant_value(alloc, world, &p.second)? else {
        return Ok(Err(Reason::SecondNotConstant));
    };
    let plan = LargePlan::CombinedConstant {
        name: word_name(&world.ctx, Word::ArithAddi),
        ty: p.ty,
        value: p.first,
        bits: negated_bits(type_width(&world.ctx, p.ty), bits.value),
    };
    Ok(Ok(RewritePlan::Large(Box::new(alloc, plan)?)))
}
