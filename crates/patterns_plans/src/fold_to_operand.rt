//! Plans of the rules that replace an operation's result by an existing value.
ghost use Rattle.std.specs.Prelude.{◌≡◌, IfOk, ℕ};
ghost use Rattle.ir_event.specs.Modules.{NodeIsOf};
ghost use Rattle.patterns_matchers.specs.Folding.{drop_zero, drop_one, drop_all_ones, keep_itself, choose_same};
ghost use Rattle.patterns_matchers.specs.Folding.{choose_known, choose_truth};
ghost use Rattle.patterns_matchers.specs.Plans.{PlanIsOf};
ghost use Rattle.patterns_plans.specs.Planned.{HasPlan, HasReason};
ghost use Rattle.patterns_plans.specs.RuleTests as tests;

use crate::reason::Reason;
use ir_event::store::node::Node;
use ir_event::trees::uses::is_same;
use ir_event::types::ids::OpId;
use ir_event::types::word::Word;
use ir_event::world::World;
use patterns_matchers::constants::{constant_value, is_number};
use patterns_matchers::op_names::{
    has_one_as_right_identity, has_zero_as_right_identity, is_idempotent,
};
use patterns_matchers::plan::RewritePlan;
use patterns_matchers::shapes::{binary_op, ternary_op};
use patterns_matchers::types::{all_ones, is_boolean};
use std::alloc::{AllocError, Global};

/// Plans `drop-zero`: a second operand 0 leaves the first operand.
#[inline(never)]
pub(crate) fn plan_drop_zero(
    alloc: Global,
    world: &World,
    op: OpId,
    node: &Node<'_>,
) -> Result<Result<RewritePlan, Reason>, AllocError>
    ensures edits { IfOk result (HasPlan drop_zero world.now op node.now) }
    ensures reason { IfOk result (HasReason tests.drop_zero world.now node.now) }
    ensures fits_in { IfOk result (λ a. IfOk a (PlanIsOf world.now.ctx)) }
{
    let Some(p) = binary_op(node) else {
        return Ok(Err(Reason::WrongOperation));
    };
    if !has_zero_as_right_identity(&world.ctx, p.name) {
        return Ok(Err(Reason::WrongOperation));
    }
    let Some(bits) = constant_value(alloc, world, &p.second)? else {
        return Ok(Err(Reason::SecondNotConstant));
    };
    if bits.value != 0 {
        return Ok(Err(Reason::SecondNotZero));
    }
    Ok(Ok(RewritePlan::Give { value: p.first }))
}

/// Plans `drop-one`: a second operand 1 leaves the first operand.
#[inline(never)]
pub(crate) fn plan_drop_one(
    alloc: Global,
    world: &World,
    op: OpId,
    node: &Node<'_>,
) -> Result<Result<RewritePlan, Reason>, AllocError>
    ensures edits { IfOk result (HasPlan drop_one world.now op node.now) }
    ensures reason { IfOk result (HasReason tests.drop_one world.now node.now) }
    ensures fits_in { IfOk result (λ a. IfOk a (PlanIsOf world.now.ctx)) }
{
    let Some(p) = binary_op(node) else {
        return Ok(Err(Reason::WrongOperation));
    };
    if !has_one_as_right_identity(&world.ctx, p.name) {
        return Ok(Err(Reason::WrongOperation));
    }
    let Some(bits) = constant_value(alloc, world, &p.second)? else {
        return Ok(Err(Reason::SecondNotConstant));
    };
    if bits.value != 1 {
        return Ok(Err(Reason::SecondNotOne));
    }
    Ok(Ok(RewritePlan::Give { value: p.first }))
}

/// Plans `drop-all-ones`: a second operand with all bits set leaves the first operand.
#[inline(never)]
pub(crate) fn plan_drop_all_ones(
    alloc: Global,
    world: &World,
    op: OpId,
    node: &Node<'_>,
) -> Result<Result<RewritePlan, Reason>, AllocError>
    requires of { NodeIsOf world.now.ctx node.now }
    ensures edits { IfOk result (HasPlan drop_all_ones world.now op node.now) }
    ensures reason { IfOk result (HasReason tests.drop_all_ones world.now node.now) }
    ensures fits_in { IfOk result (λ a. IfOk a (PlanIsOf world.now.ctx)) }
{
    let Some(p) = binary_op(node) else {
        return Ok(Err(Reason::WrongOperation));
    };
    if !world.ctx.is_word(p.name, Word::ArithAndi) {
        return Ok(Err(Reason::WrongOperation));
    }
    let Some(bits) = constant_value(alloc, world, &p.second)? else {
        return Ok(Err(Reason::SecondNotConstant));
    };
    if bits.value != all_ones(&world.ctx, p.ty) {
        return Ok(Err(Reason::SecondNotAllOnes));
    }
    Ok(Ok(RewritePlan::Give { value: p.first }))
}

/// Plans `keep-itself`: an operation on a value and itself becomes the value.
#[inline(never)]
pub(crate) fn plan_keep_itself(
    world: &World,
    op: OpId,
    node: &Node<'_>,
) -> Result<RewritePlan, Reason>
    ensures edits { HasPlan keep_itself world.now op node.now result }
    ensures reason { HasReason tests.keep_itself world.now node.now result }
    ensures fits_in { IfOk result (PlanIsOf world.now.ctx) }
{
    let Some(p) = binary_op(node) else {
        return Err(Reason::WrongOperation);
    };
    if !is_idempotent(&world.ctx, p.name) {
        return Err(Reason::WrongOperation);
    }
    if !is_same(&p.first, &p.second) {
        return Err(Reason::OperandsDiffer);
    }
    Ok(RewritePlan::Give { value: p.first })
}

/// Plans `choose-same`: a select between a value and itself becomes the value.
#[inline(never)]
pub(crate) fn plan_choose_same(
    world: &World,
    op: OpId,
    node: &Node<'_>,
) -> Result<RewritePlan, Reason>
    ensures edits { HasPlan choose_same world.now op node.now result }
    ensures reason { HasReason tests.choose_same world.now node.now result }
    ensures fits_in { IfOk result (PlanIsOf world.now.ctx) }
{
    let Some(p) = ternary_op(node) else {
        return Err(Reason::WrongOperation);
    };
    if !world.ctx.is_word(p.name, Word::ArithSelect) {
        return Err(Reason::WrongOperation);
    }
    if !is_same(&p.second, &p.third) {
        return Err(Reason::OperandsDiffer);
    }
    Ok(RewritePlan::Give { value: p.second })
}

/// Plans `choose-known`: a select with a constant condition becomes the selected value.
#[inline(never)]
pub(crate) fn plan_choose_known(
    alloc: Global,
    world: &World,
    op: OpId,
    node: &Node<'_>,
) -> Result<Result<RewritePlan, Reason>, AllocError>
    ensures edits { IfOk result (HasPlan choose_known world.now op node.now) }
    ensures reason { IfOk result (HasReason tests.choose_known world.now node.now) }
    ensures fits_in { IfOk result (λ a. IfOk a (PlanIsOf world.now.ctx)) }
{
    let Some(p) = ternary_op(node) else {
        return Ok(Err(Reason::WrongOperation));
    };
    if !world.ctx.is_word(p.name, Word::ArithSelect) {
        return Ok(Err(Reason::WrongOperation));
    }
    let Some(bits) = constant_value(alloc, world, &p.first)? else {
        return Ok(Err(Reason::FirstNotConstant));
    };
    let chosen = if bits.value == 0 { p.third } else { p.second };
    Ok(Ok(RewritePlan::Give { value: chosen }))
}

/// Plans `choose-truth`: a select between true and false becomes the condition.
#[inline(never)]
pub(crate) fn plan_choose_truth(
    alloc: Global,
    world: &World,
    op: OpId,
    node: &Node<'_>,
) -> Result<Result<RewritePlan, Reason>, AllocError>
    requires of { NodeIsOf world.now.ctx node.now }
    ensures edits { IfOk result (HasPlan choose_truth world.now op node.now) }
    ensures reason { IfOk result (HasReason tests.choose_truth world.now node.now) }
    ensures fits_in { IfOk result (λ a. IfOk a (PlanIsOf world.now.ctx)) }
{
    let Some(p) = ternary_op(node) else {
        return Ok(Err(Reason::WrongOperation));
    };
    if !world.ctx.is_word(p.name, Word::ArithSelect) {
        return Ok(Err(Reason::WrongOperation));
    }
    if !is_boolean(&world.ctx, p.ty) {
        return Ok(Err(Reason::OtherType));
    }
    let Some(bits) = constant_value(alloc, world, &p.second)? else {
        return Ok(Err(Reason::SecondNotConstant));
    };
    if bits.value != 1 {
        return Ok(Err(Reason::SecondNotOne));
    }
    if !is_number(alloc, world, 0, &p.third)? {
        return Ok(Err(Reason::ThirdNotZero));
    }
    Ok(Ok(RewritePlan::Give { value: p.first }))
}
