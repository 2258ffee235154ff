//! Plans of the rules that change operands in place.
ghost use Rattle.std.specs.Prelude.{◌≡◌, IfOk, ℕ};
ghost use Rattle.ir_event.specs.Modules.{NodeIsOf};
ghost use Rattle.patterns_matchers.specs.Folding.{swap_constant, mirror_comparison, choose_opposite};
ghost use Rattle.patterns_matchers.specs.Plans.{PlanIsOf};
ghost use Rattle.patterns_plans.specs.Planned.{HasPlan, HasReason};
ghost use Rattle.patterns_plans.specs.RuleTests as tests;

use crate::reason::Reason;
use ir_event::store::node::Node;
use ir_event::types::ids::OpId;
use ir_event::types::word::Word;
use ir_event::world::World;
use patterns_base::edit::Edit;
use patterns_matchers::constants::{is_known, is_number, named_defining_op};
use patterns_matchers::nodes::is_constant;
use patterns_matchers::op_names::is_commutative;
use patterns_matchers::plan::{LargePlan, RewritePlan};
use patterns_matchers::predicates::{predicate, swapped_predicate};
use patterns_matchers::shapes::{binary_op, ternary_op};
use std::alloc::{AllocError, Global};

/// Plans `swap-constant`: the operands are swapped if the first is a constant and the second isn't.
#[inline(never)]
pub(crate) fn plan_swap_constant(
    alloc: Global,
    world: &World,
    op: OpId,
    node: &Node<'_>,
) -> Result<Result<RewritePlan, Reason>, AllocError>
    ensures edits { IfOk result (HasPlan swap_constant world.now op node.now) }
    ensures reason { IfOk result (HasReason tests.swap_constant world.now node.now) }
    ensures fits_in { IfOk result (λ a. IfOk a (PlanIsOf world.now.ctx)) }
{
    let Some(p) = binary_op(node) else {
        return Ok(Err(Reason::WrongOperation));
    };
    if !is_commutative(&world.ctx, p.name) {
        return Ok(Err(Reason::WrongOperation));
    }
    if !is_known(alloc, world, &p.first)? {
        return Ok(Err(Reason::FirstNotConstant));
    }
    if is_constant(world, &p.second) {
        return Ok(Err(Reason::SecondConstant));
    }
    let mut edits = Vec::new(alloc);
    edits.push(Edit::SetOperand {
        op,
        operand: 0,
        value: p.second,
    })?;
    edits.push(Edit::SetOperand {
        op,
        operand: 1,
        value: p.first,
    })?;
    Ok(Ok(RewritePlan::Edits(edits)))
}

/// Plans `mirror-comparison`: the operands of a comparison are swapped, and its predicate is mirrored, if the first is
/// a constant and the second isn't.
#[inline(never)]
pub(crate) fn plan_mirror_comparison(
    alloc: Global,
    world: &World,
    node: &Node<'_>,
) -> Result<Result<RewritePlan, Reason>, AllocError>
    requires of { NodeIsOf world.now.ctx node.now }
    ensures edits { (x : ℕ) → IfOk result (HasPlan mirror_comparison world.now x node.now) }
    ensures reason { IfOk result (HasReason tests.mirror_comparison world.now node.now) }
    ensures fits_in { IfOk result (λ a. IfOk a (PlanIsOf world.now.ctx)) }
{
    let Some(p) = binary_op(node) else {
        return Ok(Err(Reason::WrongOperation));
    };
    if !world.ctx.is_word(p.name, Word::ArithCmpi) {
        return Ok(Err(Reason::WrongOperation));
    }
    let Some(asks) = predicate(&world.ctx, node) else {
        return Ok(Err(Reason::WrongOperation));
    };
    if !is_known(alloc, world, &p.first)? {
        return Ok(Err(Reason::FirstNotConstant));
    }
    if is_constant(world, &p.second) {
        return Ok(Err(Reason::SecondConstant));
    }
    let plan = LargePlan::SwapComparison {
        predicate: swapped_predicate(asks),
        first: p.second,
        second: p.first,
    };
    Ok(Ok(RewritePlan::Large(Box::new(alloc, plan)?)))
}

/// Plans `choose-opposite`: a select on a negated condition becomes one on the condition, with both values swapped.
#[inline(never)]
pub(crate) fn plan_choose_opposite(
    alloc: Global,
    world: &World,
    op: OpId,
    node: &Node<'_>,
) -> Result<Result<RewritePlan, Reason>, AllocError>
    ensures edits { IfOk result (HasPlan choose_opposite world.now op node.now) }
    ensures reason { IfOk result (HasReason tests.choose_opposite world.now node.now) }
    ensures fits_in { IfOk result (λ a. IfOk a (PlanIsOf world.now.ctx)) }
{
    let Some(p) = ternary_op(node) else {
        return Ok(Err(Reason::WrongOperation));
    };
    if !world.ctx.is_word(p.name, Word::ArithSelect) {
        return Ok(Err(Reason::WrongOperation));
    }
    let Some(opposite) = named_defining_op(alloc, world, Word::ArithXori, &p.first)? else {
        return Ok(Err(Reason::NoDefiningOp));
    };
    let Some(q) = binary_op(&opposite) else {
        return Ok(Err(Reason::NoDefiningOp));
    };
    if !is_number(alloc, world, 1, &q.second)? {
        return Ok(Err(Reason::InnerNotOne));
    }
    let mut edits = Vec::new(alloc);
    edits.push(Edit::SetOperand {
        op,
        operand: 0,
        value: q.first,
    })?;
    edits.push(Edit::SetOperand {
        op,
        operand: 1,
        value: p.third,
    })?;
    edits.push(Edit::SetOperand {
        op,
        operand: 2,
        value: p.second,
    })?;
    Ok(Ok(RewritePlan::Edits(edits)))
}
