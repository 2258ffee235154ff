//! The plan of each lowering rule.
ghost use Rattle.std.specs.Prelude.{◌≡◌, ◌||◌, true, IfOk};
ghost use Rattle.std.specs.Result.{result_ok};
ghost use Rattle.patterns_regions.specs.Answers.{HasReasonAt};
ghost use Rattle.patterns_soundness.specs.base.declared.rule.Rule.TheVariants.{LowerChoice, LowerIndex, LowerLoop};
ghost use Rattle.patterns_soundness.specs.base.Lowering.{any, lower_index, lower_loop, lower_choice};
ghost use Rattle.patterns_soundness.specs.base.RuleNames.{is_lowering};
ghost use Rattle.patterns_lowering.specs.Planned.{IsVerifiedAt, IsLoweredAt, IsLoweredBy};
ghost use Rattle.patterns_lowering.specs.Plans.{LoweringIsOf};

use crate::index::indices;
use crate::marks::any;
use crate::plan::{IndexedChoice, IndexedLoop, Lowering};
use crate::reading::{read, take};
use crate::users::is_user;
use ir_event::types::ids::OpId;
use ir_event::types::word::Word;
use ir_event::world::World;
use patterns_regions::reason::Reason;
use patterns_soundness::base::rule::Rule;
use std::alloc::{AllocError, Global};

/// Returns whether any mark of either list is set.
fn is_either(some: &[bool], others: &[bool]) -> bool
    ensures { result ≡ (any some.now || any others.now) }
{
    any(some) || any(others)
}

/// Plans the lowering of an `arith` operation on index, or returns the reason why the rule doesn't apply.
pub(crate) fn plan_lower_index(
    alloc: Global,
    world: &World,
    op: OpId,
) -> Result<Result<Lowering, Reason>, AllocError>
    ensures edits { IfOk result (λ a. IsLoweredBy lower_index world.now op (result_ok a)) }
    ensures reason { IfOk result (HasReasonAt LowerIndex world.now op) }
    ensures of { IfOk result (λ a. IfOk a (LoweringIsOf world.now.ctx)) }
{
    let Some(node) = world.shown(op) else {
        return Ok(Err(Reason::NoIndex));
    };
    if !is_user(&world.ctx, node.name()) {
        return Ok(Err(Reason::NoIndex));
    }
    let of = read(alloc, world, op, &node)?;
    if !is_either(&of.index_operands, &of.index_results) {
        return Ok(Err(Reason::NoIndex));
    }
    Ok(Ok(Lowering::Operation(of)))
}

/// Plans the lowering of a loop over index, or returns the reason why the rule doesn't apply.
pub(crate) fn plan_lower_loop(
    alloc: Global,
    world: &World,
    op: OpId,
) -> Result<Result<Lowering, Reason>, AllocError>
    requires { IsVerifiedAt world.now op }
    ensures edits { IfOk result (λ a. IsLoweredBy lower_loop world.now op (result_ok a)) }
    ensures reason { IfOk result (HasReasonAt LowerLoop world.now op) }
    ensures of { IfOk result (λ a. IfOk a (LoweringIsOf world.now.ctx)) }
{
    let Some(node) = world.shown(op) else {
        return Ok(Err(Reason::WrongOperation));
    };
    if !world.ctx.is_word(node.name(), Word::ScfFor) {
        return Ok(Err(Reason::WrongOperation));
    }
    let of = read(alloc, world, op, &node)?;
    if !any(&of.index_operands) {
        return Ok(Err(Reason::NoIndex));
    }
    let Some(types) = node.arguments(0) else {
        return Ok(Err(Reason::BlockNotVerified));
    };
    let Some(body) = take(alloc, world, op, 0)? else {
        return Ok(Err(Reason::BlockNotVerified));
    };
    let index_arguments = indices(alloc, &world.ctx, types)?;
    let arguments = Vec::from_slice(alloc, types)?;
    Ok(Ok(Lowering::Loop(IndexedLoop {
        of,
        arguments,
        index_arguments,
        body,
    })))
}

/// Plans the lowering of a choice with index results, or returns the reason why the rule doesn't apply.
pub(crate) fn plan_lower_choice(
    alloc: Global,
    world: &World,
    op: OpId,
) -> Result<Result<Lowering, Reason>, AllocError>
    requires { IsVerifiedAt world.now op }
    ensures edits { IfOk result (λ a. IsLoweredBy lower_choice world.now op (result_ok a)) }
    ensures reason { IfOk result (HasReasonAt LowerChoice world.now op) }
    ensures of { IfOk result (λ a. IfOk a (LoweringIsOf world.now.ctx)) }
{
    let Some(node) = world.shown(op) else {
        return Ok(Err(Reason::WrongOperation));
    };
    if !world.ctx.is_word(node.name(), Word::ScfIf) {
        return Ok(Err(Reason::WrongOperation));
    }
    let of = read(alloc, world, op, &node)?;
    if !any(&of.index_results) {
        return Ok(Err(Reason::NoIndex));
    }
    let Some(first) = take(alloc, world, op, 0)? else {
        return Ok(Err(Reason::BlockNotVerified));
    };
    let Some(second) = take(alloc, world, op, 1)? else {
        return Ok(Err(Reason::BlockNotVerified));
    };
    Ok(Ok(Lowering::Choice(IndexedChoice { of, first, second })))
}

/// Plans a lowering rule at a verified operation of the module, or returns the first of the rule's conditions that
/// doesn't hold. The caller has checked that the operation is verified and has a place.
pub fn plan_lowered(
    alloc: Global,
    world: &World,
    rule: Rule,
    op: OpId,
) -> Result<Result<Lowering, Reason>, AllocError>
    requires rule { is_lowering rule ≡ true }
    requires verified { IsVerifiedAt world.now op }
    ensures edits { IfOk result (λ a. IsLoweredAt rule world.now op (result_ok a)) }
    ensures reason { IfOk result (HasReasonAt rule world.now op) }
    ensures of { IfOk result (λ a. IfOk a (LoweringIsOf world.now.ctx)) }
{
    match rule {
        Rule::LowerIndex => plan_lower_index(alloc, world, op),
        Rule::LowerLoop => plan_lower_loop(alloc, world, op),
        Rule::LowerChoice => plan_lower_choice(alloc, world, op),
        _ => Ok(Err(Reason::WrongOperation)),
    }
}
