//! Plans of the rules that replace an operation's result by a constant.
ghost use Rattle.std.specs.Prelude.{◌≡◌, IfOk, Some, ℕ, [], ◌∷◌, codes, false, map, option_map};
ghost use Rattle.std.specs.Result.{result_ok};
ghost use Rattle.ir_event.specs.types.Terms.{name_term};
ghost use Rattle.ir_event.specs.Modules.{NodeIsOf, module_in};
ghost use Rattle.dialects_int.specs.Folds.{known_of};
ghost use Rattle.patterns_matchers.specs.Folding.{fold_to_constant, cancel_itself, zero_remainder, compare_itself};
ghost use Rattle.patterns_matchers.specs.Folding.{compare_zero};
ghost use Rattle.patterns_laws.specs.Words.{named};
ghost use Rattle.patterns_plans.specs.Numbers.{known_each, readable};
ghost use Rattle.patterns_matchers.specs.Plans.{PlanIsOf};
ghost use Rattle.patterns_plans.specs.Planned.{HasFoldReason, HasPlan, HasReason, IsPlanned};
ghost use Rattle.patterns_plans.specs.RuleTests.{unfolded_reason};
ghost use Rattle.patterns_plans.specs.RuleTests as tests;

use crate::reason::Reason;
use dialects_int::fold::fold;
use ir_event::store::node::Node;
use ir_event::trees::uses::is_same;
use ir_event::trees::value::Value;
use ir_event::types::bits::Bits;
use ir_event::types::word::Word;
use ir_event::world::World;
use patterns_matchers::constants::constant_value;
use patterns_matchers::nodes::is_constant;
use patterns_matchers::op_names::{is_remainder, is_self_inverse};
use patterns_matchers::plan::RewritePlan;
use patterns_matchers::predicates::{is_true_when_equal, predicate};
use patterns_matchers::shapes::binary_op;
use std::alloc::{AllocError, Global};

/// Returns the known bits of `value`, or `Some(None)` if it isn't a constant. Returns `None` if it is a constant that
/// isn't verified.
fn readable(alloc: Global, world: &World, value: &Value) -> Result<Option<Option<Bits>>, AllocError>
    ensures { IfOk result (λ r. option_map known_of r ≡ readable (module_in world.now).tree value.now) }
{
    if let Some(bits) = constant_value(alloc, world, value)? {
        return Ok(Some(Some(bits)));
    }
    if is_constant(world, value) {
        return Ok(None);
    }
    Ok(Some(None))
}

/// Returns the known bits of each value, as `readable` does, or `None` if a value is a constant that isn't verified.
fn known_each(
    alloc: Global,
    world: &World,
    values: &[Value],
) -> Result<Option<Vec<Option<Bits>>>, AllocError>
    ensures { IfOk result (λ r. option_map (λ v. map known_of v.items) r
        ≡ known_each (module_in world.now).tree values.now) }
{
    let mut known = Vec::new(alloc);
    let mut rest = values;
    'values: while let [value, tail @ ..] = rest {
        let Some(bits) = readable(alloc, world, value)? else {
            return Ok(None);
        };
        known.push(bits)?;
        rest = tail;
    }
    Ok(Some(known))
}

/// Returns why an operation with these known bits of operands doesn't fold.
fn unfolded_reason(operands: &[Option<Bits>]) -> Reason
    ensures { result ≡ unfolded_reason (map known_of operands.now) }
{
    let mut rest = operands;
    'operands: while let [bits, tail @ ..] = rest {
        if bits.is_none() {
            return Reason::OperandNotConstant;
        }
        rest = tail;
    }
    Reason::DoesNotFold
}

/// Returns the plan of the constant to which an operation folds, by the known bits of its operands. The operation
/// isn't a constant itself.
fn folded(world: &World, node: &Node<'_>, operands: &[Option<Bits>]) -> Result<RewritePlan, Reason>
    requires of { NodeIsOf world.now.ctx node.now }
    requires named { named (codes "arith.constant") (name_term world.now.ctx node.now.head.name) ≡ false }
    requires known { Some (map known_of operands.now) ≡ known_each (module_in world.now).tree node.now.head.operands }
    ensures edits { (x : ℕ) → IsPlanned fold_to_constant world.now x node.now (result_ok result) }
    ensures reason { HasFoldReason world.now node.now result }
    ensures fits_in { IfOk result (PlanIsOf world.now.ctx) }
{
    let [ty] = node.results() else {
        return Err(unfolded_reason(operands));
    };
    match fold(
        &world.ctx,
        node.name(),
        node.properties(),
        operands,
        node.results(),
    ) {
        Some(bits) => Ok(RewritePlan::Constant {
            ty: *ty,
            bits: bits.value,
        }),
        None => Err(unfolded_reason(operands)),
    }
}

/// Returns the plan of the constant to which an operation with any number of operands folds. The operation isn't a
/// constant itself.
fn fold_each(
    alloc: Global,
    world: &World,
    node: &Node<'_>,
) -> Result<Result<RewritePlan, Reason>, AllocError>
    requires of { NodeIsOf world.now.ctx node.now }
    requires named { named (codes "arith.constant") (name_term world.now.ctx node.now.head.name) ≡ false }
    ensures edits { (x : ℕ) → IfOk result (λ a. IsPlanned fold_to_constant world.now x node.now (result_ok a)) }
    ensures reason { IfOk result (HasFoldReason world.now node.now) }
    ensures fits_in { IfOk result (λ a. IfOk a (PlanIsOf world.now.ctx)) }
{
    let Some(operands) = known_each(alloc, world, node.operands())? else {
        return Ok(Err(Reason::ConstantNotVerified));
    };
    Ok(folded(world, node, &operands))
}

/// Returns the same for two operands, without allocating memory.
fn fold_two(
    alloc: Global,
    world: &World,
    node: &Node<'_>,
    first: &Value,
    second: &Value,
) -> Result<Result<RewritePlan, Reason>, AllocError>
    requires of { NodeIsOf world.now.ctx node.now }
    requires named { named (codes "arith.constant") (name_term world.now.ctx node.now.head.name) ≡ false }
    requires operands { node.now.head.operands ≡ first.now ∷ second.now ∷ [] }
    ensures edits { (x : ℕ) → IfOk result (λ a. IsPlanned fold_to_constant world.now x node.now (result_ok a)) }
    ensures reason { IfOk result (HasFoldReason world.now node.now) }
    ensures fits_in { IfOk result (λ a. IfOk a (PlanIsOf world.now.ctx)) }
{
    let Some(one) = readable(alloc, world, first)? else {
        return Ok(Err(Reason::ConstantNotVerified));
    };
    let Some(other) = readable(alloc, world, second)? else {
        return Ok(Err(Reason::ConstantNotVerified));
    };
    Ok(folded(world, node, &[one, other]))
}

/// Plans `fold-to-constant`: an operation that isn't a constant and folds over its constant operands becomes the
/// constant.
#[inline(never)]
pub(crate) fn plan_fold_to_constant(
    alloc: Global,
    world: &World,
    node: &Node<'_>,
) -> Result<Result<RewritePlan, Reason>, AllocError>
    requires of { NodeIsOf world.now.ctx node.now }
    ensures edits { (x : ℕ) → IfOk result (λ a. IsPlanned fold_to_constant world.now x node.now (result_ok a)) }
    ensures reason { IfOk result (HasFoldReason world.now node.now) }
    ensures fits_in { IfOk result (λ a. IfOk a (PlanIsOf world.now.ctx)) }
{
    if world.ctx.is_word(node.name(), Word::ArithConstant) {
        return Ok(Err(Reason::WrongOperation));
    }
    match node.operands() {
        [first, second] => fold_two(alloc, world, node, first, second),
        _ => fold_each(alloc, world, node),
    }
}

/// Plans `cancel-itself`: an operation on a value and itself becomes 0.
#[inline(never)]
pub(crate) fn plan_cancel_itself(world: &World, node: &Node<'_>) -> Result<RewritePlan, Reason>
    requires of { NodeIsOf world.now.ctx node.now }
    ensures edits { (x : ℕ) → HasPlan cancel_itself world.now x node.now result }
    ensures reason { HasReason tests.cancel_itself world.now node.now result }
    ensures fits_in { IfOk result (PlanIsOf world.now.ctx) }
{
    let Some(p) = binary_op(node) else {
        return Err(Reason::WrongOperation);
    };
    if !is_self_inverse(&world.ctx, p.name) {
        return Err(Reason::WrongOperation);
    }
    if !is_same(&p.first, &p.second) {
        return Err(Reason::OperandsDiffer);
    }
    Ok(RewritePlan::Constant { ty: p.ty, bits: 0 })
}

/// Plans `zero-remainder`: a remainder by 1 becomes 0.
#[inline(never)]
pub(crate) fn plan_zero_remainder(
    alloc: Global,
    world: &World,
    node: &Node<'_>,
) -> Result<Result<RewritePlan, Reason>, AllocError>
    requires of { NodeIsOf world.now.ctx node.now }
    ensures edits { (x : ℕ) → IfOk result (HasPlan zero_remainder world.now x node.now) }
    ensures reason { IfOk result (HasReason tests.zero_remainder world.now node.now) }
    ensures fits_in { IfOk result (λ a. IfOk a (PlanIsOf world.now.ctx)) }
{
    let Some(p) = binary_op(node) else {
        return Ok(Err(Reason::WrongOperation));
    };
    if !is_remainder(&world.ctx, p.name) {
        return Ok(Err(Reason::WrongOperation));
    }
    let Some(bits) = constant_value(alloc, world, &p.second)? else {
        return Ok(Err(Reason::SecondNotConstant));
    };
    if bits.value != 1 {
        return Ok(Err(Reason::SecondNotOne));
    }
    Ok(Ok(RewritePlan::Constant { ty: p.ty, bits: 0 }))
}

/// Plans `compare-itself`: a comparison of a value and itself becomes true or false.
#[inline(never)]
pub(crate) fn plan_compare_itself(world: &World, node: &Node<'_>) -> Result<RewritePlan, Reason>
    requires of { NodeIsOf world.now.ctx node.now }
    ensures edits { (x : ℕ) → HasPlan compare_itself world.now x node.now result }
    ensures reason { HasReason tests.compare_itself world.now node.now result }
    ensures fits_in { IfOk result (PlanIsOf world.now.ctx) }
{
    let Some(p) = binary_op(node) else {
        return Err(Reason::WrongOperation);
    };
    if !world.ctx.is_word(p.name, Word::ArithCmpi) {
        return Err(Reason::WrongOperation);
    }
    let Some(asks) = predicate(&world.ctx, node) else {
        return Err(Reason::WrongOperation);
    };
    if !is_same(&p.first, &p.second) {
        return Err(Reason::OperandsDiffer);
    }
    Ok(RewritePlan::Constant {
        ty: p.ty,
        bits: is_true_when_equal(asks),
    })
}

/// Plans `compare-zero`: an unsigned comparison with 0 that is always true or always false becomes that truth value.
#[inline(never)]
pub(crate) fn plan_compare_zero(
    alloc: Global,
    world: &World,
    node: &Node<'_>,
) -> Result<Result<RewritePlan, Reason>, AllocError>
    requires of { NodeIsOf world.now.ctx node.now }
    ensures edits { (x : ℕ) → IfOk result (HasPlan compare_zero world.now x node.now) }
    ensures reason { IfOk result (HasReason tests.compare_zero world.now node.now) }
    ensures fits_in { IfOk result (λ a. IfOk a (PlanIsOf world.now.ctx)) }
{
    let Some(p) = binary_op(node) else {
        return Ok(Err(Reason::WrongOperation));
    };
    if !world.ctx.is_word(p.name, Word::ArithCmpi) {
        return Ok(Err(Reason::WrongOperation));
    }
    let Some(asks) = predicate(&world.ctx, node) else {
        return Ok(Err(Reason::WrongOperation));
    };
    let Some(bits) = constant_value(alloc, world, &p.second)? else {
        return Ok(Err(Reason::SecondNotConstant));
    };
    if bits.value != 0 {
        return Ok(Err(Reason::SecondNotZero));
    }
    if asks == 6 {
        return Ok(Ok(RewritePlan::Constant { ty: p.ty, bits: 0 }));
    }
    if asks == 9 {
        return Ok(Ok(RewritePlan::Constant { ty: p.ty, bits: 1 }));
    }
    Ok(Err(Reason::OtherPredicate))
}
