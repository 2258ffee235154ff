//! Matches the operations of a pattern in a module.
ghost use Rattle.std.specs.Prelude.{◌≡◌, ◌<◌, ◌^◌, IfOk, IfSome, None, Option, Some, codes, is_none, option_map, true};
ghost use Rattle.std.specs.Result.{result_err, result_ok};
ghost use Rattle.ir_event.specs.types.Things.{IsAttr};
ghost use Rattle.ir_event.specs.types.Terms.{attr_term};
ghost use Rattle.ir_event.specs.trees.Uses.{same_value};
ghost use Rattle.ir_event.specs.Modules.{NodeIsOf, module_in};
ghost use Rattle.op_registry.specs.Registry.{next_to};
ghost use Rattle.dialects_int.specs.Folds.{property_of};
ghost use Rattle.patterns_matchers.specs.Reads.{header_of_node};
ghost use Rattle.user_patterns_data.specs.Matching.{all_bound, defining_op_head, header_matched, op_matches};
ghost use Rattle.user_patterns_data.specs.Matching.{ops_match, placed, predicate_is};
ghost use Rattle.user_patterns_data.specs.Names.{are_none, operands_of, predicate_of};
ghost use Rattle.user_patterns_data.specs.Planning.{old_place};
ghost use Rattle.user_patterns_data.specs.Shapes.{pattern_model};
ghost use Rattle.user_patterns_apply.specs.Matched.{any, matched};
ghost use Rattle.user_patterns_apply.specs.Mismatches.{first_unbound, header_tests, matched_tests, op_tests, ops_tests};
ghost use Rattle.user_patterns_apply.specs.Stands.{Stands};
ghost use Rattle.user_patterns_apply.specs.declared.mismatch.Mismatch.TheVariants.{Operation};

use crate::mismatch::Mismatch;
use crate::names::{is_named, predicate_number};
use crate::places::{bind, bind_all, binding_at, nothing_at};
use ir_event::store::node::Node;
use ir_event::trees::value::Value;
use ir_event::types::context::Context;
use ir_event::types::ids::{AttrId, OpId};
use ir_event::types::node::AttrNode;
use ir_event::types::things::attr_of;
use ir_event::types::word::Word;
use ir_event::world::World;
use ir_verify_base::node::property;
use patterns_matchers::nodes::op_node;
use patterns_matchers::predicates::predicate;
use std::alloc::{AllocError, Global};
use user_patterns_data::pattern::{Expression, Pattern, PatternOp};

/// Returns the defining operation of `value` if `value` is its first result.
pub(crate) fn defining_op<'a>(world: &'a World, value: &Value) -> Option<Node<'a>>
    ensures of { IfSome result (NodeIsOf world.now.ctx) }
    ensures node { option_map (header_of_node world.now.ctx) result ≡ defining_op_head (module_in world.now).tree any value.now }
{
    let Value::Result(op, number) = value else {
        return None;
    };
    if *number != 0 {
        return None;
    }
    op_node(world, *op)
}

/// Returns whether `flags` is an overflow attribute without a flag.
fn are_none(ctx: &Context, flags: AttrId) -> bool
    requires { IsAttr ctx.now flags }
    ensures { result ≡ are_none (Some (attr_term ctx.now flags)) }
{
    ctx.sound();
    match attr_of(ctx, flags) {
        AttrNode::Overflow { nsw, nuw } => !*nsw && !*nuw,
        _ => false,
    }
}

/// Returns whether the operation has no overflow flags.
fn is_bare(ctx: &Context, node: &Node<'_>) -> bool
    requires { NodeIsOf ctx.now node.now }
    ensures { result ≡ are_none (next_to (codes "overflowFlags") (header_of_node ctx.now node.now).properties) }
{
    match property(ctx, node, Word::OverflowFlags) {
        Some(flags) => are_none(ctx, flags),
        None => true,
    }
}

/// Returns whether the operation has the predicate of `form`. The answer is `true` if `form` isn't a comparison.
fn has_predicate(world: &World, form: &Expression, node: &Node<'_>) -> bool
    requires { NodeIsOf world.now.ctx node.now }
    ensures { result ≡ predicate_is (module_in world.now).tree any (predicate_of form.now)
        (property_of (codes "predicate") (header_of_node world.now.ctx node.now).properties) }
{
    let Expression::Compare(type_constraints, _, _) = form else {
        return true;
    };
    match predicate(&world.ctx, node) {
        Some(number) => number == predicate_number(*type_constraints),
        None => false,
    }
}

/// Binds the operands of an operation at the places of `form`. Returns the index of the first operand that can't be
/// bound: its place is bound to another value, or the number of operands doesn't fit.
fn bind_operands(
    form: &Expression,
    operands: &[Value],
    values: &mut [Option<Value>],
) -> Option<usize>
    ensures stands { Stands (all_bound same_value (operands_of form.now) operands.now values.old) values.new (is_none result) }
    ensures index { result ≡ first_unbound 0 (operands_of form.now) operands.now values.old }
{
    match form {
        Expression::Binary(_, i, j) => bind_all(&[*i, *j], operands, values),
        Expression::Compare(_, i, j) => bind_all(&[*i, *j], operands, values),
        Expression::Select(c, i, j) => bind_all(&[*c, *i, *j], operands, values),
        Expression::IntegerCast(_, i) => bind_all(&[*i], operands, values),
        Expression::IndexCast(_, i) => bind_all(&[*i], operands, values),
    }
}

/// Matches a pattern op at an operation, verified or not. `place` is the place of the pattern op. Returns the first test
/// that fails.
fn match_node(
    world: &World,
    place: u128,
    pattern_op: &PatternOp,
    node: &Node<'_>,
    values: &mut [Option<Value>],
) -> Option<Mismatch>
    requires { NodeIsOf world.now.ctx node.now }
    ensures stands { Stands (header_matched (module_in world.now).tree any pattern_op.now (header_of_node world.now.ctx node.now) values.old)
        values.new (is_none result) }
    ensures tests { result ≡ header_tests (module_in world.now).tree place pattern_op.now (header_of_node world.now.ctx node.now) values.old }
{
    if !is_named(&world.ctx, node.name(), &pattern_op.form) {
        return Some(Mismatch::Operation(place));
    }
    if !has_predicate(world, &pattern_op.form, node) {
        return Some(Mismatch::Predicate(place));
    }
    if pattern_op.bare && !is_bare(&world.ctx, node) {
        return Some(Mismatch::Flags(place));
    }
    match bind_operands(&pattern_op.form, node.operands(), values) {
        Some(index) => Some(Mismatch::Operand(place, index)),
        None => None,
    }
}

/// Matches a pattern op at the value bound at `place`, verified or not. Returns the first test that fails.
fn match_pattern_op(
    world: &World,
    place: u128,
    pattern_op: &PatternOp,
    values: &mut [Option<Value>],
) -> Option<Mismatch>
    ensures stands { Stands (op_matches (module_in world.now).tree any (place, pattern_op.now) values.old) values.new (is_none result) }
    ensures tests { result ≡ op_tests (module_in world.now).tree (place, pattern_op.now) values.old }
{
    let Some(value) = binding_at(values, place) else {
        return Some(Mismatch::Operation(place));
    };
    let Some(node) = defining_op(world, &value) else {
        return Some(Mismatch::Operation(place));
    };
    match_node(world, place, pattern_op, &node, values)
}

/// Matches the pattern ops from the last to the first, which has place `begins`. Returns the first test that fails.
fn match_all(
    world: &World,
    begins: u128,
    old: &[PatternOp],
    values: &mut [Option<Value>],
) -> Option<Mismatch>
    requires { begins < 2 ^ 100 }
    ensures stands { Stands (ops_match (module_in world.now).tree any (placed begins old.now) values.old)
        values.new (is_none result) }
    ensures tests { result ≡ ops_tests (module_in world.now).tree (placed begins old.now) values.old }
{
    let mut left = old.len();
    'old: while left > 0 {
        left -= 1;
        if let Some(mismatch) = match_pattern_op(world, begins + left as u128, &old[left], values) {
            return Some(mismatch);
        }
    }
    None
}

/// Returns the place of the first pattern op on the left.
pub fn old_begins(pattern: &Pattern) -> u128
    ensures place { result ≡ old_place (pattern_model pattern.now) }
    ensures below { result < 2 ^ 100 }
{
    pattern.values.len() as u128 + pattern.extra.len() as u128 + pattern.given.len() as u128
}

/// Returns whether the name of operation `op` differs from the name of the pattern's root. Then the pattern doesn't
/// match. The test allocates no memory.
fn is_other(world: &World, pattern: &Pattern, op: OpId) -> bool
    ensures matched { result ≡ true → matched (module_in world.now).tree any (pattern_model pattern.now) op ≡ None }
    ensures tests { result ≡ true → matched_tests (module_in world.now).tree (pattern_model pattern.now) op ≡ Some (Operation (pattern_model pattern.now).root) }
{
    let old = pattern.old.as_slice();
    let pattern_ops = old.len();
    if pattern_ops < 1 {
        return false;
    }
    let last = pattern_ops - 1;
    if pattern.root as u128 != old_begins(pattern) + last as u128 {
        return false;
    }
    let Some(node) = defining_op(world, &Value::Result(op, 0)) else {
        return false;
    };
    !is_named(&world.ctx, node.name(), &old[last].form)
}

/// Returns the values bound at the pattern's places by a match at `op`, or the first test that fails. The matched
/// operations aren't verified here.
pub(crate) fn match_pattern(
    alloc: Global,
    world: &World,
    pattern: &Pattern,
    op: OpId,
) -> Result<Result<Vec<Option<Value>>, Mismatch>, AllocError>
    ensures values { IfOk result (λ r. option_map (λ v. v.items) (result_ok r)
        ≡ matched (module_in world.now).tree any (pattern_model pattern.now) op) }
    ensures tests { IfOk result (λ r. result_err r ≡ matched_tests (module_in world.now).tree (pattern_model pattern.now) op) }
{
    if is_other(world, pattern, op) {
        return Ok(Err(Mismatch::Operation(pattern.root as u128)));
    }
    let mut values = nothing_at(alloc, pattern)?;
    if !bind(pattern.root, &Value::Result(op, 0), &mut values) {
        return Ok(Err(Mismatch::Operation(pattern.root as u128)));
    }
    match match_all(world, old_begins(pattern), &pattern.old, &mut values) {
        Some(mismatch) => Ok(Err(mismatch)),
        None => Ok(Ok(values)),
    }
}
