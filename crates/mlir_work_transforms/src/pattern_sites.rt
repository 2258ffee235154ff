//! Where a match has the values of a user pattern: the path from the root to a value, by operand indices.
ghost use Rattle.std.specs.Prelude.{◌≡◌, ◌++◌, ◌+◌, ◌<◌, ◌^◌, IfSome, OnOk, length, option_map, slice_get};
ghost use Rattle.ir_event.specs.Modules.{NodeIsOf, module_in};
ghost use Rattle.user_patterns_data.specs.Names.{operands_of};
ghost use Rattle.user_patterns_data.specs.Planning.{old_place};
ghost use Rattle.user_patterns_data.specs.Shapes.{pattern_model};
ghost use Rattle.mlir_work_transforms.specs.WhyPattern.{computed_at, header_at, header_in, index_of, matched_value, operand_text, operands_at, path, path_text, pattern_op_at, use_by, use_of, value_at};

use crate::trace_lines::write_number;
use greedy::own::match_ops::old_begins;
use greedy::own::nodes::op_node;
use ir_event::store::node::Node;
use ir_event::trees::value::Value;
use ir_event::types::ids::OpId;
use ir_event::world::World;
use std::alloc::AllocError;
use user_patterns_data::pattern::{ConstantExpression, Expression, Pattern, PatternOp};

/// The levels of a left side, with the root.
const MOST_LEVELS: u32 = 5;

/// A pattern at an operation of a module.
#[derive(Clone, Copy)]
pub(crate) struct Match<'a> {
    pub world: &'a World,
    pub pattern: &'a Pattern,
    pub op: OpId,
}

/// Returns the item at an index, or `None` beyond the end.
pub(crate) fn item_at<T: Copy>(items: &[T], index: u128) -> Option<T>
    ensures { result ≡ slice_get items.now index }
{
    if index < items.len() as u128 {
        Some(items[index as usize])
    } else {
        None
    }
}

/// Returns the pattern op at a place of the left side.
pub(crate) fn op_at(pattern: &Pattern, place: u128) -> Option<PatternOp>
    ensures { result ≡ pattern_op_at (pattern_model pattern.now) place }
{
    let begins = old_begins(pattern);
    if begins <= place {
        item_at(&pattern.old, place - begins)
    } else {
        None
    }
}

/// Returns what computes the number at a place, or tests numbers there.
pub(crate) fn computed_at(pattern: &Pattern, place: u128) -> Option<ConstantExpression>
    ensures { result ≡ computed_at (pattern_model pattern.now) place }
{
    let begins = pattern.values.len() as u128 + pattern.extra.len() as u128;
    if begins <= place {
        item_at(&pattern.given, place - begins)
    } else {
        None
    }
}

/// Returns the first index of a number in a list.
pub(crate) fn index_in(numbers: &[usize], number: u128) -> Option<usize>
    ensures { result ≡ index_of number numbers.now }
{
    numbers.iter().position(|other| *other as u128 == number)
}

/// Returns the index of the operand at `place`, or `None` if no operand is there.
fn operand_index(form: &Expression, place: u128) -> Option<usize>
    ensures { result ≡ index_of place (operands_of form.now) }
{
    match form {
        Expression::Binary(_, i, j) => index_in(&[*i, *j], place),
        Expression::Compare(_, i, j) => index_in(&[*i, *j], place),
        Expression::Select(c, i, j) => index_in(&[*c, *i, *j], place),
        Expression::IntegerCast(_, i) => index_in(&[*i], place),
        Expression::IndexCast(_, i) => index_in(&[*i], place),
    }
}

/// Returns the place of an operand.
pub(crate) fn operand_place(form: &Expression, index: usize) -> Option<usize>
    ensures { result ≡ slice_get (operands_of form.now) index }
{
    let index = index as u128;
    match form {
        Expression::Binary(_, i, j) => item_at(&[*i, *j], index),
        Expression::Compare(_, i, j) => item_at(&[*i, *j], index),
        Expression::Select(c, i, j) => item_at(&[*c, *i, *j], index),
        Expression::IntegerCast(_, i) => item_at(&[*i], index),
        Expression::IndexCast(_, i) => item_at(&[*i], index),
    }
}

/// Returns the number of operands of a pattern op.
pub(crate) fn operand_total(form: &Expression) -> usize
    ensures { result ≡ length (operands_of form.now) }
{
    match form {
        Expression::Binary(..) => 2,
        Expression::Compare(..) => 2,
        Expression::Select(..) => 3,
        Expression::IntegerCast(..) => 1,
        Expression::IndexCast(..) => 1,
    }
}

/// Returns the use of the value at `place` by the pattern op at place `begins`.
fn use_by(begins: u128, form: &Expression, place: u128) -> Option<(u128, usize)>
    ensures { result ≡ use_by begins (index_of place (operands_of form.now)) }
{
    match operand_index(form, place) {
        Some(index) => Some((begins, index)),
        None => None,
    }
}

/// Returns the use of the value at `place` that a match reaches first, that of the last pattern op with one: the place
/// of the pattern op, and the index of the operand. The first pattern op has place `begins`.
fn use_of(old: &[PatternOp], begins: u128, place: u128) -> Option<(u128, usize)>
    requires { begins + length old.now < 2 ^ 101 }
    ensures { result ≡ use_of place begins old.now }
{
    let [first, later @ ..] = old else {
        return None;
    };
    match use_of(later, begins + 1, place) {
        Some(found) => Some(found),
        None => use_by(begins, &first.form, place),
    }
}

/// Returns the use of the value at `place` that a match reaches first.
fn first_use(pattern: &Pattern, place: u128) -> Option<(u128, usize)>
    ensures { result ≡ use_of place (old_place (pattern_model pattern.now)) (pattern_model pattern.now).old }
{
    use_of(&pattern.old, old_begins(pattern), place)
}

/// Returns the operation that defines a value.
pub(crate) fn node_of<'a>(world: &'a World, value: &Option<Value>) -> Option<Node<'a>>
    ensures of { IfSome result (NodeIsOf world.now.ctx) }
    ensures node { option_map (header_in world.now.ctx) result ≡ header_at (module_in world.now).tree value.now }
{
    match value {
        Some(Value::Result(op, _)) => op_node(world, *op),
        Some(Value::Arg(..)) => None,
        None => None,
    }
}

/// Returns an operand of the operation that defines a value.
pub(crate) fn operand_of(world: &World, value: &Option<Value>, index: usize) -> Option<Value>
    ensures { result ≡ slice_get (operands_at (module_in world.now).tree value.now) index }
{
    match node_of(world, value) {
        Some(node) => node.operands().get(index).copied(),
        None => None,
    }
}

/// Returns the number of operands of the operation that defines a value.
pub(crate) fn operand_count(world: &World, value: &Option<Value>) -> usize
    ensures { result ≡ length (operands_at (module_in world.now).tree value.now) }
{
    match node_of(world, value) {
        Some(node) => node.operands().len(),
        None => 0,
    }
}

/// Returns the value at `place`, if it has at most `levels` levels above it.
fn value_within(at: &Match<'_>, place: u128, levels: u32) -> Option<Value>
    ensures { result ≡ value_at (module_in at.now.world.now).tree (pattern_model at.now.pattern.now) at.now.op levels place }
{
    if levels == 0 {
        return None;
    }
    if place == at.pattern.root as u128 {
        return Some(Value::Result(at.op, 0));
    }
    let Some((parent, index)) = first_use(at.pattern, place) else {
        return None;
    };
    let above = value_within(at, parent, levels - 1);
    operand_of(at.world, &above, index)
}

/// Returns the value at `place`.
pub(crate) fn matched_value(at: &Match<'_>, place: u128) -> Option<Value>
    ensures { result ≡ matched_value (pattern_model at.now.pattern.now) (module_in at.now.world.now) at.now.op place }
{
    value_within(at, place, MOST_LEVELS)
}

/// Appends an operand of a path: `operand 1 `.
pub(crate) fn write_operand(text: &mut Vec<u8>, index: usize) -> Result<(), AllocError>
    ensures { OnOk result (text.new.items ≡ text.old.items ++ operand_text index) }
{
    text.extend_from_slice(b"operand ")?;
    write_number(text, index as u64)?;
    text.extend_from_slice(b" ")
}

/// Appends the operands that lead from the root to the value at `place`, if it has at most `levels` levels above it.
fn write_path_within(
    text: &mut Vec<u8>,
    pattern: &Pattern,
    place: u128,
    levels: u32,
) -> Result<(), AllocError>
    ensures { OnOk result (text.new.items ≡ text.old.items ++ path_text (pattern_model pattern.now) levels place) }
{
    if levels == 0 {
        return Ok(());
    }
    if place == pattern.root as u128 {
        return Ok(());
    }
    let Some((parent, index)) = first_use(pattern, place) else {
        return Ok(());
    };
    write_path_within(text, pattern, parent, levels - 1)?;
    write_operand(text, index)
}

/// Appends the operands that lead from the root to the value at `place`.
pub(crate) fn write_path(
    text: &mut Vec<u8>,
    pattern: &Pattern,
    place: u128,
) -> Result<(), AllocError>
    ensures { OnOk result (text.new.items ≡ text.old.items ++ path (pattern_model pattern.now) place) }
{
    write_path_within(text, pattern, place, MOST_LEVELS)
}
