//! Cheap tests whether a rule may apply. They compute no diagnostics and take no memory.
ghost use Rattle.std.specs.Prelude.{◌≡◌, ◌≤◌, None, Some, codes, false};
ghost use Rattle.ir_event.specs.types.Terms.{name_term};
ghost use Rattle.ir_event.specs.Modules.{module_in};
ghost use Rattle.patterns_matchers.specs.Casting.{resizing};
ghost use Rattle.patterns_matchers.specs.Looks.{defining_op};
ghost use Rattle.patterns_laws.specs.Words.{among, extensions, named};
ghost use Rattle.patterns_matchers.specs.Reads.{head_at, header_of_node};
ghost use Rattle.patterns_plans.specs.May.{chooses_by_constant, chooses_by_opposite, chooses_constant, chooses_duplicates};
ghost use Rattle.patterns_plans.specs.May.{cuts_cast, extends_extension, first_is_constant, has_duplicates, is_called};
ghost use Rattle.patterns_plans.specs.May.{may_fold, partial, reads_constant, reads_constants, second_is_constant};
ghost use Rattle.patterns_plans.specs.Planned.{IsPlanAt};

use effects::dead_op::dead_op;
use ir_event::store::node::Node;
use ir_event::trees::uses::is_same;
use ir_event::trees::value::Value;
use ir_event::types::context::Context;
use ir_event::types::ids::{NameId, OpId};
use ir_event::types::word::Word;
use ir_event::world::World;
use patterns_matchers::nodes::{defining_op, is_constant};
use patterns_matchers::op_names::{is_extension, is_integer_cast};
use patterns_matchers::rule::Rule;
use patterns_matchers::shapes::{ternary_op, unary_op};

/// Returns whether the first of two operands is the result of a constant.
fn first_is_constant(world: &World, node: &Node<'_>) -> bool
    ensures { result ≡ first_is_constant (module_in world.now).tree (header_of_node world.now.ctx node.now) }
{
    match node.operands() {
        [first, _] => is_constant(world, first),
        _ => false,
    }
}

/// Returns whether the second of two operands is the result of a constant.
fn second_is_constant(world: &World, node: &Node<'_>) -> bool
    ensures { result ≡ second_is_constant (module_in world.now).tree (header_of_node world.now.ctx node.now) }
{
    match node.operands() {
        [_, second] => is_constant(world, second),
        _ => false,
    }
}

/// Returns whether the condition of a select is the result of a constant.
fn chooses_by_constant(world: &World, node: &Node<'_>) -> bool
    ensures { result ≡ chooses_by_constant (module_in world.now).tree (header_of_node world.now.ctx node.now) }
{
    match ternary_op(node) {
        Some(p) => is_constant(world, &p.first),
        None => false,
    }
}

/// Returns whether the first value of a select is the result of a constant.
fn chooses_constant(world: &World, node: &Node<'_>) -> bool
    ensures { result ≡ chooses_constant (module_in world.now).tree (header_of_node world.now.ctx node.now) }
{
    match ternary_op(node) {
        Some(p) => is_constant(world, &p.second),
        None => false,
    }
}

/// Returns whether both operands are the same value.
fn has_duplicates(world: &World, node: &Node<'_>) -> bool
    ensures { result ≡ has_duplicates (header_of_node world.now.ctx node.now) }
{
    match node.operands() {
        [first, second] => is_same(first, second),
        _ => false,
    }
}

/// Returns whether both values of a select are the same.
fn chooses_duplicates(world: &World, node: &Node<'_>) -> bool
    ensures { result ≡ chooses_duplicates (header_of_node world.now.ctx node.now) }
{
    match ternary_op(node) {
        Some(p) => is_same(&p.second, &p.third),
        None => false,
    }
}

/// Returns whether any operand is the result of a constant.
fn reads_constant(world: &World, node: &Node<'_>) -> bool
    ensures { result ≡ reads_constant (module_in world.now).tree (header_of_node world.now.ctx node.now) }
{
    let mut rest = node.operands();
    'operands: while let [value, tail @ ..] = rest {
        if is_constant(world, value) {
            return true;
        }
        rest = tail;
    }
    false
}

/// Returns whether every operand is the result of a constant.
fn reads_constants(world: &World, node: &Node<'_>) -> bool
    ensures { result ≡ reads_constants (module_in world.now).tree (header_of_node world.now.ctx node.now) }
{
    let mut rest = node.operands();
    'operands: while let [value, tail @ ..] = rest {
        if !is_constant(world, value) {
            return false;
        }
        rest = tail;
    }
    true
}

/// Returns whether operations with this name may fold even if some operands aren't known.
#[tactic(auto, unfolding(crate::specs::May::partial))]
fn is_partial(ctx: &Context, name: NameId) -> bool
    ensures { result ≡ among partial (name_term ctx.now name) }
{
    ctx.is_word(name, Word::ArithMuli)
        || ctx.is_word(name, Word::ArithAndi)
        || ctx.is_word(name, Word::ArithOri)
        || ctx.is_word(name, Word::ArithSelect)
}

/// Returns whether enough operands are results of constants for the operation to fold.
fn may_fold(world: &World, node: &Node<'_>) -> bool
    ensures { result ≡ may_fold (module_in world.now).tree (header_of_node world.now.ctx node.now) }
{
    if is_partial(&world.ctx, node.name()) {
        return reads_constant(world, node);
    }
    reads_constants(world, node)
}

/// Returns whether the defining operation of `value` is an extension.
fn defining_op_extends(world: &World, value: &Value) -> bool
    ensures { result ≡ is_called (among extensions) (defining_op (module_in world.now).tree value.now) }
{
    match defining_op(world, value) {
        Some(defining) => is_extension(&world.ctx, defining.name()),
        None => false,
    }
}

/// Returns whether the defining operation of `value` is a cast between integers.
fn defining_op_resizes(world: &World, value: &Value) -> bool
    ensures { result ≡ is_called (among resizing) (defining_op (module_in world.now).tree value.now) }
{
    match defining_op(world, value) {
        Some(defining) => is_integer_cast(&world.ctx, defining.name()),
        None => false,
    }
}

/// Returns whether the defining operation of `value` is an exclusive or.
fn defining_op_excludes(world: &World, value: &Value) -> bool
    ensures { result ≡ is_called (named (codes "arith.xori")) (defining_op (module_in world.now).tree value.now) }
{
    match defining_op(world, value) {
        Some(defining) => world.ctx.is_word(defining.name(), Word::ArithXori),
        None => false,
    }
}

/// Returns whether the operand of a unary operation is the result of an extension.
fn extends_extension(world: &World, node: &Node<'_>) -> bool
    ensures { result ≡ extends_extension (module_in world.now).tree (header_of_node world.now.ctx node.now) }
{
    match unary_op(node) {
        Some(p) => defining_op_extends(world, &p.first),
        None => false,
    }
}

/// Returns whether the operand of a unary operation is the result of a cast between integers.
fn cuts_cast(world: &World, node: &Node<'_>) -> bool
    ensures { result ≡ cuts_cast (module_in world.now).tree (header_of_node world.now.ctx node.now) }
{
    match unary_op(node) {
        Some(p) => defining_op_resizes(world, &p.first),
        None => false,
    }
}

/// Returns whether the condition of a select is the result of an exclusive or.
fn chooses_by_opposite(world: &World, node: &Node<'_>) -> bool
    ensures { result ≡ chooses_by_opposite (module_in world.now).tree (header_of_node world.now.ctx node.now) }
{
    match ternary_op(node) {
        Some(p) => defining_op_excludes(world, &p.first),
        None => false,
    }
}

/// Returns whether a rule may apply at an operation. If the result is false, the rule doesn't apply. `node` is what
/// the store shows of the operation. The test computes no diagnostics and takes no memory.
pub fn may_match(world: &World, rule: Rule, op: OpId, node: &Node<'_>) -> bool
    requires { Some (header_of_node world.now.ctx node.now) ≡ head_at op (module_in world.now).tree }
    ensures { result ≡ false → IsPlanAt rule world.now op None }
{
    match rule {
        Rule::EraseDead => dead_op(world, op),
        Rule::FoldToConstant => may_fold(world, node),
        Rule::SwapConstant => first_is_constant(world, node),
        Rule::DropZero => second_is_constant(world, node),
        Rule::DropOne => second_is_constant(world, node),
        Rule::DropAllOnes => second_is_constant(world, node),
        Rule::CancelItself => has_duplicates(world, node),
        Rule::KeepItself => has_duplicates(world, node),
        Rule::ZeroRemainder => second_is_constant(world, node),
        Rule::RegroupConstants => second_is_constant(world, node),
        Rule::AddNegative => second_is_constant(world, node),
        Rule::CompareItself => has_duplicates(world, node),
        Rule::MirrorComparison => first_is_constant(world, node),
        Rule::CompareZero => second_is_constant(world, node),
        Rule::ChooseSame => chooses_duplicates(world, node),
        Rule::ChooseKnown => chooses_by_constant(world, node),
        Rule::ChooseTruth => chooses_constant(world, node),
        Rule::ChooseOpposite => chooses_by_opposite(world, node),
        Rule::ExtendExtension => extends_extension(world, node),
        Rule::CutCast => cuts_cast(world, node),
        Rule::CastBack
        | Rule::OpenBranch
        | Rule::OpenLoop
        | Rule::StopLoop
        | Rule::ExpandMinMax
        | Rule::ExpandDifference
        | Rule::ExpandRemainder
        | Rule::LowerIndex
        | Rule::LowerLoop
        | Rule::LowerChoice => true,
    }
}
