//! Operations whose own form and operand types show that they break no rule of the verifier, at any place: constants,
//! and arithmetic on two operands.
ghost use Rattle.std.specs.Prelude.{◌≡◌, Some, option_map, true, IfSome};
ghost use Rattle.std.specs.List.{All};
ghost use Rattle.ir_event.specs.types.Things.{IsAttr, IsType};
ghost use Rattle.ir_event.specs.trees.Ids.{find};
ghost use Rattle.ir_event.specs.store.Nodes.{node_of};
ghost use Rattle.ir_event.specs.types.Terms.{name_term, type_term};
ghost use Rattle.dialects_int.specs.Folds.{entries_of};
ghost use Rattle.patterns_laws.specs.Words.{among};
ghost use Rattle.ir_verify_base.specs.Numbers.{node_in};
ghost use Rattle.patterns_base.specs.events.Modules.{NodeIsOf, module_in};
ghost use Rattle.patterns_base.specs.Looks.{breaks_none};
ghost use Rattle.patterns_base.specs.Diagnostics.{broken_at};
ghost use Rattle.patterns_matchers.specs.TriviallyVerified.{GivesPlainly, IsTriviallyVerified, IsConstantOf};
ghost use Rattle.patterns_matchers.specs.Pairs.{AreFlags, IsPair, pairs};

use crate::op_names::word_name;
use crate::types::{is_of_type, kind_of};
use ir_event::store::node::Node;
use ir_event::types::bits::Bits;
use ir_event::types::context::Context;
use ir_event::types::ids::{AttrId, NameId, OpId, TypeId};
use ir_event::types::word::Word;
use ir_verify_base::types::is_number;
use op_registry::property::{allows, integer_of};
use patterns_base::events::world::World;

/// Returns whether an operation of the module is a constant of its result's type, or arithmetic on two operands of
/// that type. Most operations that rules read are. Such an operation breaks no rule, so the verifier needn't run.
pub(crate) fn is_trivially_verified(world: &World, op: OpId) -> bool
    ensures { result ≡ true → breaks_none (broken_at op (module_in world.now).tree) ≡ true }
{
    let Some(node) = world.shown(op) else {
        return false;
    };
    is_trivially_verified_node(world, op, &node)
}

/// Returns the same as `is_trivially_verified`. `node` is what the store shows of the operation.
pub(crate) fn is_trivially_verified_node(world: &World, op: OpId, node: &Node<'_>) -> bool
    requires stored { Some node.now ≡ option_map node_of (find op world.now.store.module_of.tree) }
    requires of { NodeIsOf world.now.ctx node.now }
    ensures { result ≡ true → breaks_none (broken_at op (module_in world.now).tree) ≡ true }
{
    has_constant_form(&world.ctx, node) || has_pair_form(world, node)
}

/// Returns the type and the bits of a constant in plain form, or `None` for another node. A constant in plain form has
/// no operands and no regions, one result, and its value as the only property, with the type of the result.
fn constant_integer_of_node(ctx: &Context, node: &Node<'_>) -> Option<(TypeId, u128)>
    requires { NodeIsOf ctx.now node.now }
    ensures simple { IfSome result (λ i. IsConstantOf (node_in ctx.now node.now) (type_term ctx.now i.0) i.1) }
    ensures ty { IfSome result (λ i. IsType ctx.now i.0) }
{
    if !ctx.is_word(node.name(), Word::ArithConstant) {
        return None;
    }
    if node.region_count() != 0 {
        return None;
    }
    let [] = node.operands() else {
        return None;
    };
    let [ty] = node.results() else {
        return None;
    };
    let [entry] = node.properties() else {
        return None;
    };
    if !ctx.is_word(entry.0, Word::Value) {
        return None;
    }
    let Some(integer) = integer_of(ctx, entry.1) else {
        return None;
    };
    if integer.0 == *ty && is_number(ctx, *ty) {
        Some(integer)
    } else {
        None
    }
}

/// Returns whether a node is a constant in plain form.
fn has_constant_form(ctx: &Context, node: &Node<'_>) -> bool
    requires { NodeIsOf ctx.now node.now }
    ensures { result ≡ true → IsTriviallyVerified (node_in ctx.now node.now) }
{
    match constant_integer_of_node(ctx, node) {
        Some(_) => true,
        None => false,
    }
}

/// Returns the bits of a constant in plain form, or `None` for another node.
pub(crate) fn constant_bits_of_node(ctx: &Context, node: &Node<'_>) -> Option<Bits>
    requires { NodeIsOf ctx.now node.now }
    ensures { IfSome result (λ b. GivesPlainly (node_in ctx.now node.now) b.kind b.value) }
{
    let Some((ty, value)) = constant_integer_of_node(ctx, node) else {
        return None;
    };
    let Some(kind) = kind_of(ctx, ty) else {
        return None;
    };
    Bits::new(kind, value)
}

/// Returns whether a name is that of arithmetic on two operands of its result's type.
#[tactic(auto, unfolding(crate::specs::Pairs::pairs))]
fn is_pair(ctx: &Context, name: NameId) -> bool
    ensures { result ≡ among pairs (name_term ctx.now name) }
{
    ctx.is_word(name, Word::ArithAddi)
        || ctx.is_word(name, Word::ArithMuli)
        || ctx.is_word(name, Word::ArithSubi)
        || ctx.is_word(name, Word::ArithAndi)
        || ctx.is_word(name, Word::ArithOri)
        || ctx.is_word(name, Word::ArithXori)
        || ctx.is_word(name, Word::ArithShli)
        || ctx.is_word(name, Word::ArithShrsi)
        || ctx.is_word(name, Word::ArithShrui)
        || ctx.is_word(name, Word::ArithDivsi)
        || ctx.is_word(name, Word::ArithDivui)
        || ctx.is_word(name, Word::ArithRemsi)
        || ctx.is_word(name, Word::ArithRemui)
        || ctx.is_word(name, Word::ArithMaxsi)
        || ctx.is_word(name, Word::ArithMaxui)
        || ctx.is_word(name, Word::ArithMinsi)
        || ctx.is_word(name, Word::ArithMinui)
}

/// Returns whether there are no properties, or only overflow flags.
fn are_flags(ctx: &Context, entries: &[(NameId, AttrId)]) -> bool
    requires { All (λ e. IsAttr ctx.now e.1) entries.now }
    ensures { result ≡ true → AreFlags (entries_of ctx.now entries.now) }
{
    match entries {
        [] => true,
        [entry] => {
            ctx.is_word(entry.0, Word::OverflowFlags)
                && allows(ctx, word_name(ctx, Word::OverflowFlags), entry.1)
        }
        _ => false,
    }
}

/// Returns whether a node is arithmetic without regions, on two operands of its result's type.
fn has_pair_form(world: &World, node: &Node<'_>) -> bool
    requires { NodeIsOf world.now.ctx node.now }
    ensures { result ≡ true → IsPair (module_in world.now).tree (node_in world.now.ctx node.now) }
{
    if !is_pair(&world.ctx, node.name()) {
        return false;
    }
    if node.region_count() != 0 {
        return false;
    }
    let [first, second] = node.operands() else {
        return false;
    };
    let [ty] = node.results() else {
        return false;
    };
    if !are_flags(&world.ctx, node.properties()) {
        return false;
    }
    if !is_number(&world.ctx, *ty) {
        return false;
    }
    if !is_of_type(world, *ty, *first) {
        return false;
    }
    is_of_type(world, *ty, *second)
}
